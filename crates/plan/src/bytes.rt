// What is known of lent bytes.
ghost use Rattle.std.specs.Prelude.{◌^◌, ◌<◌};
ghost use Rattle.plan.specs.Reading.{Each};

// Reads each byte, whereby each is known to be one.
pub(crate) fn known_bytes(bytes: &[u8])
    ensures { Each (λ b. b < 2 ^ 8) bytes.now }
{
    for b in bytes {
        let _byte = *b;
    }
}
