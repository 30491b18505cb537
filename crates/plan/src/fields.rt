// Reading the fields of a file: numbers of two, four and eight bytes, the lowest byte first.
ghost use Rattle.std.specs.Prelude.{◌≡◌, ◌+◌, ◌≤◌, length, take, drop};
ghost use Rattle.plan.specs.Numbers.{field};

// The W bytes from a byte on.
fn bytes_at<const W: usize>(file: &[u8], at: usize) -> [u8; W]
    requires { at + W ≤ length file.now }
    ensures { result ≡ take W (drop at file.now) }
{
    file[at..at + W].try_into().unwrap()
}

pub(crate) fn u16_at(file: &[u8], at: usize) -> u16
    requires { at + 2 ≤ length file.now }
    ensures { result ≡ field 2 at file.now }
{
    u16::from_le_bytes(bytes_at(file, at))
}

pub(crate) fn u32_at(file: &[u8], at: usize) -> u32
    requires { at + 4 ≤ length file.now }
    ensures { result ≡ field 4 at file.now }
{
    u32::from_le_bytes(bytes_at(file, at))
}

pub(crate) fn u64_at(file: &[u8], at: usize) -> u64
    requires { at + 8 ≤ length file.now }
    ensures { result ≡ field 8 at file.now }
{
    u64::from_le_bytes(bytes_at(file, at))
}

// The text of the rule that begins at a byte, behind its length.
pub(crate) fn text_of(file: &[u8], byte: usize) -> &[u8]
    requires { byte + 2 + field 2 byte file.now ≤ length file.now }
    ensures text { result.now ≡ take (field 2 byte file.now) (drop (byte + 2) file.now) }
    ensures long { length result.now ≡ field 2 byte file.now }
{
    let start = byte + 2;
    let end = start + usize::from(u16_at(file, byte));
    &file[start..end]
}
