// The texts of rules, as they are printed.
use std::fmt;

// A text as it is printed, with `?` for each byte that is no printable ASCII.
#[derive(Clone, Copy)]
pub struct Printable<'a>(pub &'a [u8]);

impl fmt::Display for Printable<'_> {
    fn fmt<W: fmt::Write>(&self, f: &mut fmt::Formatter<W>) -> fmt::Result {
        for byte in self.0 {
            let c = match *byte {
                b' '..=b'~' => char::from(*byte),
                _ => '?',
            };
            f.write_char(c)?;
        }
        Ok(())
    }
}
