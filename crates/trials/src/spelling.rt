// Parts of the cases, which are written as text.

// What each case of a list ends with.
pub const END: &str = ";\n";

// What stands before a mark, and what behind it; all stands before it where it does not come.
pub fn halves<'a>(text: &'a str, mark: &str) -> (&'a str, &'a str) {
    text.split_once(mark).unwrap_or((text, ""))
}

// The number that is written, or 0.
pub fn number(text: &str) -> usize {
    text.parse().unwrap_or(0)
}

// The byte that a character stands for.
pub fn byte_of(c: char) -> u8 {
    u8::try_from(c).unwrap_or(b'?')
}
