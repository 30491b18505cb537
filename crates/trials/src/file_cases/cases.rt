// The files, each with the lines that its report must have: `FILE: LINES`, or with changes in order `FILE, CHANGE: LINES`
// and `FILE, CHANGE, CHANGE: LINES`. Each byte of a change is written as the character with its number. Each case ends with
// a semicolon, and what begins with # is a heading.
//
// The lines are worked out by hand from the order of the tests:
// under 24 bytes 7; counts 9; contents 6; lengths of texts 7 or 9; the file's end 7; binding ends 8; the texts.
pub mod fields;
pub mod orders;
pub mod texts;
pub mod whole;
