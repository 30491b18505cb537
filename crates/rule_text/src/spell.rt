// Telling words apart.
ghost use Rattle.std.specs.Prelude.{◌≡◌, ◌≤◌, min};
ghost use Rattle.std.specs.Option.{option_map};
ghost use Rattle.rule_text.specs.Words.{named_word, number_below, number_from, number_of, one_byte, tested, two_letters, word_of};

use crate::fault::FaultKind;
use crate::word::{Prefix, Quantifier, Word};
use routing::network::MARKS;

// The value of the digits, or 255 where it is more; absent where one of them is no digit.
fn value(digits: &[u8]) -> Option<u8>
    ensures { result ≡ option_map (λ n. min n 255) (number_from 0 digits.now) }
{
    let mut value = 0u8;
    for &digit in digits {
        if !digit.is_ascii_digit() {
            return None;
        }
        value = value.saturating_mul(10).saturating_add(digit - b'0');
    }
    Some(value)
}

// The number that the digits write, or 255 where it is more; absent where they write none.
fn number(digits: &[u8]) -> Option<u8>
    ensures { result ≡ option_map (λ n. min n 255) (number_of digits.now) }
{
    match digits {
        [] | [b'0', _, ..] => None,
        _ => value(digits),
    }
}

// The number that the digits write, which has to be below the limit.
fn number_below(digits: &[u8], limit: u32) -> Result<u8, FaultKind>
    requires { limit ≤ 32 }
    ensures { result ≡ number_below limit (number_of digits.now) }
{
    let k = number(digits).ok_or(FaultKind::UnknownWord)?;
    if u32::from(k) < limit {
        Ok(k)
    } else {
        Err(FaultKind::OutOfRange)
    }
}

// The two-letter words.
fn two_letters(letters: &[u8]) -> Option<Prefix>
    ensures { result ≡ two_letters letters.now }
{
    match letters {
        [b'E', b'X'] => Some(Prefix::Ex),
        [b'A', b'X'] => Some(Prefix::Ax),
        [b'E', b'F'] => Some(Prefix::Ef),
        [b'A', b'F'] => Some(Prefix::Af),
        [b'E', b'G'] => Some(Prefix::Eg),
        [b'A', b'G'] => Some(Prefix::Ag),
        _ => None,
    }
}

// The words of one byte.
fn one_byte(b: u8) -> Option<Word>
    ensures { result ≡ one_byte b }
{
    match b {
        b'E' => Some(Word::Routes(Quantifier::Exists)),
        b'A' => Some(Word::Routes(Quantifier::Forall)),
        b'U' => Some(Word::Until),
        b'!' => Some(Word::Before(Prefix::Not)),
        b'&' => Some(Word::And),
        b'|' => Some(Word::Or),
        b'(' => Some(Word::Open),
        b')' => Some(Word::Close),
        b'[' => Some(Word::OpenSquare),
        b']' => Some(Word::CloseSquare),
        _ => None,
    }
}

// The words of fixed letters, `yes` and the two-letter words.
fn named(letters: &[u8]) -> Option<Word>
    ensures { result ≡ named_word letters.now }
{
    match letters {
        [b'y', b'e', b's'] => Some(Word::Yes),
        _ => two_letters(letters).map(Word::Before),
    }
}

// The word that the bytes spell, where there are so many conditions; else why they are refused.
pub(crate) fn read_word(bytes: &[u8], conditions: u32) -> Result<Word, FaultKind>
    requires { conditions ≤ 16 }
    ensures { result ≡ tested conditions (word_of bytes.now) }
{
    match bytes {
        [b] => one_byte(*b).ok_or(FaultKind::UnknownWord),
        [b'm', digits @ ..] => number_below(digits, u32::from(MARKS)).map(Word::Mark),
        [b'c', digits @ ..] => number_below(digits, conditions).map(Word::Condition),
        _ => named(bytes).ok_or(FaultKind::UnknownWord),
    }
}
