// Writing the file of a plan.
ghost use Rattle.std.specs.Prelude.{◌≡◌, ◌+◌, ◌^◌, ◌<◌, ◌≤◌, length, IfOk, MatchResult};
ghost use Rattle.std.specs.Result.{result_err};
ghost use Rattle.plan.specs.Numbers.{bytes_of};
ghost use Rattle.plan.specs.Put.{Put};
ghost use Rattle.plan.specs.Format.{entry, contents, binding_bytes, text_bytes, flat, encoded};
ghost use Rattle.plan.specs.Reading.{Each, IsRuleText};
ghost use Rattle.plan.specs.Writing.{lent, plan_with, site_plan, texts_fault, BadText, Writable, Writing};

use crate::bytes::known_bytes;
use crate::fault::{FileFault, FileFaultKind, PlanFault, WriteFault};
use crate::file::rules::MOST_RULES;
use crate::layout::{BINDING_BYTES, BINDINGS, FIRST_BODY, PLACE_BYTES, PLACES, RULE_COUNT, RULES};
use crate::shape::{binding_byte, check};
use crate::text::check_text;
use conditions::word::Word;
use routing::binding::Binding;
use routing::site::SiteTable;
use rule_text::read::MOST_BYTES;

// The length of the file whose rules begin at `start`, or the first limit that the texts do not keep.
fn file_length(start: usize, texts: &[&[u8]]) -> Result<usize, FileFault>
    requires { start < 2 ^ 32 }
    ensures fault { result_err result ≡ texts_fault start (lent texts.now) }
    ensures long { IfOk result (λ n. n ≡ start + length (flat text_bytes (lent texts.now))) }
{
    check(
        texts.len() <= MOST_RULES,
        FileFaultKind::OverLimit,
        RULE_COUNT,
    )?;
    let mut byte = start;
    for text in texts {
        check(text.len() <= MOST_BYTES, FileFaultKind::OverLimit, byte)?;
        byte += 2 + text.len();
    }
    Ok(byte)
}

// Tests that the texts are rules.
fn check_texts(texts: &[&[u8]]) -> Result<(), PlanFault>
    ensures { MatchResult result
        (λ _. Each IsRuleText (lent texts.now) × Each (Each (λ b. b < 2 ^ 8)) (lent texts.now))
        (λ e. BadText (lent texts.now) e) }
{
    for (number, text) in texts.iter().enumerate() {
        check_text(number, text)?;
        known_bytes(text);
    }
    Ok(())
}

// Writes the bytes to `out` from number `at` on, where there is room for them, and answers the number behind them.
fn write(bytes: &[u8], out: &mut [u8], at: usize) -> usize
    requires { at + length bytes.now ≤ length out.old }
    ensures { Put out.old at bytes.now out.new result }
{
    let next = at + bytes.len();
    out[at..next].copy_from_slice(bytes);
    next
}

// Writes a contents entry.
fn write_entry(kind: u16, count: u16, start: u32, out: &mut [u8], at: usize) -> usize
    requires { at + 8 ≤ length out.old }
    ensures { Put out.old at (entry kind count start) out.new result }
{
    let behind_kind = write(&kind.to_le_bytes(), out, at);
    let behind_count = write(&count.to_le_bytes(), out, behind_kind);
    write(&start.to_le_bytes(), out, behind_count)
}

// Writes the contents of so many places, bindings and rules.
fn write_contents(places: usize, bindings: usize, rules: usize, out: &mut [u8]) -> usize
    requires few_places { places ≤ 256 }
    requires few_bindings { bindings ≤ 4096 }
    requires few_rules { rules ≤ 8 }
    requires room { 24 ≤ length out.old }
    ensures { Put out.old 0 (contents places bindings rules) out.new result }
{
    let second = FIRST_BODY + PLACE_BYTES * places;
    let third = second + BINDING_BYTES * bindings;
    let behind_first = write_entry(PLACES, places as u16, FIRST_BODY as u32, out, 0);
    let behind_second = write_entry(BINDINGS, bindings as u16, second as u32, out, behind_first);
    write_entry(RULES, rules as u16, third as u32, out, behind_second)
}

// Writes the marks of each place.
fn write_marks(marks: &[u32], out: &mut [u8], at: usize) -> usize
    requires { at + length (flat (bytes_of 4) marks.now) ≤ length out.old }
    ensures put { Put out.old at (flat (bytes_of 4) marks.now) out.new result }
    ensures fit { Each (λ m. m < 2 ^ 32) marks.now }
{
    let mut next = at;
    for m in marks {
        next = write(&m.to_le_bytes(), out, next);
    }
    next
}

// Writes a binding.
fn write_binding(binding: &Binding<Word>, out: &mut [u8], at: usize) -> usize
    requires { at + 12 ≤ length out.old }
    ensures put { Put out.old at (binding_bytes binding.now) out.new result }
    ensures fits { binding.now.set.0 < 2 ^ 64 }
{
    let behind_from = write(&binding.from.to_le_bytes(), out, at);
    let behind_to = write(&binding.to.to_le_bytes(), out, behind_from);
    write(&binding.set.0.to_le_bytes(), out, behind_to)
}

// Writes the bindings.
fn write_bindings(records: &[Binding<Word>], out: &mut [u8], at: usize) -> usize
    requires { at + length (flat binding_bytes records.now) ≤ length out.old }
    ensures put { Put out.old at (flat binding_bytes records.now) out.new result }
    ensures fit { Each (λ b. b.set.0 < 2 ^ 64) records.now }
{
    let mut next = at;
    for b in records {
        next = write_binding(b, out, next);
    }
    next
}

// Writes a text behind its length.
fn write_text(text: &[u8], out: &mut [u8], at: usize) -> usize
    requires room { at + length (text_bytes text.now) ≤ length out.old }
    requires short { length text.now ≤ 200 }
    ensures { Put out.old at (text_bytes text.now) out.new result }
{
    let behind_length = write(&(text.len() as u16).to_le_bytes(), out, at);
    write(text, out, behind_length)
}

// Writes the texts of rules.
fn write_texts(texts: &[&[u8]], out: &mut [u8], at: usize) -> usize
    requires room { at + length (flat text_bytes (lent texts.now)) ≤ length out.old }
    requires rules { Each IsRuleText (lent texts.now) }
    ensures { Put out.old at (flat text_bytes (lent texts.now)) out.new result }
{
    let mut next = at;
    for text in texts {
        next = write_text(text, out, next);
    }
    next
}

// Writes the file of a plan that is known to be one, and answers how many bytes.
fn write_file(marks: &[u32], records: &[Binding<Word>], texts: &[&[u8]], out: &mut [u8]) -> usize
    requires { Writable (plan_with marks.now records.now texts.now) (length out.old) }
    ensures put { Put out.old 0 (encoded (plan_with marks.now records.now texts.now)) out.new result }
    ensures marks_fit { Each (λ m. m < 2 ^ 32) marks.now }
    ensures sets_fit { Each (λ b. b.set.0 < 2 ^ 64) records.now }
{
    let behind_contents = write_contents(marks.len(), records.len(), texts.len(), out);
    let behind_marks = write_marks(marks, out, behind_contents);
    let behind_bindings = write_bindings(records, out, behind_marks);
    write_texts(texts, out, behind_bindings)
}

// Writes the file of a plan to the front of `out`: the network of the site table, and the rules' texts.
// Answers how many bytes.
pub fn write_plan(
    site: &SiteTable<'_, Word>,
    texts: &[&[u8]],
    out: &mut [u8],
) -> Result<usize, WriteFault>
    ensures { Writing (site_plan site.now texts.now) out.old out.new result }
{
    let marks = site.lent_marks();
    let records = site.lent_records();
    let length = file_length(binding_byte(marks.len(), records.len()), texts)?;
    check_texts(texts)?;
    if out.len() < length {
        return Err(WriteFault::TooShort);
    }
    Ok(write_file(marks, records, texts, out))
}
