// The tests of a file outside the texts of its rules.
ghost use Rattle.std.specs.Prelude.{◌≡◌, ◌+◌, ◌<◌, ◌≤◌, [], ◌∷◌, length, nat_lt, not, IfOk};
ghost use Rattle.std.specs.Result.{result_err};
ghost use Rattle.plan.specs.Contents.{binding_count, place_count, rule_count};
ghost use Rattle.plan.specs.Format.{longest, rules_start};
ghost use Rattle.plan.specs.Shape.{
  contents_fault,
  counted_fault,
  counts_fault,
  differs,
  end_fault,
  ends_fault,
  faulty,
  first_fault,
  lengths_fault,
  no_place,
  over,
  shape_fault,
  wrong_length,
};

use crate::fault::{FileFault, FileFaultKind};
use crate::fields::{u16_at, u32_at};
use crate::file::rules::MOST_RULES;
use crate::layout::{
    BINDING_BYTES, BINDING_COUNT, BINDINGS, FIRST_BODY, PLACE_BYTES, PLACE_COUNT, PLACES,
    RULE_COUNT, RULES,
};
use routing::network::{MOST_BINDINGS, MOST_PLACES};
use rule_text::read::MOST_BYTES;

// The fault at the byte, where the test does not hold.
pub(crate) fn check(holds: bool, kind: FileFaultKind, byte: usize) -> Result<(), FileFault>
    ensures { result_err result ≡ faulty (not holds) kind byte }
{
    if holds {
        Ok(())
    } else {
        Err(FileFault { kind, byte })
    }
}

// 9 where the field of two bytes is above the limit.
fn check_limit(file: &[u8], at: usize, limit: usize) -> Result<(), FileFault>
    requires { at + 2 ≤ length file.now }
    ensures { result_err result ≡ over limit 2 at file.now }
{
    let value = usize::from(u16_at(file, at));
    check(value <= limit, FileFaultKind::OverLimit, at)
}

// The byte where the binding with this number begins. Behind the last binding the rules begin.
pub(crate) fn binding_byte(places: usize, number: usize) -> usize
    requires places { places < 65536 }
    requires number { number < 65536 }
    ensures { result ≡ rules_start places number }
{
    FIRST_BODY + PLACE_BYTES * places + BINDING_BYTES * number
}

// 6 where the contents entry at a byte has another kind or start.
fn check_entry(file: &[u8], at: usize, kind: u16, start: usize) -> Result<(), FileFault>
    requires { at + 8 ≤ length file.now }
    ensures { result_err result
        ≡ first_fault (differs kind 2 at file.now ∷ differs start 4 (at + 4) file.now ∷ []) }
{
    check(u16_at(file, at) == kind, FileFaultKind::BadContents, at)?;
    let same = u32_at(file, at + 4) as usize == start;
    check(same, FileFaultKind::BadContents, at + 4)
}

// The length of the text of the rule that begins at `byte`: it lies in the file and keeps to its limit.
fn check_length(file: &[u8], byte: usize, total: usize) -> Result<(), FileFault>
    requires front { byte + 2 ≤ total → byte + 2 ≤ length file.now }
    requires small { byte < 65536 }
    ensures { result_err result
        ≡ first_fault (wrong_length (nat_lt total (byte + 2)) total ∷ over 200 2 byte file.now ∷ []) }
{
    check(total >= byte + 2, FileFaultKind::WrongLength, total)?;
    check_limit(file, byte, MOST_BYTES)
}

// A file that is long enough for its contents, and the counts that stand there, each in two bytes.
#[derive(Clone, Copy)]
pub(crate) struct CountedFile<'a> {
    pub(crate) bytes: &'a [u8],
    pub(crate) places: usize,
    pub(crate) bindings: usize,
    pub(crate) rules: usize,
    ghost long: { 24 ≤ length bytes.now },
    ghost places_are: { places ≡ place_count bytes.now },
    ghost bindings_are: { bindings ≡ binding_count bytes.now },
    ghost rules_are: { rules ≡ rule_count bytes.now },
    ghost small_places: { places < 65536 },
    ghost small_bindings: { bindings < 65536 },
}

impl<'a> CountedFile<'a> {
    // Reads the counts of a file that is long enough for them.
    fn read(bytes: &'a [u8]) -> CountedFile<'a>
        requires { 24 ≤ length bytes.now }
        ensures { result.bytes.now ≡ bytes.now }
    {
        CountedFile {
            bytes,
            places: usize::from(u16_at(bytes, PLACE_COUNT)),
            bindings: usize::from(u16_at(bytes, BINDING_COUNT)),
            rules: usize::from(u16_at(bytes, RULE_COUNT)),
        }
    }

    // 9 where a count is above its limit.
    fn check_counts(&self) -> Result<(), FileFault>
        ensures { result_err result ≡ counts_fault self.now.bytes.now }
    {
        check_limit(self.bytes, PLACE_COUNT, MOST_PLACES)?;
        check_limit(self.bytes, BINDING_COUNT, MOST_BINDINGS)?;
        check_limit(self.bytes, RULE_COUNT, MOST_RULES)
    }

    // 6 where an entry has another kind, or another start than the counts before it give.
    fn check_contents(&self) -> Result<(), FileFault>
        ensures { result_err result ≡ contents_fault self.now.bytes.now }
    {
        check_entry(self.bytes, 0, PLACES, FIRST_BODY)?;
        check_entry(self.bytes, 8, BINDINGS, binding_byte(self.places, 0))?;
        check_entry(
            self.bytes,
            16,
            RULES,
            binding_byte(self.places, self.bindings),
        )
    }

    // The lengths of the rules' texts, and the end of the file behind the last of them.
    fn check_rules(&self, total: usize) -> Result<(), FileFault>
        requires front { length self.now.bytes.now < longest → length self.now.bytes.now ≡ total }
        requires few_places { self.now.places ≤ 256 }
        requires few_bindings { self.now.bindings ≤ 4096 }
        requires few_rules { self.now.rules ≤ 8 }
        ensures { result_err result
            ≡ first_fault (lengths_fault total self.now.bytes.now 0 (rule_count self.now.bytes.now)
            ∷ end_fault total self.now.bytes.now ∷ []) }
    {
        let mut byte = binding_byte(self.places, self.bindings);
        for rule in 0..self.rules {
            check_length(self.bytes, byte, total)?;
            byte += 2 + usize::from(u16_at(self.bytes, byte));
        }
        check(byte == total, FileFaultKind::WrongLength, total)
    }

    // 8 where the field of two bytes is none of the places.
    fn check_end(&self, at: usize) -> Result<(), FileFault>
        requires { at + 2 ≤ length self.now.bytes.now }
        ensures { result_err result ≡ no_place at self.now.bytes.now }
    {
        let end = usize::from(u16_at(self.bytes, at));
        check(end < self.places, FileFaultKind::NoPlace, at)
    }

    // The ends of the bindings, `from` before `to`.
    fn check_ends(&self) -> Result<(), FileFault>
        requires { rules_start self.now.places self.now.bindings ≤ length self.now.bytes.now }
        ensures { result_err result ≡ ends_fault self.now.bytes.now 0 (binding_count self.now.bytes.now) }
    {
        for number in 0..self.bindings {
            let byte = binding_byte(self.places, number);
            self.check_end(byte)?;
            self.check_end(byte + 2)?;
        }
        Ok(())
    }

    // The counts, the contents, the rules' lengths with the end of the file, and the ends of the bindings.
    fn check_all(&self, total: usize) -> Result<(), FileFault>
        requires front { length self.now.bytes.now < longest → length self.now.bytes.now ≡ total }
        ensures { result_err result ≡ counted_fault total self.now.bytes.now }
    {
        self.check_counts()?;
        self.check_contents()?;
        self.check_rules(total)?;
        self.check_ends()
    }
}

// A file with no fault, or the first fault of a file of `total` bytes, of which `file` has at least the front that a plan
// could fill.
#[tactic(auto, unfolding(crate::specs::Shape::shape_fault))]
pub(crate) fn check_shape(file: &[u8], total: usize) -> Result<CountedFile<'_>, FileFault>
    requires front { length file.now < longest → length file.now ≡ total }
    ensures fault { result_err result ≡ shape_fault total file.now }
    ensures file { IfOk result (λ f. f.bytes.now ≡ file.now) }
{
    check(total >= FIRST_BODY, FileFaultKind::WrongLength, total)?;
    let counted = CountedFile::read(file);
    counted.check_all(total)?;
    Ok(counted)
}
