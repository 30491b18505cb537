// Shutting one binding of a list of records for a time.
ghost use Rattle.std.specs.Prelude.{◌≡◌, ℕ, ◌<◌, false, length};
ghost use Rattle.conditions.specs.WordSets.{word_holds};
ghost use Rattle.verdicts.specs.Shutting.{with_set, set_at, shut_at};

use conditions::word::Word;
use routing::binding::Binding;

// Empties the set of a binding, and answers the old set.
pub(crate) fn empty_set(records: &mut [Binding<Word>], number: usize) -> Word
    requires { number < length records.old }
    ensures value { result ≡ set_at records.old number }
    ensures closed { (a : ℕ) → word_holds (set_at records.new number) a ≡ false }
    ensures after { records.new ≡ shut_at number records.old }
{
    let old = records[number].set;
    records[number].set = Word(0);
    old
}

// A list of records with one binding shut: its old set is put back when the guard is dropped.
pub struct Shut<'a> {
    pub records: &'a mut [Binding<Word>],
    pub number: usize,
    pub old: Word,
}

impl Shut<'_> {
    // The records while the binding is shut.
    pub fn view(&self) -> &[Binding<Word>]
        ensures { result.now ≡ self.entry.now.records.now }
    {
        &*self.records
    }
}

impl Drop for Shut<'_> {
    fn drop(self)
        requires { self.number < length self.records.now }
        ensures { self.exit.0.now ≡ with_set self.entry.records.now self.entry.number self.entry.old }
    {
        self.records[self.number].set = self.old;
        let Shut {
            records: _,
            number: _,
            old: _,
        } = self;
    }
}
