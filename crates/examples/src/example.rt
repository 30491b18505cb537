// An example plan as records.
use conditions::word::Word;
use routing::binding::Binding;
use std::alloc::{AllocError, Global};

// A binding: from, to, and the word of the settings under which it forwards.
#[derive(Clone, Copy)]
pub struct Forwards(pub u16, pub u16, pub u64);

impl From<Forwards> for Binding<Word> {
    fn from(Forwards(from, to, settings): Forwards) -> Binding<Word> {
        Binding {
            from,
            to,
            set: Word(settings),
        }
    }
}

// The words of the settings with a condition on.
pub const C0: u64 = 0xAAAA_AAAA_AAAA_AAAA;

pub const C1: u64 = 0xCCCC_CCCC_CCCC_CCCC;

pub const C2: u64 = 0xF0F0_F0F0_F0F0_F0F0;

pub const C3: u64 = 0xFF00_FF00_FF00_FF00;

pub const C4: u64 = 0xFFFF_0000_FFFF_0000;

pub const C5: u64 = 0xFFFF_FFFF_0000_0000;

// The word of all settings.
pub const ALWAYS: u64 = 0xFFFF_FFFF_FFFF_FFFF;

#[derive(Clone, Copy)]
pub struct Example {
    pub name: &'static str,
    // The marks of each place.
    pub marks: &'static [u32],
    pub bindings: &'static [Forwards],
    // The texts of the rules.
    pub rules: &'static [&'static [u8]],
}

impl Example {
    // The path of its file in the folder data/, in which the program is run.
    pub fn path(&self, heap: Global) -> Result<String, AllocError> {
        format!(in heap; "{}.plan", self.name)
    }

    // Its bindings as a site table takes them.
    pub fn records(&self, heap: Global) -> Result<Vec<Binding<Word>>, AllocError> {
        self.bindings
            .iter()
            .copied()
            .map(Binding::from)
            .collect(heap)
    }
}
