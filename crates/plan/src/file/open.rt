// Opening a plan file, and the network that it is.
ghost use Rattle.std.specs.Prelude.{refl};
ghost use Rattle.plan.specs.Files.{file_meaning, OpenedPlan};
ghost use Rattle.plan.specs.Fitting.{file_fits};

use crate::fault::PlanFault;
use crate::fields::{u16_at, u32_at, u64_at};
use crate::file::PlanFile;
use crate::file::shaped::ShapedFile;
use crate::layout::{FIRST_BODY, PLACE_BYTES};
use crate::shape::binding_byte;
use conditions::word::Word;
use routing::binding::Binding;
use routing::network::Network;

impl<'a> PlanFile<'a> {
    // Reads a plan from its file.
    pub fn open(bytes: &'a [u8]) -> Result<PlanFile<'a>, PlanFault>
        ensures { OpenedPlan bytes.now result }
    {
        let file = ShapedFile::open(bytes)?;
        file.check_texts()?;
        Ok(PlanFile { file })
    }
}

impl<'a> Network for PlanFile<'a> {
    type Set = Word;

    ghost meaning = { file_meaning };

    ghost fits = { file_fits };

    ghost over = { λ _. refl };

    fn places(&self) -> usize {
        self.file.counted.places
    }

    fn bindings(&self) -> usize {
        self.file.counted.bindings
    }

    fn marks(&self, place: usize) -> Option<u32> {
        if place < self.file.counted.places {
            Some(u32_at(self.file.counted.bytes, FIRST_BODY + PLACE_BYTES * place))
        } else {
            None
        }
    }

    fn binding(&self, number: usize) -> Option<Binding<Word>> {
        let file = self.file.counted;
        if number >= file.bindings {
            return None;
        }
        let byte = binding_byte(file.places, number);
        Some(Binding {
            from: u16_at(file.bytes, byte),
            to: u16_at(file.bytes, byte + 2),
            set: Word(u64_at(file.bytes, byte + 4)),
        })
    }
}
