// A plan as it is read from its file: a network and its rules, answered from the bytes that the caller lends.
ghost use Rattle.plan.specs.Reading.{TextsRead};

pub mod open;
pub mod rules;
pub(crate) mod shaped;

use crate::file::shaped::ShapedFile;

#[derive(Clone, Copy)]
pub struct PlanFile<'a> {
    file: ShapedFile<'a>,
    ghost read: { ∥ TextsRead file.counted.bytes.now ∥₁ },
}
