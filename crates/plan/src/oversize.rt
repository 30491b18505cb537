// Files that are longer than any plan: their fault can be told from the front that a plan could fill.
ghost use Rattle.std.specs.Prelude.{◌≡◌, ℕ, List, ◌++◌, length, MatchOption};
ghost use Rattle.plan.specs.declared.fault.PlanFault.TheVariants.{InFile};
ghost use Rattle.plan.specs.Reading.{LeftOpen, Refused};

use crate::fault::FileFault;
use crate::file::rules::MOST_RULES;
use crate::layout::{BINDING_BYTES, FIRST_BODY, PLACE_BYTES};
use crate::shape::check_shape;
use routing::network::{MOST_BINDINGS, MOST_PLACES};
use rule_text::read::MOST_BYTES;

// The length of the longest file: of the most places, bindings and rules, each rule's text of the most bytes behind its length.
pub const LONGEST: usize = FIRST_BODY
    + PLACE_BYTES * MOST_PLACES
    + BINDING_BYTES * MOST_BINDINGS
    + MOST_RULES * (2 + MOST_BYTES);

// The fault of a file that is longer than any plan, of which `front` is kept and `behind` bytes behind it are not.
// Absent where nothing is behind the front, where the front is shorter than the longest plan, or where the file's
// length passes the largest number.
pub fn oversize_fault(front: &[u8], behind: usize) -> Option<FileFault>
    ensures { MatchOption result (LeftOpen (length front.now) behind)
        (λ f. (¬ (LeftOpen (length front.now) behind))
        × ((rest : List ℕ) → length rest ≡ behind → Refused (front.now ++ rest) (InFile f))) }
{
    if behind == 0 || front.len() < LONGEST {
        return None;
    }
    let total = front.len().checked_add(behind)?;
    check_shape(front, total).err()
}
