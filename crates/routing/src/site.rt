// The site table: a network over marks and binding records that the caller lends.
ghost use Rattle.std.specs.Prelude.{◌≡◌, ◌≤◌, true, length, ⊤};
ghost use Rattle.routing.specs.Refusals.{all_inside};

use crate::binding::Binding;
use std::alloc::AllocError;

pub mod lists;
pub mod table;

pub struct SiteTable<'a, S> {
    marks: &'a [u32],
    records: &'a [Binding<S>],
    ghost few_places: { length marks.now ≤ 256 },
    ghost few_bindings: { length records.now ≤ 4096 },
    ghost ends: { all_inside (length marks.now) records.now ≡ true },
}

// A table of any sets can be copied. A derive would ask the sets for it, and one that does not is refused over ghost fields.
impl<'a, S> Clone for SiteTable<'a, S> {
    ghost is_clone = { λ x y. y ≡ x };

    ghost is_infallible = { λ _. ⊤ };

    fn clone(&self) -> Result<SiteTable<'a, S>, AllocError> {
        Ok(*self)
    }
}

impl<'a, S> Copy for SiteTable<'a, S> {}
