// The lists that a site table was opened on.
ghost use Rattle.std.specs.Prelude.{◌≡◌};
ghost use Rattle.routing.specs.Sites.{site_marks, site_records};

use crate::binding::Binding;
use crate::site::SiteTable;

impl<'a, S> SiteTable<'a, S> {
    // The lent marks.
    pub fn lent_marks(&self) -> &'a [u32]
        ensures { result.now ≡ site_marks self.now }
    {
        self.marks
    }

    // The lent binding records.
    pub fn lent_records(&self) -> &'a [Binding<S>]
        ensures { result.now ≡ site_records self.now }
    {
        self.records
    }
}
