// Opening a site table, and the network that it is.
ghost use Rattle.std.specs.Prelude.{◌≡◌, IfOk, refl};
ghost use Rattle.std.specs.Result.{result_err};
ghost use Rattle.routing.specs.Bindings.{net_of};
ghost use Rattle.routing.specs.Refusals.{opening};
ghost use Rattle.routing.specs.Sites.{Opening, site_marks, site_meaning, site_records, site_fits};

use crate::binding::Binding;
use crate::network::{MOST_BINDINGS, MOST_PLACES, Network};
use crate::refusal::Refusal;
use crate::site::SiteTable;
use conditions::set::ConditionSet;

impl<'a, S: ConditionSet> Network for SiteTable<'a, S> {
    type Set = S;

    ghost meaning = { site_meaning S.ConditionSet.count S.ConditionSet.holds };

    ghost fits = { site_fits S.ConditionSet.count S.ConditionSet.holds };

    ghost over = { λ _. refl };

    fn places(&self) -> usize {
        self.marks.len()
    }

    fn bindings(&self) -> usize {
        self.records.len()
    }

    fn marks(&self, place: usize) -> Option<u32> {
        self.marks.get(place).copied()
    }

    fn binding(&self, number: usize) -> Option<Binding<S>> {
        self.records.get(number).copied()
    }
}

// A site table, and why it was refused, if it was.
pub struct OpenedSite<'a, S> {
    pub site: SiteTable<'a, S>,
    pub refusal: Option<Refusal>,
}

impl<'a, S: ConditionSet> SiteTable<'a, S> {
    // Opens a site table on the lent marks and records, which it then means in their order.
    pub fn open(marks: &'a [u32], records: &'a [Binding<S>]) -> Result<SiteTable<'a, S>, Refusal>
        ensures refusal { result_err result ≡ opening marks.now records.now }
        ensures meaning { IfOk result (λ t. site_meaning S.ConditionSet.count S.ConditionSet.holds t
            ≡ net_of S.ConditionSet.count S.ConditionSet.holds marks.now records.now) }
        ensures marks { IfOk result (λ t. site_marks t ≡ marks.now) }
        ensures records { IfOk result (λ t. site_records t ≡ records.now) }
    {
        if marks.len() > MOST_PLACES || records.len() > MOST_BINDINGS {
            return Err(Refusal::OverLimit);
        }
        for b in records {
            if usize::from(b.from) >= marks.len() || usize::from(b.to) >= marks.len() {
                return Err(Refusal::NoPlace);
            }
        }
        Ok(SiteTable { marks, records })
    }

    // Opens a site table as `open` does; where that is refused, answers the refusal beside the table with no places.
    pub fn opened(marks: &'a [u32], records: &'a [Binding<S>]) -> OpenedSite<'a, S>
        ensures { Opening marks.now records.now result.site result.refusal }
    {
        match SiteTable::open(marks, records) {
            Ok(site) => OpenedSite {
                site,
                refusal: None,
            },
            Err(refusal) => OpenedSite {
                site: SiteTable {
                    marks: &[],
                    records: &[],
                },
                refusal: Some(refusal),
            },
        }
    }
}
