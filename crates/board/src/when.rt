// When an own binding forwards: its two numbers, with the set of the settings that they ask for.
ghost use Rattle.std.specs.Prelude.{◌≡◌, ℕ, ◌<◌, ◌&&◌, ⊤};
ghost use Rattle.paper.specs.Own.{as_asked, forwards_when};

use conditions::set::ConditionSet;
use std::alloc::AllocError;

// The set is worked out once, when the numbers are put.
pub struct When<S: ConditionSet> {
    pub(crate) on: u16,
    pub(crate) off: u16,
    pub(crate) set: S,
    ghost worked: { (a : ℕ) → S.ConditionSet.holds set a ≡ forwards_when S.ConditionSet.count on off a },
}

// By hand, as a derive is refused over ghost fields.
impl<S: ConditionSet> Clone for When<S> {
    ghost is_clone = { λ x y. y ≡ x };

    ghost is_infallible = { λ _. ⊤ };

    fn clone(&self) -> Result<When<S>, AllocError> {
        Ok(*self)
    }
}

impl<S: ConditionSet> Copy for When<S> {}

// The settings of a set under which condition k is as the two numbers ask.
fn narrowed<S: ConditionSet>(set: S, on: u16, off: u16, k: u32) -> S
    requires { k < S.ConditionSet.count }
    ensures { (a : ℕ) → S.ConditionSet.holds result a ≡ (S.ConditionSet.holds set a && as_asked on off a k) }
{
    let Some(with) = S::with_condition(k) else {
        return set;
    };
    let mut narrowed = set;
    if on >> k & 1 == 1 {
        narrowed = narrowed.intersection(&with);
    }
    if off >> k & 1 == 1 {
        narrowed = narrowed.intersection(&with.complement());
    }
    narrowed
}

impl<S: ConditionSet> When<S> {
    // The settings under which every condition of `on` is on and every one of `off` is off.
    pub(crate) fn new(on: u16, off: u16) -> When<S>
        ensures on { result.on ≡ on }
        ensures off { result.off ≡ off }
    {
        let mut set = S::all();
        for k in 0..S::conditions() {
            set = narrowed(set, on, off, k);
        }
        When { on, off, set }
    }
}
