// The trait of sets of settings. Its meaning is which of the 2^K settings a set holds.
ghost use Rattle.std.specs.Prelude.{◌≡◌, ℕ, ◌^◌, ◌<◌, ◌≤◌, Bool, true, false, not, ◌&&◌, ◌||◌, Decides, MatchOption, nat_lt};
ghost use Rattle.conditions.specs.Sets.{bit, Picked};

pub trait ConditionSet: Copy {
    // The number K of conditions.
    ghost count: { ℕ };

    // Whether a set holds a setting.
    ghost holds: { Self → ℕ → Bool };

    // K.
    fn conditions() -> u32
        ensures { result ≡ count };

    // Every setting.
    fn all() -> Self
        ensures { (a : ℕ) → holds result a ≡ nat_lt a (2 ^ count) };

    // No setting.
    fn none() -> Self
        ensures { (a : ℕ) → holds result a ≡ false };

    // The settings with condition k on; absent where k is no condition.
    fn with_condition(k: u32) -> Option<Self>
        ensures { MatchOption result (count ≤ k)
            (λ s. (k < count) × ((a : ℕ) → holds s a ≡ (nat_lt a (2 ^ count) && bit a k))) };

    // The settings in both sets.
    fn intersection(&self, other: &Self) -> Self
        ensures { (a : ℕ) → holds result a ≡ (holds self.now a && holds other.now a) };

    // The settings in at least one of the sets.
    fn union(&self, other: &Self) -> Self
        ensures { (a : ℕ) → holds result a ≡ (holds self.now a || holds other.now a) };

    // The settings that are not in the set.
    fn complement(&self) -> Self
        ensures { (a : ℕ) → holds result a ≡ (nat_lt a (2 ^ count) && not (holds self.now a)) };

    // Whether the two sets hold the same settings.
    fn same_members(&self, other: &Self) -> bool
        ensures { Decides result ((a : ℕ) → holds self.now a ≡ holds other.now a) };

    // Whether setting a is in; no for a beyond the last setting.
    fn contains(&self, a: u32) -> bool
        ensures { result ≡ holds self.now a };

    // The picked member; absent where the set is empty.
    fn pick(&self) -> Option<u32>
        ensures { MatchOption result ((a : ℕ) → holds self.now a ≡ false)
            (Picked (λ a. holds self.now a ≡ true)) };

    ghost few: { count ≤ 16 };

    ghost below: { (s : Self) (a : ℕ) → holds s a ≡ true → a < 2 ^ count };
}
