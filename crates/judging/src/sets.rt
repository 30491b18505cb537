// Lists with a set for each place.
ghost use Rattle.std.specs.Prelude.{◌≡◌, ℕ, ◌+◌, ◌*◌, ◌^◌, ◌<◌, ◌≤◌, Bool, true, not, ◌&&◌, ◌||◌, length, Decides, nat_lt};
ghost use Rattle.routing.specs.Net.{Pos};
ghost use Rattle.judging.specs.Judged.{covers, row_part};
ghost use Rattle.judging.specs.Callbacks.{Makes};

use conditions::set::ConditionSet;

// The part of the main list for a row.
pub(crate) fn part_of<S: ConditionSet>(main: &[S], row: usize, places: usize) -> &[S]
    requires { row * places + places ≤ length main.now }
    ensures { result.now ≡ row_part places row main.now }
{
    let start = row * places;
    &main[start..start + places]
}

// Whether the set holds any setting.
pub(crate) fn is_entered<S: ConditionSet>(set: &S) -> bool
    ensures { Decides result ((a : ℕ) × (S.ConditionSet.holds set.now a ≡ true)) }
{
    set.pick().is_some()
}

// Writes one set to every place.
pub(crate) fn fill<S: ConditionSet>(sets: &mut [S], value: S)
    ensures { (x : Pos) → x.place < length sets.old
        → covers S.ConditionSet.holds sets.new x ≡ S.ConditionSet.holds value x.setting }
{
    // Not by `fill`, which clones: no law says that a clone of a set can not fail.
    for set in sets.iter_mut() {
        *set = value;
    }
}

// Writes the complement of each set.
pub(crate) fn complement_all<S: ConditionSet>(sets: &mut [S])
    ensures { (x : Pos) → x.place < length sets.old
        → covers S.ConditionSet.holds sets.new x
        ≡ (nat_lt x.setting (2 ^ S.ConditionSet.count) && not (covers S.ConditionSet.holds sets.old x)) }
{
    for set in sets.iter_mut() {
        *set = set.complement();
    }
}

// The settings of a set, and those that both others have.
pub(crate) fn widened<S: ConditionSet>(set: S, p: S, q: S) -> S
    ensures { (a : ℕ) → S.ConditionSet.holds result a
        ≡ (S.ConditionSet.holds set a || (S.ConditionSet.holds p a && S.ConditionSet.holds q a)) }
{
    set.union(&p.intersection(&q))
}

// The settings of a set that at least one of the others has.
pub(crate) fn narrowed<S: ConditionSet>(set: S, p: S, q: S) -> S
    ensures { (a : ℕ) → S.ConditionSet.holds result a
        ≡ (S.ConditionSet.holds set a && (S.ConditionSet.holds p a || S.ConditionSet.holds q a)) }
{
    set.intersection(&p.union(&q))
}

// Writes to each place what the rule makes of its set and of those of the two others; answers whether no set changed.
pub(crate) fn combine<S: ConditionSet, F: Fn(S, S, S) -> S + Copy>(
    sets: &mut [S],
    p: &[S],
    q: &[S],
    rule: F,
) -> bool
    requires callable { F.IsAlwaysCallable rule }
    requires with_p { length p.now ≡ length sets.old }
    requires with_q { length q.now ≡ length sets.old }
    ensures after { (f : Bool → Bool → Bool → Bool) → Makes S.ConditionSet.holds (F.post rule) f
        → (x : Pos) → x.place < length sets.old
        → covers S.ConditionSet.holds sets.new x
        ≡ f (covers S.ConditionSet.holds sets.old x)
        (covers S.ConditionSet.holds p.now x) (covers S.ConditionSet.holds q.now x) }
    ensures same { Decides result ((x : Pos) → x.place < length sets.old
        → covers S.ConditionSet.holds sets.new x ≡ covers S.ConditionSet.holds sets.old x) }
{
    let mut settled = true;
    // By number, since nothing is known of elements that an iterator over several lists lends for writing.
    for i in 0..sets.len() {
        let before = sets[i];
        let after = rule(before, p[i], q[i]);
        settled = settled & after.same_members(&before);
        sets[i] = after;
    }
    settled
}
