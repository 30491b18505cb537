// The rounds of a row: the settings with a step into given sets, and the two sequences that use them.
ghost use Rattle.std.specs.Prelude.{◌≡◌, ℕ, ◌<◌, ◌≤◌, Bool, true, ◌⊎◌, length, Decides};
ghost use Rattle.routing.specs.Net.{Pos, places, Rests};
ghost use Rattle.routing.specs.Routes.{SomeNext};
ghost use Rattle.rounds.specs.Claims.{Is};
ghost use Rattle.rounds.specs.Rounds.{Grown, Kept, Stable, LeastStable, Decided};
ghost use Rattle.judging.specs.Judged.{covers, PerPlace};
ghost use Rattle.judging.specs.Callbacks.{Makes, Turns};

use crate::sets::{combine, fill, is_entered, narrowed, widened};
use conditions::set::ConditionSet;
use routing::binding::Binding;
use routing::network::Network;

// Adds to `out` the settings under which one binding leads into the sets.
fn forward<S: ConditionSet>(b: &Binding<S>, sets: &[S], out: &mut [S])
    requires from { b.now.from < length out.old }
    requires to { b.now.to < length sets.now }
    ensures { (x : Pos) → x.place < length out.old
        → Decides (covers S.ConditionSet.holds out.new x)
        ((covers S.ConditionSet.holds out.old x ≡ true)
        ⊎ ((b.now.from ≡ x.place) × (S.ConditionSet.holds b.now.set x.setting ≡ true)
        × ((a : ℕ) × (covers S.ConditionSet.holds sets.now (record { place = b.now.to; setting = a }) ≡ true)))) }
{
    let to = b.to as usize;
    let target = sets[to];
    if is_entered(&target) {
        let from = b.from as usize;
        let before = out[from];
        out[from] = before.union(&b.set);
    }
}

// Writes for each place the settings under which some step leads into the sets.
pub(crate) fn steps_into<N: Network>(net: &N, sets: &[N::Set], out: &mut [N::Set])
    requires sets { PerPlace (N.meaning net.now) sets.now }
    requires out { PerPlace (N.meaning net.now) out.old }
    ensures { Decided (N.meaning net.now) (covers N.Set.ConditionSet.holds out.new)
        (SomeNext (N.meaning net.now) (Is (covers N.Set.ConditionSet.holds sets.now))) }
{
    fill(out, N::Set::none());
    // By number, as a network answers its bindings.
    for i in 0..net.bindings() {
        if let Some(b) = net.binding(i) {
            forward(&b, sets, out);
        }
    }
}

// The rounds of a sequence of sets of positions: `part` has the first, and the rule makes the next of one, of `p`, and of the
// positions with a step into it. Answers the first round that changes nothing; `part` then has the positions of that round.
fn settle<N: Network, F: Fn(N::Set, N::Set, N::Set) -> N::Set + Copy>(
    net: &N,
    part: &mut [N::Set],
    p: &[N::Set],
    into: &mut [N::Set],
    rule: F,
) -> usize
    requires callable { F.IsAlwaysCallable rule }
    requires part { PerPlace (N.meaning net.now) part.old }
    requires p { PerPlace (N.meaning net.now) p.now }
    requires into { PerPlace (N.meaning net.now) into.old }
    ensures few { result ≤ places (N.meaning net.now) }
    ensures least { (f : Bool → Bool → Bool → Bool) (t : ℕ → Pos → Bool)
        → Makes N.Set.ConditionSet.holds (F.post rule) f
        → Turns (N.meaning net.now) f (covers N.Set.ConditionSet.holds p.now) t
        → Decided (N.meaning net.now) (covers N.Set.ConditionSet.holds part.old) (Is (t 0))
        → Stable (N.meaning net.now) (λ i. Is (t i)) (places (N.meaning net.now))
        → LeastStable (N.meaning net.now) (λ i. Is (t i)) result
        × Decided (N.meaning net.now) (covers N.Set.ConditionSet.holds part.new) (Is (t result)) }
{
    let n = net.places();
    for round in 0..n {
        steps_into(net, part, into);
        if combine(part, p, into, rule) {
            return round;
        }
    }
    n
}

// The rounds of E[p U q]: writes the positions of the rule to `part`, and answers the rounds; `q` is used on the way.
pub(crate) fn until_rounds<N: Network>(
    net: &N,
    part: &mut [N::Set],
    p: &[N::Set],
    q: &mut [N::Set],
) -> usize
    requires part { PerPlace (N.meaning net.now) part.old }
    requires p { PerPlace (N.meaning net.now) p.now }
    requires q { PerPlace (N.meaning net.now) q.old }
    ensures few { result ≤ places (N.meaning net.now) }
    ensures least { LeastStable (N.meaning net.now)
        (Grown (N.meaning net.now) (Is (covers N.Set.ConditionSet.holds p.now)) (Is (covers N.Set.ConditionSet.holds q.old)))
        result }
    ensures after { Decided (N.meaning net.now) (covers N.Set.ConditionSet.holds part.new)
        (Grown (N.meaning net.now) (Is (covers N.Set.ConditionSet.holds p.now)) (Is (covers N.Set.ConditionSet.holds q.old))
        result) }
{
    part.copy_from_slice(q);
    settle(net, part, p, q, widened)
}

// The rounds of EG p: writes the positions of the rule to `part`, and answers the rounds; `p` is used on the way.
pub(crate) fn always_rounds<N: Network>(
    net: &N,
    part: &mut [N::Set],
    p: &mut [N::Set],
    rests: &[N::Set],
) -> usize
    requires part { PerPlace (N.meaning net.now) part.old }
    requires p { PerPlace (N.meaning net.now) p.old }
    requires rests { PerPlace (N.meaning net.now) rests.now }
    requires rested { Decided (N.meaning net.now)
        (covers N.Set.ConditionSet.holds rests.now) (Rests (N.meaning net.now)) }
    ensures few { result ≤ places (N.meaning net.now) }
    ensures least { LeastStable (N.meaning net.now)
        (Kept (N.meaning net.now) (Is (covers N.Set.ConditionSet.holds p.old))) result }
    ensures after { Decided (N.meaning net.now) (covers N.Set.ConditionSet.holds part.new)
        (Kept (N.meaning net.now) (Is (covers N.Set.ConditionSet.holds p.old)) result) }
{
    part.copy_from_slice(p);
    settle(net, part, rests, p, narrowed)
}
