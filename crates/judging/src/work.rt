// Working one row of a table.
ghost use Rattle.std.specs.Prelude.{◌≡◌, ◌+◌, ◌*◌, ◌^◌, ◌<◌, ◌≤◌, ℕ, Bool, true, ◌&&◌, length, take, drop, IfSome, if◌then◌else◌, Some, None, nat_lt, slice_index};
ghost use Rattle.conditions.specs.Sets.{bit};
ghost use Rattle.routing.specs.Net.{Pos, Rests, places};
ghost use Rattle.rounds.specs.Claims.{Is};
ghost use Rattle.rounds.specs.Rounds.{Decided};
ghost use Rattle.tables.specs.Tables.{coded};
ghost use Rattle.judging.specs.Callbacks.{Makes};
ghost use Rattle.judging.specs.Judged.{covers, row_part, PerPlace, HasHalves, HasPart};
ghost use Rattle.judging.specs.Shapes.{Shape, Rounds, Named, first_is_row, second_is_row};

use crate::row_rounds::{always_rounds, steps_into, until_rounds};
use crate::sets::{combine, complement_all, fill, narrowed, part_of, widened};
use conditions::set::ConditionSet;
use routing::network::{Network, has_mark};
use tables::row::Operation;

// Writes all settings to the places with mark k, and none to the others.
fn write_mark<N: Network>(net: &N, k: u8, part: &mut [N::Set])
    requires { k < 32 }
    ensures { (x : Pos) → x.place < length part.old
        → covers N.Set.ConditionSet.holds part.new x
        ≡ (bit (slice_index (N.meaning net.now).marks x.place) k && nat_lt x.setting (2 ^ N.Set.ConditionSet.count)) }
{
    let (all, none) = (N::Set::all(), N::Set::none());
    // By number, as a network answers the marks of a place, and each set is written anew.
    for place in 0..part.len() {
        part[place] = if has_mark(net, place, k) { all } else { none };
    }
}

// Writes the settings with condition k on to every place.
fn write_condition<S: ConditionSet>(part: &mut [S], k: u8)
    requires { k < S.ConditionSet.count }
    ensures { (x : Pos) → x.place < length part.old → x.setting < 2 ^ S.ConditionSet.count
        → covers S.ConditionSet.holds part.new x ≡ bit x.setting k }
{
    if let Some(on) = S::with_condition(u32::from(k)) {
        fill(part, on);
    }
}

// Writes the settings under which no step leads from a place; `part` is used on the way.
fn write_rests<N: Network>(net: &N, part: &mut [N::Set], out: &mut [N::Set])
    requires part { PerPlace (N.meaning net.now) part.old }
    requires out { PerPlace (N.meaning net.now) out.old }
    ensures { Decided (N.meaning net.now)
        (covers N.Set.ConditionSet.holds out.new) (Rests (N.meaning net.now)) }
{
    fill(part, N::Set::all());
    steps_into(net, part, out);
    complement_all(out);
}

// Writes to each place what the rule makes of its set in one list and, twice, of that in another.
fn write_combined<S: ConditionSet, F: Fn(S, S, S) -> S + Copy>(
    part: &mut [S],
    first: &[S],
    second: &[S],
    rule: F,
)
    requires callable { F.IsAlwaysCallable rule }
    requires first { length first.now ≡ length part.old }
    requires second { length second.now ≡ length part.old }
    ensures { (f : Bool → Bool → Bool → Bool) → Makes S.ConditionSet.holds (F.post rule) f
        → (x : Pos) → x.place < length part.old
        → covers S.ConditionSet.holds part.new x
        ≡ f (covers S.ConditionSet.holds first.now x)
        (covers S.ConditionSet.holds second.now x) (covers S.ConditionSet.holds second.now x) }
{
    part.copy_from_slice(first);
    let _ = combine(part, second, second, rule);
}

// Writes the positions of a row to `part`, where `first` and `second` hold those of its operands; answers the row's rounds.
fn work_row<N: Network>(
    net: &N,
    op: Operation,
    part: &mut [N::Set],
    first: &mut [N::Set],
    second: &mut [N::Set],
) -> usize
    requires part { PerPlace (N.meaning net.now) part.old }
    requires first { PerPlace (N.meaning net.now) first.old }
    requires second { PerPlace (N.meaning net.now) second.old }
    requires named { Named N.Set.ConditionSet.count op }
    ensures few { result ≤ places (N.meaning net.now) }
    ensures written { Decided (N.meaning net.now) (covers N.Set.ConditionSet.holds part.new)
        (Shape (N.meaning net.now) op
        (Is (covers N.Set.ConditionSet.holds first.old)) (Is (covers N.Set.ConditionSet.holds second.old))) }
    ensures counted { Rounds (N.meaning net.now) op
        (Is (covers N.Set.ConditionSet.holds first.old)) (Is (covers N.Set.ConditionSet.holds second.old)) result }
{
    match op {
        Operation::Yes => {
            fill(part, N::Set::all());
            0
        }
        Operation::Mark(k) => {
            write_mark(net, k, part);
            0
        }
        Operation::Condition(k) => {
            write_condition(part, k);
            0
        }
        Operation::Not(_) => {
            part.copy_from_slice(first);
            complement_all(part);
            0
        }
        Operation::And(_, _) => {
            write_combined(part, first, second, narrowed);
            0
        }
        Operation::Or(_, _) => {
            write_combined(part, first, second, widened);
            0
        }
        Operation::Next(_) => {
            steps_into(net, first, part);
            0
        }
        Operation::Until(_, _) => { until_rounds(net, part, first, second) }
        Operation::Always(_) => {
            write_rests(net, part, second);
            always_rounds(net, part, first, second)
        }
    }
}

// The rows that an operation names.
fn operands(op: Operation) -> (Option<u8>, Option<u8>)
    ensures first { result.0 ≡ (if first_is_row op then Some (coded op).first else None) }
    ensures second { result.1 ≡ (if second_is_row op then Some (coded op).second else None) }
{
    match op {
        Operation::Yes | Operation::Mark(_) | Operation::Condition(_) => (None, None),
        Operation::Not(p) | Operation::Next(p) | Operation::Always(p) => (Some(p), None),
        Operation::And(p, q) | Operation::Or(p, q) | Operation::Until(p, q) => (Some(p), Some(q)),
    }
}

// Copies the part of a row, if one is named, to a half of the spare.
pub(crate) fn copy_operand<S: ConditionSet>(
    named: Option<u8>,
    places: usize,
    main: &[S],
    half: &mut [S],
)
    requires long { length half.old ≡ places }
    requires within { IfSome named (λ r. r * places + places ≤ length main.now) }
    ensures { IfSome named (λ r. half.new ≡ row_part places r main.now) }
{
    if let Some(r) = named {
        half.copy_from_slice(part_of(main, r as usize, places));
    }
}

// Judges one row: copies its operands to the spare, then lends its own part of the main list; answers the row's rounds.
pub(crate) fn judge_row<N: Network>(
    net: &N,
    op: Operation,
    row: usize,
    main: &mut [N::Set],
    spare: &mut [N::Set],
) -> usize
    requires named { Named N.Set.ConditionSet.count op }
    requires first { first_is_row op ≡ true → (coded op).first < row }
    requires second { second_is_row op ≡ true → (coded op).second < row }
    requires room { HasPart (N.meaning net.now) row main.old }
    requires halves { HasHalves (N.meaning net.now) spare.old }
    ensures few { result ≤ places (N.meaning net.now) }
    ensures before { take (row * places (N.meaning net.now)) main.new
        ≡ take (row * places (N.meaning net.now)) main.old }
    ensures behind { drop (row * places (N.meaning net.now) + places (N.meaning net.now)) main.new
        ≡ drop (row * places (N.meaning net.now) + places (N.meaning net.now)) main.old }
    ensures written { Decided (N.meaning net.now)
        (covers N.Set.ConditionSet.holds (row_part (places (N.meaning net.now)) row main.new))
        (Shape (N.meaning net.now) op
        (Is (covers N.Set.ConditionSet.holds (row_part (places (N.meaning net.now)) (coded op).first main.old)))
        (Is (covers N.Set.ConditionSet.holds (row_part (places (N.meaning net.now)) (coded op).second main.old)))) }
    ensures counted { Rounds (N.meaning net.now) op
        (Is (covers N.Set.ConditionSet.holds (row_part (places (N.meaning net.now)) (coded op).first main.old)))
        (Is (covers N.Set.ConditionSet.holds (row_part (places (N.meaning net.now)) (coded op).second main.old)))
        result }
{
    let n = net.places();
    let (p, q) = operands(op);
    let (first, rest) = spare.split_at_mut(n);
    let second = &mut rest[0..n];
    copy_operand(p, n, main, first);
    copy_operand(q, n, main, second);
    let start = row * n;
    work_row(net, op, &mut main[start..start + n], first, second)
}
