// Calls played on a new board.
ghost use Rattle.std.specs.Prelude.{◌≡◌, ◌≤◌, ℕ, List, [], take, IfOk, MatchResult, None, length};
ghost use Rattle.board.specs.Answers.{broken_by, fault_refusal, room_of, showing};
ghost use Rattle.board.specs.Boards.{opening_of, paper_of, board_net};
ghost use Rattle.board.specs.Played.{call_of, calls_of, answer_of, answers_of, opening_with, route_of, lent as lent_of};
ghost use Rattle.paper.specs.Calls.{Answer as PaperAnswer, turned_down as told_down, adopt as adopt_call, admit as admit_call};
ghost use Rattle.paper.specs.Does.{Does, Run};
ghost use Rattle.paper.specs.History.{history, told_by};
ghost use Rattle.paper.specs.Law.{Law, net_told};
ghost use Rattle.paper.specs.Paper.{Paper, opened};
ghost use Rattle.paper.specs.Refused.{opening_refusal};

use crate::board::Board;
use crate::call::{Answer, Call, ShownRoute, TurnedDown};
use crate::opening::{NotOpened, OpeningFault};
use crate::rejection::{Failure, Rejection};
use judging::shown::{RouteStep, Shown};
use paper::numbers::Numbers;
use paper::room::Room;
use routing::network::Network;
use std::alloc::{AllocError, Global};
use tables::row::Row;

/// A board that calls were played on, and what each call was answered.
///
/// Calls in a list name tickets by their numbers, so no ticket exists for a proposal that they leave open on this board.
#[derive(Drop)]
pub struct Played<F: Network> {
    pub board: Board<F>,
    pub answers: Vec<Answer>,
}

// What a call is lent: so much of each list as it names, and no more than there is.
fn lent(there: Room, named: Room) -> Room
    ensures { result ≡ lent_of there named }
{
    Room {
        main: named.main.min(there.main),
        spare: named.spare.min(there.spare),
        steps: named.steps.min(there.steps),
    }
}

// A copy of the first positions of a steps list.
fn first_steps(
    alloc: Global,
    steps: &[RouteStep],
    count: usize,
) -> Result<Vec<RouteStep>, AllocError>
    ensures { IfOk result (λ v. v.items ≡ take count steps.now) }
{
    steps.iter().take(count).copied().collect(alloc)
}

// The route that is shown at the front of the steps list, if one is.
fn shown_route(
    alloc: Global,
    shown: Option<Shown>,
    steps: &[RouteStep],
) -> Result<Option<ShownRoute>, AllocError>
    ensures { IfOk result (λ route. route_of route ≡ showing shown steps.now) }
{
    match shown {
        Some(shown) => {
            let first = first_steps(alloc, steps, shown.count)?;
            Ok(Some(ShownRoute {
                steps: first,
                ending: shown.ending,
            }))
        }
        None => Ok(None),
    }
}

// The answer to a rule or a change that was judged and turned down.
fn turned_down(alloc: Global, failure: Failure, steps: &[RouteStep]) -> Result<Answer, AllocError>
    ensures { IfOk result (λ answer. answer_of answer ≡ told_down (broken_by failure steps.now)) }
{
    let Failure {
        rule,
        place,
        setting,
        shown,
    } = failure;
    let route = shown_route(alloc, shown, steps)?;
    Ok(Answer::TurnedDown(TurnedDown {
        rule,
        place,
        setting,
        route,
    }))
}

// Adopts a table, lent so much of the lists.
fn adopt<F: Network>(
    alloc: Global,
    board: &mut Board<F>,
    table: &[Row],
    room: Room,
    main: &mut [F::Set],
    spare: &mut [F::Set],
    steps: &mut [RouteStep],
) -> Result<Answer, AllocError>
    requires main { room.main ≤ length main.old }
    requires spare { room.spare ≤ length spare.old }
    requires steps { room.steps ≤ length steps.old }
    ensures does { IfOk result (λ answer. Does (opening_of board.old) (paper_of board.old)
        (adopt_call table.now room) (answer_of answer) (paper_of board.new)) }
    ensures opening { opening_of board.new ≡ opening_of board.old }
{
    let main = &mut main[..room.main];
    let spare = &mut spare[..room.spare];
    let steps = &mut steps[..room.steps];
    match board.adopt(table, main, spare, steps) {
        Ok(rounds) => Ok(Answer::Adopted(rounds)),
        Err(Rejection::Refused(refusal)) => Ok(Answer::Refused(refusal)),
        Err(Rejection::TurnedDown(failure)) => turned_down(alloc, failure, steps),
    }
}

// Admits the change under the numbers of a ticket, lent so much of the lists.
fn admit<F: Network>(
    alloc: Global,
    board: &mut Board<F>,
    numbers: Numbers,
    room: Room,
    main: &mut [F::Set],
    spare: &mut [F::Set],
    steps: &mut [RouteStep],
) -> Result<Answer, AllocError>
    requires main { room.main ≤ length main.old }
    requires spare { room.spare ≤ length spare.old }
    requires steps { room.steps ≤ length steps.old }
    ensures does { IfOk result (λ answer. Does (opening_of board.old) (paper_of board.old)
        (admit_call numbers room) (answer_of answer) (paper_of board.new)) }
    ensures opening { opening_of board.new ≡ opening_of board.old }
{
    let main = &mut main[..room.main];
    let spare = &mut spare[..room.spare];
    let steps = &mut steps[..room.steps];
    match board.admit_numbers(numbers, main, spare, steps) {
        Ok(rounds) => Ok(Answer::Stood(rounds)),
        Err(Rejection::Refused(refusal)) => Ok(Answer::Refused(refusal)),
        Err(Rejection::TurnedDown(failure)) => turned_down(alloc, failure, steps),
    }
}

// One call, and its answer.
fn serve<F: Network>(
    alloc: Global,
    board: &mut Board<F>,
    call: &Call,
    main: &mut [F::Set],
    spare: &mut [F::Set],
    steps: &mut [RouteStep],
) -> Result<Answer, AllocError>
    ensures does { IfOk result (λ answer. Does (opening_of board.old) (paper_of board.old)
        (call_of (room_of main.old spare.old steps.old) call.now) (answer_of answer) (paper_of board.new)) }
    ensures opening { opening_of board.new ≡ opening_of board.old }
{
    let there = Room {
        main: main.len(),
        spare: spare.len(),
        steps: steps.len(),
    };
    match call {
        Call::Adopt(table, named) => {
            adopt(alloc, board, table, lent(there, *named), main, spare, steps)
        }
        Call::Admit(numbers, named) => {
            admit(
                alloc,
                board,
                *numbers,
                lent(there, *named),
                main,
                spare,
                steps,
            )
        }
        Call::Propose(change) => match board.propose_numbers(*change) {
            Ok(numbers) => Ok(Answer::Proposed(numbers)),
            Err(refusal) => Ok(Answer::Refused(refusal)),
        },
        Call::Revise(numbers, change) => match board.revise_numbers(*numbers, *change) {
            Ok(()) => Ok(Answer::Revised(*numbers)),
            Err(refusal) => Ok(Answer::Refused(refusal)),
        },
        Call::Withdraw(numbers) => match board.withdraw_numbers(*numbers) {
            Ok(()) => Ok(Answer::Withdrawn),
            Err(refusal) => Ok(Answer::Refused(refusal)),
        },
        Call::AskOpen => Ok(Answer::Open(board.open_proposals())),
    }
}

// Opens a board; the far network is let go where it is not opened.
fn open_board<F: Network + Drop>(
    alloc: Global,
    number: u32,
    marks: &[u32],
    far: F,
) -> Result<Board<F>, OpeningFault>
    ensures opening { IfOk result (λ b. opening_of b ≡ opening_with number marks.now (F.Network.meaning far)) }
    ensures opened { IfOk result (λ b. paper_of b ≡ opened) }
    ensures refused { MatchResult result
        (λ _. opening_refusal (opening_with number marks.now (F.Network.meaning far)) ≡ None)
        (λ e. opening_refusal (opening_with number marks.now (F.Network.meaning far)) ≡ fault_refusal e) }
{
    match Board::open(alloc, number, marks, far) {
        Ok(board) => Ok(board),
        Err(NotOpened { fault, far: _ }) => Err(fault),
    }
}

// Plays calls on a board, one after another.
fn play_calls<F: Network>(
    alloc: Global,
    board: &mut Board<F>,
    calls: &[Call],
    main: &mut [F::Set],
    spare: &mut [F::Set],
    steps: &mut [RouteStep],
) -> Result<Vec<Answer>, AllocError>
    ensures run { IfOk result (λ answers. Run (opening_of board.old) (paper_of board.old)
        (calls_of (room_of main.old spare.old steps.old) calls.now) (answers_of answers.items) (paper_of board.new)) }
    ensures opening { opening_of board.new ≡ opening_of board.old }
{
    let mut answers = Vec::new(alloc);
    for call in calls {
        let answer = serve(alloc, board, call, main, spare, steps)?;
        answers.push(answer)?;
    }
    Ok(answers)
}

/// Plays a list of calls on a new board in front of a far network, one after another, and answers the board with what each
/// call was answered.
///
/// The board has this number and own places with these marks. A call is lent the fronts of the three lists of the lengths
/// that it names, or the whole list where it names more. Refused by `OverLimit` as `Board::open` is; the only other fault is
/// want of memory. Any network can be played on lent, since `&N` is a network too. What the lists hold afterwards is free.
///
/// Whatever the calls: the answers are those of the board on paper (`run`), the board that is left is the one that calls and
/// answers tell of (`told`) and is the network that they leave standing (`stands`), and after each call the law holds (`law`).
pub fn play<F: Network + Drop>(
    alloc: Global,
    number: u32,
    marks: &[u32],
    far: F,
    calls: &[Call],
    main: &mut [F::Set],
    spare: &mut [F::Set],
    steps: &mut [RouteStep],
) -> Result<Played<F>, OpeningFault>
    ensures run { IfOk result (λ played. Run (opening_with number marks.now (F.Network.meaning far)) opened
        (calls_of (room_of main.old spare.old steps.old) calls.now) (answers_of played.answers.items) (paper_of played.board)) }
    ensures opening { IfOk result (λ played. opening_of played.board ≡ opening_with number marks.now (F.Network.meaning far)) }
    ensures told { IfOk result (λ played. paper_of played.board
        ≡ told_by (history [] (calls_of (room_of main.old spare.old steps.old) calls.now) (answers_of played.answers.items))) }
    ensures stands { IfOk result (λ played. ⟦<Board<F> as Network>⟧.meaning played.board
        ≡ net_told (opening_with number marks.now (F.Network.meaning far))
        (history [] (calls_of (room_of main.old spare.old steps.old) calls.now) (answers_of played.answers.items))) }
    ensures law { IfOk result (λ played. (i : ℕ) → Law (opening_with number marks.now (F.Network.meaning far))
        (history [] (take i (calls_of (room_of main.old spare.old steps.old) calls.now)) (take i (answers_of played.answers.items)))) }
    ensures refused { MatchResult result
        (λ _. opening_refusal (opening_with number marks.now (F.Network.meaning far)) ≡ None)
        (λ e. opening_refusal (opening_with number marks.now (F.Network.meaning far)) ≡ fault_refusal e) }
    // Of calls and answers alone: there are answers, no others are right, and after each call the law holds.
    ensures answered { opening_refusal (opening_with number marks.now (F.Network.meaning far)) ≡ None
        → (answers : List PaperAnswer) × (q : Paper) × Run (opening_with number marks.now (F.Network.meaning far)) opened
        (calls_of (room_of main.old spare.old steps.old) calls.now) answers q }
    ensures one { (one other : List PaperAnswer) (q r : Paper)
        → Run (opening_with number marks.now (F.Network.meaning far)) opened
        (calls_of (room_of main.old spare.old steps.old) calls.now) one q
        → Run (opening_with number marks.now (F.Network.meaning far)) opened
        (calls_of (room_of main.old spare.old steps.old) calls.now) other r → (one ≡ other) × (q ≡ r) }
    ensures every_run { (answers : List PaperAnswer) (q : Paper) → Run (opening_with number marks.now (F.Network.meaning far)) opened
        (calls_of (room_of main.old spare.old steps.old) calls.now) answers q
        → (i : ℕ) → Law (opening_with number marks.now (F.Network.meaning far))
        (history [] (take i (calls_of (room_of main.old spare.old steps.old) calls.now)) (take i answers)) }
{
    let mut board = open_board(alloc, number, marks, far)?;
    let answers = play_calls(alloc, &mut board, calls, main, spare, steps)?;
    Ok(Played { board, answers })
}
