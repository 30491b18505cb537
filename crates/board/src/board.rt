// The board.
ghost use Rattle.std.specs.Prelude.{◌≡◌, ◌≤◌, ◌<◌, ◌∷◌, ◌++◌, [], true, length, IfErr, IfOk, IfSome, MatchResult, Some, None};
ghost use Rattle.std.specs.Result.{result_err};
ghost use Rattle.paper.specs.Calls.{adopt, propose, revise, admit, withdraw, ask_open, open_count};
ghost use Rattle.paper.specs.Does.{Does};
ghost use Rattle.paper.specs.Paper.{opened, standing};
ghost use Rattle.paper.specs.Refused.{refusal, opening_refusal, numbers_refusal, change_refusal, unless, closed, fits_ticket, enough, most_rows, has_room as has_room_for};
ghost use Rattle.board.specs.Answers.{room_of, adopt_answer, admit_answer, ticket_answer, propose_answer, propose_by, revise_answer, revise_by, withdraw_answer, withdraw_by, handed_back, fault_refusal, StepsKept, StepsAfter, StepsAfterAdmit, WorkAfter, WorkAfterAdmit};
ghost use Rattle.tables.specs.Tables.{accepted};
ghost use Rattle.paper.specs.Own.{changed};
ghost use Rattle.board.specs.Judged.{RulesShown};
ghost use Rattle.board.specs.Entries.{bindings_of};
ghost use Rattle.board.specs.Possible.{ends_inside, can_make, can_make_open, change_of, all_accepted};
ghost use Rattle.board.specs.Tables.{tables_of};

use crate::front::Front;
use crate::judged::{judge_next, judge_with};
use crate::opening::{NotOpened, OpeningFault};
use crate::own::{MOST_OWN_BINDINGS, OwnTable};
use crate::prepared::Prepared;
use crate::proposed::{Proposed, count_with};
use crate::rejection::{Failure, NotAdmitted, Rejection};
use crate::ticket::{Denied, Ticket};
use arrayvec::ArrayVec;
use judging::shown::RouteStep;
use paper::change::Change;
use paper::numbers::Numbers;
use paper::own::OwnBinding;
use paper::room::Room;
use routing::network::Network;
use routing::refusal::Refusal;
use std::alloc::Global;
use tables::row::Row;
use tables::table::{MOST_ROWS, is_accepted};

/// The most rules that are adopted at one time.
pub const MOST_RULES: usize = 8;

pub(crate) type KeptTable = ArrayVec<Row, MOST_ROWS>;

/// A board: own places and bindings in front of a far network, the rules that were adopted, and the open proposal, if one is
/// open. It is a network itself, the standing network: own places first, then far ones; own bindings first, then far ones.
#[derive(Drop)]
pub struct Board<F: Network> {
    pub(crate) number: u32,
    pub(crate) front: Front<F>,
    pub(crate) own: OwnTable<F::Set>,
    pub(crate) rules: ArrayVec<KeptTable, MOST_RULES>,
    pub(crate) pending: Option<Prepared<F::Set>>,
    pub(crate) last: u32,
    ghost ends: { ends_inside front.count (bindings_of own.items.items) ≡ true },
    ghost open_change: { can_make_open front.count pending (bindings_of own.items.items) ≡ true },
    ghost taken: { all_accepted front.conditions (tables_of rules) ≡ true },
}

impl<F: Network> Board<F> {
    ghost use Rattle.board.specs.Boards.{opening_of, paper_of};

    /// Opens a board in front of a far network, with a number and the marks of its own places, bit k for mark k.
    ///
    /// Refused by `OverLimit` over 64 own places, over 256 places in all or over 3,968 far bindings. The far network is handed
    /// back where the opening is refused, or where there is no memory.
    pub fn open(alloc: Global, number: u32, marks: &[u32], far: F) -> Result<Board<F>, NotOpened<F>>
        ensures opening { IfOk result (λ b. opening_of b ≡ record { number = number; marks = marks.now; far = F.Network.meaning far }) }
        ensures opened { IfOk result (λ b. paper_of b ≡ opened) }
        ensures taken { IfOk result (λ b. opening_refusal (record { number = number; marks = marks.now; far = F.Network.meaning far }) ≡ None) }
        ensures refused { IfErr result (λ e. opening_refusal (record { number = number; marks = marks.now; far = F.Network.meaning far }) ≡ fault_refusal e.fault) }
        ensures back { IfErr result (λ e. e.far ≡ far) }
    {
        let front = match Front::new(marks, far) {
            Ok(front) => front,
            Err(far) => {
                return Err(NotOpened {
                    fault: OpeningFault::Refused(Refusal::OverLimit),
                    far,
                });
            }
        };
        match OwnTable::open(alloc) {
            Ok(own) => Ok(Board {
                number,
                front,
                own,
                rules: ArrayVec::new(),
                pending: None,
                last: 0,
            }),
            Err(_) => Err(NotOpened {
                fault: OpeningFault::NoMemory,
                far: front.into_far(),
            }),
        }
    }

    /// How many proposals are open: 0 or 1.
    pub fn open_proposals(&self) -> usize
        ensures { Does (opening_of self.now) (paper_of self.now) ask_open (open_count result) (paper_of self.now) }
    {
        usize::from(self.pending.is_some())
    }

    // Tests the two numbers of an own binding: they name conditions of the far network's kind alone.
    fn check_numbers(&self, on: u16, off: u16) -> Result<(), Refusal>
        ensures { result_err result ≡ numbers_refusal (opening_of self.now) on off }
    {
        let settings = 1u32 << self.front.conditions;
        if u32::from(on) >= settings || u32::from(off) >= settings {
            return Err(Refusal::NoCondition);
        }
        Ok(())
    }

    // Tests a binding that is to be added: its ends are places, one of them an own place.
    fn check_binding(&self, binding: OwnBinding) -> Result<(), Refusal>
        ensures { result_err result ≡ change_refusal (opening_of self.now) (length (paper_of self.now).own) (Change.Bind binding) }
    {
        let (from, to) = (usize::from(binding.from), usize::from(binding.to));
        if from >= self.front.count || to >= self.front.count {
            return Err(Refusal::NoPlace);
        }
        let own = self.front.marks.len();
        if from >= own && to >= own {
            return Err(Refusal::NoOwnEnd);
        }
        self.check_numbers(binding.on, binding.off)
    }

    // Tests a change by itself.
    fn check_change(&self, change: Change) -> Result<(), Refusal>
        ensures { result_err result ≡ change_refusal (opening_of self.now) (length (paper_of self.now).own) change }
    {
        match change {
            Change::Bind(binding) => self.check_binding(binding),
            Change::Unbind(i) | Change::Recondition(i, _, _) if i >= self.own.len() => Err(
                Refusal::NoBinding,
            ),
            Change::Unbind(_) => Ok(()),
            Change::Recondition(_, on, off) => self.check_numbers(on, off),
        }
    }

    // Tests whether there is room for a change.
    fn check_room(&self, change: Change) -> Result<(), Refusal>
        ensures { result_err result ≡ unless (has_room_for (length (paper_of self.now).own) change) Refusal.BindingsFull }
    {
        match change {
            Change::Bind(_) if self.own.len() >= MOST_OWN_BINDINGS => Err(Refusal::BindingsFull),
            _ => Ok(()),
        }
    }

    // Tests whether no proposal is open.
    fn check_closed(&self) -> Result<(), Refusal>
        ensures { result_err result ≡ unless (closed (paper_of self.now)) Refusal.ProposalOpen }
    {
        if self.pending.is_some() {
            return Err(Refusal::ProposalOpen);
        }
        Ok(())
    }

    fn check_propose(&self, change: Change) -> Result<(), Refusal>
        ensures { result_err result ≡ refusal (opening_of self.now) (paper_of self.now) (propose change) }
    {
        self.check_change(change)?;
        self.check_closed()?;
        self.check_room(change)?;
        if self.last == u32::MAX {
            return Err(Refusal::NoSerial);
        }
        Ok(())
    }

    fn check_revise(&self, numbers: Numbers, change: Change) -> Result<(), Refusal>
        ensures { result_err result ≡ refusal (opening_of self.now) (paper_of self.now) (revise numbers change) }
    {
        self.check_change(change)?;
        self.check_room(change)?;
        let _ = self.open_change(numbers)?;
        Ok(())
    }

    // The change of the open proposal, where the numbers are those of its ticket.
    fn open_change(&self, numbers: Numbers) -> Result<Prepared<F::Set>, Refusal>
        ensures refused { result_err result ≡ unless (fits_ticket (opening_of self.now) (paper_of self.now) numbers) Refusal.WrongTicket }
        ensures change { IfOk result (λ change. self.now.pending ≡ Some change) }
    {
        let Numbers { board, serial } = numbers;
        match self.pending {
            Some(change) if board == self.number && serial == self.last => Ok(change),
            _ => Err(Refusal::WrongTicket),
        }
    }

    // Tests whether the lists are long enough for tables of so many rows.
    fn check_lists(&self, rows: usize, room: Room) -> Result<(), Refusal>
        requires { rows ≤ 32 }
        ensures { result_err result ≡ unless (enough (opening_of self.now) rows room) Refusal.TooShort }
    {
        let places = self.front.count;
        if room.main < rows * places || room.spare < 2 * places || room.steps < places + 1 {
            return Err(Refusal::TooShort);
        }
        Ok(())
    }

    fn check_adopt(&self, table: &[Row], room: Room) -> Result<(), Refusal>
        ensures { result_err result ≡ refusal (opening_of self.now) (paper_of self.now) (adopt table.now room) }
    {
        if !is_accepted(table, self.front.conditions) {
            return Err(Refusal::BadTable);
        }
        self.check_lists(table.len(), room)?;
        self.check_closed()?;
        if self.rules.len() >= MOST_RULES {
            return Err(Refusal::RulesFull);
        }
        Ok(())
    }

    fn check_admit(&self, room: Room) -> Result<(), Refusal>
        ensures { result_err result ≡ unless (enough (opening_of self.now) (most_rows (paper_of self.now).rules) room) Refusal.TooShort }
    {
        let mut rows = 0;
        for rule in self.rules.as_slice() {
            if rule.len() > rows {
                rows = rule.len();
            }
        }
        self.check_lists(rows, room)
    }

    // What `propose` does, but that it answers the numbers of the ticket.
    pub(crate) fn propose_numbers(&mut self, change: Change) -> Result<Numbers, Refusal>
        ensures does { Does (opening_of self.old) (paper_of self.old) (propose change) (propose_by result) (paper_of self.new) }
        ensures opening { self.new.number ≡ self.old.number }
        ensures front { self.new.front ≡ self.old.front }
    {
        self.check_propose(change)?;
        self.last += 1;
        self.pending = Some(Prepared::new(change));
        Ok(Numbers {
            board: self.number,
            serial: self.last,
        })
    }

    // What `revise` does, of the ticket with these numbers.
    pub(crate) fn revise_numbers(&mut self, numbers: Numbers, change: Change) -> Result<(), Refusal>
        ensures does { Does (opening_of self.old) (paper_of self.old) (revise numbers change) (revise_by numbers result) (paper_of self.new) }
        ensures opening { self.new.number ≡ self.old.number }
        ensures front { self.new.front ≡ self.old.front }
    {
        self.check_revise(numbers, change)?;
        self.pending = Some(Prepared::new(change));
        Ok(())
    }

    // What `withdraw` does, of the ticket with these numbers.
    pub(crate) fn withdraw_numbers(&mut self, numbers: Numbers) -> Result<(), Refusal>
        ensures does { Does (opening_of self.old) (paper_of self.old) (withdraw numbers) (withdraw_by result) (paper_of self.new) }
        ensures opening { self.new.number ≡ self.old.number }
        ensures front { self.new.front ≡ self.old.front }
    {
        let _ = self.open_change(numbers)?;
        self.pending = None;
        Ok(())
    }

    // What `admit` does, of the ticket with these numbers.
    pub(crate) fn admit_numbers(
        &mut self,
        numbers: Numbers,
        main: &mut [F::Set],
        spare: &mut [F::Set],
        steps: &mut [RouteStep],
    ) -> Result<usize, Rejection>
        ensures does { Does (opening_of self.old) (paper_of self.old) (admit numbers (room_of main.old spare.old steps.old))
            (admit_answer result steps.new) (paper_of self.new) }
        ensures opening { self.new.number ≡ self.old.number }
        ensures front { self.new.front ≡ self.old.front }
        ensures steps { StepsAfter result steps.old steps.new }
        ensures work { WorkAfter result main.old main.new spare.old spare.new }
    {
        self.check_admit(Room {
            main: main.len(),
            spare: spare.len(),
            steps: steps.len(),
        })?;
        let change = self.open_change(numbers)?;
        let judged = self.judge_change(change, main, spare, steps);
        self.pending = None;
        match judged {
            Ok(rounds) => {
                self.own.make(change);
                Ok(rounds)
            }
            Err(failure) => Err(Rejection::TurnedDown(failure)),
        }
    }

    // Judges all rules with a change that can be made.
    fn judge_change(
        &self,
        change: Prepared<F::Set>,
        main: &mut [F::Set],
        spare: &mut [F::Set],
        steps: &mut [RouteStep],
    ) -> Result<usize, Failure>
        requires possible { can_make self.now.front.count (change_of change) (bindings_of self.now.own.items.items) ≡ true }
        requires room { enough (opening_of self.now) (most_rows (paper_of self.now).rules) (room_of main.old spare.old steps.old) ≡ true }
        ensures judged { RulesShown (standing (opening_of self.now) (changed (change_of change) (paper_of self.now).own))
            (paper_of self.now).rules steps.new result }
        ensures steps { MatchResult result (λ _. steps.new ≡ steps.old) (λ f. StepsKept f.shown steps.old steps.new) }
    {
        let net = Proposed {
            board: self,
            change,
            count: count_with(self, change),
        };
        judge_with(&net, self.rules.as_slice(), main, spare, steps)
    }

    /// Adopts the rule of a table: judges it in the standing network at every entry, own and far, under every setting, and
    /// adds it to the rules. Answers the rounds of the table.
    ///
    /// Refused by `BadTable`, by `TooShort` where the main list has fewer than rows × places sets, the spare fewer than
    /// 2 × places or `steps` fewer than places + 1 positions, by `ProposalOpen` and, with eight rules, by `RulesFull`; this
    /// changes nothing. Turned down (25) where the rule breaks: the board stays, main list and spare are free, and what is
    /// shown of it stands at the front of `steps`.
    pub fn adopt(
        &mut self,
        table: &[Row],
        main: &mut [F::Set],
        spare: &mut [F::Set],
        steps: &mut [RouteStep],
    ) -> Result<usize, Rejection>
        ensures does { Does (opening_of self.old) (paper_of self.old) (adopt table.now (room_of main.old spare.old steps.old))
            (adopt_answer result steps.new) (paper_of self.new) }
        ensures opening { opening_of self.new ≡ opening_of self.old }
        ensures front { self.new.front ≡ self.old.front }
        ensures steps { StepsAfter result steps.old steps.new }
        ensures work { WorkAfter result main.old main.new spare.old spare.new }
    {
        self.check_adopt(
            table,
            Room {
                main: main.len(),
                spare: spare.len(),
                steps: steps.len(),
            },
        )?;
        match judge_next(&*self, self.rules.len(), table, main, spare, steps) {
            Ok(rounds) => {
                self.keep_rule(table);
                Ok(rounds)
            }
            Err(failure) => Err(Rejection::TurnedDown(failure)),
        }
    }

    // Adds an accepted table to the rules.
    fn keep_rule(&mut self, table: &[Row])
        requires taken { accepted self.old.front.conditions table.now ≡ true }
        requires room { length (paper_of self.old).rules < 8 }
        ensures paper { paper_of self.new ≡ record (paper_of self.old) { rules = (paper_of self.old).rules ++ table.now ∷ [] } }
        ensures opening { self.new.number ≡ self.old.number }
        ensures front { self.new.front ≡ self.old.front }
    {
        let mut rule = ArrayVec::new();
        let _ = rule.try_extend_from_slice(table);
        self.rules.push(rule);
    }

    /// Records a change, and hands out the ticket that decides it, with the number of the board and the next serial; the first
    /// serial is 1.
    ///
    /// Refused, in this order: to bind, by `NoPlace`, `NoOwnEnd`, `NoCondition`, `ProposalOpen`, `BindingsFull`, `NoSerial`; to
    /// unbind, by `NoBinding`, `ProposalOpen`, `NoSerial`; to recondition, by `NoBinding`, `NoCondition`, `ProposalOpen`,
    /// `NoSerial`. A refused call changes nothing.
    pub fn propose(&mut self, change: Change) -> Result<Ticket, Refusal>
        ensures does { Does (opening_of self.old) (paper_of self.old) (propose change) (propose_answer result) (paper_of self.new) }
        ensures opening { opening_of self.new ≡ opening_of self.old }
        ensures front { self.new.front ≡ self.old.front }
    {
        let numbers = self.propose_numbers(change)?;
        Ok(Ticket { numbers })
    }

    /// Replaces the change of the open proposal, and hands its ticket back.
    ///
    /// Refused, in this order: to bind, by `NoPlace`, `NoOwnEnd`, `NoCondition`, `BindingsFull`, `WrongTicket`; to unbind, by
    /// `NoBinding`, `WrongTicket`; to recondition, by `NoBinding`, `NoCondition`, `WrongTicket`. `WrongTicket` comes where the
    /// ticket is not that of the open proposal. A refused call changes nothing.
    pub fn revise(&mut self, ticket: Ticket, change: Change) -> Result<Ticket, Denied>
        ensures does { Does (opening_of self.old) (paper_of self.old) (revise ticket.numbers change) (revise_answer result) (paper_of self.new) }
        ensures opening { opening_of self.new ≡ opening_of self.old }
        ensures front { self.new.front ≡ self.old.front }
        ensures back { IfErr result (λ d. d.ticket ≡ ticket) }
    {
        match self.revise_numbers(ticket.numbers, change) {
            Ok(()) => Ok(ticket),
            Err(refusal) => Err(Denied { refusal, ticket }),
        }
    }

    /// Judges all rules in their order in the network with the open change, and lets the change stand; answers the sum of the
    /// rounds. The ticket is spent.
    ///
    /// Refused by `TooShort` as `adopt` is, for the largest adopted table, and by `WrongTicket` where the ticket is not that of
    /// the open proposal; this changes nothing and hands the ticket back. Turned down (25) where a rule breaks: the change is
    /// dropped and the ticket spent, main list and spare are free, and what is shown stands at the front of `steps`.
    pub fn admit(
        &mut self,
        ticket: Ticket,
        main: &mut [F::Set],
        spare: &mut [F::Set],
        steps: &mut [RouteStep],
    ) -> Result<usize, NotAdmitted>
        ensures does { Does (opening_of self.old) (paper_of self.old) (admit ticket.numbers (room_of main.old spare.old steps.old))
            (ticket_answer result steps.new) (paper_of self.new) }
        ensures opening { opening_of self.new ≡ opening_of self.old }
        ensures front { self.new.front ≡ self.old.front }
        ensures back { IfSome (handed_back result) (λ t. t ≡ ticket) }
        ensures steps { StepsAfterAdmit result steps.old steps.new }
        ensures work { WorkAfterAdmit result main.old main.new spare.old spare.new }
    {
        match self.admit_numbers(ticket.numbers, main, spare, steps) {
            Ok(rounds) => {
                ticket.spend();
                Ok(rounds)
            }
            Err(Rejection::Refused(refusal)) => {
                Err(NotAdmitted::Denied(Denied { refusal, ticket }))
            }
            Err(Rejection::TurnedDown(failure)) => {
                ticket.spend();
                Err(NotAdmitted::TurnedDown(failure))
            }
        }
    }

    /// Drops the open change, and spends its ticket.
    ///
    /// Refused by `WrongTicket` where the ticket is not that of the open proposal; this changes nothing and hands it back.
    pub fn withdraw(&mut self, ticket: Ticket) -> Result<(), Denied>
        ensures does { Does (opening_of self.old) (paper_of self.old) (withdraw ticket.numbers) (withdraw_answer result) (paper_of self.new) }
        ensures opening { opening_of self.new ≡ opening_of self.old }
        ensures front { self.new.front ≡ self.old.front }
        ensures back { IfErr result (λ d. d.ticket ≡ ticket) }
    {
        match self.withdraw_numbers(ticket.numbers) {
            Ok(()) => {
                ticket.spend();
                Ok(())
            }
            Err(refusal) => Err(Denied { refusal, ticket }),
        }
    }
}
