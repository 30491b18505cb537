// Judging one rule of a plan.
ghost use Rattle.std.specs.Prelude.{◌≡◌, ◌≤◌, true, length};
ghost use Rattle.tables.specs.Tables.{accepted};
ghost use Rattle.rule_text.specs.Reading.{table_rows};
ghost use Rattle.report.specs.Rules.{LineAdded};

use crate::outcome::Report;
use routing::network::{MOST_PLACES, Network};
use rule_text::table::Table;
use tables::table::MOST_ROWS;
use verdicts::entries::judge_entries;

// The rooms of a work space in which each table can be judged on each network: of 32 rows by 256 places, and of two rows.
pub const MAIN_ROOM: usize = MOST_ROWS * MOST_PLACES;

pub const SPARE_ROOM: usize = 2 * MOST_PLACES;

// Judges the network against the table of one rule, and adds the rule's line.
pub(crate) fn add_rule<N: Network>(
    net: &N,
    table: &Table,
    rule: u8,
    main: &mut [N::Set],
    spare: &mut [N::Set],
    report: &mut Report,
)
    requires taken { accepted (N.meaning net.now).conditions (table_rows table.now) ≡ true }
    requires main_room { 8192 ≤ length main.old }
    requires spare_room { 512 ≤ length spare.old }
    ensures { LineAdded (N.meaning net.now) rule (table_rows table.now) report.old report.new }
{
    if let Ok(judgement) = judge_entries(net, table.rows(), main, spare) {
        report.add_verdict(rule, judgement);
    }
}
