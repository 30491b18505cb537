// Judging a network against a rule table, and the routes that show a row.
#![tactic(auto)]

mod always;
pub mod breaking;
pub mod judge;
mod next;
mod notes;
pub mod route;
mod row_rounds;
mod sets;
mod showing;
pub mod shown;
mod until;
mod work;
