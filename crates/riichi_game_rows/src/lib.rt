//! A game of four players as rows of numbers, as C sees them.
//!
//! A [`TableRow`] has the rules of a table, a [`ProgressRow`] how far a game has come, with the [`StateRow`] that the table shows, and
//! an [`OutcomeRow`] how a deal ended, with a [`WorthRow`] for what each player wins. Each is read into its value, or into nothing
//! where one of its numbers says nothing. What is told of a game is written: a [`MoveRow`] says who pays whom and why, a
//! [`ChangesRow`] what that changes, [`FinalsRow`] what players have at the end, [`NeedsRow`] what a player needs for the place
//! that a [`QuestionRow`] asks for.
//!
//! [`play`] goes on by rows of outcomes as long as they are accepted. No row has a place between its fields that none of them
//! names. All of these are plain values, and no call takes memory.
#![tactic(auto)]

mod fault_numbers;
mod final_row;
mod four;
mod hand_row;
pub mod laws;
mod move_row;
mod need_row;
mod outcome_row;
mod playing;
mod state_row;
mod table_row;
mod worth_row;

pub use fault_numbers::{RowFault, row_fault_number, rules_fault_number};
pub use final_row::{FinalRow, FinalsRow};
pub use four::player_in;
pub use hand_row::{HandFault, told_number, worth_of_row};
pub use move_row::{ChangesRow, MoveRow, fill_moves};
pub use need_row::{NeedRow, NeedsRow, PaidRow, QuestionRow};
pub use outcome_row::OutcomeRow;
pub use playing::{Played, accepted_outcome, play};
pub use state_row::{ProgressRow, StateRow};
pub use table_row::TableRow;
pub use worth_row::{WorthRow, counted_base};
