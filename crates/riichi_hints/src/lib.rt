//! What a refused line may have been meant to be.
//!
//! [`push_refusal`] writes the lines that follow a refusal, and below them `try:` and a line like the refused one that is
//! answered, where one was found. The line is read loosely into a draft: names as players say them in some languages and scripts,
//! upper case, tiles that stand apart, melds without a key, a winning tile that was counted in the hand. The draft is shown only where the rules of the line read it as a record, and
//! above it stands what became of the words: what is read as something else, what is left out, and what is a guess, in which case
//! the line stands behind `guess:`. No call takes memory.
//!
//! ```text
//! refused H4
//!   seat=East: a seat is E, S, W or N
//!   here seat=East is read as seat=E.
//!   try: win 234m567m345p67s99s on=5s by=ron seat=E round=E
//! ```
#![tactic(auto)]

mod account;
mod crowd;
mod draft;
mod foreign;
mod hint;
mod mending;
mod names;
mod notes;
mod numbers;
mod plain;
mod role;
mod spelled;
mod text;
mod tiles;
mod values;
mod words;
mod writing;

pub use account::AccountText;
pub use hint::{Hint, hint_of, push_refusal};
pub use text::Line;
