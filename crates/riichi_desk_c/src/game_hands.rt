//! What a player of a game needs, and what hands are worth in it.
ghost use Rattle.std.specs.Prelude.{◌≡◌, Some};
ghost use Rattle.riichi_game_rows.specs.Fours.{player_in as player_numbered};
ghost use Rattle.riichi_win_arrays.specs.WinRows.{by_in as by_of_number};
ghost use Rattle.riichi_desk_c.specs.Games as spec;
ghost use Rattle.riichi_desk_c.specs.Games.{game_in_rows as game_of_rows};
ghost use Rattle.riichi_desk_c.specs.Replies.{rules_numbered as rules_of_number};

use crate::game_rows::{Game, game_in_rows};
use crate::rules_numbered;
use riichi_game_rows::{
    NeedsRow, ProgressRow, QuestionRow, TableRow, WorthRow, counted_base, player_in, told_number,
    worth_of_row,
};
use riichi_hand::{By, Rules};
use riichi_need::{Question, needs_of};
use riichi_win_arrays::{WinRow, by_in};

/// Told where a number says no player, no place or no way to win.
const NO_QUESTION: u32 = 203;

/// The number of the fault of an outcome behind the end of a game.
const OVER: u32 = 15;

/// Says what a player needs for a place in the next deal: 0, or the number of the fault for which nothing is told.
#[unsafe(no_mangle)]
pub extern "C" fn riichi_game_needs(
    table: &TableRow,
    progress: &ProgressRow,
    question: &QuestionRow,
    needs: &mut NeedsRow,
) -> u32
    ensures { spec.TellsNeeds (spec.asked (game_of_rows table.now progress.now) question.now)
        result needs.old needs.new }
{
    match asked(game_in_rows(table, progress), question) {
        Err(number) => number,
        Ok(question) => {
            *needs = NeedsRow::of(&needs_of(&question));
            0
        }
    }
}

/// What is asked, or the number of the fault.
fn asked(game: Result<Game, u32>, row: &QuestionRow) -> Result<Question, u32>
    ensures { result ≡ spec.asked game row.now }
{
    let game = game?;
    if game.progress.is_over {
        return Err(OVER);
    }
    match row.question(&game.rules, &game.progress.state) {
        None => Err(NO_QUESTION),
        Some(question) => Ok(question),
    }
}

/// Says what a hand is worth that the player `winner` wins by ron (0) or self-draw (1), with what the table knows of it: 100, or 101
/// without a yaku, 102 where it is no win, n for the fault Hn; or the number of the fault for which nothing is told.
#[unsafe(no_mangle)]
pub extern "C" fn riichi_game_worth(
    table: &TableRow,
    progress: &ProgressRow,
    winner: u32,
    by: u32,
    hand: &WinRow,
    worth: &mut WorthRow,
) -> u32
    ensures { spec.TellsWorth (game_of_rows table.now progress.now) (player_numbered winner)
        (by_of_number by) hand.now result worth.old worth.new }
{
    let game = match game_in_rows(table, progress) {
        Err(number) => return number,
        Ok(game) => game,
    };
    let (Some(winner), Some(by)) = (player_in(winner), by_in(by)) else {
        return NO_QUESTION;
    };
    let valued = worth_of_row(&game.progress.state, &game.rules, winner, by, hand);
    let told = told_number(&valued);
    if let Ok(value) = valued {
        *worth = WorthRow::of(value);
    }
    told
}

/// The base points of a hand of so many han and fu under the rules of this number, won by ron (0) or self-draw (1); 0 where no hand
/// has so many, or there are no such rules.
#[unsafe(no_mangle)]
pub extern "C" fn riichi_game_base(rules: u32, by: u32, han: u32, fu: u32) -> u32
    ensures { result ≡ spec.told_base (rules_of_number rules) (by_of_number by) han fu }
{
    match (rules_numbered(rules), by_in(by)) {
        (Some(rules), Some(by)) => base_within(rules, by, han, fu),
        _ => 0,
    }
}

fn base_within(rules: Rules, by: By, han: u32, fu: u32) -> u32
    ensures { result ≡ spec.told_base (Some rules) (Some by) han fu }
{
    if han < 256 && fu < 256 {
        counted_base(rules, by, han as u8, fu as u8)
    } else {
        0
    }
}
