//! The command `need`: what a player needs for a place in the next deal of the last game of a file.
ghost use Rattle.std.specs.Prelude.{◌≡◌, Some, option_map};
ghost use Rattle.desk_lines.specs.Streams.{Writes};
ghost use Rattle.riichi_need.specs.Needs.{AreRonNeeds, IsNeed};
ghost use Rattle.riichi_need.specs.declared.need.Needs.{Needs};
ghost use Rattle.riichi_need.specs.declared.question.Way.TheVariants.{Tsumo};
ghost use Rattle.riichi_need_text.specs.NeedTexts.{needs_text};
ghost use Rattle.riichi_game_text.specs.Names.{names_in};
ghost use Rattle.riichi_desk.specs.Needing as spec;

use crate::failure::Failure;
use crate::files::{is_input, open_file};
use crate::noted::Notes;
use crate::progress::Progress;
use desk_cli::NeedRequest;
use desk_games::{GameAtHand, GameDesk, games_played};
use desk_io::{FromReader, Sink, ToWriter};
use desk_lines::{DeskFault, write_all};
use riichi_game_text::{Names, players_if_said};
use riichi_hand::Rules;
use riichi_need::{Question, needs_of};
use riichi_need_text::needs_text;
use std::io::{Eprint, Input, Print, Read};
use std::rt::Files;
use std::time::Clock;

/// Why there is nothing that a player needs.
#[derive(Clone, Copy, Debug, PartialEq, Eq)]
pub enum NoNeed {
    /// No game has begun, or a line of the last one was refused.
    NoGame,
    /// The last game is over.
    Over,
    /// The name is of no player.
    NoPlayer,
    /// The names of those who bet aren't those of players, each once.
    NoBettors,
}

/// Prints what a player needs.
pub fn answer_need<'a, R: Input + Print + Eprint + Files + Clock>(
    rt: &R,
    notes: &Notes<'a>,
    progress: &Progress<'_, R>,
    need: &NeedRequest<'a>,
) -> Result<bool, Failure<'a>> {
    let file = need.file;
    let desk = desk_behind(rt, notes, progress, file, need.rules)?;
    match question_of(&desk, need) {
        Ok(question) => print_game_needs(rt, notes, &desk, &question),
        Err(why) => Err(no_need(need, why)),
    }
}

/// That there is nothing that a player needs, by the words that ask for it.
fn no_need<'a>(need: &NeedRequest<'a>, why: NoNeed) -> Failure<'a> {
    Failure::NoNeed {
        file: need.file,
        name: need.name,
        riichi: need.riichi,
        why,
    }
}

/// Prints the answer to a question of the game at hand.
fn print_game_needs<'a, R: Print>(
    rt: &R,
    notes: &Notes<'a>,
    desk: &GameDesk,
    question: &Question,
) -> Result<bool, Failure<'a>> {
    match desk.game() {
        Some(game) => print_needs(rt, notes, &game.names(), question),
        None => Ok(false),
    }
}

/// Prints the answer to a question.
fn print_needs<'a, R: Print>(
    rt: &R,
    notes: &Notes<'a>,
    names: &Names,
    question: &Question,
) -> Result<bool, Failure<'a>> {
    let mut writer = ToWriter::new(notes.output(rt));
    match write_needs(names, question, &mut writer) {
        Ok(()) => Ok(false),
        Err(fault) => Err(Failure::Explained(fault)),
    }
}

/// The games of a file, or of standard input, behind its last line.
fn desk_behind<'a, R: Input + Eprint + Files + Clock>(
    rt: &R,
    notes: &Notes<'a>,
    progress: &Progress<'_, R>,
    file: &'a str,
    rules: Rules,
) -> Result<GameDesk, Failure<'a>> {
    if is_input(file) {
        return desk_of(rules, notes.text(progress, "standard input", rt.reader()));
    }
    desk_of(
        rules,
        notes.text(progress, file, open_file(rt, notes, file)?),
    )
}

fn desk_of<'a, T: Read + Drop>(rules: Rules, stream: T) -> Result<GameDesk, Failure<'a>> {
    let mut reader = FromReader::new(stream);
    match games_played(rules, &mut reader) {
        Ok(desk) => Ok(desk),
        Err(fault) => Err(Failure::Explained(fault)),
    }
}

/// What is asked of the last game, or why there is nothing to ask.
fn question_of(desk: &GameDesk, need: &NeedRequest<'_>) -> Result<Question, NoNeed>
    ensures { result ≡ spec.question_of desk.now need.now.place need.now.name.now
        (option_map (λ names. names.now) need.now.riichi) }
{
    match desk.game() {
        None => Err(NoNeed::NoGame),
        Some(game) => question_asked(game, need),
    }
}

fn question_asked(game: &GameAtHand, need: &NeedRequest<'_>) -> Result<Question, NoNeed>
    ensures { result ≡ spec.question_asked (Some game.now) need.now.place need.now.name.now
        (option_map (λ names. names.now) need.now.riichi) }
{
    let progress = game.progress();
    if progress.is_over {
        return Err(NoNeed::Over);
    }
    let names = game.names();
    let Some(player) = names.find(need.name.as_bytes()) else {
        return Err(NoNeed::NoPlayer);
    };
    let Some(bets) = players_if_said(&names, need.riichi.map(str::as_bytes)) else {
        return Err(NoNeed::NoBettors);
    };
    Ok(Question {
        rules: game.rules(),
        state: progress.state,
        bets,
        player,
        place: need.place,
    })
}

/// Writes what a player needs.
fn write_needs<W: Sink>(names: &Names, question: &Question, writer: &mut W) -> Result<(), DeskFault>
    ensures { (needs : Needs) × AreRonNeeds question.now needs.by_ron
        × IsNeed question.now Tsumo needs.by_tsumo
        × Writes ⟦<W as Sink>⟧ writer.old writer.new result
        (needs_text (names_in names.now) question.now needs) }
{
    let text = needs_text(names, question, &needs_of(question));
    write_all(writer, text.as_str().as_bytes())
}
