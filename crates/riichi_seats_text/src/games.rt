//! The lines of games of sessions.
ghost use Rattle.std.specs.Prelude.{◌≡◌, ◌+◌, ◌*◌, ◌^◌, ◌<◌, ◌≤◌, ◌++◌, length, map, decimal, IfOk, OnOk};
ghost use Rattle.riichi_seats_text.specs.Games as spec;
ghost use Rattle.riichi_seats_text.specs.Notes.{notes_text};

use crate::notes::push_notes;
use itoa::Buffer;
use riichi_game_text::Name;
use riichi_seats::Table;
use std::alloc::{AllocError, Global};

/// The games of all sessions of so many tables, a line each, with words of the rules of a table behind it, and below them the notes:
/// which pairs meet more than once, and how often each player sits at each first seat. The names stand in the order of the numbers
/// of the players. It fails for want of memory.
pub fn seating_text(
    alloc: Global,
    names: &[Name],
    tables: u16,
    words: &[u8],
    games: &[Table],
) -> Result<Vec<u8>, AllocError>
    requires some { 0 < tables }
    requires few { tables ≤ 100 }
    ensures { let texts = map (λ name. name.bytes) names.now in
        IfOk result (λ text. text.items ≡ spec.games_text texts tables words.now 0 games.now
        ++ notes_text texts games.now (4 * tables)) }
{
    let mut text = Vec::new(alloc);
    push_games(&mut text, names, tables, words, 0, games)?;
    push_notes(alloc, &mut text, names, 4 * tables, games)?;
    Ok(text)
}

/// The games of the session behind so many, a line each, without notes. It fails for want of memory.
pub fn session_text(
    alloc: Global,
    names: &[Name],
    tables: u16,
    words: &[u8],
    sessions: u32,
    games: &[Table],
) -> Result<Vec<u8>, AllocError>
    requires some { 0 < tables }
    requires few { length games.now ≤ 100 }
    ensures { IfOk result (λ text. text.items ≡ spec.games_text (map (λ name. name.bytes) names.now)
        tables words.now (sessions * tables) games.now) }
{
    let mut text = Vec::new(alloc);
    let first = sessions as usize * usize::from(tables);
    push_games(&mut text, names, tables, words, first, games)?;
    Ok(text)
}

/// With the lines of games, whose numbers begin with one.
fn push_games(
    text: &mut Vec<u8>,
    names: &[Name],
    tables: u16,
    words: &[u8],
    first: usize,
    games: &[Table],
) -> Result<(), AllocError>
    requires some { 0 < tables }
    requires few { first + length games.now < 2 ^ 64 }
    ensures { OnOk result (text.new.items ≡ text.old.items
        ++ spec.games_text (map (λ name. name.bytes) names.now) tables words.now first games.now) }
{
    let mut number = first;
    for table in games {
        push_game(text, names, tables, words, (number, *table))?;
        number += 1;
    }
    Ok(())
}

/// With the line of the game of a number from 0 on.
#[tactic(auto, unfolding(crate::specs::Games::game_line))]
fn push_game(
    text: &mut Vec<u8>,
    names: &[Name],
    tables: u16,
    words: &[u8],
    game: (usize, Table),
) -> Result<(), AllocError>
    requires some { 0 < tables }
    requires number { game.0 + 1 < 2 ^ 64 }
    ensures { OnOk result (text.new.items ≡ text.old.items
        ++ spec.game_line (map (λ name. name.bytes) names.now) tables words.now game.0 game.1) }
{
    let (number, table) = game;
    text.extend_from_slice(b"game ")?;
    push_players(text, names, &table)?;
    push_place(text, usize::from(tables), number)?;
    push_behind(text, words)?;
    text.extend_from_slice(b"\n")?;
    Ok(())
}

/// With the session and the table of a game by its number from 0 on.
#[tactic(auto, unfolding(crate::specs::Games::game_place_text))]
fn push_place(text: &mut Vec<u8>, tables: usize, number: usize) -> Result<(), AllocError>
    requires some { 0 < tables }
    requires number { number + 1 < 2 ^ 64 }
    ensures { OnOk result (text.new.items ≡ text.old.items ++ spec.game_place_text tables number) }
{
    text.extend_from_slice(b" session=")?;
    push_decimal(text, number / tables + 1)?;
    text.extend_from_slice(b" at=")?;
    push_decimal(text, number % tables + 1)?;
    Ok(())
}

/// With the names of a table.
#[tactic(auto, unfolding(crate::specs::Games::players_text))]
fn push_players(text: &mut Vec<u8>, names: &[Name], table: &Table) -> Result<(), AllocError>
    ensures { OnOk result (text.new.items ≡ text.old.items
        ++ spec.players_text (map (λ name. name.bytes) names.now) table.now) }
{
    push_name(text, names, table.east)?;
    text.extend_from_slice(b" ")?;
    push_name(text, names, table.south)?;
    text.extend_from_slice(b" ")?;
    push_name(text, names, table.west)?;
    text.extend_from_slice(b" ")?;
    push_name(text, names, table.north)
}

/// With the name of a player.
pub(crate) fn push_name(text: &mut Vec<u8>, names: &[Name], player: u16) -> Result<(), AllocError>
    ensures { OnOk result (text.new.items ≡ text.old.items
        ++ spec.player_name (map (λ name. name.bytes) names.now) player) }
{
    if let Some(name) = names.get(usize::from(player)) {
        text.extend_from_slice(name.as_str().as_bytes())?;
    }
    Ok(())
}

/// With a number.
pub(crate) fn push_decimal(text: &mut Vec<u8>, number: usize) -> Result<(), AllocError>
    ensures { OnOk result (text.new.items ≡ text.old.items ++ decimal number) }
{
    let mut buffer = Buffer::new();
    text.extend_from_slice(buffer.format(number).as_bytes())
}

/// With words, if there are any.
fn push_behind(text: &mut Vec<u8>, words: &[u8]) -> Result<(), AllocError>
    ensures { OnOk result (text.new.items ≡ text.old.items ++ spec.words_behind words.now) }
{
    if words.is_empty() {
        return Ok(());
    }
    text.extend_from_slice(b" ")?;
    text.extend_from_slice(words)
}
