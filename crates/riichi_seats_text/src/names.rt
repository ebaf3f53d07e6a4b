//! A list of names.
ghost use Rattle.std.specs.Prelude.{◌≡◌, ◌%◌, ◌≤◌, ◌++◌, ◌∷◌, [], true, map, vec_len, is_ok, if◌then◌else◌, IfOk, IfSome};
ghost use Rattle.std.specs.List.{list_any};
ghost use Rattle.std.specs.Str.{bytes_eq};
ghost use Rattle.riichi_game_text.specs.Names.{is_player_name};
ghost use Rattle.riichi_seats_text.specs.Names as spec;

use riichi_game_text::{Name, next_said, read_name};
use riichi_seats::MOST_PLAYERS;
use std::alloc::{AllocError, Global};

/// Why a text is no list of names.
#[derive(Clone, Copy, Debug, PartialEq, Eq)]
pub enum ListFault {
    /// The words of this line, counted from 1, are no name.
    NoName(u32),
    /// The name of this line stands on a line before it.
    Twice(u32),
    /// So many names aren't four for each of some tables.
    NotFours(usize),
    /// There are more than [`MOST_PLAYERS`].
    TooMany,
}

/// Why a list of names isn't read.
#[derive(Clone, Copy, Debug, PartialEq, Eq)]
pub enum ListError {
    Fault(ListFault),
    /// There is no memory for it.
    Memory,
}

impl From<AllocError> for ListError {
    fn from(_error: AllocError) -> ListError {
        ListError::Memory
    }
}

impl From<ListFault> for ListError {
    fn from(fault: ListFault) -> ListError {
        ListError::Fault(fault)
    }
}

/// Reads a list of names, one on a line. Lines without a word are passed over; a word that begins with `#` begins a note. There are
/// four names for each of some tables.
pub fn read_names(alloc: Global, text: &[u8]) -> Result<Vec<Name>, ListError>
    ensures some { IfOk result (λ names. 4 ≤ vec_len names) }
    ensures few { IfOk result (λ names. vec_len names ≤ 400) }
    ensures fours { IfOk result (λ names. vec_len names % 4 ≡ 0) }
    ensures seated { IfOk result (λ names. spec.AreOnce (map (λ name. name.bytes) names.items)) }
{
    let mut names = Vec::new(alloc);
    let mut number: u32 = 0;
    for line in text.split(|byte| *byte == b'\n') {
        number = number.saturating_add(1);
        add_line(&mut names, line, number)?;
    }
    if names.len() < 4 || names.len() % 4 != 0 {
        return Err(ListError::Fault(ListFault::NotFours(names.len())));
    }
    Ok(names)
}

/// With the name of a line, if there is one.
fn add_line(names: &mut Vec<Name>, line: &[u8], number: u32) -> Result<(), ListError>
    requires few { vec_len names.old ≤ 400 }
    requires seated { spec.AreOnce (map (λ name. name.bytes) names.old.items) }
    ensures few { vec_len names.new ≤ 400 }
    ensures seated { spec.AreOnce (map (λ name. name.bytes) names.new.items) }
{
    let Some(name) = name_on(line, number)? else {
        return Ok(());
    };
    if is_among(names.as_slice(), name.as_str().as_bytes()) {
        return Err(ListError::Fault(ListFault::Twice(number)));
    }
    if names.len() >= usize::from(MOST_PLAYERS) {
        return Err(ListError::Fault(ListFault::TooMany));
    }
    push_name(names, name)?;
    Ok(())
}

/// With one name more.
fn push_name(names: &mut Vec<Name>, name: Name) -> Result<(), AllocError>
    ensures { names.new.items
        ≡ (if is_ok result then names.old.items ++ name ∷ [] else names.old.items) }
{
    names.push(name)?;
    Ok(())
}

/// The name on a line, if there is a word.
fn name_on(line: &[u8], number: u32) -> Result<Option<Name>, ListFault>
    ensures { IfOk result (λ found. IfSome found (λ name. is_player_name name.bytes ≡ true)) }
{
    let Some((word, rest)) = next_said(without_return(line)) else {
        return Ok(None);
    };
    if next_said(rest).is_some() {
        return Err(ListFault::NoName(number));
    }
    match read_name(word) {
        Some(name) => Ok(Some(name)),
        None => Err(ListFault::NoName(number)),
    }
}

/// A line without the carriage return at its end.
fn without_return(line: &[u8]) -> &[u8] {
    match line {
        [front @ .., b'\r'] => front,
        _ => line,
    }
}

fn is_among(names: &[Name], word: &[u8]) -> bool
    ensures { result ≡ list_any (λ name. bytes_eq name.bytes word.now) names.now }
{
    names.iter().any(|name| name.as_str().as_bytes() == word)
}
