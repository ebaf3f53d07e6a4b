//! A line of a game that has begun.
ghost use Rattle.std.specs.Prelude.{◌≡◌, Ok, Err, IfOk, IfErr};
ghost use Rattle.std.specs.List.{list_any};
ghost use Rattle.riichi_game.specs.Faults.{next_of};
ghost use Rattle.riichi_game_text.specs.Words.{said_in};
ghost use Rattle.riichi_game_text.specs.Names.{names_in};
ghost use Rattle.riichi_game_text.specs.Entries as spec;

use crate::fault::GameFault;
use crate::name::{Names, text_of};
use crate::plain_lines::{read_abort, read_chombo, read_draw, read_end, read_penalty};
use crate::rons::read_ron;
use crate::stands::read_stands;
use crate::won::read_tsumo;
use crate::words::next_said;
use riichi_game::Progress;
use riichi_hand::{MOST_LINE, has_other_byte};
use riichi_table::{GameState, Outcome, OutcomeFault, TableRules};

/// What an accepted line of a game says, and how far the game has come after it.
#[derive(Clone, Copy, Debug, PartialEq, Eq)]
pub struct AcceptedLine {
    pub outcome: Outcome,
    pub after: Progress,
}

/// What a line says in a game that has come so far, or the first fault of the line, G1 to G13. The line comes without the line feed
/// and the carriage return that ended it.
#[tactic(auto, unfolding(crate::specs::Entries::outcome_of_entry))]
pub fn read_entry(
    names: &Names,
    progress: &Progress,
    rules: &TableRules,
    line: &[u8],
) -> Result<AcceptedLine, GameFault>
    ensures ok { IfOk result (λ accepted.
        (spec.outcome_of_entry (names_in names.now) progress.now rules.now line.now ≡ Ok accepted.outcome)
        × (next_of progress.now rules.now accepted.outcome ≡ Ok accepted.after)) }
    ensures err { IfErr result (λ fault.
        spec.outcome_of_entry (names_in names.now) progress.now rules.now line.now ≡ Err fault) }
{
    if is_odd(line) {
        return Err(GameFault::G1);
    }
    let outcome = read_outcome(names, rules, &progress.state, line)?;
    match progress.after(rules, &outcome) {
        Ok(after) => Ok(AcceptedLine { outcome, after }),
        Err(fault) => Err(game_fault_of(fault)),
    }
}

/// Whether a line is too long, no UTF-8, or has a control byte: so it is refused, whatever it says. One of printable ASCII alone,
/// which is seen in blocks, is neither of the last two.
#[tactic(auto, using(crate::proofs::PrintableLines::is_no_control, crate::proofs::PrintableLines::is_text), unfolding(crate::specs::Entries::is_odd))]
pub fn is_odd(line: &[u8]) -> bool
    ensures { result ≡ spec.is_odd line.now }
{
    line.len() > MOST_LINE
        || (has_other_byte(line) && (has_control(line) || text_of(line).is_none()))
}

fn has_control(line: &[u8]) -> bool
    ensures { result ≡ list_any spec.is_control line.now }
{
    line.iter().any(|byte| is_control(*byte))
}

fn is_control(byte: u8) -> bool
    ensures { result ≡ spec.is_control byte }
{
    byte < b' ' || byte == 0x7f
}

/// What a line says, or its first fault of words, names, values and hands.
#[tactic(auto, unfolding(crate::specs::Entries::outcome_said))]
fn read_outcome(
    names: &Names,
    rules: &TableRules,
    state: &GameState,
    line: &[u8],
) -> Result<Outcome, GameFault>
    ensures { result
        ≡ spec.outcome_said (names_in names.now) rules.now state.now (said_in line.now) }
{
    match next_said(line) {
        None => Err(GameFault::G2),
        Some((first, rest)) => outcome_by(names, rules, state, first, rest),
    }
}

fn outcome_by(
    names: &Names,
    rules: &TableRules,
    state: &GameState,
    first: &[u8],
    text: &[u8],
) -> Result<Outcome, GameFault>
    ensures { result
        ≡ spec.outcome_by (names_in names.now) rules.now state.now first.now (said_in text.now) }
{
    if first == b"ron".as_slice() {
        read_ron(names, rules, state, text)
    } else if first == b"tsumo".as_slice() {
        read_tsumo(names, rules, state, text)
    } else if first == b"draw".as_slice() {
        read_draw(names, text)
    } else if first == b"abort".as_slice() {
        read_abort(names, text)
    } else if first == b"chombo".as_slice() {
        read_chombo(names, text)
    } else if first == b"penalty".as_slice() {
        read_penalty(names, text)
    } else if first == b"stands".as_slice() {
        read_stands(rules, text)
    } else if first == b"end".as_slice() {
        read_end(text)
    } else {
        Err(GameFault::G2)
    }
}

/// The code of a fault by the rules and by what the table shows.
fn game_fault_of(fault: OutcomeFault) -> GameFault
    ensures { result ≡ spec.game_fault_of fault }
{
    match fault {
        OutcomeFault::NobodyWins => GameFault::G4,
        OutcomeFault::DiscarderWins => GameFault::G5,
        OutcomeFault::WinnerLiable => GameFault::G5,
        OutcomeFault::NoSuchWorth => GameFault::G6,
        OutcomeFault::LiableLimits => GameFault::G6,
        OutcomeFault::LiableOff => GameFault::G8,
        OutcomeFault::NagashiOff => GameFault::G8,
        OutcomeFault::BetOfTooFew => GameFault::G9,
        OutcomeFault::RiichiNotReady => GameFault::G10,
        OutcomeFault::StandsSum => GameFault::G11,
        OutcomeFault::StandsRound => GameFault::G11,
        OutcomeFault::OverCounters => GameFault::G12,
        OutcomeFault::OverSticks => GameFault::G12,
        OutcomeFault::OverPoints => GameFault::G12,
        OutcomeFault::GameOver => GameFault::G13,
    }
}
