//! The lines of a game without a hand.
ghost use Rattle.std.specs.Prelude.{◌≡◌};
ghost use Rattle.riichi_game_text.specs.Words.{said_in};
ghost use Rattle.riichi_game_text.specs.Names.{names_in};
ghost use Rattle.riichi_game_text.specs.PlainLines as spec;
ghost use Rattle.riichi_game_text.specs.Numbers.{number_in};

use crate::fault::GameFault;
use crate::forms::{draw_form, name_form, riichi_at_end};
use crate::listed::players_if_said;
use crate::name::Names;
use crate::numbers::read_number;
use crate::words::next_said;
use riichi_table::Outcome;

/// The outcome of the words behind `draw`.
pub(crate) fn read_draw(names: &Names, text: &[u8]) -> Result<Outcome, GameFault>
    ensures { result ≡ spec.draw_of (names_in names.now) (said_in text.now) }
{
    let Some(form) = draw_form(text) else {
        return Err(GameFault::G4);
    };
    let ready = players_if_said(names, form.ready);
    let nagashi = players_if_said(names, form.nagashi);
    let riichi = players_if_said(names, form.riichi);
    match (ready, nagashi, riichi) {
        (Some(ready), Some(nagashi), Some(riichi)) => Ok(Outcome::Draw {
            ready,
            nagashi,
            riichi,
        }),
        _ => Err(GameFault::G5),
    }
}

/// The outcome of the words behind `abort`.
pub(crate) fn read_abort(names: &Names, text: &[u8]) -> Result<Outcome, GameFault>
    ensures { result ≡ spec.abort_of (names_in names.now) (said_in text.now) }
{
    let Some(riichi) = riichi_at_end(text) else {
        return Err(GameFault::G4);
    };
    match players_if_said(names, riichi) {
        Some(riichi) => Ok(Outcome::Abort { riichi }),
        None => Err(GameFault::G5),
    }
}

/// The outcome of the words behind `chombo`.
pub(crate) fn read_chombo(names: &Names, text: &[u8]) -> Result<Outcome, GameFault>
    ensures { result ≡ spec.chombo_of (names_in names.now) (said_in text.now) }
{
    let Some(name) = name_form(text) else {
        return Err(GameFault::G4);
    };
    match names.find(name) {
        Some(player) => Ok(Outcome::Chombo { player }),
        None => Err(GameFault::G5),
    }
}

/// The outcome of the words behind `penalty`.
pub(crate) fn read_penalty(names: &Names, text: &[u8]) -> Result<Outcome, GameFault>
    ensures { result ≡ spec.penalty_of (names_in names.now) (said_in text.now) }
{
    let Some((name, rest)) = next_said(text) else {
        return Err(GameFault::G4);
    };
    let Some((points, rest)) = next_said(rest) else {
        return Err(GameFault::G4);
    };
    if next_said(rest).is_some() {
        return Err(GameFault::G4);
    }
    penalty_with(names, name, read_points(points))
}

fn penalty_with(names: &Names, name: &[u8], points: Option<u32>) -> Result<Outcome, GameFault>
    ensures { result ≡ spec.penalty_with (names_in names.now) name.now points }
{
    let Some(points) = points else {
        return Err(GameFault::G4);
    };
    match names.find(name) {
        Some(player) => Ok(Outcome::Penalty { player, points }),
        None => Err(GameFault::G5),
    }
}

/// Whole hundreds up to a million.
#[tactic(auto, unfolding(riichi_table::specs::RulesFaults::is_points))]
fn read_points(word: &[u8]) -> Option<u32>
    ensures { result ≡ spec.points_if (number_in word.now) }
{
    let points = read_number(word)?;
    if points <= 1_000_000 && points % 100 == 0 {
        Some(points)
    } else {
        None
    }
}

/// The outcome of the words behind `end`, of which there are none.
pub(crate) fn read_end(text: &[u8]) -> Result<Outcome, GameFault>
    ensures { result ≡ spec.end_of (said_in text.now) }
{
    if next_said(text).is_some() {
        Err(GameFault::G4)
    } else {
        Ok(Outcome::End)
    }
}
