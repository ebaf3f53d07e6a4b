//! What a player wins, by names, rules and the state.
ghost use Rattle.std.specs.Prelude.{◌≡◌, ◌≤◌, None, Some, MatchOption, option_map};
ghost use Rattle.riichi_game_text.specs.Words.{said_in};
ghost use Rattle.riichi_game_text.specs.Names.{names_in};
ghost use Rattle.riichi_game_text.specs.Wins.{said_win, said_liable};
ghost use Rattle.riichi_game_text.specs.Won as spec;

use crate::fault::GameFault;
use crate::forms::riichi_at_end;
use crate::hand_line::{Known, entry_value};
use crate::listed::players_if_said;
use crate::name::Names;
use crate::value::{ValueWorth, WrittenValue, value_worth};
use crate::win::{WrittenLiable, WrittenWin, win_at};
use crate::words::next_said;
use riichi_hand::By;
use riichi_table::{ByPlayer, GameState, Liable, Outcome, Player, TableRules, Win};

/// What a hand says of a bet.
pub(crate) fn riichi_said<'a>(win: &WrittenWin<'a>) -> Option<&'a [u8]>
    ensures { option_map (λ value. value.now) result
        ≡ spec.riichi_said (said_win win.now).value (said_win win.now).words }
{
    match win.value {
        WrittenValue::Hand => entry_value(win.words, b"riichi"),
        _ => None,
    }
}

fn says_bet(value: Option<&[u8]>) -> bool
    ensures { result ≡ spec.says_bet (option_map (λ value. value.now) value.entry) }
{
    match value {
        None => false,
        Some(value) => value == b"1".as_slice() || value == b"2".as_slice(),
    }
}

pub(crate) fn denies_bet(value: Option<&[u8]>) -> bool
    ensures { result ≡ spec.denies_bet (option_map (λ value. value.now) value.entry) }
{
    match value {
        None => false,
        Some(value) => value == b"0".as_slice(),
    }
}

/// What a player wins, or the first fault of the value, the hand and the limits that somebody is liable for.
#[tactic(auto, unfolding(crate::specs::Won::win_said))]
pub(crate) fn win_said(
    rules: &TableRules,
    state: &GameState,
    by: By,
    winner: Player,
    liable: Option<Player>,
    bets: bool,
    win: &WrittenWin<'_>,
) -> Result<Win, GameFault>
    ensures { result ≡ spec.win_said rules.now state.now by winner liable bets (said_win win.now) }
{
    let known = known_of(state, by, winner, bets, win);
    let value = value_worth(rules.hand, &known, win.value, win.hand, win.words)?;
    win_with(liable, said_limits(&win.liable), &value)
}

pub(crate) fn known_of(
    state: &GameState,
    by: By,
    winner: Player,
    bets: bool,
    win: &WrittenWin<'_>,
) -> Known
    ensures { result ≡ spec.known_of state.now by winner bets (said_win win.now) }
{
    Known {
        by,
        seat: winner.seat(state.dealer),
        round: state.round,
        bets: bets && riichi_said(win).is_none(),
    }
}

fn said_limits(liable: &Option<WrittenLiable<'_>>) -> Option<u32>
    ensures { result ≡ spec.said_limits (option_map said_liable liable.now) }
{
    match liable {
        None => None,
        Some(liable) => liable.limits,
    }
}

fn win_with(liable: Option<Player>, said: Option<u32>, value: &ValueWorth) -> Result<Win, GameFault>
    ensures { result ≡ spec.win_with liable said value.now }
{
    match liable {
        None => Ok(Win {
            worth: value.worth,
            liable: None,
        }),
        Some(player) => liable_win(player, value, limits_or(said, value.limits)),
    }
}

fn limits_or(said: Option<u32>, own: Option<u8>) -> Option<u32>
    ensures { result ≡ spec.limits_or said own }
{
    match said {
        Some(said) => Some(said),
        None => match own {
            Some(own) => Some(u32::from(own)),
            None => None,
        },
    }
}

fn liable_win(player: Player, value: &ValueWorth, limits: Option<u32>) -> Result<Win, GameFault>
    ensures { result ≡ spec.liable_win player value.now limits }
{
    match limits {
        None => Err(GameFault::G6),
        Some(limits) => {
            if limits >= 1 && limits <= u32::from(value.worth.limits()) {
                Ok(Win {
                    worth: value.worth,
                    liable: Some(Liable {
                        player,
                        limits: limits as u8,
                    }),
                })
            } else {
                Err(GameFault::G6)
            }
        }
    }
}

/// A win by self-draw and the names of those who bet.
#[tactic(auto, unfolding(crate::specs::Won::tsumo_form))]
pub(crate) fn tsumo_form(text: &[u8]) -> Option<(WrittenWin<'_>, Option<&[u8]>)>
    ensures { let form = spec.tsumo_form (said_in text.now) in
        MatchOption result (form ≡ None)
        (λ found. form ≡ Some (said_win found.0, option_map (λ names. names.now) found.1)) }
{
    let (name, words) = next_said(text)?;
    let (win, rest) = win_at(name, words)?;
    let riichi = riichi_at_end(rest)?;
    Some((win, riichi))
}

/// Who is liable by name. None where that is no player.
pub(crate) fn liable_named(
    names: &Names,
    liable: &Option<WrittenLiable<'_>>,
) -> Option<Option<Player>>
    ensures { result
        ≡ spec.liable_named (names_in names.now) (option_map said_liable liable.now) }
{
    match liable {
        None => Some(None),
        Some(liable) => {
            let player = names.find(liable.name)?;
            Some(Some(player))
        }
    }
}

fn is_wrong(
    winner: Player,
    liable: Option<Player>,
    riichi: &ByPlayer<bool>,
    win: &WrittenWin<'_>,
) -> bool
    ensures { result ≡ spec.is_wrong winner liable riichi.now (said_win win.now) }
{
    is_liable_winner(liable, winner) || (riichi.get(winner) && denies_bet(riichi_said(win)))
}

fn is_liable_winner(liable: Option<Player>, winner: Player) -> bool
    ensures { result ≡ spec.is_liable_winner liable winner }
{
    match liable {
        None => false,
        Some(liable) => liable.is(winner),
    }
}

/// Who bets by the list, and by the winner's hand.
pub(crate) fn bets_with(
    riichi: ByPlayer<bool>,
    winner: Player,
    win: &WrittenWin<'_>,
) -> ByPlayer<bool>
    ensures { result ≡ spec.bets_with riichi winner (said_win win.now) }
{
    let bets = riichi.get(winner) || says_bet(riichi_said(win));
    riichi.with(winner, bets)
}

/// The outcome of the words behind `tsumo`, or the first fault of words, names, value and hand.
#[tactic(auto, unfolding(crate::specs::Won::tsumo_of))]
pub(crate) fn read_tsumo(
    names: &Names,
    rules: &TableRules,
    state: &GameState,
    text: &[u8],
) -> Result<Outcome, GameFault>
    ensures { result
        ≡ spec.tsumo_of (names_in names.now) rules.now state.now (said_in text.now) }
{
    match tsumo_form(text) {
        None => Err(GameFault::G4),
        Some((win, riichi)) => tsumo_said(names, rules, state, &win, riichi),
    }
}

fn tsumo_said(
    names: &Names,
    rules: &TableRules,
    state: &GameState,
    win: &WrittenWin<'_>,
    riichi: Option<&[u8]>,
) -> Result<Outcome, GameFault>
    ensures { result ≡ spec.tsumo_said (names_in names.now) rules.now state.now
        (Some (said_win win.now, option_map (λ names. names.now) riichi.entry)) }
{
    let winner = names.find(win.name);
    let liable = liable_named(names, &win.liable);
    let riichi = players_if_said(names, riichi);
    match (winner, liable, riichi) {
        (Some(winner), Some(liable), Some(riichi)) => {
            tsumo_won(rules, state, win, winner, liable, riichi)
        }
        _ => Err(GameFault::G5),
    }
}

fn tsumo_won(
    rules: &TableRules,
    state: &GameState,
    win: &WrittenWin<'_>,
    winner: Player,
    liable: Option<Player>,
    riichi: ByPlayer<bool>,
) -> Result<Outcome, GameFault>
    ensures { result ≡ spec.tsumo_by rules.now state.now (said_win win.now)
        (Some winner) (Some liable) (Some riichi) }
{
    if is_wrong(winner, liable, &riichi, win) {
        return Err(GameFault::G5);
    }
    let bets = riichi.get(winner);
    let won = win_said(rules, state, By::Tsumo, winner, liable, bets, win)?;
    Ok(Outcome::Tsumo {
        winner,
        win: won,
        riichi: bets_with(riichi, winner, win),
    })
}
