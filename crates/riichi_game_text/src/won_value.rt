//! What the values of a line are made of.
ghost use Rattle.std.specs.Prelude.{◌≡◌, Some, option_map};
ghost use Rattle.riichi_table.specs.Players.{of_player};
ghost use Rattle.riichi_game_text.specs.HandLines.{hand_said};
ghost use Rattle.riichi_game_text.specs.Names.{names_in};
ghost use Rattle.riichi_game_text.specs.Rons.{ron_read};
ghost use Rattle.riichi_game_text.specs.Wins.{said_win};
ghost use Rattle.riichi_game_text.specs.Words.{said_in};
ghost use Rattle.riichi_game_text.specs.Won as won;
ghost use Rattle.riichi_game_text.specs.WonValues as spec;

use crate::hand_line::read_hand;
use crate::listed::players_if_said;
use crate::name::Names;
use crate::ron_form::{RonForm, ron_form};
use crate::value::WrittenValue;
use crate::win::WrittenWin;
use crate::won::{known_of, tsumo_form};
use crate::words::next_said;
use riichi_hand::{By, WinRecord};
use riichi_table::{ByPlayer, GameState, Player, TableRules};

/// What a value is made of.
#[derive(Clone, Copy)]
pub enum WonValue {
    /// Han and fu as they are written.
    Counted { han: u8, fu: u8 },
    /// A hand by its tiles, with the seat and the round of the game, and without counters and sticks.
    Hand(WinRecord),
}

/// Where a line stands, and how it wins.
#[derive(Clone, Copy)]
struct Place<'a> {
    names: &'a Names,
    rules: &'a TableRules,
    state: &'a GameState,
    by: By,
    /// Who is named behind `riichi`.
    riichi: ByPlayer<bool>,
}

/// What the values of a line are made of, by the player who wins them. A limit hand by its name is made of nothing more, and neither
/// is what no word says. The line comes without the line feed that ended it, and counts as far as it can be read.
#[tactic(auto, unfolding(crate::specs::WonValues::won_values))]
pub fn won_values(
    names: &Names,
    rules: &TableRules,
    state: &GameState,
    line: &[u8],
) -> ByPlayer<Option<WonValue>>
    ensures { result
        ≡ spec.won_values (names_in names.now) rules.now state.now (said_in line.now) }
{
    match next_said(line) {
        None => ByPlayer::all(None),
        Some((first, rest)) => values_by(names, rules, state, first, rest),
    }
}

fn values_by(
    names: &Names,
    rules: &TableRules,
    state: &GameState,
    first: &[u8],
    text: &[u8],
) -> ByPlayer<Option<WonValue>>
    ensures { result
        ≡ spec.values_by (names_in names.now) rules.now state.now first.now (said_in text.now) }
{
    if first == b"ron".as_slice() {
        match ron_form(text) {
            None => ByPlayer::all(None),
            Some(form) => ron_values(names, rules, state, &form),
        }
    } else if first == b"tsumo".as_slice() {
        match tsumo_form(text) {
            None => ByPlayer::all(None),
            Some((win, riichi)) => tsumo_values(names, rules, state, &win, riichi),
        }
    } else {
        ByPlayer::all(None)
    }
}

fn ron_values(
    names: &Names,
    rules: &TableRules,
    state: &GameState,
    form: &RonForm<'_>,
) -> ByPlayer<Option<WonValue>>
    ensures { result ≡ spec.ron_values (names_in names.now) rules.now state.now
        (Some (ron_read form.now)) }
{
    match players_if_said(names, form.riichi) {
        None => ByPlayer::all(None),
        Some(riichi) => {
            let place = Place {
                names,
                rules,
                state,
                by: By::Ron,
                riichi,
            };
            let first = with_value(&place, &form.first, ByPlayer::all(None));
            let second = with_value_if(&place, &form.second, first);
            with_value_if(&place, &form.third, second)
        }
    }
}

fn tsumo_values(
    names: &Names,
    rules: &TableRules,
    state: &GameState,
    win: &WrittenWin<'_>,
    riichi: Option<&[u8]>,
) -> ByPlayer<Option<WonValue>>
    ensures { result ≡ spec.tsumo_values (names_in names.now) rules.now state.now
        (Some (said_win win.now, option_map (λ names. names.now) riichi.entry)) }
{
    match players_if_said(names, riichi) {
        None => ByPlayer::all(None),
        Some(riichi) => {
            let place = Place {
                names,
                rules,
                state,
                by: By::Tsumo,
                riichi,
            };
            with_value(&place, win, ByPlayer::all(None))
        }
    }
}

fn with_value_if(
    place: &Place<'_>,
    win: &Option<WrittenWin<'_>>,
    values: ByPlayer<Option<WonValue>>,
) -> ByPlayer<Option<WonValue>>
    ensures { result ≡ spec.with_value (names_in place.now.names.now) place.now.rules.now
        place.now.state.now place.now.by place.now.riichi (option_map said_win win.now) values }
{
    match win {
        None => values,
        Some(win) => with_value(place, win, values),
    }
}

/// The value of the player who is named, among those of others.
fn with_value(
    place: &Place<'_>,
    win: &WrittenWin<'_>,
    values: ByPlayer<Option<WonValue>>,
) -> ByPlayer<Option<WonValue>>
    ensures { result ≡ spec.with_value (names_in place.now.names.now) place.now.rules.now
        place.now.state.now place.now.by place.now.riichi (Some (said_win win.now)) values }
{
    match place.names.find(win.name) {
        None => values,
        Some(winner) => values.with(winner, value_of(place, winner, win)),
    }
}

fn value_of(place: &Place<'_>, winner: Player, win: &WrittenWin<'_>) -> Option<WonValue>
    ensures { result ≡ spec.won_value_of place.now.rules.now place.now.state.now place.now.by winner
        (of_player place.now.riichi winner) (said_win win.now) (said_win win.now).value }
{
    match win.value {
        WrittenValue::Counted { han, fu } => Some(WonValue::Counted { han, fu }),
        WrittenValue::Limit(_) => None,
        WrittenValue::Hand => hand_value(place, winner, win),
    }
}

fn hand_value(place: &Place<'_>, winner: Player, win: &WrittenWin<'_>) -> Option<WonValue>
    ensures { let said = said_win win.now in
        let bets = of_player place.now.riichi winner in
        result ≡ spec.hand_value (hand_said place.now.rules.now.hand
        (won.known_of place.now.state.now place.now.by winner bets said) said.hand said.words) }
{
    let bets = place.riichi.get(winner);
    let known = known_of(place.state, place.by, winner, bets, win);
    match read_hand(place.rules.hand, &known, win.hand, win.words) {
        Ok(hand) => Some(WonValue::Hand(hand)),
        Err(_) => None,
    }
}
