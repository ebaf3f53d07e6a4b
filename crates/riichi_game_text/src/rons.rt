//! A win on a discard, or several.
ghost use Rattle.std.specs.Prelude.{◌≡◌, None, Some, option_map};
ghost use Rattle.riichi_game_text.specs.Words.{said_in};
ghost use Rattle.riichi_game_text.specs.Names.{names_in};
ghost use Rattle.riichi_game_text.specs.Wins.{said_win};
ghost use Rattle.riichi_game_text.specs.Rons as spec;

use crate::fault::GameFault;
use crate::hand_line::entry_value;
use crate::listed::players_if_said;
use crate::name::Names;
use crate::ron_form::{RonForm, ron_form};
use crate::value::WrittenValue;
use crate::win::WrittenWin;
use crate::won::{bets_with, denies_bet, liable_named, riichi_said, win_said};
use riichi_hand::By;
use riichi_table::{ByPlayer, GameState, Outcome, Player, TableRules, Win};

/// A winner, and who is liable.
#[derive(Clone, Copy)]
pub(crate) struct NamedWin {
    pub(crate) winner: Player,
    pub(crate) liable: Option<Player>,
}

/// The winners of a line by name, one to three.
#[derive(Clone, Copy)]
struct NamedWins {
    first: NamedWin,
    second: Option<NamedWin>,
    third: Option<NamedWin>,
}

/// The outcome of the words behind `ron`, or the first fault of words, names, values and hands.
#[tactic(auto, unfolding(crate::specs::Rons::ron_of))]
pub(crate) fn read_ron(
    names: &Names,
    rules: &TableRules,
    state: &GameState,
    text: &[u8],
) -> Result<Outcome, GameFault>
    ensures { result
        ≡ spec.ron_of (names_in names.now) rules.now state.now (said_in text.now) }
{
    match ron_form(text) {
        None => Err(GameFault::G4),
        Some(form) => ron_said(names, rules, state, &form),
    }
}

fn ron_said(
    names: &Names,
    rules: &TableRules,
    state: &GameState,
    form: &RonForm<'_>,
) -> Result<Outcome, GameFault>
    ensures { result
        ≡ spec.ron_said (names_in names.now) rules.now state.now (Some (spec.ron_read form.now)) }
{
    let from = names.find(form.from);
    let riichi = players_if_said(names, form.riichi);
    let first = named_win(names, &form.first);
    let second = named_if_said(names, &form.second);
    let third = named_if_said(names, &form.third);
    match (from, riichi, first, second, third) {
        (Some(from), Some(riichi), Some(first), Some(second), Some(third)) => {
            let named = NamedWins {
                first,
                second,
                third,
            };
            ron_by(rules, state, form, from, riichi, &named)
        }
        _ => Err(GameFault::G5),
    }
}

fn ron_by(
    rules: &TableRules,
    state: &GameState,
    form: &RonForm<'_>,
    from: Player,
    riichi: ByPlayer<bool>,
    named: &NamedWins,
) -> Result<Outcome, GameFault>
    ensures { result ≡ spec.ron_by rules.now state.now (spec.ron_read form.now) (Some from)
        (Some riichi) (Some named.now.first) (Some named.now.second) (Some named.now.third) }
{
    let Some(winners) = winners_of(named) else {
        return Err(GameFault::G5);
    };
    if are_wrong(form, from, &riichi, &winners, named) {
        return Err(GameFault::G5);
    }
    ron_valued(rules, state, form, from, riichi, named)
}

fn ron_valued(
    rules: &TableRules,
    state: &GameState,
    form: &RonForm<'_>,
    from: Player,
    riichi: ByPlayer<bool>,
    named: &NamedWins,
) -> Result<Outcome, GameFault>
    ensures { result ≡ spec.ron_valued rules.now state.now (spec.ron_read form.now) from riichi
        named.now.first named.now.second named.now.third }
{
    if tiles_differ(form) {
        return Err(GameFault::G6);
    }
    let bets = all_bets(form, riichi, named);
    let wins = wins_or_fault(rules, state, form, &riichi, named)?;
    Ok(Outcome::Ron {
        from,
        wins,
        riichi: bets,
    })
}

fn all_bets(form: &RonForm<'_>, riichi: ByPlayer<bool>, named: &NamedWins) -> ByPlayer<bool>
    ensures { result ≡ spec.all_bets (spec.ron_read form.now) riichi
        named.now.first named.now.second named.now.third }
{
    let bets = bets_with(riichi, named.first.winner, &form.first);
    let bets = bets_if_said(&named.second, &form.second, bets);
    bets_if_said(&named.third, &form.third, bets)
}

fn bets_if_said(
    named: &Option<NamedWin>,
    win: &Option<WrittenWin<'_>>,
    riichi: ByPlayer<bool>,
) -> ByPlayer<bool>
    ensures { result ≡ spec.bets_if_said named.now (option_map said_win win.now) riichi }
{
    match (named, win) {
        (Some(named), Some(win)) => bets_with(riichi, named.winner, win),
        _ => riichi,
    }
}

fn named_win(names: &Names, win: &WrittenWin<'_>) -> Option<NamedWin>
    ensures { result ≡ spec.named_win (names_in names.now) (said_win win.now) }
{
    let winner = names.find(win.name)?;
    let liable = liable_named(names, &win.liable)?;
    Some(NamedWin { winner, liable })
}

fn named_if_said(names: &Names, win: &Option<WrittenWin<'_>>) -> Option<Option<NamedWin>>
    ensures { result
        ≡ spec.named_if_said (names_in names.now) (option_map said_win win.now) }
{
    match win {
        None => Some(None),
        Some(win) => {
            let named = named_win(names, win)?;
            Some(Some(named))
        }
    }
}

/// The winners, where none stands twice.
fn winners_of(named: &NamedWins) -> Option<ByPlayer<bool>>
    ensures { result
        ≡ spec.winners_of named.now.first named.now.second named.now.third }
{
    let first = ByPlayer::all(false).with(named.first.winner, true);
    let second = with_winner(&named.second, first)?;
    with_winner(&named.third, second)
}

fn with_winner(named: &Option<NamedWin>, winners: ByPlayer<bool>) -> Option<ByPlayer<bool>>
    ensures { result ≡ spec.with_winner named.now (Some winners) }
{
    match named {
        None => Some(winners),
        Some(named) => {
            if winners.get(named.winner) {
                None
            } else {
                Some(winners.with(named.winner, true))
            }
        }
    }
}

/// Whether the discarder wins, a winner is liable, or a hand says that there is no riichi of who is named behind `riichi`.
fn are_wrong(
    form: &RonForm<'_>,
    from: Player,
    riichi: &ByPlayer<bool>,
    winners: &ByPlayer<bool>,
    named: &NamedWins,
) -> bool
    ensures { result ≡ spec.are_wrong (spec.ron_read form.now) from riichi.now winners.now
        named.now.first named.now.second named.now.third }
{
    winners.get(from)
        || liable_wins(winners, named.first.liable)
        || liable_in(winners, &named.second)
        || liable_in(winners, &named.third)
        || denies_one(riichi, &named.first, &form.first)
        || denies(riichi, &named.second, &form.second)
        || denies(riichi, &named.third, &form.third)
}

fn liable_wins(winners: &ByPlayer<bool>, liable: Option<Player>) -> bool
    ensures { result ≡ spec.liable_wins winners.now liable }
{
    match liable {
        None => false,
        Some(player) => winners.get(player),
    }
}

fn liable_in(winners: &ByPlayer<bool>, named: &Option<NamedWin>) -> bool
    ensures { result ≡ spec.liable_in winners.now named.now }
{
    match named {
        None => false,
        Some(named) => liable_wins(winners, named.liable),
    }
}

fn denies_one(riichi: &ByPlayer<bool>, named: &NamedWin, win: &WrittenWin<'_>) -> bool
    ensures { result ≡ spec.denies riichi.now (Some named.now) (Some (said_win win.now)) }
{
    riichi.get(named.winner) && denies_bet(riichi_said(win))
}

fn denies(riichi: &ByPlayer<bool>, named: &Option<NamedWin>, win: &Option<WrittenWin<'_>>) -> bool
    ensures { result ≡ spec.denies riichi.now named.now (option_map said_win win.now) }
{
    match (named, win) {
        (Some(named), Some(win)) => denies_one(riichi, named, win),
        _ => false,
    }
}

/// Whether two hands are won on different tiles.
fn tiles_differ(form: &RonForm<'_>) -> bool
    ensures { result ≡ spec.tiles_differ (spec.ron_read form.now) }
{
    let first = tile_of(&form.first);
    let second = tile_if_said(&form.second);
    let third = tile_if_said(&form.third);
    differ(first, second) || differ(first, third) || differ(second, third)
}

/// The tile that a hand is won on.
fn tile_of<'a>(win: &WrittenWin<'a>) -> Option<&'a [u8]>
    ensures { option_map (λ tile. tile.now) result
        ≡ spec.tile_of (said_win win.now).value (said_win win.now).words }
{
    match win.value {
        WrittenValue::Hand => entry_value(win.words, b"on"),
        _ => None,
    }
}

fn tile_if_said<'a>(win: &Option<WrittenWin<'a>>) -> Option<&'a [u8]>
    ensures { option_map (λ tile. tile.now) result
        ≡ spec.tile_if_said (option_map said_win win.now) }
{
    match win {
        None => None,
        Some(win) => tile_of(win),
    }
}

fn differ(one: Option<&[u8]>, other: Option<&[u8]>) -> bool
    ensures { result ≡ spec.differ (option_map (λ tile. tile.now) one.entry)
        (option_map (λ tile. tile.now) other.entry) }
{
    match (one, other) {
        (Some(one), Some(other)) => one != other,
        _ => false,
    }
}

/// What each wins, or the first fault: a value that can't be comes before a hand at fault.
fn wins_or_fault(
    rules: &TableRules,
    state: &GameState,
    form: &RonForm<'_>,
    riichi: &ByPlayer<bool>,
    named: &NamedWins,
) -> Result<ByPlayer<Option<Win>>, GameFault>
    ensures { result ≡ spec.all_wins rules.now state.now (spec.ron_read form.now) riichi.now
        named.now.first named.now.second named.now.third }
{
    let one = Some(won(rules, state, riichi, &named.first, &form.first));
    let two = won_if_said(rules, state, riichi, &named.second, &form.second);
    let three = won_if_said(rules, state, riichi, &named.third, &form.third);
    if is_no_value(&one) || is_no_value(&two) || is_no_value(&three) {
        return Err(GameFault::G6);
    }
    let wins = with_win(&Some(named.first), &one, ByPlayer::all(None))?;
    let wins = with_win(&named.second, &two, wins)?;
    with_win(&named.third, &three, wins)
}

fn won(
    rules: &TableRules,
    state: &GameState,
    riichi: &ByPlayer<bool>,
    named: &NamedWin,
    win: &WrittenWin<'_>,
) -> Result<Win, GameFault>
    ensures { Some result ≡ spec.won_if_said rules.now state.now riichi.now (Some named.now)
        (Some (said_win win.now)) }
{
    let bets = riichi.get(named.winner);
    win_said(rules, state, By::Ron, named.winner, named.liable, bets, win)
}

fn won_if_said(
    rules: &TableRules,
    state: &GameState,
    riichi: &ByPlayer<bool>,
    named: &Option<NamedWin>,
    win: &Option<WrittenWin<'_>>,
) -> Option<Result<Win, GameFault>>
    ensures { result ≡ spec.won_if_said rules.now state.now riichi.now named.now
        (option_map said_win win.now) }
{
    match (named, win) {
        (Some(named), Some(win)) => Some(won(rules, state, riichi, named, win)),
        _ => None,
    }
}

fn is_no_value(won: &Option<Result<Win, GameFault>>) -> bool
    ensures { result ≡ spec.is_no_value won.now }
{
    match won {
        None => false,
        Some(won) => match won {
            Ok(_) => false,
            Err(fault) => matches!(fault, GameFault::G6),
        },
    }
}

/// The win of a player among those of others, or its fault.
fn with_win(
    named: &Option<NamedWin>,
    won: &Option<Result<Win, GameFault>>,
    wins: ByPlayer<Option<Win>>,
) -> Result<ByPlayer<Option<Win>>, GameFault>
    ensures { result ≡ spec.with_win named.now won.now (Ok wins) }
{
    match (named, won) {
        (Some(named), Some(won)) => match won {
            Ok(win) => Ok(wins.with(named.winner, Some(*win))),
            Err(fault) => Err(*fault),
        },
        _ => Ok(wins),
    }
}
