//! A state that is written.
ghost use Rattle.std.specs.Prelude.{◌≡◌, ◌*◌, ◌≤◌, ◌≤ℤ◌, ◌+ℤ◌, pos, negsuc, None, Some, MatchOption, IfSome};
ghost use Rattle.riichi_table.specs.Players.{of_player, sum_over_players};
ghost use Rattle.riichi_game_text.specs.Words.{said_in};
ghost use Rattle.riichi_game_text.specs.Numbers.{digits_of};
ghost use Rattle.riichi_game_text.specs.StandsLines as spec;

use crate::fault::GameFault;
use crate::numbers::{read_digits, read_number};
use crate::words::next_said;
use riichi_game::has_round;
use riichi_hand::Wind;
use riichi_table::{ByPlayer, GameState, Outcome, Player, TableRules};

/// A state as it is written, with numbers that no state may have.
#[derive(Clone, Copy)]
pub(crate) struct StandsForm {
    pub(crate) round: Wind,
    pub(crate) dealer: Player,
    pub(crate) counters: u32,
    pub(crate) sticks: u32,
    pub(crate) points: ByPlayer<i32>,
}

/// The outcome of the words behind `stands`, or the first fault of words and numbers.
pub(crate) fn read_stands(rules: &TableRules, text: &[u8]) -> Result<Outcome, GameFault>
    ensures { result ≡ spec.stands_of rules.now (said_in text.now) }
{
    match stands_form(text) {
        None => Err(GameFault::G4),
        Some(form) => stands_by(rules, &form),
    }
}

fn stands_by(rules: &TableRules, form: &StandsForm) -> Result<Outcome, GameFault>
    ensures { result ≡ spec.stands_by rules.now form.now }
{
    if form.counters <= 99 && form.sticks <= 99 {
        Ok(Outcome::Stands {
            state: GameState {
                points: form.points,
                round: form.round,
                dealer: form.dealer,
                counters: form.counters as u8,
                sticks: form.sticks as u8,
            },
        })
    } else {
        Err(over_fault(rules, form))
    }
}

/// The fault of a state with more counters or sticks than there are.
fn over_fault(rules: &TableRules, form: &StandsForm) -> GameFault
    ensures { result ≡ spec.over_fault rules.now form.now }
{
    if points_add_up(rules, form) && has_round(rules, form.round) {
        GameFault::G12
    } else {
        GameFault::G11
    }
}

/// Whether the points and 1000 for each stick are four times the start.
fn points_add_up(rules: &TableRules, form: &StandsForm) -> bool
    ensures { result ≡ spec.points_add_up rules.now form.now }
{
    sum_of(&form.points) + stick_points(form.sticks) == whole_of(rules.start)
}

fn whole_of(start: u32) -> i64
    ensures { result ≡ pos (4 * start) }
{
    4 * i64::from(start)
}

fn sum_of(points: &ByPlayer<i32>) -> i64
    ensures value { result ≡ sum_over_players (of_player points.now) }
    ensures least { negsuc 99999999999 ≤ℤ result }
    ensures most { result ≤ℤ pos 99999999999 }
{
    plus(
        plus(plus(i64::from(points.first), points.second), points.third),
        points.fourth,
    )
}

/// One number more, of sums that stay far from any limit.
fn plus(sum: i64, number: i32) -> i64
    requires least { negsuc 9999999999 ≤ℤ sum }
    requires most { sum ≤ℤ pos 9999999999 }
    ensures value { result ≡ sum +ℤ number }
    ensures least { (sum +ℤ negsuc 2147483647) ≤ℤ result }
    ensures most { result ≤ℤ (sum +ℤ pos 2147483647) }
{
    sum + i64::from(number)
}

fn stick_points(sticks: u32) -> i64
    ensures value { result ≡ pos (1000 * sticks) }
    ensures most { result ≤ℤ pos 9999999999999 }
{
    1000 * i64::from(sticks)
}

#[tactic(auto, unfolding(crate::specs::StandsLines::stands_form))]
fn stands_form(text: &[u8]) -> Option<StandsForm>
    ensures { result ≡ spec.stands_form (said_in text.now) }
{
    let ((round, dealer), rest) = place_at(text)?;
    let (counters, rest) = number_at(b"counters", rest)?;
    let (sticks, rest) = number_at(b"sticks", rest)?;
    let points = points_said(rest)?;
    Some(StandsForm {
        round,
        dealer,
        counters,
        sticks,
        points,
    })
}

/// Round and dealer, and what stands behind them.
#[tactic(auto, unfolding(crate::specs::StandsLines::place_at))]
fn place_at(text: &[u8]) -> Option<((Wind, Player), &[u8])>
    ensures { let at = spec.place_at (said_in text.now) in
        MatchOption result (at ≡ None) (λ found. at ≡ Some (found.0, said_in found.1.now)) }
{
    let (round, rest) = next_said(text)?;
    let (dealer, rest) = next_said(rest)?;
    let round = round_named(round)?;
    let dealer = dealer_numbered(read_number(dealer))?;
    Some(((round, dealer), rest))
}

fn round_named(word: &[u8]) -> Option<Wind>
    ensures { result ≡ spec.round_named word.now }
{
    if word == b"east".as_slice() {
        Some(Wind::East)
    } else if word == b"south".as_slice() {
        Some(Wind::South)
    } else if word == b"west".as_slice() {
        Some(Wind::West)
    } else if word == b"north".as_slice() {
        Some(Wind::North)
    } else {
        None
    }
}

fn dealer_numbered(number: Option<u32>) -> Option<Player>
    ensures { result ≡ spec.dealer_numbered number }
{
    match number? {
        1 => Some(Player::First),
        2 => Some(Player::Second),
        3 => Some(Player::Third),
        4 => Some(Player::Fourth),
        _ => None,
    }
}

/// The number behind a key that comes next, and what stands behind it.
#[tactic(auto, unfolding(crate::specs::StandsLines::number_at))]
fn number_at<'a>(key: &[u8], text: &'a [u8]) -> Option<(u32, &'a [u8])>
    ensures { let at = spec.number_at key.now (said_in text.now) in
        MatchOption result (at ≡ None) (λ found. at ≡ Some (found.0, said_in found.1.now)) }
{
    let (word, rest) = next_said(text)?;
    let (number, rest) = next_said(rest)?;
    if word != key {
        return None;
    }
    let number = read_number(number)?;
    Some((number, rest))
}

/// The points of the four, where nothing stands behind them.
#[tactic(auto, unfolding(crate::specs::StandsLines::points_said))]
fn points_said(text: &[u8]) -> Option<ByPlayer<i32>>
    ensures { result ≡ spec.points_said (said_in text.now) }
{
    let (word, rest) = next_said(text)?;
    let (first, rest) = next_said(rest)?;
    let (second, rest) = next_said(rest)?;
    let (third, rest) = next_said(rest)?;
    let (fourth, rest) = next_said(rest)?;
    if next_said(rest).is_some() || word != b"points".as_slice() {
        return None;
    }
    all_held(first, second, third, fourth)
}

fn all_held(first: &[u8], second: &[u8], third: &[u8], fourth: &[u8]) -> Option<ByPlayer<i32>>
    ensures { result ≡ spec.all_held (spec.points_held first.now) (spec.points_held second.now)
        (spec.points_held third.now) (spec.points_held fourth.now) }
{
    let first = read_held(first)?;
    let second = read_held(second)?;
    let third = read_held(third)?;
    let fourth = read_held(fourth)?;
    Some(ByPlayer {
        first,
        second,
        third,
        fourth,
    })
}

/// Points that a player may have.
#[tactic(auto, unfolding(crate::specs::StandsLines::points_held))]
fn read_held(word: &[u8]) -> Option<i32>
    ensures { result ≡ spec.points_held word.now }
{
    match word {
        [] => None,
        [first, digits @ ..] => {
            if *first == b'-' {
                let points = hundreds(digits)?;
                Some(-(points as i32))
            } else {
                let points = hundreds(word)?;
                Some(points as i32)
            }
        }
    }
}

fn hundreds(digits: &[u8]) -> Option<u32>
    ensures value { result ≡ spec.hundreds (digits_of 9 digits.now) }
    ensures most { IfSome result (λ points. points ≤ 1000000000) }
{
    let points = read_digits(9, digits)?;
    if points % 100 == 0 {
        Some(points)
    } else {
        None
    }
}
