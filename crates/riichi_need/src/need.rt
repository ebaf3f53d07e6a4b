//! The least row of the table of payments that brings a player to a place.
ghost use Rattle.std.specs.Prelude.{◌≡◌, ◌≤◌};
ghost use Rattle.riichi_need.specs.Needs as spec;

use crate::question::{Aim, Question, Way};
use crate::reaching::reaches;
use crate::rows::ALL_FU;
use crate::winning::payment_for;
use riichi_game::occurs;
use riichi_hand::Rules;
use riichi_score::{Payment, base_points};
use riichi_table::{ByPlayer, Player};

/// A row of the table of payments.
#[derive(Clone, Copy, Debug, PartialEq, Eq)]
pub struct Row {
    /// The base points, 8000 at most.
    pub base: u32,
    /// What is paid for them, with the counters.
    pub payment: Payment,
}

/// The least rows that bring a player to a place; nothing where none up to one yakuman does.
#[derive(Clone, Copy, Debug, PartialEq, Eq)]
pub struct Need {
    /// With fewer others than the place who have as many points or more.
    pub strictly: Option<Row>,
    /// With fewer others than the place who are ahead.
    pub with_tie: Option<Row>,
}

/// What a player needs, by the way of winning.
#[derive(Clone, Copy, Debug, PartialEq, Eq)]
pub struct Needs {
    /// By ron off each other player; nothing for the player's own discard.
    pub by_ron: ByPlayer<Option<Need>>,
    pub by_tsumo: Need,
}

/// What the player needs in the next deal to have the place or a better one, who wins alone and with nobody liable.
pub fn needs_of(question: &Question) -> Needs
    ensures ron { spec.AreRonNeeds question.now result.by_ron }
    ensures tsumo { spec.IsNeed question.now Way.Tsumo result.by_tsumo }
{
    Needs {
        by_ron: ByPlayer {
            first: ron_need(question, Player::First),
            second: ron_need(question, Player::Second),
            third: ron_need(question, Player::Third),
            fourth: ron_need(question, Player::Fourth),
        },
        by_tsumo: need_by(question, Way::Tsumo),
    }
}

fn ron_need(question: &Question, from: Player) -> Option<Need>
    ensures { spec.IsRonNeed question.now from result }
{
    if from.is(question.player) {
        None
    } else {
        Some(need_by(question, Way::Ron { from }))
    }
}

fn need_by(question: &Question, way: Way) -> Need
    ensures { spec.IsNeed question.now way result }
{
    Need {
        strictly: least_row(question, way, Aim::Strictly),
        with_tie: least_row(question, way, Aim::WithTie),
    }
}

fn least_row(question: &Question, way: Way, aim: Aim) -> Option<Row>
    ensures { spec.IsLeastRow question.now way aim result }
{
    match least_base(question, way, aim) {
        None => None,
        Some(base) => Some(Row {
            base,
            payment: payment_for(question, way, base),
        }),
    }
}

/// The least base points of any row that bring the player there.
fn least_base(question: &Question, way: Way, aim: Aim) -> Option<u32>
    ensures least { spec.IsLeastBase question.now way aim result }
    ensures most { spec.or_0 result ≤ 8000 }
{
    let limit = least_limit(question, way, aim);
    let four = lesser(least_of(question, way, aim, 4), limit);
    let three = lesser(least_of(question, way, aim, 3), four);
    let two = lesser(least_of(question, way, aim, 2), three);
    lesser(least_of(question, way, aim, 1), two)
}

/// The least base points of a hand of so many han.
fn least_of(question: &Question, way: Way, aim: Aim, han: u8) -> Option<u32>
    ensures least { spec.IsLeastOfHan question.now way aim han result }
    ensures most { spec.or_0 result ≤ 8000 }
{
    let mut least = None;
    for fu in &ALL_FU {
        least = lesser(least, base_passing(question, way, aim, han, *fu));
    }
    least
}

/// The base points of a hand of so many han and fu, if there is such a hand and it brings the player there.
fn base_passing(question: &Question, way: Way, aim: Aim, han: u8, fu: u8) -> Option<u32>
    ensures value { result ≡ spec.base_reached question.now way aim han fu }
    ensures most { spec.or_0 result ≤ 8000 }
{
    let rules = question.rules.hand;
    let base = base_points(rules, han, fu);
    if occurs(rules, way.by(), han, fu) && reaches(question, aim, way, base) {
        Some(base)
    } else {
        None
    }
}

/// The least base points of a limit hand that bring the player there.
fn least_limit(question: &Question, way: Way, aim: Aim) -> Option<u32>
    ensures least { spec.IsLeastLimit question.now way aim result }
    ensures most { spec.or_0 result ≤ 8000 }
{
    if reaches(question, aim, way, 2000) {
        Some(2000)
    } else if reaches(question, aim, way, 3000) {
        Some(3000)
    } else if reaches(question, aim, way, 4000) {
        Some(4000)
    } else if reaches(question, aim, way, 6000) {
        Some(6000)
    } else if reaches(question, aim, way, 8000) {
        Some(8000)
    } else {
        None
    }
}

fn lesser(one: Option<u32>, other: Option<u32>) -> Option<u32>
    requires one { spec.or_0 one ≤ 8000 }
    requires other { spec.or_0 other ≤ 8000 }
    ensures value { result ≡ spec.lesser one other }
    ensures most { spec.or_0 result ≤ 8000 }
{
    match (one, other) {
        (Some(one), Some(other)) => Some(one.min(other)),
        (None, other) => other,
        (one, None) => one,
    }
}
