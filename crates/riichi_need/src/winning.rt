//! The points of the four after a player has won alone.
ghost use Rattle.std.specs.Prelude.{◌≡◌, ◌≤◌, ◌+◌, ◌*◌, ◌≤ℤ◌, pos, negsuc};
ghost use Rattle.riichi_table.specs.Players.{of_player, count_players};
ghost use Rattle.riichi_score.specs.Payment as score;
ghost use Rattle.riichi_settle.specs.Laws.{share_of_payment};
ghost use Rattle.riichi_need.specs.Winning as spec;

use crate::question::{Question, Way};
use riichi_score::{Payment, gain, paid_for};
use riichi_table::{ByPlayer, Player};

/// The points of the four after the player has won so many base points.
pub fn all_points_then(question: &Question, way: Way, base: u32) -> ByPlayer<i64>
    requires { base ≤ 8000 }
    ensures { result ≡ spec.all_points_then question.now way base }
{
    ByPlayer {
        first: points_then(question, way, base, Player::First),
        second: points_then(question, way, base, Player::Second),
        third: points_then(question, way, base, Player::Third),
        fourth: points_then(question, way, base, Player::Fourth),
    }
}

#[tactic(auto, unfolding(crate::specs::Winning::points_then))]
fn points_then(question: &Question, way: Way, base: u32, player: Player) -> i64
    requires { base ≤ 8000 }
    ensures { result ≡ spec.points_then question.now way base player }
{
    let points = i64::from(question.state.points.get(player));
    if player.is(question.player) {
        points + i64::from(gains(question, way, base))
    } else {
        points - i64::from(gives(question, way, base, player))
    }
}

fn gains(question: &Question, way: Way, base: u32) -> u32
    requires { base ≤ 8000 }
    ensures value { result ≡ spec.gains question.now way base }
    ensures most { result ≤ 6000000 }
{
    let others = other_bets(question).count();
    gain(&payment_for(question, way, base), question.state.sticks) + 1000 * u32::from(others)
}

fn gives(question: &Question, way: Way, base: u32, player: Player) -> u32
    requires { base ≤ 8000 }
    ensures value { result ≡ spec.gives question.now way base player }
    ensures most { result ≤ 6000000 }
{
    let bet = if other_bets(question).get(player) {
        1000
    } else {
        0
    };
    pays(question, way, base, player) + bet
}

/// What a player pays who doesn't win.
fn pays(question: &Question, way: Way, base: u32, player: Player) -> u32
    requires { base ≤ 8000 }
    ensures value { result ≡ spec.pays question.now way base player }
    ensures most { result ≤ 5000000 }
{
    let payment = payment_for(question, way, base);
    match way {
        Way::Ron { from } => { if player.is(from) { paid(&payment) } else { 0 } }
        Way::Tsumo => share_of_payment(&payment, player.is(question.state.dealer)),
    }
}

fn paid(payment: &Payment) -> u32
    requires { score.paid payment.now ≤ 5000000 }
    ensures { result ≡ score.paid payment.now }
{
    gain(payment, 0)
}

fn share_of_payment(payment: &Payment, dealer: bool) -> u32
    requires { score.paid payment.now ≤ 5000000 }
    ensures value { result ≡ share_of_payment payment.now dealer }
    ensures most { result ≤ 5000000 }
{
    match payment {
        Payment::Ron { points } => *points,
        Payment::Tsumo {
            other,
            dealer: of_dealer,
        } => { if dealer { *of_dealer } else { *other } }
        Payment::DealerTsumo { each } => *each,
    }
}

/// The bets of the others.
fn other_bets(question: &Question) -> ByPlayer<bool>
    ensures { result ≡ spec.other_bets question.now }
{
    question.bets.with(question.player, false)
}

/// What is paid for so many base points.
pub(crate) fn payment_for(question: &Question, way: Way, base: u32) -> Payment
    requires { base ≤ 8000 }
    ensures value { result ≡ spec.payment_for question.now way base }
    ensures most { score.paid result ≤ 5000000 }
{
    let dealer = question.player.is(question.state.dealer);
    paid_for(base, way.by(), dealer, question.state.counters)
}
