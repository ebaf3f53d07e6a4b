//! What moves add up to.
ghost use Rattle.std.specs.Prelude.{◌≡◌, ◌*◌, ◌≤◌, length};
ghost use Rattle.std.specs.List.{sum_by};
ghost use Rattle.riichi_table.specs.declared.player.Player.TheVariants.{First, Second, Third, Fourth};
ghost use Rattle.riichi_settle.specs.Totals as spec;
ghost use Rattle.riichi_settle.specs.Settled.{sticks_bet, sticks_taken};
ghost use Rattle.riichi_settle.specs.Settled as settled;

use crate::moved::{MOST_MOVES, Move};
use riichi_table::{ByPlayer, Player};

/// What each player is given and gives, and how many sticks are bet and taken.
#[derive(Clone, Copy)]
pub(crate) struct Totals {
    pub(crate) got: ByPlayer<u64>,
    pub(crate) given: ByPlayer<u64>,
    pub(crate) bet: u32,
    pub(crate) taken: u32,
}

/// What moves add up to, in one pass.
pub(crate) fn totals_of(moves: &[Move]) -> Totals
    requires { length moves.now ≤ MOST_MOVES }
    ensures first { spec.AreTotalsOf First moves.now result.got.first result.given.first }
    ensures second { spec.AreTotalsOf Second moves.now result.got.second result.given.second }
    ensures third { spec.AreTotalsOf Third moves.now result.got.third result.given.third }
    ensures fourth { spec.AreTotalsOf Fourth moves.now result.got.fourth result.given.fourth }
    ensures bet { result.bet ≡ sum_by sticks_bet moves.now }
    ensures few { result.bet ≤ MOST_MOVES }
    ensures taken { result.taken ≡ sum_by sticks_taken moves.now }
{
    let mut got = ByPlayer::all(0);
    let mut given = ByPlayer::all(0);
    let mut bet = 0;
    let mut taken = 0;
    for step in moves {
        got.first += got_by(Player::First, step);
        got.second += got_by(Player::Second, step);
        got.third += got_by(Player::Third, step);
        got.fourth += got_by(Player::Fourth, step);
        given.first += given_by(Player::First, step);
        given.second += given_by(Player::Second, step);
        given.third += given_by(Player::Third, step);
        given.fourth += given_by(Player::Fourth, step);
        bet += sticks_bet(step);
        taken += sticks_taken(step);
    }
    Totals {
        got,
        given,
        bet,
        taken,
    }
}

fn got_by(player: Player, step: &Move) -> u64
    ensures value { result ≡ settled.got_by player step.now }
    ensures most { result ≤ 4294967296 }
{
    match step {
        Move::Points { to, points, .. } => amount_if(to.is(player), *points),
        Move::Bet { .. } => 0,
        Move::Sticks { to, count, .. } => amount_if(to.is(player), 1000 * u32::from(*count)),
    }
}

fn given_by(player: Player, step: &Move) -> u64
    ensures value { result ≡ settled.given_by player step.now }
    ensures most { result ≤ 4294967296 }
{
    match step {
        Move::Points { from, points, .. } => amount_if(from.is(player), *points),
        Move::Bet { player: better } => amount_if(better.is(player), 1000),
        Move::Sticks { .. } => 0,
    }
}

fn amount_if(holds: bool, points: u32) -> u64
    ensures { result ≡ settled.amount_if holds points }
{
    if holds { u64::from(points) } else { 0 }
}

fn sticks_bet(step: &Move) -> u32
    ensures value { result ≡ settled.sticks_bet step.now }
    ensures most { result ≤ 1 }
{
    match step {
        Move::Bet { .. } => 1,
        _ => 0,
    }
}

fn sticks_taken(step: &Move) -> u32
    ensures value { result ≡ settled.sticks_taken step.now }
    ensures most { result ≤ 65535 }
{
    match step {
        Move::Sticks { count, .. } => u32::from(*count),
        _ => 0,
    }
}
