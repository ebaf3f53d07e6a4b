//! What a self-draw moves, and what is paid like one.
ghost use Rattle.std.specs.Prelude.{◌≡◌, ◌≤◌, ◌+◌, ◌++◌, length};
ghost use Rattle.riichi_settle.specs.Wins as spec;

use crate::moved::{Moves, Reason, push_paid};
use crate::prices::{ron_price, tsumo_price};
use crate::rons::other_limits;
use riichi_table::{GameState, Liable, Player, Win, Worth};

/// What is paid for a self-draw.
#[tactic(auto, unfolding(crate::specs::Wins::tsumo_moves))]
pub(crate) fn push_tsumo(moves: &mut Moves, state: &GameState, winner: Player, win: &Win)
    requires { length moves.old.items ≤ 30 }
    ensures items { moves.new.items ≡ moves.old.items ++ spec.tsumo_moves state.now winner win.now }
    ensures most { length moves.new.items ≤ length moves.old.items + 10 }
{
    match win.liable {
        None => {
            let draw = Drawn {
                dealer: state.dealer,
                winner,
                worth: win.worth,
                counters: state.counters,
                why: Reason::Tsumo,
            };
            push_drawn(moves, draw);
        }
        Some(liable) => push_liable(moves, state, winner, win.worth, liable),
    }
}

#[tactic(auto, unfolding(crate::specs::Wins::liable_tsumo))]
fn push_liable(moves: &mut Moves, state: &GameState, winner: Player, worth: Worth, liable: Liable)
    requires { length moves.old.items ≤ 30 }
    ensures items { moves.new.items
        ≡ moves.old.items ++ spec.liable_tsumo state.now winner worth liable }
    ensures most { length moves.new.items ≤ length moves.old.items + 10 }
{
    let limits = Worth::Yakuman {
        limits: liable.limits,
    };
    let price = ron_price(limits, winner.is(state.dealer));
    push_paid(moves, liable.player, winner, price, Reason::Liable);
    let rest = Drawn {
        dealer: state.dealer,
        winner,
        worth: other_limits(worth, liable.limits),
        counters: 0,
        why: Reason::Tsumo,
    };
    push_drawn(moves, rest);
    push_paid(
        moves,
        liable.player,
        winner,
        300 * u32::from(state.counters),
        Reason::Counters,
    );
}

/// What all others pay one player.
#[derive(Clone, Copy)]
pub(crate) struct Drawn {
    pub dealer: Player,
    pub winner: Player,
    pub worth: Worth,
    pub counters: u8,
    pub why: Reason,
}

/// Each other player pays the winner.
#[tactic(auto, unfolding(crate::specs::Wins::drawn))]
pub(crate) fn push_drawn(moves: &mut Moves, draw: Drawn)
    requires { length moves.old.items ≤ 32 }
    ensures items { moves.new.items
        ≡ moves.old.items ++ spec.drawn draw.dealer draw.winner draw.worth draw.counters draw.why }
    ensures most { length moves.new.items ≤ length moves.old.items + 8 }
{
    push_drawn_from(moves, draw, Player::First);
    push_drawn_from(moves, draw, Player::Second);
    push_drawn_from(moves, draw, Player::Third);
    push_drawn_from(moves, draw, Player::Fourth);
}

#[tactic(auto, unfolding(crate::specs::Wins::drawn_from))]
fn push_drawn_from(moves: &mut Moves, draw: Drawn, payer: Player)
    requires { length moves.old.items ≤ 38 }
    ensures items { moves.new.items
        ≡ moves.old.items
        ++ spec.drawn_from draw.dealer draw.winner draw.worth draw.counters draw.why payer }
    ensures most { length moves.new.items ≤ length moves.old.items + 2 }
{
    if !payer.is(draw.winner) {
        let price = price_between(draw.dealer, draw.worth, payer, draw.winner);
        push_paid(moves, payer, draw.winner, price, draw.why);
        push_paid(
            moves,
            payer,
            draw.winner,
            100 * u32::from(draw.counters),
            Reason::Counters,
        );
    }
}

/// What one player pays another for a self-draw.
pub(crate) fn price_between(dealer: Player, worth: Worth, payer: Player, payee: Player) -> u32
    ensures { result ≡ spec.price_between dealer worth payer payee }
{
    tsumo_price(worth, payer.is(dealer) || payee.is(dealer))
}
