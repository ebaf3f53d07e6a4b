//! What a draw moves, and a chombo.
ghost use Rattle.std.specs.Prelude.{◌≡◌, ◌≤◌, ◌<◌, ◌+◌, ◌++◌, length};
ghost use Rattle.riichi_table.specs.Players.{of_player, count_players};
ghost use Rattle.riichi_settle.specs.Draws as spec;

use crate::moved::{MOST_MOVES, Moves, Reason, push_paid};
use crate::tsumos::{Drawn, price_between, push_drawn};
use riichi_table::{ByPlayer, ChomboCost, Player, Worth};

/// The worth of a mangan.
fn mangan() -> Worth
    ensures { result ≡ spec.mangan }
{
    Worth::Counted { base: 2000 }
}

/// What a draw moves beside the bets.
#[tactic(auto, unfolding(crate::specs::Draws::draw_moves))]
pub(crate) fn push_draw(
    moves: &mut Moves,
    dealer: Player,
    ready: &ByPlayer<bool>,
    nagashi: &ByPlayer<bool>,
)
    requires { length moves.old.items ≤ 4 }
    ensures items { moves.new.items
        ≡ moves.old.items ++ spec.draw_moves dealer ready.now nagashi.now }
    ensures most { length moves.new.items ≤ length moves.old.items + 32 }
{
    if nagashi.any() {
        push_nagashi(moves, dealer, nagashi);
    } else {
        push_ready(moves, ready);
    }
}

#[tactic(auto, unfolding(crate::specs::Draws::nagashi_moves))]
fn push_nagashi(moves: &mut Moves, dealer: Player, nagashi: &ByPlayer<bool>)
    requires { length moves.old.items ≤ 4 }
    ensures items { moves.new.items ≡ moves.old.items ++ spec.nagashi_moves dealer nagashi.now }
    ensures most { length moves.new.items ≤ length moves.old.items + 32 }
{
    push_nagashi_of(moves, dealer, nagashi.first, Player::First);
    push_nagashi_of(moves, dealer, nagashi.second, Player::Second);
    push_nagashi_of(moves, dealer, nagashi.third, Player::Third);
    push_nagashi_of(moves, dealer, nagashi.fourth, Player::Fourth);
}

fn push_nagashi_of(moves: &mut Moves, dealer: Player, has: bool, player: Player)
    requires { length moves.old.items ≤ 32 }
    ensures items { moves.new.items ≡ moves.old.items ++ spec.nagashi_of dealer has player }
    ensures most { length moves.new.items ≤ length moves.old.items + 8 }
{
    if has {
        let draw = Drawn {
            dealer,
            winner: player,
            worth: mangan(),
            counters: 0,
            why: Reason::Nagashi,
        };
        push_drawn(moves, draw);
    }
}

/// What those who are not ready pay those who are.
#[tactic(auto, unfolding(crate::specs::Draws::ready_moves))]
fn push_ready(moves: &mut Moves, ready: &ByPlayer<bool>)
    requires { length moves.old.items ≤ 24 }
    ensures items { moves.new.items ≡ moves.old.items ++ spec.ready_moves ready.now }
    ensures most { length moves.new.items ≤ length moves.old.items + 16 }
{
    push_unready(moves, ready, Player::First);
    push_unready(moves, ready, Player::Second);
    push_unready(moves, ready, Player::Third);
    push_unready(moves, ready, Player::Fourth);
}

/// What one player pays those who are ready.
#[tactic(auto, unfolding(crate::specs::Draws::unready_moves))]
fn push_unready(moves: &mut Moves, ready: &ByPlayer<bool>, payer: Player)
    requires { length moves.old.items ≤ 36 }
    ensures items { moves.new.items ≡ moves.old.items ++ spec.unready_moves ready.now payer }
    ensures most { length moves.new.items ≤ length moves.old.items + 4 }
{
    push_share(moves, ready, payer, Player::First);
    push_share(moves, ready, payer, Player::Second);
    push_share(moves, ready, payer, Player::Third);
    push_share(moves, ready, payer, Player::Fourth);
}

#[tactic(auto, unfolding(crate::specs::Draws::share_between))]
fn push_share(moves: &mut Moves, ready: &ByPlayer<bool>, payer: Player, payee: Player)
    requires { length moves.old.items < MOST_MOVES }
    ensures items { moves.new.items ≡ moves.old.items ++ spec.share_between ready.now payer payee }
    ensures most { length moves.new.items ≤ length moves.old.items + 1 }
{
    if !ready.get(payer) && ready.get(payee) {
        let share = ready_share(ready.count());
        push_paid(moves, payer, payee, share, Reason::Ready);
    }
}

/// What each of the others pays each of so many who are ready.
fn ready_share(ready: u8) -> u32
    ensures { result ≡ spec.ready_share ready }
{
    match ready {
        2 => 750,
        _ => 1000,
    }
}

/// What a chombo moves.
#[tactic(auto, unfolding(crate::specs::Draws::chombo_moves))]
pub(crate) fn push_chombo(moves: &mut Moves, cost: ChomboCost, dealer: Player, player: Player)
    requires { length moves.old.items ≤ 36 }
    ensures items { moves.new.items ≡ moves.old.items ++ spec.chombo_moves cost dealer player }
    ensures most { length moves.new.items ≤ length moves.old.items + 4 }
{
    match cost {
        ChomboCost::Points(_) => {}
        ChomboCost::Mangan => {
            push_amends(moves, dealer, player, Player::First);
            push_amends(moves, dealer, player, Player::Second);
            push_amends(moves, dealer, player, Player::Third);
            push_amends(moves, dealer, player, Player::Fourth);
        }
    }
}

/// What a player whose hand is dead pays another.
fn push_amends(moves: &mut Moves, dealer: Player, player: Player, other: Player)
    requires { length moves.old.items < MOST_MOVES }
    ensures items { moves.new.items ≡ moves.old.items ++ spec.amends dealer player other }
    ensures most { length moves.new.items ≤ length moves.old.items + 1 }
{
    if !other.is(player) {
        let price = price_between(dealer, mangan(), player, other);
        push_paid(moves, player, other, price, Reason::Chombo);
    }
}
