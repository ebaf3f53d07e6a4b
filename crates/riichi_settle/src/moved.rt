//! What is moved, and why.
ghost use Rattle.std.specs.Prelude.{◌≡◌, ◌≤◌, ◌<◌, ◌+◌, ◌++◌, length};
ghost use Rattle.riichi_table.specs.Players.{of_player};
ghost use Rattle.riichi_settle.specs.Moves as spec;

use arrayvec::ArrayVec;
use riichi_table::{ByPlayer, Player};

/// Why points are paid.
#[derive(Clone, Copy, Debug, PartialEq, Eq)]
pub enum Reason {
    /// For a hand that is won on the payer's discard.
    Ron,
    /// For a hand that is won by self-draw.
    Tsumo,
    /// By the liable player, for the limits of a yakuman that this one is liable for.
    Liable,
    /// By the discarder, as the other half of a yakuman that another is liable for.
    OtherHalf,
    /// For the counters.
    Counters,
    /// To a player who is ready at a draw.
    Ready,
    /// To a player with a nagashi mangan.
    Nagashi,
    /// By a player whose hand is dead.
    Chombo,
}

/// Why sticks are taken.
#[derive(Clone, Copy, Debug, PartialEq, Eq)]
pub enum Taking {
    /// By a winner who takes all that lie.
    Winner,
    /// By one of several winners, as the own bet of the deal.
    OwnBet,
}

/// Something that is moved.
#[derive(Clone, Copy, Debug, PartialEq, Eq)]
pub enum Move {
    /// 1000 points of a player to the table, as a riichi stick.
    Bet {
        player: Player,
    },
    /// Points, from one player to another.
    Points {
        from: Player,
        to: Player,
        points: u32,
        why: Reason,
    },
    /// Sticks from the table to a player, of 1000 points each.
    Sticks {
        to: Player,
        count: u16,
        why: Taking,
    },
}

/// What fills the places of a list that no move has taken: as the first of all values it is made of zero bytes.
impl Default for Move {
    ghost use Rattle.riichi_settle.specs.declared.moved.Move.TheVariants.{Bet};
    ghost use Rattle.riichi_table.specs.declared.player.Player.TheVariants.{First};

    ghost is_default = { λ move. move ≡ Bet First };

    fn default() -> Self {
        Move::Bet {
            player: Player::First,
        }
    }
}

/// No outcome moves more.
pub const MOST_MOVES: usize = 40;

/// What an outcome moves, in the order in which it is told: the bets, what is paid, the sticks.
pub type Moves = ArrayVec<Move, MOST_MOVES>;

/// A payment, where there is something to pay.
pub(crate) fn push_paid(moves: &mut Moves, from: Player, to: Player, points: u32, why: Reason)
    requires { length moves.old.items < MOST_MOVES }
    ensures items { moves.new.items ≡ moves.old.items ++ spec.payment_move from to points why }
    ensures most { length moves.new.items ≤ length moves.old.items + 1 }
{
    if points > 0 {
        moves.push(Move::Points {
            from,
            to,
            points,
            why,
        });
    }
}

/// Sticks that a player takes, where there are any.
pub(crate) fn push_taken(moves: &mut Moves, to: Player, count: u16, why: Taking)
    requires { length moves.old.items < MOST_MOVES }
    ensures items { moves.new.items ≡ moves.old.items ++ spec.taken to count why }
    ensures most { length moves.new.items ≤ length moves.old.items + 1 }
{
    if count > 0 {
        moves.push(Move::Sticks { to, count, why });
    }
}

/// The bets of a deal.
#[tactic(auto, unfolding(crate::specs::Moves::bets))]
pub(crate) fn push_bets(moves: &mut Moves, riichi: &ByPlayer<bool>)
    requires { length moves.old.items ≤ 36 }
    ensures items { moves.new.items ≡ moves.old.items ++ spec.bets riichi.now }
    ensures most { length moves.new.items ≤ length moves.old.items + 4 }
{
    push_bet(moves, riichi, Player::First);
    push_bet(moves, riichi, Player::Second);
    push_bet(moves, riichi, Player::Third);
    push_bet(moves, riichi, Player::Fourth);
}

fn push_bet(moves: &mut Moves, riichi: &ByPlayer<bool>, player: Player)
    requires { length moves.old.items < MOST_MOVES }
    ensures items { moves.new.items
        ≡ moves.old.items ++ spec.bet (of_player riichi.now player) player }
    ensures most { length moves.new.items ≤ length moves.old.items + 1 }
{
    if riichi.get(player) {
        moves.push(Move::Bet { player });
    }
}
