//! What wins on a discard move.
ghost use Rattle.std.specs.Prelude.{◌≡◌, ◌≤◌, ◌<◌, ◌+◌, ◌++◌, length};
ghost use Rattle.riichi_table.specs.Players.{of_player};
ghost use Rattle.riichi_settle.specs.Wins as spec;

use crate::moved::{MOST_MOVES, Moves, Reason, Taking, push_paid, push_taken};
use crate::prices::ron_price;
use crate::winning::{nearest, winners};
use riichi_table::{
    ByPlayer, CountersTo, GameState, Liable, Player, SticksTo, TableRules, Win, Worth,
};

/// A discard that is won on, and whom its winners pay for.
#[derive(Clone, Copy)]
pub(crate) struct Discard {
    pub dealer: Player,
    pub from: Player,
}

/// What is paid to all who win on a discard.
#[tactic(auto, unfolding(crate::specs::Wins::ron_moves))]
pub(crate) fn push_ron(
    moves: &mut Moves,
    state: &GameState,
    to: CountersTo,
    from: Player,
    wins: &ByPlayer<Option<Win>>,
)
    requires { length moves.old.items ≤ 24 }
    ensures items { moves.new.items ≡ moves.old.items ++ spec.ron_moves state.now to from wins.now }
    ensures most { length moves.new.items ≤ length moves.old.items + 16 }
{
    push_win(moves, state, to, from, wins, Player::First);
    push_win(moves, state, to, from, wins, Player::Second);
    push_win(moves, state, to, from, wins, Player::Third);
    push_win(moves, state, to, from, wins, Player::Fourth);
}

#[tactic(auto, unfolding(crate::specs::Wins::win_moves))]
fn push_win(
    moves: &mut Moves,
    state: &GameState,
    to: CountersTo,
    from: Player,
    wins: &ByPlayer<Option<Win>>,
    winner: Player,
)
    requires { length moves.old.items ≤ 36 }
    ensures items { moves.new.items
        ≡ moves.old.items ++ spec.win_moves state.now to from wins.now winner }
    ensures most { length moves.new.items ≤ length moves.old.items + 4 }
{
    if let Some(win) = wins.get(winner) {
        let counters = counters_for(state.counters, to, from, wins, winner);
        let discard = Discard {
            dealer: state.dealer,
            from,
        };
        push_won(moves, discard, winner, counters, win);
    }
}

/// The counters that a winner is paid.
fn counters_for(
    counters: u8,
    to: CountersTo,
    from: Player,
    wins: &ByPlayer<Option<Win>>,
    winner: Player,
) -> u8
    ensures { result ≡ spec.counters_for counters to from wins.now winner }
{
    match to {
        CountersTo::Each => counters,
        CountersTo::Nearest => {
            if winner.is(nearest(from, wins)) {
                counters
            } else {
                0
            }
        }
    }
}

#[tactic(auto, unfolding(crate::specs::Wins::one_ron))]
fn push_won(moves: &mut Moves, discard: Discard, winner: Player, counters: u8, win: Win)
    requires { length moves.old.items ≤ 36 }
    ensures items { moves.new.items
        ≡ moves.old.items ++ spec.one_ron discard.dealer discard.from winner counters win }
    ensures most { length moves.new.items ≤ length moves.old.items + 4 }
{
    match win.liable {
        None => push_ordinary(moves, discard, winner, counters, win.worth),
        Some(liable) => {
            if liable.player.is(discard.from) {
                push_ordinary(moves, discard, winner, counters, win.worth);
            } else {
                push_shared(moves, discard, winner, counters, win.worth, liable);
            }
        }
    }
}

#[tactic(auto, unfolding(crate::specs::Wins::ordinary_ron))]
fn push_ordinary(moves: &mut Moves, discard: Discard, winner: Player, counters: u8, worth: Worth)
    requires { length moves.old.items ≤ 36 }
    ensures items { moves.new.items
        ≡ moves.old.items ++ spec.ordinary_ron discard.dealer discard.from winner counters worth }
    ensures most { length moves.new.items ≤ length moves.old.items + 2 }
{
    let price = ron_price(worth, winner.is(discard.dealer));
    push_paid(moves, discard.from, winner, price, Reason::Ron);
    push_paid(
        moves,
        discard.from,
        winner,
        300 * u32::from(counters),
        Reason::Counters,
    );
}

/// The limits of a hand that nobody is liable for.
pub(crate) fn other_limits(worth: Worth, liable: u8) -> Worth
    ensures { result ≡ spec.other_limits worth liable }
{
    Worth::Yakuman {
        limits: worth.limits().saturating_sub(liable),
    }
}

#[tactic(auto, unfolding(crate::specs::Wins::shared_ron))]
fn push_shared(
    moves: &mut Moves,
    discard: Discard,
    winner: Player,
    counters: u8,
    worth: Worth,
    liable: Liable,
)
    requires { length moves.old.items ≤ 36 }
    ensures items { moves.new.items
        ≡ moves.old.items
        ++ spec.shared_ron discard.dealer discard.from winner counters worth liable }
    ensures most { length moves.new.items ≤ length moves.old.items + 4 }
{
    let dealer = winner.is(discard.dealer);
    let limits = Worth::Yakuman {
        limits: liable.limits,
    };
    let half = ron_price(limits, dealer) / 2;
    let rest = ron_price(other_limits(worth, liable.limits), dealer);
    push_paid(moves, liable.player, winner, half, Reason::Liable);
    push_paid(moves, discard.from, winner, half, Reason::OtherHalf);
    push_paid(moves, discard.from, winner, rest, Reason::Ron);
    push_paid(
        moves,
        liable.player,
        winner,
        300 * u32::from(counters),
        Reason::Counters,
    );
}

/// The sticks that winners on a discard take, of those that lie.
#[tactic(auto, unfolding(crate::specs::Wins::sticks_won))]
pub(crate) fn push_sticks_won(
    moves: &mut Moves,
    to: SticksTo,
    lying: u16,
    from: Player,
    wins: &ByPlayer<Option<Win>>,
    riichi: &ByPlayer<bool>,
)
    requires { length moves.old.items ≤ 35 }
    ensures items { moves.new.items
        ≡ moves.old.items ++ spec.sticks_won to lying from wins.now riichi.now }
    ensures most { length moves.new.items ≤ length moves.old.items + 5 }
{
    let nearest = nearest(from, wins);
    match to {
        SticksTo::Nearest => push_taken(moves, nearest, lying, Taking::Winner),
        SticksTo::Own => {
            let own = own_bets(wins, riichi);
            push_own_bets(moves, &own);
            let rest = lying.saturating_sub(u16::from(own.count()));
            push_taken(moves, nearest, rest, Taking::Winner);
        }
    }
}

/// Who wins and has bet.
fn own_bets(wins: &ByPlayer<Option<Win>>, riichi: &ByPlayer<bool>) -> ByPlayer<bool>
    ensures { result ≡ spec.own_bets wins.now riichi.now }
{
    let winners = winners(wins);
    ByPlayer {
        first: winners.first && riichi.first,
        second: winners.second && riichi.second,
        third: winners.third && riichi.third,
        fourth: winners.fourth && riichi.fourth,
    }
}

#[tactic(auto, unfolding(crate::specs::Wins::own_taken))]
fn push_own_bets(moves: &mut Moves, own: &ByPlayer<bool>)
    requires { length moves.old.items ≤ 36 }
    ensures items { moves.new.items ≡ moves.old.items ++ spec.own_taken own.now }
    ensures most { length moves.new.items ≤ length moves.old.items + 4 }
{
    push_own_bet(moves, own.first, Player::First);
    push_own_bet(moves, own.second, Player::Second);
    push_own_bet(moves, own.third, Player::Third);
    push_own_bet(moves, own.fourth, Player::Fourth);
}

fn push_own_bet(moves: &mut Moves, has: bool, player: Player)
    requires { length moves.old.items < MOST_MOVES }
    ensures items { moves.new.items ≡ moves.old.items ++ spec.own_bet_taken has player }
    ensures most { length moves.new.items ≤ length moves.old.items + 1 }
{
    if has {
        push_taken(moves, player, 1, Taking::OwnBet);
    }
}
