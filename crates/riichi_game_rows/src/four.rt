//! What a number says of a player, and four of them of each.
ghost use Rattle.std.specs.Prelude.{◌≡◌, pos};
ghost use Rattle.riichi_game_rows.specs.Fours as spec;

use riichi_table::{ByPlayer, Player};

/// The player of a number, from 0 on by the first seats.
pub fn player_in(number: u32) -> Option<Player>
    ensures { result ≡ spec.player_in number }
{
    match number {
        0 => Some(Player::First),
        1 => Some(Player::Second),
        2 => Some(Player::Third),
        3 => Some(Player::Fourth),
        _ => None,
    }
}

/// A flag of each player, which is set where its byte isn't 0.
pub(crate) fn flags_by_player(four: &[u8; 4]) -> ByPlayer<bool>
    ensures { result ≡ spec.flags_by_player four.now }
{
    ByPlayer {
        first: four[0] != 0,
        second: four[1] != 0,
        third: four[2] != 0,
        fourth: four[3] != 0,
    }
}

/// The points of each player.
pub(crate) fn points_in(four: &[i32; 4]) -> ByPlayer<i32>
    ensures { result ≡ spec.by_player (pos 0) four.now }
{
    ByPlayer {
        first: four[0],
        second: four[1],
        third: four[2],
        fourth: four[3],
    }
}

/// The penalties of each player.
pub(crate) fn penalties_in(four: &[u32; 4]) -> ByPlayer<u32>
    ensures { result ≡ spec.by_player 0 four.now }
{
    ByPlayer {
        first: four[0],
        second: four[1],
        third: four[2],
        fourth: four[3],
    }
}
