//! A thrown tile, and what it can be called for.
ghost use Rattle.std.specs.Prelude.{◌≡◌, ◌-◌, ◌<◌, ◌≤◌, IfSome, false, nat_le, true};
ghost use Rattle.riichi_tiles.specs.Melds.{is_kong, is_meld, tiles_of};
ghost use Rattle.riichi_deeper.specs.Calls as spec;

use riichi_tiles::{Kind, Meld};

/// Who has thrown a tile, seen from the player who may call it.
#[derive(Clone, Copy, Debug, PartialEq, Eq)]
pub enum Thrower {
    /// The player before: from this one alone a run may be called.
    Left,
    Across,
    /// The player after.
    Right,
}

/// A tile that another player has thrown. It is not yet seen elsewhere.
#[derive(Clone, Copy, Debug, PartialEq, Eq)]
pub struct Thrown {
    pub tile: Kind,
    pub by: Thrower,
}

/// What a tile is called for.
#[derive(Clone, Copy, Debug, PartialEq, Eq)]
pub enum Claim {
    /// A run of which it is the highest tile.
    Highest,
    Middle,
    Lowest,
    Triplet,
}

/// The run that begins so many kinds below a tile, where there is one.
fn run_below(tile: Kind, down: u8) -> Option<Meld>
    requires { down ≤ 2 }
    ensures value { result ≡ spec.run_from (nat_le down tile) (tile - down) }
    ensures proper { IfSome result (λ meld.
        (is_meld meld ≡ true) × (is_kong meld ≡ false) × (0 < tiles_of meld tile)) }
{
    let number = tile.index() as u8;
    if number < down {
        return None;
    }
    let low = Kind::at(number - down);
    if low.begins_run() {
        Some(Meld::Chi(low))
    } else {
        None
    }
}

impl Claim {
    /// The meld for which a tile is called so, where there is one and the tile may be taken for it.
    #[tactic(auto, unfolding(crate::specs::Calls::called))]
    pub fn meld(self, thrown: &Thrown) -> Option<Meld>
        ensures value { result ≡ spec.called self thrown.now }
        ensures proper { IfSome result (λ meld.
            (is_meld meld ≡ true) × (is_kong meld ≡ false) × (0 < tiles_of meld thrown.now.tile)) }
    {
        let tile = thrown.tile;
        match (self, thrown.by) {
            (Claim::Triplet, _) => Some(Meld::Pon(tile)),
            (Claim::Highest, Thrower::Left) => run_below(tile, 2),
            (Claim::Middle, Thrower::Left) => run_below(tile, 1),
            (Claim::Lowest, Thrower::Left) => run_below(tile, 0),
            _ => None,
        }
    }
}
