//! How many tiles of each kind melds have, all kinds at once.
ghost use Rattle.std.specs.Prelude.{◌≡◌, ◌≤◌, ◌+◌, ℕ, slice_index, true};
ghost use Rattle.riichi_tiles.specs.Melds.{tiles, tiles_of, is_meld};

use crate::meld::Meld;
use crate::melds::Melds;

/// How many tiles of each kind the melds of a hand have together, kind by kind.
pub fn meld_tiles(melds: &Melds) -> [u8; 34]
    ensures value { (kind : ℕ) → slice_index result kind ≡ tiles melds.now kind }
    ensures most { (kind : ℕ) → slice_index result kind ≤ 16 }
{
    let mut held = [0; 34];
    add_melds(&mut held, melds);
    held
}

/// Adds the tiles of the melds of a hand to those held, kind by kind, of which five are held at most.
#[tactic(auto, using(crate::proofs::MeldTiles::add_melds_facts))]
pub fn add_melds(held: &mut [u8; 34], melds: &Melds)
    requires { (kind : ℕ) → slice_index held.old kind ≤ 5 }
    ensures value { (kind : ℕ)
        → slice_index held.new kind ≡ slice_index held.old kind + tiles melds.now kind }
    ensures most { (kind : ℕ) → slice_index held.new kind ≤ slice_index held.old kind + 16 }
{
    for place in 0..melds.count() {
        if let Some(meld) = melds.get(place) {
            add_meld(held, meld);
        }
    }
}

/// Adds the tiles of a meld to those held, kind by kind.
pub(crate) fn add_meld(held: &mut [u8; 34], meld: Meld)
    requires few { (kind : ℕ) → slice_index held.old kind ≤ 200 }
    requires proper { is_meld meld ≡ true }
    ensures { (kind : ℕ)
        → slice_index held.new kind ≡ slice_index held.old kind + tiles_of meld kind }
{
    match meld {
        Meld::Chi(low) => {
            held[low.index()] += 1;
            held[low.index() + 1] += 1;
            held[low.index() + 2] += 1;
        }
        Meld::Pon(kind) => held[kind.index()] += 3,
        Meld::Kan(kind) | Meld::Ankan(kind) => held[kind.index()] += 4,
    }
}
