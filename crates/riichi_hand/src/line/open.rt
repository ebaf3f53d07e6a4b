//! The value of the key `open`.
ghost use Rattle.std.specs.Prelude.{◌≡◌, ◌∷◌, ◌++◌, [], None, Some, List, ℕ, if◌then◌else◌};
ghost use Rattle.riichi_hand.specs.Values.{melds_of, melds_of_items};

use riichi_tiles::{Meld, Melds, split_at_mark};

/// The most melds that a hand has.
const MOST_MELDS: usize = 4;

/// Puts the melds that a text joins by commas, one to four, where none were. Answers whether they are melds.
#[tactic(auto, using(crate::proofs::CutLemmas::read_melds_facts, crate::proofs::MeldLemmas::melds_of_items_none), unfolding(crate::specs::Values::melds_of))]
pub(crate) fn read_melds(melds: &mut Melds, value: &[u8]) -> bool
    requires none { melds.old ≡ [] }
    ensures { (if result then Some melds.new else None) ≡ melds_of value.now }
{
    let mut rest = value;
    while let Some((item, after)) = split_at_mark(rest, b',') {
        if !add_meld(melds, item) {
            return false;
        }
        rest = after;
    }
    add_meld(melds, rest)
}

/// Adds the meld of one more item, after those of other items. Answers whether the items are melds.
#[tactic(auto, using(crate::proofs::MeldLemmas::add_meld_facts))]
fn add_meld(melds: &mut Melds, item: &[u8]) -> bool
    ensures { (items : List (List ℕ)) → Some melds.old ≡ melds_of_items items
        → (if result then Some melds.new else None) ≡ melds_of_items (items ++ item.now ∷ []) }
{
    let Some(meld) = Meld::read(item) else {
        return false;
    };
    if melds.count() == MOST_MELDS {
        return false;
    }
    melds.push(meld);
    true
}
