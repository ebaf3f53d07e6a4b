ghost use Rattle.std.specs.Prelude.{◌≡◌, ◌<◌, ℕ, map, slice_index, Some, None, true, IfSome, MatchOption};
ghost use Rattle.std.specs.List.{list_all, range_with_len, find};
ghost use Rattle.riichi_tiles.specs.Melds.{tiles_of, is_open, is_kong, is_meld, reads_as, name_by_word, melded, meld_of, has_just, cut_named, cut_at, SpellsMeld};
ghost use Rattle.riichi_tiles.specs.declared.meld.Meld.{Meld};

use crate::counts::Counts;
use crate::cuts::split_at_mark;
use crate::kind::Kind;
use crate::melded::add_meld;
use crate::notation::read_into;

/// A set that a player called from a discard, or a kong that was declared.
#[derive(Clone, Copy, Debug, PartialEq, Eq)]
pub enum Meld {
    /// A run, named by its lowest kind, which should be a 1 to 7 of m, p or s ([`Meld::is_proper`]).
    Chi(Kind),
    /// A triplet.
    Pon(Kind),
    /// Four of a kind, called or added to a triplet.
    Kan(Kind),
    /// Four of a kind from the player's own tiles: a concealed kong.
    Ankan(Kind),
}

/// The four words for a meld.
#[derive(Clone, Copy)]
enum MeldName {
    Chi,
    Pon,
    Kan,
    Ankan,
}

impl Meld {
    /// The meld that a text spells: its word, a colon, and the notation of just its tiles, in any order, as `chi:340m` or
    /// `pon:1z1z1z`. `None` for any other text; why it is no meld isn't said.
    #[tactic(auto, unfolding(crate::specs::Melds::meld_of))]
    pub fn read(text: &[u8]) -> Option<Meld>
        ensures value { result ≡ meld_of text.now }
        ensures spelled { IfSome result (λ meld. SpellsMeld text.now meld) }
        ensures only { (meld : Meld) → SpellsMeld text.now meld → result ≡ Some meld }
        ensures proper { IfSome result (λ meld. is_meld meld ≡ true) }
    {
        let (name, tiles) = read_name(text)?;
        let mut counts = Counts::new();
        match read_into(&mut counts, tiles) {
            Ok(()) => find_meld(name, &counts),
            Err(_) => None,
        }
    }

    /// How many tiles of a kind it has.
    pub fn tiles(&self, kind: Kind) -> u8
        ensures { result ≡ tiles_of self.now kind }
    {
        match *self {
            Meld::Chi(low) => {
                u8::from(low.index() <= kind.index() && kind.index() <= low.index() + 2)
            }
            Meld::Pon(held) => if held == kind { 3 } else { 0 },
            Meld::Kan(held) | Meld::Ankan(held) => if held == kind { 4 } else { 0 },
        }
    }

    /// Whether it opens the hand, as every meld does but a concealed kong.
    pub fn is_open(&self) -> bool
        ensures { result ≡ is_open self.now }
    {
        match self {
            Meld::Chi(_) | Meld::Pon(_) | Meld::Kan(_) => true,
            Meld::Ankan(_) => false,
        }
    }

    /// Whether it has four tiles.
    pub fn is_kong(&self) -> bool
        ensures { result ≡ is_kong self.now }
    {
        match self {
            Meld::Chi(_) | Meld::Pon(_) => false,
            Meld::Kan(_) | Meld::Ankan(_) => true,
        }
    }

    /// Whether it can be laid down: a `Chi` has to begin at a 1 to 7 of m, p or s, any other meld can.
    pub fn is_proper(&self) -> bool
        ensures { result ≡ is_meld self.now }
    {
        match self {
            Meld::Chi(low) => low.begins_run(),
            Meld::Pon(_) | Meld::Kan(_) | Meld::Ankan(_) => true,
        }
    }
}

/// The meld of this name that has just these tiles. It can only be that of the lowest kind.
fn find_meld(name: MeldName, counts: &Counts) -> Option<Meld>
    ensures value { result ≡ find (reads_as counts.now) (map (melded name) (range_with_len 0 34)) }
    ensures proper { IfSome result (λ meld. is_meld meld ≡ true) }
{
    let meld = make(name, counts.lowest()?);
    if is_spelled(counts, &meld) {
        Some(meld)
    } else {
        None
    }
}

fn make(name: MeldName, kind: Kind) -> Meld
    ensures { result ≡ melded name kind }
{
    match name {
        MeldName::Chi => Meld::Chi(kind),
        MeldName::Pon => Meld::Pon(kind),
        MeldName::Kan => Meld::Kan(kind),
        MeldName::Ankan => Meld::Ankan(kind),
    }
}

/// The counts are exactly the meld's tiles.
fn is_spelled(counts: &Counts, meld: &Meld) -> bool
    ensures { result ≡ reads_as counts.now meld.now }
{
    meld.is_proper() && has_just(counts, meld)
}

fn has_just(counts: &Counts, meld: &Meld) -> bool
    requires { is_meld meld.now ≡ true }
    ensures { result ≡ has_just counts.now meld.now }
{
    let mut tiles = [0; 34];
    add_meld(&mut tiles, *meld);
    let mut same = true;
    for number in 0..34 {
        same = same & (counts.get(Kind::at(number)) == tiles[number as usize]);
    }
    same
}

/// The word of a meld, and the text after its colon.
fn read_name(text: &[u8]) -> Option<(MeldName, &[u8])>
    ensures { MatchOption result (cut_named (cut_at 58 text.now)
        ≡ None) (λ cut. cut_named (cut_at 58 text.now) ≡ Some (cut.0, cut.1.now)) }
{
    let (word, tiles) = split_at_mark(text, b':')?;
    let name = name_of(word)?;
    Some((name, tiles))
}

fn name_of(word: &[u8]) -> Option<MeldName>
    ensures { result ≡ name_by_word word.now }
{
    match word {
        b"chi" => Some(MeldName::Chi),
        b"pon" => Some(MeldName::Pon),
        b"kan" => Some(MeldName::Kan),
        b"ankan" => Some(MeldName::Ankan),
        _ => None,
    }
}
