//! Many hands, and the hand of a row.
ghost use Rattle.std.specs.Prelude.{◌≡◌, IfSome, slice_index_or, true};
ghost use Rattle.riichi_hand.specs.Hand.{is_thirteen, size};
ghost use Rattle.riichi_arrays.specs.Hands as spec;
ghost use Rattle.riichi_arrays.specs.Hands.{no_melds, no_tiles};

use riichi_hand::{HandRecord, ShapeRecord};
use riichi_tiles::{Counts, Kind, Meld, Melds};

/// Many hands, each a row: its counts, its melds and the tiles that are seen elsewhere. Rows of melds or of seen tiles that aren't
/// there stand for none.
#[derive(Clone, Copy)]
pub struct Hands<'a> {
    pub counts: &'a [[u8; 34]],
    pub melds: &'a [[u8; 4]],
    pub seen: &'a [[u8; 34]],
}

impl Hands<'_> {
    ghost use Rattle.riichi_arrays.specs.Columns.{hand_of_row, shape_of_row};
    ghost use Rattle.riichi_arrays.specs.Further.{thirteen_of_row};

    /// The hand of thirteen or fourteen tiles that stands in a row.
    pub(crate) fn shape_at(&self, row: usize) -> Option<ShapeRecord>
        ensures { result ≡ shape_of_row self.now row }
    {
        let tiles = tiles_at(self.counts, row)?;
        let melds = melds_at(self.melds, row)?;
        let seen = tiles_at(self.seen, row)?;
        ShapeRecord::new(tiles, melds, seen).ok()
    }

    /// The same, where it has thirteen tiles.
    pub(crate) fn thirteen_at(&self, row: usize) -> Option<ShapeRecord>
        ensures value { result ≡ thirteen_of_row self.now row }
        ensures thirteen { IfSome result (λ asked. is_thirteen asked.tiles asked.melds ≡ true) }
    {
        let asked = self.shape_at(row)?;
        if size(&asked) == 13 {
            Some(asked)
        } else {
            None
        }
    }

    /// The hand of thirteen tiles that stands in a row, whatever is seen elsewhere.
    pub(crate) fn hand_at(&self, row: usize) -> Option<HandRecord>
        ensures { result ≡ hand_of_row self.now row }
    {
        let tiles = tiles_at(self.counts, row)?;
        let melds = melds_at(self.melds, row)?;
        HandRecord::new(tiles, melds).ok()
    }
}

/// How many tiles a hand has, each meld counted as three.
fn size(asked: &ShapeRecord) -> usize
    ensures { result ≡ size asked.now.tiles asked.now.melds }
{
    asked.tiles().total() as usize + 3 * asked.melds().count()
}

/// The counts of a row, none where one is above four.
pub fn counts_in(row: &[u8; 34]) -> Option<Counts>
    ensures { result ≡ spec.counts_in row.now }
{
    Counts::of(row)
}

/// The meld of a byte.
fn meld_in(byte: u8) -> Option<Meld>
    ensures { result ≡ spec.meld_in byte }
{
    let place = byte % 64;
    if place == 0 || place > 34 {
        return None;
    }
    let meld = meld_sorted(byte / 64, Kind::at(place - 1));
    if meld.is_proper() { Some(meld) } else { None }
}

fn meld_sorted(sort: u8, kind: Kind) -> Meld
    ensures { result ≡ spec.meld_sorted sort kind }
{
    match sort {
        0 => Meld::Chi(kind),
        1 => Meld::Pon(kind),
        2 => Meld::Kan(kind),
        _ => Meld::Ankan(kind),
    }
}

/// The melds of a row, none where a byte is no meld.
pub fn melds_in(row: &[u8; 4]) -> Option<Melds>
    ensures { result ≡ spec.melds_in row.now }
{
    let mut melds = Melds::new();
    for byte in row {
        if *byte != 0 {
            melds.push(meld_in(*byte)?);
        }
    }
    Some(melds)
}

/// The melds of a row of some, none where there are no more rows.
fn melds_at(melds: &[[u8; 4]], row: usize) -> Option<Melds>
    ensures { result ≡ spec.melds_in (slice_index_or melds.now row no_melds) }
{
    if row < melds.len() {
        melds_in(&melds[row])
    } else {
        Some(Melds::new())
    }
}

/// The tiles of a row of some, none where there are no more rows.
fn tiles_at(rows: &[[u8; 34]], row: usize) -> Option<Counts>
    ensures { result ≡ spec.counts_in (slice_index_or rows.now row no_tiles) }
{
    if row < rows.len() {
        counts_in(&rows[row])
    } else {
        Some(Counts::new())
    }
}
