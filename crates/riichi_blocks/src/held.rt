//! Every tile of a win.
ghost use Rattle.std.specs.Prelude.{◌≡◌};
ghost use Rattle.riichi_blocks.specs.Held as spec;

use crate::AllTiles;
use riichi_hand::WinRecord;
use riichi_tiles::add_melds;

/// The concealed tiles, the winning tile and the tiles of the melds.
pub fn all_tiles(win: &WinRecord) -> AllTiles
    ensures { result ≡ spec.all_tiles win.now }
{
    AllTiles::new(counts_of(win))
}

/// How many of each kind are among them.
fn counts_of(win: &WinRecord) -> [u8; 34]
    ensures { result ≡ spec.all_tiles win.now }
{
    let mut counts = win.concealed().to_array();
    counts[win.winning().index()] += 1;
    add_melds(&mut counts, &win.melds());
    counts
}
