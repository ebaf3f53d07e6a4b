//! The yaku of every tile of the hand, by the count of each kind.
ghost use Rattle.std.specs.Prelude.{◌≡◌};
ghost use Rattle.riichi_yaku.specs.Tiles as spec;

use riichi_blocks::{AllTiles, is_thirteen_orphans};
use riichi_hand::{Switch, WinRecord};
use riichi_split::Reading;
use riichi_tiles::Suit;

pub(crate) fn is_all_simples(reading: &Reading, tiles: &AllTiles, win: &WinRecord) -> bool
    ensures { result ≡ spec.is_all_simples reading.now tiles.now win.now }
{
    !is_thirteen_orphans(reading) && tiles.are_simples() && may_be_all_simples(win)
}

fn may_be_all_simples(win: &WinRecord) -> bool
    ensures { result ≡ spec.may_be_all_simples win.now }
{
    win.melds().concealed() || win.rules().has(Switch::OpenSimples)
}

pub(crate) fn is_all_terminals_and_honours(reading: &Reading, tiles: &AllTiles) -> bool
    ensures { result ≡ spec.is_all_terminals_and_honours reading.now tiles.now }
{
    !is_thirteen_orphans(reading) && tiles.are_orphans()
}

fn has_suit_alone(tiles: &AllTiles, suit: Suit) -> bool
    ensures { result ≡ spec.has_suit_alone tiles.now suit }
{
    tiles.are_of_suit_or_honours(suit) && tiles.has_suit(suit)
}

fn has_one_suit(tiles: &AllTiles) -> bool
    ensures { result ≡ spec.has_one_suit tiles.now }
{
    Suit::NUMBERED
        .iter()
        .any(|suit| has_suit_alone(tiles, *suit))
}

pub(crate) fn is_half_flush(reading: &Reading, tiles: &AllTiles) -> bool
    ensures { result ≡ spec.is_half_flush reading.now tiles.now }
{
    !is_thirteen_orphans(reading) && has_one_suit(tiles) && tiles.has_honours()
}

fn are_of_one_suit(tiles: &AllTiles) -> bool
    ensures { result ≡ spec.are_of_one_suit tiles.now }
{
    Suit::NUMBERED.iter().any(|suit| tiles.are_of_suit(*suit))
}

pub(crate) fn is_full_flush(reading: &Reading, tiles: &AllTiles) -> bool
    ensures { result ≡ spec.is_full_flush reading.now tiles.now }
{
    !is_thirteen_orphans(reading) && are_of_one_suit(tiles)
}
