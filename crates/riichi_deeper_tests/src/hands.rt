//! Hands as texts.
ghost use Rattle.std.specs.Prelude.{◌≡◌};
ghost use Rattle.riichi_hand.specs.Hand.{size};

use riichi_hand::ShapeRecord;
use riichi_tiles::{Counts, Kind, Meld, Melds, read_counts};
use std::test::Fail;

pub(crate) fn tiles(text: &str) -> Result<Counts, Fail> {
    if text.is_empty() {
        return Ok(Counts::new());
    }
    let counts = read_counts(text.as_bytes())?;
    Ok(counts)
}

fn melds(texts: &[&str]) -> Result<Melds, Fail> {
    let mut melds = Melds::new();
    for text in texts {
        let meld = Meld::read(text.as_bytes()).ok_or("no meld")?;
        if melds.count() < 4 && meld.is_proper() {
            melds.push(meld);
        }
    }
    Ok(melds)
}

/// The one kind of a text.
pub(crate) fn kind(text: &str) -> Result<Kind, Fail> {
    let kind = tiles(text)?.lowest().ok_or("no kind")?;
    Ok(kind)
}

/// A hand with its melds and what is seen elsewhere.
pub(crate) fn hand(text: &str, open: &[&str], seen: &str) -> Result<ShapeRecord, Fail> {
    let asked = ShapeRecord::new(tiles(text)?, melds(open)?, tiles(seen)?)?;
    Ok(asked)
}

/// How many tiles a hand has, each meld counted as three.
pub(crate) fn size(asked: &ShapeRecord) -> usize
    ensures { result ≡ size asked.now.tiles asked.now.melds }
{
    asked.tiles().total() as usize + 3 * asked.melds().count()
}
