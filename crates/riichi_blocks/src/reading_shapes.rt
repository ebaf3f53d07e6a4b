//! Words on the shape of a reading.
ghost use Rattle.std.specs.Prelude.{◌≡◌};
ghost use Rattle.riichi_blocks.specs.HandBlocks as spec;

use riichi_split::Reading;

/// Whether the reading is one of sets and a pair.
pub fn is_standard(reading: &Reading) -> bool
    ensures { result ≡ spec.is_standard reading.now }
{
    matches!(reading, Reading::Standard { .. })
}

/// Whether the reading is seven pairs.
pub fn is_seven_pairs(reading: &Reading) -> bool
    ensures { result ≡ spec.is_seven_pairs reading.now }
{
    matches!(reading, Reading::SevenPairs)
}

/// Whether the reading is thirteen orphans.
pub fn is_thirteen_orphans(reading: &Reading) -> bool
    ensures { result ≡ spec.is_thirteen_orphans reading.now }
{
    matches!(reading, Reading::Orphans)
}
