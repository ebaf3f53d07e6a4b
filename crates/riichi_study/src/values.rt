//! The values of thrown tiles, of one tile that was thrown and of who has thrown it, of winds and of rules.
ghost use Rattle.std.specs.Prelude.{◌≡◌};
ghost use Rattle.riichi_hand.specs.Values.{wind_of};
ghost use Rattle.riichi_study.specs.NamedRules.{rules_named};
ghost use Rattle.riichi_study.specs.Values as spec;

use riichi_deeper::Thrower;
use riichi_hand::{Rules, Wind, read_rules};
use riichi_tiles::{Counts, Kind, read_counts};

/// The tiles that a text spells.
#[tactic(auto, unfolding(crate::specs::Values::tiles_named))]
pub(crate) fn read_tiles(value: &[u8]) -> Option<Counts>
    ensures { result ≡ spec.tiles_named value.now }
{
    match read_counts(value) {
        Ok(counts) => Some(counts),
        Err(_) => None,
    }
}

/// The kind of the only tile that a text spells.
#[tactic(auto, unfolding(crate::specs::Values::tile_named))]
pub(crate) fn read_tile(value: &[u8]) -> Option<Kind>
    ensures { result ≡ spec.tile_named value.now }
{
    match read_counts(value) {
        Ok(counts) if counts.total() == 1 => counts.lowest(),
        _ => None,
    }
}

/// Who has thrown a tile.
pub(crate) fn read_thrower(value: &[u8]) -> Option<Thrower>
    ensures { result ≡ spec.thrower_of value.now }
{
    match value {
        b"left" => Some(Thrower::Left),
        b"across" => Some(Thrower::Across),
        b"right" => Some(Thrower::Right),
        _ => None,
    }
}

/// A wind by its letter.
pub(crate) fn read_wind(value: &[u8]) -> Option<Wind>
    ensures { result ≡ wind_of value.now }
{
    match value {
        b"E" => Some(Wind::East),
        b"S" => Some(Wind::South),
        b"W" => Some(Wind::West),
        b"N" => Some(Wind::North),
        _ => None,
    }
}

/// The rules that a text names, as `--rules` takes it.
pub(crate) fn read_named_rules(value: &[u8]) -> Option<Rules>
    ensures { result ≡ rules_named value.now }
{
    match read_rules(value) {
        Ok(rules) => Some(rules),
        Err(_) => None,
    }
}
