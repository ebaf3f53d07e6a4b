//! What it costs to hold some tiles of a rank.

ghost use Rattle.std.specs.Prelude.{◌≡◌};
ghost use Rattle.riichi_rows.specs.Open.{IsMarkOf};

/// What it costs to hold some tiles of a rank: how many are lacking, or NONE above the cap, and the
/// bit of the rank where any is.
#[derive(Clone, Copy)]
pub struct Cost {
    pub tiles: u8,
    pub mark: u8,
    ghost unmarked: { tiles ≡ 0 → mark ≡ 0 },
}

impl Cost {
    #[inline(always)]
    pub fn new(tiles: u8, bit: u8) -> Cost
        ensures tiles { result.tiles ≡ tiles }
        ensures mark { IsMarkOf bit tiles result.mark }
    {
        let mark = if tiles > 0 { bit } else { 0 };
        Cost { tiles, mark }
    }
}
