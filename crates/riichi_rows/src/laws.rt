//! Laws over the definitions alone.
ghost use Rattle.riichi_rows.specs.Lacked.{EntryLaw};

/// One more tile of a rank lowers an entry of a suit's row exactly where some least choice lacks
/// that rank.
pub fn entries()
    ensures { EntryLaw }
{}
