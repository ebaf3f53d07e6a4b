//! Laws of the definitions that the contracts cite.
ghost use Rattle.riichi_game_rows.specs.Laws.{ProgressIsReadBack};

/// A progress is read from its row as it was written: so a caller that keeps the row keeps the game.
#[tactic(auto, using(crate::proofs::ReadBack::progress_is_read_back))]
pub fn rows_are_read_back()
    ensures { ProgressIsReadBack }
{}
