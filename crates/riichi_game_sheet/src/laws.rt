//! What is always so of a sheet.
ghost use Rattle.riichi_game_sheet.specs.Laws.{RowsTakeEightyColumns};

/// A row of names or numbers takes 80 columns on a terminal, whatever stands in its cells.
#[tactic(auto, using(crate::proofs::Widths::rows_take_eighty_columns))]
pub fn a_row_takes_eighty_columns()
    ensures { RowsTakeEightyColumns }
{}
