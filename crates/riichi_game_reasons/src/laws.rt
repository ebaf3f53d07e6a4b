//! A law over the reasons for the ends of games.
ghost use Rattle.riichi_game_reasons.specs.Laws.{TellsWhatHolds};

/// Of an outcome that isn't refused and ends a game, the reason is told by which it ends: the rules of the table have that end, and the
/// outcome brings it.
#[tactic(auto, using(crate::proofs::TrueReasons::tells_what_holds))]
pub fn the_reason_told_holds()
    ensures { TellsWhatHolds }
{}
