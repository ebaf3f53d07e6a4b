//! Laws of the definitions that the contracts cite.
ghost use Rattle.riichi_game.specs.Laws.{FirstHasAll, GoesOnFromThere, KeepAll, KeepsAll, LastComesLast, OverStaysOver, PenaltyChangesNoState, RefusedChangesNothing, SettledUnderItsState, StandsAsWritten, StaysInRoom};

/// The points of the four players and 1000 for each stick on the table are four times the start, before the first deal, after any
/// outcome, and after any list of outcomes.
#[tactic(auto, using(crate::proofs::Totals::first_has_all, crate::proofs::Totals::keeps_all, crate::proofs::Totals::keep_all))]
pub fn nothing_is_lost_or_made()
    ensures first { FirstHasAll }
    ensures one { KeepsAll }
    ensures all { KeepAll }
{}

/// How far a game has come follows from its outcomes in their order, each of them settled under the state before it; an outcome
/// that is refused changes nothing.
#[tactic(auto, using(crate::proofs::Order::refused_changes_nothing, crate::proofs::Order::goes_on_from_there, crate::proofs::Order::last_comes_last, crate::proofs::Order::settled_under_its_state, crate::proofs::Order::stands_as_written))]
pub fn outcomes_come_in_order()
    ensures refused { RefusedChangesNothing }
    ensures more { GoesOnFromThere }
    ensures last { LastComesLast }
    ensures settled { SettledUnderItsState }
    ensures written { StandsAsWritten }
{}

/// No state has more counters, sticks or points than a ledger keeps; a penalty changes nothing that the table shows, and nothing
/// else is accepted once the game is over.
#[tactic(auto, using(crate::proofs::Order::penalty_changes_no_state, crate::proofs::Order::over_stays_over))]
pub fn states_stay_in_bounds()
    ensures room { StaysInRoom }
    ensures penalty { PenaltyChangesNoState }
    ensures over { OverStaysOver }
{}
