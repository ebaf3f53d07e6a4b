//! Laws of the definitions that the contracts cite, each as the contract of a function.
ghost use Rattle.riichi_need.specs.Laws.{GreaterReachesToo, RonIsSettledSo, TsumoIsSettledSo};

/// Where a win brings the player to a place, every greater one does: so every row of the table above the one that is shown does.
pub fn greater_wins_reach_too()
    ensures { GreaterReachesToo }
{}

/// Where nobody bets, the points that a win is asked by are those that the same win is settled with.
pub fn needs_are_settled_so()
    ensures ron { RonIsSettledSo }
    ensures tsumo { TsumoIsSettledSo }
{
    riichi_settle::laws::a_lone_win_is_settled_as_scored();
}
