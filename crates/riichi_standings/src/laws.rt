//! Laws of the definitions that the contracts cite, each as the contract of a function.
ghost use Rattle.riichi_standings.specs.Laws.{OrderOfGamesIsFree, OrderOfResultsIsFree, TotalIsTheSum, TotalsAreAllPoints};

/// The total of a player is the sum of the final points of the player's games.
#[tactic(auto, using(crate::proofs::Sums::total_is_the_sum))]
pub fn a_total_is_the_sum_of_the_players_games()
    ensures { TotalIsTheSum }
{}

/// The totals of all players are together the final points of all games.
#[tactic(auto, using(crate::proofs::Sums::totals_are_all_points))]
pub fn totals_are_together_all_points()
    ensures { TotalsAreAllPoints }
{}

/// Results in another order, as of files in another order, make the same standings.
#[tactic(auto, using(crate::proofs::Orders::order_is_free))]
pub fn the_order_of_results_is_free()
    ensures { OrderOfResultsIsFree }
{}

/// The same players with the same games, in any order of the games and by whatever numbers, stand alike: with the same tally, at the
/// same place, behind as many names.
pub fn the_order_of_games_is_free()
    ensures { OrderOfGamesIsFree }
{}
