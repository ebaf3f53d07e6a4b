//! Laws of the games of a tournament.
ghost use Rattle.desk_standings.specs.Laws.{GamesAddUpToNothing, OrderOfFilesIsFree, TotalsAddUpToNothing, TotalsAreThoseOfGames};

/// The totals of all players are together the final points of all games that were taken.
#[tactic(auto, using(crate::proofs::TotalLemmas::totals_are_those_of_games))]
pub fn totals_are_those_of_the_games()
    ensures { TotalsAreThoseOfGames }
{}

/// The totals of all players add up to nothing, where the final points of each game do.
#[tactic(auto, using(crate::proofs::TotalLemmas::totals_add_up_to_nothing))]
pub fn totals_add_up_to_nothing()
    ensures { TotalsAddUpToNothing }
{}

/// The final points of a game that is over add up to nothing, where none of its lines was taken back, nobody has a penalty and no
/// stick was lost.
pub fn games_add_up_to_nothing()
    ensures { GamesAddUpToNothing }
{}

/// The same games in another order, as of files in another order, make the same standings.
pub fn the_order_of_files_is_free()
    ensures { OrderOfFilesIsFree }
{}
