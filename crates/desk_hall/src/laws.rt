//! Laws over whole histories of messages, whatever comes, doubled, late or strange.
ghost use Rattle.desk_hall.specs.Laws.{AgainAsTheFirst, DealsAreTheTaken, DoubledIsAgain, FrontsStay, GoneAreTheWithdrawn, OthersChangeNothing, TablesAreApart, TakenFromItsFront, TextFollows};

use crate::position::Position;

/// The deals of a book are the lines that were taken, each once, in the order of their numbers, which have no hole; and nothing but what
/// is taken or withdrawn changes a book.
pub fn a_book_is_what_was_taken<P: Position>()
    ensures taken { DealsAreTheTaken P.reads P.same }
    ensures others { OthersChangeNothing P.reads P.same }
{}

/// A deal is withdrawn where a message was answered so, and stays withdrawn.
pub fn what_is_withdrawn_stays_withdrawn<P: Position>()
    ensures { GoneAreTheWithdrawn P.reads P.same }
{}

/// Each line is answered behind the live deals before it, which stay as long as it is live; so it is answered
/// again as the first time, and a message that comes twice is.
pub fn an_answer_is_that_of_its_front<P: Position>()
    ensures taken { TakenFromItsFront P.reads P.same }
    ensures fronts { FrontsStay P.reads P.same }
    ensures again { AgainAsTheFirst P.reads P.same }
    ensures doubled { DoubledIsAgain P.reads P.same }
{}

/// What comes to one table changes no other table's book.
pub fn tables_are_apart<P: Position>()
    ensures { TablesAreApart P.reads P.same }
{}

/// The text of the next book is that of the book before, with what was taken or withdrawn put in at its place.
pub fn a_text_follows_its_book<P: Position>()
    ensures { TextFollows P.reads P.same }
{}
