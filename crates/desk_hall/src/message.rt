//! A message to one of many tables.
ghost use Rattle.std.specs.List.{slice_get};
ghost use Rattle.desk_hall.specs.Messages as spec;

use crate::judged::{Judged, hand_in, withdraw};
use crate::position::Position;

/// What a message asks.
#[derive(Clone, Copy)]
pub enum Asked<'a> {
    /// To take this line as the deal of the number.
    Line(&'a [u8]),
    /// To withdraw the deal of the number.
    Withdrawal,
}

/// A message to a table. Who may send it is asked before.
#[derive(Clone, Copy)]
pub struct Message<'a> {
    /// The table, counted from 0.
    pub table: usize,
    /// The number of the deal, counted from 1.
    pub number: u64,
    pub asked: Asked<'a>,
}

/// A table's book.
#[derive(Clone, Copy)]
pub struct Table<'t, P> {
    /// Its game before the first deal.
    pub start: P,
    /// The text of its deals.
    pub deals: &'t [u8],
}

/// What a message to one of many tables comes to.
#[derive(Clone, Copy)]
pub enum Reply<P> {
    /// There is no such table.
    NoTable,
    /// The text of the table's deals is no book's.
    NoBook,
    /// What it comes to at that table.
    Judged(Judged<P>),
}

/// What a message comes to, by the book of its table alone.
pub fn judge<P: Position>(tables: &[Table<'_, P>], message: &Message<'_>) -> Reply<P>
    ensures { spec.IsHallReply P.reads P.same (slice_get tables.now message.now.table)
        message.now.number (spec.request_in message.now.asked) result }
{
    let Some(table) = tables.get(message.table) else {
        return Reply::NoTable;
    };
    let judged = match message.asked {
        Asked::Line(line) => hand_in(&table.start, table.deals, message.number, line),
        Asked::Withdrawal => withdraw(&table.start, table.deals, message.number),
    };
    match judged {
        None => Reply::NoBook,
        Some(judged) => Reply::Judged(judged),
    }
}
