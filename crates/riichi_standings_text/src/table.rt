//! Standings as a table.
use crate::columns::Columns;
use crate::numbers::{digits_of, signed_digits};
use crate::text::name_of;
use csv::{Error, Writer};
use riichi_standings::{SeatResult, Standing, Tournament, results_of};
use std::alloc::{AllocError, Global};

/// A row of the names of the columns, and one for each player, by place, with commas between the values: `place`, `name`, `total`,
/// `games`, `firsts`, `best`, and the number of each session, with its final points, or nothing. Points are points. Games that say no
/// session are the player's first, second and so on.
pub fn standings_table(
    alloc: Global,
    tournament: &Tournament,
    list: &[Standing],
) -> Result<Vec<u8>, AllocError> {
    let columns = Columns::of(tournament, list);
    let mut writer = Writer::from_writer(Vec::new(alloc));
    if put_heads(&mut writer, &columns).is_err() {
        return Err(AllocError);
    }
    for standing in list {
        let own = results_of(alloc, standing.player, tournament.results())?;
        let name = name_of(tournament, standing);
        if put_row(&mut writer, name, standing, &columns, own.as_slice()).is_err() {
            return Err(AllocError);
        }
    }
    match writer.into_inner() {
        Ok(bytes) => Ok(bytes),
        Err(_) => Err(AllocError),
    }
}

/// The row of the names of the columns.
fn put_heads(writer: &mut Writer<Vec<u8>>, columns: &Columns) -> Result<(), Error> {
    for head in ["place", "name", "total", "games", "firsts", "best"] {
        writer.write_field(head.as_bytes())?;
    }
    for column in u64::from(columns.first)..columns.end() {
        put_count(writer, column)?;
    }
    writer.end_record()
}

/// The row of a player.
fn put_row(
    writer: &mut Writer<Vec<u8>>,
    name: &str,
    standing: &Standing,
    columns: &Columns,
    own: &[SeatResult],
) -> Result<(), Error> {
    put_count(writer, standing.place as u64)?;
    writer.write_field(name.as_bytes())?;
    put_points(writer, standing.tally.total)?;
    put_count(writer, standing.tally.games as u64)?;
    put_count(writer, standing.tally.firsts as u64)?;
    put_points(writer, i64::from(standing.tally.best))?;
    for column in u64::from(columns.first)..columns.end() {
        match columns.points(column as u32, own) {
            None => writer.write_field(b"")?,
            Some(points) => put_points(writer, i64::from(points))?,
        }
    }
    writer.end_record()
}

fn put_count(writer: &mut Writer<Vec<u8>>, count: u64) -> Result<(), Error> {
    let digits = digits_of(count);
    writer.write_field(digits.as_str().as_bytes())
}

fn put_points(writer: &mut Writer<Vec<u8>>, points: i64) -> Result<(), Error> {
    let digits = signed_digits(points);
    writer.write_field(digits.as_str().as_bytes())
}
