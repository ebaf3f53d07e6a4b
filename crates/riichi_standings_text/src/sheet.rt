//! Standings in columns.
ghost use Rattle.std.specs.Prelude.{◌≡◌, ◌<◌, ◌-◌, ◌++◌, IfOk, OnOk, flat_map, map, string_bytes};
ghost use Rattle.riichi_standings_text.specs.Columns.{column_numbers};
ghost use Rattle.riichi_standings_text.specs.Sheets as spec;

use crate::cells::{push_cell, push_count_cell, push_name, push_points_cell, push_spaces};
use crate::columns::Columns;
use crate::text::name_of;
use riichi_standings::{SeatResult, Standing, Tournament, results_of};
use std::alloc::{AllocError, Global};
use unicode_width::UnicodeWidthStr;

/// The columns of a line.
const LINE: usize = 80;

/// The columns of the place.
const PLACE: usize = 5;

/// The columns between the place and the name.
const GAP: usize = 2;

/// The columns of the total.
const TOTAL: usize = 10;

/// The columns of the number of games.
const GAMES: usize = 7;

/// The columns of the final points of a session.
const SESSION: usize = 8;

/// The columns before those of the sessions, but for the name.
const FRONT: usize = PLACE + GAP + TOTAL + GAMES;

/// A sheet of standings.
#[derive(Drop)]
struct Sheet {
    alloc: Global,
    /// The columns of a name.
    name: usize,
    columns: Columns,
}

/// Columns to be read by people, of 80 in a line: the place, the name, the total, how many games, and the final points of each
/// session, or a dash. Names are filled up by the columns that they take on a terminal. Sessions that have no room stand in further
/// lines below. The first lines name the columns. Games that say no session are the player's first, second and so on.
pub fn standings_sheet(
    alloc: Global,
    tournament: &Tournament,
    list: &[Standing],
) -> Result<String, AllocError>
    ensures { IfOk result (λ text. string_bytes text
        ≡ spec.standings_sheet tournament.now list.now) }
{
    let sheet = Sheet {
        alloc,
        name: widest(tournament.names()),
        columns: Columns::of(tournament, list),
    };
    let mut text = String::new(alloc);
    sheet.push_heads(&mut text)?;
    sheet.push_standings(&mut text, tournament, list)?;
    Ok(text)
}

/// The columns of the widest name, or of the word above the names.
#[tactic(auto, using(crate::proofs::SheetLemmas::fold_made))]
fn widest(names: &[String]) -> usize
    ensures { result ≡ spec.widest_name (map string_bytes names.now) }
{
    names
        .iter()
        .fold("name".len(), |most, name| most.max(name.as_str().width()))
}

impl Sheet {
    /// The names of the columns.
    fn push_heads(&self, text: &mut String) -> Result<(), AllocError>
        ensures { OnOk result (string_bytes text.new
            ≡ string_bytes text.old ++ spec.heads_text self.now.name self.now.columns) }
    {
        self.push_front_heads(text)?;
        self.push_column_heads(text)?;
        text.push_str("\n")
    }

    fn push_front_heads(&self, text: &mut String) -> Result<(), AllocError>
        ensures { OnOk result (string_bytes text.new
            ≡ string_bytes text.old ++ spec.front_heads self.now.name) }
    {
        text.push_str("place")?;
        push_spaces(text, GAP)?;
        push_name(text, "name", self.name)?;
        push_cell(text, "total", TOTAL)?;
        push_cell(text, "games", GAMES)
    }

    fn push_column_heads(&self, text: &mut String) -> Result<(), AllocError>
        ensures { OnOk result (string_bytes text.new ≡ string_bytes text.old
            ++ flat_map (spec.column_head self.now.name self.now.columns) (column_numbers self.now.columns)) }
    {
        for column in u64::from(self.columns.first)..self.columns.end() {
            self.push_break(text, column)?;
            push_count_cell(text, column, SESSION)?;
        }
        Ok(())
    }

    /// The rows of each player.
    fn push_standings(
        &self,
        text: &mut String,
        tournament: &Tournament,
        list: &[Standing],
    ) -> Result<(), AllocError>
        ensures { OnOk result (string_bytes text.new ≡ string_bytes text.old
            ++ flat_map (spec.standing_rows self.now.name self.now.columns tournament.now) list.now) }
    {
        for standing in list {
            self.push_rows(text, tournament, standing)?;
        }
        Ok(())
    }

    /// The rows of a player.
    #[tactic(auto, unfolding(crate::specs::Sheets::standing_rows))]
    fn push_rows(
        &self,
        text: &mut String,
        tournament: &Tournament,
        standing: &Standing,
    ) -> Result<(), AllocError>
        ensures { OnOk result (string_bytes text.new ≡ string_bytes text.old
            ++ spec.standing_rows self.now.name self.now.columns tournament.now standing.now) }
    {
        self.push_front(text, name_of(tournament, standing), standing)?;
        let own = results_of(self.alloc, standing.player, tournament.results())?;
        self.push_sessions(text, own.as_slice())
    }

    /// The place, the name, the total, and how many games.
    fn push_front(
        &self,
        text: &mut String,
        name: &str,
        standing: &Standing,
    ) -> Result<(), AllocError>
        ensures { OnOk result (string_bytes text.new
            ≡ string_bytes text.old ++ spec.front_cells self.now.name name.now standing.now) }
    {
        push_count_cell(text, standing.place as u64, PLACE)?;
        push_spaces(text, GAP)?;
        push_name(text, name, self.name)?;
        push_points_cell(self.alloc, text, standing.tally.total, TOTAL)?;
        push_count_cell(text, standing.tally.games as u64, GAMES)
    }

    /// The final points of each column, and the end of the line.
    fn push_sessions(&self, text: &mut String, own: &[SeatResult]) -> Result<(), AllocError>
        ensures { OnOk result (string_bytes text.new ≡ string_bytes text.old
            ++ spec.session_cells self.now.name self.now.columns own.now) }
    {
        self.push_columns(text, own)?;
        text.push_str("\n")
    }

    fn push_columns(&self, text: &mut String, own: &[SeatResult]) -> Result<(), AllocError>
        ensures { OnOk result (string_bytes text.new ≡ string_bytes text.old
            ++ flat_map (spec.column_cell self.now.name self.now.columns own.now)
            (column_numbers self.now.columns)) }
    {
        for column in u64::from(self.columns.first)..self.columns.end() {
            self.push_break(text, column)?;
            self.push_session(text, self.columns.points(column as u32, own))?;
        }
        Ok(())
    }

    /// The final points of a session, or a dash.
    fn push_session(&self, text: &mut String, points: Option<i32>) -> Result<(), AllocError>
        ensures { OnOk result (string_bytes text.new
            ≡ string_bytes text.old ++ spec.session_cell points) }
    {
        match points {
            None => push_cell(text, "-", SESSION),
            Some(points) => push_points_cell(self.alloc, text, i64::from(points), SESSION),
        }
    }

    /// A new line, where the column has no room in that before it.
    fn push_break(&self, text: &mut String, column: u64) -> Result<(), AllocError>
        ensures { OnOk result (string_bytes text.new ≡ string_bytes text.old
            ++ spec.break_before self.now.name self.now.columns column) }
    {
        let before = column.saturating_sub(u64::from(self.columns.first));
        if before == 0 || before % self.in_a_line() != 0 {
            return Ok(());
        }
        text.push_str("\n")?;
        push_spaces(text, FRONT)?;
        push_spaces(text, self.name)
    }

    /// How many sessions have room in a line.
    fn in_a_line(&self) -> u64
        ensures value { result ≡ spec.sessions_in_a_line self.now.name }
        ensures some { 0 < result }
    {
        (LINE.saturating_sub(FRONT.saturating_add(self.name)) / SESSION).max(1) as u64
    }
}
