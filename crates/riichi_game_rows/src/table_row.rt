//! The rules of a table as a row.
ghost use Rattle.std.specs.Prelude.{◌≡◌};
ghost use Rattle.riichi_game_rows.specs.TableRows as spec;
ghost use Rattle.riichi_table.specs.Players.{one_where as one};

use riichi_hand::Rules;
use riichi_table::{
    ByPlace, ChomboCost, CountersTo, LastRound, LeftSticks, Renchan, SeveralWinners, SticksTo,
    TableRules, Ties,
};

/// The points that stand for none.
const NO_POINTS: u32 = u32::MAX;

/// The rules of a table: 48 bytes. All points are points, not thousands; a flag is set where its byte isn't 0.
#[repr(C)]
#[derive(Clone, Copy, Debug, PartialEq, Eq)]
pub struct TableRow {
    /// How hands are valued: the number of the rules, which this row doesn't know.
    pub rules: u32,
    /// The points of each player at the start.
    pub start: u32,
    /// The points that count as nothing at the end.
    pub returns: u32,
    /// The points for which no round more is played; all bits set where there is none anyway.
    pub extra: u32,
    /// What a chombo costs off the final points; all bits set for a mangan that is paid at once.
    pub chombo: u32,
    /// The bonus of each place, the first place first.
    pub uma: [i32; 4],
    /// 0 where equal points share, 1 where the earlier first seat is ahead.
    pub ties: u8,
    /// Who wins on one discard: 0 all, 1 the nearest, 2 both of two.
    pub ron: u8,
    /// To whom of several the counters are paid: 0 the nearest, 1 each.
    pub counters: u8,
    /// Who of several takes the sticks: 0 the nearest, 1 each the own bet and the nearest the rest.
    pub sticks: u8,
    /// Whether there is responsibility for a yakuman (pao).
    pub liable: u8,
    /// Whether a draw may have a nagashi mangan.
    pub nagashi: u8,
    /// When the dealer stays at a draw: 0 where ready, 1 never.
    pub renchan: u8,
    /// The last round: 0 South, 1 East.
    pub length: u8,
    /// Whether the game is over as soon as somebody has less than 0 points.
    pub bust: u8,
    /// Whether it is over where the last dealer stays and is ahead.
    pub stop: u8,
    /// Who has the sticks that lie at the end: 0 the first, 1 nobody.
    pub left: u8,
    /// Always 0.
    pub zero: u8,
}

impl TableRow {
    /// The rules, where hands are valued by these; none where a byte says nothing.
    pub fn table(&self, hand: Rules) -> Option<TableRules>
        ensures { result ≡ spec.table_in hand self.now }
    {
        if self.is_table() {
            Some(self.table_of(hand))
        } else {
            None
        }
    }

    /// Whether each choice is one that there is.
    fn is_table(&self) -> bool
        ensures { result ≡ spec.is_table self.now }
    {
        self.ties < 2
            && self.ron < 3
            && self.counters < 2
            && self.sticks < 2
            && self.renchan < 2
            && self.length < 2
            && self.left < 2
            && self.zero == 0
    }

    fn table_of(&self, hand: Rules) -> TableRules
        ensures { result ≡ spec.row_table hand self.now }
    {
        TableRules {
            hand,
            start: self.start,
            returns: self.returns,
            uma: uma_in(&self.uma),
            ties: ties_numbered(self.ties),
            ron: ron_numbered(self.ron),
            counters: counters_numbered(self.counters),
            sticks: sticks_numbered(self.sticks),
            liable: self.liable != 0,
            nagashi: self.nagashi != 0,
            renchan: renchan_numbered(self.renchan),
            length: length_numbered(self.length),
            extra: extra_numbered(self.extra),
            bust: self.bust != 0,
            stop: self.stop != 0,
            left: left_numbered(self.left),
            chombo: chombo_numbered(self.chombo),
        }
    }

    /// The row of rules, whose rules for hands have this number.
    pub fn of(number: u32, rules: &TableRules) -> TableRow
        ensures { result ≡ spec.table_row number rules.now }
    {
        let uma = &rules.uma;
        TableRow {
            rules: number,
            start: rules.start,
            returns: rules.returns,
            extra: rules.extra.unwrap_or(NO_POINTS),
            chombo: chombo_points(rules.chombo),
            uma: [uma.first, uma.second, uma.third, uma.fourth],
            ties: ties_number(rules.ties),
            ron: ron_number(rules.ron),
            counters: counters_number(rules.counters),
            sticks: sticks_number(rules.sticks),
            liable: one_where(rules.liable),
            nagashi: one_where(rules.nagashi),
            renchan: renchan_number(rules.renchan),
            length: length_number(rules.length),
            bust: one_where(rules.bust),
            stop: one_where(rules.stop),
            left: left_number(rules.left),
            zero: 0,
        }
    }
}

fn one_where(holds: bool) -> u8
    ensures { result ≡ one holds }
{
    if holds { 1 } else { 0 }
}

fn uma_in(four: &[i32; 4]) -> ByPlace<i32>
    ensures { result ≡ spec.uma_in four.now }
{
    ByPlace {
        first: four[0],
        second: four[1],
        third: four[2],
        fourth: four[3],
    }
}

fn ties_numbered(number: u8) -> Ties
    ensures { result ≡ spec.ties_numbered number }
{
    match number {
        0 => Ties::Share,
        _ => Ties::Seat,
    }
}

fn ron_numbered(number: u8) -> SeveralWinners
    ensures { result ≡ spec.ron_numbered number }
{
    match number {
        0 => SeveralWinners::All,
        1 => SeveralWinners::Nearest,
        _ => SeveralWinners::Two,
    }
}

fn counters_numbered(number: u8) -> CountersTo
    ensures { result ≡ spec.counters_numbered number }
{
    match number {
        0 => CountersTo::Nearest,
        _ => CountersTo::Each,
    }
}

fn sticks_numbered(number: u8) -> SticksTo
    ensures { result ≡ spec.sticks_numbered number }
{
    match number {
        0 => SticksTo::Nearest,
        _ => SticksTo::Own,
    }
}

fn renchan_numbered(number: u8) -> Renchan
    ensures { result ≡ spec.renchan_numbered number }
{
    match number {
        0 => Renchan::Ready,
        _ => Renchan::Win,
    }
}

fn length_numbered(number: u8) -> LastRound
    ensures { result ≡ spec.length_numbered number }
{
    match number {
        0 => LastRound::South,
        _ => LastRound::East,
    }
}

fn left_numbered(number: u8) -> LeftSticks
    ensures { result ≡ spec.left_numbered number }
{
    match number {
        0 => LeftSticks::First,
        _ => LeftSticks::Lost,
    }
}

fn extra_numbered(points: u32) -> Option<u32>
    ensures { result ≡ spec.extra_numbered points }
{
    if points == NO_POINTS {
        None
    } else {
        Some(points)
    }
}

fn chombo_numbered(points: u32) -> ChomboCost
    ensures { result ≡ spec.chombo_numbered points }
{
    if points == NO_POINTS {
        ChomboCost::Mangan
    } else {
        ChomboCost::Points(points)
    }
}

fn chombo_points(cost: ChomboCost) -> u32
    ensures { result ≡ spec.chombo_points cost }
{
    match cost {
        ChomboCost::Mangan => NO_POINTS,
        ChomboCost::Points(points) => points,
    }
}

fn ties_number(ties: Ties) -> u8
    ensures { result ≡ spec.ties_number ties }
{
    ties as u8
}

fn ron_number(ron: SeveralWinners) -> u8
    ensures { result ≡ spec.ron_number ron }
{
    ron as u8
}

fn counters_number(counters: CountersTo) -> u8
    ensures { result ≡ spec.counters_number counters }
{
    counters as u8
}

fn sticks_number(sticks: SticksTo) -> u8
    ensures { result ≡ spec.sticks_number sticks }
{
    sticks as u8
}

fn renchan_number(renchan: Renchan) -> u8
    ensures { result ≡ spec.renchan_number renchan }
{
    renchan as u8
}

fn length_number(length: LastRound) -> u8
    ensures { result ≡ spec.length_number length }
{
    length as u8
}

fn left_number(left: LeftSticks) -> u8
    ensures { result ≡ spec.left_number left }
{
    left as u8
}
