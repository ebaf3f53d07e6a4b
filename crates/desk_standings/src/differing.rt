//! By which rule two tables differ.
ghost use Rattle.std.specs.Prelude.{◌≡◌, false, true, MatchOption};
ghost use Rattle.desk_standings.specs.Agreeing.{AgreeInPoints, AgreeInDeals};

use riichi_table::{ByPlace, TableRules};

/// A rule of a table.
#[derive(Clone, Copy, Debug, PartialEq, Eq)]
pub enum TableRule {
    Hand,
    Start,
    Return,
    Uma,
    Ties,
    Left,
    Chombo,
    Extra,
    Ron,
    Counters,
    Sticks,
    Liable,
    Nagashi,
    Renchan,
    Length,
    Bust,
    Stop,
}

impl TableRule {
    /// The word that sets it in a line `game`.
    pub fn word(self) -> &'static str {
        match self {
            TableRule::Hand => "rules",
            TableRule::Start => "start",
            TableRule::Return => "return",
            TableRule::Uma => "uma",
            TableRule::Ties => "ties",
            TableRule::Left => "left",
            TableRule::Chombo => "chombo",
            TableRule::Extra => "extra",
            TableRule::Ron => "ron",
            TableRule::Counters => "counters",
            TableRule::Sticks => "sticks",
            TableRule::Liable => "liable",
            TableRule::Nagashi => "nagashi",
            TableRule::Renchan => "renchan",
            TableRule::Length => "length",
            TableRule::Bust => "bust",
            TableRule::Stop => "stop",
        }
    }
}

/// The first rule in which two tables differ.
pub(crate) fn differing(one: &TableRules, other: &TableRules) -> Option<TableRule>
    ensures { MatchOption result (one.now ≡ other.now) (λ rule. one.now ≡ other.now → ⊥) }
{
    match differing_points(one, other) {
        None => differing_deals(one, other),
        Some(rule) => Some(rule),
    }
}

/// Of the rules for hands, and those by which final points are counted.
fn differing_points(one: &TableRules, other: &TableRules) -> Option<TableRule>
    ensures { MatchOption result (AgreeInPoints one.now other.now)
        (λ rule. one.now ≡ other.now → ⊥) }
{
    if one.hand != other.hand {
        Some(TableRule::Hand)
    } else if one.start != other.start {
        Some(TableRule::Start)
    } else if one.returns != other.returns {
        Some(TableRule::Return)
    } else if !are_equal(&one.uma, &other.uma) {
        Some(TableRule::Uma)
    } else if one.ties != other.ties {
        Some(TableRule::Ties)
    } else if one.left != other.left {
        Some(TableRule::Left)
    } else if one.chombo != other.chombo {
        Some(TableRule::Chombo)
    } else if one.extra != other.extra {
        Some(TableRule::Extra)
    } else {
        None
    }
}

/// Of the rules by which deals are settled.
fn differing_deals(one: &TableRules, other: &TableRules) -> Option<TableRule>
    ensures { MatchOption result (AgreeInDeals one.now other.now)
        (λ rule. one.now ≡ other.now → ⊥) }
{
    if one.ron != other.ron {
        Some(TableRule::Ron)
    } else if one.counters != other.counters {
        Some(TableRule::Counters)
    } else if one.sticks != other.sticks {
        Some(TableRule::Sticks)
    } else if one.liable != other.liable {
        Some(TableRule::Liable)
    } else if one.nagashi != other.nagashi {
        Some(TableRule::Nagashi)
    } else if one.renchan != other.renchan {
        Some(TableRule::Renchan)
    } else if one.length != other.length {
        Some(TableRule::Length)
    } else if one.bust != other.bust {
        Some(TableRule::Bust)
    } else if one.stop != other.stop {
        Some(TableRule::Stop)
    } else {
        None
    }
}

/// Whether two tables have the same bonus for each place.
fn are_equal(one: &ByPlace<i32>, other: &ByPlace<i32>) -> bool
    ensures same { result ≡ true → one.now ≡ other.now }
    ensures other { result ≡ false → one.now ≡ other.now → ⊥ }
{
    one.first == other.first
        && one.second == other.second
        && one.third == other.third
        && one.fourth == other.fourth
}
