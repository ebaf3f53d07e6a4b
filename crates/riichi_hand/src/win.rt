//! A win, and what must be true of its parts.
ghost use Rattle.std.specs.Prelude.{◌≡◌, ◌≤◌, ◌+◌, ℕ, slice_index, nat_eq, if◌then◌else◌};
ghost use Rattle.riichi_tiles.specs.Melds.{tiles};
ghost use Rattle.riichi_hand.specs.Faults.{first_fault};
ghost use Rattle.riichi_hand.specs.Win as spec;

use crate::fault::{LineCode, LineFault};
use crate::hand::is_thirteen;
use crate::rules::Rules;
use crate::switch::Switch;
use riichi_tiles::{Counts, Kind, Melds, Reds, meld_tiles};
use std::marker::Model;

/// How a hand is won.
#[derive(Clone, Copy, Debug, PartialEq, Eq)]
pub enum By {
    /// On another player's discard.
    Ron,
    /// By self-draw.
    Tsumo,
}

/// A wind, as the seat of a player or as the prevalent wind of a round.
#[derive(Clone, Copy, Debug, PartialEq, Eq)]
pub enum Wind {
    /// The seat East is the dealer.
    East,
    South,
    West,
    North,
}

/// The circumstances of a win that some yaku ask for.
#[derive(Clone, Copy, Debug, PartialEq, Eq)]
pub struct Flags {
    /// Within one turn of riichi.
    pub ippatsu: bool,
    /// On the tile drawn after a kong.
    pub rinshan: bool,
    /// On the tile that another player adds to a triplet for a kong.
    pub chankan: bool,
    /// On the last tile drawn or discarded.
    pub last: bool,
    /// On the first draw, or by ron before it, and before any call.
    pub first: bool,
}

impl Wind {
    /// The kind of the wind's tile.
    pub fn kind(self) -> Kind
        ensures { result ≡ spec.wind_kind self }
    {
        match self {
            Wind::East => Kind::at(27),
            Wind::South => Kind::at(28),
            Wind::West => Kind::at(29),
            Wind::North => Kind::at(30),
        }
    }

    /// Whether this is the seat East.
    pub fn is_dealer(self) -> bool
        ensures { result ≡ spec.is_dealer self }
    {
        matches!(self, Wind::East)
    }
}

impl Flags {
    /// None set.
    pub fn none() -> Flags
        ensures { result ≡ spec.no_flags }
    {
        Flags {
            ippatsu: false,
            rinshan: false,
            chankan: false,
            last: false,
            first: false,
        }
    }
}

/// What a win is made of: any values of these types. [`WinRecord::new`] tests them.
#[derive(Clone, Copy, Debug, PartialEq, Eq)]
pub struct WinParts {
    pub rules: Rules,
    /// The concealed tiles before the winning tile.
    pub concealed: Counts,
    pub melds: Melds,
    /// The kind of the winning tile.
    pub winning: Kind,
    pub by: By,
    /// The winner's wind.
    pub seat: Wind,
    /// The prevalent wind.
    pub round: Wind,
    /// 0, 1, or 2 for double riichi.
    pub riichi: u8,
    pub flags: Flags,
    /// The dora indicators, at most five.
    pub dora: Counts,
    /// The indicators under them, at most five, and none without riichi.
    pub ura: Counts,
    /// The counters on the table, 0 to 99, each worth 300 points.
    pub counters: u8,
    /// The riichi sticks on the table, 0 to 99, each worth 1000 points.
    pub sticks: u8,
    /// The red fives among hand, melds and winning tile.
    pub reds: Reds,
}

/// A win whose parts have no fault. A contract sees it as its parts.
#[derive(Clone, Copy, Debug, PartialEq, Eq)]
pub struct WinRecord {
    parts: WinParts,
}

impl Model for WinRecord {
    ghost use Rattle.std.specs.Prelude.{◌≡◌, None};
    ghost use Rattle.riichi_hand.specs.declared.win.WinParts.{WinParts};
    ghost use Rattle.riichi_hand.specs.Win.{IsWinRecord};

    ghost Value = { WinParts };

    ghost view = { λ w. w.parts };

    ghost invariant = { λ w. IsWinRecord w.parts };

    ghost inverse = { λ p. record { parts = p } };
}

impl WinRecord {
    /// The record of the parts, or the first of their faults: H4 for a number out of range, then H8 to H15, and with red fives
    /// H16. Under rules without red fives none is kept.
    #[tactic(auto, unfolding(crate::specs::Win::win_of))]
    pub fn new(parts: WinParts) -> Result<WinRecord, LineFault>
        ensures { result ≡ spec.win_of parts }
    {
        if let Some(fault) = fault_of(&parts) {
            return Err(fault);
        }
        if parts.rules.has(Switch::RedFives) {
            Ok(WinRecord { parts })
        } else {
            Ok(WinRecord {
                parts: without_reds(parts),
            })
        }
    }

    /// All that the win was made of, without the red fives under rules that have none.
    pub fn parts(&self) -> WinParts
        ensures value { result ≡ self.now }
        ensures win { spec.IsWinRecord self.now }
    {
        self.parts
    }

    /// The copies of a kind among hand, melds and the winning tile.
    pub fn copies_won(&self, kind: Kind) -> u8
        ensures value { result ≡ spec.copies_won self.now kind }
        ensures most { result ≤ 21 }
    {
        copies_won(&self.parts, kind)
    }

    /// Which rules are on.
    #[inline(always)]
    pub fn rules(&self) -> Rules
        ensures { result ≡ self.now.rules }
    {
        self.parts.rules
    }

    /// The concealed tiles before the winning tile.
    pub fn concealed(&self) -> Counts
        ensures { result ≡ self.now.concealed }
    {
        self.parts.concealed
    }

    /// The melds, in the order in which they were given.
    pub fn melds(&self) -> Melds
        ensures { result ≡ self.now.melds }
    {
        self.parts.melds
    }

    /// The kind of the winning tile.
    pub fn winning(&self) -> Kind
        ensures { result ≡ self.now.winning }
    {
        self.parts.winning
    }

    /// By ron or by tsumo.
    pub fn by(&self) -> By
        ensures { result ≡ self.now.by }
    {
        self.parts.by
    }

    /// The winner's wind; East is the dealer.
    pub fn seat(&self) -> Wind
        ensures { result ≡ self.now.seat }
    {
        self.parts.seat
    }

    /// The prevalent wind.
    pub fn round(&self) -> Wind
        ensures { result ≡ self.now.round }
    {
        self.parts.round
    }

    /// 0, 1, or 2 for double riichi.
    pub fn riichi(&self) -> u8
        ensures { result ≡ self.now.riichi }
    {
        self.parts.riichi
    }

    /// The circumstances of the win.
    pub fn flags(&self) -> Flags
        ensures { result ≡ self.now.flags }
    {
        self.parts.flags
    }

    /// The dora indicators, at most five.
    pub fn dora(&self) -> Counts
        ensures { result ≡ self.now.dora }
    {
        self.parts.dora
    }

    /// The indicators under them, at most five, and none without riichi.
    pub fn ura(&self) -> Counts
        ensures { result ≡ self.now.ura }
    {
        self.parts.ura
    }

    /// The counters on the table, 0 to 99.
    pub fn counters(&self) -> u8
        ensures { result ≡ self.now.counters }
    {
        self.parts.counters
    }

    /// The riichi sticks on the table, 0 to 99.
    pub fn sticks(&self) -> u8
        ensures { result ≡ self.now.sticks }
    {
        self.parts.sticks
    }

    /// The red fives among hand, melds and winning tile; none under rules that have none.
    pub fn reds(&self) -> Reds
        ensures { result ≡ self.now.reds }
    {
        self.parts.reds
    }
}

/// The first fault of the parts, if they have one.
#[inline(never)]
fn fault_of(parts: &WinParts) -> Option<LineFault>
    ensures { result ≡ first_fault (spec.win_faults parts.now) }
{
    if is_out_of_range(parts) {
        return Some(LineFault::Line(LineCode::H4));
    }
    if has_wrong_size(parts) {
        return Some(LineFault::Line(LineCode::H8));
    }
    if has_five_in(parts) {
        return Some(LineFault::Line(LineCode::H9));
    }
    if parts.riichi != 0 && !parts.melds.concealed() {
        return Some(LineFault::Line(LineCode::H10));
    }
    if parts.riichi == 0 && (parts.flags.ippatsu || parts.ura.total() > 0) {
        return Some(LineFault::Line(LineCode::H11));
    }
    if parts.flags.rinshan && (is_ron(parts.by) || !parts.melds.has_kong()) {
        return Some(LineFault::Line(LineCode::H12));
    }
    if parts.flags.chankan && !is_ron(parts.by) {
        return Some(LineFault::Line(LineCode::H13));
    }
    if are_exclusive(parts.flags) {
        return Some(LineFault::Line(LineCode::H14));
    }
    if has_wrong_first(parts) {
        return Some(LineFault::Line(LineCode::H15));
    }
    if parts.rules.has(Switch::RedFives) && has_too_many_reds(parts) {
        return Some(LineFault::Line(LineCode::H16));
    }
    None
}

/// Riichi over 2, or counters or sticks over 99.
fn is_out_of_range(parts: &WinParts) -> bool
    ensures { result ≡ spec.is_out_of_range parts.now }
{
    parts.riichi > 2 || parts.counters > 99 || parts.sticks > 99
}

/// Not thirteen tiles before the winning one, or over five indicators of a sort.
fn has_wrong_size(parts: &WinParts) -> bool
    ensures { result ≡ spec.has_wrong_size parts.now }
{
    !is_thirteen(&parts.concealed, &parts.melds) || parts.dora.total() > 5 || parts.ura.total() > 5
}

/// Whether a win is by ron.
pub fn is_ron(by: By) -> bool
    ensures { result ≡ spec.is_ron by }
{
    match by {
        By::Ron => true,
        By::Tsumo => false,
    }
}

/// Over hand, melds, the winning tile and the indicators.
#[tactic(auto, using(crate::proofs::CopyLemmas::any_kind_more))]
fn has_five_in(parts: &WinParts) -> bool
    ensures { result ≡ spec.has_five_in parts.now }
{
    let called = called_tiles(parts);
    let mut found = false;
    for number in 0..34 {
        found = found | (copies_of(parts, &called, Kind::at(number)) > 4);
    }
    found
}

/// How many tiles of each kind the melds and the winning tile have together, kind by kind.
fn called_tiles(parts: &WinParts) -> [u8; 34]
    ensures value { (kind : ℕ) → slice_index result kind
        ≡ tiles parts.now.melds kind + (if nat_eq parts.now.winning kind then 1 else 0) }
    ensures most { (kind : ℕ) → slice_index result kind ≤ 17 }
{
    let mut called = meld_tiles(&parts.melds);
    called[parts.winning.index()] += 1;
    called
}

/// The copies of a kind, with those among the indicators, where the tiles of the melds and the winning tile are counted
/// kind by kind.
fn copies_of(parts: &WinParts, called: &[u8; 34], kind: Kind) -> u8
    requires value { (kind : ℕ) → slice_index called.now kind
        ≡ tiles parts.now.melds kind + (if nat_eq parts.now.winning kind then 1 else 0) }
    requires most { (kind : ℕ) → slice_index called.now kind ≤ 17 }
    ensures { result ≡ spec.copies_with_indicators parts.now kind }
{
    let held = parts.concealed.get(kind) + called[kind.index()];
    held + parts.dora.get(kind) + parts.ura.get(kind)
}

/// The copies of a kind among hand, melds and the winning tile.
fn copies_won(parts: &WinParts, kind: Kind) -> u8
    ensures value { result ≡ spec.copies_won parts.now kind }
    ensures most { result ≤ 21 }
{
    let one = if parts.winning == kind { 1 } else { 0 };
    parts.concealed.get(kind) + parts.melds.tiles(kind) + one
}

/// Rinshan with last or ippatsu, or chankan with last.
fn are_exclusive(flags: Flags) -> bool
    ensures { result ≡ spec.are_exclusive flags }
{
    (flags.rinshan && (flags.last || flags.ippatsu)) || (flags.chankan && flags.last)
}

/// A win in the first turn has no meld, riichi or other flag, and is by tsumo, or where the rules have the blessing of man by
/// ron of a seat that isn't the dealer's.
fn has_wrong_first(parts: &WinParts) -> bool
    ensures { result ≡ spec.has_wrong_first parts.now }
{
    parts.flags.first
        && (parts.melds.count() > 0
            || (is_ron(parts.by) && !may_be_blessing_of_man(parts))
            || parts.riichi != 0
            || has_other_flag(parts.flags))
}

fn may_be_blessing_of_man(parts: &WinParts) -> bool
    ensures { result ≡ spec.may_be_blessing_of_man parts.now }
{
    parts.rules.has(Switch::BlessingOfMan) && !parts.seat.is_dealer()
}

fn has_other_flag(flags: Flags) -> bool
    ensures { result ≡ spec.has_other_flag flags }
{
    flags.ippatsu || flags.rinshan || flags.chankan || flags.last
}

/// More red fives of a suit than fives.
fn has_too_many_reds(parts: &WinParts) -> bool
    ensures { result ≡ spec.has_too_many_reds parts.now }
{
    let characters = parts.reds.get(0) > copies_won(parts, Kind::at(4));
    let circles = parts.reds.get(1) > copies_won(parts, Kind::at(13));
    let bamboos = parts.reds.get(2) > copies_won(parts, Kind::at(22));
    characters || circles || bamboos
}

fn without_reds(parts: WinParts) -> WinParts
    ensures { result ≡ spec.without_reds parts }
{
    WinParts {
        reds: Reds::none(),
        ..parts
    }
}
