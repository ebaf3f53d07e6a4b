//! The values of the words of a table.
ghost use Rattle.std.specs.Prelude.{◌≡◌, Some, None, MatchOption, option_map};
ghost use Rattle.riichi_game_text.specs.Numbers.{number_in, at_least_one};
ghost use Rattle.riichi_game_text.specs.Settings as spec;

use crate::numbers::{read_from_one, read_number, read_thousands};
use crate::setting::Setting;
use riichi_table::{
    ByPlace, ChomboCost, CountersTo, LastRound, LeftSticks, Renchan, SeveralWinners, SticksTo,
    TableRules, Ties,
};
use riichi_tiles::split_at_mark;

/// The rules that a word says at once.
pub(crate) fn read_preset(value: &[u8]) -> Option<TableRules>
    ensures { result ≡ spec.preset_named value.now }
{
    match value {
        b"club" => Some(TableRules::club()),
        b"league" => Some(TableRules::league()),
        b"online" => Some(TableRules::online()),
        _ => None,
    }
}

/// Changes what a word says. None where its value can't be.
pub(crate) fn change(rules: &mut TableRules, setting: Setting, value: &[u8]) -> Option<()>
    ensures { let changed = spec.changed setting value.now rules.old in
        MatchOption result (changed ≡ None) (λ _. changed ≡ Some rules.new) }
{
    match setting {
        Setting::Table => {}
        Setting::Rules => {}
        Setting::Start => rules.start = read_number(value)?,
        Setting::Return => rules.returns = read_number(value)?,
        Setting::Uma => rules.uma = read_uma(value)?,
        Setting::Ties => rules.ties = read_ties(value)?,
        Setting::Ron => rules.ron = read_ron(value)?,
        Setting::Counters => rules.counters = read_counters(value)?,
        Setting::Sticks => rules.sticks = read_sticks(value)?,
        Setting::Liable => rules.liable = on_or_off(value)?,
        Setting::Nagashi => rules.nagashi = on_or_off(value)?,
        Setting::Renchan => rules.renchan = read_renchan(value)?,
        Setting::Length => rules.length = read_length(value)?,
        Setting::Extra => rules.extra = read_extra(value)?,
        Setting::Bust => rules.bust = on_or_off(value)?,
        Setting::Stop => rules.stop = on_or_off(value)?,
        Setting::Left => rules.left = read_left(value)?,
        Setting::Chombo => rules.chombo = read_cost(value)?,
        Setting::Session => return is_from_one(value),
        Setting::At => return is_from_one(value),
    }
    Some(())
}

fn is_from_one(value: &[u8]) -> Option<()>
    ensures { result ≡ option_map (λ number. tt) (at_least_one (number_in value.now)) }
{
    read_from_one(value)?;
    Some(())
}

fn on_or_off(value: &[u8]) -> Option<bool>
    ensures { result ≡ spec.on_or_off value.now }
{
    match value {
        b"on" => Some(true),
        b"off" => Some(false),
        _ => None,
    }
}

fn read_ties(value: &[u8]) -> Option<Ties>
    ensures { result ≡ spec.ties_named value.now }
{
    match value {
        b"share" => Some(Ties::Share),
        b"seat" => Some(Ties::Seat),
        _ => None,
    }
}

fn read_ron(value: &[u8]) -> Option<SeveralWinners>
    ensures { result ≡ spec.ron_named value.now }
{
    match value {
        b"all" => Some(SeveralWinners::All),
        b"nearest" => Some(SeveralWinners::Nearest),
        b"two" => Some(SeveralWinners::Two),
        _ => None,
    }
}

fn read_counters(value: &[u8]) -> Option<CountersTo>
    ensures { result ≡ spec.counters_named value.now }
{
    match value {
        b"nearest" => Some(CountersTo::Nearest),
        b"each" => Some(CountersTo::Each),
        _ => None,
    }
}

fn read_sticks(value: &[u8]) -> Option<SticksTo>
    ensures { result ≡ spec.sticks_named value.now }
{
    match value {
        b"nearest" => Some(SticksTo::Nearest),
        b"own" => Some(SticksTo::Own),
        _ => None,
    }
}

fn read_renchan(value: &[u8]) -> Option<Renchan>
    ensures { result ≡ spec.renchan_named value.now }
{
    match value {
        b"ready" => Some(Renchan::Ready),
        b"win" => Some(Renchan::Win),
        _ => None,
    }
}

fn read_length(value: &[u8]) -> Option<LastRound>
    ensures { result ≡ spec.length_named value.now }
{
    match value {
        b"south" => Some(LastRound::South),
        b"east" => Some(LastRound::East),
        _ => None,
    }
}

fn read_left(value: &[u8]) -> Option<LeftSticks>
    ensures { result ≡ spec.left_named value.now }
{
    match value {
        b"first" => Some(LeftSticks::First),
        b"lost" => Some(LeftSticks::Lost),
        _ => None,
    }
}

/// `off`, or points.
fn read_extra(value: &[u8]) -> Option<Option<u32>>
    ensures { result ≡ spec.extra_of value.now }
{
    if value == b"off".as_slice() {
        return Some(None);
    }
    let points = read_number(value)?;
    Some(Some(points))
}

/// `mangan`, or points.
fn read_cost(value: &[u8]) -> Option<ChomboCost>
    ensures { result ≡ spec.cost_of value.now }
{
    if value == b"mangan".as_slice() {
        return Some(ChomboCost::Mangan);
    }
    let points = read_number(value)?;
    Some(ChomboCost::Points(points))
}

/// Four numbers of thousands, with commas between them.
#[tactic(auto, unfolding(crate::specs::Settings::uma_named))]
fn read_uma(value: &[u8]) -> Option<ByPlace<i32>>
    ensures { result ≡ spec.uma_named value.now }
{
    let (first, behind) = cut_thousands(value)?;
    let (second, behind) = cut_thousands(behind)?;
    let (third, behind) = cut_thousands(behind)?;
    let fourth = read_thousands(behind)?;
    Some(ByPlace {
        first,
        second,
        third,
        fourth,
    })
}

/// The points of the thousands before the first comma, and what stands behind it.
fn cut_thousands(text: &[u8]) -> Option<(i32, &[u8])>
    ensures { let cut = spec.cut_at_comma text.now in
        MatchOption result (spec.before_comma cut ≡ None)
        (λ found. (spec.before_comma cut ≡ Some found.0) × (found.1.now ≡ spec.behind_comma cut)) }
{
    let (front, behind) = split_at_mark(text, b',')?;
    let points = read_thousands(front)?;
    Some((points, behind))
}
