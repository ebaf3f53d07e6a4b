//! The job of a line whose texts are read.
ghost use Rattle.std.specs.Prelude.{◌≡◌, None, Some, if◌then◌else◌};
ghost use Rattle.riichi_hand.specs.declared.switch.Switch.TheVariants.{RedFives};
ghost use Rattle.riichi_hand.specs.Rules.{is_on};
ghost use Rattle.riichi_hand.specs.Win.{no_reds, kept_under};
ghost use Rattle.riichi_hand.specs.Faults.{IsValueOrFirstFault, first_fault};
ghost use Rattle.riichi_hand.specs.Lines.{text_faults, job_faults};
ghost use Rattle.riichi_hand.specs.Parts.{parts_in};
ghost use Rattle.riichi_hand.specs.Entries.{Holds};
ghost use Rattle.riichi_hand.specs.Texts.{texts_of, only_kind, joined_reds};
ghost use Rattle.riichi_hand.specs.Jobs.{AreNeeded, win_parts, job_of};
ghost use Rattle.riichi_hand.specs.declared.line.job_name.JobName.TheVariants.{Win};
ghost use Rattle.riichi_hand.specs.declared.job.Job.TheVariants as jobs;
ghost use Rattle.riichi_hand.specs.declared.line.needed.Needed.TheVariants as needs;

use super::fields::Fields;
use super::needed::{Needed, WinKeys};
use super::texts::Texts;
use super::words::Words;
use crate::fault::{LineCode, LineFault};
use crate::hand::HandRecord;
use crate::job::Job;
use crate::rules::Rules;
use crate::shape::ShapeRecord;
use crate::switch::Switch;
use crate::win::{Flags, WinParts, WinRecord};
use riichi_tiles::{Counts, Kind, Reds, reds_of};

/// The job of a line, or the first fault of its record.
pub(crate) fn make_job(
    rules: Rules,
    needed: Needed,
    words: &Words<'_>,
    fields: &Fields<'_>,
    texts: &Texts,
) -> Result<Job, LineFault>
    requires holds { Holds fields.now (parts_in words.now).entries }
    requires needed { AreNeeded needed (parts_in words.now) }
    requires spelled { first_fault (text_faults (parts_in words.now)) ≡ None }
    requires texts { texts.now ≡ texts_of (parts_in words.now) }
    ensures { let parts = parts_in words.now in
        IsValueOrFirstFault result (job_faults rules parts texts.now parts.job)
        (λ job. Some job ≡ job_of rules parts texts.now parts.job) }
{
    match needed {
        Needed::Win(keys) => Ok(Job::Win(make_win(rules, keys, words, fields, texts)?)),
        Needed::Waits => Ok(Job::Waits(HandRecord::new(texts.hand, texts.melds)?)),
        Needed::Shape => Ok(Job::Shape(ShapeRecord::new(texts.hand, texts.melds, texts.seen)?)),
    }
}

/// The win, where there is one winning tile and the record takes the parts.
#[inline(never)]
fn make_win(
    rules: Rules,
    keys: WinKeys,
    words: &Words<'_>,
    fields: &Fields<'_>,
    texts: &Texts,
) -> Result<WinRecord, LineFault>
    requires holds { Holds fields.now (parts_in words.now).entries }
    requires needed { AreNeeded (needs.Win keys) (parts_in words.now) }
    requires spelled { first_fault (text_faults (parts_in words.now)) ≡ None }
    requires texts { texts.now ≡ texts_of (parts_in words.now) }
    ensures { let parts = parts_in words.now in
        IsValueOrFirstFault result (job_faults rules parts texts.now Win)
        (λ win. Some (jobs.Win win) ≡ job_of rules parts texts.now Win) }
{
    let Some(winning) = only_kind(&texts.on) else {
        return Err(LineFault::Line(LineCode::H8));
    };
    WinRecord::new(WinParts {
        rules,
        concealed: texts.hand,
        melds: texts.melds,
        winning,
        by: keys.by,
        seat: keys.seat,
        round: keys.round,
        riichi: fields.riichi.unwrap_or(0),
        flags: fields.flags.unwrap_or(Flags::none()),
        dora: texts.dora,
        ura: texts.ura,
        counters: fields.counters.unwrap_or(0),
        sticks: fields.sticks.unwrap_or(0),
        reds: reds_under(rules, words, fields),
    })
}

/// The kind of the only tile.
fn only_kind(counts: &Counts) -> Option<Kind>
    ensures { result ≡ only_kind counts.now }
{
    if counts.total() == 1 {
        counts.lowest()
    } else {
        None
    }
}

/// The red fives that the rules keep.
fn reds_under(rules: Rules, words: &Words<'_>, fields: &Fields<'_>) -> Reds
    requires { Holds fields.now (parts_in words.now).entries }
    ensures { result
        ≡ (if is_on RedFives rules then joined_reds (parts_in words.now) else no_reds) }
{
    if rules.has(Switch::RedFives) {
        reds_of_line(words, fields)
    } else {
        Reds::none()
    }
}

/// The digits 0 of the hand, the winning tile and the melds.
fn reds_of_line(words: &Words<'_>, fields: &Fields<'_>) -> Reds
    requires { Holds fields.now (parts_in words.now).entries }
    ensures { result ≡ joined_reds (parts_in words.now) }
{
    reds_of(words.hand)
        .joined(&reds_of(fields.on.unwrap_or(&[])))
        .joined(&reds_of(fields.melds.unwrap_or(&[])))
}
