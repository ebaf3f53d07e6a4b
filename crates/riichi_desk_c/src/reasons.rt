//! Why a line is answered as it is.
ghost use Rattle.std.specs.Prelude.{◌≡◌, ◌≤◌};
ghost use Rattle.riichi_explain.specs.declared.explaining.Shown.TheVariants.{BestReading};
ghost use Rattle.riichi_explain.specs.Explanation.{IsJobText};
ghost use Rattle.riichi_hand.specs.Refusals.{IsRefusalOf};
ghost use Rattle.riichi_hints.specs.Hint.{IsRefusalText};
ghost use Rattle.riichi_desk_c.specs.Reasons.{PlacesReason};

use super::placing::place;
use super::rules_numbered;
use riichi_explain::{
    REASONS_ROOM, ReasonsText, explain_shape, explain_waits, explain_win, push_shanten_line,
    push_waits_line, push_win_lines,
};
use riichi_hand::{Job, Refusal, Rules, read_placed};
use riichi_hints::push_refusal;
use riichi_shape::FreshRows;
use riichi_text::AnswerText;

/// Says why one line is answered as it is, under the rules of this number: the bytes that the text takes, 0 where the
/// line is no record. The text is put at the start of the room if all of it fits there: the lines that stand behind the
/// answer where it is explained, each with its line feed. Under any other number the text is `refused rules`.
#[tactic(auto, unfolding(riichi_explain::specs::Explanation::IsExplanation))]
#[unsafe(no_mangle)]
pub extern "C" fn riichi_explain(rules: u32, line: &[u8], room: &mut [u8]) -> usize
    ensures placed { PlacesReason rules line.now result room.old room.new }
    ensures most { result ≤ REASONS_ROOM }
{
    let Some(rules) = rules_numbered(rules) else {
        return place(b"refused rules", room);
    };
    match read_placed(rules, line) {
        Ok(None) => place(b"", room),
        Ok(Some(job)) => place(job_lines(&job).as_str().as_bytes(), room),
        Err(refusal) => place(
            refusal_text(rules, line, &refusal).as_str().as_bytes(),
            room,
        ),
    }
}

fn job_lines(job: &Job) -> ReasonsText
    ensures { IsJobText BestReading job.now result.bytes }
{
    let mut text = ReasonsText::new();
    match job {
        Job::Win(win) => push_win_lines(&mut text, explain_win(&mut FreshRows, win), win),
        Job::Waits(hand) => push_waits_line(&mut text, explain_waits(hand).rows.as_slice()),
        Job::Shape(tiles) => push_shanten_line(&mut text, &explain_shape(&mut FreshRows, tiles)),
    }
    text
}

fn refusal_text(rules: Rules, line: &[u8], refusal: &Refusal<'_>) -> AnswerText
    requires { IsRefusalOf line.now refusal.now }
    ensures { IsRefusalText rules line.now refusal.now.fault result.bytes }
{
    let mut text = AnswerText::new();
    push_refusal(&mut text, rules, line, refusal);
    text
}
