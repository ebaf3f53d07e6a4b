//! The answer to a line as JSON, with why a win is answered so.
ghost use Rattle.std.specs.Prelude.{◌≡◌};
ghost use Rattle.desk_reasons.specs.Reasons.{IsExplainedWin};
ghost use Rattle.riichi_desk_c.specs.JsonReasons.{win_under, PlacesReasoned};
ghost use Rattle.riichi_desk_c.specs.Replies.{rules_numbered};

use crate::json::riichi_json;
use crate::placing::place;
use crate::rules_numbered;
use desk_json::JsonText;
use desk_lines::win_in;
use desk_reasons::push_explained_win;
use riichi_hand::WinRecord;
use riichi_shape::FreshRows;

/// Answers one line as `riichi_json` does, and says of a win why it is answered so: its object has one member more at its end,
/// `why`, which docs/NOTATION.md and docs/answer.schema.json have.
#[unsafe(no_mangle)]
pub extern "C" fn riichi_explain_json(rules: u32, line: &[u8], room: &mut [u8]) -> usize
    ensures { PlacesReasoned rules line.now result room.old room.new }
{
    match win_under(rules, line) {
        None => riichi_json(rules, line, room),
        Some(win) => place(explained(&win).as_str().as_bytes(), room),
    }
}

/// The win that a line is under the profile of this number, if it is one.
fn win_under(rules: u32, line: &[u8]) -> Option<WinRecord>
    ensures { result ≡ win_under (rules_numbered rules) line.now }
{
    match rules_numbered(rules) {
        None => None,
        Some(rules) => win_in(rules, line),
    }
}

fn explained(win: &WinRecord) -> JsonText
    ensures { IsExplainedWin win.now result.bytes }
{
    let mut text = JsonText::new();
    push_explained_win(&mut text, win, &mut FreshRows);
    text
}
