//! The commands of a script.
ghost use Rattle.std.specs.Prelude.{◌≡◌, MatchOption, None, Some};
ghost use Rattle.desk_script.specs.Commands.{command_of, by_word, alone, action_with_job};
ghost use Rattle.desk_script.specs.Said.{said_of};

use crate::action::Action;
use crate::seq::read_seq;
use crate::words::{cut_first_word, is_name};
use riichi_hand::without_spaces;

/// A command for the table of a name.
#[derive(Drop)]
pub(crate) struct Command<'a> {
    pub(crate) action: Action,
    pub(crate) name: &'a [u8],
    /// The record line of a job, empty where the action has none.
    pub(crate) job_line: &'a [u8],
}

/// Reads a line of a script; none where it has no command's form.
#[tactic(auto, unfolding(crate::specs::Commands::command_of))]
pub(crate) fn read_command(line: &[u8]) -> Option<Command<'_>>
    ensures { MatchOption result (command_of line.now ≡ None)
        (λ command. command_of line.now ≡ Some (said_of command)) }
{
    let (word, rest) = cut_first_word(line);
    let (name, rest) = cut_first_word(rest);
    if !is_name(name) {
        return None;
    }
    let (action, job_line) = read_action(word, rest)?;
    Some(Command {
        action,
        name,
        job_line,
    })
}

/// What the first word says, and the record line that it wants.
fn read_action<'a>(word: &[u8], rest: &'a [u8]) -> Option<(Action, &'a [u8])>
    ensures { MatchOption result (by_word word.now rest.now ≡ None)
        (λ c. by_word word.now rest.now ≡ Some (c.0, c.1.now)) }
{
    if word == b"open".as_slice() {
        alone(Action::Open, rest)
    } else if word == b"submit".as_slice() {
        with_job(Action::Submit, rest)
    } else if word == b"arrive".as_slice() {
        let (seq, rest) = cut_first_word(rest);
        let seq = read_seq(seq)?;
        with_job(Action::Arrive { seq }, rest)
    } else if word == b"close".as_slice() {
        alone(Action::Close, rest)
    } else if word == b"take".as_slice() {
        alone(Action::Take, rest)
    } else if word == b"withdraw".as_slice() {
        let (seq, rest) = cut_first_word(rest);
        let seq = read_seq(seq)?;
        alone(Action::Withdraw { seq }, rest)
    } else {
        None
    }
}

/// An action behind whose name nothing stands but spaces.
fn alone(action: Action, rest: &[u8]) -> Option<(Action, &[u8])>
    ensures { MatchOption result (alone action rest.now ≡ None)
        (λ c. alone action rest.now ≡ Some (c.0, c.1.now)) }
{
    let rest = without_spaces(rest);
    if rest.is_empty() {
        Some((action, rest))
    } else {
        None
    }
}

/// An action with a record line, which begins at a byte other than a space and `#`.
fn with_job(action: Action, rest: &[u8]) -> Option<(Action, &[u8])>
    ensures { MatchOption result (action_with_job action rest.now ≡ None)
        (λ c. action_with_job action rest.now ≡ Some (c.0, c.1.now)) }
{
    let job_line = without_spaces(rest);
    match job_line {
        [] | [b'#', ..] => None,
        _ => Some((action, job_line)),
    }
}
