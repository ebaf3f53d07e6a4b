//! What is said of one line beside its answer.
ghost use Rattle.std.specs.Prelude.{◌≡◌};
ghost use Rattle.desk_notes.specs.Meanings.{IsMeaning};

use riichi_hand::{Rules, read_placed, rules_words};
use riichi_hints::push_refusal;
use riichi_text::AnswerText;
use std::fmt;

/// What the refusal of a line means, and where one is found a line to try: the lines that `explain` puts below the answer. It is
/// empty where the line isn't refused under these rules.
pub fn meaning_of(rules: Rules, line: &[u8]) -> AnswerText
    ensures { IsMeaning rules line.now result.bytes }
{
    let mut text = AnswerText::new();
    if let Err(refusal) = read_placed(rules, line) {
        push_refusal(&mut text, rules, line, &refusal);
    }
    text
}

/// The command that says why a line is answered as it is.
#[derive(Drop)]
pub struct WhyWords<'s> {
    /// The rules under which it is answered.
    pub rules: Rules,
    pub line: &'s str,
}

impl fmt::Display for WhyWords<'_> {
    ghost use Rattle.std.specs.Prelude.{Some};
    ghost use Rattle.desk_notes.specs.Meanings.{why_text};

    ghost output = { λ words. Some (why_text words.rules words.line.now) };

    fn fmt<W: fmt::Write>(&self, f: &mut fmt::Formatter<W>) -> fmt::Result {
        let line = self.line;
        let words = rules_words(self.rules);
        let rules = words.as_str();
        if rules == "1" {
            write!(f, "  why: riichi_desk explain {line}")
        } else {
            write!(f, "  why: riichi_desk explain --rules {rules} {line}")
        }
    }
}
