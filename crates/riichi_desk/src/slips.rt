//! What is said of a line that looks like a profile line and sets no profile.
use crate::progress::Progress;
use desk_lines::Slip;
use riichi_hand::rules_words;
use std::fmt;
use std::io::Eprint;
use std::time::Clock;

/// That a line of a text set no profile, and which rules the others have.
#[derive(Drop)]
struct SlipWords<'s> {
    /// The name of the text.
    name: &'s str,
    slip: Slip,
}

impl fmt::Display for SlipWords<'_> {
    ghost use Rattle.std.specs.Prelude.{Some};
    ghost use Rattle.riichi_desk.specs.Slips.{slip_text};

    ghost output = { λ words. Some (slip_text words.name.now words.slip) };

    fn fmt<W: fmt::Write>(&self, f: &mut fmt::Formatter<W>) -> fmt::Result {
        let (name, line) = (self.name, self.slip.line);
        let what = if self.slip.rules.is_house() {
            "the rules"
        } else {
            "profile"
        };
        let words = rules_words(self.slip.rules);
        let rules = words.as_str();
        write!(
            f,
            "riichi_desk: {name}: line {line} sets no profile: the lines are answered under {what} {rules}; `rules 1` or `rules 2` sets one, alone in the first line"
        )
    }
}

/// Says that a line of a text set no profile, where one looks as if it should.
pub fn tell_slip<R: Eprint + Clock>(progress: &Progress<'_, R>, name: &str, slip: &Option<Slip>) {
    if let Some(slip) = slip {
        let slip = *slip;
        let words = SlipWords { name, slip };
        let _ = eprintln!(progress.wiped(); "{words}");
    }
}
