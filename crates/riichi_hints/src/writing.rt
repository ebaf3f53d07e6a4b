//! The line that a draft makes.
use crate::draft::Draft;
use crate::text::{Line, Part, add, add_all};
use riichi_hand::JobName;

impl Draft {
    /// The line, its words in the order of the notation.
    pub(crate) fn line(&self) -> Line {
        let mut line = Line::new();
        match self.job {
            Some(JobName::Win) => self.write_win(&mut line),
            Some(JobName::Shape) => {
                self.write_hand(&mut line, "shape ");
                write_entry(&mut line, " seen=", self.seen.as_slice());
            }
            _ => self.write_hand(&mut line, "waits "),
        }
        line
    }

    fn write_hand(&self, line: &mut Line, job: &str) {
        add_all(line, job.as_bytes());
        add_all(line, self.hand.as_slice());
        if self.job != Some(JobName::Win) {
            write_entry(line, " open=", self.melds.as_slice());
        }
    }

    fn write_win(&self, line: &mut Line) {
        self.write_hand(line, "win ");
        write_entry(line, " on=", self.on.as_slice());
        write_entry(line, " by=", self.by.as_bytes());
        write_entry(line, " seat=", self.seat.as_bytes());
        write_entry(line, " round=", self.round.as_bytes());
        write_entry(line, " open=", self.melds.as_slice());
        write_entry(line, " riichi=", riichi_text(self.riichi).as_bytes());
        write_entry(line, " flags=", self.flags_text().as_slice());
        write_entry(line, " dora=", self.dora.as_slice());
        write_entry(line, " ura=", self.ura.as_slice());
        write_entry(line, " counters=", self.counters.as_slice());
        write_entry(line, " sticks=", self.sticks.as_slice());
    }

    fn flags_text(&self) -> Part {
        let mut text = Part::new();
        write_flag(&mut text, self.flags.ippatsu, "ippatsu");
        write_flag(&mut text, self.flags.rinshan, "rinshan");
        write_flag(&mut text, self.flags.chankan, "chankan");
        write_flag(&mut text, self.flags.last, "last");
        write_flag(&mut text, self.flags.first, "first");
        text
    }
}

fn write_entry(line: &mut Line, key: &str, value: &[u8]) {
    if !value.is_empty() {
        add_all(line, key.as_bytes());
        add_all(line, value);
    }
}

fn write_flag(text: &mut Part, is_set: bool, word: &str) {
    if is_set {
        if !text.is_empty() {
            add(text, b',');
        }
        add_all(text, word.as_bytes());
    }
}

fn riichi_text(riichi: u8) -> &'static str {
    match riichi {
        0 => "",
        1 => "1",
        _ => "2",
    }
}
