//! The line that a draft makes, or the pattern of one.
use crate::draft::{Draft, Listed, Role};
use crate::meaning::Command;
use crate::nearest::bytes_of;
use crate::text::{Line, add, put};
use riichi_game_text::Names;
use riichi_table::Player;

impl Draft {
    /// The line that the draft makes, with words in capitals for what is missing; none where its words say nothing that a line can.
    pub fn line(&mut self, names: &Names) -> Option<Line> {
        self.settle_command();
        self.settle_end();
        let line = self.written(names);
        if self.is_torn || !self.guess.is_whole {
            self.is_pattern = true;
            self.guess.text.clear();
            return self.pattern();
        }
        line
    }

    fn written(&mut self, names: &Names) -> Option<Line> {
        match self.command? {
            Command::Ron => Some(self.ron_line()),
            Command::Tsumo if self.discarder.is_empty() => Some(self.tsumo_line()),
            Command::Tsumo | Command::Win => Some(self.either_line()),
            Command::Draw => Some(self.draw_line(names)),
            Command::Abort => Some(self.abort_line()),
            Command::Chombo => Some(self.chombo_line()),
            Command::Penalty => Some(self.penalty_line()),
            Command::End => Some(text_line("end")),
            Command::Stands | Command::Undo | Command::Game => {
                self.is_pattern = true;
                self.pattern()
            }
        }
    }

    /// A win with a discarder is a ron; names without a command are those of a win.
    fn settle_command(&mut self) {
        if self.command.is_none() && (!self.winner.is_empty() || self.riichi.is_said) {
            self.command = Some(Command::Win);
        }
        if self.command == Some(Command::Win) && !self.discarder.is_empty() {
            self.command = Some(Command::Ron);
            self.guess.tell(b"ron", b" is a guess.");
        }
    }

    /// Words at the end that want another one.
    fn settle_end(&mut self) {
        if self.role == Role::Liable {
            add(&mut self.won, b" liable NAME");
            self.is_pattern = true;
        }
        if self.is_more {
            self.begin_winner(b"WINNER");
            self.is_pattern = true;
        }
        if self.winning.is_some() && self.winning == self.discarding {
            put(&mut self.discarder, b"DISCARDER");
            self.is_pattern = true;
        }
    }

    /// How a line of the kind is written.
    fn pattern(&self) -> Option<Line> {
        let words = match self.command? {
            Command::Ron => "ron WINNER from DISCARDER VALUE",
            Command::Tsumo => "tsumo WINNER VALUE",
            Command::Win => "ron WINNER from DISCARDER VALUE, or tsumo WINNER VALUE",
            Command::Draw => "draw ready NAMES riichi NAMES, or tsumo WINNER VALUE",
            Command::Abort => "abort riichi NAMES",
            Command::Chombo => "chombo NAME",
            Command::Penalty => "penalty NAME POINTS",
            Command::Stands => "stands ROUND DEALER counters N sticks N points N N N N",
            Command::End => "end",
            Command::Undo => "undo",
            Command::Game => "game NAME NAME NAME NAME",
        };
        Some(text_line(words))
    }

    /// Leaves out a nagashi mangan, and says so: then the players who are ready count.
    pub fn leave_out_nagashi(&mut self) {
        if self.nagashi.is_said {
            self.nagashi = Listed::new();
            self.ready.is_said = true;
            self.guess.tell(b"nagashi", b" is left out.");
        }
    }

    /// Leaves out who is ready at a win, and says so.
    fn leave_out_ready(&mut self) {
        if self.ready.is_said {
            self.guess
                .tell(b"ready", b" is left out: it counts at a draw alone.");
        }
    }

    fn open_winner(&mut self, word: &[u8]) {
        if self.winner.is_empty() {
            put(&mut self.winner, word);
            self.is_pattern = true;
        }
    }

    fn open_discarder(&mut self) {
        if self.discarder.is_empty() {
            put(&mut self.discarder, b"DISCARDER");
            self.is_pattern = true;
        }
    }

    fn ron_line(&mut self) -> Line {
        self.end_value();
        self.leave_out_ready();
        self.open_winner(b"WINNER");
        self.open_discarder();
        let mut line = Line::new();
        self.add_ron(&mut line);
        self.add_riichi(&mut line);
        line
    }

    fn add_ron(&self, line: &mut Line) {
        add(line, b"ron ");
        add(line, self.winner.as_slice());
        add(line, b" from ");
        add(line, self.discarder.as_slice());
        add(line, self.won.as_slice());
    }

    fn add_riichi(&mut self, line: &mut Line) {
        add_list(line, b" riichi ", &self.riichi);
        self.is_pattern |= is_open(&self.riichi);
    }

    fn tsumo_line(&mut self) -> Line {
        self.end_value();
        self.leave_out_ready();
        self.open_winner(b"WINNER");
        let mut line = Line::new();
        self.add_tsumo(&mut line);
        line
    }

    fn add_tsumo(&mut self, line: &mut Line) {
        add(line, b"tsumo ");
        add(line, self.winner.as_slice());
        add(line, self.won.as_slice());
        self.add_riichi(line);
    }

    /// A ron or a tsumo: neither is said, or both are.
    fn either_line(&mut self) -> Line {
        self.end_value();
        self.open_winner(b"WINNER");
        self.open_discarder();
        self.is_pattern = true;
        let mut line = Line::new();
        self.add_ron(&mut line);
        self.add_riichi(&mut line);
        add(&mut line, b", or ");
        self.add_tsumo(&mut line);
        line
    }

    fn draw_line(&mut self, names: &Names) -> Line {
        self.settle_noten(names);
        self.settle_riichi(names);
        let mut line = text_line("draw");
        add_list(&mut line, b" ready ", &self.ready);
        add_list(&mut line, b" nagashi ", &self.nagashi);
        self.is_pattern |= is_open(&self.ready) || is_open(&self.nagashi);
        self.add_riichi(&mut line);
        line
    }

    /// Where it is said who isn't ready, the others are.
    fn settle_noten(&mut self, names: &Names) {
        if !self.is_noten {
            return;
        }
        self.ready.is_said = false;
        if self.ready.text.is_empty() && matches!(self.not_ready.count(), 1..=3) {
            self.add_others(names);
        } else {
            self.guess.tell(b"noten", b" is left out.");
        }
    }

    fn add_others(&mut self, names: &Names) {
        let mut others = text_line("ready ");
        for player in Player::ALL {
            if !self.not_ready.get(player) {
                self.ready.take(player, bytes_of(&names.get(player)));
            }
        }
        add(&mut others, self.ready.text.as_slice());
        self.guess.read_as(b"noten", others.as_slice());
    }

    /// Who declared riichi is ready.
    fn settle_riichi(&mut self, names: &Names) {
        for player in Player::ALL {
            let name = names.get(player);
            if self.riichi.players.get(player) && self.ready.take(player, bytes_of(&name)) {
                self.guess.read_as(bytes_of(&name), b"ready");
            }
        }
    }

    fn abort_line(&mut self) -> Line {
        let mut line = text_line("abort");
        self.add_riichi(&mut line);
        line
    }

    fn chombo_line(&mut self) -> Line {
        self.open_winner(b"NAME");
        let mut line = text_line("chombo ");
        add(&mut line, self.winner.as_slice());
        line
    }

    fn penalty_line(&mut self) -> Line {
        self.open_winner(b"NAME");
        let mut line = text_line("penalty ");
        add(&mut line, self.winner.as_slice());
        add(&mut line, b" ");
        if self.points.is_empty() || self.has_odd_points {
            add(&mut line, b"POINTS");
            self.is_pattern = true;
        } else {
            add(&mut line, self.points.as_slice());
        }
        line
    }
}

/// Whether the word of a list is said, and no name behind it.
fn is_open(list: &Listed) -> bool {
    list.is_said && list.text.is_empty()
}

fn add_list(line: &mut Line, word: &[u8], list: &Listed) {
    if !list.text.is_empty() {
        add(line, word);
        add(line, list.text.as_slice());
    } else if list.is_said {
        add(line, word);
        add(line, b"NAMES");
    }
}

fn text_line(words: &str) -> Line {
    let mut line = Line::new();
    add(&mut line, words.as_bytes());
    line
}
