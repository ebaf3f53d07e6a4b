//! What a draft makes of words that say what a hand is worth.
use crate::draft::{Draft, Role};
use crate::meaning::Command;
use crate::text::{add, put, taken};
use crate::worth::{ValueWord, are_fu, are_han};

impl Draft {
    /// Takes a word that says a value.
    pub(crate) fn take_value(&mut self, word: &[u8], value: ValueWord<'_>) {
        if self.command == Some(Command::Penalty) {
            return self.take_points(value);
        }
        if !self.may_win() {
            self.is_torn = true;
            return;
        }
        match value {
            ValueWord::Counted(han, fu) => self.take_counted(word, han, fu),
            ValueWord::Turned(fu, han) => self.take_turned(fu, han),
            ValueWord::Number(number) => self.take_number(number),
            ValueWord::Fu(fu) => self.take_fu(fu),
            ValueWord::Tiles(tiles) => self.take_tiles(tiles),
        }
        self.role = Role::Winner;
    }

    fn may_win(&self) -> bool {
        matches!(
            self.command,
            Some(Command::Ron | Command::Tsumo | Command::Win) | None
        )
    }

    /// Takes the points of a penalty.
    fn take_points(&mut self, value: ValueWord<'_>) {
        match value {
            ValueWord::Number(points) if self.points.is_empty() => {
                put(&mut self.points, points);
                self.has_odd_points = !points.ends_with(b"00");
            }
            _ => self.is_torn = true,
        }
    }

    /// Whether a value is wanted and none was begun.
    fn is_open(&self) -> bool {
        !self.has_value && self.han.is_empty() && self.fu.is_empty()
    }

    fn take_counted(&mut self, word: &[u8], han: &[u8], fu: &[u8]) {
        if !self.is_open() {
            self.is_torn = true;
        } else if fu.len() >= 3 && han.len() >= 3 {
            self.take_payment(word);
        } else {
            self.put_counted(han, fu);
        }
    }

    fn take_turned(&mut self, fu: &[u8], han: &[u8]) {
        if self.is_open() {
            self.put_value(han, fu, b"");
            self.guess.read_as(fu, b"fu");
        } else {
            self.is_torn = true;
        }
    }

    /// Fu of one digit are tens; where fu stand before han, they are turned.
    fn put_counted(&mut self, han: &[u8], fu: &[u8]) {
        match fu {
            [tens @ b'2'..=b'9'] if are_han(han) => {
                self.put_value(han, fu, b"0");
                self.guess.read_as(fu, &[*tens, b'0']);
            }
            _ => if are_fu(han) && are_han(fu) {
                self.put_value(fu, han, b"");
                self.guess.read_as(han, b"fu");
            } else {
                self.put_value(han, fu, b"");
            },
        }
    }

    /// Puts a value, where it is known whose it is.
    fn put_value(&mut self, han: &[u8], fu: &[u8], behind: &[u8]) {
        self.has_value = true;
        if self.lacks_value {
            add(&mut self.won, b" VALUE");
            return;
        }
        add(&mut self.won, b" ");
        add(&mut self.won, han);
        add(&mut self.won, b".");
        add(&mut self.won, fu);
        add(&mut self.won, behind);
    }

    fn take_number(&mut self, number: &[u8]) {
        if self.has_value {
            self.is_torn = true;
        } else if !self.fu.is_empty() {
            let fu = taken(&mut self.fu);
            self.take_turned(fu.as_slice(), number);
        } else if !self.han.is_empty() {
            let han = taken(&mut self.han);
            self.put_counted(han.as_slice(), number);
        } else if number.len() >= 3 {
            self.take_payment(number);
        } else {
            put(&mut self.han, number);
        }
    }

    /// Takes fu that are called so.
    fn take_fu(&mut self, fu: &[u8]) {
        if self.has_value || !self.fu.is_empty() {
            self.is_torn = true;
        } else if self.han.is_empty() {
            put(&mut self.fu, fu);
        } else {
            let han = taken(&mut self.han);
            self.put_value(han.as_slice(), fu, b"");
        }
    }

    /// The number before the word `fu` is fu.
    pub(crate) fn take_fu_behind(&mut self) {
        if self.fu.is_empty() && !self.han.is_empty() {
            self.fu = taken(&mut self.han);
        }
    }

    /// Points are no value: which han and fu pay so is not known.
    fn take_payment(&mut self, points: &[u8]) {
        put(&mut self.payment, points);
        add(&mut self.won, b" HAN.FU");
        self.has_value = true;
        self.is_pattern = true;
    }

    /// Notes which value points are taken for, so that nothing is missing.
    pub fn note_payment(&mut self, value: &[u8]) {
        self.guess.read_as(self.payment.as_slice(), value);
        self.is_pattern = !self.guess.is_whole;
    }

    fn take_tiles(&mut self, tiles: &[u8]) {
        if self.is_hand && self.wants_on {
            self.take_entry(tiles, b"on", tiles);
        } else if self.is_hand {
            add(&mut self.won, tiles);
        } else if self.is_open() {
            add(&mut self.won, b" ");
            add(&mut self.won, tiles);
            self.is_hand = true;
            self.has_value = true;
        } else {
            self.is_torn = true;
        }
    }

    /// Takes a word `KEY=VALUE` of a hand. What the game knows is left out.
    pub(crate) fn take_entry(&mut self, word: &[u8], key: &[u8], value: &[u8]) {
        if !self.is_hand {
            self.is_torn = true;
            return;
        }
        if matches!(key, b"by" | b"seat" | b"round" | b"counters" | b"sticks") {
            return self.guess.tell(word, b" is left out: the game knows it.");
        }
        self.wants_on = false;
        self.has_on |= key == b"on".as_slice();
        add(&mut self.won, b" ");
        add(&mut self.won, key);
        add(&mut self.won, b"=");
        add(&mut self.won, value);
    }

    /// Takes the name of a limit hand.
    pub(crate) fn take_limit(&mut self, name: &[u8]) {
        if !self.is_open() || !self.may_win() {
            self.is_torn = true;
            return;
        }
        add(&mut self.won, b" ");
        add(
            &mut self.won,
            if self.lacks_value { b"VALUE" } else { name },
        );
        self.has_value = true;
        self.role = Role::Winner;
    }
}
