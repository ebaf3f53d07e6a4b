//! The words of a line, loosely read.
use crate::draft::{Draft, Role};
use crate::meaning::{Command, Meaning, meaning_of};
use crate::nearest::{bytes_of, is_near, nearest_player};
use crate::text::{add, put};
use crate::worth::value_word;
use riichi_game_text::{Names, next_said};
use riichi_table::Player;
use riichi_tiles::split_at_mark;

/// The words that the lines of deals begin with.
const FIRST_WORDS: [(&str, Command); 6] = [
    ("ron", Command::Ron),
    ("tsumo", Command::Tsumo),
    ("draw", Command::Draw),
    ("abort", Command::Abort),
    ("chombo", Command::Chombo),
    ("penalty", Command::Penalty),
];

/// What the words of a line are read by: the names of the players, and who sits where.
#[derive(Clone, Copy)]
pub struct Readers<'a> {
    pub names: &'a Names,
    pub dealer: Player,
}

impl Draft {
    /// What the words of a line seem to say, up to a note.
    pub fn read(by: &Readers<'_>, line: &[u8]) -> Draft {
        let mut draft = Draft::new();
        let mut rest = line;
        while let Some((word, after)) = next_said(rest) {
            draft.read_word(by, word);
            rest = after;
        }
        draft
    }

    fn read_word(&mut self, by: &Readers<'_>, word: &[u8]) {
        match split_at_mark(word, b'=') {
            Some((key, value)) => self.take_entry(word, key, value),
            None => self.read_pieces(by, word),
        }
    }

    /// Reads what stands between commas.
    fn read_pieces(&mut self, by: &Readers<'_>, word: &[u8]) {
        let mut rest = word;
        while let Some((piece, after)) = split_at_mark(rest, b',') {
            self.read_piece(by, piece);
            rest = after;
        }
        self.read_piece(by, rest);
    }

    /// Reads a piece without the marks that it ends with.
    fn read_piece(&mut self, by: &Readers<'_>, piece: &[u8]) {
        match piece {
            [] => {}
            [b'-', points @ ..] => self.read_less(by, piece, points),
            [first @ .., b':' | b';' | b'.' | b'!' | b'?' | b')'] => self.read_bare(by, first),
            _ => self.read_bare(by, piece),
        }
    }

    /// A penalty is points off, with a minus or without.
    fn read_less(&mut self, by: &Readers<'_>, piece: &[u8], points: &[u8]) {
        if self.command == Some(Command::Penalty) {
            self.guess.read_as(piece, points);
            self.read_bare(by, points);
        } else {
            self.read_bare(by, piece);
        }
    }

    fn read_bare(&mut self, by: &Readers<'_>, piece: &[u8]) {
        if piece.is_empty() {
            return;
        }
        match split_at_mark(piece, b':') {
            None => self.read_plain(by, piece),
            Some((before, behind)) => self.read_parted(by, piece, before, behind),
        }
    }

    /// Reads `yakuman:2`, `liable NAME:2`, or a word with its list.
    fn read_parted(&mut self, by: &Readers<'_>, piece: &[u8], before: &[u8], behind: &[u8]) {
        if before == b"yakuman".as_slice() {
            self.take_limit(piece);
        } else if self.role == Role::Liable {
            self.read_plain(by, before);
            add(&mut self.won, b":");
            add(&mut self.won, behind);
        } else if value_word(piece).is_some() {
            self.read_plain(by, piece);
        } else {
            self.read_plain(by, before);
            self.read_plain(by, behind);
        }
    }

    /// Reads a word without a mark: one of the notation, a name, what players say for one, or a value.
    fn read_plain(&mut self, by: &Readers<'_>, word: &[u8]) {
        if self.command == Some(Command::Stands) {
            return;
        }
        if is_notation(word) || self.command.is_none() && self.winner.is_empty() {
            if let Some(meaning) = meaning_of(word) {
                return self.take_meaning(by, word, meaning);
            }
        }
        if let Some(player) = self.player_of(by, word) {
            return self.take_player(player, word);
        }
        if let Some(meaning) = meaning_of(word) {
            return self.take_meaning(by, word, meaning);
        }
        match value_word(word) {
            Some(value) => self.take_value(word, value),
            None => self.read_strange(by, word),
        }
    }

    /// The player of a name. A number is none where a value is wanted.
    fn player_of(&self, by: &Readers<'_>, word: &[u8]) -> Option<Player> {
        let player = by.names.find(word)?;
        if self.wants_value() && value_word(word).is_some() {
            None
        } else {
            Some(player)
        }
    }

    /// A winner is named, and nothing else is wanted before the value.
    fn wants_value(&self) -> bool {
        self.role == Role::Winner
            && !self.winner.is_empty()
            && !self.has_value
            && !self.is_more
            && (self.command != Some(Command::Ron) || !self.discarder.is_empty())
    }

    fn take_meaning(&mut self, by: &Readers<'_>, word: &[u8], meaning: Meaning) {
        if !is_canonical(word) && self.unknown.is_empty() {
            put(&mut self.unknown, word);
        }
        match meaning {
            Meaning::Command(command) => self.take_command(command),
            Meaning::From => self.role = Role::Discarder,
            Meaning::By => self.take_by(),
            Meaning::Of => self.take_of(),
            Meaning::And => self.take_and(),
            Meaning::Liable => self.role = Role::Liable,
            Meaning::Ready => self.begin_ready(),
            Meaning::NotReady => self.begin_not_ready(),
            Meaning::Nagashi => self.begin_nagashi(),
            Meaning::Riichi => {
                self.riichi.is_said = true;
                self.role = Role::Riichi;
            }
            Meaning::On => self.wants_on = true,
            Meaning::Fu => self.take_fu_behind(),
            Meaning::Nothing => {}
            Meaning::All => self.take_all(by.names, word),
            Meaning::Mangan => self.take_limit(b"mangan"),
            Meaning::Haneman => self.take_limit(b"haneman"),
            Meaning::Baiman => self.take_limit(b"baiman"),
            Meaning::Sanbaiman => self.take_limit(b"sanbaiman"),
            Meaning::Yakuman => self.take_limit(b"yakuman"),
        }
    }

    /// A second command that says something else tears the line. Behind a draw a win is told as such; `self draw` is one.
    fn take_command(&mut self, command: Command) {
        match (self.command, command) {
            (None | Some(Command::Win), _) => self.command = Some(command),
            (Some(Command::Draw), Command::Ron | Command::Tsumo | Command::Win) => {
                self.command = Some(command);
                self.role = Role::Winner;
                self.guess.tell(b"draw", b" is left out.");
            }
            (Some(Command::Tsumo), Command::Draw) if self.winner.is_empty() => {}
            (Some(Command::Ron | Command::Tsumo), Command::Win) => {}
            (Some(Command::End | Command::Undo | Command::Draw), Command::Game) => {}
            (Some(Command::Abort), Command::Draw) => {}
            (Some(first), second) => if first != second {
                self.is_torn = true;
            },
        }
    }

    fn take_by(&mut self) {
        self.role = if self.command == Some(Command::Ron) && !self.winner.is_empty() {
            Role::Unclear
        } else {
            Role::Winner
        };
    }

    /// Behind a winner the discarder is named so; before one it can't be known of a ron.
    fn take_of(&mut self) {
        self.role = if !self.winner.is_empty() {
            Role::Discarder
        } else if self.command == Some(Command::Tsumo) {
            Role::Winner
        } else {
            Role::Unclear
        };
    }

    /// A list goes on behind `and`; else it begins another winner.
    fn take_and(&mut self) {
        match self.role {
            Role::Ready | Role::NotReady | Role::Nagashi | Role::Riichi => {}
            _ => if self.command != Some(Command::Draw) {
                self.is_more = true;
                self.role = Role::Winner;
            },
        }
    }

    /// A line that begins so is that of a draw.
    fn begin_drawn(&mut self) {
        if self.command.is_none() && self.winner.is_empty() {
            self.command = Some(Command::Draw);
            self.guess.tell(b"draw", b" is a guess.");
        }
    }

    fn begin_ready(&mut self) {
        self.begin_drawn();
        self.ready.is_said = true;
        self.role = Role::Ready;
    }

    fn begin_not_ready(&mut self) {
        self.begin_drawn();
        self.is_noten = true;
        self.role = Role::NotReady;
    }

    fn begin_nagashi(&mut self) {
        self.begin_drawn();
        self.nagashi.is_said = true;
        self.role = Role::Nagashi;
    }

    /// Reads a word that is none so far: a tile behind `on`, a name that is nearly written, a seat, or nothing that is known.
    fn read_strange(&mut self, by: &Readers<'_>, word: &[u8]) {
        if let Some(tile) = tile_behind_on(word) {
            return self.take_entry(word, b"on", tile);
        }
        if let Some(limit) = near_limit(word) {
            put(&mut self.unknown, word);
            self.guess.read_as(word, limit);
            return self.take_limit(limit);
        }
        if self.command.is_none() && self.winner.is_empty() {
            return self.read_first(by, word);
        }
        match (self.may_name(), meant_player(by, word)) {
            (true, Some(player)) => self.take_meant(by, player, word),
            _ => self.take_unknown(word),
        }
    }

    /// Reads a first word that is none so far: a name that is nearly written, or a word that a line begins with.
    fn read_first(&mut self, by: &Readers<'_>, word: &[u8]) {
        put(&mut self.unknown, word);
        if let Some(player) = nearest_player(by.names, word) {
            return self.take_meant(by, player, word);
        }
        match near_command(word) {
            None => self.is_torn = true,
            Some((name, command)) => {
                self.guess.read_as(word, name.as_bytes());
                self.take_command(command);
            }
        }
    }

    /// Whether a name can stand in the line.
    fn may_name(&self) -> bool {
        !matches!(
            self.command,
            Some(Command::End | Command::Undo | Command::Game | Command::Stands)
        )
    }

    /// Takes the player that a word may mean.
    fn take_meant(&mut self, by: &Readers<'_>, player: Player, word: &[u8]) {
        let name = by.names.get(player);
        self.put_stranger(word);
        self.guess.read_as(word, bytes_of(&name));
        self.take_player(player, bytes_of(&name));
    }

    fn put_stranger(&mut self, word: &[u8]) {
        if self.stranger.is_empty() {
            put(&mut self.stranger, word);
        }
    }

    /// A word that is not known leaves the place open that it stands in.
    fn take_unknown(&mut self, word: &[u8]) {
        self.is_pattern = true;
        match self.role {
            Role::Discarder => {
                self.put_stranger(word);
                self.take_discarder_open();
            }
            Role::Ready | Role::Nagashi | Role::Riichi | Role::NotReady => self.put_stranger(word),
            Role::Liable => {
                self.put_stranger(word);
                add(&mut self.won, b" liable NAME");
                self.role = Role::Winner;
            }
            Role::Winner | Role::Unclear => self.take_unknown_winner(word),
        }
    }

    fn take_discarder_open(&mut self) {
        put(&mut self.discarder, b"DISCARDER");
        self.role = Role::Winner;
    }

    fn take_unknown_winner(&mut self, word: &[u8]) {
        if self.winner.is_empty() && self.may_name() {
            self.put_stranger(word);
            put(&mut self.winner, b"WINNER");
        } else if self.unknown.is_empty() {
            put(&mut self.unknown, word);
        }
    }
}

/// A word that a line may have.
fn is_canonical(word: &[u8]) -> bool {
    is_notation(word)
        || matches!(
            word,
            b"ron"
                | b"tsumo"
                | b"draw"
                | b"abort"
                | b"chombo"
                | b"penalty"
                | b"stands"
                | b"end"
                | b"undo"
                | b"game"
        )
}

/// A word of the notation, which stands for itself whatever the names are.
fn is_notation(word: &[u8]) -> bool {
    matches!(
        word,
        b"from"
            | b"and"
            | b"liable"
            | b"ready"
            | b"nagashi"
            | b"riichi"
            | b"mangan"
            | b"haneman"
            | b"baiman"
            | b"sanbaiman"
            | b"yakuman"
    )
}

/// The tile of `on5s`.
fn tile_behind_on(word: &[u8]) -> Option<&[u8]> {
    match word {
        [b'o' | b'O', b'n' | b'N', tile @ ..] => match tile {
            [b'0'..=b'9', b'm' | b'p' | b's' | b'z'] => Some(tile),
            _ => None,
        },
        _ => None,
    }
}

/// The limit hand that a word is one letter from.
fn near_limit(word: &[u8]) -> Option<&'static [u8]> {
    for limit in ["mangan", "haneman", "baiman", "sanbaiman", "yakuman"] {
        if is_near(word, limit.as_bytes()) {
            return Some(limit.as_bytes());
        }
    }
    None
}

/// The word that a line begins with and that a word is one letter from.
fn near_command(word: &[u8]) -> Option<(&'static str, Command)> {
    for (name, command) in FIRST_WORDS {
        if is_near(word, name.as_bytes()) {
            return Some((name, command));
        }
    }
    None
}

/// The player whose name is nearly so, or who sits on a seat.
fn meant_player(by: &Readers<'_>, word: &[u8]) -> Option<Player> {
    match nearest_player(by.names, word) {
        Some(player) => Some(player),
        None => seated_player(by.dealer, word),
    }
}

/// The player on a seat of this deal.
fn seated_player(dealer: Player, word: &[u8]) -> Option<Player> {
    match word {
        b"East" | b"east" | b"E" | b"Ost" | b"Est" => Some(dealer),
        b"South" | b"south" | b"S" | b"Sud" => Some(dealer.next()),
        b"West" | b"west" | b"W" | b"Ouest" => Some(dealer.next().next()),
        b"North" | b"north" | b"N" | b"Nord" => Some(dealer.next().next().next()),
        _ => None,
    }
}
