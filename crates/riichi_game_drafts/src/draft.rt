//! A draft of a line: what its words seem to say.
use crate::guess::Guess;
use crate::meaning::Command;
use crate::nearest::bytes_of;
use crate::text::{Line, Word, add, add_behind, put};
use riichi_game_text::Names;
use riichi_table::{ByPlayer, Player};

/// What the name that comes next is said of.
#[derive(Clone, Copy, PartialEq, Eq)]
pub(crate) enum Role {
    Winner,
    Discarder,
    Ready,
    NotReady,
    Nagashi,
    Riichi,
    Liable,
    /// It can't be known.
    Unclear,
}

/// A list of names, and who is on it.
#[derive(Drop)]
pub(crate) struct Listed {
    pub(crate) text: Line,
    pub(crate) players: ByPlayer<bool>,
    /// The word of the list was said.
    pub(crate) is_said: bool,
}

/// What the words of a line seem to say.
#[derive(Drop)]
pub struct Draft {
    pub(crate) command: Option<Command>,
    pub(crate) role: Role,
    /// The name of the first winner, or of the only player.
    pub(crate) winner: Word,
    pub(crate) discarder: Word,
    pub(crate) winning: Option<Player>,
    pub(crate) discarding: Option<Player>,
    /// What stands behind the first winner and the discarder: the values, and the winners behind the first.
    pub(crate) won: Line,
    /// The last winner has a value.
    pub(crate) has_value: bool,
    /// The value is a hand, whose words may go on.
    pub is_hand: bool,
    /// The hand has the tile that it was won on.
    pub(crate) has_on: bool,
    /// That tile stands next.
    pub(crate) wants_on: bool,
    /// A winner before the last has no value, so that no value's winner is known.
    pub(crate) lacks_value: bool,
    /// `and` was said, and no winner behind it yet.
    pub(crate) is_more: bool,
    /// Han without fu yet, or fu without han.
    pub(crate) han: Word,
    pub(crate) fu: Word,
    pub(crate) points: Word,
    /// The points aren't whole hundreds.
    pub has_odd_points: bool,
    pub(crate) ready: Listed,
    pub(crate) not_ready: ByPlayer<bool>,
    /// It was said who isn't ready.
    pub(crate) is_noten: bool,
    pub(crate) nagashi: Listed,
    pub(crate) riichi: Listed,
    /// A word that stands for a name and is no player's.
    pub stranger: Word,
    /// A word that is none of a line.
    pub unknown: Word,
    /// Points in the place of a value.
    pub payment: Word,
    /// What is guessed.
    pub guess: Guess,
    /// Something is missing.
    pub is_pattern: bool,
    /// Words that say different things.
    pub(crate) is_torn: bool,
}

impl Listed {
    pub(crate) fn new() -> Listed {
        Listed {
            text: Line::new(),
            players: ByPlayer::all(false),
            is_said: false,
        }
    }

    /// Takes one player more: whether the player wasn't on the list.
    pub(crate) fn take(&mut self, player: Player, name: &[u8]) -> bool {
        if self.players.get(player) {
            return false;
        }
        self.players = self.players.with(player, true);
        add_behind(&mut self.text, b",", name);
        true
    }

    /// Takes one player more, and tells of one who was on the list.
    pub(crate) fn take_once(&mut self, player: Player, name: &[u8], guess: &mut Guess) {
        if !self.take(player, name) {
            guess.tell(name, b" is named once.");
        }
    }
}

impl Draft {
    pub(crate) fn new() -> Draft {
        Draft {
            command: None,
            role: Role::Winner,
            winner: Word::new(),
            discarder: Word::new(),
            winning: None,
            discarding: None,
            won: Line::new(),
            has_value: false,
            is_hand: false,
            has_on: false,
            wants_on: false,
            lacks_value: false,
            is_more: false,
            han: Word::new(),
            fu: Word::new(),
            points: Word::new(),
            has_odd_points: false,
            ready: Listed::new(),
            not_ready: ByPlayer::all(false),
            is_noten: false,
            nagashi: Listed::new(),
            riichi: Listed::new(),
            stranger: Word::new(),
            unknown: Word::new(),
            payment: Word::new(),
            guess: Guess::new(),
            is_pattern: false,
            is_torn: false,
        }
    }

    /// Takes a player, by the name as it is written.
    pub(crate) fn take_player(&mut self, player: Player, name: &[u8]) {
        match self.role {
            Role::Winner => self.take_unmarked(player, name),
            Role::Discarder => self.take_discarder(player, name),
            Role::Ready => self.ready.take_once(player, name, &mut self.guess),
            Role::NotReady => self.not_ready = self.not_ready.with(player, true),
            Role::Nagashi => self.nagashi.take_once(player, name, &mut self.guess),
            Role::Riichi => self.riichi.take_once(player, name, &mut self.guess),
            Role::Liable => self.take_liable(player, name),
            Role::Unclear => self.take_unclear(player, name),
        }
    }

    fn take_discarder(&mut self, player: Player, name: &[u8]) {
        if self.discarder.is_empty() {
            put(&mut self.discarder, name);
            self.discarding = Some(player);
        } else if self.discarding == Some(player) {
            self.guess.tell(name, b" is named once.");
        } else {
            self.is_torn = true;
        }
        self.role = Role::Winner;
    }

    /// The winner isn't liable.
    fn take_liable(&mut self, player: Player, name: &[u8]) {
        add(&mut self.won, b" liable ");
        if self.winning == Some(player) {
            add(&mut self.won, b"NAME");
            self.is_pattern = true;
        } else {
            add(&mut self.won, name);
        }
        self.role = Role::Winner;
    }

    /// Either of two could be the winner, and the other the discarder; one alone is guessed to be the winner.
    fn take_unclear(&mut self, player: Player, name: &[u8]) {
        if self.winner.is_empty() {
            put(&mut self.winner, name);
            self.winning = Some(player);
            self.guess.read_as(name, b"the winner");
        } else {
            put(&mut self.winner, b"WINNER");
            put(&mut self.discarder, b"DISCARDER");
            self.is_pattern = true;
        }
        self.role = Role::Winner;
    }

    /// Takes a player of whom nothing is said.
    fn take_unmarked(&mut self, player: Player, name: &[u8]) {
        match self.command {
            Some(Command::Draw) => self.take_drawn(player, name),
            Some(Command::Abort) => self.take_bet(player, name),
            Some(Command::Ron | Command::Win) => self.take_winner(player, name),
            Some(Command::Tsumo) => self.take_either(player, name),
            Some(Command::Chombo | Command::Penalty) | None => self.take_only(player, name),
            _ => self.is_torn = true,
        }
    }

    /// At a draw those are named who are ready.
    fn take_drawn(&mut self, player: Player, name: &[u8]) {
        if self.ready.text.is_empty() {
            self.guess.tell(b"ready", b" is a guess.");
        }
        self.ready.take_once(player, name, &mut self.guess);
    }

    /// Where an abort has names, these declared riichi.
    fn take_bet(&mut self, player: Player, name: &[u8]) {
        if self.riichi.text.is_empty() {
            self.guess.tell(b"riichi", b" is a guess.");
        }
        self.riichi.take_once(player, name, &mut self.guess);
    }

    fn take_only(&mut self, player: Player, name: &[u8]) {
        if self.winner.is_empty() {
            put(&mut self.winner, name);
            self.winning = Some(player);
        } else {
            self.is_torn = true;
        }
    }

    /// A second player of a self-draw would be the discarder of a ron.
    fn take_either(&mut self, player: Player, name: &[u8]) {
        if self.winner.is_empty() || self.is_more || !self.discarder.is_empty() {
            self.take_only(player, name);
        } else {
            put(&mut self.discarder, name);
            self.discarding = Some(player);
        }
    }

    /// Behind the first winner a name without `and` is that of the discarder, where none is named yet, and behind a value another winner.
    fn take_winner(&mut self, player: Player, name: &[u8]) {
        if self.winner.is_empty() {
            put(&mut self.winner, name);
            self.winning = Some(player);
        } else if self.is_more {
            self.begin_winner(name);
        } else if self.discarder.is_empty() {
            put(&mut self.discarder, name);
            self.discarding = Some(player);
            self.guess.read_as(name, b"the discarder");
        } else if self.has_value {
            self.begin_winner(name);
            self.guess.read_as(name, b"another winner");
        } else {
            self.is_torn = true;
        }
    }

    /// Begins one winner more.
    pub(crate) fn begin_winner(&mut self, name: &[u8]) {
        self.lacks_value |= !self.has_value;
        self.end_value();
        add(&mut self.won, b" and ");
        add(&mut self.won, name);
        self.has_value = false;
        self.is_hand = false;
        self.has_on = false;
        self.is_more = false;
    }

    /// Ends the value of the last winner: from five han on fu change nothing, and below five they are missing.
    pub(crate) fn end_value(&mut self) {
        if self.is_hand && !self.has_on {
            add(&mut self.won, b" on=TILE");
            self.is_pattern = true;
        }
        if self.has_value {
            return;
        }
        self.has_value = true;
        if !self.fu.is_empty() {
            add(&mut self.won, b" HAN.");
            add(&mut self.won, self.fu.as_slice());
            self.is_pattern = true;
        } else if self.han.is_empty() {
            add(&mut self.won, b" VALUE");
            self.is_pattern = true;
        } else {
            self.end_han();
        }
    }

    fn end_han(&mut self) {
        add(&mut self.won, b" ");
        add(&mut self.won, self.han.as_slice());
        if self.is_limit() {
            add(&mut self.won, b".30");
            self.guess
                .tell(b"30 fu", b" is a guess: from 5 han on fu change nothing.");
        } else {
            add(&mut self.won, b".FU");
            self.is_pattern = true;
        }
        self.han.clear();
    }

    fn is_limit(&self) -> bool {
        matches!(self.han.as_slice(), [b'5'..=b'9'] | [b'1', b'0'..=b'9'])
    }

    /// Takes all four players. Behind points of a self-draw it says that each other player pays so many.
    pub(crate) fn take_all(&mut self, names: &Names, word: &[u8]) {
        if !self.payment.is_empty() {
            return;
        }
        if self.command == Some(Command::Draw) && self.role == Role::Winner {
            self.role = Role::Ready;
        }
        for player in Player::ALL {
            self.take_player(player, bytes_of(&names.get(player)));
        }
        self.guess.read_as(word, b"all four");
    }
}
