//! The names of the four players.
ghost use Rattle.std.specs.Prelude.{◌≡◌, ◌≤◌, ◌==◌, true, false, length, Some, None, MatchOption};
ghost use Rattle.std.specs.List.{list_all, starts_with};
ghost use Rattle.std.specs.Str.{is_utf8, bytes_eq};
ghost use Rattle.riichi_table.specs.Players.{by_players, of_player};
ghost use Rattle.riichi_game_text.specs.Words.{said_in, name_words};
ghost use Rattle.riichi_game_text.specs.Names as spec;

use crate::words::{begins_note, next_name_word};
use arrayvec::ArrayString;
use riichi_table::{ByPlayer, Player};
use std::str;

/// The most bytes of a name.
pub const MOST_NAME: usize = 32;

/// The name of a player.
pub type Name = ArrayString<MOST_NAME>;

/// The names of the four players.
#[derive(Clone, Copy)]
pub struct Names {
    pub(crate) names: ByPlayer<Name>,
}

impl Names {
    /// Of players without names: `1`, `2`, `3` and `4`.
    pub fn numbered() -> Names
        ensures { spec.names_in result ≡ spec.numbered_names }
    {
        Names {
            names: ByPlayer {
                first: name_of("1"),
                second: name_of("2"),
                third: name_of("3"),
                fourth: name_of("4"),
            },
        }
    }

    /// The name of a player.
    pub fn get(&self, player: Player) -> Name
        ensures { result.bytes ≡ of_player (spec.names_in self.now) player }
    {
        self.names.get(player)
    }

    /// The player of this name, or of the one name that begins so.
    #[tactic(auto, unfolding(crate::specs::Names::player_named))]
    pub fn find(&self, text: &[u8]) -> Option<Player>
        ensures { result ≡ spec.player_named (spec.names_in self.now) text.now }
    {
        let whole = self.whole(text);
        if whole.any() {
            return first_player(&whole);
        }
        let begun = self.begun(text);
        if begun.count() == 1 {
            first_player(&begun)
        } else {
            None
        }
    }

    /// Whose whole name it is.
    fn whole(&self, text: &[u8]) -> ByPlayer<bool>
        ensures { result ≡ by_players (spec.is_whole (spec.names_in self.now) text.now) }
    {
        ByPlayer {
            first: is_whole(&self.names.first, text),
            second: is_whole(&self.names.second, text),
            third: is_whole(&self.names.third, text),
            fourth: is_whole(&self.names.fourth, text),
        }
    }

    /// Whose name begins so.
    fn begun(&self, text: &[u8]) -> ByPlayer<bool>
        ensures { result ≡ by_players (spec.is_begun (spec.names_in self.now) text.now) }
    {
        ByPlayer {
            first: is_begun(&self.names.first, text),
            second: is_begun(&self.names.second, text),
            third: is_begun(&self.names.third, text),
            fourth: is_begun(&self.names.fourth, text),
        }
    }
}

fn is_whole(name: &Name, text: &[u8]) -> bool
    ensures { result ≡ bytes_eq name.now.bytes text.now }
{
    name.as_str().as_bytes() == text
}

fn is_begun(name: &Name, text: &[u8]) -> bool
    ensures { result ≡ starts_with (λ one other. one == other) name.now.bytes text.now }
{
    name.as_str().as_bytes().starts_with(text)
}

/// The first of some players.
fn first_player(players: &ByPlayer<bool>) -> Option<Player>
    ensures { result ≡ spec.first_player (of_player players.now) }
{
    if players.first {
        Some(Player::First)
    } else if players.second {
        Some(Player::Second)
    } else if players.third {
        Some(Player::Third)
    } else if players.fourth {
        Some(Player::Fourth)
    } else {
        None
    }
}

/// A name that is short enough.
fn name_of(text: &str) -> Name
    requires { length text.now ≤ MOST_NAME }
    ensures { result.bytes ≡ text.now }
{
    let mut name = Name::new();
    name.push_str(text);
    name
}

/// The names that the words of a text without `=` are, of which there are four or none.
pub(crate) fn read_names(text: &[u8]) -> Option<Names>
    ensures { let said = spec.names_said (name_words (said_in text.now)) in
        MatchOption result (said ≡ None) (λ names. said ≡ Some (spec.names_in names)) }
{
    let Some((first, rest)) = next_name_word(text) else {
        return Some(Names::numbered());
    };
    let (second, rest) = next_name_word(rest)?;
    let (third, rest) = next_name_word(rest)?;
    let (fourth, rest) = next_name_word(rest)?;
    if next_name_word(rest).is_some() {
        return None;
    }
    four_names(first, second, third, fourth)
}

/// Four names that differ.
#[tactic(auto, unfolding(crate::specs::Names::names_of))]
fn four_names(first: &[u8], second: &[u8], third: &[u8], fourth: &[u8]) -> Option<Names>
    ensures { let said = spec.names_of (spec.four first.now second.now third.now fourth.now) in
        MatchOption result (said ≡ None) (λ names. said ≡ Some (spec.names_in names)) }
{
    let first_name = read_name(first)?;
    let second_name = read_name(second)?;
    let third_name = read_name(third)?;
    let fourth_name = read_name(fourth)?;
    if have_equals(first, second, third, fourth) {
        return None;
    }
    Some(Names {
        names: ByPlayer {
            first: first_name,
            second: second_name,
            third: third_name,
            fourth: fourth_name,
        },
    })
}

fn have_equals(first: &[u8], second: &[u8], third: &[u8], fourth: &[u8]) -> bool
    ensures { result ≡ spec.have_equals (spec.four first.now second.now third.now fourth.now) }
{
    first == second
        || first == third
        || first == fourth
        || second == third
        || second == fourth
        || third == fourth
}

/// The name that a word is: 1 to [`MOST_NAME`] bytes of UTF-8 without a space, a comma, a colon, `=` or a control byte; it doesn't
/// begin with `#`.
#[tactic(auto, unfolding(crate::specs::Names::is_player_name))]
pub fn read_name(word: &[u8]) -> Option<Name>
    ensures { MatchOption result (spec.is_player_name word.now ≡ false)
        (λ name. (spec.is_player_name word.now ≡ true) × (name.bytes ≡ word.now)) }
{
    if word.len() < 1
        || word.len() > MOST_NAME
        || begins_note(word)
        || !has_name_bytes_alone(word)
    {
        return None;
    }
    let text = text_of(word)?;
    Some(name_of(text))
}

/// The text of some bytes, where they are UTF-8.
#[tactic(auto, using(crate::proofs::TextLemmas::utf8_tests))]
pub(crate) fn text_of(word: &[u8]) -> Option<&str>
    ensures { MatchOption result (is_utf8 word.now ≡ false)
        (λ text. (is_utf8 word.now ≡ true) × (text.now ≡ word.now)) }
{
    match str::from_utf8(word) {
        Ok(text) => Some(text),
        Err(_) => None,
    }
}

fn has_name_bytes_alone(word: &[u8]) -> bool
    ensures { result ≡ list_all spec.is_player_name_byte word.now }
{
    word.iter().all(|byte| is_player_name_byte(*byte))
}

fn is_player_name_byte(byte: u8) -> bool
    ensures { result ≡ spec.is_player_name_byte byte }
{
    byte > b' ' && byte != b',' && byte != b':' && byte != b'=' && byte != 0x7f
}
