//! Which player a word may mean that is no player's name.
ghost use Rattle.std.specs.Prelude.{◌≡◌, ◌<◌, ◌∷◌, [], length, MatchOption};
ghost use Rattle.riichi_table.specs.Players.{by_players, of_player};
ghost use Rattle.riichi_game_text.specs.Names.{names_in, first_player};
ghost use Rattle.riichi_game_drafts.specs.Nearest as spec;

use riichi_game_text::{Name, Names};
use riichi_table::{ByPlayer, Player};

/// The one player whose name is the word but for capital letters; or else begins so; or else is one slip from it: a letter more, one
/// fewer, one in the place of another, or two exchanged.
#[tactic(auto, unfolding(crate::specs::Nearest::nearest_player))]
pub fn nearest_player(names: &Names, word: &[u8]) -> Option<Player>
    ensures { result ≡ spec.nearest_player (names_in names.now) word.now }
{
    let same = same_names(names, word);
    if same.any() {
        return only_player(&same);
    }
    let begun = begun_names(names, word);
    if begun.any() {
        return only_player(&begun);
    }
    only_player(&near_names(names, word))
}

/// The player of whom alone it holds.
fn only_player(players: &ByPlayer<bool>) -> Option<Player>
    ensures { result ≡ spec.only_player players.now }
{
    if players.count() == 1 {
        first_of(players)
    } else {
        None
    }
}

fn first_of(players: &ByPlayer<bool>) -> Option<Player>
    ensures { result ≡ first_player (of_player players.now) }
{
    if players.first {
        Some(Player::First)
    } else if players.second {
        Some(Player::Second)
    } else if players.third {
        Some(Player::Third)
    } else if players.fourth {
        Some(Player::Fourth)
    } else {
        None
    }
}

fn same_names(names: &Names, word: &[u8]) -> ByPlayer<bool>
    ensures { result ≡ by_players (spec.has_same_name (names_in names.now) word.now) }
{
    ByPlayer {
        first: is_same_small(word, bytes_of(&names.get(Player::First))),
        second: is_same_small(word, bytes_of(&names.get(Player::Second))),
        third: is_same_small(word, bytes_of(&names.get(Player::Third))),
        fourth: is_same_small(word, bytes_of(&names.get(Player::Fourth))),
    }
}

fn begun_names(names: &Names, word: &[u8]) -> ByPlayer<bool>
    ensures { result ≡ by_players (spec.has_begun_name (names_in names.now) word.now) }
{
    ByPlayer {
        first: begins_small(word, bytes_of(&names.get(Player::First))),
        second: begins_small(word, bytes_of(&names.get(Player::Second))),
        third: begins_small(word, bytes_of(&names.get(Player::Third))),
        fourth: begins_small(word, bytes_of(&names.get(Player::Fourth))),
    }
}

fn near_names(names: &Names, word: &[u8]) -> ByPlayer<bool>
    ensures { result ≡ by_players (spec.has_near_name (names_in names.now) word.now) }
{
    ByPlayer {
        first: is_near(word, bytes_of(&names.get(Player::First))),
        second: is_near(word, bytes_of(&names.get(Player::Second))),
        third: is_near(word, bytes_of(&names.get(Player::Third))),
        fourth: is_near(word, bytes_of(&names.get(Player::Fourth))),
    }
}

/// The bytes of a name.
pub(crate) fn bytes_of(name: &Name) -> &[u8]
    ensures { result.now ≡ name.now.bytes }
{
    name.as_str().as_bytes()
}

/// A letter in small.
pub(crate) fn small_letter(byte: u8) -> u8
    ensures { result ≡ spec.in_small byte }
{
    match byte {
        b'A'..=b'Z' => byte + 32,
        _ => byte,
    }
}

fn are_alike(one: u8, other: u8) -> bool
    ensures { result ≡ spec.are_same_letter one other }
{
    small_letter(one) == small_letter(other)
}

/// The first byte of a word, and what stands behind it.
fn cut(word: &[u8]) -> Option<(u8, &[u8])>
    ensures { MatchOption result (word.now ≡ [])
        (λ cut. (word.now ≡ cut.0 ∷ cut.1.now) × (length cut.1.now < length word.now)) }
{
    let (first, rest) = word.split_first()?;
    Some((*first, rest))
}

/// Whether two words are the same but for capital letters.
fn is_same_small(word: &[u8], name: &[u8]) -> bool
    ensures { result ≡ spec.is_same_small word.now name.now }
{
    match (cut(word), cut(name)) {
        (None, None) => true,
        (Some((first, after)), Some((second, rest))) => {
            are_alike(first, second) && is_same_small(after, rest)
        }
        _ => false,
    }
}

/// Whether a name begins with a word, but for capital letters.
fn begins_small(word: &[u8], name: &[u8]) -> bool
    ensures { result ≡ spec.begins_small word.now name.now }
{
    match (cut(word), cut(name)) {
        (None, _) => true,
        (Some((first, after)), Some((second, rest))) => {
            are_alike(first, second) && begins_small(after, rest)
        }
        _ => false,
    }
}

/// Whether a word of two letters or more is one slip from a name.
pub fn is_near(word: &[u8], name: &[u8]) -> bool
    ensures { result ≡ spec.is_near word.now name.now }
{
    word.len() >= 2 && is_slip(word, name)
}

/// Whether one slip makes a word a name, or none.
fn is_slip(word: &[u8], name: &[u8]) -> bool
    ensures { result ≡ spec.is_slip word.now name.now }
{
    match (cut(word), cut(name)) {
        (None, _) => name.len() <= 1,
        (Some(_), None) => word.len() <= 1,
        (Some((first, after)), Some((second, rest))) => if are_alike(first, second) {
            is_slip(after, rest)
        } else {
            is_other(word, after, name, rest)
        },
    }
}

/// Whether the first letter of a word is wrong and nothing else: in the place of another, too many, missing or exchanged.
fn is_other(word: &[u8], after: &[u8], name: &[u8], rest: &[u8]) -> bool
    ensures { result ≡ spec.is_other word.now after.now name.now rest.now }
{
    is_same_small(after, rest)
        || is_same_small(after, name)
        || is_same_small(word, rest)
        || is_exchanged(word, name)
}

/// Whether the first two letters stand the other way round, and the rest is the same.
fn is_exchanged(word: &[u8], name: &[u8]) -> bool
    ensures { result ≡ spec.is_exchanged word.now name.now }
{
    match (cut(word), cut(name)) {
        (Some((first, after)), Some((second, rest))) => {
            is_exchanged_behind(first, after, second, rest)
        }
        _ => false,
    }
}

fn is_exchanged_behind(first: u8, after: &[u8], second: u8, rest: &[u8]) -> bool
    ensures { result ≡ spec.is_exchanged_behind first after.now second rest.now }
{
    match (cut(after), cut(rest)) {
        (Some((third, after)), Some((fourth, rest))) => {
            are_alike(first, fourth) && are_alike(third, second) && is_same_small(after, rest)
        }
        _ => false,
    }
}
