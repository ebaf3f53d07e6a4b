//! What a line says that another one has to say too: its numbers, and its players.
ghost use Rattle.std.specs.Prelude.{◌≡◌, ◌≤◌, IsTrue, length, map};
ghost use Rattle.riichi_hand.specs.Words.{words_of};
ghost use Rattle.riichi_game_text.specs.Names.{names_in};
ghost use Rattle.riichi_game_hints.specs.Keeping as spec;

use arrayvec::ArrayVec;
use riichi_game_text::Names;
use riichi_hand::next_word;
use riichi_table::Player;
use riichi_tiles::is_digit;

/// The bytes of the longest line that is compared.
pub(crate) const MOST_COMPARED: usize = 512;

/// The words of a line.
type Parted = ArrayVec<u8, MOST_COMPARED>;

/// Whether one line says the same numbers as another, in order, and each player as often.
pub(crate) fn keeps(names: &Names, line: &[u8], other: &[u8]) -> bool
    ensures { IsTrue result → spec.Keeps (names_in names.now) line.now other.now }
{
    if line.len() > MOST_COMPARED || other.len() > MOST_COMPARED {
        return false;
    }
    keeps_numbers(line, other) && keeps_players(names, line, other)
}

/// Whether one line has the numbers of another, in order.
fn keeps_numbers(line: &[u8], other: &[u8]) -> bool
    requires line { length line.now ≤ MOST_COMPARED }
    requires other { length other.now ≤ MOST_COMPARED }
    ensures { IsTrue result → spec.numbers_in line.now ≡ spec.numbers_in other.now }
{
    let numbers = digits_alone(line);
    let others = digits_alone(other);
    same_words(numbers.as_slice(), others.as_slice())
}

/// Whether each player is named as often in one line as in another.
fn keeps_players(names: &Names, line: &[u8], other: &[u8]) -> bool
    requires line { length line.now ≤ MOST_COMPARED }
    requires other { length other.now ≤ MOST_COMPARED }
    ensures { IsTrue result → spec.KeepsPlayers (names_in names.now) line.now other.now }
{
    keeps_player(names, line, other, Player::First)
        && keeps_player(names, line, other, Player::Second)
        && keeps_player(names, line, other, Player::Third)
        && keeps_player(names, line, other, Player::Fourth)
}

fn keeps_player(names: &Names, line: &[u8], other: &[u8], player: Player) -> bool
    requires line { length line.now ≤ MOST_COMPARED }
    requires other { length other.now ≤ MOST_COMPARED }
    ensures { IsTrue result → spec.KeepsPlayer (names_in names.now) line.now other.now player }
{
    times_named(names, line, player) == times_named(names, other, player)
}

/// How often a line names a player.
fn times_named(names: &Names, line: &[u8], player: Player) -> usize
    requires { length line.now ≤ MOST_COMPARED }
    ensures { result ≡ spec.times_named (names_in names.now) player line.now }
{
    let words = parted(line);
    times_in(names, words.as_slice(), player)
}

/// How many words of a text name a player.
fn times_in(names: &Names, text: &[u8], player: Player) -> usize
    requires { length text.now ≤ MOST_COMPARED }
    ensures { result ≡ spec.times_in (names_in names.now) player (words_of text.now) }
{
    let mut times = 0;
    let mut rest = text;
    while let Some((word, after)) = next_word(rest) {
        if is_named(names, word, player) {
            times += 1;
        }
        rest = after;
    }
    times
}

fn is_named(names: &Names, word: &[u8], player: Player) -> bool
    ensures { result ≡ spec.is_named (names_in names.now) player word.now }
{
    match names.find(word) {
        None => false,
        Some(named) => named.is(player),
    }
}

/// Whether two texts have the same words.
fn same_words(one: &[u8], other: &[u8]) -> bool
    ensures { IsTrue result → words_of one.now ≡ words_of other.now }
{
    let mut rest = one;
    let mut others = other;
    while let Some((word, after)) = next_word(rest) {
        let Some((next, behind)) = next_word(others) else {
            return false;
        };
        if word != next {
            return false;
        }
        rest = after;
        others = behind;
    }
    next_word(others).is_none()
}

/// The line with spaces in the place of all that is no digit.
#[tactic(auto, using(crate::proofs::KeepLemmas::digits_more))]
fn digits_alone(line: &[u8]) -> Parted
    requires { length line.now ≤ MOST_COMPARED }
    ensures { result.items ≡ map spec.digit_or_space line.now }
{
    let mut digits = Parted::new();
    for byte in line {
        digits.push(digit_or_space(*byte));
    }
    digits
}

fn digit_or_space(byte: u8) -> u8
    ensures { result ≡ spec.digit_or_space byte }
{
    if is_digit(byte) { byte } else { b' ' }
}

/// The line with spaces in the place of the marks that no name has.
#[tactic(auto, using(crate::proofs::KeepLemmas::parted_more))]
fn parted(line: &[u8]) -> Parted
    requires { length line.now ≤ MOST_COMPARED }
    ensures { result.items ≡ map spec.space_for_mark line.now }
{
    let mut parted = Parted::new();
    for byte in line {
        parted.push(space_for_mark(*byte));
    }
    parted
}

fn space_for_mark(byte: u8) -> u8
    ensures { result ≡ spec.space_for_mark byte }
{
    match byte {
        b',' | b':' | b'=' => b' ',
        _ => byte,
    }
}
