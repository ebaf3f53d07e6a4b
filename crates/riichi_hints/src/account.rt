//! What became of the words of a refused line in the line that is shown.
ghost use Rattle.std.specs.Prelude.{◌≡◌, ◌++◌, [], IfSome, codes, drop, true};
ghost use Rattle.std.specs.List.{list_any};
ghost use Rattle.riichi_hand.specs.Words.{words_of};
ghost use Rattle.riichi_hints.specs.declared.account.Fate.TheVariants.{Read};
ghost use Rattle.riichi_hints.specs.Account as spec;

use crate::role::{Role, Spot};
use arrayvec::ArrayVec;
use riichi_hand::{Key, next_word};
use riichi_tiles::split_at_mark;

/// The bytes of the longest account.
pub const MOST_ACCOUNT: usize = 1024;

/// A text that says what became of words.
pub type AccountText = ArrayVec<u8, MOST_ACCOUNT>;

/// What became of a word.
#[derive(Clone, Copy, Debug, PartialEq, Eq)]
pub(crate) enum Fate {
    /// It stands in the line that is shown, in upper case or not, by itself or in a longer word.
    Kept,
    /// It is read as the words of this role.
    Read(Role),
    LeftOut,
}

/// What is told of the words of a line and of those of the one that is shown.
#[derive(Drop)]
pub(crate) struct Account {
    text: AccountText,
    /// Nothing is left out for want of room.
    is_whole: bool,
}

impl Account {
    /// Nothing is told yet.
    fn new() -> Account
        ensures text { result.text.items ≡ [] }
    {
        Account {
            text: ArrayVec::new(),
            is_whole: true,
        }
    }

    fn add(&mut self, bytes: &[u8])
        ensures { spec.IsAdded self.old self.new bytes.now }
    {
        if self.text.try_extend_from_slice(bytes).is_err() {
            self.is_whole = false;
        }
    }

    /// Tells what became of each word, behind one that this became of.
    #[tactic(auto, using(crate::proofs::AccountLemmas::added_more))]
    fn tell_words(&mut self, line: &[u8], roles: &[Role], shown: &[u8], before: Fate)
        ensures { spec.IsAdded self.old self.new
            (spec.fates_told before (spec.read_words (words_of line.now)) roles.now (words_of shown.now)) }
    {
        match next_word(line) {
            Some((word, after)) if !begins_note(word) => {
                let (role, others) = first_role(roles);
                let fate = fate_of(word, role, shown);
                self.tell_word(before, fate, word, shown);
                self.tell_words(after, others, shown, fate);
            }
            _ => self.end(before, shown),
        }
    }

    /// Tells of a word behind one that this became of.
    #[tactic(auto, using(crate::proofs::AccountLemmas::added_more))]
    fn tell_word(&mut self, before: Fate, fate: Fate, word: &[u8], shown: &[u8])
        ensures { spec.IsAdded self.old self.new
            (spec.ended_text before fate (words_of shown.now) ++ spec.named_text fate word.now) }
    {
        self.end_before(before, fate, shown);
        self.name(fate, word);
    }

    /// Ends what is told of words that this became of, unless it goes on.
    #[tactic(auto, using(crate::proofs::AccountLemmas::added_nothing))]
    fn end_before(&mut self, before: Fate, fate: Fate, shown: &[u8])
        ensures { spec.IsAdded self.old self.new
            (spec.ended_text before fate (words_of shown.now)) }
    {
        if !goes_on(before, fate) {
            self.end(before, shown);
        }
    }

    #[tactic(auto, using(crate::proofs::AccountLemmas::added_more, crate::proofs::AccountLemmas::added_nothing))]
    fn name(&mut self, fate: Fate, word: &[u8])
        ensures { spec.IsAdded self.old self.new (spec.named_text fate word.now) }
    {
        match fate {
            Fate::Kept => {}
            _ => self.add_spaced(word),
        }
    }

    #[tactic(auto, using(crate::proofs::AccountLemmas::added_more))]
    fn add_spaced(&mut self, word: &[u8])
        ensures { spec.IsAdded self.old self.new (codes " " ++ word.now) }
    {
        self.add(b" ");
        self.add(word);
    }

    /// Ends what is told of words that this became of.
    #[tactic(auto, using(crate::proofs::AccountLemmas::added_more, crate::proofs::AccountLemmas::added_nothing))]
    fn end(&mut self, fate: Fate, shown: &[u8])
        ensures { spec.IsAdded self.old self.new (spec.fate_text fate (words_of shown.now)) }
    {
        match fate {
            Fate::Kept => {}
            Fate::LeftOut => self.add(b" is left out."),
            Fate::Read(role) => self.end_reading(role, shown),
        }
    }

    #[tactic(auto, using(crate::proofs::AccountLemmas::added_thrice))]
    fn end_reading(&mut self, role: Role, shown: &[u8])
        ensures { spec.IsAdded self.old self.new (spec.fate_text (Read role) (words_of shown.now)) }
    {
        self.add(b" is read as");
        self.add_shown(role, Spot::First, shown);
        self.add(b".");
    }

    /// Adds the words of a role, of a line from this place on.
    #[tactic(auto, using(crate::proofs::AccountLemmas::added_more, crate::proofs::AccountLemmas::added_nothing))]
    fn add_shown(&mut self, role: Role, spot: Spot, shown: &[u8])
        ensures { spec.IsAdded self.old self.new
            (spec.role_text role spot (words_of shown.now)) }
    {
        if let Some((word, rest)) = next_word(shown) {
            self.add_if(fits(role, spot, word), word);
            self.add_shown(role, spot.next(), rest);
        }
    }

    #[tactic(auto, using(crate::proofs::AccountLemmas::added_nothing))]
    fn add_if(&mut self, is_told: bool, word: &[u8])
        ensures { spec.IsAdded self.old self.new (spec.spaced_if is_told word.now) }
    {
        if is_told {
            self.add_spaced(word);
        }
    }

    /// Tells which words of a line, from this place on, are guesses: those that no word is read as.
    #[tactic(auto, using(crate::proofs::AccountLemmas::added_more, crate::proofs::AccountLemmas::added_nothing))]
    fn tell_guesses(&mut self, roles: &[Role], spot: Spot, shown: &[u8])
        ensures { spec.IsAdded self.old self.new
            (spec.guesses_text roles.now spot (words_of shown.now)) }
    {
        if let Some((word, rest)) = next_word(shown) {
            self.tell_guess(is_guess(roles, spot, word), word);
            self.tell_guesses(roles, spot.next(), rest);
        }
    }

    #[tactic(auto, using(crate::proofs::AccountLemmas::added_thrice, crate::proofs::AccountLemmas::added_nothing))]
    fn tell_guess(&mut self, is_told: bool, word: &[u8])
        ensures { spec.IsAdded self.old self.new (spec.guess_text is_told word.now) }
    {
        if is_told {
            self.add(b" ");
            self.add(word);
            self.add(b" is a guess.");
        }
    }

    /// The account, where nothing of it is left out.
    fn whole(self) -> Option<AccountText>
        ensures { IfSome result (λ text. (self.is_whole ≡ true) × (text.items ≡ self.text.items)) }
    {
        if self.is_whole { Some(self.text) } else { None }
    }
}

/// What became of the words of a line that are read in these roles, and which words of the one that is shown are guesses. None
/// where there is no room to tell it.
pub(crate) fn account_of(line: &[u8], roles: &[Role], shown: &[u8]) -> Option<AccountText>
    ensures { IfSome result (λ text. text.items
        ≡ spec.account_text (spec.read_words (words_of line.now)) roles.now (words_of shown.now)) }
{
    let mut account = Account::new();
    account.tell_words(line, roles, shown, Fate::Kept);
    account.tell_guesses(roles, Spot::First, shown);
    account.whole()
}

/// Whether some word of a line, from this place on, is a guess.
pub(crate) fn has_guess(roles: &[Role], spot: Spot, shown: &[u8]) -> bool
    ensures { result ≡ spec.has_guess roles.now spot (words_of shown.now) }
{
    match next_word(shown) {
        None => false,
        Some((word, rest)) => is_guess(roles, spot, word) || has_guess(roles, spot.next(), rest),
    }
}

/// A word behind the job and the hand that no word is read as, or one of which another may be meant as well.
fn is_guess(roles: &[Role], spot: Spot, word: &[u8]) -> bool
    ensures { result ≡ spec.is_guess roles.now spot word.now }
{
    matches!(spot, Spot::Later) && (!is_read(roles, spot, word) || is_doubted(roles, spot, word))
}

/// Whether a word is read as it of which another may be meant as well.
fn is_doubted(roles: &[Role], spot: Spot, word: &[u8]) -> bool
    ensures { result ≡ list_any (λ role. spec.role_doubts role spot word.now) roles.now }
{
    roles.iter().any(|role| doubts(*role, spot, word))
}

fn doubts(role: Role, spot: Spot, word: &[u8]) -> bool
    ensures { result ≡ spec.role_doubts role spot word.now }
{
    matches!(role, Role::Likely(_) | Role::Winds) && fits(role, spot, word)
}

/// Whether a word is read as it.
fn is_read(roles: &[Role], spot: Spot, word: &[u8]) -> bool
    ensures { result ≡ list_any (λ role. spec.fits role spot word.now) roles.now }
{
    roles.iter().any(|role| fits(*role, spot, word))
}

/// Whether a note begins with a word.
pub(crate) fn begins_note(word: &[u8]) -> bool
    ensures { result ≡ spec.opens_note word.now }
{
    match word {
        [first, ..] => *first == b'#',
        [] => false,
    }
}

/// The role of the first word, and those of the others. A word without a role is left out.
fn first_role(roles: &[Role]) -> (Role, &[Role])
    ensures { (result.0 ≡ spec.first_role roles.now) × (result.1.now ≡ drop 1 roles.now) }
{
    match roles {
        [first, others @ ..] => (*first, others),
        [] => (Role::Unread, roles),
    }
}

/// Whether one word goes on the line of another before it, of which this became.
fn goes_on(before: Fate, fate: Fate) -> bool
    ensures { result ≡ spec.goes_on before fate }
{
    match (before, fate) {
        (Fate::Kept, Fate::Kept) => true,
        (Fate::LeftOut, Fate::LeftOut) => true,
        (Fate::Read(Role::Hand), Fate::Read(Role::Hand)) => true,
        (Fate::Read(Role::Numbered), Fate::Read(Role::Numbered)) => true,
        _ => false,
    }
}

/// What became of a word of this role.
fn fate_of(word: &[u8], role: Role, shown: &[u8]) -> Fate
    ensures { result ≡ spec.fate_of word.now role (words_of shown.now) }
{
    if stands_shown(word, role, Spot::First, shown) {
        Fate::Kept
    } else if is_shown(role, Spot::First, shown) {
        Fate::Read(role)
    } else {
        Fate::LeftOut
    }
}

/// Whether a line, from this place on, has a word of this role.
fn is_shown(role: Role, spot: Spot, shown: &[u8]) -> bool
    ensures { result ≡ spec.is_shown role spot (words_of shown.now) }
{
    match next_word(shown) {
        None => false,
        Some((word, rest)) => fits(role, spot, word) || is_shown(role, spot.next(), rest),
    }
}

/// Whether it has one in which this word stands.
fn stands_shown(word: &[u8], role: Role, spot: Spot, shown: &[u8]) -> bool
    ensures { result ≡ spec.stands_shown word.now role spot (words_of shown.now) }
{
    match next_word(shown) {
        None => false,
        Some((other, rest)) => {
            (is_as_typed(role) && fits(role, spot, other) && stands_in(word, other))
                || stands_shown(word, role, spot.next(), rest)
        }
    }
}

/// A number of a tile isn't kept, though the hand may have its digits.
fn is_as_typed(role: Role) -> bool
    ensures { result ≡ spec.is_as_typed role }
{
    !matches!(role, Role::Numbered)
}

/// Whether a word in this place is of a role.
fn fits(role: Role, spot: Spot, word: &[u8]) -> bool
    ensures { result ≡ spec.fits role spot word.now }
{
    match (role, spot) {
        (Role::Job, Spot::First) => true,
        (Role::Hand | Role::Numbered, Spot::Second) => true,
        (Role::Entry(key) | Role::Likely(key), Spot::Later) => has_key(key, word),
        (Role::Won, Spot::Later) => has_key(Key::On, word) || has_key(Key::By, word),
        (Role::Winds, Spot::Later) => has_key(Key::Seat, word) || has_key(Key::Round, word),
        _ => false,
    }
}

fn has_key(key: Key, word: &[u8]) -> bool
    ensures { result ≡ spec.has_key_before key word.now }
{
    match split_at_mark(word, b'=') {
        Some((name, _)) => key.name().as_bytes() == name,
        None => false,
    }
}

/// Whether a word stands in another, its letters in upper case or not.
#[tactic(auto, using(crate::proofs::AccountLemmas::stands_in_nothing, crate::proofs::AccountLemmas::stands_in_more))]
fn stands_in(word: &[u8], other: &[u8]) -> bool
    ensures { result ≡ spec.stands_in word.now other.now }
{
    match other {
        [] => begins(other, word),
        [_, rest @ ..] => begins(other, word) || stands_in(word, rest),
    }
}

/// Whether a word begins with these letters, in upper case or not.
#[tactic(auto, using(crate::proofs::AccountLemmas::begins_nothing, crate::proofs::AccountLemmas::nothing_begins, crate::proofs::AccountLemmas::begins_more))]
fn begins(word: &[u8], letters: &[u8]) -> bool
    ensures { result ≡ spec.begins_as word.now letters.now }
{
    match letters {
        [] => true,
        [letter, others @ ..] => match word {
            [] => false,
            [one, rest @ ..] => small(*one) == small(*letter) && begins(rest, others),
        },
    }
}

/// A letter that is no capital, and `=` for a colon.
fn small(letter: u8) -> u8
    ensures { result ≡ spec.small_byte letter }
{
    match letter {
        b'A'..=b'Z' => letter + 32,
        b':' => b'=',
        _ => letter,
    }
}
