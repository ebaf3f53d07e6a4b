//! Texts that are none of record lines, by their first bytes.
ghost use Rattle.std.specs.Prelude.{◌≡◌};
ghost use Rattle.desk_notes.specs.Signs as spec;

use std::fmt;

/// What the first bytes of a text show that is none of record lines.
#[derive(Clone, Copy, Debug, PartialEq, Eq)]
pub enum Sign {
    /// It begins as a text of games does.
    Games,
    /// A byte order mark stands before the first line, as editors put it that save UTF-8 with one.
    Mark,
    /// It is UTF-16, two bytes a character, as Notepad saves `Unicode` and Windows PowerShell writes behind `>`.
    Wide,
}

/// What the first bytes of a text show, where it is none of record lines.
pub(crate) fn sign_of(text: &[u8]) -> Option<Sign>
    ensures { result ≡ spec.sign_of text.now }
{
    match text {
        [b'g', b'a', b'm', b'e', end, ..] if end.is_ascii_whitespace() => Some(Sign::Games),
        [0xEF, 0xBB, 0xBF, ..] => Some(Sign::Mark),
        [0xFF, 0xFE, ..] | [0xFE, 0xFF, ..] => Some(Sign::Wide),
        _ => None,
    }
}

impl Sign {
    /// What is said of such a text.
    fn words(self) -> &'static str
        ensures { result.now ≡ spec.sign_words self }
    {
        match self {
            Sign::Games =>
                "the first line begins a game of four players; `riichi_desk game` reads such a text",
            Sign::Mark =>
                "a byte order mark stands before the first line, which is not read as it looks; save the text as UTF-8 without one (in Notepad `UTF-8`, not `UTF-8 with BOM`; in PowerShell `Set-Content -Encoding ascii`)",
            Sign::Wide =>
                "the text is UTF-16, and no line of it can be read; save it as UTF-8 (in Notepad `UTF-8`; in PowerShell `Get-Content OLD | Set-Content -Encoding ascii NEW`)",
        }
    }
}

/// That a text is none of record lines.
#[derive(Drop)]
pub struct SignWords<'s> {
    /// The name of the text.
    pub name: &'s str,
    pub sign: Sign,
}

impl fmt::Display for SignWords<'_> {
    ghost use Rattle.std.specs.Prelude.{Some};
    ghost use Rattle.desk_notes.specs.Signs.{sign_line};

    ghost output = { λ words. Some (sign_line words.name.now words.sign) };

    fn fmt<W: fmt::Write>(&self, f: &mut fmt::Formatter<W>) -> fmt::Result {
        let (name, words) = (self.name, self.sign.words());
        write!(f, "riichi_desk: {name}: {words}")
    }
}
