//! What keeps the program from an answer, and how it is reported.
ghost use Rattle.std.specs.Bool.{OnTrue};
ghost use Rattle.riichi_desk.specs.Failures.{HasStatus, IsReportedBy, IsUnwritten};

use crate::needs::NoNeed;
use crate::scoring::ScoreLimit;
use clap::Error;
use clap::error::ErrorKind;
use desk_lines::DeskFault;
use desk_score::ScoreFault;
use desk_standings::{Trouble, Why};
use riichi_hand::Switch;
use riichi_seats_text::ListFault;
use std::alloc::AllocError;
use std::io::{Eprint, Print};

/// What keeps the program from an answer.
#[derive(Debug, Drop)]
pub enum Failure<'a> {
    /// The words are no command; clap says why, or shows the help that was asked for.
    Words(Error),
    /// The words aren't text.
    Text,
    /// No rule that a house may choose has this name; one that is near.
    UnknownRule {
        word: &'a str,
        nearest: Option<Switch>,
    },
    /// There are the places 1 to 4, and not this one.
    UnknownPlace(&'a str),
    /// There is nothing that a player needs.
    NoNeed {
        file: &'a str,
        name: &'a str,
        riichi: Option<&'a str>,
        why: NoNeed,
    },
    /// This file is no list of names.
    NoList {
        file: &'a str,
        fault: ListFault,
    },
    /// These words say no rules of a table.
    NoTableWords(&'a str),
    /// A game of this file can't stand in a tournament.
    NoTournament {
        file: &'a str,
        trouble: Trouble,
    },
    /// This session of a tournament has fewer games than the one before it.
    FewerTables(u32),
    /// More sessions than one are wanted by the standings so far.
    OneSession,
    /// The games so far don't say their sessions.
    SessionsUnsaid,
    /// This file can't be opened.
    CannotOpen(&'a str),
    /// A score met this limit.
    Score(ScoreLimit<'a>),
    /// Input, output, memory or a thread failed, or there is too much.
    Fault(ScoreFault),
    /// The same of the command that explains, and so is reported in words.
    Explained(DeskFault),
}

impl<'a> From<AllocError> for Failure<'a> {
    ghost use Rattle.std.specs.Prelude.{◌≡◌};
    ghost use Rattle.desk_score.specs.declared.score_fault.ScoreFault.TheVariants.{Memory};
    ghost use Rattle.riichi_desk.specs.declared.failure.Failure.TheVariants.{Fault};

    ghost from_gives = { λ _ given. given ≡ Fault Memory };

    fn from(_error: AllocError) -> Failure<'a> {
        Failure::Fault(ScoreFault::Memory)
    }
}

impl<'a> From<DeskFault> for Failure<'a> {
    ghost use Rattle.std.specs.Prelude.{◌≡◌};
    ghost use Rattle.desk_score.specs.Faults.{desk_fault};
    ghost use Rattle.riichi_desk.specs.declared.failure.Failure.TheVariants.{Fault};

    ghost from_gives = { λ fault given. given ≡ Fault (desk_fault fault) };

    fn from(fault: DeskFault) -> Failure<'a> {
        Failure::Fault(ScoreFault::from(fault))
    }
}

impl<'a> From<ScoreFault> for Failure<'a> {
    ghost use Rattle.std.specs.Prelude.{◌≡◌};
    ghost use Rattle.riichi_desk.specs.declared.failure.Failure.TheVariants.{Fault};

    ghost from_gives = { λ fault given. given ≡ Fault fault };

    fn from(fault: ScoreFault) -> Failure<'a> {
        Failure::Fault(fault)
    }
}

impl<'a> From<Error> for Failure<'a> {
    ghost use Rattle.std.specs.Prelude.{◌≡◌, ◌≢◌};
    ghost use Rattle.clap.specs.Values.{kind_of};
    ghost use Rattle.clap.specs.declared.error.ErrorKind.TheVariants.{OutOfMemory};
    ghost use Rattle.desk_score.specs.declared.score_fault.ScoreFault.TheVariants.{Memory};
    ghost use Rattle.riichi_desk.specs.declared.failure.Failure.TheVariants.{Fault, Words};

    ghost from_gives = { λ error given. (kind_of error ≡ OutOfMemory → given ≡ Fault Memory)
        × (kind_of error ≢ OutOfMemory → given ≡ Words error) };

    fn from(error: Error) -> Failure<'a> {
        match error.kind() {
            ErrorKind::OutOfMemory => Failure::Fault(ScoreFault::Memory),
            _ => Failure::Words(error),
        }
    }
}

impl Failure<'_> {
    /// Whether the answers could not be written.
    pub fn is_write(&self) -> bool
        ensures { OnTrue result (IsUnwritten self.now) }
    {
        match self {
            Failure::Fault(ScoreFault::Write) | Failure::Explained(DeskFault::Write) => true,
            _ => false,
        }
    }

    /// Whether a file could not be opened, the input not be read, or the answers not be written.
    pub fn is_of_stream(&self) -> bool {
        match self {
            Failure::CannotOpen(_) => true,
            Failure::Fault(ScoreFault::Read) | Failure::Explained(DeskFault::Read) => true,
            _ => self.is_write(),
        }
    }

    /// The exit status: 2 for a fault of the command line or too much of something, 3 for input or output, 4 for memory or a
    /// thread; 0 where help or the version was asked for.
    fn status(&self) -> u8
        ensures { HasStatus self.now result }
    {
        match self {
            Failure::Words(error) => { if error.use_stderr() { 2 } else { 0 } }
            Failure::Text
            | Failure::UnknownRule { .. }
            | Failure::UnknownPlace(_)
            | Failure::NoNeed { .. }
            | Failure::NoList { .. }
            | Failure::NoTableWords(_)
            | Failure::NoTournament { .. }
            | Failure::FewerTables(_)
            | Failure::OneSession
            | Failure::SessionsUnsaid => 2,
            Failure::CannotOpen(_) => 3,
            Failure::Score(limit) => limit.fault().status(),
            Failure::Fault(fault) => fault.status(),
            Failure::Explained(fault) => ScoreFault::from(*fault).status(),
        }
    }
}

fn tell_unknown_rule<R: Eprint>(rt: &R, word: &str, nearest: Option<Switch>) {
    let _ = match nearest {
        Some(switch) => {
            let near = switch.word();
            eprintln!(rt;
                "error: --rules has no rule `{word}`; `{near}` is near (help-rules lists all)"
            )
        }
        None => eprintln!(rt;
            "error: --rules has no rule `{word}`; 1 or 2 stands first, and behind it + or - and a rule of help-rules"
        ),
    };
}

fn tell_no_need<R: Eprint>(rt: &R, file: &str, name: &str, riichi: &str, why: NoNeed) {
    let _ = match why {
        NoNeed::NoGame => eprintln!(rt;
            "riichi_desk: {file}: a line of the last game is refused, or there is no game"
        ),
        NoNeed::Over => eprintln!(rt; "riichi_desk: {file}: the last game is over"),
        NoNeed::NoPlayer => eprintln!(rt;
            "riichi_desk: {file}: `{name}` is no player of the last game"
        ),
        NoNeed::NoBettors => eprintln!(rt;
            "riichi_desk: {file}: `{riichi}` are not players of the last game, each once"
        ),
    };
}

fn tell_unknown_place<R: Eprint>(rt: &R, word: &str) {
    let _ = eprintln!(rt; "error: a place is 1, 2, 3 or 4, and not `{word}`");
}

fn tell_no_table_words<R: Eprint>(rt: &R, words: &str) {
    let _ = eprintln!(rt; "error: --words says no rules of a table: `{words}`");
}

fn tell_no_list<R: Eprint>(rt: &R, file: &str, fault: ListFault) {
    let _ = match fault {
        ListFault::NoName(line) => eprintln!(rt;
            "riichi_desk: {file}: line {line} is no name: one word of 32 bytes at most, without comma, `=` and `:`"
        ),
        ListFault::Twice(line) => eprintln!(rt;
            "riichi_desk: {file}: the name of line {line} stands on a line before it"
        ),
        ListFault::NotFours(names) => eprintln!(rt;
            "riichi_desk: {file}: each table has four players, and there are {names} names"
        ),
        ListFault::TooMany => eprintln!(rt; "riichi_desk: {file}: there are more than 400 names"),
    };
}

/// Says which game of a file can't stand in a tournament, and why.
fn tell_trouble<R: Eprint>(rt: &R, file: &str, trouble: &Trouble) {
    let (game, line) = (trouble.game, trouble.line);
    let _ = match &trouble.why {
        Why::NoGame => eprintln!(rt; "riichi_desk: {file}: there is no game"),
        Why::Refused => eprintln!(rt;
            "riichi_desk: {file}: game {game}, line {line}: the line is refused"
        ),
        Why::Unfinished => eprintln!(rt;
            "riichi_desk: {file}: game {game}, line {line}: the game isn't over"
        ),
        Why::OtherRules(rule) => {
            let word = rule.word();
            eprintln!(rt;
                "riichi_desk: {file}: game {game}, line {line}: `{word}` isn't as in the first game"
            )
        }
        Why::PlayerTwice(name) => {
            let name = name.as_str();
            eprintln!(rt;
                "riichi_desk: {file}: game {game}, line {line}: `{name}` has had a game in that session"
            )
        }
        Why::SessionUnsaid => eprintln!(rt;
            "riichi_desk: {file}: game {game}, line {line}: some games say `session=`, and others don't"
        ),
        Why::TableTwice => eprintln!(rt;
            "riichi_desk: {file}: game {game}, line {line}: the table has had a game in that session"
        ),
        Why::TooMany => eprintln!(rt;
            "riichi_desk: {file}: game {game}, line {line}: there are too many players or games"
        ),
        Why::Memory => eprintln!(rt; "riichi_desk: {file}: there is no memory"),
    };
}

/// Says which session has too few games.
fn tell_thin<R: Eprint>(rt: &R, session: u32) {
    let _ = eprintln!(rt; "riichi_desk: session {session} has fewer games than the one before it");
}

/// Says which fault it is, and for want of memory or a thread that in words; of a stream that failed it is said below.
fn tell_fault<R: Eprint>(rt: &R, fault: ScoreFault) {
    let (code, words) = (fault.code(), fault.words());
    let _ = eprintln!(rt; "riichi_desk: fault {code}");
    let _ = match fault {
        ScoreFault::Memory | ScoreFault::Thread => eprintln!(rt; "  {words}"),
        ScoreFault::Read | ScoreFault::Write | ScoreFault::Range => Ok(()),
    };
}

/// Says which limit a score met, and what may be done.
fn tell_limit<R: Eprint>(rt: &R, limit: &ScoreLimit<'_>) {
    tell_fault(rt, limit.fault());
    let _ = match *limit {
        ScoreLimit::Files(count) => eprintln!(rt;
            "  {count} files: `score` takes 64 at most, and 1000000 hands of each; run it twice, or `line --file`, which takes any number"
        ),
        ScoreLimit::Hands(Some(file)) => eprintln!(rt;
            "  {file}: `score` takes 1000000 hands of a file at most; cut it in two, or run `line --file`, which takes any number"
        ),
        ScoreLimit::Hands(None) => eprintln!(rt;
            "  `score` takes 1000000 hands of a file at most; `line --file` takes any number"
        ),
        ScoreLimit::Memory => eprintln!(rt;
            "  `score` keeps all answers until the last is made; `line --file` writes them as they are made"
        ),
    };
}

fn say<R: Eprint>(rt: &R, words: &str) {
    let _ = eprintln!(rt; "{words}");
}

/// Says on standard error why the program stops, and returns its exit status; 3 where that can't be written either.
pub fn report<R: Print + Eprint>(rt: &R, failure: &Failure<'_>) -> u8
    ensures { IsReportedBy failure.now result }
{
    match failure {
        Failure::Words(error) => {
            if error.print(rt).is_err() {
                return 3;
            }
        }
        Failure::Text => say(rt, "error: the words of the command line aren't UTF-8 text"),
        Failure::UnknownRule { word, nearest } => tell_unknown_rule(rt, *word, *nearest),
        Failure::UnknownPlace(word) => tell_unknown_place(rt, *word),
        Failure::NoNeed {
            file,
            name,
            riichi,
            why,
        } => tell_no_need(rt, *file, *name, riichi.unwrap_or(""), *why),
        Failure::NoList { file, fault } => tell_no_list(rt, *file, *fault),
        Failure::NoTableWords(words) => tell_no_table_words(rt, *words),
        Failure::NoTournament { file, trouble } => tell_trouble(rt, *file, trouble),
        Failure::FewerTables(session) => tell_thin(rt, *session),
        Failure::OneSession => say(
            rt,
            "error: with --standings one session is seated, and SESSIONS is 1",
        ),
        Failure::SessionsUnsaid => {
            say(rt, "riichi_desk: the games so far don't say `session=`");
        }
        Failure::CannotOpen(file) => {
            let file = *file;
            let _ = eprintln!(rt; "riichi_desk: cannot open {file}");
        }
        Failure::Score(limit) => tell_limit(rt, limit),
        Failure::Fault(fault) => tell_fault(rt, *fault),
        Failure::Explained(fault) => {
            let fault = ScoreFault::from(*fault);
            let (code, words) = (fault.code(), fault.words());
            let _ = eprintln!(rt; "riichi_desk: fault {code}: {words}");
        }
    }
    failure.status()
}
