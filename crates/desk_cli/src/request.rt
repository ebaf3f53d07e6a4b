//! What the words of a command line ask for.
ghost use Rattle.std.specs.Prelude.{◌≡◌, None, Some, IfOk, IfErr, MatchOption, codes, option_map};
ghost use Rattle.clap.specs.Matches.{found_of};
ghost use Rattle.riichi_hand.specs.RulesText.{NamesRules};
ghost use Rattle.desk_cli.specs.declared.command.CommandName.{CommandName};
ghost use Rattle.desk_cli.specs.Requests as spec;

use crate::command::{CommandName, is_job, is_study_job};
use clap::ArgMatches;
use riichi_hand::{Rules, read_rules};

/// What the command line asks for.
#[derive(Clone, Copy)]
pub enum Request<'m, 'a> {
    /// Rules that there aren't: this text begins with a word that names none.
    UnknownRules(&'a str),
    /// The waits of this hand.
    Waits(&'a str),
    /// The answers to record lines.
    Lines {
        lines: Lines<'m, 'a>,
        manner: Manner,
        /// Whether it isn't to be shown how far the answers are, as ever where the lines come from no files.
        is_quiet: bool,
    },
    /// The answers to questions of a player or a trainer.
    Study {
        lines: Lines<'m, 'a>,
        manner: StudyManner,
    },
    /// Every code in words.
    HelpCodes,
    /// Every rule that a house may choose.
    HelpRules,
    /// Every yaku with its names, its han and its condition.
    HelpYaku,
    /// The answers to the script of this file.
    Replay(&'a str),
    /// The answers to texts of games, each by itself.
    Games {
        /// The files; standard input where there are none, and for `-`.
        files: Option<&'m [&'a str]>,
        manner: GameManner,
    },
    /// What a player needs.
    Need(NeedRequest<'a>),
    /// The games of sessions.
    Seats(SeatsRequest<'m, 'a>),
    /// The standings of a tournament.
    Standings(StandingsRequest<'m, 'a>),
    /// A place that there isn't.
    UnknownPlace(&'a str),
    /// The answers to the record lines of files, each a table, by so many workers.
    Score {
        files: &'m [&'a str],
        workers: u32,
        rules: Rules,
        /// Whether the files are named, and each answer stands behind the number of its line.
        is_numbered: bool,
        /// Whether it isn't to be shown how far the answers are.
        is_quiet: bool,
    },
}

/// How questions are answered.
#[derive(Clone, Copy)]
pub struct StudyManner {
    pub form: StudyForm,
    /// Whether each answer tells the number of its line.
    pub is_numbered: bool,
    /// By how many threads, where there may be several.
    pub workers: Option<u32>,
}

/// How answers to questions are written.
#[derive(Clone, Copy, Debug, PartialEq, Eq)]
pub enum StudyForm {
    /// In a line for each.
    Answers,
    /// The same, with lines in words below each.
    Explained,
    /// As objects of JSON, one for each.
    Objects,
}

/// How texts of games are answered.
#[derive(Clone, Copy)]
pub struct GameManner {
    /// The rules for hands of games that name none.
    pub rules: Rules,
    /// Whether each answer stands behind the number of its line.
    pub is_numbered: bool,
    pub form: GameForm,
}

/// How answers to games are written.
#[derive(Clone, Copy, Debug, PartialEq, Eq)]
pub enum GameForm {
    /// In words, a line for each.
    Answers,
    /// The same, with what is paid and why below each.
    Explained,
    /// As objects of JSON, one for each.
    Objects,
    /// As sheets of columns, one for each game.
    Sheet,
}

/// What a player needs for a place in the next deal of the last game of a file.
#[derive(Clone, Copy, Debug)]
pub struct NeedRequest<'a> {
    pub name: &'a str,
    /// From 1 to 4.
    pub place: u8,
    pub file: &'a str,
    /// The names of others who bet in the deal, with commas between them.
    pub riichi: Option<&'a str>,
    /// The rules for hands of games that name none.
    pub rules: Rules,
}

/// Who sits where in the sessions of a tournament.
#[derive(Clone, Copy, Debug)]
pub struct SeatsRequest<'m, 'a> {
    /// The file of the names.
    pub file: &'a str,
    pub sessions: u32,
    pub seed: u32,
    /// The words of the rules of a table that stand behind each game.
    pub words: Option<&'a str>,
    /// Whether it isn't to be shown how far the search is.
    pub is_quiet: bool,
    /// The files of the games so far, where the players sit by their standings.
    pub so_far: Option<&'m [&'a str]>,
    /// What parts equal totals there.
    pub ties: TieWord,
    /// The rules for hands of games there that name none.
    pub rules: Rules,
}

/// The standings of a tournament by the games of files.
#[derive(Clone, Copy)]
pub struct StandingsRequest<'m, 'a> {
    /// The files; `-` is standard input.
    pub files: &'m [&'a str],
    /// How many files are judged side by side.
    pub workers: u32,
    /// What parts equal totals.
    pub ties: TieWord,
    pub form: StandingsForm,
    /// The rules for hands of games that name none.
    pub rules: Rules,
}

/// What parts players with equal totals.
#[derive(Clone, Copy, Debug, PartialEq, Eq)]
pub enum TieWord {
    /// Nothing.
    Shared,
    /// More first places.
    Firsts,
    /// The best game.
    Best,
}

/// How standings are written.
#[derive(Clone, Copy, Debug, PartialEq, Eq)]
pub enum StandingsForm {
    /// In words, a line a player.
    Words,
    /// As JSON, an object a player.
    Json,
    /// As a table, with commas between the values of a row.
    Csv,
    /// In columns, to be read by people.
    Sheet,
}

/// How record lines are answered.
#[derive(Clone, Copy)]
pub struct Manner {
    pub form: Form,
    /// Whether each answer stands behind the number of its line.
    pub is_numbered: bool,
    /// By how many threads, where there may be several.
    pub workers: Option<u32>,
    /// The rules where the first line sets none.
    pub rules: Rules,
}

/// How answers are written.
#[derive(Clone, Copy)]
pub enum Form {
    /// In words, a line for each.
    Words,
    /// As JSON, an object on a line for each.
    Json,
    /// In words, with the reasons below each.
    Reasons,
    /// The same, with every reading of a win.
    AllReasons,
    /// As JSON, with the reasons of a win, by every reading.
    JsonReasons,
}

/// Where record lines come from.
#[derive(Clone, Copy)]
pub enum Lines<'m, 'a> {
    /// From standard input.
    Input,
    /// From these files, in turn; `-` is standard input.
    Files(&'m [&'a str]),
    /// These words, each a line.
    Each(&'m [&'a str]),
    /// These words are one line.
    One(&'m [&'a str]),
    /// One line of a job, its hand, and the words behind it.
    Record {
        job: CommandName,
        hand: &'a str,
        words: Option<&'m [&'a str]>,
    },
}

/// What the words ask for; none where they name no command of ours, or lack a word that it needs.
pub fn request_of<'m, 'a>(matches: &'m ArgMatches<'a>) -> Option<Request<'m, 'a>>
    ensures asked { (command : CommandName) → spec.chosen_command matches.now ≡ Some command
        → spec.Asks matches.now command result }
    ensures none { spec.chosen_command matches.now ≡ None → result ≡ None }
{
    let (name, words) = matches.subcommand()?;
    command_request(CommandName::named(name)?, words)
}

fn command_request<'m, 'a>(
    command: CommandName,
    words: &'m ArgMatches<'a>,
) -> Option<Request<'m, 'a>>
    ensures { spec.IsAsked command (found_of words.now) result }
{
    match command {
        CommandName::Line => Some(line_request(words)),
        CommandName::Explain => Some(explain_request(words)),
        CommandName::Study => Some(study_request(words)),
        CommandName::Replay => replay_request(words),
        CommandName::Score => score_request(words),
        CommandName::Game => Some(games_request(words)),
        CommandName::Need => need_request(words),
        CommandName::Seats => seats_request(words),
        CommandName::Standings => standings_request(words),
        CommandName::HelpCodes => Some(Request::HelpCodes),
        CommandName::HelpRules => Some(Request::HelpRules),
        CommandName::HelpYaku => Some(Request::HelpYaku),
        CommandName::Win | CommandName::Waits | CommandName::Shape => record_request(
            command, words,
        ),
    }
}

fn line_request<'m, 'a>(words: &'m ArgMatches<'a>) -> Request<'m, 'a>
    ensures { spec.AsksForLines (found_of words.now) (spec.IsLine (found_of words.now)) result }
{
    let lines = files_or_input(words);
    let is_quiet = words.get_flag("quiet") || !lines.are_of_files();
    lines_request(words, lines, form_in(words), is_quiet)
}

fn explain_request<'m, 'a>(words: &'m ArgMatches<'a>) -> Request<'m, 'a>
    ensures { spec.AsksForLines (found_of words.now) (spec.IsExplain (found_of words.now)) result }
{
    let lines = match files_or_input(words) {
        Lines::Input => told_lines(words),
        files => files,
    };
    lines_request(words, lines, reasons_in(words), true)
}

fn study_request<'m, 'a>(words: &'m ArgMatches<'a>) -> Request<'m, 'a>
    ensures { spec.AsksForStudy (found_of words.now) result }
{
    let lines = match files_or_input(words) {
        Lines::Input => told_questions(words),
        files => files,
    };
    Request::Study {
        lines,
        manner: StudyManner {
            form: study_form_in(words),
            is_numbered: words.get_flag("number"),
            workers: words.get_one("workers"),
        },
    }
}

/// The form that answers to questions are wanted in.
fn study_form_in(words: &ArgMatches<'_>) -> StudyForm
    ensures { spec.IsStudyForm (found_of words.now) result }
{
    let is_told = words.get_flag("explain");
    if words.get_flag("json") {
        StudyForm::Objects
    } else if is_told {
        StudyForm::Explained
    } else {
        StudyForm::Answers
    }
}

/// What a command asks for that is named by the job of its record: the waits of a hand alone are those of a text of tiles.
fn record_request<'m, 'a>(
    command: CommandName,
    words: &'m ArgMatches<'a>,
) -> Option<Request<'m, 'a>>
    ensures { spec.AsksForRecord command (found_of words.now) result }
{
    let hand = words.get_str("HAND")?;
    let behind = words.get_strs("WORD");
    if command == CommandName::Waits && are_none(behind) {
        return Some(Request::Waits(hand));
    }
    let lines = Lines::Record {
        job: command,
        hand,
        words: behind,
    };
    Some(lines_request(words, lines, Form::Words, true))
}

/// Whether no word is given.
fn are_none(words: Option<&[&str]>) -> bool
    ensures { result ≡ spec.are_none (option_map (λ given. spec.texts given.now) words.entry) }
{
    match words {
        Some(given) => given.is_empty(),
        None => true,
    }
}

fn replay_request<'m, 'a>(words: &'m ArgMatches<'a>) -> Option<Request<'m, 'a>>
    ensures { spec.AsksForReplay (found_of words.now) result }
{
    Some(Request::Replay(words.get_str("FILE")?))
}

fn score_request<'m, 'a>(words: &'m ArgMatches<'a>) -> Option<Request<'m, 'a>>
    ensures { spec.AsksForScore (found_of words.now) result }
{
    let files = words.get_strs("FILE")?;
    let workers = words.get_one("workers")?;
    Some(match rules_in(words) {
        Ok(rules) => Request::Score {
            files,
            workers,
            rules,
            is_numbered: words.get_flag("number"),
            is_quiet: words.get_flag("quiet"),
        },
        Err(word) => Request::UnknownRules(word),
    })
}

fn games_request<'m, 'a>(words: &'m ArgMatches<'a>) -> Request<'m, 'a>
    ensures { spec.AsksForGames (found_of words.now) result }
{
    match rules_in(words) {
        Ok(rules) => Request::Games {
            files: words.get_strs("FILE"),
            manner: GameManner {
                rules,
                is_numbered: words.get_flag("number"),
                form: game_form_in(words),
            },
        },
        Err(word) => Request::UnknownRules(word),
    }
}

/// The form that answers to games are wanted in.
fn game_form_in(words: &ArgMatches<'_>) -> GameForm
    ensures { spec.IsGameForm (found_of words.now) result }
{
    let is_json = words.get_flag("json");
    let is_explained = words.get_flag("explain");
    if words.get_flag("sheet") {
        GameForm::Sheet
    } else if is_json {
        GameForm::Objects
    } else if is_explained {
        GameForm::Explained
    } else {
        GameForm::Answers
    }
}

fn standings_request<'m, 'a>(words: &'m ArgMatches<'a>) -> Option<Request<'m, 'a>>
    ensures { spec.AsksForStandings (found_of words.now) result }
{
    let files = words.get_strs("FILE")?;
    let workers = words.get_one("workers")?;
    let ties = ties_in(words)?;
    Some(match rules_in(words) {
        Ok(rules) => Request::Standings(StandingsRequest {
            files,
            workers,
            ties,
            form: standings_form_in(words),
            rules,
        }),
        Err(word) => Request::UnknownRules(word),
    })
}

/// What parts equal totals.
fn ties_in(words: &ArgMatches<'_>) -> Option<TieWord>
    ensures { result ≡ spec.ties_said (spec.ties_option (found_of words.now)) }
{
    ties_said(words.get_str("ties").unwrap_or("none"))
}

/// What a word says that parts equal totals.
fn ties_said(word: &str) -> Option<TieWord>
    ensures { result ≡ spec.ties_said word.now }
{
    match word {
        "none" => Some(TieWord::Shared),
        "firsts" => Some(TieWord::Firsts),
        "best" => Some(TieWord::Best),
        _ => None,
    }
}

/// The form that standings are wanted in; where several are said, as JSON, or else as a table.
fn standings_form_in(words: &ArgMatches<'_>) -> StandingsForm
    ensures { spec.IsStandingsForm (found_of words.now) result }
{
    let is_table = words.get_flag("csv");
    let is_sheet = words.get_flag("sheet");
    if words.get_flag("json") {
        StandingsForm::Json
    } else if is_table {
        StandingsForm::Csv
    } else if is_sheet {
        StandingsForm::Sheet
    } else {
        StandingsForm::Words
    }
}

fn need_request<'m, 'a>(words: &'m ArgMatches<'a>) -> Option<Request<'m, 'a>>
    ensures { spec.AsksForNeed (found_of words.now) result }
{
    let asked = asked_in(words.get_strs("WORD")?)?;
    Some(match place_said(asked.place) {
        None => Request::UnknownPlace(asked.place),
        Some(place) => need_of(words, &asked, place),
    })
}

/// The words of a question.
#[derive(Drop)]
struct Asked<'a> {
    name: &'a str,
    place: &'a str,
    file: &'a str,
}

/// A name, a place and a file; the first place where none is said, and none where the words are neither two nor three.
fn asked_in<'a>(words: &[&'a str]) -> Option<Asked<'a>>
    ensures { MatchOption result (spec.asked_in (spec.texts words.now) ≡ None)
        (λ asked. spec.asked_in (spec.texts words.now) ≡ Some (record {
          name = asked.name.now;
          place = asked.place.now;
          file = asked.file.now;
        })) }
{
    match words {
        [name, file] => Some(Asked {
            name: *name,
            place: "1",
            file: *file,
        }),
        [name, place, file] => Some(Asked {
            name: *name,
            place: *place,
            file: *file,
        }),
        _ => None,
    }
}

fn need_of<'m, 'a>(words: &'m ArgMatches<'a>, asked: &Asked<'a>, place: u8) -> Request<'m, 'a>
    requires words { spec.asked_of (found_of words.now) ≡ Some (record {
      name = asked.now.name.now;
      place = asked.now.place.now;
      file = asked.now.file.now;
    }) }
    requires place { spec.place_said asked.now.place.now ≡ Some place }
    ensures { spec.AsksForNeed (found_of words.now) (Some result) }
{
    match rules_in(words) {
        Ok(rules) => Request::Need(NeedRequest {
            name: asked.name,
            place,
            file: asked.file,
            riichi: words.get_str("riichi"),
            rules,
        }),
        Err(word) => Request::UnknownRules(word),
    }
}

/// The place that a word says.
fn place_said(word: &str) -> Option<u8>
    ensures { result ≡ spec.place_said word.now }
{
    if word == "1" {
        Some(1)
    } else if word == "2" {
        Some(2)
    } else if word == "3" {
        Some(3)
    } else if word == "4" {
        Some(4)
    } else {
        None
    }
}

fn seats_request<'m, 'a>(words: &'m ArgMatches<'a>) -> Option<Request<'m, 'a>>
    ensures { spec.AsksForSeats (found_of words.now) result }
{
    let file = words.get_str("FILE")?;
    let sessions = words.get_one("SESSIONS")?;
    let seed = words.get_one("seed")?;
    let ties = ties_in(words)?;
    match rules_in(words) {
        Ok(rules) => Some(Request::Seats(SeatsRequest {
            file,
            sessions,
            seed,
            words: words.get_str("words"),
            is_quiet: words.get_flag("quiet"),
            so_far: words.get_strs("standings"),
            ties,
            rules,
        })),
        Err(word) => Some(Request::UnknownRules(word)),
    }
}

/// The request to answer these lines in this form, with what the options say.
fn lines_request<'m, 'a>(
    words: &'m ArgMatches<'a>,
    lines: Lines<'m, 'a>,
    form: Form,
    is_quiet: bool,
) -> Request<'m, 'a>
    ensures { spec.AsksForLines (found_of words.now)
        (λ asked_lines asked_form quiet. (asked_lines ≡ lines.entry)
        × (asked_form ≡ form) × (quiet ≡ is_quiet)) result }
{
    match rules_in(words) {
        Ok(rules) => Request::Lines {
            lines,
            manner: Manner {
                form,
                is_numbered: words.get_flag("number"),
                workers: words.get_one("workers"),
                rules,
            },
            is_quiet,
        },
        Err(word) => Request::UnknownRules(word),
    }
}

impl Lines<'_, '_> {
    fn are_of_files(&self) -> bool
        ensures { result ≡ spec.are_of_files self.now }
    {
        matches!(self, Lines::Files(_))
    }
}

/// The files of the option, or else standard input.
fn files_or_input<'m, 'a>(words: &'m ArgMatches<'a>) -> Lines<'m, 'a>
    ensures { spec.AreLines (found_of words.now) result }
{
    match words.get_strs("file") {
        Some(files) => Lines::Files(files),
        None => Lines::Input,
    }
}

/// The lines that are told as words: one line where the first word is a job, else each word is a line.
fn told_lines<'m, 'a>(words: &'m ArgMatches<'a>) -> Lines<'m, 'a>
    ensures { spec.words_under (found_of words.now) (codes "file") ≡ None
        → spec.AreExplained (found_of words.now) result }
{
    match words.get_strs("LINE") {
        None => Lines::Input,
        Some(told) => {
            if are_one_line(told) {
                Lines::One(told)
            } else {
                Lines::Each(told)
            }
        }
    }
}

/// The questions that are told as words: one where the first word begins it, else each word is one.
fn told_questions<'m, 'a>(words: &'m ArgMatches<'a>) -> Lines<'m, 'a>
    ensures { spec.words_under (found_of words.now) (codes "file") ≡ None
        → spec.AreStudied (found_of words.now) result }
{
    match words.get_strs("LINE") {
        None => Lines::Input,
        Some(told) => {
            if are_one_question(told) {
                Lines::One(told)
            } else {
                Lines::Each(told)
            }
        }
    }
}

fn are_one_question(words: &[&str]) -> bool
    ensures { result ≡ spec.are_one_question (spec.texts words.now) }
{
    match words.first() {
        Some(word) => is_study_job(word),
        None => false,
    }
}

fn are_one_line(words: &[&str]) -> bool
    ensures { result ≡ spec.are_one_line (spec.texts words.now) }
{
    match words.first() {
        Some(word) => is_job(word),
        None => false,
    }
}

/// The rules of the option, or the word in it that names none, with what stands behind it.
fn rules_in<'a>(words: &ArgMatches<'a>) -> Result<Rules, &'a str>
    ensures ok { IfOk result (λ rules. NamesRules (spec.rules_option (found_of words.now)) rules) }
    ensures unknown { IfErr result (λ word. spec.IsUnknown (found_of words.now) word.now) }
{
    let text = words.get_str("rules").unwrap_or("1");
    match read_rules(text.as_bytes()) {
        Ok(rules) => Ok(rules),
        Err(fault) => Err(&text[fault.place..]),
    }
}

/// The form that answers are wanted in.
fn form_in(words: &ArgMatches<'_>) -> Form
    ensures { spec.IsLineForm (found_of words.now) result }
{
    if words.get_flag("json") {
        Form::Json
    } else {
        Form::Words
    }
}

/// How many reasons are wanted, and how they are written. As JSON they are all.
fn reasons_in(words: &ArgMatches<'_>) -> Form
    ensures { spec.IsExplainForm (found_of words.now) result }
{
    let is_all = words.get_flag("all");
    if words.get_flag("json") {
        Form::JsonReasons
    } else if is_all {
        Form::AllReasons
    } else {
        Form::Reasons
    }
}
