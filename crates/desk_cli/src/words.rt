//! The commands and their words.
use crate::command::CommandName;
use crate::help::{
    CODES_HELP, EXPLAIN_HELP, GAME_HELP, LINE_HELP, NEED_HELP, PROGRAM_HELP, REPLAY_HELP,
    RULES_HELP, SCORE_HELP, SEATS_HELP, SHAPE_HELP, STANDINGS_HELP, STUDY_HELP, WAITS_HELP,
    WIN_HELP, YAKU_HELP,
};
use clap::{Arg, ArgAction, Command, value_parser};
use std::alloc::{AllocError, Global};

/// The commands and their words. The help says `riichi_desk`, whatever the program's file is named.
pub fn commands<'a>(alloc: Global) -> Result<Command<'a>, AllocError> {
    let mut program = program(alloc)?;
    for name in CommandName::ALL {
        let command = command(alloc, name)?;
        program = program.subcommand(command)?;
    }
    Ok(program)
}

/// The program without its commands.
fn program<'a>(alloc: Global) -> Result<Command<'a>, AllocError> {
    let program = Command::new(alloc, "riichi_desk").bin_name("riichi_desk")?;
    let program = program
        .version("0.1.0")
        .about("A scoring desk for riichi mahjong: hands in Tenhou notation in, answers out")
        .after_help(PROGRAM_HELP)
        .subcommand_required(true);
    Ok(program)
}

/// A command with its words.
fn command<'a>(alloc: Global, name: CommandName) -> Result<Command<'a>, AllocError> {
    match name {
        CommandName::Win => win_command(alloc),
        CommandName::Waits => waits_command(alloc),
        CommandName::Shape => shape_command(alloc),
        CommandName::Line => line_command(alloc),
        CommandName::Explain => explain_command(alloc),
        CommandName::Study => study_command(alloc),
        CommandName::Replay => replay_command(alloc),
        CommandName::Score => score_command(alloc),
        CommandName::Game => game_command(alloc),
        CommandName::Need => need_command(alloc),
        CommandName::Seats => seats_command(alloc),
        CommandName::Standings => standings_command(alloc),
        CommandName::HelpCodes => Ok(codes_command(alloc)),
        CommandName::HelpRules => Ok(rules_command(alloc)),
        CommandName::HelpYaku => Ok(yaku_command(alloc)),
    }
}

/// A command with what the help says of it, and without words.
fn named<'a>(
    alloc: Global,
    name: CommandName,
    about: &'static str,
    help: &'static str,
) -> Command<'a> {
    Command::new(alloc, name.word())
        .about(about)
        .after_help(help)
}

fn win_command<'a>(alloc: Global) -> Result<Command<'a>, AllocError> {
    let args = vec![in alloc;
        rules_arg(alloc),
        hand_arg(
            alloc,
            "Thirteen tiles before the winning one, such as 234m567m345p67s99s"
        ),
        words_arg(
            alloc,
            "on=, by=, seat= and round=; open=, riichi=, flags=, dora=, ura=, counters=, sticks=",
        ),
    ]?;
    let about = "Prints what a winning hand is worth";
    named(alloc, CommandName::Win, about, WIN_HELP).args(args)
}

fn waits_command<'a>(alloc: Global) -> Result<Command<'a>, AllocError> {
    let args = vec![in alloc;
        hand_arg(
            alloc,
            "Thirteen tiles: digits, then m, p, s or z, such as 1112345678999m"
        ),
        words_arg(alloc, "open= with the melds"),
    ]?;
    let about = "Prints the kinds of tile that complete a hand of thirteen tiles";
    named(alloc, CommandName::Waits, about, WAITS_HELP).args(args)
}

fn shape_command<'a>(alloc: Global) -> Result<Command<'a>, AllocError> {
    let args = vec![in alloc;
        hand_arg(
            alloc,
            "Thirteen tiles, or fourteen before a discard, such as 123456789m1134p"
        ),
        words_arg(
            alloc,
            "open= with the melds, seen= with tiles that are seen elsewhere"
        ),
    ]?;
    let about = "Prints how far a hand is from ready, and which tiles bring it nearer";
    named(alloc, CommandName::Shape, about, SHAPE_HELP).args(args)
}

fn hand_arg<'a>(alloc: Global, help: &'static str) -> Arg<'a> {
    words_of(alloc, "HAND", help).required(true)
}

/// The words of a record line behind its hand.
fn words_arg<'a>(alloc: Global, help: &'static str) -> Arg<'a> {
    words_of(alloc, "WORD", help)
        .value_name("KEY=VALUE")
        .num_args(0..)
}

/// Words that stand by themselves.
fn words_of<'a>(alloc: Global, name: &'static str, help: &'static str) -> Arg<'a> {
    Arg::new(alloc, name).help(help)
}

/// An option of this name.
fn option<'a>(alloc: Global, name: &'static str, help: &'static str) -> Arg<'a> {
    Arg::new(alloc, name).long(name).help(help)
}

/// An option without a value.
fn flag<'a>(alloc: Global, name: &'static str, help: &'static str) -> Arg<'a> {
    option(alloc, name, help).action(ArgAction::SetTrue)
}

/// The rules of lines that are given no others. Which they are without the option, `request_of` says.
fn rules_arg<'a>(alloc: Global) -> Arg<'a> {
    let rules = option(
        alloc,
        "rules",
        "The rules where the first line sets none: 1 (as without this option), 2, or with changes, as 1+red-fives-ura (see help-rules)",
    );
    rules.value_name("RULES")
}

fn line_command<'a>(alloc: Global) -> Result<Command<'a>, AllocError> {
    let workers = line_workers_arg(alloc)?;
    let args = vec![in alloc;
        rules_arg(alloc),
        file_arg(alloc),
        number_arg(alloc),
        workers,
        quiet_arg(alloc),
        json_arg(
            alloc,
            "Answers each hand by one object of JSON, what is refused too"
        ),
    ]?;
    let about = "Answers hands from standard input or files, one a line: wins, waits, shapes";
    named(alloc, CommandName::Line, about, LINE_HELP).args(args)
}

/// How many threads answer lines that have no numbers.
fn line_workers_arg<'a>(alloc: Global) -> Result<Arg<'a>, AllocError> {
    workers_arg(alloc, "Answers by so many threads").conflicts_with("number")
}

/// Files in place of standard input.
fn file_arg<'a>(alloc: Global) -> Arg<'a> {
    let file = option(
        alloc,
        "file",
        "Answers the lines of these files in turn, of standard input for -",
    );
    file.value_name("FILE").num_args(1..)
}

/// That the numbers of lines are wanted.
fn number_arg<'a>(alloc: Global) -> Arg<'a> {
    flag(
        alloc,
        "number",
        "Puts the number of its line before each answer, from 1 in each file",
    )
}

/// That it isn't wanted to be shown how far the answers are.
fn quiet_arg<'a>(alloc: Global) -> Arg<'a> {
    flag(
        alloc,
        "quiet",
        "Doesn't show on the terminal how far the answers are",
    )
}

/// That answers are wanted as JSON.
fn json_arg<'a>(alloc: Global, help: &'static str) -> Arg<'a> {
    flag(alloc, "json", help)
}

/// That every reading of a win is wanted.
fn all_arg<'a>(alloc: Global) -> Arg<'a> {
    flag(
        alloc,
        "all",
        "Says below a win what each other reading of the hand is worth",
    )
}

fn explain_command<'a>(alloc: Global) -> Result<Command<'a>, AllocError> {
    let lines = lines_arg(alloc)?;
    let args = vec![in alloc;
        rules_arg(alloc),
        all_arg(alloc),
        file_arg(alloc),
        number_arg(alloc),
        json_arg(
            alloc,
            "Answers each hand by one object of JSON, of a win with the member why, by every reading",
        ),
        lines,
    ]?;
    let about = "Answers hands as the command line does, and says below each answer why it is so";
    named(alloc, CommandName::Explain, about, EXPLAIN_HELP).args(args)
}

/// The hands to explain, in place of files.
fn lines_arg<'a>(alloc: Global) -> Result<Arg<'a>, AllocError> {
    let lines = words_of(
        alloc,
        "LINE",
        "The words of one hand, or hands each in quotes; without any, the lines of standard input",
    );
    lines.num_args(0..).conflicts_with("file")
}

fn study_command<'a>(alloc: Global) -> Result<Command<'a>, AllocError> {
    let workers = line_workers_arg(alloc)?;
    let json = study_json_arg(alloc)?;
    let lines = questions_arg(alloc)?;
    let args = vec![in alloc;
        file_arg(alloc),
        number_arg(alloc),
        workers,
        study_explain_arg(alloc),
        json,
        lines,
    ]?;
    let about =
        "Answers a player's questions: what stands beyond a hand's next step, and which calls help";
    named(alloc, CommandName::Study, about, STUDY_HELP).args(args)
}

/// That it is wanted to be said in words what an answer means.
fn study_explain_arg<'a>(alloc: Global) -> Arg<'a> {
    flag(
        alloc,
        "explain",
        "Says below each answer in words what it means",
    )
}

/// That answers to questions are wanted as JSON, where they aren't to be explained in words.
fn study_json_arg<'a>(alloc: Global) -> Result<Arg<'a>, AllocError> {
    json_arg(
        alloc,
        "Answers each question by one object of JSON, what is refused too",
    )
    .conflicts_with("explain")
}

/// The questions, in place of files.
fn questions_arg<'a>(alloc: Global) -> Result<Arg<'a>, AllocError> {
    let lines = words_of(
        alloc,
        "LINE",
        "The words of one question, or questions each in quotes; without any, those of standard input",
    );
    lines.num_args(0..).conflicts_with("file")
}

fn codes_command<'a>(alloc: Global) -> Command<'a> {
    let about = "Prints every refusal, fault and exit status in words";
    named(alloc, CommandName::HelpCodes, about, CODES_HELP)
}

fn yaku_command<'a>(alloc: Global) -> Command<'a> {
    let about = "Prints every yaku: its word, its Japanese name, its han and its condition";
    named(alloc, CommandName::HelpYaku, about, YAKU_HELP)
}

fn rules_command<'a>(alloc: Global) -> Command<'a> {
    let about = "Prints every rule that a table may choose, and which the profiles have";
    named(alloc, CommandName::HelpRules, about, RULES_HELP)
}

fn replay_command<'a>(alloc: Global) -> Result<Command<'a>, AllocError> {
    let file = words_of(
        alloc,
        "FILE",
        "A script: open, submit, arrive, take, withdraw, close, one a line",
    );
    let about = "Answers a script of tables that submit hands and are given their answers in order";
    named(alloc, CommandName::Replay, about, REPLAY_HELP).arg(file.required(true))
}

fn score_command<'a>(alloc: Global) -> Result<Command<'a>, AllocError> {
    let args = vec![in alloc;
        rules_arg(alloc),
        table_number_arg(alloc),
        quiet_arg(alloc),
        workers_arg(alloc, "How many threads judge hands").default_value("4"),
        tables_arg(alloc),
    ]?;
    let about = "Answers hands from files, table by table, with many threads";
    named(alloc, CommandName::Score, about, SCORE_HELP).args(args)
}

/// That the numbers of lines and the names of tables are wanted.
fn table_number_arg<'a>(alloc: Global) -> Arg<'a> {
    flag(
        alloc,
        "number",
        "Puts the number of its line before each answer, and behind each table its file's name",
    )
}

/// The files of the tables.
fn tables_arg<'a>(alloc: Global) -> Arg<'a> {
    let files = words_of(
        alloc,
        "FILE",
        "Hands, one a line: each file is a table, 64 files and 1,000,000 hands in each are the most",
    );
    files.required(true).num_args(1..)
}

fn game_command<'a>(alloc: Global) -> Result<Command<'a>, AllocError> {
    let json = game_json_arg(alloc)?;
    let sheet = game_sheet_arg(alloc)?;
    let args = vec![in alloc;
        hand_rules_arg(alloc),
        explain_arg(alloc),
        json,
        sheet,
        number_arg(alloc),
        games_arg(alloc),
    ]?;
    let about = "Keeps the points of games of four: what each deal changes, and the final points";
    named(alloc, CommandName::Game, about, GAME_HELP).args(args)
}

fn need_command<'a>(alloc: Global) -> Result<Command<'a>, AllocError> {
    let args = vec![in alloc; hand_rules_arg(alloc), bets_arg(alloc), question_arg(alloc)]?;
    let about = "Prints the least wins that bring a player to a place in the next deal of a game";
    named(alloc, CommandName::Need, about, NEED_HELP)
        .override_usage("riichi_desk need [OPTIONS] <NAME> [PLACE] <FILE>")
        .args(args)
}

fn seats_command<'a>(alloc: Global) -> Result<Command<'a>, AllocError> {
    let args = vec![in alloc;
        seed_arg(alloc),
        behind_arg(alloc),
        search_quiet_arg(alloc),
        hand_rules_arg(alloc),
        ties_arg(alloc),
        so_far_arg(alloc),
        players_arg(alloc),
        sessions_arg(alloc),
    ]?;
    let about = "Writes the games of a tournament's sessions, so that as few as can be meet twice";
    named(alloc, CommandName::Seats, about, SEATS_HELP).args(args)
}

/// The games so far, by whose standings the players sit.
fn so_far_arg<'a>(alloc: Global) -> Arg<'a> {
    let files = option(
        alloc,
        "standings",
        "Seats the players for one session more by their standings in these games: the first four at the first table, and so on",
    );
    files.value_name("FILE").num_args(1..)
}

/// The file of the players.
fn players_arg<'a>(alloc: Global) -> Arg<'a> {
    let file = words_of(
        alloc,
        "FILE",
        "The names of the players, one a line, four for each table, 400 at most; standard input for -",
    );
    file.required(true)
}

/// How many sessions are wanted.
fn sessions_arg<'a>(alloc: Global) -> Arg<'a> {
    words_of(alloc, "SESSIONS", "How many sessions there are")
        .required(true)
        .value_parser(value_parser!(u32).range(1..=32))
}

/// What the drawing is begun with.
fn seed_arg<'a>(alloc: Global) -> Arg<'a> {
    option(
        alloc,
        "seed",
        "Draws by this number; the same number draws the same games",
    )
    .value_name("N")
    .value_parser(value_parser!(u32))
    .default_value("1")
}

/// The words of the rules of a table.
fn behind_arg<'a>(alloc: Global) -> Arg<'a> {
    option(
        alloc,
        "words",
        "Puts these words of the rules of a table behind each game, as table=league",
    )
    .value_name("WORDS")
}

/// That it isn't wanted to be shown how far the search is.
fn search_quiet_arg<'a>(alloc: Global) -> Arg<'a> {
    flag(
        alloc,
        "quiet",
        "Doesn't show on the terminal how far the search is",
    )
}

fn standings_command<'a>(alloc: Global) -> Result<Command<'a>, AllocError> {
    let args = vec![in alloc;
        hand_rules_arg(alloc),
        ties_arg(alloc),
        json_arg(alloc, "Prints an object of JSON for each player"),
        csv_arg(alloc),
        sheet_arg(alloc),
        workers_arg(alloc, "How many files are judged side by side").default_value("4"),
        tournament_arg(alloc),
    ]?;
    let about = "Prints the standings of a tournament by the games of its sessions";
    named(alloc, CommandName::Standings, about, STANDINGS_HELP).args(args)
}

/// What parts players with equal totals.
fn ties_arg<'a>(alloc: Global) -> Arg<'a> {
    let ties = option(
        alloc,
        "ties",
        "What parts equal totals: nothing, more first places, or the best game",
    );
    ties.value_name("WORD")
        .value_parser(["none", "firsts", "best"].as_slice())
        .default_value("none")
}

/// That a table of values with commas between them is wanted.
fn csv_arg<'a>(alloc: Global) -> Arg<'a> {
    flag(
        alloc,
        "csv",
        "Prints a table: a row of the columns' names and one for each player, with commas between",
    )
}

/// That columns are wanted that people read.
fn sheet_arg<'a>(alloc: Global) -> Arg<'a> {
    flag(
        alloc,
        "sheet",
        "Prints columns to be read by people, of lines of 80 columns at most",
    )
}

/// The texts of the games of a tournament.
fn tournament_arg<'a>(alloc: Global) -> Arg<'a> {
    let files = words_of(
        alloc,
        "FILE",
        "Games that are over, with session= and at= where they say their session and table; standard input for -",
    );
    files.required(true).num_args(1..)
}

/// That it is wanted to be said who pays whom and why.
fn explain_arg<'a>(alloc: Global) -> Arg<'a> {
    flag(
        alloc,
        "explain",
        "Says below each deal who pays whom and why, and below a game's end how its totals add up",
    )
}

/// That answers to games are wanted as JSON, where they aren't to be explained in words.
fn game_json_arg<'a>(alloc: Global) -> Result<Arg<'a>, AllocError> {
    json_arg(
        alloc,
        "Answers each line by one object of JSON, a deal with all that it moves",
    )
    .conflicts_with("explain")
}

/// That games are wanted as sheets, where nothing else is wanted of the answers.
fn game_sheet_arg<'a>(alloc: Global) -> Result<Arg<'a>, AllocError> {
    let sheet = flag(
        alloc,
        "sheet",
        "Prints each game in columns, to be read and signed by people",
    );
    sheet
        .conflicts_with("json")?
        .conflicts_with("explain")?
        .conflicts_with("number")
}

/// The rules for hands of games that name none.
fn hand_rules_arg<'a>(alloc: Global) -> Arg<'a> {
    let rules = option(
        alloc,
        "rules",
        "The rules for hands where a game names none: 1 (as without this option), 2, or with changes, as 1+red-fives-ura (see help-rules)",
    );
    rules.value_name("RULES")
}

/// The texts of games.
fn games_arg<'a>(alloc: Global) -> Arg<'a> {
    let files = words_of(
        alloc,
        "FILE",
        "Games, a line for each deal; standard input for -, or where no file is named",
    );
    files.num_args(0..)
}

/// The others who have bet in the deal.
fn bets_arg<'a>(alloc: Global) -> Arg<'a> {
    let bets = option(
        alloc,
        "riichi",
        "Others who declare riichi in the deal, with commas between them",
    );
    bets.value_name("NAMES")
}

/// The player, the place and the file of the game.
fn question_arg<'a>(alloc: Global) -> Arg<'a> {
    let words = words_of(
        alloc,
        "WORD",
        "The player, the place from 1 to 4 (the first, if nothing is said), and the file of the game, of which the last one is asked",
    );
    words
        .value_name("NAME [PLACE] FILE")
        .required(true)
        .num_args(2..=3)
}

/// How many threads judge.
fn workers_arg<'a>(alloc: Global, help: &'static str) -> Arg<'a> {
    option(alloc, "workers", help)
        .value_name("N")
        .value_parser(value_parser!(u32).range(1..=16))
}
