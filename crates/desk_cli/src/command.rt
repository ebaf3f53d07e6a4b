//! The commands by their words.
ghost use Rattle.std.specs.Prelude.{◌≡◌};
ghost use Rattle.desk_cli.specs.Commands as spec;

/// A command of the program.
#[derive(Clone, Copy, Debug, PartialEq, Eq)]
pub enum CommandName {
    Win,
    Waits,
    Shape,
    Line,
    Explain,
    Study,
    Replay,
    Score,
    Game,
    Need,
    Seats,
    Standings,
    HelpCodes,
    HelpRules,
    HelpYaku,
}

impl CommandName {
    pub(crate) const ALL: [CommandName; 15] = [
        CommandName::Win,
        CommandName::Waits,
        CommandName::Shape,
        CommandName::Line,
        CommandName::Explain,
        CommandName::Study,
        CommandName::Replay,
        CommandName::Score,
        CommandName::Game,
        CommandName::Need,
        CommandName::Seats,
        CommandName::Standings,
        CommandName::HelpCodes,
        CommandName::HelpRules,
        CommandName::HelpYaku,
    ];

    /// Those that are the first word of a record line.
    const JOBS: [CommandName; 3] = [CommandName::Win, CommandName::Waits, CommandName::Shape];

    /// The word of a command.
    pub fn word<'a>(self) -> &'a str
        ensures { result.now ≡ spec.command_word self }
    {
        match self {
            CommandName::Win => "win",
            CommandName::Waits => "waits",
            CommandName::Shape => "shape",
            CommandName::Line => "line",
            CommandName::Explain => "explain",
            CommandName::Study => "study",
            CommandName::Replay => "replay",
            CommandName::Score => "score",
            CommandName::Game => "game",
            CommandName::Need => "need",
            CommandName::Seats => "seats",
            CommandName::Standings => "standings",
            CommandName::HelpCodes => "help-codes",
            CommandName::HelpRules => "help-rules",
            CommandName::HelpYaku => "help-yaku",
        }
    }

    /// The command that has this word.
    pub(crate) fn named(word: &str) -> Option<CommandName>
        ensures { result ≡ spec.command_named word.now }
    {
        CommandName::ALL
            .iter()
            .copied()
            .find(|command| command.word() == word)
    }
}

/// Whether a record line may begin with this word.
pub(crate) fn is_job(word: &str) -> bool
    ensures { result ≡ spec.is_job word.now }
{
    CommandName::JOBS
        .iter()
        .any(|command| command.word() == word)
}

/// Whether a question may begin with this word.
pub(crate) fn is_study_job(word: &str) -> bool
    ensures { result ≡ spec.is_study_job word.now }
{
    word == "shape" || word == "calls" || word == "safe" || word == "chances" || word == "worth"
}
