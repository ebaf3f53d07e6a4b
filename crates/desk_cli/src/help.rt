//! What stands below the help of the program, and of each command: an example, and the exit statuses.

/// A text with the exit statuses below it.
macro_rules! with_statuses {
    ($text:literal) => {
        concat!(
            $text,
            "  0    answered
  1    answered, and at least one line was refused
  2    the words are wrong, or there is too much
  3    a file can't be opened, or input or output failed
  4    there was no memory, or no thread"
        )
    };
}

/// The exit statuses of the program, a line each.
pub const EXIT_STATUSES: &str = with_statuses!("");

pub(crate) const PROGRAM_HELP: &str = with_statuses!("Exit status:\n");

pub(crate) const WIN_HELP: &str = with_statuses!(
    "\
Example:
  riichi_desk win 234m567m345p67s99s on=5s by=ron seat=S round=E

Exit status:
"
);

pub(crate) const SHAPE_HELP: &str = with_statuses!(
    "\
Example:
  riichi_desk shape 123456789m1134p seen=2222p

Exit status:
"
);

pub(crate) const WAITS_HELP: &str = with_statuses!(
    "\
Example:
  riichi_desk waits 1112345678999m
  riichi_desk waits 2223456777m open=pon:111z

Exit status:
"
);

pub(crate) const LINE_HELP: &str = with_statuses!(
    "\
Example:
  riichi_desk line < club-night.lines
  riichi_desk line --json --file club-night.lines
  riichi_desk line --workers 4 --file many.lines

Exit status:
"
);

pub(crate) const EXPLAIN_HELP: &str = with_statuses!(
    "\
Example:
  riichi_desk explain win 99978m444p567s22s on=9m by=ron seat=S round=E riichi=1
  riichi_desk explain --all win 1122334m556677s on=4m by=ron seat=S round=E
  riichi_desk explain --json --file club-night.lines

Exit status:
"
);

pub(crate) const STUDY_HELP: &str = with_statuses!(
    "\
Example:
  riichi_desk study shape 45678m345p2467s88s order=good
  riichi_desk study --explain calls 234m45678p34s558s tile=3p from=left

Lines:
  shape HAND [open=MELDS] [seen=TILES] [order=live|second|good]
  calls HAND tile=T from=left|across|right [open=MELDS] [seen=TILES]
  safe HAND [own=TILES] [thrown=TILES] [since=TILES] [open=MELDS] [seen=TILES]
  chances HAND turns=N [open=MELDS] [seen=TILES]
  worth HAND turns=N seat=E|S|W|N round=E|S|W|N [dora=TILES] [rules=WORDS]
        [open=MELDS] [seen=TILES]

Exit status:
"
);

pub(crate) const CODES_HELP: &str = with_statuses!(
    "\
Example:
  riichi_desk help-codes

Exit status:
"
);

pub(crate) const YAKU_HELP: &str = with_statuses!(
    "\
Example:
  riichi_desk help-yaku

Exit status:
"
);

pub(crate) const RULES_HELP: &str = with_statuses!(
    "\
Example:
  riichi_desk help-rules

Exit status:
"
);

pub(crate) const REPLAY_HELP: &str = with_statuses!(
    "\
Example:
  riichi_desk replay evening.lines

Exit status:
"
);

pub(crate) const SCORE_HELP: &str = with_statuses!(
    "\
Example:
  riichi_desk score --workers 2 table-one.lines table-two.lines
  riichi_desk score --number table-one.lines table-two.lines

Exit status:
"
);

pub(crate) const GAME_HELP: &str = with_statuses!(
    "\
Example:
  riichi_desk game evening.game
  riichi_desk game --rules 1+red-fives < evening.game
  riichi_desk game --explain evening.game
  riichi_desk game --json evening.game
  riichi_desk game --sheet evening.game

A game is typed as it is played, a line for each deal:
  game Anna Bo Cyd Dee
  ron Bo from Cyd 1.30
  draw ready Anna,Bo riichi Anna
  tsumo Dee 2.30
On a terminal each line is answered at once; `undo` takes the last one back, Control-D ends the text.

Exit status:
"
);

pub(crate) const STANDINGS_HELP: &str = with_statuses!(
    "\
Example:
  riichi_desk standings first-evening.game second-evening.game
  riichi_desk standings --ties firsts --csv tables/*.game > standings.csv
  riichi_desk standings --sheet tables/*.game

A file has the games of one table or of several, each until it is over:
  game Anna Bo Cyd Dee session=1 at=3
  ..
  end

Exit status:
"
);

pub(crate) const NEED_HELP: &str = with_statuses!(
    "\
Example:
  riichi_desk need Cyd evening.game
  riichi_desk need Cyd 2 evening.game --riichi Anna,Bo

Exit status:
"
);

pub(crate) const SEATS_HELP: &str = with_statuses!(
    "\
Example:
  riichi_desk seats players.names 5
  riichi_desk seats players.names 8 --seed 7 --words \"table=league\"
  riichi_desk seats players.names 1 --standings first-evening.game second-evening.game

Behind the games stand notes: which pairs meet more than once, and how often each player sits first at
each of the seats East, South, West and North.

Exit status:
"
);
