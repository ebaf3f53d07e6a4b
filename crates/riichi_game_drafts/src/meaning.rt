//! What players say for the words of a line.
use crate::nearest::small_letter;
use crate::text::{Word, add};

/// What a line says by its first word. A win is a ron or a tsumo.
#[derive(Clone, Copy, PartialEq, Eq)]
pub enum Command {
    Ron,
    Tsumo,
    Win,
    Draw,
    Abort,
    Chombo,
    Penalty,
    Stands,
    End,
    Undo,
    Game,
}

/// What a word means in a line.
#[derive(Clone, Copy, PartialEq, Eq)]
pub enum Meaning {
    Command(Command),
    /// The discarder is named next.
    From,
    /// Who did it is named next.
    By,
    /// The discarder is named next, or who did it.
    Of,
    And,
    Liable,
    Ready,
    NotReady,
    Nagashi,
    Riichi,
    /// The winning tile stands next.
    On,
    /// All four players.
    All,
    Mangan,
    Haneman,
    Baiman,
    Sanbaiman,
    Yakuman,
    /// The number before it is fu.
    Fu,
    /// It says nothing that the line doesn't say without it.
    Nothing,
}

/// What players say, in small letters and without hyphens, with spaces between the words.
const SAID: [(Meaning, &str); 29] = [
    (Meaning::Command(Command::Ron), "ron ロン 栄和 荣和 rons"),
    (
        Meaning::Command(Command::Tsumo),
        "tsumo zumo tumo ツモ 自摸 self selfdraw selfdrawn selbstgezogen selbstzug selbst tsumos pioche pioché",
    ),
    (
        Meaning::Command(Command::Win),
        "win wins won agari 和了 gewinnt sieg gagne victoire",
    ),
    (
        Meaning::Command(Command::Draw),
        "draw drawn ryuukyoku ryukyoku ryuukyouku ryuukoku 流局 荒牌流局 exhaustive unentschieden remis tirage égalité Égalité egalite nul nulle",
    ),
    (
        Meaning::Command(Command::Abort),
        "abort aborted abortive abbruch abgebrochen avorté abandon tochuuryuukyoku tochuryukyoku 途中流局",
    ),
    (Meaning::Command(Command::Chombo), "chombo chonbo チョンボ dead"),
    (
        Meaning::Command(Command::Penalty),
        "penalty strafe pénalité",
    ),
    (Meaning::Command(Command::Stands), "stands state stand"),
    (
        Meaning::Command(Command::End),
        "end ends stop finish finished over quit exit ende fin 終了",
    ),
    (
        Meaning::Command(Command::Undo),
        "undo back rückgängig zurück annuler 取消 取り消し",
    ),
    (Meaning::Command(Command::Game), "game spiel"),
    (Meaning::From, "from off gegen sur contre から"),
    (Meaning::Of, "of von de"),
    (Meaning::By, "by durch par"),
    (Meaning::And, "and & + und et"),
    (Meaning::Liable, "liable pao sekininbarai"),
    (
        Meaning::Ready,
        "ready tenpai tempai bereit prêt prêts 聴牌 テンパイ",
    ),
    (Meaning::NotReady, "noten nooten ノーテン"),
    (Meaning::Nagashi, "nagashi 流し満貫"),
    (Meaning::Riichi, "riichi reach richi リーチ 立直"),
    (Meaning::On, "on"),
    (Meaning::All, "all alle"),
    (Meaning::Mangan, "mangan 満貫"),
    (Meaning::Haneman, "haneman"),
    (Meaning::Baiman, "baiman"),
    (Meaning::Sanbaiman, "sanbaiman"),
    (Meaning::Yakuman, "yakuman"),
    (Meaning::Fu, "fu 符"),
    (
        Meaning::Nothing,
        "han 翻 points hand the is with for mit für avec pour match partie gezogen",
    ),
];

/// What a word means that players say.
pub fn meaning_of(word: &[u8]) -> Option<Meaning> {
    let small = small_word(word);
    if small.is_empty() {
        return None;
    }
    for (meaning, words) in SAID {
        if is_among(words, small.as_slice()) {
            return Some(meaning);
        }
    }
    None
}

/// Whether a word is one of several.
fn is_among(words: &str, word: &[u8]) -> bool {
    words
        .as_bytes()
        .split(|byte| *byte == b' ')
        .any(|other| other == word)
}

/// A word in small letters, without hyphens; empty where it is longer than any that is known.
fn small_word(word: &[u8]) -> Word {
    let mut small = Word::new();
    if word.len() > 32 {
        return small;
    }
    for byte in word {
        if *byte != b'-' && *byte != b'_' {
            add(&mut small, &[small_letter(*byte)]);
        }
    }
    small
}
