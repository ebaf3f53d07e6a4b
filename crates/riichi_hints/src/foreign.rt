//! Words in other scripts, and letters with marks, as plain words.
use crate::text::{Part, add, add_all, last};

/// What stands for what: whole words before the characters that they begin with.
const PIECES: [(&str, &str); 256] = [
    ("和了", "win"),
    ("和牌", "win"),
    ("胡牌", "win"),
    ("胡了", "win"),
    ("あがり", "win"),
    ("アガリ", "win"),
    ("победа", "win"),
    ("выигрыш", "win"),
    ("聴牌", "waits"),
    ("听牌", "waits"),
    ("聽牌", "waits"),
    ("テンパイ", "waits"),
    ("てんぱい", "waits"),
    ("待ち", "waits"),
    ("待牌", "waits"),
    ("待", "waits"),
    ("ожидание", "waits"),
    ("ожидания", "waits"),
    ("темпай", "waits"),
    ("тенпай", "waits"),
    ("牌姿", "shape"),
    ("向聴", "shape"),
    ("向听", "shape"),
    ("シャンテン", "shape"),
    ("форма", "shape"),
    ("手牌", "hand"),
    ("рука", "hand"),
    ("ロン", "ron"),
    ("ろん", "ron"),
    ("ﾛﾝ", "ron"),
    ("栄和", "ron"),
    ("荣和", "ron"),
    ("榮和", "ron"),
    ("荣", "ron"),
    ("榮", "ron"),
    ("点炮", "ron"),
    ("點炮", "ron"),
    ("рон", "ron"),
    ("Рон", "ron"),
    ("ツモ", "tsumo"),
    ("つも", "tsumo"),
    ("ﾂﾓ", "tsumo"),
    ("自摸", "tsumo"),
    ("цумо", "tsumo"),
    ("Цумо", "tsumo"),
    ("東場", "round=E"),
    ("东场", "round=E"),
    ("南場", "round=S"),
    ("南场", "round=S"),
    ("西場", "round=W"),
    ("西场", "round=W"),
    ("北場", "round=N"),
    ("北场", "round=N"),
    ("東家", "seat=E"),
    ("东家", "seat=E"),
    ("南家", "seat=S"),
    ("西家", "seat=W"),
    ("北家", "seat=N"),
    ("親", "dealer"),
    ("庄家", "dealer"),
    ("莊家", "dealer"),
    ("庄", "dealer"),
    ("莊", "dealer"),
    ("дилер", "dealer"),
    ("場風", "round"),
    ("场风", "round"),
    ("раунд", "round"),
    ("自風", "seat"),
    ("自风", "seat"),
    ("門風", "seat"),
    ("门风", "seat"),
    ("место", "seat"),
    ("ветер", "wind"),
    ("ダブルリーチ", "doubleriichi"),
    ("ダブル立直", "doubleriichi"),
    ("ダブリー", "doubleriichi"),
    ("両立直", "doubleriichi"),
    ("两立直", "doubleriichi"),
    ("兩立直", "doubleriichi"),
    ("リーチ棒", "sticks"),
    ("立直棒", "sticks"),
    ("供託", "sticks"),
    ("供托", "sticks"),
    ("リーチ", "riichi"),
    ("りーち", "riichi"),
    ("ﾘｰﾁ", "riichi"),
    ("立直", "riichi"),
    ("риичи", "riichi"),
    ("Риичи", "riichi"),
    ("一発", "ippatsu"),
    ("一发", "ippatsu"),
    ("一發", "ippatsu"),
    ("иппацу", "ippatsu"),
    ("嶺上開花", "rinshan"),
    ("岭上开花", "rinshan"),
    ("嶺上", "rinshan"),
    ("岭上", "rinshan"),
    ("搶槓", "chankan"),
    ("槍槓", "chankan"),
    ("抢杠", "chankan"),
    ("海底", "haitei"),
    ("ハイテイ", "haitei"),
    ("河底", "houtei"),
    ("ホウテイ", "houtei"),
    ("天和", "tenhou"),
    ("地和", "chiihou"),
    ("裏ドラ", "ura"),
    ("里宝牌", "ura"),
    ("裏寶牌", "ura"),
    ("裏", "ura"),
    ("ура", "ura"),
    ("赤ドラ", "aka"),
    ("ドラ表示牌", "dora"),
    ("ドラ表示", "dora"),
    ("ドラ", "dora"),
    ("どら", "dora"),
    ("ﾄﾞﾗ", "dora"),
    ("宝牌指示牌", "dora"),
    ("宝牌", "dora"),
    ("寶牌", "dora"),
    ("дора", "dora"),
    ("Дора", "dora"),
    ("本場", "honba"),
    ("本场", "honba"),
    ("хонба", "honba"),
    ("暗槓", "ankan:"),
    ("暗カン", "ankan:"),
    ("アンカン", "ankan:"),
    ("暗杠", "ankan:"),
    ("анкан", "ankan:"),
    ("大明槓", "kan:"),
    ("明槓", "kan:"),
    ("明杠", "kan:"),
    ("カン", "kan:"),
    ("槓", "kan:"),
    ("杠", "kan:"),
    ("кан", "kan:"),
    ("チーワン", "7m"),
    ("チー萬", "7m"),
    ("チーピン", "7p"),
    ("チーソー", "7s"),
    ("チー", "chi:"),
    ("ちー", "chi:"),
    ("吃", "chi:"),
    ("чи", "chi:"),
    ("ポン", "pon:"),
    ("ぽん", "pon:"),
    ("碰", "pon:"),
    ("пон", "pon:"),
    ("副露", "open"),
    ("鳴き", "open"),
    ("紅中", "C"),
    ("红中", "C"),
    ("チュン", "C"),
    ("中", "C"),
    ("白板", "P"),
    ("ハク", "P"),
    ("白", "P"),
    ("ハツ", "F"),
    ("發", "F"),
    ("発", "F"),
    ("发", "F"),
    ("赤", "aka"),
    ("紅", "aka"),
    ("红", "aka"),
    ("восток", "east"),
    ("Восток", "east"),
    ("юг", "south"),
    ("Юг", "south"),
    ("запад", "west"),
    ("Запад", "west"),
    ("север", "north"),
    ("Север", "north"),
    ("トン", "E"),
    ("東", "E"),
    ("东", "E"),
    ("ナン", "S"),
    ("南", "S"),
    ("シャー", "W"),
    ("西", "W"),
    ("ペー", "N"),
    ("北", "N"),
    ("局", ""),
    ("萬子", "m"),
    ("萬", "m"),
    ("万子", "m"),
    ("万", "m"),
    ("ワン", "m"),
    ("マン", "m"),
    ("筒子", "p"),
    ("筒", "p"),
    ("餅", "p"),
    ("饼", "p"),
    ("ピン", "p"),
    ("索子", "s"),
    ("索", "s"),
    ("条", "s"),
    ("條", "s"),
    ("ソー", "s"),
    ("ゾー", "s"),
    ("一", "1"),
    ("イー", "1"),
    ("二", "2"),
    ("リャン", "2"),
    ("三", "3"),
    ("サン", "3"),
    ("四", "4"),
    ("スー", "4"),
    ("五", "5"),
    ("伍", "5"),
    ("ウー", "5"),
    ("六", "6"),
    ("ロー", "6"),
    ("七", "7"),
    ("八", "8"),
    ("パー", "8"),
    ("九", "9"),
    ("キュー", "9"),
    ("①", "1p"),
    ("②", "2p"),
    ("③", "3p"),
    ("④", "4p"),
    ("⑤", "5p"),
    ("⑥", "6p"),
    ("⑦", "7p"),
    ("⑧", "8p"),
    ("⑨", "9p"),
    ("ä", "a"),
    ("ö", "o"),
    ("ü", "u"),
    ("ú", "u"),
    ("ù", "u"),
    ("Ü", "u"),
    ("ó", "o"),
    ("ô", "o"),
    ("Ó", "o"),
    ("é", "e"),
    ("è", "e"),
    ("ê", "e"),
    ("É", "e"),
    ("ę", "e"),
    ("à", "a"),
    ("á", "a"),
    ("â", "a"),
    ("ą", "a"),
    ("ç", "c"),
    ("ć", "c"),
    ("ł", "l"),
    ("Ł", "l"),
    ("ś", "s"),
    ("Ś", "s"),
    ("ż", "z"),
    ("ź", "z"),
    ("ń", "n"),
    ("ñ", "n"),
    ("î", "i"),
];

/// A word in plain letters. A character that isn't known stays as it is.
pub(crate) fn translated(word: &[u8]) -> Part {
    let mut plain = Part::new();
    let mut rest = word;
    for _ in 0..word.len() {
        rest = add_first(&mut plain, rest);
    }
    plain
}

/// Adds what stands for the first piece of a word, and gives what follows it.
fn add_first<'a>(plain: &mut Part, word: &'a [u8]) -> &'a [u8] {
    match word {
        [] => word,
        [0xf0, 0x9f, 0x80, tile, rest @ ..] => {
            add_tile(plain, *tile);
            rest
        }
        [byte, rest @ ..] => match piece_of(word) {
            Some((piece, behind)) => {
                add_all(plain, piece.as_bytes());
                without_mark(piece.as_bytes(), behind)
            }
            None => {
                add(plain, *byte);
                rest
            }
        },
    }
}

/// The piece with which a word begins, and what follows it.
fn piece_of(word: &[u8]) -> Option<(&'static str, &[u8])> {
    if word.is_ascii() {
        return None;
    }
    for (foreign, plain) in &PIECES {
        if let Some(rest) = behind(foreign.as_bytes(), word) {
            return Some((*plain, rest));
        }
    }
    None
}

/// What follows these bytes, where a word begins with them.
fn behind<'a>(front: &[u8], word: &'a [u8]) -> Option<&'a [u8]> {
    if front.len() <= word.len() && &word[..front.len()] == front {
        Some(&word[front.len()..])
    } else {
        None
    }
}

/// What follows a piece, without the mark that the piece ends with itself.
fn without_mark<'a>(piece: &[u8], behind: &'a [u8]) -> &'a [u8] {
    match behind {
        [b':' | b'=', rest @ ..] if last(piece) == b':' => rest,
        _ => behind,
    }
}

/// The tiles of Unicode stand in the order winds, dragons from red to white, characters, bamboos, circles.
fn add_tile(plain: &mut Part, byte: u8) {
    let (digit, suit) = match byte {
        0x80..=0x83 => (byte - 0x80 + b'1', b'z'),
        0x84..=0x86 => (0x86 - byte + b'5', b'z'),
        0x87..=0x8f => (byte - 0x87 + b'1', b'm'),
        0x90..=0x98 => (byte - 0x90 + b'1', b's'),
        0x99..=0xa1 => (byte - 0x99 + b'1', b'p'),
        _ => (b'?', b'?'),
    };
    add(plain, digit);
    add(plain, suit);
}
