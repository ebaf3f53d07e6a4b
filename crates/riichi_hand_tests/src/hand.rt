use crate::facts::{holds, same};
use arrayvec::ArrayString;
use riichi_hand::*;
use riichi_tiles::{Counts, Kind, Melds, NotationCode, NotationFault, Reds, read_counts};
use std::mem::size_of;
use std::process::Abort;

/// Whether a line is a job, or its fault.
fn outcome(rules: Rules, line: &[u8]) -> Result<bool, LineFault> {
    match read_line(rules, line) {
        Ok(job) => Ok(job.is_some()),
        Err(fault) => Err(fault),
    }
}

/// The fault of a line, as it is told; nothing where it has none.
fn told(rules: Rules, line: &[u8]) -> ArrayString<40> {
    match read_line(rules, line) {
        Ok(_) => ArrayString::new(),
        Err(fault) => fault_text(&fault),
    }
}

#[test]
fn tells_bytes_and_cuts_words(rt: HostRuntime) {
    holds(
        &rt,
        is_other_byte(0x1f) && is_other_byte(0x7f) && !is_other_byte(b' ') && !is_other_byte(b'~'),
    );
    holds(
        &rt,
        has_other_byte(b"1\tm") && !has_other_byte(b"1m 2p") && !has_other_byte(b""),
    );
    static ROWS: [(&[u8], &[u8], usize); 4] = [
        (b"", b"", 0),
        (b"   ", b"", 0),
        (b"win 1m", b"win 1m", 3),
        (b"  waits", b"waits", 5),
    ];
    for &(text, rest, len) in &ROWS {
        same(&rt, without_spaces(text), rest);
        same(&rt, word_len(rest), len);
    }
}

/// A line is answered with this text under both profiles, or is a job where there is none.
fn expect(rt: &impl Abort, line: &[u8], text: &str) {
    same(rt, told(Rules::One, line).as_str(), text);
    same(rt, told(Rules::Two, line).as_str(), text);
    same(rt, outcome(Rules::One, line).is_err(), !text.is_empty());
}

/// What a mark stands for: `-` no record, `J` a job, a digit or `A` to `F` the codes H1 to H15, and `h`, `o`, `d`, `u`, `s` a
/// text that ends before its letter, at the place where the front ends.
fn wanted(mark: u8, place: usize) -> Result<bool, LineFault> {
    match mark {
        b'-' => Ok(false),
        b'J' => Ok(true),
        b'h' => Err(unclosed(TextName::Hand, place)),
        b'o' => Err(unclosed(TextName::On, place)),
        b'd' => Err(unclosed(TextName::Dora, place)),
        b'u' => Err(unclosed(TextName::Ura, place)),
        b's' => Err(unclosed(TextName::Seen, place)),
        _ => Err(LineFault::Line(code_marked(mark))),
    }
}

fn unclosed(name: TextName, place: usize) -> LineFault {
    let code = NotationCode::N3;
    LineFault::Notation(name, NotationFault { code, place })
}

fn code_marked(mark: u8) -> LineCode {
    match mark {
        b'1' => LineCode::H1,
        b'2' => LineCode::H2,
        b'3' => LineCode::H3,
        b'4' => LineCode::H4,
        b'5' => LineCode::H5,
        b'6' => LineCode::H6,
        b'7' => LineCode::H7,
        b'8' => LineCode::H8,
        b'9' => LineCode::H9,
        b'A' => LineCode::H10,
        b'B' => LineCode::H11,
        b'C' => LineCode::H12,
        b'D' => LineCode::H13,
        b'E' => LineCode::H14,
        b'F' => LineCode::H15,
        _ => LineCode::H16,
    }
}

/// How many bytes a front has after its last space or `=`.
fn last_len(front: &[u8]) -> usize {
    let is_last = |byte: &&u8| **byte != b' ' && **byte != b'=';
    front.iter().rev().take_while(is_last).count()
}

/// Below each byte of a line stands the mark of the front that ends there; `!` stands for the text.
fn fronts(rt: &impl Abort, line: &[u8], marks: &[u8], text: &str) {
    holds(rt, line.len() == marks.len());
    for end in 0..line.len() {
        let front = &line[..end + 1];
        let mark = marks[end];
        if mark == b'!' {
            same(rt, told(Rules::One, front).as_str(), text);
        } else {
            same(
                rt,
                outcome(Rules::One, front),
                wanted(mark, last_len(front)),
            );
        }
    }
}

/// Wins, with the marks of their fronts and the text of `!`.
static WINS: [(&[u8], &[u8], &str); 22] = [
    (
        b"win 234m567m345p67s99s on=5s by=tsumo seat=S round=E",
        b"223366666666666666666664466664444444664444466444444J",
        "",
    ),
    (
        b"win 234m567m345p67s99s on=5s by=tsumo seat=E round=E counters=2 sticks=1",
        b"223366666666666666666664466664444444664444466444444JJ444444444JJ4444444J",
        "",
    ),
    (
        b"win 234m567m345p67s99s on=5s by=tsumo seat=E round=E flags=first",
        b"223366666666666666666664466664444444664444466444444JJ4444444444J",
        "",
    ),
    (
        b"win 567m345p67s88s open=chi:234m on=5s by=ron seat=S round=E",
        b"22336666666666666664444666666666644666644444664444466444444J",
        "",
    ),
    (
        b"win 111222333p78m99s on=9m by=ron seat=S round=E",
        b"22336666666666666666644666644444664444466444444J",
        "",
    ),
    (
        b"win 112233m556677p9s on=9s by=ron seat=S round=E",
        b"22336666666666666666644666644444664444466444444J",
        "",
    ),
    (
        b"win 1133m5577p2288s4z on=4z by=tsumo seat=W round=E",
        b"22336666666666666666664466664444444664444466444444J",
        "",
    ),
    (
        b"win 223344m556677m8m on=8m by=ron seat=S round=E riichi=1 dora=1m",
        b"22336666666666666666644666644444664444466444444JJ4444444JJ4444!dJ",
        "refused N1 dora at 0",
    ),
    (
        b"win 99978m444p567s22s on=9m by=ron seat=S round=E riichi=1",
        b"223366666666666666666644666644444664444466444444JJ4444444J",
        "",
    ),
    (
        b"win 234m567m345p67s11z on=8s by=ron seat=E round=E riichi=1",
        b"2233666666666666666666644666644444664444466444444JJ4444444J",
        "",
    ),
    (
        b"win 234m567m34p99s open=ankan:1111z on=2p by=tsumo seat=S round=E flags=rinshan dora=1p",
        b"2233666666666666666444466666666666664466664444444664444466444444JJ444444444444JJ4444!dJ",
        "refused N1 dora at 0",
    ),
    (
        b"win 222m444p666s33m88s on=8s by=ron seat=S round=E",
        b"2233666666666666666666644666644444664444466444444J",
        "",
    ),
    (
        b"win 222m444p666s33m88s on=8s by=tsumo seat=S round=E",
        b"223366666666666666666664466664444444664444466444444J",
        "",
    ),
    (
        b"win 19m19p19s1234567z on=1m by=ron seat=E round=E",
        b"223366666666666666666644666644444664444466444444J",
        "",
    ),
    (
        b"win 1112345678999m on=5m by=ron seat=S round=E riichi=1 dora=4m",
        b"223366666666666666644666644444664444466444444JJ4444444JJ4444!dJ",
        "refused N1 dora at 0",
    ),
    (
        b"win 123456789m22s34p on=2p by=ron seat=S round=E",
        b"22336666666666666666644666644444664444466444444J",
        "",
    ),
    (
        b"win 123456789m22s34p on=9s by=ron seat=S round=E",
        b"22336666666666666666644666644444664444466444444J",
        "",
    ),
    (
        b"win 456m22s34p open=chi:123m,chi:678p on=2p by=ron seat=S round=E",
        b"2233666666666664444666666666666666666644666644444664444466444444J",
        "",
    ),
    (
        b"win 123406789m22s34p on=2p by=ron seat=S round=E",
        b"22336666666666666666644666644444664444466444444J",
        "",
    ),
    (
        b"win 234m067m345p67s99s on=0s by=ron seat=S round=E",
        b"2233666666666666666666644666644444664444466444444J",
        "",
    ),
    (
        b"win 567m345p67s88s open=chi:340m on=5s by=ron seat=S round=E",
        b"22336666666666666664444666666666644666644444664444466444444J",
        "",
    ),
    (
        b"win 406m22s34p open=chi:123m,chi:678p on=2p by=ron seat=S round=E",
        b"2233666666666664444666666666666666666644666644444664444466444444J",
        "",
    ),
];

#[test]
fn answers_each_front_of_a_win(rt: HostRuntime) {
    for (line, marks, text) in &WINS {
        fronts(&rt, line, marks, text);
    }
}

/// Waits, shapes and a comment, in the same way.
static OTHER_LINES: [(&[u8], &[u8], &str); 13] = [
    (b"waits 1112345678999m", b"222233hhhhhhhhhhhhhJ", ""),
    (
        b"waits 2223456777m open=pon:111z",
        b"222233hhhhhhhhhh88444477777777J",
        "",
    ),
    (b"waits 123456789m1111z", b"222233hhhhhhhhh8hhhhJ", ""),
    (b"shape 123456789m1134p", b"222233hhhhhhhhh8hhhhJ", ""),
    (
        b"shape 123456789m1134p seen=2222p",
        b"222233hhhhhhhhh8hhhhJJ4444!ssssJ",
        "refused N1 seen at 0",
    ),
    (b"shape 123456789m11348p", b"222233hhhhhhhhh8hhhhhJ", ""),
    (b"shape 123456789m1111z", b"222233hhhhhhhhh8hhhhJ", ""),
    (
        b"shape 1z open=pon:111z,chi:123m,chi:123m,chi:123m",
        b"222233h88444477777777877777777877777777877777777J",
        "",
    ),
    (
        b"shape 11z open=pon:222z,chi:123m,chi:123m,chi:123m",
        b"222233hh88444477777777877777777877777777877777777J",
        "",
    ),
    (
        b"shape 12z open=pon:333z,chi:123m,chi:123m,chi:123m seen=222z",
        b"222233hh88444477777777877777777877777777877777777JJ4444!sssJ",
        "refused N1 seen at 0",
    ),
    (b"# table three", b"-------------", ""),
    (b"waits 8z", b"222233h!", "refused N5 hand at 0"),
    (b"waits 123456789m1134p", b"222233hhhhhhhhh8hhhhJ", ""),
];

#[test]
fn answers_each_front_of_other_lines(rt: HostRuntime) {
    for (line, marks, text) in &OTHER_LINES {
        fronts(&rt, line, marks, text);
    }
}

/// Refused lines, and last the text of the whole line.
static REFUSED_LINES: [(&[u8], &[u8], &str, &str); 18] = [
    (b"waits 1m\t", b"222233h81", "", "refused H1"),
    (b"score 1m", b"22222222", "", "refused H2"),
    (b"waits", b"22223", "", "refused H3"),
    (b"win on=5s", b"223366333", "", "refused H3"),
    (b"waits 1m seen=2m", b"222233h884444444", "", "refused H4"),
    (
        b"waits 12x3m",
        b"222233hh!!!",
        "refused N2 hand at 2",
        "refused N2 hand at 2",
    ),
    (
        b"waits 9x2z",
        b"222233h!!!",
        "refused N2 hand at 1",
        "refused N2 hand at 1",
    ),
    (b"waits 12m3", b"222233hh8h", "", "refused N3 hand at 4"),
    (
        b"waits 1mp",
        b"222233h8!",
        "refused N4 hand at 2",
        "refused N4 hand at 2",
    ),
    (
        b"win 8z on=8z by=ron seat=S round=E",
        b"223366644666644444664444466444444!",
        "refused N5 hand at 0",
        "refused N5 hand at 0",
    ),
    (
        b"waits 11111m",
        b"222233hhhhh!",
        "refused N6 hand at 4",
        "refused N6 hand at 4",
    ),
    (
        b"waits 05555m",
        b"222233hhhhh!",
        "refused N6 hand at 4",
        "refused N6 hand at 4",
    ),
    (
        b"waits 2223456777m open=pon:112z",
        b"222233hhhhhhhhhh884444777777777",
        "",
        "refused H7",
    ),
    (
        b"waits 2223456777m open=",
        b"222233hhhhhhhhhh8844447",
        "",
        "refused H7",
    ),
    (
        b"waits 123456789m111z",
        b"222233hhhhhhhhh8hhh8",
        "",
        "refused H8",
    ),
    (
        b"waits 1112345678999m open=pon:111z",
        b"222233hhhhhhhhhhhhhJJ4444777777778",
        "",
        "refused H8",
    ),
    (
        b"win 111m234m567p678s9s on=9s by=ron seat=S round=E dora=11m",
        b"2233666666666666666666644666644444664444466444444JJ4444!dd9",
        "refused N1 dora at 0",
        "refused H9",
    ),
    (
        b"win 567m345p67s88s open=chi:234m on=5s by=ron seat=S round=E riichi=1",
        b"22336666666666666664444666666666644666644444664444466444444JJ4444444A",
        "",
        "refused H10",
    ),
];

#[test]
fn answers_each_front_of_a_refused_line(rt: HostRuntime) {
    for (line, marks, text, whole) in &REFUSED_LINES {
        fronts(&rt, line, marks, text);
        expect(&rt, line, whole);
    }
}

/// Refused wins, in the same way.
static REFUSED_WINS: [(&[u8], &[u8], &str, &str); 11] = [
    (
        b"win 234m567m345p67s99s on=5s by=ron seat=S round=E by=draw",
        b"2233666666666666666666644666644444664444466444444JJ4444444",
        "",
        "refused H4",
    ),
    (
        b"win 234m567m345p67s99s on=5s by=ron seat=S round=E counters=100",
        b"2233666666666666666666644666644444664444466444444JJ444444444JJ4",
        "",
        "refused H4",
    ),
    (
        b"win 234m567m345p67s99s on=5s by=ron seat=S round=E on=5s",
        b"2233666666666666666666644666644444664444466444444JJ44555",
        "",
        "refused H5",
    ),
    (
        b"win 234m567m345p67s99s by=ron seat=S round=E",
        b"22336666666666666666666444446644444664444446",
        "",
        "refused H6",
    ),
    (
        b"win 234m567m345p67s99s on= by=ron seat=S round=E",
        b"22336666666666666666666446644444664444466444444!",
        "refused N1 on at 0",
        "refused N1 on at 0",
    ),
    (
        b"win 234m567m345p67s99s on=5s by=ron seat=S round=E flags=ippatsu",
        b"2233666666666666666666644666644444664444466444444JJ444444444444B",
        "",
        "refused H11",
    ),
    (
        b"win 234m567m345p67s99s on=5s by=ron seat=S round=E ura=1m",
        b"2233666666666666666666644666644444664444466444444JJ444!uB",
        "refused N1 ura at 0",
        "refused H11",
    ),
    (
        b"win 234m567m345p67s99s on=5s by=ron seat=S round=E flags=rinshan",
        b"2233666666666666666666644666644444664444466444444JJ444444444444C",
        "",
        "refused H12",
    ),
    (
        b"win 234m567m345p67s99s on=5s by=tsumo seat=S round=E flags=chankan",
        b"223366666666666666666664466664444444664444466444444JJ444444444444D",
        "",
        "refused H13",
    ),
    (
        b"win 234m567m345p67s99s on=5s by=ron seat=S round=E flags=chankan,last",
        b"2233666666666666666666644666644444664444466444444JJ444444444444J4444E",
        "",
        "refused H14",
    ),
    (
        b"win 234m567m345p67s99s on=5s by=ron seat=S round=E flags=first",
        b"2233666666666666666666644666644444664444466444444JJ4444444444F",
        "",
        "refused H15",
    ),
];

#[test]
fn answers_each_front_of_a_refused_win(rt: HostRuntime) {
    for (line, marks, text, whole) in &REFUSED_WINS {
        fronts(&rt, line, marks, text);
        expect(&rt, line, whole);
    }
}

/// Lines that are easy to get wrong, and their texts; none for a job.
static TRAPS: [(&[u8], &str); 35] = [
    (b"shape 123456789m", "refused H8"),
    (b"shape 123456789m1111z seen=1z", "refused H9"),
    (b"shape 123456789m1134p seen=", "refused N1 seen at 0"),
    (b"waits 1m open=chi:123m,chi:123m,chi:123m,pon:999p", ""),
    (b"waits 8x9z", "refused N2 hand at 1"),
    (b"waits 811111z", "refused N5 hand at 0"),
    (b"waits 5550m0m", "refused N6 hand at 5"),
    (b"waits 1112345678999m =x", "refused H4"),
    (b"waits 1112345678999m open=pon=111z", "refused H7"),
    (b"waits 2223456777m open=pon:111z,", "refused H7"),
    (b"waits 2223456777m open=pon:1z1z1z", ""),
    (
        b"waits 1m open=pon:111z,pon:222z,pon:333z,pon:444z,pon:555z",
        "refused H7",
    ),
    (b"waits 1m open=pon:1111z", "refused H7"),
    (
        b"win 234m567m345p67s99s on=5s on=5s by=ron seat=S",
        "refused H5",
    ),
    (
        b"win 234m567m345p67s99s on=55s by=ron seat=S round=E",
        "refused H8",
    ),
    (
        b"win 234m567m345p67s99s on=5s by=ron seat=S round=E dora=11111m",
        "refused N6 dora at 4",
    ),
    (
        b"win 234m567m345p67s99s on=5s by=ron seat=S round=E dora=123456p",
        "refused H8",
    ),
    (
        b"win 1x on=1y by=ron seat=S round=E dora=1 ura=1",
        "refused N2 hand at 1",
    ),
    (
        b"win 1m on=1y by=ron seat=S round=E dora=1 ura=1",
        "refused N2 on at 1",
    ),
    (
        b"win 1m on=1m by=ron seat=S round=E dora=1 ura=x",
        "refused N3 dora at 1",
    ),
    (
        b"win 1m on=1m by=ron seat=S round=E dora=1m ura=x open=x",
        "refused N2 ura at 0",
    ),
    (b"shape 1m seen=x open=x", "refused N2 seen at 0"),
    (b"rules 2", "refused H2"),
    (b" # a comment", "refused H2"),
    (b"waits 1112345678999m\r", "refused H1"),
    (b"  waits   2223456777m   open=pon:111z  ", ""),
    (
        b"win 234m567m345p67s99s on=5s by=ron seat=S round=E riichi=2 flags=ippatsu,last ura=4m5p counters=05",
        "",
    ),
    (
        b"win 234m567m345p67s99s on=5s by=ron seat=S round=E flags=",
        "refused H4",
    ),
    (
        b"win 234m567m345p67s99s on=5s by=ron seat=S round=E flags=last,last",
        "refused H4",
    ),
    (
        b"win 234m567m345p67s99s on=5s by=ron seat=S round=E riichi=3",
        "refused H4",
    ),
    (
        b"win 234m567m345p67s99s on=5s by=ron seat=X round=E",
        "refused H4",
    ),
    (
        b"win 234m567m345p67s99s on=5s by=ron seat=S round=E counters=",
        "refused H4",
    ),
    (
        b"win 234m567m345p67s99s on=5s by=ron seat=S round=E sticks=1a",
        "refused H4",
    ),
    (
        b"win 234m567m34p99s open=ankan:1111z on=2p by=tsumo seat=S round=E flags=rinshan,last",
        "refused H14",
    ),
    (
        b"win 34m567m345p99s open=ankan:1111z on=2m by=tsumo seat=S round=E flags=first",
        "refused H15",
    ),
];

#[test]
fn tells_the_first_fault(rt: HostRuntime) {
    for (line, text) in &TRAPS {
        expect(&rt, line, text);
    }
}

#[test]
fn answers_foreign_bytes(rt: HostRuntime) {
    let mut line = *b"waits 1112345678999m";
    for byte in 0..256u32 {
        line[6] = byte as u8;
        let text = match line[6] {
            0..=0x1f | 0x7f..=0xff => "refused H1",
            b' ' => "refused H8",
            b'=' => "refused H3",
            b'm' | b'p' | b's' | b'z' => "refused N4 hand at 0",
            b'0'..=b'9' => "",
            _ => "refused N2 hand at 0",
        };
        expect(&rt, &line, text);
    }
}

#[test]
fn answers_lines_of_any_length(rt: HostRuntime) {
    static ROWS: [(&[u8], u8); 4] = [
        (b"", b'-'),
        (b"#", b'-'),
        (b"# \xff", b'-'),
        (b"waits 1112345678999m", b'J'),
    ];
    for &(front, mark) in &ROWS {
        padded(&rt, front, mark);
    }
}

/// The first bytes of a line, and spaces after them.
fn with_spaces(front: &[u8]) -> [u8; 4097] {
    let mut line = [b' '; 4097];
    for (place, byte) in front.iter().enumerate() {
        if place < 4097 {
            line[place] = *byte;
        }
    }
    line
}

/// With spaces after it, 4096 bytes in all, a line is what the mark stands for; with one space more it is too long.
fn padded(rt: &impl Abort, front: &[u8], mark: u8) {
    same(rt, outcome(Rules::One, front), wanted(mark, 0));
    let line = with_spaces(front);
    let (_, short) = line.split_last().expect(rt, "a space");
    same(rt, short.len(), 4096);
    same(rt, outcome(Rules::One, short), wanted(mark, 0));
    expect(rt, &line, "refused H1");
}

/// The win of a line, if it is one.
fn win_of(rules: Rules, line: &[u8]) -> Option<WinRecord> {
    let job = read_line(rules, line).ok()??;
    match job {
        Job::Win(win) => Some(win),
        Job::Waits(_) | Job::Shape(_) => None,
    }
}

fn reds_of_win(rules: Rules, line: &[u8]) -> Option<u8> {
    let win = win_of(rules, line)?;
    Some(win.reds().total())
}

#[test]
fn keeps_reds_under_the_second_profile(rt: HostRuntime) {
    static ROWS: [(&[u8], u8); 5] = [
        (b"win 234m567m345p67s99s on=5s by=ron seat=S round=E", 0),
        (b"win 123406789m22s34p on=2p by=ron seat=S round=E", 1),
        (b"win 234m067m345p67s99s on=0s by=ron seat=S round=E", 2),
        (
            b"win 567m345p67s88s open=chi:340m on=5s by=ron seat=S round=E",
            1,
        ),
        (
            b"win 234m567m345p67s99s on=5s by=ron seat=S round=E dora=0m",
            0,
        ),
    ];
    for &(line, reds) in &ROWS {
        same(&rt, reds_of_win(Rules::One, line), Some(0));
        same(&rt, reds_of_win(Rules::Two, line), Some(reds));
    }
}

/// The win of `123456789m22s34p` on 2p.
fn win_with(rules: Rules, riichi: u8, reds: Reds) -> Result<WinRecord, LineFault> {
    let concealed = match read_counts(b"123456789m22s34p") {
        Ok(counts) => counts,
        Err(fault) => return Err(LineFault::Notation(TextName::Hand, fault)),
    };
    WinRecord::new(WinParts {
        rules: rules,
        concealed,
        melds: Melds::new(),
        winning: Kind::at(10),
        by: By::Ron,
        seat: Wind::South,
        round: Wind::East,
        riichi,
        flags: Flags::none(),
        dora: Counts::new(),
        ura: Counts::new(),
        counters: 0,
        sticks: 0,
        reds,
    })
}

#[test]
fn tests_the_parts_of_a_win(rt: HostRuntime) {
    let reds = Reds::new(2, 0, 0).expect(&rt, "two red fives");
    let riichi = LineFault::Line(LineCode::H4);
    same(
        &rt,
        win_with(Rules::One, 3, Reds::none()).err(),
        Some(riichi),
    );
    let too_many = LineFault::Line(LineCode::H16);
    same(&rt, win_with(Rules::Two, 0, reds).err(), Some(too_many));
    let plain = win_with(Rules::One, 0, Reds::none());
    same(&rt, win_with(Rules::One, 0, reds), plain);
    same(&rt, plain.is_ok(), true);
}

/// Whether a profile has a rule, by the table of docs/RULES.md.
fn is_on_in(profile: Rules, rule: Switch) -> bool {
    match rule {
        Switch::RedFives | Switch::Raise => profile == Rules::Two,
        Switch::AddYakuman | Switch::DoubleYakuman | Switch::BlessingOfMan => false,
        _ => true,
    }
}

#[test]
fn rules_in_one_word(rt: HostRuntime) {
    for profile in [Rules::One, Rules::Two] {
        for turned in Switch::ALL {
            let set = profile.with(turned, !is_on_in(profile, turned));
            for rule in Switch::ALL {
                let is_on = is_on_in(profile, rule);
                same(&rt, profile.has(rule), is_on);
                same(&rt, set.has(rule), is_on != (rule == turned));
            }
        }
    }
}

/// With a profile alone, one byte, a record of a win would take what its other parts take, and one byte.
#[test]
fn rules_take_few_bytes(rt: HostRuntime) {
    let tiles = 3 * size_of::<Counts>()
        + size_of::<Melds>()
        + size_of::<Kind>()
        + size_of::<Reds>();
    let circumstances = size_of::<By>() + 2 * size_of::<Wind>() + size_of::<Flags>();
    let numbers = 3 * size_of::<u8>();
    let with_a_profile = 1 + tiles + circumstances + numbers;
    same(&rt, size_of::<WinRecord>() <= with_a_profile + 4, true);
}

#[test]
fn reads_each_key(rt: HostRuntime) {
    let one = b"win 123456789m22s34p on=2p by=ron seat=S round=E";
    let plain = win_with(Rules::Two, 0, Reds::none()).ok();
    same(&rt, win_of(Rules::Two, one), plain);
    let all =
        b"win 234m567m34p99s open=ankan:1111z on=2p by=tsumo seat=W round=N riichi=2 flags=rinshan dora=1p ura=3m counters=7 sticks=12";
    let win = win_of(Rules::Two, all).expect(&rt, "a win");
    same(&rt, win.rules(), Rules::Two);
    same(&rt, win.concealed().total(), 10);
    same(&rt, win.melds().count(), 1);
    same(&rt, win.winning(), Kind::at(10));
    same(&rt, win.by(), By::Tsumo);
    same(&rt, win.seat(), Wind::West);
    same(&rt, win.round().kind(), Kind::at(30));
    same(&rt, win.riichi(), 2);
    same(
        &rt,
        win.flags(),
        Flags {
            rinshan: true,
            ..Flags::none()
        },
    );
    same(&rt, win.dora().get(Kind::at(9)), 1);
    same(&rt, win.ura().get(Kind::at(2)), 1);
    same(&rt, win.counters(), 7);
    same(&rt, win.sticks(), 12);
    same(
        &rt,
        (win.copies_won(Kind::at(27)), win.copies_won(Kind::at(10))),
        (4, 1),
    );
    same(&rt, WinRecord::new(win.parts()), Ok(win));
}

fn hand_of(line: &[u8]) -> Option<HandRecord> {
    let job = read_line(Rules::One, line).ok()??;
    match job {
        Job::Waits(hand) => Some(hand),
        Job::Win(_) | Job::Shape(_) => None,
    }
}

fn shape_of(line: &[u8]) -> Option<ShapeRecord> {
    let job = read_line(Rules::One, line).ok()??;
    match job {
        Job::Shape(shape) => Some(shape),
        Job::Win(_) | Job::Waits(_) => None,
    }
}

#[test]
fn reads_waits_and_shapes(rt: HostRuntime) {
    let waits = b"waits 2223456777m open=pon:111z";
    let hand = hand_of(waits).expect(&rt, "a hand");
    same(&rt, hand.concealed().total(), 10);
    same(&rt, hand.melds().tiles(Kind::at(27)), 3);
    same(
        &rt,
        HandRecord::new(hand.concealed(), hand.melds()),
        Ok(hand),
    );
    let line = b"shape 12z open=pon:333z,chi:123m,chi:123m,chi:123m seen=222z";
    let shape = shape_of(line).expect(&rt, "a shape");
    same(&rt, shape.tiles().total(), 2);
    same(&rt, shape.melds().count(), 4);
    same(&rt, shape.seen().get(Kind::at(28)), 3);
    same(
        &rt,
        ShapeRecord::new(shape.tiles(), shape.melds(), shape.seen()),
        Ok(shape),
    );
}
