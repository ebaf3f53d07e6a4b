use crate::facts::{holds, same};
use arrayvec::ArrayString;
use riichi_hand::{LineCode, LineFault, Rules, read_placed};
use riichi_refusals::*;
use std::process::Abort;

/// Each line is refused, and these lines follow.
fn refuses(rt: &impl Abort, rows: &[(&[u8], &str)]) {
    for (line, lines) in rows {
        let Err(refusal) = read_placed(Rules::One, line) else {
            return holds(rt, false);
        };
        let mut text = ArrayString::new();
        push_refusal_lines(&mut text, line, &refusal);
        same(rt, text.as_str(), *lines);
    }
}

#[test]
fn foreign_bytes(rt: HostRuntime) {
    refuses(
        &rt,
        &[
            (
                b"waits 1m\t".as_slice(),
                "  waits 1m\\x09\n          ^ a tab stands here: words are parted by spaces\n",
            ),
            (
                b"\xef\xbb\xbfwaits 1m",
                "  \\xef\\xbb\\xbfwaits \n  ^ a byte order mark stands here: save the text without it\n",
            ),
            (
                b"waits 1m\x1b[2J",
                "  waits 1m\\x1b[2J\n          ^ a byte outside printable ASCII stands here\n",
            ),
            (
                b"win 234m567m345p67s99s on=5s by=ron seat=S round=E \xff",
                "  p67s99s on=5s by=ron seat=S round=E \\xff\n                                      ^ a byte outside printable ASCII stands here\n",
            ),
            (
                "waits 一二三萬é".as_bytes(),
                "  waits 一二三萬é\n        ^ a byte outside printable ASCII stands here\n",
            ),
            (
                "waits 1m\u{9b}2J".as_bytes(),
                "  waits 1m\\xc2\\x9b2J\n          ^ a byte outside printable ASCII stands here\n",
            ),
            (
                [b' '; 4097].as_slice(),
                "  a line has at most 4096 bytes, all of them printable ASCII\n",
            ),
        ],
    );
}

#[test]
fn words_of_the_line(rt: HostRuntime) {
    refuses(
        &rt,
        &[
            (
                b"score 1m".as_slice(),
                "  score: the first word is win, waits or shape\n",
            ),
            (
                b" rules 2",
                "  rules: rules 1 or rules 2 stands alone, in the first line\n",
            ),
            (b"win", "  the second word is the hand, and has no =\n"),
            (
                b"win on=5s",
                "  on=5s: the second word is the hand, and has no =\n",
            ),
        ],
    );
}

#[test]
fn words_after_the_hand(rt: HostRuntime) {
    refuses(
        &rt,
        &[
            (
                b"win 1m on=1s seat=s on=2s by=Ron".as_slice(),
                "  seat=s: a seat is E, S, W or N\n",
            ),
            (
                b"win 123m 456m on=1s",
                "  456m: after the hand of win stand on=, by=, seat=, round=, open=, riichi=, flags=, dora=, ura=, counters= and sticks= alone\n",
            ),
            (
                b"waits 1m seen=2m",
                "  seen=2m: after the hand of waits stands open= alone\n",
            ),
            (
                b"shape 1m  seen=2m seat=S",
                "  seat=S: after the hand of shape stand open= and seen= alone\n",
            ),
            (
                b"win 1m by=tsumo by=ron on=5s",
                "  by=ron: no key stands twice\n",
            ),
            (
                b"win 1m by=tsumo on=1m round=E",
                "  seat is missing: a win tells on, by, seat and round\n",
            ),
        ],
    );
}

#[test]
fn values(rt: HostRuntime) {
    refuses(
        &rt,
        &[
            (
                b"win 1m by=Ron".as_slice(),
                "  by=Ron: a win is by ron or tsumo\n",
            ),
            (b"win 1m round=e", "  round=e: a round is E, S, W or N\n"),
            (b"win 1m riichi=yes", "  riichi=yes: riichi is 0, 1 or 2\n"),
            (
                b"win 1m flags=haitei",
                "  flags=haitei: flags are of ippatsu, rinshan, chankan, last and first, joined by commas, none twice\n",
            ),
            (
                b"win 1m counters=100",
                "  counters=100: counters are one or two digits\n",
            ),
            (
                b"win 1m sticks=",
                "  sticks=: sticks are one or two digits\n",
            ),
        ],
    );
}

#[test]
fn texts_of_tiles(rt: HostRuntime) {
    refuses(
        &rt,
        &[
            (
                b"waits 12x3m".as_slice(),
                "  12x3m\n    ^ a digit or one of m p s z stands here\n",
            ),
            (
                b"shape 123m seen=11111m",
                "  seen=11111m\n           ^ there are four tiles of a kind\n",
            ),
            (
                b"win 1m on= by=ron seat=S round=E dora=5",
                "  on=\n     ^ a text of tiles is not empty\n",
            ),
            (
                b"win 1m on=1m by=ron seat=S round=E dora=5",
                "  dora=5\n        ^ a letter m, p, s or z stands after the digits\n",
            ),
            (b"waits m", "  m\n  ^ a digit stands before the letter\n"),
            (b"waits 8z", "  8z\n  ^ honours are 1z to 7z\n"),
        ],
    );
}

#[test]
fn faults_of_the_record(rt: HostRuntime) {
    refuses(
        &rt,
        &[
            (
                b"waits 2223456777m open=pon:112z".as_slice(),
                "  open=pon:112z: open is one to four melds joined by commas: chi:, pon:, kan: or ankan: and their tiles\n",
            ),
            (
                b"waits 123456789m111z",
                "  123456789m111z: a hand has 13 tiles, a shape 13 or 14, three fewer for each meld; on has one tile, dora and ura at most five\n",
            ),
            (
                b"win 234m567m345p67s99s on=58s by=ron seat=S round=E",
                "  on=58s: a hand has 13 tiles, a shape 13 or 14, three fewer for each meld; on has one tile, dora and ura at most five\n",
            ),
            (
                b"win 111m234m567p678s9s on=9s by=ron seat=S round=E dora=11m",
                "  there are four tiles of a kind in all\n",
            ),
            (
                b"win 567m345p67s88s open=chi:234m on=5s by=ron seat=S round=E riichi=1",
                "  riichi=1: riichi needs a concealed hand\n",
            ),
            (
                b"win 234m567m345p67s99s on=5s by=ron seat=S round=E flags=ippatsu",
                "  flags=ippatsu: ippatsu and ura need riichi\n",
            ),
            (
                b"win 234m567m345p67s99s on=5s by=ron seat=S round=E flags=ippatsu ura=1m",
                "  ura=1m: ippatsu and ura need riichi\n",
            ),
            (
                b"win 234m567m345p67s99s on=5s by=ron seat=S round=E flags=first",
                "  flags=first: first is a win by tsumo, or under blessing-of-man by ron of any seat but East, without melds, riichi or another flag\n",
            ),
        ],
    );
}

#[test]
fn words_by_name(rt: HostRuntime) {
    let words = fault_words(&LineFault::Line(LineCode::H16));
    same(&rt, words, "a red five is one of the fives");
}

#[test]
fn what_programs_are_told(rt: HostRuntime) {
    let line = b"win 1m by=ron seat=s";
    let Err(refusal) = read_placed(Rules::One, line) else {
        return holds(&rt, false);
    };
    same(&rt, refusal_key(&refusal), Some("seat"));
    same(&rt, refusal_words(line, &refusal), "a seat is E, S, W or N");
    let place = refusal_place(line, &refusal).expect(&rt, "a place");
    same(&rt, (place.at, place.length), (14, 6));
}
