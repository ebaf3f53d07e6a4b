use crate::facts::{holds, same, same_in};
use arrayvec::ArrayString;
use riichi_hand::{Rules, Switch, read_line, read_placed};
use riichi_hints::{hint_of, push_refusal};
use std::process::Abort;

const WIN: &str = "win 234m567m345p67s99s on=5s by=ron seat=S round=E";

/// Each line is refused, and its hint is this line, which is answered.
fn hints(rt: &impl Abort, hint: &str, lines: &[&str]) {
    holds(rt, read_line(Rules::Two, hint.as_bytes()).is_ok());
    for line in lines {
        holds(rt, read_line(Rules::One, line.as_bytes()).is_err());
        match hint_of(Rules::One, line.as_bytes()) {
            Some(found) => match std::str::from_utf8(found.line.as_slice()) {
                Ok(text) => same_in(rt, line, text, hint),
                Err(_) => holds(rt, false),
            },
            None => holds(rt, false),
        }
    }
}

#[test]
fn hands(rt: HostRuntime) {
    hints(
        &rt,
        WIN,
        &[
            "win 234M567M345P67S99S on=5S by=ron seat=S round=E",
            "win 234m 567m 345p 67s 99s on=5s by=ron seat=S round=E",
            "win 234m567m345p567s99s on=5s by=ron seat=S round=E",
            "win 234m567m345p67s99s+5s by=ron seat=S round=E",
            "234m567m345p67s99s on=5s by=ron seat=S round=E",
        ],
    );
    hints(&rt, "waits 123456m11p11177z", &["waits 123456m11pEEERR"]);
    hints(&rt, "shape 123456789m11348p", &["waits 123456789m11348p"]);
    hints(
        &rt,
        "waits 1112345678999m",
        &[
            "waits \u{1f007}\u{1f007}\u{1f007}\u{1f008}\u{1f009}\u{1f00a}\u{1f00b}\u{1f00c}\u{1f00d}\u{1f00e}\u{1f00f}\u{1f00f}\u{1f00f}",
        ],
    );
}

#[test]
fn words(rt: HostRuntime) {
    hints(
        &rt,
        WIN,
        &[
            "win 234m567m345p67s99s on=5s by=Ron seat=South round=1",
            "win 234m567m345p67s99s on=5s by=ron seat=S ronud=E",
            "win 234m567m345p67s99s on = 5s by = ron seat = S round = E",
            "win 234m567m345p67s99s on=5s ron seat=nan round=ton nice!",
        ],
    );
    hints(
        &rt,
        "win 234m567m67s99s on=5s by=ron seat=E round=E open=pon:111z counters=2",
        &[
            "win 234m567m67s99s open=111z on=5s by=ron seat=E round=E honba=2",
            "win 234m567m67s99s open=pung:EEE on=5s by=ron seat=E round=E counter=2",
        ],
    );
    hints(
        &rt,
        "win 234m567m345p67s99s on=5s by=tsumo seat=S round=E riichi=1 flags=ippatsu,last dora=12m",
        &[
            "win 234m567m345p67s99s on=5s by=tsumo seat=S round=E flags=riichi,ippatsu|haitei dora=1m,2m",
        ],
    );
}

#[test]
fn scripts_and_melds(rt: HostRuntime) {
    hints(
        &rt,
        WIN,
        &[
            "和了 二三四萬五六七萬三四五筒六七索九九索 ロン 五索 南家 東場",
            "win 234m567m345p67s99s on=5s by=рон seat=Süd round=wschód",
            "win 234m567m345p67s99s on 5s by discard east round south seat",
        ],
    );
    hints(
        &rt,
        "win 234m567m67s99s on=5s by=ron seat=E round=E open=pon:777z",
        &[
            "win 234m567m67s99s p777z on=5s by=ron seat=E round=E",
            "win 234m567m67s99s(777z) on=5s by=ron seat=E round=E",
            "win 234m567m67s99s ポン777z on=5s by=ron seat=E round=E",
        ],
    );
    hints(
        &rt,
        "win 234567m345p6799s on=0s by=ron seat=S round=E",
        &["win 12,13,14,15,16,17,23,24,25,36,37,39,39 on=53 by=ron seat=S round=E"],
    );
}

/// What may be meant otherwise as well is a guess.
#[test]
fn guesses(rt: HostRuntime) {
    for &(line, account) in &[
        (
            "win 234m567m345p67s99s on=5s ron S E",
            " seat=S is a guess. round=E is a guess.",
        ),
        (
            "win 234m567m67s99s [1111z] on=5s by=ron seat=E round=E",
            " [1111z] is read as open=kan:1111z. open=kan:1111z is a guess.",
        ),
    ] {
        let hint = hint_of(Rules::One, line.as_bytes()).expect(&rt, "a hint");
        holds(&rt, hint.is_guess);
        same(&rt, hint.account.as_slice(), account.as_bytes());
    }
}

/// The hint of a line under these rules.
fn hints_at(rt: &impl Abort, rules: Rules, line: &str, wanted: &str) {
    let hint = hint_of(rules, line.as_bytes()).expect(rt, "a hint");
    same(rt, hint.line.as_slice(), wanted.as_bytes());
}

/// A win by ron before the own first draw is one where the rules have the blessing of man, of another seat than East.
#[test]
fn rules_of_the_line(rt: HostRuntime) {
    let south = "win 234m567m345p67s99s on=5s by=Ron seat=S round=E flags=first";
    let east = "win 234m567m345p67s99s on=5s by=Ron seat=E round=E flags=first";
    let blessed = Rules::One.with(Switch::BlessingOfMan, true);
    let ron = "win 234m567m345p67s99s on=5s by=ron seat=S round=E flags=first";
    hints_at(&rt, blessed, south, ron);
    let drawn = "win 234m567m345p67s99s on=5s by=tsumo seat=E round=E flags=first";
    hints_at(&rt, blessed, east, drawn);
    let drawn = "win 234m567m345p67s99s on=5s by=tsumo seat=S round=E flags=first";
    hints_at(&rt, Rules::One, south, drawn);
}

/// No reading of these lines is answered.
#[test]
fn none(rt: HostRuntime) {
    for &line in &[
        "waits 12x3m",
        "waits 123456789m111z",
        "waits 11111m23456789m",
        "win 234m567m67s99s 777z pon chi on=5s by=ron seat=E round=E",
        "win",
        "",
    ] {
        holds(&rt, hint_of(Rules::One, line.as_bytes()).is_none());
    }
    holds(&rt, hint_of(Rules::One, &[b'1'; 513]).is_none());
}

#[test]
fn notes(rt: HostRuntime) {
    for &(line, lines) in &[
        (
            "win 111m234m567p678s9s on=9s by=ron seat=S round=E dora=11m",
            "  there are four tiles of a kind in all\n  1m stands 5 times: 3 in the hand, 2 in dora\n",
        ),
        (
            "win 234m567m345p67s99s on=5s by=ron seat=S round=E honba=x",
            "  honba=x: after the hand of win stand on=, by=, seat=, round=, open=, riichi=, flags=, dora=, ura=, counters= and sticks= alone\n  the nearest key is counters\n",
        ),
    ] {
        let Err(refusal) = read_placed(Rules::One, line.as_bytes()) else {
            return holds(&rt, false);
        };
        let mut text = ArrayString::new();
        push_refusal(&mut text, Rules::One, line.as_bytes(), &refusal);
        same(&rt, text.as_str(), lines);
    }
}
