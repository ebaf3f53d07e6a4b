//! Worked lines and their answers.
use crate::facts::{holds, same};
use desk_core::judge;
use desk_json::{JsonText, answer_text, push_refusal, refusal_text};
use riichi_hand::{Rules, Switch, read_line, read_placed};
use std::process::Abort;

struct Row {
    line: &'static str,
    text: &'static str,
}

const WINS: [Row; 7] = [
    Row {
        line: "win 234m567m345p67s99s on=5s by=tsumo seat=S round=E",
        text: "{\"answer\":\"won\",\"yakuman\":false,\"han\":2,\"fu\":20,\"dora\":0,\"base\":320,\"limit\":null,\"payment\":{\"dealer\":700,\"each_other\":400},\"gain\":1500,\"yaku\":[{\"number\":3,\"word\":\"fully-concealed\",\"japanese\":\"menzen tsumo\"},{\"number\":4,\"word\":\"pinfu\",\"japanese\":\"pinfu\"}]}",
    },
    Row {
        line: "win 234m567m345p67s99s on=5s by=tsumo seat=E round=E counters=2 sticks=1",
        text: "{\"answer\":\"won\",\"yakuman\":false,\"han\":2,\"fu\":20,\"dora\":0,\"base\":320,\"limit\":null,\"payment\":{\"each\":900},\"gain\":3700,\"yaku\":[{\"number\":3,\"word\":\"fully-concealed\",\"japanese\":\"menzen tsumo\"},{\"number\":4,\"word\":\"pinfu\",\"japanese\":\"pinfu\"}]}",
    },
    Row {
        line: "win 234m567m34p99s open=ankan:1111z on=2p by=tsumo seat=S round=E flags=rinshan dora=1p",
        text: "{\"answer\":\"won\",\"yakuman\":false,\"han\":4,\"fu\":60,\"dora\":1,\"base\":2000,\"limit\":\"mangan\",\"payment\":{\"dealer\":4000,\"each_other\":2000},\"gain\":8000,\"yaku\":[{\"number\":3,\"word\":\"fully-concealed\",\"japanese\":\"menzen tsumo\"},{\"number\":11,\"word\":\"prevalent-wind\",\"japanese\":\"yakuhai bakaze\"},{\"number\":12,\"word\":\"after-a-kong\",\"japanese\":\"rinshan kaiho\"}]}",
    },
    Row {
        line: "win 223344m556677m8m on=8m by=ron seat=S round=E riichi=1 dora=1m",
        text: "{\"answer\":\"won\",\"yakuman\":false,\"han\":14,\"fu\":30,\"dora\":2,\"base\":8000,\"limit\":\"yakuman\",\"payment\":{\"discarder\":32000},\"gain\":32000,\"yaku\":[{\"number\":0,\"word\":\"riichi\",\"japanese\":\"riichi\"},{\"number\":4,\"word\":\"pinfu\",\"japanese\":\"pinfu\"},{\"number\":6,\"word\":\"all-simples\",\"japanese\":\"tanyao\"},{\"number\":27,\"word\":\"twice-pure-double-chow\",\"japanese\":\"ryanpeikou\"},{\"number\":28,\"word\":\"full-flush\",\"japanese\":\"chinitsu\"}]}",
    },
    Row {
        line: "win 19m19p19s1234567z on=1m by=ron seat=E round=E",
        text: "{\"answer\":\"won\",\"yakuman\":true,\"han\":0,\"fu\":0,\"dora\":0,\"base\":8000,\"limit\":\"yakuman\",\"payment\":{\"discarder\":48000},\"gain\":48000,\"yaku\":[{\"number\":29,\"word\":\"thirteen-orphans\",\"japanese\":\"kokushi musou\"}]}",
    },
    Row {
        line: "win 123456789m22s34p on=9s by=ron seat=S round=E",
        text: "{\"answer\":\"no win\"}",
    },
    Row {
        line: "win 456m22s34p open=chi:123m,chi:678p on=2p by=ron seat=S round=E",
        text: "{\"answer\":\"no yaku\"}",
    },
];

const HANDS: [Row; 6] = [
    Row {
        line: "waits 123456789m1134p",
        text: "{\"answer\":\"waits\",\"kinds\":[\"2p\",\"5p\"]}",
    },
    Row {
        line: "waits 123456789m1111z",
        text: "{\"answer\":\"waits\",\"kinds\":[]}",
    },
    Row {
        line: "shape 123456789m1134p",
        text: "{\"answer\":\"shape\",\"shanten\":0,\"accepts\":[{\"kind\":\"2p\",\"live\":4},{\"kind\":\"5p\",\"live\":4}],\"live\":8}",
    },
    Row {
        line: "shape 123456789m11348p",
        text: "{\"answer\":\"shape\",\"shanten\":0,\"discards\":[{\"discard\":\"8p\",\"accepts\":[{\"kind\":\"2p\",\"live\":4},{\"kind\":\"5p\",\"live\":4}],\"live\":8}]}",
    },
    Row {
        line: "shape 11z open=pon:222z,chi:123m,chi:123m,chi:123m",
        text: "{\"answer\":\"shape\",\"shanten\":-1,\"discards\":[{\"discard\":\"1z\",\"accepts\":[{\"kind\":\"1z\",\"live\":2}],\"live\":2}]}",
    },
    Row {
        line: "shape 12z open=pon:333z,chi:123m,chi:123m,chi:123m seen=222z",
        text: "{\"answer\":\"shape\",\"shanten\":0,\"discards\":[{\"discard\":\"2z\",\"accepts\":[{\"kind\":\"1z\",\"live\":3}],\"live\":3},{\"discard\":\"1z\",\"accepts\":[],\"live\":0}]}",
    },
];

const REFUSALS: [Row; 13] = [
    Row {
        line: "waits 8z",
        text: "{\"answer\":\"refused\",\"code\":\"N5\",\"text\":\"hand\",\"place\":0,\"key\":\"hand\",\"at\":6,\"length\":2,\"words\":\"honours are 1z to 7z\"}",
    },
    Row {
        line: "waits 12x3m",
        text: "{\"answer\":\"refused\",\"code\":\"N2\",\"text\":\"hand\",\"place\":2,\"key\":\"hand\",\"at\":6,\"length\":5,\"words\":\"a digit or one of m p s z stands here\"}",
    },
    Row {
        line: "  wait 1112345678999m",
        text: "{\"answer\":\"refused\",\"code\":\"H2\",\"at\":2,\"length\":4,\"words\":\"the first word is win, waits or shape\"}",
    },
    Row {
        line: "waits 1m\t",
        text: "{\"answer\":\"refused\",\"code\":\"H1\",\"at\":8,\"length\":1,\"words\":\"a tab stands here: words are parted by spaces\"}",
    },
    Row {
        line: "win",
        text: "{\"answer\":\"refused\",\"code\":\"H3\",\"key\":\"hand\",\"words\":\"the second word is the hand, and has no =\"}",
    },
    Row {
        line: "win on=5s",
        text: "{\"answer\":\"refused\",\"code\":\"H3\",\"key\":\"on\",\"at\":4,\"length\":5,\"words\":\"the second word is the hand, and has no =\"}",
    },
    Row {
        line: "win 1m by=ron seat=s",
        text: "{\"answer\":\"refused\",\"code\":\"H4\",\"key\":\"seat\",\"at\":14,\"length\":6,\"words\":\"a seat is E, S, W or N\"}",
    },
    Row {
        line: "win 1m place=2",
        text: "{\"answer\":\"refused\",\"code\":\"H4\",\"at\":7,\"length\":7,\"words\":\"after the hand of win stand on=, by=, seat=, round=, open=, riichi=, flags=, dora=, ura=, counters= and sticks= alone\"}",
    },
    Row {
        line: "win 234m567m345p67s99s on=5s by=ron seat=S round=E on=5s",
        text: "{\"answer\":\"refused\",\"code\":\"H5\",\"key\":\"on\",\"at\":51,\"length\":5,\"words\":\"no key stands twice\"}",
    },
    Row {
        line: "win 1m on=1m by=ron seat=S",
        text: "{\"answer\":\"refused\",\"code\":\"H6\",\"key\":\"round\",\"words\":\"a win tells on, by, seat and round\"}",
    },
    Row {
        line: "waits 123456789m111z",
        text: "{\"answer\":\"refused\",\"code\":\"H8\",\"key\":\"hand\",\"at\":6,\"length\":14,\"words\":\"a hand has 13 tiles, a shape 13 or 14, three fewer for each meld; on has one tile, dora and ura at most five\"}",
    },
    Row {
        line: "win 111m234m567p678s9s on=9s by=ron seat=S round=E dora=11m",
        text: "{\"answer\":\"refused\",\"code\":\"H9\",\"words\":\"there are four tiles of a kind in all\"}",
    },
    Row {
        line: "win 234m567m345p67s99s on=5s by=ron seat=S round=E flags=chankan,last",
        text: "{\"answer\":\"refused\",\"code\":\"H14\",\"key\":\"flags\",\"at\":51,\"length\":18,\"words\":\"rinshan goes with neither last nor ippatsu, chankan not with last\"}",
    },
];

fn check(rt: &impl Abort, rules: Rules, row: &Row) {
    let Ok(Some(job)) = read_line(rules, row.line.as_bytes()) else {
        return holds(rt, false);
    };
    same(rt, answer_text(rules, &judge(&job)).as_str(), row.text);
}

#[test]
fn answers_of_wins(rt: HostRuntime) {
    for row in &WINS {
        check(&rt, Rules::One, row);
    }
}

#[test]
fn answers_of_hands_and_shapes(rt: HostRuntime) {
    for row in &HANDS {
        check(&rt, Rules::One, row);
    }
}

const HOUSE_RULES: [Row; 4] = [
    Row {
        line: "win 234m067m345p67s99s on=0s by=ron seat=S round=E",
        text: "{\"answer\":\"won\",\"yakuman\":false,\"han\":3,\"fu\":30,\"dora\":2,\"base\":960,\"limit\":null,\"payment\":{\"discarder\":3900},\"gain\":3900,\"yaku\":[{\"number\":4,\"word\":\"pinfu\",\"japanese\":\"pinfu\"}],\"rules\":\"1+red-fives-ura\"}",
    },
    Row {
        line: "win 406m22s34p open=chi:123m,chi:678p on=2p by=ron seat=S round=E",
        text: "{\"answer\":\"no yaku\",\"rules\":\"1+red-fives-ura\"}",
    },
    Row {
        line: "win 123456789m22s34p on=9s by=ron seat=S round=E",
        text: "{\"answer\":\"no win\",\"rules\":\"1+red-fives-ura\"}",
    },
    Row {
        line: "waits 123456789m1134p",
        text: "{\"answer\":\"waits\",\"kinds\":[\"2p\",\"5p\"]}",
    },
];

/// The answer to a win names the rules of a house, and no others.
#[test]
fn rules_of_a_house(rt: HostRuntime) {
    let house = Rules::One
        .with(Switch::RedFives, true)
        .with(Switch::Ura, false);
    for row in &HOUSE_RULES {
        check(&rt, house, row);
    }
    for row in &WINS {
        check(&rt, Rules::One, row);
    }
}

fn refused(rt: &impl Abort, line: &[u8]) -> JsonText {
    let refusal = read_placed(Rules::One, line).err();
    refusal_text(line, &refusal.expect(rt, "a refusal"))
}

#[test]
fn what_is_refused(rt: HostRuntime) {
    for row in &REFUSALS {
        same(&rt, refused(&rt, row.line.as_bytes()).as_str(), row.text);
    }
}

#[test]
fn lines_that_are_too_long(rt: HostRuntime) {
    let told =
        "{\"answer\":\"refused\",\"code\":\"H1\",\"words\":\"a line has at most 4096 bytes, all of them printable ASCII\"}";
    same(&rt, refused(&rt, &[b'w'; 4097]).as_str(), told);
    same(&rt, refused(&rt, &[0; 5000]).as_str(), told);
}

#[test]
fn in_a_text_that_is_kept(rt: HostRuntime) {
    let line = b"waits 8z";
    let Err(refusal) = read_placed(Rules::One, line) else {
        return holds(&rt, false);
    };
    let mut text = JsonText::new();
    push_refusal(&mut text, line, &refusal);
    text.clear();
    push_refusal(&mut text, line, &refusal);
    same(&rt, text.as_str(), refused(&rt, line).as_str());
}
