use crate::facts::{holds, same, same_in};
use arrayvec::ArrayString;
use riichi_hand::{Job, Rules, Switch, fault_text, read_line};
use riichi_score::*;
use riichi_split::Reading;
use riichi_tiles::Reds;
use std::process::Abort;

fn text_of(job: &Job) -> ArrayString<3072> {
    match job {
        Job::Win(win) => win_text(&best(win)),
        _ => ArrayString::new(),
    }
}

pub(crate) fn answers(rt: &impl Abort, rules: Rules, rows: &[(&str, &str)]) {
    for (line, text) in rows {
        match read_line(rules, line.as_bytes()) {
            Ok(Some(job)) => same_in(rt, &line, text_of(&job).as_str(), *text),
            Ok(None) => holds(rt, false),
            Err(fault) => same_in(rt, &line, fault_text(&fault).as_str(), *text),
        }
    }
}

#[test]
fn runs_and_draws(rt: HostRuntime) {
    answers(
        &rt,
        Rules::One,
        &[
            (
                "win 234m567m345p67s99s on=5s by=tsumo seat=S round=E",
                "won 2 han 20 fu 400/700 gain 1500 fully-concealed pinfu",
            ),
            (
                "win 234m567m345p67s99s on=5s by=tsumo seat=E round=E counters=2 sticks=1",
                "won 2 han 20 fu 900 all gain 3700 fully-concealed pinfu",
            ),
            (
                "win 234m567m345p67s99s on=5s by=tsumo seat=E round=E flags=first",
                "won yakuman 16000 all gain 48000 blessing-of-heaven",
            ),
            (
                "win 123456789m22s34p on=2p by=ron seat=S round=E",
                "won 3 han 30 fu 3900 gain 3900 pinfu pure-straight",
            ),
            ("win 123456789m22s34p on=9s by=ron seat=S round=E", "no win"),
        ],
    );
}

/// The text of a win and its base points.
fn text_and_base_of(job: &Job) -> Option<(ArrayString<3072>, u32)> {
    if let Job::Win(win) = job {
        let answer = best(win);
        if let WinAnswer::Won(score) = &answer {
            return Some((win_text(&answer), score.base));
        }
    }
    None
}

/// Two han with 30 fu: 30 times 16.
#[test]
fn base_points_of_a_score(rt: HostRuntime) {
    let line = b"win 234m567m345p67s99s on=5s by=ron seat=S round=E riichi=1";
    match read_line(Rules::One, line) {
        Ok(Some(job)) => {
            let (text, base) = text_and_base_of(&job).expect(&rt, "a score");
            same(
                &rt,
                text.as_str(),
                "won 2 han 30 fu 2000 gain 2000 riichi pinfu",
            );
            same(&rt, base, 480);
        }
        _ => holds(&rt, false),
    }
}

#[test]
fn open_hands(rt: HostRuntime) {
    answers(
        &rt,
        Rules::One,
        &[
            (
                "win 567m345p67s88s open=chi:234m on=5s by=ron seat=S round=E",
                "won 1 han 30 fu 1000 gain 1000 all-simples",
            ),
            (
                "win 234m567m34p99s open=ankan:1111z on=2p by=tsumo seat=S round=E flags=rinshan dora=1p",
                "won 4 han 60 fu 2000/4000 gain 8000 fully-concealed prevalent-wind after-a-kong dora 1",
            ),
            (
                "win 11223m789p99s open=pon:111z on=3m by=ron seat=S round=E",
                "won 2 han 30 fu 2000 gain 2000 prevalent-wind outside-hand",
            ),
            (
                "win 456m22s34p open=chi:123m,chi:678p on=2p by=ron seat=S round=E",
                "no yaku",
            ),
        ],
    );
}

#[test]
fn several_readings(rt: HostRuntime) {
    answers(
        &rt,
        Rules::One,
        &[
            (
                "win 111222333p78m99s on=9m by=ron seat=S round=E",
                "won 5 han 30 fu 8000 gain 8000 pinfu pure-double-chow terminals-in-all-sets",
            ),
            (
                "win 112233m556677p9s on=9s by=ron seat=S round=E",
                "won 3 han 40 fu 5200 gain 5200 twice-pure-double-chow",
            ),
            (
                "win 1133m5577p2288s4z on=4z by=tsumo seat=W round=E",
                "won 3 han 25 fu 800/1600 gain 3200 fully-concealed seven-pairs",
            ),
            (
                "win 223344m556677m8m on=8m by=ron seat=S round=E riichi=1 dora=1m",
                "won 14 han 30 fu 32000 gain 32000 riichi pinfu all-simples twice-pure-double-chow full-flush dora 2",
            ),
            (
                "win 99978m444p567s22s on=9m by=ron seat=S round=E riichi=1",
                "won 1 han 50 fu 1600 gain 1600 riichi",
            ),
            (
                "win 234m567m345p67s11z on=8s by=ron seat=E round=E riichi=1",
                "won 1 han 40 fu 2000 gain 2000 riichi",
            ),
        ],
    );
}

/// The answers under the first profile with one rule turned.
fn answers_with(rt: &impl Abort, rows: &[(Switch, bool, &str, &str)]) {
    for (switch, is_on, line, text) in rows {
        let rules = Rules::One.with(*switch, *is_on);
        answers(rt, rules, &[(*line, *text)]);
    }
}

#[test]
fn rules_of_base_points(rt: HostRuntime) {
    answers_with(
        &rt,
        &[
            (
                Switch::RedFives,
                true,
                "win 123406789m22s34p on=2p by=ron seat=S round=E",
                "won 4 han 30 fu 7700 gain 7700 pinfu pure-straight dora 1",
            ),
            (
                Switch::Raise,
                true,
                "win 123456789m22s34p on=2p by=ron seat=S round=E dora=1p",
                "won 4 han 30 fu 8000 gain 8000 pinfu pure-straight dora 1",
            ),
            (
                Switch::CountedYakuman,
                false,
                "win 223344m556677m8m on=8m by=ron seat=S round=E riichi=1 dora=1m",
                "won 14 han 30 fu 24000 gain 24000 riichi pinfu all-simples twice-pure-double-chow full-flush dora 2",
            ),
            (
                Switch::Ippatsu,
                false,
                "win 234m567m345p67s99s on=5s by=ron seat=S round=E riichi=1 flags=ippatsu",
                "won 2 han 30 fu 2000 gain 2000 riichi pinfu",
            ),
            (
                Switch::Ura,
                false,
                "win 234m567m345p67s99s on=5s by=ron seat=S round=E riichi=1 ura=1m",
                "won 2 han 30 fu 2000 gain 2000 riichi pinfu",
            ),
        ],
    );
}

#[test]
fn rules_of_yakuman(rt: HostRuntime) {
    answers_with(
        &rt,
        &[
            (
                Switch::AddYakuman,
                true,
                "win 111z222z33z444z99m on=3z by=tsumo seat=S round=E",
                "won yakuman 16000/32000 gain 64000 four-concealed-pungs big-four-winds",
            ),
            (
                Switch::DoubleYakuman,
                true,
                "win 1112345678999m on=5m by=ron seat=S round=E",
                "won yakuman 64000 gain 64000 nine-gates",
            ),
            (
                Switch::DoubleYakuman,
                true,
                "win 1112345678899m on=9m by=ron seat=S round=E",
                "won yakuman 32000 gain 32000 nine-gates",
            ),
            (
                Switch::DoubleYakuman,
                true,
                "win 19m19p19s1234567z on=1m by=ron seat=S round=E",
                "won yakuman 64000 gain 64000 thirteen-orphans",
            ),
            (
                Switch::DoubleYakuman,
                true,
                "win 111m222p333s9m444z on=9m by=ron seat=S round=E",
                "won yakuman 64000 gain 64000 four-concealed-pungs",
            ),
        ],
    );
}

#[test]
fn blessing_of_man(rt: HostRuntime) {
    answers_with(
        &rt,
        &[
            (
                Switch::BlessingOfMan,
                true,
                "win 234m567m345p67s99s on=5s by=ron seat=N round=E flags=first",
                "won yakuman 32000 gain 32000 blessing-of-man",
            ),
            (
                Switch::BlessingOfMan,
                true,
                "win 234m567m345p67s99s on=5s by=tsumo seat=N round=E flags=first",
                "won yakuman 8000/16000 gain 32000 blessing-of-earth",
            ),
            (
                Switch::BlessingOfMan,
                true,
                "win 234m567m345p67s99s on=5s by=ron seat=E round=E flags=first",
                "refused H15",
            ),
            (
                Switch::BlessingOfMan,
                true,
                "win 234m567m345p67s99s on=5s by=ron seat=N round=E riichi=1 flags=first",
                "refused H15",
            ),
        ],
    );
}

#[test]
fn rules_of_fu_and_open_hands(rt: HostRuntime) {
    answers_with(
        &rt,
        &[
            (
                Switch::DoubleWindPair,
                false,
                "win 234m567m999p67s11z on=5s by=ron seat=E round=E riichi=1",
                "won 1 han 40 fu 2000 gain 2000 riichi",
            ),
            (
                Switch::KongDrawFu,
                false,
                "win 567m345p68s99s open=kan:2222m on=7s by=tsumo seat=S round=E flags=rinshan",
                "won 1 han 30 fu 300/500 gain 1100 after-a-kong",
            ),
            (
                Switch::OpenSimples,
                false,
                "win 567m345p67s88s open=chi:234m on=5s by=tsumo seat=S round=E",
                "no yaku",
            ),
            (
                Switch::OpenPinfuFu,
                false,
                "win 567m345p67s88s open=chi:234m on=5s by=ron seat=S round=E",
                "won 1 han 20 fu 700 gain 700 all-simples",
            ),
        ],
    );
}

#[test]
fn profiles_are_choices_of_rules(rt: HostRuntime) {
    let second = Rules::One
        .with(Switch::RedFives, true)
        .with(Switch::Raise, true);
    holds(&rt, second == Rules::Two);
    for switch in Switch::ALL {
        holds(&rt, !second.with(switch, false).has(switch));
        holds(&rt, second.with(switch, true).has(switch));
        holds(&rt, switch.word().len() > 2);
    }
}

fn as_seven_pairs(job: &Job) -> Option<Score> {
    match job {
        Job::Win(win) => score_of(&Reading::SevenPairs, win),
        _ => None,
    }
}

#[test]
fn a_reading_that_is_not_the_best(rt: HostRuntime) {
    let line = b"win 112233m556677p9s on=9s by=ron seat=S round=E";
    match read_line(Rules::One, line) {
        Ok(Some(job)) => {
            let score = as_seven_pairs(&job).expect(&rt, "a yaku");
            same(&rt, (score.han, score.fu, score.gain), (2, 25, 1600));
        }
        _ => holds(&rt, false),
    }
}

#[test]
fn triplets_and_yakuman(rt: HostRuntime) {
    answers(
        &rt,
        Rules::One,
        &[
            (
                "win 222m444p666s33m88s on=8s by=ron seat=S round=E",
                "won 5 han 50 fu 8000 gain 8000 all-simples all-pungs three-concealed-pungs",
            ),
            (
                "win 222m444p666s33m88s on=8s by=tsumo seat=S round=E",
                "won yakuman 8000/16000 gain 32000 four-concealed-pungs",
            ),
            (
                "win 19m19p19s1234567z on=1m by=ron seat=E round=E",
                "won yakuman 48000 gain 48000 thirteen-orphans",
            ),
            (
                "win 1112345678999m on=5m by=ron seat=S round=E riichi=1 dora=4m",
                "won yakuman 32000 gain 32000 nine-gates",
            ),
        ],
    );
}

/// A red five, four han 30 fu, three han 60 fu; a red five that wins; one in a meld; no yaku.
const STRAIGHT: &str = "win 123406789m22s34p on=2p by=ron seat=S round=E";

const INDICATED: &str = "win 123456789m22s34p on=2p by=ron seat=S round=E dora=1p";

const KONG: &str =
    "win 234m567m34p99s open=ankan:1111z on=2p by=tsumo seat=S round=E flags=rinshan";

const PINFU: &str = "win 234m067m345p67s99s on=0s by=ron seat=S round=E";

const SIMPLES: &str = "win 567m345p67s88s open=chi:340m on=5s by=ron seat=S round=E";

const NOTHING: &str = "win 406m22s34p open=chi:123m,chi:678p on=2p by=ron seat=S round=E";

#[test]
fn the_first_profile(rt: HostRuntime) {
    answers(
        &rt,
        Rules::One,
        &[
            (
                STRAIGHT,
                "won 3 han 30 fu 3900 gain 3900 pinfu pure-straight",
            ),
            (
                INDICATED,
                "won 4 han 30 fu 7700 gain 7700 pinfu pure-straight dora 1",
            ),
            (
                KONG,
                "won 3 han 60 fu 2000/3900 gain 7900 fully-concealed prevalent-wind after-a-kong",
            ),
            (PINFU, "won 1 han 30 fu 1000 gain 1000 pinfu"),
            (SIMPLES, "won 1 han 30 fu 1000 gain 1000 all-simples"),
            (NOTHING, "no yaku"),
        ],
    );
}

#[test]
fn the_second_profile(rt: HostRuntime) {
    answers(
        &rt,
        Rules::Two,
        &[
            (
                STRAIGHT,
                "won 4 han 30 fu 8000 gain 8000 pinfu pure-straight dora 1",
            ),
            (
                INDICATED,
                "won 4 han 30 fu 8000 gain 8000 pinfu pure-straight dora 1",
            ),
            (
                KONG,
                "won 3 han 60 fu 2000/4000 gain 8000 fully-concealed prevalent-wind after-a-kong",
            ),
            (PINFU, "won 3 han 30 fu 3900 gain 3900 pinfu dora 2"),
            (SIMPLES, "won 2 han 30 fu 2000 gain 2000 all-simples dora 1"),
            (NOTHING, "no yaku"),
        ],
    );
}

#[test]
fn base_points_and_gain(rt: HostRuntime) {
    let one = Rules::One;
    let two = Rules::Two;
    same(&rt, base_points(one, 4, 30), 1920);
    same(&rt, base_points(two, 4, 30), 2000);
    same(
        &rt,
        gain(
            &Payment::Tsumo {
                other: 400,
                dealer: 700,
            },
            2,
        ),
        3500,
    );
    same(&rt, (product_of(2, 40), product_of(4, 30)), (640, 1920));
    holds(&rt, is_raised(two, 4, 30) && is_raised(two, 3, 60));
    holds(&rt, !is_raised(two, 4, 25) && !is_raised(one, 4, 30));
    let reds = Reds::new(1, 2, 0).expect(&rt, "three red fives");
    same(&rt, (red_dora(one, &reds), red_dora(two, &reds)), (0, 3));
}

/// The fu that a win has for being open, with 20 fu and with 22 in all.
fn open_fu_of(job: &Job) -> Option<(u8, u8)> {
    if let Job::Win(win) = job {
        let concealed = win.melds().concealed();
        return Some((open_fu(concealed, win, 20), open_fu(concealed, win, 22)));
    }
    None
}

#[test]
fn an_open_hand_of_twenty_fu(rt: HostRuntime) {
    match read_line(Rules::One, SIMPLES.as_bytes()) {
        Ok(Some(job)) => same(&rt, open_fu_of(&job), Some((10, 0))),
        _ => holds(&rt, false),
    }
}
