//! Worked wins, and why they are answered so.
use crate::facts::{holds, same};
use desk_json::JsonText;
use desk_reasons::push_explained_win;
use riichi_hand::{Job, Rules, Switch, read_line};
use riichi_shape::FreshRows;
use std::process::Abort;

/// A line, and of its object what stands behind `"why":`.
struct Row {
    line: &'static str,
    why: &'static str,
}

const WINS: [Row; 4] = [
    Row {
        line: "win 1122334m556677s on=4m by=ron seat=S round=E",
        why: "{\"reading\":{\"form\":\"standard\",\"sets\":[\"234m\",\"234m\",\"567s\",\"567s\"],\"pair\":\"11m\",\"completed\":\"234m\"},\"han\":[{\"part\":\"pinfu\",\"japanese\":\"pinfu\",\"han\":1},{\"part\":\"twice-pure-double-chow\",\"japanese\":\"ryanpeikou\",\"han\":3}],\"dora\":[],\"fu\":[{\"part\":\"base\",\"fu\":20},{\"part\":\"concealed ron\",\"japanese\":\"menzen kafu\",\"fu\":10}],\"payments\":[{\"payer\":\"discarder\",\"points\":7700,\"counters\":0}],\"others\":[{\"reading\":{\"form\":\"standard\",\"sets\":[\"123m\",\"123m\",\"567s\",\"567s\"],\"pair\":\"44m\",\"completed\":\"44m\"},\"han\":3,\"fu\":40,\"gain\":5200},{\"reading\":{\"form\":\"seven pairs\"},\"han\":2,\"fu\":25,\"gain\":1600}]}}",
    },
    Row {
        line: "win 1133m5577p2288s4z on=4z by=tsumo seat=W round=E counters=1",
        why: "{\"reading\":{\"form\":\"seven pairs\"},\"han\":[{\"part\":\"fully-concealed\",\"japanese\":\"menzen tsumo\",\"han\":1},{\"part\":\"seven-pairs\",\"japanese\":\"chiitoitsu\",\"han\":2}],\"dora\":[],\"fu\":[{\"part\":\"seven pairs\",\"fu\":25}],\"payments\":[{\"payer\":\"dealer\",\"points\":1600,\"counters\":100},{\"payer\":\"two others\",\"points\":800,\"counters\":100}],\"others\":[]}}",
    },
    Row {
        line: "win 456m22s34p open=chi:123m,chi:678p on=2p by=ron seat=S round=E",
        why: "{\"others\":[{\"reading\":{\"form\":\"standard\",\"sets\":[\"456m\",\"234p\"],\"pair\":\"22s\",\"completed\":\"234p\"}}]}}",
    },
    Row {
        line: "win 123456789m22s34p on=9s by=ron seat=S round=E",
        why: "{\"waits\":[\"2p\",\"5p\"],\"shanten\":{\"standard\":0,\"seven_pairs\":5,\"thirteen_orphans\":10}}}",
    },
];

fn explained(rt: &impl Abort, rules: Rules, line: &str) -> JsonText {
    let mut text = JsonText::new();
    let job = read_line(rules, line.as_bytes()).ok();
    match job.expect(rt, "no fault").expect(rt, "a job") {
        Job::Win(win) => push_explained_win(&mut text, &win, &mut FreshRows),
        _ => holds(rt, false),
    }
    text
}

#[test]
fn reasons_of_wins(rt: HostRuntime) {
    for row in &WINS {
        let text = explained(&rt, Rules::One, row.line);
        let (_, why) = text.as_str().split_once("\"why\":").expect(&rt, "reasons");
        same(&rt, why, row.why);
    }
}

/// The rules of a house stand before the reasons.
#[test]
fn reasons_under_the_rules_of_a_house(rt: HostRuntime) {
    let rules = Rules::Two.with(Switch::Ura, false);
    let text = explained(
        &rt,
        rules,
        "win 123456789m22s34p on=9s by=ron seat=S round=E",
    );
    same(
        &rt,
        text.as_str(),
        "{\"answer\":\"no win\",\"rules\":\"2-ura\",\"why\":{\"waits\":[\"2p\",\"5p\"],\"shanten\":{\"standard\":0,\"seven_pairs\":5,\"thirteen_orphans\":10}}}",
    );
}
