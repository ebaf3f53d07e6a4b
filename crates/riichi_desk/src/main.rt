//! The program `riichi_desk`: a scoring desk for riichi mahjong.
//!
//! `desk_cli` reads the command line into a `Request`, `answers` carries it out, `lines` over record lines, which `answering`
//! answers in their form, `studies` over questions, and `scoring` over the files of tables, `codes`, `yaku`, `rules` and `version` print what they are named for. `failure` says what is written on standard
//! error and with which exit status the program ends; `noted` keeps what the system said of a stream that failed, `slips` says which
//! line of a text set no profile, `beside` on a terminal what a refusal means, and `progress` shows there how far the answers are.
//! What is said of texts and lines is made by `desk_notes`.
#![tactic(auto)]

mod answering;
mod answers;
mod beside;
mod codes;
mod failure;
mod files;
mod games;
mod lines;
mod needs;
mod noted;
mod pairing;
mod progress;
mod rules;
mod scoring;
mod seats;
mod slips;
mod standings;
mod studies;
mod version;
mod yaku;

use answers::answer;
use progress::Terminals;
use std::io::IsTerminal;
use std::process::ExitCode;

fn main(rt: HostRuntime) -> ExitCode {
    let terminals = Terminals {
        has_output: rt.stdout().is_terminal(),
        has_errors: rt.stderr().is_terminal(),
    };
    ExitCode::from(answer(&rt, terminals))
}
