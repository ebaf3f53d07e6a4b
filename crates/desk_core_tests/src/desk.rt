use crate::facts::{holds, same};
use arrayvec::ArrayString;
use desk_core::{
    Answer, Arrived, CoreFault, DeskCore, Event, LIMIT, Lane, Piece, Reply, RunBack, SubmitFault,
    Taken, Ticket, answer_text, judge, judge_with, laws, push_answer,
};
use riichi_hand::{Job, Rules, read_line};
use riichi_score::WinAnswer;
use riichi_shape::RowCache;
use std::alloc::{AllocError, Global};

mod withdrawal;

const WAITS: &[u8] = b"waits 1112345678999m";

const SHAPE: &[u8] = b"shape 123456789m1134p";

/// One tile beside four melds, and another one called: a hand with no reading, which is the
/// quickest job to judge.
const QUICK: &[u8] = b"win 1z open=pon:111m,pon:333m,pon:555m,pon:777m on=2z by=ron seat=E round=E";

/// The job of a record line.
fn job_of(rules: Rules, line: &[u8]) -> Option<Job> {
    read_line(rules, line).ok()?
}

/// That of a line under the first profile.
fn job(line: &[u8]) -> Option<Job> {
    job_of(Rules::One, line)
}

const FIRST: Ticket = Ticket { table: 0, seq: 0 };

/// The event at a place of a short day at a desk of one table.
fn event_at(place: usize, job: &Job) -> Event {
    match place {
        0 | 6 | 7 => Event::Take { table: 0 },
        1 => Event::Submit {
            table: 1,
            job: *job,
        },
        2 | 4 => Event::Submit {
            table: 0,
            job: *job,
        },
        5 => Event::Arrive(Piece::score(FIRST, *job)),
        _ => Event::Close { table: 0 },
    }
}

/// The events of the short day.
fn a_short_day(alloc: Global, job: &Job) -> Result<Vec<Event>, AllocError> {
    Ok(vec![in alloc;
        event_at(0, job),
        event_at(1, job),
        event_at(2, job),
        event_at(3, job),
        event_at(4, job),
        event_at(5, job),
        event_at(6, job),
        event_at(7, job),
        event_at(8, job),
    ]?)
}

/// What the day is replied.
fn its_replies(job: &Job) -> [Reply; 9] {
    [
        Reply::Taken(Taken::Waiting),
        Reply::NoTable,
        Reply::Ticket(FIRST),
        Reply::Closed(true),
        Reply::Refused(SubmitFault::Closed),
        Reply::Arrived(Arrived::Accepted),
        Reply::Taken(Taken::Answer {
            seq: 0,
            answer: judge(job),
        }),
        Reply::Taken(Taken::Finished),
        Reply::Closed(false),
    ]
}

/// What it is replied where the one submission finds no memory.
const WITHOUT_MEMORY: [Reply; 9] = [
    Reply::Taken(Taken::Waiting),
    Reply::NoTable,
    Reply::Refused(SubmitFault::Memory),
    Reply::Closed(true),
    Reply::Refused(SubmitFault::Closed),
    Reply::Arrived(Arrived::Stranger),
    Reply::Taken(Taken::Finished),
    Reply::Taken(Taken::Finished),
    Reply::Closed(false),
];

/// Whether a line is a job whose answer has this text.
fn is_answered(line: &[u8], text: &str) -> bool {
    let Some(job) = job(line) else {
        return false;
    };
    answer_text(&judge(&job)).as_str() == text
}

#[test]
fn answers_and_their_texts(rt: HostRuntime) {
    holds(&rt, is_answered(WAITS, "waits 123456789m"));
    holds(&rt, is_answered(b"waits 123456789m1111z", "waits -"));
    let text = "shanten 0 accepts 2p:4 5p:4 live 8";
    holds(
        &rt,
        is_answered(SHAPE, text) && is_answered(QUICK, "no win"),
    );
}

/// What stands before an answer is kept.
#[test]
fn an_answer_behind_a_text(rt: HostRuntime) {
    let mut text = ArrayString::new();
    text.push_str("> ");
    if let Some(job) = job(SHAPE) {
        push_answer(&mut text, &judge(&job));
    }
    same(&rt, text.as_str(), "> shanten 0 accepts 2p:4 5p:4 live 8");
}

#[test]
fn a_hand_that_is_no_win(rt: HostRuntime) {
    let Some(job) = job(QUICK) else {
        holds(&rt, false);
        return;
    };
    holds(&rt, judge(&job) == Answer::Win(WinAnswer::NoWin));
}

#[test]
fn the_same_by_a_cache(rt: HostRuntime) {
    // One request for memory may be refused.
    let made = match RowCache::new(rt.alloc(), 4) {
        Err(_) => RowCache::new(rt.alloc(), 4),
        made => made,
    };
    let Ok(mut cache) = made else {
        holds(&rt, false);
        return;
    };
    let jobs = [
        job(WAITS),
        job(SHAPE),
        job(b"shape 123456789m1111z"),
        job(SHAPE),
        job(QUICK),
    ];
    for job in &jobs {
        let Some(job) = job else {
            holds(&rt, false);
            return;
        };
        holds(&rt, judge_with(&mut cache, job) == judge(job));
        let piece = Piece::score_with(&mut cache, FIRST, *job);
        holds(
            &rt,
            piece.ticket() == FIRST && piece.job() == *job && piece.answer() == judge(job),
        );
    }
}

#[test]
fn a_lane_of_each_call(rt: HostRuntime) {
    let (Some(job), Some(other)) = (job(WAITS), job(SHAPE)) else {
        holds(&rt, false);
        return;
    };
    let mut lane = Lane::new(rt.alloc(), 7);
    same(&rt, lane.table(), 7);
    let ticket = Ticket { table: 7, seq: 0 };
    let submitted = lane.submit(job);
    if let Err(back) = submitted {
        // One request for memory may be refused, and nothing was changed then.
        holds(&rt, back.fault == SubmitFault::Memory && back.job == job);
        holds(&rt, lane.submit(job) == Ok(ticket));
    } else {
        holds(&rt, submitted == Ok(ticket));
    }
    holds(&rt, lane.take() == Taken::Waiting);
    let foreign = lane.arrive(Piece::score(FIRST, job));
    let of_another_hand = lane.arrive(Piece::score(ticket, other));
    holds(
        &rt,
        foreign == Arrived::Stranger && of_another_hand == foreign,
    );
    let (piece, answer) = (Piece::score(ticket, job), judge(&job));
    holds(&rt, piece.ticket() == ticket && piece.job() == job);
    holds(&rt, piece.answer() == answer);
    holds(&rt, lane.arrive(piece) == Arrived::Accepted);
    let late = lane.arrive(Piece::score(ticket, other));
    holds(&rt, late == Arrived::Doubled);
    holds(&rt, !lane.full() && !lane.closed());
    holds(&rt, lane.close() && !lane.close() && lane.closed());
    holds(&rt, lane.take() == Taken::Answer { seq: 0, answer });
    holds(&rt, lane.take() == Taken::Finished);
}

/// A lane with this job, where one request for memory may be refused.
fn a_lane_with(alloc: Global, job: &Job) -> Option<Lane> {
    let mut lane = Lane::new(alloc, 0);
    if lane.submit(*job).is_err() {
        let _ = lane.submit(*job).ok()?;
    }
    Some(lane)
}

#[test]
fn another_profile_or_five_is_another_job(rt: HostRuntime) {
    let red = b"win 123406789m22s34p on=2p by=ron seat=S round=E";
    let plain = b"win 123456789m22s34p on=2p by=ron seat=S round=E";
    let (Some(job), Some(of_plain), Some(of_one)) = (
        job_of(Rules::Two, red),
        job_of(Rules::Two, plain),
        job_of(Rules::One, red),
    ) else {
        holds(&rt, false);
        return;
    };
    let Some(mut lane) = a_lane_with(rt.alloc(), &job) else {
        holds(&rt, false);
        return;
    };
    holds(
        &rt,
        lane.arrive(Piece::score(FIRST, of_plain)) == Arrived::Stranger,
    );
    holds(
        &rt,
        lane.arrive(Piece::score(FIRST, of_one)) == Arrived::Stranger,
    );
    holds(
        &rt,
        lane.arrive(Piece::score(FIRST, job)) == Arrived::Accepted,
    );
}

/// A desk, where one request for memory may be refused.
fn a_desk(alloc: Global, tables: u32) -> Option<DeskCore> {
    match DeskCore::new(alloc, tables) {
        Err(CoreFault::Memory) => DeskCore::new(alloc, tables).ok(),
        made => made.ok(),
    }
}

/// The replies of a run of the short day on a new desk; none where memory was refused twice.
fn replies_of_a_run(alloc: Global, job: &Job) -> Option<Vec<Reply>> {
    let mut desk = a_desk(alloc, 1)?;
    let events = a_short_day(alloc, job).ok()?;
    match desk.run(events) {
        Ok(replies) => Some(replies),
        Err(RunBack { events }) => desk.run(events).ok(),
    }
}

#[test]
fn a_run_replies(rt: HostRuntime) {
    let Some(job) = job(WAITS) else {
        holds(&rt, false);
        return;
    };
    let mut is_replied = false;
    // One request for memory may be refused, and then one of the two runs may be without a ticket.
    for _ in 0..2 {
        if let Some(replies) = replies_of_a_run(rt.alloc(), &job) {
            if replies.as_slice() == its_replies(&job).as_slice() {
                is_replied = true;
            } else {
                holds(&rt, replies.as_slice() == WITHOUT_MEMORY.as_slice());
            }
        }
    }
    holds(&rt, is_replied);
}

#[test]
fn a_run_over_no_events(rt: HostRuntime) {
    let Some(mut desk) = a_desk(rt.alloc(), 64) else {
        holds(&rt, false);
        return;
    };
    let none = desk.run(Vec::new(rt.alloc())).ok();
    holds(&rt, none.is_some_and(|replies| replies.is_empty()));
}

#[test]
fn steps_reply(rt: HostRuntime) {
    let Some(job) = job(WAITS) else {
        holds(&rt, false);
        return;
    };
    let Some(mut desk) = a_desk(rt.alloc(), 1) else {
        holds(&rt, false);
        return;
    };
    let wanted = its_replies(&job);
    for (place, wanted) in wanted.iter().enumerate() {
        let reply = desk.step(event_at(place, &job));
        if reply == Reply::Refused(SubmitFault::Memory) {
            holds(&rt, desk.step(event_at(place, &job)) == *wanted);
        } else {
            holds(&rt, reply == *wanted);
        }
    }
}

#[test]
fn numbers_of_tables(rt: HostRuntime) {
    holds(
        &rt,
        matches!(DeskCore::new(rt.alloc(), 0), Err(CoreFault::Tables)),
    );
    holds(
        &rt,
        matches!(DeskCore::new(rt.alloc(), 65), Err(CoreFault::Tables)),
    );
    holds(&rt, a_desk(rt.alloc(), 64).is_some());
}

#[test]
fn a_lane_takes_its_limit(rt: HostRuntime) {
    let (Some(job), Some(other)) = (job(QUICK), job(SHAPE)) else {
        holds(&rt, false);
        return;
    };
    let mut lane = Lane::new(rt.alloc(), 0);
    for seq in 0..LIMIT {
        let ticket = Ticket { table: 0, seq };
        if lane.submit(job).is_err() {
            holds(&rt, lane.submit(job) == Ok(ticket));
        }
        let arrived = lane.arrive(Piece::score(ticket, job));
        holds(&rt, arrived == Arrived::Accepted);
        let is_given = matches!(lane.take(), Taken::Answer { seq: given, .. } if given == seq);
        holds(&rt, is_given);
    }
    holds(&rt, lane.full());
    let back = lane.submit(job);
    let is_full = matches!(back, Err(back) if back.fault == SubmitFault::Limit && back.job == job);
    let late = lane.arrive(Piece::score(FIRST, other));
    holds(&rt, is_full && late == Arrived::Doubled);
    let next = Ticket {
        table: 0,
        seq: LIMIT,
    };
    let early = lane.arrive(Piece::score(next, job));
    holds(&rt, early == Arrived::Stranger && lane.close());
    let back = lane.submit(job);
    let is_late = matches!(back, Err(back) if back.fault == SubmitFault::Closed && back.job == job);
    holds(&rt, is_late && lane.take() == Taken::Finished);
}

#[test]
fn states_the_laws(_rt: HostRuntime) {
    laws::replies_are_determined();
    laws::each_history_goes_on();
}
