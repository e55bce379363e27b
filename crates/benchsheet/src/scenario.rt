// The bench sheet's two-lane scenario, and the same with recovery cut after each of its stores, of images with a
// trailer and without.
use crate::setup::{self, Instruction, SMALL};
use crate::trailers;
use bench::session::Session;
use bench::{power, print};
use second::image::Sizes;
use second::words::MAX_LAG;
use second::{Answer, Call};
use std::io::Result;

// The calls, and their lanes.
const CALLS: [(Call, u64); 6] = [
    (Call::Log, 1),
    (Call::Log, 0),
    (Call::Redo, 0),
    (Call::Redo, 1),
    (Call::Validate, 1),
    (Call::Log, 1),
];

// Lane 0 has a SET of word 0 to 2, lane 1 a COPY of word 0 into word 1.
fn instruction_of(lane: u64) -> Instruction {
    match lane {
        0 => Instruction::Set { word: 0, value: 2 },
        _ => Instruction::Copy { word: 1, from: 0 },
    }
}

// A new store of words of 0.
pub(crate) fn format_with(session: &mut Session, sizes: Sizes, lag: u64) {
    setup::start_with(session, sizes);
    session.lag = lag;
    session.set_instruction(0, [0; 4]);
    session.call(Call::Format, 0, sizes.words);
}

pub(crate) fn format(session: &mut Session) {
    format_with(session, SMALL, MAX_LAG);
}

// A new store, and the six calls.
fn play(rt: &impl Print, session: &mut Session) -> Result<()> {
    format(session);
    for (call, lane) in CALLS {
        setup::put(session, 0, instruction_of(lane));
        session.call(call, lane, 4);
        print::edge(rt, session, ", lane ", lane)?;
    }
    Ok(())
}

// Kept as a range, as elsewhere in this program: words are named to a call by number, and no array has them as its index.
pub(crate) fn write_back(session: &mut Session, first: u64, end: u64) {
    for word in first..end {
        session.call(Call::WriteBack, word, 0);
    }
}

pub(crate) fn write_all_back(session: &mut Session) {
    let length = session.length();
    write_back(session, 0, length);
}

// Power fails, and recovery finds what is in non-volatile memory.
pub(crate) fn recover(session: &mut Session, limit: u64) {
    session.random.seed = 7;
    power::scramble(session);
    power::recover_within(session, limit);
}

// Non-volatile memory is kept as it is before the recovery.
pub(crate) fn run(rt: &impl Print, session: &mut Session) -> Result<()> {
    play(rt, session)?;
    write_all_back(session);
    session.image = session.buffers.nvm;
    recover(session, u64::MAX);
    print::row(rt, "recovery", session)?;
    let nvm = &session.stored.buffers.nvm;
    println!(rt; "words {} {}", nvm[1], nvm[2])
}

// How many slots recovery has cleared by half after `limit` stores: the address word of one that holds something, and
// not its value word. Lane 0 has written slots 0 and 1, lane 1 its slots 0 to 3, which are 34 to 37 of all.
fn half_cleared(limit: u64) -> u64 {
    match limit {
        5 | 7 | 73 | 75 | 77 | 79 => 1,
        _ => 0,
    }
}

// The torn slots that the last recovery found.
fn torn(session: &Session) -> u64 {
    match session.stored.outcome {
        Ok(Answer::Recovered { torn, .. }) => torn,
        _ => 0,
    }
}

// Recovery cut after `limit` stores, and done again: both words are 0, and a slot that was half cleared is found torn.
fn recover_twice(session: &mut Session, limit: u64) {
    session.buffers.nvm = session.image;
    recover(session, limit);
    recover(session, u64::MAX);
    let nvm = &session.stored.buffers.nvm;
    let are_clear = nvm[1] == 0 && nvm[2] == 0;
    session.expect(are_clear);
    session.expect(torn(session) == half_cleared(limit));
}

// There are 140 stores: three entries, the base timestamp, and 136 log words.
const LIMITS: u64 = 142;

// The trailer stands as Format wrote it.
pub(crate) fn run_cut(session: &mut Session) {
    for limit in 0..LIMITS {
        session.fit();
        recover_twice(session, limit);
        trailers::expect_small(session);
    }
}

// The image without its trailer is one of the former length.
pub(crate) fn run_former(session: &mut Session) {
    for limit in 0..LIMITS {
        session.fit_former();
        recover_twice(session, limit);
    }
}
