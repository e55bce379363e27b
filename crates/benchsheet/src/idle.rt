// An idle lane beside one that goes on: its floor holds the other back, until it is marked and that mark is drained.
use crate::scenario;
use crate::setup::{self, Instruction};
use bench::print;
use bench::session::Session;
use second::Call;
use std::io::Result;

// Lane 0 adds 1 to word 0, any other sets word 1 to 1.
pub(crate) fn call(session: &mut Session, call: Call, lane: u64) {
    let instruction = match lane {
        0 => Instruction::Add { word: 0, value: 1 },
        _ => Instruction::Set { word: 1, value: 1 },
    };
    setup::put(session, 0, instruction);
    session.call(call, lane, 4);
}

pub(crate) fn say(rt: &impl Print, session: &Session, lane: u64) -> Result<()> {
    print::called(rt, session)?;
    print!(rt; ", lane {lane}: ")?;
    print::floors(rt, session)
}

// Calls, each on a lane, and the lines about them.
pub(crate) fn run(rt: &impl Print, session: &mut Session, calls: &[(Call, u64)]) -> Result<()> {
    for (code, lane) in calls {
        call(session, *code, *lane);
        say(rt, session, *lane)?;
    }
    Ok(())
}

// A commit of a lane, of two slots.
pub(crate) fn commit(session: &mut Session, lane: u64) {
    call(session, Call::Log, lane);
    call(session, Call::Redo, lane);
}

// So many of lane 0.
pub(crate) fn fill(session: &mut Session, count: u64) {
    for _ in 0..count {
        commit(session, 0);
    }
}

// Lane 1 commits, and is idle while lane 0 fills its log, of 34 slots. Non-volatile memory is kept as it is before the
// mark.
fn hold_back(rt: &impl Print, session: &mut Session) -> Result<()> {
    scenario::format(session);
    run(
        rt,
        session,
        &[(Call::Log, 1), (Call::Redo, 1), (Call::Drain, 1)],
    )?;
    fill(session, 17);
    run(rt, session, &[(Call::Log, 0)])?;
    scenario::write_all_back(session);
    session.image = session.buffers.nvm;
    Ok(())
}

// Lane 1 is marked, and drained.
const LET_GO: [(Call, u64); 7] = [
    (Call::Mark, 1),
    (Call::Log, 0),
    (Call::Drain, 1),
    (Call::Log, 0),
    (Call::Redo, 0),
    (Call::Log, 0),
    (Call::Redo, 0),
];

// Lane 0 commits, and is marked and drained too.
const END: [(Call, u64); 4] = [
    (Call::Log, 0),
    (Call::Redo, 0),
    (Call::Mark, 0),
    (Call::Drain, 0),
];

// Power fails, and the line about the recovery.
pub(crate) fn recover(rt: &impl Print, session: &mut Session, what: &str) -> Result<()> {
    scenario::recover(session, u64::MAX);
    print!(rt; "{what}: ")?;
    print::left(rt, session)
}

// The boundary is lane 0's own. Then there is none.
pub(crate) fn list(rt: &impl Print, session: &mut Session) -> Result<()> {
    hold_back(rt, session)?;
    run(rt, session, &LET_GO)?;
    scenario::write_all_back(session);
    recover(rt, session, "recovery")?;
    run(rt, session, &END)?;
    recover(rt, session, "recovery")
}

// How much of the mark of lane 1, which has timestamp 74, is in non-volatile memory: its address and value word.
// Kept as words: half a slot is no slot, so a type of slots would be no plainer.
const CUTS: [(u64, u64, &str); 4] = [
    (0, 0, "no word of the mark"),
    (32769, 0, "its address word"),
    (0, 75, "its value word"),
    (32769, 75, "both words"),
];

// Power fails while the mark is drained. It is in slot 2 of its log, which is words 75 and 76 of the image; without it
// lane 1 gives its commit at 4.
pub(crate) fn cut(rt: &impl Print, session: &mut Session) -> Result<()> {
    for (address, value, what) in CUTS {
        session.buffers.nvm = session.image;
        session.buffers.nvm[75] = address;
        session.buffers.nvm[76] = value;
        recover(rt, session, what)?;
    }
    Ok(())
}
