// The boundary of two lanes: a lane whose newest sequence closes entries gives its timestamp, a marked lane gives none,
// and the least of them is the boundary. What is at or above it is undone in every lane, also in a marked one.
use crate::logs::Sequence::{Mark, Part, Whole};
use crate::logs::{self, Sequence};
use crate::{scenario, setup};
use bench::print;
use bench::session::Session;
use std::io::Result;

// The logs of lanes 0 and 1.
type Logs = [&'static [Sequence]; 2];

// Which of the lanes are marked.
const NEWEST: [Logs; 6] = [
    [&[Whole(6)], &[Whole(10)]],
    [&[Mark(6)], &[Whole(10)]],
    [&[Whole(6)], &[Mark(10)]],
    [&[Mark(6)], &[Mark(10)]],
    [&[Whole(4), Mark(6)], &[]],
    [&[Mark(4), Whole(6)], &[Mark(10)]],
];

// A marked lane's sequence below the boundary, at it and above it.
const UNDONE: [Logs; 5] = [
    [&[Whole(4), Mark(6)], &[Whole(10)]],
    [&[Whole(8), Mark(14)], &[Whole(10)]],
    [&[Whole(10), Mark(14)], &[Whole(10)]],
    [&[Whole(12), Mark(14)], &[Whole(10)]],
    [&[Whole(10)], &[Whole(12), Mark(14)]],
];

// Which sequence of a lane is the newest: the complete one of greatest timestamp, of equal ones that of the higher
// slot.
const DECIDED: [Logs; 9] = [
    [&[Whole(6), Mark(4)], &[]],
    [&[Mark(6), Whole(4)], &[]],
    [&[Whole(6), Mark(6)], &[]],
    [&[Mark(6), Whole(6)], &[]],
    [&[Whole(6), Mark(6)], &[Whole(6)]],
    [&[Mark(6)], &[Whole(6)]],
    [&[Whole(6)], &[Mark(6)]],
    [&[Whole(6), Part(8)], &[Mark(10)]],
    [&[Mark(6), Part(8)], &[Whole(10)]],
];

// Recovery of lanes with these logs. Both data words are 9 before.
fn found(rt: &impl Print, session: &mut Session, logs: Logs) -> Result<()> {
    let [log, other] = logs;
    setup::start(session);
    session.buffers.cache[1] = 9;
    session.buffers.cache[2] = 9;
    logs::put_log(session, 0, log);
    logs::put_log(session, 1, other);
    session.buffers.nvm = session.buffers.cache;
    scenario::recover(session, u64::MAX);
    logs::say(rt, log)?;
    print!(rt; "; ")?;
    logs::say(rt, other)?;
    print!(rt; ": ")?;
    print::left(rt, session)
}

pub(crate) fn cases(rt: &impl Print, session: &mut Session) -> Result<()> {
    for logs in NEWEST {
        found(rt, session, logs)?;
    }
    for logs in UNDONE {
        found(rt, session, logs)?;
    }
    for logs in DECIDED {
        found(rt, session, logs)?;
    }
    Ok(())
}
