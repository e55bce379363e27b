// A lane's floor after each call, all of which drain the lane: it becomes the timestamp of the newest sequence, ends
// where that is a mark, and stays where there is no sequence. Where it is none then, an append sets it.
use crate::logs::Sequence::{Mark, Part, Whole};
use crate::logs::{self, Sequence};
use crate::scenario;
use crate::setup::{self, Instruction, SET};
use bench::print;
use bench::session::Session;
use second::Call;
use std::io::Result;

// ---- each call on each log
#[derive(Clone, Copy, PartialEq, Eq, Debug)]
enum Kind {
    Log,
    LogNothing,
    Redo,
    RedoStale,
    Validate,
    ValidateChanged,
    Mark,
    Drain,
    Settle,
}

impl Kind {
    const ALL: [Kind; 9] = [
        Kind::Log,
        Kind::LogNothing,
        Kind::Redo,
        Kind::RedoStale,
        Kind::Validate,
        Kind::ValidateChanged,
        Kind::Mark,
        Kind::Drain,
        Kind::Settle,
    ];

    fn call(self) -> Call {
        match self {
            Kind::Log | Kind::LogNothing | Kind::Settle => Call::Log,
            Kind::Redo | Kind::RedoStale => Call::Redo,
            Kind::Validate | Kind::ValidateChanged => Call::Validate,
            Kind::Mark => Call::Mark,
            Kind::Drain => Call::Drain,
        }
    }

    fn used(self) -> u64 {
        match self {
            Kind::LogNothing => 8,
            Kind::Settle => 0,
            _ => 4,
        }
    }

    fn appends(self) -> bool {
        matches!(self, Kind::Log | Kind::Settle | Kind::Mark)
    }

    // What makes a Log write nothing, a Redo stale, a Validate changed: a SKIP over the SET, a later commit, a write of
    // another word.
    fn vary(self, session: &mut Session) {
        match self {
            Kind::LogNothing => setup::put_skip(session),
            Kind::RedoStale => session.state.last = 4,
            Kind::ValidateChanged => {
                setup::put(session, 0, Instruction::Set { word: 1, value: 3 });
            }
            _ => {}
        }
    }
}

// What a drain does to the lane's floor.
#[derive(Clone, Copy, Debug)]
enum Drained {
    Stays,
    Becomes(u64),
    Ends,
}

impl Drained {
    fn floor(self, own: Option<u64>) -> Option<u64> {
        match self {
            Drained::Stays => own,
            Drained::Becomes(stamp) => Some(stamp),
            Drained::Ends => None,
        }
    }
}

// Logs, and what a drain does.
const LOGS: [(&[Sequence], Drained); 12] = [
    (&[], Drained::Stays),
    (&[Mark(2)], Drained::Stays),
    (&[Whole(6)], Drained::Becomes(6)),
    (&[Mark(6)], Drained::Ends),
    (&[Whole(4), Mark(6)], Drained::Ends),
    (&[Mark(4), Whole(6)], Drained::Becomes(6)),
    (&[Whole(6), Mark(4)], Drained::Becomes(6)),
    (&[Mark(6), Whole(4)], Drained::Ends),
    (&[Whole(6), Mark(6)], Drained::Ends),
    (&[Mark(6), Whole(6)], Drained::Becomes(6)),
    (&[Whole(6), Part(8)], Drained::Becomes(6)),
    (&[Mark(6), Part(8)], Drained::Ends),
];

// The log on which every call is printed, and not the Drain alone.
const PRINTED: [Sequence; 2] = [Whole(4), Mark(6)];

// The lane's floor is `own`, the other lane's 8, which is the clock. The base timestamp is 2, so that what the lane
// holds, logged at 2, is not one of its sequences.
fn start(session: &mut Session, kind: Kind, own: Option<u64>) {
    setup::start_for(session, kind.call(), 0);
    session.buffers.cache[0] = 2;
    session.state.lanes[0].floor = own;
    session.state.lanes[1].floor = Some(8);
    kind.vary(session);
}

// The floor after a call, where the drain left this one: an append takes timestamp 10.
fn after_call(kind: Kind, drained: Option<u64>) -> Option<u64> {
    if kind.appends() {
        return drained.or(Some(10));
    }
    drained
}

fn say(rt: &impl Print, session: &Session, log: &[Sequence]) -> Result<()> {
    print::called(rt, session)?;
    print!(rt; ", ")?;
    logs::say(rt, log)?;
    print!(rt; ": ")?;
    print::floors(rt, session)
}

// A call on a log, where a drain leaves this floor.
fn call_on(
    session: &mut Session,
    kind: Kind,
    own: Option<u64>,
    log: &[Sequence],
    drained: Option<u64>,
) {
    start(session, kind, own);
    logs::put_log(session, 0, log);
    setup::probe(session, kind.call(), 0, kind.used());
    setup::expect(session, None);
    let floor = session.stored.state.lanes[0].floor;
    session.expect(floor == after_call(kind, drained));
}

// Each call on a log.
fn on_log(
    rt: &impl Print,
    session: &mut Session,
    own: Option<u64>,
    log: &[Sequence],
    drained: Drained,
) -> Result<()> {
    for kind in Kind::ALL {
        call_on(session, kind, own, log, drained.floor(own));
        let is_printed = kind == Kind::Drain || log == &PRINTED[..];
        if own.is_some() && is_printed {
            say(rt, session, log)?;
        }
    }
    Ok(())
}

// Each log, where the lane has a floor before the call, and where it has none.
pub(crate) fn cases(rt: &impl Print, session: &mut Session) -> Result<()> {
    for (log, drained) in LOGS {
        on_log(rt, session, Some(2), log, drained)?;
        on_log(rt, session, None, log, drained)?;
    }
    Ok(())
}

// ---- a list of calls on lane 0
const LIST: [Call; 9] = [
    Call::Mark,
    Call::Drain,
    Call::Mark,
    Call::Mark,
    Call::Log,
    Call::Mark,
    Call::Log,
    Call::Redo,
    Call::Mark,
];

fn step(rt: &impl Print, session: &mut Session, call: Call, used: u64) -> Result<()> {
    session.call(call, 0, used);
    print::called(rt, session)?;
    print!(rt; ", lane 0: ")?;
    print::floors(rt, session)
}

// The last call is a Log that writes nothing.
pub(crate) fn list(rt: &impl Print, session: &mut Session) -> Result<()> {
    scenario::format(session);
    setup::put(session, 0, SET);
    for call in LIST {
        step(rt, session, call, 4)?;
    }
    setup::put_skip(session);
    step(rt, session, Call::Log, 8)
}
