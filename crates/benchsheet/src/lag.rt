// The lag limit: which numbers Format, recoveries and the record take for one, where it refuses a Log or a Lock, and
// where it does not refuse. They take the clock plus 2, which may not be more than the limit above the least floor; a
// Log also without words.
use crate::edges::LATE;
use crate::logs::Sequence::{Mark, Part, Whole};
use crate::logs::{self, Sequence};
use crate::setup::{self, SMALL, Trial};
use crate::{idle, scenario};
use bench::print;
use bench::session::Session;
use second::words::{MAX_LAG, MAX_STAMP, MIN_LAG};
use second::{Call, Refusal};
use std::io::Result;

// ---- limits, and whether they are in range
const LIMITS: [(u64, bool); 10] = [
    (0, false),
    (1, false),
    (2, true),
    (3, false),
    (MAX_LAG - 1, false),
    (MAX_LAG, true),
    (MAX_LAG + 1, false),
    (MAX_LAG + 2, false),
    (u64::MAX - 1, false),
    (u64::MAX, false),
];

// The limit of the record that the call returned.
fn expect_lag(session: &mut Session, lag: u64) {
    let left = session.stored.state.lag;
    session.expect(left == lag);
}

fn give(
    rt: &impl Print,
    session: &mut Session,
    call: Call,
    lag: u64,
    is_in_range: bool,
) -> Result<()> {
    setup::start_for(session, call, 0);
    setup::fit_for(session, call);
    session.lag = lag;
    Trial::Of(call).probe_empty(session);
    setup::expect(session, (!is_in_range).then_some(Refusal::BadLag));
    if is_in_range {
        expect_lag(session, lag);
    }
    print::edge(rt, session, ", lag limit ", lag)
}

// To the calls that are given one.
pub(crate) fn given(rt: &impl Print, session: &mut Session) -> Result<()> {
    for call in [Call::Format, Call::Recover, Call::RecoverRead] {
        for (lag, is_in_range) in LIMITS {
            give(rt, session, call, lag, is_in_range)?;
        }
    }
    Ok(())
}

// The five calls on a lane, and write-back, which takes no record.
const RECORDED: [Call; 6] = [
    Call::Log,
    Call::Redo,
    Call::Validate,
    Call::Mark,
    Call::Drain,
    Call::WriteBack,
];

// The record keeps its limit, in range or not. The Marks are printed.
fn record(
    rt: &impl Print,
    session: &mut Session,
    call: Call,
    lag: u64,
    is_in_range: bool,
) -> Result<()> {
    setup::start_for(session, call, 0);
    session.state.lag = lag;
    setup::probe(session, call, 0, 4);
    let is_bad = call != Call::WriteBack && !is_in_range;
    setup::expect_just(session, Refusal::BadRecord, is_bad);
    expect_lag(session, lag);
    if call == Call::Mark {
        print::edge(rt, session, ", lag limit of the record ", lag)?;
    }
    Ok(())
}

pub(crate) fn recorded(rt: &impl Print, session: &mut Session) -> Result<()> {
    for call in RECORDED {
        for (lag, is_in_range) in LIMITS {
            record(rt, session, call, lag, is_in_range)?;
        }
    }
    Ok(())
}

// ---- where it refuses a Log
// The clock, the floors of the two lanes, and what is in lane 0's log: up to one sequence.
#[derive(Clone, Copy, Debug)]
struct Case {
    clock: u64,
    floors: [Option<u64>; 2],
    log: &'static [Sequence],
}

impl Case {
    fn set(&self, session: &mut Session) {
        let [own, other] = self.floors;
        setup::start(session);
        session.state.clock = self.clock;
        session.state.last = 0;
        session.state.set_log(0, 0, 1, own);
        session.state.set_log(1, 0, 1, other);
        logs::put_log(session, 0, self.log);
    }

    fn say(&self, rt: &impl Print, session: &Session, lag: u64) -> Result<()> {
        let [own, other] = self.floors;
        print!(rt; "clock {}, floors", self.clock)?;
        print::floor(rt, own)?;
        print::floor(rt, other)?;
        print!(rt; ", ")?;
        logs::say(rt, self.log)?;
        print!(rt; ", lag limit {lag}: ")?;
        print::floors(rt, session)
    }

    // A Log of lane 0 in such a case, one of no words, or a Lock, with this limit.
    fn log(
        &self,
        rt: &impl Print,
        session: &mut Session,
        trial: Trial,
        lag: u64,
        lags: bool,
    ) -> Result<()> {
        self.set(session);
        session.state.lag = lag;
        trial.probe(session, 0);
        setup::expect(session, lags.then_some(Refusal::Lags));
        expect_lag(session, lag);
        self.say(rt, session, lag)
    }
}

// The least floor that the greatest timestamp may have, with the greatest limit.
const HIGH: u64 = MAX_STAMP - MAX_LAG;

// The clock, the floors, the limit, and whether the call is refused. The log is empty: a floor is what the record says.
// Then the greatest limit, and the greatest timestamp.
const AT_LIMIT: [(u64, [Option<u64>; 2], u64, bool); 17] = [
    (8, [None, Some(2)], 8, false),
    (8, [None, Some(2)], 6, true),
    (10, [None, Some(2)], 8, true),
    (8, [Some(2), None], 8, false),
    (8, [Some(2), None], 6, true),
    (8, [Some(8), Some(2)], 6, true),
    (8, [Some(2), Some(8)], 6, true),
    (8, [Some(8), Some(4)], 6, false),
    (8, [Some(8), Some(8)], 2, false),
    (8, [Some(8), Some(6)], 2, true),
    (8, [None, None], 2, false),
    (MAX_LAG - 2, [None, Some(0)], MAX_LAG, false),
    (MAX_LAG, [None, Some(0)], MAX_LAG, true),
    (LATE, [None, None], 2, false),
    (LATE, [None, Some(HIGH)], MAX_LAG, false),
    (LATE, [None, Some(HIGH - 2)], MAX_LAG, true),
    (LATE, [None, Some(2)], MAX_LAG, true),
];

pub(crate) fn at_limit(rt: &impl Print, session: &mut Session, trial: Trial) -> Result<()> {
    for (clock, floors, lag, lags) in AT_LIMIT {
        let case = Case {
            clock,
            floors,
            log: &[],
        };
        case.log(rt, session, trial, lag, lags)?;
    }
    Ok(())
}

// The floors, the log, the limit, and whether the call is refused; the clock is 8. The lane's own floor is the one
// after its drain: that of its sequence, none where that is a mark, the record's where it is not complete. Only a
// damaged log has one that is not below 10, the timestamp that comes next.
const DRAINED: [([Option<u64>; 2], &[Sequence], u64, bool); 14] = [
    ([Some(2), None], &[Whole(6)], 4, false),
    ([Some(2), None], &[Whole(6)], 2, true),
    ([Some(8), None], &[Whole(4)], 4, true),
    ([None, None], &[Whole(4)], 4, true),
    ([None, None], &[Whole(4)], 6, false),
    ([Some(2), None], &[Part(8)], 6, true),
    ([Some(2), Some(6)], &[Whole(6)], 4, false),
    ([Some(2), None], &[Mark(6)], 2, false),
    ([Some(2), Some(8)], &[Mark(6)], 2, false),
    ([Some(2), Some(6)], &[Mark(6)], 2, true),
    ([Some(2), None], &[Whole(10)], 2, false),
    ([Some(2), None], &[Whole(12)], 2, false),
    ([Some(2), Some(8)], &[Whole(12)], 2, false),
    ([Some(2), Some(6)], &[Whole(12)], 2, true),
];

pub(crate) fn drained(rt: &impl Print, session: &mut Session, trial: Trial) -> Result<()> {
    for (floors, log, lag, lags) in DRAINED {
        let case = Case {
            clock: 8,
            floors,
            log,
        };
        case.log(rt, session, trial, lag, lags)?;
    }
    Ok(())
}

// ---- where it refuses no other call
// The clock is 8 and the lane's floor 2.
fn start_past(session: &mut Session, call: Call) {
    setup::start_for(session, call, 0);
    session.state.lag = MIN_LAG;
}

fn call_past(rt: &impl Print, session: &mut Session, call: Call) -> Result<()> {
    start_past(session, call);
    setup::probe(session, call, 0, 4);
    print::edge(rt, session, ", lane ", 0)
}

fn no_words(rt: &impl Print, session: &mut Session) -> Result<()> {
    start_past(session, Call::Log);
    setup::probe(session, Call::Log, 0, 0);
    setup::expect(session, Some(Refusal::Lags));
    print::edge(rt, session, ", lane ", 0)
}

fn no_writes(rt: &impl Print, session: &mut Session) -> Result<()> {
    start_past(session, Call::Log);
    setup::put_skip(session);
    setup::probe(session, Call::Log, 0, 8);
    print::edge(rt, session, " without writes, lane ", 0)
}

// Lane 2 of two.
fn unused_lane(rt: &impl Print, session: &mut Session) -> Result<()> {
    let case = Case {
        clock: 8,
        floors: [None, None],
        log: &[],
    };
    case.set(session);
    session.state.set_log(2, 0, 1, Some(2));
    session.state.lag = MIN_LAG;
    setup::probe(session, Call::Log, 0, 4);
    print::row(
        rt,
        "Log, only a lane that is not in use has a floor",
        session,
    )
}

pub(crate) fn past_limit(rt: &impl Print, session: &mut Session) -> Result<()> {
    for call in [
        Call::Log,
        Call::Redo,
        Call::Validate,
        Call::Mark,
        Call::Drain,
    ] {
        call_past(rt, session, call)?;
    }
    no_words(rt, session)?;
    no_writes(rt, session)?;
    unused_lane(rt, session)
}

// ---- a lane that lags behind another one, until it is marked and that mark is drained
const FALL_BEHIND: [(Call, u64); 8] = [
    (Call::Log, 1),
    (Call::Redo, 1),
    (Call::Log, 0),
    (Call::Redo, 0),
    (Call::Log, 0),
    (Call::Redo, 0),
    (Call::Log, 0),
    (Call::Log, 1),
];

const CATCH_UP: [(Call, u64); 7] = [
    (Call::Drain, 1),
    (Call::Log, 0),
    (Call::Mark, 1),
    (Call::Log, 0),
    (Call::Drain, 1),
    (Call::Log, 0),
    (Call::Redo, 0),
];

// Recovery is given another limit, which counts from then on.
fn start_again(rt: &impl Print, session: &mut Session) -> Result<()> {
    scenario::write_all_back(session);
    session.lag = 2;
    idle::recover(rt, session, "recovery")?;
    expect_lag(session, 2);
    let calls = [
        (Call::Log, 0),
        (Call::Redo, 0),
        (Call::Log, 1),
        (Call::Log, 0),
    ];
    idle::run(rt, session, &calls)
}

pub(crate) fn list(rt: &impl Print, session: &mut Session) -> Result<()> {
    scenario::format_with(session, SMALL, 8);
    idle::run(rt, session, &FALL_BEHIND)?;
    idle::run(rt, session, &CATCH_UP)?;
    expect_lag(session, 8);
    start_again(rt, session)
}
