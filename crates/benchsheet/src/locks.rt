// The lock: how many instructions a long transaction has and how many slots they count as, in which order Lock and
// Continue are refused, whom the lock keeps out, and what the record may say of it.
use crate::causes;
use crate::setup::{self, Instruction, Trial};
use bench::print;
use bench::session::Session;
use second::records::{Lock, Pair, Record};
use second::words::{MAX_STAMP, MIN_LAG, MIN_SLOTS};
use second::{Answer, Call, Refusal};
use std::io::Result;

// ---- how many instructions
// Lanes of so many slots, of which lane 0 has one sequence; the clock is 8. The transaction is of SETs.
fn start(session: &mut Session, slots: u64) {
    setup::start_with(session, setup::with_slots(slots));
    setup::prepare(session, 0, false);
    setup::put_sets(session);
}

fn is_length(used: u64) -> bool {
    used % 4 == 0 && 4 <= used && used <= 256
}

// No words, and 1, 16, 17, 32, 33, 64 and 65 instructions.
const ENDS: [u64; 8] = [0, 4, 64, 68, 128, 132, 256, 260];

// The count that is answered.
fn left(session: &Session) -> Option<u64> {
    match session.stored.outcome {
        Ok(Answer::Locked { left, .. }) => Some(left),
        _ => None,
    }
}

// A Lock of so many words. The slots are just enough for 64 instructions.
fn length(rt: &impl Print, session: &mut Session, used: u64) -> Result<()> {
    start(session, 85);
    setup::probe(session, Call::Lock, 0, used);
    setup::expect(
        session,
        (!is_length(used)).then_some(Refusal::BadTransaction),
    );
    session.expect(left(session) == is_length(used).then_some(used / 4));
    if ENDS.contains(&used) {
        print::edge(rt, session, ", instructions ", used / 4)?;
    }
    Ok(())
}

pub(crate) fn lengths(rt: &impl Print, session: &mut Session) -> Result<()> {
    for used in 0..273 {
        length(rt, session, used)?;
    }
    Ok(())
}

// ---- how many slots they count as
// Slots, and the most instructions that count as at most 17 slots less: 16 and 1, 17 and 2, 31 and 2, 32 and 2, 33 and
// 3, 63 and 4, 64 and 4.
const SLOTS: [(u64, u64); 9] = [
    (MIN_SLOTS, 16),
    (35, 16),
    (36, 17),
    (50, 31),
    (51, 32),
    (52, 32),
    (53, 33),
    (84, 63),
    (85, 64),
];

fn count(rt: &impl Print, session: &mut Session, slots: u64, most: u64, n: u64) -> Result<()> {
    start(session, slots);
    setup::probe(session, Call::Lock, 0, n << 2);
    setup::expect(session, (most < n).then_some(Refusal::TooLong));
    if n == most || n == most.wrapping_add(1) {
        print!(rt; "N {slots}, ")?;
        print::edge(rt, session, ", instructions ", n)?;
    }
    Ok(())
}

// 1 to 64 instructions, with each number of slots.
pub(crate) fn counts(rt: &impl Print, session: &mut Session) -> Result<()> {
    for (slots, most) in SLOTS {
        for n in 1..65 {
            count(rt, session, slots, most, n)?;
        }
    }
    Ok(())
}

// ---- the order of the refusals
// Those of Continue, where no lock is held, and where another lane has it.
const FREE: [Refusal; 4] = [
    Refusal::Lengths,
    Refusal::BadRecord,
    Refusal::NoLane,
    Refusal::HoldsNone,
];

const LOCKED: [Refusal; 2] = [Refusal::NoLane, Refusal::Locked];

// All causes of Lock, then each time without the first one; and those of Continue.
pub(crate) fn order(rt: &impl Print, session: &mut Session) -> Result<()> {
    let lock = Trial::Of(Call::Lock);
    causes::in_order(rt, session, "Lock", lock, &causes::LOCK)?;
    causes::refused(rt, session, "Lock", lock, &[])?;
    let proceed = Trial::Of(Call::Continue);
    causes::in_order(rt, session, "Continue", proceed, &FREE)?;
    causes::in_order(rt, session, "Continue", proceed, &LOCKED)?;
    causes::refused(rt, session, "Continue", proceed, &[])
}

// ---- whom it keeps out
// A call while lane 1 has the lock; lane 0 holds a transaction or not.
fn kept_out(
    rt: &impl Print,
    session: &mut Session,
    trial: Trial,
    lane: u64,
    is_held: bool,
) -> Result<()> {
    setup::start(session);
    setup::prepare(session, 1, false);
    setup::prepare(session, 0, is_held);
    setup::hold_lock(session, 1);
    trial.probe(session, lane);
    print::edge(rt, session, ", lane ", lane)
}

// Each call on lane 0 as the call wants it, which has 11 alone, then as it does not want it, and on the lock's own
// lane.
pub(crate) fn keeps_out(rt: &impl Print, session: &mut Session) -> Result<()> {
    for trial in Trial::ON_LANE {
        kept_out(rt, session, trial, 0, setup::commits(trial.call()))?;
    }
    for trial in Trial::ON_LANE {
        kept_out(rt, session, trial, 0, !setup::commits(trial.call()))?;
    }
    for trial in Trial::ON_LANE {
        kept_out(rt, session, trial, 1, false)?;
    }
    Ok(())
}

// ---- what is waived
fn probe(rt: &impl Print, session: &mut Session, call: Call, used: u64, what: &str) -> Result<()> {
    setup::probe(session, call, 0, used);
    print::row(rt, what, session)
}

// The state of a case: the clock spent, past the lag limit, the next slots those of the newest sequence, or the lock of
// lane 1.
fn set_cause(session: &mut Session, cause: Option<Refusal>) {
    match cause {
        Some(Refusal::Spent) => session.state.clock = MAX_STAMP,
        Some(Refusal::Lags) => session.state.lag = MIN_LAG,
        Some(Refusal::Overwrites) => session.state.lanes[0].next = 0,
        Some(Refusal::Locked) => setup::hold_lock(session, 1),
        _ => {}
    }
}

// The causes of a refusal, and the lines about the calls.
type Waived = (Option<Refusal>, &'static str);

const NO_WRITES: [Waived; 5] = [
    (None, "Lock without writes"),
    (Some(Refusal::Spent), "Lock without writes, cause 8"),
    (Some(Refusal::Lags), "Lock without writes, cause 15"),
    (Some(Refusal::Overwrites), "Lock without writes, cause 9"),
    (Some(Refusal::Locked), "Lock without writes, cause 11"),
];

const ONE_WRITE: [Waived; 3] = [
    (Some(Refusal::Spent), "Lock, cause 8"),
    (Some(Refusal::Lags), "Lock, cause 15"),
    (Some(Refusal::Overwrites), "Lock, cause 9"),
];

const GOES_ON: [Waived; 4] = [
    (None, "Continue"),
    (Some(Refusal::Spent), "Continue, the clock spent"),
    (Some(Refusal::Lags), "Continue, past the lag limit"),
    (
        Some(Refusal::Overwrites),
        "Continue, over the newest sequence",
    ),
];

// A Lock that writes nothing takes no lock.
fn no_writes(rt: &impl Print, session: &mut Session) -> Result<()> {
    for (cause, what) in NO_WRITES {
        setup::start_for(session, Call::Lock, 0);
        setup::put_skip(session);
        set_cause(session, cause);
        probe(rt, session, Call::Lock, 8, what)?;
    }
    Ok(())
}

// Eighteen instructions, two of them SKIPs that pass over all SETs.
fn no_writes_long(rt: &impl Print, session: &mut Session) -> Result<()> {
    setup::start_for(session, Call::Lock, 0);
    setup::put_sets(session);
    setup::put(
        session,
        0,
        Instruction::Skip {
            unless: 1,
            distance: 15,
        },
    );
    setup::put(
        session,
        16,
        Instruction::Skip {
            unless: 1,
            distance: 1,
        },
    );
    probe(
        rt,
        session,
        Call::Lock,
        72,
        "Lock without writes, 18 instructions",
    )
}

fn one_write(rt: &impl Print, session: &mut Session) -> Result<()> {
    for (cause, what) in ONE_WRITE {
        setup::start_for(session, Call::Lock, 0);
        set_cause(session, cause);
        probe(rt, session, Call::Lock, 4, what)?;
    }
    Ok(())
}

fn goes_on(rt: &impl Print, session: &mut Session) -> Result<()> {
    for (cause, what) in GOES_ON {
        setup::start_for(session, Call::Continue, 0);
        set_cause(session, cause);
        probe(rt, session, Call::Continue, 0, what)?;
    }
    Ok(())
}

pub(crate) fn waived(rt: &impl Print, session: &mut Session) -> Result<()> {
    no_writes(rt, session)?;
    no_writes_long(rt, session)?;
    one_write(rt, session)?;
    goes_on(rt, session)
}

// ---- the record
// Of 40 pairs, of which a part is logged.
const LOCK: Lock = Lock {
    lane: 0,
    stamp: 8,
    count: 40,
    logged: 16,
    written: 0,
};

// The lane, which lane 1 is not as it holds a transaction; the timestamp, where the clock is 8; and is the record out
// of range?
const OWNERS: [(u64, u64, bool); 7] = [
    (0, 8, false),
    (1, 8, true),
    (2, 8, true),
    (u64::MAX, 8, true),
    (0, 0, false),
    (0, 7, true),
    (0, 10, true),
];

// How many pairs there are, are logged, and written.
const PARTS: [([u64; 3], bool); 27] = [
    ([0, 0, 0], true),
    ([1, 0, 0], false),
    ([64, 0, 0], false),
    ([65, 0, 0], true),
    ([40, 0, 0], false),
    ([40, 15, 0], true),
    ([40, 17, 0], true),
    ([40, 32, 0], true),
    ([40, 16, 16], false),
    ([40, 32, 16], false),
    ([40, 0, 16], true),
    ([40, 40, 16], true),
    ([40, 32, 32], false),
    ([40, 40, 32], false),
    ([40, 39, 32], true),
    ([40, 48, 32], true),
    ([40, 40, 40], true),
    ([40, 48, 48], true),
    ([40, 8, 8], true),
    ([16, 16, 0], false),
    ([16, 16, 16], true),
    ([17, 17, 16], false),
    ([17, 16, 16], false),
    ([1, 1, 0], false),
    ([1, 2, 0], true),
    ([64, 64, 48], false),
    ([64, 64, 64], true),
];

// A pair whose word is not below W: the last of 40, the one behind it, the first; and while the lock is free.
const PAIRS: [(u64, Option<Lock>, bool); 4] = [
    (39, Some(LOCK), true),
    (40, Some(LOCK), false),
    (0, Some(LOCK), true),
    (0, None, false),
];

fn say(rt: &impl Print, session: &Session) -> Result<()> {
    let Lock {
        lane,
        stamp,
        count,
        logged,
        written,
    } = session.state.lock.unwrap_or_default();
    print::called(rt, session)?;
    print!(rt; ", lock of lane {lane}, stamp {stamp}, count {count}")?;
    print!(rt; ", logged {logged}, written {written}")?;
    print::row(rt, "", session)
}

// Lane 1 holds a transaction.
fn held_by_other(session: &mut Session) -> Record {
    setup::start(session);
    setup::prepare(session, 1, true);
    setup::prepare(session, 0, false);
    session.state
}

// A record with each call on lane 0. The Drains are printed.
fn with_record(rt: &impl Print, session: &mut Session, record: Record, is_bad: bool) -> Result<()> {
    for trial in Trial::ON_LANE {
        held_by_other(session);
        session.state = record;
        trial.probe(session, 0);
        setup::expect_just(session, Refusal::BadRecord, is_bad);
        if trial == Trial::Of(Call::Drain) {
            say(rt, session)?;
        }
    }
    Ok(())
}

fn with_lock(rt: &impl Print, session: &mut Session, lock: Lock, is_bad: bool) -> Result<()> {
    let record = Record {
        lock: Some(lock),
        ..held_by_other(session)
    };
    with_record(rt, session, record, is_bad)
}

fn with_bad_pair(
    rt: &impl Print,
    session: &mut Session,
    i: u64,
    lock: Option<Lock>,
    is_bad: bool,
) -> Result<()> {
    let mut record = Record {
        lock,
        ..held_by_other(session)
    };
    record.set_lock_pair(i, Pair { word: 2, value: 0 });
    with_record(rt, session, record, is_bad)
}

pub(crate) fn records(rt: &impl Print, session: &mut Session) -> Result<()> {
    for (lane, stamp, is_bad) in OWNERS {
        with_lock(
            rt,
            session,
            Lock {
                lane,
                stamp,
                ..LOCK
            },
            is_bad,
        )?;
    }
    for ([count, logged, written], is_bad) in PARTS {
        with_lock(
            rt,
            session,
            Lock {
                count,
                logged,
                written,
                ..LOCK
            },
            is_bad,
        )?;
    }
    for (i, lock, is_bad) in PAIRS {
        with_bad_pair(rt, session, i, lock, is_bad)?;
    }
    Ok(())
}
