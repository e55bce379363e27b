// Refusals together: for each call every set of causes that it knows, of which the one that comes first wins.
use crate::setup::{self, LENGTH, Slot, Trial};
use bench::print;
use bench::session::Session;
use second::words::{MAX_STAMP, MIN_LAG};
use second::{Call, Refusal};
use std::fmt;
use std::io::Result;

// The refusals by their numbers, in the order in which they win. SPECIFICATION, "Machine, refusals and answers". It is a
// list of its own, apart from the order by which the second implementation picks: the two are compared.
const ORDER: [u64; 15] = [1, 14, 16, 2, 3, 4, 5, 6, 7, 11, 12, 8, 15, 9, 10];

// A set of causes. Bit k is the one that comes k-th in that order.
#[derive(Clone, Copy, PartialEq, Eq, Debug)]
pub(crate) struct Causes(u64);

// The sets of fifteen causes.
const SETS: u64 = 32768;

fn weight(cause: Refusal) -> u64 {
    match ORDER.iter().position(|number| *number == cause.number()) {
        Some(k) => 1 << (k as u64 % 64),
        None => 0,
    }
}

impl Causes {
    fn of(causes: &[Refusal]) -> Causes {
        Causes(causes.iter().fold(0, |bits, cause| bits | weight(*cause)))
    }

    fn has(self, cause: Refusal) -> bool {
        self.0 & weight(cause) != 0
    }

    fn is_within(self, other: Causes) -> bool {
        self.0 & other.0 == self.0
    }

    // The one that wins.
    fn first(self) -> Option<Refusal> {
        let number = ORDER.get(self.0.trailing_zeros() as usize)?;
        Refusal::try_from(*number).ok()
    }
}

impl fmt::Display for Causes {
    fn fmt<W: fmt::Write>(&self, f: &mut fmt::Formatter<W>) -> fmt::Result {
        f.write_str(match self.0.count_ones() {
            0 => "no cause",
            1 => "cause",
            _ => "causes",
        })?;
        for cause in Refusal::ALL {
            if self.has(cause) {
                write!(f, " {cause}")?;
            }
        }
        Ok(())
    }
}

// The causes that a call knows, in the order in which they win. SPECIFICATION, "Calls".
const LOG: [Refusal; 9] = [
    Refusal::Lengths,
    Refusal::BadRecord,
    Refusal::NoLane,
    Refusal::BadTransaction,
    Refusal::Holds,
    Refusal::Locked,
    Refusal::Spent,
    Refusal::Lags,
    Refusal::Overwrites,
];

pub(crate) const SETTLE: [Refusal; 8] = [
    Refusal::Lengths,
    Refusal::BadRecord,
    Refusal::NoLane,
    Refusal::Holds,
    Refusal::Locked,
    Refusal::Spent,
    Refusal::Lags,
    Refusal::Overwrites,
];

const REDO: [Refusal; 6] = [
    Refusal::Lengths,
    Refusal::BadRecord,
    Refusal::NoLane,
    Refusal::HoldsNone,
    Refusal::Locked,
    Refusal::Spent,
];

const VALIDATE: [Refusal; 7] = [
    Refusal::Lengths,
    Refusal::BadRecord,
    Refusal::NoLane,
    Refusal::BadTransaction,
    Refusal::HoldsNone,
    Refusal::Locked,
    Refusal::Spent,
];

const MARK: [Refusal; 6] = [
    Refusal::Lengths,
    Refusal::BadRecord,
    Refusal::NoLane,
    Refusal::Locked,
    Refusal::Spent,
    Refusal::Overwrites,
];

pub(crate) const LOCK: [Refusal; 10] = [
    Refusal::Lengths,
    Refusal::BadRecord,
    Refusal::NoLane,
    Refusal::BadTransaction,
    Refusal::Holds,
    Refusal::Locked,
    Refusal::TooLong,
    Refusal::Spent,
    Refusal::Lags,
    Refusal::Overwrites,
];

const CONTINUE: [Refusal; 5] = [
    Refusal::Lengths,
    Refusal::BadRecord,
    Refusal::NoLane,
    Refusal::HoldsNone,
    Refusal::Locked,
];

fn known(trial: Trial) -> Causes {
    match trial {
        Trial::Settle => Causes::of(&SETTLE),
        Trial::Of(Call::Log) => Causes::of(&LOG),
        Trial::Of(Call::Redo) => Causes::of(&REDO),
        Trial::Of(Call::Validate) => Causes::of(&VALIDATE),
        Trial::Of(Call::Mark) => Causes::of(&MARK),
        Trial::Of(Call::Lock) => Causes::of(&LOCK),
        Trial::Of(Call::Continue) => Causes::of(&CONTINUE),
        Trial::Of(Call::Drain) => {
            Causes::of(&[Refusal::Lengths, Refusal::BadRecord, Refusal::NoLane])
        }
        Trial::Of(Call::WriteBack) => Causes::of(&[Refusal::Lengths, Refusal::NoWord]),
        Trial::Of(Call::Format) => Causes::of(&[Refusal::Lengths, Refusal::BadLag]),
        Trial::Of(Call::Recover) => {
            Causes::of(&[Refusal::Lengths, Refusal::BadLag, Refusal::OddBase])
        }
        Trial::Of(Call::RecoverRead) => Causes::of(&[
            Refusal::Lengths,
            Refusal::NoTrailer,
            Refusal::BadLag,
            Refusal::OddBase,
        ]),
    }
}

// The lane, word or limit.
fn number_for(call: Call, causes: Causes) -> u64 {
    if setup::recovers(call) {
        return u64::MAX;
    }
    if causes.has(Refusal::NoWord) {
        return LENGTH;
    }
    if causes.has(Refusal::NoLane) {
        return 2;
    }
    0
}

// Puts the causes 1, 16, 2, 5 and 12 into lengths, lag limit, record and transaction.
fn spoil_arguments(session: &mut Session, causes: Causes) {
    if causes.has(Refusal::Lengths) {
        session.lengths.cache = session.length().wrapping_sub(1);
    }
    if causes.has(Refusal::BadLag) {
        session.lag = 0;
    }
    if causes.has(Refusal::BadRecord) {
        session.state.lanes[1].wrap = 2;
    }
    if causes.has(Refusal::TooLong) {
        setup::put_sets(session);
    }
    if causes.has(Refusal::BadTransaction) {
        session.words[0] = 0;
    }
}

// How many words the call is given: for 12 those of 17 instructions, which count as 19 slots, two more than 34 less 17.
fn used_by(session: &Session, trial: Trial, causes: Causes) -> u64 {
    if causes.has(Refusal::TooLong) {
        return 68;
    }
    trial.used(session)
}

// Puts the cause 11 into the record: lane 1 has the lock, and no call is on it. Continue without 7 and 11 is on the
// lane that has the lock.
fn spoil_lock(session: &mut Session, call: Call, causes: Causes) {
    if causes.has(Refusal::Locked) {
        setup::hold_lock(session, 1);
    } else if call == Call::Continue && !causes.has(Refusal::HoldsNone) {
        setup::hold_lock(session, 0);
    }
}

// For cause 9 the lane's log has a sequence, an entry of word 0 and timestamp 6, in the two slots that come next.
fn put_next(session: &mut Session, lane: u64) {
    setup::put_slot(
        session,
        lane,
        2,
        Slot::Entry {
            word: 0,
            old: 0,
            wrap: 1,
        },
    );
    setup::put_slot(
        session,
        lane,
        3,
        Slot::Stamp {
            stamp: 6,
            count: 1,
            wrap: 1,
        },
    );
}

// Puts the causes 14, 8, 15, 9 and 10 into record and image. For 14 the trailer's last word is one too great; for 15
// the limit is 2, while timestamp 10 comes next and the lane's newest is 2, or 6 with 9.
fn spoil_state(session: &mut Session, causes: Causes, lane: u64) {
    if causes.has(Refusal::NoTrailer) {
        session.buffers.cache[142] = 140;
    }
    if causes.has(Refusal::Spent) {
        session.state.clock = MAX_STAMP;
    }
    if causes.has(Refusal::Lags) {
        session.state.lag = MIN_LAG;
    }
    if causes.has(Refusal::Overwrites) {
        put_next(session, lane);
    }
    if causes.has(Refusal::OddBase) {
        session.buffers.cache[0] = 1;
    }
}

// Is the lane to hold a transaction? Log wants none, Redo and Validate want one.
fn is_held(call: Call, causes: Causes) -> bool {
    causes.has(Refusal::Holds) || (setup::commits(call) && !causes.has(Refusal::HoldsNone))
}

// A call in whose state and arguments just these causes hold.
fn call_with(session: &mut Session, trial: Trial, causes: Causes) {
    let call = trial.call();
    let number = number_for(call, causes);
    setup::start(session);
    setup::fit_for(session, call);
    setup::prepare(session, number, is_held(call, causes));
    spoil_arguments(session, causes);
    spoil_state(session, causes, number);
    spoil_lock(session, call, causes);
    let used = used_by(session, trial, causes);
    setup::probe(session, call, number, used);
    setup::expect(session, causes.first());
}

// Can these causes hold together? Where no lock is held, no other lane has it.
fn agrees(trial: Trial, causes: Causes) -> bool {
    trial != Trial::Of(Call::Continue)
        || !causes.has(Refusal::HoldsNone)
        || !causes.has(Refusal::Locked)
}

// A call with each set of causes that it knows.
fn each_set(session: &mut Session, trial: Trial) {
    let known = known(trial);
    for bits in 0..SETS {
        let causes = Causes(bits);
        if causes.is_within(known) && agrees(trial, causes) {
            call_with(session, trial, causes);
        }
    }
}

pub(crate) fn every_set(session: &mut Session) {
    for trial in Trial::ALL {
        each_set(session, trial);
    }
}

// A call with these causes, and the line about it.
pub(crate) fn refused(
    rt: &impl Print,
    session: &mut Session,
    name: &str,
    trial: Trial,
    causes: &[Refusal],
) -> Result<()> {
    let causes = Causes::of(causes);
    call_with(session, trial, causes);
    print!(rt; "{name}, {causes}")?;
    print::row(rt, "", session)
}

// A call with these causes, in the order in which they win, then each time without the first one.
pub(crate) fn in_order(
    rt: &impl Print,
    session: &mut Session,
    name: &str,
    trial: Trial,
    order: &[Refusal],
) -> Result<()> {
    // Kept as a range: `first` is where the rest begins, and the last round has one cause left.
    for first in 0..order.len() {
        refused(rt, session, name, trial, &order[first..])?;
    }
    Ok(())
}
