// The record: clock, last commit, the lanes' state and the lock, which live outside the image and are lost with the
// power.
#![tactic(auto)]

ghost use Rattle.std.specs.Prelude.{◌≡◌, ◌&&◌, ◌||◌, ◌+◌, ◌%◌, ◌≤◌, ◌<◌, eqb, length, ltb};
ghost use Rattle.txn.specs.Txn.{max_writes};
ghost use Rattle.record.specs.Record.{start_lane, start_record, cursor_of};
ghost use Rattle.record.specs.Record.{part_length};
ghost use Rattle.record.specs.Record.{stamp_ok, lag_ok};
ghost use Rattle.record.specs.Record.{lesser, lag_passed, floor_after_drain, floor_after_append};
ghost use Rattle.record.specs.Record.{pairs_of};

use image::MAX_LANES;
use lane_log::{Cursor, Sequence};
use txn::{MAX_LONG, MAX_WRITES, Write};

// A word number and its new value.
#[derive(Clone, Copy, Default)]
pub struct Pair {
    pub word: usize,
    pub value: u64,
}

// A logged transaction: its first slot, the count of its entries, its timestamp.
#[derive(Clone, Copy, Default)]
pub struct Logged {
    pub first: usize,
    pub count: usize,
    pub stamp: u64,
}

#[derive(Clone, Copy)]
pub struct Lane {
    pub phase: Option<Logged>,
    // the next slot of the log, and the wrap bit it is written with
    pub next: usize,
    pub wrap: u64,
    // the low-water mark: the timestamp that the last drained sequence had, none if that was a mark; where there is
    // none, the next sequence sets it
    pub floor: Option<u64>,
    // the redo log: a logged transaction's writes, in order
    pub redo: [Pair; MAX_WRITES],
}

// A long transaction that holds the lock: its lane and timestamp, the count of its writes, how many of them are logged,
// and how many written.
#[derive(Clone, Copy, Default)]
pub struct Locked {
    pub lane: usize,
    pub stamp: u64,
    pub count: usize,
    pub logged: usize,
    pub written: usize,
}

// How many words the redo log of the transaction that holds the lock has: a word number and a new value for each write.
// It is lent beside the record, so that no call moves it.
pub const LOCK_WORDS: usize = 2 * MAX_LONG;

// 2,632 bytes: Format and recovery return it. Calls are lent its words, and read and change fields where they stand
// there (`codec`).
#[derive(Clone, Copy)]
pub struct Record {
    pub clock: u64,
    // the timestamp of the last commit
    pub last: u64,
    pub lanes: [Lane; MAX_LANES],
    // the lag limit: how far Log may take the clock above the least floor
    pub lag: u64,
    pub lock: Option<Locked>,
}

// A lane at a start: idle without floor, at slot 0 with wrap bit 1.
#[tactic(auto, unfolding(crate::specs::Record::start_lane))]
pub fn start_lane() -> Lane
    ensures { result ≡ start_lane }
{
    Lane {
        phase: None,
        next: 0,
        wrap: 1,
        floor: None,
        redo: [Pair::default(); MAX_WRITES],
    }
}

// The record at a start, which is Format or a finished recovery.
#[tactic(auto, unfolding(crate::specs::Record::start_record))]
pub fn start_record(lag: u64, base: u64) -> Record
    ensures { result ≡ start_record lag base }
{
    Record {
        clock: base,
        last: base,
        lanes: [start_lane(); MAX_LANES],
        lag,
        lock: None,
    }
}

// Where a lane's log goes on.
#[tactic(auto, unfolding(crate::specs::Record::cursor_of))]
pub fn cursor_of(lane: Lane) -> Cursor
    ensures { result ≡ cursor_of lane }
{
    Cursor {
        slot: lane.next,
        wrap: lane.wrap,
    }
}

// A timestamp of the record is even and not above the clock.
#[tactic(auto, unfolding(crate::specs::Record::stamp_ok))]
pub fn stamp_ok(clock: u64, stamp: u64) -> bool
    ensures { result ≡ stamp_ok clock stamp }
{
    stamp % 2 == 0 && stamp <= clock
}

// 2^32, the greatest lag limit.
pub const MAX_LAG: u64 = 4294967296;

// Is this a lag limit: even, and 2 to 2^32?
#[tactic(auto, unfolding(crate::specs::Record::lag_ok))]
pub fn lag_ok(lag: u64) -> bool
    ensures { result ≡ lag_ok lag }
{
    lag % 2 == 0 && (2..=MAX_LAG).contains(&lag)
}

// How many writes the present part of a locked transaction has: sixteen, the last part what is left.
#[tactic(auto, unfolding(crate::specs::Record::part_length))]
pub fn part_length(held: Locked) -> usize
    ensures { result ≡ part_length held }
{
    MAX_WRITES.min(held.count.saturating_sub(held.written))
}

// Are whole parts written, not all of them, and logged as many or one part more?
#[tactic(auto, unfolding(crate::specs::Record::part_length))]
pub fn parts_ok(held: Locked) -> bool
    ensures { result
        ≡ (eqb (held.written % max_writes) 0 && (ltb held.written held.count
        && (eqb held.logged held.written || eqb held.logged (held.written + part_length held)))) }
{
    held.written % MAX_WRITES == 0
        && held.written < held.count
        && (held.logged == held.written || held.logged == held.written + part_length(held))
}

// The lesser of two timestamps; none is above all.
#[tactic(auto, unfolding(crate::specs::Record::lesser))]
pub fn lesser(a: Option<u64>, b: Option<u64>) -> Option<u64>
    ensures { result ≡ lesser a b }
{
    match (a, b) {
        (Some(a), Some(b)) => Some(a.min(b)),
        _ => a.or(b),
    }
}

// Is a timestamp more than the lag limit above the lower bound? A bound above the timestamp, as damage can make it, is
// not in its way.
#[tactic(auto, unfolding(crate::specs::Record::lag_passed))]
pub fn lag_passed(lag: u64, stamp: u64, bound: Option<u64>) -> bool
    ensures { result ≡ lag_passed lag stamp bound }
{
    bound.is_some_and(|floor| floor < stamp && lag < stamp - floor)
}

// A lane's floor after a drain that found this latest sequence: a drained mark ends it.
#[tactic(auto, unfolding(crate::specs::Record::floor_after_drain))]
pub fn floor_after_drain(latest: Option<Sequence>, floor: Option<u64>) -> Option<u64>
    ensures { result ≡ floor_after_drain latest floor }
{
    latest.map_or(floor, |sequence| {
        lane_log::given(sequence.count, sequence.stamp)
    })
}

// A lane's floor after an append, which sets one where there is none.
#[tactic(auto, unfolding(crate::specs::Record::floor_after_append))]
pub fn floor_after_append(stamp: u64, floor: Option<u64>) -> Option<u64>
    ensures { result ≡ floor_after_append stamp floor }
{
    floor.or(Some(stamp))
}

// The redo log of a run's writes: 0s from the count on.
pub fn pairs_of(writes: &[Write]) -> [Pair; MAX_WRITES]
    requires { length writes.now ≤ max_writes }
    ensures { result ≡ pairs_of max_writes writes.now }
{
    let mut pairs = [Pair::default(); MAX_WRITES];
    for (i, write) in writes.iter().enumerate() {
        pairs[i] = Pair {
            word: write.word,
            value: write.new,
        };
    }
    pairs
}
