// The record as words: clock, last commit, for each lane phase, first slot, count, timestamp, next slot, wrap bit,
// whether there is a floor, floor, and 16 pairs, then the lag limit, and of the lock whether it is held, its lane,
// timestamp, count, how many are logged and how many written. The lock's pairs follow, which are words already and so
// are nothing to this crate. Here the record is read and written whole, a lane by `lane_from` and by `head` and
// `put_pairs`; in read.rt, check.rt and write.rt fields are read, checked and stored where they stand, as calls do.
#![tactic(auto)]

pub mod check;
pub mod read;
pub mod write;

ghost use Rattle.std.specs.Prelude.{◌≡◌, drop, length};
ghost use Rattle.txn.specs.Txn.{max_writes};
ghost use Rattle.record.specs.declared.Lane.{Lane};
ghost use Rattle.std.specs.List.{flat_map};
ghost use Rattle.record.specs.Record.{cursor_of};
ghost use Rattle.codec.specs.Fields.{head_length, lane_length};
ghost use Rattle.codec.specs.Fields.{phase_of, floor_of, pair_of, row_of, lane_of, lock_of, record_of};
ghost use Rattle.codec.specs.Fields.{head_words, pair_words, row_words, lane_words};
ghost use Rattle.codec.specs.Fields.{lock_words, words_of};
ghost use Rattle.codec.specs.inner.InPlace.{headed};

use image::MAX_LANES;
use lane_log::Cursor;
use record::{LOCK_WORDS, Lane, Locked, Logged, Pair, Record};
use std::array;
use txn::MAX_WRITES;

// How many words a lane has before its pairs.
const HEAD_WORDS: usize = 8;

// How many words a lane has.
const LANE_WORDS: usize = HEAD_WORDS + 2 * MAX_WRITES;

// Where the words of the record after its lanes stand.
const LANES_END: usize = 2 + MAX_LANES * LANE_WORDS;

// How many words the lock has before its pairs.
const HOLDER_WORDS: usize = 6;

// How many words the record has before the lock's pairs, and with them.
pub const RECORD_WORDS: usize = LANES_END + 1 + HOLDER_WORDS;

pub const STATE_WORDS: usize = RECORD_WORDS + LOCK_WORDS;

// The conversions are functions of this crate and no `From`: neither the record's types nor arrays are its own, and
// `record` knows nothing of words.
#[tactic(auto, unfolding(crate::specs::Fields::phase_of))]
fn phase_from(lane: &[u64; LANE_WORDS]) -> Option<Logged>
    ensures { result ≡ phase_of lane.now }
{
    (lane[0] != 0).then_some(Logged {
        first: lane[1] as usize,
        count: lane[2] as usize,
        stamp: lane[3],
    })
}

#[tactic(auto, unfolding(crate::specs::Fields::lane_of, record::specs::Record::cursor_of))]
fn cursor_from(lane: &[u64; LANE_WORDS]) -> Cursor
    ensures { result ≡ cursor_of (lane_of lane.now) }
{
    Cursor {
        slot: lane[4] as usize,
        wrap: lane[5],
    }
}

#[tactic(auto, unfolding(crate::specs::Fields::floor_of))]
fn floor_from(lane: &[u64; LANE_WORDS]) -> Option<u64>
    ensures { result ≡ floor_of (drop 6 lane.now) }
{
    (lane[6] != 0).then_some(lane[7])
}

fn redo_from(lane: &[u64; LANE_WORDS]) -> [Pair; MAX_WRITES]
    ensures { result ≡ row_of 2 pair_of max_writes (drop head_length lane.now) }
{
    array::from_fn(|i| Pair {
        word: lane[HEAD_WORDS + 2 * i] as usize,
        value: lane[HEAD_WORDS + 2 * i + 1],
    })
}

// A lane from its words.
#[tactic(auto, unfolding(crate::specs::Fields::lane_of, record::specs::Record::cursor_of))]
fn lane_from(lane: &[u64; LANE_WORDS]) -> Lane
    ensures { result ≡ lane_of lane.now }
{
    let cursor = cursor_from(lane);
    Lane {
        phase: phase_from(lane),
        next: cursor.slot,
        wrap: cursor.wrap,
        floor: floor_from(lane),
        redo: redo_from(lane),
    }
}

// The words of a lane before its pairs, which do not matter to them.
fn head(phase: Option<Logged>, cursor: Cursor, floor: Option<u64>) -> [u64; HEAD_WORDS]
    ensures { (l : Lane) → result ≡ head_words (headed phase cursor floor l) }
{
    let logged = phase.unwrap_or_default();
    [
        u64::from(phase.is_some()),
        logged.first as u64,
        logged.count as u64,
        logged.stamp,
        cursor.slot as u64,
        cursor.wrap,
        u64::from(floor.is_some()),
        floor.unwrap_or(0),
    ]
}

#[tactic(auto, unfolding(crate::specs::Fields::pair_words))]
fn pair_to(pair: Pair) -> [u64; 2]
    ensures { result ≡ pair_words pair }
{
    [pair.word as u64, pair.value]
}

// The words of a redo log.
fn pairs_to(redo: [Pair; MAX_WRITES]) -> [[u64; 2]; MAX_WRITES]
    ensures { flat_map (λ pair. pair) result ≡ row_words pair_words redo }
{
    redo.map(pair_to)
}

// Its words are lent as a slice, as those of `normalise_lane` and `normalise_lock` are: of an array of which a part is
// lent as an array it is not known what it ends as.
fn put_lane(lane: Lane, words: &mut [u64])
    requires { length words.old ≡ lane_length }
    ensures { words.new ≡ lane_words lane }
{
    words[..HEAD_WORDS].copy_from_slice(&head(lane.phase, record::cursor_of(lane), lane.floor));
    words[HEAD_WORDS..].copy_from_slice(pairs_to(lane.redo).as_flattened());
}

#[tactic(auto, unfolding(crate::specs::Fields::lock_of))]
fn lock_from(holder: &[u64; HOLDER_WORDS]) -> Option<Locked>
    ensures { result ≡ lock_of holder.now }
{
    (holder[0] != 0).then_some(Locked {
        lane: holder[1] as usize,
        stamp: holder[2],
        count: holder[3] as usize,
        logged: holder[4] as usize,
        written: holder[5] as usize,
    })
}

// The words of the lock before its pairs.
fn holder(lock: Option<Locked>) -> [u64; HOLDER_WORDS]
    ensures { result ≡ lock_words lock }
{
    let held = lock.unwrap_or_default();
    [
        u64::from(lock.is_some()),
        held.lane as u64,
        held.stamp,
        held.count as u64,
        held.logged as u64,
        held.written as u64,
    ]
}

// The record of these words. What stands behind a phase, a floor or a lock of 0 is dropped: an idle lane's first slot,
// count and timestamp, the floor of a lane that has none, the lane, timestamp and counts of a free lock.
pub fn record_from(words: &[u64; RECORD_WORDS]) -> Record
    ensures { result ≡ record_of words.now }
{
    Record {
        clock: read::clock(words),
        last: read::last(words),
        lanes: array::from_fn(|l| lane_from(read::lane_words(words, l))),
        lag: read::lag(words),
        lock: read::lock(words),
    }
}

// Stores the words of a record: 0 where a lane is idle or has no floor, and where the lock is free.
pub fn record_to(state: Record, words: &mut [u64; RECORD_WORDS])
    ensures { words.new ≡ words_of state }
{
    words[0] = state.clock;
    words[1] = state.last;
    for (l, lane) in state.lanes.iter().enumerate() {
        let at = 2 + LANE_WORDS * l;
        put_lane(*lane, &mut words[at..at + LANE_WORDS]);
    }
    words[LANES_END] = state.lag;
    words[LANES_END + 1..].copy_from_slice(&holder(state.lock));
}
