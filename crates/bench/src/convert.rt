// The store's sizes, record and answers in those of the second implementation, and back.
// Kept: functions in place of From, for neither side's types are this crate's own, and wrappers would be no plainer.
ghost use Rattle.std.specs.Prelude.{◌≡◌, length};
ghost use Rattle.codec.specs.Fields.{state_length};
ghost use Rattle.store.specs.Interface.{number};
ghost use Rattle.second.specs.inner.Refusals.{number_of};

use codec::{RECORD_WORDS, STATE_WORDS};
use image::Sizes;
use record::{Locked, Logged};
use recovery::Finished;
use second::records::{Held, Lane, Lock, Pair, Record};
use second::{Answer, Refusal};

pub(crate) fn sizes(sizes: &second::image::Sizes) -> Sizes {
    Sizes {
        words: sizes.words as usize,
        lanes: sizes.lanes as usize,
        slots: sizes.slots as usize,
    }
}

fn pair_to(pair: Pair) -> record::Pair {
    record::Pair {
        word: pair.word as usize,
        value: pair.value,
    }
}

fn pair_from(pair: record::Pair) -> Pair {
    Pair {
        word: pair.word as u64,
        value: pair.value,
    }
}

fn held_to(held: Held) -> Logged {
    Logged {
        first: held.first as usize,
        count: held.count as usize,
        stamp: held.stamp,
    }
}

fn held_from(logged: Logged) -> Held {
    Held {
        first: logged.first as u64,
        count: logged.count as u64,
        stamp: logged.stamp,
    }
}

fn lock_to(lock: Lock) -> Locked {
    Locked {
        lane: lock.lane as usize,
        stamp: lock.stamp,
        count: lock.count as usize,
        logged: lock.logged as usize,
        written: lock.written as usize,
    }
}

fn lock_from(locked: Locked) -> Lock {
    Lock {
        lane: locked.lane as u64,
        stamp: locked.stamp,
        count: locked.count as u64,
        logged: locked.logged as u64,
        written: locked.written as u64,
    }
}

fn lane_to(lane: Lane) -> record::Lane {
    record::Lane {
        phase: lane.held.map(held_to),
        next: lane.next as usize,
        wrap: lane.wrap,
        floor: lane.floor,
        redo: lane.pairs.map(pair_to),
    }
}

fn lane_from(lane: record::Lane) -> Lane {
    Lane {
        held: lane.phase.map(held_from),
        next: lane.next as u64,
        wrap: lane.wrap,
        floor: lane.floor,
        pairs: lane.redo.map(pair_from),
    }
}

fn record_to(state: &Record) -> record::Record {
    record::Record {
        clock: state.clock,
        last: state.last,
        lanes: state.lanes.map(lane_to),
        lag: state.lag,
        lock: state.lock.map(lock_to),
    }
}

// A record of the store, and the lock's pairs, which stand beside it.
fn record_from(state: record::Record, lock_pairs: [Pair; 64]) -> Record {
    Record {
        clock: state.clock,
        last: state.last,
        lag: state.lag,
        lanes: state.lanes.map(lane_from),
        lock: state.lock.map(lock_from),
        lock_pairs,
    }
}

// The record of a start; its pairs are 0.
pub(crate) fn start_from(state: record::Record) -> Record {
    record_from(state, [Pair::default(); 64])
}

fn put_pairs(pairs: &[Pair; 64], words: &mut [u64]) {
    let (rows, _) = words.as_chunks_mut::<2>();
    for (row, pair) in rows.iter_mut().zip(pairs.iter()) {
        *row = [pair.word, pair.value];
    }
}

// The words that a call on the store is lent: those of the record, in normal form, and of the lock's pairs.
pub(crate) fn words_of(state: &Record) -> [u64; STATE_WORDS] {
    let mut words = [0u64; STATE_WORDS];
    codec::record_to(record_to(state), words.first_chunk_mut().unwrap());
    put_pairs(&state.lock_pairs, &mut words[RECORD_WORDS..]);
    words
}

fn pairs_in(words: &[u64]) -> [Pair; 64] {
    let mut pairs = [Pair::default(); 64];
    let (rows, _) = words.as_chunks::<2>();
    for (pair, [word, value]) in pairs.iter_mut().zip(rows.iter()) {
        *pair = Pair {
            word: *word,
            value: *value,
        };
    }
    pairs
}

// The record that these words are.
pub(crate) fn record_in(words: &[u64; STATE_WORDS]) -> Record {
    let pairs = pairs_in(&words[RECORD_WORDS..]);
    record_from(codec::record_from(words.first_chunk().unwrap()), pairs)
}

// What is printed and counted by its number is the store's own number.
#[tactic(auto, unfolding(store::specs::Interface::number))]
pub(crate) fn refusal(refusal: store::Refusal) -> Refusal
    ensures { number_of result ≡ number refusal }
{
    match refusal {
        store::Refusal::BadBuffers => Refusal::Lengths,
        store::Refusal::BadRecord => Refusal::BadRecord,
        store::Refusal::BadLane => Refusal::NoLane,
        store::Refusal::BadWord => Refusal::NoWord,
        store::Refusal::BadTxn => Refusal::BadTransaction,
        store::Refusal::AlreadyLogged => Refusal::Holds,
        store::Refusal::NotLogged => Refusal::HoldsNone,
        store::Refusal::ClockSpent => Refusal::Spent,
        store::Refusal::WouldHit => Refusal::Overwrites,
        store::Refusal::OddBase => Refusal::OddBase,
        store::Refusal::LockHeld => Refusal::Locked,
        store::Refusal::TooLong => Refusal::TooLong,
        store::Refusal::BadTrailer => Refusal::NoTrailer,
        store::Refusal::WouldLag => Refusal::Lags,
        store::Refusal::BadLag => Refusal::BadLag,
    }
}

pub(crate) fn answer(answer: store::Answer) -> Answer {
    match answer {
        store::Answer::Done => Answer::Done,
        store::Answer::NoWrites => Answer::NoWrites,
        store::Answer::Logged(appended) => Answer::Logged {
            count: appended.count as u64,
            stamp: appended.stamp,
        },
        store::Answer::Settled(stamp) => Answer::Settled { stamp },
        store::Answer::Committed(stamp) => Answer::Committed { stamp },
        store::Answer::Stale => Answer::Stale,
        store::Answer::Changed => Answer::Changed,
        store::Answer::Marked(marked) => Answer::Marked {
            dropped: marked.dropped,
            stamp: marked.stamp,
        },
        store::Answer::Locked(progress) => Answer::Locked {
            left: progress.left as u64,
            stamp: progress.stamp,
        },
    }
}

pub(crate) fn finished(finished: Finished) -> Answer {
    Answer::Recovered {
        boundary: finished.boundary,
        undone: finished.undone as u64,
        torn: finished.torn as u64,
    }
}
