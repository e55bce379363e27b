// Fields of the record stored where they stand in its words, and the words brought to normal form. Each setter says
// what record is then read from the words, and leaves all others, also words that say nothing. A call ends with
// `normalise`, which makes those 0.
ghost use Rattle.std.specs.Prelude.{◌≡◌, ◌<◌, length};
ghost use Rattle.image.specs.Image.{max_lanes};
ghost use Rattle.record.specs.Record.{lane_at, with_lane, with_clock, with_last, with_lock};
ghost use Rattle.codec.specs.Fields.{lane_length, holder_length};
ghost use Rattle.codec.specs.Fields.{lane_of, lock_of, record_of, lane_words, lock_words, words_of};
ghost use Rattle.codec.specs.inner.InPlace.{headed, redone};

use crate::{HEAD_WORDS, LANE_WORDS, LANES_END, RECORD_WORDS, head, holder, pairs_to};
use image::MAX_LANES;
use lane_log::Cursor;
use record::{Locked, Logged, Pair};
use txn::MAX_WRITES;

pub fn set_clock(words: &mut [u64; RECORD_WORDS], clock: u64)
    ensures { record_of words.new ≡ with_clock (record_of words.old) clock }
{
    words[0] = clock;
}

pub fn set_last(words: &mut [u64; RECORD_WORDS], last: u64)
    ensures { record_of words.new ≡ with_last (record_of words.old) last }
{
    words[1] = last;
}

pub fn set_lock(words: &mut [u64; RECORD_WORDS], lock: Option<Locked>)
    ensures { record_of words.new ≡ with_lock (record_of words.old) lock }
{
    words[LANES_END + 1..].copy_from_slice(&holder(lock));
}

// A lane without its redo log: phase, cursor and floor.
pub fn set_head(
    words: &mut [u64; RECORD_WORDS],
    lane: usize,
    phase: Option<Logged>,
    cursor: Cursor,
    floor: Option<u64>,
)
    requires { lane < max_lanes }
    ensures { record_of words.new
        ≡ with_lane (record_of words.old) lane
        (headed phase cursor floor (lane_at (record_of words.old) lane)) }
{
    let at = 2 + LANE_WORDS * lane;
    words[at..at + HEAD_WORDS].copy_from_slice(&head(phase, cursor, floor));
}

// A lane's redo log.
pub fn set_redo(words: &mut [u64; RECORD_WORDS], lane: usize, redo: [Pair; MAX_WRITES])
    requires { lane < max_lanes }
    ensures { record_of words.new
        ≡ with_lane (record_of words.old) lane (redone redo (lane_at (record_of words.old) lane)) }
{
    let at = 2 + LANE_WORDS * lane + HEAD_WORDS;
    words[at..at + 2 * MAX_WRITES].copy_from_slice(pairs_to(redo).as_flattened());
}

// A lane's words as the lane that they are is written.
fn normalise_lane(words: &mut [u64])
    requires { length words.old ≡ lane_length }
    ensures { words.new ≡ lane_words (lane_of words.old) }
{
    if words[0] == 0 {
        words[1..4].fill(0);
    } else {
        words[0] = 1;
    }
    if words[6] == 0 {
        words[7] = 0;
    } else {
        words[6] = 1;
    }
}

// The lock's words as the lock that they are is written.
fn normalise_lock(words: &mut [u64])
    requires { length words.old ≡ holder_length }
    ensures { words.new ≡ lock_words (lock_of words.old) }
{
    if words[0] == 0 {
        words[1..].fill(0);
    } else {
        words[0] = 1;
    }
}

// The words as the record that they are is written: 0 where a lane is idle or has no floor, and where the lock is free.
pub fn normalise(words: &mut [u64; RECORD_WORDS])
    ensures { words.new ≡ words_of (record_of words.old) }
{
    // by number: what the words end as is not known of chunks that are written
    for l in 0..MAX_LANES {
        let at = 2 + LANE_WORDS * l;
        normalise_lane(&mut words[at..at + LANE_WORDS]);
    }
    normalise_lock(&mut words[LANES_END + 1..]);
}
