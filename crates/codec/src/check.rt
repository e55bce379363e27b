// The range check of the record, made on its words.
ghost use Rattle.std.specs.Prelude.{◌≡◌, ◌*◌, ◌≤◌, length, drop, take};
ghost use Rattle.txn.specs.Txn.{max_writes};
ghost use Rattle.image.specs.Image.{max_lanes};
ghost use Rattle.record.specs.Record.{pairs_from, pairs_ok, phase_ok, lane_ok, lanes_ok, held_ok, record_ok};
ghost use Rattle.codec.specs.Fields.{head_length, row_of, phase_of, pair_of, lane_of, record_of};

use crate::{HEAD_WORDS, LANE_WORDS, RECORD_WORDS, cursor_from, floor_from, phase_from, read};
use image::Sizes;
use record::{LOCK_WORDS, Locked};
use txn::{MAX_LONG, MAX_WRITES};

// Do the first `count` of the pairs in these words name one of so many data words?
fn pairs_ok(words: usize, count: usize, pairs: &[u64]) -> bool
    requires { 2 * count ≤ length pairs.now }
    ensures { result ≡ pairs_ok words (pairs_from pairs.now 0 count) }
{
    let (pairs, _) = pairs.as_chunks::<2>();
    pairs[..count].iter().all(|pair| pair[0] < words as u64)
}

#[tactic(auto, unfolding(record::specs::Record::phase_ok))]
fn phase_ok(sizes: Sizes, clock: u64, lane: &[u64; LANE_WORDS]) -> bool
    ensures { result ≡ phase_ok sizes clock (row_of 2 pair_of max_writes (drop head_length lane.now))
        (phase_of lane.now) }
{
    let Some(logged) = phase_from(lane) else {
        return true;
    };
    logged.first < sizes.slots
        && (1..=MAX_WRITES).contains(&logged.count)
        && record::stamp_ok(clock, logged.stamp)
        && pairs_ok(sizes.words, logged.count, &lane[HEAD_WORDS..])
}

#[tactic(auto, unfolding(record::specs::Record::lane_ok, record::specs::Record::floor_ok, record::specs::Record::cursor_of, crate::specs::Fields::lane_of))]
fn lane_ok(sizes: Sizes, clock: u64, lane: &[u64; LANE_WORDS]) -> bool
    ensures { result ≡ lane_ok sizes clock (lane_of lane.now) }
{
    let cursor = cursor_from(lane);
    cursor.slot < sizes.slots
        && cursor.wrap <= 1
        && floor_from(lane).is_none_or(|stamp| record::stamp_ok(clock, stamp))
        && phase_ok(sizes, clock, lane)
}

// The lanes that are not in use may hold anything.
fn lanes_ok(sizes: Sizes, words: &[u64; RECORD_WORDS]) -> bool
    requires { sizes.lanes ≤ max_lanes }
    ensures { result ≡ lanes_ok sizes (record_of words.now).clock (take sizes.lanes (record_of words.now).lanes) }
{
    let clock = read::clock(words);
    (0..sizes.lanes).all(|l| lane_ok(sizes, clock, read::lane_words(words, l)))
}

// Of a lock that is held; the pairs from the count on may hold anything.
#[tactic(auto, using(crate::proofs::Arrays::none_is), unfolding(record::specs::Record::held_ok, record::specs::Record::is_logged))]
fn held_ok(
    sizes: Sizes,
    words: &[u64; RECORD_WORDS],
    pairs: &[u64; LOCK_WORDS],
    held: Locked,
) -> bool
    requires { sizes.lanes ≤ max_lanes }
    ensures { result ≡ held_ok sizes (record_of words.now) pairs.now held }
{
    held.lane < sizes.lanes
        && read::phase(words, held.lane).is_none()
        && record::stamp_ok(read::clock(words), held.stamp)
        && held.count <= MAX_LONG
        && pairs_ok(sizes.words, held.count, pairs)
        && record::parts_ok(held)
}

// The range check, false where refusal 2 is due. The lanes that are not in use, the pairs from the count on, and the
// words of a free lock's pairs may hold anything; these are read only where the lock is held.
#[tactic(auto, unfolding(record::specs::Record::record_ok, record::specs::Record::lock_ok))]
pub fn record_ok(sizes: Sizes, words: &[u64; RECORD_WORDS], pairs: &[u64; LOCK_WORDS]) -> bool
    requires { sizes.lanes ≤ max_lanes }
    ensures { result ≡ record_ok sizes (record_of words.now) pairs.now }
{
    let clock = read::clock(words);
    clock % 2 == 0
        && record::stamp_ok(clock, read::last(words))
        && record::lag_ok(read::lag(words))
        && lanes_ok(sizes, words)
        && read::lock(words).is_none_or(|held| held_ok(sizes, words, pairs, held))
}
