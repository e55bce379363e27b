// Fields of the record, each read where it stands in the record's words, and the lower bound. The functions take the
// words as an array, and no struct holds them: of one that a call writes each setter would have to say that it keeps the
// caller's reference. A lane is a number below 8 and no type of its own, since the calls, and C, count lanes so.
ghost use Rattle.std.specs.Prelude.{◌≡◌, ◌≤◌, ◌<◌};
ghost use Rattle.image.specs.Image.{max_lanes};
ghost use Rattle.record.specs.Record.{lane_at, cursor_of, spent, bound_of, with_lane};
ghost use Rattle.record.specs.declared.Lane.{Lane};
ghost use Rattle.codec.specs.Fields.{lane_of, record_of};
ghost use Rattle.codec.specs.inner.InPlace.{floor_with};

use crate::{
    LANE_WORDS, LANES_END, RECORD_WORDS, cursor_from, floor_from, lock_from, phase_from, redo_from,
};
use image::Sizes;
use lane_log::Cursor;
use record::{Locked, Logged, Pair};
use txn::MAX_WRITES;

#[tactic(auto, unfolding(crate::specs::Fields::record_of))]
pub fn clock(words: &[u64; RECORD_WORDS]) -> u64
    ensures { result ≡ (record_of words.now).clock }
{
    words[0]
}

// 2^64 - 2, the last even number.
const CLOCK_END: u64 = u64::MAX - 1;

// Can the clock give no new timestamp?
#[tactic(auto, unfolding(crate::specs::Fields::record_of, record::specs::Record::spent))]
pub fn spent(words: &[u64; RECORD_WORDS]) -> bool
    ensures { result ≡ spent (record_of words.now) }
{
    CLOCK_END <= words[0]
}

#[tactic(auto, unfolding(crate::specs::Fields::record_of))]
pub fn last(words: &[u64; RECORD_WORDS]) -> u64
    ensures { result ≡ (record_of words.now).last }
{
    words[1]
}

#[tactic(auto, unfolding(crate::specs::Fields::record_of))]
pub fn lag(words: &[u64; RECORD_WORDS]) -> u64
    ensures { result ≡ (record_of words.now).lag }
{
    words[LANES_END]
}

pub fn lock(words: &[u64; RECORD_WORDS]) -> Option<Locked>
    ensures { result ≡ (record_of words.now).lock }
{
    lock_from(words.last_chunk().unwrap())
}

// A lane's words.
pub(crate) fn lane_words(words: &[u64; RECORD_WORDS], lane: usize) -> &[u64; LANE_WORDS]
    requires { lane < max_lanes }
    ensures { lane_of result.now ≡ lane_at (record_of words.now) lane }
{
    words[2 + LANE_WORDS * lane..].first_chunk().unwrap()
}

pub fn phase(words: &[u64; RECORD_WORDS], lane: usize) -> Option<Logged>
    requires { lane < max_lanes }
    ensures { result ≡ (lane_at (record_of words.now) lane).phase }
{
    phase_from(lane_words(words, lane))
}

#[tactic(auto, unfolding(record::specs::Record::cursor_of))]
pub fn cursor(words: &[u64; RECORD_WORDS], lane: usize) -> Cursor
    requires { lane < max_lanes }
    ensures { result ≡ cursor_of (lane_at (record_of words.now) lane) }
{
    cursor_from(lane_words(words, lane))
}

pub fn floor(words: &[u64; RECORD_WORDS], lane: usize) -> Option<u64>
    requires { lane < max_lanes }
    ensures { result ≡ (lane_at (record_of words.now) lane).floor }
{
    floor_from(lane_words(words, lane))
}

pub fn redo(words: &[u64; RECORD_WORDS], lane: usize) -> [Pair; MAX_WRITES]
    requires { lane < max_lanes }
    ensures { result ≡ (lane_at (record_of words.now) lane).redo }
{
    redo_from(lane_words(words, lane))
}

// The floor of lane `l`, which for lane `lane` is the one given.
#[tactic(auto, unfolding(crate::specs::inner::InPlace::floor_with))]
fn floor_with(words: &[u64; RECORD_WORDS], l: usize, lane: usize, given: Option<u64>) -> Option<u64>
    requires { l < max_lanes }
    ensures { result ≡ floor_with (record_of words.now) lane given l }
{
    if l == lane {
        return given;
    }
    floor(words, l)
}

// The lower bound once a lane has this floor: the least of the floors of the lanes in use.
pub fn bound(
    sizes: Sizes,
    words: &[u64; RECORD_WORDS],
    lane: usize,
    given: Option<u64>,
) -> Option<u64>
    requires { sizes.lanes ≤ max_lanes }
    ensures { (l : Lane) → l.floor ≡ given
        → result ≡ bound_of sizes (with_lane (record_of words.now) lane l) }
{
    let mut least = None;
    // a loop: a fold would say the same inside a closure
    for l in 0..sizes.lanes {
        least = record::lesser(least, floor_with(words, l, lane, given));
    }
    least
}
