// The calls that commit a logged transaction: Redo and Validate.
// Kept: a lane is a number below 8, in clauses and not in a type, as in codec::read.
#![tactic(auto)]

ghost use Rattle.std.specs.Prelude.{◌≡◌, true, List, ◌++◌, ℕ, ◌≤◌, ◌<◌, length, take};
ghost use Rattle.txn.specs.Txn.{max_writes};
ghost use Rattle.image.specs.Image.{max_lanes};
ghost use Rattle.image.specs.inner.Facts.{IsImage};
ghost use Rattle.image.specs.Stores.{stored, places};
ghost use Rattle.image.specs.Flush.{flush_all};
ghost use Rattle.lane_log.specs.Log.{latest_in};
ghost use Rattle.lane_log.specs.inner.AppendEntries.{WordsBelow};
ghost use Rattle.record.specs.Record.{pairs_ok};
ghost use Rattle.codec.specs.Fields.{record_of, words_of};
ghost use Rattle.store.specs.Calls.{redo_refusal, redo_step, validate_refusal, validate_step, pair_stores, entry_matches};
ghost use Rattle.store.specs.Calls.{entries_match};
ghost use Rattle.store.specs.Interface.{refusal_of, answer_of, machine_of, machine_in, kept_by, keeps};
ghost use Rattle.store.specs.inner.Checked.{drained_state};
ghost use Rattle.commit.specs.inner.Commit.{commit_refusal, released_state, committed_state, commit_words};
ghost use Rattle.commit.specs.inner.Commit.{matches_held, PairsInside, Restampable, Committable};
ghost use Rattle.commit.specs.inner.Commit.{redo_drained, validate_drained};

use codec::RECORD_WORDS;
use image::Sizes;
use lane_log::{Log, Sequence};
use record::{Logged, Pair};
use slot::Content;
use store::{Answer, Refusal};
use txn::{MAX_WRITES, Write};

// Causes 7, 11 and 8, of a lane of this phase: it holds no logged transaction, the lock is held, or the clock is spent.
fn commit_refusal(phase: Option<Logged>, held: bool, spent: bool) -> Result<(), Refusal>
    ensures { refusal_of result ≡ commit_refusal phase held spent }
{
    if phase.is_none() {
        return Err(Refusal::NotLogged);
    }
    if held {
        return Err(Refusal::LockHeld);
    }
    if spent {
        return Err(Refusal::ClockSpent);
    }
    Ok(())
}

// Would Redo be refused?
pub fn redo_refusal(
    sizes: Sizes,
    state: &[u64],
    cache: &[u64],
    nvm: &[u64],
    flags: &[u8],
    lane: usize,
) -> Result<(), Refusal>
    ensures { refusal_of result ≡ redo_refusal sizes lane
        (machine_in state.now cache.now nvm.now flags.now) }
{
    store::drain_refusal(sizes, state, cache, nvm, flags, lane)?;
    let words = state.first_chunk().unwrap();
    let phase = codec::read::phase(words, lane);
    let lock = codec::read::lock(words);
    commit_refusal(phase, lock.is_some(), codec::read::spent(words))
}

// Writes the pairs to the cached data words, in order, each flushed. Kept: a lane is a number and no type of its own, here
// and below, for the reason in `codec::read`.
pub fn write_pairs(cache: &mut [u64], flags: &mut [u8], lane: usize, pairs: &[Pair])
    requires lane_lt_max_lanes { lane < max_lanes }
    requires flags_len { length flags.old ≡ length cache.old }
    requires pairs_inside { PairsInside (length cache.old) pairs.now }
    ensures written { cache.new ≡ stored (pair_stores pairs.now) cache.old }
    ensures flushed { flags.new ≡ flush_all lane (places (pair_stores pairs.now)) flags.old }
{
    let mask = image::flush::lane_mask(lane);
    for pair in pairs {
        let at = 1 + pair.word;
        cache[at] = pair.value;
        image::flush::set_flush(flags, at, mask);
    }
}

// Stores the record with the lane holding nothing, after its drain, which found this latest sequence.
fn put_released(words: &mut [u64; RECORD_WORDS], lane: usize, latest: Option<Sequence>)
    requires { lane < max_lanes }
    ensures { words.new ≡ words_of (released_state lane latest (record_of words.old)) }
{
    let cursor = codec::read::cursor(words, lane);
    let floor = record::floor_after_drain(latest, codec::read::floor(words, lane));
    codec::write::set_head(words, lane, None, cursor, floor);
    codec::write::normalise(words);
}

// The same, after a commit at this timestamp.
fn put_committed(words: &mut [u64; RECORD_WORDS], lane: usize, latest: Option<Sequence>, stamp: u64)
    requires { lane < max_lanes }
    ensures { words.new ≡ words_of (committed_state lane latest stamp (record_of words.old)) }
{
    codec::write::set_clock(words, stamp);
    codec::write::set_last(words, stamp);
    put_released(words, lane, latest);
}

// The words of a commit of these pairs at this timestamp, which replaces the one that closes the entries of the lane's
// logged transaction. All cached changes of a commit are made here, and no non-volatile memory is lent: it stores no
// cell.
fn commit(
    sizes: Sizes,
    cache: &mut [u64],
    flags: &mut [u8],
    lane: usize,
    held: Logged,
    stamp: u64,
    pairs: &[Pair],
)
    requires restampable { Restampable sizes cache.old flags.old lane held stamp }
    requires pairs_value { pairs_ok sizes.words pairs.now ≡ true }
    ensures written { cache.new
        ≡ stored (commit_words sizes lane held stamp pairs.now cache.old) cache.old }
    ensures flushed { flags.new
        ≡ flush_all lane (places (commit_words sizes lane held stamp pairs.now cache.old)) flags.old }
{
    let start = image::log_start(sizes, lane);
    let slot = lane_log::tail::circular(sizes.slots, held.first + held.count);
    write_pairs(cache, flags, lane, pairs);
    lane_log::tail::restamp(cache, flags, start, slot, lane, stamp);
}

// Redo on a drained lane. The record is still the one before the drain.
fn redo_drained(
    sizes: Sizes,
    words: &mut [u64; RECORD_WORDS],
    latest: Option<Sequence>,
    cache: &mut [u64],
    flags: &mut [u8],
    lane: usize,
) -> Answer
    requires latest_value { latest ≡ latest_in sizes cache.old lane }
    requires committable { Committable sizes (record_of words.old) cache.old flags.old lane }
    ensures { (before pairs nvm : List ℕ)
        → kept_by (answer_of (Ok result)) (words.new ++ pairs) cache.new nvm flags.new
        ≡ keeps before (redo_drained sizes lane
        (machine_of (drained_state sizes cache.old lane (record_of words.old)) pairs
        cache.old nvm flags.old)) }
{
    let phase = codec::read::phase(words, lane);
    let held = phase.unwrap_or_default();
    let clock = codec::read::clock(words);
    let last = codec::read::last(words);
    if held.stamp < last {
        store::put_drained(words, lane, latest);
        return Answer::Stale;
    }
    let stamp = clock + 2;
    let pairs = codec::read::redo(words, lane);
    commit(sizes, cache, flags, lane, held, stamp, &pairs[..held.count]);
    put_committed(words, lane, latest, stamp);
    Answer::Committed(stamp)
}

// Commits the logged transaction by its redo log, unless there is a commit since it was logged.
pub fn redo(
    sizes: Sizes,
    state: &mut [u64],
    cache: &mut [u64],
    nvm: &mut [u64],
    flags: &mut [u8],
    lane: usize,
) -> Result<Answer, Refusal>
    ensures { kept_by (answer_of result) state.new cache.new nvm.new flags.new
        ≡ keeps state.old (redo_step sizes lane
        (machine_in state.old cache.old nvm.old flags.old)) }
{
    redo_refusal(sizes, state, cache, nvm, flags, lane)?;
    let latest = store::latest_near(sizes, state.first_chunk().unwrap(), cache, lane);
    image::flush::drain(lane, cache, nvm, flags);
    Ok(redo_drained(
        sizes,
        state.first_chunk_mut().unwrap(),
        latest,
        cache,
        flags,
        lane,
    ))
}

// Would Validate be refused?
pub fn validate_refusal(
    sizes: Sizes,
    state: &[u64],
    cache: &[u64],
    nvm: &[u64],
    flags: &[u8],
    lane: usize,
    txn: &[u64],
) -> Result<(), Refusal>
    ensures { refusal_of result ≡ validate_refusal sizes lane txn.now
        (machine_in state.now cache.now nvm.now flags.now) }
{
    store::drain_refusal(sizes, state, cache, nvm, flags, lane)?;
    if !txn::txn_ok(txn, sizes.words, MAX_WRITES) {
        return Err(Refusal::BadTxn);
    }
    let words = state.first_chunk().unwrap();
    let phase = codec::read::phase(words, lane);
    let lock = codec::read::lock(words);
    commit_refusal(phase, lock.is_some(), codec::read::spent(words))
}

// Is a slot a whole entry of this write's word and old value?
#[tactic(auto, unfolding(store::specs::Calls::entry_matches))]
fn entry_matches(write: Write, content: Content) -> bool
    ensures { result ≡ entry_matches write content }
{
    match content {
        Content::Entry { word, old, .. } => write.word == word && write.old == old,
        _ => false,
    }
}

// Does each write match the next entry, from slot `first` of the lane's log on?
fn entries_match(log: &Log<'_>, first: usize, writes: &[Write]) -> bool
    requires { first < log.now.slots }
    ensures { let l = log.now in
        result ≡ entries_match l.words l.slots l.log.now first writes.now }
{
    let mut slot = first;
    for write in writes {
        if !entry_matches(*write, log.slot_at(slot)) {
            return false;
        }
        slot = lane_log::tail::circular(log.slots, slot + 1);
    }
    true
}

// Are the writes those of this logged transaction of the lane?
fn matches(sizes: Sizes, held: Logged, cache: &[u64], lane: usize, writes: &[Write]) -> bool
    requires image { IsImage sizes cache.now }
    requires lane_lt_lanes { lane < sizes.lanes }
    requires first_lt_slots { held.first < sizes.slots }
    ensures { result ≡ matches_held sizes lane held writes.now cache.now }
{
    if writes.len() != held.count {
        return false;
    }
    entries_match(&Log::of(sizes, cache, lane), held.first, writes)
}

// Validate on a drained lane, of a transaction that now makes these writes. The record is still the one before the
// drain.
fn validate_drained(
    sizes: Sizes,
    words: &mut [u64; RECORD_WORDS],
    latest: Option<Sequence>,
    cache: &mut [u64],
    flags: &mut [u8],
    lane: usize,
    writes: &[Write],
) -> Answer
    requires latest_value { latest ≡ latest_in sizes cache.old lane }
    requires committable { Committable sizes (record_of words.old) cache.old flags.old lane }
    requires few { length writes.now ≤ max_writes }
    requires words_below { WordsBelow sizes.words writes.now }
    ensures { (before pairs nvm : List ℕ)
        → kept_by (answer_of (Ok result)) (words.new ++ pairs) cache.new nvm flags.new
        ≡ keeps before (validate_drained sizes lane writes.now
        (machine_of (drained_state sizes cache.old lane (record_of words.old)) pairs
        cache.old nvm flags.old)) }
{
    let phase = codec::read::phase(words, lane);
    let held = phase.unwrap_or_default();
    if !matches(sizes, held, cache, lane, writes) {
        put_released(words, lane, latest);
        return Answer::Changed;
    }
    let stamp = codec::read::clock(words) + 2;
    let pairs = record::pairs_of(writes);
    commit(
        sizes,
        cache,
        flags,
        lane,
        held,
        stamp,
        &pairs[..writes.len()],
    );
    put_committed(words, lane, latest, stamp);
    Answer::Committed(stamp)
}

// Commits a transaction in place of the one that the lane holds, if it now writes the words that were logged, over the
// values that were logged.
pub fn validate(
    sizes: Sizes,
    state: &mut [u64],
    cache: &mut [u64],
    nvm: &mut [u64],
    flags: &mut [u8],
    lane: usize,
    txn: &[u64],
) -> Result<Answer, Refusal>
    ensures { kept_by (answer_of result) state.new cache.new nvm.new flags.new
        ≡ keeps state.old (validate_step sizes lane txn.now
        (machine_in state.old cache.old nvm.old flags.old)) }
{
    validate_refusal(sizes, state, cache, nvm, flags, lane, txn)?;
    let writes = store::writes_on::<MAX_WRITES>(sizes, cache, txn);
    let latest = store::latest_near(sizes, state.first_chunk().unwrap(), cache, lane);
    image::flush::drain(lane, cache, nvm, flags);
    Ok(validate_drained(
        sizes,
        state.first_chunk_mut().unwrap(),
        latest,
        cache,
        flags,
        lane,
        writes.as_slice(),
    ))
}
