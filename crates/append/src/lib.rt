// The calls that append a sequence to a lane's log: Log, which settles the lane where it is given no words, and Mark.
// Kept: a lane is a number below 8, in clauses and not in a type, as in codec::read.
#![tactic(auto)]

ghost use Rattle.std.specs.Prelude.{◌≡◌, true, List, [], ◌++◌, ℕ, ◌+◌, ◌<◌, length, take};
ghost use Rattle.txn.specs.Txn.{max_writes, txn_ok, run};
ghost use Rattle.image.specs.Image.{max_lanes, data_of, log_start};
ghost use Rattle.image.specs.inner.Facts.{IsImage};
ghost use Rattle.image.specs.Flush.{flush_all};
ghost use Rattle.image.specs.Stores.{stored, places};
ghost use Rattle.lane_log.specs.Log.{latest_in};
ghost use Rattle.lane_log.specs.Append.{advance, append_stores};
ghost use Rattle.codec.specs.Fields.{record_of, words_of};
ghost use Rattle.store.specs.Calls.{log_refusal, log_step, mark_refusal, mark_step};
ghost use Rattle.store.specs.Interface.{refusal_of, answer_of, machine_of, machine_in, kept_by, keeps};
ghost use Rattle.store.specs.inner.Checked.{drained_state};
ghost use Rattle.append.specs.inner.Plans.{room_refusal, log_checks, log_room, Planned, Searchable, Appendable};
ghost use Rattle.append.specs.inner.Plans.{AfterDrain, appended_state, logged_step, marked_step};

use codec::RECORD_WORDS;
use image::Sizes;
use lane_log::{Cursor, Log, Sequence};
use record::Logged;
use store::{Answer, Appended, Marked, Refusal};
use txn::{MAX_WRITES, Write};

// Refusals 8, 15 and 9 of a call that appends `count` slots: the clock is spent; the new timestamp is more than the lag
// limit above the lower bound, where the limit binds the call; a slot of a sequence at or above the lower bound would
// be overwritten. Floors are as after the lane's drain, which finds this latest sequence. It looks at the slots that
// the append writes and 16 more.
pub fn append_refusal(
    sizes: Sizes,
    words: &[u64; RECORD_WORDS],
    latest: Option<Sequence>,
    cache: &[u64],
    lane: usize,
    count: usize,
    binds: bool,
) -> Result<(), Refusal>
    requires searchable { Searchable sizes (record_of words.now) latest cache.now lane count }
    ensures { refusal_of result
        ≡ room_refusal sizes (record_of words.now) cache.now lane count binds }
{
    if codec::read::spent(words) {
        return Err(Refusal::ClockSpent);
    }
    let floor = record::floor_after_drain(latest, codec::read::floor(words, lane));
    let bound = codec::read::bound(sizes, words, lane, floor);
    if binds
        && record::lag_passed(
            codec::read::lag(words),
            codec::read::clock(words) + 2,
            bound,
        )
    {
        return Err(Refusal::WouldLag);
    }
    let cursor = codec::read::cursor(words, lane);
    let log = Log::of(sizes, cache, lane);
    if log.would_hit(cursor.slot, count, bound) {
        return Err(Refusal::WouldHit);
    }
    Ok(())
}

// Log's refusals before it runs the transaction. No words are no transaction to be checked.
fn log_checks(
    sizes: Sizes,
    state: &[u64],
    cache: &[u64],
    nvm: &[u64],
    flags: &[u8],
    lane: usize,
    txn: &[u64],
) -> Result<(), Refusal>
    ensures { refusal_of result ≡ log_checks sizes lane txn.now
        (machine_in state.now cache.now nvm.now flags.now) }
{
    store::drain_refusal(sizes, state, cache, nvm, flags, lane)?;
    if txn.len() != 0 && !txn::txn_ok(txn, sizes.words, MAX_WRITES) {
        return Err(Refusal::BadTxn);
    }
    let words = state.first_chunk().unwrap();
    let phase = codec::read::phase(words, lane);
    if phase.is_some() {
        return Err(Refusal::AlreadyLogged);
    }
    let lock = codec::read::lock(words);
    if lock.is_some() {
        return Err(Refusal::LockHeld);
    }
    Ok(())
}

// How much a transaction writes on the cached data words; no words write nothing.
fn count_of(sizes: Sizes, cache: &[u64], txn: &[u64]) -> usize
    requires image { IsImage sizes cache.now }
    requires txn_value { (length txn.now ≡ 0 → ⊥) → txn_ok max_writes sizes.words txn.now ≡ true }
    ensures { result ≡ length (run sizes.words txn.now (data_of sizes cache.now)) }
{
    if txn.len() == 0 {
        return 0;
    }
    store::writes_on::<MAX_WRITES>(sizes, cache, txn).len()
}

// What a Log would do that its checks do not refuse and that has this many writes: an append, where it settles the lane
// or writes. It is refused, or finds the lane's latest sequence, from which its drain takes the floor.
fn plan_log(
    sizes: Sizes,
    words: &[u64; RECORD_WORDS],
    cache: &[u64],
    lane: usize,
    settles: bool,
    count: usize,
) -> Result<Option<Sequence>, Refusal>
    requires searchable { Searchable sizes (record_of words.now) (latest_in sizes cache.now lane) cache.now lane
        (count + 1) }
    ensures { Planned result
        (log_room sizes (record_of words.now) cache.now lane settles count)
        (latest_in sizes cache.now lane) }
{
    let latest = store::latest_near(sizes, words, cache, lane);
    if !settles && count == 0 {
        return Ok(latest);
    }
    append_refusal(sizes, words, latest, cache, lane, count + 1, true)?;
    Ok(latest)
}

// Would Log be refused?
pub fn log_refusal(
    sizes: Sizes,
    state: &[u64],
    cache: &[u64],
    nvm: &[u64],
    flags: &[u8],
    lane: usize,
    txn: &[u64],
) -> Result<(), Refusal>
    ensures { refusal_of result ≡ log_refusal sizes lane txn.now
        (machine_in state.now cache.now nvm.now flags.now) }
{
    log_checks(sizes, state, cache, nvm, flags, lane, txn)?;
    let count = count_of(sizes, cache, txn);
    let settles = txn.len() == 0;
    plan_log(
        sizes,
        state.first_chunk().unwrap(),
        cache,
        lane,
        settles,
        count,
    )?;
    Ok(())
}

// A sequence of these writes at this timestamp, appended to a lane's log at a cursor; the place after it. All cached
// changes of an append are made here, and no non-volatile memory is lent: it stores no cell.
pub fn append(
    sizes: Sizes,
    cache: &mut [u64],
    flags: &mut [u8],
    lane: usize,
    writes: &[Write],
    stamp: u64,
    cursor: Cursor,
) -> Cursor
    requires { Appendable sizes cursor cache.old flags.old lane writes.now stamp }
    ensures after { result ≡ advance sizes.slots (length writes.now + 1) cursor }
    ensures written { cache.new
        ≡ stored (append_stores (log_start sizes lane) sizes.slots stamp cursor writes.now) cache.old }
    ensures flushed { flags.new
        ≡ flush_all lane (places (append_stores (log_start sizes lane) sizes.slots stamp cursor writes.now)) flags.old }
{
    let start = image::log_start(sizes, lane);
    lane_log::tail::append(
        cache,
        flags,
        start,
        sizes.slots,
        lane,
        writes,
        stamp,
        cursor,
    )
}

// Stores the record after an append at a new timestamp, which ended at a cursor and leaves the lane with this phase.
// Before it the lane was drained, and its latest sequence found. Kept: a lane is a number and no type of its own, for the
// reason in `codec::read`.
fn put_appended(
    words: &mut [u64; RECORD_WORDS],
    lane: usize,
    latest: Option<Sequence>,
    stamp: u64,
    end: Cursor,
    phase: Option<Logged>,
)
    requires { lane < max_lanes }
    ensures { words.new
        ≡ words_of (appended_state (record_of words.old) lane latest stamp end phase) }
{
    let floor = record::floor_after_drain(latest, codec::read::floor(words, lane));
    codec::write::set_clock(words, stamp);
    codec::write::set_head(
        words,
        lane,
        phase,
        end,
        record::floor_after_append(stamp, floor),
    );
    codec::write::normalise(words);
}

// Log of a transaction that writes, once its lane is drained. The record is still the one before the drain.
fn log_writes(
    sizes: Sizes,
    words: &mut [u64; RECORD_WORDS],
    latest: Option<Sequence>,
    cache: &mut [u64],
    flags: &mut [u8],
    lane: usize,
    writes: &[Write],
) -> Answer
    requires after_drain { AfterDrain sizes (record_of words.old) latest cache.old flags.old lane writes.now }
    ensures { (before pairs nvm : List ℕ)
        → kept_by (answer_of (Ok result)) (words.new ++ pairs) cache.new nvm flags.new
        ≡ keeps before (logged_step sizes lane writes.now
        (machine_of (drained_state sizes cache.old lane (record_of words.old)) pairs
        cache.old nvm flags.old)) }
{
    let count = writes.len();
    let stamp = codec::read::clock(words) + 2;
    let cursor = codec::read::cursor(words, lane);
    let phase = Some(record::Logged {
        first: cursor.slot,
        count,
        stamp,
    });
    let end = append(sizes, cache, flags, lane, writes, stamp, cursor);
    codec::write::set_redo(words, lane, record::pairs_of(writes));
    put_appended(words, lane, latest, stamp, end, phase);
    Answer::Logged(Appended { count, stamp })
}

// A mark on a drained lane, which then holds nothing: its timestamp. The record is still the one before the drain.
fn put_mark(
    sizes: Sizes,
    words: &mut [u64; RECORD_WORDS],
    latest: Option<Sequence>,
    cache: &mut [u64],
    flags: &mut [u8],
    lane: usize,
) -> u64
    requires after_drain { AfterDrain sizes (record_of words.old) latest cache.old flags.old lane [] }
    ensures stamp { result ≡ (record_of words.old).clock + 2 }
    ensures marked { (before pairs nvm : List ℕ) (answer : Answer)
        → kept_by (answer_of (Ok answer)) (words.new ++ pairs) cache.new nvm flags.new
        ≡ keeps before (marked_step sizes lane (answer_of (Ok answer))
        (machine_of (drained_state sizes cache.old lane (record_of words.old)) pairs
        cache.old nvm flags.old)) }
{
    let stamp = codec::read::clock(words) + 2;
    let cursor = codec::read::cursor(words, lane);
    let end = append(sizes, cache, flags, lane, &[], stamp, cursor);
    put_appended(words, lane, latest, stamp, end, None);
    stamp
}

// Log of no words, which its checks do not refuse.
fn settle(
    sizes: Sizes,
    state: &mut [u64],
    cache: &mut [u64],
    nvm: &mut [u64],
    flags: &mut [u8],
    lane: usize,
) -> Result<Answer, Refusal>
    requires { log_checks sizes lane [] (machine_in state.old cache.old nvm.old flags.old) ≡ 0 }
    ensures { kept_by (answer_of result) state.new cache.new nvm.new flags.new
        ≡ keeps state.old (log_step sizes lane []
        (machine_in state.old cache.old nvm.old flags.old)) }
{
    let latest = plan_log(sizes, state.first_chunk().unwrap(), cache, lane, true, 0)?;
    image::flush::drain(lane, cache, nvm, flags);
    let words = state.first_chunk_mut().unwrap();
    Ok(Answer::Settled(put_mark(sizes, words, latest, cache, flags, lane)))
}

// Log of a transaction, which its checks do not refuse.
fn log_txn(
    sizes: Sizes,
    state: &mut [u64],
    cache: &mut [u64],
    nvm: &mut [u64],
    flags: &mut [u8],
    lane: usize,
    txn: &[u64],
) -> Result<Answer, Refusal>
    requires flags_value { log_checks sizes lane txn.now (machine_in state.old cache.old nvm.old flags.old) ≡ 0 }
    requires fact { length txn.now ≡ 0 → ⊥ }
    ensures { kept_by (answer_of result) state.new cache.new nvm.new flags.new
        ≡ keeps state.old (log_step sizes lane txn.now
        (machine_in state.old cache.old nvm.old flags.old)) }
{
    let writes = store::writes_on::<MAX_WRITES>(sizes, cache, txn);
    let writes = writes.as_slice();
    let latest = plan_log(
        sizes,
        state.first_chunk().unwrap(),
        cache,
        lane,
        false,
        writes.len(),
    )?;
    image::flush::drain(lane, cache, nvm, flags);
    let words = state.first_chunk_mut().unwrap();
    if writes.is_empty() {
        store::put_drained(words, lane, latest);
        return Ok(Answer::NoWrites);
    }
    Ok(log_writes(sizes, words, latest, cache, flags, lane, writes))
}

// Logs a transaction: its run on the cached words is left as undo entries in the log and as the redo log in the record.
// One run, one pass over the flags, one over the lane's log for its latest sequence and, where the transaction writes,
// a look at up to 33 slots for a hit. No words settle the lane, at a Mark's cost.
pub fn log(
    sizes: Sizes,
    state: &mut [u64],
    cache: &mut [u64],
    nvm: &mut [u64],
    flags: &mut [u8],
    lane: usize,
    txn: &[u64],
) -> Result<Answer, Refusal>
    ensures { kept_by (answer_of result) state.new cache.new nvm.new flags.new
        ≡ keeps state.old (log_step sizes lane txn.now
        (machine_in state.old cache.old nvm.old flags.old)) }
{
    log_checks(sizes, state, cache, nvm, flags, lane, txn)?;
    if txn.len() == 0 {
        return settle(sizes, state, cache, nvm, flags, lane);
    }
    log_txn(sizes, state, cache, nvm, flags, lane, txn)
}

// What Mark would do: it is refused, or finds the lane's latest sequence, from which its drain takes the floor.
fn plan_mark(
    sizes: Sizes,
    state: &[u64],
    cache: &[u64],
    nvm: &[u64],
    flags: &[u8],
    lane: usize,
) -> Result<Option<Sequence>, Refusal>
    ensures { Planned result
        (mark_refusal sizes lane
        (machine_in state.now cache.now nvm.now flags.now))
        (latest_in sizes cache.now lane) }
{
    store::drain_refusal(sizes, state, cache, nvm, flags, lane)?;
    let words = state.first_chunk().unwrap();
    let lock = codec::read::lock(words);
    if lock.is_some() {
        return Err(Refusal::LockHeld);
    }
    let latest = store::latest_near(sizes, words, cache, lane);
    append_refusal(sizes, words, latest, cache, lane, 1, false)?;
    Ok(latest)
}

// Would Mark be refused?
pub fn mark_refusal(
    sizes: Sizes,
    state: &[u64],
    cache: &[u64],
    nvm: &[u64],
    flags: &[u8],
    lane: usize,
) -> Result<(), Refusal>
    ensures { refusal_of result ≡ mark_refusal sizes lane
        (machine_in state.now cache.now nvm.now flags.now) }
{
    plan_mark(sizes, state, cache, nvm, flags, lane)?;
    Ok(())
}

// Appends a timestamp over no entries; a logged transaction of the lane is dropped. One pass over the flags, one over
// the lane's log, and a look at 17 slots.
pub fn mark(
    sizes: Sizes,
    state: &mut [u64],
    cache: &mut [u64],
    nvm: &mut [u64],
    flags: &mut [u8],
    lane: usize,
) -> Result<Answer, Refusal>
    ensures { kept_by (answer_of result) state.new cache.new nvm.new flags.new
        ≡ keeps state.old (mark_step sizes lane
        (machine_in state.old cache.old nvm.old flags.old)) }
{
    let latest = plan_mark(sizes, state, cache, nvm, flags, lane)?;
    image::flush::drain(lane, cache, nvm, flags);
    let words = state.first_chunk_mut().unwrap();
    let phase = codec::read::phase(words, lane);
    let dropped = phase.is_some();
    let stamp = put_mark(sizes, words, latest, cache, flags, lane);
    Ok(Answer::Marked(Marked { stamp, dropped }))
}
