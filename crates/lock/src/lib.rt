// Long transactions under the lock: Lock, which runs one and takes the lock, and Continue, which logs its next part or
// writes it.
// Kept: a lane is a number below 8, in clauses and not in a type, as in codec::read.
#![tactic(auto)]

ghost use Rattle.std.specs.Prelude.{◌≡◌, true, List, [], ℕ, ◌+◌, ◌/◌, ◌^◌, ◌≤◌, ◌<◌, length, take, slice_index};
ghost use Rattle.txn.specs.Txn.{max_writes, max_long, txn_ok, run};
ghost use Rattle.image.specs.Image.{max_lanes, data_of};
ghost use Rattle.image.specs.inner.Facts.{IsImage};
ghost use Rattle.lane_log.specs.Log.{latest_in};
ghost use Rattle.record.specs.Record.{pairs_from, part_length, pairs_ok, pairs_of, words_of_pairs};
ghost use Rattle.codec.specs.Fields.{record_of, words_of, record_in, pairs_in};
ghost use Rattle.store.specs.Calls.{writes_on};
ghost use Rattle.store.specs.Locks.{lock_refusal, lock_step, proceed_refusal, proceed_step};
ghost use Rattle.store.specs.Locks.{part_of, pair_writes, part_written_state};
ghost use Rattle.store.specs.Interface.{refusal_of, answer_of, machine_of, machine_in, kept_by, keeps};
ghost use Rattle.store.specs.inner.Checked.{drained_state};
ghost use Rattle.lock.specs.inner.Parts.{lock_checks, Planned, taken_state, pairs_written, PairsHeld, PartAt};
ghost use Rattle.lock.specs.inner.Parts.{logged_state, logged_step, written_step};

use codec::RECORD_WORDS;
use image::Sizes;
use lane_log::{Cursor, Sequence};
use record::{LOCK_WORDS, Locked, Pair};
use store::{Answer, Progress, Refusal};
use txn::{MAX_LONG, MAX_WRITES, Write, Writes};

// How many slots must be left beside those counted: a sequence of sixteen entries.
const ROOM: usize = MAX_WRITES + 1;

// What a Lock that is not refused finds: the transaction's writes, and the lane's latest sequence, from which its drain
// takes the floor.
#[derive(Drop)]
struct Plan {
    writes: Writes<MAX_LONG>,
    latest: Option<Sequence>,
}

// The slots counted for a long transaction of this many words: one for each instruction, and a timestamp for each
// sixteen begun.
fn slots_counted(words: usize) -> usize
    ensures { result ≡ words / 4 + (words / 4 + 15) / 16 }
{
    let count = words / 4;
    count + (count + 15) / 16
}

// Lock's refusals before it runs the transaction.
fn lock_checks(
    sizes: Sizes,
    state: &[u64],
    cache: &[u64],
    nvm: &[u64],
    flags: &[u8],
    lane: usize,
    txn: &[u64],
) -> Result<(), Refusal>
    ensures { refusal_of result ≡ lock_checks sizes lane txn.now
        (machine_in state.now cache.now nvm.now flags.now) }
{
    store::drain_refusal(sizes, state, cache, nvm, flags, lane)?;
    if !txn::txn_ok(txn, sizes.words, MAX_LONG) {
        return Err(Refusal::BadTxn);
    }
    let words = state.first_chunk().unwrap();
    let phase = codec::read::phase(words, lane);
    if phase.is_some() {
        return Err(Refusal::AlreadyLogged);
    }
    let lock = codec::read::lock(words);
    if lock.is_some() {
        return Err(Refusal::LockHeld);
    }
    if sizes.slots - ROOM < slots_counted(txn.len()) {
        return Err(Refusal::TooLong);
    }
    Ok(())
}

fn plan_lock(
    sizes: Sizes,
    state: &[u64],
    cache: &[u64],
    nvm: &[u64],
    flags: &[u8],
    lane: usize,
    txn: &[u64],
) -> Result<Plan, Refusal>
    ensures { Planned result
        (lock_refusal sizes lane txn.now
        (machine_in state.now cache.now nvm.now flags.now))
        (writes_on sizes txn.now
        (machine_in state.now cache.now nvm.now flags.now))
        (latest_in sizes cache.now lane) }
{
    lock_checks(sizes, state, cache, nvm, flags, lane, txn)?;
    let writes = store::writes_on::<MAX_LONG>(sizes, cache, txn);
    let words = state.first_chunk().unwrap();
    let latest = store::latest_near(sizes, words, cache, lane);
    if writes.len() == 0 {
        return Ok(Plan { writes, latest });
    }
    let slots = slots_counted(txn.len());
    append::append_refusal(sizes, words, latest, cache, lane, slots, true)?;
    Ok(Plan { writes, latest })
}

// Would Lock be refused?
pub fn begin_refusal(
    sizes: Sizes,
    state: &[u64],
    cache: &[u64],
    nvm: &[u64],
    flags: &[u8],
    lane: usize,
    txn: &[u64],
) -> Result<(), Refusal>
    ensures { refusal_of result ≡ lock_refusal sizes lane txn.now
        (machine_in state.now cache.now nvm.now flags.now) }
{
    plan_lock(sizes, state, cache, nvm, flags, lane, txn)?;
    Ok(())
}

// The lock's pairs become these writes, and behind them 0.
// Kept: the two words of a pair by their places. Of chunks that are written the library does not say what the words end
// as (see codec::write).
fn put_pairs(writes: &[Write], pairs: &mut [u64; LOCK_WORDS])
    requires { length writes.now ≤ max_long }
    ensures { pairs.new ≡ words_of_pairs (pairs_of max_long writes.now) }
{
    pairs.fill(0);
    for (i, write) in writes.iter().enumerate() {
        let at = 2 * i;
        pairs[at] = write.word as u64;
        pairs[at + 1] = write.new;
    }
}

// Stores the record once a lane has taken the lock at a new timestamp for this many writes. Before it the lane was
// drained, and its latest sequence found.
fn put_taken(
    words: &mut [u64; RECORD_WORDS],
    lane: usize,
    latest: Option<Sequence>,
    stamp: u64,
    count: usize,
)
    requires { lane < max_lanes }
    ensures { words.new
        ≡ words_of (taken_state (record_of words.old) lane latest stamp count) }
{
    let lock = Some(Locked {
        lane,
        stamp,
        count,
        logged: 0,
        written: 0,
    });
    codec::write::set_clock(words, stamp);
    codec::write::set_lock(words, lock);
    store::put_drained(words, lane, latest);
}

// Runs a long transaction and takes the lock for it, unless it writes nothing: its writes are left as pairs, and
// nothing is appended. One run, one pass over the flags, one over the lane's log, and a look at up to 84 slots for a
// hit.
pub fn begin(
    sizes: Sizes,
    state: &mut [u64],
    cache: &[u64],
    nvm: &mut [u64],
    flags: &mut [u8],
    lane: usize,
    txn: &[u64],
) -> Result<Answer, Refusal>
    ensures { kept_by (answer_of result) state.new cache.now nvm.new flags.new
        ≡ keeps state.old (lock_step sizes lane txn.now
        (machine_in state.old cache.now nvm.old flags.old)) }
{
    let plan = plan_lock(sizes, state, cache, nvm, flags, lane, txn)?;
    let writes = plan.writes.as_slice();
    let latest = plan.latest;
    image::flush::drain(lane, cache, nvm, flags);
    let count = writes.len();
    let words = state.first_chunk_mut().unwrap();
    if count == 0 {
        store::put_drained(words, lane, latest);
        return Ok(Answer::NoWrites);
    }
    let stamp = codec::read::clock(words) + 2;
    put_taken(words, lane, latest, stamp, count);
    put_pairs(writes, state.last_chunk_mut().unwrap());
    Ok(Answer::Locked(Progress { left: count, stamp }))
}

// Would Continue be refused?
pub fn proceed_refusal(
    sizes: Sizes,
    state: &[u64],
    cache: &[u64],
    nvm: &[u64],
    flags: &[u8],
    lane: usize,
) -> Result<(), Refusal>
    ensures { refusal_of result ≡ proceed_refusal sizes lane
        (machine_in state.now cache.now nvm.now flags.now) }
{
    store::drain_refusal(sizes, state, cache, nvm, flags, lane)?;
    let lock = codec::read::lock(state.first_chunk().unwrap());
    let Some(held) = lock else {
        return Err(Refusal::NotLogged);
    };
    if held.lane != lane {
        return Err(Refusal::LockHeld);
    }
    Ok(())
}

// Pairs from pair `from` on: the first `count` of the array.
fn part_of(pairs: &[u64; LOCK_WORDS], from: usize, count: usize) -> [Pair; MAX_WRITES]
    requires count_bound { from + count ≤ max_long }
    requires count_le_max_writes { count ≤ max_writes }
    ensures { take count result ≡ pairs_from pairs.now from count }
{
    let (rows, _) = pairs.as_chunks::<2>();
    let mut part = [Pair::default(); MAX_WRITES];
    for (i, row) in rows[from..from + count].iter().enumerate() {
        part[i] = Pair {
            word: row[0] as usize,
            value: row[1],
        };
    }
    part
}

// The value of a word after these pairs: that of the last of them to it, or the data's.
fn value_before(part: &[Pair], memory: &[u64], word: usize) -> u64
    requires { word < length memory.now }
    ensures { result ≡ slice_index (pairs_written part.now memory.now) word }
{
    match part.iter().rev().find(|pair| pair.word == word) {
        Some(pair) => pair.value,
        None => memory[word],
    }
}

// The writes that pairs make on data words, which stay as they are, each with its running old value.
fn writes_of(part: &[Pair], memory: &[u64]) -> Writes<MAX_WRITES>
    requires part_len { length part.now ≤ max_writes }
    requires part_value { pairs_ok (length memory.now) part.now ≡ true }
    ensures { result ≡ pair_writes part.now memory.now }
{
    let mut writes = Writes::new();
    for (i, pair) in part.iter().enumerate() {
        let word = pair.word;
        let old = value_before(&part[..i], memory, word);
        writes.push(Write {
            word,
            old,
            new: pair.value,
        });
    }
    writes
}

// The writes of the present part of a locked transaction on the cached data words.
fn part_writes(
    sizes: Sizes,
    pairs: &[u64; LOCK_WORDS],
    cache: &[u64],
    held: Locked,
) -> Writes<MAX_WRITES>
    requires image { IsImage sizes cache.now }
    requires pairs_held { PairsHeld sizes.words pairs.now held }
    ensures { result ≡ pair_writes (part_of held pairs.now) (data_of sizes cache.now) }
{
    let count = record::part_length(held);
    let part = part_of(pairs, held.written, count);
    let end = 1 + sizes.words;
    writes_of(&part[..count], &cache[1..end])
}

// Stores the record after the present part is logged, an append that ended at a cursor. Before it the lane was drained,
// and its latest sequence found.
fn put_logged(words: &mut [u64; RECORD_WORDS], latest: Option<Sequence>, held: Locked, end: Cursor)
    requires lane_lt_max_lanes { held.lane < max_lanes }
    requires held_bound { held.logged + part_length held < 2 ^ 64 }
    ensures { words.new ≡ words_of (logged_state (record_of words.old) latest held end) }
{
    let lane = held.lane;
    let stamp = held.stamp;
    let logged = held.logged + record::part_length(held);
    let drained = record::floor_after_drain(latest, codec::read::floor(words, lane));
    let floor = record::floor_after_append(stamp, drained);
    codec::write::set_lock(words, Some(Locked { logged, ..held }));
    codec::write::set_head(words, lane, None, end, floor);
    codec::write::normalise(words);
}

// The present part of a locked transaction is logged, once its lane is drained. The record is still the one before the
// drain.
fn log_part(
    sizes: Sizes,
    state: &mut [u64],
    latest: Option<Sequence>,
    cache: &mut [u64],
    flags: &mut [u8],
    held: Locked,
) -> Answer
    requires part_at { PartAt sizes state.old latest cache.old flags.old held }
    requires logged_value { held.logged ≡ held.written }
    ensures { (nvm : List ℕ)
        → kept_by (answer_of (Ok result)) state.new cache.new nvm flags.new
        ≡ keeps state.old (logged_step sizes held
        (machine_of (drained_state sizes cache.old held.lane (record_in state.old))
        (pairs_in state.old) cache.old nvm flags.old)) }
{
    let lane = held.lane;
    let stamp = held.stamp;
    let writes = part_writes(sizes, state.last_chunk().unwrap(), cache, held);
    let cursor = codec::read::cursor(state.first_chunk().unwrap(), lane);
    let end = append::append(sizes, cache, flags, lane, writes.as_slice(), stamp, cursor);
    put_logged(state.first_chunk_mut().unwrap(), latest, held, end);
    Answer::Locked(Progress {
        left: held.count - held.written,
        stamp,
    })
}

// The record becomes the one after the present part is written: the last one commits, and frees the lock.
fn set_written(words: &mut [u64; RECORD_WORDS], held: Locked)
    requires { held.written < held.count }
    ensures { record_of words.new ≡ part_written_state held (record_of words.old) }
{
    let written = held.written + record::part_length(held);
    if written == held.count {
        codec::write::set_last(words, held.stamp);
        codec::write::set_lock(words, None);
        return;
    }
    codec::write::set_lock(words, Some(Locked { written, ..held }));
}

// The present part of a locked transaction, which is logged, is written, once its lane is drained. The record is still
// the one before the drain.
fn write_part(
    sizes: Sizes,
    state: &mut [u64],
    latest: Option<Sequence>,
    cache: &mut [u64],
    flags: &mut [u8],
    held: Locked,
) -> Answer
    requires { PartAt sizes state.old latest cache.old flags.old held }
    ensures { (nvm : List ℕ)
        → kept_by (answer_of (Ok result)) state.new cache.new nvm flags.new
        ≡ keeps state.old (written_step held
        (machine_of (drained_state sizes cache.old held.lane (record_in state.old))
        (pairs_in state.old) cache.old nvm flags.old)) }
{
    let lane = held.lane;
    let count = record::part_length(held);
    let part = part_of(state.last_chunk().unwrap(), held.written, count);
    commit::write_pairs(cache, flags, lane, &part[..count]);
    let words = state.first_chunk_mut().unwrap();
    set_written(words, held);
    store::put_drained(words, lane, latest);
    Answer::Locked(Progress {
        left: held.count - (held.written + count),
        stamp: held.stamp,
    })
}

// The next step of the transaction that holds the lock: its next part is logged, or the part that is logged is written.
// One pass over the flags, one over the lane's log, and what the part has.
pub fn proceed(
    sizes: Sizes,
    state: &mut [u64],
    cache: &mut [u64],
    nvm: &mut [u64],
    flags: &mut [u8],
    lane: usize,
) -> Result<Answer, Refusal>
    ensures { kept_by (answer_of result) state.new cache.new nvm.new flags.new
        ≡ keeps state.old (proceed_step sizes lane
        (machine_in state.old cache.old nvm.old flags.old)) }
{
    proceed_refusal(sizes, state, cache, nvm, flags, lane)?;
    let words = state.first_chunk().unwrap();
    let held = codec::read::lock(words).unwrap_or_default();
    let latest = store::latest_near(sizes, words, cache, lane);
    image::flush::drain(lane, cache, nvm, flags);
    if held.logged == held.written {
        return Ok(log_part(sizes, state, latest, cache, flags, held));
    }
    Ok(write_part(sizes, state, latest, cache, flags, held))
}
