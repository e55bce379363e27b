// The calls' answers, the calls that append and commit nothing: Format, write-back, Drain, and what the other calls
// share.
// Sizes, record and the three buffers are lent to each call one by one, here and in the crates above. Kept: no struct
// would be plainer. Of lent buffers in a struct behind a `&mut` none can be lent on to be read while another is lent to
// be changed, as a write-back does (tried: the borrow rules do not cover it), and passed by value the struct's fields
// have no names in a contract after the call. And a signature tells which buffers a call may store to.
// Kept: a lane is a number below 8, in clauses and not in a type, as in codec::read.
#![tactic(auto)]

ghost use Rattle.std.specs.Prelude.{◌≡◌, ◌≤◌, true, ◌<◌, length, replicate};
ghost use Rattle.txn.specs.Txn.{max_long, txn_ok, run};
ghost use Rattle.image.specs.Image.{max_lanes, sizes_ok, former_length, trailer, image_length, data_of};
ghost use Rattle.image.specs.inner.Facts.{IsImage};
ghost use Rattle.lane_log.specs.Log.{latest_in};
ghost use Rattle.record.specs.Record.{no_pairs, lane_at, with_lane, drained_lane};
ghost use Rattle.codec.specs.Fields.{record_of, words_of};
ghost use Rattle.store.specs.Calls.{start_image, format_refusal, format_step, write_back_refusal, write_back_step};
ghost use Rattle.store.specs.Calls.{drain_refusal, drain_step};
ghost use Rattle.store.specs.Interface.{number, refusal_of, answer_of, blank_of, step_of, blank_step_of, machine_in, kept_by, keeps};
ghost use Rattle.store.specs.inner.Checked.{body_of};

use codec::{RECORD_WORDS, STATE_WORDS};
use image::Sizes;
use lane_log::{Log, Sequence};
use record::Record;
use txn::Writes;

// What Log answers where the transaction writes: the count of its writes and its timestamp.
#[derive(Clone, Copy, PartialEq, Eq)]
pub struct Appended {
    pub count: usize,
    pub stamp: u64,
}

// What Mark answers: its timestamp, and whether it dropped a logged transaction.
#[derive(Clone, Copy, PartialEq, Eq)]
pub struct Marked {
    pub stamp: u64,
    pub dropped: bool,
}

// What Lock and Continue answer: how many writes of the locked transaction are not yet made, and its timestamp.
#[derive(Clone, Copy, PartialEq, Eq)]
pub struct Progress {
    pub left: usize,
    pub stamp: u64,
}

// Why a call is refused, which alters nothing. The numbers are those that callers are told.
#[derive(Clone, Copy, PartialEq, Eq)]
pub enum Refusal {
    // sizes out of range, or a buffer of another length than they ask for
    BadBuffers = 1,
    // the record is out of range
    BadRecord = 2,
    // no lane has this number
    BadLane = 3,
    // no word of the image has this number
    BadWord = 4,
    // no well-formed transaction
    BadTxn = 5,
    // the lane holds a logged transaction
    AlreadyLogged = 6,
    // it holds none, or no lane has the lock
    NotLogged = 7,
    // the clock can give no new timestamp
    ClockSpent = 8,
    // a slot of a sequence at or above the lower bound would be overwritten
    WouldHit = 9,
    // the base timestamp is odd
    OddBase = 10,
    // the lock is held, or held by another lane
    LockHeld = 11,
    // a long transaction has no room in the lane's log
    TooLong = 12,
    // the image tells no sizes
    BadTrailer = 14,
    // the new timestamp would be more than the lag limit above the lower bound
    WouldLag = 15,
    // the lag limit that the call is given is out of range
    BadLag = 16,
}

impl Refusal {
    #[tactic(auto, unfolding(crate::specs::Interface::number))]
    pub fn number(self) -> u64
        ensures { result ≡ number self }
    {
        self as u64
    }
}

// The answer of a call that is not refused.
#[derive(Clone, Copy, PartialEq, Eq)]
pub enum Answer {
    // write-back, Drain
    Done,
    // Log or Lock of a transaction that writes nothing: count 0, and no timestamp
    NoWrites,
    // Log
    Logged(Appended),
    // Log of no words, which settles the lane: count 0, with the timestamp of its mark
    Settled(u64),
    // Redo and Validate, with the timestamp of the commit
    Committed(u64),
    // Redo: there is a commit since
    Stale,
    // Validate: the transaction does not write what was logged
    Changed,
    // Mark
    Marked(Marked),
    // Lock and Continue
    Locked(Progress),
}

// Would Format be refused?
pub fn format_refusal(
    sizes: Sizes,
    lag: u64,
    start: &[u64],
    cache: &[u64],
    nvm: &[u64],
    flags: &[u8],
) -> Result<(), Refusal>
    ensures { refusal_of result ≡ format_refusal sizes lag start.now
        (blank_of cache.now nvm.now flags.now) }
{
    if !image::format_ok(sizes, cache.len(), nvm.len(), flags.len()) {
        return Err(Refusal::BadBuffers);
    }
    if start.len() != sizes.words {
        return Err(Refusal::BadBuffers);
    }
    if !record::lag_ok(lag) {
        return Err(Refusal::BadLag);
    }
    Ok(())
}

// The trailer: the sizes, and how many words stand before it.
fn put_trailer(sizes: Sizes, last: &mut [u64])
    requires sizes_value { sizes_ok sizes ≡ true }
    requires last_len { length last.old ≡ 4 }
    ensures { last.new ≡ trailer sizes }
{
    last[0] = sizes.words as u64;
    last[1] = sizes.lanes as u64;
    last[2] = sizes.slots as u64;
    last[3] = image::former_length(sizes) as u64;
}

// What stands before it: base timestamp 0, the start words, empty logs.
fn fill_body(sizes: Sizes, start: &[u64], words: &mut [u64])
    requires start_len { length start.now ≡ sizes.words }
    requires words_len { length words.old ≡ former_length sizes }
    ensures { words.new ≡ body_of sizes start.now }
{
    let end = 1 + start.len();
    words[0] = 0;
    image::bulk::copy_words(start, &mut words[1..end]);
    words[end..].fill(0);
}

// One image as Format leaves it.
fn fill_image(sizes: Sizes, start: &[u64], words: &mut [u64])
    requires sizes_value { sizes_ok sizes ≡ true }
    requires start_len { length start.now ≡ sizes.words }
    requires words_len { length words.old ≡ image_length sizes }
    ensures { words.new ≡ start_image sizes start.now }
{
    let end = image::former_length(sizes);
    fill_body(sizes, start, &mut words[..end]);
    put_trailer(sizes, &mut words[end..]);
}

// The start words in cache and non-volatile memory; base timestamp, logs and flags 0; the trailer.
fn fill(sizes: Sizes, start: &[u64], cache: &mut [u64], nvm: &mut [u64], flags: &mut [u8])
    requires sizes_value { sizes_ok sizes ≡ true }
    requires start_len { length start.now ≡ sizes.words }
    requires cache_len { length cache.old ≡ image_length sizes }
    requires nvm_len { length nvm.old ≡ image_length sizes }
    requires flags_len { length flags.old ≡ image_length sizes }
    ensures cached { cache.new ≡ start_image sizes start.now }
    ensures persistent { nvm.new ≡ start_image sizes start.now }
    ensures unflushed { flags.new ≡ replicate (image_length sizes) 0 }
{
    fill_image(sizes, start, cache);
    fill_image(sizes, start, nvm);
    flags.fill(0);
}

// Starts the store with these words and this lag limit, and answers the record. It takes none.
pub fn format(
    sizes: Sizes,
    lag: u64,
    start: &[u64],
    cache: &mut [u64],
    nvm: &mut [u64],
    flags: &mut [u8],
) -> Result<Record, Refusal>
    ensures { step_of result no_pairs cache.new nvm.new flags.new
        ≡ format_step sizes lag start.now
        (blank_of cache.old nvm.old flags.old) }
{
    format_refusal(sizes, lag, start, cache, nvm, flags)?;
    fill(sizes, start, cache, nvm, flags);
    Ok(record::start_record(lag, 0))
}

// Would a write-back be refused?
pub fn write_back_refusal(
    sizes: Sizes,
    cache: &[u64],
    nvm: &[u64],
    flags: &[u8],
    word: usize,
) -> Result<(), Refusal>
    ensures { refusal_of result ≡ write_back_refusal sizes word
        (blank_of cache.now nvm.now flags.now) }
{
    if !image::buffers_ok(sizes, cache.len(), nvm.len(), flags.len()) {
        return Err(Refusal::BadBuffers);
    }
    if cache.len() <= word {
        return Err(Refusal::BadWord);
    }
    Ok(())
}

// Copies one word of the image to non-volatile memory. It takes no record.
pub fn write_back(
    sizes: Sizes,
    cache: &[u64],
    nvm: &mut [u64],
    flags: &[u8],
    word: usize,
) -> Result<Answer, Refusal>
    ensures { blank_step_of (answer_of result) cache.now nvm.new flags.now
        ≡ write_back_step sizes word (blank_of cache.now nvm.old flags.now) }
{
    write_back_refusal(sizes, cache, nvm, flags, word)?;
    image::flush::write_back(cache, nvm, word);
    Ok(Answer::Done)
}

// Would Drain be refused? What every call on a lane checks first.
pub fn drain_refusal(
    sizes: Sizes,
    state: &[u64],
    cache: &[u64],
    nvm: &[u64],
    flags: &[u8],
    lane: usize,
) -> Result<(), Refusal>
    ensures { refusal_of result ≡ drain_refusal sizes lane
        (machine_in state.now cache.now nvm.now flags.now) }
{
    if !image::buffers_ok(sizes, cache.len(), nvm.len(), flags.len()) {
        return Err(Refusal::BadBuffers);
    }
    if state.len() != STATE_WORDS {
        return Err(Refusal::BadBuffers);
    }
    if !codec::check::record_ok(
        sizes,
        state.first_chunk().unwrap(),
        state.last_chunk().unwrap(),
    ) {
        return Err(Refusal::BadRecord);
    }
    if sizes.lanes <= lane {
        return Err(Refusal::BadLane);
    }
    Ok(())
}

// The lane's latest sequence in the cached log.
pub fn latest_in(sizes: Sizes, cache: &[u64], lane: usize) -> Option<Sequence>
    requires image { IsImage sizes cache.now }
    requires lane_lt_lanes { lane < sizes.lanes }
    ensures { result ≡ latest_in sizes cache.now lane }
{
    Log::of(sizes, cache, lane).latest()
}

// The same, looked for first in the slot before the lane's next one, where it nearly always is.
pub fn latest_near(
    sizes: Sizes,
    words: &[u64; RECORD_WORDS],
    cache: &[u64],
    lane: usize,
) -> Option<Sequence>
    requires image { IsImage sizes cache.now }
    requires lane_lt_lanes { lane < sizes.lanes }
    ensures { result ≡ latest_in sizes cache.now lane }
{
    let cursor = codec::read::cursor(words, lane);
    let last = if cursor.slot == 0 {
        sizes.slots - 1
    } else {
        cursor.slot - 1
    };
    Log::of(sizes, cache, lane).latest_near(last)
}

// The writes of a transaction, of at most N instructions, on the cached data words.
pub fn writes_on<const N: usize>(sizes: Sizes, cache: &[u64], txn: &[u64]) -> Writes<N>
    requires image { IsImage sizes cache.now }
    requires most_bound { N ≤ max_long }
    requires txn_value { txn_ok N sizes.words txn.now ≡ true }
    ensures { result ≡ run sizes.words txn.now (data_of sizes cache.now) }
{
    let end = 1 + sizes.words;
    txn::run(txn, &cache[1..end])
}

// Stores the record after the lane's drain, which found this latest sequence: it gives the lane its floor.
pub fn put_drained(words: &mut [u64; RECORD_WORDS], lane: usize, latest: Option<Sequence>)
    requires { lane < max_lanes }
    ensures { words.new ≡ words_of (with_lane (record_of words.old) lane
        (drained_lane latest (lane_at (record_of words.old) lane))) }
{
    let phase = codec::read::phase(words, lane);
    let cursor = codec::read::cursor(words, lane);
    let floor = record::floor_after_drain(latest, codec::read::floor(words, lane));
    codec::write::set_head(words, lane, phase, cursor, floor);
    codec::write::normalise(words);
}

// Drains a lane: one pass over the flags, and one over the lane's log where the slot before its next one closes the
// latest sequence.
pub fn drain(
    sizes: Sizes,
    state: &mut [u64],
    cache: &[u64],
    nvm: &mut [u64],
    flags: &mut [u8],
    lane: usize,
) -> Result<Answer, Refusal>
    ensures { kept_by (answer_of result) state.new cache.now nvm.new flags.new
        ≡ keeps state.old (drain_step sizes lane
        (machine_in state.old cache.now nvm.old flags.old)) }
{
    drain_refusal(sizes, state, cache, nvm, flags, lane)?;
    let latest = latest_near(sizes, state.first_chunk().unwrap(), cache, lane);
    image::flush::drain(lane, cache, nvm, flags);
    put_drained(state.first_chunk_mut().unwrap(), lane, latest);
    Ok(Answer::Done)
}
