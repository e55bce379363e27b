// The calls for other languages: numbers and slices only. Each returns 0 where the call is taken, else the number of
// its refusal, and then it has touched nothing. The sizes are W, T and N. `state` is the record in words, the lock's
// pairs behind it, `answer` has 4 words; another length of either is refusal 1.
// Kept: ten of them begin alike, and take words, lanes and slots one by one. The C interface needs it: each call is a
// symbol of its own, and is given numbers and slices only.
#![tactic(auto)]

ghost use Rattle.std.specs.Prelude.{◌≡◌};
ghost use Rattle.store.specs.Machine.{said};
ghost use Rattle.store.specs.Calls.{format_step, write_back_step, drain_step, log_step, redo_step, validate_step, mark_step};
ghost use Rattle.store.specs.Locks.{lock_step, proceed_step};
ghost use Rattle.store.specs.Interface.{machine_of, blank_of};
ghost use Rattle.recovery.specs.Recovery.{recover_step, recover_read_step};
ghost use Rattle.codec.specs.Fields.{record_in, pairs_in};
ghost use Rattle.vandzulge.specs.Exports.{sizes_of, record_fits, both_fit};
ghost use Rattle.vandzulge.specs.Exports.{left_by, leaves, replies, restarts, restart_replies};

use image::Sizes;
use store::Refusal;

mod answers;

// How many words an answer has.
const ANSWER_WORDS: usize = 4;

// The refusal of a record or an answer of another length.
const UNFIT: u64 = Refusal::BadBuffers as u64;

// Starts the store with these words and this lag limit. The record becomes the start record, with pairs of 0; its words
// are not read.
#[unsafe(no_mangle)]
pub extern "C" fn vandzulge_format(
    words: usize,
    lanes: usize,
    slots: usize,
    lag: u64,
    start: &[u64],
    cache: &mut [u64],
    nvm: &mut [u64],
    flags: &mut [u8],
    state: &mut [u64],
) -> u64
    ensures { left_by result state.new cache.new nvm.new flags.new
        ≡ leaves (record_fits state.old) state.old
        (format_step (sizes_of words lanes slots) lag start.now)
        (blank_of cache.old nvm.old flags.old) }
{
    if !answers::record_fits(state) {
        return UNFIT;
    }
    let sizes = Sizes {
        words,
        lanes,
        slots,
    };
    let started = store::format(sizes, lag, start, cache, nvm, flags);
    answers::start(started, state)
}

// Copies one word of the image to non-volatile memory. It takes no record and has no answer.
#[unsafe(no_mangle)]
pub extern "C" fn vandzulge_write_back(
    words: usize,
    lanes: usize,
    slots: usize,
    cache: &[u64],
    nvm: &mut [u64],
    flags: &[u8],
    word: usize,
) -> u64
    ensures number { result ≡ (said (write_back_step (sizes_of words lanes slots) word
        (blank_of cache.now nvm.old flags.now)).answer).number }
    ensures copied { nvm.new
        ≡ (write_back_step (sizes_of words lanes slots) word
        (blank_of cache.now nvm.old flags.now)).machine.nvm }
{
    let sizes = Sizes {
        words,
        lanes,
        slots,
    };
    answers::number_in(store::write_back(sizes, cache, nvm, flags, word))
}

// Drains a lane. It has no answer.
#[unsafe(no_mangle)]
pub extern "C" fn vandzulge_drain(
    words: usize,
    lanes: usize,
    slots: usize,
    cache: &[u64],
    nvm: &mut [u64],
    flags: &mut [u8],
    state: &mut [u64],
    lane: usize,
) -> u64
    ensures { left_by result state.new cache.now nvm.new flags.new
        ≡ leaves (record_fits state.old) state.old
        (drain_step (sizes_of words lanes slots) lane)
        (machine_of (record_in state.old) (pairs_in state.old)
        cache.now nvm.old flags.old) }
{
    if !answers::record_fits(state) {
        return UNFIT;
    }
    let sizes = Sizes {
        words,
        lanes,
        slots,
    };
    answers::number_in(store::drain(sizes, state, cache, nvm, flags, lane))
}

// Logs a transaction. The answer: the count of its writes, its timestamp, 0; 0s where it writes nothing. No words
// settle the lane: 0, the mark's timestamp, 0.
#[unsafe(no_mangle)]
pub extern "C" fn vandzulge_log(
    words: usize,
    lanes: usize,
    slots: usize,
    cache: &mut [u64],
    nvm: &mut [u64],
    flags: &mut [u8],
    state: &mut [u64],
    answer: &mut [u64],
    lane: usize,
    txn: &[u64],
) -> u64
    ensures left { left_by result state.new cache.new nvm.new flags.new
        ≡ leaves (both_fit state.old answer.old) state.old
        (log_step (sizes_of words lanes slots) lane txn.now)
        (machine_of (record_in state.old) (pairs_in state.old)
        cache.old nvm.old flags.old) }
    ensures answered { answer.new
        ≡ replies (both_fit state.old answer.old) answer.old
        (log_step (sizes_of words lanes slots) lane txn.now)
        (machine_of (record_in state.old) (pairs_in state.old)
        cache.old nvm.old flags.old) }
{
    if !answers::both_fit(state, answer) {
        return UNFIT;
    }
    let sizes = Sizes {
        words,
        lanes,
        slots,
    };
    let given = append::log(sizes, state, cache, nvm, flags, lane, txn);
    answers::reply(given, answer)
}

// Commits what the lane has logged. The answer: 1, the timestamp, 0; 0s where it is stale.
#[unsafe(no_mangle)]
pub extern "C" fn vandzulge_redo(
    words: usize,
    lanes: usize,
    slots: usize,
    cache: &mut [u64],
    nvm: &mut [u64],
    flags: &mut [u8],
    state: &mut [u64],
    answer: &mut [u64],
    lane: usize,
) -> u64
    ensures left { left_by result state.new cache.new nvm.new flags.new
        ≡ leaves (both_fit state.old answer.old) state.old
        (redo_step (sizes_of words lanes slots) lane)
        (machine_of (record_in state.old) (pairs_in state.old)
        cache.old nvm.old flags.old) }
    ensures answered { answer.new
        ≡ replies (both_fit state.old answer.old) answer.old
        (redo_step (sizes_of words lanes slots) lane)
        (machine_of (record_in state.old) (pairs_in state.old)
        cache.old nvm.old flags.old) }
{
    if !answers::both_fit(state, answer) {
        return UNFIT;
    }
    let sizes = Sizes {
        words,
        lanes,
        slots,
    };
    let given = commit::redo(sizes, state, cache, nvm, flags, lane);
    answers::reply(given, answer)
}

// Commits a transaction in place of the one logged. The answer: 1, the timestamp, 0; 0s where it has changed.
#[unsafe(no_mangle)]
pub extern "C" fn vandzulge_validate(
    words: usize,
    lanes: usize,
    slots: usize,
    cache: &mut [u64],
    nvm: &mut [u64],
    flags: &mut [u8],
    state: &mut [u64],
    answer: &mut [u64],
    lane: usize,
    txn: &[u64],
) -> u64
    ensures left { left_by result state.new cache.new nvm.new flags.new
        ≡ leaves (both_fit state.old answer.old) state.old
        (validate_step (sizes_of words lanes slots) lane txn.now)
        (machine_of (record_in state.old) (pairs_in state.old)
        cache.old nvm.old flags.old) }
    ensures answered { answer.new
        ≡ replies (both_fit state.old answer.old) answer.old
        (validate_step (sizes_of words lanes slots) lane txn.now)
        (machine_of (record_in state.old) (pairs_in state.old)
        cache.old nvm.old flags.old) }
{
    if !answers::both_fit(state, answer) {
        return UNFIT;
    }
    let sizes = Sizes {
        words,
        lanes,
        slots,
    };
    let given = commit::validate(sizes, state, cache, nvm, flags, lane, txn);
    answers::reply(given, answer)
}

// Appends a mark. The answer: 1 where a logged transaction was dropped, else 0; the timestamp; 0.
#[unsafe(no_mangle)]
pub extern "C" fn vandzulge_mark(
    words: usize,
    lanes: usize,
    slots: usize,
    cache: &mut [u64],
    nvm: &mut [u64],
    flags: &mut [u8],
    state: &mut [u64],
    answer: &mut [u64],
    lane: usize,
) -> u64
    ensures left { left_by result state.new cache.new nvm.new flags.new
        ≡ leaves (both_fit state.old answer.old) state.old
        (mark_step (sizes_of words lanes slots) lane)
        (machine_of (record_in state.old) (pairs_in state.old)
        cache.old nvm.old flags.old) }
    ensures answered { answer.new
        ≡ replies (both_fit state.old answer.old) answer.old
        (mark_step (sizes_of words lanes slots) lane)
        (machine_of (record_in state.old) (pairs_in state.old)
        cache.old nvm.old flags.old) }
{
    if !answers::both_fit(state, answer) {
        return UNFIT;
    }
    let sizes = Sizes {
        words,
        lanes,
        slots,
    };
    let given = append::mark(sizes, state, cache, nvm, flags, lane);
    answers::reply(given, answer)
}

// Takes the lock for a long transaction, and stores its writes as the lock's pairs. The answer: how many writes are not
// yet made, which is all of them, its timestamp, 0; 0s where it writes nothing, and the lock is then free.
#[unsafe(no_mangle)]
pub extern "C" fn vandzulge_lock(
    words: usize,
    lanes: usize,
    slots: usize,
    cache: &mut [u64],
    nvm: &mut [u64],
    flags: &mut [u8],
    state: &mut [u64],
    answer: &mut [u64],
    lane: usize,
    txn: &[u64],
) -> u64
    ensures left { left_by result state.new cache.new nvm.new flags.new
        ≡ leaves (both_fit state.old answer.old) state.old
        (lock_step (sizes_of words lanes slots) lane txn.now)
        (machine_of (record_in state.old) (pairs_in state.old)
        cache.old nvm.old flags.old) }
    ensures answered { answer.new
        ≡ replies (both_fit state.old answer.old) answer.old
        (lock_step (sizes_of words lanes slots) lane txn.now)
        (machine_of (record_in state.old) (pairs_in state.old)
        cache.old nvm.old flags.old) }
{
    if !answers::both_fit(state, answer) {
        return UNFIT;
    }
    let sizes = Sizes {
        words,
        lanes,
        slots,
    };
    let given = lock::begin(sizes, state, cache, nvm, flags, lane, txn);
    answers::reply(given, answer)
}

// Makes the next step of the transaction that holds the lock. The answer: how many of its writes are not yet made, its
// timestamp, 0; the last step has made them all, and frees the lock.
#[unsafe(no_mangle)]
pub extern "C" fn vandzulge_continue(
    words: usize,
    lanes: usize,
    slots: usize,
    cache: &mut [u64],
    nvm: &mut [u64],
    flags: &mut [u8],
    state: &mut [u64],
    answer: &mut [u64],
    lane: usize,
) -> u64
    ensures left { left_by result state.new cache.new nvm.new flags.new
        ≡ leaves (both_fit state.old answer.old) state.old
        (proceed_step (sizes_of words lanes slots) lane)
        (machine_of (record_in state.old) (pairs_in state.old)
        cache.old nvm.old flags.old) }
    ensures answered { answer.new
        ≡ replies (both_fit state.old answer.old) answer.old
        (proceed_step (sizes_of words lanes slots) lane)
        (machine_of (record_in state.old) (pairs_in state.old)
        cache.old nvm.old flags.old) }
{
    if !answers::both_fit(state, answer) {
        return UNFIT;
    }
    let sizes = Sizes {
        words,
        lanes,
        slots,
    };
    let given = lock::proceed(sizes, state, cache, nvm, flags, lane);
    answers::reply(given, answer)
}

// Recovers an image of the former length, making at most `limit` stores. The answer: 0s where the limit cut it short,
// and the record's words are then as before, but there is no record; where it finished, 1 and 0, or 2 and the boundary,
// then the count of entries undone and that of the slots that were torn in the non-volatile memory that this call
// found. The record's words are not read; those that it stores have the lag limit that it is given.
#[unsafe(no_mangle)]
pub extern "C" fn vandzulge_recover(
    words: usize,
    lanes: usize,
    slots: usize,
    lag: u64,
    cache: &mut [u64],
    nvm: &mut [u64],
    flags: &mut [u8],
    state: &mut [u64],
    answer: &mut [u64],
    limit: usize,
) -> u64
    ensures left { left_by result state.new cache.new nvm.new flags.new
        ≡ restarts (both_fit state.old answer.old) state.old
        (recover_step (sizes_of words lanes slots) lag limit)
        (blank_of cache.old nvm.old flags.old) }
    ensures answered { answer.new
        ≡ restart_replies (both_fit state.old answer.old) answer.old
        (recover_step (sizes_of words lanes slots) lag limit)
        (blank_of cache.old nvm.old flags.old) }
{
    if !answers::both_fit(state, answer) {
        return UNFIT;
    }
    let sizes = Sizes {
        words,
        lanes,
        slots,
    };
    let given = restart::recover(sizes, lag, cache, nvm, flags, limit);
    answers::restart(given, state, answer)
}

// Recovers an image whose last four words tell its sizes, and is otherwise as the call before.
#[unsafe(no_mangle)]
pub extern "C" fn vandzulge_recover_read(
    lag: u64,
    cache: &mut [u64],
    nvm: &mut [u64],
    flags: &mut [u8],
    state: &mut [u64],
    answer: &mut [u64],
    limit: usize,
) -> u64
    ensures left { left_by result state.new cache.new nvm.new flags.new
        ≡ restarts (both_fit state.old answer.old) state.old
        (recover_read_step lag limit)
        (blank_of cache.old nvm.old flags.old) }
    ensures answered { answer.new
        ≡ restart_replies (both_fit state.old answer.old) answer.old
        (recover_read_step lag limit)
        (blank_of cache.old nvm.old flags.old) }
{
    if !answers::both_fit(state, answer) {
        return UNFIT;
    }
    let given = restart::recover_read(lag, cache, nvm, flags, limit);
    answers::restart(given, state, answer)
}
