// What the calls answer, as a number and four words.
// Kept: record and answer are slices here, as C lends them, and clauses say how long they are. As arrays they would be
// no plainer: each call would take a chunk of either slice, and have to prove that it is there and all of the slice.
ghost use Rattle.std.specs.Prelude.{◌≡◌, ◌++◌, Ok, length};
ghost use Rattle.record.specs.Record.{no_pairs};
ghost use Rattle.store.specs.Machine.{said};
ghost use Rattle.recovery.specs.Recovery.{told};
ghost use Rattle.recovery.specs.Interface.{recovered_of};
ghost use Rattle.codec.specs.Fields.{state_length, words_of};
ghost use Rattle.store.specs.Interface.{answer_of, where_taken};
ghost use Rattle.vandzulge.specs.Exports.{record_fits, both_fit, answer_length, said_words};
ghost use Rattle.vandzulge.specs.Exports.{finished_words, told_words};
ghost use Rattle.vandzulge.specs.inner.Results.{started_number, started_words, restarted_words};

use crate::ANSWER_WORDS;
use codec::{RECORD_WORDS, STATE_WORDS};
use record::Record;
use recovery::{Finished, Restart};
use store::{Answer, Refusal};

// Has a record so many words as it is lent in?
#[tactic(auto, unfolding(crate::specs::Exports::record_fits))]
pub(crate) fn record_fits(state: &[u64]) -> bool
    ensures { result ≡ record_fits state.now }
{
    state.len() == STATE_WORDS
}

// Have both record and answer?
#[tactic(auto, unfolding(crate::specs::Exports::both_fit))]
pub(crate) fn both_fit(state: &[u64], answer: &[u64]) -> bool
    ensures { result ≡ both_fit state.now answer.now }
{
    record_fits(state) && answer.len() == ANSWER_WORDS
}

// The number of the refusal, 0 where it is none.
pub(crate) fn number_in(given: Result<Answer, Refusal>) -> u64
    ensures { result ≡ (said (answer_of given)).number }
{
    match given {
        Ok(_) => 0,
        Err(refusal) => refusal.number(),
    }
}

#[tactic(auto, unfolding(store::specs::Machine::said, store::specs::Interface::answer_of, crate::specs::Exports::said_words, crate::specs::Exports::first_word))]
fn answer_words(answer: Answer) -> [u64; ANSWER_WORDS]
    ensures { result ≡ said_words (said (answer_of (Ok answer))) }
{
    match answer {
        Answer::Done => [0, 0, 0, 0],
        Answer::NoWrites => [0, 0, 0, 0],
        Answer::Logged(appended) => [appended.count as u64, appended.stamp, 0, 0],
        Answer::Settled(stamp) => [0, stamp, 0, 0],
        Answer::Committed(stamp) => [1, stamp, 0, 0],
        Answer::Stale => [0, 0, 0, 0],
        Answer::Changed => [0, 0, 0, 0],
        Answer::Marked(marked) => [u64::from(marked.dropped), marked.stamp, 0, 0],
        Answer::Locked(progress) => [progress.left as u64, progress.stamp, 0, 0],
    }
}

// The words of a record at a start, which has no pairs.
fn put_start(after: Record, state: &mut [u64])
    requires { length state.old ≡ state_length }
    ensures { state.new ≡ words_of after ++ no_pairs }
{
    let (words, pairs) = state.split_first_chunk_mut().unwrap();
    codec::record_to(after, words);
    pairs.fill(0);
}

// Writes the record of a start where there is one; the number of the refusal, or 0.
pub(crate) fn start(started: Result<Record, Refusal>, state: &mut [u64]) -> u64
    requires { length state.old ≡ state_length }
    ensures number { result ≡ started_number started }
    ensures words { state.new ≡ started_words started state.old }
{
    match started {
        Ok(after) => {
            put_start(after, state);
            0
        }
        Err(refusal) => refusal.number(),
    }
}

// Writes the answer's words where the call was taken; its number.
pub(crate) fn reply(given: Result<Answer, Refusal>, answer: &mut [u64]) -> u64
    requires { length answer.old ≡ answer_length }
    ensures number { result ≡ (said (answer_of given)).number }
    ensures words { answer.new
        ≡ where_taken (said (answer_of given)).number (said_words (said (answer_of given))) answer.old }
{
    match given {
        Ok(taken) => {
            let words = answer_words(taken);
            answer.copy_from_slice(&words);
            0
        }
        Err(refusal) => refusal.number(),
    }
}

#[tactic(auto, unfolding(crate::specs::Exports::finished_words))]
fn finished_words(finished: Finished) -> [u64; ANSWER_WORDS]
    ensures { result ≡ finished_words finished.boundary finished.undone finished.torn }
{
    let boundary = finished.boundary;
    match boundary {
        None => [1, 0, finished.undone as u64, finished.torn as u64],
        Some(stamp) => [2, stamp, finished.undone as u64, finished.torn as u64],
    }
}

// Writes the answer and the record of a start where recovery finished, and 0s for an answer where it was cut short.
fn recovered(given: Option<Restart>, state: &mut [u64], answer: &mut [u64])
    requires state_len { length state.old ≡ state_length }
    requires answer_len { length answer.old ≡ answer_length }
    ensures state { state.new ≡ restarted_words (Ok given) state.old }
    ensures answer { answer.new ≡ told_words (told (recovered_of (Ok given))) }
{
    match given {
        Some(after) => {
            let words = finished_words(after.finished);
            answer.copy_from_slice(&words);
            put_start(after.state, state);
        }
        None => answer.copy_from_slice(&[0; ANSWER_WORDS]),
    }
}

// The same where the call was taken; its number.
pub(crate) fn restart(
    given: Result<Option<Restart>, Refusal>,
    state: &mut [u64],
    answer: &mut [u64],
) -> u64
    requires state_len { length state.old ≡ state_length }
    requires answer_len { length answer.old ≡ answer_length }
    ensures number { result ≡ (told (recovered_of given)).number }
    ensures state { state.new ≡ restarted_words given state.old }
    ensures answer { answer.new
        ≡ where_taken (told (recovered_of given)).number (told_words (told (recovered_of given))) answer.old }
{
    match given {
        Ok(taken) => {
            recovered(taken, state, answer);
            0
        }
        Err(refusal) => refusal.number(),
    }
}
