// Power failures: what a drain that is cut short leaves, cache and flags filled with anything, and recoveries up to one
// that finishes.
use crate::session::Session;
use second::words::{MAX_LANES, is_flushed};

const LAST_LANE: u64 = MAX_LANES - 1;

// Some of the words that a lane has flushed reach non-volatile memory.
fn part_of_drain(session: &mut Session, lane: u64) {
    let length = session.length() as usize;
    let buffers = &mut session.buffers;
    let words = buffers.nvm.iter_mut().zip(buffers.cache.iter());
    for ((cell, word), byte) in words.zip(buffers.flags.iter()).take(length) {
        if is_flushed(u64::from(*byte), lane) && session.random.once_in(2) {
            *cell = *word;
        }
    }
}

// Anything in cache and flags.
pub fn scramble(session: &mut Session) {
    let length = session.length() as usize;
    let buffers = &mut session.buffers;
    let words = buffers.cache.iter_mut().zip(buffers.flags.iter_mut());
    for (word, byte) in words.take(length) {
        *word = session.random.value();
        *byte = (session.random.draw() % 256) as u8;
    }
}

// The recovery that the image is for.
pub fn recover_within(session: &mut Session, limit: u64) {
    let call = session.recovery();
    session.call(call, limit, 0);
}

// A recovery that may be cut, and if it is, that is another failure.
fn recover_once(session: &mut Session) {
    let below = session.length().wrapping_add(60);
    let mut limit = session.random.below(below);
    if session.random.once_in(3) {
        limit = u64::MAX;
    }
    recover_within(session, limit);
    if session.is_cut() {
        scramble(session);
    }
}

// Recoveries up to one that finishes: the fourth has no limit.
pub fn recover(session: &mut Session) {
    for _ in 0..3u64 {
        recover_once(session);
        if !session.is_cut() {
            return;
        }
    }
    recover_within(session, u64::MAX);
}

// Power fails, perhaps inside a drain of a lane, and recovery follows.
pub fn cut(session: &mut Session, lane: u64) {
    if session.random.once_in(2) {
        part_of_drain(session, lane.min(LAST_LANE));
    }
    scramble(session);
    recover(session);
}
