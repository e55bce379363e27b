// Arbitrary states: any images, and records mostly in range, as no Format leads to them. Every call is tried on them.
use crate::images::Canvas;
use crate::sizes;
use crate::transactions::{make_long, make_txn};
use bench::generator::Random;
use bench::session::Session;
use second::Call;
use second::image::Sizes;
use second::records::{Held, Lane, Lock, Pair, Record};
use second::words::{MAX_LAG, MAX_LANES, MAX_LONG, MAX_STAMP, MAX_WRITES, MIN_SLOTS};

// A number below n, now and then n itself: slightly out of range.
pub(crate) fn about(random: &mut Random, n: u64) -> u64 {
    if random.once_in(100) {
        return n;
    }
    random.below(n)
}

// A timestamp of a record: even and at most 46, now and then odd or too great.
pub(crate) fn about_stamp(random: &mut Random) -> u64 {
    match random.below(200) {
        0 => random.below(48),
        1 => MAX_STAMP,
        _ => random.below(24) << 1,
    }
}

// ---- the buffers
fn fill_images(session: &mut Session) {
    let sizes = session.sizes;
    Canvas {
        random: &mut session.random,
        sizes,
        image: &mut session.buffers.cache,
    }
    .fill();
    Canvas {
        random: &mut session.random,
        sizes,
        image: &mut session.buffers.nvm,
    }
    .fill();
}

// Non-volatile memory with most words of the cache, as when not all is written back yet.
fn mix(session: &mut Session) {
    let length = session.sizes.length() as usize;
    let buffers = &mut session.buffers;
    let words = buffers.nvm.iter_mut().zip(buffers.cache.iter());
    for (cell, word) in words.take(length) {
        if !session.random.once_in(8) {
            *cell = *word;
        }
    }
}

fn fill_flags(session: &mut Session) {
    let length = session.sizes.length() as usize;
    for byte in session.buffers.flags.iter_mut().take(length) {
        let bits = session.random.draw() & session.random.draw();
        *byte = (bits % 256) as u8;
    }
}

fn fill_buffers(session: &mut Session) {
    fill_images(session);
    if session.random.once_in(2) {
        mix(session);
    }
    fill_flags(session);
}

// ---- the record
// A count of a logged transaction, now and then out of its range.
fn count(random: &mut Random) -> u64 {
    match random.below(256) {
        0 => 0,
        1 => 17,
        2..=41 => random.from_one(MAX_WRITES),
        _ => random.from_one(2),
    }
}

fn about_floor(random: &mut Random) -> Option<u64> {
    if random.once_in(2) {
        return Some(about_stamp(random));
    }
    None
}

fn any_held(random: &mut Random, sizes: &Sizes) -> Held {
    let first = about(random, sizes.slots);
    let count = count(random);
    let stamp = about_stamp(random);
    Held {
        first,
        count,
        stamp,
    }
}

fn any_pairs(random: &mut Random, sizes: &Sizes) -> [Pair; 16] {
    let mut pairs = [Pair::default(); 16];
    for pair in pairs.iter_mut() {
        let word = about(random, sizes.words);
        let value = random.value();
        *pair = Pair { word, value };
    }
    pairs
}

fn any_lane(random: &mut Random, sizes: &Sizes) -> Lane {
    let next = about(random, sizes.slots);
    let wrap = about(random, 2);
    let mut held = None;
    let mut pairs = [Pair::default(); 16];
    if random.once_in(2) {
        held = Some(any_held(random, sizes));
        pairs = any_pairs(random, sizes);
    }
    let floor = about_floor(random);
    Lane {
        held,
        next,
        wrap,
        floor,
        pairs,
    }
}

fn clock(random: &mut Random) -> u64 {
    match random.below(32) {
        0 => random.below(64),
        1 => MAX_STAMP,
        2..=3 => MAX_STAMP - 2,
        _ => 46u64.wrapping_add(random.below(50) << 1),
    }
}

// A lag limit: mostly a small one, and now and then a number that is out of range.
fn about_lag(random: &mut Random) -> u64 {
    match random.below(64) {
        0 => sizes::wrong_lag(random),
        1..=4 => MAX_LAG.wrapping_sub(random.below(3) << 1),
        _ => sizes::small_lag(random, 64),
    }
}

// Now and then one of the lock's pairs has a word that is not there.
fn any_lock_pairs(random: &mut Random, sizes: &Sizes) -> [Pair; 64] {
    let mut pairs = [Pair::default(); 64];
    for pair in pairs.iter_mut() {
        let word = random.below(sizes.words);
        let value = random.value();
        *pair = Pair { word, value };
    }
    if random.once_in(20) {
        if let Some(pair) = pairs.get_mut(random.below(MAX_LONG) as usize) {
            *pair = Pair {
                word: sizes.words,
                value: 0,
            };
        }
    }
    pairs
}

// How many pairs the lock has, now and then out of its range.
fn lock_count(random: &mut Random) -> u64 {
    match random.below(100) {
        0 => 0,
        1 => 65,
        2..=40 => random.from_one(MAX_WRITES),
        _ => random.from_one(MAX_LONG),
    }
}

// How many of them are logged and written: whole parts, of which one may be logged only; now and then not so.
fn with_parts(random: &mut Random, lock: Lock) -> Lock {
    let parts = lock.count.div_ceil(MAX_WRITES);
    let written = random.below(parts) << 4;
    let mut logged = written;
    if random.once_in(2) {
        logged = written.wrapping_add(MAX_WRITES.min(lock.count.wrapping_sub(written)));
    }
    if random.once_in(30) {
        logged = logged.wrapping_add(1);
    }
    let shift = if random.once_in(40) { 8 } else { 0 };
    Lock {
        logged,
        written: written.wrapping_add(shift),
        ..lock
    }
}

// The lock is held, mostly by a lane that is idle.
fn hold_lock(random: &mut Random, sizes: &Sizes, state: &mut Record) {
    let lane = about(random, sizes.lanes);
    let stamp = about_stamp(random);
    let count = lock_count(random);
    if !random.once_in(20) {
        state.set_held(lane.min(MAX_LANES - 1), None);
    }
    let lock = Lock {
        lane,
        stamp,
        count,
        logged: 0,
        written: 0,
    };
    state.lock = Some(with_parts(random, lock));
}

// All eight lanes, those that are not in use too, and the lock.
fn any_record(random: &mut Random, sizes: &Sizes) -> Record {
    let clock = clock(random);
    let last = about_stamp(random);
    let lag = about_lag(random);
    let mut state = Record::start(lag, clock);
    state.last = last;
    for lane in state.lanes.iter_mut() {
        *lane = any_lane(random, sizes);
    }
    state.lock_pairs = any_lock_pairs(random, sizes);
    if random.once_in(4) {
        hold_lock(random, sizes, &mut state);
    }
    state
}

// ---- the calls
// A length, now and then one word off, or the other one of the two.
fn about_length(random: &mut Random, sizes: &Sizes, length: u64) -> u64 {
    match random.below(300) {
        0..=1 => length.wrapping_add(random.below(3)).wrapping_sub(1),
        2 => sizes.former(),
        3 => sizes.length(),
        _ => length,
    }
}

// With a trailer or without.
fn either_length(random: &mut Random, sizes: &Sizes) -> u64 {
    if random.once_in(2) {
        return sizes.former();
    }
    sizes.length()
}

// The length that a call takes, one of the two where it takes either, and now and then all the same.
fn length_for(random: &mut Random, sizes: &Sizes, call: Call) -> u64 {
    if random.once_in(8) {
        return either_length(random, sizes);
    }
    match call {
        Call::Recover => sizes.former(),
        Call::Format | Call::RecoverRead => sizes.length(),
        _ => either_length(random, sizes),
    }
}

fn about_lengths(session: &mut Session, call: Call) {
    let sizes = session.sizes;
    let random = &mut session.random;
    let length = length_for(random, &sizes, call);
    let cache = about_length(random, &sizes, length);
    let nvm = about_length(random, &sizes, length);
    let flags = about_length(random, &sizes, length);
    session.set_lengths(cache, nvm, flags);
}

fn any_limit(session: &mut Session) -> u64 {
    if session.random.once_in(2) {
        return u64::MAX;
    }
    session.random.below(session.sizes.length() << 1)
}

// Mostly the lane that has the lock.
fn any_owner(session: &mut Session) -> u64 {
    if session.random.once_in(8) {
        return about(&mut session.random, session.sizes.lanes);
    }
    session.state.lock.unwrap_or_default().lane
}

fn any_number(session: &mut Session, call: Call) -> u64 {
    let length = session.length();
    match call {
        Call::WriteBack => about(&mut session.random, length),
        Call::Recover | Call::RecoverRead => any_limit(session),
        Call::Continue => any_owner(session),
        _ => about(&mut session.random, session.sizes.lanes),
    }
}

// A transaction, or start words: how many words.
fn any_words(session: &mut Session, call: Call) -> u64 {
    match call {
        Call::Format => session.sizes.words,
        Call::Lock => make_long(session),
        _ => make_txn(session),
    }
}

fn any_kind(random: &mut Random) -> Call {
    let i = random.below(11) as usize;
    Call::ALL.get(i).copied().unwrap_or(Call::Log)
}

// Any call.
fn any_call(session: &mut Session) {
    let call = any_kind(&mut session.random);
    about_lengths(session, call);
    session.lag = about_lag(&mut session.random);
    let number = any_number(session, call);
    let used = any_words(session, call);
    session.call(call, number, used);
}

// Six calls, one after another, on an arbitrary state.
fn run(session: &mut Session) {
    let sizes = session.sizes;
    fill_buffers(session);
    session.state = any_record(&mut session.random, &sizes);
    for _ in 0..6u64 {
        any_call(session);
    }
}

// Small sizes, now and then one of them out of range.
pub(crate) fn small_state(session: &mut Session) {
    session.sizes = sizes::small(&mut session.random);
    match session.random.below(100) {
        0 => session.sizes.words = 0,
        1 => session.sizes.lanes = 0,
        2 => session.sizes.slots = MIN_SLOTS - 1,
        _ => {}
    }
    run(session);
}

pub(crate) fn full_state(session: &mut Session) {
    session.sizes = sizes::FULL;
    run(session);
}
