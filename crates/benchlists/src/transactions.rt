// Transactions of the lists and states: mostly well formed, some damaged, some of no words.
use bench::buffers::START;
use bench::session::Session;
use second::words::{MAX_LONG, MAX_WRITES, set_word};

// A long transaction has at most so many instructions more than a part.
const ROOM: u64 = 19;

// Kept: codes by their numbers, here and below, for withdrawn and damaged ones are made too, and an enum of the four
// instructions would be no plainer.
//
// The code for one of forty picks: SET, COPY or ADD, SKIP where an instruction comes after it, and now and then the
// withdrawn POKE.
fn code_for(pick: u64, after: u64) -> u64 {
    match pick {
        0 => 4,
        1..=8 if after != 0 => 5,
        _ => pick % 3 + 1,
    }
}

// Its words, of those that were drawn: the ones that it does not use are 0.
fn words_for(code: u64, a: u64, b: u64, k: u64, distance: u64) -> [u64; 4] {
    match code {
        1 => [1, a, 0, k],
        2 => [2, a, b, 0],
        3 => [3, a, b, k],
        5 => [5, 0, b, distance],
        _ => [code, 0, b, k],
    }
}

// Instruction `at`, well formed but for its code where that is POKE's, with `after` instructions after it. The more
// `picks` there are the fewer of them are SKIPs and POKEs.
fn make_instruction(session: &mut Session, at: u64, after: u64, picks: u64) {
    let words = session.sizes.words;
    let random = &mut session.random;
    let a = random.below(words);
    let b = random.below(words);
    let k = random.value();
    let distance = random.from_one(after.min(15));
    let code = code_for(random.below(picks), after);
    session.set_instruction(at, words_for(code, a, b, k, distance));
}

fn instructions(session: &mut Session) -> u64 {
    if session.random.once_in(4) {
        return session.random.from_one(MAX_WRITES);
    }
    session.random.from_one(4)
}

// Of a long transaction: mostly as many as there are slots enough for, now and then too many.
fn long_instructions(session: &mut Session) -> u64 {
    if session.random.once_in(8) {
        return session.random.from_one(MAX_LONG + 2);
    }
    let most = session.sizes.slots.wrapping_sub(ROOM);
    session.random.from_one(most.min(MAX_LONG))
}

// A word that an instruction may not have there.
fn damage(session: &mut Session) -> u64 {
    match session.random.below(4) {
        0 => session.sizes.words,
        1 => u64::MAX,
        2 => 0,
        _ => session.random.below(18),
    }
}

fn spoil(session: &mut Session, length: u64) -> u64 {
    if session.random.once_in(12) {
        let at = session.random.below(length);
        let word = damage(session);
        set_word(&mut session.words, at, word);
    }
    if session.random.once_in(50) {
        return session.random.below(70);
    }
    if session.random.once_in(30) {
        return 0;
    }
    length
}

fn make_instructions(session: &mut Session, count: u64, picks: u64) -> u64 {
    session.words = [0; START];
    // Kept: a range, for instructions are made by their number, and each is told how many come after it.
    for at in 0..count {
        make_instruction(session, at, count - at - 1, picks);
    }
    spoil(session, count << 2)
}

// Makes a transaction, now and then one that is damaged, and one in thirty of no words; its length in words.
pub(crate) fn make_txn(session: &mut Session) -> u64 {
    let count = instructions(session);
    make_instructions(session, count, 40)
}

// The same for a long one.
pub(crate) fn make_long(session: &mut Session) -> u64 {
    let count = long_instructions(session);
    make_instructions(session, count, 160)
}
