// Pseudo-random lists of calls, from a Format on: transactions, some of them damaged and some of no words, commits,
// marks, drains, write-backs, power failures and recoveries. About one step in twenty takes the lock for a long
// transaction, with drains and write-backs, and calls that the lock keeps out, between its parts. Now and then an image
// loses its trailer, and is one of the former length from then on. Half of the lag limits are small.
use crate::sizes;
use crate::transactions::{make_long, make_txn};
use bench::power;
use bench::session::Session;
use second::words::{MAX_LAG, MAX_WORDS, word_at};
use second::{Call, Refusal};

// For each lane the seed that made its transaction; a lane more than there are stands for one that is not there.
type Seeds = [Option<u64>; 9];

// A lane: mostly lane 0, so that its log wraps while others lag behind, and now and then none.
fn pick_lane(session: &mut Session) -> u64 {
    let lanes = session.sizes.lanes;
    match session.random.below(128) {
        0 => lanes,
        1..=80 => 0,
        _ => session.random.below(lanes),
    }
}

// Where the lag limit refused a Log or a Lock, now and then some lane is marked and drained: it may be the one that
// lags behind.
fn catch_up(session: &mut Session) {
    if session.refusal() == Some(Refusal::Lags) && session.random.once_in(3) {
        let lane = session.random.below(session.sizes.lanes);
        session.call(Call::Mark, lane, 0);
        session.call(Call::Drain, lane, 0);
    }
}

// A Log of a new transaction; the seed that makes it again is kept for the lane.
fn log(session: &mut Session, seeds: &mut Seeds, lane: u64) {
    if let Some(seed) = seeds.get_mut(lane as usize) {
        *seed = Some(session.random.seed);
    }
    let used = make_txn(session);
    session.call(Call::Log, lane, used);
    catch_up(session);
}

// Takes the lock for a new long transaction.
fn lock(session: &mut Session, lane: u64) {
    let used = make_long(session);
    session.call(Call::Lock, lane, used);
    catch_up(session);
}

// The seed of the lane's transaction, now and then of another one; 1 where there is none yet.
fn seed_again(session: &mut Session, seeds: &Seeds, lane: u64) -> u64 {
    if session.random.once_in(8) {
        return session.random.value();
    }
    seeds.get(lane as usize).copied().flatten().unwrap_or(1)
}

fn validate(session: &mut Session, seeds: &Seeds, lane: u64) {
    let again = seed_again(session, seeds, lane);
    let seed = session.random.seed;
    session.random.seed = again;
    let used = make_txn(session);
    session.random.seed = seed;
    session.call(Call::Validate, lane, used);
}

// A small lag limit, or the greatest, for the starts from now on.
fn pick_lag(session: &mut Session) {
    session.lag = if session.random.once_in(2) {
        sizes::small_lag(&mut session.random, 20)
    } else {
        MAX_LAG
    };
}

// Format, with any start words, of an image with a trailer.
fn format(session: &mut Session) {
    for word in session.words.iter_mut().take(MAX_WORDS as usize) {
        *word = session.random.value();
    }
    session.fit();
    let words = session.sizes.words;
    session.call(Call::Format, 0, words);
}

fn new_store(session: &mut Session) {
    pick_lag(session);
    format(session);
}

// Recovery without a failure before it; if it is cut, that is one.
fn recover(session: &mut Session) {
    let most = session.length() << 1;
    let limit = session.random.below(most);
    power::recover_within(session, limit);
    if session.is_cut() {
        power::recover(session);
    }
}

// The recovery that the image is not for.
fn recover_wrongly(session: &mut Session) {
    let call = match session.recovery() {
        Call::Recover => Call::RecoverRead,
        _ => Call::Recover,
    };
    session.call(call, u64::MAX, 0);
    session.expect(session.refusal().is_some());
}

// A Format, or the recovery that the image is for, with a limit out of range.
fn start_wrongly(session: &mut Session) {
    let lag = session.lag;
    session.lag = sizes::wrong_lag(&mut session.random);
    let call = if session.random.once_in(2) {
        session.recovery()
    } else {
        Call::Format
    };
    let words = session.sizes.words;
    session.call(call, u64::MAX, words);
    session.expect(session.refusal().is_some());
    session.lag = lag;
}

// Power fails, and now and then recovery is given another lag limit than before.
fn cut(session: &mut Session, lane: u64) {
    if session.random.once_in(4) {
        pick_lag(session);
    }
    power::cut(session, lane);
}

// A start in the middle of a list, by a failure, by recovery, or by Format; or the trailer is lost.
fn start(session: &mut Session, lane: u64) {
    match session.random.below(10) {
        0 => new_store(session),
        1 => recover(session),
        2 => recover_wrongly(session),
        3 => session.fit_former(),
        4 => start_wrongly(session),
        _ => cut(session, lane),
    }
}

// The trailer in non-volatile memory is the one that Format wrote, while there is one.
fn trailer_stands(session: &Session) -> bool {
    let sizes = session.sizes;
    let at = sizes.former();
    let trailer = [sizes.words, sizes.lanes, sizes.slots, at];
    session.length() == at
        || (at..).zip(trailer).all(|(place, word)| {
            word_at(&session.stored.buffers.nvm, place) == word
        })
}

fn step(session: &mut Session, seeds: &mut Seeds, lane: u64, word: u64) {
    match session.random.below(69) {
        0..=23 => log(session, seeds, lane),
        24..=35 => validate(session, seeds, lane),
        36..=48 => session.call(Call::Redo, lane, 0),
        49..=50 => session.call(Call::Mark, lane, 0),
        51..=55 => session.call(Call::Drain, lane, 0),
        64..=67 => lock(session, lane),
        68 => session.call(Call::Continue, lane, 0),
        _ => session.call(Call::WriteBack, word, 0),
    }
}

// While the lock is held: half of the calls are its own lane's next step, half of the others drains and write-backs.
fn step_locked(session: &mut Session, seeds: &mut Seeds, owner: u64, lane: u64, word: u64) {
    match session.random.below(8) {
        0 => session.call(Call::Drain, lane, 0),
        1 => session.call(Call::WriteBack, word, 0),
        2..=3 => step(session, seeds, lane, word),
        _ => session.call(Call::Continue, owner, 0),
    }
}

// One event of a list: once in `calm` times a start.
fn event(session: &mut Session, seeds: &mut Seeds, calm: u64) {
    let lane = pick_lane(session);
    let words = session.length().wrapping_add(1);
    let word = session.random.below(words);
    if session.random.once_in(calm) {
        start(session, lane);
    } else if let Some(lock) = session.state.lock {
        step_locked(session, seeds, lock.lane, lane, word);
    } else {
        step(session, seeds, lane, word);
    }
    session.expect(trailer_stands(session));
}

// A list of 1,000 events.
fn list(session: &mut Session, calm: u64) {
    let mut seeds = [None; 9];
    new_store(session);
    for _ in 0..1000u64 {
        event(session, &mut seeds, calm);
    }
}

pub(crate) fn small_list(session: &mut Session) {
    session.sizes = sizes::small(&mut session.random);
    list(session, 64);
}

// The greatest sizes.
pub(crate) fn full_list(session: &mut Session) {
    session.sizes = sizes::FULL;
    list(session, 500);
}
