// For a control: one word of what the store left becomes another one, before it is compared.
use crate::session::Left;
use second::records::{Held, Lane, Lock, Pair, Record};
use second::{Answer, Outcome, Refusal};

// The words of a record: three, forty for each of eight lanes, six of the lock, and of its 64 pairs two each.
pub const STATE_WORDS: u64 = 457;

const LANE_WORDS: u64 = 40;

#[derive(Clone, Copy, PartialEq, Eq, Debug)]
pub enum Part {
    // word i of the record
    State(u64),
    // which of the answers it is
    Answer,
    // number i of the answer: 0 is the count, what is left or undone, or whether a transaction was dropped; 1 the
    // timestamp or boundary; 2 how many slots were torn
    Number(u64),
    // the refusal that was asked for beforehand
    Asked,
    // word i of a buffer
    Cache(u64),
    Nvm(u64),
    Flags(u64),
}

// The bits of the mask are flipped. What is spoiled of a value that is not there makes it one that is, and a word that
// says whether it is there turns the one into the other: so whatever is spoiled differs, where the mask is not 0 and no
// multiple of 256.
#[derive(Clone, Copy, PartialEq, Eq, Debug)]
pub struct Spoiled {
    pub part: Part,
    pub mask: u64,
}

fn flip(word: &mut u64, mask: u64) {
    *word ^= mask;
}

fn spoil_pair(pair: &mut Pair, i: u64, mask: u64) {
    if i == 0 {
        flip(&mut pair.word, mask);
    } else {
        flip(&mut pair.value, mask);
    }
}

fn spoil_pairs(pairs: &mut [Pair], i: u64, mask: u64) {
    if let Some(pair) = pairs.get_mut((i / 2) as usize) {
        spoil_pair(pair, i % 2, mask);
    }
}

// Kept: words by their numbers, here and below, for the control spoils every word in turn and counts them so; an enum
// of the fields would be counted out by the same numbers. Word 0 says whether there is one.
fn spoiled_held(held: Option<Held>, i: u64, mask: u64) -> Option<Held> {
    let mut other = held.unwrap_or_default();
    match i {
        0 if held.is_some() => return None,
        0 => {}
        1 => flip(&mut other.first, mask),
        2 => flip(&mut other.count, mask),
        _ => flip(&mut other.stamp, mask),
    }
    Some(other)
}

fn spoiled_floor(floor: Option<u64>, i: u64, mask: u64) -> Option<u64> {
    if i == 0 && floor.is_some() {
        return None;
    }
    Some(floor.unwrap_or(0) ^ mask)
}

// Where an answer has no such number, it becomes another answer.
fn spoiled_answer(answer: Answer, i: u64, mask: u64) -> Answer {
    match (answer, i) {
        (Answer::Logged { count, stamp }, 0) => Answer::Logged {
            count: count ^ mask,
            stamp,
        },
        (Answer::Logged { count, stamp }, _) => Answer::Logged {
            count,
            stamp: stamp ^ mask,
        },
        (Answer::Settled { stamp }, _) => Answer::Settled {
            stamp: stamp ^ mask,
        },
        (Answer::Committed { stamp }, _) => Answer::Committed {
            stamp: stamp ^ mask,
        },
        (Answer::Marked { dropped, stamp }, 0) => Answer::Marked {
            dropped: !dropped,
            stamp,
        },
        (Answer::Marked { dropped, stamp }, _) => Answer::Marked {
            dropped,
            stamp: stamp ^ mask,
        },
        (Answer::Locked { left, stamp }, 0) => Answer::Locked {
            left: left ^ mask,
            stamp,
        },
        (Answer::Locked { left, stamp }, _) => Answer::Locked {
            left,
            stamp: stamp ^ mask,
        },
        (
            Answer::Recovered {
                boundary,
                undone,
                torn,
            },
            _,
        ) => spoiled_recovery(boundary, undone, torn, i, mask),
        (Answer::Cut, _) => Answer::Done,
        _ => Answer::Cut,
    }
}

fn spoiled_recovery(boundary: Option<u64>, undone: u64, torn: u64, i: u64, mask: u64) -> Answer {
    match i {
        0 => Answer::Recovered {
            boundary,
            undone: undone ^ mask,
            torn,
        },
        1 => Answer::Recovered {
            boundary: spoiled_floor(boundary, 1, mask),
            undone,
            torn,
        },
        _ => Answer::Recovered {
            boundary,
            undone,
            torn: torn ^ mask,
        },
    }
}

fn spoiled_outcome(outcome: Outcome, i: u64, mask: u64) -> Outcome {
    match outcome {
        Ok(answer) => Ok(spoiled_answer(answer, i, mask)),
        Err(_) => Ok(Answer::Cut),
    }
}

fn spoiled_lock(lock: Option<Lock>, i: u64, mask: u64) -> Option<Lock> {
    let mut other = lock.unwrap_or_default();
    match i {
        0 if lock.is_some() => return None,
        0 => {}
        1 => flip(&mut other.lane, mask),
        2 => flip(&mut other.stamp, mask),
        3 => flip(&mut other.count, mask),
        4 => flip(&mut other.logged, mask),
        _ => flip(&mut other.written, mask),
    }
    Some(other)
}

fn spoil_lane(lane: &mut Lane, i: u64, mask: u64) {
    match i {
        0..=3 => lane.held = spoiled_held(lane.held, i, mask),
        4 => flip(&mut lane.next, mask),
        5 => flip(&mut lane.wrap, mask),
        6..=7 => lane.floor = spoiled_floor(lane.floor, i - 6, mask),
        _ => spoil_pairs(&mut lane.pairs, i - 8, mask),
    }
}

// The words of the lock and of its pairs.
fn spoil_lock(state: &mut Record, i: u64, mask: u64) {
    match i {
        0..=5 => state.lock = spoiled_lock(state.lock, i, mask),
        _ => spoil_pairs(&mut state.lock_pairs, i - 6, mask),
    }
}

fn spoil_lanes(state: &mut Record, i: u64, mask: u64) {
    if let Some(i) = i.checked_sub(8 * LANE_WORDS) {
        spoil_lock(state, i, mask);
    } else if let Some(lane) = state.edit(i / LANE_WORDS) {
        spoil_lane(lane, i % LANE_WORDS, mask);
    }
}

fn spoil_state(state: &mut Record, i: u64, mask: u64) {
    match i {
        0 => flip(&mut state.clock, mask),
        1 => flip(&mut state.last, mask),
        2 => flip(&mut state.lag, mask),
        _ => spoil_lanes(state, i - 3, mask),
    }
}

fn spoil_word(words: &mut [u64], i: u64, mask: u64) {
    if let Some(word) = words.get_mut(i as usize) {
        flip(word, mask);
    }
}

fn spoil_byte(bytes: &mut [u8], i: u64, mask: u64) {
    if let Some(byte) = bytes.get_mut(i as usize) {
        *byte ^= (mask % 256) as u8;
    }
}

impl Spoiled {
    pub(crate) fn spoil(&self, stored: &mut Left) {
        let mask = self.mask;
        match self.part {
            Part::State(i) => spoil_state(&mut stored.state, i, mask),
            Part::Answer if stored.outcome == Ok(Answer::Cut) => stored.outcome = Ok(Answer::Done),
            Part::Answer => stored.outcome = Ok(Answer::Cut),
            Part::Number(i) => stored.outcome = spoiled_outcome(stored.outcome, i, mask),
            Part::Asked if stored.asked.is_some() => stored.asked = None,
            Part::Asked => stored.asked = Some(Refusal::Lengths),
            Part::Cache(i) => spoil_word(&mut stored.buffers.cache, i, mask),
            Part::Nvm(i) => spoil_word(&mut stored.buffers.nvm, i, mask),
            Part::Flags(i) => spoil_byte(&mut stored.buffers.flags, i, mask),
        }
    }
}
