// Long transactions under the lock, in the second implementation: of up to 64 instructions, run whole when the lock is
// taken, and then logged and written in parts of sixteen writes, all with one timestamp. SPECIFICATION, "Long
// transactions".
use crate::calls::Answer;
use crate::image::Sizes;
use crate::machine::{Given, Machine};
use crate::records::{Lock, Pair};
use crate::running::{Write, over};
use crate::words::MAX_WRITES;

// The slots that count: the instructions, and one more for each sixteen of them begun.
pub(crate) fn slots_counted(words: &[u64]) -> u64 {
    let instructions = words.len() as u64 / 4;
    instructions.wrapping_add(instructions.div_ceil(MAX_WRITES))
}

// Refusal 12: they are more than N less one part with its timestamp.
pub(crate) fn is_too_long(given: &Given) -> bool {
    given.sizes.slots.wrapping_sub(MAX_WRITES + 1) < slots_counted(given.words)
}

// The pairs from one up to another, none where there are not so many.
fn pairs_between(pairs: &[Pair; 64], first: u64, end: u64) -> &[Pair] {
    if first <= end && end <= 64 {
        return &pairs[first as usize..end as usize];
    }
    &[]
}

impl Machine<'_> {
    // Takes the lock, unless the transaction writes nothing. No slot is written yet.
    pub(crate) fn lock(&mut self, lane: u64, writes: &[Write]) -> Answer {
        if writes.is_empty() {
            return Answer::NoWrites;
        }
        let stamp = self.state.tick();
        let count = writes.len() as u64;
        self.state.lock = Some(Lock {
            lane,
            stamp,
            count,
            logged: 0,
            written: 0,
        });
        let mut pairs = [Pair::default(); 64];
        for (pair, write) in pairs.iter_mut().zip(writes.iter()) {
            *pair = write.pair;
        }
        self.state.lock_pairs = pairs;
        Answer::Locked { left: count, stamp }
    }

    // Logs the next part, closed by the lock's timestamp.
    fn log_part(&mut self, sizes: &Sizes, lock: Lock, writes: &[Write]) -> Answer {
        let count = writes.len() as u64;
        self.append_entries(sizes, lock.lane, writes);
        self.close(sizes, lock.lane, count, lock.stamp);
        self.state.lock = Some(Lock {
            logged: lock.written.wrapping_add(count),
            ..lock
        });
        Answer::Locked {
            left: lock.count.wrapping_sub(lock.written),
            stamp: lock.stamp,
        }
    }

    // Writes the part that is logged. After the last one the transaction is committed, and the lock free.
    fn write_part(&mut self, lock: Lock, part: &[Pair]) -> Answer {
        self.write_pairs(lock.lane, part, MAX_WRITES);
        if lock.logged == lock.count {
            self.state.last = lock.stamp;
            self.state.lock = None;
        } else {
            self.state.lock = Some(Lock {
                written: lock.logged,
                ..lock
            });
        }
        Answer::Locked {
            left: lock.count.wrapping_sub(lock.logged),
            stamp: lock.stamp,
        }
    }

    // The next step of the long transaction.
    pub(crate) fn proceed(&mut self, sizes: &Sizes) -> Answer {
        let lock = self.state.lock.unwrap_or_default();
        let pairs = self.state.lock_pairs;
        if lock.logged == lock.written {
            let end = lock.written.wrapping_add(lock.next_part());
            let writes = over(self.cache, pairs_between(&pairs, lock.written, end));
            return self.log_part(sizes, lock, writes.as_slice());
        }
        self.write_part(lock, pairs_between(&pairs, lock.written, lock.logged))
    }
}
