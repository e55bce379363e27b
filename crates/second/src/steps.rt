// The calls on a lane, in the second implementation: what each is refused with, and what it does. SPECIFICATION,
// "Calls".
use crate::calls::{Answer, Call, Refusal, unless};
use crate::image::Sizes;
use crate::locking::{is_too_long, slots_counted};
use crate::machine::{Given, Machine};
use crate::reading::{Log, Sequence, Slot, stamp_value};
use crate::records::{Held, Lane, Pair, Record};
use crate::running::{Instruction, Instructions, Write, no_instructions, parse, run};
use crate::words::{MAX_LONG, MAX_STAMP, MAX_WRITES, word_at};

// A Log of no words settles its lane.
#[derive(Clone, Copy, PartialEq, Eq, Debug)]
enum Step {
    Log,
    Settle,
    Redo,
    Validate,
    Mark,
    Drain,
    Lock,
    Continue,
}

impl Step {
    // What a call on a lane is.
    fn of(given: &Given) -> Step {
        match given.call {
            Call::Log if given.words.is_empty() => Step::Settle,
            Call::Log => Step::Log,
            Call::Redo => Step::Redo,
            Call::Validate => Step::Validate,
            Call::Mark => Step::Mark,
            Call::Lock => Step::Lock,
            Call::Continue => Step::Continue,
            _ => Step::Drain,
        }
    }

    // Of how many instructions at most is the transaction that it is given, if it takes one?
    fn most_instructions(self) -> Option<u64> {
        match self {
            Step::Log | Step::Validate => Some(MAX_WRITES),
            Step::Lock => Some(MAX_LONG),
            _ => None,
        }
    }

    fn commits(self) -> bool {
        matches!(self, Step::Redo | Step::Validate)
    }

    // Does it want a lane that holds no transaction?
    fn wants_idle(self) -> bool {
        matches!(self, Step::Log | Step::Settle | Step::Lock)
    }

    // Does it append, or take the lock to append later? Log and Lock don't where their transaction writes nothing.
    fn appends(self, writes: &[Write]) -> bool {
        match self {
            Step::Mark | Step::Settle => true,
            Step::Log | Step::Lock => !writes.is_empty(),
            _ => false,
        }
    }

    // How many slots count for cause 9: those appended, or all that a long transaction may need.
    fn slots(self, given: &Given, writes: &[Write]) -> u64 {
        match self {
            Step::Lock => slots_counted(given.words),
            _ => (writes.len() as u64).wrapping_add(1),
        }
    }

    // Cause 7: there is nothing to commit, or no lock to go on with.
    fn wants_other(self, state: &Record, lane: &Lane) -> bool {
        (self.commits() && lane.held.is_none()) || (self == Step::Continue && state.lock.is_none())
    }

    // Cause 11: while the lock is held no call is a step but the next one of its own lane, and drains go on.
    fn is_kept_out(self, state: &Record, lane: u64) -> bool {
        state.lock.is_some_and(|lock| {
            self != Step::Drain && (self != Step::Continue || lane != lock.lane)
        })
    }
}

// The transaction of a step that takes one, else one of no instructions; none where it is not well formed.
fn transaction(given: &Given, step: Step) -> Option<Instructions> {
    match step.most_instructions() {
        Some(most) => parse(given.words, given.sizes.words, most),
        None => Some(no_instructions()),
    }
}

// A lane's floor after a drain: what its newest sequence gives, where it has one.
fn floor_after(floor: Option<u64>, sequences: &[Sequence]) -> Option<u64> {
    sequences
        .iter()
        .max()
        .map_or(floor, |newest| newest.given())
}

// Would slots from `next` on, so many, hit a sequence at or above the bound?
fn overwrites(
    sizes: &Sizes,
    sequences: &[Sequence],
    next: u64,
    count: u64,
    bound: Option<u64>,
) -> bool {
    let Some(bound) = bound else {
        return false;
    };
    sequences
        .iter()
        .filter(|sequence| bound <= sequence.stamp)
        .any(|sequence| (0..count).any(|k| sequence.has(sizes, sizes.ahead(next, k))))
}

// All sixteen pairs: those of the writes, then 0s.
fn pairs_of(writes: &[Write]) -> [Pair; 16] {
    let mut pairs = [Pair::default(); 16];
    for (pair, write) in pairs.iter_mut().zip(writes.iter()) {
        *pair = write.pair;
    }
    pairs
}

// Does a write find the entry that was logged for it?
fn finds_entry(log: &Log, slot: u64, write: &Write) -> bool {
    match log.slot(slot) {
        Slot::Entry { word, old, .. } => word == write.pair.word && old == write.old,
        _ => false,
    }
}

// Does each write find its entry, where there are as many as were logged?
fn matches_entries(sizes: &Sizes, log: &Log, held: &Held, writes: &[Write]) -> bool {
    writes.len() as u64 == held.count
        && (0..held.count).zip(writes.iter()).all(|(k, write)| finds_entry(
            log,
            sizes.ahead(held.first, k),
            write,
        ))
}

impl Machine<'_> {
    fn log(&mut self, sizes: &Sizes, lane: u64, writes: &[Write]) -> Answer {
        if writes.is_empty() {
            return Answer::NoWrites;
        }
        let count = writes.len() as u64;
        let first = self.state.lane(lane).next;
        self.append_entries(sizes, lane, writes);
        let stamp = self.append_stamp(sizes, lane, count);
        let page = self.state.lane(lane);
        self.state.set_lane(
            lane,
            Lane {
                held: Some(Held {
                    first,
                    count,
                    stamp,
                }),
                pairs: pairs_of(writes),
                ..page
            },
        );
        Answer::Logged { count, stamp }
    }

    // The lane is idle, and stays so.
    fn settle(&mut self, sizes: &Sizes, lane: u64) -> Answer {
        let stamp = self.append_stamp(sizes, lane, 0);
        Answer::Settled { stamp }
    }

    fn mark(&mut self, sizes: &Sizes, lane: u64) -> Answer {
        let dropped = self.state.lane(lane).held.is_some();
        self.state.set_held(lane, None);
        let stamp = self.append_stamp(sizes, lane, 0);
        Answer::Marked { dropped, stamp }
    }

    // Writes pairs to the data words.
    pub(crate) fn write_pairs(&mut self, lane: u64, pairs: &[Pair], count: u64) {
        for pair in pairs.iter().take(count as usize) {
            self.store(pair.word.wrapping_add(1), pair.value, lane);
        }
    }

    // Gives the logged sequence a new timestamp.
    fn restamp(&mut self, sizes: &Sizes, lane: u64, held: &Held, stamp: u64) {
        let at = sizes.place(lane, sizes.ahead(held.first, held.count));
        let value = stamp_value(stamp, word_at(self.cache, at) % 2);
        self.store(at.wrapping_add(1), value, lane);
    }

    // Commits what a lane holds by writing these pairs.
    fn commit(&mut self, sizes: &Sizes, lane: u64, held: &Held, pairs: &[Pair]) -> Answer {
        self.write_pairs(lane, pairs, held.count);
        let stamp = self.state.tick();
        self.restamp(sizes, lane, held, stamp);
        self.state.last = stamp;
        self.state.set_held(lane, None);
        Answer::Committed { stamp }
    }

    fn redo(&mut self, sizes: &Sizes, lane: u64, held: &Held) -> Answer {
        if held.stamp < self.state.last {
            return Answer::Stale;
        }
        let pairs = self.state.lane(lane).pairs;
        self.commit(sizes, lane, held, &pairs)
    }

    fn validate(&mut self, sizes: &Sizes, log: &Log, held: &Held, writes: &[Write]) -> Answer {
        let lane = log.lane;
        if matches_entries(sizes, log, held, writes) {
            return self.commit(sizes, lane, held, &pairs_of(writes));
        }
        self.state.set_held(lane, None);
        Answer::Changed
    }

    // What a step that is not refused does behind its drain.
    fn act(&mut self, sizes: &Sizes, step: Step, log: &Log, writes: &[Write]) -> Answer {
        let lane = log.lane;
        let held = self.state.lane(lane).held.unwrap_or_default();
        match step {
            Step::Log => self.log(sizes, lane, writes),
            Step::Settle => self.settle(sizes, lane),
            Step::Redo => self.redo(sizes, lane, &held),
            Step::Validate => self.validate(sizes, log, &held, writes),
            Step::Mark => self.mark(sizes, lane),
            Step::Drain => Answer::Done,
            Step::Lock => self.lock(lane, writes),
            Step::Continue => self.proceed(sizes),
        }
    }

    // Causes 8, 15 and 9, where a drain leaves this floor. Of the calls that append, Mark has no cause 15; Continue has
    // none of these.
    fn append_causes(
        &self,
        given: &Given,
        step: Step,
        sequences: &[Sequence],
        floor: Option<u64>,
        writes: &[Write],
    ) -> Result<(), Refusal> {
        let sizes = &given.sizes;
        let lane = given.number;
        let bound = self.state.least_floor(sizes, lane, floor);
        let append = step.appends(writes);
        let next = self.state.lane(lane).next;
        let hits = overwrites(sizes, sequences, next, step.slots(given, writes), bound);
        unless(&[
            Refusal::Overwrites.when(append && hits),
            Refusal::Lags.when(append && step != Step::Mark && self.state.lags(bound)),
            Refusal::Spent.when((append || step.commits()) && MAX_STAMP <= self.state.clock),
        ])
    }

    // A step whose causes are down to 8, 15 and 9.
    fn append_or(
        &mut self,
        given: &Given,
        step: Step,
        instructions: &[Instruction],
    ) -> Result<Answer, Refusal> {
        let sizes = &given.sizes;
        let lane = given.number;
        let log = Log::read(sizes, self.cache, lane);
        let sequences = log.sequences(word_at(self.cache, 0));
        let sequences = sequences.as_slice();
        let writes = run(self.cache, instructions);
        let writes = writes.as_slice();
        let floor = floor_after(self.state.lane(lane).floor, sequences);
        self.append_causes(given, step, sequences, floor, writes)?;
        self.state.set_floor(lane, floor);
        self.drain(lane);
        Ok(self.act(sizes, step, &log, writes))
    }

    // Log, Redo, Validate, Mark, Drain, Lock and Continue: causes 2 and 3, then 5 to 7, 11 and 12.
    pub(crate) fn step(&mut self, given: &Given) -> Result<Answer, Refusal> {
        let step = Step::of(given);
        let lane = given.number;
        unless(&[
            Refusal::NoLane.when(given.sizes.lanes <= lane),
            Refusal::BadRecord.when(!self.state.in_range(&given.sizes)),
        ])?;
        let page = self.state.lane(lane);
        let instructions = transaction(given, step);
        unless(&[
            Refusal::TooLong.when(step == Step::Lock && is_too_long(given)),
            Refusal::Locked.when(step.is_kept_out(self.state, lane)),
            Refusal::HoldsNone.when(step.wants_other(self.state, &page)),
            Refusal::Holds.when(step.wants_idle() && page.held.is_some()),
            Refusal::BadTransaction.when(instructions.is_none()),
        ])?;
        match instructions {
            Some(instructions) => self.append_or(given, step, instructions.as_slice()),
            None => Err(Refusal::BadTransaction),
        }
    }
}
