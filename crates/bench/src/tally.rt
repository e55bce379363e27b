// What the calls of a group answered, and how many of them differed.
ghost use Rattle.std.specs.Prelude.{◌≡◌};
ghost use Rattle.second.specs.inner.Words.{sum};

use second::{Answer, Outcome};

// How many calls there were, how many of them differed, how many had which answer, how many recoveries found torn slots,
// and how many calls had which refusal, by its number.
#[derive(Clone, Copy, PartialEq, Eq, Debug)]
pub struct Tally {
    pub calls: u64,
    pub differ: u64,
    pub done: u64,
    pub no_writes: u64,
    pub logged: u64,
    pub settled: u64,
    pub committed: u64,
    pub stale: u64,
    pub changed: u64,
    pub marked: u64,
    pub locked: u64,
    pub cut: u64,
    pub recovered: u64,
    // no boundary
    pub unbounded: u64,
    pub found_torn: u64,
    pub refused: [u64; 17],
}

fn add(count: &mut u64)
    ensures { count.new ≡ sum count.old 1 }
{
    *count = count.wrapping_add(1);
}

impl Tally {
    pub fn new() -> Tally
        ensures calls { result.calls ≡ 0 }
        ensures differ { result.differ ≡ 0 }
    {
        Tally {
            calls: 0,
            differ: 0,
            done: 0,
            no_writes: 0,
            logged: 0,
            settled: 0,
            committed: 0,
            stale: 0,
            changed: 0,
            marked: 0,
            locked: 0,
            cut: 0,
            recovered: 0,
            unbounded: 0,
            found_torn: 0,
            refused: [0; 17],
        }
    }

    pub(crate) fn differs(&mut self)
        ensures { self.new ≡ record self.old { differ = sum self.old.differ 1 } }
    {
        add(&mut self.differ);
    }

    fn answered(&mut self, answer: &Answer) {
        match answer {
            Answer::Done => add(&mut self.done),
            Answer::NoWrites => add(&mut self.no_writes),
            Answer::Logged { .. } => add(&mut self.logged),
            Answer::Settled { .. } => add(&mut self.settled),
            Answer::Committed { .. } => add(&mut self.committed),
            Answer::Stale => add(&mut self.stale),
            Answer::Changed => add(&mut self.changed),
            Answer::Marked { .. } => add(&mut self.marked),
            Answer::Locked { .. } => add(&mut self.locked),
            Answer::Cut => add(&mut self.cut),
            Answer::Recovered { boundary, torn, .. } => {
                if boundary.is_some() {
                    add(&mut self.recovered);
                } else {
                    add(&mut self.unbounded);
                }
                if *torn != 0 {
                    add(&mut self.found_torn);
                }
            }
        }
    }

    pub(crate) fn count(&mut self, outcome: &Outcome) {
        add(&mut self.calls);
        match outcome {
            Ok(answer) => self.answered(answer),
            Err(refusal) => {
                if let Some(count) = self.refused.get_mut(refusal.number() as usize) {
                    add(count);
                }
            }
        }
    }
}
