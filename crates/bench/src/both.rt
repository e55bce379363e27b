// A call on the store and on the second implementation, from the same state, and the comparison of all that the two
// leave.
ghost use Rattle.std.specs.Prelude.{◌≡◌, IsTrue};
ghost use Rattle.std.specs.Result.{result_err};

use crate::buffers::{Buffers, first, first_mut};
use crate::convert;
use crate::session::{Lengths, Session};
use codec::STATE_WORDS;
use recovery::Restart;
use second::machine::{Given, Machine};
use second::records::Record;
use second::{Answer, Call, Outcome, Refusal};

// What a call on the store is lent.
#[derive(Drop)]
struct Lent<'a> {
    words: &'a mut [u64; STATE_WORDS],
    cache: &'a mut [u64],
    nvm: &'a mut [u64],
    flags: &'a mut [u8],
}

// What it answers, and the record that it leaves. A start that is refused or cut leaves none: then it is the one before.
#[derive(Clone, Copy)]
struct Taken {
    outcome: Outcome,
    state: Record,
}

// The same with the refusal that was asked for beforehand. The buffers are no part of it: they are 87 KB, and stay where
// they are lent.
#[derive(Clone, Copy)]
struct Stored {
    taken: Taken,
    asked: Option<Refusal>,
}

fn refused(refusal: store::Refusal, before: &Record) -> Taken {
    Taken {
        outcome: Err(convert::refusal(refusal)),
        state: *before,
    }
}

fn formatted(start: Result<record::Record, store::Refusal>, before: &Record) -> Taken {
    match start {
        Ok(state) => Taken {
            outcome: Ok(Answer::Done),
            state: convert::start_from(state),
        },
        Err(refusal) => refused(refusal, before),
    }
}

fn restarted(restart: Result<Option<Restart>, store::Refusal>, before: &Record) -> Taken {
    match restart {
        Ok(Some(restart)) => Taken {
            outcome: Ok(convert::finished(restart.finished)),
            state: convert::start_from(restart.state),
        },
        Ok(None) => Taken {
            outcome: Ok(Answer::Cut),
            state: *before,
        },
        Err(refusal) => refused(refusal, before),
    }
}

impl Lent<'_> {
    // What the store says beforehand.
    fn asked(&self, given: &Given) -> Result<(), store::Refusal> {
        let sizes = convert::sizes(&given.sizes);
        let number = given.number as usize;
        let txn = given.words;
        match given.call {
            Call::Log => append::log_refusal(
                sizes, self.words, self.cache, self.nvm, self.flags, number, txn,
            ),
            Call::Redo => commit::redo_refusal(
                sizes, self.words, self.cache, self.nvm, self.flags, number,
            ),
            Call::Validate => commit::validate_refusal(
                sizes, self.words, self.cache, self.nvm, self.flags, number, txn,
            ),
            Call::Mark => append::mark_refusal(
                sizes, self.words, self.cache, self.nvm, self.flags, number,
            ),
            Call::Drain => store::drain_refusal(
                sizes, self.words, self.cache, self.nvm, self.flags, number,
            ),
            Call::Lock => lock::begin_refusal(
                sizes, self.words, self.cache, self.nvm, self.flags, number, txn,
            ),
            Call::Continue => lock::proceed_refusal(
                sizes, self.words, self.cache, self.nvm, self.flags, number,
            ),
            Call::WriteBack => store::write_back_refusal(
                sizes, self.cache, self.nvm, self.flags, number,
            ),
            Call::Recover => restart::recover_refusal(
                sizes, given.lag, self.cache, self.nvm, self.flags,
            ),
            Call::RecoverRead => restart::recover_read_refusal(
                given.lag, self.cache, self.nvm, self.flags,
            ),
            Call::Format => store::format_refusal(
                sizes, given.lag, txn, self.cache, self.nvm, self.flags,
            ),
        }
    }

    // A call that takes the record, or leaves it as it is. What it leaves is read from the words, where it is refused too.
    fn step(self, given: &Given) -> Taken {
        let Lent {
            words,
            cache,
            nvm,
            flags,
        } = self;
        let sizes = convert::sizes(&given.sizes);
        let number = given.number as usize;
        let txn = given.words;
        let answer = match given.call {
            Call::Log => append::log(sizes, words, cache, nvm, flags, number, txn),
            Call::Redo => commit::redo(sizes, words, cache, nvm, flags, number),
            Call::Validate => commit::validate(sizes, words, cache, nvm, flags, number, txn),
            Call::Mark => append::mark(sizes, words, cache, nvm, flags, number),
            Call::Lock => lock::begin(sizes, words, cache, nvm, flags, number, txn),
            Call::Continue => lock::proceed(sizes, words, cache, nvm, flags, number),
            Call::WriteBack => store::write_back(sizes, cache, nvm, flags, number),
            _ => store::drain(sizes, words, cache, nvm, flags, number),
        };
        Taken {
            outcome: answer.map(convert::answer).map_err(convert::refusal),
            state: convert::record_in(words),
        }
    }

    fn format(self, given: &Given) -> Result<record::Record, store::Refusal> {
        let Lent {
            cache,
            nvm,
            flags,
            ..
        } = self;
        let sizes = convert::sizes(&given.sizes);
        store::format(sizes, given.lag, given.words, cache, nvm, flags)
    }

    fn recover(self, given: &Given) -> Result<Option<Restart>, store::Refusal> {
        let Lent {
            cache,
            nvm,
            flags,
            ..
        } = self;
        let sizes = convert::sizes(&given.sizes);
        let limit = given.number as usize;
        restart::recover(sizes, given.lag, cache, nvm, flags, limit)
    }

    // It is given no sizes.
    fn recover_read(self, given: &Given) -> Result<Option<Restart>, store::Refusal> {
        let Lent {
            cache,
            nvm,
            flags,
            ..
        } = self;
        let limit = given.number as usize;
        restart::recover_read(given.lag, cache, nvm, flags, limit)
    }
}

// A call on the store, with buffers of these lengths, from this record.
fn call_store(given: &Given, lengths: &Lengths, before: &Record, buffers: &mut Buffers) -> Stored {
    let mut words = convert::words_of(before);
    let lent = Lent {
        words: &mut words,
        cache: first_mut(&mut buffers.cache, lengths.cache),
        nvm: first_mut(&mut buffers.nvm, lengths.nvm),
        flags: first_mut(&mut buffers.flags, lengths.flags),
    };
    let asked = lent.asked(given);
    let taken = match given.call {
        Call::Format => formatted(lent.format(given), before),
        Call::Recover => restarted(lent.recover(given), before),
        Call::RecoverRead => restarted(lent.recover_read(given), before),
        _ => lent.step(given),
    };
    Stored {
        taken,
        asked: asked.err().map(convert::refusal),
    }
}

// A call on the second implementation, with buffers of these lengths.
fn call_second(
    given: &Given,
    lengths: &Lengths,
    state: &mut Record,
    buffers: &mut Buffers,
) -> Outcome {
    let mut machine = Machine {
        state,
        cache: first_mut(&mut buffers.cache, lengths.cache),
        nvm: first_mut(&mut buffers.nvm, lengths.nvm),
        flags: first_mut(&mut buffers.flags, lengths.flags),
    };
    machine.perform(given)
}

// Are the words that were lent the same?
fn same_lent(lengths: &Lengths, a: &Buffers, b: &Buffers) -> bool {
    first(&a.cache, lengths.cache) == first(&b.cache, lengths.cache)
        && first(&a.nvm, lengths.nvm) == first(&b.nvm, lengths.nvm)
        && first(&a.flags, lengths.flags) == first(&b.flags, lengths.flags)
}

// Is what the store left what the second implementation left: record, answer, refusal asked beforehand, and the
// buffers?
fn same_all(session: &Session, outcome: Outcome) -> bool
    ensures outcome { IsTrue result → session.now.stored.outcome ≡ outcome }
    ensures asked { IsTrue result → session.now.stored.asked ≡ result_err outcome }
{
    let stored = &session.stored;
    stored.outcome == outcome
        && stored.asked == outcome.err()
        && stored.state == session.state
        && same_lent(&session.lengths, &stored.buffers, &session.buffers)
}

// The call that the session was told, on both; does the store leave the same? What the second implementation leaves
// goes on.
pub(crate) fn run(session: &mut Session, number: u64) -> bool
    ensures { session.new.last ≡ session.old.last }
{
    let words = session.words;
    let lengths = session.lengths;
    let given = Given {
        call: session.last.call,
        sizes: session.sizes,
        lag: session.lag,
        number,
        words: first(&words, session.last.used),
    };
    let before = session.state;
    session.stored.buffers = session.buffers;
    let stored = call_store(&given, &lengths, &before, &mut session.stored.buffers);
    session.stored.outcome = stored.taken.outcome;
    session.stored.asked = stored.asked;
    session.stored.state = stored.taken.state;
    spoil(session);
    let outcome = call_second(&given, &lengths, &mut session.state, &mut session.buffers);
    same_all(session, outcome)
}

fn spoil(session: &mut Session)
    ensures { session.new.last ≡ session.old.last }
{
    if let Some(spoiled) = session.spoiled {
        spoiled.spoil(&mut session.stored);
    }
}
