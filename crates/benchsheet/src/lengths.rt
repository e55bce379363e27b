// Which lengths each call takes: an image with its trailer, one without, and neither where the three buffers are not
// alike.
use crate::setup::{self, FORMER, LENGTH, Trial};
use bench::print;
use bench::session::Session;
use second::{Call, Refusal};
use std::io::Result;

// Of all three buffers: with the trailer, without it, and a word beside either.
const ALIKE: [u64; 6] = [
    LENGTH,
    FORMER,
    FORMER - 1,
    FORMER + 1,
    LENGTH - 1,
    LENGTH + 1,
];

// Of cache, non-volatile memory and flags.
const MIXED: [[u64; 3]; 6] = [
    [FORMER, LENGTH, LENGTH],
    [LENGTH, FORMER, LENGTH],
    [FORMER, FORMER, LENGTH],
    [LENGTH, LENGTH, FORMER],
    [FORMER, LENGTH, FORMER],
    [LENGTH, FORMER, FORMER],
];

// What a call answers about the length of all three. Recovery without sizes knows no length but that of its
// non-volatile memory, and finds no trailer that agrees with it.
fn refusal(call: Call, length: u64) -> Option<Refusal> {
    match call {
        Call::Recover => (length != FORMER).then_some(Refusal::Lengths),
        Call::Format => (length != LENGTH).then_some(Refusal::Lengths),
        Call::RecoverRead => (length != LENGTH).then_some(Refusal::NoTrailer),
        _ => (length != LENGTH && length != FORMER).then_some(Refusal::Lengths),
    }
}

// A call with buffers of these lengths.
fn probe(session: &mut Session, trial: Trial, lengths: [u64; 3], refusal: Option<Refusal>) {
    let [cache, nvm, flags] = lengths;
    setup::start_for(session, trial.call(), 0);
    session.set_lengths(cache, nvm, flags);
    trial.probe_empty(session);
    setup::expect(session, refusal);
}

// Each call. Those with an image of its right length are printed, with a trailer or without.
fn alike(rt: &impl Print, session: &mut Session, length: u64) -> Result<()> {
    for trial in Trial::ALL {
        probe(session, trial, [length; 3], refusal(trial.call(), length));
        if length == LENGTH || length == FORMER {
            print::edge(rt, session, ", image of ", length)?;
        }
    }
    Ok(())
}

pub(crate) fn cases(rt: &impl Print, session: &mut Session) -> Result<()> {
    for length in ALIKE {
        alike(rt, session, length)?;
    }
    for lengths in MIXED {
        for trial in Trial::ALL {
            probe(session, trial, lengths, Some(Refusal::Lengths));
        }
    }
    Ok(())
}
