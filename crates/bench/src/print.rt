// Lines of output. The answers are the store's.
use crate::session::{Session, Tally};
use second::words::{TRAILER, word_at};
use second::{Call, Refusal};
use std::io::Result;

// An answer, or a refusal; then one that ends its line.
fn said(rt: &impl Print, session: &Session) -> Result<()> {
    match session.stored.outcome {
        Ok(answer) => print!(rt; "{answer}"),
        Err(refusal) => print!(rt; "refused {refusal}"),
    }
}

fn answered(rt: &impl Print, session: &Session) -> Result<()> {
    said(rt, session)?;
    println!(rt;)
}

// The call that was made.
pub fn called(rt: &impl Print, session: &Session) -> Result<()> {
    let call = session.last.call;
    let takes = matches!(call, Call::Log | Call::Validate | Call::Lock);
    if takes && session.last.used == 0 {
        return print!(rt; "{call} of no words");
    }
    print!(rt; "{call}")
}

// A floor, or none.
pub fn floor(rt: &impl Print, floor: Option<u64>) -> Result<()> {
    match floor {
        Some(floor) => print!(rt; " {floor}"),
        None => print!(rt; " none"),
    }
}

// An answer, and the floors that lanes 0 and 1 have then.
pub fn floors(rt: &impl Print, session: &Session) -> Result<()> {
    said(rt, session)?;
    print!(rt; ", floors")?;
    floor(rt, session.stored.state.lanes[0].floor)?;
    floor(rt, session.stored.state.lanes[1].floor)?;
    println!(rt;)
}

// An answer of recovery, and what it left: the base timestamp and data words 0 and 1.
pub fn left(rt: &impl Print, session: &Session) -> Result<()> {
    said(rt, session)?;
    let nvm = &session.stored.buffers.nvm;
    println!(rt; ", base {}, words {} {}", nvm[0], nvm[1], nvm[2])
}

// A call at an edge, and its answer.
pub fn edge(rt: &impl Print, session: &Session, what: &str, n: u64) -> Result<()> {
    called(rt, session)?;
    print!(rt; "{what}{n}: ")?;
    answered(rt, session)
}

// A Format with these sizes, and its answer.
pub fn sizes(rt: &impl Print, session: &Session) -> Result<()> {
    let sizes = session.sizes;
    print!(rt;
        "Format, W {}, T {}, N {}: ",
        sizes.words, sizes.lanes, sizes.slots
    )?;
    answered(rt, session)
}

// The trailer that a recovery found, and left, and its answer.
pub fn trailer(rt: &impl Print, session: &Session) -> Result<()> {
    let length = session.length();
    let start = length.wrapping_sub(TRAILER);
    print!(rt; "trailer")?;
    // Kept: a range, for the words may lie past the buffer's end, where word_at tells 0 and a slice would not be.
    for k in 0..TRAILER {
        let word = word_at(&session.stored.buffers.nvm, start.wrapping_add(k));
        print!(rt; " {word}")?;
    }
    print!(rt; ", image of {length}: ")?;
    answered(rt, session)
}

// Two numbers behind a name.
pub fn pair(rt: &impl Print, name: &str, a: u64, b: u64) -> Result<()> {
    println!(rt; "{name}{a} {b}")
}

// What was called, and its answer.
pub fn row(rt: &impl Print, name: &str, session: &Session) -> Result<()> {
    print!(rt; "{name}: ")?;
    answered(rt, session)
}

// A group's name, how many calls it made, and how many differed.
pub fn group(rt: &impl Print, name: &str, session: &Session) -> Result<()> {
    let calls = session.tally.calls;
    let differ = session.tally.differ;
    println!(rt; "{name}: {calls} calls, {differ} differ")
}

// How often there was each answer of steps.
fn step_kinds(rt: &impl Print, tally: &Tally) -> Result<()> {
    print!(rt;
        "  done {}, no writes {}, logged {}",
        tally.done, tally.no_writes, tally.logged
    )?;
    print!(rt;
        ", settled {}, committed {}",
        tally.settled, tally.committed
    )?;
    print!(rt; ", stale {}, changed {}", tally.stale, tally.changed)?;
    print!(rt; ", locked {}, marked {}", tally.locked, tally.marked)
}

// The same of recoveries.
fn recovery_kinds(rt: &impl Print, tally: &Tally) -> Result<()> {
    print!(rt; ", cut {}, recovered {}", tally.cut, tally.recovered)?;
    println!(rt;
        ", no boundary {}, torn found {}",
        tally.unbounded, tally.found_torn
    )
}

// How often there was each refusal.
fn refusals(rt: &impl Print, tally: &Tally) -> Result<()> {
    print!(rt; "  refused")?;
    for (number, count) in (0u64..).zip(tally.refused.iter()) {
        if Refusal::try_from(number).is_ok() {
            print!(rt; ", {number}: {count}")?;
        }
    }
    println!(rt;)
}

// What a group's calls answered.
pub fn kinds(rt: &impl Print, session: &Session) -> Result<()> {
    step_kinds(rt, &session.tally)?;
    recovery_kinds(rt, &session.tally)?;
    refusals(rt, &session.tally)
}
