// POKE is withdrawn: a new transaction with one is refused with 5, and one that a lane still holds is committed by Redo
// or dropped by a Mark.
use crate::setup::{self, Instruction, SET};
use bench::print;
use bench::session::Session;
use second::{Answer, Call, Refusal};
use std::io::Result;

// The word whose number is word 1 modulo W becomes 3: word 1 is 4, so it is word 0.
const POKE: Instruction = Instruction::Poke { by: 1, value: 3 };

// Lane 0 as a Log of that POKE left it under the former rule, or idle; and the POKE as instruction `at`.
fn start(session: &mut Session, is_held: bool, at: u64) {
    setup::start(session);
    setup::prepare(session, 0, is_held);
    session.buffers.cache[2] = 4;
    setup::put(session, at, POKE);
}

// A call on lane 0, and the line about it.
fn probe(
    rt: &impl Print,
    session: &mut Session,
    call: Call,
    used: u64,
    refusal: Option<Refusal>,
    what: &str,
) -> Result<()> {
    setup::probe(session, call, 0, used);
    setup::expect(session, refusal);
    print::row(rt, what, session)
}

// One is refused: 5.
fn refused(
    rt: &impl Print,
    session: &mut Session,
    call: Call,
    used: u64,
    what: &str,
) -> Result<()> {
    probe(rt, session, call, used, Some(Refusal::BadTransaction), what)
}

// Alone, and behind the SET that a start leaves in the transaction.
fn log(rt: &impl Print, session: &mut Session) -> Result<()> {
    start(session, false, 0);
    refused(rt, session, Call::Log, 4, "Log, POKE")?;
    start(session, false, 1);
    refused(rt, session, Call::Log, 8, "Log, SET and POKE")
}

// Word 0 is 0, so the run would pass over it.
fn passed_over(rt: &impl Print, session: &mut Session, call: Call, what: &str) -> Result<()> {
    start(session, call == Call::Validate, 1);
    setup::put(
        session,
        0,
        Instruction::Skip {
            unless: 0,
            distance: 1,
        },
    );
    setup::put(session, 2, SET);
    refused(rt, session, call, 12, what)
}

fn validate(rt: &impl Print, session: &mut Session) -> Result<()> {
    start(session, true, 0);
    refused(
        rt,
        session,
        Call::Validate,
        4,
        "Validate, POKE that the lane holds",
    )
}

fn redo(rt: &impl Print, session: &mut Session) -> Result<()> {
    start(session, true, 0);
    probe(
        rt,
        session,
        Call::Redo,
        0,
        None,
        "Redo, POKE that the lane holds",
    )?;
    session.expect(session.stored.buffers.cache[1] == 3);
    Ok(())
}

// It says that it dropped one.
fn mark(rt: &impl Print, session: &mut Session) -> Result<()> {
    start(session, true, 0);
    probe(
        rt,
        session,
        Call::Mark,
        0,
        None,
        "Mark, POKE that the lane holds",
    )?;
    let is_dropped = matches!(
        session.stored.outcome,
        Ok(Answer::Marked { dropped: true, .. })
    );
    session.expect(is_dropped);
    session.call(Call::Redo, 0, 0);
    setup::expect(session, Some(Refusal::HoldsNone));
    print::row(rt, "Redo after that Mark", session)
}

pub(crate) fn cases(rt: &impl Print, session: &mut Session) -> Result<()> {
    log(rt, session)?;
    passed_over(rt, session, Call::Log, "Log, SKIP over POKE")?;
    passed_over(rt, session, Call::Validate, "Validate, SKIP over POKE")?;
    validate(rt, session)?;
    redo(rt, session)?;
    mark(rt, session)
}
