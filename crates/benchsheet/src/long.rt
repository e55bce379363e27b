// Long transactions, run whole and cut: the lock is taken, and each further call logs or writes a part of up to sixteen
// writes.
use crate::setup::{self, Instruction};
use crate::{idle, scenario};
use bench::print;
use bench::session::Session;
use second::words::MAX_LAG;
use second::{Answer, Call};
use std::io::Result;

// A new store of two words of 0 and two lanes of so many slots.
fn format(session: &mut Session, slots: u64) {
    scenario::format_with(session, setup::with_slots(slots), MAX_LAG);
}

// Even instructions add 1 to word 0, odd ones set word 1 to their number.
fn instruction_at(at: u64) -> Instruction {
    if at % 2 == 0 {
        return Instruction::Add { word: 0, value: 1 };
    }
    Instruction::Set { word: 1, value: at }
}

// Takes the lock for a transaction of `count` of them.
fn lock(session: &mut Session, lane: u64, count: u64) {
    for at in 0..count {
        setup::put(session, at, instruction_at(at));
    }
    session.call(Call::Lock, lane, count << 2);
}

// ---- whole
fn say_left(rt: &impl Print, session: &Session) -> Result<()> {
    match session.stored.outcome {
        Ok(Answer::Locked { left, .. }) => print!(rt; " {left}"),
        Ok(answer) => print!(rt; " {answer}"),
        Err(refusal) => print!(rt; ", then refused {refusal}"),
    }
}

// Further calls, up to one that is refused.
fn go_on(rt: &impl Print, session: &mut Session) -> Result<()> {
    for _ in 0..9u64 {
        if session.refusal().is_none() {
            session.call(Call::Continue, 0, 0);
            say_left(rt, session)?;
        }
    }
    Ok(())
}

// What is left: the data words, the last commit, and the lane's next slot and floor.
fn say_end(rt: &impl Print, session: &Session) -> Result<()> {
    let cache = &session.stored.buffers.cache;
    let state = &session.stored.state;
    print!(rt;
        "; words {} {}, last commit {}",
        cache[1], cache[2], state.last
    )?;
    print!(rt; ", next slot {}, floor", state.lanes[0].next)?;
    print::floor(rt, state.lanes[0].floor)?;
    println!(rt;)
}

// The writes not yet made, as each call answers them, and the end.
pub(crate) fn whole(rt: &impl Print, session: &mut Session) -> Result<()> {
    for count in [1, 16, 17, 32, 33, 64] {
        format(session, 85);
        lock(session, 0, count);
        print!(rt; "Lock of {count}:")?;
        say_left(rt, session)?;
        go_on(rt, session)?;
        say_end(rt, session)?;
    }
    Ok(())
}

// ---- a list of calls of two lanes
// While lane 0 has the lock.
const STAND_BY: [(Call, u64); 10] = [
    (Call::Log, 0),
    (Call::Redo, 1),
    (Call::Mark, 0),
    (Call::Drain, 0),
    (Call::Continue, 1),
    (Call::Continue, 0),
    (Call::Drain, 0),
    (Call::Continue, 0),
    (Call::Continue, 0),
    (Call::Drain, 1),
];

// Lane 0 has written the last part, and is marked later, so that it holds nothing back.
const GO_AHEAD: [(Call, u64); 9] = [
    (Call::Continue, 0),
    (Call::Continue, 0),
    (Call::Redo, 1),
    (Call::Validate, 1),
    (Call::Log, 1),
    (Call::Redo, 1),
    (Call::Mark, 0),
    (Call::Drain, 0),
    (Call::Drain, 1),
];

// Lane 1 holds a transaction meanwhile, which is stale then; what it wrote over is as it was.
pub(crate) fn list(rt: &impl Print, session: &mut Session) -> Result<()> {
    format(session, 60);
    idle::run(rt, session, &[(Call::Log, 1)])?;
    lock(session, 0, 17);
    idle::say(rt, session, 0)?;
    idle::run(rt, session, &STAND_BY)?;
    idle::run(rt, session, &GO_AHEAD)?;
    idle::recover(rt, session, "recovery")
}

// ---- cut in each of its steps
// Lane 0 has committed twenty times, and its next slot is 40 of 60: a transaction of 40 writes, that is logged in three
// parts, wraps in the second one. So many steps of it are made.
fn make_steps(session: &mut Session, count: u64) {
    format(session, 60);
    idle::fill(session, 20);
    lock(session, 0, 40);
    for _ in 0..count {
        session.call(Call::Continue, 0, 0);
    }
}

// What reaches non-volatile memory after the last step.
#[derive(Clone, Copy, Debug)]
enum Way {
    Nothing,
    All,
    // what the lane has flushed
    Drained,
    DataWords,
    Logs,
}

impl Way {
    const ALL: [Way; 5] = [
        Way::Nothing,
        Way::All,
        Way::Drained,
        Way::DataWords,
        Way::Logs,
    ];

    fn reach(self, session: &mut Session) {
        match self {
            Way::Nothing => {}
            Way::All => scenario::write_back(session, 0, 247),
            Way::Drained => session.call(Call::Drain, 0, 0),
            Way::DataWords => scenario::write_back(session, 1, 3),
            Way::Logs => scenario::write_back(session, 3, 243),
        }
    }

    fn name(self) -> &'static str {
        match self {
            Way::Nothing => "",
            Way::All => ", all written back",
            Way::Drained => ", drained",
            Way::DataWords => ", data words written back",
            Way::Logs => ", logs written back",
        }
    }
}

fn cut_after(rt: &impl Print, session: &mut Session, steps: u64, way: Way) -> Result<()> {
    make_steps(session, steps);
    way.reach(session);
    print!(rt; "40 writes, steps {steps}")?;
    idle::recover(rt, session, way.name())
}

// After all six, and a call that appends behind the last part.
fn cut_behind(rt: &impl Print, session: &mut Session, call: Call, way: Way) -> Result<()> {
    make_steps(session, 6);
    idle::call(session, call, 0);
    print!(rt; "40 writes, steps 6, ")?;
    print::called(rt, session)?;
    way.reach(session);
    idle::recover(rt, session, way.name())
}

// None of the 40 writes is left: word 0 is 20, or 19 without the last commit before; or all are, once something that is
// behind them is drained.
pub(crate) fn cut(rt: &impl Print, session: &mut Session) -> Result<()> {
    for steps in 0..7 {
        for way in Way::ALL {
            cut_after(rt, session, steps, way)?;
        }
    }
    for call in [Call::Mark, Call::Log] {
        cut_behind(rt, session, call, Way::Nothing)?;
        cut_behind(rt, session, call, Way::Drained)?;
    }
    Ok(())
}
