// Transactions of no words: a Log of one settles its lane. It drains the lane, appends a mark and answers count 0 with
// the mark's timestamp. It is refused as a Log is, but not with 5, and otherwise does what a Mark does on a lane that
// holds nothing.
use crate::overwriting::{self, Case};
use crate::setup::{self, Trial};
use crate::{causes, idle, scenario};
use bench::buffers::Buffers;
use bench::print;
use bench::session::Session;
use second::records::{Pair, Record};
use second::words::MIN_SLOTS;
use second::{Answer, Call, Refusal};
use std::io::Result;

// ---- how many words
fn say(rt: &impl Print, session: &Session, used: u64) -> Result<()> {
    print::called(rt, session)?;
    if used != 0 {
        print!(rt; ", words {used}")?;
    }
    print!(rt; ": ")?;
    print::floors(rt, session)
}

// Words of a SET, of which four are an instruction.
fn words_of(rt: &impl Print, session: &mut Session, call: Call, used: u64) -> Result<()> {
    setup::start_for(session, call, 0);
    setup::probe(session, call, 0, used);
    let is_taken = used == 4 || (used == 0 && call == Call::Log);
    setup::expect(session, (!is_taken).then_some(Refusal::BadTransaction));
    say(rt, session, used)
}

// 5 comes before 7.
fn validate_idle(rt: &impl Print, session: &mut Session) -> Result<()> {
    setup::start_for(session, Call::Log, 0);
    setup::probe(session, Call::Validate, 0, 0);
    setup::expect(session, Some(Refusal::BadTransaction));
    print::row(rt, "Validate of no words, nothing held", session)
}

// Log and Validate of 0 to 4 words, and Validate of none on a lane that holds nothing.
pub(crate) fn words(rt: &impl Print, session: &mut Session) -> Result<()> {
    for call in [Call::Log, Call::Validate] {
        for used in 0..5 {
            words_of(rt, session, call, used)?;
        }
    }
    validate_idle(rt, session)
}

// ---- the order of its refusals
// All of its causes, then each time without the first one.
pub(crate) fn order(rt: &impl Print, session: &mut Session) -> Result<()> {
    causes::in_order(rt, session, "no words", Trial::Settle, &causes::SETTLE)?;
    causes::refused(rt, session, "no words", Trial::Settle, &[])
}

// ---- at each slot
// A pair is left from a transaction before.
fn set_slot(session: &mut Session, case: Case) {
    case.set(session);
    session.state.lanes[0].pairs[0] = Pair { word: 1, value: 7 };
}

// The timestamp of the mark that was appended.
fn appended(session: &Session) -> Option<u64> {
    match session.stored.outcome {
        Ok(Answer::Settled { stamp }) | Ok(Answer::Marked { stamp, .. }) => Some(stamp),
        _ => None,
    }
}

// A call that appends a mark at that slot, timestamp 22, or is refused with 9.
fn append(session: &mut Session, call: Call, case: Case) {
    let is_hit = case.is_hit(1);
    set_slot(session, case);
    setup::probe(session, call, 0, 0);
    setup::expect(session, is_hit.then_some(Refusal::Overwrites));
    session.expect(appended(session) == (!is_hit).then_some(22));
}

// Did the store leave this record, and these buffers?
fn has_left(session: &Session, state: &Record, buffers: &Buffers) -> bool {
    session.stored.state == *state && session.stored.buffers == *buffers
}

// Both sides of the ends of both sequences, which have slots 10 to 26, and 33 and 0.
const ENDS: [u64; 8] = [0, 1, 9, 10, 26, 27, 32, 33];

// The same is left as by a Mark. The ends are printed, where the other lane's floor is 2 and the newer sequence is no
// mark.
fn at_slot(rt: &impl Print, session: &mut Session, case: Case) -> Result<()> {
    append(session, Call::Log, case);
    if !case.is_marked && case.other == Some(2) && ENDS.contains(&case.next) {
        print!(rt; "no words, next slot {}: ", case.next)?;
        print::floors(rt, session)?;
    }
    let state = session.stored.state;
    let buffers = session.stored.buffers;
    append(session, Call::Mark, case);
    let is_same = has_left(session, &state, &buffers);
    session.expect(is_same);
    Ok(())
}

// Lane 0's newer sequence is one that closes an entry, or a mark; then the floors of the other lane.
pub(crate) fn slots(rt: &impl Print, session: &mut Session) -> Result<()> {
    for is_marked in [false, true] {
        for other in overwriting::ALL_OTHERS {
            for next in 0..MIN_SLOTS {
                at_slot(
                    rt,
                    session,
                    Case {
                        next,
                        own: Some(2),
                        other,
                        is_marked,
                    },
                )?;
            }
        }
    }
    Ok(())
}

// ---- lists of calls
fn settle(rt: &impl Print, session: &mut Session, lane: u64) -> Result<()> {
    session.call(Call::Log, lane, 0);
    idle::say(rt, session, lane)
}

// A lane that holds a transaction: nothing is altered.
fn settle_held(rt: &impl Print, session: &mut Session, lane: u64) -> Result<()> {
    let state = session.state;
    let buffers = session.buffers;
    settle(rt, session, lane)?;
    setup::expect(session, Some(Refusal::Holds));
    let is_same = has_left(session, &state, &buffers);
    session.expect(is_same);
    Ok(())
}

// A Log that writes nothing answers count 0 too, without a timestamp.
fn log_nothing(rt: &impl Print, session: &mut Session, lane: u64) -> Result<()> {
    setup::put_skip(session);
    session.call(Call::Log, lane, 8);
    idle::say(rt, session, lane)
}

// A fresh lane, one that is settled, one that holds a transaction, one that has committed.
pub(crate) fn list(rt: &impl Print, session: &mut Session) -> Result<()> {
    scenario::format(session);
    settle(rt, session, 0)?;
    settle(rt, session, 0)?;
    idle::run(rt, session, &[(Call::Log, 0)])?;
    settle_held(rt, session, 0)?;
    idle::run(rt, session, &[(Call::Redo, 0)])?;
    settle(rt, session, 0)?;
    log_nothing(rt, session, 0)?;
    settle(rt, session, 1)?;
    idle::run(rt, session, &[(Call::Drain, 0), (Call::Drain, 1)])?;
    idle::recover(rt, session, "recovery")
}

// Lane 1's floor protects all that lane 0 has in its log, where one slot is free.
fn fill_but_one(rt: &impl Print, session: &mut Session) -> Result<()> {
    scenario::format(session);
    idle::run(
        rt,
        session,
        &[(Call::Log, 1), (Call::Redo, 1), (Call::Drain, 1)],
    )?;
    idle::fill(session, 16);
    settle(rt, session, 0)?;
    idle::run(rt, session, &[(Call::Log, 0)])?;
    settle(rt, session, 0)?;
    settle(rt, session, 0)?;
    idle::run(rt, session, &[(Call::Mark, 0)])
}

// Lane 1 is settled, and once it is drained lane 0 overwrites its oldest sequence.
pub(crate) fn one_slot(rt: &impl Print, session: &mut Session) -> Result<()> {
    fill_but_one(rt, session)?;
    settle(rt, session, 1)?;
    settle(rt, session, 0)?;
    idle::run(rt, session, &[(Call::Drain, 1)])?;
    settle(rt, session, 0)?;
    scenario::write_all_back(session);
    idle::recover(rt, session, "recovery")
}

// ---- power failures
// Lane 0 has committed at 4, and is settled: the mark, timestamp 6, is in slot 2 of its log, which is words 7 and 8.
fn settled(session: &mut Session) {
    scenario::format(session);
    idle::commit(session, 0);
    session.call(Call::Log, 0, 0);
}

// One more call then, on a lane or a word. How much of the mark is in non-volatile memory: first none of it, since the
// word written back is the base timestamp.
const PARTS: [(Call, u64, &str); 3] = [
    (Call::WriteBack, 0, "settled, not drained"),
    (Call::WriteBack, 7, "settled, its mark's address word"),
    (Call::WriteBack, 8, "settled, its mark's value word"),
];

// Once the lane is drained, its commit stays, unless the other lane's holds it back.
const DRAINS: [(Call, u64, &str); 3] = [
    (Call::Drain, 0, "settled, drained"),
    (Call::Log, 0, "settled, drained by a Log"),
    (Call::Drain, 1, "settled, the other lane drained"),
];

fn settled_then(rt: &impl Print, session: &mut Session, calls: &[(Call, u64, &str)]) -> Result<()> {
    for (call, number, what) in calls {
        settled(session);
        idle::call(session, *call, *number);
        idle::recover(rt, session, what)?;
    }
    Ok(())
}

fn written_back(rt: &impl Print, session: &mut Session) -> Result<()> {
    settled(session);
    scenario::write_back(session, 7, 9);
    idle::recover(rt, session, "settled, its mark written back")
}

fn drain_both(rt: &impl Print, session: &mut Session, what: &str) -> Result<()> {
    session.call(Call::Drain, 0, 0);
    session.call(Call::Drain, 1, 0);
    idle::recover(rt, session, what)
}

// The other lane committed before.
fn behind(rt: &impl Print, session: &mut Session) -> Result<()> {
    scenario::format(session);
    idle::commit(session, 1);
    idle::commit(session, 0);
    session.call(Call::Log, 0, 0);
    drain_both(rt, session, "settled, another lane's commit before")
}

// It commits afterwards.
fn ahead(rt: &impl Print, session: &mut Session) -> Result<()> {
    settled(session);
    idle::commit(session, 1);
    drain_both(rt, session, "settled, another lane's commit after")
}

fn unsettled(rt: &impl Print, session: &mut Session) -> Result<()> {
    scenario::format(session);
    idle::commit(session, 0);
    idle::commit(session, 1);
    drain_both(rt, session, "not settled, another lane's commit after")
}

pub(crate) fn cut(rt: &impl Print, session: &mut Session) -> Result<()> {
    settled_then(rt, session, &PARTS)?;
    written_back(rt, session)?;
    settled_then(rt, session, &DRAINS)?;
    behind(rt, session)?;
    ahead(rt, session)?;
    unsettled(rt, session)
}
