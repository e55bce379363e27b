// Refusal 9 at each slot: a Mark, Logs and a Lock over two sequences of lane 0, of which the newer one closes an entry
// or is a mark.
use crate::setup::{self, Instruction, Slot};
use bench::print;
use bench::session::Session;
use second::words::MIN_SLOTS;
use second::{Call, Refusal};
use std::io::Result;

// Would a call write slot `slot`, where it appends `count` from `next` on?
fn writes_slot(next: u64, count: u64, slot: u64) -> bool {
    let distance = slot.wrapping_add(MIN_SLOTS).wrapping_sub(next) % MIN_SLOTS;
    distance < count
}

fn writes_older(next: u64, count: u64) -> bool {
    writes_slot(next, count, 10) || (10 <= next && next <= 26)
}

// Does a floor, if there is one, protect a sequence with this timestamp?
fn protects(floor: Option<u64>, stamp: u64) -> bool {
    floor.is_some_and(|floor| floor <= stamp)
}

// Lane 0's next slot, its floor and the other lane's, and whether its newer sequence is a mark.
#[derive(Clone, Copy, Debug)]
pub(crate) struct Case {
    pub next: u64,
    pub own: Option<u64>,
    pub other: Option<u64>,
    pub is_marked: bool,
}

impl Case {
    // Lane 0's log has a sequence of sixteen entries, the longest, at slots 10 to 25 with timestamp 4 at slot 26, and
    // one of an entry at slot 33 and timestamp 10 at slot 0, over the wrap. A mark closes no entry: that one is then no
    // part of the sequence.
    fn put_sequences(&self, session: &mut Session) {
        for at in 10..26 {
            setup::put_slot(
                session,
                0,
                at,
                Slot::Entry {
                    word: 1,
                    old: 5,
                    wrap: 0,
                },
            );
        }
        setup::put_slot(
            session,
            0,
            26,
            Slot::Stamp {
                stamp: 4,
                count: 16,
                wrap: 0,
            },
        );
        setup::put_slot(
            session,
            0,
            33,
            Slot::Entry {
                word: 1,
                old: 5,
                wrap: 1,
            },
        );
        let count = if self.is_marked { 0 } else { 1 };
        setup::put_slot(
            session,
            0,
            0,
            Slot::Stamp {
                stamp: 10,
                count,
                wrap: 0,
            },
        );
    }

    // The clock is 20, and the transaction has three SETs.
    pub(crate) fn set(&self, session: &mut Session) {
        setup::start(session);
        setup::put(session, 1, Instruction::Set { word: 1, value: 3 });
        setup::put(session, 2, Instruction::Set { word: 0, value: 4 });
        session.state.clock = 20;
        session.state.last = 20;
        session.state.set_log(0, self.next, 1, self.own);
        session.state.set_log(1, 0, 1, self.other);
        self.put_sequences(session);
    }

    // Would so many slots hit a sequence that is protected? The newer one always is, by the lane's own floor after its
    // drain, which is 10, unless it is a mark: that ends the lane's own floor. Then, and for the older one, only the
    // other lane's floor protects, a sequence that is not below it. What lane 0's record says of its floor does not
    // matter.
    pub(crate) fn is_hit(&self, count: u64) -> bool {
        let next = self.next;
        let older = writes_older(next, count) && protects(self.other, 4);
        let newer = if self.is_marked {
            writes_slot(next, count, 0) && protects(self.other, 10)
        } else {
            writes_slot(next, count, 33) || writes_slot(next, count, 0)
        };
        older || newer
    }
}

// A Mark, or a Log of `writes` SETs. Is it refused with 9 just where it is expected to be?
fn append(session: &mut Session, case: Case, writes: u64) {
    let call = if writes == 0 { Call::Mark } else { Call::Log };
    case.set(session);
    setup::probe(session, call, 0, writes << 2);
    setup::expect_just(
        session,
        Refusal::Overwrites,
        case.is_hit(writes.wrapping_add(1)),
    );
}

// None, below, at, and above the older sequence's timestamp.
const OTHERS: [Option<u64>; 4] = [None, Some(2), Some(4), Some(6)];

// Then one above both.
pub(crate) const ALL_OTHERS: [Option<u64>; 5] = [None, Some(2), Some(4), Some(6), Some(12)];

// How many writes, and the lane's own floor: a Mark with and without a floor of its own, a Log of one write and one of
// three.
const APPENDS: [(u64, Option<u64>); 4] = [(0, None), (0, Some(2)), (1, Some(2)), (3, None)];

// The other lane's floor in four ways, each slot, and four appends.
pub(crate) fn cases(session: &mut Session) {
    for other in OTHERS {
        for next in 0..MIN_SLOTS {
            for (writes, own) in APPENDS {
                append(
                    session,
                    Case {
                        next,
                        own,
                        other,
                        is_marked: false,
                    },
                    writes,
                );
            }
        }
    }
}

// A Lock counts its slots by the instructions: of these three a SKIP passes over one, and one writes, but they count as
// four slots.
fn lock(session: &mut Session, case: Case) {
    case.set(session);
    setup::put_skip(session);
    setup::probe(session, Call::Lock, 0, 12);
    setup::expect(session, case.is_hit(4).then_some(Refusal::Overwrites));
}

pub(crate) fn locking(session: &mut Session) {
    for other in OTHERS {
        for next in 0..MIN_SLOTS {
            lock(
                session,
                Case {
                    next,
                    own: Some(2),
                    other,
                    is_marked: false,
                },
            );
        }
    }
}

// Four appends, where the newer sequence is a mark. The Marks over that mark are printed.
fn over_mark(rt: &impl Print, session: &mut Session, next: u64, other: Option<u64>) -> Result<()> {
    for (writes, own) in APPENDS {
        append(
            session,
            Case {
                next,
                own,
                other,
                is_marked: true,
            },
            writes,
        );
        if next == 0 && writes == 0 && own.is_some() {
            print!(rt; "Mark over a mark: ")?;
            print::floors(rt, session)?;
        }
    }
    Ok(())
}

// With a fifth floor.
pub(crate) fn marked(rt: &impl Print, session: &mut Session) -> Result<()> {
    for other in ALL_OTHERS {
        for next in 0..MIN_SLOTS {
            over_mark(rt, session, next, other)?;
        }
    }
    Ok(())
}
