// Equal timestamps of one lane, as a long transaction leaves them: those whose wrap bit is not that of the highest slot
// are later than those that share it, and of either the higher slot is later. The later ones are undone first, and the
// latest is the one that gives the lane's boundary and floor.
use crate::scenario;
use crate::setup::{self, Slot};
use bench::print;
use bench::session::Session;
use second::{Answer, Call};
use std::fmt;
use std::io::Result;

// One of three sequences of timestamp 6: its wrap bit, and whether it is a mark. Else it has an entry of word 0, with
// this old value.
#[derive(Clone, Copy, PartialEq, Eq, Debug)]
struct Sequence {
    wrap: u64,
    is_mark: bool,
    old: u64,
}

// Their wrap bits, and the bits of those that are marks.
#[derive(Clone, Copy, PartialEq, Eq, Debug)]
struct Bits([u64; 3]);

impl From<u64> for Bits {
    fn from(mask: u64) -> Bits {
        Bits([mask % 2, mask / 2 % 2, mask / 4 % 2])
    }
}

impl fmt::Display for Bits {
    fn fmt<W: fmt::Write>(&self, f: &mut fmt::Formatter<W>) -> fmt::Result {
        let [first, second, third] = self.0;
        write!(f, "{first} {second} {third}")
    }
}

fn sequences(wraps: Bits, marks: Bits) -> [Sequence; 3] {
    let Bits([a, b, c]) = wraps;
    let Bits([is_a, is_b, is_c]) = marks;
    [
        Sequence {
            wrap: a,
            is_mark: is_a == 1,
            old: 10,
        },
        Sequence {
            wrap: b,
            is_mark: is_b == 1,
            old: 20,
        },
        Sequence {
            wrap: c,
            is_mark: is_c == 1,
            old: 30,
        },
    ]
}

// In the order in which they were appended. The third one has the highest slot.
fn in_order(sequences: [Sequence; 3]) -> [Sequence; 3] {
    let [a, b, c] = sequences;
    match (a.wrap == c.wrap, b.wrap == c.wrap) {
        (true, true) => [a, b, c],
        (false, false) => [c, a, b],
        (true, false) => [a, c, b],
        (false, true) => [b, c, a],
    }
}

// Each has two slots of lane 0's log, from slot 0 on.
fn put_sequence(session: &mut Session, at: u64, sequence: Sequence) {
    let Sequence { wrap, is_mark, old } = sequence;
    if !is_mark {
        setup::put_slot(session, 0, at, Slot::Entry { word: 0, old, wrap });
    }
    let count = if is_mark { 0 } else { 1 };
    setup::put_slot(
        session,
        0,
        at.wrapping_add(1),
        Slot::Stamp {
            stamp: 6,
            count,
            wrap,
        },
    );
}

fn start(session: &mut Session, sequences: [Sequence; 3]) {
    setup::start(session);
    session.buffers.cache[1] = 9;
    session.buffers.cache[2] = 9;
    for (at, sequence) in [0, 2, 4].into_iter().zip(sequences) {
        put_sequence(session, at, sequence);
    }
    session.state.clock = 8;
    session.state.last = 0;
    session.state.set_log(0, 6, 1, Some(2));
}

// A drain: the floor becomes 6, or ends.
fn drain(session: &mut Session, latest: Sequence) {
    setup::probe(session, Call::Drain, 0, 0);
    let floor = session.stored.state.lanes[0].floor;
    session.expect(floor == (!latest.is_mark).then_some(6));
}

// How many entries are undone, and what is in word 0 then.
fn expect_undone(session: &mut Session, wanted: u64, word: u64) {
    let is_wanted = match session.stored.outcome {
        Ok(Answer::Recovered { undone, .. }) => undone == wanted,
        _ => false,
    };
    session.expect(is_wanted);
    session.expect(session.stored.buffers.nvm[1] == word);
}

// A recovery: all is undone where the latest is no mark, and the earliest entry last.
fn recover(session: &mut Session, appended: [Sequence; 3]) {
    session.buffers.nvm = session.buffers.cache;
    scenario::recover(session, u64::MAX);
    let entries = appended.iter().filter(|sequence| !sequence.is_mark).count();
    match appended.iter().find(|sequence| !sequence.is_mark) {
        Some(earliest) if !appended[2].is_mark => {
            expect_undone(session, entries as u64, earliest.old);
        }
        _ => expect_undone(session, 0, 9),
    }
}

// Without a mark, and where the highest slot is one, it is printed.
fn case(rt: &impl Print, session: &mut Session, wraps: Bits, marks: Bits) -> Result<()> {
    let sequences = sequences(wraps, marks);
    let appended = in_order(sequences);
    start(session, sequences);
    drain(session, appended[2]);
    recover(session, appended);
    if marks == Bits([0, 0, 0]) || marks == Bits([0, 0, 1]) {
        print!(rt; "wrap bits {wraps}, marks {marks}: ")?;
        print::left(rt, session)?;
    }
    Ok(())
}

// All wrap bits, and marks among them.
pub(crate) fn cases(rt: &impl Print, session: &mut Session) -> Result<()> {
    for marks in 0..8 {
        for wraps in 0..8 {
            case(rt, session, Bits::from(wraps), Bits::from(marks))?;
        }
    }
    Ok(())
}
