// Logs made by hand, of up to two sequences.
use crate::setup::{self, Slot};
use bench::session::Session;
use std::fmt;
use std::io::Result;

// A sequence, with its timestamp.
#[derive(Clone, Copy, PartialEq, Eq, Debug)]
pub(crate) enum Sequence {
    // over one entry
    Whole(u64),
    // over none
    Mark(u64),
    // over two entries, of which there is one, so that it is not complete
    Part(u64),
}

impl Sequence {
    fn stamp(self) -> u64 {
        match self {
            Sequence::Whole(stamp) | Sequence::Mark(stamp) | Sequence::Part(stamp) => stamp,
        }
    }

    fn count(self) -> u64 {
        match self {
            Sequence::Mark(_) => 0,
            Sequence::Whole(_) => 1,
            Sequence::Part(_) => 2,
        }
    }

    // Puts it into slots `at` and `at` + 1 of the cached log. The entry has the word of the lane's own number, and the
    // timestamp as its old value; the wrap bits are 1.
    fn put(self, session: &mut Session, lane: u64, at: u64) {
        let stamp = self.stamp();
        let count = self.count();
        if count != 0 {
            setup::put_slot(
                session,
                lane,
                at,
                Slot::Entry {
                    word: lane,
                    old: stamp,
                    wrap: 1,
                },
            );
        }
        let slot = Slot::Stamp {
            stamp,
            count,
            wrap: 1,
        };
        setup::put_slot(session, lane, at.wrapping_add(1), slot);
    }
}

impl fmt::Display for Sequence {
    fn fmt<W: fmt::Write>(&self, f: &mut fmt::Formatter<W>) -> fmt::Result {
        write!(f, "{} over {}", self.stamp(), self.count())
    }
}

// In slots 10 to 13 of the cached log.
pub(crate) fn put_log(session: &mut Session, lane: u64, log: &[Sequence]) {
    for (at, sequence) in [10, 12].into_iter().zip(log) {
        sequence.put(session, lane, at);
    }
}

pub(crate) fn say(rt: &impl Print, log: &[Sequence]) -> Result<()> {
    match log {
        [] => print!(rt; "nothing"),
        [only] => print!(rt; "{only}"),
        [first, second, ..] => print!(rt; "{first}, {second}"),
    }
}
