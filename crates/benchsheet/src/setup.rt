// What the cases are made of: a small store of two lanes, a lane prepared for a call, the call, and the refusal that is
// expected of it.
use bench::buffers::{ROOM, START};
use bench::session::Session;
use second::image::Sizes;
use second::reading::{entry_address, entry_value, stamp_address, stamp_value};
use second::records::{Held, Lock, Pair, Record};
use second::words::{MAX_LAG, MIN_SLOTS, set_word};
use second::{Call, Refusal};

// The small store, and the words of its image: with its trailer, and without.
pub(crate) const SMALL: Sizes = Sizes {
    words: 2,
    lanes: 2,
    slots: MIN_SLOTS,
};

pub(crate) const LENGTH: u64 = 143;

pub(crate) const FORMER: u64 = 139;

// ---- calls
pub(crate) fn commits(call: Call) -> bool {
    matches!(call, Call::Redo | Call::Validate)
}

pub(crate) fn recovers(call: Call) -> bool {
    matches!(call, Call::Recover | Call::RecoverRead)
}

// A call as it is tried: Log as of one instruction and of none.
#[derive(Clone, Copy, PartialEq, Eq, Debug)]
pub(crate) enum Trial {
    Of(Call),
    // a Log of no words, which settles its lane
    Settle,
}

impl Trial {
    pub(crate) const ALL: [Trial; 12] = [
        Trial::Of(Call::Log),
        Trial::Of(Call::Redo),
        Trial::Of(Call::Validate),
        Trial::Of(Call::Mark),
        Trial::Of(Call::Drain),
        Trial::Of(Call::WriteBack),
        Trial::Of(Call::Recover),
        Trial::Of(Call::Format),
        Trial::Of(Call::RecoverRead),
        Trial::Of(Call::Lock),
        Trial::Of(Call::Continue),
        Trial::Settle,
    ];

    pub(crate) const ON_LANE: [Trial; 8] = [
        Trial::Of(Call::Log),
        Trial::Of(Call::Redo),
        Trial::Of(Call::Validate),
        Trial::Of(Call::Mark),
        Trial::Of(Call::Drain),
        Trial::Settle,
        Trial::Of(Call::Lock),
        Trial::Of(Call::Continue),
    ];

    pub(crate) fn call(self) -> Call {
        match self {
            Trial::Of(call) => call,
            Trial::Settle => Call::Log,
        }
    }

    // How many words it is given: a transaction of one instruction, none, or as many as Format wants.
    pub(crate) fn used(self, session: &Session) -> u64 {
        match self {
            Trial::Of(Call::Format) => session.sizes.words,
            Trial::Of(_) => 4,
            Trial::Settle => 0,
        }
    }

    // The call, on a lane, a word, or up to a limit.
    pub(crate) fn probe(self, session: &mut Session, number: u64) {
        let used = self.used(session);
        probe(session, self.call(), number, used);
    }

    // Lane 0, word 0, or no limit.
    pub(crate) fn probe_empty(self, session: &mut Session) {
        let number = if recovers(self.call()) { u64::MAX } else { 0 };
        self.probe(session, number);
    }
}

// A call. Non-volatile memory lags behind the cache by data word 0, which every lane has flushed.
pub(crate) fn probe(session: &mut Session, call: Call, number: u64, used: u64) {
    session.buffers.nvm = session.buffers.cache;
    session.buffers.nvm[1] = 9;
    session.buffers.flags[1] = 255;
    session.call(call, number, used);
}

// Counts a difference unless the call was refused so.
pub(crate) fn expect(session: &mut Session, refusal: Option<Refusal>) {
    let refused = session.refusal();
    session.expect(refused == refusal);
}

// Counts a difference unless it was refused so just where that is expected.
pub(crate) fn expect_just(session: &mut Session, refusal: Refusal, expected: bool) {
    let refused = session.refusal() == Some(refusal);
    session.expect(refused == expected);
}

// ---- transactions
#[derive(Clone, Copy, Debug)]
pub(crate) enum Instruction {
    Set { word: u64, value: u64 },
    Copy { word: u64, from: u64 },
    Add { word: u64, value: u64 },
    // the word whose number another word is becomes the value
    Poke { by: u64, value: u64 },
    // where the word is 0
    Skip { unless: u64, distance: u64 },
}

impl From<Instruction> for [u64; 4] {
    fn from(instruction: Instruction) -> [u64; 4] {
        match instruction {
            Instruction::Set { word, value } => [1, word, 0, value],
            Instruction::Copy { word, from } => [2, word, from, 0],
            Instruction::Add { word, value } => [3, word, word, value],
            Instruction::Poke { by, value } => [4, 0, by, value],
            Instruction::Skip { unless, distance } => [5, 0, unless, distance],
        }
    }
}

pub(crate) fn put(session: &mut Session, at: u64, instruction: Instruction) {
    session.set_instruction(at, instruction.into());
}

// The transaction that a start leaves, and that lanes hold.
pub(crate) const SET: Instruction = Instruction::Set { word: 0, value: 3 };

// Seventeen of them, one more than most calls take.
pub(crate) fn put_sets(session: &mut Session) {
    for at in 0..68 {
        put(session, at, SET);
    }
}

// A transaction that writes nothing: the SKIP passes over the SET.
pub(crate) fn put_skip(session: &mut Session) {
    put(
        session,
        0,
        Instruction::Skip {
            unless: 1,
            distance: 1,
        },
    );
    put(session, 1, SET);
}

// ---- stores
// An empty store of these sizes with the greatest lag limit, and a transaction that sets word 0 to 3.
pub(crate) fn start_with(session: &mut Session, sizes: Sizes) {
    session.sizes = sizes;
    session.fit();
    session.buffers.cache = [0; ROOM];
    session.buffers.flags = [0; ROOM];
    session.words = [0; START];
    sizes.put_trailer(&mut session.buffers.cache);
    session.lag = MAX_LAG;
    session.state = Record::start(MAX_LAG, 0);
    put(session, 0, SET);
}

// A new store of the small sizes.
pub(crate) fn start(session: &mut Session) {
    start_with(session, SMALL);
}

// The same of two lanes of so many slots.
pub(crate) fn with_slots(slots: u64) -> Sizes {
    Sizes {
        words: 2,
        lanes: 2,
        slots,
    }
}

// Recovery by given sizes wants an image without a trailer.
pub(crate) fn fit_for(session: &mut Session, call: Call) {
    if call == Call::Recover {
        session.fit_former();
    }
}

// All three buffers.
pub(crate) fn set_length(session: &mut Session, length: u64) {
    session.set_lengths(length, length, length);
}

// ---- lanes
// What a slot holds.
#[derive(Clone, Copy, Debug)]
pub(crate) enum Slot {
    Entry { word: u64, old: u64, wrap: u64 },
    // over so many entries
    Stamp { stamp: u64, count: u64, wrap: u64 },
}

impl From<Slot> for (u64, u64) {
    fn from(slot: Slot) -> (u64, u64) {
        match slot {
            Slot::Entry { word, old, wrap } => {
                (entry_address(word, old, wrap), entry_value(old, wrap))
            }
            Slot::Stamp { stamp, count, wrap } => {
                (stamp_address(count, wrap), stamp_value(stamp, wrap))
            }
        }
    }
}

// Puts it into the cached log.
pub(crate) fn put_slot(session: &mut Session, lane: u64, at: u64, slot: Slot) {
    let place = session.sizes.place(lane, at);
    let (address, value) = slot.into();
    set_word(&mut session.buffers.cache, place, address);
    set_word(&mut session.buffers.cache, place.wrapping_add(1), value);
}

// That transaction, as it is logged.
pub(crate) const HELD: Held = Held {
    first: 0,
    count: 1,
    stamp: 2,
};

pub(crate) const WRITE: Pair = Pair { word: 0, value: 3 };

// The clock is 8, and in a lane's log there is one sequence, with wrap bit 1: an entry of word 0 with old value 0, and
// timestamp 2. The transaction set word 0 to 3, and is logged where `is_held` is set.
pub(crate) fn prepare(session: &mut Session, lane: u64, is_held: bool) {
    put_slot(
        session,
        lane,
        0,
        Slot::Entry {
            word: 0,
            old: 0,
            wrap: 1,
        },
    );
    put_slot(
        session,
        lane,
        1,
        Slot::Stamp {
            stamp: 2,
            count: 1,
            wrap: 1,
        },
    );
    session.state.clock = 8;
    session.state.last = 0;
    session.state.set_log(lane, 2, 1, Some(2));
    if is_held {
        session.state.set_held(lane, Some(HELD));
        session.state.set_pair(lane, 0, WRITE);
    }
}

// The lock is held by a lane, with timestamp 8 and that transaction's one write, of which nothing is logged yet.
pub(crate) fn hold_lock(session: &mut Session, lane: u64) {
    session.state.lock = Some(Lock {
        lane,
        stamp: 8,
        count: 1,
        logged: 0,
        written: 0,
    });
    session.state.set_lock_pair(0, WRITE);
}

// A start with a lane prepared for a call. Where the lane is not in use, another one has the lock.
pub(crate) fn start_for(session: &mut Session, call: Call, lane: u64) {
    start(session);
    prepare(session, lane, commits(call));
    if call == Call::Continue {
        hold_lock(session, lane.min(1));
    }
}
