// Both sides of the ends of each range, one call a case, on a small store of two lanes unless the case is about sizes.
// Where the specification gives the number of the refusal, it is expected too.
use crate::setup::{self, HELD, Trial};
use bench::print;
use bench::session::Session;
use second::image::Sizes;
use second::records::{Held, Lane, Record};
use second::words::{MAX_LANES, MAX_SLOTS, MAX_STAMP, MAX_WORDS, MIN_SLOTS};
use second::{Call, Refusal};
use std::io::Result;

// ---- sizes. W, T and N in range, and one of them out of it.
const IN_RANGE: [[u64; 3]; 7] = [
    [1, 1, MIN_SLOTS],
    [MAX_WORDS, 1, MIN_SLOTS],
    [1, MAX_LANES, MIN_SLOTS],
    [1, 1, MAX_SLOTS],
    [MAX_WORDS, MAX_LANES, MAX_SLOTS],
    [MAX_WORDS - 1, MAX_LANES - 1, MAX_SLOTS - 1],
    [2, 2, MIN_SLOTS + 1],
];

const OUT_OF_RANGE: [[u64; 3]; 9] = [
    [0, 1, MIN_SLOTS],
    [MAX_WORDS + 1, 1, MIN_SLOTS],
    [1, 0, MIN_SLOTS],
    [1, MAX_LANES + 1, MIN_SLOTS],
    [1, 1, MIN_SLOTS - 1],
    [1, 1, MAX_SLOTS + 1],
    [u64::MAX, 1, MIN_SLOTS],
    [1, u64::MAX, MIN_SLOTS],
    [1, 1, u64::MAX],
];

// The refusal for sizes out of range: recovery without sizes finds them in the trailer.
fn size_refusal(call: Call) -> Refusal {
    if call == Call::RecoverRead {
        return Refusal::NoTrailer;
    }
    Refusal::Lengths
}

// Sizes with each call. The Formats are printed.
fn with_sizes(
    rt: &impl Print,
    session: &mut Session,
    sizes: [u64; 3],
    is_in_range: bool,
) -> Result<()> {
    let [words, lanes, slots] = sizes;
    for trial in Trial::ALL {
        let call = trial.call();
        setup::start_with(
            session,
            Sizes {
                words,
                lanes,
                slots,
            },
        );
        setup::fit_for(session, call);
        trial.probe_empty(session);
        setup::expect_just(session, size_refusal(call), !is_in_range);
        if call == Call::Format {
            print::sizes(rt, session)?;
        }
    }
    Ok(())
}

pub(crate) fn sizes(rt: &impl Print, session: &mut Session) -> Result<()> {
    for sizes in IN_RANGE {
        with_sizes(rt, session, sizes, true)?;
    }
    for sizes in OUT_OF_RANGE {
        with_sizes(rt, session, sizes, false)?;
    }
    Ok(())
}

// ---- buffers. One of them is a word too short or too long; with each call. Then Format with 1, 2 and 3 start words.
#[derive(Clone, Copy)]
enum Buffer {
    Cache,
    Nvm,
    Flags,
}

impl Buffer {
    const ALL: [Buffer; 3] = [Buffer::Cache, Buffer::Nvm, Buffer::Flags];

    fn set_length(self, session: &mut Session, length: u64) {
        match self {
            Buffer::Cache => session.lengths.cache = length,
            Buffer::Nvm => session.lengths.nvm = length,
            Buffer::Flags => session.lengths.flags = length,
        }
    }
}

// A buffer that is too short, and too long, with each call.
fn wrong_length(session: &mut Session, buffer: Buffer, is_long: bool) {
    for trial in Trial::ALL {
        setup::start(session);
        setup::fit_for(session, trial.call());
        let all = session.length();
        let wrong = if is_long {
            all.wrapping_add(1)
        } else {
            all.wrapping_sub(1)
        };
        buffer.set_length(session, wrong);
        trial.probe_empty(session);
        setup::expect(session, Some(Refusal::Lengths));
    }
}

fn start_words(session: &mut Session, used: u64) {
    setup::start(session);
    setup::probe(session, Call::Format, 0, used);
    setup::expect(session, (used != 2).then_some(Refusal::Lengths));
}

pub(crate) fn buffers(session: &mut Session) {
    for buffer in Buffer::ALL {
        wrong_length(session, buffer, false);
        wrong_length(session, buffer, true);
    }
    for used in 1..4 {
        start_words(session, used);
    }
}

// ---- words, of an image of that length, with a trailer or without
pub(crate) fn words(rt: &impl Print, session: &mut Session, length: u64) -> Result<()> {
    for word in [0, length.wrapping_sub(1), length, u64::MAX] {
        setup::start_for(session, Call::WriteBack, 0);
        setup::set_length(session, length);
        Trial::Of(Call::WriteBack).probe(session, word);
        setup::expect(session, (length <= word).then_some(Refusal::NoWord));
        print::edge(rt, session, ", word ", word)?;
    }
    Ok(())
}

// ---- lanes, each with each call on a lane
pub(crate) fn lanes(rt: &impl Print, session: &mut Session) -> Result<()> {
    for lane in [1, 2, u64::MAX] {
        for trial in Trial::ON_LANE {
            setup::start_for(session, trial.call(), lane);
            trial.probe(session, lane);
            setup::expect(session, (2 <= lane).then_some(Refusal::NoLane));
            print::edge(rt, session, ", lane ", lane)?;
        }
    }
    Ok(())
}

// ---- transactions
// Log takes no words at all, too.
fn is_bad_length(call: Call, used: u64) -> bool {
    used % 4 != 0 || 64 < used || (used == 0 && call != Call::Log)
}

// A transaction of so many words of SETs.
fn length_of_txn(rt: &impl Print, session: &mut Session, call: Call, used: u64) -> Result<()> {
    setup::start_for(session, call, 0);
    setup::put_sets(session);
    setup::probe(session, call, 0, used);
    setup::expect_just(session, Refusal::BadTransaction, is_bad_length(call, used));
    if used == 64 || used == 68 {
        print::edge(rt, session, ", instructions ", used / 4)?;
    }
    Ok(())
}

// An instruction, followed by SETs.
fn instruction(session: &mut Session, words: [u64; 4], used: u64) {
    setup::start_for(session, Call::Log, 0);
    setup::put_sets(session);
    session.set_instruction(0, words);
    setup::probe(session, Call::Log, 0, used);
}

// An operand: 0, below W, W, or far from it; and k at its ends.
const OPERANDS: [u64; 4] = [0, 1, 2, u64::MAX];

const LAST_FIELDS: [u64; 6] = [0, 1, 2, 15, 16, u64::MAX];

// An instruction of each code from 0 to 6, with each field at its ends. Kept as words: an enum of instructions that
// holds codes and fields which no instruction has would be no plainer.
fn instructions(session: &mut Session, used: u64) {
    for code in 0..7 {
        for k in LAST_FIELDS {
            for b in OPERANDS {
                for a in OPERANDS {
                    instruction(session, [code, a, b, k], used);
                }
            }
        }
    }
}

// 0 to 69 words for Log and for Validate, then instructions that are last in their transaction, or followed by one or
// fifteen SETs.
pub(crate) fn transactions(rt: &impl Print, session: &mut Session) -> Result<()> {
    for call in [Call::Log, Call::Validate] {
        for used in 0..70 {
            length_of_txn(rt, session, call, used)?;
        }
    }
    for used in [4, 8, 64] {
        instructions(session, used);
    }
    Ok(())
}

// ---- the clock
pub(crate) const LATE: u64 = MAX_STAMP - 2;

// The calls that take a timestamp.
const STAMPING: [Trial; 6] = [
    Trial::Of(Call::Log),
    Trial::Of(Call::Redo),
    Trial::Of(Call::Validate),
    Trial::Of(Call::Mark),
    Trial::Settle,
    Trial::Of(Call::Lock),
];

// The lane has no floor, so that no lag limit binds: its sequence is not above the base timestamp.
fn at_clock(
    rt: &impl Print,
    session: &mut Session,
    trial: Trial,
    clock: u64,
    refusal: Option<Refusal>,
) -> Result<()> {
    setup::start_for(session, trial.call(), 0);
    session.buffers.cache[0] = 2;
    session.state.lanes[0].floor = None;
    session.state.clock = clock;
    trial.probe(session, 0);
    setup::expect(session, refusal);
    print::edge(rt, session, ", clock ", clock)
}

// A Log that writes nothing takes no timestamp.
fn no_writes(rt: &impl Print, session: &mut Session) -> Result<()> {
    setup::start_for(session, Call::Log, 0);
    session.state.clock = MAX_STAMP;
    setup::put_skip(session);
    setup::probe(session, Call::Log, 0, 8);
    setup::expect(session, None);
    print::edge(rt, session, " without writes, clock ", MAX_STAMP)
}

pub(crate) fn clocks(rt: &impl Print, session: &mut Session) -> Result<()> {
    for trial in STAMPING {
        at_clock(rt, session, trial, LATE, None)?;
        at_clock(rt, session, trial, MAX_STAMP, Some(Refusal::Spent))?;
    }
    no_writes(rt, session)
}

// ---- the record
// What a lane of the record is given.
#[derive(Clone, Copy)]
enum Edit {
    Next(u64),
    Wrap(u64),
    Floor(u64),
    Held(Held),
    FirstWord(u64),
    SecondWord(u64),
}

impl Edit {
    fn apply(self, lane: &mut Lane) {
        match self {
            Edit::Next(next) => lane.next = next,
            Edit::Wrap(wrap) => lane.wrap = wrap,
            Edit::Floor(floor) => lane.floor = Some(floor),
            Edit::Held(held) => lane.held = Some(held),
            Edit::FirstWord(word) => lane.pairs[0].word = word,
            Edit::SecondWord(word) => lane.pairs[1].word = word,
        }
    }
}

// Each puts one field out of its range.
const BAD: [Edit; 10] = [
    Edit::Next(MIN_SLOTS),
    Edit::Wrap(2),
    Edit::Floor(1),
    Edit::Floor(10),
    Edit::Held(Held {
        first: MIN_SLOTS,
        ..HELD
    }),
    Edit::Held(Held { count: 0, ..HELD }),
    Edit::Held(Held { count: 17, ..HELD }),
    Edit::Held(Held { stamp: 3, ..HELD }),
    Edit::Held(Held { stamp: 10, ..HELD }),
    Edit::FirstWord(2),
];

// A pair past the count, and a floor at the clock.
const GOOD: [Edit; 2] = [Edit::SecondWord(2), Edit::Floor(8)];

// Clock and last commit: the clock odd, and last commits odd, above the clock and at it. Only the last is in range.
const TIMES: [(u64, u64, bool); 4] = [(9, 0, true), (8, 1, true), (8, 10, true), (8, 8, false)];

// All lanes of the small store, and one that is not in use, hold a transaction.
fn held_by_all(session: &mut Session) -> Record {
    setup::start(session);
    setup::prepare(session, 0, true);
    setup::prepare(session, 1, true);
    setup::prepare(session, 2, true);
    session.state
}

// A record with each call on a lane.
fn with_record(session: &mut Session, record: Record, is_bad: bool) {
    for trial in Trial::ON_LANE {
        held_by_all(session);
        session.state = record;
        trial.probe(session, 0);
        setup::expect_just(session, Refusal::BadRecord, is_bad);
    }
}

fn with_edit(session: &mut Session, at: u64, edit: Edit, is_bad: bool) {
    let mut record = held_by_all(session);
    if let Some(lane) = record.edit(at) {
        edit.apply(lane);
    }
    with_record(session, record, is_bad);
}

// Lane 2 is not in use.
fn with_edits(session: &mut Session, lane: u64) {
    for edit in BAD {
        with_edit(session, lane, edit, lane < 2);
    }
    for edit in GOOD {
        with_edit(session, lane, edit, false);
    }
}

pub(crate) fn records(session: &mut Session) {
    for lane in 0..3 {
        with_edits(session, lane);
    }
    for (clock, last, is_bad) in TIMES {
        let record = Record {
            clock,
            last,
            ..held_by_all(session)
        };
        with_record(session, record, is_bad);
    }
}
