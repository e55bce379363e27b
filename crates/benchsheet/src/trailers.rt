// Trailers: recovery without sizes, which reads them there, on trailers that agree with their image and on those that
// do not; and what happens to the trailer in the cache.
use crate::setup::{self, FORMER};
use bench::buffers::Image;
use bench::session::Session;
use bench::{power, print};
use second::image::Sizes;
use second::words::{TRAILER, set_word};
use second::{Call, Refusal};
use std::io::Result;

// The small store's trailer, and its place.
const SMALL: [u64; 4] = [2, 2, 34, FORMER];

const AT: usize = FORMER as usize;

// Does an image end so?
fn has(image: &Image, trailer: [u64; 4]) -> bool {
    image[AT..AT + 4] == trailer[..]
}

// Counts a difference unless non-volatile memory ends so.
fn expect(session: &mut Session, trailer: [u64; 4]) {
    let holds = has(&session.stored.buffers.nvm, trailer);
    session.expect(holds);
}

pub(crate) fn expect_small(session: &mut Session) {
    expect(session, SMALL);
}

// The same of the cache, where it stands there just where it is expected to.
fn expect_cached(session: &mut Session, expected: bool) {
    let stands = has(&session.stored.buffers.cache, SMALL);
    session.expect(stands == expected);
}

// Puts four words into non-volatile memory, from a word on.
fn put_four(session: &mut Session, at: u64, words: [u64; 4]) {
    for (place, word) in (at..).zip(words) {
        set_word(&mut session.buffers.nvm, place, word);
    }
}

// Non-volatile memory of the small store. Lane 0's log has one sequence: an entry of word 0 with old value 0, and
// timestamp 2. Word 0 is 9, so that its undoing shows.
fn start(session: &mut Session) {
    setup::start(session);
    setup::prepare(session, 0, false);
    session.buffers.cache[1] = 9;
    session.buffers.nvm = session.buffers.cache;
}

// After a power failure cache and flags hold anything.
fn scramble(session: &mut Session) {
    session.random.seed = 7;
    power::scramble(session);
}

// Recovery without sizes, after a power failure, where none are set.
fn recover(session: &mut Session, limit: u64) {
    scramble(session);
    session.sizes = Sizes {
        words: 0,
        lanes: 0,
        slots: 0,
    };
    session.call(Call::RecoverRead, limit, 0);
}

// An image so long that ends in these four words.
fn ends_in(
    rt: &impl Print,
    session: &mut Session,
    trailer: [u64; 4],
    length: u64,
    refusal: Option<Refusal>,
) -> Result<()> {
    start(session);
    setup::set_length(session, length);
    put_four(session, length.wrapping_sub(TRAILER), trailer);
    recover(session, u64::MAX);
    setup::expect(session, refusal);
    print::trailer(rt, session)
}

// Trailers, and how long the image is.
type Trailer = ([u64; 4], u64);

fn bad(rt: &impl Print, session: &mut Session, trailers: &[Trailer]) -> Result<()> {
    for (trailer, length) in trailers {
        ends_in(rt, session, *trailer, *length, Some(Refusal::NoTrailer))?;
    }
    Ok(())
}

// ---- trailers that agree
// What Format writes, over anything: to cache and non-volatile memory.
fn format(rt: &impl Print, session: &mut Session) -> Result<()> {
    setup::start(session);
    scramble(session);
    session.buffers.nvm = session.buffers.cache;
    session.call(Call::Format, 0, 2);
    print::row(rt, "Format", session)?;
    expect_cached(session, true);
    expect_small(session);
    recover(session, u64::MAX);
    print::trailer(rt, session)
}

// The words tell where the log is. With 70, 1, 34 it is where lane 1's was; with 2, 1, 68 it is both; with 1, 1, 34 it
// starts a word earlier, and the slots do not decode.
const AGREEING: [Trailer; 5] = [
    (SMALL, 143),
    ([70, 1, 34, 139], 143),
    ([2, 1, 68, 139], 143),
    ([1, 1, 34, 70], 74),
    ([1024, 8, 256, 5121], 5125),
];

pub(crate) fn agreeing(rt: &impl Print, session: &mut Session) -> Result<()> {
    format(rt, session)?;
    for (trailer, length) in AGREEING {
        ends_in(rt, session, trailer, length, None)?;
    }
    Ok(())
}

// ---- a word off by one; then W with a last word that agrees with it, and a last word that counts the trailer too
const OFF_BY_ONE: [Trailer; 11] = [
    ([1, 2, 34, 139], 143),
    ([3, 2, 34, 139], 143),
    ([2, 1, 34, 139], 143),
    ([2, 3, 34, 139], 143),
    ([2, 2, 33, 139], 143),
    ([2, 2, 35, 139], 143),
    ([2, 2, 34, 138], 143),
    ([2, 2, 34, 140], 143),
    ([1, 2, 34, 138], 143),
    ([3, 2, 34, 140], 143),
    ([2, 2, 34, 143], 143),
];

pub(crate) fn off_by_one(rt: &impl Print, session: &mut Session) -> Result<()> {
    bad(rt, session, &OFF_BY_ONE)
}

// ---- one size just out of its range, while last word and length agree
const OUT_OF_RANGE: [Trailer; 6] = [
    ([0, 1, 69, 139], 143),
    ([138, 0, 34, 139], 143),
    ([6, 2, 33, 139], 143),
    ([1025, 1, 34, 1094], 1098),
    ([1, 9, 34, 614], 618),
    ([1, 1, 257, 516], 520),
];

pub(crate) fn out_of_range(rt: &impl Print, session: &mut Session) -> Result<()> {
    bad(rt, session, &OUT_OF_RANGE)
}

// ---- last word and length agree with sums that wrap at 64 bits, or with words cut to 32
const TWO_32: u64 = 1 << 32;

const TWO_62: u64 = 1 << 62;

const TWO_63: u64 = 1 << 63;

const WRAPPING: [Trailer; 12] = [
    ([u64::MAX, 1, 34, 68], 72),
    ([u64::MAX - 65, 3, 34, 139], 143),
    ([1, TWO_63 + 1, 34, 70], 74),
    ([1, 1, TWO_63 + 34, 70], 74),
    ([2, 2, TWO_62 + 34, 139], 143),
    ([138, TWO_32, TWO_32 / 2, 139], 143),
    ([u64::MAX - 68, 1, 34, 0], 4),
    ([0, 0, 0, 1], 5),
    ([TWO_32 + 2, 2, 34, 139], 143),
    ([2, TWO_32 + 2, 34, 139], 143),
    ([2, 2, TWO_32 + 34, 139], 143),
    ([2, 2, 34, TWO_32 + 139], 143),
];

pub(crate) fn wrapping(rt: &impl Print, session: &mut Session) -> Result<()> {
    bad(rt, session, &WRAPPING)
}

// ---- images of other lengths
const OTHER_LENGTHS: [Trailer; 3] = [(SMALL, 142), (SMALL, 144), (SMALL, 4)];

// Without four words at the end that are meant as a trailer.
fn bare(rt: &impl Print, session: &mut Session, length: u64) -> Result<()> {
    start(session);
    setup::set_length(session, length);
    recover(session, u64::MAX);
    setup::expect(session, Some(Refusal::NoTrailer));
    print::edge(rt, session, ", image of ", length)
}

// An image of the former length whose last two slots are 66, 1 and 34, 135: both are torn, and look like a trailer.
// Recovery without sizes cannot know better.
const LOOK_ALIKE: [u64; 4] = [66, 1, 34, 135];

fn look_alike(rt: &impl Print, session: &mut Session) -> Result<()> {
    ends_in(rt, session, LOOK_ALIKE, FORMER, None)?;
    start(session);
    session.fit_former();
    put_four(session, FORMER - TRAILER, LOOK_ALIKE);
    session.call(Call::Recover, u64::MAX, 0);
    setup::expect(session, None);
    print::edge(rt, session, ", image of ", FORMER)
}

pub(crate) fn other_lengths(rt: &impl Print, session: &mut Session) -> Result<()> {
    bad(rt, session, &OTHER_LENGTHS)?;
    for length in [0, 3, FORMER] {
        bare(rt, session, length)?;
    }
    look_alike(rt, session)
}

// ---- the order of the refusals: of lengths, a bad trailer, an odd base timestamp
// The last word of the trailer, how long cache, non-volatile memory and flags are, and the refusal.
const ORDER: [(u64, [u64; 3], Refusal, &str); 5] = [
    (
        138,
        [142, 143, 143],
        Refusal::Lengths,
        "cache of 142, bad trailer, odd base",
    ),
    (
        138,
        [143, 143, 144],
        Refusal::Lengths,
        "flags of 144, bad trailer, odd base",
    ),
    (
        FORMER,
        [4, 3, 3],
        Refusal::Lengths,
        "cache of 4, memory of 3",
    ),
    (
        138,
        [143, 143, 143],
        Refusal::NoTrailer,
        "bad trailer, odd base",
    ),
    (FORMER, [143, 143, 143], Refusal::OddBase, "odd base"),
];

pub(crate) fn order(rt: &impl Print, session: &mut Session) -> Result<()> {
    for (before, [cache, nvm, flags], refusal, what) in ORDER {
        start(session);
        session.buffers.nvm[0] = 1;
        session.buffers.nvm[AT + 3] = before;
        session.set_lengths(cache, nvm, flags);
        recover(session, u64::MAX);
        setup::expect(session, Some(refusal));
        print::row(rt, what, session)?;
    }
    Ok(())
}

// ---- the trailer in the cache
const CACHED: [u64; 4] = [100, 101, 102, 103];

// Other words there, flushed by lane 0, lane 1, both, and all.
fn start_cached(session: &mut Session, call: Call) {
    setup::start_for(session, call, 0);
    session.buffers.nvm = session.buffers.cache;
    session.buffers.cache[AT..AT + 4].copy_from_slice(&CACHED);
    session.buffers.flags[AT..AT + 4].copy_from_slice(&[1, 2, 3, 255]);
}

// A word of it, and what non-volatile memory has then.
const WRITTEN: [(u64, [u64; 4]); 4] = [
    (FORMER, [100, 2, 34, 139]),
    (FORMER + 1, [2, 101, 34, 139]),
    (FORMER + 2, [2, 2, 102, 139]),
    (FORMER + 3, [2, 2, 34, 103]),
];

// Each of its words is written back alone.
fn written(rt: &impl Print, session: &mut Session) -> Result<()> {
    for (word, trailer) in WRITTEN {
        start_cached(session, Call::WriteBack);
        session.call(Call::WriteBack, word, 0);
        print::edge(rt, session, ", word ", word)?;
        expect(session, trailer);
    }
    Ok(())
}

// A drain of lane 0, by each call that makes one, takes what lane 0 has flushed.
fn drained(rt: &impl Print, session: &mut Session) -> Result<()> {
    for call in [
        Call::Log,
        Call::Redo,
        Call::Validate,
        Call::Mark,
        Call::Drain,
    ] {
        start_cached(session, call);
        session.call(call, 0, 4);
        setup::expect(session, None);
        expect(session, [100, 2, 102, 103]);
        print::edge(rt, session, ", lane ", 0)?;
    }
    Ok(())
}

// Each of its words, each call that drains, and recovery after the last of them.
pub(crate) fn cached(rt: &impl Print, session: &mut Session) -> Result<()> {
    written(rt, session)?;
    drained(rt, session)?;
    recover(session, u64::MAX);
    setup::expect(session, Some(Refusal::NoTrailer));
    print::trailer(rt, session)
}

// ---- recovery cut: there are 138 stores, an entry, the base timestamp and 136 log words, and none to the trailer
pub(crate) fn cut(rt: &impl Print, session: &mut Session) -> Result<()> {
    for limit in [0, 1, 2, 137, 138, 139, u64::MAX] {
        start(session);
        recover(session, limit);
        print::edge(rt, session, ", limit ", limit)?;
        expect_small(session);
        expect_cached(session, 138 <= limit);
    }
    Ok(())
}
