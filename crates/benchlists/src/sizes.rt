// Sizes and lag limits of lists and states.
use bench::generator::Random;
use second::image::Sizes;
use second::words::{MAX_LAG, MAX_LANES, MAX_SLOTS, MAX_WORDS, MIN_SLOTS};

// The greatest sizes.
pub(crate) const FULL: Sizes = Sizes {
    words: MAX_WORDS,
    lanes: MAX_LANES,
    slots: MAX_SLOTS,
};

// Sizes at which logs wrap often: one in three has slots enough for transactions of three and four parts.
pub(crate) fn small(random: &mut Random) -> Sizes {
    let words = random.from_one(6);
    let lanes = random.from_one(3);
    let more = if random.once_in(3) { 60 } else { 7 };
    let slots = MIN_SLOTS.wrapping_add(random.below(more));
    Sizes {
        words,
        lanes,
        slots,
    }
}

// One of the n least lag limits.
pub(crate) fn small_lag(random: &mut Random, n: u64) -> u64 {
    random.from_one(n) << 1
}

// A number that is no lag limit: 0, odd, just too great, far too great.
pub(crate) fn wrong_lag(random: &mut Random) -> u64 {
    match random.below(4) {
        0 => 0,
        1 => 1u64.wrapping_add(random.below(40) << 1),
        2 => (MAX_LAG + 1).wrapping_add(random.below(4)),
        _ => u64::MAX.wrapping_sub(random.below(3)),
    }
}
