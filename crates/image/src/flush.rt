// Flush masks, a bit a lane in the flag byte of each word, and the copying of words from cache to non-volatile memory:
// write-back and drain.
ghost use Rattle.std.specs.Prelude.{◌≡◌, ℕ, ◌+◌, ◌^◌, ◌<◌, ◌≤◌, length, get_or, set, bit_or};
ghost use Rattle.std.specs.List.{fold};
ghost use Rattle.image.specs.Image.{max_lanes};
ghost use Rattle.image.specs.Flush.{flushed, flush, unflush, written_back, drained_nvm, drained_flags};
ghost use Rattle.image.specs.inner.DrainLaws.{IsDrained};

use crate::MAX_LANES;

// The flag values of lanes 0 to 7: entry L is 2 to the power L. They are asked to come from a
// table (docs/TRACEABILITY.md), whose law, `MaskLaws.power_at`, is computed of this one: so no shift stands here.
const MASKS: [u8; MAX_LANES] = [1, 2, 4, 8, 16, 32, 64, 128];

// How many flag bytes one test of a drain looks at.
const BLOCK: usize = 256;

// The same inside a block where the lane has flushed some word.
const RUN: usize = 16;

// A lane's flag value: its bit alone. Nothing else reads the table. A lookup writes the table to the stack first, so it
// is made once, before a loop over flag bytes. The functions below take its result as `mask`, and promise what they do
// for the lane that has this mask. `set_flush` may be called with any byte, so the mask is a byte and no type of its own. Nor is a
// lane, for the reason in `codec::read`.
pub fn lane_mask(lane: usize) -> u8
    requires { lane < max_lanes }
    ensures { result ≡ 2 ^ lane }
{
    MASKS[lane]
}

// Has the lane of this mask flushed the word with this flag byte?
fn is_flushed(flag: u8, mask: u8) -> bool
    ensures { (L : ℕ) → mask ≡ 2 ^ L → result ≡ flushed L flag }
{
    flag & mask != 0
}

// The flag byte with the bit of the mask's lane set.
fn with_flush(flag: u8, mask: u8) -> u8
    ensures { (L : ℕ) → mask ≡ 2 ^ L → result ≡ flush L flag }
{
    flag | mask
}

// The flag byte with the bit of the mask's lane cleared.
fn without_flush(flag: u8, mask: u8) -> u8
    ensures { (L : ℕ) → mask ≡ 2 ^ L → result ≡ unflush L flag }
{
    flag & !mask
}

// A flush of one word by the mask's lane.
pub fn set_flush(flags: &mut [u8], at: usize, mask: u8)
    requires { at < length flags.old }
    ensures { (L : ℕ) → mask ≡ 2 ^ L → flags.new
        ≡ set flags.old at (flush L (get_or flags.old at 0)) }
{
    flags[at] = with_flush(flags[at], mask);
}

// The copy of one word to non-volatile memory.
#[tactic(auto, unfolding(crate::specs::Flush::written_back))]
pub fn write_back(cache: &[u64], nvm: &mut [u64], word: usize)
    requires word_in_bounds { word < length cache.now }
    requires word_in_bounds_2 { word < length nvm.old }
    ensures { nvm.new ≡ written_back word cache.now nvm.old }
{
    nvm[word] = cache[word];
}

// The flag bytes of some words, or-ed together: a lane's bit is clear in the result only where the lane has flushed none
// of these words. At a call with a constant number of them it is inlined, and compiles to vector code.
fn any_of(flags: &[u8]) -> u8
    ensures { result ≡ fold bit_or 0 flags.now }
{
    flags.iter().fold(0, |any, flag| any | *flag)
}

// A way to drain some words by the lane of a mask. Kept as three slices and two clauses on their lengths, as C lends them
// (the C interface).
trait Way {
    fn drain(mask: u8, cache: &[u64], nvm: &mut [u64], flags: &mut [u8])
        requires nvm_len { length nvm.old ≡ length cache.now }
        requires flags_len { length flags.old ≡ length cache.now }
        ensures { IsDrained mask cache.now nvm.old flags.old nvm.new flags.new };
}

// A flag byte at a time.
struct Each;

impl Way for Each {
    fn drain(mask: u8, cache: &[u64], nvm: &mut [u64], flags: &mut [u8]) {
        for (i, flag) in flags.iter_mut().enumerate() {
            if is_flushed(*flag, mask) {
                write_back(cache, nvm, i);
                *flag = without_flush(*flag, mask);
            }
        }
    }
}

// With one test for a run of words: of those that the lane has not flushed, most are passed over in runs.
struct Runs;

impl Way for Runs {
    fn drain(mask: u8, cache: &[u64], nvm: &mut [u64], flags: &mut [u8]) {
        drain_by::<RUN, Each>(mask, cache, nvm, flags);
    }
}

// With one test for N words, which are drained in this way only where the lane has flushed one of them. So are the last
// ones, fewer than N. The parts are taken by index: of slices that `chunks_mut` or a zip of `iter_mut` went over, a proof
// knows only their lengths afterwards.
fn drain_by<const N: usize, W: Way>(mask: u8, cache: &[u64], nvm: &mut [u64], flags: &mut [u8])
    requires some { 0 < N }
    requires nvm_len { length nvm.old ≡ length cache.now }
    requires flags_len { length flags.old ≡ length cache.now }
    ensures { IsDrained mask cache.now nvm.old flags.old nvm.new flags.new }
{
    let blocks = cache.len() / N;
    for block in 0..blocks {
        let at = N * block;
        let end = at + N;
        if is_flushed(any_of(&flags[at..end]), mask) {
            W::drain(
                mask,
                &cache[at..end],
                &mut nvm[at..end],
                &mut flags[at..end],
            );
        }
    }
    let at = N * blocks;
    W::drain(mask, &cache[at..], &mut nvm[at..], &mut flags[at..]);
}

// Copies each word that the lane has flushed to non-volatile memory and clears the lane's bit there; writes no other
// word. One pass over the flags, with one test for a block of words of which the lane has flushed none. The cache is
// lent to be read: it is the same before the first of these stores and after the last.
pub fn drain(lane: usize, cache: &[u64], nvm: &mut [u64], flags: &mut [u8])
    requires lane_lt_max_lanes { lane < max_lanes }
    requires nvm_len { length nvm.old ≡ length cache.now }
    requires flags_len { length flags.old ≡ length cache.now }
    ensures copied { nvm.new
        ≡ drained_nvm lane flags.old cache.now nvm.old }
    ensures cleared { flags.new ≡ drained_flags lane flags.old }
{
    drain_by::<BLOCK, Runs>(lane_mask(lane), cache, nvm, flags);
}
