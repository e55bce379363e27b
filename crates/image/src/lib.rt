// Sizes and the image: where its words stand, and which buffers are as long as it. The flush masks and the copying of
// words are in flush.rt, whole stretches of words in bulk.rt.
#![tactic(auto)]

ghost use Rattle.std.specs.Prelude.{◌≡◌, true, ◌&&◌, ◌+◌, ◌<◌, ◌≤◌, length};
ghost use Rattle.image.specs.Image.{sizes_ok, former_length, image_length, log_start, log_of};
ghost use Rattle.image.specs.Image.{all_are, format_ok, former_ok, buffers_ok, sizes_at_end, trailer_ok};
ghost use Rattle.image.specs.inner.Facts.{IsImage, IsLog};

pub mod bulk;
pub mod flush;

// The most data words.
pub const MAX_WORDS: usize = 1024;

// The most lanes, one a bit of a flag byte.
pub const MAX_LANES: usize = 8;

// The fewest log slots a lane: two of the longest sequences, which have 16 entries and a timestamp.
pub const MIN_SLOTS: usize = 34;

// The most log slots a lane.
pub const MAX_SLOTS: usize = 256;

// The words of the longest image, without its trailer and with it.
pub const MAX_FORMER: usize = 1 + MAX_WORDS + 2 * MAX_LANES * MAX_SLOTS;

pub const MAX_IMAGE: usize = MAX_FORMER + 4;

// W data words, T lanes and N log slots a lane. Kept without its ranges as an invariant: the calls are given any sizes
// and refuse by number those out of range. Nearly everything else has the ranges inside `IsImage`, so a second, checked
// type would be handed on beside this one and be no plainer.
#[derive(Clone, Copy)]
pub struct Sizes {
    pub words: usize,
    pub lanes: usize,
    pub slots: usize,
}

// Are the sizes in their ranges?
#[tactic(auto, unfolding(crate::specs::Image::sizes_ok))]
pub fn sizes_ok(sizes: Sizes) -> bool
    ensures { result ≡ sizes_ok sizes }
{
    (1..=MAX_WORDS).contains(&sizes.words)
        && (1..=MAX_LANES).contains(&sizes.lanes)
        && (MIN_SLOTS..=MAX_SLOTS).contains(&sizes.slots)
}

// The words of an image without a trailer: the base timestamp, the data words, two words a log slot.
#[tactic(auto, unfolding(crate::specs::Image::former_length))]
pub fn former_length(sizes: Sizes) -> usize
    requires { sizes_ok sizes ≡ true }
    ensures { result ≡ former_length sizes }
{
    1 + sizes.words + 2 * sizes.lanes * sizes.slots
}

// The image word at which the log of a lane starts.
#[tactic(auto, unfolding(crate::specs::Image::log_start))]
pub fn log_start(sizes: Sizes, lane: usize) -> usize
    requires sizes_value { sizes_ok sizes ≡ true }
    requires lane_lt_lanes { lane < sizes.lanes }
    ensures { result ≡ log_start sizes lane }
{
    1 + sizes.words + 2 * sizes.slots * lane
}

// The log of a lane, the part of the image that it is. Kept as clauses, here and above: that the words are an image, and
// that the lane is one of it. A view of both with ghost fields was tried and is no plainer: a call lends the words to be
// changed between two reads, so each read needs a view of its own, with its proof.
pub fn log_part(sizes: Sizes, image: &[u64], lane: usize) -> &[u64]
    requires image { IsImage sizes image.now }
    requires lane_lt_lanes { lane < sizes.lanes }
    ensures words { result.now ≡ log_of sizes lane image.now }
    ensures whole { IsLog sizes.slots result.now }
{
    let start = log_start(sizes, lane);
    let end = start + 2 * sizes.slots;
    &image[start..end]
}

// The words of an image with its trailer.
#[tactic(auto, unfolding(crate::specs::Image::image_length))]
pub fn image_length(sizes: Sizes) -> usize
    requires { sizes_ok sizes ≡ true }
    ensures { result ≡ image_length sizes }
{
    former_length(sizes) + 4
}

// Has each of the three buffers, whose lengths are given, this many words? A struct of the three would be made at each
// call only to be taken apart here.
#[tactic(auto, unfolding(crate::specs::Image::all_are))]
pub fn all_are(length: usize, cache: usize, nvm: usize, flags: usize) -> bool
    ensures { result ≡ all_are length cache nvm flags }
{
    cache == length && nvm == length && flags == length
}

// Are the sizes in range, and the three buffers as long as the image with its trailer? Refusal 1 of Format is that they
// are not.
#[tactic(auto, unfolding(crate::specs::Image::format_ok))]
pub fn format_ok(sizes: Sizes, cache: usize, nvm: usize, flags: usize) -> bool
    ensures { result ≡ format_ok sizes cache nvm flags }
{
    sizes_ok(sizes) && all_are(image_length(sizes), cache, nvm, flags)
}

// Without one? Refusal 1 of recovery with sizes given.
#[tactic(auto, unfolding(crate::specs::Image::former_ok))]
pub fn former_ok(sizes: Sizes, cache: usize, nvm: usize, flags: usize) -> bool
    ensures { result ≡ former_ok sizes cache nvm flags }
{
    sizes_ok(sizes) && all_are(former_length(sizes), cache, nvm, flags)
}

// With or without one, all three alike? Refusal 1 of every other call that is given sizes.
#[tactic(auto, unfolding(crate::specs::Image::buffers_ok))]
pub fn buffers_ok(sizes: Sizes, cache: usize, nvm: usize, flags: usize) -> bool
    ensures { result ≡ buffers_ok sizes cache nvm flags }
{
    sizes_ok(sizes)
        && (all_are(image_length(sizes), cache, nvm, flags)
            || all_are(former_length(sizes), cache, nvm, flags))
}

// The sizes that the last four words of an image tell. Kept beside `trailer_ok`, and no `Option` of both: this one cannot
// fail on any four words, which its callers count on (what may not change), and the test is a refusal of its own.
pub fn sizes_at_end(image: &[u64]) -> Sizes
    requires { 4 ≤ length image.now }
    ensures { result ≡ sizes_at_end image.now }
{
    let [words, lanes, slots, _] = *image.last_chunk::<4>().unwrap();
    Sizes {
        words: words as usize,
        lanes: lanes as usize,
        slots: slots as usize,
    }
}

// Are there four last words that tell sizes in range, and a fourth word and a length that agree with them? Refusal 14
// is that there are not.
pub fn trailer_ok(image: &[u64]) -> bool
    ensures { result ≡ trailer_ok image.now }
{
    let Some(last) = image.last_chunk::<4>() else {
        return false;
    };
    let sizes = sizes_at_end(image);
    sizes_ok(sizes) && last[3] == former_length(sizes) as u64 && image.len() == image_length(sizes)
}
