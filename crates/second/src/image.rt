// The sizes of a store, and where what stands in an image of them. SPECIFICATION, "Sizes and image".
ghost use Rattle.std.specs.Prelude.{◌≡◌};
ghost use Rattle.second.specs.inner.Words.{product, former_of, length_of, place_of, with_trailer};

use crate::words::{MAX_LANES, MAX_SLOTS, MAX_WORDS, MIN_SLOTS, TRAILER, set_word};

// W, T and N.
#[derive(Clone, Copy, PartialEq, Eq, Debug)]
pub struct Sizes {
    pub words: u64,
    pub lanes: u64,
    pub slots: u64,
}

// A product cut to factors of 13 bits, so that it is one of whatever numbers.
fn product(a: u64, b: u64) -> u64
    ensures { result ≡ product a b }
{
    a % 8192 * (b % 8192)
}

impl Sizes {
    // The words of an image before its trailer, which are all of one that has none.
    pub fn former(&self) -> u64
        ensures { result ≡ former_of self.now.words self.now.lanes self.now.slots }
    {
        let slots = product(self.lanes, self.slots);
        1u64.wrapping_add(self.words).wrapping_add(slots << 1)
    }

    // The words of an image with its trailer.
    pub fn length(&self) -> u64
        ensures { result ≡ length_of self.now.words self.now.lanes self.now.slots }
    {
        self.former().wrapping_add(TRAILER)
    }

    // The place of a slot's first word.
    pub fn place(&self, lane: u64, slot: u64) -> u64
        ensures { result ≡ place_of self.now.words self.now.slots lane slot }
    {
        let slots = product(self.slots, lane).wrapping_add(slot);
        1u64.wrapping_add(self.words).wrapping_add(slots << 1)
    }

    // Puts the trailer behind an image: W, T, N, and how many words stand before these four.
    pub fn put_trailer(&self, image: &mut [u64])
        ensures { image.new ≡ with_trailer image.old self.now.words self.now.lanes self.now.slots }
    {
        let end = self.former();
        set_word(image, end, self.words);
        set_word(image, end.wrapping_add(1), self.lanes);
        set_word(image, end.wrapping_add(2), self.slots);
        set_word(image, end.wrapping_add(3), end);
    }

    pub(crate) fn in_range(&self) -> bool {
        (1..=MAX_WORDS).contains(&self.words)
            && (1..=MAX_LANES).contains(&self.lanes)
            && (MIN_SLOTS..=MAX_SLOTS).contains(&self.slots)
    }

    // Those that the last four words of an image tell: in range, and agreed with by the fourth word and the length.
    pub(crate) fn told_by(image: &[u64]) -> Option<Sizes> {
        let [words, lanes, slots, former] = *image.last_chunk::<4>()?;
        let sizes = Sizes {
            words,
            lanes,
            slots,
        };
        let agree = former == sizes.former() && image.len() as u64 == sizes.length();
        (sizes.in_range() && agree).then_some(sizes)
    }

    // The slot k places before a slot, circularly.
    pub(crate) fn behind(&self, slot: u64, k: u64) -> u64 {
        if k <= slot {
            return slot - k;
        }
        slot.wrapping_add(self.slots).wrapping_sub(k)
    }

    // The slot k places after a slot, circularly.
    pub(crate) fn ahead(&self, slot: u64, k: u64) -> u64 {
        let at = slot.wrapping_add(k);
        if at < self.slots {
            return at;
        }
        at.wrapping_sub(self.slots)
    }
}
