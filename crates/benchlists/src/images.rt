// Arbitrary images: logs that mostly decode, and trailers that mostly agree.
// Kept: ranges of slots, words and lanes, for each is drawn by its number, and there is nothing yet to go over.
use crate::any::{about, about_stamp};
use bench::generator::Random;
use second::image::Sizes;
use second::reading::{entry_address, entry_value, stamp_address, stamp_value};
use second::words::{MAX_STAMP, MAX_WRITES, TRAILER, set_word, word_at};

// An image that is drawn.
#[derive(Drop)]
pub(crate) struct Canvas<'r, 'i> {
    pub random: &'r mut Random,
    pub sizes: Sizes,
    pub image: &'i mut [u64],
}

// A timestamp: few different ones, so that equal ones turn up, and now and then the greatest.
fn stamp(random: &mut Random) -> u64 {
    if random.once_in(40) {
        return MAX_STAMP;
    }
    random.below(24) << 1
}

// A word as it is after a flip of one bit, or another one.
fn torn(random: &mut Random, word: u64) -> u64 {
    match random.below(4) {
        0 => word ^ 1,
        1 => word ^ 4,
        2 => 0,
        _ => random.draw(),
    }
}

// A word of a trailer as it should not be.
fn wrong(random: &mut Random, word: u64) -> u64 {
    match random.below(5) {
        0 => word.wrapping_add(1),
        1 => word.wrapping_sub(1),
        2 => 0,
        3 => word ^ 4294967296,
        _ => random.draw(),
    }
}

impl Canvas<'_, '_> {
    // The two words of a slot.
    fn put_slot(&mut self, at: u64, address: u64, value: u64) {
        set_word(self.image, at, address);
        set_word(self.image, at.wrapping_add(1), value);
    }

    fn put_entry(&mut self, at: u64, wrap: u64) {
        let word = about(self.random, self.sizes.words);
        let old = self.random.value();
        self.put_slot(at, entry_address(word, old, wrap), entry_value(old, wrap));
    }

    // A timestamp that closes `count` entries, now and then another number of them.
    fn put_stamp(&mut self, at: u64, count: u64, wrap: u64) {
        let mut closed = count;
        if self.random.once_in(8) {
            closed = self.random.below(18);
        }
        let value = stamp_value(stamp(self.random), wrap);
        self.put_slot(at, stamp_address(closed, wrap), value);
    }

    // Now and then one of a slot's two words becomes another one.
    fn tear(&mut self, at: u64) {
        if self.random.once_in(24) {
            let place = at.wrapping_add(self.random.below(2));
            let word = word_at(self.image, place);
            let other = torn(self.random, word);
            set_word(self.image, place, other);
        }
    }

    // A slot: a timestamp over the `run` entries before it, or an entry; how many entries stand in a row then.
    fn make_slot(&mut self, at: u64, run: u64, wrap: u64) -> u64 {
        if MAX_WRITES <= run || self.random.once_in(3) {
            self.put_stamp(at, run, wrap);
            return 0;
        }
        self.put_entry(at, wrap);
        run + 1
    }

    // A lane's log, that wrapped before slot `turn`: from there on the slots have the opposite bit, or, in the first lap,
    // are not written yet.
    fn fill_slots(&mut self, lane: u64, turn: u64, wrap: u64, is_first_lap: bool) {
        let mut run = 0;
        for slot in 0..self.sizes.slots {
            let at = self.sizes.place(lane, slot);
            let is_older = turn <= slot;
            if is_first_lap && is_older {
                self.put_slot(at, 0, 0);
            } else {
                run = self.make_slot(at, run, wrap ^ u64::from(is_older));
            }
            self.tear(at);
        }
    }

    fn fill_log(&mut self, lane: u64) {
        let turn = self.random.below(self.sizes.slots.wrapping_add(1));
        let wrap = self.random.below(2);
        let is_first_lap = self.random.once_in(4);
        self.fill_slots(lane, turn, wrap, is_first_lap);
    }

    fn fill_data(&mut self) {
        for i in 0..self.sizes.words {
            let word = self.random.value();
            set_word(self.image, i.wrapping_add(1), word);
        }
    }

    fn spoil_trailer(&mut self) {
        let place = self.sizes.former().wrapping_add(self.random.below(TRAILER));
        let word = word_at(self.image, place);
        let other = wrong(self.random, word);
        set_word(self.image, place, other);
    }

    // One lane with the slots of all: this agrees with the length, and with the range of N where there are few slots.
    fn join_lanes(&mut self) {
        let at = self.sizes.former();
        let slots = self.sizes.lanes.wrapping_mul(self.sizes.slots);
        set_word(self.image, at.wrapping_add(1), 1);
        set_word(self.image, at.wrapping_add(2), slots);
    }

    // The last words of the log as a trailer, which an image of the former length then seems to have. The last lane's
    // other words are data words by it, and where that lane is the only one no lane is left.
    fn look_alike(&mut self) {
        let Sizes {
            words,
            lanes,
            slots,
        } = self.sizes;
        let at = self.sizes.former().wrapping_sub(TRAILER);
        let seeming = words.wrapping_add(slots << 1).wrapping_sub(TRAILER);
        self.put_slot(at, seeming, lanes.wrapping_sub(1));
        self.put_slot(at.wrapping_add(2), slots, at);
    }

    fn fill_trailer(&mut self) {
        self.sizes.put_trailer(self.image);
        match self.random.below(10) {
            0 | 1 => self.spoil_trailer(),
            2 => self.join_lanes(),
            3 => self.look_alike(),
            _ => {}
        }
    }

    pub(crate) fn fill(&mut self) {
        self.fill_data();
        for lane in 0..self.sizes.lanes {
            self.fill_log(lane);
        }
        self.fill_trailer();
        let base = about_stamp(self.random) % 16;
        set_word(self.image, 0, base);
    }
}
