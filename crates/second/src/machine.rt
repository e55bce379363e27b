// What a call is given and lent, and the parts that calls are made of: cached stores, drains and appends.
// SPECIFICATION, "Machine, refusals and answers" and "Calls".
ghost use Rattle.std.specs.Prelude.{◌≤◌};

use crate::calls::{Answer, Call, Outcome, Refusal, unless};
use crate::image::Sizes;
use crate::reading::{entry_address, entry_value, stamp_address, stamp_value};
use crate::records::{Record, lag_ok};
use crate::running::Write;
use crate::words::{MAX_LANES, is_flushed, set_word, word_at};

// What a call is given: `number` is a lane, a word of the image or a limit of stores, `words` are a transaction or start
// words, `lag` is the lag limit of a start.
#[derive(Clone, Copy)]
pub struct Given<'a> {
    pub call: Call,
    pub sizes: Sizes,
    pub lag: u64,
    pub number: u64,
    pub words: &'a [u64],
}

// What it is lent. A start does not read the record, and leaves another one.
#[derive(Drop)]
pub struct Machine<'a> {
    pub state: &'a mut Record,
    pub cache: &'a mut [u64],
    pub nvm: &'a mut [u64],
    pub flags: &'a mut [u8],
}

impl Given<'_> {
    // Only recovery by given sizes wants an image without its trailer, only Format one with it.
    fn takes(&self, length: u64) -> bool {
        (length == self.sizes.length() && self.call != Call::Recover)
            || (length == self.sizes.former() && self.call != Call::Format)
    }

    // Format has as many start words as data words.
    fn start_ok(&self) -> bool {
        self.call != Call::Format || self.words.len() as u64 == self.sizes.words
    }

    // Refusal 16: the lag limit of a start.
    pub(crate) fn lag_ok(&self) -> bool {
        lag_ok(self.lag)
    }
}

// What bit `lane` of a flag byte weighs.
fn weight(lane: u64) -> u8
    ensures { 1 ≤ result }
{
    1u8 << (lane % MAX_LANES)
}

// Kept: what is only read is lent by `&mut` here and below, since no `&` is taken through a reference behind `&mut self`.
fn drain_words(cache: &mut [u64], nvm: &mut [u64], flags: &mut [u8], lane: u64) {
    for ((cell, word), byte) in nvm.iter_mut().zip(cache.iter()).zip(flags.iter_mut()) {
        if is_flushed(u64::from(*byte), lane) {
            *cell = *word;
            *byte ^= weight(lane);
        }
    }
}

fn copy_words(from: &mut [u64], to: &mut [u64]) {
    for (word, other) in to.iter_mut().zip(from.iter()) {
        *word = *other;
    }
}

impl Machine<'_> {
    // Are cache and flags as long as non-volatile memory?
    pub(crate) fn is_alike(&self) -> bool {
        self.cache.len() == self.nvm.len() && self.flags.len() == self.nvm.len()
    }

    // A cached store that the lane flushes.
    pub(crate) fn store(&mut self, at: u64, word: u64, lane: u64) {
        set_word(self.cache, at, word);
        if let Some(byte) = self.flags.get_mut(at as usize) {
            *byte |= weight(lane);
        }
    }

    // What the lane has flushed reaches non-volatile memory.
    pub(crate) fn drain(&mut self, lane: u64) {
        drain_words(self.cache, self.nvm, self.flags, lane);
    }

    // A slot at the lane's cursor, which moves on; after the last slot the wrap bit flips.
    fn append_slot(&mut self, sizes: &Sizes, lane: u64, address: u64, value: u64) {
        let mut page = self.state.lane(lane);
        let at = sizes.place(lane, page.next);
        self.store(at, address, lane);
        self.store(at.wrapping_add(1), value, lane);
        page.next = sizes.ahead(page.next, 1);
        if page.next == 0 {
            page.wrap ^= 1;
        }
        self.state.set_lane(lane, page);
    }

    // An entry for each write.
    pub(crate) fn append_entries(&mut self, sizes: &Sizes, lane: u64, writes: &[Write]) {
        for write in writes {
            let wrap = self.state.lane(lane).wrap;
            let address = entry_address(write.pair.word, write.old, wrap);
            self.append_slot(sizes, lane, address, entry_value(write.old, wrap));
        }
    }

    // A timestamp behind the entries, which is the lane's floor where it has none.
    pub(crate) fn close(&mut self, sizes: &Sizes, lane: u64, count: u64, stamp: u64) {
        let page = self.state.lane(lane);
        let address = stamp_address(count, page.wrap);
        self.append_slot(sizes, lane, address, stamp_value(stamp, page.wrap));
        self.state.set_floor(lane, page.floor.or(Some(stamp)));
    }

    // A new timestamp there.
    pub(crate) fn append_stamp(&mut self, sizes: &Sizes, lane: u64, count: u64) -> u64 {
        let stamp = self.state.tick();
        self.close(sizes, lane, count, stamp);
        stamp
    }

    // A word of the trailer too, where the image has one.
    fn write_back(&mut self, word: u64) -> Result<Answer, Refusal> {
        unless(&[Refusal::NoWord.when(self.cache.len() as u64 <= word)])?;
        let cached = word_at(self.cache, word);
        set_word(self.nvm, word, cached);
        Ok(Answer::Done)
    }

    // Non-volatile memory and cache become one, and nothing is flushed.
    pub(crate) fn refill_cache(&mut self) {
        copy_words(self.nvm, self.cache);
        self.flags.fill(0);
    }

    fn format(&mut self, given: &Given) -> Result<Answer, Refusal> {
        unless(&[Refusal::BadLag.when(!given.lag_ok())])?;
        self.nvm.fill(0);
        for (cell, word) in self.nvm.iter_mut().skip(1).zip(given.words.iter()) {
            *cell = *word;
        }
        given.sizes.put_trailer(self.nvm);
        self.refill_cache();
        *self.state = Record::start(given.lag, 0);
        Ok(Answer::Done)
    }

    // A call that is given sizes.
    fn call_sized(&mut self, given: &Given) -> Result<Answer, Refusal> {
        let length = self.nvm.len() as u64;
        let lent_ok = self.is_alike() && given.takes(length) && given.start_ok();
        unless(&[Refusal::Lengths.when(!given.sizes.in_range() || !lent_ok)])?;
        match given.call {
            Call::WriteBack => self.write_back(given.number),
            Call::Format => self.format(given),
            Call::Recover => self.recover(given),
            _ => self.step(given),
        }
    }

    // Makes a call. A refusal or a cut leaves the record as it was.
    pub fn perform(&mut self, given: &Given) -> Outcome {
        match given.call {
            Call::RecoverRead => self.recover_read(given),
            _ => self.call_sized(given),
        }
    }
}
