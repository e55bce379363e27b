// One lane's log, the part of the image from the lane's first slot on: its slots and the sequences that they close.
// Searching is in search.rt, appending in tail.rt.
#![tactic(auto)]

ghost use Rattle.std.specs.Prelude.{◌≡◌, ◌+◌, ◌*◌, ◌≤◌, ◌<◌, length};
ghost use Rattle.image.specs.Image.{max_slots, base_of, log_of};
ghost use Rattle.image.specs.inner.Facts.{IsImage, IsLog};
ghost use Rattle.lane_log.specs.Log.{slot_at, back as back_of, given as given_of};
ghost use Rattle.lane_log.specs.inner.Search.{stamp_high, is_entry, entry_back, whole_back, closed_at};

use image::Sizes;
use slot::{Content, Slot};

pub mod search;
pub mod tail;

// A complete sequence: its timestamp, the count of its entries, and the slot of the timestamp, which follows them.
#[derive(Clone, Copy)]
pub struct Sequence {
    pub stamp: u64,
    pub count: usize,
    pub slot: usize,
}

// Where a log goes on: the next slot, and the wrap bit that it is written with.
#[derive(Clone, Copy)]
pub struct Cursor {
    pub slot: usize,
    pub wrap: u64,
}

// What a sequence gives to the boundary, and to its lane's floor at a drain: its timestamp, but a mark, which closes no
// entries, gives none.
#[tactic(auto, unfolding(crate::specs::Log::given))]
pub fn given(count: usize, stamp: u64) -> Option<u64>
    ensures { result ≡ given_of count stamp }
{
    (count != 0).then_some(stamp)
}

// What slot j says, in an image of `words` data words. Kept beside the method of `Log`: it asks for this slot's words alone.
#[tactic(auto, unfolding(crate::specs::Log::slot_at))]
pub fn slot_at(log: &[u64], words: usize, j: usize) -> Content
    requires { 2 * j + 1 < length log.now }
    ensures { result ≡ slot_at words log.now j }
{
    let slot = Slot {
        address: log[2 * j],
        value: log[2 * j + 1],
    };
    slot.read(words)
}

// The slot i places before slot j, circularly.
#[tactic(auto, unfolding(crate::specs::Log::back))]
pub fn back(slots: usize, j: usize, i: usize) -> usize
    requires slots_le_max_slots { slots ≤ max_slots }
    requires j_lt_slots { j < slots }
    requires i_le_slots { i ≤ slots }
    ensures { result ≡ back_of slots j i }
{
    if i <= j {
        return j - i;
    }
    j + slots - i
}

// Is it a whole entry with this wrap bit?
#[tactic(auto, unfolding(crate::specs::inner::Search::is_entry))]
fn is_entry(content: Content, wrap: u64) -> bool
    ensures { result ≡ is_entry wrap content }
{
    match content {
        Content::Entry { wrap: bit, .. } => bit == wrap,
        Content::Empty | Content::Torn | Content::Stamp { .. } => false,
    }
}

// The log of a lane in an image: what the search for its sequences reads.
#[derive(Clone, Copy)]
pub struct Log<'a> {
    // the data words of the image
    pub words: usize,
    pub slots: usize,
    // the base timestamp of the image
    pub base: u64,
    // two words a slot
    pub log: &'a [u64],
    pub ghost whole: { IsLog slots log.now },
}

impl<'a> Log<'a> {
    // The log of a lane.
    pub fn of(sizes: Sizes, image: &'a [u64], lane: usize) -> Log<'a>
        requires image { IsImage sizes image.now }
        requires lane_lt_lanes { lane < sizes.lanes }
        ensures words { result.words ≡ sizes.words }
        ensures slots { result.slots ≡ sizes.slots }
        ensures base { result.base ≡ base_of image.now }
        ensures log { result.log.now ≡ log_of sizes lane image.now }
    {
        Log {
            words: sizes.words,
            slots: sizes.slots,
            base: image[0],
            log: image::log_part(sizes, image, lane),
        }
    }

    // What slot j says.
    pub fn slot_at(&self, j: usize) -> Content
        requires { j < self.now.slots }
        ensures { result ≡ slot_at self.now.words self.now.log.now j }
    {
        slot_at(self.log, self.words, j)
    }

    // Can slot j hold a timestamp? The address words of empty slots and entries are below every timestamp's, so one
    // comparison passes over most slots. Past the slot reader, words tell something of a slot only here and in the
    // searches of search.rt, and that saves time alone: what is passed over reads as no timestamp
    // (`SearchLaws.not-high`), or as one that does not matter.
    #[tactic(auto, unfolding(crate::specs::inner::Search::stamp_high))]
    fn stamp_high(&self, j: usize) -> bool
        requires { j < self.now.slots }
        ensures { result ≡ stamp_high self.now.log.now j }
    {
        Slot::NUMBER * Slot::TAG <= self.log[2 * j]
    }

    // Is the slot i places before slot j a whole entry, with the wrap bit of slot j, the opposite one before the wrap?
    pub fn entry_back(&self, j: usize, wrap: u64, i: usize) -> bool
        requires j_lt_slots { j < self.now.slots }
        requires i_le_slots { i ≤ self.now.slots }
        requires wrap_bound { wrap ≤ 1 }
        ensures { result ≡ entry_back self.now.words self.now.slots self.now.log.now j wrap i }
    {
        let content = self.slot_at(back(self.slots, j, i));
        if i <= j {
            return is_entry(content, wrap);
        }
        is_entry(content, 1 - wrap)
    }

    // Are the `count` slots before slot j all such entries?
    fn entries_whole(&self, j: usize, wrap: u64, count: usize) -> bool
        requires j_lt_slots { j < self.now.slots }
        requires count_le_slots { count ≤ self.now.slots }
        requires wrap_bound { wrap ≤ 1 }
        ensures { result ≡ whole_back self.now.words self.now.slots self.now.log.now j wrap count }
    {
        (0..count).all(|i| self.entry_back(j, wrap, i + 1))
    }

    // The sequence that slot j closes, if it is complete: a whole timestamp above the base over whole entries. A search
    // of a log full of timestamps is a tenth faster or more where this is inlined.
    #[inline(always)]
    pub fn closed_at(&self, j: usize) -> Option<Sequence>
        requires { j < self.now.slots }
        ensures { result ≡ closed_at self.now.words self.now.slots self.now.base self.now.log.now j }
    {
        let Content::Stamp { count, stamp, wrap } = self.slot_at(j) else {
            return None;
        };
        if stamp <= self.base {
            return None;
        }
        if !self.entries_whole(j, wrap, count) {
            return None;
        }
        Some(Sequence {
            stamp,
            count,
            slot: j,
        })
    }
}
