// Appending a sequence to a log, and replacing a timestamp: stores to the cached image, each word flushed.
ghost use Rattle.std.specs.Prelude.{◌≡◌, [], ◌∷◌, ℕ, ◌+◌, ◌*◌, ◌^◌, ◌≤◌, ◌<◌, length};
ghost use Rattle.image.specs.Image.{max_lanes};
ghost use Rattle.image.specs.Stores.{stored, places};
ghost use Rattle.image.specs.Flush.{flush_all};
ghost use Rattle.lane_log.specs.Append.{onward as onward_of, advance, slot_stores, append_stores};
ghost use Rattle.lane_log.specs.Append.{circular as circular_of, restamp_store};
ghost use Rattle.lane_log.specs.inner.AppendEntries.{Loggable, Within, LogAt, entry_stores};

use crate::Cursor;
use image::flush;
use slot::Slot;
use txn::Write;

impl Cursor {
    // The place after this one: the next slot, or slot 0 with the wrap bit flipped.
    #[tactic(auto, unfolding(crate::specs::Append::onward))]
    pub fn onward(self, slots: usize) -> Cursor
        requires { Within slots self }
        ensures { result ≡ onward_of slots self }
    {
        if self.slot + 1 == slots {
            return Cursor {
                slot: 0,
                wrap: 1 - self.wrap,
            };
        }
        Cursor {
            slot: self.slot + 1,
            wrap: self.wrap,
        }
    }
}

// Slot number k of a log, circularly, where k is below twice its slots.
#[tactic(auto, unfolding(crate::specs::Append::circular))]
pub fn circular(slots: usize, k: usize) -> usize
    ensures { result ≡ circular_of slots k }
{
    if k < slots {
        return k;
    }
    k - slots
}

// Stores the two words of slot j of the log that starts at image word `start`, and flushes them for the mask's lane.
fn store_slot(cache: &mut [u64], flags: &mut [u8], start: usize, j: usize, mask: u8, slot: Slot)
    requires j_in_bounds { start + 2 * j + 1 < length cache.old }
    requires j_in_bounds_2 { start + 2 * j + 1 < length flags.old }
    ensures written { cache.new ≡ stored (slot_stores start j slot []) cache.old }
    ensures flushed { (L : ℕ) → mask ≡ 2 ^ L → flags.new
        ≡ flush_all L (places (slot_stores start j slot [])) flags.old }
{
    let at = start + 2 * j;
    cache[at] = slot.address;
    flush::set_flush(flags, at, mask);
    cache[at + 1] = slot.value;
    flush::set_flush(flags, at + 1, mask);
}

// Appends an entry for each write, with the value before it, and flushes them; the place after them. Kept: a type for the
// two buffers and the log's place in them would be made for two functions alone, since `restamp` asks only that its slot
// lies in the buffers, and would put its own fields into each of their clauses.
fn append_entries(
    cache: &mut [u64],
    flags: &mut [u8],
    start: usize,
    slots: usize,
    lane: usize,
    writes: &[Write],
    cursor: Cursor,
) -> Cursor
    requires loggable { Loggable writes.now }
    requires within { Within slots cursor }
    requires log_at { LogAt start slots lane cache.old flags.old }
    ensures last { result ≡ advance slots (length writes.now) cursor }
    ensures written { cache.new ≡ stored (entry_stores start slots cursor writes.now) cache.old }
    ensures flushed { flags.new
        ≡ flush_all lane (places (entry_stores start slots cursor writes.now)) flags.old }
{
    let mask = flush::lane_mask(lane);
    let mut end = cursor;
    for write in writes {
        let slot = Slot::entry(write.word, write.old, end.wrap);
        store_slot(cache, flags, start, end.slot, mask, slot);
        end = end.onward(slots);
    }
    end
}

// Appends a sequence: an entry for each write, and the timestamp that closes them; all flushed. The place after it.
pub fn append(
    cache: &mut [u64],
    flags: &mut [u8],
    start: usize,
    slots: usize,
    lane: usize,
    writes: &[Write],
    stamp: u64,
    cursor: Cursor,
) -> Cursor
    requires loggable { Loggable writes.now }
    requires within { Within slots cursor }
    requires log_at { LogAt start slots lane cache.old flags.old }
    requires stamp_bound { stamp + 1 < 2 ^ 64 }
    ensures last { result ≡ advance slots (length writes.now + 1) cursor }
    ensures written { cache.new
        ≡ stored (append_stores start slots stamp cursor writes.now) cache.old }
    ensures flushed { flags.new
        ≡ flush_all lane (places (append_stores start slots stamp cursor writes.now)) flags.old }
{
    let end = append_entries(cache, flags, start, slots, lane, writes, cursor);
    let slot = Slot::stamp(writes.len(), stamp, end.wrap);
    store_slot(cache, flags, start, end.slot, flush::lane_mask(lane), slot);
    end.onward(slots)
}

// Replaces the timestamp in slot j, of which only the value word changes, and flushes that word. Its wrap bit is that
// of the address word, whatever the slot says.
pub fn restamp(cache: &mut [u64], flags: &mut [u8], start: usize, j: usize, lane: usize, stamp: u64)
    requires j_in_bounds { start + 2 * j + 1 < length cache.old }
    requires j_in_bounds_2 { start + 2 * j + 1 < length flags.old }
    requires lane_lt_max_lanes { lane < max_lanes }
    requires stamp_bound { stamp + 1 < 2 ^ 64 }
    ensures written { cache.new
        ≡ stored (restamp_store start j stamp cache.old ∷ []) cache.old }
    ensures flushed { flags.new
        ≡ flush_all lane (places (restamp_store start j stamp cache.old ∷ [])) flags.old }
{
    let at = start + 2 * j;
    let wrap = cache[at] & Slot::WRAP;
    let value = at + 1;
    cache[value] = stamp + wrap;
    flush::set_flush(flags, value, flush::lane_mask(lane));
}
