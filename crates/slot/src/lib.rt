// One log slot, two words of the image: made from an entry or a timestamp, and read back.
#![tactic(auto)]

ghost use Rattle.std.specs.Prelude.{◌≡◌, ◌+◌, ◌≤◌, ◌<◌, ◌^◌};
ghost use Rattle.slot.specs.Slot.{tag, max_entries, entry_of, stamp_of, read_of};

// The two words as they stand in the log.
#[derive(Clone, Copy)]
pub struct Slot {
    pub address: u64,
    pub value: u64,
}

// What a slot's two words say. A slot that is an Entry or a Stamp is whole.
#[derive(Clone, Copy)]
pub enum Content {
    // never written
    Empty,
    // the words are of two writes, or of none
    Torn,
    // a word's number and its old value
    Entry { word: usize, old: u64, wrap: u64 },
    // the timestamp that closes the `count` entries before it
    Stamp { count: usize, stamp: u64, wrap: u64 },
}

impl Slot {
    // A timestamp's number is TAG and its count; an entry's number is its word and 1, which is below TAG.
    pub const TAG: u64 = 4096;

    // The most entries that a timestamp closes.
    pub const MAX_ENTRIES: u64 = 16;

    // The wrap bit, bit 0 of both words.
    pub const WRAP: u64 = 1;

    // The place of the old value's low bit in an entry's address word; the value word has the wrap bit there.
    pub const LOW: u64 = 2;

    // The place of the number in the address word, above the low bit's and one bit that is 0.
    pub const NUMBER: u64 = 8;

    // The three below are kept from being From and TryFrom, which would be no plainer: reading takes the image's number
    // of words beside the slot, and making, which asks bounds of its arguments, cannot fail.

    // The words of an entry: the word's number, its old value, the wrap bit.
    pub fn entry(word: usize, old: u64, wrap: u64) -> Slot
        requires word_bound { word + 1 < tag }
        requires wrap_bound { wrap ≤ 1 }
        ensures { result ≡ entry_of word old wrap }
    {
        let low = old & Slot::WRAP;
        Slot {
            address: Slot::NUMBER * (word as u64 + 1) + Slot::LOW * low + wrap,
            value: old - low + wrap,
        }
    }

    // The words of a timestamp, which is even, over `count` entries.
    pub fn stamp(count: usize, stamp: u64, wrap: u64) -> Slot
        requires count_le_max_entries { count ≤ max_entries }
        requires wrap_bound { wrap ≤ 1 }
        requires stamp_bound { stamp + 1 < 2 ^ 64 }
        ensures { result ≡ stamp_of count stamp wrap }
    {
        Slot {
            address: Slot::NUMBER * (Slot::TAG + count as u64) + wrap,
            value: stamp + wrap,
        }
    }

    // What the two words say, in an image of `words` data words.
    pub fn read(self, words: usize) -> Content
        ensures { result ≡ read_of words self.address self.value }
    {
        let address = self.address;
        let value = self.value;
        if address == 0 {
            if value == 0 {
                return Content::Empty;
            }
            return Content::Torn;
        }
        let wrap = address & Slot::WRAP;
        if wrap != value & Slot::WRAP {
            return Content::Torn;
        }
        let number = address / Slot::NUMBER;
        // the two bits above the wrap bit: the low bit and a 0 in an entry, both 0 in a timestamp
        let low = address / Slot::LOW & 3;
        if (1..=words as u64).contains(&number) && low < 2 {
            return Content::Entry {
                word: (number - 1) as usize,
                old: value - wrap + low,
                wrap,
            };
        }
        if (Slot::TAG..=Slot::TAG + Slot::MAX_ENTRIES).contains(&number) && low == 0 {
            return Content::Stamp {
                count: (number - Slot::TAG) as usize,
                stamp: value - wrap,
                wrap,
            };
        }
        Content::Torn
    }
}
