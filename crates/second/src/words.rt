// The numbers of the specification, words of an image by their places, and the lanes that have flushed a word.
ghost use Rattle.std.specs.Prelude.{◌≡◌, ◌/◌, ◌%◌, ◌^◌, ◌==◌};
ghost use Rattle.second.specs.inner.Words.{word_in, stored};

// The ranges of W, T and N: 1 to MAX_WORDS, 1 to MAX_LANES, MIN_SLOTS to MAX_SLOTS.
pub const MAX_WORDS: u64 = 1024;

pub const MAX_LANES: u64 = 8;

pub const MIN_SLOTS: u64 = 34;

pub const MAX_SLOTS: u64 = 256;

// The trailer's words.
pub const TRAILER: u64 = 4;

// The words of the longest image, with its trailer.
pub const MAX_LENGTH: u64 = 5125;

// The most entries of a sequence, and the most writes and instructions of a transaction; those of a long transaction.
pub const MAX_WRITES: u64 = 16;

pub const MAX_LONG: u64 = 64;

// The greatest timestamp: timestamps are even.
pub const MAX_STAMP: u64 = u64::MAX - 1;

// The least and the greatest lag limit: they are even.
pub const MIN_LAG: u64 = 2;

pub const MAX_LAG: u64 = 4294967296;

// Word `at` of an image, 0 where it has none.
pub fn word_at(image: &[u64], at: u64) -> u64
    ensures { result ≡ word_in image.now at }
{
    image.get(at as usize).copied().unwrap_or(0)
}

// Sets word `at` of an image, where it has one.
pub fn set_word(image: &mut [u64], at: u64, word: u64)
    ensures { image.new ≡ stored image.old at word }
{
    if at < image.len() as u64 {
        image[at as usize] = word;
    }
}

// Is bit `lane` of a flag byte set?
pub fn is_flushed(byte: u64, lane: u64) -> bool
    ensures { result ≡ (byte / 2 ^ (lane % 8) % 2 == 1) }
{
    (byte >> (lane % MAX_LANES)) % 2 == 1
}
