// Whole stretches of words: copied, or set to 0 word by word.
ghost use Rattle.std.specs.Prelude.{◌≡◌, length, replicate};

// The words of one stretch stored to another. `copy_from_slice` serves where the length is known to the compiler, which
// then writes moves; for any other it calls `memmove`, and include/vandzulge.h says that the library calls only
// `memcpy` and `memset`. This loop compiles to vector moves. Kept by index: of a slice that a zip of `iter_mut` went over,
// a proof knows only the length afterwards.
pub fn copy_words(from: &[u64], to: &mut [u64])
    requires { length to.old ≡ length from.now }
    ensures { to.new ≡ from.now }
{
    for (i, word) in to.iter_mut().enumerate() {
        *word = from[i];
    }
}

// A stretch of words set to 0 in rising order, each by a store of its own, and none where the word is 0 already: with
// that test the compiler cannot make a `memset` of the loop, which may store single bytes, as it does of `fill`. For
// non-volatile memory, where power may fail in between: a word of which some bytes are 0 is neither the old one nor 0.
pub fn clear_whole_words(words: &mut [u64])
    ensures { words.new ≡ replicate (length words.old) 0 }
{
    for word in words.iter_mut() {
        if *word != 0 {
            *word = 0;
        }
    }
}
