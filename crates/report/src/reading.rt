// Reading the input: words of eight bytes, the least significant byte first; the sizes; which inputs are refused; the
// image.
ghost use Rattle.std.specs.Prelude.{◌≡◌, ◌+◌, ◌*◌, ◌≤◌, length};
ghost use Rattle.image.specs.Image.{max_image};
ghost use Rattle.store.specs.Interface.{refusal_of};
ghost use Rattle.report.specs.Report.{word_at, sizes_in, words_in, well_formed, longest as longest_of};
ghost use Rattle.report.specs.Report.{input_refusal};
ghost use Rattle.report.specs.inner.ReportFacts.{image_words};

use crate::SizesAt;
use image::Sizes;
use store::Refusal;

// Word i of the input.
pub fn word_at(input: &[u8], i: usize) -> u64
    requires { 8 * (i + 1) ≤ length input.now }
    ensures { result ≡ word_at input.now i }
{
    let bytes = input[8 * i..].first_chunk().unwrap();
    u64::from_le_bytes(*bytes)
}

// W, T and N at the start.
pub fn sizes_in(input: &[u8]) -> Sizes
    requires { 24 ≤ length input.now }
    ensures { result ≡ sizes_in SizesAt.Start input.now }
{
    Sizes {
        words: word_at(input, 0) as usize,
        lanes: word_at(input, 1) as usize,
        slots: word_at(input, 2) as usize,
    }
}

// Are the sizes at the start in range, and is the input as long as they say?
fn well_formed(input: &[u8]) -> bool
    ensures { result ≡ well_formed input.now }
{
    if input.len() < 24 {
        return false;
    }
    let sizes = sizes_in(input);
    if !image::sizes_ok(sizes) {
        return false;
    }
    input.len() == 8 * (3 + image::former_length(sizes))
}

// The bytes of the longest input that is not refused.
pub fn longest(place: SizesAt) -> usize
    ensures { result ≡ longest_of place }
{
    match place {
        SizesAt::Start => 8 * (3 + image::MAX_FORMER),
        SizesAt::End => 8 * image::MAX_IMAGE,
    }
}

// Is the input refused before recovery?
pub fn refusal(place: SizesAt, input: &[u8]) -> Result<(), Refusal>
    ensures { refusal_of result ≡ input_refusal place input.now }
{
    match place {
        SizesAt::Start => {
            if well_formed(input) {
                return Ok(());
            }
            Err(Refusal::BadBuffers)
        }
        SizesAt::End => {
            if longest(place) < input.len() {
                return Err(Refusal::BadTrailer);
            }
            if input.len() % 8 != 0 {
                return Err(Refusal::BadBuffers);
            }
            Ok(())
        }
    }
}

// How many words the image has.
pub fn image_words(place: SizesAt, input: &[u8]) -> usize
    requires { input_refusal place input.now ≡ 0 }
    ensures counted { result ≡ image_words place input.now }
    ensures few { result ≤ max_image }
{
    match place {
        SizesAt::Start => image::former_length(sizes_in(input)),
        SizesAt::End => input.len() / 8,
    }
}

// The words from word `first` on, as many as `nvm` takes.
pub fn decode(input: &[u8], first: usize, nvm: &mut [u64])
    requires { 8 * (first + length nvm.old) ≤ length input.now }
    ensures { nvm.new ≡ words_in input.now first (length nvm.old) }
{
    for (i, word) in nvm.iter_mut().enumerate() {
        *word = word_at(input, first + i);
    }
}
