// The reports of programs `recover` and `recover_read`, from bytes to bytes: sizes and an image are read, recovery runs
// on the image, and the boundary and the data words are printed. Reading is in reading.rt, printing in printing.rt. At
// the end, the same from a reader to a writer.
#![tactic(auto)]

ghost use Rattle.std.specs.Prelude.{◌≡◌, ◌+◌, ◌≤◌, length, take, drop, IfOk, IfSome, OnOk, OnErr};
ghost use Rattle.std.specs.Io.KnownBytes.{Appends};
ghost use Rattle.io.specs.Counts.{IsPrefixLen};
ghost use Rattle.streams.specs.Streams.{AppendsPart};
ghost use Rattle.image.specs.Image.{max_image};
ghost use Rattle.image.specs.inner.Facts.{IsImage};
ghost use Rattle.recovery.specs.Interface.{recovered_of};
ghost use Rattle.report.specs.Report.{input_refusal, blank, finished_text, answer_text, report_of, longest};
ghost use Rattle.report.specs.Report.{room, printed_of, Reported};
ghost use Rattle.report.specs.inner.ReportFacts.{image_words, Blanks};

use image::Sizes;
use page::Page;
use recovery::Restart;
use std::io::{self, Read, Write};
use store::Refusal;

pub mod page;
mod printing;
pub mod reading;

// Where an input has its sizes. Kept as an enum that is matched where the two differ, with a function for each: they
// read the sizes at different times, decode from different words, are refused by different calls, and each has its own
// definition and its proof. A type parameter with a method for each step would be no plainer.
#[derive(Clone, Copy)]
pub enum SizesAt {
    // W, T and N, and then an image of the former length
    Start,
    // an image alone: its trailer tells them
    End,
}

// As many bytes as are ever read.
const TAKEN: usize = 8 * image::MAX_IMAGE + 1;

// No report is longer: a line for the boundary, and one for each data word.
pub const ROOM: usize = printing::BOUNDARY_ROOM + printing::WORD_ROOM * image::MAX_WORDS;

// More stores than recovery can make.
const NO_LIMIT: usize = usize::MAX;

// What recovery answered. It was not cut: there is no limit.
fn answered(sizes: Sizes, nvm: &[u64], answer: Result<Option<Restart>, Refusal>) -> Page<ROOM>
    requires image { IsImage sizes nvm.now }
    ensures { result ≡ answer_text sizes nvm.now (recovered_of answer) }
{
    match answer {
        Err(refusal) => printing::refused(refusal),
        Ok(None) => Page::new(),
        Ok(Some(restart)) => printing::finished(sizes, nvm, restart.finished.boundary),
    }
}

// Recovers the image after W, T and N in these buffers; what came of it. The record is not printed, so that its lag
// limit does not matter.
fn recovered_given(input: &[u8], cache: &mut [u64], nvm: &mut [u64], flags: &mut [u8]) -> Page<ROOM>
    requires input_value { input_refusal SizesAt.Start input.now ≡ 0 }
    requires blanks { Blanks (image_words SizesAt.Start input.now) cache.old nvm.old flags.old }
    ensures { result ≡ report_of SizesAt.Start input.now }
{
    let sizes = reading::sizes_in(input);
    reading::decode(input, 3, nvm);
    let answer = restart::recover(sizes, record::MAX_LAG, cache, nvm, flags, NO_LIMIT);
    answered(sizes, nvm, answer)
}

// The same of an image alone. The trailer is tested here, as by recovery itself, so that there are sizes to print by.
fn recovered_told(input: &[u8], cache: &mut [u64], nvm: &mut [u64], flags: &mut [u8]) -> Page<ROOM>
    requires input_value { input_refusal SizesAt.End input.now ≡ 0 }
    requires blanks { Blanks (image_words SizesAt.End input.now) cache.old nvm.old flags.old }
    ensures { result ≡ report_of SizesAt.End input.now }
{
    reading::decode(input, 0, nvm);
    if !image::trailer_ok(nvm) {
        return printing::refused(Refusal::BadTrailer);
    }
    let sizes = image::sizes_at_end(nvm);
    let answer = restart::recover_read(record::MAX_LAG, cache, nvm, flags, NO_LIMIT);
    answered(sizes, nvm, answer)
}

// That of the two that the place asks for. Kept as three slices, as the calls of recovery, and those for C above them,
// are lent them.
fn recovered_in(
    place: SizesAt,
    input: &[u8],
    cache: &mut [u64],
    nvm: &mut [u64],
    flags: &mut [u8],
) -> Page<ROOM>
    requires input_value { input_refusal place input.now ≡ 0 }
    requires blanks { Blanks (image_words place input.now) cache.old nvm.old flags.old }
    ensures { result ≡ report_of place input.now }
{
    match place {
        SizesAt::Start => recovered_given(input, cache, nvm, flags),
        SizesAt::End => recovered_told(input, cache, nvm, flags),
    }
}

// Zeros for the longest image.
pub fn blank_words() -> [u64; image::MAX_IMAGE]
    ensures { result ≡ blank max_image }
{
    [0; image::MAX_IMAGE]
}

// The same of bytes: one function for both would need the zero of a type, and be no shorter.
pub fn blank_flags() -> [u8; image::MAX_IMAGE]
    ensures { result ≡ blank max_image }
{
    [0; image::MAX_IMAGE]
}

// The report of an input that is not refused.
fn recovered(place: SizesAt, input: &[u8]) -> Page<ROOM>
    requires { input_refusal place input.now ≡ 0 }
    ensures { result ≡ report_of place input.now }
{
    let length = reading::image_words(place, input);
    let mut cache = blank_words();
    let mut nvm = blank_words();
    let mut flags = blank_flags();
    recovered_in(
        place,
        input,
        &mut cache[..length],
        &mut nvm[..length],
        &mut flags[..length],
    )
}

// The report of an input.
pub fn printed(place: SizesAt, input: &[u8]) -> Page<ROOM>
    ensures { result ≡ report_of place input.now }
{
    match reading::refusal(place, input) {
        Err(refusal) => printing::refused(refusal),
        Ok(()) => recovered(place, input),
    }
}

// Prints the report of an input at the start of `output`, and answers how many bytes it has. The bytes after it stay as
// they were. Where `output` is shorter than any report might be, nothing is printed, and the answer is 0.
pub fn report(place: SizesAt, input: &[u8], output: &mut [u8]) -> usize
    ensures counts { IsPrefixLen result output.new }
    ensures printed { take result output.new
        ≡ printed_of place (length output.old) input.now }
    ensures kept { drop result output.new ≡ drop result output.old }
{
    if output.len() < ROOM {
        return 0;
    }
    let page = printed(place, input);
    page.copy_to(output)
}

// One byte more than the longest input that is not refused: a longer one is then refused, and not cut to one that is
// not.
pub fn taken(place: SizesAt) -> usize
    ensures { result ≡ longest place + 1 }
{
    reading::longest(place) + 1
}

pub fn input_buffer() -> [u8; TAKEN]
    ensures { longest SizesAt.End + 1 ≡ length result }
{
    [0; TAKEN]
}

// Reads an input to its end, but no more than tells whether it is too long, and writes its report; answers how many
// bytes the report has. That there was an input, and that the report of it is whole, holds whatever is read from and
// written to. Where a reader's bytes are known, as those of standard input are not, the report is that of all of them.
// After a failure its first bytes, or none, were written.
pub fn report_input<R: Read, W: Write>(
    place: SizesAt,
    reader: &mut R,
    writer: &mut W,
) -> io::Result<usize>
    ensures reported { IfOk result (Reported place) }
    ensures counted { IfOk result (λ n. IfSome (R.remaining reader.old)
        (λ xs. n ≡ length (report_of place xs))) }
    ensures printed { OnOk result (IfSome (R.remaining reader.old)
        (λ xs. Appends (W.contents writer.old) (W.contents writer.new) (report_of place xs))) }
    ensures failed { OnErr result (IfSome (R.remaining reader.old)
        (λ xs. AppendsPart (W.contents writer.old) (W.contents writer.new) (report_of place xs))) }
{
    let mut input = input_buffer();
    let most = taken(place);
    let count = streams::read_full(reader, &mut input[..most])?;
    let page = printed(place, &input[..count]);
    let text = page.as_bytes();
    streams::write_all(writer, text)?;
    Ok(text.len())
}
