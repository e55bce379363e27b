// The inspections of programs `inspect` and `inspect_read`, from bytes to bytes: the listing of an image, which is in
// listing.rt, and then the report of its recovery. At the end, the same from a reader to a writer.
#![tactic(auto)]

ghost use Rattle.std.specs.Prelude.{◌≡◌, ◌+◌, ◌≤◌, [], length, take, drop, IfOk, IfSome, OnOk, OnErr};
ghost use Rattle.std.specs.Io.KnownBytes.{Appends};
ghost use Rattle.io.specs.Counts.{IsPrefixLen};
ghost use Rattle.streams.specs.Streams.{AppendsPart};
ghost use Rattle.report.specs.Report.{input_refusal};
ghost use Rattle.report.specs.inner.ReportFacts.{image_words, Blanks, Put};
ghost use Rattle.inspection.specs.Inspection.{listed, listing_room, inspection_room};
ghost use Rattle.inspection.specs.Inspection.{inspection_of, inspected_of, Inspected};

use report::page::Page;
use report::{SizesAt, reading};
use std::io::{Read, Result, Write};

mod listing;

// No inspection is longer.
const ROOM: usize = listing::LISTING_ROOM + report::ROOM;

// Lists the image after W, T and N, unless recovery of it is refused. Kept beside `list_told`, as in `report::SizesAt`.
// Kept as clauses, here and below: that the input is not refused at its place, and that the page has room. A struct of
// place and input with the fact would be made once and taken apart in each of them: no plainer.
fn list_given(page: &mut Page<ROOM>, input: &[u8], cache: &[u64], nvm: &mut [u64], flags: &[u8])
    requires input_value { input_refusal SizesAt.Start input.now ≡ 0 }
    requires blanks { Blanks (image_words SizesAt.Start input.now) cache.now nvm.old flags.now }
    requires listing_room_in_bounds { length page.old + listing_room ≤ inspection_room }
    ensures few { length page.new ≤ length page.old + listing_room }
    ensures printed { Put page.old (listed SizesAt.Start input.now) page.new }
{
    let sizes = reading::sizes_in(input);
    reading::decode(input, 3, nvm);
    if let Ok(()) = restart::recover_refusal(sizes, record::MAX_LAG, cache, nvm, flags) {
        listing::put_image(page, sizes, nvm);
    }
}

// The same of an image alone.
fn list_told(page: &mut Page<ROOM>, input: &[u8], cache: &[u64], nvm: &mut [u64], flags: &[u8])
    requires input_value { input_refusal SizesAt.End input.now ≡ 0 }
    requires blanks { Blanks (image_words SizesAt.End input.now) cache.now nvm.old flags.now }
    requires listing_room_in_bounds { length page.old + listing_room ≤ inspection_room }
    ensures few { length page.new ≤ length page.old + listing_room }
    ensures printed { Put page.old (listed SizesAt.End input.now) page.new }
{
    reading::decode(input, 0, nvm);
    if let Ok(()) = restart::recover_read_refusal(record::MAX_LAG, cache, nvm, flags) {
        listing::put_image(page, image::sizes_at_end(nvm), nvm);
    }
}

// That of the two that the place asks for.
fn list_in(
    page: &mut Page<ROOM>,
    place: SizesAt,
    input: &[u8],
    cache: &[u64],
    nvm: &mut [u64],
    flags: &[u8],
)
    requires input_value { input_refusal place input.now ≡ 0 }
    requires blanks { Blanks (image_words place input.now) cache.now nvm.old flags.now }
    requires listing_room_in_bounds { length page.old + listing_room ≤ inspection_room }
    ensures few { length page.new ≤ length page.old + listing_room }
    ensures printed { Put page.old (listed place input.now) page.new }
{
    match place {
        SizesAt::Start => list_given(page, input, cache, nvm, flags),
        SizesAt::End => list_told(page, input, cache, nvm, flags),
    }
}

// Lists the image of an input that is not refused, unless recovery is.
fn list_taken(page: &mut Page<ROOM>, place: SizesAt, input: &[u8])
    requires input_value { input_refusal place input.now ≡ 0 }
    requires listing_room_in_bounds { length page.old + listing_room ≤ inspection_room }
    ensures few { length page.new ≤ length page.old + listing_room }
    ensures printed { Put page.old (listed place input.now) page.new }
{
    let length = reading::image_words(place, input);
    let cache = report::blank_words();
    let mut nvm = report::blank_words();
    let flags = report::blank_flags();
    list_in(
        page,
        place,
        input,
        &cache[..length],
        &mut nvm[..length],
        &flags[..length],
    );
}

// Lists the image of an input, unless the input or recovery is refused.
fn list(page: &mut Page<ROOM>, place: SizesAt, input: &[u8])
    requires { length page.old + listing_room ≤ inspection_room }
    ensures few { length page.new ≤ length page.old + listing_room }
    ensures printed { Put page.old (listed place input.now) page.new }
{
    if let Ok(()) = reading::refusal(place, input) {
        list_taken(page, place, input);
    }
}

// The listing of an input and then its report, on a new page.
fn put_inspection(page: &mut Page<ROOM>, place: SizesAt, input: &[u8])
    requires { page.old ≡ [] }
    ensures { page.new ≡ inspection_of place input.now }
{
    list(page, place, input);
    let report = report::printed(place, input);
    page.put(report.as_bytes());
}

// Prints the inspection of an input at the start of `output`, and answers how many bytes it has. The bytes after it
// stay as they were. Where `output` is shorter than any inspection might be, nothing is printed, and the answer is 0.
pub fn inspect(place: SizesAt, input: &[u8], output: &mut [u8]) -> usize
    ensures counts { IsPrefixLen result output.new }
    ensures printed { take result output.new
        ≡ inspected_of place (length output.old) input.now }
    ensures kept { drop result output.new ≡ drop result output.old }
{
    if output.len() < ROOM {
        return 0;
    }
    let mut page = Page::new();
    put_inspection(&mut page, place, input);
    page.copy_to(output)
}

// Reads an input to its end, but no more than tells whether it is too long, and writes its inspection; answers how many
// bytes that has. That there was an input, and that the inspection of it is whole, holds whatever is read from and
// written to. Where a reader's bytes are known, as those of standard input are not, the inspection is that of all of
// them. After a failure its first bytes, or none, were written.
pub fn inspect_input<R: Read, W: Write>(
    place: SizesAt,
    reader: &mut R,
    writer: &mut W,
) -> Result<usize>
    ensures inspected { IfOk result (Inspected place) }
    ensures counted { IfOk result (λ n. IfSome (R.remaining reader.old)
        (λ xs. n ≡ length (inspection_of place xs))) }
    ensures printed { OnOk result (IfSome (R.remaining reader.old)
        (λ xs. Appends (W.contents writer.old) (W.contents writer.new) (inspection_of place xs))) }
    ensures failed { OnErr result (IfSome (R.remaining reader.old)
        (λ xs. AppendsPart (W.contents writer.old) (W.contents writer.new) (inspection_of place xs))) }
{
    let mut input = report::input_buffer();
    let most = report::taken(place);
    let count = streams::read_full(reader, &mut input[..most])?;
    let mut page = Page::new();
    put_inspection(&mut page, place, &input[..count]);
    let text = page.as_bytes();
    streams::write_all(writer, text)?;
    Ok(text.len())
}
