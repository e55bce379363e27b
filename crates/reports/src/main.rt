// Program `reports`: the reports of odd inputs, and of inputs at the ends of the ranges, one after the other, first
// those with the sizes at the start, then images alone; then, as program `recover` does it, that of standard input.
#![tactic(auto)]

use report::SizesAt;
use std::alloc::AllocError;
use std::io;

// The bytes of a buffer that has room for each of these reports, and of one that has not.
const LONG: usize = 65536;

const SHORT: usize = 4096;

// Puts words behind the bytes, eight bytes each, the least significant first.
fn push_words(bytes: &mut Vec<u8>, words: &[u64]) -> Result<(), AllocError> {
    for word in words {
        bytes.extend_from_slice(&word.to_le_bytes())?;
    }
    Ok(())
}

// An input of `size` bytes: the first words, zeros, the last words.
fn input(
    rt: &HostRuntime,
    first: &[u64],
    last: &[u64],
    size: usize,
) -> Result<Vec<u8>, AllocError> {
    let mut bytes = Vec::new(rt.alloc());
    push_words(&mut bytes, first)?;
    bytes.resize(size.saturating_sub(8 * last.len()), 0)?;
    push_words(&mut bytes, last)?;
    Ok(bytes)
}

// Prints the report of an input.
fn show(
    rt: &HostRuntime,
    place: SizesAt,
    first: &[u64],
    last: &[u64],
    size: usize,
) -> io::Result<()> {
    let bytes = input(rt, first, last, size)?;
    let mut output = [0u8; LONG];
    let count = report::report(place, &bytes, &mut output);
    rt.write_all(&output[..count])
}

// Prints how long it is, in a long buffer and in a short one.
fn measure(
    rt: &HostRuntime,
    place: SizesAt,
    first: &[u64],
    last: &[u64],
    size: usize,
) -> io::Result<()> {
    let bytes = input(rt, first, last, size)?;
    let count = report::report(place, &bytes, &mut [0u8; LONG]);
    let none = report::report(place, &bytes, &mut [0u8; SHORT]);
    println!(rt; "{count} {none}")
}

// Sizes at the start, and zeros after these words.
fn given(rt: &HostRuntime, words: &[u64], size: usize) -> io::Result<()> {
    show(rt, SizesAt::Start, words, &[], size)
}

// All that there is of an image alone, and zeros after these words.
fn short(rt: &HostRuntime, words: &[u64], size: usize) -> io::Result<()> {
    show(rt, SizesAt::End, words, &[], size)
}

// An image alone.
fn alone(rt: &HostRuntime, words: &[u64], trailer: &[u64], size: usize) -> io::Result<()> {
    show(rt, SizesAt::End, words, trailer, size)
}

// Sizes 2, 1, 34 ask for 592 bytes.
fn lengths(rt: &HostRuntime) -> io::Result<()> {
    let sizes = [2u64, 1, 34];
    given(rt, &sizes, 0)?;
    given(rt, &sizes, 23)?;
    given(rt, &sizes, 24)?;
    given(rt, &sizes, 584)?;
    given(rt, &sizes, 591)?;
    given(rt, &sizes, 593)?;
    given(rt, &sizes, 600)
}

// Each with as many bytes as its sizes would ask for.
fn ranges(rt: &HostRuntime) -> io::Result<()> {
    given(rt, &[0u64, 1, 34], 576)?;
    given(rt, &[1025u64, 1, 34], 8776)?;
    given(rt, &[2u64, 0, 34], 48)?;
    given(rt, &[2u64, 9, 34], 4944)?;
    given(rt, &[2u64, 1, 33], 576)?;
    given(rt, &[2u64, 1, 257], 4160)?;
    given(rt, &[u64::MAX, 1, 34], 592)
}

// Sizes 2, 1, 34: an odd base, empty logs, empty logs with the greatest word, and the sample of program `recover`.
fn images(rt: &HostRuntime) -> io::Result<()> {
    given(rt, &[2u64, 1, 34, 1, 9, 0], 592)?;
    given(rt, &[2u64, 1, 34, 0, 9, 0], 592)?;
    given(rt, &[2u64, 1, 34, 0, u64::MAX, 10], 592)?;
    given(rt, &[2u64, 1, 34, 0, 9, 0, 11, 7, 32777, 3], 592)
}

// The greatest sizes ask for 40,992 bytes.
fn greatest(rt: &HostRuntime) -> io::Result<()> {
    let sizes = [1024u64, 8, 256];
    given(rt, &sizes, 40984)?;
    given(rt, &sizes, 40993)?;
    measure(rt, SizesAt::Start, &sizes, &[0u64], 40992)
}

// An image with its trailer is no input with the sizes at the start; but those of 2, 1, 36 ask for as many bytes.
fn with_trailer(rt: &HostRuntime) -> io::Result<()> {
    let trailer = [2u64, 1, 34, 71];
    show(rt, SizesAt::Start, &[2u64, 1, 34, 0, 9, 0], &trailer, 624)?;
    show(rt, SizesAt::Start, &[2u64, 1, 36, 0, 9, 0], &trailer, 624)
}

// An image of sizes 2, 1, 34 has 75 words, 600 bytes: fewer than four words, bytes that are no words, four words, a
// word less and a word more.
fn lengths_alone(rt: &HostRuntime) -> io::Result<()> {
    let trailer = [2u64, 1, 34, 71];
    short(rt, &trailer, 0)?;
    short(rt, &trailer, 7)?;
    short(rt, &trailer, 8)?;
    short(rt, &trailer, 24)?;
    short(rt, &trailer, 31)?;
    short(rt, &trailer, 32)?;
    alone(rt, &[0u64], &trailer, 592)?;
    alone(rt, &[0u64], &trailer, 599)?;
    alone(rt, &[0u64], &trailer, 601)?;
    alone(rt, &[0u64], &trailer, 608)
}

// Each word of the trailer one less, and one more; and no trailer at all.
fn trailers(rt: &HostRuntime) -> io::Result<()> {
    alone(rt, &[0u64], &[1u64, 1, 34, 71], 600)?;
    alone(rt, &[0u64], &[3u64, 1, 34, 71], 600)?;
    alone(rt, &[0u64], &[2u64, 0, 34, 71], 600)?;
    alone(rt, &[0u64], &[2u64, 2, 34, 71], 600)?;
    alone(rt, &[0u64], &[2u64, 1, 33, 71], 600)?;
    alone(rt, &[0u64], &[2u64, 1, 35, 71], 600)?;
    alone(rt, &[0u64], &[2u64, 1, 34, 70], 600)?;
    alone(rt, &[0u64], &[2u64, 1, 34, 72], 600)?;
    alone(rt, &[0u64], &[0u64], 568)
}

// Each with the fourth word and as many bytes as its sizes would ask for.
fn ranges_alone(rt: &HostRuntime) -> io::Result<()> {
    alone(rt, &[0u64], &[0u64, 1, 34, 69], 584)?;
    alone(rt, &[0u64], &[1025u64, 1, 34, 1094], 8784)?;
    alone(rt, &[0u64], &[2u64, 0, 34, 3], 56)?;
    alone(rt, &[0u64], &[2u64, 9, 34, 615], 4952)?;
    alone(rt, &[0u64], &[2u64, 1, 33, 69], 584)?;
    alone(rt, &[0u64], &[2u64, 1, 257, 517], 4168)?;
    alone(rt, &[0u64], &[u64::MAX, 1, 34, 68], 576)
}

// An odd base with a wrong trailer and with the right one, empty logs, and the sample of program `recover_read`.
fn images_alone(rt: &HostRuntime) -> io::Result<()> {
    let trailer = [2u64, 1, 34, 71];
    alone(rt, &[1u64, 9, 0], &[2u64, 1, 34, 72], 600)?;
    alone(rt, &[1u64, 9, 0], &trailer, 600)?;
    alone(rt, &[0u64, 9, 0], &trailer, 600)?;
    alone(rt, &[0u64, 9, 0, 11, 7, 32777, 3], &trailer, 600)
}

// The greatest image has 5,125 words, 41,000 bytes. One byte more is refused as one word more is.
fn greatest_alone(rt: &HostRuntime) -> io::Result<()> {
    let trailer = [1024u64, 8, 256, 5121];
    alone(rt, &[0u64], &trailer, 40992)?;
    alone(rt, &[0u64], &trailer, 40999)?;
    alone(rt, &[0u64], &trailer, 41001)?;
    alone(rt, &[0u64], &trailer, 41008)?;
    measure(rt, SizesAt::End, &[0u64], &trailer, 41000)
}

fn main(rt: HostRuntime) -> io::Result<()> {
    lengths(&rt)?;
    ranges(&rt)?;
    images(&rt)?;
    greatest(&rt)?;
    with_trailer(&rt)?;
    lengths_alone(&rt)?;
    trailers(&rt)?;
    ranges_alone(&rt)?;
    images_alone(&rt)?;
    greatest_alone(&rt)?;
    report::report_input(SizesAt::Start, &mut rt.stdin(), &mut rt.stdout())?;
    Ok(())
}
