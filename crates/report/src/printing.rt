// The texts of a report.
ghost use Rattle.std.specs.Prelude.{◌≡◌, [], ◌+◌, ◌*◌, ◌≤◌, ◌++◌, length, get_or, take};
ghost use Rattle.image.specs.inner.Facts.{IsImage};
ghost use Rattle.store.specs.Interface.{number};
ghost use Rattle.report.specs.Report.{max_digits, word_room, room};
ghost use Rattle.report.specs.inner.ReportFacts.{Put};
ghost use Rattle.report.specs.Report.{stamp_text, refused_line, word_line, word_lines, finished_text};

use crate::ROOM;
use crate::page::{MAX_DIGITS, Page};
use image::Sizes;
use store::Refusal;

// The most bytes of the first line, and of a word's.
pub(crate) const BOUNDARY_ROOM: usize = 9 + MAX_DIGITS + 1;

pub(crate) const WORD_ROOM: usize = MAX_DIGITS + 1 + MAX_DIGITS + 1;

fn put_stamp(page: &mut Page<ROOM>, stamp: Option<u64>)
    requires { length page.old + max_digits ≤ room }
    ensures { Put page.old (stamp_text stamp) page.new }
{
    match stamp {
        None => page.put(b"none"),
        Some(number) => page.put_number(number),
    }
}

// The only line of a refusal.
pub(crate) fn refused(refusal: Refusal) -> Page<ROOM>
    ensures { result ≡ refused_line (number refusal) }
{
    let mut page = Page::new();
    page.put(b"refused ");
    page.put_number(refusal.number());
    page.put(b"\n");
    page
}

// A word's number and value.
fn put_word(page: &mut Page<ROOM>, i: usize, value: u64)
    requires { length page.old + word_room ≤ room }
    ensures { Put page.old (word_line i value) page.new }
{
    page.put_number(i as u64);
    page.put(b" ");
    page.put_number(value);
    page.put(b"\n");
}

// A line for each word.
fn put_words(page: &mut Page<ROOM>, words: &[u64])
    requires { length page.old + word_room * length words.now ≤ room }
    ensures { Put page.old (word_lines words.now (length words.now)) page.new }
{
    for (i, word) in words.iter().enumerate() {
        put_word(page, i, *word);
    }
}

// What a finished recovery answered, and the data words that it left.
pub(crate) fn finished(sizes: Sizes, nvm: &[u64], boundary: Option<u64>) -> Page<ROOM>
    requires image { IsImage sizes nvm.now }
    ensures { result ≡ finished_text sizes nvm.now boundary }
{
    let mut page = Page::new();
    page.put(b"boundary ");
    put_stamp(&mut page, boundary);
    page.put(b"\n");
    put_words(&mut page, &nvm[1..1 + sizes.words]);
    page
}
