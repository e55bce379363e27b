// The words of the input: how they are read, and what is left of them behind those that were taken.
ghost use Rattle.std.specs.Prelude.{ℕ, ◌<◌, ◌≤◌, ◌^◌, List, length, IfOk, OnOk};

use crate::stop::Stop;
use std::alloc::Global;
use std::io::Read;
use std::marker::Model;

// The words of the longest input.
const INPUT_WORDS: usize = 131072;

// The word of eight bytes, the least significant first.
fn word(bytes: &[u8; 8]) -> u64 {
    u64::from_le_bytes(*bytes)
}

// Reads the input to its end, but no more than tells whether it is too long. It is malformed where it is, and where it
// ends within a word.
pub(crate) fn read<R: Read + Drop>(alloc: Global, reader: R) -> Result<Vec<u64>, Stop>
    ensures { IfOk result (λ words. length words.items ≤ 2 ^ 17) }
{
    let mut bytes = Vec::new(alloc);
    reader
        .take(8 * INPUT_WORDS as u64 + 1)
        .read_to_end(&mut bytes)?;
    let (words, rest) = bytes.as_chunks();
    if INPUT_WORDS < words.len() || !rest.is_empty() {
        return Err(Stop::BadTrace);
    }
    Ok(words.iter().map(word).collect(alloc)?)
}

// The words that are left of an input.
#[derive(Drop)]
pub(crate) struct Words<'a> {
    left: &'a [u64],
}

impl<'a> Model for Words<'a> {
    ghost Value = { List ℕ };

    ghost view = { λ words. words.left.now };
}

impl<'a> Words<'a> {
    pub(crate) fn new(words: &'a [u64]) -> Words<'a> {
        Words { left: words }
    }

    pub(crate) fn is_empty(&self) -> bool {
        self.left.is_empty()
    }

    // The next word.
    pub(crate) fn next(&mut self) -> Result<u64, Stop>
        ensures { OnOk result (length self.new < length self.old) }
    {
        let left = self.left;
        let Some((first, rest)) = left.split_first() else {
            return Err(Stop::BadTrace);
        };
        self.left = rest;
        Ok(*first)
    }

    // The next one as an index, a lane or a size.
    pub(crate) fn number(&mut self) -> Result<usize, Stop>
        ensures { OnOk result (length self.new < length self.old) }
    {
        let word = self.next()?;
        Ok(word as usize)
    }

    // As many words as asked for.
    pub(crate) fn take(&mut self, count: usize) -> Result<&'a [u64], Stop>
        ensures { OnOk result (length self.new ≤ length self.old) }
    {
        let left = self.left;
        if left.len() < count {
            return Err(Stop::BadTrace);
        }
        let (taken, rest) = left.split_at(count);
        self.left = rest;
        Ok(taken)
    }

    // A word that says how many follow, at most `most`, and these.
    pub(crate) fn counted(&mut self, most: usize) -> Result<&'a [u64], Stop>
        ensures { OnOk result (length self.new ≤ length self.old) }
    {
        let count = self.number()?;
        if most < count {
            return Err(Stop::BadTrace);
        }
        self.take(count)
    }
}
