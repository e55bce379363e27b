// A page: a text in fixed memory, which is printed piece by piece.
ghost use Rattle.std.specs.Prelude.{◌≡◌, ℕ, ◌+◌, ◌≤◌, List, [], ◌++◌, length, take, drop};
ghost use Rattle.io.specs.Counts.{IsPrefixLen};
ghost use Rattle.report.specs.Report.{max_digits, decimal};
ghost use Rattle.report.specs.inner.ReportFacts.{Put};

use std::marker::Model;

// The most digits of a word.
pub const MAX_DIGITS: usize = 20;

#[derive(Drop)]
pub struct Page<const SIZE: usize> {
    bytes: [u8; SIZE],
    len: usize,
}

impl<const SIZE: usize> Model for Page<SIZE> {
    ghost Value = { List ℕ };

    ghost view = { λ page. take page.len page.bytes };

    ghost invariant = { λ page. page.len ≤ SIZE };
}

impl<const SIZE: usize> Page<SIZE> {
    pub fn new() -> Page<SIZE>
        ensures { result ≡ [] }
    {
        Page {
            bytes: [0; SIZE],
            len: 0,
        }
    }

    // Its text.
    pub fn as_bytes(&self) -> &[u8]
        ensures text { result.now ≡ self.now }
        ensures fits { length result.now ≤ SIZE }
    {
        &self.bytes[..self.len]
    }

    pub fn put(&mut self, text: &[u8])
        requires { length self.old + length text.now ≤ SIZE }
        ensures { Put self.old text.now self.new }
    {
        let from = self.len;
        let to = from + text.len();
        let bytes = &mut self.bytes[..];
        bytes[from..to].copy_from_slice(text);
        self.len = to;
    }

    // Not by `write!`: that answers a result, of which no clause says when it is `Ok`, and a report cannot fail.
    pub fn put_number(&mut self, number: u64)
        requires { length self.old + max_digits ≤ SIZE }
        ensures { Put self.old (decimal number) self.new }
    {
        let mut digits = [0u8; MAX_DIGITS];
        let count = io::decimal(number, &mut digits);
        self.put(&digits[..count]);
    }

    // Puts the text at the start of a buffer, and answers how many bytes it has. The bytes after it stay as they were.
    pub fn copy_to(&self, output: &mut [u8]) -> usize
        requires { SIZE ≤ length output.old }
        ensures counts { IsPrefixLen result output.new }
        ensures printed { take result output.new ≡ self.now }
        ensures kept { drop result output.new ≡ drop result output.old }
    {
        let text = self.as_bytes();
        output[..text.len()].copy_from_slice(text);
        text.len()
    }
}
