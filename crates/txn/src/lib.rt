// One transaction: its static check, and its run on data words that stay as they are.
#![tactic(auto)]

ghost use Rattle.std.specs.Prelude.{◌≡◌, ◌+◌, ◌%◌, ◌<◌, ◌≤◌, true, [], ◌∷◌, ◌++◌, length, take, slice_index};
ghost use Rattle.txn.specs.Txn.{max_long, instruction_ok, txn_ok, applied, run};
ghost use Rattle.txn.specs.inner.Chunks.{instruction_of};
ghost use Rattle.txn.specs.inner.Lookup.{buckets};

use operation::Operation;
use std::marker::Model;

mod operation;

// The most instructions of a transaction, and so the most writes: an instruction makes one or none.
pub const MAX_WRITES: usize = 16;

// The most instructions of a long transaction, which runs under the lock.
pub const MAX_LONG: usize = 64;

// How many buckets of words there are: a word's is its number modulo this.
const BUCKETS: usize = 64;

// One write of a run: a word's number, its value before the write and after it.
#[derive(Clone, Copy, Default)]
pub struct Write {
    pub word: usize,
    pub old: u64,
    pub new: u64,
}

// At most N writes, in order: the first `count` of the list; the rest is 0.
#[derive(Clone, Copy)]
pub struct Writes<const N: usize> {
    count: usize,
    list: [Write; N],
}

// Clauses see the writes.
impl<const N: usize> Model for Writes<N> {
    ghost use Rattle.std.specs.Prelude.{List, length, take};
    ghost use Rattle.txn.specs.declared.Write.{Write};
    ghost use Rattle.txn.specs.inner.Writes.{padded, Padded};
    ghost use Rattle.txn.specs.inner.WritesLaws.{counted, listed};

    ghost Value = { List Write };

    ghost view = { λ w. take w.count w.list };

    ghost invariant = { λ w. Padded N w.count w.list };

    ghost inverse = { λ l. record { count = length l; list = padded N l } };

    ghost inverse_ok = { λ w h i. record {
      count = counted N w.count w.list h i;
      list = listed N w.count w.list h i;
    } };
}

impl<const N: usize> Writes<N> {
    pub fn new() -> Self
        ensures { result ≡ [] }
    {
        Writes {
            count: 0,
            list: [Write::default(); N],
        }
    }

    pub fn len(&self) -> usize
        ensures value { result ≡ length self.now }
        ensures few { result ≤ N }
    {
        self.as_slice().len()
    }

    pub fn as_slice(&self) -> &[Write]
        ensures value { result.now ≡ self.now }
        ensures few { length result.now ≤ N }
    {
        &self.list[..self.count]
    }

    pub fn push(&mut self, write: Write)
        requires { length self.old < N }
        ensures { self.new ≡ self.old ++ write ∷ [] }
    {
        self.list[self.count] = write;
        self.count += 1;
    }
}

// Are these four words a well-formed instruction, where `after` instructions follow it?
fn instruction_ok(instruction: [u64; 4], words: usize, after: usize) -> bool
    ensures { result ≡ instruction_ok words after (instruction_of instruction) }
{
    Operation::try_from(instruction).is_ok_and(|operation| operation.is_ok(words, after))
}

// Are the words 1 to `most` well-formed instructions? Every instruction is looked at, those that a run may pass over
// too.
pub fn txn_ok(txn: &[u64], words: usize, most: usize) -> bool
    ensures { result ≡ txn_ok most words txn.now }
{
    let (instructions, rest) = txn.as_chunks::<4>();
    let count = instructions.len();
    if !rest.is_empty() || !(1..=most).contains(&count) {
        return false;
    }
    for (i, instruction) in instructions.iter().enumerate() {
        if !instruction_ok(*instruction, words, count - i - 1) {
            return false;
        }
    }
    true
}

// The value of a word after the writes so far: that of the last write to it, or the data's. It looks back over the
// writes from the last one to the word's bucket on.
fn value(writes: &[Write], last: &[u8; BUCKETS], memory: &[u64], word: usize) -> u64
    requires last_in_bounds { slice_index last.now (word % buckets) ≤ length writes.now }
    requires word_in_bounds { word < length memory.now }
    ensures { result
        ≡ slice_index (applied (take (slice_index last.now (word % buckets)) writes.now) memory.now) word }
{
    let end = last[word % BUCKETS] as usize;
    match writes[..end].iter().rev().find(|write| write.word == word) {
        Some(write) => write.new,
        None => memory[word],
    }
}

// The writes of a transaction, each instruction seeing those before it; the data stay as they are. A word is looked up
// at once, unless the transaction writes several words of its bucket.
pub fn run<const N: usize>(txn: &[u64], memory: &[u64]) -> Writes<N>
    requires txn_value { txn_ok N (length memory.now) txn.now ≡ true }
    requires most_bound { N ≤ max_long }
    ensures { result ≡ run (length memory.now) txn.now memory.now }
{
    let mut writes = Writes::new();
    // for each bucket the number of writes up to the last one to it, or 0
    let mut last = [0u8; BUCKETS];
    // how many instructions are still to be passed over
    let mut passed = 0;
    let (instructions, _) = txn.as_chunks::<4>();
    for instruction in instructions {
        if 0 < passed {
            passed -= 1;
            continue;
        }
        let Ok(operation) = Operation::try_from(*instruction) else {
            unreachable!()
        };
        let before = writes.as_slice();
        // a checked transaction has no POKE, which alone would write another word than its first
        let (word, new) = match operation {
            Operation::Set { word, new } => (word, new),
            Operation::Copy { word, from } => (word, value(before, &last, memory, from)),
            Operation::Add { word, from, by } => {
                (word, value(before, &last, memory, from).wrapping_add(by))
            }
            Operation::Skip { test, distance } => {
                if value(before, &last, memory, test) == 0 {
                    passed = distance;
                }
                continue;
            }
        };
        let old = value(before, &last, memory, word);
        writes.push(Write { word, old, new });
        last[word % BUCKETS] = writes.len() as u8;
    }
    writes
}
