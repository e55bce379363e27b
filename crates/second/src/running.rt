// How the second implementation checks and runs a transaction: instructions made of words by patterns, and a run that
// looks up what a word is in the writes made so far. SPECIFICATION, "Transactions".
use crate::calls::Refusal;
use crate::list::{List, OF_WRITES};
use crate::records::Pair;
use crate::words::word_at;

// `word` is written. 4 was POKE, which is withdrawn.
#[derive(Clone, Copy, PartialEq, Eq, Debug)]
pub(crate) enum Instruction {
    Set { word: u64, value: u64 },
    Copy { word: u64, from: u64 },
    Add { word: u64, from: u64, value: u64 },
    Skip { unless: u64, distance: u64 },
}

impl TryFrom<[u64; 4]> for Instruction {
    type Error = Refusal;

    fn try_from(words: [u64; 4]) -> Result<Instruction, Refusal> {
        match words {
            [1, word, 0, value] => Ok(Instruction::Set { word, value }),
            [2, word, from, 0] => Ok(Instruction::Copy { word, from }),
            [3, word, from, value] => Ok(Instruction::Add { word, from, value }),
            [5, 0, unless, distance] => Ok(Instruction::Skip { unless, distance }),
            _ => Err(Refusal::BadTransaction),
        }
    }
}

impl Instruction {
    // Is it well formed where there are so many data words, and so many instructions follow?
    fn is_ok(&self, words: u64, after: u64) -> bool {
        match *self {
            Instruction::Set { word, .. } => word < words,
            Instruction::Copy { word, from } => word < words && from < words,
            Instruction::Add { word, from, .. } => word < words && from < words,
            Instruction::Skip { unless, distance } => {
                unless < words && (1..=15).contains(&distance) && distance <= after
            }
        }
    }
}

// The instructions of a transaction.
pub(crate) type Instructions = List<Instruction, OF_WRITES>;

pub(crate) fn no_instructions() -> Instructions {
    List::new(Instruction::Set { word: 0, value: 0 })
}

// Those of a transaction of at most so many, none where it is not well formed.
pub(crate) fn parse(given: &[u64], words: u64, most: u64) -> Option<Instructions> {
    let (rows, rest) = given.as_chunks::<4>();
    let mut after = rows.len() as u64;
    if !rest.is_empty() || after == 0 || most < after {
        return None;
    }
    let mut instructions = no_instructions();
    for row in rows {
        after = after.wrapping_sub(1);
        let Ok(instruction) = Instruction::try_from(*row) else {
            return None;
        };
        if !instruction.is_ok(words, after) {
            return None;
        }
        instructions.push(instruction);
    }
    Some(instructions)
}

// What a transaction writes, over which value.
#[derive(Clone, Copy, PartialEq, Eq, Default, Debug)]
pub(crate) struct Write {
    pub pair: Pair,
    pub old: u64,
}

pub(crate) type Writes = List<Write, OF_WRITES>;

// What a data word is after these writes.
pub(crate) fn present(image: &[u64], writes: &[Write], word: u64) -> u64 {
    writes
        .iter()
        .rev()
        .find(|write| write.pair.word == word)
        .map_or(word_at(image, word.wrapping_add(1)), |write| {
            write.pair.value
        })
}

// The pair that an instruction writes; a SKIP writes none.
fn written(image: &[u64], writes: &[Write], instruction: Instruction) -> Option<Pair> {
    match instruction {
        Instruction::Set { word, value } => Some(Pair { word, value }),
        Instruction::Copy { word, from } => Some(Pair {
            word,
            value: present(image, writes, from),
        }),
        Instruction::Add { word, from, value } => Some(Pair {
            word,
            value: present(image, writes, from).wrapping_add(value),
        }),
        Instruction::Skip { .. } => None,
    }
}

// How many instructions are passed over after one.
fn distance(image: &[u64], writes: &[Write], instruction: Instruction) -> u64 {
    match instruction {
        Instruction::Skip { unless, distance } if present(image, writes, unless) == 0 => distance,
        _ => 0,
    }
}

// The writes of a transaction on an image.
pub(crate) fn run(image: &[u64], instructions: &[Instruction]) -> Writes {
    let mut writes = List::new(Write::default());
    let mut passed = 0u64;
    for instruction in instructions {
        if passed != 0 {
            passed -= 1;
            continue;
        }
        passed = distance(image, writes.as_slice(), *instruction);
        if let Some(pair) = written(image, writes.as_slice(), *instruction) {
            let old = present(image, writes.as_slice(), pair.word);
            writes.push(Write { pair, old });
        }
    }
    writes
}

// The writes of pairs on an image.
pub(crate) fn over(image: &[u64], pairs: &[Pair]) -> Writes {
    let mut writes = List::new(Write::default());
    for pair in pairs {
        let old = present(image, writes.as_slice(), pair.word);
        writes.push(Write { pair: *pair, old });
    }
    writes
}
