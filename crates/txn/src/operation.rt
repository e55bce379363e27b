// What an instruction does, of those that a new transaction may have.
ghost use Rattle.std.specs.Prelude.{◌≡◌};
ghost use Rattle.txn.specs.Txn.{instruction_ok};
ghost use Rattle.txn.specs.inner.Operations.{instruction_for, Decodes};

// The greatest distance of SKIP.
const MAX_DISTANCE: usize = 15;

#[derive(Clone, Copy)]
pub(crate) enum Operation {
    // the word becomes `new`
    Set { word: usize, new: u64 },
    // the word becomes word `from`
    Copy { word: usize, from: usize },
    // the word becomes word `from` plus `by`
    Add { word: usize, from: usize, by: u64 },
    // if word `test` is 0, the next `distance` instructions are passed over
    Skip { test: usize, distance: usize },
}

// Four words that are no instruction: an unknown code, or an unused field that is not 0.
#[derive(Clone, Copy)]
pub(crate) struct Malformed;

impl TryFrom<[u64; 4]> for Operation {
    type Error = Malformed;

    ghost try_from_gives = { Decodes };

    #[tactic(auto, unfolding(crate::specs::Txn::instruction_ok, crate::specs::Txn::set_ok, crate::specs::Txn::copy_ok, crate::specs::Txn::add_ok, crate::specs::Txn::skip_ok))]
    fn try_from(instruction: [u64; 4]) -> Result<Self, Malformed> {
        let [code, a, b, k] = instruction;
        let word = a as usize;
        let from = b as usize;
        match code {
            1 if b == 0 => Ok(Operation::Set { word, new: k }),
            2 if k == 0 => Ok(Operation::Copy { word, from }),
            3 => Ok(Operation::Add { word, from, by: k }),
            5 if a == 0 => Ok(Operation::Skip {
                test: from,
                distance: k as usize,
            }),
            _ => Err(Malformed),
        }
    }
}

impl Operation {
    // Are its words below `words`, and its distance in range, where `after` instructions follow it?
    #[tactic(auto, unfolding(crate::specs::Txn::instruction_ok, crate::specs::Txn::set_ok, crate::specs::Txn::copy_ok, crate::specs::Txn::add_ok, crate::specs::Txn::skip_ok))]
    pub(crate) fn is_ok(self, words: usize, after: usize) -> bool
        ensures { result ≡ instruction_ok words after (instruction_for self) }
    {
        match self {
            Operation::Set { word, .. } => word < words,
            Operation::Copy { word, from } => word < words && from < words,
            Operation::Add { word, from, .. } => word < words && from < words,
            Operation::Skip { test, distance } => {
                test < words && (1..=MAX_DISTANCE).contains(&distance) && distance <= after
            }
        }
    }
}
