// A list of calls, each on both implementations, and the tally of what they answered.
ghost use Rattle.std.specs.Prelude.{◌≡◌, ◌↔◌, if◌then◌else◌, IsTrue, None, Ok};
ghost use Rattle.std.specs.Result.{result_err};
ghost use Rattle.second.specs.inner.Words.{former_of, length_of, sum};
ghost use Rattle.second.specs.declared.calls.Answer.TheVariants.{Cut};
ghost use Rattle.bench.specs.inner.Run.{recovery_of};
ghost use Rattle.bench.specs.inner.Lengths.{all_long};

use crate::both;
use crate::buffers::{Buffers, Image, ROOM, START};
use crate::generator::Random;
use crate::spoil::Spoiled;
pub use crate::tally::Tally;
use second::image::Sizes;
use second::records::Record;
use second::words::MIN_LAG;
use second::{Answer, Call, Outcome, Refusal};

// How many words of each buffer a call is lent.
#[derive(Clone, Copy, PartialEq, Eq, Debug)]
pub struct Lengths {
    pub cache: u64,
    pub nvm: u64,
    pub flags: u64,
}

// The call that was made, and how many words it was given.
#[derive(Clone, Copy, PartialEq, Eq, Debug)]
pub struct Called {
    pub call: Call,
    pub used: u64,
}

// What the store left: its answer, the refusal that it was asked for beforehand, the record and the buffers.
#[derive(Clone, Copy)]
pub struct Left {
    pub outcome: Outcome,
    pub asked: Option<Refusal>,
    pub state: Record,
    pub buffers: Buffers,
}

// What the next call is given and lent, and what the last one left. What the second implementation leaves goes on.
#[derive(Drop)]
pub struct Session {
    pub random: Random,
    pub sizes: Sizes,
    pub lengths: Lengths,
    // the lag limit that starts are given
    pub lag: u64,
    // a transaction, or start words
    pub words: [u64; START],
    pub state: Record,
    pub buffers: Buffers,
    pub last: Called,
    pub stored: Left,
    // a word of what the store leaves, to be spoiled before it is compared
    pub spoiled: Option<Spoiled>,
    pub tally: Tally,
    // an image that is kept
    pub image: Image,
}

impl Session {
    pub fn new() -> Session
        ensures spoiled { result.spoiled ≡ None }
        ensures calls { result.tally.calls ≡ 0 }
        ensures differ { result.tally.differ ≡ 0 }
    {
        let state = Record::start(MIN_LAG, 0);
        let buffers = Buffers::new();
        Session {
            random: Random { seed: 1 },
            sizes: Sizes {
                words: 0,
                lanes: 0,
                slots: 0,
            },
            lengths: Lengths {
                cache: 0,
                nvm: 0,
                flags: 0,
            },
            lag: MIN_LAG,
            words: [0; START],
            state,
            buffers,
            last: Called {
                call: Call::Drain,
                used: 0,
            },
            stored: Left {
                outcome: Ok(Answer::Done),
                asked: None,
                state,
                buffers,
            },
            spoiled: None,
            tally: Tally::new(),
            image: [0; ROOM],
        }
    }

    pub fn set_lengths(&mut self, cache: u64, nvm: u64, flags: u64)
        ensures { self.new ≡ record self.old { lengths = record { cache = cache; nvm = nvm; flags = flags } } }
    {
        self.lengths = Lengths { cache, nvm, flags };
    }

    // Buffers as long as an image with its trailer.
    pub fn fit(&mut self)
        ensures { self.new ≡ record self.old {
          lengths = all_long
              (length_of self.old.sizes.words self.old.sizes.lanes self.old.sizes.slots);
        } }
    {
        let all = self.sizes.length();
        self.set_lengths(all, all, all);
    }

    // The same without a trailer.
    pub fn fit_former(&mut self)
        ensures { self.new ≡ record self.old {
          lengths = all_long
              (former_of self.old.sizes.words self.old.sizes.lanes self.old.sizes.slots);
        } }
    {
        let all = self.sizes.former();
        self.set_lengths(all, all, all);
    }

    // How long they are: the words of non-volatile memory.
    pub fn length(&self) -> u64
        ensures { result ≡ self.now.lengths.nvm }
    {
        self.lengths.nvm
    }

    // The recovery that an image so long is for: by sizes given where it has no trailer.
    pub fn recovery(&self) -> Call
        ensures { result ≡ recovery_of self.now.lengths.nvm
            (former_of self.now.sizes.words self.now.sizes.lanes self.now.sizes.slots) }
    {
        if self.length() == self.sizes.former() {
            return Call::Recover;
        }
        Call::RecoverRead
    }

    // Instruction `at` of the transaction: code, a, b, k. Nothing else changes than the words.
    pub fn set_instruction(&mut self, at: u64, instruction: [u64; 4])
        ensures { self.new ≡ record self.old { words = self.new.words } }
    {
        let (rows, _) = self.words.as_chunks_mut::<4>();
        if let Some(row) = rows.get_mut(at as usize) {
            *row = instruction;
        }
    }

    // What the store's last call was refused with.
    pub fn refusal(&self) -> Option<Refusal>
        ensures { result ≡ result_err self.now.stored.outcome }
    {
        self.stored.outcome.err()
    }

    pub fn is_cut(&self) -> bool
        ensures { IsTrue result ↔ (self.now.stored.outcome ≡ Ok Cut) }
    {
        self.stored.outcome == Ok(Answer::Cut)
    }

    // Counts a difference where something does not hold.
    pub fn expect(&mut self, holds: bool)
        ensures { self.new ≡ record self.old {
          tally =
              (if holds then self.old.tally else record self.old.tally { differ = sum self.old.tally.differ 1 });
        } }
    {
        if !holds {
            self.tally.differs();
        }
    }

    // A call, with buffers of the lengths that are set: `number` is the lane, the word or the limit, and the first `used`
    // words are the transaction or the start words.
    pub fn call(&mut self, call: Call, number: u64, used: u64)
        ensures { self.new.last ≡ record { call = call; used = used } }
    {
        self.last = Called { call, used };
        let same = both::run(self, number);
        self.tally.count(&self.stored.outcome);
        self.expect(same);
    }
}
