// What a trace runs on: the settings of its calls, the state and the buffers.
ghost use Rattle.std.specs.Prelude.{◌≤◌};
ghost use Rattle.std.specs.Iterator.{IsFinite};
ghost use Rattle.image.specs.Image.{max_image};

use crate::op::{Buffer, Call, Form};
use codec::{RECORD_WORDS, STATE_WORDS};
use image::{MAX_IMAGE, Sizes};
use record::{MAX_LAG, Record};
use recovery::{Finished, Restart};
use store::{Answer, Refusal};

// What a call of recovery returns, and what it answers: nothing where it was cut.
type Restarted = Result<Option<Restart>, Refusal>;

pub(crate) type Recovered = Result<Option<Finished>, Refusal>;

// The state is the record's words and, behind them, the lock's pairs; between ops the record's words are in normal
// form. Kept as arrays of the longest image beside a length that is worked out: what stands behind the present length
// stays from op to op, when sizes or form change, and is there again when the image is longer.
#[derive(Drop)]
pub(crate) struct Machine {
    pub(crate) sizes: Sizes,
    pub(crate) form: Form,
    // the lag limit that Format and the recoveries are given
    pub(crate) lag: u64,
    state: [u64; STATE_WORDS],
    cached: [u64; MAX_IMAGE],
    cells: [u64; MAX_IMAGE],
    flags: [u8; MAX_IMAGE],
}

// Puts the values into the buffer from an index on, as far as it goes.
fn store<T: Drop, V: Iterator<Item = T> + Drop>(buffer: &mut [T], index: usize, values: V)
    requires { V.Iterator.can_next values × IsFinite (V.Iterator.remaining values) }
{
    for (place, value) in buffer.iter_mut().skip(index).zip(values) {
        *place = value;
    }
}

// As much of the buffer as asked for, or all.
fn up_to<T>(buffer: &mut [T; MAX_IMAGE], count: usize) -> &mut [T] {
    &mut buffer[..count.min(MAX_IMAGE)]
}

// The state that a start leaves: its record, and pairs of 0.
fn put_started(after: Record, state: &mut [u64; STATE_WORDS]) {
    codec::record_to(after, state.first_chunk_mut().unwrap());
    state[RECORD_WORDS..].fill(0);
}

impl Machine {
    // Buffers and a state of zeros.
    pub(crate) fn new(sizes: Sizes) -> Machine {
        Machine {
            sizes,
            form: Form::New,
            lag: MAX_LAG,
            state: [0; STATE_WORDS],
            cached: [0; MAX_IMAGE],
            cells: [0; MAX_IMAGE],
            flags: [0; MAX_IMAGE],
        }
    }

    // The words of an image of the present sizes and form, none where the sizes are out of range.
    fn image_words(&self) -> usize
        ensures { result ≤ max_image }
    {
        let sizes = self.sizes;
        if !image::sizes_ok(sizes) {
            return 0;
        }
        match self.form {
            Form::New => image::image_length(sizes),
            Form::Former => image::former_length(sizes),
        }
    }

    pub(crate) fn state(&self) -> &[u64] {
        &self.state
    }

    // The buffers' words of the present form.
    pub(crate) fn cached(&self) -> &[u64] {
        &self.cached[..self.image_words()]
    }

    pub(crate) fn cells(&self) -> &[u64] {
        &self.cells[..self.image_words()]
    }

    pub(crate) fn flags(&self) -> &[u8] {
        &self.flags[..self.image_words()]
    }

    pub(crate) fn call(&mut self, call: Call) -> Result<Answer, Refusal> {
        let sizes = self.sizes;
        let lag = self.lag;
        let length = self.image_words();
        let state = &mut self.state;
        let cached = up_to(&mut self.cached, length);
        let cells = up_to(&mut self.cells, length);
        let flags = up_to(&mut self.flags, length);
        match call {
            Call::Log { lane, txn } => append::log(sizes, state, cached, cells, flags, lane, txn),
            Call::Redo { lane } => commit::redo(sizes, state, cached, cells, flags, lane),
            Call::Validate { lane, txn } => commit::validate(
                sizes, state, cached, cells, flags, lane, txn,
            ),
            Call::Mark { lane } => append::mark(sizes, state, cached, cells, flags, lane),
            Call::Drain { lane } => store::drain(sizes, state, cached, cells, flags, lane),
            Call::WriteBack { word } => store::write_back(sizes, cached, cells, flags, word),
            // a refused one leaves the state as it was
            Call::Format { start } => {
                let after = store::format(sizes, lag, start, cached, cells, flags)?;
                put_started(after, state);
                Ok(Answer::Done)
            }
            Call::Lock { lane, txn } => lock::begin(sizes, state, cached, cells, flags, lane, txn),
            Call::Continue { lane } => lock::proceed(sizes, state, cached, cells, flags, lane),
        }
    }

    // The state becomes what a recovery returns, and stays where it returns no record.
    fn restarted(&mut self, answer: Restarted) -> Recovered {
        let Some(restart) = answer? else {
            return Ok(None);
        };
        put_started(restart.state, &mut self.state);
        Ok(Some(restart.finished))
    }

    // Recovers with the sizes given.
    pub(crate) fn recover(&mut self, limit: usize) -> Recovered {
        let length = self.image_words();
        let restart = restart::recover(
            self.sizes,
            self.lag,
            up_to(&mut self.cached, length),
            up_to(&mut self.cells, length),
            up_to(&mut self.flags, length),
            limit,
        );
        self.restarted(restart)
    }

    // Recovers without, given so many words of each buffer.
    pub(crate) fn recover_read(
        &mut self,
        limit: usize,
        cells: usize,
        cached: usize,
        flags: usize,
    ) -> Recovered {
        let restart = restart::recover_read(
            self.lag,
            up_to(&mut self.cached, cached),
            up_to(&mut self.cells, cells),
            up_to(&mut self.flags, flags),
            limit,
        );
        self.restarted(restart)
    }

    // Stores values, modulo 256 for flags, from an index on.
    pub(crate) fn store(&mut self, buffer: Buffer, index: usize, values: &[u64]) {
        let length = self.image_words();
        match buffer {
            Buffer::Cached => store(&mut self.cached[..length], index, values.iter().copied()),
            Buffer::Cells => store(&mut self.cells[..length], index, values.iter().copied()),
            Buffer::Flags => store(
                &mut self.flags[..length],
                index,
                values.iter().map(|value| (value % 256) as u8),
            ),
        }
    }

    // Sets the state, and brings the record to normal form.
    pub(crate) fn set_state(&mut self, words: &[u64]) {
        store(&mut self.state, 0, words.iter().copied());
        codec::write::normalise(self.state.first_chunk_mut().unwrap());
    }
}
