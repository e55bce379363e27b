// Recovery in the second implementation: it lists all stores first, and then makes as many as the limit allows.
// SPECIFICATION, "Recovery".
use crate::calls::{Answer, Refusal, unless};
use crate::image::Sizes;
use crate::list::{List, OF_ALL, OF_STORES};
use crate::machine::{Given, Machine};
use crate::reading::{Log, Sequence, Slot};
use crate::records::Record;
use crate::words::{set_word, word_at};

// A store to non-volatile memory.
#[derive(Clone, Copy, Default)]
struct Store {
    place: u64,
    value: u64,
}

type Stores = List<Store, OF_STORES>;

// The logs of all lanes, and their sequences as they were appended.
#[derive(Clone, Copy)]
struct Logs {
    logs: List<Log, 8>,
    sequences: List<Sequence, OF_ALL>,
}

impl Logs {
    fn read(sizes: &Sizes, image: &[u64]) -> Logs {
        let base = word_at(image, 0);
        let mut logs = List::new(Log::empty(sizes, 0));
        let mut sequences = List::new(Sequence::default());
        for lane in 0..sizes.lanes {
            let log = Log::read(sizes, image, lane);
            for sequence in log.sequences(base).as_slice() {
                sequences.push(*sequence);
            }
            logs.push(log);
        }
        sequences.sort();
        Logs { logs, sequences }
    }

    // The boundary: going down the sequences, the timestamp at which the last of the lanes that give one turns up. Not
    // all do: a lane turns up with its newest sequence, and gives none where that closes no entries.
    fn boundary(&self) -> Option<u64> {
        let mut seen = [false; 8];
        let mut boundary = None;
        for sequence in self.sequences.as_slice().iter().rev() {
            if let Some(seen) = seen.get_mut(sequence.lane as usize) {
                if !*seen {
                    boundary = sequence.given().or(boundary);
                }
                *seen = true;
            }
        }
        boundary
    }

    // The greatest whole timestamp, complete or not.
    fn greatest_stamp(&self) -> Option<u64> {
        self.logs
            .as_slice()
            .iter()
            .filter_map(|log| log.greatest_stamp())
            .max()
    }

    fn torn(&self) -> u64 {
        self.logs
            .as_slice()
            .iter()
            .fold(0, |torn: u64, log| torn.wrapping_add(log.torn()))
    }

    // What undoes the entry k places before a sequence's timestamp.
    fn undo(&self, sizes: &Sizes, sequence: &Sequence, k: u64) -> Option<Store> {
        let log = self.logs.as_slice().get(sequence.lane as usize)?;
        match log.slot(sizes.behind(sequence.slot, k)) {
            Slot::Entry { word, old, .. } => Some(Store {
                place: word.wrapping_add(1),
                value: old,
            }),
            _ => None,
        }
    }

    // What undoes every sequence at or above the boundary, the last one first, and of each its last entry first.
    fn undo_all(&self, sizes: &Sizes, boundary: Option<u64>) -> Stores {
        let mut stores = List::new(Store::default());
        let Some(boundary) = boundary else {
            return stores;
        };
        for sequence in self.sequences.as_slice().iter().rev() {
            for k in 0..sequence.count {
                match self.undo(sizes, sequence, k.wrapping_add(1)) {
                    Some(store) if boundary <= sequence.stamp => stores.push(store),
                    _ => {}
                }
            }
        }
        stores
    }
}

// Lists the stores behind those that undo entries: the base timestamp, and 0 to each log word.
fn list_rest(stores: &mut Stores, sizes: &Sizes, base: u64) {
    stores.push(Store {
        place: 0,
        value: base,
    });
    for place in sizes.words.wrapping_add(1)..sizes.former() {
        stores.push(Store { place, value: 0 });
    }
}

impl Machine<'_> {
    // Causes 16 and 10.
    fn bad_lag(&self, given: &Given) -> Option<Refusal> {
        Refusal::BadLag.when(!given.lag_ok())
    }

    fn odd_base(&self) -> Option<Refusal> {
        Refusal::OddBase.when(word_at(self.nvm, 0) % 2 == 1)
    }

    // Lists all stores, and makes the first ones, as many as the limit allows. Once all are made it is a start, of the
    // trailer too where there is one.
    fn recover_by(&mut self, given: &Given, sizes: &Sizes) -> Answer {
        let logs = Logs::read(sizes, self.nvm);
        let boundary = logs.boundary();
        let mut stores = logs.undo_all(sizes, boundary);
        let undone = stores.as_slice().len() as u64;
        let base = word_at(self.nvm, 0).max(logs.greatest_stamp().unwrap_or(0));
        list_rest(&mut stores, sizes, base);
        let stores = stores.as_slice();
        for store in stores.iter().take(given.number as usize) {
            set_word(self.nvm, store.place, store.value);
        }
        if given.number < stores.len() as u64 {
            return Answer::Cut;
        }
        self.refill_cache();
        *self.state = Record::start(given.lag, base);
        Answer::Recovered {
            boundary,
            undone,
            torn: logs.torn(),
        }
    }

    // Recovery by the sizes that it is given.
    pub(crate) fn recover(&mut self, given: &Given) -> Result<Answer, Refusal> {
        unless(&[self.bad_lag(given), self.odd_base()])?;
        Ok(self.recover_by(given, &given.sizes))
    }

    // Recovery without sizes: those that it is given are not looked at.
    pub(crate) fn recover_read(&mut self, given: &Given) -> Result<Answer, Refusal> {
        let told = Sizes::told_by(self.nvm);
        unless(&[
            Refusal::Lengths.when(!self.is_alike()),
            Refusal::NoTrailer.when(told.is_none()),
            self.bad_lag(given),
            self.odd_base(),
        ])?;
        let sizes = told.ok_or(Refusal::NoTrailer)?;
        Ok(self.recover_by(given, &sizes))
    }
}
