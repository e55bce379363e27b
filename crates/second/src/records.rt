// The record of the second implementation, its range check, and the floors. SPECIFICATION, "Record".
ghost use Rattle.std.specs.Prelude.{◌≡◌, ltb, is_some};
ghost use Rattle.second.specs.inner.Records.{start_of, lane_in, with_lane, with_lock_pair, with_pair};

use crate::image::Sizes;
use crate::words::{MAX_LAG, MAX_LANES, MAX_LONG, MAX_WRITES, MIN_LAG};

// A word number and its new value.
#[derive(Clone, Copy, PartialEq, Eq, Default, Debug)]
pub struct Pair {
    pub word: u64,
    pub value: u64,
}

// A logged transaction: its first slot, the count of its entries, its timestamp.
#[derive(Clone, Copy, PartialEq, Eq, Default, Debug)]
pub struct Held {
    pub first: u64,
    pub count: u64,
    pub stamp: u64,
}

#[derive(Clone, Copy, PartialEq, Eq, Debug)]
pub struct Lane {
    pub held: Option<Held>,
    // the slot that is written next, and the wrap bit it gets
    pub next: u64,
    pub wrap: u64,
    pub floor: Option<u64>,
    // what the held transaction writes
    pub pairs: [Pair; 16],
}

// Who has the lock: the lane, its timestamp, how many pairs its transaction has, how many of them are logged, and
// written.
#[derive(Clone, Copy, PartialEq, Eq, Default, Debug)]
pub struct Lock {
    pub lane: u64,
    pub stamp: u64,
    pub count: u64,
    pub logged: u64,
    pub written: u64,
}

#[derive(Clone, Copy, PartialEq, Eq, Debug)]
pub struct Record {
    pub clock: u64,
    // the timestamp of the last commit
    pub last: u64,
    // the lag limit
    pub lag: u64,
    pub lanes: [Lane; 8],
    pub lock: Option<Lock>,
    // what the transaction that has the lock writes
    pub lock_pairs: [Pair; 64],
}

// Idle, at slot 0 in the first lap.
const START: Lane = Lane {
    held: None,
    next: 0,
    wrap: 1,
    floor: None,
    pairs: [Pair { word: 0, value: 0 }; 16],
};

impl Lock {
    // How many pairs the next part has: sixteen, or as many as are not written yet.
    pub(crate) fn next_part(&self) -> u64 {
        MAX_WRITES.min(self.count.wrapping_sub(self.written))
    }

    // Whole parts are written, not all; and logged are these, or one part more.
    fn parts_ok(&self) -> bool {
        self.written % MAX_WRITES == 0
            && self.written < self.count
            && (self.logged == self.written
                || self.logged == self.written.wrapping_add(self.next_part()))
    }
}

fn pairs_ok(sizes: &Sizes, pairs: &[Pair], count: u64) -> bool {
    pairs
        .iter()
        .take(count as usize)
        .all(|pair| pair.word < sizes.words)
}

// An even number from 2 to 2^32.
pub(crate) fn lag_ok(lag: u64) -> bool {
    (MIN_LAG..=MAX_LAG).contains(&lag) && lag % 2 == 0
}

impl Record {
    // The record of a start, by the lag limit and the base timestamp.
    #[tactic(auto, unfolding(crate::specs::inner::Records::start_of))]
    pub fn start(lag: u64, base: u64) -> Record
        ensures { result ≡ start_of lag base }
    {
        Record {
            clock: base,
            last: base,
            lag,
            lanes: [START; 8],
            lock: None,
            lock_pairs: [Pair { word: 0, value: 0 }; 64],
        }
    }

    // A lane, or an idle one where there is none.
    pub fn lane(&self, lane: u64) -> Lane
        ensures { result ≡ lane_in self.now lane }
    {
        self.lanes.get(lane as usize).copied().unwrap_or(START)
    }

    // A lane to be changed where it stands, if there is one.
    pub fn edit(&mut self, lane: u64) -> Option<&mut Lane>
        ensures { is_some result ≡ ltb lane 8 }
    {
        self.lanes.get_mut(lane as usize)
    }

    // Changes a lane, where there is one.
    pub fn set_lane(&mut self, lane: u64, page: Lane)
        ensures { self.new ≡ with_lane self.old lane page }
    {
        if lane < MAX_LANES {
            self.lanes[lane as usize] = page;
        }
    }

    // Kept: this and the next two set fields of their own, and one function of all would set what callers leave.
    pub fn set_log(&mut self, lane: u64, next: u64, wrap: u64, floor: Option<u64>)
        ensures { self.new ≡ with_lane self.old lane
            (record (lane_in self.old lane) { next = next; wrap = wrap; floor = floor }) }
    {
        let page = self.lane(lane);
        self.set_lane(
            lane,
            Lane {
                next,
                wrap,
                floor,
                ..page
            },
        );
    }

    pub fn set_held(&mut self, lane: u64, held: Option<Held>)
        ensures { self.new ≡ with_lane self.old lane (record (lane_in self.old lane) { held = held }) }
    {
        let page = self.lane(lane);
        self.set_lane(lane, Lane { held, ..page });
    }

    pub fn set_floor(&mut self, lane: u64, floor: Option<u64>)
        ensures { self.new ≡ with_lane self.old lane (record (lane_in self.old lane) { floor = floor }) }
    {
        let page = self.lane(lane);
        self.set_lane(lane, Lane { floor, ..page });
    }

    // Pair i of a lane, where there is one.
    pub fn set_pair(&mut self, lane: u64, i: u64, pair: Pair)
        ensures { self.new ≡ with_lane self.old lane
            (record (lane_in self.old lane) { pairs = with_pair (lane_in self.old lane).pairs i pair }) }
    {
        let mut page = self.lane(lane);
        if i < MAX_WRITES {
            page.pairs[i as usize] = pair;
        }
        self.set_lane(lane, page);
    }

    pub fn set_lock_pair(&mut self, i: u64, pair: Pair)
        ensures { self.new ≡ with_lock_pair self.old i pair }
    {
        if i < MAX_LONG {
            self.lock_pairs[i as usize] = pair;
        }
    }

    // Even and not above the clock.
    fn in_time(&self, stamp: u64) -> bool {
        stamp % 2 == 0 && stamp <= self.clock
    }

    fn held_ok(&self, sizes: &Sizes, held: &Held, pairs: &[Pair]) -> bool {
        held.first < sizes.slots
            && (1..=MAX_WRITES).contains(&held.count)
            && self.in_time(held.stamp)
            && pairs_ok(sizes, pairs, held.count)
    }

    fn floor_ok(&self, floor: Option<u64>) -> bool {
        floor.is_none_or(|floor| self.in_time(floor))
    }

    fn lane_ok(&self, sizes: &Sizes, lane: &Lane) -> bool {
        let held_ok = match &lane.held {
            Some(held) => self.held_ok(sizes, held, &lane.pairs),
            None => true,
        };
        lane.next < sizes.slots && lane.wrap < 2 && self.floor_ok(lane.floor) && held_ok
    }

    fn lanes_ok(&self, sizes: &Sizes) -> bool {
        self.lanes
            .iter()
            .take(sizes.lanes as usize)
            .all(|lane| self.lane_ok(sizes, lane))
    }

    fn lock_held_ok(&self, sizes: &Sizes, lock: &Lock) -> bool {
        lock.lane < sizes.lanes
            && self.lane(lock.lane).held.is_none()
            && self.in_time(lock.stamp)
            && (1..=MAX_LONG).contains(&lock.count)
            && lock.parts_ok()
            && pairs_ok(sizes, &self.lock_pairs, lock.count)
    }

    fn lock_ok(&self, sizes: &Sizes) -> bool {
        match &self.lock {
            Some(lock) => self.lock_held_ok(sizes, lock),
            None => true,
        }
    }

    pub(crate) fn in_range(&self, sizes: &Sizes) -> bool {
        self.clock % 2 == 0
            && self.in_time(self.last)
            && self.lanes_ok(sizes)
            && lag_ok(self.lag)
            && self.lock_ok(sizes)
    }

    // The least floor, where this lane's is the one given.
    pub(crate) fn least_floor(&self, sizes: &Sizes, lane: u64, own: Option<u64>) -> Option<u64> {
        (0..sizes.lanes)
            .filter_map(|other| {
                if other == lane {
                    own
                } else {
                    self.lane(other).floor
                }
            })
            .min()
    }

    // Is the clock's next timestamp more than the lag limit above the bound? The timestamp is 2 above the clock and the
    // limit 2 at least: both are taken less 2, so that no sum can wrap. A bound above the clock, as damage makes it,
    // does not bind.
    pub(crate) fn lags(&self, bound: Option<u64>) -> bool {
        bound.is_some_and(|bound| {
            bound <= self.clock && self.lag.wrapping_sub(2) < self.clock.wrapping_sub(bound)
        })
    }

    // The clock's next timestamp.
    pub(crate) fn tick(&mut self) -> u64 {
        self.clock = self.clock.wrapping_add(2);
        self.clock
    }
}
