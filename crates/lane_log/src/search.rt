// The latest sequence of a log, and whether an append would overwrite one that is still needed.
ghost use Rattle.std.specs.Prelude.{◌≡◌, ℕ, ◌+◌, ◌*◌, ◌%◌, ◌≤◌, ◌<◌, get_or, fold};
ghost use Rattle.std.specs.List.{list_any, range_with_len};
ghost use Rattle.slot.specs.Slot.{max_entries};
ghost use Rattle.lane_log.specs.Log.{slot_at, complete_below, latest as latest_of, hits};
ghost use Rattle.lane_log.specs.Append.{circular as circular_of};
ghost use Rattle.lane_log.specs.inner.Search.{group, any_high, SkipsLow, higher as higher_of, candidate_below};
ghost use Rattle.lane_log.specs.inner.Search.{candidate_closed, rival as rival_of, rival_below};
ghost use Rattle.lane_log.specs.inner.Search.{lap_over, lapped_below, greater as greater_of};
ghost use Rattle.lane_log.specs.inner.Search.{greatest_below, stamp_from, hit_at};

use crate::tail::circular;
use crate::{Log, Sequence};
use slot::{Content, Slot};

// The most entries of a sequence.
const MAX_ENTRIES: usize = Slot::MAX_ENTRIES as usize;

// How many slots are passed over at once where none of them can hold a timestamp: entries come many to a timestamp.
const GROUP: usize = 4;

// The slot with the greatest timestamp, by the words of the slots that can hold one, which are not read. A value word
// is a timestamp, which is even, and a wrap bit, so halves of words compare as timestamps do.
#[derive(Clone, Copy)]
struct Candidate {
    // the half of its value word, that of the base where none is above it
    half: u64,
    // none where none is above the base, or more than one
    slot: Option<usize>,
}

// Of two sequences, the second in a higher slot, the one with the greater timestamp; of equal ones the second. Kept: what
// `max_by_key` ensures does not tell which of equal ones it gives.
#[tactic(auto, unfolding(crate::specs::inner::Search::greater))]
fn greater(best: Option<Sequence>, next: Option<Sequence>) -> Option<Sequence>
    ensures { result ≡ greater_of best next }
{
    match (best, next) {
        (Some(q), Some(r)) if r.stamp < q.stamp => best,
        (_, Some(_)) => next,
        (_, None) => best,
    }
}

impl Log<'_> {
    // The higher of a candidate and slot j.
    fn higher(&self, j: usize, best: Candidate) -> Candidate
        requires { j < self.now.slots }
        ensures { result ≡ higher_of self.now.log.now j best }
    {
        if !self.stamp_high(j) {
            return best;
        }
        let half = self.log[2 * j + 1] / 2;
        if half < best.half {
            return best;
        }
        if half == best.half {
            return Candidate { half, slot: None };
        }
        Candidate {
            half,
            slot: Some(j),
        }
    }

    // Can a slot of the group from slot j on hold a timestamp? The least address word of a timestamp is a power of two,
    // so one comparison of the bits of all of them tells.
    fn any_high(&self, j: usize) -> bool
        requires { j + group ≤ self.now.slots }
        ensures { result ≡ any_high self.now.log.now j }
    {
        let first = self.log[2 * j] | self.log[2 * (j + 1)];
        let last = self.log[2 * (j + 2)] | self.log[2 * (j + 3)];
        Slot::NUMBER * Slot::TAG <= first | last
    }

    // Takes a step at each slot, by rising slot. One that can hold no timestamp changes nothing, so where none of a group
    // can, all of it is passed over at once. Kept by slot numbers: a step is given the slot's number and reads
    // the log itself, so chunks of its words would have to be counted as well.
    fn fold_high<A: Copy, F: Fn(A, usize) -> A>(&self, start: A, step: F) -> A
        requires { (a : A) (j : ℕ) → j < self.now.slots → F.pre step a j }
        ensures { (h : A → ℕ → A) → ((a : A) (j : ℕ) (r : A) → F.post step a j r → r ≡ h a j)
            → SkipsLow self.now.log.now h
            → result ≡ fold h start (range_with_len 0 self.now.slots) }
    {
        let mut folded = start;
        for k in 0..self.slots / GROUP {
            if self.any_high(GROUP * k) {
                for j in GROUP * k..GROUP * (k + 1) {
                    folded = step(folded, j);
                }
            }
        }
        for j in self.slots - self.slots % GROUP..self.slots {
            folded = step(folded, j);
        }
        folded
    }

    // The highest candidate.
    fn highest(&self) -> Candidate
        ensures { result ≡ candidate_below self.now.base self.now.log.now self.now.slots }
    {
        let start = Candidate {
            half: self.base / 2,
            slot: None,
        };
        self.fold_high(start, |best, j| self.higher(j, best))
    }

    // What slot k closes, if that is a complete sequence with this timestamp and the other wrap bit; else `best`.
    pub fn lap_over(&self, stamp: u64, wrap: u64, k: usize, best: Sequence) -> Sequence
        requires { k < self.now.slots }
        ensures { let l = self.now in
            result ≡ lap_over l.words l.slots l.log.now stamp wrap k (slot_at l.words l.log.now k) best }
    {
        if !self.stamp_high(k) {
            return best;
        }
        let Content::Stamp {
            count,
            stamp: s,
            wrap: p,
        } = self.slot_at(k)
        else {
            return best;
        };
        if s != stamp {
            return best;
        }
        if p == wrap {
            return best;
        }
        if !self.entries_whole(k, p, count) {
            return best;
        }
        Sequence {
            stamp,
            count,
            slot: k,
        }
    }

    // The latest of the complete sequences with the timestamp of `found`, which has the highest slot of them: those
    // with the other wrap bit are later, and of these the highest is.
    fn lapped(&self, found: Sequence) -> Sequence
        requires { found.slot < self.now.slots }
        ensures { let l = self.now in
            result ≡ lapped_below l.words l.slots l.log.now found.stamp
            (get_or l.log.now (2 * found.slot) 0 % 2) found found.slot }
    {
        let wrap = self.log[2 * found.slot] & Slot::WRAP;
        (0..found.slot).fold(found, |best, k| self.lap_over(found.stamp, wrap, k, best))
    }

    // The complete sequence with the greatest timestamp; of equal ones that in the highest slot.
    fn greatest(&self) -> Option<Sequence>
        ensures { let l = self.now in
            result ≡ greatest_below l.words l.slots l.base l.log.now l.slots }
    {
        (0..self.slots).fold(None, |best, j| greater(best, self.closed_at(j)))
    }

    // The latest complete sequence, found by asking each slot what it closes. Entries are looked at by the first
    // timestamp after them alone, so this takes time linear in the slots whatever they hold.
    fn search_all(&self) -> Option<Sequence>
        ensures { let l = self.now in
            result ≡ latest_of (complete_below l.words l.slots l.base l.log.now 0 l.slots) }
    {
        let found = self.greatest()?;
        Some(self.lapped(found))
    }

    // What a candidate's slot closes, if there is such a slot.
    #[tactic(auto, unfolding(crate::specs::inner::Search::candidate_closed))]
    fn candidate_closed(&self, slot: Option<usize>) -> Option<Sequence>
        ensures { let l = self.now in
            result ≡ candidate_closed l.words l.slots l.base l.log.now slot }
    {
        let slot = slot?;
        if self.slots <= slot {
            return None;
        }
        self.closed_at(slot)
    }

    // The latest complete sequence. It is that of the greatest timestamp, where one slot alone has it and closes a
    // complete sequence; else every slot is asked. It is seldom needed after a look in one slot, which is faster where
    // this is not inlined.
    #[inline(never)]
    pub fn latest(&self) -> Option<Sequence>
        ensures { let l = self.now in
            result ≡ latest_of (complete_below l.words l.slots l.base l.log.now 0 l.slots) }
    {
        let best = self.highest();
        if best.half == self.base / 2 {
            return None;
        }
        // Kept: with `or_else` the proof does not close, since nothing is known of what its closure returns.
        match self.candidate_closed(best.slot) {
            Some(found) => Some(found),
            None => self.search_all(),
        }
    }

    // Can slot j, if it is another than `slot`, hold a timestamp at or above `least`? The value word is looked at
    // first: nearly always that is the last test.
    #[tactic(auto, unfolding(crate::specs::inner::Search::rival, crate::specs::inner::Search::stamp_from))]
    fn rival(&self, slot: usize, least: u64, j: usize) -> bool
        requires { j < self.now.slots }
        ensures { result ≡ rival_of self.now.log.now slot least j }
    {
        if self.log[2 * j + 1] < least {
            return false;
        }
        if j == slot {
            return false;
        }
        self.stamp_high(j)
    }

    // Can one of the group from slot j on?
    fn rival_in_group(&self, slot: usize, least: u64, j: usize) -> bool
        requires { j + group ≤ self.now.slots }
        ensures { result ≡ list_any (rival_of self.now.log.now slot least) (range_with_len j group) }
    {
        self.any_high(j) && (j..j + GROUP).any(|i| self.rival(slot, least, i))
    }

    // Can one of all slots? The first that can tells. Kept beside `fold_high`, which goes to the last slot: a fold has no
    // early end.
    fn has_rival(&self, slot: usize, least: u64) -> bool
        ensures { result ≡ rival_below self.now.log.now slot least self.now.slots }
    {
        (0..self.slots / GROUP).any(|k| self.rival_in_group(slot, least, GROUP * k))
            || (self.slots - self.slots % GROUP..self.slots).any(|j| self.rival(slot, least, j))
    }

    // The latest complete sequence, looked for in this slot first, where it nearly always is: what the slot closes is
    // it if no other slot can hold a timestamp as high, and that takes less time to tell than which slot holds the
    // highest.
    pub fn latest_near(&self, slot: usize) -> Option<Sequence>
        ensures { let l = self.now in
            result ≡ latest_of (complete_below l.words l.slots l.base l.log.now 0 l.slots) }
    {
        match self.candidate_closed(Some(slot)) {
            Some(found) if !self.has_rival(slot, found.stamp) => Some(found),
            _ => self.latest(),
        }
    }

    // Can slot j hold a timestamp at or above `least`? Its value word is the timestamp and the wrap bit.
    #[tactic(auto, unfolding(crate::specs::inner::Search::stamp_from))]
    fn stamp_from(&self, j: usize, least: u64) -> bool
        requires { j < self.now.slots }
        ensures { result ≡ stamp_from self.now.log.now j least }
    {
        self.stamp_high(j) && least <= self.log[2 * j + 1]
    }

    // Does the slot `distance` places after slot `next` close a sequence, stamped at or above `least`, with a slot
    // among the `count` slots from slot `next` on?
    fn hit_at(&self, next: usize, count: usize, least: u64, distance: usize) -> bool
        requires next_lt_slots { next < self.now.slots }
        requires le_count { 1 ≤ count }
        requires count_le_slots { count ≤ self.now.slots }
        requires distance_lt_slots { distance < self.now.slots }
        ensures { let l = self.now in
            result ≡ hit_at l.words l.slots l.base l.log.now next count least
            (circular_of l.slots (next + distance)) }
    {
        let j = circular(self.slots, next + distance);
        if !self.stamp_from(j, least) {
            return false;
        }
        let Content::Stamp {
            count: entries,
            stamp,
            wrap,
        } = self.slot_at(j)
        else {
            return false;
        };
        if stamp <= self.base {
            return false;
        }
        if stamp < least {
            return false;
        }
        if count + entries <= distance {
            return false;
        }
        self.entries_whole(j, wrap, entries)
    }

    // Would writing `count` slots from slot `next` on hit a slot of a sequence stamped at or above the bound? A
    // sequence has at most MAX_ENTRIES entries and its timestamp follows them, so one pass over `count` and MAX_ENTRIES
    // slots tells.
    pub fn would_hit(&self, next: usize, count: usize, bound: Option<u64>) -> bool
        requires next_lt_slots { next < self.now.slots }
        requires le_count { 1 ≤ count }
        requires max_entries_bound { count + max_entries ≤ self.now.slots }
        ensures { let l = self.now in
            result ≡ hits l.slots next count bound
            (complete_below l.words l.slots l.base l.log.now 0 l.slots) }
    {
        let Some(least) = bound else {
            return false;
        };
        (0..count + MAX_ENTRIES).any(|distance| self.hit_at(next, count, least, distance))
    }
}
