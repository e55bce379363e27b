// What recovery finds in the logs: each lane's timestamps, offered to a winner tree, the boundary, the new base
// timestamp, and how many slots are torn.
ghost use Rattle.std.specs.Prelude.{◌≡◌, ◌+◌, ◌*◌, ◌≤◌, ◌<◌, max, length};
ghost use Rattle.winners.specs.inner.Winners.{Tournament};
ghost use Rattle.image.specs.Image.{log_of};
ghost use Rattle.image.specs.inner.Facts.{IsImage};
ghost use Rattle.lane_log.specs.Log.{slot_at, latest_in, contribution};
ghost use Rattle.record.specs.Record.{lesser};
ghost use Rattle.recovery.specs.Recovery.{boundary as boundary_of, greatest_below, new_base};
ghost use Rattle.recovery.specs.Recovery.{torn_below, torn_in};
ghost use Rattle.recovery.specs.inner.Picking.{wrap_of, lacks_last, offer_at, Offers, LaneRoom, Offering};
ghost use Rattle.recovery.specs.inner.Picking.{Tournaments, lap_at, lap_below};

use image::Sizes;
use lane_log::{Log, Sequence};
use slot::Content;

// What the lanes read so far give: the boundary, the new base, and how many slots are torn.
#[derive(Clone, Copy)]
pub struct Found {
    pub boundary: Option<u64>,
    pub base: u64,
    pub torn: usize,
}

// What one lane's slots hold: the greatest whole timestamp, 0 where there is none, and how many are torn. Kept with 0 for
// `None`, which would be no plainer: 0 is what `max` begins with, in the definition of the base too.
#[derive(Clone, Copy)]
struct Seen {
    greatest: u64,
    torn: usize,
}

// The wrap bit of a timestamp, 0 where there is none. Kept with 0 for `None`, which would be no plainer: it is asked only
// of slots that hold a timestamp, and `NextLaws.slot-wrap` is stated with it.
pub fn wrap_of(content: Content) -> u64
    ensures { result ≡ wrap_of content }
{
    match content {
        Content::Stamp { wrap, .. } => wrap,
        _ => 0,
    }
}

// Does slot j close entries, with this wrap bit, though the slot before it is not the last of them? Kept: a wrap bit is a
// number that is at most 1, as a clause here and in `slot` and `lane_log`, since it is added to words and compared.
fn lacks(log: &Log<'_>, j: usize, count: usize, wrap: u64) -> bool
    requires j_lt_slots { j < log.now.slots }
    requires wrap_bound { wrap ≤ 1 }
    ensures { result ≡ lacks_last log.now.words log.now.slots log.now.log.now j count wrap }
{
    if count == 0 {
        return false;
    }
    !log.entry_back(j, wrap, 1)
}

// What slot j offers, which says this: a whole timestamp above the base, 0 for any other, and where it lacks its last
// entry. Such a one is not complete, and would have to be tried and dropped from the tree. Kept with 0 for `None`, as
// `winners` has it.
fn offered(log: &Log<'_>, j: usize, content: Content) -> u64
    requires j_lt_slots { j < log.now.slots }
    requires content_value { content ≡ slot_at log.now.words log.now.log.now j }
    ensures { let l = log.now in
        result ≡ offer_at l.words l.slots l.base l.log.now j content }
{
    let Content::Stamp { count, stamp, wrap } = content else {
        return 0;
    };
    if stamp <= log.base {
        return 0;
    }
    if lacks(log, j, count, wrap) {
        return 0;
    }
    stamp
}

// One pass over a lane's slots: what each offers, and what they hold.
fn offer(sizes: Sizes, nvm: &[u64], lane: usize, stamps: &mut [u64]) -> Seen
    requires image { IsImage sizes nvm.now }
    requires lane_lt_lanes { lane < sizes.lanes }
    requires stamps_len { length stamps.old ≡ sizes.slots }
    ensures offers { Offers sizes nvm.now lane stamps.new }
    ensures greatest { result.greatest
        ≡ greatest_below sizes.words (log_of sizes lane nvm.now) sizes.slots }
    ensures torn { result.torn ≡ torn_below sizes.words (log_of sizes lane nvm.now) sizes.slots }
{
    let log = Log::of(sizes, nvm, lane);
    let mut greatest = 0;
    let mut torn = 0;
    for (j, place) in stamps.iter_mut().enumerate() {
        let content = log.slot_at(j);
        *place = offered(&log, j, content);
        match content {
            Content::Torn => torn += 1,
            Content::Stamp { stamp, .. } => greatest = stamp.max(greatest),
            _ => {}
        }
    }
    Seen { greatest, torn }
}

// What slot k closes, if it offers this timestamp and closes a complete sequence with the other wrap bit; else `best`.
fn lap_at(log: &Log<'_>, offer: u64, stamp: u64, wrap: u64, k: usize, best: Sequence) -> Sequence
    requires { k < log.now.slots }
    ensures { let l = log.now in
        result ≡ lap_at l.words l.slots l.log.now offer stamp wrap k best }
{
    if offer != stamp {
        return best;
    }
    log.lap_over(stamp, wrap, k, best)
}

// The latest of the complete sequences with the timestamp of `found`, of those that a lane's slots offer. `found` has
// the highest slot of them, and this wrap bit: those with the other bit are later, and of these the highest is.
pub fn lapped(log: &Log<'_>, stamps: &[u64], wrap: u64, found: Sequence) -> Sequence
    requires stamps_len { length stamps.now ≡ log.now.slots }
    requires slot_le_slots { found.slot ≤ log.now.slots }
    ensures { let l = log.now in
        result ≡ lap_below l.words l.slots l.log.now stamps.now found.stamp wrap found found.slot }
{
    let stamp = found.stamp;
    let mut best = found;
    for (k, &offer) in stamps[..found.slot].iter().enumerate() {
        best = lap_at(log, offer, stamp, wrap, k, best);
    }
    best
}

// What a lane gives to the boundary, which is what its latest sequence gives. The timestamps offered are tried from the
// greatest down, each over its entries, up to the first complete one; those found incomplete are offered no more. Of
// equal ones the latest gives.
fn latest(
    sizes: Sizes,
    nvm: &[u64],
    lane: usize,
    stamps: &mut [u64],
    tree: &mut [u16],
) -> Option<u64>
    requires image { IsImage sizes nvm.now }
    requires lane_lt_lanes { lane < sizes.lanes }
    requires offers_2 { Offers sizes nvm.now lane stamps.old }
    requires tournament { Tournament stamps.old tree.old }
    ensures found { result ≡ contribution (latest_in sizes nvm.now lane) }
    ensures offers { Offers sizes nvm.now lane stamps.new }
    ensures again { Tournament stamps.new tree.new }
{
    let log = Log::of(sizes, nvm, lane);
    // Kept: a rule of the project (docs/DECISIONS.md, "Named forms") asks for a labelled loop over timestamps and an inner
    // one over slots.
    'stamps: loop {
        let j = winners::winner(stamps, tree);
        let stamp = stamps[j];
        if stamp == 0 {
            return None;
        }
        let Content::Stamp { count, wrap, .. } = log.slot_at(j) else {
            unreachable!();
        };
        // Kept as a range: i counts entries back from slot j and is the index of nothing.
        for i in 0..count {
            if !log.entry_back(j, wrap, i + 1) {
                winners::drop_at(stamps, tree, j);
                continue 'stamps;
            }
        }
        let highest = Sequence {
            stamp,
            count,
            slot: j,
        };
        let found = lapped(&log, stamps, wrap, highest);
        return lane_log::given(found.count, stamp);
    }
}

// Reads a lane's log: its timestamps into a winner tree, and what it gives with the lanes before it.
fn read_lane(
    sizes: Sizes,
    nvm: &[u64],
    lane: usize,
    stamps: &mut [u64],
    tree: &mut [u16],
    found: Found,
) -> Found
    requires image { IsImage sizes nvm.now }
    requires lane_lt_lanes { lane < sizes.lanes }
    requires stamps_len { length stamps.old ≡ sizes.slots }
    requires tree_len { length tree.old ≡ sizes.slots }
    requires torn_bound { found.torn ≤ lane * sizes.slots }
    ensures boundary { result.boundary ≡ lesser found.boundary
        (contribution (latest_in sizes nvm.now lane)) }
    ensures base { result.base ≡ max found.base
        (greatest_below sizes.words (log_of sizes lane nvm.now) sizes.slots) }
    ensures torn { result.torn ≡ found.torn
        + torn_below sizes.words (log_of sizes lane nvm.now) sizes.slots }
    ensures offers { Offers sizes nvm.now lane stamps.new }
    ensures tree { Tournament stamps.new tree.new }
{
    let boundary = found.boundary;
    let seen = offer(sizes, nvm, lane, stamps);
    winners::build(stamps, tree);
    let given = latest(sizes, nvm, lane, stamps, tree);
    Found {
        boundary: record::lesser(boundary, given),
        base: found.base.max(seen.greatest),
        torn: found.torn + seen.torn,
    }
}

// Reads all logs, each lane's timestamps into its part of the array: the boundary, which is the least timestamp that a
// lane gives, the new base, which is the greatest of the base and all whole timestamps, and the torn slots.
pub fn scan(sizes: Sizes, nvm: &[u64], stamps: &mut [u64], tree: &mut [u16]) -> Found
    requires image { IsImage sizes nvm.now }
    requires lane_room { LaneRoom sizes stamps.old tree.old }
    ensures boundary { result.boundary ≡ boundary_of sizes nvm.now }
    ensures base { result.base ≡ new_base sizes nvm.now }
    ensures torn { result.torn ≡ torn_in sizes nvm.now }
    ensures offering { Offering sizes nvm.now sizes.lanes stamps.new }
    ensures trees { Tournaments (length stamps.old) sizes.slots sizes.lanes stamps.new
        tree.new }
{
    let slots = sizes.slots;
    let mut found = Found {
        boundary: None,
        base: nvm[0],
        torn: 0,
    };
    // Kept as a range: a lane's number says where its places and its log stand, and no array has it as its index.
    for lane in 0..sizes.lanes {
        let from = lane * slots;
        let to = from + slots;
        found = read_lane(
            sizes,
            nvm,
            lane,
            &mut stamps[from..to],
            &mut tree[from..to],
            found,
        );
    }
    found
}
