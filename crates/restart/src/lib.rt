// The calls of recovery: from the non-volatile memory alone, the words at one boundary.
#![tactic(auto)]

ghost use Rattle.std.specs.Prelude.{◌≡◌, ◌*◌, ◌%◌, ◌≤◌, not, cond, eqb, length, replicate};
ghost use Rattle.image.specs.inner.Facts.{IsImage};
ghost use Rattle.record.specs.Record.{lag_ok};
ghost use Rattle.store.specs.Interface.{refusal_of, blank_of};
ghost use Rattle.recovery.specs.Recovery.{boundary as boundary_of, undo_stores, torn_in};
ghost use Rattle.recovery.specs.Recovery.{recovery_stores, recovered_nvm};
ghost use Rattle.recovery.specs.Recovery.{recovered_by, recover_refusal, recover_step};
ghost use Rattle.recovery.specs.Recovery.{recover_read_refusal, recover_read_step};
ghost use Rattle.recovery.specs.Interface.{restarted_of};
ghost use Rattle.recovery.specs.inner.Picking.{LaneRoom};

use image::Sizes;
use recovery::{ALL_SLOTS, Finished, Restart, scan, undo};
use store::Refusal;

// Logs of at most this many slots together are small.
const FEW_SLOTS: usize = 256;

// The boundary; how many stores were due, those that undo entries and all; how many slots were torn.
#[derive(Clone, Copy)]
struct Due {
    boundary: Option<u64>,
    undone: usize,
    all: usize,
    torn: usize,
}

// Does this lag limit, or this base timestamp, refuse a recovery?
#[tactic(auto, unfolding(store::specs::Interface::refusal_of, store::specs::Interface::number))]
fn start_refusal(lag: u64, base: u64) -> Result<(), Refusal>
    ensures { refusal_of result ≡ cond (not (lag_ok lag)) 16 (cond (eqb (base % 2) 1) 10 0) }
{
    if !record::lag_ok(lag) {
        return Err(Refusal::BadLag);
    }
    if base % 2 == 1 {
        return Err(Refusal::OddBase);
    }
    Ok(())
}

// Would recovery with sizes given be refused?
pub fn recover_refusal(
    sizes: Sizes,
    lag: u64,
    cache: &[u64],
    nvm: &[u64],
    flags: &[u8],
) -> Result<(), Refusal>
    ensures { refusal_of result ≡ recover_refusal sizes lag
        (blank_of cache.now nvm.now flags.now) }
{
    if !image::former_ok(sizes, cache.len(), nvm.len(), flags.len()) {
        return Err(Refusal::BadBuffers);
    }
    start_refusal(lag, nvm[0])
}

// Would recovery without sizes be refused?
pub fn recover_read_refusal(
    lag: u64,
    cache: &[u64],
    nvm: &[u64],
    flags: &[u8],
) -> Result<(), Refusal>
    ensures { refusal_of result ≡ recover_read_refusal lag
        (blank_of cache.now nvm.now flags.now) }
{
    if !image::all_are(nvm.len(), cache.len(), nvm.len(), flags.len()) {
        return Err(Refusal::BadBuffers);
    }
    if !image::trailer_ok(nvm) {
        return Err(Refusal::BadTrailer);
    }
    start_refusal(lag, nvm[0])
}

// All stores, as far as the limit goes: entries undone, the base timestamp, the log words, by the last three calls
// below and in their order. The contract says what stands there after the first `limit` of them, not in which order
// they came. The arrays have a place for each slot of each lane.
fn make_stores(
    sizes: Sizes,
    nvm: &mut [u64],
    stamps: &mut [u64],
    tree: &mut [u16],
    limit: usize,
) -> Due
    requires image { IsImage sizes nvm.old }
    requires lane_room { LaneRoom sizes stamps.old tree.old }
    ensures boundary { result.boundary ≡ boundary_of sizes nvm.old }
    ensures undo { result.undone ≡ length (undo_stores sizes nvm.old) }
    ensures counted { result.all ≡ length (recovery_stores sizes nvm.old) }
    ensures torn { result.torn ≡ torn_in sizes nvm.old }
    ensures written { nvm.new ≡ recovered_nvm sizes limit nvm.old }
{
    let found = scan::scan(sizes, nvm, stamps, tree);
    let boundary = found.boundary;
    let mut stores = undo::undo_all(sizes, nvm, stamps, tree, boundary, limit);
    let undone = stores.due;
    stores.put(nvm, 0, found.base);
    stores.clear_logs(sizes, nvm);
    Due {
        boundary,
        undone,
        all: stores.due,
        torn: found.torn,
    }
}

// The same in arrays of its own. Small logs have small ones: setting the great ones to 0 costs as much as recovering a
// small image.
fn recover_nvm(sizes: Sizes, nvm: &mut [u64], limit: usize) -> Due
    requires { IsImage sizes nvm.old }
    ensures boundary { result.boundary ≡ boundary_of sizes nvm.old }
    ensures undo { result.undone ≡ length (undo_stores sizes nvm.old) }
    ensures counted { result.all ≡ length (recovery_stores sizes nvm.old) }
    ensures torn { result.torn ≡ torn_in sizes nvm.old }
    ensures written { nvm.new ≡ recovered_nvm sizes limit nvm.old }
{
    if sizes.lanes * sizes.slots <= FEW_SLOTS {
        return make_stores(sizes, nvm, &mut [0; FEW_SLOTS], &mut [0; FEW_SLOTS], limit);
    }
    make_stores(sizes, nvm, &mut [0; ALL_SLOTS], &mut [0; ALL_SLOTS], limit)
}

// The cache equals non-volatile memory, and nothing is flushed.
fn refill(cache: &mut [u64], nvm: &[u64], flags: &mut [u8])
    requires nvm_len { length nvm.now ≡ length cache.old }
    requires flags_len { length flags.old ≡ length cache.old }
    ensures cached { cache.new ≡ nvm.now }
    ensures unflushed { flags.new ≡ replicate (length cache.old) 0 }
{
    image::bulk::copy_words(nvm, cache);
    flags.fill(0);
}

// Recovery by these sizes, once it is not refused: a new start, or none where the limit left stores to be made.
fn recover_by(
    sizes: Sizes,
    lag: u64,
    cache: &mut [u64],
    nvm: &mut [u64],
    flags: &mut [u8],
    limit: usize,
) -> Option<Restart>
    requires image { IsImage sizes nvm.old }
    requires cache_len { length cache.old ≡ length nvm.old }
    requires flags_len { length flags.old ≡ length nvm.old }
    ensures { restarted_of (Ok result) cache.new nvm.new flags.new
        ≡ recovered_by sizes lag limit 0 (blank_of cache.old nvm.old flags.old) }
{
    let due = recover_nvm(sizes, nvm, limit);
    if limit < due.all {
        return None;
    }
    let boundary = due.boundary;
    refill(cache, nvm, flags);
    Some(Restart {
        finished: Finished {
            boundary,
            undone: due.undone,
            torn: due.torn,
        },
        state: record::start_record(lag, nvm[0]),
    })
}

// Recovers an image of the former length from non-volatile memory alone, making at most `limit` stores to it; cache and
// flags are not read. The record that it returns has the lag limit that it is given.
// One pass over all slots counts the torn ones and makes an array of timestamps with a winner tree for each lane (up to
// 20 KB of stack); a timestamp without its last entry is left out. Each lane's are tried from the greatest down, up to
// its latest sequence; then all from the boundary on are taken from the greatest down. Each one tried or taken costs
// the reading of its sequence, a step for each level of its tree, at most 8, and where it is taken a look at each lane,
// unless its lane has the timestamp that was taken before it. A store is made for each entry undone, one for the base
// and one for each log word that is not 0 already, all of them whole words in this order, and where it finishes the
// image is passed over once.
pub fn recover(
    sizes: Sizes,
    lag: u64,
    cache: &mut [u64],
    nvm: &mut [u64],
    flags: &mut [u8],
    limit: usize,
) -> Result<Option<Restart>, Refusal>
    ensures { restarted_of result cache.new nvm.new flags.new
        ≡ recover_step sizes lag limit (blank_of cache.old nvm.old flags.old) }
{
    recover_refusal(sizes, lag, cache, nvm, flags)?;
    Ok(recover_by(sizes, lag, cache, nvm, flags, limit))
}

// The same of an image whose last four words tell its sizes; they are read, and never stored to.
// Kept: there are two, since the C interface has both as calls; behind their refusals they are one, `recover_by`.
pub fn recover_read(
    lag: u64,
    cache: &mut [u64],
    nvm: &mut [u64],
    flags: &mut [u8],
    limit: usize,
) -> Result<Option<Restart>, Refusal>
    ensures { restarted_of result cache.new nvm.new flags.new
        ≡ recover_read_step lag limit (blank_of cache.old nvm.old flags.old) }
{
    recover_read_refusal(lag, cache, nvm, flags)?;
    let sizes = image::sizes_at_end(nvm);
    Ok(recover_by(sizes, lag, cache, nvm, flags, limit))
}
