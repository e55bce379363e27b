// Recovery: its definitions and answers, and the parts of it: the logs are read in scan.rt, undoing is in undo.rt, its
// order as a list in order.rt, stores up to the limit in stores.rt. The calls are those of crate `restart`.
#![tactic(auto)]

ghost use Rattle.std.specs.Prelude.{◌≡◌, ◌*◌, ◌≤◌, length, take};
ghost use Rattle.image.specs.Image.{max_lanes, max_slots};
ghost use Rattle.image.specs.inner.Facts.{IsImage};
ghost use Rattle.recovery.specs.Recovery.{undone};
ghost use Rattle.recovery.specs.inner.UndoList.{undo_list};

use image::Sizes;
use record::Record;

mod order;
pub mod scan;
pub mod stores;
pub mod undo;

// The most slots of all lanes together.
pub const ALL_SLOTS: usize = image::MAX_LANES * image::MAX_SLOTS;

// What a finished recovery answers: the boundary, how many entries it undid, and how many slots were torn in the
// non-volatile memory that this call found.
#[derive(Clone, Copy)]
pub struct Finished {
    pub boundary: Option<u64>,
    pub undone: usize,
    pub torn: usize,
}

// A new start: what a finished recovery answers, and the record.
#[derive(Clone, Copy)]
pub struct Restart {
    pub finished: Finished,
    pub state: Record,
}

// A sequence that recovery undoes: its lane, the slot of its timestamp, the count of its entries, the timestamp.
#[derive(Clone, Copy)]
pub struct Listed {
    pub lane: usize,
    pub slot: usize,
    pub count: usize,
    pub stamp: u64,
}

impl Listed {
    // Before anything is listed.
    pub const NONE: Listed = Listed {
        lane: 0,
        slot: 0,
        count: 0,
        stamp: 0,
    };
}

// The sequences that recovery undoes, in its order, from the first place of `order` on. How many there are. Nothing but
// `order` is stored to.
pub fn undo_order(sizes: Sizes, nvm: &[u64], order: &mut [Listed]) -> usize
    requires image { IsImage sizes nvm.now }
    requires max_slots_in_bounds { max_lanes * max_slots ≤ length order.old }
    ensures few { result ≤ max_lanes * max_slots }
    ensures listed { take result order.new ≡ undo_list (undone sizes nvm.now) }
{
    let mut stamps = [0u64; ALL_SLOTS];
    let mut tree = [0u16; ALL_SLOTS];
    let found = scan::scan(sizes, nvm, &mut stamps, &mut tree);
    order::list_all(sizes, nvm, &mut stamps, &mut tree, found.boundary, order)
}
