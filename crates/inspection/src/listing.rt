// The listing of an image, line by line: the base timestamp; of each lane its slots, its complete sequences and the
// newest of them; the sequences that recovery would undo. Nothing is stored but the text.
ghost use Rattle.std.specs.Prelude.{◌≡◌, ◌+◌, ◌*◌, ◌≤◌, ◌<◌, [], ◌∷◌, ◌++◌, length};
ghost use Rattle.image.specs.Image.{max_lanes, max_slots};
ghost use Rattle.image.specs.inner.Facts.{IsImage};
ghost use Rattle.lane_log.specs.Log.{complete_below};
ghost use Rattle.report.specs.Report.{space, decimal};
ghost use Rattle.report.specs.inner.ReportFacts.{Put};
ghost use Rattle.inspection.specs.Inspection.{number_room, content_room, slot_room, line_room, lane_room, listing_room};
ghost use Rattle.inspection.specs.Inspection.{inspection_room};
ghost use Rattle.inspection.specs.Inspection.{sequence_text, named, line_of, content_text, slot_line, slot_lines};
ghost use Rattle.inspection.specs.Inspection.{sequence_lines, newest_line, lane_text, lanes_text};
ghost use Rattle.inspection.specs.Inspection.{listing as listing_of};
ghost use Rattle.inspection.specs.inner.InspectionFacts.{closed_text, undo_lines};

use crate::ROOM;
use image::{MAX_LANES, MAX_SLOTS, Sizes};
use lane_log::{Log, Sequence};
use recovery::{ALL_SLOTS, Listed};
use report::page::{MAX_DIGITS, Page};
use slot::Content;

// The most bytes of a number with a space before it, of a slot's line, of any other line, of a lane, of all.
const NUMBER_ROOM: usize = 1 + MAX_DIGITS;

const SLOT_ROOM: usize = 4 + 2 * NUMBER_ROOM + (10 + 3 * NUMBER_ROOM + 1);

const LINE_ROOM: usize = 8 + 4 * NUMBER_ROOM + 1;

const LANE_ROOM: usize = (SLOT_ROOM + LINE_ROOM) * MAX_SLOTS + LINE_ROOM;

pub(crate) const LISTING_ROOM: usize = LINE_ROOM
    + LANE_ROOM * MAX_LANES
    + LINE_ROOM * (MAX_LANES * MAX_SLOTS);

// A number with a space before it.
fn put_spaced(page: &mut Page<ROOM>, number: u64)
    requires { length page.old + number_room ≤ inspection_room }
    ensures { Put page.old (space ++ decimal number) page.new }
{
    page.put(b" ");
    page.put_number(number);
}

// A name and numbers.
fn put_named(page: &mut Page<ROOM>, name: &[u8], numbers: &[u64])
    requires { length page.old + (length name.now + number_room * length numbers.now) ≤ inspection_room }
    ensures { Put page.old (named name.now numbers.now) page.new }
{
    page.put(name);
    for number in numbers {
        put_spaced(page, *number);
    }
}

// A whole line of them.
fn put_line(page: &mut Page<ROOM>, name: &[u8], numbers: &[u64])
    requires { length page.old + (length name.now + number_room * length numbers.now + 1) ≤ inspection_room }
    ensures { Put page.old (line_of name.now numbers.now) page.new }
{
    put_named(page, name, numbers);
    page.put(b"\n");
}

// What a slot holds, to the end of its line.
fn put_content(page: &mut Page<ROOM>, content: Content)
    requires { length page.old + content_room ≤ inspection_room }
    ensures { Put page.old (content_text content) page.new }
{
    match content {
        Content::Empty => page.put(b" empty\n"),
        Content::Torn => page.put(b" torn\n"),
        Content::Entry { word, old, wrap } => put_line(page, b" entry", &[word as u64, old, wrap]),
        Content::Stamp { count, stamp, wrap } => put_line(
            page,
            b" timestamp",
            &[count as u64, stamp, wrap],
        ),
    }
}

// Slot j of a lane.
fn put_slot(page: &mut Page<ROOM>, lane: usize, j: usize, content: Content)
    requires { length page.old + slot_room ≤ inspection_room }
    ensures { Put page.old (slot_line lane j content) page.new }
{
    put_named(page, b"slot", &[lane as u64, j as u64]);
    put_content(page, content);
}

// All slots of a lane, by number, which each line names.
fn put_slots(page: &mut Page<ROOM>, log: &Log, lane: usize)
    requires { length page.old + slot_room * log.now.slots ≤ inspection_room }
    ensures { Put page.old (slot_lines log.now.words log.now.log.now lane log.now.slots) page.new }
{
    for j in 0..log.slots {
        put_slot(page, lane, j, log.slot_at(j));
    }
}

// A complete sequence of a lane.
fn put_sequence(page: &mut Page<ROOM>, name: &[u8], lane: usize, sequence: Sequence)
    requires name_len_bound { length name.now ≤ 8 }
    requires line_room_in_bounds { length page.old + line_room ≤ inspection_room }
    ensures { Put page.old
        (line_of name.now (lane ∷ sequence.slot ∷ sequence.count ∷ sequence.stamp ∷ []))
        page.new }
{
    put_line(
        page,
        name,
        &[
            lane as u64,
            sequence.slot as u64,
            sequence.count as u64,
            sequence.stamp,
        ],
    );
}

// The sequence that a slot of a lane closes, if there is one.
fn put_closed(page: &mut Page<ROOM>, lane: usize, closed: Option<Sequence>)
    requires { length page.old + line_room ≤ inspection_room }
    ensures { Put page.old (closed_text lane closed) page.new }
{
    match closed {
        None => {}
        Some(sequence) => put_sequence(page, b"sequence", lane, sequence),
    }
}

// All complete sequences of a lane.
fn put_sequences(page: &mut Page<ROOM>, log: &Log, lane: usize)
    requires { length page.old + line_room * log.now.slots ≤ inspection_room }
    ensures { Put page.old
        (sequence_lines sequence_text
        (complete_below log.now.words log.now.slots log.now.base log.now.log.now lane log.now.slots))
        page.new }
{
    for j in 0..log.slots {
        put_closed(page, lane, log.closed_at(j));
    }
}

// The newest sequence of a lane.
fn put_newest(page: &mut Page<ROOM>, lane: usize, newest: Option<Sequence>)
    requires { length page.old + line_room ≤ inspection_room }
    ensures { Put page.old (newest_line lane newest) page.new }
{
    match newest {
        None => {
            put_named(page, b"newest", &[lane as u64]);
            page.put(b" none\n");
        }
        Some(sequence) => put_sequence(page, b"newest", lane, sequence),
    }
}

// All of a lane.
fn put_lane(page: &mut Page<ROOM>, sizes: Sizes, nvm: &[u64], lane: usize)
    requires image { IsImage sizes nvm.now }
    requires lane_lt_lanes { lane < sizes.lanes }
    requires lane_room_in_bounds { length page.old + lane_room ≤ inspection_room }
    ensures { Put page.old (lane_text sizes nvm.now lane) page.new }
{
    let log = Log::of(sizes, nvm, lane);
    put_slots(page, &log, lane);
    put_sequences(page, &log, lane);
    put_newest(page, lane, store::latest_in(sizes, nvm, lane));
}

// All lanes, by number, which their lines name.
fn put_lanes(page: &mut Page<ROOM>, sizes: Sizes, nvm: &[u64])
    requires image { IsImage sizes nvm.now }
    requires max_lanes_in_bounds { length page.old + lane_room * max_lanes ≤ inspection_room }
    ensures { Put page.old (lanes_text sizes nvm.now sizes.lanes) page.new }
{
    for lane in 0..sizes.lanes {
        put_lane(page, sizes, nvm, lane);
    }
}

// The sequences that recovery would undo.
fn put_undone(page: &mut Page<ROOM>, order: &[Listed])
    requires { length page.old + line_room * length order.now ≤ inspection_room }
    ensures { Put page.old (undo_lines order.now) page.new }
{
    for sequence in order {
        put_line(
            page,
            b"undo",
            &[
                sequence.lane as u64,
                sequence.slot as u64,
                sequence.count as u64,
                sequence.stamp,
            ],
        );
    }
}

// The whole listing. `order` is room for what recovery would undo.
fn put_listing(page: &mut Page<ROOM>, sizes: Sizes, nvm: &[u64], order: &mut [Listed; ALL_SLOTS])
    requires image { IsImage sizes nvm.now }
    requires listing_room_in_bounds { length page.old + listing_room ≤ inspection_room }
    ensures few { length page.new ≤ length page.old + listing_room }
    ensures printed { Put page.old (listing_of sizes nvm.now) page.new }
{
    put_line(page, b"base", &[nvm[0]]);
    put_lanes(page, sizes, nvm);
    let count = recovery::undo_order(sizes, nvm, order);
    put_undone(page, &order[..count]);
}

// The listing of an image, whatever it holds.
pub(crate) fn put_image(page: &mut Page<ROOM>, sizes: Sizes, nvm: &[u64])
    requires image { IsImage sizes nvm.now }
    requires listing_room_in_bounds { length page.old + listing_room ≤ inspection_room }
    ensures few { length page.new ≤ length page.old + listing_room }
    ensures printed { Put page.old (listing_of sizes nvm.now) page.new }
{
    let mut order = [Listed::NONE; ALL_SLOTS];
    put_listing(page, sizes, nvm, &mut order);
}
