// The bench sheet's half that is run on fixed lists of calls: both sides of the ends of each range, trailers and the
// lengths that each call takes, the withdrawn POKE, sets of causes of a refusal, the two-lane scenario with recovery
// cut after each store, marked lanes, the lag limit, transactions of no words, long transactions under the lock. The
// control, which spoils what the store left, is here too. Prints what it ran, what the store answered, and how many
// calls differed from the second implementation.
#![tactic(auto)]

mod boundaries;
mod causes;
mod control;
mod edges;
mod equals;
mod floors;
mod idle;
mod lag;
mod lengths;
mod locks;
mod logs;
mod long;
mod overwriting;
mod scenario;
mod settling;
mod setup;
mod trailers;
mod withdrawn;

use crate::setup::{FORMER, LENGTH, Trial};
use bench::print;
use bench::session::{Session, Tally};
use second::Call;
use std::io::Result;

// A run, and where its lines go.
#[derive(Drop)]
struct Sheet<'a, P> {
    rt: &'a P,
    session: Session,
}

impl<P: Print> Sheet<'_, P> {
    // A group: its cases, counted anew, and the line about it.
    fn group<F: FnOnce(&P, &mut Session) -> Result<()>>(
        &mut self,
        name: &str,
        cases: F,
    ) -> Result<()>
        requires { F.IsAlwaysCallable cases }
    {
        self.session.tally = Tally::new();
        cases(self.rt, &mut self.session)?;
        print::group(self.rt, name, &self.session)
    }

    // One that prints nothing else.
    fn quiet<F: FnOnce(&mut Session)>(&mut self, name: &str, cases: F) -> Result<()>
        requires { F.IsAlwaysCallable cases }
    {
        self.group(name, |_, session| {
            cases(session);
            Ok(())
        })
    }
}

// Both sides of the ends of each range.
fn first_edges(sheet: &mut Sheet<impl Print>) -> Result<()> {
    sheet.group("sizes", edges::sizes)?;
    sheet.quiet("buffers", edges::buffers)?;
    sheet.group(
        "words, image of 143",
        |rt, session| edges::words(rt, session, LENGTH),
    )?;
    sheet.group(
        "words, image of 139",
        |rt, session| edges::words(rt, session, FORMER),
    )?;
    sheet.group("lanes, T 2", edges::lanes)
}

fn more_edges(sheet: &mut Sheet<impl Print>) -> Result<()> {
    sheet.group("transactions", edges::transactions)?;
    sheet.group("POKE withdrawn", withdrawn::cases)?;
    sheet.group("clocks", edges::clocks)?;
    sheet.quiet("records", edges::records)
}

fn lengths_and_trailers(sheet: &mut Sheet<impl Print>) -> Result<()> {
    sheet.group("lengths", lengths::cases)?;
    sheet.group("trailers that agree", trailers::agreeing)?;
    sheet.group("trailers, words off by one", trailers::off_by_one)?;
    sheet.group("trailers, sizes out of range", trailers::out_of_range)?;
    sheet.group("trailers, sums that wrap", trailers::wrapping)
}

fn more_trailers(sheet: &mut Sheet<impl Print>) -> Result<()> {
    sheet.group("trailers, other lengths", trailers::other_lengths)?;
    sheet.group("trailers, order of refusals", trailers::order)?;
    sheet.group("trailers in the cache", trailers::cached)?;
    sheet.group("trailers, recovery cut", trailers::cut)
}

// The comparison sees a spoiled word, wherever it is: all of the control's calls differ.
fn control_and_causes(sheet: &mut Sheet<impl Print>) -> Result<()> {
    sheet.quiet(
        "control, one word of the store's result spoiled",
        control::spoiled,
    )?;
    sheet.quiet("sets of causes", causes::every_set)?;
    sheet.quiet("overwriting", overwriting::cases)
}

fn two_lanes(sheet: &mut Sheet<impl Print>) -> Result<()> {
    sheet.group("two lanes", scenario::run)?;
    sheet.quiet(
        "two lanes, recovery cut after each store",
        scenario::run_cut,
    )?;
    sheet.quiet(
        "two lanes, the same without a trailer",
        scenario::run_former,
    )
}

fn marks(sheet: &mut Sheet<impl Print>) -> Result<()> {
    sheet.group("overwriting, the newest a mark", overwriting::marked)?;
    sheet.group("floors after each call", floors::cases)?;
    sheet.group("floors along a list", floors::list)?;
    sheet.group("boundaries of two lanes", boundaries::cases)
}

fn idle_lane(sheet: &mut Sheet<impl Print>) -> Result<()> {
    sheet.group("an idle lane", idle::list)?;
    sheet.group("an idle lane, power fails at its mark", idle::cut)
}

fn lag_limit(sheet: &mut Sheet<impl Print>) -> Result<()> {
    let log = Trial::Of(Call::Log);
    sheet.group("lag limits given", lag::given)?;
    sheet.group("lag limits of the record", lag::recorded)?;
    sheet.group(
        "Logs at the lag limit",
        |rt, session| lag::at_limit(rt, session, log),
    )?;
    sheet.group(
        "Logs at the lag limit, as after the drain",
        |rt, session| lag::drained(rt, session, log),
    )
}

fn more_lag_limit(sheet: &mut Sheet<impl Print>) -> Result<()> {
    sheet.group("other calls past the lag limit", lag::past_limit)?;
    sheet.group("a lane that lags behind", lag::list)
}

fn no_words(sheet: &mut Sheet<impl Print>) -> Result<()> {
    sheet.group("transactions of few words", settling::words)?;
    sheet.group("no words, order of refusals", settling::order)?;
    sheet.group(
        "no words, at the lag limit",
        |rt, session| lag::at_limit(rt, session, Trial::Settle),
    )?;
    sheet.group(
        "no words, at the lag limit, as after the drain",
        |rt, session| lag::drained(rt, session, Trial::Settle),
    )
}

fn more_no_words(sheet: &mut Sheet<impl Print>) -> Result<()> {
    sheet.group("no words, at each slot, as a Mark", settling::slots)?;
    sheet.group("a lane that is settled", settling::list)?;
    sheet.group("no words, one slot is free", settling::one_slot)?;
    sheet.group("a lane that is settled, power fails", settling::cut)
}

fn the_lock(sheet: &mut Sheet<impl Print>) -> Result<()> {
    sheet.group("long transactions", locks::lengths)?;
    sheet.group("Lock, slots counted", locks::counts)?;
    sheet.group("Lock and Continue, order of refusals", locks::order)?;
    sheet.group("calls while the lock is held", locks::keeps_out)?;
    sheet.group("Lock and Continue, refusals waived", locks::waived)
}

fn more_lock(sheet: &mut Sheet<impl Print>) -> Result<()> {
    let lock = Trial::Of(Call::Lock);
    sheet.group(
        "Locks at the lag limit",
        |rt, session| lag::at_limit(rt, session, lock),
    )?;
    sheet.group(
        "Locks at the lag limit, as after the drain",
        |rt, session| lag::drained(rt, session, lock),
    )?;
    sheet.quiet("overwriting, slots counted by a Lock", overwriting::locking)?;
    sheet.group("records, the lock", locks::records)
}

fn long_transactions(sheet: &mut Sheet<impl Print>) -> Result<()> {
    sheet.group("long transactions run whole", long::whole)?;
    sheet.group("a long transaction beside another lane", long::list)?;
    sheet.group("a long transaction, power fails", long::cut)?;
    sheet.group("equal timestamps of a lane", equals::cases)
}

fn main(rt: HostRuntime) -> Result<()> {
    let session = Session::new();
    let mut sheet = Sheet { rt: &rt, session };
    first_edges(&mut sheet)?;
    more_edges(&mut sheet)?;
    lengths_and_trailers(&mut sheet)?;
    more_trailers(&mut sheet)?;
    control_and_causes(&mut sheet)?;
    two_lanes(&mut sheet)?;
    marks(&mut sheet)?;
    idle_lane(&mut sheet)?;
    lag_limit(&mut sheet)?;
    more_lag_limit(&mut sheet)?;
    no_words(&mut sheet)?;
    more_no_words(&mut sheet)?;
    the_lock(&mut sheet)?;
    more_lock(&mut sheet)?;
    long_transactions(&mut sheet)
}
