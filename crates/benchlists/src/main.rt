// The bench sheet's half that is run on pseudo-random lists of calls, and on arbitrary states. Prints how many calls it
// made, how many differed from the second implementation, and how often there was which answer.
#![tactic(auto)]

mod any;
mod images;
mod lists;
mod sizes;
mod transactions;

use bench::print;
use bench::session::{Session, Tally};
use std::io::Result;

// The groups.
#[derive(Clone, Copy)]
enum Group {
    SmallLists,
    FullLists,
    SmallStates,
    FullStates,
}

// A case of a group.
fn case(session: &mut Session, group: Group) {
    match group {
        Group::SmallLists => lists::small_list(session),
        Group::FullLists => lists::full_list(session),
        Group::SmallStates => any::small_state(session),
        Group::FullStates => any::full_state(session),
    }
}

// So many cases of a group, counted anew, and the lines about it.
fn run(rt: &impl Print, session: &mut Session, group: Group, count: u64, name: &str) -> Result<()> {
    session.tally = Tally::new();
    for _ in 0..count {
        case(session, group);
    }
    print::group(rt, name, session)?;
    print::kinds(rt, session)
}

fn main(rt: HostRuntime) -> Result<()> {
    let mut session = Session::new();
    session.random.seed = 88172645463325252;
    run(&rt, &mut session, Group::SmallLists, 50, "small lists")?;
    run(&rt, &mut session, Group::FullLists, 10, "full lists")?;
    run(&rt, &mut session, Group::SmallStates, 6000, "small states")?;
    run(&rt, &mut session, Group::FullStates, 300, "full states")
}
