// A few calls on a store of two words, with the answers that the specification gives.
use crate::calls::{Answer, Call, Outcome, Refusal};
use crate::image::Sizes;
use crate::machine::{Given, Machine};
use crate::records::Record;
use crate::words::MAX_LAG;
use std::test::Fail;

const SIZES: Sizes = Sizes {
    words: 2,
    lanes: 2,
    slots: 34,
};

const LENGTH: usize = 143;

#[derive(Drop)]
struct Store {
    state: Record,
    cache: [u64; LENGTH],
    nvm: [u64; LENGTH],
    flags: [u8; LENGTH],
}

fn call(store: &mut Store, call: Call, number: u64, words: &[u64]) -> Outcome {
    let mut machine = Machine {
        state: &mut store.state,
        cache: &mut store.cache,
        nvm: &mut store.nvm,
        flags: &mut store.flags,
    };
    machine.perform(&Given {
        call,
        sizes: SIZES,
        lag: MAX_LAG,
        number,
        words,
    })
}

// A transaction that sets word 0 to 3 commits, and is undone once its timestamp alone is the boundary.
#[test]
fn commits_and_recovers(rt: HostRuntime) -> Result<(), Fail> {
    let mut store = Store {
        state: Record::start(2, 0),
        cache: [0; LENGTH],
        nvm: [0; LENGTH],
        flags: [0; LENGTH],
    };
    let format = call(&mut store, Call::Format, 0, &[5, 0]);
    assert_eq!(rt; format, Ok(Answer::Done));
    let log = call(&mut store, Call::Log, 0, &[1, 0, 0, 3]);
    assert_eq!(rt; log, Ok(Answer::Logged { count: 1, stamp: 2 }));
    let again = call(&mut store, Call::Log, 0, &[1, 0, 0, 3]);
    assert_eq!(rt; again, Err(Refusal::Holds));
    let redo = call(&mut store, Call::Redo, 0, &[]);
    assert_eq!(rt; redo, Ok(Answer::Committed { stamp: 4 }));
    assert_eq!(rt; store.cache[1], 3);
    let drain = call(&mut store, Call::Drain, 0, &[]);
    assert_eq!(rt; drain, Ok(Answer::Done));
    assert_eq!(rt; store.nvm[1], 3);
    let recovery = call(&mut store, Call::RecoverRead, u64::MAX, &[]);
    let answer = Answer::Recovered {
        boundary: Some(4),
        undone: 1,
        torn: 0,
    };
    assert_eq!(rt; recovery, Ok(answer));
    assert_eq!(rt; store.cache[1], 5);
    Ok(())
}
