// The control: calls after which one word of what the store left is spoiled, so that each of them must count as one
// that differs.
use crate::setup::{self, LENGTH, Trial};
use bench::session::Session;
use bench::spoil::{Part, STATE_WORDS, Spoiled};
use second::Call;
use second::image::Sizes;
use second::words::{MAX_LANES, MAX_SLOTS, MAX_WORDS};

// A part of what a call leaves.
#[derive(Clone, Copy)]
struct Spot {
    trial: Trial,
    part: Part,
}

const REDO: Trial = Trial::Of(Call::Redo);

// What is spoiled beside the record and the buffers: which answer it is and the refusal that was asked for, and each
// number of an answer, after a call that answers with it.
const SPOTS: [Spot; 14] = [
    Spot {
        trial: REDO,
        part: Part::Answer,
    },
    Spot {
        trial: REDO,
        part: Part::Asked,
    },
    Spot {
        trial: REDO,
        part: Part::Number(1),
    },
    Spot {
        trial: Trial::Of(Call::Validate),
        part: Part::Number(1),
    },
    Spot {
        trial: Trial::Of(Call::Log),
        part: Part::Number(0),
    },
    Spot {
        trial: Trial::Of(Call::Log),
        part: Part::Number(1),
    },
    Spot {
        trial: Trial::Settle,
        part: Part::Number(1),
    },
    Spot {
        trial: Trial::Of(Call::Mark),
        part: Part::Number(0),
    },
    Spot {
        trial: Trial::Of(Call::Mark),
        part: Part::Number(1),
    },
    Spot {
        trial: Trial::Of(Call::Lock),
        part: Part::Number(0),
    },
    Spot {
        trial: Trial::Of(Call::Lock),
        part: Part::Number(1),
    },
    Spot {
        trial: Trial::Of(Call::RecoverRead),
        part: Part::Number(0),
    },
    Spot {
        trial: Trial::Of(Call::RecoverRead),
        part: Part::Number(1),
    },
    Spot {
        trial: Trial::Of(Call::RecoverRead),
        part: Part::Number(2),
    },
];

// The parts of a result beside the buffers: the words of the record, and those spots.
const PARTS: u64 = STATE_WORDS + 14;

// So often one of them is spoiled: each in turn, first in its lowest bit, then in the next one.
const RESULTS: u64 = 1797;

fn spot_of(i: u64) -> Spot {
    if let Some(k) = i.checked_sub(STATE_WORDS) {
        if let Some(spot) = SPOTS.get(k as usize) {
            return *spot;
        }
    }
    Spot {
        trial: REDO,
        part: Part::State(i),
    }
}

// A call that is not refused, on a small store: on lane 1, or without a limit.
fn small(session: &mut Session, spot: Spot, mask: u64) {
    let call = spot.trial.call();
    let number = if setup::recovers(call) { u64::MAX } else { 1 };
    setup::start_for(session, call, 1);
    session.spoiled = Some(Spoiled {
        part: spot.part,
        mask,
    });
    spot.trial.probe(session, number);
    session.spoiled = None;
}

// A Format with the greatest sizes.
fn full(session: &mut Session, part: Part) {
    session.sizes = Sizes {
        words: MAX_WORDS,
        lanes: MAX_LANES,
        slots: MAX_SLOTS,
    };
    session.fit();
    session.spoiled = Some(Spoiled { part, mask: 1 });
    session.call(Call::Format, 0, MAX_WORDS);
    session.spoiled = None;
}

fn small_buffer<F: Fn(u64) -> Part>(session: &mut Session, part: F)
    requires { F.IsAlwaysCallable part }
{
    for i in 0..LENGTH {
        let spot = Spot {
            trial: REDO,
            part: part(i),
        };
        small(session, spot, 1);
    }
}

// Every 122nd word, of which the last is the buffer's last one.
fn full_buffer<F: Fn(u64) -> Part>(session: &mut Session, part: F)
    requires { F.IsAlwaysCallable part }
{
    for i in 0..43 {
        full(session, part(122 * i));
    }
}

pub(crate) fn spoiled(session: &mut Session) {
    for i in 0..RESULTS {
        small(session, spot_of(i % PARTS), 1 << (i / PARTS));
    }
    small_buffer(session, Part::Cache);
    small_buffer(session, Part::Nvm);
    small_buffer(session, Part::Flags);
    full_buffer(session, Part::Cache);
    full_buffer(session, Part::Nvm);
    full_buffer(session, Part::Flags);
}
