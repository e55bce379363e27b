// Why a replay stops before the end of its input.
use std::alloc::AllocError;
use std::io;

#[derive(Debug, Drop)]
pub(crate) enum Stop {
    // the input or a trace in it is malformed
    BadTrace,
    // reading, writing or memory failed
    Io(io::Error),
}

impl From<io::Error> for Stop {
    fn from(error: io::Error) -> Stop {
        Stop::Io(error)
    }
}

impl From<AllocError> for Stop {
    fn from(error: AllocError) -> Stop {
        Stop::Io(error.into())
    }
}
