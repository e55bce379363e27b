// The calls, what they answer, and what they are refused with. SPECIFICATION, "Machine, refusals and answers".
ghost use Rattle.std.specs.Prelude.{◌≡◌};
ghost use Rattle.second.specs.inner.Refusals.{number_of};

use std::error::Error;
use std::fmt;

#[derive(Clone, Copy, PartialEq, Eq, Debug)]
pub enum Call {
    // of no words it settles its lane
    Log,
    Redo,
    Validate,
    Mark,
    Drain,
    WriteBack,
    // by the sizes that it is given
    Recover,
    Format,
    // by the sizes at the end of non-volatile memory
    RecoverRead,
    // takes the lock for a long transaction
    Lock,
    // makes the next step of that
    Continue,
}

impl Call {
    pub const ALL: [Call; 11] = [
        Call::Log,
        Call::Redo,
        Call::Validate,
        Call::Mark,
        Call::Drain,
        Call::WriteBack,
        Call::Recover,
        Call::Format,
        Call::RecoverRead,
        Call::Lock,
        Call::Continue,
    ];
}

impl fmt::Display for Call {
    fn fmt<W: fmt::Write>(&self, f: &mut fmt::Formatter<W>) -> fmt::Result {
        f.write_str(match self {
            Call::Log => "Log",
            Call::Redo => "Redo",
            Call::Validate => "Validate",
            Call::Mark => "Mark",
            Call::Drain => "Drain",
            Call::WriteBack => "write-back",
            Call::Recover => "recovery with sizes",
            Call::Format => "Format",
            Call::RecoverRead => "recovery without sizes",
            Call::Lock => "Lock",
            Call::Continue => "Continue",
        })
    }
}

// The causes of a refusal, in the order in which they win: the least of those that hold is the refusal.
#[derive(Clone, Copy, PartialEq, Eq, PartialOrd, Ord, Debug)]
pub enum Refusal {
    // sizes out of range, or a length that the call does not take
    Lengths,
    // non-volatile memory tells no sizes
    NoTrailer,
    BadLag,
    BadRecord,
    NoLane,
    NoWord,
    BadTransaction,
    // the lane holds a transaction already
    Holds,
    // there is nothing to commit, or no lock to go on with
    HoldsNone,
    // the lock keeps the call out
    Locked,
    // a long transaction counts more slots than there are
    TooLong,
    // no timestamp is left
    Spent,
    // the timestamp would pass the lag limit
    Lags,
    Overwrites,
    // the base timestamp is odd
    OddBase,
}

impl Refusal {
    pub const ALL: [Refusal; 15] = [
        Refusal::Lengths,
        Refusal::NoTrailer,
        Refusal::BadLag,
        Refusal::BadRecord,
        Refusal::NoLane,
        Refusal::NoWord,
        Refusal::BadTransaction,
        Refusal::Holds,
        Refusal::HoldsNone,
        Refusal::Locked,
        Refusal::TooLong,
        Refusal::Spent,
        Refusal::Lags,
        Refusal::Overwrites,
        Refusal::OddBase,
    ];

    pub fn number(self) -> u64
        ensures { result ≡ number_of self }
    {
        match self {
            Refusal::Lengths => 1,
            Refusal::BadRecord => 2,
            Refusal::NoLane => 3,
            Refusal::NoWord => 4,
            Refusal::BadTransaction => 5,
            Refusal::Holds => 6,
            Refusal::HoldsNone => 7,
            Refusal::Spent => 8,
            Refusal::Overwrites => 9,
            Refusal::OddBase => 10,
            Refusal::Locked => 11,
            Refusal::TooLong => 12,
            Refusal::NoTrailer => 14,
            Refusal::Lags => 15,
            Refusal::BadLag => 16,
        }
    }

    pub(crate) fn when(self, holds: bool) -> Option<Refusal> {
        holds.then_some(self)
    }
}

// A number that no refusal has.
#[derive(Clone, Copy, PartialEq, Eq, Debug)]
pub struct UnknownNumber(pub u64);

impl fmt::Display for UnknownNumber {
    fn fmt<W: fmt::Write>(&self, f: &mut fmt::Formatter<W>) -> fmt::Result {
        write!(f, "no refusal has the number {}", self.0)
    }
}

impl Error for UnknownNumber {}

impl TryFrom<u64> for Refusal {
    type Error = UnknownNumber;

    fn try_from(number: u64) -> Result<Refusal, UnknownNumber> {
        match number {
            1 => Ok(Refusal::Lengths),
            2 => Ok(Refusal::BadRecord),
            3 => Ok(Refusal::NoLane),
            4 => Ok(Refusal::NoWord),
            5 => Ok(Refusal::BadTransaction),
            6 => Ok(Refusal::Holds),
            7 => Ok(Refusal::HoldsNone),
            8 => Ok(Refusal::Spent),
            9 => Ok(Refusal::Overwrites),
            10 => Ok(Refusal::OddBase),
            11 => Ok(Refusal::Locked),
            12 => Ok(Refusal::TooLong),
            14 => Ok(Refusal::NoTrailer),
            15 => Ok(Refusal::Lags),
            16 => Ok(Refusal::BadLag),
            _ => Err(UnknownNumber(number)),
        }
    }
}

impl fmt::Display for Refusal {
    fn fmt<W: fmt::Write>(&self, f: &mut fmt::Formatter<W>) -> fmt::Result {
        let number = self.number();
        write!(f, "{number}")
    }
}

#[derive(Clone, Copy, PartialEq, Eq, Debug)]
pub enum Answer {
    Done,
    // of a Log or a Lock whose transaction writes nothing
    NoWrites,
    Logged {
        count: u64,
        stamp: u64,
    },
    Settled {
        stamp: u64,
    },
    Committed {
        stamp: u64,
    },
    Stale,
    Changed,
    Marked {
        dropped: bool,
        stamp: u64,
    },
    // of Lock and Continue: how many writes are not yet made
    Locked {
        left: u64,
        stamp: u64,
    },
    Cut,
    Recovered {
        boundary: Option<u64>,
        undone: u64,
        torn: u64,
    },
}

impl fmt::Display for Answer {
    fn fmt<W: fmt::Write>(&self, f: &mut fmt::Formatter<W>) -> fmt::Result {
        match *self {
            Answer::Done => f.write_str("done"),
            Answer::NoWrites => f.write_str("count 0"),
            Answer::Logged { count, stamp } => write!(f, "count {count} stamp {stamp}"),
            Answer::Settled { stamp } => write!(f, "count 0 stamp {stamp}"),
            Answer::Committed { stamp } => write!(f, "stamp {stamp}"),
            Answer::Stale => f.write_str("stale"),
            Answer::Changed => f.write_str("changed"),
            Answer::Marked { stamp, .. } => write!(f, "stamp {stamp}"),
            Answer::Locked { left, stamp } => write!(f, "count {left} stamp {stamp}"),
            Answer::Cut => f.write_str("cut"),
            Answer::Recovered {
                boundary: Some(boundary),
                undone,
                torn,
            } => write!(f, "boundary {boundary}, undone {undone}, torn {torn}"),
            Answer::Recovered {
                boundary: None,
                undone,
                torn,
            } => write!(f, "boundary none, undone {undone}, torn {torn}"),
        }
    }
}

pub type Outcome = Result<Answer, Refusal>;

// Is none of these causes there? Else the one that wins.
pub(crate) fn unless(causes: &[Option<Refusal>]) -> Result<(), Refusal> {
    match causes.iter().flatten().min() {
        Some(refusal) => Err(*refusal),
        None => Ok(()),
    }
}
