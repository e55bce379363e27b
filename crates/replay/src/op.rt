// The ops of a trace, read from its words.
ghost use Rattle.std.specs.Prelude.{◌<◌, ◌≤◌, length, OnOk};

use crate::stop::Stop;
use crate::words::Words;
use codec::STATE_WORDS;
use image::{MAX_FORMER, Sizes};

// The most words of a transaction, and of a long one.
const MAX_TXN_WORDS: usize = 80;

const MAX_LONG_WORDS: usize = 272;

// Are images without a trailer?
#[derive(Clone, Copy)]
pub(crate) enum Form {
    New,
    Former,
}

#[derive(Clone, Copy)]
pub(crate) enum Buffer {
    Cached,
    Cells,
    Flags,
}

// No buffer has this number.
#[derive(Clone, Copy)]
pub(crate) struct UnknownBuffer;

// A call of the store that answers.
#[derive(Drop)]
pub(crate) enum Call<'a> {
    Log { lane: usize, txn: &'a [u64] },
    Redo { lane: usize },
    Validate { lane: usize, txn: &'a [u64] },
    Mark { lane: usize },
    Drain { lane: usize },
    WriteBack { word: usize },
    Format { start: &'a [u64] },
    Lock { lane: usize, txn: &'a [u64] },
    Continue { lane: usize },
}

#[derive(Drop)]
pub(crate) enum Op<'a> {
    Call(Call<'a>),
    Recover {
        limit: usize,
    },
    // without sizes: it says how many words of each buffer it is given
    RecoverRead {
        limit: usize,
        cells: usize,
        cached: usize,
        flags: usize,
    },
    Dump,
    Digest,
    // no buffer: nothing is stored
    Store {
        buffer: Option<Buffer>,
        index: usize,
        values: &'a [u64],
    },
    State(&'a [u64]),
    Sizes(Sizes),
    Form(Form),
    Lag(u64),
}

impl From<u64> for Form {
    fn from(number: u64) -> Form {
        match number {
            0 => Form::Former,
            _ => Form::New,
        }
    }
}

impl TryFrom<u64> for Buffer {
    type Error = UnknownBuffer;

    fn try_from(number: u64) -> Result<Buffer, UnknownBuffer> {
        match number {
            0 => Ok(Buffer::Cached),
            1 => Ok(Buffer::Cells),
            2 => Ok(Buffer::Flags),
            _ => Err(UnknownBuffer),
        }
    }
}

// W, T, N.
pub(crate) fn sizes(words: &mut Words) -> Result<Sizes, Stop>
    ensures { OnOk result (length words.new < length words.old) }
{
    let sizes = Sizes {
        words: words.number()?,
        lanes: words.number()?,
        slots: words.number()?,
    };
    Ok(sizes)
}

// Format's start words, none where the sizes are out of range.
fn start<'a>(words: &mut Words<'a>, sizes: Sizes) -> Result<&'a [u64], Stop>
    ensures { OnOk result (length words.new ≤ length words.old) }
{
    if !image::sizes_ok(sizes) {
        return words.take(0);
    }
    words.take(sizes.words)
}

impl<'a> Call<'a> {
    // Reads what follows the code of a call. The sizes say how many words Format starts from.
    fn read(code: u64, words: &mut Words<'a>, sizes: Sizes) -> Result<Call<'a>, Stop>
        ensures { OnOk result (length words.new ≤ length words.old) }
    {
        match code {
            1 => Ok(Call::Log {
                lane: words.number()?,
                txn: words.counted(MAX_TXN_WORDS)?,
            }),
            2 => Ok(Call::Redo {
                lane: words.number()?,
            }),
            3 => Ok(Call::Validate {
                lane: words.number()?,
                txn: words.counted(MAX_TXN_WORDS)?,
            }),
            4 => Ok(Call::Mark {
                lane: words.number()?,
            }),
            5 => Ok(Call::Drain {
                lane: words.number()?,
            }),
            6 => Ok(Call::WriteBack {
                word: words.number()?,
            }),
            8 => Ok(Call::Format {
                start: start(words, sizes)?,
            }),
            18 => Ok(Call::Lock {
                lane: words.number()?,
                txn: words.counted(MAX_LONG_WORDS)?,
            }),
            19 => Ok(Call::Continue {
                lane: words.number()?,
            }),
            _ => Err(Stop::BadTrace),
        }
    }

    // How its line begins.
    pub(crate) fn name(&self) -> &'static str {
        match self {
            Call::Log { .. } => "log",
            Call::Redo { .. } => "redo",
            Call::Validate { .. } => "validate",
            Call::Mark { .. } => "mark",
            Call::Drain { .. } => "drain",
            Call::WriteBack { .. } => "write-back",
            Call::Format { .. } => "format",
            Call::Lock { .. } => "lock",
            Call::Continue { .. } => "continue",
        }
    }
}

impl<'a> Op<'a> {
    // Reads an op, none where it is the one that ends the trace.
    pub(crate) fn read(words: &mut Words<'a>, sizes: Sizes) -> Result<Option<Op<'a>>, Stop>
        ensures { OnOk result (length words.new < length words.old) }
    {
        match words.next()? {
            0 => Ok(None),
            7 => Ok(Some(Op::Recover {
                limit: words.number()?,
            })),
            9 => Ok(Some(Op::Dump)),
            10 => Ok(Some(Op::Store {
                buffer: Buffer::try_from(words.next()?).ok(),
                index: words.number()?,
                values: words.take(1)?,
            })),
            11 => Ok(Some(Op::State(words.take(STATE_WORDS)?))),
            12 => Ok(Some(Op::Sizes(self::sizes(words)?))),
            13 => Ok(Some(Op::Store {
                buffer: Buffer::try_from(words.next()?).ok(),
                index: words.number()?,
                values: words.counted(MAX_FORMER)?,
            })),
            14 => Ok(Some(Op::Digest)),
            15 => Ok(Some(Op::Form(Form::from(words.next()?)))),
            16 => Ok(Some(Op::RecoverRead {
                limit: words.number()?,
                cells: words.number()?,
                cached: words.number()?,
                flags: words.number()?,
            })),
            17 => Ok(Some(Op::Lag(words.next()?))),
            code => Ok(Some(Op::Call(Call::read(code, words, sizes)?))),
        }
    }
}
