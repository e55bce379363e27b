// The memory that calls are lent parts of. It is one word longer than the longest image, for a buffer that is too long,
// and what a call is not lent stays: the same list may lend an image with its trailer and without.
use second::words::{MAX_LENGTH, MAX_WORDS};

pub const ROOM: usize = MAX_LENGTH as usize + 1;

// The start words of a Format, of which there may be one too many, or a transaction.
pub const START: usize = MAX_WORDS as usize + 1;

pub type Image = [u64; ROOM];

#[derive(Clone, Copy, PartialEq, Eq)]
pub struct Buffers {
    pub cache: Image,
    pub nvm: Image,
    pub flags: [u8; ROOM],
}

impl Buffers {
    pub(crate) fn new() -> Buffers {
        Buffers {
            cache: [0; ROOM],
            nvm: [0; ROOM],
            flags: [0; ROOM],
        }
    }
}

// The first words of a buffer, all where there are not so many.
pub(crate) fn first<T>(buffer: &[T], count: u64) -> &[T] {
    buffer.get(..count as usize).unwrap_or(buffer)
}

pub(crate) fn first_mut<T>(buffer: &mut [T], count: u64) -> &mut [T] {
    let length = buffer.len();
    if count < length as u64 {
        return &mut buffer[..count as usize];
    }
    buffer
}
