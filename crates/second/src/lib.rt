// The second implementation of the calls, written from the specification alone and in another way than the store: every
// slot decoded, causes of refusal taken all together and the one that wins picked, all stores of a recovery listed
// before the first is made. It shares no code with the store.
#![tactic(auto)]

pub mod calls;
pub mod image;
mod list;
mod locking;
pub mod machine;
pub mod reading;
pub mod records;
mod restart;
mod running;
mod steps;
#[cfg(test)]
mod tests;
pub mod words;

pub use calls::{Answer, Call, Outcome, Refusal};
