// Calls run on the store and on the second implementation, from the same state, and compared: what the programs over
// lists of calls share. The buffers are in buffers.rt, a list of calls in session.rt, its tally in tally.rt, a call and
// its comparison in both.rt, the store's values in those of the second implementation in convert.rt, what is spoiled for
// a control in spoil.rt, power failures in power.rt, pseudo-random numbers in generator.rt, what is printed in print.rt.
#![tactic(auto)]

mod both;
pub mod buffers;
mod convert;
pub mod generator;
pub mod power;
pub mod print;
pub mod session;
pub mod spoil;
mod tally;
