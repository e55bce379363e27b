// Lines of output.
use crate::machine::{Machine, Recovered};
use std::fmt::{self, Display};
use std::io;
use store::{Answer, Refusal};

// Numbers, each after a space.
#[derive(Drop)]
struct Spaced<'a, T>(&'a [T]);

impl<T: Display> Display for Spaced<'_, T> {
    fn fmt<W: fmt::Write>(&self, f: &mut fmt::Formatter<W>) -> fmt::Result {
        for number in self.0 {
            write!(f, " {number}")?;
        }
        Ok(())
    }
}

// What a call answered, behind its name.
#[derive(Drop)]
struct Answered(Result<Answer, Refusal>);

impl Display for Answered {
    fn fmt<W: fmt::Write>(&self, f: &mut fmt::Formatter<W>) -> fmt::Result {
        let answer = match self.0 {
            Ok(answer) => answer,
            Err(refusal) => return write!(f, " refused {}", refusal.number()),
        };
        match answer {
            Answer::Done => Ok(()),
            Answer::NoWrites => write!(f, " 0"),
            Answer::Logged(appended) => write!(f, " {} {}", appended.count, appended.stamp),
            Answer::Settled(stamp) => write!(f, " 0 {stamp}"),
            Answer::Committed(stamp) => write!(f, " {stamp}"),
            Answer::Stale => write!(f, " stale"),
            Answer::Changed => write!(f, " changed"),
            Answer::Marked(marked) => {
                let dropped = if marked.dropped { " dropped" } else { "" };
                write!(f, " {}{dropped}", marked.stamp)
            }
            Answer::Locked(progress) => write!(f, " {} {}", progress.left, progress.stamp),
        }
    }
}

// What a recovery answered.
#[derive(Drop)]
struct Restarted(Recovered);

impl Display for Restarted {
    fn fmt<W: fmt::Write>(&self, f: &mut fmt::Formatter<W>) -> fmt::Result {
        match self.0 {
            Err(refusal) => write!(f, " refused {}", refusal.number()),
            Ok(None) => write!(f, " cut"),
            Ok(Some(finished)) => {
                match finished.boundary {
                    None => write!(f, " none")?,
                    Some(stamp) => write!(f, " {stamp}")?,
                }
                write!(f, " {} {}", finished.undone, finished.torn)
            }
        }
    }
}

// The line of a call.
pub(crate) fn answer(
    rt: &impl Print,
    name: &str,
    answer: Result<Answer, Refusal>,
) -> io::Result<()> {
    println!(rt; "{name}{}", Answered(answer))
}

// The line of a recovery.
pub(crate) fn recovered(rt: &impl Print, answer: Recovered) -> io::Result<()> {
    println!(rt; "recover{}", Restarted(answer))
}

// The four lines of a dump.
pub(crate) fn dump(rt: &impl Print, machine: &Machine) -> io::Result<()> {
    println!(rt; "cached{}", Spaced(machine.cached()))?;
    println!(rt; "cells{}", Spaced(machine.cells()))?;
    println!(rt; "flags{}", Spaced(machine.flags()))?;
    println!(rt; "record{}", Spaced(machine.state()))
}

// A digest of numbers: at each it is rotated left by 7 bits, and then takes the number in.
fn digest<T: Copy + Into<u64>>(numbers: &[T]) -> u64 {
    let mut all = 0u64;
    for number in numbers {
        all = all.rotate_left(7) ^ (*number).into();
    }
    all
}

// The line of digests.
pub(crate) fn digests(rt: &impl Print, machine: &Machine) -> io::Result<()> {
    let cached = digest(machine.cached());
    let cells = digest(machine.cells());
    let flags = digest(machine.flags());
    let record = digest(machine.state());
    println!(rt; "digest {cached} {cells} {flags} {record}")
}
