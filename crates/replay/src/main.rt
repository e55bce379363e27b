// Runs recorded calls on the store, and prints a line for each. docs/TRACE.md has the format of input and output.
#![tactic(auto)]

ghost use Rattle.std.specs.Prelude.{◌<◌, length, OnOk};

mod machine;
mod op;
mod print;
mod stop;
mod words;

use machine::Machine;
use op::Op;
use std::alloc::Global;
use std::io;
use stop::Stop;
use words::Words;

// Kept as a match: an op is data read from the trace, and a closure made of it would only hide which it is.
fn perform(rt: &impl Print, machine: &mut Machine, op: Op) -> io::Result<()> {
    match op {
        Op::Call(call) => {
            let name = call.name();
            print::answer(rt, name, machine.call(call))?;
        }
        Op::Recover { limit } => print::recovered(rt, machine.recover(limit))?,
        Op::RecoverRead {
            limit,
            cells,
            cached,
            flags,
        } => print::recovered(rt, machine.recover_read(limit, cells, cached, flags))?,
        Op::Dump => print::dump(rt, machine)?,
        Op::Digest => print::digests(rt, machine)?,
        Op::Store {
            buffer,
            index,
            values,
        } => {
            if let Some(buffer) = buffer {
                machine.store(buffer, index, values);
            }
        }
        Op::State(words) => machine.set_state(words),
        Op::Sizes(sizes) => machine.sizes = sizes,
        Op::Form(form) => machine.form = form,
        Op::Lag(lag) => machine.lag = lag,
    }
    Ok(())
}

// Runs the trace at the start of the words.
fn run_trace(rt: &impl Print, words: &mut Words) -> Result<(), Stop>
    ensures { OnOk result (length words.new < length words.old) }
{
    let mut machine = Machine::new(op::sizes(words)?);
    while let Some(op) = Op::read(words, machine.sizes)? {
        perform(rt, &mut machine, op)?;
    }
    Ok(())
}

// Runs the traces of the input, up to a malformed one.
fn replay(rt: &(impl Print + Input), alloc: Global) -> Result<(), Stop> {
    let input = words::read(alloc, rt.reader())?;
    let mut words = Words::new(&input);
    while !words.is_empty() {
        run_trace(rt, &mut words)?;
    }
    Ok(())
}

fn main(rt: HostRuntime) -> io::Result<()> {
    match replay(&rt, rt.alloc()) {
        Ok(()) => Ok(()),
        Err(Stop::BadTrace) => println!(rt; "bad trace"),
        Err(Stop::Io(error)) => Err(error),
    }
}
