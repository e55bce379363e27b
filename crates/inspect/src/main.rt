// Program `inspect`: reads what `recover` reads, W, T, N and an image of the former length, and prints what stands in
// it, what recovery would undo, and what `recover` prints. Nothing is changed.
#![tactic(auto)]

use report::SizesAt;
use std::io::Result;

fn main(rt: HostRuntime) -> Result<()> {
    inspection::inspect_input(SizesAt::Start, &mut rt.stdin(), &mut rt.stdout())?;
    Ok(())
}
