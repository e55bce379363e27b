// Program `inspect_read`: reads what `recover_read` reads, an image whose last four words tell its sizes, and prints
// what stands in it, what recovery would undo, and what `recover_read` prints. Nothing is changed.
#![tactic(auto)]

use report::SizesAt;
use std::io::Result;

fn main(rt: HostRuntime) -> Result<()> {
    inspection::inspect_input(SizesAt::End, &mut rt.stdin(), &mut rt.stdout())?;
    Ok(())
}
