// Program `recover`: reads W, T, N and an image of the former length, and prints the boundary and the data words that
// recovery leaves, or why it is refused.
#![tactic(auto)]

use report::SizesAt;
use std::io::Result;

fn main(rt: HostRuntime) -> Result<()> {
    report::report_input(SizesAt::Start, &mut rt.stdin(), &mut rt.stdout())?;
    Ok(())
}
