// Program `recover_read`: reads an image, whose last four words tell its sizes, and prints the boundary and the data
// words that recovery leaves, or why it is refused.
#![tactic(auto)]

use report::SizesAt;
use std::io::Result;

fn main(rt: HostRuntime) -> Result<()> {
    report::report_input(SizesAt::End, &mut rt.stdin(), &mut rt.stdout())?;
    Ok(())
}
