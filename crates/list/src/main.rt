// The listing program: standard input is one byte of kind, then a message. Prints its field list,
// or its refusal. A read or a write that fails ends it with an error.
#![tactic(auto)]

use std::io;

fn main(rt: HostRuntime) -> io::Result<()> {
    // One byte more than the longest input, to see that it is longer.
    let mut input = [0u8; 65538];
    let n = frames::read_full(&mut rt.stdin(), &mut input)?;
    let _ = listing::print(&rt, &input[..n])?;
    Ok(())
}
