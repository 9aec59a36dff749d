// Lists many messages: standard input is a row of frames, each what the program `list` reads.
// Prints for each what `list` would print, and a line with a single dot.
// A read or a write that fails ends it with an error.
#![tactic(auto)]

use frames::Frame;
use std::io;
use std::io::Read;

// A proved loop has to end, and nothing says that the input does. So this one has a last turn, which no run comes to.
fn main(rt: HostRuntime) -> io::Result<()> {
    let mut input = rt.stdin();
    for _ in 0..u64::MAX {
        if !list_next(&rt, &mut input)? {
            break;
        }
    }
    Ok(())
}

// Lists the next frame, and answers whether to go on.
fn list_next<R: Read>(rt: &impl Print, input: &mut R) -> io::Result<bool> {
    // A byte of kind and a message of 65,536 bytes.
    let mut frame = [0u8; 65537];
    match frames::next(input, &mut frame)? {
        Frame::Is(n) => {
            let _ = listing::print(rt, &frame[..n])?;
            rt.println(".")?;
            Ok(true)
        }
        Frame::End => Ok(false),
        Frame::Broken => {
            rt.println("broken")?;
            Ok(false)
        }
    }
}
