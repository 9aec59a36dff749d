// Reads the cases of tests/cases.txt, one frame each: a byte of kind and a message. Prints the verdict
// on each, one line: `accepted`, or `refused`, the number and the place.
// A read or a write that fails ends it with an error.
#![tactic(auto)]

use frames::Frame;
use std::io;
use std::io::Read;

// A proved loop has to end, and nothing says that the input does. So this one has a last turn, which no run comes to.
fn main(rt: HostRuntime) -> io::Result<()> {
    let mut input = rt.stdin();
    for _ in 0..u64::MAX {
        if !judge_next(&rt, &mut input)? {
            break;
        }
    }
    Ok(())
}

// Judges the next frame, and answers whether to go on. A frame with no byte of kind is a broken one.
fn judge_next<R: Read>(rt: &impl Print, input: &mut R) -> io::Result<bool> {
    let mut frame = [0u8; 65537];
    let read = frames::next(input, &mut frame)?;
    let Frame::Is(n) = read else {
        if let Frame::Broken = read {
            rt.println("broken")?;
        }
        return Ok(false);
    };
    judge(rt, &frame[..n])
}

fn judge(rt: &impl Print, frame: &[u8]) -> io::Result<bool> {
    let Some((kind, m)) = frame.split_first() else {
        rt.println("broken")?;
        return Ok(false);
    };
    let verdict = message::accept(*kind, m);
    match verdict {
        Ok(()) => {
            rt.println("accepted")?;
        }
        Err(refusal) => {
            listing::print_refusal(rt, refusal)?;
        }
    }
    Ok(true)
}
