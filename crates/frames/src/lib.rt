// Frames of an input: a size of 4 bytes, big-endian, then that many bytes.
#![tactic(auto)]

ghost use Rattle.std.specs.Prelude.{◌≤◌, ◌≡◌, length, IfOk, OnErr};
ghost use Rattle.frames.specs.Within.{IsPrefixLen, Within};

use std::io;
use std::io::Read;

// What stands next on an input: a whole frame of so many bytes, the end of the input, or a
// frame that is cut short or longer than the buffer.
#[derive(Drop)]
pub enum Frame {
    Is(usize),
    End,
    Broken,
}

// Reads the next frame to the start of buf. No contract can say what is read; this one says that
// the frame lies within buf. A read that fails is an error, and buf may then hold some of what came.
pub fn next<R: Read>(input: &mut R, buf: &mut [u8]) -> io::Result<Frame>
    ensures ok { IfOk result (λ frame. Within frame buf.new) }
    ensures err { OnErr result (length buf.new ≡ length buf.old) }
{
    let mut head = [0u8; 4];
    let got = read_full(input, &mut head)?;
    if got == 0 {
        return Ok(Frame::End);
    }
    let size = u32::from_be_bytes(head) as usize;
    if got < 4 {
        return Ok(Frame::Broken);
    }
    if buf.len() < size {
        return Ok(Frame::Broken);
    }
    let came = read_full(input, &mut buf[..size])?;
    if came < size {
        return Ok(Frame::Broken);
    }
    Ok(Frame::Is(size))
}

// Reads until buf is full or the input ends, and answers how many bytes it put at the start of buf.
pub fn read_full<R: Read>(input: &mut R, buf: &mut [u8]) -> io::Result<usize>
    ensures ok { IfOk result (λ n. IsPrefixLen n buf.new) }
    ensures err { OnErr result (length buf.new ≡ length buf.old) }
{
    let mut done = 0;
    while done < buf.len() {
        let n = input.read(&mut buf[done..])?;
        if n == 0 {
            break;
        }
        done += n;
    }
    Ok(done)
}
