// The field list of a message as text, on standard output: one line for each field, or the refusal.
// No contract can say what is written; tests/compare holds it against the second reader. A write that fails is an error.
#![tactic(auto)]

ghost use Rattle.std.specs.Prelude.{◌+◌, ◌≤◌, ◌≡◌, ◌++◌, length, take, IfOk};
ghost use Rattle.format.specs.Result.{number_of, told};
ghost use Rattle.format.specs.Message.{is_kind};
ghost use Rattle.listing.specs.Digits.{IsPrefixLen};
ghost use Rattle.listing.specs.Listing.{listing_of};
ghost use Rattle.listing.specs.Text.{spelled, behind_of, words_of};

mod number;

use format::{Fault, Refusal};
use number::decimal;
use std::io;

// The longest input: one byte of kind and a message of 65,536 bytes.
const MOST_INPUT: usize = 65537;

// Entries asked for at once, and the numbers of each: offset, size, field number, three indices.
const WINDOW: usize = 2048;

const NUMBERS: usize = 6;

// Room for a line: its numbers of at most 20 digits, each with a byte after it.
const LINE: usize = 126;

// Prints what the listing program prints for its input, one byte of kind and then a message: its field list, or a refusal.
// Answers which.
pub fn print(rt: &impl Print, input: &[u8]) -> io::Result<Result<(), Refusal>>
    ensures { IfOk result (λ verdict. told verdict ≡ listing_of input.now) }
{
    let verdict = judge(input);
    match verdict {
        Ok(()) => print_fields(rt, input)?,
        Err(refusal) => {
            print_refusal(rt, refusal)?;
        }
    }
    Ok(verdict)
}

// What is printed for an input: the field list where all is fine, or a refusal.
fn judge(input: &[u8]) -> Result<(), Refusal>
    ensures { told result ≡ listing_of input.now }
{
    let Some((kind, m)) = input.split_first() else {
        return Err(refusal_at_0(Fault::WireType));
    };
    if input.len() <= MOST_INPUT {
        return message::accept(*kind, m);
    }
    if is_kind(*kind) {
        return Err(refusal_at_0(Fault::Limit));
    }
    Err(refusal_at_0(Fault::WireType))
}

fn is_kind(kind: u8) -> bool
    ensures { result ≡ is_kind kind }
{
    1 <= kind && kind <= 4
}

fn refusal_at_0(fault: Fault) -> Refusal
    ensures { (result.fault ≡ fault) × (result.place ≡ 0) }
{
    Refusal { fault, place: 0 }
}

// Prints a refusal: `refused`, its number, its place. Answers the number.
pub fn print_refusal(rt: &impl Print, refusal: Refusal) -> io::Result<u8>
    ensures { IfOk result (λ number. number ≡ number_of refusal.fault) }
{
    let fault = refusal.fault;
    let number = format::number_of(fault);
    let place = refusal.place;
    println!(rt; "refused {number} {place}")?;
    Ok(number)
}

// Window after window, until one isn't full. A field has at least one byte, so the list is no longer than the message.
fn print_fields(rt: &impl Print, input: &[u8]) -> io::Result<()> {
    let Some((kind, m)) = input.split_first() else {
        return Ok(());
    };
    for first in (0..=m.len()).step_by(WINDOW) {
        if !print_window(rt, *kind, m, first)? {
            break;
        }
    }
    Ok(())
}

// Prints the entries from `first` on, as many as a window takes, and answers whether there may be more.
fn print_window(rt: &impl Print, kind: u8, m: &[u8], first: usize) -> io::Result<bool> {
    let mut numbers = [0u64; WINDOW * NUMBERS];
    let answer = fields::window(kind, m, first, &mut numbers);
    let Ok(n) = answer else {
        return Ok(false);
    };
    print_entries(rt, &numbers, n)?;
    Ok(n == WINDOW)
}

// Prints the first n entries, or as many as there are.
fn print_entries(rt: &impl Print, numbers: &[u64], n: usize) -> io::Result<()> {
    for entry in numbers.chunks_exact(NUMBERS).take(n) {
        print_line(rt, entry)?;
    }
    Ok(())
}

// Prints an entry's six numbers as a line.
fn print_line(rt: &impl Print, numbers: &[u64]) -> io::Result<()>
    requires { 6 ≤ length numbers.now }
{
    let mut line = [0u8; LINE];
    let end = put_line(&mut line, numbers);
    rt.write_all(&line[..end])
}

// Puts an entry's six numbers to the start of line, in decimal, one space between and a line
// feed behind. Answers where the text ends.
fn put_line(line: &mut [u8], numbers: &[u64]) -> usize
    requires six { 6 ≤ length numbers.now }
    requires in_bounds { 126 ≤ length line.old }
    ensures prefix_len { IsPrefixLen result line.new }
    ensures line_after { take result line.new ≡ words_of numbers.now 0 6 }
{
    let mut end = 0;
    for i in 0..NUMBERS {
        end = put_number(line, end, numbers[i], behind(i));
    }
    end
}

// The byte behind the i-th number of a line: a space, and a line feed behind the last.
fn behind(i: usize) -> u8
    ensures { result ≡ behind_of i }
{
    if i < 5 { b' ' } else { b'\n' }
}

// Puts n in decimal at `at`, and the byte `after` behind it. Answers where that ends.
fn put_number(line: &mut [u8], at: usize, n: u64, after: u8) -> usize
    requires { at + 21 ≤ length line.old }
    ensures upper_bound { result ≤ at + 21 }
    ensures line_after { take result line.new ≡ take at line.old ++ spelled n after }
{
    let mut digits = [0u8; 20];
    let count = decimal(n, &mut digits);
    line[at..at + count].copy_from_slice(&digits[..count]);
    line[at + count] = after;
    at + count + 1
}
