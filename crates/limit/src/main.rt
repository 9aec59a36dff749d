// The insurer's question, asked of replies on standard input, one frame each: which bytes set the throttle limit of an engine?
// A card is made from the first reply and opened over each of them. Where it opens a column, the engine's limit is printed with
// its place in the message and the field that owns its first byte; where it doesn't fit any more, the refusal is, and why.
// A read or a write that fails ends it with an error.
#![tactic(auto)]

ghost use Rattle.format.specs.Result.{told};
ghost use Rattle.std.specs.Prelude.{◌≡◌, ◌≤◌, length, IfOk, IfSome};
ghost use Rattle.cards.specs.Card.{most_size};
ghost use Rattle.cards.specs.Answers.{ask_open};
ghost use Rattle.cards.specs.Reasons.{ask_fit, told_fit};
ghost use Rattle.query.specs.Answers.{ask_table, ask_position, ask_cell};

use cards::{Fit, Reason};
use format::Refusal;
use frames::Frame;
use query::TableLayout;
use show::Cell;
use std::io;
use std::io::Read;

// The engine that is asked for.
const ENGINE: i32 = 2;

// A proved loop has to end, and nothing says that the input does. So this one has a last turn, which no run comes to.
fn main(rt: HostRuntime) -> io::Result<()> {
    let mut input = rt.stdin();
    let mut card = [0u8; cards::MOST_SIZE];
    let Some(size) = make_card(&rt, &mut input, &mut card)? else {
        return Ok(());
    };
    for _ in 0..u64::MAX {
        if !open_next(&rt, &mut input, &card[..size])? {
            break;
        }
    }
    Ok(())
}

// Makes the card of the limit's column from the first reply, and asks that reply too. Answers how many bytes the card has, if one was made.
fn make_card<R: Read>(rt: &impl Print, input: &mut R, card: &mut [u8]) -> io::Result<Option<usize>>
    requires { most_size ≤ length card.old }
    ensures { IfOk result (λ made. IfSome made (λ size. size ≤ most_size)) }
{
    let mut frame = [0u8; 65537];
    let read = frames::next(input, &mut frame)?;
    let Frame::Is(n) = read else {
        return Ok(None);
    };
    let reply = &frame[..n];
    let made = cards::make_card(reply, 0, b"THROTTLE_LIMIT", card);
    match made {
        Err(refusal) => {
            listing::print_refusal(rt, refusal)?;
            Ok(None)
        }
        Ok(position) => {
            let size = cards::size_at(position);
            open(rt, reply, &card[..size])?;
            Ok(Some(size))
        }
    }
}

// Opens the card over the next reply, and answers whether there was one.
fn open_next<R: Read>(rt: &impl Print, input: &mut R, card: &[u8]) -> io::Result<bool> {
    let mut frame = [0u8; 65537];
    let read = frames::next(input, &mut frame)?;
    let Frame::Is(n) = read else {
        return Ok(false);
    };
    open(rt, &frame[..n], card)?;
    Ok(true)
}

fn open(rt: &impl Print, reply: &[u8], card: &[u8]) -> io::Result<()> {
    let opened = opened_by(reply, card);
    match opened {
        Ok(column) => print_limit(rt, reply, column),
        Err(refusal) => {
            rt.print("card ")?;
            listing::print_refusal(rt, refusal)?;
            print_reason(rt, fit_of(reply, card))
        }
    }
}

// Prints why a card doesn't fit; of a reply or a card that is refused for another fault there is nothing to say.
fn print_reason(rt: &impl Print, fit: Result<Fit, Refusal>) -> io::Result<()> {
    if let Ok(Fit::Stale(reason, place)) = fit {
        rt.print("stale: ")?;
        print_fact(rt, reason)?;
        print_now(rt, place)?;
    }
    Ok(())
}

fn print_fact(rt: &impl Print, reason: Reason) -> io::Result<()> {
    match reason {
        Reason::Past => rt.print("its position is past the last column"),
        Reason::OtherType => rt.print("the column at its position has another type"),
        Reason::OtherName => rt.print("the column at its position has another name"),
    }
}

fn print_now(rt: &impl Print, place: Option<usize>) -> io::Result<()> {
    match place {
        Some(column) => { println!(rt; "; its name and type now stand at column {column}") }
        None => rt.println("; no column has its name and type"),
    }
}

// Prints the engine's limit, and whose bytes it was read from.
fn print_limit(rt: &impl Print, reply: &[u8], column: usize) -> io::Result<()> {
    let Some(row) = engine_row(reply) else {
        return rt.println("no such engine");
    };
    let answer = cell_of(reply, row, column);
    if let Ok(Cell::Decimal(_, lower)) = answer {
        print!(rt; "limit {lower} x 10^-12,")?;
    }
    print!(rt; " column {column}, row {row}")?;
    print_place(rt, reply, row, column)
}

// The row of the engine, if one is its.
fn engine_row(reply: &[u8]) -> Option<usize> {
    let column = find_in(reply, b"ENGINE_ID").ok()?;
    (0..row_count(reply)).find(|row| is_engine(cell_of(reply, *row, column)))
}

fn row_count(reply: &[u8]) -> usize {
    layout_of(reply).map_or(0, |layout| layout.rows)
}

fn is_engine(answer: Result<show::Cell, Refusal>) -> bool {
    matches!(answer, Ok(Cell::Integer(ENGINE)))
}

// ---- The questions to a reply's table, each by a reader over it.

fn layout_of(reply: &[u8]) -> Result<TableLayout, Refusal>
    ensures { told result ≡ ask_table reply.now 0 }
{
    held::layout(held::reader(reply, 0))
}

fn find_in(reply: &[u8], name: &[u8]) -> Result<usize, Refusal>
    ensures { told result ≡ ask_position reply.now 0 name.now }
{
    held::find(held::reader(reply, 0), name)
}

fn opened_by(reply: &[u8], card: &[u8]) -> Result<usize, Refusal>
    ensures { told result ≡ ask_open reply.now 0 card.now }
{
    held::opened(held::reader(reply, 0), card)
}

fn fit_of(reply: &[u8], card: &[u8]) -> Result<Fit, Refusal>
    ensures { told_fit result ≡ ask_fit reply.now 0 card.now }
{
    held::fit(held::reader(reply, 0), card)
}

fn cell_of(reply: &[u8], row: usize, column: usize) -> Result<show::Cell, Refusal>
    ensures { told result ≡ ask_cell reply.now 0 row column }
{
    held::cell(held::reader(reply, 0), row, column)
}

// Prints where a cell's bytes stand and who owns the first of them.
fn print_place(rt: &impl Print, reply: &[u8], row: usize, column: usize) -> io::Result<()> {
    let place = query::cell_place(reply, 0, row, column);
    if let Ok(Some((at, size))) = place {
        print!(rt; ": {size} bytes from {at}")?;
        print_owner(rt, reply, at)?;
    }
    Ok(())
}

fn print_owner(rt: &impl Print, reply: &[u8], offset: usize) -> io::Result<()> {
    let answer = fields::owner(4, reply, offset);
    if let Ok((entry, _)) = answer {
        let field = entry.field;
        let (table, row, column) = (entry.i, entry.j, entry.k);
        print!(rt;
            "; byte {offset} is of field {field}, table {table}, row {row}, column {column}"
        )?;
    }
    rt.println("")
}
