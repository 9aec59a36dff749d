// The chart program's work, on a reply with areas that stands on standard input: what each row's area is, the field list inside the first one, its holes
// turned for the chart, the turned area passed on in a reply of its own and read back, turned again, and the first area written anew by steps.
// A read or a write that fails ends it with an error.
#![tactic(auto)]

ghost use Rattle.std.specs.Prelude.{◌≤◌, length, IfSome};

use format::Refusal;
use reply::Head;
use std::io;
use write::Outcome;

// Room for a reply, and for an area.
const ROOM: usize = 65536;

// Entries asked for at once, and the numbers of each: offset, size, field number, three indices.
const WINDOW: usize = 512;

const NUMBERS: usize = 6;

// The byte of the area whose owner is asked for.
const BYTE: usize = 200;

// The one column of the reply that is written, as three numbers: its type, and where its name stands.
const COLUMN: [u64; 3] = [format::GEOGRAPHY as u64, 0, 4];

fn main(rt: HostRuntime) -> io::Result<()> {
    let mut input = [0u8; ROOM];
    let n = frames::read_full(&mut rt.stdin(), &mut input)?;
    chart(&rt, &input[..n])
}

fn chart(rt: &impl Print, reply: &[u8]) -> io::Result<()> {
    let found = query::find_column(reply, 0, b"AREA");
    match found {
        Ok(column) => chart_column(rt, reply, column),
        Err(refusal) => refuse(rt, refusal),
    }
}

fn chart_column(rt: &impl Print, reply: &[u8], column: usize) -> io::Result<()> {
    println!(rt; "column {column}")?;
    print_rows(rt, reply, column, row_count(reply))?;
    let span = query::cell_span(reply, 0, 0, column);
    if let Ok(Some((start, _))) = span {
        chart_area(rt, query::part_at(reply, span), start)?;
    }
    Ok(())
}

// An area that starts at a place of its message.
fn chart_area(rt: &impl Print, body: &[u8], start: usize) -> io::Result<()> {
    print_fields(rt, body, start as u64)?;
    print_owner(rt, body, start)?;
    print_holes(rt, body)?;
    turn_and_pass_on(rt, body)?;
    write_anew(rt, body)
}

// ---- What each row's area is.

fn row_count(reply: &[u8]) -> usize {
    query::table(reply, 0).map_or(0, |layout| layout.rows)
}

fn print_rows(rt: &impl Print, reply: &[u8], column: usize, rows: usize) -> io::Result<()> {
    for row in 0..rows {
        print_row(rt, reply, row, column)?;
    }
    Ok(())
}

fn print_row(rt: &impl Print, reply: &[u8], row: usize, column: usize) -> io::Result<()> {
    print!(rt; "row {row}")?;
    print_cell(rt, reply, row, column)
}

fn print_cell(rt: &impl Print, reply: &[u8], row: usize, column: usize) -> io::Result<()> {
    let span = query::cell_span(reply, 0, row, column);
    match span {
        Ok(Some((start, _))) => print_area(rt, query::part_at(reply, span), start),
        Ok(None) => rt.println(": null"),
        Err(refusal) => {
            rt.print(": ")?;
            refuse(rt, refusal)
        }
    }
}

fn print_area(rt: &impl Print, body: &[u8], start: usize) -> io::Result<()> {
    let answer = areas::rings(body);
    match answer {
        Ok(n) => println!(rt; ": area at {start}, rings {n}"),
        Err(refusal) => {
            rt.print(": ")?;
            refuse(rt, moved(refusal, start))
        }
    }
}

// A refusal of a body, at its place in the message. No message is so long that the sum wraps.
fn moved(refusal: Refusal, start: usize) -> Refusal {
    let fault = refusal.fault;
    Refusal {
        fault,
        place: std::num::wrapping_add_usize(start, refusal.place),
    }
}

// ---- The field list inside an area, with places in the message.

// Window after window, until one isn't full. A field has at least one byte, so the list is no longer than the body.
fn print_fields(rt: &impl Print, body: &[u8], start: u64) -> io::Result<()> {
    for first in (0..=body.len()).step_by(WINDOW) {
        if !print_window(rt, body, first, start)? {
            break;
        }
    }
    Ok(())
}

// Prints the entries from `first` on, as many as a window takes, and answers whether there may be more.
fn print_window(rt: &impl Print, body: &[u8], first: usize, start: u64) -> io::Result<bool> {
    let mut numbers = [0u64; WINDOW * NUMBERS];
    let answer = inside::window(body, first, &mut numbers);
    let Ok(n) = answer else {
        return Ok(false);
    };
    print_entries(rt, &numbers, n, start)?;
    Ok(n == WINDOW)
}

// Prints the first n entries, or as many as there are.
fn print_entries(rt: &impl Print, numbers: &[u64], n: usize, start: u64) -> io::Result<()> {
    for entry in numbers.chunks_exact(NUMBERS).take(n) {
        print_entry(rt, entry, start)?;
    }
    Ok(())
}

// Prints an entry's six numbers as a line of the listing's form: place, size, field number, ring, vertex, axis.
fn print_entry(rt: &impl Print, numbers: &[u64], start: u64) -> io::Result<()>
    requires { 6 ≤ length numbers.now }
{
    let place = std::num::wrapping_add_u64(start, numbers[0]);
    let (size, field) = (numbers[1], numbers[2]);
    let (ring, vertex, axis) = (numbers[3], numbers[4], numbers[5]);
    println!(rt; "{place} {size} {field} {ring} {vertex} {axis}")
}

fn print_owner(rt: &impl Print, body: &[u8], start: usize) -> io::Result<()> {
    let answer = inside::owner(body, BYTE);
    if let Ok((entry, _)) = answer {
        let byte = std::num::wrapping_add_usize(start, BYTE);
        let field = entry.field;
        let (ring, vertex, axis) = (entry.i, entry.j, entry.k);
        println!(rt; "byte {byte} is of field {field}, ring {ring}, vertex {vertex}, axis {axis}")?;
    }
    Ok(())
}

// ---- The holes of an area: each ring after the first, by the bits of its vertices, so that their order is seen.

fn print_holes(rt: &impl Print, body: &[u8]) -> io::Result<()> {
    for ring in 1..ring_count(body) {
        print_ring(rt, body, ring)?;
    }
    Ok(())
}

fn ring_count(body: &[u8]) -> usize {
    areas::rings(body).unwrap_or(0)
}

fn print_ring(rt: &impl Print, body: &[u8], ring: usize) -> io::Result<()> {
    let answer = areas::ring(body, ring);
    if let Ok(layout) = answer {
        print_vertices(rt, body, ring, layout.vertices)?;
    }
    Ok(())
}

fn print_vertices(rt: &impl Print, body: &[u8], ring: usize, vertices: usize) -> io::Result<()> {
    for v in 0..vertices {
        print_vertex(rt, body, ring, v)?;
    }
    Ok(())
}

fn print_vertex(rt: &impl Print, body: &[u8], ring: usize, v: usize) -> io::Result<()> {
    print!(rt; "ring {ring}, vertex {v}")?;
    print_bits(rt, areas::vertex_bits(body, ring, v))
}

fn print_bits(rt: &impl Print, bits: Result<(u64, u64, u64), Refusal>) -> io::Result<()> {
    if let Ok((x, y, z)) = bits {
        print!(rt; ": {x:016x} {y:016x} {z:016x}")?;
    }
    rt.println("")
}

// ---- The holes turned, and the area passed on.

// Turns the holes in a copy, and passes that on. The message that the body is lent from stays as it came.
fn turn_and_pass_on(rt: &impl Print, body: &[u8]) -> io::Result<()> {
    let mut copy = [0u8; ROOM];
    let Some(size) = copy_into(body, &mut copy) else {
        return Ok(());
    };
    pass_on_turned(rt, &mut copy[..size], body)
}

fn pass_on_turned(rt: &impl Print, copy: &mut [u8], first: &[u8]) -> io::Result<()> {
    if turn_in_place(rt, copy)? {
        pass_on(rt, copy, first)?;
    }
    Ok(())
}

// Copies all bytes and answers how many, or copies none where they don't fit.
fn copy_into(from: &[u8], to: &mut [u8]) -> Option<usize>
    ensures { IfSome result (λ size. size ≤ length to.new) }
{
    if to.len() < from.len() {
        return None;
    }
    to[..from.len()].copy_from_slice(from);
    Some(from.len())
}

// Turns the holes, and says how many rings the body has, or why it's refused. Answers whether they were turned.
fn turn_in_place(rt: &impl Print, body: &mut [u8]) -> io::Result<bool> {
    let turned = turn::turn_holes(body);
    match turned {
        Ok(n) => {
            println!(rt; "turned, rings {n}")?;
            Ok(true)
        }
        Err(refusal) => {
            refuse(rt, refusal)?;
            Ok(false)
        }
    }
}

// Writes a turned area into a reply, and reads that back.
fn pass_on(rt: &impl Print, turned: &[u8], first: &[u8]) -> io::Result<()> {
    let mut out = [0u8; ROOM];
    let step = write_reply(&mut out, turned);
    let answer = step.answer;
    read_back(rt, written(rt, &out, answer)?, first)
}

// What was written, by the answer of the last step. After a refusal that is printed, and this is empty.
fn written<'a>(
    rt: &impl Print,
    out: &'a [u8],
    answer: Result<usize, Refusal>,
) -> io::Result<&'a [u8]> {
    match answer {
        Ok(n) => Ok(out.get(..n).unwrap_or(&out[..0])),
        Err(refusal) => {
            refuse(rt, refusal)?;
            Ok(&out[..0])
        }
    }
}

fn read_back(rt: &impl Print, reply: &[u8], first: &[u8]) -> io::Result<()> {
    let verdict = message::accept(4, reply);
    if let Err(refusal) = verdict {
        return refuse(rt, refusal);
    }
    let size = reply.len();
    print!(rt; "passed on, bytes {size}")?;
    print_cell(rt, reply, 0, 0)?;
    let turned = query::part_at(reply, query::cell_span(reply, 0, 0, 0));
    print_holes(rt, turned)?;
    turn_back(rt, turned, first)
}

// Turns the holes once more, which restores the body.
fn turn_back(rt: &impl Print, turned: &[u8], first: &[u8]) -> io::Result<()> {
    let mut copy = [0u8; ROOM];
    let Some(size) = copy_into(turned, &mut copy) else {
        return Ok(());
    };
    restore(rt, &mut copy[..size], first)
}

fn restore(rt: &impl Print, copy: &mut [u8], first: &[u8]) -> io::Result<()> {
    if turn_in_place(rt, copy)? {
        compare(rt, "turned twice: ", copy, first)?;
    }
    Ok(())
}

// ---- A reply with one table, which has one row, which has one area.

fn write_reply(out: &mut [u8], body: &[u8]) -> Outcome {
    let mut types = [0; write::COLUMNS];
    let opened = open_table(out, &mut types);
    let filled = put_row(out, &types, opened, body);
    finish_reply(out, &types, filled)
}

fn put_row(out: &mut [u8], types: &[u8; write::COLUMNS], step: Outcome, body: &[u8]) -> Outcome {
    let opened = after(step, rows::open_row(out, step.state, types));
    let filled = after(
        opened,
        rows::body_cell(out, opened.state, types, format::GEOGRAPHY, Some(body)),
    );
    after(filled, rows::close_row(out, filled.state, types))
}

// Begins the reply, and opens its table.
fn open_table(out: &mut [u8], types: &mut [u8; write::COLUMNS]) -> Outcome {
    let head = Head {
        version: 0,
        flags: 0,
        status: 1,
        app_status: 128,
        round_trip: 0,
    };
    let begun = reply::begin_reply(out, head, b"chart 00", None, None, b"");
    after(
        begun,
        numbers::open_listed(out, begun.state, types, 0, &COLUMN, b"AREA"),
    )
}

// Closes the table, and finishes the reply.
fn finish_reply(out: &mut [u8], types: &[u8; write::COLUMNS], step: Outcome) -> Outcome {
    let closed = after(step, rows::close_table(out, step.state, types));
    after(closed, reply::finish_reply(out, closed.state))
}

// The second of two steps, or the first where that was refused.
fn after(first: Outcome, second: Outcome) -> Outcome {
    if first.answer.is_err() { first } else { second }
}

// ---- The area, written anew by steps from what is read of it.

fn write_anew(rt: &impl Print, body: &[u8]) -> io::Result<()> {
    let mut out = [0u8; ROOM];
    let step = write_area(&mut out, body);
    let answer = step.answer;
    compare(rt, "written anew: ", written(rt, &out, answer)?, body)
}

fn write_area(out: &mut [u8], body: &[u8]) -> outline::Outcome {
    let begun = begin_area(out, body);
    let filled = put_rings(out, begun, body);
    finish_area(out, filled, body)
}

fn finish_area(out: &mut [u8], step: outline::Outcome, body: &[u8]) -> outline::Outcome {
    let kept = block(query::part_at(body, areas::kept(body)));
    then(step, outline::finish(out, step.state, &kept))
}

// The first two bytes are the body's own. The third says whether there are holes, and is the writer's to fill.
fn begin_area(out: &mut [u8], body: &[u8]) -> outline::Outcome {
    if body.len() < 2 {
        return outline::begin(out, 0, 0);
    }
    outline::begin(out, body[0], body[1])
}

fn put_rings(out: &mut [u8], before: outline::Outcome, body: &[u8]) -> outline::Outcome {
    let mut step = before;
    for ring in 0..ring_count(body) {
        step = put_ring(out, step, body, ring);
    }
    step
}

// A ring that can't be read is left out.
fn put_ring(out: &mut [u8], step: outline::Outcome, body: &[u8], ring: usize) -> outline::Outcome {
    let found = areas::ring(body, ring);
    let Ok(layout) = found else {
        return step;
    };
    let opened = then(step, outline::open_ring(out, step.state, layout.mark));
    let filled = put_vertices(out, opened, body, ring, layout.vertices);
    close_ring(out, filled, body, ring)
}

fn close_ring(
    out: &mut [u8],
    step: outline::Outcome,
    body: &[u8],
    ring: usize,
) -> outline::Outcome {
    let kept = block(query::part_at(body, areas::ring_kept(body, ring)));
    then(step, outline::close_ring(out, step.state, &kept))
}

fn put_vertices(
    out: &mut [u8],
    before: outline::Outcome,
    body: &[u8],
    ring: usize,
    vertices: usize,
) -> outline::Outcome {
    let mut step = before;
    for v in 0..vertices {
        step = put_vertex(out, step, areas::vertex_bits(body, ring, v));
    }
    step
}

fn put_vertex(
    out: &mut [u8],
    step: outline::Outcome,
    bits: Result<(u64, u64, u64), Refusal>,
) -> outline::Outcome {
    let Ok((x, y, z)) = bits else {
        return step;
    };
    then(step, outline::add_vertex(out, step.state, x, y, z))
}

// The second of two steps of an area, or the first where that was refused.
fn then(first: outline::Outcome, second: outline::Outcome) -> outline::Outcome {
    if first.answer.is_err() { first } else { second }
}

// Kept bytes as the steps take them: a block for a ring or for an area.
fn block<const N: usize>(kept: &[u8]) -> [u8; N] {
    let mut block = [0u8; N];
    copy_into(kept, &mut block);
    block
}

// ---- What is printed.

// Says whether two bodies are the same.
fn compare(rt: &impl Print, text: &str, a: &[u8], b: &[u8]) -> io::Result<()> {
    rt.print(text)?;
    if a == b {
        rt.println("the same bytes")
    } else {
        rt.println("other bytes")
    }
}

fn refuse(rt: &impl Print, refusal: Refusal) -> io::Result<()> {
    listing::print_refusal(rt, refusal)?;
    Ok(())
}
