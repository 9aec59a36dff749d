// One message of each kind, with every wire type, is written step by step, read back, compared and listed.
// What must be printed is made by the second encoder and the second reader alone: tests/second/every.py.
// A write that fails ends it with an error.
#![tactic(auto)]

ghost use Rattle.std.specs.Prelude.{◌<◌};
ghost use Rattle.columns.specs.Entries.{columns_of};
ghost use Rattle.steps.specs.Steps.{open_table};
ghost use Rattle.write.specs.Shown.{Opened};

use columns::Column;
use format::Refusal;
use query::Argument;
use reply::Head;
use show::{Cell, Raw};
use std::io;
use write::{Outcome, State};

// A byte of kind, and more room than any of the messages needs.
const ROOM: usize = 1024;

// The table has a column of each type. The call has a parameter of each, with the same values, behind one that is null.
const COLUMNS: usize = 11;

// The columns: the type of each, and where its name stands.
const ENTRIES: [Column; COLUMNS] = [
    Column {
        wire_type: format::TINYINT,
        start: 0,
        size: 7,
    },
    Column {
        wire_type: format::SMALLINT,
        start: 8,
        size: 8,
    },
    Column {
        wire_type: format::INTEGER,
        start: 17,
        size: 7,
    },
    Column {
        wire_type: format::BIGINT,
        start: 25,
        size: 6,
    },
    Column {
        wire_type: format::FLOAT,
        start: 32,
        size: 5,
    },
    Column {
        wire_type: format::STRING,
        start: 38,
        size: 6,
    },
    Column {
        wire_type: format::TIMESTAMP,
        start: 45,
        size: 9,
    },
    Column {
        wire_type: format::DECIMAL,
        start: 55,
        size: 7,
    },
    Column {
        wire_type: format::VARBINARY,
        start: 63,
        size: 9,
    },
    Column {
        wire_type: format::POINT,
        start: 73,
        size: 5,
    },
    Column {
        wire_type: format::GEOGRAPHY,
        start: 79,
        size: 9,
    },
];

// None, as the numbers that the C interface takes for columns.
const NONE: [u64; 0] = [];

const NAMES: [u8; 88] =
    *b"TINYINT SMALLINT INTEGER BIGINT FLOAT STRING TIMESTAMP DECIMAL VARBINARY POINT GEOGRAPHY";

// The columns whose values have no fixed size, and that of the decimals.
const STRING_COLUMN: usize = 5;

const VARBINARY_COLUMN: usize = 8;

const GEOGRAPHY_COLUMN: usize = 10;

const DECIMAL_COLUMN: usize = 7;

const POINT_COLUMN: usize = 9;

// The parameters behind those.
const NULL_STRING: usize = 12;

const BYTE_ARRAY: usize = 13;

const STRINGS: usize = 14;

const DECIMALS: usize = 15;

// The string, the varbinary and the geography.
const TEXT: [u8; 5] = *b"Bodil";

const BYTES: [u8; 4] = *b"\x00\xff\x80\x01";

const SHAPE: [u8; 3] = *b"\xc0\x01\x7f";

// A value of a fixed size: its wire type, and its upper and lower 64 bits.
#[derive(Drop)]
struct Bits {
    wire_type: u8,
    upper: u64,
    lower: u64,
}

fn main(rt: HostRuntime) -> io::Result<()> {
    if login_request(&rt)? && login_response(&rt)? && invocation(&rt)? {
        response(&rt)?;
    }
    Ok(())
}

// ---- The messages. Each answers whether it was written and read back as it was written.

fn login_request(rt: &impl Print) -> io::Result<bool> {
    let mut buffer = [0u8; ROOM];
    buffer[0] = 1;
    let answer = login::login_request(
        &mut buffer[1..],
        1,
        1,
        b"database",
        b"harbour",
        b"a hash of 32 bytes, as SHA-256's",
    );
    let Some(frame) = frame_in(rt, &buffer, answer)? else {
        return Ok(false);
    };
    report(rt, "login request accepted", frame, true)
}

fn login_response(rt: &impl Print) -> io::Result<bool> {
    let mut buffer = [0u8; ROOM];
    buffer[0] = 2;
    let answer = login::login_response(
        &mut buffer[1..],
        1,
        0,
        0xffff_fffe,
        12,
        1_760_000_000_000,
        0x0a00_0001,
        b"6.0 harbour",
    );
    let Some(frame) = frame_in(rt, &buffer, answer)? else {
        return Ok(false);
    };
    report(rt, "login response accepted", frame, true)
}

fn invocation(rt: &impl Print) -> io::Result<bool> {
    let mut buffer = [0u8; ROOM];
    buffer[0] = 3;
    let step = write_call(&mut buffer[1..]);
    let answer = step.answer;
    let Some(frame) = frame_in(rt, &buffer, answer)? else {
        return Ok(false);
    };
    report(
        rt,
        "invocation accepted, parameters as written",
        frame,
        parameters_are(message_in(frame)),
    )
}

// Writes a draft with a row of values and one of nulls, and the response with those rows copied from it.
fn response(rt: &impl Print) -> io::Result<bool> {
    let mut draft = [0u8; ROOM];
    let step = write_draft(&mut draft[1..]);
    let answer = step.answer;
    let Some(frame) = frame_in(rt, &draft, answer)? else {
        return Ok(false);
    };
    response_from(rt, message_in(frame))
}

fn response_from(rt: &impl Print, draft: &[u8]) -> io::Result<bool> {
    let mut buffer = [0u8; ROOM];
    buffer[0] = 4;
    let step = write_reply(&mut buffer[1..], draft);
    let answer = step.answer;
    let Some(frame) = frame_in(rt, &buffer, answer)? else {
        return Ok(false);
    };
    report(
        rt,
        "response accepted, cells as written",
        frame,
        cells_are(message_in(frame)),
    )
}

// ---- What is printed.

// The byte of kind and the message behind it, by the answer of its last step. A refusal is printed.
fn frame_in<'a>(
    rt: &impl Print,
    buffer: &'a [u8; ROOM],
    answer: Result<usize, Refusal>,
) -> io::Result<Option<&'a [u8]>> {
    match answer {
        Ok(n) => Ok(buffer.get(..=n)),
        Err(refusal) => {
            listing::print_refusal(rt, refusal)?;
            Ok(None)
        }
    }
}

// The message behind the byte of kind.
fn message_in(frame: &[u8]) -> &[u8] {
    frame.split_first().map_or(frame, |(_, m)| m)
}

// Prints the verdict on a message that was read back: the one given, where it is accepted and its values are those that were written, and then
// its bytes and its field list. Answers whether it is so.
fn report(rt: &impl Print, fine: &str, frame: &[u8], equal: bool) -> io::Result<bool> {
    let Some((kind, m)) = frame.split_first() else {
        return Ok(false);
    };
    let verdict = message::accept(*kind, m);
    if let Err(refusal) = verdict {
        listing::print_refusal(rt, refusal)?;
        return Ok(false);
    }
    if !equal {
        rt.println("not as written")?;
        return Ok(false);
    }
    rt.println(fine)?;
    print_bytes(rt, m)?;
    let _ = listing::print(rt, frame)?;
    Ok(true)
}

// Prints bytes as a line of hexadecimal digits.
fn print_bytes(rt: &impl Print, bytes: &[u8]) -> io::Result<()> {
    for x in bytes {
        print!(rt; "{x:02x}")?;
    }
    rt.println("")
}

// ---- Steps.

// The second of two steps, or the first where that was refused.
fn after(first: Outcome, second: Outcome) -> Outcome {
    if first.answer.is_err() { first } else { second }
}

// A call with a parameter of each type, and arrays.
fn write_call(out: &mut [u8]) -> Outcome {
    let begun = call::begin_call(out, 0, b"Every", b"client 3");
    let filled = put_parameters(out, begun);
    after(filled, call::finish_call(out, filled.state))
}

fn put_parameters(out: &mut [u8], step: Outcome) -> Outcome {
    let each = put_each(out, step);
    put_arrays(out, each)
}

// A null, a parameter of each type, and a null string.
fn put_each(out: &mut [u8], before: Outcome) -> Outcome {
    let mut step = after(before, call::null_param(out, before.state));
    for c in 0..COLUMNS {
        step = put_param(out, step, c);
    }
    after(
        step,
        call::body_param(out, step.state, format::STRING, None),
    )
}

// A parameter of a column's type, with its value.
fn put_param(out: &mut [u8], step: Outcome, c: usize) -> Outcome {
    let st = step.state;
    match text(c) {
        Some((wire_type, s)) => after(step, call::body_param(out, st, wire_type, Some(s))),
        None => {
            let v = value(c);
            after(
                step,
                call::fixed_param(out, st, v.wire_type, v.upper, v.lower),
            )
        }
    }
}

// An array of bytes, one of strings and one of decimals.
fn put_arrays(out: &mut [u8], step: Outcome) -> Outcome {
    let bytes = after(step, call::bytes_param(out, step.state, &BYTES));
    let strings = put_strings(out, bytes);
    put_decimals(out, strings)
}

fn put_strings(out: &mut [u8], step: Outcome) -> Outcome {
    let opened = after(step, call::open_array(out, step.state, format::STRING));
    let filled = fill_strings(out, opened);
    after(filled, call::close_array(out, filled.state))
}

// A string, a null one and an empty one.
fn fill_strings(out: &mut [u8], step: Outcome) -> Outcome {
    let first = put_string(out, step, Some(&TEXT));
    let second = put_string(out, first, None);
    put_string(out, second, Some(b""))
}

fn put_string(out: &mut [u8], step: Outcome, text: Option<&[u8]>) -> Outcome {
    after(
        step,
        call::body_element(out, step.state, format::STRING, text),
    )
}

fn put_decimals(out: &mut [u8], step: Outcome) -> Outcome {
    let opened = after(step, call::open_array(out, step.state, format::DECIMAL));
    let filled = fill_decimals(out, opened);
    after(filled, call::close_array(out, filled.state))
}

// The largest decimal by its bits, and -1 as the reader shows it.
fn fill_decimals(out: &mut [u8], step: Outcome) -> Outcome {
    let most = value(DECIMAL_COLUMN);
    let first = after(
        step,
        call::fixed_element(out, step.state, format::DECIMAL, most.upper, most.lower),
    );
    after(
        first,
        values::value_element(out, first.state, b"", Cell::Decimal(-1, u64::MAX)),
    )
}

// A response with one table, which has a row of values and one of nulls.
fn write_draft(out: &mut [u8]) -> Outcome {
    let mut types = [0; write::COLUMNS];
    let opened = open_table(out, &mut types);
    let first = put_row(out, &types, opened, false);
    let second = put_row(out, &types, first, true);
    finish_reply(out, &types, second)
}

// A response with that table, which has a row more, and a table with no columns.
fn write_reply(out: &mut [u8], draft: &[u8]) -> Outcome {
    let mut types = [0; write::COLUMNS];
    let opened = open_table(out, &mut types);
    let filled = put_rows(out, &types, opened, draft);
    let empty = put_empty(out, &mut types, filled);
    finish_reply(out, &types, empty)
}

// A row of values, and the draft's rows, copied.
fn put_rows(out: &mut [u8], types: &[u8; write::COLUMNS], step: Outcome, draft: &[u8]) -> Outcome {
    let first = put_row(out, types, step, false);
    let second = copy_row(out, types, first, draft, 0);
    copy_row(out, types, second, draft, 1)
}

// Closes the table, and opens one with no columns.
fn put_empty(out: &mut [u8], types: &mut [u8; write::COLUMNS], step: Outcome) -> Outcome {
    let closed = after(step, rows::close_table(out, step.state, types));
    after(
        closed,
        numbers::open_listed(out, closed.state, types, 0, &NONE, b""),
    )
}

// Closes the open table and finishes the response.
fn finish_reply(out: &mut [u8], types: &[u8; write::COLUMNS], step: Outcome) -> Outcome {
    let closed = after(step, rows::close_table(out, step.state, types));
    after(closed, reply::finish_reply(out, closed.state))
}

// Begins the response, with all its strings, and opens the table.
fn open_table(out: &mut [u8], types: &mut [u8; write::COLUMNS]) -> Outcome {
    let head = Head {
        version: 1,
        flags: format::STATUS_STRING + format::EXCEPTION + format::APP_STRING,
        status: 253,
        app_status: 128,
        round_trip: 7,
    };
    let begun = reply::begin_reply(
        out,
        head,
        b"client 4",
        Some(b"sunk"),
        Some(b"mutiny"),
        b"\xde\xad",
    );
    after(
        begun,
        open_lent(out, begun.state, types, 255, ENTRIES, &NAMES),
    )
}

// Opens a table, and lends its columns for that.
fn open_lent(
    out: &mut [u8],
    st: State,
    types: &mut [u8; write::COLUMNS],
    status: u8,
    cols: [Column; COLUMNS],
    names: &[u8],
) -> Outcome
    ensures { Opened (open_table status (columns_of cols names.now)) st types.old out.old result types.new out.new }
{
    held::open_table(out, st, types, status, &cols, names)
}

// A row of the columns' values, or of nulls where there are any.
fn put_row(out: &mut [u8], types: &[u8; write::COLUMNS], before: Outcome, null: bool) -> Outcome {
    let mut step = after(before, rows::open_row(out, before.state, types));
    for c in 0..COLUMNS {
        step = put_cell(out, types, step, null, c);
    }
    after(step, rows::close_row(out, step.state, types))
}

// A cell of a column's type, with its value or null.
fn put_cell(
    out: &mut [u8],
    types: &[u8; write::COLUMNS],
    step: Outcome,
    null: bool,
    c: usize,
) -> Outcome {
    let st = step.state;
    match text(c) {
        Some((wire_type, s)) => after(
            step,
            rows::body_cell(out, st, types, wire_type, text_or_null(null, s)),
        ),
        None => {
            let v = value_or_null(null, c);
            after(
                step,
                rows::fixed_cell(out, st, types, v.wire_type, v.upper, v.lower),
            )
        }
    }
}

// Writes a row of the cells that the reader shows of one of the draft's.
fn copy_row(
    out: &mut [u8],
    types: &[u8; write::COLUMNS],
    before: Outcome,
    draft: &[u8],
    row: usize,
) -> Outcome {
    let mut step = after(before, rows::open_row(out, before.state, types));
    for c in 0..COLUMNS {
        step = copy_cell(out, types, step, draft, row, c);
    }
    after(step, rows::close_row(out, step.state, types))
}

// A cell that can't be read is left out, and then the row can't be closed.
fn copy_cell(
    out: &mut [u8],
    types: &[u8; write::COLUMNS],
    step: Outcome,
    draft: &[u8],
    row: usize,
    c: usize,
) -> Outcome {
    let answer = query::cell(draft, 0, row, c);
    let Ok(cell) = answer else {
        return step;
    };
    after(
        step,
        values::value_cell(out, step.state, types, draft, cell),
    )
}

// ---- What is written.

// A column's value of no fixed size: its wire type and its bytes; none where the size is fixed.
fn text(c: usize) -> Option<(u8, &'static [u8])> {
    match c {
        STRING_COLUMN => Some((format::STRING, &TEXT)),
        VARBINARY_COLUMN => Some((format::VARBINARY, &BYTES)),
        GEOGRAPHY_COLUMN => Some((format::GEOGRAPHY, &SHAPE)),
        _ => None,
    }
}

// A column's value of a fixed size: -5, -300, -70,000, -5,000,000,000, -0.5, a time, 10^38 - 1 and 12.5 east, 55.75 south.
fn value(c: usize) -> Bits {
    match c {
        0 => fixed(format::TINYINT, 0, 0xfb),
        1 => fixed(format::SMALLINT, 0, 0xfed4),
        2 => fixed(format::INTEGER, 0, 0xfffe_ee90),
        3 => fixed(format::BIGINT, 0, 0xffff_fffe_d5fa_0e00),
        4 => fixed(format::FLOAT, 0, 0xbfe0_0000_0000_0000),
        6 => fixed(format::TIMESTAMP, 0, 1_760_000_000_000_000),
        7 => fixed(
            format::DECIMAL,
            0x4b3b_4ca8_5a86_c47a,
            0x098a_223f_ffff_ffff,
        ),
        _ => fixed(format::POINT, 0x4029_0000_0000_0000, 0xc04b_e000_0000_0000),
    }
}

// The same, or what stands in the row of nulls: a null decimal, a null point, a NaN whose bits are kept, and zeros.
fn value_or_null(null: bool, c: usize) -> Bits {
    let v = value(c);
    if !null {
        return v;
    }
    match c {
        4 => fixed(format::FLOAT, 0, 0xfff0_0000_0000_0001),
        DECIMAL_COLUMN => fixed(format::DECIMAL, 0x8000_0000_0000_0000, 0),
        POINT_COLUMN => fixed(format::POINT, format::DEGREES_360, format::DEGREES_360),
        _ => fixed(v.wire_type, 0, 0),
    }
}

// The same of a text or binary value.
fn text_or_null(null: bool, s: &[u8]) -> Option<&[u8]> {
    (!null).then_some(s)
}

fn fixed(wire_type: u8, upper: u64, lower: u64) -> Bits {
    Bits {
        wire_type,
        upper,
        lower,
    }
}

// ---- What is read back.

// Whether the parameters are those of `write_call`.
fn parameters_are(m: &[u8]) -> bool {
    is_null(query::parameter(m, 0))
        && each_is(m)
        && parameter_text(m, NULL_STRING, None)
        && arrays_are(m)
}

// Whether the parameters of each type are.
fn each_is(m: &[u8]) -> bool {
    (0..COLUMNS).all(|c| parameter_is(m, c))
}

// Parameter 0 is null, so that of a column stands one behind.
fn parameter_is(m: &[u8], c: usize) -> bool
    requires { c < 11 }
{
    match text(c) {
        Some((_, s)) => parameter_text(m, c + 1, Some(s)),
        None => argument_is(query::parameter(m, c + 1), value(c)),
    }
}

fn argument_is(answer: Result<Argument, Refusal>, v: Bits) -> bool {
    let Ok(Argument::One(cell)) = answer else {
        return false;
    };
    cell_is(cell, v)
}

fn is_null(answer: Result<Argument, Refusal>) -> bool {
    matches!(answer, Ok(Argument::Null))
}

// Whether the arrays are those of `put_arrays`.
fn arrays_are(m: &[u8]) -> bool {
    is_array(query::parameter(m, BYTE_ARRAY), format::TINYINT, 4)
        && shows(
            query::element(m, BYTE_ARRAY, 1),
            fixed(format::TINYINT, 0, 255),
        )
        && is_array(query::parameter(m, STRINGS), format::STRING, 3)
        && element_text(m, 0, Some(&TEXT))
        && element_text(m, 1, None)
        && element_text(m, 2, Some(b""))
        && is_array(query::parameter(m, DECIMALS), format::DECIMAL, 2)
        && shows(query::element(m, DECIMALS, 0), value(DECIMAL_COLUMN))
        && shows(
            query::element(m, DECIMALS, 1),
            fixed(format::DECIMAL, u64::MAX, u64::MAX),
        )
}

fn is_array(answer: Result<Argument, Refusal>, wire_type: u8, size: usize) -> bool {
    let Ok(Argument::Array(t, n)) = answer else {
        return false;
    };
    t == wire_type && n == size
}

// Whether the table's cells are those of `write_reply`, and the point in the row of nulls alone is shown as null.
fn cells_are(m: &[u8]) -> bool {
    row_is(m, 0, false)
        && row_is(m, 1, false)
        && row_is(m, 2, true)
        && !shows_null_point(query::cell(m, 0, 0, POINT_COLUMN))
        && shows_null_point(query::cell(m, 0, 2, POINT_COLUMN))
}

fn shows_null_point(answer: Result<show::Cell, Refusal>) -> bool {
    matches!(answer, Ok(Cell::NullPoint))
}

// Whether a row's cells are the columns' values, or nulls.
fn row_is(m: &[u8], row: usize, null: bool) -> bool {
    (0..COLUMNS).all(|c| is_at(m, row, null, c))
}

fn is_at(m: &[u8], row: usize, null: bool, c: usize) -> bool {
    match text(c) {
        Some((_, s)) => cell_text(m, row, c, text_or_null(null, s)),
        None => shows(query::cell(m, 0, row, c), value_or_null(null, c)),
    }
}

// Whether a fixed value is shown, in a cell or an element.
fn shows(answer: Result<show::Cell, Refusal>, v: Bits) -> bool {
    let Ok(cell) = answer else {
        return false;
    };
    cell_is(cell, v)
}

fn cell_is(cell: Cell, v: Bits) -> bool {
    let Raw::Bits(wire_type, upper, lower) = show::raw_of(cell) else {
        return false;
    };
    wire_type == v.wire_type && upper == v.upper && lower == v.lower
}

// Whether the bytes of a text or binary value are handed back, or that it is null: of a cell, a parameter, and an element of the strings.
fn cell_text(m: &[u8], row: usize, c: usize, text: Option<&[u8]>) -> bool {
    part_is(m, query::cell_span(m, 0, row, c), text)
}

fn parameter_text(m: &[u8], p: usize, text: Option<&[u8]>) -> bool {
    part_is(m, query::parameter_span(m, p), text)
}

fn element_text(m: &[u8], e: usize, text: Option<&[u8]>) -> bool {
    part_is(m, query::element_span(m, STRINGS, e), text)
}

fn part_is(m: &[u8], span: Result<Option<(usize, usize)>, Refusal>, text: Option<&[u8]>) -> bool {
    match span {
        Ok(Some((_, _))) => match text {
            Some(s) => query::part_at(m, span) == s,
            None => false,
        },
        Ok(None) => text.is_none(),
        Err(_) => false,
    }
}
