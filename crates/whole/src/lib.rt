// A whole row in one step: it opens the row, writes its cells and closes it. The cells are looked at before any is written, so that a refusal
// changes nothing; the state and the types are looked at once. Numbers say the cells, two to each: the upper and lower 64 bits, and of a text or
// binary cell where its bytes start among those that are lent, and how many they are.
#![tactic(auto)]

ghost use Rattle.std.specs.Prelude.{◌≡◌, ℕ, ◌+◌, ◌*◌, ◌/◌, ◌^◌, ◌<◌, ◌≤◌, true, length};
ghost use Rattle.format.specs.Result.{ok, pick};
ghost use Rattle.format.specs.Number.{num_bytes};
ghost use Rattle.format.specs.Value.{is_counted, width_of, fixed_fine};
ghost use Rattle.format.specs.Message.{most_columns};
ghost use Rattle.put.specs.Put.{put};
ghost use Rattle.steps.specs.Arguments.{is_number_of};
ghost use Rattle.steps.specs.Plans.{answer_of};
ghost use Rattle.steps.specs.Steps.{open_row, close_row, plan, message_end};
ghost use Rattle.write.specs.Shown.{seen, shown_answer};
ghost use Rattle.whole.specs.Rows.{value_in, body_in, cell_step, WroteRow};
ghost use Rattle.whole.specs.Asked.{asked, type_now, row_answer, answers_from, opens, Opened, EndOf, PastAll, Sure};
ghost use Rattle.whole.specs.Laid.{upper_of, lower_of, cell_bytes, body_bytes, Fits, Stands, laid, FitAll};

use format::{Fault, Refusal};
use steps::Stage;
use write::{COLUMNS, Outcome, State};

// The size that says that a text or binary cell is null.
pub const NULL_SIZE: u64 = 0xffff_ffff_ffff_ffff;

// Writes a row.
pub fn whole_row(
    out: &mut [u8],
    st: State,
    types: &[u8; COLUMNS],
    cells: &[u64],
    bytes: &[u8],
) -> Outcome
    ensures { WroteRow bytes.now cells.now st types.now out.old result out.new }
{
    // as a slice, so that its length is known from here on
    let lent: &[u8] = types;
    let a = ask_row(st, types, cells, bytes, out.len());
    let Ok(n) = a else {
        return Outcome {
            answer: a,
            state: st,
        };
    };
    let first = put::number_at(out, st.position, 0, 4);
    put_cells(out, first, types, cells, bytes);
    put::number_at(out, st.position, (n - first) as u64, 4);
    let next = write::in_table(st, Stage::Table, n, 0, 0, st.rows + 1);
    Outcome {
        answer: a,
        state: next,
    }
}

// What a row is answered, in a buffer of so many bytes.
fn ask_row(
    st: State,
    types: &[u8; COLUMNS],
    cells: &[u64],
    bytes: &[u8],
    size: usize,
) -> Result<usize, Refusal>
    ensures { result ≡ shown_answer (row_answer bytes.now cells.now (seen st types.now) size) }
{
    let end = sure_end(st, types, cells, bytes, size);
    if end != 0 {
        return Ok(end);
    }
    ask_each(st, types, cells, bytes, size)
}

// Where a row ends that is surely taken; 0 where that isn't sure. A cell that is taken has a column's type, so that the types aren't looked at before.
fn sure_end(st: State, types: &[u8; COLUMNS], cells: &[u64], bytes: &[u8], size: usize) -> usize
    ensures { 0 < result → row_answer bytes.now cells.now (seen st types.now) size ≡ ok result }
{
    if !opens(st, size) {
        return 0;
    }
    if st.columns != cells.len() / 2 {
        return 0;
    }
    let first = st.position + 4;
    past_cells(first, row_end(first, size), types, cells, bytes)
}

// Whether a row can be opened in a state, if the types of its columns are columns'.
fn opens(st: State, size: usize) -> bool
    ensures { result ≡ opens st size }
{
    let more = write::one_more(st.rows, write::MOST_ROWS);
    let counts = write::both(
        st.count <= write::MOST_ITEMS,
        write::both(more, st.columns <= COLUMNS),
    );
    let table = write::both(
        4 <= st.count_at,
        write::both(
            write::ends_by(st.count_at, 2, st.table_at),
            write::ends_by(st.table_at, 4, st.rows_at),
        ),
    );
    let row = write::both(
        write::ends_by(st.rows_at, 4, st.position),
        write::both(
            write::ends_by(st.position, 4, write::MESSAGE_END),
            write::ends_by(st.position, 4, size),
        ),
    );
    write::both(
        write::is_at(st, 4),
        write::both(counts, write::both(table, row)),
    )
}

// Where a row may end whose first cell goes to a place: by its own limit, the message's and the buffer's.
fn row_end(first: usize, size: usize) -> usize
    requires { (first ≤ message_end) × (first ≤ size) }
    ensures { EndOf first size result }
{
    least(
        first + format::MOST_ROW as usize,
        least(write::MESSAGE_END, size),
    )
}

fn least(a: usize, b: usize) -> usize
    ensures { (result ≤ a) × (result ≤ b) × ((c : ℕ) → c ≤ a → c ≤ b → c ≤ result) }
{
    if a <= b { a } else { b }
}

// Past all cells of a row, if each is surely taken; else 0.
fn past_cells(from: usize, end: usize, types: &[u8; COLUMNS], cells: &[u64], bytes: &[u8]) -> usize
    requires { (0 < from) × (from ≤ end) × (length cells.now / 2 ≤ most_columns) }
    ensures { 0 < result → PastAll bytes.now cells.now types.now from end result }
{
    // as a slice, so that its length is known from here on
    let lent: &[u8] = types;
    let mut at = from;
    for k in 0..cells.len() / 2 {
        let n = sure_size(at, lent[k], cells[2 * k], cells[2 * k + 1], bytes);
        if n == 0 {
            return 0;
        }
        if end - at < n {
            return 0;
        }
        at += n;
    }
    at
}

// How many bytes a cell has that is surely without a fault; 0 where that isn't sure.
fn sure_size(at: usize, t: u8, a: u64, b: u64, bytes: &[u8]) -> usize
    ensures { 0 < result → Sure bytes.now at t a b result }
{
    match t {
        format::STRING | format::VARBINARY | format::GEOGRAPHY => sure_body(
            at, t, a as usize, b, bytes,
        ),
        _ => sure_fixed(t, a, b),
    }
}

// The same of a value of a fixed size.
fn sure_fixed(t: u8, upper: u64, lower: u64) -> usize
    ensures { 0 < result → (result ≡ width_of t) × (is_number_of t (upper * 2 ^ 64 + lower) ≡ true) × (fixed_fine t (upper * 2 ^ 64 + lower) ≡ true) }
{
    match t {
        format::TINYINT => if_so(write::both(upper == 0, lower <= 0xff), 1),
        format::SMALLINT => if_so(write::both(upper == 0, lower <= 0xffff), 2),
        format::INTEGER => if_so(write::both(upper == 0, lower <= 0xffff_ffff), 4),
        format::BIGINT | format::FLOAT | format::TIMESTAMP => if_so(upper == 0, 8),
        format::DECIMAL => if_so(write::decimal_fine(upper, lower), 16),
        format::POINT => if_so(scan::point_fine(upper, lower), 16),
        _ => 0,
    }
}

fn if_so(t: bool, n: usize) -> usize
    ensures { result ≡ pick t n 0 }
{
    if t { n } else { 0 }
}

// The same of a text or binary value.
fn sure_body(at: usize, t: u8, start: usize, size: u64, bytes: &[u8]) -> usize
    requires { is_counted t ≡ true }
    ensures { 0 < result → Sure bytes.now at t start size result }
{
    if size == NULL_SIZE {
        return 4;
    }
    let n = size as usize;
    if !scan::fits(bytes, start, n) {
        return 0;
    }
    let Ok(()) = write::body_fault(at, t, Some(&bytes[start..start + n])) else {
        return 0;
    };
    4 + n
}

// What a row is answered, each of its steps by itself.
fn ask_each(
    st: State,
    types: &[u8; COLUMNS],
    cells: &[u64],
    bytes: &[u8],
    size: usize,
) -> Result<usize, Refusal>
    ensures { result ≡ shown_answer (row_answer bytes.now cells.now (seen st types.now) size) }
{
    let first = ask_open(st, types, size)?;
    ask_cells(st, first, types, cells, bytes, size)
}

// What opening and closing are answered. These are the tests of `rows`, made here once more: a function with two callers isn't put into the step that opens or
// closes a row, which then takes up to twice as long.
fn ask_open(st: State, types: &[u8; COLUMNS], size: usize) -> Result<usize, Refusal>
    ensures { result ≡ shown_answer (answer_of (plan open_row (seen st types.now) size) size) }
{
    let permitted = write::at_table(st, types, size);
    let more = write::one_more(st.rows, write::MOST_ROWS);
    write::judge(permitted, Ok(()), more, st.position, 4, size)
}

fn ask_close(st: State, types: &[u8; COLUMNS], size: usize) -> Result<usize, Refusal>
    ensures { result ≡ shown_answer (answer_of (plan close_row (seen st types.now) size) size) }
{
    // as a slice, so that its length is known from here on
    let lent: &[u8] = types;
    let in_row = write::at_row(st, types, size);
    let full = st.inner_count == write::columns_seen(st.columns);
    let permitted = write::both(in_row, full);
    let keeps = write::row_keeps(st.inner_at, st.position, 0);
    write::judge(permitted, Ok(()), keeps, st.position, 0, size)
}

// What the cells of a row that was opened are answered, and the closing behind them.
fn ask_cells(
    st: State,
    first: usize,
    types: &[u8; COLUMNS],
    cells: &[u64],
    bytes: &[u8],
    size: usize,
) -> Result<usize, Refusal>
    requires { Opened (seen st types.now) size first }
    ensures { result ≡ shown_answer (answers_from bytes.now cells.now (seen st types.now) size 0 first) }
{
    let mut row = write::in_table(st, Stage::Row, first, st.position, 0, st.rows + 1);
    for cell in cells.chunks_exact(2) {
        let n = ask_cell(row, types, cell[0], cell[1], bytes, size)?;
        row = write::in_table(
            row,
            Stage::Row,
            n,
            row.inner_at,
            row.inner_count + 1,
            row.rows,
        );
    }
    ask_close(row, types, size)
}

// What a cell is answered, by its two numbers.
fn ask_cell(
    st: State,
    types: &[u8; COLUMNS],
    a: u64,
    b: u64,
    bytes: &[u8],
    size: usize,
) -> Result<usize, Refusal>
    ensures { result ≡ shown_answer (asked (cell_step (type_now (seen st types.now)) (value_in bytes.now (type_now (seen st types.now)) a b)) (seen st types.now) size) }
{
    let t = rows::next_type(st.columns, types, st.inner_count);
    if write::is_counted(t) {
        return ask_body(st, types, t, a as usize, b, bytes, size);
    }
    let fault = write::fixed_fault(st.position, t, a, b);
    rows::ask_cell(st, types, t, fault, scan::width_of(t), size)
}

fn ask_body(
    st: State,
    types: &[u8; COLUMNS],
    t: u8,
    start: usize,
    size: u64,
    bytes: &[u8],
    room: usize,
) -> Result<usize, Refusal>
    ensures { result ≡ shown_answer (asked (cell_step t (body_in bytes.now start size)) (seen st types.now) room) }
{
    if size == NULL_SIZE {
        let null = write::body_fault(st.position, t, None);
        return rows::ask_cell(st, types, t, null, 4, room);
    }
    let n = size as usize;
    if !scan::fits(bytes, start, n) {
        return Err(Refusal {
            fault: Fault::PastEnd,
            place: 0,
        });
    }
    let fault = write::body_fault(st.position, t, Some(&bytes[start..start + n]));
    rows::ask_cell(st, types, t, fault, 4 + n, room)
}

// Writes the cells of a row from a place on.
fn put_cells(out: &mut [u8], from: usize, types: &[u8; COLUMNS], cells: &[u64], bytes: &[u8])
    requires { (length cells.now / 2 ≤ most_columns) × FitAll bytes.now types.now cells.now 0 (length cells.now / 2) from (length out.old) }
    ensures { out.new ≡ laid bytes.now types.now cells.now 0 (length cells.now / 2) from out.old }
{
    // as a slice, so that its length is known from here on
    let lent: &[u8] = types;
    let mut at = from;
    for k in 0..cells.len() / 2 {
        at = put_cell(out, at, lent[k], cells[2 * k], cells[2 * k + 1], bytes);
    }
}

// Writes a cell at a place, and says where it ends.
fn put_cell(out: &mut [u8], at: usize, t: u8, a: u64, b: u64, bytes: &[u8]) -> usize
    requires { Fits bytes.now t a b at (length out.old) }
    ensures { (result ≡ at + length (cell_bytes bytes.now t a b)) × (out.new ≡ put out.old at (cell_bytes bytes.now t a b)) }
{
    match t {
        format::STRING | format::VARBINARY | format::GEOGRAPHY => put_body(
            out, at, a as usize, b, bytes,
        ),
        _ => put_fixed(out, at, t, a, b),
    }
}

// The same of a value of a fixed size. Its two halves are written apart: the compiler makes one store of 8 bytes, and none of 16.
fn put_fixed(out: &mut [u8], at: usize, t: u8, upper: u64, lower: u64) -> usize
    requires { at + width_of t ≤ length out.old }
    ensures { (result ≡ at + width_of t) × (out.new ≡ put out.old at (num_bytes (width_of t) (upper * 2 ^ 64 + lower))) }
{
    let middle = put_upper(out, at, t, upper);
    put_lower(out, middle, t, lower)
}

// The upper half of a value that has one.
fn put_upper(out: &mut [u8], at: usize, t: u8, upper: u64) -> usize
    requires { at + upper_of t ≤ length out.old }
    ensures { (result ≡ at + upper_of t) × (out.new ≡ put out.old at (num_bytes (upper_of t) upper)) }
{
    match t {
        format::DECIMAL | format::POINT => put::number_at(out, at, upper, 8),
        _ => at,
    }
}

// The lower half.
fn put_lower(out: &mut [u8], at: usize, t: u8, lower: u64) -> usize
    requires { at + lower_of t ≤ length out.old }
    ensures { (result ≡ at + lower_of t) × (out.new ≡ put out.old at (num_bytes (lower_of t) lower)) }
{
    match t {
        format::TINYINT => put::number_at(out, at, lower, 1),
        format::SMALLINT => put::number_at(out, at, lower, 2),
        format::INTEGER => put::number_at(out, at, lower, 4),
        format::BIGINT | format::FLOAT | format::TIMESTAMP | format::DECIMAL | format::POINT =>
            put::number_at(out, at, lower, 8),
        _ => at,
    }
}

fn put_body(out: &mut [u8], at: usize, start: usize, size: u64, bytes: &[u8]) -> usize
    requires { Stands bytes.now start size × (at + length (body_bytes bytes.now start size) ≤ length out.old) }
    ensures { (result ≡ at + length (body_bytes bytes.now start size)) × (out.new ≡ put out.old at (body_bytes bytes.now start size)) }
{
    if size == NULL_SIZE {
        return put::text_at(out, at, None);
    }
    let end = start + size as usize;
    put::text_at(out, at, Some(&bytes[start..end]))
}
