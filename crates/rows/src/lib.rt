// The steps that write the rows of a table, and the one that closes it.
#![tactic(auto)]

ghost use Rattle.std.specs.Prelude.{◌≡◌, ◌+◌, ◌*◌, ◌^◌, get_or};
ghost use Rattle.format.specs.Value.{fixed, body};
ghost use Rattle.put.specs.Put.{given};
ghost use Rattle.steps.specs.Plans.{answer_of};
ghost use Rattle.steps.specs.Steps.{plan, open_row, cell, close_row, close_table};
ghost use Rattle.write.specs.Shown.{seen, types_in, shown_answer, Stepped};
ghost use Rattle.write.specs.Shared.{verdict_of};
ghost use Rattle.rows.specs.Asked.{cell_answer};

use format::{Fault, Refusal};
use steps::Stage;
use write::{COLUMNS, Outcome, State};

// Opens a row; its length holds zeros until it is closed.
pub fn open_row(out: &mut [u8], st: State, types: &[u8; COLUMNS]) -> Outcome
    ensures { Stepped open_row st types.now out.old result out.new }
{
    // as a slice, so that its length is known from here on
    let lent: &[u8] = types;
    let answer = ask_open_row(st, types, out.len());
    let Ok(n) = answer else {
        return Outcome { answer, state: st };
    };
    put::number_at(out, st.position, 0, 4);
    let state = write::in_table(st, Stage::Row, n, st.position, 0, st.rows + 1);
    Outcome { answer, state }
}

// Writes a cell of a fixed size: its value by its upper and lower 64 bits.
pub fn fixed_cell(
    out: &mut [u8],
    st: State,
    types: &[u8; COLUMNS],
    t: u8,
    upper: u64,
    lower: u64,
) -> Outcome
    ensures { Stepped (cell t (fixed (upper * 2 ^ 64 + lower))) st types.now out.old result out.new }
{
    // as a slice, so that its length is known from here on
    let lent: &[u8] = types;
    let fault = write::fixed_fault(st.position, t, upper, lower);
    let answer = ask_cell(st, types, t, fault, scan::width_of(t), out.len());
    let Ok(n) = answer else {
        return Outcome { answer, state: st };
    };
    put::fixed_at(out, st.position, t, upper, lower);
    let state = write::in_table(st, Stage::Row, n, st.inner_at, st.inner_count + 1, st.rows);
    Outcome { answer, state }
}

// Writes a text or binary cell: its bytes, or null.
pub fn body_cell(
    out: &mut [u8],
    st: State,
    types: &[u8; COLUMNS],
    t: u8,
    text: Option<&[u8]>,
) -> Outcome
    ensures { Stepped (cell t (body (given text.entry))) st types.now out.old result out.new }
{
    // as a slice, so that its length is known from here on
    let lent: &[u8] = types;
    let fault = write::body_fault(st.position, t, text);
    let answer = ask_cell(st, types, t, fault, put::text_size(text), out.len());
    let Ok(n) = answer else {
        return Outcome { answer, state: st };
    };
    put::text_at(out, st.position, text);
    let state = write::in_table(st, Stage::Row, n, st.inner_at, st.inner_count + 1, st.rows);
    Outcome { answer, state }
}

// Closes the open row, which has a cell for each column, and fills its length.
pub fn close_row(out: &mut [u8], st: State, types: &[u8; COLUMNS]) -> Outcome
    ensures { Stepped close_row st types.now out.old result out.new }
{
    // as a slice, so that its length is known from here on
    let lent: &[u8] = types;
    let answer = ask_close_row(st, types, out.len());
    let Ok(n) = answer else {
        return Outcome { answer, state: st };
    };
    put::number_at(
        out,
        st.inner_at,
        (st.position - (st.inner_at + 4)) as u64,
        4,
    );
    let state = write::in_table(st, Stage::Table, n, 0, 0, st.rows);
    Outcome { answer, state }
}

// Closes the open table, and fills its length and its row count.
pub fn close_table(out: &mut [u8], st: State, types: &[u8; COLUMNS]) -> Outcome
    ensures { Stepped close_table st types.now out.old result out.new }
{
    let answer = ask_close_table(st, types, out.len());
    let Ok(n) = answer else {
        return Outcome { answer, state: st };
    };
    put::number_at(
        out,
        st.table_at,
        (st.position - (st.table_at + 4)) as u64,
        4,
    );
    put::number_at(out, st.rows_at, st.rows as u64, 4);
    let state = write::between(st, Stage::Reply, n, st.count);
    Outcome { answer, state }
}

// What each step is answered, in a buffer of so many bytes.
fn ask_open_row(st: State, types: &[u8; COLUMNS], size: usize) -> Result<usize, Refusal>
    ensures { result ≡ shown_answer (answer_of (plan open_row (seen st types.now) size) size) }
{
    let permitted = write::at_table(st, types, size);
    let more = write::one_more(st.rows, write::MOST_ROWS);
    write::judge(permitted, Ok(()), more, st.position, 4, size)
}

fn ask_close_row(st: State, types: &[u8; COLUMNS], size: usize) -> Result<usize, Refusal>
    ensures { result ≡ shown_answer (answer_of (plan close_row (seen st types.now) size) size) }
{
    // as a slice, so that its length is known from here on
    let lent: &[u8] = types;
    let in_row = write::at_row(st, types, size);
    let full = st.inner_count == write::columns_seen(st.columns);
    let permitted = write::both(in_row, full);
    let keeps = write::row_keeps(st.inner_at, st.position, 0);
    write::judge(permitted, Ok(()), keeps, st.position, 0, size)
}

fn ask_close_table(st: State, types: &[u8; COLUMNS], size: usize) -> Result<usize, Refusal>
    ensures { result ≡ shown_answer (answer_of (plan close_table (seen st types.now) size) size) }
{
    let permitted = write::at_table(st, types, size);
    write::judge(permitted, Ok(()), true, st.position, 0, size)
}

// What a cell is answered, by what is wrong with its value and by how many bytes it has.
pub fn ask_cell(
    st: State,
    types: &[u8; COLUMNS],
    t: u8,
    fault: Result<(), Refusal>,
    bytes: usize,
    size: usize,
) -> Result<usize, Refusal>
    ensures { result ≡ shown_answer (cell_answer (seen st types.now) t (verdict_of fault) bytes size) }
{
    // as a slice, so that its length is known from here on
    let lent: &[u8] = types;
    let in_row = write::at_row(st, types, size);
    let wanting = st.inner_count < write::columns_seen(st.columns);
    let permitted = write::both(in_row, wanting);
    let kind = write::test(
        t == next_type(st.columns, types, st.inner_count),
        Fault::WireType,
        st.position,
    );
    let keeps = write::row_keeps(st.inner_at, st.position, bytes);
    write::judge(
        permitted,
        write::also(kind, fault),
        keeps,
        st.position,
        bytes,
        size,
    )
}

// The type of the column that the next cell is in, of so many columns; 0 where there is none.
pub fn next_type(columns: usize, types: &[u8; COLUMNS], cells: usize) -> u8
    ensures { result ≡ get_or (types_in columns types.now) cells 0 }
{
    if COLUMNS < columns {
        return 0;
    }
    if columns <= cells {
        return 0;
    }
    types[cells]
}
