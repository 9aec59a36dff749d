// The step that opens a table. Its columns are entries, each with a type and a name's place in a name buffer. They are looked at one by one,
// then what stands around them is written, and then they are, one by one again: so a table costs what its columns cost, wherever they are lent.
#![tactic(auto)]

ghost use Rattle.std.specs.Prelude.{◌≡◌, ◌+◌, ◌<◌, ◌≤◌, length, leb};
ghost use Rattle.format.specs.Value.{ascii};
ghost use Rattle.format.specs.Message.{most_columns, most_items};
ghost use Rattle.put.specs.Put.{put};
ghost use Rattle.steps.specs.Plans.{placed};
ghost use Rattle.steps.specs.Arguments.{name_fault};
ghost use Rattle.write.specs.Shown.{shown_answer};
ghost use Rattle.write.specs.Shared.{verdict_of};
ghost use Rattle.columns.specs.Entries.{name_of, name_bytes};
ghost use Rattle.columns.specs.Walks.{none_at, next_fault, added, survey_fault, head_answer, head_bytes, opened_at, head_of, head_out, Fits, moved, column_out, column_types};

mod survey;

use format::{Fault, Refusal};
use steps::Stage;
pub use survey::Survey;
use write::{COLUMNS, Outcome, State};

// A column: its type, and where its name stands in a name buffer.
#[derive(Clone, Copy)]
pub struct Column {
    pub wire_type: u8,
    pub start: usize,
    pub size: usize,
}

// Where the next column is written, of so many that are left: the place of its type in the memory for types, and in the output those of its
// type and of its name.
#[derive(Clone, Copy)]
pub struct Walk {
    pub left: usize,
    pub i: usize,
    pub kind_at: usize,
    pub name_at: usize,
}

// What was written around the columns: the step that was made, and where they go. Of a step that was refused none are left.
#[derive(Clone, Copy)]
pub struct Head {
    pub step: Outcome,
    pub walk: Walk,
}

// No column yet, for a table that a state's next step opens.
pub fn no_columns(st: State) -> Survey
    ensures { result ≡ none_at st.position }
{
    Survey {
        at: st.position,
        n: 0,
        kinds: true,
        fault: Ok(()),
        size: 0,
    }
}

// One column more. Behind the first fault of a name none is looked for.
pub fn surveyed(s: Survey, c: Column, names: &[u8]) -> Survey
    ensures { result ≡ added names.now s c }
{
    let before = s.fault;
    if COLUMNS <= s.n {
        return Survey {
            at: s.at,
            n: COLUMNS + 1,
            kinds: s.kinds,
            fault: before,
            size: s.size,
        };
    }
    let kinds = write::both(scan::is_column(c.wire_type), s.kinds);
    let fault = next_fault(s.at, before, c, names);
    let Ok(()) = fault else {
        return Survey {
            at: s.at,
            n: s.n + 1,
            kinds: kinds,
            fault: fault,
            size: s.size,
        };
    };
    Survey {
        at: s.at,
        n: s.n + 1,
        kinds: kinds,
        fault: fault,
        size: s.size + (4 + c.size),
    }
}

// The first fault of the names so far, and of one more.
fn next_fault(
    at: usize,
    before: Result<(), Refusal>,
    c: Column,
    names: &[u8],
) -> Result<(), Refusal>
    ensures { result ≡ next_fault at names.now before c }
{
    before?;
    name_fault(at, c, names)
}

// Opens a table with the columns that were looked at: writes what stands around them, where the step is taken. Its length and its row count
// hold zeros until it is closed.
pub fn open_head(out: &mut [u8], st: State, status: u8, s: Survey) -> Head
    ensures { (result ≡ head_of st s (head_answer st s (length out.old))) × (out.new ≡ head_out st status s (head_answer st s (length out.old)) out.old) }
{
    let a = ask_open_table(st, s, out.len());
    let Ok(n) = a else {
        let step = Outcome {
            answer: a,
            state: st,
        };
        let walk = Walk {
            left: 0,
            i: 0,
            kind_at: 0,
            name_at: 0,
        };
        return Head { step, walk };
    };
    let kinds = head_at(out, st.position, status, s);
    put::number_at(out, n - 4, 0, 4);
    let step = Outcome {
        answer: a,
        state: opened(st, n, s.n),
    };
    let walk = Walk {
        left: s.n,
        i: 0,
        kind_at: kinds,
        name_at: kinds + s.n,
    };
    Head { step, walk }
}

// Writes a column, where any is left, and says where the next goes.
pub fn put_column(
    out: &mut [u8],
    types: &mut [u8; COLUMNS],
    w: Walk,
    c: Column,
    names: &[u8],
) -> Walk
    requires { Fits names.now (length out.old) w c }
    ensures { (result ≡ moved names.now w c) × (out.new ≡ column_out names.now w c out.old) × (types.new ≡ column_types w c types.old) }
{
    if w.left == 0 {
        return w;
    }
    let i = w.i;
    types[i] = c.wire_type;
    let kind = put::number_at(out, w.kind_at, c.wire_type as u64, 1);
    let name = name_at(out, w.name_at, c, names);
    Walk {
        left: w.left - 1,
        i: i + 1,
        kind_at: kind,
        name_at: name,
    }
}

// The parts of a head.
pub fn step_in(h: Head) -> Outcome
    ensures { result ≡ h.step }
{
    h.step
}

pub fn walk_in(h: Head) -> Walk
    ensures { result ≡ h.walk }
{
    h.walk
}

// What the step is answered, in a buffer of so many bytes.
fn ask_open_table(st: State, s: Survey, size: usize) -> Result<usize, Refusal>
    ensures { result ≡ shown_answer (head_answer st s size) }
{
    let permitted = write::at_reply(st, size);
    let fault = survey_fault(s);
    let more = write::one_more(st.count, write::MOST_ITEMS);
    // The table's length, the metadata's and the row count have 4 bytes each, status and column count 3.
    write::judge(
        permitted,
        fault,
        more,
        st.position,
        15 + (s.n + s.size),
        size,
    )
}

// What is wrong with the columns: their number, their types, their names.
fn survey_fault(s: Survey) -> Result<(), Refusal>
    ensures { verdict_of result ≡ survey_fault s }
{
    let few = write::test(s.n <= COLUMNS, Fault::Limit, s.at);
    let kinds = write::test(s.kinds, Fault::WireType, s.at);
    let names = s.fault;
    write::also(few, write::also(kinds, names))
}

// What is wrong with a name: that it ends past its buffer, its length, a byte above 127.
fn name_fault(at: usize, c: Column, names: &[u8]) -> Result<(), Refusal>
    ensures { verdict_of result ≡ name_fault at (name_of names.now c) }
{
    let start = c.start;
    let size = c.size;
    if !stands(start, size, names.len()) {
        return Err(Refusal {
            fault: Fault::PastEnd,
            place: 0,
        });
    }
    let short = write::test(size as u64 <= format::MOST_BYTES, Fault::Limit, at);
    write::also(short, ascii_fault(at, &names[start..start + size]))
}

// Whether so many bytes from a place on are in a buffer of so many.
fn stands(start: usize, size: usize, length: usize) -> bool
    ensures { result ≡ leb (start + size) length }
{
    if length < start {
        return false;
    }
    size <= length - start
}

// A byte above 127 is none of a name.
fn ascii_fault(at: usize, name: &[u8]) -> Result<(), Refusal>
    ensures { verdict_of result ≡ placed at (ascii name.now) }
{
    write::test(text::high_byte(name).is_none(), Fault::Name, at)
}

// Writes what stands before the columns' types at a place: the table's length, which holds zeros, the metadata's, the status and how many
// columns there are. It says where these end.
fn head_at(out: &mut [u8], at: usize, status: u8, s: Survey) -> usize
    requires { (s.n ≤ most_columns) × (at + 11 ≤ length out.old) }
    ensures { (result ≡ at + 11) × (out.new ≡ put out.old at (head_bytes status s)) }
{
    let second = put::number_at(out, at, 0, 4);
    let third = put::number_at(out, second, (3 + (s.n + s.size)) as u64, 4);
    let fourth = put::number_at(out, third, status as u64, 1);
    put::number_at(out, fourth, s.n as u64, 2)
}

// Writes a name at a place, with its length, and says where it ends.
fn name_at(out: &mut [u8], at: usize, c: Column, names: &[u8]) -> usize
    requires { (c.start + c.size ≤ length names.now) × (at + length (name_bytes names.now c) ≤ length out.old) }
    ensures { (result ≡ at + length (name_bytes names.now c)) × (out.new ≡ put out.old at (name_bytes names.now c)) }
{
    let start = c.start;
    let end = start + c.size;
    put::text_at(out, at, Some(&names[start..end]))
}

// The state after a table with so many columns was opened.
fn opened(st: State, position: usize, n: usize) -> State
    requires { (4 ≤ position) × (st.count < most_items) }
    ensures { result ≡ opened_at st position n }
{
    State {
        stage: Stage::Table,
        position: position,
        count_at: st.count_at,
        count: st.count + 1,
        inner_at: 0,
        inner_type: 0,
        inner_count: 0,
        table_at: st.position,
        rows_at: position - 4,
        rows: 0,
        columns: n,
    }
}
