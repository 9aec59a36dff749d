// What holds a reference: a reader over one table of a message, each function thin over one of `query` or `cards`; the bytes of a value, handed back
// beside what is told of them; and the step that is lent a table's columns, thin over one of `columns`.
#![tactic(auto)]

ghost use Rattle.std.specs.Prelude.{◌≡◌, length};
ghost use Rattle.format.specs.Result.{told};
ghost use Rattle.cards.specs.Answers.{ask_open};
ghost use Rattle.cards.specs.Reasons.{ask_fit, told_fit};
ghost use Rattle.query.specs.Answers.{ask_table, ask_column, ask_position, ask_cell, told_part, ask_cell_span, ask_parameter_span, ask_element_span, Handed};
ghost use Rattle.steps.specs.Steps.{open_table};
ghost use Rattle.write.specs.Shown.{Opened};
ghost use Rattle.columns.specs.Entries.{columns_of};
ghost use Rattle.columns.specs.Walks.{add_all, put_all, FitsAll};

use cards::Fit;
use columns::{Column, Head, Survey};
use format::Refusal;
use query::{ColumnLayout, TableLayout};
use write::{COLUMNS, Outcome, State};

// One table, kept open over its message. Making it looks at nothing: each call on it refuses as the call on the message does.
#[derive(Drop)]
pub struct TableReader<'a> {
    pub msg: &'a [u8],
    pub table: usize,
}

// A reader over table `table` of a message.
pub fn reader<'a>(msg: &'a [u8], table: usize) -> TableReader<'a>
    ensures { (result.msg ≡ msg.entry) × (result.table ≡ table) }
{
    TableReader { msg, table }
}

// The table's layout.
pub fn layout<'a>(r: TableReader<'a>) -> Result<TableLayout, Refusal>
    ensures { told result ≡ ask_table r.entry.msg.now r.entry.table }
{
    query::table(r.msg, r.table)
}

// The layout of a column.
pub fn column<'a>(r: TableReader<'a>, c: usize) -> Result<ColumnLayout, Refusal>
    ensures { told result ≡ ask_column r.entry.msg.now r.entry.table c }
{
    query::column(r.msg, r.table, c)
}

// The position of the first column of a name.
pub fn find<'a, 'b>(r: TableReader<'a>, name: &'b [u8]) -> Result<usize, Refusal>
    ensures { told result ≡ ask_position r.entry.msg.now r.entry.table name.now }
{
    query::find_column(r.msg, r.table, name)
}

// The position of the column that a card was made from.
pub fn opened<'a, 'b>(r: TableReader<'a>, card: &'b [u8]) -> Result<usize, Refusal>
    ensures { told result ≡ ask_open r.entry.msg.now r.entry.table card.now }
{
    cards::open_card(r.msg, r.table, card)
}

// Whether a card fits, and if not why, and where a column of its type and name stands.
pub fn fit<'a, 'b>(r: TableReader<'a>, card: &'b [u8]) -> Result<Fit, Refusal>
    ensures { told_fit result ≡ ask_fit r.entry.msg.now r.entry.table card.now }
{
    cards::card_fit(r.msg, r.table, card)
}

// A cell, shown by its column's type.
pub fn cell<'a>(r: TableReader<'a>, row: usize, c: usize) -> Result<show::Cell, Refusal>
    ensures { told result ≡ ask_cell r.entry.msg.now r.entry.table row c }
{
    query::cell(r.msg, r.table, row, c)
}

// Where the bytes of a text or binary cell stand, or null.
pub fn span<'a>(r: TableReader<'a>, row: usize, c: usize) -> Result<Option<(usize, usize)>, Refusal>
    ensures { told_part result ≡ ask_cell_span r.entry.msg.now r.entry.table row c }
{
    query::cell_span(r.msg, r.table, row, c)
}

// The bytes of a text or binary value, handed back: what it is answered with, that is where they stand, that it is null, or the refusal; and that part
// of the message itself, which is empty, at the message's start, for null and a refusal.
#[derive(Drop)]
pub struct Bytes<'a> {
    pub answer: Result<Option<(usize, usize)>, Refusal>,
    pub part: &'a [u8],
}

// The bytes of a text or binary cell.
pub fn cell_bytes<'a>(r: TableReader<'a>, row: usize, c: usize) -> Bytes<'a>
    ensures { Handed r.entry.msg (ask_cell_span r.entry.msg.now r.entry.table row c) result.answer result.part }
{
    let answer = query::cell_span(r.msg, r.table, row, c);
    let part = query::part_at(r.msg, answer);
    Bytes { answer, part }
}

// The bytes of a text or binary parameter of an invocation.
pub fn parameter_bytes<'a>(m: &'a [u8], p: usize) -> Bytes<'a>
    ensures { Handed m.entry (ask_parameter_span m.now p) result.answer result.part }
{
    let answer = query::parameter_span(m, p);
    let part = query::part_at(m, answer);
    Bytes { answer, part }
}

// The bytes of a text or binary element of the array that a parameter of an invocation is.
pub fn element_bytes<'a>(m: &'a [u8], p: usize, e: usize) -> Bytes<'a>
    ensures { Handed m.entry (ask_element_span m.now p e) result.answer result.part }
{
    let answer = query::element_span(m, p, e);
    let part = query::part_at(m, answer);
    Bytes { answer, part }
}

// What is found of the columns of a lent list, behind those of a survey.
fn survey(s: Survey, cols: &[Column], names: &[u8]) -> Survey
    ensures { result ≡ add_all names.now s cols.now }
{
    let mut a = s;
    for column in cols {
        a = columns::surveyed(a, *column, names);
    }
    a
}

// Writes the columns of a lent list behind a head.
fn put_columns(
    out: &mut [u8],
    types: &mut [u8; COLUMNS],
    head: Head,
    cols: &[Column],
    names: &[u8],
) -> Outcome
    requires { FitsAll names.now (length out.old) head.walk cols.now }
    ensures { (result ≡ head.step) × (out.exit.now ≡ (put_all names.now (record { out = out.entry.now; types = types.old; walk = head.walk }) cols.now).out) × (types.new ≡ (put_all names.now (record { out = out.entry.now; types = types.old; walk = head.walk }) cols.now).types) }
{
    let mut w = columns::walk_in(head);
    for column in cols {
        w = columns::put_column(out, types, w, *column, names);
    }
    columns::step_in(head)
}

// Opens a table, with its columns as a lent list of entries that point into a lent name buffer.
pub fn open_table(
    out: &mut [u8],
    st: State,
    types: &mut [u8; COLUMNS],
    status: u8,
    cols: &[Column],
    names: &[u8],
) -> Outcome
    ensures { Opened (open_table status (columns_of cols.now names.now)) st types.old out.old result types.new out.new }
{
    let z = columns::no_columns(st);
    let a = survey(z, cols, names);
    let h = columns::open_head(out, st, status, a);
    put_columns(out, types, h, cols, names)
}
