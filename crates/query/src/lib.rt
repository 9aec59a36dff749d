// Questions about a message: how many tables it has, what a table, a column, a cell, a parameter or an array's element is, and where it stands.
// Each call accepts the message once and then jumps by lengths: nothing that it passes is read again. A refusal is the message's own, then the
// question's: past the end (11), another type (6), no such column (9).
#![tactic(auto)]

ghost use Rattle.std.specs.Prelude.{◌≡◌, false, List, map, ℕ, ◌+◌, ◌<◌, ◌≤◌, min, length, replicate, take, drop, eqb};
ghost use Rattle.std.proofs.Math.Option.{Option};
ghost use Rattle.format.specs.declared.Fault.TheVariants.{WireType};
ghost use Rattle.format.specs.Result.{ok, bind, pick, told};
ghost use Rattle.format.specs.Format.{number, each, counted};
ghost use Rattle.format.specs.Value.{string, anything, ascii, value, t_tinyint};
ghost use Rattle.format.specs.Message.{first, third, unlimited, Message, read_message, response_layout, head, Table, table, Param, param};
ghost use Rattle.scan.specs.Shown.{shown, shown_next, number_in, refusal};
ghost use Rattle.show.specs.Cells.{cell_of, unruled, shown_as};
ghost use Rattle.pass.specs.Passes.{Passes};
ghost use Rattle.places.specs.Stands.{Stands};
ghost use Rattle.places.specs.Places.{tables_of, table_at, column_type_at, name_at, row_at, params_of, param_at};
ghost use Rattle.places.specs.Entries.{entry, cell_here, value_here, element_of};
ghost use Rattle.query.specs.Shown.{past_of, cell_in, spot_of, shown_of};
ghost use Rattle.query.specs.Answers.{perhaps, of_table, of_param, layout_of, column_of, first_named, named_of, part_of, IsTold, given, given_of, ask_tables, ask_table, ask_column, ask_placed, ask_position, ask_named, ask_column_name, ask_cell, ask_cell_span, ask_cell_place, ask_parameter, ask_parameter_span, ask_element, ask_element_span, told_placed, told_part, told_argument};

use format::{Fault, Refusal};
use show::Raw;

// ---- What the questions are answered with.

// What a table says of itself: its status, how many columns and rows it has, and where it and its parts stand.
#[derive(Clone, Copy)]
pub struct TableLayout {
    pub status: u8,
    pub columns: usize,
    pub rows: usize,
    // its length field, and the place after its last byte
    pub at: usize,
    pub end: usize,
    // its first column's type, its first column's name (the length field), its first row (the length field)
    pub types: usize,
    pub names: usize,
    pub first_row: usize,
}

// What a column says of itself: its type and where that stands, where its name starts and how long it is.
#[derive(Clone, Copy)]
pub struct ColumnLayout {
    pub wire_type: u8,
    pub type_at: usize,
    pub name: usize,
    pub name_length: usize,
}

// A parameter: null, a value, or an array by its elements' type and their number.
#[derive(Drop)]
pub enum Argument {
    Null,
    One(show::Cell),
    Array(u8, usize),
}

// ---- Steps over an accepted message. None of their readings can fail there, and what stands for a refusal is never used.

fn cell_in(a: Result<(show::Cell, usize), Refusal>) -> show::Cell
    ensures { result ≡ cell_in a }
{
    match a {
        Ok((cell, _)) => cell,
        Err(_) => show::Cell::NullText,
    }
}

// Past n bytes that are there.
fn after(m: &[u8], at: usize, n: usize) -> usize
    ensures { result ≡ past_of (shown_next ((number n 0).read m.now at)) }
{
    scan::skip_fixed(m, at, n).unwrap_or(0)
}

// The count of k bytes that is there.
fn count_at(m: &[u8], at: usize, k: usize) -> usize
    ensures { result ≡ number_in (shown ((number (min k 8) 0).read m.now at)) }
{
    scan::number_at(m, at, k) as usize
}

fn value_at(m: &[u8], at: usize, t: u8) -> show::Cell
    ensures { result ≡ cell_in (shown_as (cell_of t at) ((unruled t).read m.now at)) }
{
    cell_in(show::read_value(m, at, t))
}

// Past a thing that begins with its length, by that alone.
fn skip_sized(s: &[u8], at: usize) -> Result<usize, Refusal>
    ensures { result ≡ shown_next ((counted false unlimited anything 0 0).read s.now at) }
{
    let (_, end) = scan::read_span(s, at, format::UNLIMITED)?;
    Ok(end)
}

// Past n things that begin with their length, by their lengths alone.
fn jump(s: &[u8], from: usize, n: usize) -> Result<usize, Refusal>
    ensures { result ≡ shown_next ((each first 0 (replicate n (counted false unlimited anything 0 0))).read s.now from) }
{
    let mut at = from;
    for _ in 0..n {
        at = skip_sized(s, at)?;
    }
    Ok(at)
}

// Past n things that begin with their length and are there.
fn over(m: &[u8], at: usize, n: usize) -> usize
    ensures { result ≡ past_of (shown_next ((each first 0 (replicate n (counted false unlimited anything 0 0))).read m.now at)) }
{
    jump(m, at, n).unwrap_or(0)
}

const PAST_END: Refusal = Refusal {
    fault: Fault::PastEnd,
    place: 0,
};

const NO_COLUMN: Refusal = Refusal {
    fault: Fault::NoColumn,
    place: 0,
};

fn wrong_type(place: usize) -> Refusal
    ensures { result ≡ refusal WireType place }
{
    Refusal {
        fault: Fault::WireType,
        place,
    }
}

// ---- Tables.

// Where the count of a response's tables stands; here and below, timed says whether the response has its round trip.
fn tables_counted(m: &[u8], timed: bool) -> usize
    ensures { Passes (head timed) m.now 5 result }
{
    pass::pass_head(m, 5, timed)
}

fn count_tables(m: &[u8], timed: bool) -> Result<usize, Refusal>
    ensures { told result ≡ bind (read_message (response_layout timed) m.now) (λ p. ok (length (tables_of p))) }
{
    message::accept_layout(format::response_layout(timed), m)?;
    Ok(count_at(m, tables_counted(m, timed), 2))
}

// How many tables a response has.
pub fn tables(m: &[u8]) -> Result<usize, Refusal>
    ensures { told result ≡ ask_tables m.now }
{
    count_tables(m, true)
}

// The table at a place.
fn layout_at(m: &[u8], at: usize) -> TableLayout
    ensures { (b : Table) → Stands table m.now at b → result ≡ layout_of at b }
{
    let end = over(m, at, 1);
    let inner = after(m, at, 4);
    let described = after(m, inner, 4);
    let status = scan::byte_at(m, described);
    let counted = after(m, described, 1);
    let columns = count_at(m, counted, 2);
    let types = after(m, counted, 2);
    let names = after(m, types, columns);
    let row_count = over(m, inner, 1);
    let rows = count_at(m, row_count, 4);
    let first_row = after(m, row_count, 4);
    TableLayout {
        status,
        columns,
        rows,
        at,
        end,
        types,
        names,
        first_row,
    }
}

// Table t of an accepted response.
fn table_in(m: &[u8], timed: bool, t: usize) -> Result<TableLayout, Refusal>
    ensures { (p : Message) → read_message (response_layout timed) m.now ≡ ok p → told result ≡ bind (entry (tables_of p) t) (λ b. ok (layout_of (table_at timed p t) b)) }
{
    let counted = tables_counted(m, timed);
    if count_at(m, counted, 2) <= t {
        return Err(PAST_END);
    }
    let first = after(m, counted, 2);
    Ok(layout_at(m, over(m, first, t)))
}

// What table t of a response says of itself, with its round trip or without.
pub fn find_table(m: &[u8], timed: bool, t: usize) -> Result<TableLayout, Refusal>
    ensures { told result ≡ of_table timed m.now t (λ at b. ok (layout_of at b)) }
{
    message::accept_layout(format::response_layout(timed), m)?;
    table_in(m, timed, t)
}

// What table t of a response says of itself, and where it and its parts stand.
pub fn table(m: &[u8], t: usize) -> Result<TableLayout, Refusal>
    ensures { told result ≡ ask_table m.now t }
{
    find_table(m, true, t)
}

// ---- Columns.

// The column at a position of a table that was found, by where its types and names begin.
pub fn column_at(m: &[u8], types: usize, names: usize, c: usize) -> ColumnLayout
    ensures { (at : ℕ) (b : Table) → Stands table m.now at b → types ≡ column_type_at at b.metadata 0 → names ≡ name_at at b.metadata 0
        → c < length b.metadata.types → ok result ≡ column_of at b c }
{
    let type_at = after(m, types, c);
    let wire_type = scan::byte_at(m, type_at);
    let named = over(m, names, c);
    let name_length = count_at(m, named, 4);
    let name = after(m, named, 4);
    ColumnLayout {
        wire_type,
        type_at,
        name,
        name_length,
    }
}

// What column c of table t says of itself, or that the table has fewer; of a response with its round trip or without.
pub fn find_placed(
    m: &[u8],
    timed: bool,
    t: usize,
    c: usize,
) -> Result<Option<ColumnLayout>, Refusal>
    ensures { told_placed result ≡ of_table timed m.now t (λ at b. ok (perhaps (column_of at b c))) }
{
    let layout = find_table(m, timed, t)?;
    if layout.columns <= c {
        Ok(None)
    } else {
        Ok(Some(column_at(m, layout.types, layout.names, c)))
    }
}

// What column c of table t says of itself, or that the table has fewer.
pub fn placed_column(m: &[u8], t: usize, c: usize) -> Result<Option<ColumnLayout>, Refusal>
    ensures { told_placed result ≡ ask_placed m.now t c }
{
    find_placed(m, true, t, c)
}

// What column c of table t says of itself.
pub fn column(m: &[u8], t: usize, c: usize) -> Result<ColumnLayout, Refusal>
    ensures { told result ≡ ask_column m.now t c }
{
    placed_column(m, t, c)?.ok_or(PAST_END)
}

// Where the bytes of a column's name stand, without their length, and how many they are.
pub fn column_name(m: &[u8], t: usize, c: usize) -> Result<Option<(usize, usize)>, Refusal>
    ensures { told_part result ≡ ask_column_name m.now t c }
{
    let layout = column(m, t, c)?;
    Ok(Some((layout.name, layout.name_length)))
}

// The first of some names, from a place on, that is equal to a name: of its length, and then byte by byte from the last to the first, as names of one
// family begin alike.
fn search(m: &[u8], from: usize, count: usize, name: &[u8]) -> Result<usize, Refusal>
    ensures { (names : List (Option (List ℕ))) → Stands (each third 0 (replicate count (string false ascii 46 47))) m.now from names
        → told result ≡ first_named name.now names 0 }
{
    let mut at = from;
    'columns: for i in 0..count {
        let Ok((start, end)) = scan::read_span(m, at, format::UNLIMITED) else {
            return Err(NO_COLUMN);
        };
        at = end;
        if end - start != name.len() {
            continue 'columns;
        }
        for last in (0..name.len()).rev() {
            if m[start + last] != name[last] {
                continue 'columns;
            }
        }
        return Ok(i);
    }
    Err(NO_COLUMN)
}

// The position of the first column of table t whose name is equal, bytes compared exactly.
pub fn find_column(m: &[u8], t: usize, name: &[u8]) -> Result<usize, Refusal>
    ensures { told result ≡ ask_position m.now t name.now }
{
    let layout = find_table(m, true, t)?;
    search(m, layout.names, layout.columns, name)
}

// The first column of a name in a table, by where its types and names begin.
fn named_in(
    m: &[u8],
    types: usize,
    names: usize,
    count: usize,
    name: &[u8],
) -> Result<(usize, ColumnLayout), Refusal>
    ensures { (at : ℕ) (b : Table) → Stands table m.now at b → types ≡ column_type_at at b.metadata 0 → names ≡ name_at at b.metadata 0
        → count ≡ length b.metadata.types → told result ≡ named_of at b name.now }
{
    let c = search(m, names, count, name)?;
    Ok((c, column_at(m, types, names, c)))
}

// The first column of table t whose name is equal: its position and what it says of itself.
pub fn named_column(m: &[u8], t: usize, name: &[u8]) -> Result<(usize, ColumnLayout), Refusal>
    ensures { told result ≡ ask_named m.now t name.now }
{
    let layout = find_table(m, true, t)?;
    named_in(m, layout.types, layout.names, layout.columns, name)
}

// ---- Cells. A cell that was found is kept with the place of its column's type, where a wrong question is refused.

// The type of a cell, where that type stands, and where the cell does.
#[derive(Drop)]
struct Spot {
    wire_type: u8,
    type_at: usize,
    at: usize,
}

// Past the first c cells of a row, by the types that stand at a place.
fn pass_front(m: &[u8], from: usize, types: usize, c: usize) -> usize
    requires { types + c ≤ length m.now }
    ensures { Passes (each third 0 (map (value 50 51) (take c (drop types m.now)))) m.now from result }
{
    let end = types + c;
    pass::pass_cells(m, from, &m[types..end])
}

// The cell at row k and column c of a table, by where its types and rows begin.
fn spot_at(m: &[u8], types: usize, rows: usize, k: usize, c: usize) -> Spot
    requires { types + c ≤ length m.now }
    ensures { (at : ℕ) (b : Table) → Stands table m.now at b → types ≡ column_type_at at b.metadata 0 → rows ≡ row_at at b 0
        → k < length b.rows → c < length b.metadata.types → ok result ≡ bind (cell_here at b k c) (λ h. ok (spot_of h)) }
{
    let type_at = after(m, types, c);
    let wire_type = scan::byte_at(m, type_at);
    let row = over(m, rows, k);
    let cells = after(m, row, 4);
    let at = pass_front(m, cells, types, c);
    Spot {
        wire_type,
        type_at,
        at,
    }
}

fn find_spot(m: &[u8], timed: bool, t: usize, k: usize, c: usize) -> Result<Spot, Refusal>
    ensures { told result ≡ of_table timed m.now t (λ at b. bind (cell_here at b k c) (λ h. ok (spot_of h))) }
{
    let layout = find_table(m, timed, t)?;
    if layout.rows <= k {
        Err(PAST_END)
    } else if layout.columns <= c {
        Err(PAST_END)
    } else {
        Ok(spot_at(m, layout.types, layout.first_row, k, c))
    }
}

// A cell, and where its column's type stands.
#[derive(Drop)]
struct ShownCell {
    cell: show::Cell,
    type_at: usize,
}

fn find_cell(m: &[u8], timed: bool, t: usize, k: usize, c: usize) -> Result<ShownCell, Refusal>
    ensures { told result ≡ of_table timed m.now t (λ at b. bind (cell_here at b k c) (λ h. ok (shown_of h))) }
{
    let spot = find_spot(m, timed, t, k, c)?;
    let cell = value_at(m, spot.at, spot.wire_type);
    Ok(ShownCell {
        cell,
        type_at: spot.type_at,
    })
}

// The part of the message that a cell is, if it is text, bytes or a geography.
fn part_of(shown: ShownCell) -> Result<Option<(usize, usize)>, Refusal>
    ensures { told_part result ≡ part_of shown.type_at shown.cell }
{
    match show::raw_of(shown.cell) {
        Raw::Body(_, start, size) => Ok(Some((start, size))),
        Raw::Null(_) => Ok(None),
        Raw::Bits(_, _, _) => Err(wrong_type(shown.type_at)),
    }
}

// The part of the message that a span tells, itself, or as much of it as there is; for null and a refusal the empty part at the message's start.
pub fn part_at(m: &[u8], span: Result<Option<(usize, usize)>, Refusal>) -> &[u8]
    ensures { IsTold m.entry (told_part span) result }
{
    let Ok(Some((start, size))) = span else {
        return show::body_at(m, 0, 0);
    };
    show::body_at(m, start, size)
}

// The cell at row k and column c of table t.
pub fn cell(m: &[u8], t: usize, k: usize, c: usize) -> Result<show::Cell, Refusal>
    ensures { told result ≡ ask_cell m.now t k c }
{
    Ok(find_cell(m, true, t, k, c)?.cell)
}

// Where the bytes of a text or binary cell stand, or that it is null.
pub fn cell_span(m: &[u8], t: usize, k: usize, c: usize) -> Result<Option<(usize, usize)>, Refusal>
    ensures { told_part result ≡ ask_cell_span m.now t k c }
{
    part_of(find_cell(m, true, t, k, c)?)
}

// Where the bytes of a cell stand, whatever its type, and how many they are: of a text or binary cell its length field and its body.
pub fn cell_place(m: &[u8], t: usize, k: usize, c: usize) -> Result<Option<(usize, usize)>, Refusal>
    ensures { told_part result ≡ ask_cell_place m.now t k c }
{
    let spot = find_spot(m, true, t, k, c)?;
    let end = pass::pass_value(m, spot.at, spot.wire_type);
    Ok(Some((spot.at, end - spot.at)))
}

// ---- Parameters, and the elements of those that are arrays.

// The place of parameter p of an accepted invocation.
fn param_in(m: &[u8], p: usize) -> Result<usize, Refusal>
    ensures { (v : Message) → read_message 3 m.now ≡ ok v → told result ≡ bind (entry (params_of v) p) (λ q. ok (param_at v p)) }
{
    let client = scan::skip_body(m, 5, false).unwrap_or(0);
    let counted = after(m, client, 8);
    if count_at(m, counted, 2) <= p {
        return Err(PAST_END);
    }
    let first = after(m, counted, 2);
    Ok(pass::pass_params(m, first, p))
}

fn find_param(m: &[u8], p: usize) -> Result<usize, Refusal>
    ensures { told result ≡ of_param m.now p (λ at q. ok at) }
{
    message::accept(3, m)?;
    param_in(m, p)
}

// How many bytes the count of an array's elements has.
fn count_width(t: u8) -> usize
    ensures { result ≡ pick (eqb t t_tinyint) 4 2 }
{
    if t == format::TINYINT { 4 } else { 2 }
}

// The parameter at a place.
fn argument_at(m: &[u8], at: usize) -> Argument
    ensures { (q : Param) → Stands param m.now at q → given result ≡ given_of at q.type q.argument }
{
    let t = scan::byte_at(m, at);
    let inner = after(m, at, 1);
    if t == format::NULL {
        return Argument::Null;
    }
    if t != format::ARRAY {
        return Argument::One(value_at(m, inner, t));
    }
    let e = scan::byte_at(m, inner);
    let counted = after(m, inner, 1);
    Argument::Array(e, count_at(m, counted, count_width(e)))
}

// Parameter p of an invocation, shown.
pub fn parameter(m: &[u8], p: usize) -> Result<Argument, Refusal>
    ensures { told_argument result ≡ ask_parameter m.now p }
{
    let at = find_param(m, p)?;
    Ok(argument_at(m, at))
}

// The value that a parameter at a place is, and where its type stands.
fn one_at(m: &[u8], at: usize) -> Result<ShownCell, Refusal>
    ensures { (q : Param) → Stands param m.now at q → told result ≡ bind (value_here at q.type q.argument) (λ h. ok (shown_of h)) }
{
    let t = scan::byte_at(m, at);
    if t == format::NULL {
        return Err(wrong_type(at));
    }
    if t == format::ARRAY {
        return Err(wrong_type(at));
    }
    let cell = value_at(m, after(m, at, 1), t);
    Ok(ShownCell { cell, type_at: at })
}

fn find_value(m: &[u8], p: usize) -> Result<ShownCell, Refusal>
    ensures { told result ≡ of_param m.now p (λ at q. bind (value_here at q.type q.argument) (λ h. ok (shown_of h))) }
{
    let at = find_param(m, p)?;
    one_at(m, at)
}

// Where the bytes of a text or binary parameter stand, or that it is null.
pub fn parameter_span(m: &[u8], p: usize) -> Result<Option<(usize, usize)>, Refusal>
    ensures { told_part result ≡ ask_parameter_span m.now p }
{
    part_of(find_value(m, p)?)
}

// The element of an array at a place, and where the elements' type stands.
fn element_at(m: &[u8], at: usize, e: usize) -> Result<ShownCell, Refusal>
    ensures { (q : Param) → Stands param m.now at q → told result ≡ bind (element_of at q.argument e) (λ h. ok (shown_of h)) }
{
    if scan::byte_at(m, at) != format::ARRAY {
        return Err(wrong_type(at));
    }
    let type_at = after(m, at, 1);
    let t = scan::byte_at(m, type_at);
    let counted = after(m, type_at, 1);
    let width = count_width(t);
    if count_at(m, counted, width) <= e {
        return Err(PAST_END);
    }
    let first = after(m, counted, width);
    let cell = value_at(m, pass::pass_values(m, first, t, e), t);
    Ok(ShownCell { cell, type_at })
}

fn find_element(m: &[u8], p: usize, e: usize) -> Result<ShownCell, Refusal>
    ensures { told result ≡ of_param m.now p (λ at q. bind (element_of at q.argument e) (λ h. ok (shown_of h))) }
{
    let at = find_param(m, p)?;
    element_at(m, at, e)
}

// Element e of the array that parameter p is, shown.
pub fn element(m: &[u8], p: usize, e: usize) -> Result<show::Cell, Refusal>
    ensures { told result ≡ ask_element m.now p e }
{
    Ok(find_element(m, p, e)?.cell)
}

// Where the bytes of a text or binary element stand, or that it is null.
pub fn element_span(m: &[u8], p: usize, e: usize) -> Result<Option<(usize, usize)>, Refusal>
    ensures { told_part result ≡ ask_element_span m.now p e }
{
    part_of(find_element(m, p, e)?)
}
