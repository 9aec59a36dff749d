// Counting the fields of an accepted message without visiting each, and what a count and a descent both stand on: a task, where it is, and where things lie.
#![tactic(auto)]

ghost use Rattle.std.specs.Prelude.{◌≡◌, ℕ, ◌+◌, ◌≤◌, Bool, true, false, List, [], map, length, replicate, ◌==◌};
ghost use Rattle.format.specs.Format.{number, each, Verdict};
ghost use Rattle.format.specs.Result.{ok, pick};
ghost use Rattle.format.specs.Number.{null4};
ghost use Rattle.format.specs.Value.{string, ascii, value, width_of};
ghost use Rattle.format.specs.Message.{second, third, column_type, Metadata, metadata, row, table};
ghost use Rattle.tally.specs.Tallies.{RoomEnd, counting, Tallied, most_fixed, FixedRow, Standing};
ghost use Rattle.tally.specs.declared.Indices.{Indices};
ghost use Rattle.tally.specs.Walks.{Stepped};

// What is to be done with the fields, and what came of it so far. Those from the first-th on that end past an offset are listed, while
// they fit: how many fields were seen, how many of them were listed, and the number of the last of these. No walk looks inside.
#[derive(Clone, Copy)]
pub struct Task {
    pub first: usize,
    pub offset: usize,
    pub seen: usize,
    pub taken: usize,
    pub last: usize,
}

// The three numbers that follow a field's number.
#[derive(Clone, Copy)]
pub struct Indices {
    pub i: usize,
    pub j: usize,
    pub k: usize,
}

// Where the descent is, and the task that it hands on from field to field.
#[derive(Clone, Copy)]
pub struct Tour {
    pub at: usize,
    pub task: Task,
}

// How many fields lie before a place, counted without a task.
#[derive(Clone, Copy)]
pub struct Tally {
    pub at: usize,
    pub seen: usize,
}

// The place n bytes on, where so many bytes stand. Elsewhere it may be any: no place is looked at before it is known to stand in the slice.
pub fn bytes_on(s: &[u8], at: usize, n: usize) -> usize
    ensures { at + n ≤ length s.now → result ≡ at + n }
{
    std::num::wrapping_add_usize(at, n)
}

// The length that stands at a place, where it surely does; else 0.
fn length_at(s: &[u8], at: usize) -> u64
    ensures { (n next : ℕ) → (number 4 0).read s.now at ≡ ok (n, next) → result ≡ n }
{
    if !scan::fits(s, at, 4) {
        return 0;
    }
    quick::four(s, at)
}

// Where the room ends whose length stands at a place.
pub fn room_end(s: &[u8], at: usize) -> usize
    ensures { RoomEnd s.now at result }
{
    let n = length_at(s, at);
    let start = bytes_on(s, at, 4);
    bytes_on(s, start, n as usize)
}

// How many bytes a value of a fixed size has, as `scan::width_of` says it; here by a shift, for which the compiler makes no table of jumps: it would guess
// wrong where columns of many types stand side by side. The digits of the number are the sizes of the types 0 to 15, from the last on.
pub fn width_of(t: u8) -> usize
    ensures { result ≡ width_of t }
{
    if t < 16 {
        return ((0x8008_0842_1000u64 >> (t as u64 * 4)) % 16) as usize;
    }
    if t == format::DECIMAL {
        return 16;
    }
    if t == format::POINT {
        return 16;
    }
    0
}

// The types of the columns whose metadata stands at a place.
pub fn types_of(s: &[u8], at: usize) -> &[u8]
    ensures { (m : Metadata) (next : ℕ) → metadata.read s.now at ≡ ok (m, next) → result.now ≡ m.types }
{
    let count = bytes_on(s, at, 5);
    let first = bytes_on(s, at, 7);
    let n = scan::number_at(s, count, 2) as usize;
    if !scan::fits(s, first, n) {
        return &s[0..0];
    }
    let end = first + n;
    &s[first..end]
}

// The field from the count's place to end, if it has a byte.
fn tally_to(tally: Tally, end: usize) -> Tally
    ensures { (field : ℕ) (ix : Indices) → Stepped field ix (counting tally) [] end (counting result) [] }
{
    let at = tally.at;
    let seen = tally.seen;
    if end <= at {
        return Tally { at: end, seen };
    }
    Tally {
        at: end,
        seen: std::num::wrapping_add_usize(seen, 1),
    }
}

// A field of so many bytes.
fn tally_fixed(s: &[u8], tally: Tally, width: usize) -> Tally
    ensures { (field : ℕ) → Tallied (number width field) s.now tally result }
{
    let end = bytes_on(s, tally.at, width);
    tally_to(tally, end)
}

// How many bytes follow a length: none if it is a null's.
fn body_size(n: u64) -> usize
    ensures { result ≡ pick (n == null4) 0 n }
{
    if n == format::NULL_LENGTH {
        0
    } else {
        n as usize
    }
}

// A length, and as many bytes as it says.
fn tally_body(s: &[u8], tally: Tally) -> Tally
    ensures { (nullable : Bool) (rule : List ℕ → Verdict) (prefix body : ℕ) → Tallied (string nullable rule prefix body) s.now tally result }
{
    let n = length_at(s, tally.at);
    let start = tally_fixed(s, tally, 4);
    tally_fixed(s, start, body_size(n))
}

// A cell of a wire type.
fn tally_value(s: &[u8], tally: Tally, t: u8) -> Tally
    ensures { Tallied (value 50 51 t) s.now tally result }
{
    match t {
        format::STRING | format::VARBINARY | format::GEOGRAPHY => tally_body(s, tally),
        _ => tally_fixed(s, tally, width_of(t)),
    }
}

// A row's cells.
fn tally_cells(s: &[u8], from: Tally, types: &[u8]) -> Tally
    ensures { Tallied (each third 0 (map (value 50 51) types.now)) s.now from result }
{
    let mut tally = from;
    for &t in types {
        tally = tally_value(s, tally, t);
    }
    tally
}

// The count of a room's fields, at the room's end. Taken from the room's length, and not from the last of its fields, the next place is
// known before they are counted, so that the processor needn't wait for them.
fn ended_at(tally: Tally, end: usize) -> Tally
    ensures { result ≡ record { at = end; seen = tally.seen } }
{
    Tally {
        at: end,
        seen: tally.seen,
    }
}

// A row.
pub fn tally_row(s: &[u8], tally: Tally, types: &[u8]) -> Tally
    ensures { Tallied (row types.now) s.now tally result }
{
    let cells = tally_fixed(s, tally, 4);
    let last = tally_cells(s, cells, types);
    ended_at(last, room_end(s, tally.at))
}

// N rows, one by one.
fn tally_each_row(s: &[u8], from: Tally, types: &[u8], n: usize) -> Tally
    ensures { Tallied (each second 0 (replicate n (row types.now))) s.now from result }
{
    let mut tally = from;
    for _ in 0..n {
        tally = tally_row(s, tally, types);
    }
    tally
}

// How many bytes a row has whose columns are all of fixed sizes; 0 for any other.
pub fn fixed_row(types: &[u8]) -> usize
    ensures { FixedRow types.now result }
{
    if format::MOST_COLUMNS < types.len() as u64 {
        return 0;
    }
    let mut size = 4;
    for &t in types {
        let width = width_of(t);
        if width == 0 {
            return 0;
        }
        size += width;
    }
    size
}

// Whether n rows, at least one, of so many bytes stand at a place.
pub fn rows_stand(s: &[u8], at: usize, size: usize, n: usize) -> bool
    requires { size ≤ most_fixed }
    ensures { result ≡ true → Standing s.now at size n }
{
    if size == 0 {
        return false;
    }
    if n == 0 {
        return false;
    }
    if format::UNLIMITED < n as u64 {
        return false;
    }
    scan::fits(s, at, n * size)
}

// N rows: those of fixed sizes by products.
fn tally_rows(s: &[u8], tally: Tally, types: &[u8], n: usize) -> Tally
    ensures { Tallied (each second 0 (replicate n (row types.now))) s.now tally result }
{
    let at = tally.at;
    let seen = tally.seen;
    let size = fixed_row(types);
    if !rows_stand(s, at, size, n) {
        return tally_each_row(s, tally, types, n);
    }
    Tally {
        at: at + n * size,
        seen: std::num::wrapping_add_usize(seen, n * (1 + types.len())),
    }
}

// The types of n columns, each a field of one byte.
fn tally_types(s: &[u8], tally: Tally, n: usize) -> Tally
    ensures { Tallied (each third 0 (replicate n (column_type 45))) s.now tally result }
{
    let at = tally.at;
    let seen = tally.seen;
    if n == 0 {
        return tally;
    }
    if !scan::fits(s, at, n) {
        return tally;
    }
    Tally {
        at: at + n,
        seen: std::num::wrapping_add_usize(seen, n),
    }
}

// A column's name, which is never null.
fn tally_name(s: &[u8], tally: Tally) -> Tally
    ensures { Tallied (string false ascii 46 47) s.now tally result }
{
    let n = length_at(s, tally.at);
    let start = tally_fixed(s, tally, 4);
    tally_fixed(s, start, n as usize)
}

// The names of n columns.
fn tally_names(s: &[u8], from: Tally, n: usize) -> Tally
    ensures { Tallied (each third 0 (replicate n (string false ascii 46 47))) s.now from result }
{
    let mut tally = from;
    for _ in 0..n {
        tally = tally_name(s, tally);
    }
    tally
}

// A table's metadata.
pub fn tally_metadata(s: &[u8], tally: Tally) -> Tally
    ensures { Tallied metadata s.now tally result }
{
    let status = tally_fixed(s, tally, 4);
    let count = tally_fixed(s, status, 1);
    let n = scan::number_at(s, count.at, 2) as usize;
    let types = tally_fixed(s, count, 2);
    let names = tally_types(s, types, n);
    let last = tally_names(s, names, n);
    ended_at(last, room_end(s, tally.at))
}

// A table.
pub fn tally_table(s: &[u8], tally: Tally) -> Tally
    ensures { Tallied table s.now tally result }
{
    let metadata = tally_fixed(s, tally, 4);
    let types = types_of(s, metadata.at);
    let count = tally_metadata(s, metadata);
    let n = length_at(s, count.at) as usize;
    let rows = tally_fixed(s, count, 4);
    let last = tally_rows(s, rows, types, n);
    ended_at(last, room_end(s, tally.at))
}
