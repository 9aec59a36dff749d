// Past a table's names and rows, by the shortest way: places are kept in registers, a row whose columns have no rule is judged by its length
// alone, and a cell's room by where the row's last cell ends. Each helper answers a place, or 0 where it isn't sure; then scan is
// asked, which says what is refused and where.
#![tactic(auto)]

ghost use Rattle.std.specs.Prelude.{◌≡◌, ◌+◌, ◌<◌, ◌≤◌, length, replicate, true, false, map};
ghost use Rattle.format.specs.declared.Fault.TheVariants.{Decimal, Point};
ghost use Rattle.format.specs.Number.{num_at};
ghost use Rattle.format.specs.Format.{each, number, ruled, counted};
ghost use Rattle.format.specs.Text.{utf8};
ghost use Rattle.format.specs.Value.{value, string, ascii, anything, not_empty, decimal_fine, point_fine};
ghost use Rattle.format.specs.Message.{second, third, row, most_columns, unlimited};
ghost use Rattle.scan.specs.Shown.{shown_next, shown_span};
ghost use Rattle.quick.specs.Past.{Low, Past, PastBody, PlainRow, PlainRun, RowOf, RunBy, SureBody, Surely, Within, most_plain, plain_of, size_of};

use format::Refusal;

// A byte as a number.
fn wide(b: u8) -> u64
    ensures { (result ≡ b) × (result < 256) }
{
    b as u64
}

// The number of 4 bytes at a place.
pub fn four(s: &[u8], at: usize) -> u64
    requires { at + 4 ≤ length s.now }
    ensures { (result ≡ num_at 4 s.now at) × (result < 4294967296) }
{
    u32::from_be_bytes([s[at], s[at + 1], s[at + 2], s[at + 3]]) as u64
}

// The counted body of at most so many bytes whose length stands at a place, if it fits. It is no null's. The limit is far below the least length that has a
// sign: for a test of the sign by itself the compiler would read the length byte by byte.
fn sure_body(s: &[u8], at: usize, most: u64) -> Option<(usize, usize)>
    ensures { SureBody s.now at most result }
{
    if s.len() < at {
        return None;
    }
    if s.len() - at < 4 {
        return None;
    }
    let n = four(s, at);
    if most < n {
        return None;
    }
    let start = at + 4;
    if s.len() - start < n as usize {
        return None;
    }
    Some((start, start + n as usize))
}

// The room of a table or of its metadata. None that is longer than a message fits one, so that scan only has to say what is refused.
pub fn read_room(s: &[u8], at: usize) -> Result<(usize, usize), Refusal>
    ensures { result ≡ shown_span at ((counted false unlimited anything 0 0).read s.now at) }
{
    match sure_body(s, at, format::MOST_MESSAGE) {
        Some(span) => Ok(span),
        None => scan::read_span(s, at, format::UNLIMITED),
    }
}

// Past a column's name.
fn past_name(s: &[u8], at: usize) -> usize
    ensures { Surely ((string false ascii 46 47).read s.now at) result }
{
    let Some((start, end)) = sure_body(s, at, format::MOST_BYTES) else {
        return 0;
    };
    if text::is_surely_name(&s[start..end]) {
        end
    } else {
        0
    }
}

// Some names or rows that were passed: how many, and where the next one starts.
#[derive(Drop)]
struct Run {
    passed: usize,
    at: usize,
}

// Past as many of n names or rows as are surely fine, by a step past one, which is 0 where it isn't sure.
fn past_each<F: Fn(usize) -> usize>(past: F, from: usize, n: usize) -> Run
    requires { F.IsAlwaysCallable past }
    ensures { RunBy (F.post past) from n result }
{
    let mut at = from;
    for i in 0..n {
        let next = past(at);
        if next == 0 {
            return Run { passed: i, at };
        }
        at = next;
    }
    Run { passed: n, at }
}

// Past n names: scan says what is refused of one that isn't surely fine.
pub fn skip_names(s: &[u8], from: usize, n: usize) -> Result<usize, Refusal>
    ensures { result ≡ shown_next ((each third 0 (replicate n (string false ascii 46 47))).read s.now from) }
{
    let run = past_each(|at| past_name(s, at), from, n);
    if run.passed == n {
        return Ok(run.at);
    }
    scan::skip_names(s, run.at, n - run.passed)
}

// How many bytes follow a length: none if it is a null's.
fn body_size(n: u64) -> u64
    ensures { result ≡ size_of n }
{
    if n == format::NULL_LENGTH { 0 } else { n }
}

// Past a counted body or a null.
fn past_body(s: &[u8], at: usize) -> usize
    requires { Low at }
    ensures { PastBody s.now at result }
{
    if s.len() < at + 4 {
        return 0;
    }
    let n = body_size(four(s, at));
    if format::MOST_BYTES < n {
        return 0;
    }
    at + 4 + n as usize
}

// Past a text or a null.
fn past_text(s: &[u8], at: usize) -> usize
    requires { Low at }
    ensures { Past s.now at ((string true utf8 0 0).read s.now at) result }
{
    let end = past_body(s, at);
    if end < at + 4 {
        return 0;
    }
    if s.len() < end {
        return 0;
    }
    match text::torn(&s[at + 4..end]) {
        None => end,
        Some(_) => 0,
    }
}

// Past a geography, which isn't empty.
fn past_geography(s: &[u8], at: usize) -> usize
    requires { Low at }
    ensures { Past s.now at ((string true not_empty 0 0).read s.now at) result }
{
    if s.len() < at + 4 {
        return 0;
    }
    if four(s, at) == 0 {
        return 0;
    }
    past_body(s, at)
}

// The number of 2 bytes at a place.
fn two(s: &[u8], at: usize) -> u64
    requires { at + 2 ≤ length s.now }
    ensures { (result ≡ num_at 2 s.now at) × (result < 65536) }
{
    let a = wide(s[at]);
    let b = wide(s[at + 1]);
    a * 256 + b
}

// The number of 8 bytes at a place. They are added in pairs, so that the compiler sees that the terms don't overlap, and reads all bytes at once.
pub fn eight(s: &[u8], at: usize) -> u64
    requires { at + 8 ≤ length s.now }
    ensures { result ≡ num_at 8 s.now at }
{
    let a = two(s, at);
    let b = two(s, at + 2);
    let c = two(s, at + 4);
    let d = two(s, at + 6);
    (a * 0x1_0000_0000_0000 + b * 0x1_0000_0000) + (c * 0x1_0000 + d)
}

// Past a decimal whose upper half shows it to be in range, or that is null: all but those that have the upper half of 10^38, 5421010862427522170, or
// of -10^38, 13025733211282029445 without a sign.
fn past_decimal(s: &[u8], at: usize) -> usize
    requires { Low at }
    ensures { Past s.now at ((ruled decimal_fine Decimal (number 16 0)).read s.now at) result }
{
    if s.len() < at + 16 {
        return 0;
    }
    let upper = eight(s, at);
    if upper < 5421010862427522170 {
        return at + 16;
    }
    if 13025733211282029445 < upper {
        return at + 16;
    }
    if upper != 0x8000_0000_0000_0000 {
        return 0;
    }
    if eight(s, at + 8) != 0 {
        return 0;
    }
    at + 16
}

// Past a point.
fn past_point(s: &[u8], at: usize) -> usize
    requires { Low at }
    ensures { Past s.now at ((ruled point_fine Point (number 16 0)).read s.now at) result }
{
    if s.len() < at + 16 {
        return 0;
    }
    if scan::point_fine(eight(s, at), eight(s, at + 8)) {
        return at + 16;
    }
    0
}

// Past a value of a wire type.
fn past_value(s: &[u8], at: usize, t: u8) -> usize
    requires { Low at }
    ensures { Past s.now at ((value 0 0 t).read s.now at) result }
{
    match t {
        format::TINYINT => at + 1,
        format::SMALLINT => at + 2,
        format::INTEGER => at + 4,
        format::BIGINT | format::FLOAT | format::TIMESTAMP => at + 8,
        format::STRING => past_text(s, at),
        format::VARBINARY => past_body(s, at),
        format::GEOGRAPHY => past_geography(s, at),
        format::DECIMAL => past_decimal(s, at),
        format::POINT => past_point(s, at),
        _ => 0,
    }
}

// The types of a table's columns, so few that no place in a row overflows.
#[derive(Clone, Copy)]
struct Types<'a> {
    bytes: &'a [u8],
    ghost few: { length bytes.now ≤ most_columns },
}

// Where a row's last cell ends, in a room or past it.
fn past_cells(s: &[u8], from: usize, types: Types) -> usize
    requires { from ≤ length s.now }
    ensures { Within s.now ((each third 0 (map (value 50 51) types.entry.bytes.now)).read s.now from) result }
{
    let mut at = from;
    for &t in types.bytes {
        let past = past_value(s, at, t);
        if past == 0 {
            return 0;
        }
        at = past;
    }
    at
}

// Past a row that is surely fine.
fn past_row(s: &[u8], at: usize, types: Types) -> usize
    ensures { Surely ((row types.entry.bytes.now).read s.now at) result }
{
    let Some((start, end)) = sure_body(s, at, format::MOST_ROW) else {
        return 0;
    };
    let past = past_cells(&s[..end], start, types);
    if past == end { end } else { 0 }
}

// Past n rows of any columns: scan looks at a row that isn't surely fine.
fn skip_ruled(s: &[u8], from: usize, types: Types, n: usize) -> Result<usize, Refusal>
    ensures { result ≡ shown_next ((each second 0 (replicate n (row types.entry.bytes.now))).read s.now from) }
{
    let mut at = from;
    let mut i = 0;
    while i < n {
        let run = past_each(|at| past_row(s, at, types), at, n - i);
        i = i + run.passed;
        at = run.at;
        if i == n {
            return Ok(at);
        }
        at = scan::skip_row(s, at, types.bytes)?;
        i += 1;
    }
    Ok(at)
}

// How many bytes a value has whose type has one size and no rule; 0 for any other.
fn plain_of(t: u8) -> usize
    ensures { (result ≡ plain_of t) × (result ≤ 8) }
{
    match t {
        format::TINYINT => 1,
        format::SMALLINT => 2,
        format::INTEGER => 4,
        format::BIGINT | format::FLOAT | format::TIMESTAMP => 8,
        _ => 0,
    }
}

// How many bytes the cells of a row have if every column's type has one size and no rule; else 0.
fn plain_row(types: Types) -> usize
    ensures { PlainRow types.entry.bytes.now result × (result ≤ most_plain) }
{
    let mut sum = 0;
    for &t in types.bytes {
        let width = plain_of(t);
        if width == 0 {
            return 0;
        }
        sum += width;
    }
    sum
}

// Whether a row of so many bytes stands at a place.
fn is_plain(s: &[u8], at: usize, plain: usize) -> bool
    requires { plain ≤ most_plain }
    ensures { RowOf s.now at plain result }
{
    if s.len() < at {
        return false;
    }
    if s.len() - at < 4 + plain {
        return false;
    }
    four(s, at) == plain as u64
}

// Past as many of n rows as have so many bytes. No row is asked more whose columns have no rule.
fn plain_rows(s: &[u8], from: usize, n: usize, plain: usize) -> Run
    requires { (0 < plain) × (plain ≤ most_plain) }
    ensures { PlainRun s.now from n plain result }
{
    let mut at = from;
    for i in 0..n {
        if !is_plain(s, at, plain) {
            return Run { passed: i, at };
        }
        at += 4 + plain;
    }
    Run { passed: n, at }
}

// Past n rows. Where there are none, no type is looked at. As skip_ruled has two callers it stays a function of its own, in which the compiler keeps all places in registers.
pub fn skip_rows(s: &[u8], from: usize, types: &[u8], n: usize) -> Result<usize, Refusal>
    ensures { result ≡ shown_next ((each second 0 (replicate n (row types.now))).read s.now from) }
{
    if format::MOST_COLUMNS < types.len() as u64 {
        return scan::skip_rows(s, from, types, n);
    }
    if n == 0 {
        return Ok(from);
    }
    let types = Types { bytes: types };
    let plain = plain_row(types);
    if plain == 0 {
        return skip_ruled(s, from, types, n);
    }
    let run = plain_rows(s, from, n, plain);
    if run.passed == n {
        return Ok(run.at);
    }
    skip_ruled(s, run.at, types, n - run.passed)
}
