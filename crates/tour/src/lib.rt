// One descent over an accepted message, which meets its fields in wire order and hands each to a task.
#![tactic(auto)]

ghost use Rattle.format.specs.Result.{told};
ghost use Rattle.std.specs.Prelude.{◌≡◌, ℕ, ◌+◌, ◌-◌, ◌*◌, ◌/◌, ◌%◌, ◌^◌, ◌<◌, ◌≤◌, Bool, true, false, List, map, length, replicate};
ghost use Rattle.std.proofs.Math.Option.{none};
ghost use Rattle.std.proofs.lemmas.List.Edits.{sets};
ghost use Rattle.format.specs.Format.{number, each, present, Verdict};
ghost use Rattle.format.specs.Value.{string, ascii, value};
ghost use Rattle.format.specs.Message.{first, second, third, items, argument, param, invocation, login_request, server, login_response, column_type, metadata, row, table, trip, after_flags, head, response, content_of, most_columns, unlimited};
ghost use Rattle.message.specs.Login.{login};
ghost use Rattle.tally.specs.Task.{list_task, doing, acted, wanted, six, Calm};
ghost use Rattle.tour.specs.Calms.{tally_of, resumed, CalmRoom, CalmRows, CalmRun};
ghost use Rattle.tally.specs.Tallies.{most_fixed};
ghost use Rattle.tour.specs.Tour.{fields_of, task_after, out_after};
ghost use Rattle.tally.specs.Walks.{index_of, Stepped, Walked};
ghost use Rattle.tour.specs.Whole.{Whole};

use format::Refusal;
use tally::{Indices, Tally, Task, Tour};

// The task over all fields of a message of a layout, in wire order.
pub fn visit_all(layout: u8, m: &[u8], out: &mut [u64], task: Task) -> Result<Task, Refusal>
    ensures { (told result ≡ task_after (fields_of layout m.now) (doing task out.old)) × (out.new ≡ out_after (fields_of layout m.now) (doing task out.old)) }
{
    message::accept_layout(layout, m)?;
    let tour = walk_message(layout, m, out, task);
    let done = tour.task;
    Ok(done)
}

// The task that lists the fields from the first-th on that end past an offset.
pub fn list_task(first: usize, offset: usize) -> Task
    ensures { result ≡ list_task first offset }
{
    Task {
        first,
        offset,
        seen: 0,
        taken: 0,
        last: 0,
    }
}

// What is done with a field, from at to end: the one place that knows it. Another action is another case here and in `acted`
// (specs/Task), by a number of the task that says which is asked, and a law about what it comes to; no walk changes.
fn act(out: &mut [u64], task: Task, at: usize, end: usize, field: u64, ix: Indices) -> Task
    requires { at < end }
    ensures { doing result out.new ≡ acted (doing task out.old) (record { at = at; size = end - at; field = field; index = index_of ix }) }
{
    let first = task.first;
    let offset = task.offset;
    let taken = task.taken;
    let number = task.seen;
    let seen = std::num::wrapping_add_usize(number, 1);
    if !is_wanted(task, end, out.len()) {
        return Task {
            first,
            offset,
            seen,
            taken,
            last: task.last,
        };
    }
    write_six(out, taken, at, end - at, field, ix);
    Task {
        first,
        offset,
        seen,
        taken: taken + 1,
        last: number,
    }
}

fn is_wanted(task: Task, end: usize, room: usize) -> bool
    ensures { result ≡ wanted task end room }
{
    if task.seen < task.first {
        return false;
    }
    if end <= task.offset {
        return false;
    }
    task.taken < room / 6
}

// A field's six numbers, after those of so many fields.
fn write_six(out: &mut [u64], taken: usize, at: usize, size: usize, field: u64, ix: Indices)
    requires { taken < length out.old / 6 }
    ensures { out.new ≡ sets out.old (6 * taken) (six (record { at = at; size = size; field = field; index = index_of ix })) }
{
    let p = 6 * taken;
    out[p] = at as u64;
    out[p + 1] = size as u64;
    out[p + 2] = field;
    out[p + 3] = ix.i as u64;
    out[p + 4] = ix.j as u64;
    out[p + 5] = ix.k as u64;
}

// The field from the tour's place to end, if it has a byte.
fn visit(out: &mut [u64], tour: Tour, end: usize, field: u64, ix: Indices) -> Tour
    ensures { Stepped field ix tour out.old end result out.new }
{
    let at = tour.at;
    let task = tour.task;
    if end <= at {
        return Tour { at: end, task };
    }
    let done = act(out, task, at, end, field, ix);
    Tour {
        at: end,
        task: done,
    }
}

// A field of so many bytes.
pub fn walk_fixed(
    s: &[u8],
    out: &mut [u64],
    tour: Tour,
    width: usize,
    field: u64,
    ix: Indices,
) -> Tour
    ensures { Walked (number width field) s.now (index_of ix) tour out.old result out.new }
{
    let end = tally::bytes_on(s, tour.at, width);
    visit(out, tour, end, field, ix)
}

// A length, and as many bytes as it says.
fn walk_body(s: &[u8], out: &mut [u64], tour: Tour, prefix: u64, body: u64, ix: Indices) -> Tour
    ensures { (nullable : Bool) (rule : List ℕ → Verdict) → Walked (string nullable rule prefix body) s.now (index_of ix) tour out.old result out.new }
{
    let n = scan::number_at(s, tour.at, 4);
    let start = walk_fixed(s, out, tour, 4, prefix, ix);
    if n == format::NULL_LENGTH {
        return start;
    }
    walk_fixed(s, out, start, n as usize, body, ix)
}

// A value of a wire type.
fn walk_value(
    s: &[u8],
    out: &mut [u64],
    tour: Tour,
    t: u8,
    prefix: u64,
    body: u64,
    ix: Indices,
) -> Tour
    ensures { Walked (value prefix body t) s.now (index_of ix) tour out.old result out.new }
{
    match t {
        format::STRING | format::VARBINARY | format::GEOGRAPHY => walk_body(
            s, out, tour, prefix, body, ix,
        ),
        _ => walk_fixed(s, out, tour, tally::width_of(t), body, ix),
    }
}

// The elements of an array: n values of one type.
fn walk_values(s: &[u8], out: &mut [u64], from: Tour, t: u8, n: usize, ix: Indices) -> Tour
    ensures { Walked (each second 0 (replicate n (value 27 28 t))) s.now (index_of ix) from out.old result out.new }
{
    let mut tour = from;
    for j in 0..n {
        let element = Indices {
            i: ix.i,
            j,
            k: ix.k,
        };
        tour = walk_value(s, out, tour, t, 27, 28, element);
    }
    tour
}

// An array's count and elements.
fn walk_items(s: &[u8], out: &mut [u64], tour: Tour, t: u8, ix: Indices) -> Tour
    ensures { Walked (items t) s.now (index_of ix) tour out.old result out.new }
{
    if t == format::TINYINT {
        return walk_body(s, out, tour, 26, 28, ix);
    }
    let n = scan::number_at(s, tour.at, 2);
    let elements = walk_fixed(s, out, tour, 2, 26, ix);
    walk_values(s, out, elements, t, n as usize, ix)
}

// What stands after a parameter's type.
fn walk_argument(s: &[u8], out: &mut [u64], tour: Tour, t: u8, ix: Indices) -> Tour
    ensures { Walked (argument t) s.now (index_of ix) tour out.old result out.new }
{
    if t == format::NULL {
        return tour;
    }
    if t == format::ARRAY {
        let element = scan::byte_at(s, tour.at);
        let array = walk_fixed(s, out, tour, 1, 25, ix);
        return walk_items(s, out, array, element, ix);
    }
    walk_value(s, out, tour, t, 27, 28, ix)
}

// A parameter.
fn walk_param(s: &[u8], out: &mut [u64], tour: Tour, ix: Indices) -> Tour
    ensures { Walked param s.now (index_of ix) tour out.old result out.new }
{
    let t = scan::byte_at(s, tour.at);
    let value = walk_fixed(s, out, tour, 1, 24, ix);
    walk_argument(s, out, value, t, ix)
}

// N parameters.
fn walk_params(s: &[u8], out: &mut [u64], from: Tour, n: usize, ix: Indices) -> Tour
    ensures { Walked (each first 0 (replicate n param)) s.now (index_of ix) from out.old result out.new }
{
    let mut tour = from;
    for i in 0..n {
        let param = Indices {
            i,
            j: ix.j,
            k: ix.k,
        };
        tour = walk_param(s, out, tour, param);
    }
    tour
}

// An invocation, from its procedure's name on.
fn walk_invocation(s: &[u8], out: &mut [u64], tour: Tour, ix: Indices) -> Tour
    ensures { Walked invocation s.now (index_of ix) tour out.old result out.new }
{
    let client = walk_body(s, out, tour, 20, 21, ix);
    let count = walk_fixed(s, out, client, 8, 22, ix);
    let n = scan::number_at(s, count.at, 2);
    let params = walk_fixed(s, out, count, 2, 23, ix);
    walk_params(s, out, params, n as usize, ix)
}

// A login request's service, user and hash.
fn walk_login(s: &[u8], out: &mut [u64], tour: Tour, size: usize, ix: Indices) -> Tour
    ensures { Walked (login size) s.now (index_of ix) tour out.old result out.new }
{
    let user = walk_body(s, out, tour, 4, 5, ix);
    let hash = walk_body(s, out, user, 6, 7, ix);
    walk_fixed(s, out, hash, size, 8, ix)
}

// A login request, from its hash version on, if it has one.
fn walk_login_request(s: &[u8], out: &mut [u64], tour: Tour, version: u8, ix: Indices) -> Tour
    ensures { Walked (login_request version) s.now (index_of ix) tour out.old result out.new }
{
    if version != 1 {
        return walk_login(s, out, tour, format::SHORT_HASH, ix);
    }
    let h = scan::byte_at(s, tour.at);
    let login = walk_fixed(s, out, tour, 1, 3, ix);
    if h == 1 {
        return walk_login(s, out, login, format::LONG_HASH, ix);
    }
    walk_login(s, out, login, format::SHORT_HASH, ix)
}

// What follows a login's result of 0.
fn walk_server(s: &[u8], out: &mut [u64], tour: Tour, ix: Indices) -> Tour
    ensures { Walked server s.now (index_of ix) tour out.old result out.new }
{
    let connection = walk_fixed(s, out, tour, 4, 11, ix);
    let start = walk_fixed(s, out, connection, 8, 12, ix);
    let leader = walk_fixed(s, out, start, 8, 13, ix);
    let build = walk_fixed(s, out, leader, 4, 14, ix);
    walk_body(s, out, build, 15, 16, ix)
}

// A login response, from its result on.
fn walk_login_response(s: &[u8], out: &mut [u64], tour: Tour, ix: Indices) -> Tour
    ensures { Walked login_response s.now (index_of ix) tour out.old result out.new }
{
    let result = scan::byte_at(s, tour.at);
    let server = walk_fixed(s, out, tour, 1, 10, ix);
    if result != 0 {
        return server;
    }
    walk_server(s, out, server, ix)
}

// The types of n columns.
fn walk_types(s: &[u8], out: &mut [u64], from: Tour, n: usize, ix: Indices) -> Tour
    ensures { Walked (each third 0 (replicate n (column_type 45))) s.now (index_of ix) from out.old result out.new }
{
    let mut tour = from;
    for k in 0..n {
        let at = Indices {
            i: ix.i,
            j: ix.j,
            k,
        };
        tour = walk_fixed(s, out, tour, 1, 45, at);
    }
    tour
}

// The names of n columns.
fn walk_names(s: &[u8], out: &mut [u64], from: Tour, n: usize, ix: Indices) -> Tour
    ensures { Walked (each third 0 (replicate n (string false ascii 46 47))) s.now (index_of ix) from out.old result out.new }
{
    let mut tour = from;
    for k in 0..n {
        let at = Indices {
            i: ix.i,
            j: ix.j,
            k,
        };
        tour = walk_body(s, out, tour, 46, 47, at);
    }
    tour
}

// A table's metadata.
fn walk_metadata(s: &[u8], out: &mut [u64], tour: Tour, ix: Indices) -> Tour
    ensures { Walked metadata s.now (index_of ix) tour out.old result out.new }
{
    let status = walk_fixed(s, out, tour, 4, 42, ix);
    let count = walk_fixed(s, out, status, 1, 43, ix);
    let n = scan::number_at(s, count.at, 2) as usize;
    let types = walk_fixed(s, out, count, 2, 44, ix);
    let names = walk_types(s, out, types, n, ix);
    walk_names(s, out, names, n, ix)
}

// A table's metadata, counted where nothing of it is wanted.
fn pass_metadata(s: &[u8], out: &mut [u64], tour: Tour, ix: Indices) -> Tour
    ensures { Walked metadata s.now (index_of ix) tour out.old result out.new }
{
    if !is_quiet(s, out.len(), tour) {
        return walk_metadata(s, out, tour, ix);
    }
    let tally = tally::tally_metadata(s, tally_of(tour));
    resume(tour, tally)
}

// A row's cells, one for each column's type.
fn walk_cells(s: &[u8], out: &mut [u64], from: Tour, types: &[u8], ix: Indices) -> Tour
    ensures { Walked (each third 0 (map (value 50 51) types.now)) s.now (index_of ix) from out.old result out.new }
{
    let mut tour = from;
    for (k, &t) in types.iter().enumerate() {
        let at = Indices {
            i: ix.i,
            j: ix.j,
            k,
        };
        tour = walk_value(s, out, tour, t, 50, 51, at);
    }
    tour
}

// A row.
fn walk_row(s: &[u8], out: &mut [u64], tour: Tour, types: &[u8], ix: Indices) -> Tour
    ensures { Walked (row types.now) s.now (index_of ix) tour out.old result out.new }
{
    let cells = walk_fixed(s, out, tour, 4, 49, ix);
    walk_cells(s, out, cells, types, ix)
}

// A row, counted where nothing of it is wanted.
fn pass_row(s: &[u8], out: &mut [u64], tour: Tour, types: &[u8], ix: Indices) -> Tour
    ensures { Walked (row types.now) s.now (index_of ix) tour out.old result out.new }
{
    if !is_quiet(s, out.len(), tour) {
        return walk_row(s, out, tour, types, ix);
    }
    let tally = tally::tally_row(s, tally_of(tour), types);
    resume(tour, tally)
}

// N rows.
fn walk_rows(s: &[u8], out: &mut [u64], from: Tour, types: &[u8], n: usize, ix: Indices) -> Tour
    ensures { Walked (each second 0 (replicate n (row types.now))) s.now (index_of ix) from out.old result out.new }
{
    let size = tally::fixed_row(types);
    let columns = types.len();
    let mut tour = from;
    let mut j = 0;
    while j < n {
        let k = calm_run(s, out.len(), tour, size, columns, n - j);
        if 0 < k {
            tour = pass_even(tour, size, columns, k);
            j += k;
            continue;
        }
        let at = Indices {
            i: ix.i,
            j,
            k: ix.k,
        };
        tour = pass_row(s, out, tour, types, at);
        j += 1;
    }
    tour
}

// A table.
fn walk_table(s: &[u8], out: &mut [u64], tour: Tour, ix: Indices) -> Tour
    ensures { Walked table s.now (index_of ix) tour out.old result out.new }
{
    let metadata = walk_fixed(s, out, tour, 4, 41, ix);
    let types = tally::types_of(s, metadata.at);
    let count = pass_metadata(s, out, metadata, ix);
    let n = scan::number_at(s, count.at, 4) as usize;
    let rows = walk_fixed(s, out, count, 4, 48, ix);
    walk_rows(s, out, rows, types, n, ix)
}

// A table, counted where nothing of it is wanted.
fn pass_table(s: &[u8], out: &mut [u64], tour: Tour, ix: Indices) -> Tour
    ensures { Walked table s.now (index_of ix) tour out.old result out.new }
{
    if !is_quiet(s, out.len(), tour) {
        return walk_table(s, out, tour, ix);
    }
    let tally = tally::tally_table(s, tally_of(tour));
    resume(tour, tally)
}

// N tables.
fn walk_tables(s: &[u8], out: &mut [u64], from: Tour, n: usize, ix: Indices) -> Tour
    ensures { Walked (each first 0 (replicate n table)) s.now (index_of ix) from out.old result out.new }
{
    let mut tour = from;
    for i in 0..n {
        let at = Indices {
            i,
            j: ix.j,
            k: ix.k,
        };
        tour = pass_table(s, out, tour, at);
    }
    tour
}

// A body that is there or not.
fn walk_optional(
    s: &[u8],
    out: &mut [u64],
    tour: Tour,
    there: bool,
    prefix: u64,
    body: u64,
    ix: Indices,
) -> Tour
    ensures { (nullable : Bool) (rule : List ℕ → Verdict) → Walked (present there none (string nullable rule prefix body)) s.now (index_of ix) tour out.old result out.new }
{
    if !there {
        return tour;
    }
    walk_body(s, out, tour, prefix, body, ix)
}

// A response's round trip, if it has one.
fn walk_trip(s: &[u8], out: &mut [u64], tour: Tour, timed: bool, ix: Indices) -> Tour
    ensures { Walked (trip timed) s.now (index_of ix) tour out.old result out.new }
{
    if !timed {
        return tour;
    }
    walk_fixed(s, out, tour, 4, 37, ix)
}

// A response's head from its status on.
fn walk_flagged(s: &[u8], out: &mut [u64], tour: Tour, timed: bool, flags: u8, ix: Indices) -> Tour
    ensures { Walked (after_flags timed flags) s.now (index_of ix) tour out.old result out.new }
{
    let string = walk_fixed(s, out, tour, 1, 31, ix);
    let application = walk_optional(
        s,
        out,
        string,
        scan::has_flag(flags, format::STATUS_STRING),
        32,
        33,
        ix,
    );
    let words = walk_fixed(s, out, application, 1, 34, ix);
    let trip = walk_optional(
        s,
        out,
        words,
        scan::has_flag(flags, format::APP_STRING),
        35,
        36,
        ix,
    );
    let exception = walk_trip(s, out, trip, timed, ix);
    walk_optional(
        s,
        out,
        exception,
        scan::has_flag(flags, format::EXCEPTION),
        38,
        39,
        ix,
    )
}

// All that stands in a response before the count of its tables.
fn walk_head(s: &[u8], out: &mut [u64], tour: Tour, timed: bool, ix: Indices) -> Tour
    ensures { Walked (head timed) s.now (index_of ix) tour out.old result out.new }
{
    let client = walk_fixed(s, out, tour, 8, 22, ix);
    let flags = scan::byte_at(s, client.at);
    let status = walk_fixed(s, out, client, 1, 30, ix);
    walk_flagged(s, out, status, timed, flags, ix)
}

// An invocation's response, from its client data on.
fn walk_response(s: &[u8], out: &mut [u64], tour: Tour, timed: bool, ix: Indices) -> Tour
    ensures { Walked (response timed) s.now (index_of ix) tour out.old result out.new }
{
    let count = walk_head(s, out, tour, timed, ix);
    let n = scan::number_at(s, count.at, 2) as usize;
    let tables = walk_fixed(s, out, count, 2, 40, ix);
    walk_tables(s, out, tables, n, ix)
}

// What stands after a message's version.
fn walk_content(layout: u8, s: &[u8], out: &mut [u64], tour: Tour, version: u8, ix: Indices) -> Tour
    ensures { Walked (content_of layout version) s.now (index_of ix) tour out.old result out.new }
{
    match layout {
        1 => walk_login_request(s, out, tour, version, ix),
        2 => walk_login_response(s, out, tour, ix),
        3 => walk_invocation(s, out, tour, ix),
        _ => walk_response(s, out, tour, layout == 4, ix),
    }
}

// A message that is accepted.
fn walk_message(layout: u8, m: &[u8], out: &mut [u64], task: Task) -> Tour
    ensures { Whole layout m.now task out.old result out.new }
{
    let ix = Indices { i: 0, j: 0, k: 0 };
    let start = Tour { at: 0, task };
    let length = walk_fixed(m, out, start, 4, 1, ix);
    let version = scan::byte_at(m, length.at);
    let content = walk_fixed(m, out, length, 1, 2, ix);
    walk_content(layout, m, out, content, version, ix)
}

// Whether none of at most n fields that end by a place is wanted.
fn is_calm(task: Task, room: usize, end: usize, n: usize) -> bool
    ensures { result ≡ true → Calm task room end n }
{
    if room / 6 <= task.taken {
        return true;
    }
    if end <= task.offset {
        return true;
    }
    if task.first < task.seen {
        return false;
    }
    n <= task.first - task.seen
}

// Whether nothing is wanted of the room whose length stands at a tour's place: a field has a byte at least. Where even what ends here would be wanted,
// as in a list of all fields, no more is asked.
fn is_quiet(s: &[u8], room: usize, tour: Tour) -> bool
    ensures { CalmRoom s.now room tour result }
{
    let at = tour.at;
    let task = tour.task;
    if is_wanted(task, at, room) {
        return false;
    }
    let end = tally::room_end(s, at);
    if end < at {
        return false;
    }
    is_calm(task, room, end, end - at)
}

// How many wholes of a size lie between two numbers.
fn wholes(from: usize, to: usize, size: usize) -> usize
    requires { 0 < size }
    ensures { result * size ≤ to - from }
{
    if to <= from {
        return 0;
    }
    (to - from) / size
}

fn lesser(a: usize, b: usize) -> usize
    ensures { (result ≤ a) × (result ≤ b) }
{
    if a < b { a } else { b }
}

// How many of n rows, each of so many bytes and so many fields, surely aren't wanted from a place on.
fn calm_rows(task: Task, room: usize, at: usize, size: usize, fields: usize, n: usize) -> usize
    requires { (0 < size) × (0 < fields) }
    ensures { CalmRows task room at size fields n result }
{
    if room / 6 <= task.taken {
        return n;
    }
    let early = wholes(at, task.offset, size);
    let low = wholes(task.seen, task.first, fields);
    if early < low {
        return lesser(low, n);
    }
    lesser(early, n)
}

// How many of n rows, if they have so many bytes by their columns, are passed by products: they stand at a tour's place, and surely aren't wanted.
fn calm_run(s: &[u8], room: usize, tour: Tour, size: usize, columns: usize, n: usize) -> usize
    requires { (size ≤ most_fixed) × (0 < size → columns ≤ most_columns) }
    ensures { CalmRun s.now room tour size (1 + columns) n result }
{
    if size == 0 {
        return 0;
    }
    let at = tour.at;
    let task = tour.task;
    if is_wanted(task, at, room) {
        return 0;
    }
    let k = calm_rows(task, room, at, size, 1 + columns, n);
    if !tally::rows_stand(s, at, size, k) {
        return 0;
    }
    k
}

// The count that starts where a tour is.
fn tally_of(tour: Tour) -> Tally
    ensures { result ≡ tally_of tour }
{
    let task = tour.task;
    Tally {
        at: tour.at,
        seen: task.seen,
    }
}

// The tour after a count of fields that its task didn't want.
fn resume(tour: Tour, tally: Tally) -> Tour
    ensures { result ≡ resumed tour tally }
{
    let task = tour.task;
    let counted = Task {
        first: task.first,
        offset: task.offset,
        seen: tally.seen,
        taken: task.taken,
        last: task.last,
    };
    Tour {
        at: tally.at,
        task: counted,
    }
}

// Past k rows that aren't wanted, each of so many bytes and of so many columns.
fn pass_even(tour: Tour, size: usize, columns: usize, k: usize) -> Tour
    requires { (k ≤ unlimited) × (columns ≤ most_columns) × (tour.at + k * size < 2 ^ 64) }
    ensures { result ≡ resumed tour (record { at = tour.at + k * size; seen = (tour.task.seen + k * (1 + columns)) % 2 ^ 64 }) }
{
    let from = tally_of(tour);
    let seen = std::num::wrapping_add_usize(from.seen, k * (1 + columns));
    let to = Tally {
        at: from.at + k * size,
        seen,
    };
    resume(tour, to)
}
