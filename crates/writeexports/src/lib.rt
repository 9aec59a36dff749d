// The part of the C interface that writes messages: numbers and slices of numbers only. `exports` has the part that reads them, `areaexports` the
// one for areas; include/chaloenpik.h declares all of it.
// Each function answers one number: what was found, or the refusal's number and place (numbers/specs/Packed.antt).
#![tactic(auto)]

ghost use Rattle.std.specs.Prelude.{◌≡◌, ◌+◌, ◌*◌, ◌^◌, []};
ghost use Rattle.format.specs.Value.{fixed, body};
ghost use Rattle.put.specs.Put.{optional, given};
ghost use Rattle.steps.specs.Steps.{open_table, begin_call, begin_reply, cell, null_param, one_param, bytes_param, open_array, element, close_array, finish_call, open_row, close_row, close_table, finish_reply};
ghost use Rattle.steps.specs.Logins.{login_request, login_response};
ghost use Rattle.write.specs.Shown.{zero};
ghost use Rattle.columns.specs.Entries.{columns_of as entries_with};
ghost use Rattle.numbers.specs.Entries.{entries_of};
ghost use Rattle.writeexports.specs.Given.{opening, RowGave};
ghost use Rattle.login.specs.Parts.{welcome};
ghost use Rattle.numbers.specs.Stored.{WroteFrom, Wrote, WroteAll, WroteLogin};

use reply::Head;
use write::COLUMNS;

// A text or binary value as C gives it, by a flag and bytes: of a null the bytes mean nothing.
fn text_of(null: bool, s: &[u8]) -> Option<&[u8]>
    ensures { given result ≡ optional null s.now }
{
    if null {
        return None;
    }
    Some(s)
}

// ---- The writer: a step each, over a state in numbers, the types of the open table and a buffer.

// Begins an invocation.
#[unsafe(no_mangle)]
pub extern "C" fn chaloenpik_begin_call(
    out: &mut [u8],
    state: &mut [u64; 11],
    version: u8,
    procedure: &[u8],
    client: &[u8; 8],
) -> u64
    ensures { WroteFrom (begin_call version procedure.now client.now) zero state.old [] out.old result state.new out.new }
{
    let step = call::begin_call(out, version, procedure, client);
    numbers::keep(state, step)
}

// Writes a null parameter.
#[unsafe(no_mangle)]
pub extern "C" fn chaloenpik_null_param(out: &mut [u8], state: &mut [u64; 11]) -> u64
    ensures { Wrote null_param state.old [] out.old result state.new out.new }
{
    let st = numbers::load(state);
    let step = call::null_param(out, st);
    numbers::keep(state, step)
}

// Writes a parameter of a fixed size: its type, and its value by its upper and lower 64 bits.
#[unsafe(no_mangle)]
pub extern "C" fn chaloenpik_fixed_param(
    out: &mut [u8],
    state: &mut [u64; 11],
    t: u8,
    upper: u64,
    lower: u64,
) -> u64
    ensures { Wrote (one_param t (fixed (upper * 2 ^ 64 + lower))) state.old [] out.old result state.new out.new }
{
    let st = numbers::load(state);
    let step = call::fixed_param(out, st, t, upper, lower);
    numbers::keep(state, step)
}

// Writes a text or binary parameter: its type, and its bytes or null.
#[unsafe(no_mangle)]
pub extern "C" fn chaloenpik_body_param(
    out: &mut [u8],
    state: &mut [u64; 11],
    t: u8,
    null: bool,
    s: &[u8],
) -> u64
    ensures { Wrote (one_param t (body (optional null s.now))) state.old [] out.old result state.new out.new }
{
    let st = numbers::load(state);
    let step = call::body_param(out, st, t, text_of(null, s));
    numbers::keep(state, step)
}

// Writes an array of bytes.
#[unsafe(no_mangle)]
pub extern "C" fn chaloenpik_bytes_param(out: &mut [u8], state: &mut [u64; 11], s: &[u8]) -> u64
    ensures { Wrote (bytes_param s.now) state.old [] out.old result state.new out.new }
{
    let st = numbers::load(state);
    let step = call::bytes_param(out, st, s);
    numbers::keep(state, step)
}

// Opens an array of elements of a type.
#[unsafe(no_mangle)]
pub extern "C" fn chaloenpik_open_array(out: &mut [u8], state: &mut [u64; 11], t: u8) -> u64
    ensures { Wrote (open_array t) state.old [] out.old result state.new out.new }
{
    let st = numbers::load(state);
    let step = call::open_array(out, st, t);
    numbers::keep(state, step)
}

// Writes an element of a fixed size into the open array.
#[unsafe(no_mangle)]
pub extern "C" fn chaloenpik_fixed_element(
    out: &mut [u8],
    state: &mut [u64; 11],
    t: u8,
    upper: u64,
    lower: u64,
) -> u64
    ensures { Wrote (element t (fixed (upper * 2 ^ 64 + lower))) state.old [] out.old result state.new out.new }
{
    let st = numbers::load(state);
    let step = call::fixed_element(out, st, t, upper, lower);
    numbers::keep(state, step)
}

// Writes a text or binary element into the open array.
#[unsafe(no_mangle)]
pub extern "C" fn chaloenpik_body_element(
    out: &mut [u8],
    state: &mut [u64; 11],
    t: u8,
    null: bool,
    s: &[u8],
) -> u64
    ensures { Wrote (element t (body (optional null s.now))) state.old [] out.old result state.new out.new }
{
    let st = numbers::load(state);
    let step = call::body_element(out, st, t, text_of(null, s));
    numbers::keep(state, step)
}

// Closes the open array, and fills its count.
#[unsafe(no_mangle)]
pub extern "C" fn chaloenpik_close_array(out: &mut [u8], state: &mut [u64; 11]) -> u64
    ensures { Wrote close_array state.old [] out.old result state.new out.new }
{
    let st = numbers::load(state);
    let step = call::close_array(out, st);
    numbers::keep(state, step)
}

// Finishes the invocation: its length and its parameter count are filled.
#[unsafe(no_mangle)]
pub extern "C" fn chaloenpik_finish_call(out: &mut [u8], state: &mut [u64; 11]) -> u64
    ensures { Wrote finish_call state.old [] out.old result state.new out.new }
{
    let st = numbers::load(state);
    let step = call::finish_call(out, st);
    numbers::keep(state, step)
}

// Begins a response with all fields before its table count; its numbers without a sign. A string whose flag is not set is ignored.
#[unsafe(no_mangle)]
pub extern "C" fn chaloenpik_begin_reply(
    out: &mut [u8],
    state: &mut [u64; 11],
    version: u8,
    client: &[u8; 8],
    flags: u8,
    status: u8,
    statusnull: bool,
    statustext: &[u8],
    appstatus: u8,
    appnull: bool,
    apptext: &[u8],
    roundtrip: u32,
    exception: &[u8],
) -> u64
    ensures { WroteFrom (begin_reply version (opening client.now flags status statusnull statustext.now appstatus appnull apptext.now roundtrip exception.now)) zero state.old [] out.old result state.new out.new }
{
    let h = Head {
        version,
        flags,
        status,
        app_status: appstatus,
        round_trip: roundtrip,
    };
    let step = reply::begin_reply(
        out,
        h,
        client,
        text_of(statusnull, statustext),
        text_of(appnull, apptext),
        exception,
    );
    numbers::keep(state, step)
}

// Opens a table: its status, its columns as numbers, three for each (its type, and where its name starts in `names` and how long it is).
#[unsafe(no_mangle)]
pub extern "C" fn chaloenpik_open_table(
    out: &mut [u8],
    state: &mut [u64; 11],
    types: &mut [u8; COLUMNS],
    status: u8,
    list: &[u64],
    names: &[u8],
) -> u64
    ensures { WroteAll (open_table status (entries_with (entries_of list.now) names.now)) state.old types.old out.old result state.new types.new out.new }
{
    let st = numbers::load(state);
    let step = numbers::open_listed(out, st, types, status, list, names);
    numbers::keep(state, step)
}

// Opens a row.
#[unsafe(no_mangle)]
pub extern "C" fn chaloenpik_open_row(
    out: &mut [u8],
    state: &mut [u64; 11],
    types: &[u8; COLUMNS],
) -> u64
    ensures { Wrote open_row state.old types.now out.old result state.new out.new }
{
    let st = numbers::load(state);
    let step = rows::open_row(out, st, types);
    numbers::keep(state, step)
}

// Writes a cell of a fixed size into the open row: its type, and its value by its upper and lower 64 bits.
#[unsafe(no_mangle)]
pub extern "C" fn chaloenpik_fixed_cell(
    out: &mut [u8],
    state: &mut [u64; 11],
    types: &[u8; COLUMNS],
    t: u8,
    upper: u64,
    lower: u64,
) -> u64
    ensures { Wrote (cell t (fixed (upper * 2 ^ 64 + lower))) state.old types.now out.old result state.new out.new }
{
    let st = numbers::load(state);
    let step = rows::fixed_cell(out, st, types, t, upper, lower);
    numbers::keep(state, step)
}

// Writes a text or binary cell into the open row: its type, and its bytes or null.
#[unsafe(no_mangle)]
pub extern "C" fn chaloenpik_body_cell(
    out: &mut [u8],
    state: &mut [u64; 11],
    types: &[u8; COLUMNS],
    t: u8,
    null: bool,
    s: &[u8],
) -> u64
    ensures { Wrote (cell t (body (optional null s.now))) state.old types.now out.old result state.new out.new }
{
    let st = numbers::load(state);
    let step = rows::body_cell(out, st, types, t, text_of(null, s));
    numbers::keep(state, step)
}

// Closes the open row, and fills its length.
#[unsafe(no_mangle)]
pub extern "C" fn chaloenpik_close_row(
    out: &mut [u8],
    state: &mut [u64; 11],
    types: &[u8; COLUMNS],
) -> u64
    ensures { Wrote close_row state.old types.now out.old result state.new out.new }
{
    let st = numbers::load(state);
    let step = rows::close_row(out, st, types);
    numbers::keep(state, step)
}

// Writes a whole row, of which no cell is written where one is refused. Numbers say its cells, two to each: of a type of a fixed size the upper and
// lower 64 bits; of a text or binary type where its bytes start among those that are lent and how many they are, or that it is null.
#[unsafe(no_mangle)]
pub extern "C" fn chaloenpik_whole_row(
    out: &mut [u8],
    state: &mut [u64; 11],
    types: &[u8; COLUMNS],
    cells: &[u64],
    bytes: &[u8],
) -> u64
    ensures { RowGave bytes.now cells.now state.old types.now out.old result state.new out.new }
{
    let st = numbers::load(state);
    let step = whole::whole_row(out, st, types, cells, bytes);
    numbers::keep(state, step)
}

// Closes the open table, and fills its length and its row count.
#[unsafe(no_mangle)]
pub extern "C" fn chaloenpik_close_table(
    out: &mut [u8],
    state: &mut [u64; 11],
    types: &[u8; COLUMNS],
) -> u64
    ensures { Wrote close_table state.old types.now out.old result state.new out.new }
{
    let st = numbers::load(state);
    let step = rows::close_table(out, st, types);
    numbers::keep(state, step)
}

// Finishes the response: its length and its table count are filled.
#[unsafe(no_mangle)]
pub extern "C" fn chaloenpik_finish_reply(out: &mut [u8], state: &mut [u64; 11]) -> u64
    ensures { Wrote finish_reply state.old [] out.old result state.new out.new }
{
    let st = numbers::load(state);
    let step = reply::finish_reply(out, st);
    numbers::keep(state, step)
}

// ---- The logins: one call each.

// Writes a login request. In version 0 the hash version, here `hashing`, is ignored.
#[unsafe(no_mangle)]
pub extern "C" fn chaloenpik_write_login_request(
    out: &mut [u8],
    version: u8,
    hashing: u8,
    service: &[u8],
    user: &[u8],
    hash: &[u8],
) -> u64
    ensures { WroteLogin (login_request version hashing service.now user.now hash.now out.old) result out.new }
{
    numbers::pack_answer(login::login_request(out, version, hashing, service, user, hash))
}

// Writes a login response, its numbers without a sign. With a result other than 0 all that follows it is ignored.
#[unsafe(no_mangle)]
pub extern "C" fn chaloenpik_write_login_response(
    out: &mut [u8],
    version: u8,
    res: u8,
    host: u32,
    connection: u64,
    start: u64,
    leader: u32,
    build: &[u8],
) -> u64
    ensures { WroteLogin (login_response version res (welcome host connection start leader build.now) out.old) result out.new }
{
    numbers::pack_answer(login::login_response(
        out, version, res, host, connection, start, leader, build,
    ))
}
