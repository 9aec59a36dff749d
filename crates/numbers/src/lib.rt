// Answers and the writer's state as numbers, for the C interface, which takes and gives nothing else.
#![tactic(auto)]

ghost use Rattle.format.specs.Result.{told};
ghost use Rattle.std.specs.Prelude.{◌≡◌, [], ◌∷◌, ◌+◌, ◌*◌, ◌<◌, ◌≤◌, length};
ghost use Rattle.scan.specs.Signed.{unsigned};
ghost use Rattle.fields.specs.Told.{told_owned};
ghost use Rattle.query.specs.Answers.{given, told_part, told_argument};
ghost use Rattle.cards.specs.Reasons.{reason_number, fit_told, told_fit};
ghost use Rattle.steps.specs.State.{stage_number};
ghost use Rattle.steps.specs.Steps.{open_table};
ghost use Rattle.write.specs.Shown.{Opened};
ghost use Rattle.columns.specs.Entries.{columns_of as entries_with};
ghost use Rattle.columns.specs.Walks.{add_all, put_all, FitsAll};
ghost use Rattle.numbers.specs.Entries.{entry_at, entries_of};
ghost use Rattle.numbers.specs.Packed.{above, packed, packed_no, nothing, itself, number_in, rows_of, columns_of, type_of};
ghost use Rattle.numbers.specs.Stored.{stage_of, byte_of, state_of, numbers_of, kept};
ghost use Rattle.numbers.specs.Listed.{lent, found, bits_numbers, cell_numbers, given_numbers, part_in, part_numbers, fit_numbers};
ghost use Rattle.numbers.specs.Records.{form, start_of, size_of, there, has_edition, edition_number, login_request_numbers, login_response_numbers, invocation_numbers, response_numbers};

use cards::{Fit, Reason};
use columns::{Column, Head, Survey};
use fields::Entry;
use format::Refusal;
use query::{Argument, ColumnLayout, TableLayout};
use record::{InvocationRecord, LoginRequestRecord, LoginResponseRecord, ResponseRecord, Span};
use show::{Cell, Raw};
use steps::Stage;
use write::{COLUMNS, Outcome, State};

// A place or a number found, above the low 8 bits.
pub fn above(value: usize) -> u64
    ensures { result ≡ above value }
{
    (value as u64) << 8
}

pub fn refused(refusal: Refusal) -> u64
    ensures { result ≡ packed_no refusal.fault refusal.place }
{
    let fault = refusal.fault;
    let place = refusal.place;
    above(place) + format::number_of(fault) as u64
}

// The answer of a call that has no state, packed.
pub fn pack_answer(answer: Result<usize, Refusal>) -> u64
    ensures { result ≡ packed itself (told answer) }
{
    match answer {
        Ok(n) => above(n),
        Err(refusal) => refused(refusal),
    }
}

pub fn pack_owned(answer: Result<(Entry, usize), Refusal>) -> u64
    ensures { result ≡ packed number_in (told_owned answer) }
{
    pack_answer(answer.map(|(_, n)| n))
}

pub fn pack_rows(answer: Result<TableLayout, Refusal>) -> u64
    ensures { result ≡ packed rows_of (told answer) }
{
    pack_answer(answer.map(|layout| layout.rows))
}

pub fn pack_columns(answer: Result<TableLayout, Refusal>) -> u64
    ensures { result ≡ packed columns_of (told answer) }
{
    pack_answer(answer.map(|layout| layout.columns))
}

pub fn pack_type(answer: Result<ColumnLayout, Refusal>) -> u64
    ensures { result ≡ packed type_of (told answer) }
{
    pack_answer(answer.map(|layout| layout.wire_type as usize))
}

fn stage_of(n: u64) -> Stage
    ensures { result ≡ stage_of n }
{
    match n {
        1 => Stage::Call,
        2 => Stage::Array,
        3 => Stage::Reply,
        4 => Stage::Table,
        5 => Stage::Row,
        _ => Stage::Closed,
    }
}

fn stage_number(s: Stage) -> u64
    ensures { result ≡ stage_number s }
{
    match s {
        Stage::Closed => 0,
        Stage::Call => 1,
        Stage::Array => 2,
        Stage::Reply => 3,
        Stage::Table => 4,
        Stage::Row => 5,
    }
}

// A number as a byte; one that is no byte is 0, which is no type.
fn byte_of(n: u64) -> u8
    ensures { result ≡ byte_of n }
{
    if n < 256 { n as u8 } else { 0 }
}

// The state that numbers say.
pub fn load(numbers: &[u64; 11]) -> State
    ensures { result ≡ state_of numbers.now }
{
    State {
        stage: stage_of(numbers[0]),
        position: numbers[1] as usize,
        count_at: numbers[2] as usize,
        count: numbers[3] as usize,
        inner_at: numbers[4] as usize,
        inner_type: byte_of(numbers[5]),
        inner_count: numbers[6] as usize,
        table_at: numbers[7] as usize,
        rows_at: numbers[8] as usize,
        rows: numbers[9] as usize,
        columns: numbers[10] as usize,
    }
}

// The numbers of a state.
pub fn save(numbers: &mut [u64; 11], st: State)
    ensures { numbers.new ≡ numbers_of st }
{
    let stage = st.stage;
    *numbers = [
        stage_number(stage),
        st.position as u64,
        st.count_at as u64,
        st.count as u64,
        st.inner_at as u64,
        st.inner_type as u64,
        st.inner_count as u64,
        st.table_at as u64,
        st.rows_at as u64,
        st.rows as u64,
        st.columns as u64,
    ];
}

// Packs a step's answer, and keeps the state that it leaves; a refusal leaves the numbers as they were.
pub fn keep(numbers: &mut [u64; 11], step: Outcome) -> u64
    ensures { (result ≡ packed itself (told step.answer)) × (numbers.new ≡ kept numbers.old step.answer step.state) }
{
    let answer = step.answer;
    let state = step.state;
    match answer {
        Ok(n) => {
            save(numbers, state);
            above(n)
        }
        Err(refusal) => refused(refusal),
    }
}

// Three numbers as a column: its type, and where its name stands.
fn column_of(entry: &[u64]) -> Column
    requires { length entry.now ≡ 3 }
    ensures { result ≡ entry_at entry.now 0 }
{
    Column {
        wire_type: byte_of(entry[0]),
        start: entry[1] as usize,
        size: entry[2] as usize,
    }
}

// Opens a table whose columns a list of numbers says, three for each. One or two numbers behind the last are left out.
pub fn open_listed(
    out: &mut [u8],
    st: State,
    types: &mut [u8; COLUMNS],
    status: u8,
    list: &[u64],
    names: &[u8],
) -> Outcome
    ensures { Opened (open_table status (entries_with (entries_of list.now) names.now)) st types.old out.old result types.new out.new }
{
    let found = survey_listed(columns::no_columns(st), list, names);
    let head = columns::open_head(out, st, status, found);
    put_listed(out, types, head, list, names)
}

// What is found of the columns of a list of numbers, behind those of a survey.
fn survey_listed(s: Survey, list: &[u64], names: &[u8]) -> Survey
    ensures { result ≡ add_all names.now s (entries_of list.now) }
{
    let mut found = s;
    for entry in list.chunks_exact(3) {
        found = columns::surveyed(found, column_of(entry), names);
    }
    found
}

// Writes the columns of a list of numbers behind a head.
fn put_listed(
    out: &mut [u8],
    types: &mut [u8; COLUMNS],
    head: Head,
    list: &[u64],
    names: &[u8],
) -> Outcome
    requires { FitsAll names.now (length out.old) head.walk (entries_of list.now) }
    ensures { (result ≡ head.step) × (out.exit.now ≡ (put_all names.now (record { out = out.entry.now; types = types.old; walk = head.walk }) (entries_of list.now)).out) × (types.new ≡ (put_all names.now (record { out = out.entry.now; types = types.old; walk = head.walk }) (entries_of list.now)).types) }
{
    let mut walk = columns::walk_in(head);
    for entry in list.chunks_exact(3) {
        walk = columns::put_column(out, types, walk, column_of(entry), names);
    }
    columns::step_in(head)
}

// ---- Values and records in a lent list; a refusal leaves it as it was.

// A value by its type, its form and two more numbers.
fn four(t: u8, form: u64, a: u64, b: u64) -> [u64; 4]
    ensures { result ≡ t ∷ form ∷ a ∷ b ∷ [] }
{
    [t as u64, form, a, b]
}

// The numbers of a value of a fixed size.
fn list_bits(t: u8, upper: u64, lower: u64) -> [u64; 4]
    ensures { result ≡ bits_numbers t upper lower }
{
    if t != format::POINT {
        return four(t, 0, upper, lower);
    }
    if scan::is_null_point(upper, lower) {
        return four(t, 2, 0, 0);
    }
    four(t, 0, upper, lower)
}

// The numbers of a shown value.
fn list_cell(c: Cell) -> [u64; 4]
    ensures { result ≡ cell_numbers c }
{
    let raw = show::raw_of(c);
    match raw {
        Raw::Bits(t, upper, lower) => list_bits(t, upper, lower),
        Raw::Body(t, start, size) => four(t, 1, start as u64, size as u64),
        Raw::Null(t) => four(t, 2, 0, 0),
    }
}

// Lends what was found; a refusal leaves the list as it was.
pub fn lend<const N: usize>(list: &mut [u64; N], answer: Result<[u64; N], Refusal>) -> u64
    ensures { (result ≡ packed nothing (told answer.entry)) × (list.new ≡ lent found (told answer.entry) list.old) }
{
    match answer {
        Ok(numbers) => {
            *list = numbers;
            0
        }
        Err(refusal) => refused(refusal),
    }
}

// Lends a cell or an element.
pub fn lend_cell(list: &mut [u64; 4], answer: Result<Cell, Refusal>) -> u64
    ensures { (result ≡ packed nothing (told answer)) × (list.new ≡ lent cell_numbers (told answer) list.old) }
{
    lend(list, answer.map(list_cell))
}

// The numbers of a parameter.
fn list_argument(argument: Argument) -> [u64; 4]
    ensures { result ≡ given_numbers (given argument) }
{
    match argument {
        Argument::Null => four(format::NULL, 2, 0, 0),
        Argument::One(c) => list_cell(c),
        Argument::Array(t, n) => four(format::ARRAY, 3, t as u64, n as u64),
    }
}

// Lends a parameter.
pub fn lend_argument(list: &mut [u64; 4], answer: Result<Argument, Refusal>) -> u64
    ensures { (result ≡ packed nothing (told_argument answer)) × (list.new ≡ lent given_numbers (told_argument answer) list.old) }
{
    lend(list, answer.map(list_argument))
}

// The numbers of a part of the message.
fn list_part(part: Option<(usize, usize)>) -> [u64; 2]
    ensures { result ≡ part_numbers (part_in part) }
{
    match part {
        Some((start, size)) => [start as u64, size as u64],
        None => [0, 0],
    }
}

// Lends a part of the message.
pub fn lend_part(list: &mut [u64; 2], answer: Result<Option<(usize, usize)>, Refusal>) -> u64
    ensures { (result ≡ packed nothing (told_part answer)) × (list.new ≡ lent part_numbers (told_part answer) list.old) }
{
    lend(list, answer.map(list_part))
}

fn reason_number(reason: Reason) -> u64
    ensures { result ≡ reason_number reason }
{
    match reason {
        Reason::Past => 1,
        Reason::OtherType => 2,
        Reason::OtherName => 3,
    }
}

// The numbers of how a card fits: of a reason, and of where a column stands, if one does.
fn list_fit(fit: Fit) -> [u64; 3]
    ensures { result ≡ fit_numbers (fit_told fit) }
{
    match fit {
        Fit::Fits => [0, 0, 0],
        Fit::Stale(reason, Some(i)) => [reason_number(reason), 1, i as u64],
        Fit::Stale(reason, None) => [reason_number(reason), 0, 0],
    }
}

// Lends how a card fits.
pub fn lend_fit(list: &mut [u64; 3], answer: Result<Fit, Refusal>) -> u64
    ensures { (result ≡ packed nothing (told_fit answer)) × (list.new ≡ lent fit_numbers (told_fit answer) list.old) }
{
    lend(list, answer.map(list_fit))
}

// A number with a sign, by its two's complement of 64 bits.
fn wide8(z: i8) -> u64
    ensures { result ≡ unsigned 8 z }
{
    scan::unsigned64(z as i64)
}

fn wide32(z: i32) -> u64
    ensures { result ≡ unsigned 8 z }
{
    scan::unsigned64(z as i64)
}

// A string as numbers: its form, where it starts and how many bytes it has.
#[derive(Drop)]
struct Shape {
    form: u64,
    start: u64,
    size: u64,
}

fn shape_of(s: Span) -> Shape
    ensures { result ≡ record { form = form s; start = start_of s; size = size_of s } }
{
    match s {
        Span::Absent => Shape {
            form: 0,
            start: 0,
            size: 0,
        },
        Span::Null => Shape {
            form: 1,
            start: 0,
            size: 0,
        },
        Span::At(start, size) => Shape {
            form: 2,
            start: start as u64,
            size: size as u64,
        },
    }
}

// Whether a string is there: 1 or 0.
fn there(s: Span) -> u64
    ensures { result ≡ there s }
{
    match s {
        Span::At(_, _) => 1,
        _ => 0,
    }
}

// Whether a hash version is there: 1 or 0.
fn has_edition(e: Option<i8>) -> u64
    ensures { result ≡ has_edition e }
{
    match e {
        Some(_) => 1,
        None => 0,
    }
}

// A hash version, or 0.
fn edition_number(e: Option<i8>) -> u64
    ensures { result ≡ edition_number e }
{
    match e {
        Some(z) => wide8(z),
        None => 0,
    }
}

// The numbers of a login request. So it is of the three records below.
fn list_login_request(r: LoginRequestRecord) -> [u64; 9]
    ensures { result ≡ login_request_numbers r }
{
    let edition = r.hash_version;
    let service_span = r.service;
    let user_span = r.user;
    let hash_span = r.hash;
    let service = shape_of(service_span);
    let user = shape_of(user_span);
    let hash = shape_of(hash_span);
    [
        wide8(r.version),
        has_edition(edition),
        edition_number(edition),
        service.start,
        service.size,
        user.start,
        user.size,
        hash.start,
        hash.size,
    ]
}

fn list_login_response(r: LoginResponseRecord) -> [u64; 9]
    ensures { result ≡ login_response_numbers r }
{
    let text = r.build;
    let build = shape_of(text);
    [
        wide8(r.version),
        wide8(r.result),
        wide32(r.host),
        scan::unsigned64(r.connection),
        scan::unsigned64(r.start),
        u32::from_be_bytes(r.leader) as u64,
        there(text),
        build.start,
        build.size,
    ]
}

fn list_invocation(r: InvocationRecord) -> [u64; 6]
    ensures { result ≡ invocation_numbers r }
{
    let text = r.procedure;
    let procedure = shape_of(text);
    [
        wide8(r.version),
        procedure.start,
        procedure.size,
        u64::from_be_bytes(r.client),
        r.params as u64,
        r.params_at as u64,
    ]
}

fn list_response(r: ResponseRecord) -> [u64; 17]
    ensures { result ≡ response_numbers r }
{
    let status_string = r.status_string;
    let app_string = r.app_string;
    let blob = r.exception;
    let status = shape_of(status_string);
    let app = shape_of(app_string);
    let exception = shape_of(blob);
    [
        wide8(r.version),
        u64::from_be_bytes(r.client),
        r.flags as u64,
        wide8(r.status),
        status.form,
        status.start,
        status.size,
        wide8(r.app_status),
        app.form,
        app.start,
        app.size,
        wide32(r.round_trip),
        exception.form,
        exception.start,
        exception.size,
        r.tables as u64,
        r.tables_at as u64,
    ]
}

// Lends the record of a login request. So it is of the three kinds below.
pub fn lend_login_request(list: &mut [u64; 9], answer: Result<LoginRequestRecord, Refusal>) -> u64
    ensures { (result ≡ packed nothing (told answer)) × (list.new ≡ lent login_request_numbers (told answer) list.old) }
{
    lend(list, answer.map(list_login_request))
}

pub fn lend_login_response(list: &mut [u64; 9], answer: Result<LoginResponseRecord, Refusal>) -> u64
    ensures { (result ≡ packed nothing (told answer)) × (list.new ≡ lent login_response_numbers (told answer) list.old) }
{
    lend(list, answer.map(list_login_response))
}

pub fn lend_invocation(list: &mut [u64; 6], answer: Result<InvocationRecord, Refusal>) -> u64
    ensures { (result ≡ packed nothing (told answer)) × (list.new ≡ lent invocation_numbers (told answer) list.old) }
{
    lend(list, answer.map(list_invocation))
}

pub fn lend_response(list: &mut [u64; 17], answer: Result<ResponseRecord, Refusal>) -> u64
    ensures { (result ≡ packed nothing (told answer)) × (list.new ≡ lent response_numbers (told answer) list.old) }
{
    lend(list, answer.map(list_response))
}
