// The record of a message of each kind, shown: numbers with their signs, blocks as arrays, strings by their places.
#![tactic(auto)]

ghost use Rattle.std.specs.Prelude.{◌≡◌, ℕ, min};
ghost use Rattle.std.proofs.Math.Option.{none};
ghost use Rattle.format.specs.Result.{ok, told};
ghost use Rattle.format.specs.Message.{Message, Response, read_message, response_layout, the_response, response as response_format};
ghost use Rattle.places.specs.Places.{trip_size};
ghost use Rattle.record.specs.Peeks.{number_at, text_at, note_at, noted_at, block_at, hash_size, login_at, login_request_at, server_at, login_response_at, invocation_at};
ghost use Rattle.record.specs.Records.{login_response_of, response_of, shown_login_request, shown_login_response, shown_invocation, shown_response};

use format::Refusal;
use scan::Body;

// A string: where its bytes start and how many they are; or null; or not there.
#[derive(Clone, Copy)]
pub enum Span {
    At(usize, usize),
    Null,
    Absent,
}

// Kind 1.
#[derive(Drop)]
pub struct LoginRequestRecord {
    pub version: i8,
    pub hash_version: Option<i8>,
    pub service: Span,
    pub user: Span,
    pub hash: Span,
}

// Kind 2. Where the result is not 0, all after it is 0 or absent.
#[derive(Drop)]
pub struct LoginResponseRecord {
    pub version: i8,
    pub result: i8,
    pub host: i32,
    pub connection: i64,
    pub start: i64,
    pub leader: [u8; 4],
    pub build: Span,
}

// Kind 3, with the number of its parameters and where the first begins.
#[derive(Drop)]
pub struct InvocationRecord {
    pub version: i8,
    pub procedure: Span,
    pub client: [u8; 8],
    pub params: usize,
    pub params_at: usize,
}

// Kind 4, with the number of its tables and where the first begins.
#[derive(Drop)]
pub struct ResponseRecord {
    pub version: i8,
    pub client: [u8; 8],
    pub flags: u8,
    pub status: i8,
    pub status_string: Span,
    pub app_status: i8,
    pub app_string: Span,
    pub round_trip: i32,
    pub exception: Span,
    pub tables: usize,
    pub tables_at: usize,
}

// A field, and where the next one stands.
#[derive(Drop)]
struct Field<T> {
    value: T,
    next: usize,
}

// A number, and a string after it.
#[derive(Drop)]
struct Noted {
    number: u64,
    span: Span,
    next: usize,
}

// The number of so many bytes at a place; of 8, if they are more.
fn number_at(s: &[u8], at: usize, width: usize) -> Field<u64>
    ensures { result ≡ number_at s.now at (min width 8) }
{
    match scan::read_number(s, at, width) {
        Ok((value, next)) => Field { value, next },
        Err(_) => Field { value: 0, next: at },
    }
}

fn text_at(s: &[u8], at: usize, nullable: bool) -> Field<Span>
    ensures { result ≡ text_at s.now at nullable }
{
    match scan::read_body(s, at, nullable, format::MOST_BYTES) {
        Ok(Body::Is(start, end)) => Field {
            value: Span::At(start, end - start),
            next: end,
        },
        Ok(Body::Null(next)) => Field {
            value: Span::Null,
            next,
        },
        Err(_) => Field {
            value: Span::Absent,
            next: at,
        },
    }
}

// A string that is there or not.
fn note_at(s: &[u8], at: usize, there: bool, nullable: bool) -> Field<Span>
    ensures { result ≡ note_at s.now at there nullable }
{
    if !there {
        return Field {
            value: Span::Absent,
            next: at,
        };
    }
    text_at(s, at, nullable)
}

fn noted_at(s: &[u8], at: usize, width: usize, there: bool, nullable: bool) -> Noted
    ensures { result ≡ noted_at s.now at (min width 8) there nullable }
{
    let number = number_at(s, at, width);
    let next = number.next;
    let note = note_at(s, next, there, nullable);
    let span = note.value;
    Noted {
        number: number.value,
        span,
        next: note.next,
    }
}

// The 8 bytes at a place.
fn block_at(s: &[u8], at: usize) -> Field<[u8; 8]>
    ensures { result ≡ block_at s.now at }
{
    let mut value = [0; 8];
    if !scan::fits(s, at, 8) {
        return Field { value, next: at };
    }
    value.copy_from_slice(&s[at..at + 8]);
    Field {
        value,
        next: at + 8,
    }
}

fn hash_size(h: u64) -> usize
    ensures { result ≡ hash_size h }
{
    if h == 1 {
        format::LONG_HASH
    } else {
        format::SHORT_HASH
    }
}

// Service, user and hash of a login request, from a place on.
fn read_login(
    m: &[u8],
    at: usize,
    version: u64,
    edition: Option<i8>,
    size: usize,
) -> LoginRequestRecord
    ensures { result ≡ login_at m.now at version edition size }
{
    let first = text_at(m, at, false);
    let service = first.value;
    let next = first.next;
    let second = text_at(m, next, false);
    let user = second.value;
    let hash = second.next;
    LoginRequestRecord {
        version: scan::signed8(version),
        hash_version: edition,
        service,
        user,
        hash: Span::At(hash, size),
    }
}

fn read_login_request(m: &[u8]) -> LoginRequestRecord
    ensures { result ≡ login_request_at m.now }
{
    let first = number_at(m, 4, 1);
    let version = first.value;
    if version != 1 {
        return read_login(m, 5, version, None, format::SHORT_HASH);
    }
    let second = number_at(m, 5, 1);
    let h = second.value;
    read_login(m, 6, version, Some(scan::signed8(h)), hash_size(h))
}

// What follows a login's result of 0.
fn read_server(m: &[u8], version: u64, res: u64) -> LoginResponseRecord
    ensures { result ≡ server_at m.now version res }
{
    let host = number_at(m, 6, 4);
    let connection = number_at(m, 10, 8);
    let start = number_at(m, 18, 8);
    let address = number_at(m, 26, 4);
    let leader = ((address.value % 0x1_0000_0000) as u32).to_be_bytes();
    let text = text_at(m, 30, false);
    let build = text.value;
    LoginResponseRecord {
        version: scan::signed8(version),
        result: scan::signed8(res),
        host: scan::signed32(host.value),
        connection: scan::signed64(connection.value),
        start: scan::signed64(start.value),
        leader,
        build,
    }
}

// A login response that ends with its result.
fn no_server(version: u64, res: u64) -> LoginResponseRecord
    ensures { result ≡ login_response_of version res none }
{
    LoginResponseRecord {
        version: scan::signed8(version),
        result: scan::signed8(res),
        host: 0,
        connection: 0,
        start: 0,
        leader: [0; 4],
        build: Span::Absent,
    }
}

fn read_login_response(m: &[u8]) -> LoginResponseRecord
    ensures { result ≡ login_response_at m.now }
{
    let first = number_at(m, 4, 1);
    let second = number_at(m, 5, 1);
    let version = first.value;
    let result = second.value;
    if result != 0 {
        return no_server(version, result);
    }
    read_server(m, version, result)
}

fn read_invocation(m: &[u8]) -> InvocationRecord
    ensures { result ≡ invocation_at m.now }
{
    let version = number_at(m, 4, 1);
    let text = text_at(m, 5, false);
    let procedure = text.value;
    let data = block_at(m, text.next);
    let client = data.value;
    let count = number_at(m, data.next, 2);
    InvocationRecord {
        version: scan::signed8(version.value),
        procedure,
        client,
        params: count.value as usize,
        params_at: count.next,
    }
}

// How many bytes a response's round trip has.
fn trip_size(timed: bool) -> usize
    ensures { result ≡ trip_size timed }
{
    if timed { 4 } else { 0 }
}

// A response after its flags.
fn read_flagged(m: &[u8], timed: bool, version: u64, flags: u8, client: [u8; 8]) -> ResponseRecord
    ensures { (l : Response) (next : ℕ) → (response_format timed).read m.now 5 ≡ ok (l, next) → flags ≡ l.head.flags → client ≡ l.head.client
        → result ≡ response_of version l }
{
    let status = noted_at(m, 14, 1, scan::has_flag(flags, format::STATUS_STRING), true);
    let app = noted_at(
        m,
        status.next,
        1,
        scan::has_flag(flags, format::APP_STRING),
        true,
    );
    let trip = noted_at(
        m,
        app.next,
        trip_size(timed),
        scan::has_flag(flags, format::EXCEPTION),
        false,
    );
    let count = number_at(m, trip.next, 2);
    let status_string = status.span;
    let app_string = app.span;
    let exception = trip.span;
    ResponseRecord {
        version: scan::signed8(version),
        client,
        flags,
        status: scan::signed8(status.number),
        status_string,
        app_status: scan::signed8(app.number),
        app_string,
        round_trip: scan::signed32(trip.number),
        exception,
        tables: count.value as usize,
        tables_at: count.next,
    }
}

fn read_response(m: &[u8], timed: bool) -> ResponseRecord
    ensures { (p : Message) → read_message (response_layout timed) m.now ≡ ok p → result ≡ response_of p.version (the_response p.content) }
{
    let version = number_at(m, 4, 1);
    let data = block_at(m, 5);
    let client = data.value;
    read_flagged(m, timed, version.value, scan::byte_at(m, 13), client)
}

// The record of a login request, or why the message is none.
pub fn login_request(m: &[u8]) -> Result<LoginRequestRecord, Refusal>
    ensures { told result ≡ shown_login_request (read_message 1 m.now) }
{
    message::accept(1, m)?;
    Ok(read_login_request(m))
}

// The record of a login response, or why the message is none.
pub fn login_response(m: &[u8]) -> Result<LoginResponseRecord, Refusal>
    ensures { told result ≡ shown_login_response (read_message 2 m.now) }
{
    message::accept(2, m)?;
    Ok(read_login_response(m))
}

// The record of an invocation, or why the message is none.
pub fn invocation(m: &[u8]) -> Result<InvocationRecord, Refusal>
    ensures { told result ≡ shown_invocation (read_message 3 m.now) }
{
    message::accept(3, m)?;
    Ok(read_invocation(m))
}

// The record of a response, or why the message is none.
pub fn response(m: &[u8]) -> Result<ResponseRecord, Refusal>
    ensures { told result ≡ shown_response (read_message 4 m.now) }
{
    show_response(m, true)
}

// The same of a response with its round trip, or without.
fn show_response(m: &[u8], timed: bool) -> Result<ResponseRecord, Refusal>
    ensures { told result ≡ shown_response (read_message (response_layout timed) m.now) }
{
    message::accept_layout(format::response_layout(timed), m)?;
    Ok(read_response(m, timed))
}
