// The steps that write a response.
#![tactic(auto)]

ghost use Rattle.std.specs.Prelude.{◌≡◌, ◌+◌, ◌≤◌, true, [], length};
ghost use Rattle.format.specs.Result.{pick};
ghost use Rattle.format.specs.Format.{fine};
ghost use Rattle.format.specs.Text.{utf8};
ghost use Rattle.format.specs.Value.{anything};
ghost use Rattle.put.specs.Put.{put, given};
ghost use Rattle.steps.specs.Plans.{answer_of};
ghost use Rattle.steps.specs.Arguments.{text_fault, null_text_fault};
ghost use Rattle.steps.specs.Steps.{answer_at, plan, begin_reply, finish_reply};
ghost use Rattle.write.specs.Shown.{zero, seen, shown_answer, Stepped};
ghost use Rattle.write.specs.Shared.{verdict_of};
ghost use Rattle.reply.specs.Opening.{opening_of, begin_fault, begin_size, let_in, status_part, app_part, exception_part, front_bytes, middle_bytes, end_bytes, begin_bytes};

use format::{APP_STRING, EXCEPTION, Fault, Refusal, STATUS_STRING};
use steps::Stage;
use write::{Outcome, State};

// What a response says before its table count, beside its client data and its strings; its numbers without a sign.
#[derive(Clone, Copy)]
pub struct Head {
    pub version: u8,
    pub flags: u8,
    pub status: u8,
    pub app_status: u8,
    pub round_trip: u32,
}

// Begins a response: all its fields before the table count, and the count's zeros. A string whose flag is not set is ignored.
pub fn begin_reply(
    out: &mut [u8],
    h: Head,
    client: &[u8; 8],
    status: Option<&[u8]>,
    app: Option<&[u8]>,
    exception: &[u8],
) -> Outcome
    ensures { Stepped (begin_reply h.version (opening_of h client.now (given status.entry) (given app.entry) exception.now)) zero [] out.old result out.new }
{
    // as a slice, so that its length is known from here on
    let data: &[u8] = client;
    let answer = ask_begin(h, status, app, exception, out.len());
    let Ok(n) = answer else {
        let none = write::nothing_open();
        return Outcome {
            answer,
            state: none,
        };
    };
    put_opening(out, h, data, status, app, exception);
    let state = write::begun(Stage::Reply, n);
    Outcome { answer, state }
}

// Finishes the response: its length and its table count are filled.
pub fn finish_reply(out: &mut [u8], st: State) -> Outcome
    ensures { Stepped finish_reply st [] out.old result out.new }
{
    let answer = ask_finish_reply(st, out.len());
    let Ok(n) = answer else {
        return Outcome { answer, state: st };
    };
    put::number_at(out, 0, (st.position - 4) as u64, 4);
    put::number_at(out, st.count_at, st.count as u64, 2);
    let state = write::finished(n);
    Outcome { answer, state }
}

// What a begin is answered, in a buffer of so many bytes. It doesn't depend on the client data.
fn ask_begin(
    h: Head,
    status: Option<&[u8]>,
    app: Option<&[u8]>,
    exception: &[u8],
    size: usize,
) -> Result<usize, Refusal>
    ensures { result ≡ shown_answer (answer_at true (begin_fault h (given status.entry) (given app.entry) exception.now) true 0 (begin_size h (given status.entry) (given app.entry) exception.now) size) }
{
    opening_fault(h, status, app, exception)?;
    let first = let_in_size(scan::has_flag(h.flags, STATUS_STRING), status);
    let second = let_in_size(scan::has_flag(h.flags, APP_STRING), app);
    let third = let_in_size(scan::has_flag(h.flags, EXCEPTION), Some(exception));
    write::judge(true, Ok(()), true, 0, 22 + (first + (second + third)), size)
}

// What is wrong with the fields before the table count, in wire order.
fn opening_fault(
    h: Head,
    status: Option<&[u8]>,
    app: Option<&[u8]>,
    exception: &[u8],
) -> Result<(), Refusal>
    ensures { verdict_of result ≡ begin_fault h (given status.entry) (given app.entry) exception.now }
{
    let edition = write::test(h.version <= 1, Fault::Version, 0);
    let flags = write::test(h.flags % STATUS_STRING == 0, Fault::Flags, 0);
    let first = let_in_fault(scan::has_flag(h.flags, STATUS_STRING), status);
    let second = let_in_fault(scan::has_flag(h.flags, APP_STRING), app);
    let third = exception_fault(scan::has_flag(h.flags, EXCEPTION), exception);
    write::also(
        edition,
        write::also(flags, write::also(first, write::also(second, third))),
    )
}

// Writes all fields before the table count and the count's zeros, from the buffer's start.
fn put_opening(
    out: &mut [u8],
    h: Head,
    client: &[u8],
    status: Option<&[u8]>,
    app: Option<&[u8]>,
    exception: &[u8],
)
    requires { (length client.now ≡ 8) × (begin_size h (given status) (given app) exception.now ≤ length out.old) }
    ensures { out.new ≡ put out.old 0 (begin_bytes h client.now (given status.entry) (given app.entry) exception.now) }
{
    let middle = front_at(out, h, client);
    let last = middle_at(out, middle, h, status, app);
    end_at(out, last, h, exception);
}

// Writes the fields up to the status, from the buffer's start; the length holds zeros.
fn front_at(out: &mut [u8], h: Head, client: &[u8]) -> usize
    requires { (length client.now ≡ 8) × (15 ≤ length out.old) }
    ensures { (result ≡ 15) × (out.new ≡ put out.old 0 (front_bytes h client.now)) }
{
    let first = put::number_at(out, 0, 0, 4);
    let second = put::number_at(out, first, h.version as u64, 1);
    let third = put::bytes_at(out, second, client);
    let fourth = put::number_at(out, third, h.flags as u64, 1);
    put::number_at(out, fourth, h.status as u64, 1)
}

// Writes the fields from the status string to the application string.
fn middle_at(out: &mut [u8], at: usize, h: Head, status: Option<&[u8]>, app: Option<&[u8]>) -> usize
    requires { at + (length (status_part h (given status)) + (1 + length (app_part h (given app)))) ≤ length out.old }
    ensures { (result ≡ at + (length (status_part h (given status.entry)) + (1 + length (app_part h (given app.entry))))) × (out.new ≡ put out.old at (middle_bytes h (given status.entry) (given app.entry))) }
{
    let first = let_in_at(out, at, scan::has_flag(h.flags, STATUS_STRING), status);
    let second = put::number_at(out, first, h.app_status as u64, 1);
    let_in_at(out, second, scan::has_flag(h.flags, APP_STRING), app)
}

// Writes the fields from the round trip on; the table count holds zeros.
fn end_at(out: &mut [u8], at: usize, h: Head, exception: &[u8]) -> usize
    requires { at + (4 + (length (exception_part h exception.now) + 2)) ≤ length out.old }
    ensures { (result ≡ at + (4 + (length (exception_part h exception.now) + 2))) × (out.new ≡ put out.old at (end_bytes h exception.now)) }
{
    let first = put::number_at(out, at, h.round_trip as u64, 4);
    let second = let_in_at(
        out,
        first,
        scan::has_flag(h.flags, EXCEPTION),
        Some(exception),
    );
    put::number_at(out, second, 0, 2)
}

// What is wrong with a text that its flag lets in.
fn let_in_fault(there: bool, text: Option<&[u8]>) -> Result<(), Refusal>
    ensures { verdict_of result ≡ pick there (null_text_fault utf8 0 (given text.entry)) fine }
{
    if !there {
        return Ok(());
    }
    write::null_text_fault(0, text)
}

// What is wrong with an exception that its flag lets in.
fn exception_fault(there: bool, s: &[u8]) -> Result<(), Refusal>
    ensures { verdict_of result ≡ pick there (text_fault anything 0 s.now) fine }
{
    if !there {
        return Ok(());
    }
    write::bytes_fault(0, s)
}

// How many bytes such a string has, with its length.
fn let_in_size(there: bool, text: Option<&[u8]>) -> usize
    ensures { result ≡ length (let_in there (given text.entry)) }
{
    if !there {
        return 0;
    }
    put::text_size(text)
}

// Writes such a string at a place, and says where it ends.
fn let_in_at(out: &mut [u8], at: usize, there: bool, text: Option<&[u8]>) -> usize
    requires { at + length (let_in there (given text)) ≤ length out.old }
    ensures { (result ≡ at + length (let_in there (given text.entry))) × (out.new ≡ put out.old at (let_in there (given text.entry))) }
{
    if !there {
        return at;
    }
    put::text_at(out, at, text)
}

// What finishing is answered, in a buffer of so many bytes.
fn ask_finish_reply(st: State, size: usize) -> Result<usize, Refusal>
    ensures { result ≡ shown_answer (answer_of (plan finish_reply (seen st []) size) size) }
{
    let permitted = write::at_reply(st, size);
    write::judge(permitted, Ok(()), true, st.position, 0, size)
}
