// The steps that write an invocation.
#![tactic(auto)]

ghost use Rattle.std.specs.Prelude.{◌≡◌, ◌+◌, ◌*◌, ◌^◌, ◌≤◌, [], length};
ghost use Rattle.std.proofs.Math.Option.{some};
ghost use Rattle.format.specs.Value.{fixed, body};
ghost use Rattle.put.specs.Put.{put, given, sized};
ghost use Rattle.steps.specs.State.{closed};
ghost use Rattle.steps.specs.Plans.{answer_of};
ghost use Rattle.steps.specs.Steps.{plan, begin_call, null_param, one_param, bytes_param, open_array, element, close_array, finish_call};
ghost use Rattle.write.specs.Shown.{zero, shown_answer, Stepped};

use format::{Fault, Refusal};
use steps::Stage;
use write::{Outcome, State};

// The types that a step writes by itself.
const NULL: u64 = format::NULL as u64;

const TINYINT: u64 = format::TINYINT as u64;

const ARRAY: u64 = format::ARRAY as u64;

// Begins an invocation; its length and its count hold zeros until it is finished.
pub fn begin_call(out: &mut [u8], version: u8, procedure: &[u8], client: &[u8; 8]) -> Outcome
    ensures { Stepped (begin_call version procedure.now client.now) zero [] out.old result out.new }
{
    begin(out, version, procedure, client)
}

// Writes a null parameter.
pub fn null_param(out: &mut [u8], st: State) -> Outcome
    ensures { Stepped null_param st [] out.old result out.new }
{
    let at = st.position;
    let size = out.len();
    let permitted = write::at_call(st, size);
    let more = write::one_more(st.count, write::MOST_ITEMS);
    let answer = write::judge(permitted, Ok(()), more, at, 1, size);
    let Ok(n) = answer else {
        return Outcome { answer, state: st };
    };
    put::number_at(out, at, NULL, 1);
    let state = write::between(st, Stage::Call, n, st.count + 1);
    Outcome { answer, state }
}

// Opens an array of elements of a type; its count holds zeros until it is closed.
pub fn open_array(out: &mut [u8], st: State, t: u8) -> Outcome
    ensures { Stepped (open_array t) st [] out.old result out.new }
{
    let at = st.position;
    let size = out.len();
    let permitted = write::at_call(st, size);
    let fault = write::test(write::is_element(t), Fault::WireType, at);
    let more = write::one_more(st.count, write::MOST_ITEMS);
    let answer = write::judge(permitted, fault, more, at, 4, size);
    let Ok(n) = answer else {
        return Outcome { answer, state: st };
    };
    let mid = put::number_at(out, at, ARRAY, 1);
    let count_at = put::number_at(out, mid, t as u64, 1);
    put::number_at(out, count_at, 0, 2);
    let state = write::in_array(st, Stage::Array, n, st.count + 1, n - 2, t, 0);
    Outcome { answer, state }
}

// Closes the open array, and fills its count.
pub fn close_array(out: &mut [u8], st: State) -> Outcome
    ensures { Stepped close_array st [] out.old result out.new }
{
    let at = st.position;
    let size = out.len();
    let permitted = write::at_array(st, size);
    let answer = write::judge(permitted, Ok(()), true, at, 0, size);
    let Ok(n) = answer else {
        return Outcome { answer, state: st };
    };
    put::number_at(out, st.inner_at, st.inner_count as u64, 2);
    let state = write::between(st, Stage::Call, n, st.count);
    Outcome { answer, state }
}

// Finishes the invocation: its length and its parameter count are filled.
pub fn finish_call(out: &mut [u8], st: State) -> Outcome
    ensures { Stepped finish_call st [] out.old result out.new }
{
    let at = st.position;
    let size = out.len();
    let permitted = write::at_call(st, size);
    let answer = write::judge(permitted, Ok(()), true, at, 0, size);
    let Ok(n) = answer else {
        return Outcome { answer, state: st };
    };
    put::number_at(out, 0, (at - 4) as u64, 4);
    put::number_at(out, st.count_at, st.count as u64, 2);
    let state = write::finished(n);
    Outcome { answer, state }
}

// Writes a parameter of a fixed size: its type, and its value by its upper and lower 64 bits.
pub fn fixed_param(out: &mut [u8], st: State, t: u8, upper: u64, lower: u64) -> Outcome
    ensures { Stepped (one_param t (fixed (upper * 2 ^ 64 + lower))) st [] out.old result out.new }
{
    let at = st.position;
    let size = out.len();
    let permitted = write::at_call(st, size);
    let fault = write::fixed_fault(at, t, upper, lower);
    let more = write::one_more(st.count, write::MOST_ITEMS);
    let bytes = 1 + scan::width_of(t);
    let answer = write::judge(permitted, fault, more, at, bytes, size);
    let Ok(n) = answer else {
        return Outcome { answer, state: st };
    };
    let mid = put::number_at(out, at, t as u64, 1);
    put::fixed_at(out, mid, t, upper, lower);
    let state = write::between(st, Stage::Call, n, st.count + 1);
    Outcome { answer, state }
}

// Writes a text or binary parameter: its type, and its bytes or null.
pub fn body_param(out: &mut [u8], st: State, t: u8, text: Option<&[u8]>) -> Outcome
    ensures { Stepped (one_param t (body (given text.entry))) st [] out.old result out.new }
{
    let at = st.position;
    let size = out.len();
    let permitted = write::at_call(st, size);
    let fault = write::body_fault(at, t, text);
    let more = write::one_more(st.count, write::MOST_ITEMS);
    let bytes = 1 + put::text_size(text);
    let answer = write::judge(permitted, fault, more, at, bytes, size);
    let Ok(n) = answer else {
        return Outcome { answer, state: st };
    };
    let mid = put::number_at(out, at, t as u64, 1);
    put::text_at(out, mid, text);
    let state = write::between(st, Stage::Call, n, st.count + 1);
    Outcome { answer, state }
}

// Writes an array of bytes, in one step.
pub fn bytes_param(out: &mut [u8], st: State, s: &[u8]) -> Outcome
    ensures { Stepped (bytes_param s.now) st [] out.old result out.new }
{
    let at = st.position;
    let size = out.len();
    let permitted = write::at_call(st, size);
    let fault = write::bytes_fault(at, s);
    let more = write::one_more(st.count, write::MOST_ITEMS);
    let bytes = 2 + put::text_size(Some(s));
    let answer = write::judge(permitted, fault, more, at, bytes, size);
    let Ok(n) = answer else {
        return Outcome { answer, state: st };
    };
    let kind = put::number_at(out, at, ARRAY, 1);
    let mid = put::number_at(out, kind, TINYINT, 1);
    put::text_at(out, mid, Some(s));
    let state = write::between(st, Stage::Call, n, st.count + 1);
    Outcome { answer, state }
}

// Writes an element of a fixed size into the open array.
pub fn fixed_element(out: &mut [u8], st: State, t: u8, upper: u64, lower: u64) -> Outcome
    ensures { Stepped (element t (fixed (upper * 2 ^ 64 + lower))) st [] out.old result out.new }
{
    let at = st.position;
    let size = out.len();
    let permitted = write::at_array(st, size);
    let kind = write::test(t == st.inner_type, Fault::WireType, at);
    let fault = write::also(kind, write::fixed_fault(at, t, upper, lower));
    let more = write::one_more(st.inner_count, write::MOST_ITEMS);
    let answer = write::judge(permitted, fault, more, at, scan::width_of(t), size);
    let Ok(n) = answer else {
        return Outcome { answer, state: st };
    };
    put::fixed_at(out, at, t, upper, lower);
    let state = write::in_array(
        st,
        Stage::Array,
        n,
        st.count,
        st.inner_at,
        st.inner_type,
        st.inner_count + 1,
    );
    Outcome { answer, state }
}

// Writes a text or binary element into the open array.
pub fn body_element(out: &mut [u8], st: State, t: u8, text: Option<&[u8]>) -> Outcome
    ensures { Stepped (element t (body (given text.entry))) st [] out.old result out.new }
{
    let at = st.position;
    let size = out.len();
    let permitted = write::at_array(st, size);
    let kind = write::test(t == st.inner_type, Fault::WireType, at);
    let fault = write::also(kind, write::body_fault(at, t, text));
    let more = write::one_more(st.inner_count, write::MOST_ITEMS);
    let bytes = put::text_size(text);
    let answer = write::judge(permitted, fault, more, at, bytes, size);
    let Ok(n) = answer else {
        return Outcome { answer, state: st };
    };
    put::text_at(out, at, text);
    let state = write::in_array(
        st,
        Stage::Array,
        n,
        st.count,
        st.inner_at,
        st.inner_type,
        st.inner_count + 1,
    );
    Outcome { answer, state }
}

// Begins an invocation whose client data is a slice.
fn begin(out: &mut [u8], version: u8, procedure: &[u8], client: &[u8]) -> Outcome
    requires { length client.now ≡ 8 }
    ensures { Stepped (begin_call version procedure.now client.now) zero [] out.old result out.new }
{
    let answer = ask_begin(version, procedure, client, out.len());
    let Ok(n) = answer else {
        return Outcome {
            answer,
            state: write::nothing_open(),
        };
    };
    put_head(out, version, procedure, client);
    Outcome {
        answer,
        state: write::begun(Stage::Call, n),
    }
}

// What a begin is answered, in a buffer of so many bytes.
fn ask_begin(version: u8, procedure: &[u8], client: &[u8], size: usize) -> Result<usize, Refusal>
    requires { length client.now ≡ 8 }
    ensures { result ≡ shown_answer (answer_of (plan (begin_call version procedure.now client.now) (closed 0) size) size) }
{
    let edition = write::test(version <= 1, Fault::Version, 0);
    let fault = write::also(edition, write::text_fault(0, procedure));
    let bytes = 15 + put::text_size(Some(procedure));
    write::judge(true, fault, true, 0, bytes, size)
}

// Writes what stands before the parameters, where there is room for it.
fn put_head(out: &mut [u8], version: u8, procedure: &[u8], client: &[u8])
    requires { (length client.now ≡ 8) × (15 + length (sized (some procedure.now)) ≤ length out.old) }
    ensures { out.new ≡ put out.old 0 (plan (begin_call version procedure.now client.now) (closed 0) 0).bytes }
{
    let edition = put::number_at(out, 0, 0, 4);
    let name = put::number_at(out, edition, version as u64, 1);
    let data = put::text_at(out, name, Some(procedure));
    let count = put::bytes_at(out, data, client);
    put::number_at(out, count, 0, 2);
}
