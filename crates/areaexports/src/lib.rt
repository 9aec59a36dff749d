// The C interface for areas, the body of a geography: numbers and slices of numbers only. include/chaloenpik.h declares it.
// Each function answers one number, as those for messages do (numbers/specs/Packed.antt).
#![tactic(auto)]

ghost use Rattle.std.specs.Prelude.{◌≡◌, length, Ok};
ghost use Rattle.format.specs.Result.{ok, bind, told};
ghost use Rattle.format.specs.Geography.{fields_inside, turned_body};
ghost use Rattle.fields.specs.Questions.{owner_of, window_count, window_out};
ghost use Rattle.areas.specs.Answers.{ask_rings, ask_ring, ask_vertex, ask_ring_kept, ask_kept, told_bits};
ghost use Rattle.outline.specs.State.{closed, stage_number};
ghost use Rattle.outline.specs.Steps.{begin_area, open_ring, add_vertex, close_ring, finish_area};
ghost use Rattle.numbers.specs.Packed.{packed, nothing, itself, number_in};
ghost use Rattle.numbers.specs.Listed.{lent, part_numbers};
ghost use Rattle.areaexports.specs.Listed.{ring_numbers, axes};
ghost use Rattle.areaexports.specs.Stored.{stage_of, state_of, numbers_of, kept, WroteFrom, Wrote};

use areas::RingLayout;
use format::Refusal;
use outline::{Outcome, Outline, State};

// ---- Questions to a body.

// Whether a body is an area, and how many rings it has.
#[unsafe(no_mangle)]
pub extern "C" fn chaloenpik_area_rings(b: &[u8]) -> u64
    ensures { result ≡ packed itself (ask_rings b.now) }
{
    numbers::pack_answer(areas::rings(b))
}

// Ring n, as three numbers (specs/Listed.antt).
#[unsafe(no_mangle)]
pub extern "C" fn chaloenpik_area_ring(b: &[u8], n: usize, list: &mut [u64; 3]) -> u64
    ensures { (result ≡ packed nothing (ask_ring b.now n)) × (list.new ≡ lent ring_numbers (ask_ring b.now n) list.old) }
{
    lend_ring(list, areas::ring(b, n))
}

// Vertex v of ring n, as the bits of its three floats.
#[unsafe(no_mangle)]
pub extern "C" fn chaloenpik_area_vertex(b: &[u8], n: usize, v: usize, list: &mut [u64; 3]) -> u64
    ensures { (result ≡ packed nothing (ask_vertex b.now n v)) × (list.new ≡ lent axes (ask_vertex b.now n v) list.old) }
{
    lend_bits(list, areas::vertex_bits(b, n, v))
}

// The bytes that ring n keeps: a part of the body, as two numbers (numbers/specs/Listed.antt).
#[unsafe(no_mangle)]
pub extern "C" fn chaloenpik_area_ring_kept(b: &[u8], n: usize, list: &mut [u64; 2]) -> u64
    ensures { (result ≡ packed nothing (ask_ring_kept b.now n)) × (list.new ≡ lent part_numbers (ask_ring_kept b.now n) list.old) }
{
    numbers::lend_part(list, areas::ring_kept(b, n))
}

// The bytes that the area keeps, likewise.
#[unsafe(no_mangle)]
pub extern "C" fn chaloenpik_area_kept(b: &[u8], list: &mut [u64; 2]) -> u64
    ensures { (result ≡ packed nothing (ask_kept b.now)) × (list.new ≡ lent part_numbers (ask_kept b.now) list.old) }
{
    numbers::lend_part(list, areas::kept(b))
}

// How many fields a body has.
#[unsafe(no_mangle)]
pub extern "C" fn chaloenpik_area_field_count(b: &[u8]) -> u64
    ensures { result ≡ packed itself (bind (fields_inside b.now) (λ es. ok (length es))) }
{
    numbers::pack_answer(inside::count(b))
}

// The entries of the field list from number `first` on, six numbers for each, as many as fit a lent list.
#[unsafe(no_mangle)]
pub extern "C" fn chaloenpik_area_fields(b: &[u8], first: usize, out: &mut [u64]) -> u64
    ensures { (result ≡ packed itself (bind (fields_inside b.now) (λ es. window_count es first (length out.old)))) × (out.new ≡ window_out (fields_inside b.now) first out.old) }
{
    numbers::pack_answer(inside::window(b, first, out))
}

// The number in the field list of the entry that owns a byte.
#[unsafe(no_mangle)]
pub extern "C" fn chaloenpik_area_owner(b: &[u8], offset: usize) -> u64
    ensures { result ≡ packed number_in (bind (fields_inside b.now) (λ es. owner_of es offset)) }
{
    numbers::pack_owned(inside::owner(b, offset))
}

// Gives each ring after the first the other sense, in the body itself; a body that isn't accepted stays as it is.
#[unsafe(no_mangle)]
pub extern "C" fn chaloenpik_area_turn_holes(b: &mut [u8]) -> u64
    ensures { (result ≡ packed itself (ask_rings b.old)) × (b.new ≡ turned_body b.old) }
{
    numbers::pack_answer(turn::turn_holes(b))
}

// ---- The writer: a step each, over a state in five numbers (specs/Stored.antt) and a buffer.

// Begins an area by its edition and its internal byte.
#[unsafe(no_mangle)]
pub extern "C" fn chaloenpik_area_begin(
    out: &mut [u8],
    state: &mut [u64; 5],
    edition: u8,
    internal: u8,
) -> u64
    ensures { WroteFrom (begin_area edition internal) (closed 0) state.old out.old result state.new out.new }
{
    let step = outline::begin(out, edition, internal);
    keep(state, step)
}

// Opens a ring by its mark.
#[unsafe(no_mangle)]
pub extern "C" fn chaloenpik_area_open_ring(out: &mut [u8], state: &mut [u64; 5], mark: u8) -> u64
    ensures { Wrote (open_ring mark) state.old out.old result state.new out.new }
{
    let st = load(state);
    let step = outline::open_ring(out, st, mark);
    keep(state, step)
}

// Writes a vertex of the open ring by the bits of its three floats.
#[unsafe(no_mangle)]
pub extern "C" fn chaloenpik_area_add_vertex(
    out: &mut [u8],
    state: &mut [u64; 5],
    x: u64,
    y: u64,
    z: u64,
) -> u64
    ensures { Wrote (add_vertex x y z) state.old out.old result state.new out.new }
{
    let st = load(state);
    let step = outline::add_vertex(out, st, x, y, z);
    keep(state, step)
}

// Closes the open ring by its kept bytes, and fills its vertex count.
#[unsafe(no_mangle)]
pub extern "C" fn chaloenpik_area_close_ring(
    out: &mut [u8],
    state: &mut [u64; 5],
    kept: &[u8; format::RING_KEPT],
) -> u64
    ensures { Wrote (close_ring kept.now) state.old out.old result state.new out.new }
{
    let st = load(state);
    let step = outline::close_ring(out, st, kept);
    keep(state, step)
}

// Finishes the area by its kept bytes, and fills its third byte and its ring count.
#[unsafe(no_mangle)]
pub extern "C" fn chaloenpik_area_finish(
    out: &mut [u8],
    state: &mut [u64; 5],
    kept: &[u8; format::AREA_KEPT],
) -> u64
    ensures { Wrote (finish_area kept.now) state.old out.old result state.new out.new }
{
    let st = load(state);
    let step = outline::finish(out, st, kept);
    keep(state, step)
}

// ---- Answers in a lent list; a refusal leaves it as it was.

fn lend_ring(list: &mut [u64; 3], answer: Result<RingLayout, Refusal>) -> u64
    ensures { (result ≡ packed nothing (told answer)) × (list.new ≡ lent ring_numbers (told answer) list.old) }
{
    numbers::lend(list, answer.map(list_ring))
}

fn list_ring(ring: RingLayout) -> [u64; 3]
    ensures { result ≡ ring_numbers ring }
{
    [ring.at as u64, ring.mark as u64, ring.vertices as u64]
}

fn lend_bits(list: &mut [u64; 3], answer: Result<(u64, u64, u64), Refusal>) -> u64
    ensures { (result ≡ packed nothing (told_bits answer)) × (list.new ≡ lent axes (told_bits answer) list.old) }
{
    numbers::lend(list, answer.map(list_bits))
}

fn list_bits(bits: (u64, u64, u64)) -> [u64; 3]
    ensures { ok result ≡ told_bits (Ok bits) }
{
    let (x, y, z) = bits;
    [x, y, z]
}

// ---- The state in numbers.

fn stage_of(n: u64) -> Outline
    ensures { result ≡ stage_of n }
{
    match n {
        1 => Outline::Area,
        2 => Outline::Ring,
        _ => Outline::Closed,
    }
}

fn stage_number(stage: Outline) -> u64
    ensures { result ≡ stage_number stage }
{
    match stage {
        Outline::Closed => 0,
        Outline::Area => 1,
        Outline::Ring => 2,
    }
}

// The state that numbers say. No number is refused here: a step refuses a state that isn't sound.
fn load(numbers: &[u64; 5]) -> State
    ensures { result ≡ state_of numbers.now }
{
    State {
        stage: stage_of(numbers[0]),
        position: numbers[1] as usize,
        rings: numbers[2] as usize,
        ring_at: numbers[3] as usize,
        vertices: numbers[4] as usize,
    }
}

// The numbers of a state.
fn save(numbers: &mut [u64; 5], st: State)
    ensures { numbers.new ≡ numbers_of st }
{
    let stage = st.stage;
    *numbers = [
        stage_number(stage),
        st.position as u64,
        st.rings as u64,
        st.ring_at as u64,
        st.vertices as u64,
    ];
}

// Packs a step's answer, and keeps the state that it leaves; a refusal leaves the numbers as they were.
fn keep(numbers: &mut [u64; 5], step: Outcome) -> u64
    ensures { (result ≡ packed itself (told step.answer)) × (numbers.new ≡ kept numbers.old (told step.answer) step.state) }
{
    let answer = step.answer;
    let state = step.state;
    match answer {
        Ok(n) => {
            save(numbers, state);
            numbers::above(n)
        }
        Err(refusal) => numbers::refused(refusal),
    }
}
