// The steps that write the body of a geography: an area, ring by ring and vertex by vertex.
#![tactic(auto)]

ghost use Rattle.std.specs.Prelude.{◌≡◌, ◌+◌, ◌^◌, ◌<◌, ◌≤◌, true, leb, eqb};
ghost use Rattle.format.specs.declared.Fault.TheVariants.{Geography};
ghost use Rattle.format.specs.Result.{no};
ghost use Rattle.format.specs.Geography.{holes_of};
ghost use Rattle.steps.specs.Plans.{answer_within, test};
ghost use Rattle.write.specs.Shown.{shown_answer};
ghost use Rattle.outline.specs.declared.Outline.TheVariants.{Area, Ring};
ghost use Rattle.outline.specs.State.{ring_head, closed, area_state, ring_state, stage_number, at_stage};
ghost use Rattle.outline.specs.Steps.{begin_area, open_ring, add_vertex, close_ring, finish_area};
ghost use Rattle.outline.specs.Shown.{Stepped};

use format::{Fault, Refusal};

// What is open: nothing, an area, or a ring of it.
#[derive(Clone, Copy)]
pub enum Outline {
    Closed,
    Area,
    Ring,
}

// An area that is being written, in numbers: how many rings it has, the open one with them; where that one began, and how many
// vertices it has so far. What isn't open is 0.
#[derive(Clone, Copy)]
pub struct State {
    pub stage: Outline,
    pub position: usize,
    pub rings: usize,
    pub ring_at: usize,
    pub vertices: usize,
}

// A step's answer, and the state after it.
#[derive(Clone, Copy)]
pub struct Outcome {
    pub answer: Result<usize, Refusal>,
    pub state: State,
}

// The bytes of an area before its rings, and of a ring before its vertices.
const AREA_HEAD: usize = 7;

const RING_HEAD: usize = 5;

// The most rings, and vertices of a ring: what a count can say.
const MOST: usize = format::UNLIMITED as usize;

const FEWEST_VERTICES: usize = format::FEWEST_VERTICES as usize;

// Begins an area by its encoding version and its internal byte. Its third byte and its ring count hold zeros until it is finished.
pub fn begin(out: &mut [u8], edition: u8, internal: u8) -> Outcome
    ensures { Stepped (begin_area edition internal) (closed 0) out.old result out.new }
{
    let answer = judge(true, true, true, 0, AREA_HEAD, out.len());
    let Ok(n) = answer else {
        return Outcome {
            answer,
            state: nothing_open(0),
        };
    };
    let second = put::number_at(out, 0, edition as u64, 1);
    let third = put::number_at(out, second, internal as u64, 1);
    let count = put::number_at(out, third, 0, 1);
    put::number_at(out, count, 0, 4);
    Outcome {
        answer,
        state: between_rings(n, 0),
    }
}

// Opens a ring by its byte; its vertex count holds zeros until it is closed.
pub fn open_ring(out: &mut [u8], st: State, mark: u8) -> Outcome
    ensures { Stepped (open_ring mark) st out.old result out.new }
{
    let at = st.position;
    let size = out.len();
    let permitted = at_area(st, size);
    let more = write::one_more(st.rings, MOST);
    let answer = judge(permitted, true, more, at, RING_HEAD, size);
    let Ok(n) = answer else {
        return Outcome { answer, state: st };
    };
    let count = put::number_at(out, at, mark as u64, 1);
    put::number_at(out, count, 0, 4);
    Outcome {
        answer,
        state: in_ring(n, st.rings + 1, at, 0),
    }
}

// Writes a vertex of the open ring by the bits of its three floats: any bits are a float.
pub fn add_vertex(out: &mut [u8], st: State, x: u64, y: u64, z: u64) -> Outcome
    ensures { Stepped (add_vertex x y z) st out.old result out.new }
{
    let at = st.position;
    let size = out.len();
    let permitted = at_ring(st, size);
    let more = write::one_more(st.vertices, MOST);
    let answer = judge(permitted, true, more, at, format::VERTEX, size);
    let Ok(n) = answer else {
        return Outcome { answer, state: st };
    };
    let second = put::number_at(out, at, x, 8);
    let third = put::number_at(out, second, y, 8);
    put::number_at(out, third, z, 8);
    Outcome {
        answer,
        state: in_ring(n, st.rings, st.ring_at, st.vertices + 1),
    }
}

// Closes the open ring by its kept bytes, and fills its vertex count.
pub fn close_ring(out: &mut [u8], st: State, kept: &[u8; format::RING_KEPT]) -> Outcome
    ensures { Stepped (close_ring kept.now) st out.old result out.new }
{
    let block: &[u8] = kept;
    let at = st.position;
    let size = out.len();
    let permitted = at_ring(st, size);
    let enough = FEWEST_VERTICES <= st.vertices;
    let answer = judge(permitted, enough, true, at, format::RING_KEPT, size);
    let Ok(n) = answer else {
        return Outcome { answer, state: st };
    };
    put::bytes_at(out, at, block);
    put::number_at(out, st.ring_at + 1, st.vertices as u64, 4);
    Outcome {
        answer,
        state: between_rings(n, st.rings),
    }
}

// Finishes the area by its kept bytes, and fills its third byte and its ring count.
pub fn finish(out: &mut [u8], st: State, kept: &[u8; format::AREA_KEPT]) -> Outcome
    ensures { Stepped (finish_area kept.now) st out.old result out.new }
{
    let block: &[u8] = kept;
    let at = st.position;
    let size = out.len();
    let permitted = at_area(st, size);
    let enough = 1 <= st.rings;
    let answer = judge(permitted, enough, true, at, format::AREA_KEPT, size);
    let Ok(n) = answer else {
        return Outcome { answer, state: st };
    };
    put::bytes_at(out, at, block);
    put::number_at(out, 2, holes_of(st.rings), 1);
    put::number_at(out, 3, st.rings as u64, 4);
    Outcome {
        answer,
        state: nothing_open(n),
    }
}

// The answer of a step that writes so many bytes at a place: 13, 25 for too few rings or vertices, 3 for one too many, then 8.
fn judge(
    permitted: bool,
    enough: bool,
    more: bool,
    at: usize,
    bytes: usize,
    size: usize,
) -> Result<usize, Refusal>
    requires { (permitted ≡ true → at ≤ size) × (bytes ≤ 38) × (size + 38 < 2 ^ 64) }
    ensures { result ≡ shown_answer (answer_within (at + bytes) permitted (test enough Geography at) more at bytes size) }
{
    if !permitted {
        return refuse(Fault::Stage, at);
    }
    if !enough {
        return refuse(Fault::Geography, at);
    }
    if !more {
        return refuse(Fault::Limit, at);
    }
    let reached = at + bytes;
    if size < reached {
        return refuse(Fault::Output, reached);
    }
    Ok(reached)
}

fn refuse(fault: Fault, place: usize) -> Result<usize, Refusal>
    ensures { result ≡ shown_answer (no fault place) }
{
    Err(Refusal { fault, place })
}

// The number of a stage.
fn stage_number(stage: Outline) -> u8
    ensures { result ≡ stage_number stage }
{
    match stage {
        Outline::Closed => 0,
        Outline::Area => 1,
        Outline::Ring => 2,
    }
}

// Whether a state is at a stage, by the stage's number.
fn is_at(st: State, number: u8) -> bool
    ensures { result ≡ eqb (stage_number st.stage) number }
{
    let stage = st.stage;
    stage_number(stage) == number
}

// Whether a step between rings is permitted.
fn at_area(st: State, size: usize) -> bool
    ensures { result ≡ at_stage Area st size }
{
    let behind = AREA_HEAD <= st.position;
    let inside = st.position <= size;
    let few = st.rings <= MOST;
    write::both(is_at(st, 1), write::both(behind, write::both(inside, few)))
}

// Whether a step in a ring is permitted.
fn at_ring(st: State, size: usize) -> bool
    ensures { result ≡ at_stage Ring st size }
{
    let few_rings = st.rings <= MOST;
    let behind = AREA_HEAD <= st.ring_at;
    let begun = begun_by(st.ring_at, st.position);
    let inside = st.position <= size;
    let few = st.vertices <= MOST;
    let places = write::both(behind, write::both(begun, write::both(inside, few)));
    write::both(is_at(st, 2), write::both(few_rings, places))
}

// Whether the byte and the count of a ring that began at a place end by a position.
fn begun_by(ring: usize, position: usize) -> bool
    ensures { result ≡ leb (ring + ring_head) position }
{
    if position < RING_HEAD {
        return false;
    }
    ring <= position - RING_HEAD
}

// What the third byte says of so many rings.
fn holes_of(rings: usize) -> u64
    ensures { result ≡ holes_of rings }
{
    if 2 <= rings { 1 } else { 0 }
}

// Nothing is open.
fn nothing_open(position: usize) -> State
    ensures { result ≡ closed position }
{
    State {
        stage: Outline::Closed,
        position: position,
        rings: 0,
        ring_at: 0,
        vertices: 0,
    }
}

// The state between rings, with so many of them.
fn between_rings(position: usize, rings: usize) -> State
    ensures { result ≡ area_state position rings }
{
    State {
        stage: Outline::Area,
        position: position,
        rings: rings,
        ring_at: 0,
        vertices: 0,
    }
}

// The state in a ring that began at a place, with so many vertices.
fn in_ring(position: usize, rings: usize, start: usize, vertices: usize) -> State
    ensures { result ≡ ring_state position rings start vertices }
{
    State {
        stage: Outline::Ring,
        position: position,
        rings: rings,
        ring_at: start,
        vertices: vertices,
    }
}
