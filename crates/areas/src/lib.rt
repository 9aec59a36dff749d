// Areas: the body of a geography, read. Every call takes any slice as a body, passes over it once, and gives what it was asked for or the first refusal.
#![tactic(auto)]

ghost use Rattle.std.specs.Prelude.{◌≡◌, ◌+◌, ◌^◌, ◌<◌, ◌≤◌, Bool, map, length, replicate, ◌==◌};
ghost use Rattle.format.specs.declared.Fault.TheVariants.{PastEnd};
ghost use Rattle.format.specs.Result.{ok, bind, pick, told};
ghost use Rattle.format.specs.Format.{each};
ghost use Rattle.format.specs.Message.{first, second};
ghost use Rattle.format.specs.Geography.{at_least, vertex, ring, holes_of, read_polygon};
ghost use Rattle.scan.specs.Shown.{shown, shown_next};
ghost use Rattle.show.specs.Cells.{float_cell};
ghost use Rattle.query.specs.Answers.{told_part};
ghost use Rattle.areas.specs.Answers.{ask_rings, ask_ring, ask_vertex, ask_ring_kept, ask_kept, told_bits, told_vertex, ring_in, bits_in};
ghost use Rattle.areas.specs.Passes.{head, shown_head, shown_rings, shown_survey};

use format::{Fault, Refusal};
use show::Cell;

// A ring: where it stands, its byte, and how many vertices it has.
#[derive(Drop)]
pub struct RingLayout {
    pub at: usize,
    pub mark: u8,
    pub vertices: usize,
}

// What one pass over a body finds: how many rings it has, where one of them stands, and where the last one ends.
#[derive(Drop)]
pub struct Seen {
    pub rings: usize,
    pub found: usize,
    pub end: usize,
}

const NEGATIVE: u64 = 0x8000_0000;

// The count at a place, of at least so many. One test finds the counts that are fine: a test of the sign alone would look at the first byte by itself, and
// the compiler would then read the four bytes one by one.
fn read_count(b: &[u8], at: usize, fewest: u64) -> Result<(u64, usize), Refusal>
    requires { fewest < 2 ^ 31 }
    ensures { result ≡ shown ((at_least fewest 0).read b.now at) }
{
    if !scan::fits(b, at, 4) {
        return Err(Refusal {
            fault: Fault::Short,
            place: at,
        });
    }
    let n = quick::four(b, at);
    if std::num::wrapping_sub_u64(n, fewest) < NEGATIVE - fewest {
        return Ok((n, at + 4));
    }
    if n < fewest {
        return Err(Refusal {
            fault: Fault::Geography,
            place: at,
        });
    }
    Err(Refusal {
        fault: Fault::Negative,
        place: at,
    })
}

// Past n vertices, which have no rule but that they fit. The first float that doesn't fit is found by how many do.
fn pass_vertices(b: &[u8], at: usize, n: u64) -> Result<usize, Refusal>
    requires { (at ≤ length b.now) × (n < 2 ^ 31) }
    ensures { result ≡ shown_next ((each second 0 (replicate n vertex)).read b.now at) }
{
    let room = b.len() - at;
    let size = n as usize * format::VERTEX;
    if room < size {
        return Err(Refusal {
            fault: Fault::Short,
            place: at + room / 8 * 8,
        });
    }
    Ok(at + size)
}

// Past a ring.
fn pass_ring(b: &[u8], at: usize) -> Result<usize, Refusal>
    ensures { result ≡ shown_next (ring.read b.now at) }
{
    if !scan::fits(b, at, 1) {
        return Err(Refusal {
            fault: Fault::Short,
            place: at,
        });
    }
    let (n, vertices) = read_count(b, at + 1, format::FEWEST_VERTICES)?;
    let kept = pass_vertices(b, vertices, n)?;
    scan::skip_fixed(b, kept, format::RING_KEPT)
}

// One of two places.
fn either(first: bool, a: usize, b: usize) -> usize
    ensures { result ≡ pick first a b }
{
    if first { a } else { b }
}

// Past n rings, and where the one that is sought stands: after those before it.
fn pass_rings(b: &[u8], from: usize, n: usize, sought: usize) -> Result<(usize, usize), Refusal>
    ensures { result ≡ shown_rings from sought ((each first 0 (replicate n ring)).read b.now from) }
{
    let mut at = from;
    let mut found = from;
    for i in 0..n {
        at = pass_ring(b, at)?;
        found = either(i < sought, at, found);
    }
    Ok((at, found))
}

// Whether the third byte is what so many rings want.
fn says_holes(holes: u8, rings: u64) -> bool
    ensures { result ≡ (holes == holes_of rings) }
{
    if rings < 2 { holes == 0 } else { holes == 1 }
}

// The three leading bytes and the ring count: how many rings there are, and where the first one stands.
fn read_head(b: &[u8]) -> Result<(u64, usize), Refusal>
    ensures { result ≡ shown_head (head.read b.now 0) }
{
    if b.len() < 3 {
        return Err(Refusal {
            fault: Fault::Short,
            place: b.len(),
        });
    }
    let holes = b[2];
    if 1 < holes {
        return Err(Refusal {
            fault: Fault::Geography,
            place: 2,
        });
    }
    let (n, first) = read_count(b, 3, 1)?;
    if !says_holes(holes, n) {
        return Err(Refusal {
            fault: Fault::Geography,
            place: 2,
        });
    }
    Ok((n, first))
}

// One pass over a body: where the ring that is sought stands, if there are so many, and what else is found on the way.
pub fn survey(b: &[u8], sought: usize) -> Result<Seen, Refusal>
    ensures { result ≡ shown_survey sought (read_polygon b.now) }
{
    let (n, first) = read_head(b)?;
    let rings = n as usize;
    let (end, found) = pass_rings(b, first, rings, sought)?;
    let last = scan::skip_fixed(b, end, format::AREA_KEPT)?;
    if last != b.len() {
        return Err(Refusal {
            fault: Fault::Extra,
            place: last,
        });
    }
    Ok(Seen { rings, found, end })
}

// Whether a body is an area, and how many rings it has.
pub fn rings(b: &[u8]) -> Result<usize, Refusal>
    ensures { told result ≡ ask_rings b.now }
{
    let s = survey(b, 0)?;
    Ok(s.rings)
}

// Ring n.
pub fn ring(b: &[u8], n: usize) -> Result<RingLayout, Refusal>
    ensures { told result ≡ ask_ring b.now n }
{
    let s = survey(b, n)?;
    if s.rings <= n {
        return Err(past_end());
    }
    Ok(ring_at(b, s.found))
}

fn past_end() -> Refusal
    ensures { (result.fault ≡ PastEnd) × (result.place ≡ 0) }
{
    Refusal {
        fault: Fault::PastEnd,
        place: 0,
    }
}

// The ring at a place.
fn ring_at(b: &[u8], at: usize) -> RingLayout
    requires { at + 5 ≤ length b.now }
    ensures { result ≡ ring_in b.now at }
{
    RingLayout {
        at,
        mark: b[at],
        vertices: quick::four(b, at + 1) as usize,
    }
}

// Where a ring's vertices start: after its byte and its vertex count.
const FIRST_VERTEX: usize = 5;

// The bits of vertex v of ring n.
pub fn vertex_bits(b: &[u8], n: usize, v: usize) -> Result<(u64, u64, u64), Refusal>
    ensures { told_bits result ≡ ask_vertex b.now n v }
{
    let r = ring(b, n)?;
    if r.vertices <= v {
        return Err(past_end());
    }
    Ok(bits_at(b, r.at + FIRST_VERTEX + format::VERTEX * v))
}

// The bits of the vertex at a place.
fn bits_at(b: &[u8], at: usize) -> (u64, u64, u64)
    requires { at + 24 ≤ length b.now }
    ensures { result ≡ bits_in b.now at }
{
    let x = quick::eight(b, at);
    let y = quick::eight(b, at + 8);
    let z = quick::eight(b, at + 16);
    (x, y, z)
}

// Vertex v of ring n, as three floats.
pub fn vertex(b: &[u8], n: usize, v: usize) -> Result<(Cell, Cell, Cell), Refusal>
    ensures { told_vertex result ≡ bind (ask_vertex b.now n v) (λ axes. ok (map float_cell axes)) }
{
    let (x, y, z) = vertex_bits(b, n, v)?;
    Ok((
        show::float_cell(x),
        show::float_cell(y),
        show::float_cell(z),
    ))
}

// The bytes that ring n keeps, as a part of the body.
pub fn ring_kept(b: &[u8], n: usize) -> Result<Option<(usize, usize)>, Refusal>
    ensures { told_part result ≡ ask_ring_kept b.now n }
{
    let r = ring(b, n)?;
    let start = r.at + FIRST_VERTEX + format::VERTEX * r.vertices;
    Ok(Some((start, format::RING_KEPT)))
}

// The bytes that the area keeps after its last ring, as a part of the body.
pub fn kept(b: &[u8]) -> Result<Option<(usize, usize)>, Refusal>
    ensures { told_part result ≡ ask_kept b.now }
{
    let s = survey(b, 0)?;
    Ok(Some((s.end, format::AREA_KEPT)))
}
