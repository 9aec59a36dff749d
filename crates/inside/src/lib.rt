// The field list inside the body of a geography: how many fields it has, the n-th, the owner of a byte, and windows of the list.
// A message's own list has one entry for the body; this is the finer one, with places counted from the body's first byte.
#![tactic(auto)]

ghost use Rattle.std.specs.Prelude.{◌≡◌, length, replicate};
ghost use Rattle.format.specs.Result.{ok, bind, told};
ghost use Rattle.format.specs.Format.{each};
ghost use Rattle.format.specs.Message.{first, second};
ghost use Rattle.format.specs.Geography.{vertex, ring, polygon, fields_inside};
ghost use Rattle.tally.specs.Task.{doing};
ghost use Rattle.tour.specs.Tour.{task_after, out_after};
ghost use Rattle.tally.specs.Walks.{index_of, Walked};
ghost use Rattle.fields.specs.Questions.{nth, owner_of, window_count, window_out};
ghost use Rattle.fields.specs.Told.{told_listed, told_owned};

use fields::Entry;
use format::Refusal;
use tally::{Indices, Task, Tour};

// The floats of a vertex: its x, y and z.
const AXES: usize = 3;

// How many fields a body has.
pub fn count(b: &[u8]) -> Result<usize, Refusal>
    ensures { told result ≡ bind (fields_inside b.now) (λ es. ok (length es)) }
{
    let mut six: [u64; 6] = [0; 6];
    let asked = tour::list_task(0, 0);
    let toured = visit_inside(b, &mut six, asked);
    fields::count_met(toured)
}

// The entry of a number in the list, from 0 on.
pub fn field(b: &[u8], n: usize) -> Result<Entry, Refusal>
    ensures { told_listed result ≡ bind (fields_inside b.now) (λ es. nth es n) }
{
    let mut six: [u64; 6] = [0; 6];
    let asked = tour::list_task(n, 0);
    let toured = visit_inside(b, &mut six, asked);
    fields::field_met(toured, n, &six)
}

// The entry that owns a byte, and its number in the list.
pub fn owner(b: &[u8], offset: usize) -> Result<(Entry, usize), Refusal>
    ensures { told_owned result ≡ bind (fields_inside b.now) (λ es. owner_of es offset) }
{
    let mut six: [u64; 6] = [0; 6];
    let asked = tour::list_task(0, offset);
    let toured = visit_inside(b, &mut six, asked);
    fields::owner_met(toured, &six)
}

// The entries from a number on, six numbers for each, as many whole entries as fit a lent list; how many were written.
pub fn window(b: &[u8], first: usize, out: &mut [u64]) -> Result<usize, Refusal>
    ensures { (told result ≡ bind (fields_inside b.now) (λ es. window_count es first (length out.old))) × (out.new ≡ window_out (fields_inside b.now) first out.old) }
{
    let asked = tour::list_task(first, 0);
    let toured = visit_inside(b, out, asked);
    fields::window_met(toured, first)
}

// The task over all fields of a body, in wire order.
pub fn visit_inside(b: &[u8], out: &mut [u64], task: Task) -> Result<Task, Refusal>
    ensures { (told result ≡ task_after (fields_inside b.now) (doing task out.old)) × (out.new ≡ out_after (fields_inside b.now) (doing task out.old)) }
{
    areas::rings(b)?;
    let start = Tour { at: 0, task };
    let ix = Indices { i: 0, j: 0, k: 0 };
    let tour = walk_polygon(b, out, start, ix);
    let done = tour.task;
    Ok(done)
}

// A body that is accepted: its three leading bytes, its rings, and its kept bytes.
fn walk_polygon(b: &[u8], out: &mut [u64], tour: Tour, ix: Indices) -> Tour
    ensures { Walked polygon b.now (index_of ix) tour out.old result out.new }
{
    let internal = tour::walk_fixed(b, out, tour, 1, 60, ix);
    let holes = tour::walk_fixed(b, out, internal, 1, 61, ix);
    let count = tour::walk_fixed(b, out, holes, 1, 62, ix);
    let n = scan::number_at(b, count.at, 4) as usize;
    let rings = tour::walk_fixed(b, out, count, 4, 63, ix);
    let kept = walk_rings(b, out, rings, n, ix);
    tour::walk_fixed(b, out, kept, format::AREA_KEPT, 68, ix)
}

// N rings.
fn walk_rings(s: &[u8], out: &mut [u64], from: Tour, n: usize, ix: Indices) -> Tour
    ensures { Walked (each first 0 (replicate n ring)) s.now (index_of ix) from out.old result out.new }
{
    let mut tour = from;
    for i in 0..n {
        let at = Indices {
            i,
            j: ix.j,
            k: ix.k,
        };
        tour = walk_ring(s, out, tour, at);
    }
    tour
}

// A ring: its byte, its vertices, and its kept bytes.
fn walk_ring(s: &[u8], out: &mut [u64], tour: Tour, ix: Indices) -> Tour
    ensures { Walked ring s.now (index_of ix) tour out.old result out.new }
{
    let count = tour::walk_fixed(s, out, tour, 1, 64, ix);
    let n = scan::number_at(s, count.at, 4) as usize;
    let vertices = tour::walk_fixed(s, out, count, 4, 65, ix);
    let kept = walk_vertices(s, out, vertices, n, ix);
    tour::walk_fixed(s, out, kept, format::RING_KEPT, 67, ix)
}

// N vertices.
fn walk_vertices(s: &[u8], out: &mut [u64], from: Tour, n: usize, ix: Indices) -> Tour
    ensures { Walked (each second 0 (replicate n vertex)) s.now (index_of ix) from out.old result out.new }
{
    let mut tour = from;
    for j in 0..n {
        let at = Indices {
            i: ix.i,
            j,
            k: ix.k,
        };
        tour = walk_vertex(s, out, tour, at);
    }
    tour
}

// A vertex: a float for each axis.
fn walk_vertex(s: &[u8], out: &mut [u64], from: Tour, ix: Indices) -> Tour
    ensures { Walked vertex s.now (index_of ix) from out.old result out.new }
{
    let mut tour = from;
    for k in 0..AXES {
        let axis = Indices {
            i: ix.i,
            j: ix.j,
            k,
        };
        tour = tour::walk_fixed(s, out, tour, 8, 66, axis);
    }
    tour
}
