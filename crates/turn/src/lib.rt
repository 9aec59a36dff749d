// Turning the holes of an area in place: each ring after the first keeps its first vertex and has the others in reverse order.
#![tactic(auto)]

ghost use Rattle.std.specs.Prelude.{◌≡◌, ◌+◌, ◌*◌, ◌≤◌, length};
ghost use mathlib.Core.List.{List, ◌++◌, flat_map, reverse};
ghost use Rattle.format.specs.Result.{told};
ghost use Rattle.format.specs.Geography.{Ring, ring, turned_ring, turned_body};
ghost use Rattle.places.specs.Stands.{Stands};
ghost use Rattle.areas.specs.Answers.{ask_rings};
ghost use Rattle.turn.specs.Turning.{Reversed, Mended, TurnedRing, TurnedRings, SomeRing, SomeRings};

use format::Refusal;

// Turns the holes of a body, and answers how many rings it has. A body that is refused stays as it is.
pub fn turn_holes(b: &mut [u8]) -> Result<usize, Refusal>
    ensures { (told result ≡ ask_rings b.old) × (b.new ≡ turned_body b.old) }
{
    let s = areas::survey(b, 1)?;
    let rings = s.rings;
    turn_rings(b, s.found, rings - 1);
    Ok(rings)
}

// Turns n rings from a place on.
fn turn_rings(b: &mut [u8], from: usize, n: usize)
    requires { SomeRings b.old from n }
    ensures { TurnedRings b.old from n b.new }
{
    let mut at = from;
    for _ in 0..n {
        at = turn_ring(b, at);
    }
}

// Where a ring's second vertex stands: after its byte, its vertex count and its first vertex.
const SECOND_VERTEX: usize = 5 + format::VERTEX;

// Turns the ring at a place, and says where it ends.
fn turn_ring(b: &mut [u8], at: usize) -> usize
    requires { SomeRing b.old at }
    ensures { TurnedRing b.old at result b.new }
{
    let others = quick::four(b, at + 1) as usize - 1;
    let second = at + SECOND_VERTEX;
    reverse_vertices(b, second, others);
    second + format::VERTEX * others + format::RING_KEPT
}

// Puts n vertices from a place on into reverse order: all their bytes, and then those of each, which so come back into their own order.
fn reverse_vertices(b: &mut [u8], from: usize, n: usize)
    requires { from + 24 * n ≤ length b.old }
    ensures { Reversed b.old from n b.new }
{
    b[from..from + format::VERTEX * n].reverse();
    mend_vertices(b, from, n);
}

// Puts the bytes of each of n vertices from a place on into reverse order.
fn mend_vertices(b: &mut [u8], from: usize, n: usize)
    requires { from + 24 * n ≤ length b.old }
    ensures { Mended b.old from n b.new }
{
    for i in 0..n {
        let at = from + format::VERTEX * i;
        b[at..at + format::VERTEX].reverse();
    }
}
