// Values as the reader shows them, written again: one step for a shown value of any type. m is the message that it was read from: the bytes of text,
// varbinary and geographies stand there, and no other value looks at it.
#![tactic(auto)]

ghost use Rattle.std.specs.Prelude.{[]};
ghost use Rattle.show.specs.Cells.{type_of, value_of};
ghost use Rattle.steps.specs.Steps.{one_param, element, cell};
ghost use Rattle.write.specs.Shown.{Stepped};

use show::{Cell, Raw};
use write::{COLUMNS, Outcome, State};

// Writes a shown value as a parameter.
pub fn value_param(out: &mut [u8], st: State, m: &[u8], c: Cell) -> Outcome
    ensures { Stepped (one_param (type_of c) (value_of m.now c)) st [] out.old result out.new }
{
    let raw = show::raw_of(c);
    match raw {
        Raw::Bits(t, upper, lower) => call::fixed_param(out, st, t, upper, lower),
        Raw::Body(t, start, size) => {
            call::body_param(out, st, t, Some(show::body_at(m, start, size)))
        }
        Raw::Null(t) => call::body_param(out, st, t, None),
    }
}

// Writes a shown value into the open array.
pub fn value_element(out: &mut [u8], st: State, m: &[u8], c: Cell) -> Outcome
    ensures { Stepped (element (type_of c) (value_of m.now c)) st [] out.old result out.new }
{
    let raw = show::raw_of(c);
    match raw {
        Raw::Bits(t, upper, lower) => call::fixed_element(out, st, t, upper, lower),
        Raw::Body(t, start, size) => {
            call::body_element(out, st, t, Some(show::body_at(m, start, size)))
        }
        Raw::Null(t) => call::body_element(out, st, t, None),
    }
}

// Writes a shown value into the open row.
pub fn value_cell(out: &mut [u8], st: State, types: &[u8; COLUMNS], m: &[u8], c: Cell) -> Outcome
    ensures { Stepped (cell (type_of c) (value_of m.now c)) st types.now out.old result out.new }
{
    let raw = show::raw_of(c);
    match raw {
        Raw::Bits(t, upper, lower) => rows::fixed_cell(out, st, types, t, upper, lower),
        Raw::Body(t, start, size) => {
            rows::body_cell(out, st, types, t, Some(show::body_at(m, start, size)))
        }
        Raw::Null(t) => rows::body_cell(out, st, types, t, None),
    }
}
