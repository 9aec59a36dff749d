// Past things that stand in an accepted message, by their lengths alone: no text is looked at again, and no rule is asked twice.
// What is passed stands there; for a place where nothing does, some place is answered.
#![tactic(auto)]

ghost use Rattle.std.specs.Prelude.{Bool, List, map, ℕ, replicate};
ghost use Rattle.std.proofs.Math.Option.{none};
ghost use Rattle.format.specs.Format.{number, each, present, Verdict};
ghost use Rattle.format.specs.Value.{string, value};
ghost use Rattle.format.specs.Message.{first, second, third, items, argument, param, trip, after_flags, head};
ghost use Rattle.pass.specs.Passes.{Passes};

// Past n bytes.
fn pass_fixed(s: &[u8], at: usize, n: usize) -> usize
    ensures { (field : ℕ) → Passes (number n field) s.now at result }
{
    if !scan::fits(s, at, n) {
        return at;
    }
    at + n
}

// Past a length, and as many bytes as it says.
fn pass_body(s: &[u8], at: usize) -> usize
    ensures { (nullable : Bool) (rule : List ℕ → Verdict) (l b : ℕ) → Passes (string nullable rule l b) s.now at result }
{
    let n = scan::number_at(s, at, 4);
    let start = pass_fixed(s, at, 4);
    if n == format::NULL_LENGTH {
        return start;
    }
    pass_fixed(s, start, n as usize)
}

// Past a value of a wire type.
pub fn pass_value(s: &[u8], at: usize, t: u8) -> usize
    ensures { (l b : ℕ) → Passes (value l b t) s.now at result }
{
    match t {
        format::STRING | format::VARBINARY | format::GEOGRAPHY => pass_body(s, at),
        _ => pass_fixed(s, at, scan::width_of(t)),
    }
}

// Past a cell. One of a fixed size is passed without a call, as a row may have a thousand of them.
fn pass_cell(s: &[u8], at: usize, t: u8) -> usize
    ensures { (l b : ℕ) → Passes (value l b t) s.now at result }
{
    let width = scan::width_of(t);
    if width == 0 {
        return pass_value(s, at, t);
    }
    pass_fixed(s, at, width)
}

// Past cells of a row, one for each of some columns' types.
pub fn pass_cells(s: &[u8], from: usize, types: &[u8]) -> usize
    ensures { Passes (each third 0 (map (value 50 51) types.now)) s.now from result }
{
    let mut at = from;
    for &t in types {
        at = pass_cell(s, at, t);
    }
    at
}

// Past n elements of an array.
pub fn pass_values(s: &[u8], from: usize, t: u8, n: usize) -> usize
    ensures { Passes (each second 0 (replicate n (value 27 28 t))) s.now from result }
{
    let mut at = from;
    for _ in 0..n {
        at = pass_value(s, at, t);
    }
    at
}

// Past an array's count and elements.
fn pass_items(s: &[u8], at: usize, t: u8) -> usize
    ensures { Passes (items t) s.now at result }
{
    if t == format::TINYINT {
        return pass_body(s, at);
    }
    let n = scan::number_at(s, at, 2);
    let elements = pass_fixed(s, at, 2);
    pass_values(s, elements, t, n as usize)
}

// Past what stands after a parameter's type.
fn pass_argument(s: &[u8], at: usize, t: u8) -> usize
    ensures { Passes (argument t) s.now at result }
{
    if t == format::NULL {
        return at;
    }
    if t == format::ARRAY {
        let element = scan::byte_at(s, at);
        let array = pass_fixed(s, at, 1);
        return pass_items(s, array, element);
    }
    pass_value(s, at, t)
}

// Past a parameter.
fn pass_param(s: &[u8], at: usize) -> usize
    ensures { Passes param s.now at result }
{
    let t = scan::byte_at(s, at);
    let value = pass_fixed(s, at, 1);
    pass_argument(s, value, t)
}

// Past n parameters.
pub fn pass_params(s: &[u8], from: usize, n: usize) -> usize
    ensures { Passes (each first 0 (replicate n param)) s.now from result }
{
    let mut at = from;
    for _ in 0..n {
        at = pass_param(s, at);
    }
    at
}

// Past a body that is there or not.
fn pass_optional(s: &[u8], at: usize, there: bool) -> usize
    ensures { (nullable : Bool) (rule : List ℕ → Verdict) (l b : ℕ) → Passes (present there none (string nullable rule l b)) s.now at result }
{
    if !there {
        return at;
    }
    pass_body(s, at)
}

// Past a response's round trip, if it has one.
fn pass_trip(s: &[u8], at: usize, timed: bool) -> usize
    ensures { Passes (trip timed) s.now at result }
{
    if !timed {
        return at;
    }
    pass_fixed(s, at, 4)
}

// Past a response's head from its status on.
fn pass_flagged(s: &[u8], at: usize, timed: bool, flags: u8) -> usize
    ensures { Passes (after_flags timed flags) s.now at result }
{
    let string = pass_fixed(s, at, 1);
    let application = pass_optional(s, string, scan::has_flag(flags, format::STATUS_STRING));
    let words = pass_fixed(s, application, 1);
    let trip = pass_optional(s, words, scan::has_flag(flags, format::APP_STRING));
    let exception = pass_trip(s, trip, timed);
    pass_optional(s, exception, scan::has_flag(flags, format::EXCEPTION))
}

// Past all that stands in a response before the count of its tables; timed says whether it has its round trip.
pub fn pass_head(s: &[u8], at: usize, timed: bool) -> usize
    ensures { Passes (head timed) s.now at result }
{
    let flagged = pass_fixed(s, at, 8);
    let flags = scan::byte_at(s, flagged);
    let status = pass_fixed(s, flagged, 1);
    pass_flagged(s, status, timed, flags)
}
