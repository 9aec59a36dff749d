// Values of the wire types, shown: signed numbers, floats, decimals by their halves, text and bytes by their place.
#![tactic(auto)]

ghost use Rattle.std.specs.Prelude.{◌≡◌, true, ◌+◌, min};
ghost use Rattle.std.specs.Float.{binary64};
ghost use Rattle.std.specs.Float.Ieee.{to_bits};
ghost use Rattle.format.specs.declared.Fault.TheVariants.{Decimal, Point};
ghost use Rattle.format.specs.Format.{number, ruled};
ghost use Rattle.format.specs.Value.{string, anything, decimal_fine, point_fine};
ghost use Rattle.show.specs.Cells.{float_cell, plain_cell, decimal_cell, point_cell, part_cell, null_cell, body_cell, cell_of, unruled, shown_as, raw_of};
ghost use Rattle.show.specs.Parts.{IsPart};

use format::{Fault, Refusal};
use scan::Body;

// A value of a wire type. Text, varbinary and geography are where their bytes start and how many they are, or null. Nulls have cases of their own, but
// for decimals: a null one is shown by its halves.
#[derive(Drop)]
pub enum Cell {
    Tinyint(i8),
    Smallint(i16),
    Integer(i32),
    Bigint(i64),
    Timestamp(i64),
    Float(f64),
    // the bits of a NaN
    FloatBits(u64),
    // the upper and the lower 64 bits
    Decimal(i64, u64),
    // longitude and latitude
    Point(f64, f64),
    NullPoint,
    Text(usize, usize),
    NullText,
    Binary(usize, usize),
    NullBinary,
    Geography(usize, usize),
    NullGeography,
}

// A float by its bits.
pub fn float_cell(bits: u64) -> Cell
    ensures { result ≡ float_cell bits }
{
    if bits % 0x8000_0000_0000_0000 <= 0x7ff0_0000_0000_0000 {
        Cell::Float(f64::from_bits(bits))
    } else {
        Cell::FloatBits(bits)
    }
}

// A value of at most 8 bytes, by its type and its number.
fn plain_cell(t: u8, n: u64) -> Cell
    ensures { result ≡ plain_cell t n }
{
    match t {
        format::TINYINT => Cell::Tinyint(scan::signed8(n)),
        format::SMALLINT => Cell::Smallint(scan::signed16(n)),
        format::INTEGER => Cell::Integer(scan::signed32(n)),
        format::FLOAT => float_cell(n),
        format::TIMESTAMP => Cell::Timestamp(scan::signed64(n)),
        _ => Cell::Bigint(scan::signed64(n)),
    }
}

// A value of so many bytes; of 8, if they are more.
fn read_plain(s: &[u8], at: usize, t: u8, width: usize) -> Result<(Cell, usize), Refusal>
    ensures { result ≡ shown_as (plain_cell t) ((number (min width 8) 0).read s.now at) }
{
    let (n, next) = scan::read_number(s, at, width)?;
    Ok((plain_cell(t, n), next))
}

fn read_decimal(s: &[u8], at: usize) -> Result<(Cell, usize), Refusal>
    ensures { result ≡ shown_as decimal_cell ((ruled decimal_fine Decimal (number 16 0)).read s.now at) }
{
    let (high, lower, next) = scan::read_halves(s, at)?;
    let upper = scan::signed64(high);
    if !scan::decimal_fine(upper, lower) {
        return Err(Refusal {
            fault: Fault::Decimal,
            place: at,
        });
    }
    Ok((Cell::Decimal(upper, lower), next))
}

fn read_point(s: &[u8], at: usize) -> Result<(Cell, usize), Refusal>
    ensures { result ≡ shown_as point_cell ((ruled point_fine Point (number 16 0)).read s.now at) }
{
    let (longitude, latitude, next) = scan::read_halves(s, at)?;
    if !scan::point_fine(longitude, latitude) {
        return Err(Refusal {
            fault: Fault::Point,
            place: at,
        });
    }
    if scan::is_null_point(longitude, latitude) {
        return Ok((Cell::NullPoint, next));
    }
    Ok((
        Cell::Point(f64::from_bits(longitude), f64::from_bits(latitude)),
        next,
    ))
}

fn part_cell(t: u8, start: usize, size: usize) -> Cell
    ensures { result ≡ part_cell t start size }
{
    match t {
        format::STRING => Cell::Text(start, size),
        format::VARBINARY => Cell::Binary(start, size),
        _ => Cell::Geography(start, size),
    }
}

fn null_cell(t: u8) -> Cell
    ensures { result ≡ null_cell t }
{
    match t {
        format::STRING => Cell::NullText,
        format::VARBINARY => Cell::NullBinary,
        _ => Cell::NullGeography,
    }
}

// A counted value by its length alone, whatever its bytes.
fn read_counted(s: &[u8], at: usize, t: u8) -> Result<(Cell, usize), Refusal>
    ensures { result ≡ shown_as (body_cell t at) ((string true anything 0 0).read s.now at) }
{
    match scan::read_body(s, at, true, format::MOST_BYTES)? {
        Body::Is(start, end) => Ok((part_cell(t, start, end - start), end)),
        Body::Null(next) => Ok((null_cell(t), next)),
    }
}

// The value of a wire type that stands at a place of an accepted message, whose texts are not looked at again; of a type that has no values, no bytes.
pub fn read_value(s: &[u8], at: usize, t: u8) -> Result<(Cell, usize), Refusal>
    ensures { result ≡ shown_as (cell_of t at) ((unruled t).read s.now at) }
{
    match t {
        format::TINYINT => read_plain(s, at, t, 1),
        format::SMALLINT => read_plain(s, at, t, 2),
        format::INTEGER => read_plain(s, at, t, 4),
        format::BIGINT | format::FLOAT | format::TIMESTAMP => read_plain(s, at, t, 8),
        format::STRING | format::VARBINARY | format::GEOGRAPHY => read_counted(s, at, t),
        format::DECIMAL => read_decimal(s, at),
        format::POINT => read_point(s, at),
        _ => read_plain(s, at, t, 0),
    }
}

// A shown value as the wire has it, its wire type first: the upper and lower 64 bits of one of a fixed size; where the bytes of text, varbinary
// or a geography start and how many they are; or that it is null.
#[derive(Drop)]
pub enum Raw {
    Bits(u8, u64, u64),
    Body(u8, usize, usize),
    Null(u8),
}

// What a shown value is on the wire.
pub fn raw_of(c: Cell) -> Raw
    ensures { result ≡ raw_of c }
{
    match c {
        Cell::Tinyint(z) => Raw::Bits(format::TINYINT, 0, scan::unsigned8(z)),
        Cell::Smallint(z) => Raw::Bits(format::SMALLINT, 0, scan::unsigned16(z)),
        Cell::Integer(z) => Raw::Bits(format::INTEGER, 0, scan::unsigned32(z)),
        Cell::Bigint(z) => Raw::Bits(format::BIGINT, 0, scan::unsigned64(z)),
        Cell::Timestamp(z) => Raw::Bits(format::TIMESTAMP, 0, scan::unsigned64(z)),
        Cell::Float(x) => Raw::Bits(format::FLOAT, 0, float_bits(x)),
        Cell::FloatBits(bits) => Raw::Bits(format::FLOAT, 0, bits),
        Cell::Decimal(upper, lower) => Raw::Bits(format::DECIMAL, scan::unsigned64(upper), lower),
        Cell::Point(x, y) => Raw::Bits(format::POINT, float_bits(x), float_bits(y)),
        Cell::NullPoint => Raw::Bits(format::POINT, format::DEGREES_360, format::DEGREES_360),
        Cell::Text(start, size) => Raw::Body(format::STRING, start, size),
        Cell::NullText => Raw::Null(format::STRING),
        Cell::Binary(start, size) => Raw::Body(format::VARBINARY, start, size),
        Cell::NullBinary => Raw::Null(format::VARBINARY),
        Cell::Geography(start, size) => Raw::Body(format::GEOGRAPHY, start, size),
        Cell::NullGeography => Raw::Null(format::GEOGRAPHY),
    }
}

// The bits of a float; a NaN has the quiet pattern.
fn float_bits(x: f64) -> u64
    ensures { result ≡ to_bits binary64 x }
{
    if x == x {
        f64::to_bits(x)
    } else {
        0x7ff8_0000_0000_0000
    }
}

// The bytes of a text or binary value by where they start and how many they are, as that part of the message, or as many of them as there are.
pub fn body_at(m: &[u8], start: usize, size: usize) -> &[u8]
    ensures { IsPart m.entry start size result }
{
    let from = least(start, m.len());
    let end = from + least(size, m.len() - from);
    &m[from..end]
}

fn least(a: usize, b: usize) -> usize
    ensures { result ≡ min a b }
{
    if a < b { a } else { b }
}
