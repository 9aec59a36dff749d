// Shortcut cards: a column kept by its position, type and name, to be opened again without a search. A call accepts the message once; a refusal is
// the message's own, then the card's form (12), a table past the end (11), no such column (9), a card that doesn't fit (10), a name too long (3), no room (8).
// Why a card doesn't fit is told by a call of its own, which refuses none for that.
#![tactic(auto)]

ghost use Rattle.std.specs.Prelude.{◌≡◌, ◌&&◌, ◌++◌, ◌+◌, ◌≤◌, length, take, drop, eqb};
ghost use Rattle.std.proofs.Math.Option.{some};
ghost use Rattle.format.specs.declared.Fault.TheVariants.{CardForm};
ghost use Rattle.format.specs.Result.{ok, bind, told};
ghost use Rattle.format.specs.Message.{read_message, response_layout};
ghost use Rattle.scan.specs.Shown.{refusal};
ghost use Rattle.query.specs.Answers.{of_table, same};
ghost use Rattle.cards.specs.Card.{a_card, holds, kind_of, name_byte, wrong_from, card_rest, sized, card_form, rest_bytes, front_bytes, bytes_in, card_size, most_size, position_place, type_place, name_place, rest_size, most_name};
ghost use Rattle.cards.specs.Answers.{opened, ask_open, short_named, room_for, ask_made, Made};
ghost use Rattle.cards.specs.Reasons.{stands_at, fit_of, ask_fit, told_place, fit_told, told_fit};
ghost use Rattle.cards.specs.Shown.{said, shown_wrong, shown_form, own_before, Laid};

mod kind;

use format::{Fault, Refusal};
use kind::Kind;
use query::{ColumnLayout, TableLayout};

const NEAR: Kind = Kind {
    number: 1,
    width: 1,
    low: 0,
    high: 63,
};

const FAR: Kind = Kind {
    number: 2,
    width: 2,
    low: 64,
    high: 1023,
};

const MOST_NAME: usize = 32;

// Where the position stands; and from the type on, the type, the name's length and the name.
const POSITION: usize = 1;

const TYPE: usize = 0;

const LENGTH: usize = 1;

const NAME: usize = 2;

const REST: usize = NAME + MOST_NAME;

// The most bytes that a card has.
pub const MOST_SIZE: usize = POSITION + FAR.width + REST;

// The kind of a position's card.
fn kind_of(position: usize) -> Kind
    ensures { result ≡ kind_of position }
{
    if position <= NEAR.high { NEAR } else { FAR }
}

// How many bytes a card of a kind has.
fn size_of(kind: Kind) -> usize
    ensures { result ≡ card_size kind }
{
    POSITION + kind.width + REST
}

// How many bytes the card of a column at a position has.
pub fn size_at(position: usize) -> usize
    ensures { (result ≡ card_size (kind_of position)) × (result ≤ most_size) }
{
    size_of(kind_of(position))
}

// Where the name stands in the card of a column at a position.
fn name_at(position: usize) -> usize
    ensures { result ≡ name_place (kind_of position) }
{
    size_at(position) - MOST_NAME
}

// ---- The form of a card.

fn wrong(place: usize) -> Refusal
    ensures { result ≡ refusal CardForm place }
{
    Refusal {
        fault: Fault::CardForm,
        place,
    }
}

// Whether a kind holds a position.
fn is_held(kind: Kind, position: usize) -> bool
    ensures { result ≡ holds kind position }
{
    if position < kind.low {
        return false;
    }
    position <= kind.high
}

// Whether byte k from the name's start is right: low in the name, 0 after it.
fn name_byte(size: usize, k: usize, b: u8) -> bool
    ensures { result ≡ name_byte size k b }
{
    if k < size {
        b <= format::HIGHEST_IN_NAME
    } else {
        b == 0
    }
}

// The first byte of a name and the zeros after it that is wrong.
fn wrong_byte(name: &[u8], size: usize) -> Option<usize>
    ensures { result ≡ shown_wrong (wrong_from size 0 name.now) }
{
    for (k, b) in name.iter().enumerate() {
        if !name_byte(size, k, *b) {
            return Some(k);
        }
    }
    None
}

// What the bytes from the type on say, which stands at a place, of a card that has its size and its position.
fn read_rest(rest: &[u8], at: usize, position: usize) -> Result<(usize, u8, usize), Refusal>
    requires { (length rest.now ≡ rest_size) × (at ≤ position_place + 8) }
    ensures { result ≡ shown_form (card_rest at position rest.now) }
{
    let wire_type = rest[TYPE];
    if !scan::is_column(wire_type) {
        return Err(wrong(at));
    }
    let size = rest[LENGTH] as usize;
    if MOST_NAME < size {
        return Err(wrong(at + LENGTH));
    }
    match wrong_byte(&rest[NAME..], size) {
        Some(k) => Err(wrong(at + NAME + k)),
        None => Ok((position, wire_type, size)),
    }
}

// What a card of a kind says: its size decides, then its position, then the rest.
fn read_sized(card: &[u8], kind: Kind) -> Result<(usize, u8, usize), Refusal>
    ensures { result ≡ shown_form (sized kind card.now) }
{
    let size = size_of(kind);
    if card.len() != size {
        return Err(wrong(card.len().min(size)));
    }
    let position = scan::number_at(card, POSITION, kind.width) as usize;
    if !is_held(kind, position) {
        return Err(wrong(POSITION));
    }
    let at = POSITION + kind.width;
    read_rest(&card[at..], at, position)
}

// What a card says, or the first byte that breaks its form.
fn read_card(card: &[u8]) -> Result<(usize, u8, usize), Refusal>
    ensures { result ≡ shown_form (card_form card.now) }
{
    let first = card.first().copied().unwrap_or(0);
    if first == NEAR.number {
        return read_sized(card, NEAR);
    }
    if first == FAR.number {
        return read_sized(card, FAR);
    }
    Err(wrong(0))
}

// ---- Opening.

const STALE: Refusal = Refusal {
    fault: Fault::Stale,
    place: 0,
};

// Whether two parts have the same bytes: compared as in the search for a name, from the last to the first.
fn same_bytes(a: &[u8], b: &[u8]) -> bool
    ensures { result ≡ same a.now b.now }
{
    if a.len() != b.len() {
        return false;
    }
    for i in (0..a.len()).rev() {
        if a[i] != b[i] {
            return false;
        }
    }
    true
}

// Whether a column has this type and name.
fn is_alike(m: &[u8], column: ColumnLayout, wire_type: u8, name: &[u8]) -> bool
    requires { column.name + column.name_length ≤ length m.now }
    ensures { result ≡ (eqb column.wire_type wire_type && same (take column.name_length (drop column.name m.now)) name.now) }
{
    if column.wire_type != wire_type {
        return false;
    }
    let start = column.name;
    let end = start + column.name_length;
    same_bytes(&m[start..end], name)
}

// What a card says.
#[derive(Clone, Copy)]
struct Card<'a> {
    position: usize,
    wire_type: u8,
    name: &'a [u8],
}

// Opens a card in a response with its round trip or without.
fn open_at(m: &[u8], timed: bool, t: usize, card: Card) -> Result<usize, Refusal>
    ensures { told result ≡ of_table timed m.now t (λ at b. opened b (said card.entry)) }
{
    let column = query::find_placed(m, timed, t, card.position)?.ok_or(STALE)?;
    if is_alike(m, column, card.wire_type, card.name) {
        Ok(card.position)
    } else {
        Err(STALE)
    }
}

// A refusal, or the message's own, which comes before it.
fn after_message(m: &[u8], timed: bool, r: Refusal) -> Refusal
    ensures { result ≡ own_before (read_message (response_layout timed) m.now) r }
{
    match message::accept_layout(format::response_layout(timed), m) {
        Err(own) => own,
        Ok(()) => r,
    }
}

// The column of table t that a card stands for, by its position, if it still has the card's type and name.
pub fn open_card(m: &[u8], t: usize, card: &[u8]) -> Result<usize, Refusal>
    ensures { told result ≡ ask_open m.now t card.now }
{
    match read_card(card) {
        Err(r) => Err(after_message(m, true, r)),
        Ok((position, wire_type, size)) => {
            let start = name_at(position);
            let end = start + size;
            let name = &card[start..end];
            let said = Card {
                position,
                wire_type,
                name,
            };
            open_at(m, true, t, said)
        }
    }
}

// ---- How a card fits, and if it doesn't, why.

// What isn't as a card says: there is no column at its position, or that one has another type, or another name. The first of these is told.
#[derive(Drop)]
pub enum Reason {
    Past,
    OtherType,
    OtherName,
}

// That a card fits a table; or why not, and the first position at which a column of its type and name stands.
#[derive(Drop)]
pub enum Fit {
    Fits,
    Stale(Reason, Option<usize>),
}

// The first column of a table that has this type and name.
fn first_alike(m: &[u8], layout: TableLayout, wire_type: u8, name: &[u8]) -> Option<usize>
    requires { Laid m.now layout }
    ensures { (w : Laid m.now layout) → told_place result ≡ stands_at w.tab wire_type name.now }
{
    let mut at = layout.names;
    for i in 0..layout.columns {
        let (start, end) = scan::read_span(m, at, format::UNLIMITED).ok()?;
        if scan::byte_at(m, layout.types + i) == wire_type && same_bytes(&m[start..end], name) {
            return Some(i);
        }
        at = end;
    }
    None
}

// That a card doesn't fit for a reason, with where its type and name stand.
fn stale(m: &[u8], layout: TableLayout, reason: Reason, card: Card) -> Fit
    requires { Laid m.now layout }
    ensures { (w : Laid m.now layout) → fit_told result ≡ some (reason, stands_at w.tab card.entry.wire_type card.entry.name.now) }
{
    Fit::Stale(reason, first_alike(m, layout, card.wire_type, card.name))
}

// How a card fits a table.
fn fit_in(m: &[u8], layout: TableLayout, card: Card) -> Fit
    requires { Laid m.now layout }
    ensures { (w : Laid m.now layout) → fit_told result ≡ fit_of w.tab (said card.entry) }
{
    if layout.columns <= card.position {
        return stale(m, layout, Reason::Past, card);
    }
    let column = query::column_at(m, layout.types, layout.names, card.position);
    if is_alike(m, column, card.wire_type, card.name) {
        return Fit::Fits;
    }
    if column.wire_type == card.wire_type {
        return stale(m, layout, Reason::OtherName, card);
    }
    stale(m, layout, Reason::OtherType, card)
}

// How it fits table t of a response with its round trip or without.
fn fit_at(m: &[u8], timed: bool, t: usize, card: Card) -> Result<Fit, Refusal>
    ensures { told_fit result ≡ of_table timed m.now t (λ at b. ok (fit_of b (said card.entry))) }
{
    let layout = query::find_table(m, timed, t)?;
    Ok(fit_in(m, layout, card))
}

// Whether a card fits table t, exactly if opening it there would open a column; and if not why, and where a column of its type and name stands now.
pub fn card_fit(m: &[u8], t: usize, card: &[u8]) -> Result<Fit, Refusal>
    ensures { told_fit result ≡ ask_fit m.now t card.now }
{
    match read_card(card) {
        Err(r) => Err(after_message(m, true, r)),
        Ok((position, wire_type, size)) => {
            let start = name_at(position);
            let end = start + size;
            let name = &card[start..end];
            let said = Card {
                position,
                wire_type,
                name,
            };
            fit_at(m, true, t, said)
        }
    }
}

// ---- Making.

// How many bytes the length of a name has in a message.
const LENGTH_SIZE: usize = 4;

// Writes a card from its type on, to the start of a buffer that has room for it.
fn write_rest(out: &mut [u8], wire_type: u8, name: &[u8])
    requires { (rest_size ≤ length out.old) × (length name.now ≤ most_name) }
    ensures { out.new ≡ rest_bytes (a_card 0 wire_type name.now) ++ drop rest_size out.old }
{
    out[TYPE] = wire_type;
    out[LENGTH] = name.len() as u8;
    // the room of the longest name, whose size is fixed, and then the name by `put`: for a size that isn't known the compiler would ask for memset and memmove
    out[NAME..REST].fill(0);
    put::bytes_at(out, NAME, name);
}

// Writes the kind of a card and its position, to the start of a buffer that has room for them.
fn write_front(out: &mut [u8], kind: Kind, position: usize)
    requires { type_place kind ≤ length out.old }
    ensures { out.new ≡ front_bytes kind position ++ drop (type_place kind) out.old }
{
    put::number_at(out, POSITION, position as u64, kind.width);
    out[0] = kind.number;
}

// Writes a card of a kind to the start of a buffer that has room for it.
fn write_card(out: &mut [u8], kind: Kind, card: Card)
    requires { (card_size kind ≤ length out.old) × (length card.name.now ≤ most_name) }
    ensures { out.new ≡ bytes_in kind (said card.entry) ++ drop (card_size kind) out.old }
{
    write_front(out, kind, card.position);
    write_rest(&mut out[POSITION + kind.width..], card.wire_type, card.name);
}

// Makes the card of a column whose name's length stands at a place, if the name is short enough and there is room.
fn put_card(out: &mut [u8], place: usize, card: Card) -> Result<usize, Refusal>
    ensures { Made (bind (short_named place (said card.entry)) (room_for (length out.old))) result out.old out.new }
{
    if MOST_NAME < card.name.len() {
        return Err(Refusal {
            fault: Fault::Limit,
            place,
        });
    }
    let kind = kind_of(card.position);
    let size = size_of(kind);
    if out.len() < size {
        return Err(Refusal {
            fault: Fault::Output,
            place: size,
        });
    }
    write_card(out, kind, card);
    Ok(card.position)
}

// Makes the card of the first column of a name in table t, at the start of the buffer, and says the column's position.
pub fn make_card(m: &[u8], t: usize, name: &[u8], out: &mut [u8]) -> Result<usize, Refusal>
    ensures { Made (ask_made m.now t name.now (length out.old)) result out.old out.new }
{
    let (position, column) = query::named_column(m, t, name)?;
    let card = Card {
        position,
        wire_type: column.wire_type,
        name,
    };
    put_card(out, column.name - LENGTH_SIZE, card)
}
