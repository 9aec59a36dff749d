// The part of the C interface that reads messages: numbers and slices of numbers only. `writeexports` has the part that writes them, `areaexports`
// the one for areas; include/chaloenpik.h declares all of it.
// Each function answers one number: what was found, or the refusal's number and place (numbers/specs/Packed.antt).
#![tactic(auto)]

ghost use Rattle.std.specs.Prelude.{true, ◌≡◌, length};
ghost use Rattle.format.specs.Result.{ok, bind};
ghost use Rattle.format.specs.Message.{read_message, kind_layout};
ghost use Rattle.tour.specs.Tour.{fields_of};
ghost use Rattle.fields.specs.Questions.{owner_of, window_count, window_out};
ghost use Rattle.query.specs.Answers.{of_table, layout_of, column_of, first_named};
ghost use Rattle.places.specs.Places.{tables_of};
ghost use Rattle.cards.specs.Answers.{ask_made, ask_open, written};
ghost use Rattle.cards.specs.Reasons.{ask_fit};
ghost use Rattle.query.specs.Answers.{ask_column_name, ask_cell, ask_cell_place, ask_parameter, ask_element};
ghost use Rattle.numbers.specs.Listed.{lent, cell_numbers, given_numbers, part_numbers, fit_numbers};
ghost use Rattle.numbers.specs.Records.{login_request_numbers, login_response_numbers, invocation_numbers, response_numbers};
ghost use Rattle.record.specs.Records.{shown_login_request, shown_login_response, shown_invocation, shown_response};
ghost use Rattle.numbers.specs.Packed.{packed, nothing, itself, number_in, rows_of, columns_of, type_of};

// Whether a message of a kind is accepted.
#[unsafe(no_mangle)]
pub extern "C" fn chaloenpik_accept(kind: u8, m: &[u8]) -> u64
    ensures { result ≡ packed nothing (read_message (kind_layout kind) m.now) }
{
    match message::accept(kind, m) {
        Ok(()) => 0,
        Err(refusal) => numbers::refused(refusal),
    }
}

// How many fields a message of a kind has.
#[unsafe(no_mangle)]
pub extern "C" fn chaloenpik_field_count(kind: u8, m: &[u8]) -> u64
    ensures { result ≡ packed itself (bind (fields_of (kind_layout kind) m.now) (λ es. ok (length es))) }
{
    numbers::pack_answer(fields::count(kind, m))
}

// The entries of the field list from number `first` on, six numbers for each, as many as fit a lent list.
#[unsafe(no_mangle)]
pub extern "C" fn chaloenpik_fields(kind: u8, m: &[u8], first: usize, out: &mut [u64]) -> u64
    ensures { (result ≡ packed itself (bind (fields_of (kind_layout kind) m.now) (λ es. window_count es first (length out.old)))) × (out.new ≡ window_out (fields_of (kind_layout kind) m.now) first out.old) }
{
    numbers::pack_answer(fields::window(kind, m, first, out))
}

// The number in the field list of the entry that owns a byte.
#[unsafe(no_mangle)]
pub extern "C" fn chaloenpik_owner(kind: u8, m: &[u8], offset: usize) -> u64
    ensures { result ≡ packed number_in (bind (fields_of (kind_layout kind) m.now) (λ es. owner_of es offset)) }
{
    numbers::pack_owned(fields::owner(kind, m, offset))
}

// How many tables a response has.
#[unsafe(no_mangle)]
pub extern "C" fn chaloenpik_tables(m: &[u8]) -> u64
    ensures { result ≡ packed itself (bind (read_message 4 m.now) (λ p. ok (length (tables_of p)))) }
{
    numbers::pack_answer(query::tables(m))
}

// How many rows table t of a response has.
#[unsafe(no_mangle)]
pub extern "C" fn chaloenpik_rows(m: &[u8], t: usize) -> u64
    ensures { result ≡ packed rows_of (of_table true m.now t (λ at b. ok (layout_of at b))) }
{
    numbers::pack_rows(query::table(m, t))
}

// How many columns table t of a response has.
#[unsafe(no_mangle)]
pub extern "C" fn chaloenpik_columns(m: &[u8], t: usize) -> u64
    ensures { result ≡ packed columns_of (of_table true m.now t (λ at b. ok (layout_of at b))) }
{
    numbers::pack_columns(query::table(m, t))
}

// The wire type of column c of table t of a response.
#[unsafe(no_mangle)]
pub extern "C" fn chaloenpik_column_type(m: &[u8], t: usize, c: usize) -> u64
    ensures { result ≡ packed type_of (of_table true m.now t (λ at b. column_of at b c)) }
{
    numbers::pack_type(query::column(m, t, c))
}

// The name of column c of table t of a response: a part of the message, as two numbers (numbers/specs/Listed.antt).
#[unsafe(no_mangle)]
pub extern "C" fn chaloenpik_column_name(m: &[u8], t: usize, c: usize, list: &mut [u64; 2]) -> u64
    ensures { (result ≡ packed nothing (ask_column_name m.now t c)) × (list.new ≡ lent part_numbers (ask_column_name m.now t c) list.old) }
{
    numbers::lend_part(list, query::column_name(m, t, c))
}

// The position of the first column of table t of a response whose name is equal.
#[unsafe(no_mangle)]
pub extern "C" fn chaloenpik_find_column(m: &[u8], t: usize, name: &[u8]) -> u64
    ensures { result ≡ packed itself (of_table true m.now t (λ at b. first_named name.now b.metadata.names 0)) }
{
    numbers::pack_answer(query::find_column(m, t, name))
}

// Makes the shortcut card of the first column of a name in table t of a response, at the start of the buffer, and answers the column's position.
#[unsafe(no_mangle)]
pub extern "C" fn chaloenpik_make_card(m: &[u8], t: usize, name: &[u8], out: &mut [u8]) -> u64
    ensures { (result ≡ packed itself (bind (ask_made m.now t name.now (length out.old)) (λ c. ok c.position))) × (out.new ≡ written (ask_made m.now t name.now (length out.old)) out.old) }
{
    numbers::pack_answer(cards::make_card(m, t, name, out))
}

// The position of the column of table t of a response that a card stands for.
#[unsafe(no_mangle)]
pub extern "C" fn chaloenpik_open_card(m: &[u8], t: usize, card: &[u8]) -> u64
    ensures { result ≡ packed itself (ask_open m.now t card.now) }
{
    numbers::pack_answer(cards::open_card(m, t, card))
}

// Whether a card fits table t of a response, and if not why, and where a column of its type and name stands: three numbers (numbers/specs/Listed.antt).
#[unsafe(no_mangle)]
pub extern "C" fn chaloenpik_card_fit(m: &[u8], t: usize, card: &[u8], list: &mut [u64; 3]) -> u64
    ensures { (result ≡ packed nothing (ask_fit m.now t card.now)) × (list.new ≡ lent fit_numbers (ask_fit m.now t card.now) list.old) }
{
    numbers::lend_fit(list, cards::card_fit(m, t, card))
}

// The cell at a row and column c of table t of a response, as four numbers (numbers/specs/Listed.antt).
#[unsafe(no_mangle)]
pub extern "C" fn chaloenpik_cell(
    m: &[u8],
    t: usize,
    row: usize,
    c: usize,
    list: &mut [u64; 4],
) -> u64
    ensures { (result ≡ packed nothing (ask_cell m.now t row c)) × (list.new ≡ lent cell_numbers (ask_cell m.now t row c) list.old) }
{
    numbers::lend_cell(list, query::cell(m, t, row, c))
}

// Where the bytes of that cell start, whatever its type, and how many they are: a part of the message, as two numbers.
#[unsafe(no_mangle)]
pub extern "C" fn chaloenpik_cell_place(
    m: &[u8],
    t: usize,
    row: usize,
    c: usize,
    list: &mut [u64; 2],
) -> u64
    ensures { (result ≡ packed nothing (ask_cell_place m.now t row c)) × (list.new ≡ lent part_numbers (ask_cell_place m.now t row c) list.old) }
{
    numbers::lend_part(list, query::cell_place(m, t, row, c))
}

// Parameter p of an invocation, as four numbers.
#[unsafe(no_mangle)]
pub extern "C" fn chaloenpik_parameter(m: &[u8], p: usize, list: &mut [u64; 4]) -> u64
    ensures { (result ≡ packed nothing (ask_parameter m.now p)) × (list.new ≡ lent given_numbers (ask_parameter m.now p) list.old) }
{
    numbers::lend_argument(list, query::parameter(m, p))
}

// Element e of the array that parameter p of an invocation is, likewise.
#[unsafe(no_mangle)]
pub extern "C" fn chaloenpik_element(m: &[u8], p: usize, e: usize, list: &mut [u64; 4]) -> u64
    ensures { (result ≡ packed nothing (ask_element m.now p e)) × (list.new ≡ lent cell_numbers (ask_element m.now p e) list.old) }
{
    numbers::lend_cell(list, query::element(m, p, e))
}

// The record of a login request, as nine numbers (numbers/specs/Records.antt).
#[unsafe(no_mangle)]
pub extern "C" fn chaloenpik_login_request(m: &[u8], list: &mut [u64; 9]) -> u64
    ensures { (result ≡ packed nothing (shown_login_request (read_message 1 m.now))) × (list.new ≡ lent login_request_numbers (shown_login_request (read_message 1 m.now)) list.old) }
{
    numbers::lend_login_request(list, record::login_request(m))
}

// The record of a login response, as nine numbers.
#[unsafe(no_mangle)]
pub extern "C" fn chaloenpik_login_response(m: &[u8], list: &mut [u64; 9]) -> u64
    ensures { (result ≡ packed nothing (shown_login_response (read_message 2 m.now))) × (list.new ≡ lent login_response_numbers (shown_login_response (read_message 2 m.now)) list.old) }
{
    numbers::lend_login_response(list, record::login_response(m))
}

// The record of an invocation, as six numbers.
#[unsafe(no_mangle)]
pub extern "C" fn chaloenpik_invocation(m: &[u8], list: &mut [u64; 6]) -> u64
    ensures { (result ≡ packed nothing (shown_invocation (read_message 3 m.now))) × (list.new ≡ lent invocation_numbers (shown_invocation (read_message 3 m.now)) list.old) }
{
    numbers::lend_invocation(list, record::invocation(m))
}

// The record of a response, as seventeen numbers.
#[unsafe(no_mangle)]
pub extern "C" fn chaloenpik_response(m: &[u8], list: &mut [u64; 17]) -> u64
    ensures { (result ≡ packed nothing (shown_response (read_message 4 m.now))) × (list.new ≡ lent response_numbers (shown_response (read_message 4 m.now)) list.old) }
{
    numbers::lend_response(list, record::response(m))
}
