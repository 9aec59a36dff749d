// What the rules of names and texts ask of bytes: where the first one is that isn't ASCII, and where the first one is that begins no well-formed
// sequence of UTF-8. Bytes that are ASCII are passed 8 or 16 at a time.
#![tactic(auto)]

ghost use Rattle.std.specs.Prelude.{◌≡◌, ℕ, ◌+◌, ◌-◌, ◌<◌, ◌≤◌, length, get_or, drop, true, ◌&&◌, ◌||◌};
ghost use Rattle.format.specs.Value.{ascii, ascii_from};
ghost use Rattle.format.specs.Format.{fine};
ghost use Rattle.format.specs.Text.{from_to, tail, sequence, utf8_from};
ghost use Rattle.text.specs.Shown.{LowRun, shown_at, sequence_at, up_to, second_of_three, second_of_four};
ghost use Rattle.text.specs.Windows.{unlike, goes_on, wrong_pair, wrong_after, RightRun, Between};

const HIGHEST_ASCII: u8 = 0x7f;

// A byte that is above 127 if one of two is.
fn joined(a: u8, b: u8) -> u8
    ensures { (a ≤ result) × (b ≤ result) }
{
    a | b
}

// Whether none of the n bytes at a place is above 127.
fn are_low(b: &[u8], i: usize, n: usize) -> bool
    requires { i + n ≤ length b.now }
    ensures { result ≡ true → LowRun b.now i n }
{
    let mut top = 0;
    for k in 0..n {
        top = joined(top, b[i + k]);
    }
    top <= HIGHEST_ASCII
}

// Whether all bytes are surely ASCII, of which there are a step's or more: the last ones, and so many at a time up to them, so that none is looked at by
// itself. No answer is that of the last test: the compiler would join it with those of other ways, and then makes no single test of several bytes.
fn is_ascii_by(b: &[u8], step: usize) -> bool
    requires { (0 < step) × (step ≤ length b.now) }
    ensures { result ≡ true → LowRun b.now 0 (length b.now) }
{
    let last = b.len() - step;
    if !are_low(b, last, step) {
        return false;
    }
    // no `step_by`, which looks twice in each turn whether it is the last
    let mut i = 0;
    while i < last {
        if !are_low(b, i, step) {
            return false;
        }
        i += step;
    }
    true
}

// The first byte that no name has: one above 127. Eight are looked at together and not 16, as many names have fewer than 16.
pub fn high_byte(b: &[u8]) -> Option<usize>
    ensures { result ≡ shown_at (ascii_from 0 b.now) }
{
    if 8 <= b.len() {
        if is_ascii_by(b, 8) {
            return None;
        }
    }
    for (i, x) in b.iter().enumerate() {
        if format::HIGHEST_IN_NAME < *x {
            return Some(i);
        }
    }
    None
}

fn is_from_to(low: u8, high: u8, b: u8) -> bool
    ensures { result ≡ from_to low high b }
{
    low <= b && b <= high
}

// Whether a byte goes on in a sequence.
fn is_tail(b: u8) -> bool
    ensures { result ≡ tail b }
{
    is_from_to(0x80, 0xbf, b)
}

// The byte at a place, or 0, which is no tail, where the text has ended.
fn byte_or_0(b: &[u8], i: usize) -> u8
    ensures { result ≡ get_or b.now i 0 }
{
    if i < b.len() { b[i] } else { 0 }
}

// Whether a byte may be the second one of three: not after 0xe0 if that were a longer form than is needed, nor after 0xed if that were a surrogate.
fn is_second_of_three(a: u8, b: u8) -> bool
    ensures { result ≡ second_of_three a b }
{
    if a == 0xe0 {
        return is_from_to(0xa0, 0xbf, b);
    }
    if a == 0xed {
        return is_from_to(0x80, 0x9f, b);
    }
    is_tail(b)
}

// Whether a byte may be the second one of four: not after 0xf0 if that were a longer form than is needed, nor past U+10FFFF, which 0xf4 0x8f begins.
fn is_second_of_four(a: u8, b: u8) -> bool
    ensures { result ≡ second_of_four a b }
{
    if a == 0xf0 {
        return is_from_to(0x90, 0xbf, b);
    }
    if a == 0xf4 {
        return is_from_to(0x80, 0x8f, b);
    }
    is_from_to(0xf1, 0xf3, a) && is_tail(b)
}

// How many bytes the sequence has that begins with some bytes; 0 where none does. Here and below the first one isn't ASCII.
fn two(a: u8, b: u8) -> usize
    requires { (0x7f < a) × (a ≤ 0xdf) }
    ensures { (c d : ℕ) → result ≡ sequence a b c d }
{
    if a < 0xc2 {
        return 0;
    }
    if is_tail(b) { 2 } else { 0 }
}

fn three(a: u8, b: u8, c: u8) -> usize
    requires { (0xdf < a) × (a ≤ 0xef) }
    ensures { (d : ℕ) → result ≡ sequence a b c d }
{
    if !is_second_of_three(a, b) {
        return 0;
    }
    if is_tail(c) { 3 } else { 0 }
}

fn four(a: u8, b: u8, c: u8, d: u8) -> usize
    requires { 0xef < a }
    ensures { result ≡ sequence a b c d }
{
    if !is_second_of_four(a, b) {
        return 0;
    }
    if !is_tail(c) {
        return 0;
    }
    if is_tail(d) { 4 } else { 0 }
}

// How many bytes the sequence has that begins at a place; 0 where none does.
fn sequence_at(b: &[u8], i: usize) -> usize
    requires { i < length b.now }
    ensures { result ≡ sequence_at b.now i }
{
    let a = b[i];
    if a <= HIGHEST_ASCII {
        return 1;
    }
    if a <= 0xdf {
        return two(a, byte_or_0(b, i + 1));
    }
    if a <= 0xef {
        return three(a, byte_or_0(b, i + 1), byte_or_0(b, i + 2));
    }
    four(
        a,
        byte_or_0(b, i + 1),
        byte_or_0(b, i + 2),
        byte_or_0(b, i + 3),
    )
}

// Past the well-formed sequences that begin from a place on and before another.
fn passed(b: &[u8], from: usize, limit: usize) -> usize
    requires { limit ≤ length b.now }
    ensures { (utf8_from result 0 (drop result b.now) ≡ utf8_from from 0 (drop from b.now)) × (result < limit → sequence_at b.now result ≡ 0) }
{
    let mut i = from;
    while i < limit {
        let size = sequence_at(b, i);
        if size == 0 {
            return i;
        }
        i += size;
    }
    i
}

// ---- A text of some length is looked at by its bytes and not by its sequences: whether each byte may stand after the three before it. None of these
// tests leaves early, so that 16 bytes are put to them at once.

fn either(a: bool, b: bool) -> bool
    ensures { result ≡ (a || b) }
{
    if a { true } else { b }
}

fn both(a: bool, b: bool) -> bool
    ensures { result ≡ (a && b) }
{
    if a { b } else { false }
}

fn differ(a: bool, b: bool) -> bool
    ensures { result ≡ unlike a b }
{
    if a { !b } else { b }
}

// Whether a sequence goes on after three bytes, of which c is the last.
fn goes_on(a: u8, b: u8, c: u8) -> bool
    ensures { result ≡ goes_on a b c }
{
    either(0xc0 <= c, either(0xe0 <= b, 0xf0 <= a))
}

// Whether no sequence has b after the first byte a, if b goes on in one.
fn is_wrong_pair(a: u8, b: u8) -> bool
    ensures { result ≡ wrong_pair a b }
{
    let none = either(both(0xc0 <= a, a <= 0xc1), 0xf5 <= a);
    let three = either(both(a == 0xe0, b < 0xa0), both(a == 0xed, 0x9f < b));
    let four = either(both(a == 0xf0, b < 0x90), both(a == 0xf4, 0x8f < b));
    either(none, either(three, four))
}

// Whether no text has d after a, b and c.
fn is_wrong(a: u8, b: u8, c: u8, d: u8) -> bool
    ensures { result ≡ wrong_after a b c d }
{
    let tail = both(0x80 <= d, d <= 0xbf);
    either(differ(goes_on(a, b, c), tail), is_wrong_pair(c, d))
}

// Whether each of 16 bytes may stand after the three before it, the first of which is at a place.
fn are_right(b: &[u8], i: usize) -> bool
    requires { i + 19 ≤ length b.now }
    ensures { result ≡ true → RightRun b.now i 16 }
{
    let mut wrong = false;
    for k in 0..16 {
        let at = i + k;
        wrong = either(wrong, is_wrong(b[at], b[at + 1], b[at + 2], b[at + 3]));
    }
    !wrong
}

// Whether no sequence goes on after the three bytes at a place.
fn is_between(b: &[u8], i: usize) -> bool
    requires { i + 3 ≤ length b.now }
    ensures { result ≡ true → Between b.now i }
{
    !goes_on(b[i], b[i + 1], b[i + 2])
}

// Whether each of the bytes that follow the three at a place, up to those at another place, may stand where it does.
fn all_right(b: &[u8], start: usize, end: usize) -> bool
    requires { (start + 16 ≤ end) × (end + 3 ≤ length b.now) }
    ensures { result ≡ true → RightRun b.now start (end - start) }
{
    // no `step_by`, which looks twice in each turn whether it is the last
    let mut i = start;
    while i + 16 <= end {
        if !are_right(b, i) {
            return false;
        }
        i += 16;
    }
    are_right(b, end - 16)
}

// Whether all bytes from a place on, where a sequence begins, surely are text.
fn is_surely_text(b: &[u8], from: usize) -> bool
    ensures { result ≡ true → utf8_from from 0 (drop from b.now) ≡ fine }
{
    if from < 3 {
        return false;
    }
    if b.len() < 16 {
        return false;
    }
    if b.len() - 16 < from {
        return false;
    }
    let start = from - 3;
    let end = b.len() - 3;
    if !is_between(b, start) {
        return false;
    }
    if !is_between(b, end) {
        return false;
    }
    all_right(b, start, end)
}

// How many bytes of a text are well-formed, or more where all are. It is short, or looked at from its fourth byte on.
fn well_formed(b: &[u8]) -> usize
    ensures { utf8_from 0 0 b.now ≡ up_to (length b.now) result }
{
    if b.len() < 19 {
        return passed(b, 0, b.len());
    }
    let start = passed(b, 0, 3);
    if is_surely_text(b, start) {
        return b.len();
    }
    passed(b, start, b.len())
}

// ---- A text that is ASCII.

// Of fewer than 8 bytes. With `all`, texts of 7 to 9 bytes took longer.
fn is_short_ascii(b: &[u8]) -> bool
    ensures { result ≡ true → LowRun b.now 0 (length b.now) }
{
    for x in b {
        if HIGHEST_ASCII < *x {
            return false;
        }
    }
    true
}

fn is_ascii(b: &[u8]) -> bool
    ensures { result ≡ true → LowRun b.now 0 (length b.now) }
{
    if b.len() < 8 {
        return is_short_ascii(b);
    }
    if b.len() < 16 {
        return is_ascii_by(b, 8);
    }
    is_ascii_by(b, 16)
}

// Whether a column's name surely is ASCII. It tells no place, so that the loop over names is small, and looks at the bytes of a short one together too.
pub fn is_surely_name(b: &[u8]) -> bool
    ensures { result ≡ true → ascii b.now ≡ fine }
{
    if 8 <= b.len() {
        return is_ascii_by(b, 8);
    }
    if 4 <= b.len() {
        return is_ascii_by(b, 4);
    }
    if 2 <= b.len() {
        return is_ascii_by(b, 2);
    }
    is_short_ascii(b)
}

// Where a text is torn: the first byte that begins no well-formed sequence, those before it being well-formed. What asks whether it is ASCII has this one
// caller, so that the compiler puts it here: a slice that is handed on is written and read again.
pub fn torn(b: &[u8]) -> Option<usize>
    ensures { result ≡ shown_at (utf8_from 0 0 b.now) }
{
    if is_ascii(b) {
        return None;
    }
    let end = well_formed(b);
    if end < b.len() { Some(end) } else { None }
}
