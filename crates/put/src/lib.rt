// Leaf writers. Each writes into the part of the output that it is lent, from the part's start; the functions at a place lend that part.
#![tactic(auto)]

ghost use Rattle.std.specs.Prelude.{◌≡◌, ◌+◌, ◌*◌, ◌^◌, ◌<◌, ◌≤◌, ◌++◌, length, take, drop};
ghost use Rattle.format.specs.Number.{num_bytes};
ghost use Rattle.format.specs.Value.{width_of};
ghost use Rattle.put.specs.Put.{put, given, sized};

// Writes the 4 lowest bytes of a number.
fn put_four(out: &mut [u8], n: u64)
    requires { 4 ≤ length out.old }
    ensures { out.new ≡ num_bytes 4 n ++ drop 4 out.old }
{
    out[0] = (n / 16777216 % 256) as u8;
    out[1] = (n / 65536 % 256) as u8;
    out[2] = (n / 256 % 256) as u8;
    out[3] = (n % 256) as u8;
}

// Writes the 8 bytes of a number: its upper four, then its lower four.
fn put_eight(out: &mut [u8], n: u64)
    requires { 8 ≤ length out.old }
    ensures { out.new ≡ num_bytes 8 n ++ drop 8 out.old }
{
    put_four(out, n / 4294967296);
    put_four(&mut out[4..], n);
}

// Writes the k lowest bytes of a number, from its last to its first.
fn put_each(out: &mut [u8], n: u64, k: usize)
    requires { k ≤ length out.old }
    ensures { out.new ≡ num_bytes k n ++ drop k out.old }
{
    let mut rest = n;
    for i in (0..k).rev() {
        out[i] = (rest % 256) as u8;
        rest = rest / 256;
    }
}

// Writes the k bytes of a number; those of 8 and 4 bytes without a loop.
pub fn put_number(out: &mut [u8], n: u64, k: usize)
    requires { k ≤ length out.old }
    ensures { out.new ≡ num_bytes k n ++ drop k out.old }
{
    if k == 8 {
        put_eight(out, n);
        return;
    }
    if k == 4 {
        put_four(out, n);
        return;
    }
    put_each(out, n, k);
}

// Writes bytes one by one: those that are too few for eight at a time.
fn put_few(out: &mut [u8], s: &[u8])
    requires { length s.now ≤ length out.old }
    ensures { out.new ≡ s.now ++ drop (length s.now) out.old }
{
    for i in 0..s.len() {
        out[i] = s[i];
    }
}

// Copies the 8 bytes at a place to the same place. All are read before one is written: so it is one load and one store.
fn copy_eight(out: &mut [u8], s: &[u8], i: usize)
    requires { (i + 8 ≤ length s.now) × (length s.now ≤ length out.old) }
    ensures { out.new ≡ put out.old i (take 8 (drop i s.now)) }
{
    let a = s[i];
    let b = s[i + 1];
    let c = s[i + 2];
    let d = s[i + 3];
    let e = s[i + 4];
    let f = s[i + 5];
    let g = s[i + 6];
    let h = s[i + 7];
    out[i] = a;
    out[i + 1] = b;
    out[i + 2] = c;
    out[i + 3] = d;
    out[i + 4] = e;
    out[i + 5] = f;
    out[i + 6] = g;
    out[i + 7] = h;
}

// Writes bytes as they are, eight at a time. The last eight are written whole too, over some that stand already.
pub fn put_bytes(out: &mut [u8], s: &[u8])
    requires { length s.now ≤ length out.old }
    ensures { out.new ≡ s.now ++ drop (length s.now) out.old }
{
    let n = s.len();
    if n < 8 {
        put_few(out, s);
        return;
    }
    let last = n - 8;
    // no `step_by`, which looks twice in each turn whether it is the last
    let mut i = 0;
    while i < last {
        copy_eight(out, s, i);
        i += 8;
    }
    copy_eight(out, s, last);
}

// Writes a value of a fixed size, by its upper and lower 64 bits.
pub fn put_fixed(out: &mut [u8], t: u8, upper: u64, lower: u64)
    requires { width_of t ≤ length out.old }
    ensures { out.new ≡ num_bytes (width_of t) (upper * 2 ^ 64 + lower) ++ drop (width_of t) out.old }
{
    let width = scan::width_of(t);
    if width == 16 {
        put_number(out, upper, 8);
        put_number(&mut out[8..], lower, 8);
        return;
    }
    put_number(out, lower, width);
}

// Writes a length and so many bytes, or -1 for null.
pub fn put_text(out: &mut [u8], text: Option<&[u8]>)
    requires { length (sized (given text)) ≤ length out.old }
    ensures { out.new ≡ sized (given text.entry) ++ drop (length (sized (given text.entry))) out.old }
{
    match text {
        Some(s) => {
            put_number(out, s.len() as u64, 4);
            put_bytes(&mut out[4..], s);
        },
        None => put_number(out, format::NULL_LENGTH, 4),
    }
}

// Writes the k bytes of a number at a place, and says where they end.
pub fn number_at(out: &mut [u8], at: usize, n: u64, k: usize) -> usize
    requires { at + k ≤ length out.old }
    ensures { (result ≡ at + k) × (out.new ≡ put out.old at (num_bytes k n)) }
{
    put_number(&mut out[at..], n, k);
    at + k
}

// Writes bytes at a place, and says where they end.
pub fn bytes_at(out: &mut [u8], at: usize, s: &[u8]) -> usize
    requires { at + length s.now ≤ length out.old }
    ensures { (result ≡ at + length s.now) × (out.new ≡ put out.old at s.now) }
{
    put_bytes(&mut out[at..], s);
    at + s.len()
}

// Writes a value of a fixed size at a place, and says where it ends.
pub fn fixed_at(out: &mut [u8], at: usize, t: u8, upper: u64, lower: u64) -> usize
    requires { at + width_of t ≤ length out.old }
    ensures { (result ≡ at + width_of t) × (out.new ≡ put out.old at (num_bytes (width_of t) (upper * 2 ^ 64 + lower))) }
{
    put_fixed(&mut out[at..], t, upper, lower);
    at + scan::width_of(t)
}

// How many bytes a length and its bytes have. The bound leaves room for what a caller adds to it.
pub fn text_size(text: Option<&[u8]>) -> usize
    ensures { (result ≡ length (sized (given text.entry))) × (result < 2 ^ 63 + 4) }
{
    match text {
        Some(s) => 4 + s.len(),
        None => 4,
    }
}

// Writes a length and so many bytes, or -1 for null, at a place, and says where they end.
pub fn text_at(out: &mut [u8], at: usize, text: Option<&[u8]>) -> usize
    requires { at + length (sized (given text)) ≤ length out.old }
    ensures { (result ≡ at + length (sized (given text.entry))) × (out.new ≡ put out.old at (sized (given text.entry))) }
{
    put_text(&mut out[at..], text);
    at + text_size(text)
}
