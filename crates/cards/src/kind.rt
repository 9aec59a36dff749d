// Kinds of cards stand apart from the rest, whose definitions build them: a struct with facts imports what its file cites.
ghost use Rattle.std.specs.Prelude.{◌≤◌};

// A kind of card: its first byte, how many bytes its position has, and the first and the last position that it holds.
#[derive(Clone, Copy)]
pub struct Kind {
    pub number: u8,
    pub width: usize,
    pub low: usize,
    pub high: usize,
    // Of a position no more bytes are read than a number has.
    pub ghost narrow: { width ≤ 8 },
}
