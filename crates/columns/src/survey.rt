// What is found of columns. It stands apart from the walks, whose definitions build a survey: a struct with facts imports what its file cites.
ghost use Rattle.std.specs.Prelude.{◌+◌, ◌*◌, ◌≤◌};
ghost use Rattle.format.specs.Value.{most_bytes};
ghost use Rattle.format.specs.Message.{most_columns};

use format::Refusal;

// What was found of columns, one after the other: how many they are, whether their types are columns', the first fault of their names, and how
// many bytes their names have, with their lengths. Of more than a table may have only that counts. `at` is the writer's position, where faults stand.
#[derive(Clone, Copy)]
pub struct Survey {
    pub at: usize,
    pub n: usize,
    pub kinds: bool,
    pub fault: Result<(), Refusal>,
    pub size: usize,
    // Of a name that was counted the size is bounded, so what is written around the columns never overflows.
    pub ghost few: { n ≤ most_columns + 1 },
    pub ghost short: { size ≤ n * (4 + most_bytes) },
}
