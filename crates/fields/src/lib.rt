// The field list of a message: how many fields it has, the n-th, the owner of a byte, and windows of the list.
#![tactic(auto)]

ghost use Rattle.std.specs.Prelude.{◌≡◌, length};
ghost use Rattle.format.specs.declared.Fault.TheVariants.{PastEnd};
ghost use Rattle.format.specs.Result.{ok, bind, told};
ghost use Rattle.format.specs.Message.{kind_layout};
ghost use Rattle.tour.specs.Tour.{fields_of};
ghost use Rattle.fields.specs.Questions.{nth, owner_of, window_count, window_out, entry_at};
ghost use Rattle.fields.specs.Met.{count_met, field_met, owner_met, window_met};
ghost use Rattle.fields.specs.Told.{told_entry, told_listed, told_owned};

use format::{Fault, Refusal};
use tally::Task;

// A field: where it stands, how long it is, its number and its three indices.
#[derive(Drop)]
pub struct Entry {
    pub offset: usize,
    pub size: usize,
    pub field: u64,
    pub i: usize,
    pub j: usize,
    pub k: usize,
}

// How many fields a message of a kind has.
pub fn count(kind: u8, m: &[u8]) -> Result<usize, Refusal>
    ensures { told result ≡ bind (fields_of (kind_layout kind) m.now) (λ es. ok (length es)) }
{
    let layout = format::kind_layout(kind);
    let mut six: [u64; 6] = [0; 6];
    let asked = tour::list_task(0, 0);
    let toured = tour::visit_all(layout, m, &mut six, asked);
    count_met(toured)
}

// The entry of a number in the list, from 0 on.
pub fn field(kind: u8, m: &[u8], n: usize) -> Result<Entry, Refusal>
    ensures { told_listed result ≡ bind (fields_of (kind_layout kind) m.now) (λ es. nth es n) }
{
    let layout = format::kind_layout(kind);
    let mut six: [u64; 6] = [0; 6];
    let asked = tour::list_task(n, 0);
    let toured = tour::visit_all(layout, m, &mut six, asked);
    field_met(toured, n, &six)
}

// The entry that owns a byte, and its number in the list.
pub fn owner(kind: u8, m: &[u8], offset: usize) -> Result<(Entry, usize), Refusal>
    ensures { told_owned result ≡ bind (fields_of (kind_layout kind) m.now) (λ es. owner_of es offset) }
{
    let layout = format::kind_layout(kind);
    let mut six: [u64; 6] = [0; 6];
    let asked = tour::list_task(0, offset);
    let toured = tour::visit_all(layout, m, &mut six, asked);
    owner_met(toured, &six)
}

// The entries from a number on, six numbers for each, as many whole entries as fit a lent list; how many were written.
pub fn window(kind: u8, m: &[u8], first: usize, out: &mut [u64]) -> Result<usize, Refusal>
    ensures { (told result ≡ bind (fields_of (kind_layout kind) m.now) (λ es. window_count es first (length out.old))) × (out.new ≡ window_out (fields_of (kind_layout kind) m.now) first out.old) }
{
    let layout = format::kind_layout(kind);
    let asked = tour::list_task(first, 0);
    let toured = tour::visit_all(layout, m, out, asked);
    window_met(toured, first)
}

// How many fields a tour met. Here and below, the tour may have gone over any list of fields.
pub fn count_met(toured: Result<Task, Refusal>) -> Result<usize, Refusal>
    ensures { told result ≡ count_met (told toured) }
{
    let task = toured?;
    Ok(task.seen)
}

// The n-th field that a tour met, where it listed that one in six numbers.
pub fn field_met(toured: Result<Task, Refusal>, n: usize, six: &[u64; 6]) -> Result<Entry, Refusal>
    ensures { told_listed result ≡ field_met (told toured) n six.now }
{
    let task = toured?;
    if task.seen <= n {
        return Err(past_end());
    }
    Ok(entry_of(six))
}

// The first field that ended past a byte, where a tour listed that one in six numbers.
pub fn owner_met(toured: Result<Task, Refusal>, six: &[u64; 6]) -> Result<(Entry, usize), Refusal>
    ensures { told_owned result ≡ owner_met (told toured) six.now }
{
    let task = toured?;
    if task.taken == 0 {
        return Err(past_end());
    }
    let number = task.last;
    Ok((entry_of(six), number))
}

// How many fields a tour listed, from the first-th on.
pub fn window_met(toured: Result<Task, Refusal>, first: usize) -> Result<usize, Refusal>
    ensures { told result ≡ window_met (told toured) first }
{
    let task = toured?;
    if task.seen <= first {
        return Err(past_end());
    }
    Ok(task.taken)
}

fn past_end() -> Refusal
    ensures { (result.fault ≡ PastEnd) × (result.place ≡ 0) }
{
    Refusal {
        fault: Fault::PastEnd,
        place: 0,
    }
}

// The entry that six numbers are.
fn entry_of(six: &[u64; 6]) -> Entry
    ensures { told_entry result ≡ entry_at six.now }
{
    Entry {
        offset: six[0] as usize,
        size: six[1] as usize,
        field: six[2],
        i: six[3] as usize,
        j: six[4] as usize,
        k: six[5] as usize,
    }
}
