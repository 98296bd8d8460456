// A run's state: what it has spent and what its last piece of work said, how far its memo is filled, and what it notes.
#![tactic(auto)]

ghost use Rattle.std.specs.Prelude.{◌≡◌, ◌<◌, ◌≤◌, length};
ghost use Rattle.run_state.specs.Notes.{count_records, one_more, noted, count_in};
ghost use Rattle.run_state.specs.Work.{with_last, marked_work, work_made};

use refusals::Refusal;
use store::{Charges, Made};

// What a piece of work said: nothing changed, the node that it changed to, or the refusal that stopped it.
#[derive(Clone, Copy)]
pub enum Outcome {
    Same,
    Changed(usize),
    Stopped(Refusal),
}

// What a run has spent, whether it is marked, and what the last piece of work said.
#[derive(Clone, Copy)]
pub struct Work {
    pub ch: Charges,
    pub passes: usize,
    pub mark: bool,
    pub last: Outcome,
}

// A finished expression. `print` is what 16 bits hold of its fingerprint, which stands whole in the expression's node. Where the work gave
// the tree back, the result is the expression's own node. The height is a count of nested calls that is known to be enough, not the least one.
#[derive(Clone, Copy)]
pub struct Entry {
    pub expr: u16,
    pub result: u16,
    pub passes: u16,
    pub units: u16,
    pub height: u16,
    pub print: u16,
}

// An entry's numbers, 12 bytes, as they stand in the lent row.
pub type Record = [u16; 6];

// What a run notes of the passes that rules end.
#[derive(Clone, Copy)]
pub enum Notes {
    // Nothing. Only then may the memo answer: a hit skips what would be noted.
    Nothing,
    // How often each rule ended one.
    Counts,
}

// What a run has spent, and how many records of the row are the memo's entries.
#[derive(Clone, Copy)]
pub struct State {
    pub w: Work,
    pub used: usize,
}

// The same work, which now says o.
pub fn with(w: Work, o: Outcome) -> Work
    ensures { result ≡ with_last w o }
{
    Work { last: o, ..w }
}

// The same work, marked if off: a mark is never taken away.
pub fn marked(w: Work, off: bool) -> Work
    ensures { result ≡ marked_work w off }
{
    Work {
        mark: w.mark || off,
        ..w
    }
}

// What a maker answered, as work: changed to its node, or stopped.
pub fn put(w: Work, m: Result<Made, Refusal>) -> Work
    ensures { result ≡ work_made w m }
{
    match m {
        Ok(made) => Work {
            ch: made.ch,
            last: Outcome::Changed(made.node),
            ..w
        },
        Err(e) => with(w, Outcome::Stopped(e)),
    }
}

// ---- what is noted: the last eight records of the row are the rules' counts, which no entry uses

// One more: the first number counts, the second how often it was full. (A run has 65,536 passes at most: both are never full.)
fn one_more(a: Record) -> Record
    ensures { result ≡ one_more a }
{
    if a[0] < u16::MAX {
        [a[0] + 1, a[1], 0, 0, 0, 0]
    } else if a[1] < u16::MAX {
        [0, a[1] + 1, 0, 0, 0, 0]
    } else {
        a
    }
}

// Rule number k ended a pass.
pub fn note(row: &mut [Record], notes: Notes, k: usize)
    requires { (count_records ≤ length row.old) × (0 < k) × (k ≤ count_records) }
    ensures { row.new ≡ noted notes row.old k }
{
    match notes {
        Notes::Nothing => {}
        Notes::Counts => {
            let i = row.len() - 8 + (k - 1);
            row[i] = one_more(row[i]);
        }
    }
}

// How often rule number k ended a pass.
pub fn count_in(row: &[Record], k: usize) -> usize
    requires { (count_records ≤ length row.now) × (0 < k) × (k ≤ count_records) }
    ensures { (result ≡ count_in row.now k) × (result < 4294967296) }
{
    let [low, high, ..] = row[row.len() - 8 + (k - 1)];
    usize::from(low) + usize::from(high) * 65536
}
