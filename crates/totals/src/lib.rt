// Savings over a list of forms: a running report, into which one form after another is worked.
#![tactic(auto)]

ghost use Rattle.std.specs.Prelude.{◌≡◌, ◌+◌, ◌^◌, ◌<◌, ◌≤◌, length, true};
ghost use Rattle.refusals.specs.Numbers.{number_of};
ghost use Rattle.meaning.specs.Outcome.{ended};
ghost use Rattle.meaning.specs.Run.{mark_number, worked, ends_in, deliver_run};
ghost use Rattle.run_state.specs.Notes.{count_records, count_in};
ghost use Rattle.optimiser.specs.Worked.{WorkedOk};
ghost use Rattle.totals.specs.declared.Column.TheVariants.{Refused};
ghost use Rattle.totals.specs.Savings.{output_most, greater, rules_with, with_answer, with_refusal, sum_from, fewer, small_all, is_open, none_yet};
ghost use Rattle.totals.specs.Adding.{Counted, Placed, Adds};

use optimiser::Finished;
use refusals::Refusal;
use run_state::{Notes, Record};
use store::ROOM;

// Totals over the forms so far. Each form stands in one column: answered, or refused by its number, 1 to 14. All else is over the
// answered ones: how many are marked, their bytes as submitted and finished, the most passes, and how often each rule ended a pass.
#[derive(Clone, Copy)]
pub struct Savings {
    pub answered: u64,
    pub refused: [u64; 14],
    pub marked: u64,
    pub before: u64,
    pub after: u64,
    pub passes: u64,
    pub rules: [u64; 8],
}

// The column of a form. Full is none: the report has no room for it.
#[derive(Clone, Copy)]
pub enum Column {
    Answered,
    Refused(Refusal),
    Full,
}

// The report after a form, and the form's column.
#[derive(Clone, Copy)]
pub struct Added {
    pub savings: Savings,
    pub column: Column,
}

// Forms in a report, at most.
const FORMS: u64 = 4096;

// Bytes of a finished tree, at most.
const OUTPUT: usize = 32768;

// No number of a report reaches this: one that does is no report's, and nothing is added to it.
const LARGE: u64 = 9223372036854775808;

// A report over no forms.
pub fn none_yet() -> Savings
    ensures { result ≡ none_yet }
{
    Savings {
        answered: 0,
        refused: [0; 14],
        marked: 0,
        before: 0,
        after: 0,
        passes: 0,
        rules: [0; 8],
    }
}

// ---- whether a report takes another form

// No more than a report may have.
fn fewer(n: u64) -> u64
    ensures { result ≡ fewer n }
{
    n.min(FORMS)
}

// How many forms stand in a report; 4,096 where there are more.
pub fn forms_in(answered: u64, refused: &[u64]) -> u64
    ensures { result ≡ fewer (sum_from answered refused.now) }
{
    let mut total = fewer(answered);
    for n in refused {
        total = fewer(total + fewer(*n));
    }
    total
}

fn all_small(ns: &[u64]) -> bool
    ensures { result ≡ small_all ns.now }
{
    ns.iter().all(|n| *n < LARGE)
}

fn is_open(s: Savings) -> bool
    ensures { result ≡ is_open s }
{
    forms_in(s.answered, &s.refused) < FORMS
        && all_small(&[s.marked, s.before, s.after, s.passes])
        && all_small(&s.rules)
}

// ---- one form more

fn with_refusal(s: Savings, e: Refusal) -> Savings
    requires { (is_open s ≡ true) × (number_of e ≤ 14) }
    ensures { result ≡ with_refusal s e }
{
    let mut t = s;
    t.refused[refusals::number_of(e) as usize - 1] += 1;
    t
}

// Each rule's sum, with what the row has counted of it.
fn with_counts(n: [u64; 8], row: &[Record]) -> [u64; 8]
    requires { (small_all n ≡ true) × (count_records ≤ length row.now) }
    ensures { result ≡ rules_with n (count_in row.now) }
{
    let mut sums = n;
    for k in 0..8 {
        sums[k] += run_state::count_in(row, k + 1) as u64;
    }
    sums
}

// The numbers of an answered form.
#[derive(Clone, Copy)]
pub(crate) struct Numbers {
    pub before: usize,
    pub after: usize,
    pub passes: usize,
    pub mark: bool,
}

fn with_answer(s: Savings, a: Numbers, row: &[Record]) -> Savings
    requires { (is_open s ≡ true) × (a.before ≤ 32768) × (a.after ≤ 32768) × (count_records ≤ length row.now) }
    ensures { result ≡ with_answer s a.before a.after a.passes (mark_number a.mark) (count_in row.now) }
{
    let rules = with_counts(s.rules, row);
    Savings {
        answered: s.answered + 1,
        marked: s.marked + a.mark as u64,
        before: s.before + a.before as u64,
        after: s.after + a.after as u64,
        passes: s.passes.max(a.passes as u64),
        rules,
        ..s
    }
}

fn refused(s: Savings, e: Refusal) -> Added
    requires { (is_open s ≡ true) × (number_of e ≤ 14) }
    ensures { (result.savings ≡ with_refusal s e) × (result.column ≡ Refused e) }
{
    Added {
        savings: with_refusal(s, e),
        column: Column::Refused(e),
    }
}

// The report after the form's work. The finished tree is measured, not written.
fn place(
    form: &[u8],
    room: &[u8],
    row: &[Record],
    x: Result<Finished, Refusal>,
    s: Savings,
) -> Added
    requires { (is_open s ≡ true) × WorkedOk form.now room.now x × (count_records ≤ length row.now) × Counted row.now (ends_in form.now) }
    ensures { Placed s form.now (ended (deliver_run output_most) (worked form.now)) result }
{
    match x {
        Err(e) => refused(s, e),
        Ok(Finished { node, work }) => match form::length_node(form, room, node, OUTPUT) {
            None => refused(s, Refusal::OutputShort),
            Some(after) => {
                let a = Numbers {
                    before: form.len(),
                    after,
                    passes: work.passes,
                    mark: work.mark,
                };
                Added {
                    savings: with_answer(s, a, row),
                    column: Column::Answered,
                }
            }
        },
    }
}

// Works the form into the report: into one column, or 17 where there is no room for it. The room is all zero after, but for refusal 1.
pub fn add_form(form: &[u8], room: &mut [u8], s: Savings) -> Added
    ensures { Adds s form.now room.old room.new result }
{
    if !is_open(s) {
        store::zero_room(room);
        return Added {
            savings: s,
            column: Column::Full,
        };
    }
    if room.len() < ROOM {
        return refused(s, Refusal::RoomSmall);
    }
    let mut row = [[0u16; 6]; 256];
    let x = optimiser::worked_noting(form, room, &mut row, Notes::Counts);
    let a = place(form, room, &row, x, s);
    store::zero_room(room);
    a
}
