// The memo: finished expressions, found by fingerprint and compared by structure, and what a hit charges.
#![tactic(auto)]

ghost use Rattle.std.specs.Prelude.{◌≡◌, [], suc, ◌<◌, ◌≤◌, length, get_or, set, MatchOption};
ghost use Rattle.meaning.specs.Limits.{unit_limit, pass_limit};
ghost use Rattle.store.specs.Cells.{Room};
ghost use Rattle.store.specs.Store.{Ready};
ghost use Rattle.run_state.specs.State.{entry_of, record_of, Sounds, Valid};
ghost use Rattle.memo.specs.Policy.{low_print, alike_in, candidate, look_limit, first_hit, hit_says, entry_to_store};
ghost use Rattle.memo.specs.Memo.{Looked, Ended, Small, Stored};

use run_state::{Entry, Notes, Outcome, Record, State, Work};
use sexp::Compared;
use store::Charges;

// Whether two trees were found to be the same, and how many looks are left.
#[derive(Clone, Copy)]
pub(crate) struct Verdict {
    pub same: bool,
    pub left: usize,
}

// Nodes that one lookup looks at, and left parts within left parts, at most.
const LOOKS: usize = 4096;

const DEEP: usize = 64;

// ---- the row

fn entry_from(a: Record) -> Entry
    ensures { result ≡ entry_of a }
{
    Entry {
        expr: a[0],
        result: a[1],
        passes: a[2],
        units: a[3],
        height: a[4],
        print: a[5],
    }
}

fn record_from(e: Entry) -> Record
    ensures { result ≡ record_of e }
{
    [e.expr, e.result, e.passes, e.units, e.height, e.print]
}

// Reads the record at i.
fn entry_at(row: &[Record], i: usize) -> Entry
    requires { i < length row.now }
    ensures { result ≡ entry_of (get_or row.now i []) }
{
    entry_from(row[i])
}

// Stores the record at i.
fn put_entry(row: &mut [Record], i: usize, e: Entry)
    requires { i < length row.old }
    ensures { row.new ≡ set row.old i (record_of e) }
{
    row[i] = record_from(e);
}

// ---- comparison

// Are the trees at x and y the same? At most `looks` nodes are looked at, `deep` left parts deep; where that is not enough, no.
fn alike<'a>(
    form: &'a [u8],
    room: &'a [u8],
    x: usize,
    y: usize,
    deep: usize,
    looks: usize,
) -> Verdict
    requires { Room room.now x × Room room.now y }
    ensures { result ≡ alike_in form.now room.now (suc deep) looks x y }
{
    let mut a = x;
    let mut b = y;
    let mut left = looks;
    loop {
        if a == b {
            return Verdict { same: true, left };
        }
        if left == 0 {
            return Verdict {
                same: false,
                left: 0,
            };
        }
        left -= 1;
        match sexp::compare_records(form, room, a, b) {
            Compared::Told(u) => {
                return Verdict { same: u, left };
            }
            Compared::Parts(al, ar, bl, br) => {
                if deep == 0 {
                    return Verdict { same: false, left };
                }
                let v = alike(form, room, al, bl, deep - 1, left);
                if !v.same {
                    return v;
                }
                left = v.left;
                a = ar;
                b = br;
            }
        }
    }
}

// ---- a lookup

// What an entry holds of a fingerprint: a filter before the expression's node is looked at.
fn low_print(key: u64) -> u16
    ensures { result ≡ low_print key }
{
    (key % 65536) as u16
}

// Is the entry one to compare with an expression of fingerprint `key`, at `nest`?
#[tactic(auto, unfolding(crate::specs::Policy::candidate))]
fn is_candidate<'a>(
    form: &'a [u8],
    room: &'a [u8],
    ch: Charges,
    e: Entry,
    key: u64,
    nest: usize,
) -> bool
    requires { Ready form.now room.now ch e.expr × (nest < 65) }
    ensures { result ≡ candidate form.now room.now key nest e }
{
    e.print == low_print(key)
        && usize::from(e.height) + nest <= 65
        && store::print_node(form, room, ch, usize::from(e.expr)) == key
}

// The place of the first candidate found alike with n.
fn find<'a>(
    form: &'a [u8],
    room: &'a [u8],
    row: &'a [Record],
    w: Work,
    used: usize,
    n: usize,
    nest: usize,
) -> Option<usize>
    requires { Ready form.now room.now w.ch n × Sounds form.now room.now w.ch w.mark used row.now × (nest < 65) }
    ensures { MatchOption result (first_hit form.now room.now row.now n nest used look_limit 0 ≡ used) (λ i. (i < used) × (first_hit form.now room.now row.now n nest used look_limit 0 ≡ i)) }
{
    let key = store::print_node(form, room, w.ch, n);
    let mut left = LOOKS;
    for i in 0..used {
        let e = entry_at(row, i);
        if is_candidate(form, room, w.ch, e, key, nest) {
            let v = alike(form, room, usize::from(e.expr), n, DEEP, left);
            if v.same {
                return Some(i);
            }
            left = v.left;
        }
    }
    None
}

// A hit charges what the entry says; where that would cross a limit the call is to be worked afresh.
fn charged(w: Work, e: Entry) -> Option<Work>
    requires { (w.ch.units ≤ unit_limit) × (w.passes ≤ pass_limit) }
    ensures { result ≡ hit_says w e }
{
    let units = w.ch.units + usize::from(e.units);
    let passes = w.passes + usize::from(e.passes);
    if 32768 < units || 65536 < passes {
        return None;
    }
    let ch = Charges { units, ..w.ch };
    let last = if e.expr == e.result {
        Outcome::Same
    } else {
        Outcome::Changed(usize::from(e.result))
    };
    Some(Work {
        ch,
        passes,
        last,
        ..w
    })
}

// What the memo says of a call on n at nesting `nest`: nothing where something is noted.
pub fn lookup<'a>(
    form: &'a [u8],
    room: &'a [u8],
    row: &'a [Record],
    w: Work,
    used: usize,
    n: usize,
    nest: usize,
    notes: Notes,
) -> Option<Work>
    requires { Ready form.now room.now w.ch n × Sounds form.now room.now w.ch w.mark used row.now × (nest < 65) × (w.passes ≤ pass_limit) }
    ensures { Looked form.now room.now row.now w used n nest notes result }
{
    match notes {
        Notes::Counts => None,
        Notes::Nothing => match find(form, room, row, w, used, n, nest) {
            Some(i) => charged(w, entry_at(row, i)),
            None => None,
        },
    }
}

// ---- storing

// The entry of a call on n at nesting `nest` that began with b spent and ended at r with a spent.
fn entry_of(b: Work, a: Work, n: usize, r: usize, nest: usize, print: u16) -> Entry
    requires { Small b a n r nest }
    ensures { result ≡ entry_to_store b a n r nest print }
{
    Entry {
        expr: n as u16,
        result: r as u16,
        passes: (a.passes - b.passes) as u16,
        units: (a.ch.units - b.ch.units) as u16,
        height: (65 - nest) as u16,
        print,
    }
}

// Stores a call that ended, unless the row is full. A call on an atom, which charged no pass, needs no entry; and where all passes are
// spent, none could be used.
pub fn store<'a>(
    form: &'a [u8],
    room: &'a [u8],
    row: &mut [Record],
    st: State,
    b: Work,
    n: usize,
    r: usize,
    nest: usize,
) -> State
    requires { Valid form.now room.now row.old st × Ended form.now room.now b st.w n r nest }
    ensures { Stored form.now room.now row.old row.new st b n r nest result }
{
    if row.len() <= st.used + 8 {
        return st;
    }
    if st.w.passes == b.passes {
        return st;
    }
    if 65536 <= st.w.passes {
        return st;
    }
    let key = store::print_node(form, room, st.w.ch, n);
    put_entry(row, st.used, entry_of(b, st.w, n, r, nest, low_print(key)));
    State {
        used: st.used + 1,
        ..st
    }
}
