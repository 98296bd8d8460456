// `optimize_sexp_`: the driver's loop, and the rules that call it.
#![tactic(auto)]

ghost use Rattle.std.specs.Prelude.{◌≡◌, true, false, ◌+◌, ◌≤◌, ◌<◌, length};
ghost use Rattle.meaning.specs.Limits.{nesting_limit, height_at};
ghost use Rattle.meaning.specs.Rules.{settle, var_change_optimizer_cons_eval, children_optimizer};
ghost use Rattle.meaning.specs.Driver.{optimize_sexp, ends};
ghost use Rattle.meaning.proofs.LogSteps.{ends_over, settle_ends, rule_ends, turn_ends};
ghost use Rattle.store.specs.Nodes.{tree_in};
ghost use Rattle.store.specs.Store.{Ready};
ghost use Rattle.patterns.specs.Patterns.{Patterned};
ghost use Rattle.run_state.specs.Work.{spent_of, Did};
ghost use Rattle.run_state.specs.State.{Valid, Still};
ghost use Rattle.run_state.specs.Notes.{count_records, Noted};
ghost use Rattle.driver_parts.specs.Turns.{again, optimizer, one_turn, Fine, fresh_work};
ghost use Rattle.driver_parts.specs.Walk.{walk, Walked};
ghost use Rattle.driver.specs.Alone.{one_rule};

use patterns::Patterns;
use refusals::Refusal;
use run_state::{Notes, Outcome, Record, State, Work};
use store::{Cell, Charges};

// Works a list's elements left to right, 48 at a time; what was found goes down, the verdict comes up, and then the list is made.
#[cycle(driving)]
fn operands(
    form: &[u8],
    room: &mut [u8],
    row: &mut [Record],
    p: Patterns,
    st: State,
    list: usize,
    nest: usize,
    count: bool,
    flag: bool,
    notes: Notes,
) -> State
    requires { Fine form.now room.old st.w p list × (nest < 65) × Valid form.now room.old row.old st }
    ensures { Walked form.now room.old room.new st.w (walk count (again nest) flag (tree_in form.now room.old list) (spent_of st.w)) result.w × Still form.now room.new row.new result × Noted notes row.old row.new (ends_over (height_at (nest + 1)) (tree_in form.now room.old list) (spent_of st.w)) }
{
    let mut s = st;
    let mut q = list;
    let mut seen = flag;
    let mut got: [u16; 48] = [0; 48];
    let mut k: usize = 0;
    'elements: loop {
        match store::look_node(room, q) {
            Cell::Atom => {
                let make = driver_parts::is_made(count, seen);
                s.w = driver_parts::build(form, room, s.w, got, k, q, make);
                return s;
            }
            Cell::Pair(h, t) => {
                if 48 <= k {
                    s = operands(form, room, row, p, s, q, nest, count, seen, notes);
                    s.w = driver_parts::put_before(form, room, s.w, got, k);
                    return s;
                }
                match store::look_node(room, h) {
                    Cell::Atom => {
                        if 64 <= nest {
                            s.w = run_state::with(s.w, Outcome::Stopped(Refusal::TooDeep));
                            return s;
                        }
                        got[k] = h as u16;
                        k += 1;
                        q = t;
                    }
                    Cell::Pair(_, _) => {
                        s = drive(form, room, row, p, s, h, nest + 1, notes);
                        match driver_parts::worked_into(form, room, s.w, h, count, seen) {
                            None => return s,
                            Some(element) => {
                                got[k] = element.node;
                                k += 1;
                                seen = element.flag;
                                q = t;
                            }
                        }
                    }
                }
            }
        }
    }
}

// ---- 4. `var_change_optimizer_cons_eval`

// What becomes of the changed body `new` of r.
#[cycle(driving)]
fn settle(
    form: &[u8],
    room: &mut [u8],
    row: &mut [Record],
    p: Patterns,
    st: State,
    r: usize,
    new: usize,
    low: bool,
    nest: usize,
    notes: Notes,
) -> State
    requires { Fine form.now room.old st.w p r × Fine form.now room.old st.w p new × (nest < 65) × Valid form.now room.old row.old st }
    ensures { Did form.now room.old room.new st.w (tree_in form.now room.old r) (settle (again nest) (tree_in form.now room.old r) (tree_in form.now room.old new) low (spent_of st.w)) result.w × Still form.now room.new row.new result × Noted notes row.old row.new (settle_ends (height_at (nest + 1)) (tree_in form.now room.old r) (tree_in form.now room.old new) low (spent_of st.w)) }
{
    let mut s = st;
    if seems::seems_constant(form, room, s.w.ch, new) {
        s = drive(form, room, row, p, s, new, nest + 1, notes);
        s.w = driver_parts::keep_body(form, room, s.w, r, new, low);
        return s;
    }
    if !sexp::proper_list_node(form, room, new) {
        s.w = run_state::with(s.w, Outcome::Same);
        return s;
    }
    s = operands(form, room, row, p, s, new, nest, true, false, notes);
    s.w = driver_parts::keep_list(form, room, s.w, r, low);
    s
}

#[cycle(driving)]
fn var_change_optimizer_cons_eval(
    form: &[u8],
    room: &mut [u8],
    row: &mut [Record],
    p: Patterns,
    st: State,
    n: usize,
    nest: usize,
    notes: Notes,
) -> State
    requires { Fine form.now room.old st.w p n × (nest < 65) × Valid form.now room.old row.old st }
    ensures { Did form.now room.old room.new st.w (tree_in form.now room.old n) (var_change_optimizer_cons_eval (again nest) (tree_in form.now room.old n) (spent_of st.w)) result.w × Still form.now room.new row.new result × Noted notes row.old row.new (rule_ends (height_at (nest + 1)) 4 (tree_in form.now room.old n) (spent_of st.w)) }
{
    let mut s = st;
    match rules::applied_of(form, room, p, s.w.ch, n) {
        None => {
            s.w = run_state::with(s.w, Outcome::Same);
            s
        }
        Some(call) => {
            match substitute::sub_args(form, room, p, s.w.ch, call.body, call.args) {
                Err(e) => {
                    s.w = run_state::with(s.w, Outcome::Stopped(e));
                    s
                }
                Ok(x) => {
                    s.w.ch = x.ch;
                    s.w.last = Outcome::Same;
                    settle(form, room, row, p, s, n, x.node, x.low, nest, notes)
                }
            }
        }
    }
}

// ---- 5. `children_optimizer`

#[cycle(driving)]
fn children_optimizer(
    form: &[u8],
    room: &mut [u8],
    row: &mut [Record],
    p: Patterns,
    st: State,
    n: usize,
    nest: usize,
    notes: Notes,
) -> State
    requires { Fine form.now room.old st.w p n × (nest < 65) × Valid form.now room.old row.old st }
    ensures { Did form.now room.old room.new st.w (tree_in form.now room.old n) (children_optimizer (again nest) (tree_in form.now room.old n) (spent_of st.w)) result.w × Still form.now room.new row.new result × Noted notes row.old row.new (rule_ends (height_at (nest + 1)) 5 (tree_in form.now room.old n) (spent_of st.w)) }
{
    let mut s = st;
    if rules::is_quote_node(form, room, n) {
        s.w = run_state::with(s.w, Outcome::Same);
        return s;
    }
    if !sexp::proper_list_node(form, room, n) {
        s.w = run_state::with(s.w, Outcome::Same);
        return s;
    }
    operands(form, room, row, p, s, n, nest, false, false, notes)
}

// ---- the rules, by number

#[cycle(driving)]
fn optimizer(
    form: &[u8],
    room: &mut [u8],
    row: &mut [Record],
    p: Patterns,
    st: State,
    n: usize,
    nest: usize,
    rule: usize,
    notes: Notes,
) -> State
    requires { Fine form.now room.old st.w p n × (nest < 65) × (0 < rule) × (rule ≤ 8) × Valid form.now room.old row.old st }
    ensures { Did form.now room.old room.new st.w (tree_in form.now room.old n) (optimizer (again nest) rule (tree_in form.now room.old n) (spent_of st.w)) result.w × Still form.now room.new row.new result × Noted notes row.old row.new (rule_ends (height_at (nest + 1)) rule (tree_in form.now room.old n) (spent_of st.w)) }
{
    if rule == 4 {
        return var_change_optimizer_cons_eval(form, room, row, p, st, n, nest, notes);
    }
    if rule == 5 {
        return children_optimizer(form, room, row, p, st, n, nest, notes);
    }
    let mut s = st;
    s.w = driver_parts::simple(form, room, p, s.w, n, rule);
    s
}

// ---- the driver

// One turn of the driver's loop: a pass on a pair, in which the first rule that changes the node ends it; nothing on an atom.
#[cycle(driving)]
fn turn(
    form: &[u8],
    room: &mut [u8],
    row: &mut [Record],
    p: Patterns,
    st: State,
    n: usize,
    nest: usize,
    notes: Notes,
) -> State
    requires { Fine form.now room.old st.w p n × (nest < 65) × Valid form.now room.old row.old st }
    ensures { Did form.now room.old room.new st.w (tree_in form.now room.old n) (one_turn (again nest) (tree_in form.now room.old n) (spent_of st.w)) result.w × Still form.now room.new row.new result × Noted notes row.old row.new (turn_ends (height_at (nest + 1)) (tree_in form.now room.old n) (spent_of st.w)) }
{
    let mut s = st;
    s.w = driver_parts::begin(form, room, s.w, n);
    match s.w.last {
        Outcome::Changed(_) => {
            s.w = run_state::with(s.w, Outcome::Same);
            return s;
        }
        Outcome::Stopped(_) => return s,
        Outcome::Same => {}
    }
    for rule in 1..9usize {
        s = optimizer(form, room, row, p, s, n, nest, rule, notes);
        match s.w.last {
            Outcome::Same => {}
            Outcome::Changed(_) => {
                run_state::note(row, notes, rule);
                return s;
            }
            Outcome::Stopped(_) => return s,
        }
    }
    s
}

// `optimize_sexp_` at nesting `nest`: what the memo says; else turns until none changes the node, and then an entry. Same where none did.
#[cycle(driving)]
pub fn drive(
    form: &[u8],
    room: &mut [u8],
    row: &mut [Record],
    p: Patterns,
    st: State,
    n: usize,
    nest: usize,
    notes: Notes,
) -> State
    requires { Fine form.now room.old st.w p n × (nest < 66) × Valid form.now room.old row.old st }
    ensures { Did form.now room.old room.new st.w (tree_in form.now room.old n) (optimize_sexp (height_at nest) (tree_in form.now room.old n) (spent_of st.w)) result.w × Still form.now room.new row.new result × Noted notes row.old row.new (ends (height_at nest) (tree_in form.now room.old n) (spent_of st.w)) }
{
    let mut s = st;
    if 65 <= nest {
        s.w = run_state::with(s.w, Outcome::Stopped(Refusal::TooDeep));
        return s;
    }
    if let Some(known) = memo::lookup(form, room, row, s.w, s.used, n, nest, notes) {
        s.w = known;
        return s;
    }
    let mut r = n;
    let mut moved = false;
    loop {
        s = turn(form, room, row, p, s, r, nest, notes);
        match s.w.last {
            Outcome::Stopped(_) => return s,
            Outcome::Changed(m) => {
                r = m;
                moved = true;
            }
            Outcome::Same => {
                s.w = driver_parts::finish(s.w, r, moved);
                return memo::store(form, room, row, s, st.w, n, r, nest);
            }
        }
    }
}

// A state that has spent what ch says, with no record in use.
fn fresh(ch: Charges) -> State
    ensures { (result.w ≡ fresh_work ch) × (result.used ≡ 0) }
{
    let w = Work {
        ch,
        passes: 0,
        mark: false,
        last: Outcome::Same,
    };
    State { w, used: 0 }
}

// `optimize_sexp`: the outermost call. What is noted stands in the row.
pub fn optimize_node(
    form: &[u8],
    room: &mut [u8],
    row: &mut [Record],
    p: Patterns,
    ch: Charges,
    n: usize,
    notes: Notes,
) -> Work
    requires { Ready form.now room.old ch n × Patterned form.now room.old ch p × (count_records ≤ length row.old) }
    ensures { Did form.now room.old room.new (fresh_work ch) (tree_in form.now room.old n) (optimize_sexp nesting_limit (tree_in form.now room.old n) (spent_of (fresh_work ch))) result × Noted notes row.old row.new (ends nesting_limit (tree_in form.now room.old n) (spent_of (fresh_work ch))) }
{
    drive(form, room, row, p, fresh(ch), n, 1, notes).w
}

// One rule alone, by its number, at nesting 1 in a first pass.
pub fn apply_node(
    form: &[u8],
    room: &mut [u8],
    p: Patterns,
    ch: Charges,
    n: usize,
    rule: usize,
) -> Work
    requires { Ready form.now room.old ch n × Patterned form.now room.old ch p × (0 < rule) × (rule ≤ 8) }
    ensures { Did form.now room.old room.new (fresh_work ch) (tree_in form.now room.old n) (one_rule rule (tree_in form.now room.old n) (spent_of (fresh_work ch))) result }
{
    let mut row = [[0u16; 6]; 256];
    let mut s = fresh(ch);
    s.w = driver_parts::begin(form, room, s.w, n);
    match s.w.last {
        Outcome::Changed(_) => run_state::with(s.w, Outcome::Same),
        Outcome::Stopped(_) => s.w,
        Outcome::Same => optimizer(form, room, &mut row[..], p, s, n, 1, rule, Notes::Nothing).w,
    }
}
