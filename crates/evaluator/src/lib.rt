// The nine operators of the evaluator on nodes, with 4,096 steps for an evaluation and the run's units.
#![tactic(auto)]

ghost use Rattle.std.specs.Prelude.{◌≡◌};
ghost use Rattle.meaning.specs.Tree.{pair, proper_list};
ghost use Rattle.meaning.specs.Number.{number, lookup};
ghost use Rattle.meaning.specs.Limits.{pair_cost};
ghost use Rattle.meaning.specs.Operator.{makes, yes_no, chosen, left_of, right_of, is_pair, same_atom};
ghost use Rattle.meaning.specs.Operator.{head_of as Operator·head_of};
ghost use Rattle.meaning.specs.Operator.{takes as Operator·takes};
ghost use Rattle.meaning.specs.Operator.{perform as Operator·perform};
ghost use Rattle.meaning.specs.Evaluate.{found_b, finish_b, each_value_b, call_b, step_b, evaluate};
ghost use Rattle.store.specs.declared.Cell.TheVariants.{Atom};
ghost use Rattle.store.specs.Cells.{Room, cell_at, bytes_at};
ghost use Rattle.store.specs.Nodes.{tree_in};
ghost use Rattle.store.specs.Store.{Held, Ready};
ghost use Rattle.evaluator.specs.Heads.{op_of, head_as, head_tree, accepted, items, args_of};
ghost use Rattle.evaluator.specs.Values.{state, ValuedOk, Nodes, put_value, ArgsOk, PerformedOk};
ghost use Rattle.evaluator.specs.Values.{metered as Values·metered};
ghost use Rattle.evaluator.specs.Values.{answered as Values·answered};

use refusals::Refusal;
use store::{Cell, Charges, Made};

// Steps of this evaluation, and the run's charges.
#[derive(Clone, Copy)]
pub struct Meter {
    pub steps: usize,
    pub ch: Charges,
}

// A node that stands for the value, and what was spent.
#[derive(Clone, Copy)]
pub struct Valued {
    pub node: usize,
    pub meter: Meter,
}

#[derive(Clone, Copy)]
pub enum Operator {
    Apply,
    Choose,
    Cons,
    First,
    Rest,
    Listp,
    Raise,
    Same,
}

// What stands at the head of an expression.
#[derive(Clone, Copy)]
pub enum Head {
    Quote,
    Call(Operator),
    Other,
}

// The values of the first three arguments; nil where there are fewer.
#[derive(Clone, Copy)]
pub struct Values {
    pub a: usize,
    pub b: usize,
    pub c: usize,
}

// All arguments' values, and what was spent.
#[derive(Clone, Copy)]
pub struct Args {
    pub values: Values,
    pub meter: Meter,
}

// What comes of an expression or of an operator's arguments: a value, or a program to run in an environment, and what was spent.
#[derive(Clone, Copy)]
pub enum Performed {
    Done(Valued),
    Runs(usize, usize, Meter),
}

// ---- paths

// The part of env that the path at node n leads to.
fn path_node<'a>(
    form: &'a [u8],
    room: &'a [u8],
    m: Meter,
    n: usize,
    env: usize,
) -> Result<Valued, Refusal>
    requires { Ready form.now room.now m.ch n × Ready form.now room.now m.ch env × (cell_at room.now n ≡ Atom) }
    ensures { ValuedOk form.now room.now room.now m (found_b (lookup (number (bytes_at form.now room.now n)) (tree_in form.now room.now env)) (state m)) result }
{
    let b = store::atom_bytes(form, room, n);
    if paths::is_zero(b) {
        return Ok(Valued { node: 0, meter: m });
    }
    let count = paths::turn_count(b);
    let mut q = env;
    for i in 0..count {
        match store::look_node(room, q) {
            Cell::Atom => return Err(Refusal::Fails),
            Cell::Pair(l, r) => q = if paths::turn(b, i) { r } else { l },
        }
    }
    Ok(Valued { node: q, meter: m })
}

// ---- the operator and its argument list

// The table of operators.
fn head_of(b: &[u8]) -> Head
    ensures { head_as result ≡ Operator·head_of b.now }
{
    if b.len() != 1 {
        return Head::Other;
    }
    match b[0] {
        1 => Head::Quote,
        2 => Head::Call(Operator::Apply),
        3 => Head::Call(Operator::Choose),
        4 => Head::Call(Operator::Cons),
        5 => Head::Call(Operator::First),
        6 => Head::Call(Operator::Rest),
        7 => Head::Call(Operator::Listp),
        8 => Head::Call(Operator::Raise),
        9 => Head::Call(Operator::Same),
        _ => Head::Other,
    }
}

fn head_node<'a>(form: &'a [u8], room: &'a [u8], n: usize) -> Head
    requires { Room room.now n }
    ensures { head_as result ≡ head_tree (tree_in form.now room.now n) }
{
    match store::look_node(room, n) {
        Cell::Pair(_, _) => Head::Other,
        Cell::Atom => head_of(store::atom_bytes(form, room, n)),
    }
}

// Does it take k arguments?
fn takes(op: Operator, k: usize) -> bool
    ensures { result ≡ Operator·takes (op_of op) k }
{
    match op {
        Operator::Apply => k == 2,
        Operator::Choose => k == 3,
        Operator::Cons => k == 2,
        Operator::First => k == 1,
        Operator::Rest => k == 1,
        Operator::Listp => k == 1,
        Operator::Raise => true,
        Operator::Same => k == 2,
    }
}

// The list ends in nil, and has as many elements as the operator takes.
fn accepts<'a>(form: &'a [u8], room: &'a [u8], op: Operator, list: usize) -> bool
    requires { Room room.now list }
    ensures { result ≡ accepted (op_of op) (proper_list (tree_in form.now room.now list)) }
{
    let mut p = list;
    let mut k: usize = 0;
    loop {
        match store::look_node(room, p) {
            Cell::Pair(_, r) => {
                p = r;
                k += 1;
            }
            Cell::Atom => {
                if sexp::is_nil_node(form, room, p) {
                    return takes(op, k);
                }
                return false;
            }
        }
    }
}

// ---- what an operator does

// What was made, at the cost of no step.
fn metered(a: Made, steps: usize) -> Valued
    ensures { result ≡ Values·metered a steps }
{
    Valued {
        node: a.node,
        meter: Meter { steps, ch: a.ch },
    }
}

// A yes is the atom 1, a no is nil.
fn yes_no(form: &[u8], room: &mut [u8], m: Meter, yes: bool) -> Result<Valued, Refusal>
    requires { Held form.now room.old m.ch }
    ensures { ValuedOk form.now room.old room.new m (finish_b evaluate (yes_no yes) (state m)) result }
{
    if yes {
        let one = store::atom_node(form, room, m.ch, &[1])?;
        return Ok(metered(one, m.steps));
    }
    Ok(Valued { node: 0, meter: m })
}

// `i`: a nil condition picks the third.
fn choose<'a>(form: &'a [u8], room: &'a [u8], m: Meter, v: Values) -> Result<Valued, Refusal>
    requires { Nodes form.now room.now m.ch v }
    ensures { ValuedOk form.now room.now room.now m (finish_b evaluate (makes (chosen (tree_in form.now room.now v.a) (tree_in form.now room.now v.b) (tree_in form.now room.now v.c)) 0) (state m)) result }
{
    if sexp::is_nil_node(form, room, v.a) {
        return Ok(Valued {
            node: v.c,
            meter: m,
        });
    }
    Ok(Valued {
        node: v.b,
        meter: m,
    })
}

// `c`
fn cons(form: &[u8], room: &mut [u8], m: Meter, l: usize, r: usize) -> Result<Valued, Refusal>
    requires { Ready form.now room.old m.ch l × Ready form.now room.old m.ch r }
    ensures { ValuedOk form.now room.old room.new m (finish_b evaluate (makes (pair (tree_in form.now room.old l) (tree_in form.now room.old r)) pair_cost) (state m)) result }
{
    let pair = store::pair_node(form, room, m.ch, l, r)?;
    Ok(metered(pair, m.steps))
}

// `f`
fn first<'a>(form: &'a [u8], room: &'a [u8], m: Meter, n: usize) -> Result<Valued, Refusal>
    requires { Ready form.now room.now m.ch n }
    ensures { ValuedOk form.now room.now room.now m (finish_b evaluate (left_of (tree_in form.now room.now n)) (state m)) result }
{
    match store::look_node(room, n) {
        Cell::Pair(l, _) => Ok(Valued { node: l, meter: m }),
        Cell::Atom => Err(Refusal::Fails),
    }
}

// `r`
fn rest<'a>(form: &'a [u8], room: &'a [u8], m: Meter, n: usize) -> Result<Valued, Refusal>
    requires { Ready form.now room.now m.ch n }
    ensures { ValuedOk form.now room.now room.now m (finish_b evaluate (right_of (tree_in form.now room.now n)) (state m)) result }
{
    match store::look_node(room, n) {
        Cell::Pair(_, r) => Ok(Valued { node: r, meter: m }),
        Cell::Atom => Err(Refusal::Fails),
    }
}

// `l`
fn listp(form: &[u8], room: &mut [u8], m: Meter, n: usize) -> Result<Valued, Refusal>
    requires { Ready form.now room.old m.ch n }
    ensures { ValuedOk form.now room.old room.new m (finish_b evaluate (yes_no (is_pair (tree_in form.now room.old n))) (state m)) result }
{
    match store::look_node(room, n) {
        Cell::Pair(_, _) => yes_no(form, room, m, true),
        Cell::Atom => yes_no(form, room, m, false),
    }
}

// `=`
fn same(form: &[u8], room: &mut [u8], m: Meter, a: usize, b: usize) -> Result<Valued, Refusal>
    requires { Ready form.now room.old m.ch a × Ready form.now room.old m.ch b }
    ensures { ValuedOk form.now room.old room.new m (finish_b evaluate (same_atom (tree_in form.now room.old a) (tree_in form.now room.old b)) (state m)) result }
{
    match store::look_node(room, a) {
        Cell::Pair(_, _) => Err(Refusal::Fails),
        Cell::Atom => match store::look_node(room, b) {
            Cell::Pair(_, _) => Err(Refusal::Fails),
            Cell::Atom => {
                let yes = sexp::same_atoms(form, room, a, b);
                yes_no(form, room, m, yes)
            }
        },
    }
}

// A value or a refusal, as what comes of an operator.
fn answered(a: Result<Valued, Refusal>) -> Result<Performed, Refusal>
    ensures { result ≡ Values·answered a }
{
    Ok(Performed::Done(a?))
}

fn perform(
    form: &[u8],
    room: &mut [u8],
    m: Meter,
    op: Operator,
    v: Values,
) -> Result<Performed, Refusal>
    requires { Nodes form.now room.old m.ch v }
    ensures { PerformedOk form.now room.old room.new m (finish_b evaluate (Operator·perform (op_of op) (args_of (op_of op) (tree_in form.now room.old v.a) (tree_in form.now room.old v.b) (tree_in form.now room.old v.c))) (state m)) result }
{
    match op {
        Operator::Apply => Ok(Performed::Runs(v.a, v.b, m)),
        Operator::Choose => answered(choose(form, room, m, v)),
        Operator::Cons => answered(cons(form, room, m, v.a, v.b)),
        Operator::First => answered(first(form, room, m, v.a)),
        Operator::Rest => answered(rest(form, room, m, v.a)),
        Operator::Listp => answered(listp(form, room, m, v.a)),
        Operator::Raise => Err(Refusal::Fails),
        Operator::Same => answered(same(form, room, m, v.a, v.b)),
    }
}

// ---- evaluation

// The values with n as that of argument k; beyond the third none is kept.
fn with(v: Values, k: usize, n: usize) -> Values
    ensures { result ≡ put_value v k n }
{
    match k {
        0 => Values { a: n, ..v },
        1 => Values { b: n, ..v },
        2 => Values { c: n, ..v },
        _ => v,
    }
}

// The values of all arguments, left to right.
#[cycle(evaluating)]
fn eval_each(
    form: &[u8],
    room: &mut [u8],
    m: Meter,
    list: usize,
    env: usize,
) -> Result<Args, Refusal>
    requires { Ready form.now room.old m.ch list × Ready form.now room.old m.ch env }
    ensures { ArgsOk form.now room.old room.new m (each_value_b evaluate (items (tree_in form.now room.old list)) (tree_in form.now room.old env) (state m)) result }
{
    let mut s = m;
    let mut p = list;
    let mut k: usize = 0;
    let mut v = Values { a: 0, b: 0, c: 0 };
    loop {
        match store::look_node(room, p) {
            Cell::Atom => {
                return Ok(Args {
                    values: v,
                    meter: s,
                });
            }
            Cell::Pair(e, r) => {
                let value = eval_node(form, room, s, e, env)?;
                v = with(v, k, value.node);
                s = value.meter;
                k += 1;
                p = r;
            }
        }
    }
}

// A call of an operator: the argument list and its count first, then all arguments, then what they are. A program under `a` is left
// to run.
#[cycle(evaluating)]
fn call(
    form: &[u8],
    room: &mut [u8],
    m: Meter,
    op: Operator,
    list: usize,
    env: usize,
) -> Result<Performed, Refusal>
    requires { Ready form.now room.old m.ch list × Ready form.now room.old m.ch env }
    ensures { PerformedOk form.now room.old room.new m (call_b evaluate (op_of op) (proper_list (tree_in form.now room.old list)) (tree_in form.now room.old env) (state m)) result }
{
    if !accepts(form, room, op, list) {
        return Err(Refusal::Fails);
    }
    let args = eval_each(form, room, m, list, env)?;
    perform(form, room, args.meter, op, args.values)
}

// An expression whose step is taken: a path, a quote, or a call.
#[cycle(evaluating)]
fn step(form: &[u8], room: &mut [u8], m: Meter, e: usize, env: usize) -> Result<Performed, Refusal>
    requires { Ready form.now room.old m.ch e × Ready form.now room.old m.ch env }
    ensures { PerformedOk form.now room.old room.new m (step_b evaluate (tree_in form.now room.old e) (tree_in form.now room.old env) (state m)) result }
{
    match store::look_node(room, e) {
        Cell::Atom => answered(path_node(form, room, m, e, env)),
        Cell::Pair(o, r) => match head_node(form, room, o) {
            Head::Quote => Ok(Performed::Done(Valued { node: r, meter: m })),
            Head::Call(op) => call(form, room, m, op, r, env),
            Head::Other => Err(Refusal::NoOperator),
        },
    }
}

// The value of the expression e in env. Every expression takes a step as it begins. The loop goes on with the program under an `a`,
// so that one that calls itself in the last place takes no stack.
#[cycle(evaluating)]
pub fn eval_node(
    form: &[u8],
    room: &mut [u8],
    m: Meter,
    e: usize,
    env: usize,
) -> Result<Valued, Refusal>
    requires { Ready form.now room.old m.ch e × Ready form.now room.old m.ch env }
    ensures { ValuedOk form.now room.old room.new m (evaluate (tree_in form.now room.old e) (tree_in form.now room.old env) (state m)) result }
{
    let mut t = m;
    let mut p = e;
    let mut q = env;
    loop {
        if 4096 <= t.steps {
            return Err(Refusal::StepsOut);
        }
        let s = Meter {
            steps: t.steps + 1,
            ..t
        };
        match step(form, room, s, p, q)? {
            Performed::Done(value) => {
                return Ok(value);
            }
            Performed::Runs(x, z, u) => {
                t = u;
                p = x;
                q = z;
            }
        }
    }
}
