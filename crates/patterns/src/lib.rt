// The rules' patterns as nodes, laid once and free of units, below the form's.
#![tactic(auto)]

ghost use Rattle.std.specs.Prelude.{◌+◌, ◌≤◌, length};
ghost use Rattle.meaning.specs.Tree.{atom, pair, nil, byte};
ghost use Rattle.meaning.specs.Substitute.{cons_pattern};
ghost use Rattle.meaning.specs.Match.{atom_match};
ghost use Rattle.meaning.specs.Rules.{apply_pattern, atom_name, apply_null_pattern_1};
ghost use Rattle.store.specs.Nodes.{tree_in};
ghost use Rattle.store.specs.Store.{Held, Ready, free_limit};
ghost use Rattle.store.specs.Makers.{LaidOk};
ghost use Rattle.patterns.specs.Patterns.{BothLaid, OthersLaid, PatternsLaid, patterns_free};

use store::{Charges, Made};

// The nodes of the patterns, each named by the form that it is for.
#[derive(Clone, Copy)]
pub struct Patterns {
    pub cons: usize,
    pub first_cons: usize,
    pub rest_cons: usize,
    pub apply: usize,
    pub first_atom: usize,
    pub rest_atom: usize,
    pub quote_nil: usize,
    pub apply_nil: usize,
}

// The patterns, and the charges after them.
#[derive(Clone, Copy)]
pub struct Prepared {
    pub patterns: Patterns,
    pub ch: Charges,
}

// A node x, and the nodes of (f x) and (r x).
#[derive(Clone, Copy)]
pub struct Both {
    pub inner: usize,
    pub first: usize,
    pub rest: usize,
    pub ch: Charges,
}

// The nodes of the patterns that stand alone.
#[derive(Clone, Copy)]
pub struct Others {
    pub apply: usize,
    pub quote_nil: usize,
    pub apply_nil: usize,
    pub ch: Charges,
}

// The atom of one byte.
fn lay_byte(form: &[u8], room: &mut [u8], ch: Charges, b: u8) -> Made
    requires { Held form.now room.old ch × (ch.free + 6 ≤ free_limit) }
    ensures { LaidOk form.now room.old room.new ch 6 (byte b) result }
{
    let one = [b; 1];
    store::lay_atom(form, room, ch, &one)
}

// (b . x)
fn lay_headed(form: &[u8], room: &mut [u8], ch: Charges, b: u8, x: usize) -> Made
    requires { Ready form.now room.old ch x × (ch.free + 21 ≤ free_limit) }
    ensures { LaidOk form.now room.old room.new ch 21 (pair (byte b) (tree_in form.now room.old x)) result }
{
    let o = lay_byte(form, room, ch, b);
    store::lay_pair(form, room, o.ch, o.node, x)
}

// (x . name), where x is the byte of `$` or `:`
fn lay_name<'a>(form: &'a [u8], room: &mut [u8], ch: Charges, x: u8, name: &'a [u8]) -> Made
    requires { Held form.now room.old ch × (length name.now ≤ 5) × (ch.free + (26 + length name.now) ≤ free_limit) }
    ensures { LaidOk form.now room.old room.new ch (26 + length name.now) (pair (byte x) (atom name.now)) result }
{
    let a = store::lay_atom(form, room, ch, name);
    lay_headed(form, room, a.ch, x, a.node)
}

// (b x)
fn lay_call(form: &[u8], room: &mut [u8], ch: Charges, b: u8, x: usize) -> Made
    requires { Ready form.now room.old ch x × (ch.free + 36 ≤ free_limit) }
    ensures { LaidOk form.now room.old room.new ch 36 (pair (byte b) (pair (tree_in form.now room.old x) nil)) result }
{
    let t = store::lay_pair(form, room, ch, x, 0);
    lay_headed(form, room, t.ch, b, t.node)
}

// (b x y)
fn lay_call_2(form: &[u8], room: &mut [u8], ch: Charges, b: u8, x: usize, y: usize) -> Made
    requires { Ready form.now room.old ch x × Ready form.now room.old ch y × (ch.free + 51 ≤ free_limit) }
    ensures { LaidOk form.now room.old room.new ch 51 (pair (byte b) (pair (tree_in form.now room.old x) (pair (tree_in form.now room.old y) nil))) result }
{
    let t = store::lay_pair(form, room, ch, y, 0);
    let u = store::lay_pair(form, room, t.ch, x, t.node);
    lay_headed(form, room, u.ch, b, u.node)
}

// (c (: . first) (: . rest))
fn lay_cons(form: &[u8], room: &mut [u8], ch: Charges) -> Made
    requires { Held form.now room.old ch × (ch.free + 112 ≤ free_limit) }
    ensures { LaidOk form.now room.old room.new ch 112 cons_pattern result }
{
    let a = lay_name(form, room, ch, b':', b"first");
    let b = lay_name(form, room, a.ch, b':', b"rest");
    lay_call_2(form, room, b.ch, 4, a.node, b.node)
}

// (a (q . (: . sexp)) (: . args))
fn lay_apply(form: &[u8], room: &mut [u8], ch: Charges) -> Made
    requires { Held form.now room.old ch × (ch.free + 132 ≤ free_limit) }
    ensures { LaidOk form.now room.old room.new ch 132 apply_pattern result }
{
    let s = lay_name(form, room, ch, b':', b"sexp");
    let q = lay_headed(form, room, s.ch, 1, s.node);
    let a = lay_name(form, room, q.ch, b':', b"args");
    lay_call_2(form, room, a.ch, 2, q.node, a.node)
}

// (a 0 . (: . rest))
fn lay_apply_nil(form: &[u8], room: &mut [u8], ch: Charges) -> Made
    requires { Held form.now room.old ch × (ch.free + 66 ≤ free_limit) }
    ensures { LaidOk form.now room.old room.new ch 66 apply_null_pattern_1 result }
{
    let r = lay_name(form, room, ch, b':', b"rest");
    let t = store::lay_pair(form, room, r.ch, 0, r.node);
    lay_headed(form, room, t.ch, 2, t.node)
}

// (f x) and (r x)
fn lay_both(form: &[u8], room: &mut [u8], ch: Charges, x: usize) -> Both
    requires { Ready form.now room.old ch x × (ch.free + 72 ≤ free_limit) }
    ensures { BothLaid form.now room.old room.new ch 72 (tree_in form.now room.old x) result }
{
    let f = lay_call(form, room, ch, 5, x);
    let r = lay_call(form, room, f.ch, 6, x);
    Both {
        inner: x,
        first: f.node,
        rest: r.node,
        ch: r.ch,
    }
}

// The patterns with (c A B) in them.
fn lay_cons_both(form: &[u8], room: &mut [u8], ch: Charges) -> Both
    requires { Held form.now room.old ch × (ch.free + 184 ≤ free_limit) }
    ensures { BothLaid form.now room.old room.new ch 184 cons_pattern result }
{
    let x = lay_cons(form, room, ch);
    lay_both(form, room, x.ch, x.node)
}

// The patterns with ($ . atom) in them.
fn lay_atom_both(form: &[u8], room: &mut [u8], ch: Charges) -> Both
    requires { Held form.now room.old ch × (ch.free + 102 ≤ free_limit) }
    ensures { BothLaid form.now room.old room.new ch 102 (pair (byte atom_match) (atom atom_name)) result }
{
    let x = lay_name(form, room, ch, b'$', b"atom");
    lay_both(form, room, x.ch, x.node)
}

// (a (q . (: . sexp)) (: . args)), (q . 0) and (a 0 . (: . rest))
fn lay_others(form: &[u8], room: &mut [u8], ch: Charges) -> Others
    requires { Held form.now room.old ch × (ch.free + 219 ≤ free_limit) }
    ensures { OthersLaid form.now room.old room.new ch result }
{
    let a = lay_apply(form, room, ch);
    let q = lay_headed(form, room, a.ch, 1, 0);
    let n = lay_apply_nil(form, room, q.ch);
    Others {
        apply: a.node,
        quote_nil: q.node,
        apply_nil: n.node,
        ch: n.ch,
    }
}

// All of them.
pub fn lay_patterns(form: &[u8], room: &mut [u8], ch: Charges) -> Prepared
    requires { Held form.now room.old ch × (ch.free + patterns_free ≤ free_limit) }
    ensures { PatternsLaid form.now room.old room.new ch result }
{
    let a = lay_cons_both(form, room, ch);
    let b = lay_atom_both(form, room, a.ch);
    let o = lay_others(form, room, b.ch);
    let p = Patterns {
        cons: a.inner,
        first_cons: a.first,
        rest_cons: a.rest,
        apply: o.apply,
        first_atom: b.first,
        rest_atom: b.rest,
        quote_nil: o.quote_nil,
        apply_nil: o.apply_nil,
    };
    Prepared {
        patterns: p,
        ch: o.ch,
    }
}
