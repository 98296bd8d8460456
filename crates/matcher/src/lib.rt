// The matcher on bytes alone: the pattern's form and the expression's stand one after the other in one lent slice.
#![tactic(auto)]

mod way;

ghost use Rattle.std.specs.Prelude.{◌≡◌, [], ◌++◌, ◌+◌, ◌≤◌, length, take, drop};
ghost use Rattle.meaning.specs.Limits.{room_least};
ghost use Rattle.meaning.specs.Form.{write};
ghost use Rattle.meaning.specs.Match as meaning;
ghost use Rattle.store.specs.Nodes.{tree_at, tree_in};
ghost use Rattle.store.specs.Store.{Ready};
ghost use Rattle.form.specs.Writes.{Writable, Wrote, extent};
ghost use Rattle.pattern.specs.Bound.{bindings_at, Bound};
ghost use Rattle.matcher.specs.Outcome.{parts, joined, delivered, ending, outcome, Matches};
ghost use Rattle.matcher.specs.Steps.{outcome_of, BoundIn, Shows, delivering, placeless, Answers, ends, placed};

use form::Two;
use pattern::{Bindings, Match};
use refusals::Refusal;
use store::{Charges, ROOM};

// How many names were bound, and where each part that was written ends; a part that is not there has no bytes.
#[derive(Clone, Copy)]
pub struct Parts {
    pub count: usize,
    pub name_1: usize,
    pub node_1: usize,
    pub name_2: usize,
    pub node_2: usize,
}

#[derive(Clone, Copy)]
pub enum Verdict {
    Matched(Parts),
    NoMatch,
    TooManyNames,
}

// The answer; and the place at which the expression first disagrees with the pattern, a path in 64 bytes, big-endian: zero where it
// is deeper, and beside every other answer.
#[derive(Clone, Copy)]
pub struct Matching {
    pub answer: Result<Verdict, Refusal>,
    pub place: [u8; 64],
}

// What the two forms answer.
#[derive(Clone, Copy)]
pub(crate) enum Said {
    Bound(Bindings, Charges),
    NoMatch,
    TooManyNames,
}

// And the place of a failure.
#[derive(Clone, Copy)]
pub(crate) struct Worked {
    pub(crate) said: Result<Said, Refusal>,
    pub(crate) place: [u8; 64],
}

// ---- the two forms

// What has no place.
fn unplaced(said: Result<Said, Refusal>) -> Worked
    ensures { result ≡ record { said = said; place = meaning.place_bytes 0 } }
{
    Worked {
        said,
        place: [0; 64],
    }
}

// The match of two nodes, and the place of its failure.
fn matched(forms: &[u8], room: &mut [u8], ch: Charges, p: usize, s: usize) -> Worked
    requires { Ready forms.now room.old ch p × Ready forms.now room.old ch s }
    ensures { Shows forms.now room.new (delivering (meaning.match_sexp (tree_in forms.now room.old p) (tree_in forms.now room.old s) [])) result }
{
    match pattern::matched_node(forms, room, ch, p, s) {
        Match::Matched(ks) => unplaced(Ok(Said::Bound(ks, ch))),
        Match::NoMatch => Worked {
            said: Ok(Said::NoMatch),
            place: way::place_node(forms, room, ch, p, s),
        },
        Match::TooManyNames => unplaced(Ok(Said::TooManyNames)),
    }
}

// Reads the pattern, the first bytes, and then the expression, what follows them; and matches.
fn work(forms: &[u8], room: &mut [u8], first: usize) -> Worked
    requires { room_least ≤ length room.old }
    ensures { Shows forms.now room.new (ending (take first forms.now) (drop first forms.now)) result }
{
    match form::read_two(forms, room, first) {
        Err(e) => unplaced(Err(e)),
        Ok(Two { first, second, ch }) => matched(forms, room, ch, first, second),
    }
}

// ---- the parts

// Where the node's tree ends that is written from at on.
fn end_node<'a>(forms: &'a [u8], room: &'a [u8], n: usize, at: usize, limit: usize) -> Option<usize>
    requires { Writable forms.now room.now n × (at ≤ limit) }
    ensures { result ≡ extent limit (at + length (write (tree_in forms.now room.now n))) }
{
    let k = form::length_node(forms, room, n, limit - at)?;
    Some(at + k)
}

// Where two trees end that are written one after the other, where the limit allows them.
fn end_both<'a>(
    forms: &'a [u8],
    room: &'a [u8],
    name: usize,
    node: usize,
    at: usize,
    limit: usize,
) -> Option<(usize, usize)>
    requires { Writable forms.now room.now name × Writable forms.now room.now node × (at ≤ limit) }
    ensures { result ≡ ends limit at (length (write (tree_in forms.now room.now name))) (length (write (tree_in forms.now room.now node))) }
{
    let mid = end_node(forms, room, name, at, limit)?;
    let end = end_node(forms, room, node, mid, limit)?;
    Some((mid, end))
}

// Where all parts end, where the limit allows them.
fn place<'a>(
    forms: &'a [u8],
    room: &'a [u8],
    ch: Charges,
    ks: Bindings,
    limit: usize,
) -> Option<Parts>
    requires { Bound forms.now room.now ch ks }
    ensures { result ≡ placed limit (bindings_at forms.now room.now ks) }
{
    if ks.count == 0 {
        return Some(Parts {
            count: 0,
            name_1: 0,
            node_1: 0,
            name_2: 0,
            node_2: 0,
        });
    }
    let (a, b) = end_both(forms, room, ks.name_1, ks.node_1, 0, limit)?;
    let one = Parts {
        count: 1,
        name_1: a,
        node_1: b,
        name_2: b,
        node_2: b,
    };
    if ks.count == 1 {
        return Some(one);
    }
    let (c, d) = end_both(forms, room, ks.name_2, ks.node_2, b, limit)?;
    Some(Parts {
        count: 2,
        name_2: c,
        node_2: d,
        ..one
    })
}

// Writes a name's atom and a tree to the front of out, which has room for them.
fn write_both<'a>(
    forms: &'a [u8],
    room: &'a [u8],
    name: usize,
    node: usize,
    out: &mut [u8],
) -> usize
    requires { Writable forms.now room.now name × Writable forms.now room.now node × (length (write (tree_at forms.now room.now name)) + length (write (tree_at forms.now room.now node)) ≤ length out.old) }
    ensures { Wrote (write (tree_in forms.now room.now name) ++ write (tree_in forms.now room.now node)) result out.old out.new }
{
    let at = form::write_node(forms, room, name, out);
    let k = form::write_node(forms, room, node, &mut out[at..]);
    at + k
}

// Writes all parts to the front of out, which has room for them.
fn write_parts<'a>(
    forms: &'a [u8],
    room: &'a [u8],
    ch: Charges,
    ks: Bindings,
    out: &mut [u8],
) -> usize
    requires { Bound forms.now room.now ch ks × (length (joined (parts (bindings_at forms.now room.now ks))) ≤ length out.old) }
    ensures { Wrote (joined (parts (bindings_at forms.now room.now ks))) result out.old out.new }
{
    if ks.count == 0 {
        return 0;
    }
    let at = write_both(forms, room, ks.name_1, ks.node_1, out);
    if ks.count == 1 {
        return at;
    }
    let k = write_both(forms, room, ks.name_2, ks.node_2, &mut out[at..]);
    at + k
}

// Writes the parts, where they fit.
fn deliver<'a>(
    forms: &'a [u8],
    room: &'a [u8],
    ch: Charges,
    ks: Bindings,
    out: &mut [u8],
) -> Result<Verdict, Refusal>
    requires { Bound forms.now room.now ch ks }
    ensures { Answers (placeless (delivered (length out.old) (meaning.matched (bindings_at forms.now room.now ks)))) out.old out.new result }
{
    let ends = place(forms, room, ch, ks, out.len()).ok_or(Refusal::OutputShort)?;
    write_parts(forms, room, ch, ks, out);
    Ok(Verdict::Matched(ends))
}

// ---- the whole

fn answer<'a>(
    forms: &'a [u8],
    room: &'a [u8],
    said: Result<Said, Refusal>,
    out: &mut [u8],
) -> Result<Verdict, Refusal>
    requires { BoundIn forms.now room.now said }
    ensures { Answers (outcome_of forms.now room.now (length out.old) said) out.old out.new result }
{
    match said? {
        Said::Bound(ks, c) => deliver(forms, room, c, ks, out),
        Said::NoMatch => Ok(Verdict::NoMatch),
        Said::TooManyNames => Ok(Verdict::TooManyNames),
    }
}

// Matches the expression against the pattern, forms[..first]. A match writes, for each name in the order in which the names were
// bound, the name's atom and the tree. The room is all zero after, but for refusal 1.
pub fn matches(forms: &[u8], first: usize, room: &mut [u8], out: &mut [u8]) -> Matching
    ensures { Matches (outcome forms.now first (length room.old) (length out.old)) room.old room.new out.old out.new result }
{
    if room.len() < ROOM {
        return Matching {
            answer: Err(Refusal::RoomSmall),
            place: [0; 64],
        };
    }
    let Worked { said, place } = work(forms, room, first);
    let answer = answer(forms, room, said, out);
    store::zero_room(room);
    Matching { answer, place }
}
