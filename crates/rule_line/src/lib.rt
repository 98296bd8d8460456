// One rule on a form, and what it makes of it as one line of text: `same`, units and mark; `changed`, the new tree, units and mark; or
// `no` and the refusal's number.
#![tactic(auto)]

ghost use Rattle.std.specs.Prelude.{◌≡◌, ◌≤◌, ◌<◌, length};
ghost use Rattle.meaning.specs.Limits.{room_least};
ghost use Rattle.store.specs.Nodes.{tree_in};
ghost use Rattle.form.specs.Writes.{Writable};
ghost use Rattle.run_state.specs.Work.{spent_of};
ghost use Rattle.optimiser.specs.Worked.{Fresh};
ghost use Rattle.lines.specs.Text.{Printed};
ghost use Rattle.rule_line.specs.Said.{same, changed, written, said, Applied};
ghost use Rattle.rule_line.specs.Line.{line_of, rule_of, rule_line};

use patterns::Patterns;
use refusals::Refusal;
use run_state::{Outcome, Work};
use store::Charges;

// ---- one rule on a form

// Reads the form and gives its tree to the rule.
fn read_and_apply(form: &[u8], room: &mut [u8], p: Patterns, ch: Charges, rule: usize) -> Work
    requires { Fresh form.now room.old ch p × (0 < rule) × (rule ≤ 8) }
    ensures { Applied rule form.now room.new result }
{
    match form::read_form(form, room, 0, form.len(), ch) {
        Ok(tree) => driver::apply_node(form, room, p, tree.ch, tree.node, rule),
        Err(e) => Work {
            ch,
            passes: 0,
            mark: false,
            last: Outcome::Stopped(e),
        },
    }
}

// The same, whatever the room held: all that is read there was laid for this form.
fn worked(form: &[u8], room: &mut [u8], rule: usize) -> Work
    requires { (room_least ≤ length room.old) × (0 < rule) × (rule ≤ 8) }
    ensures { Applied rule form.now room.new result }
{
    let ch = store::start(form, room);
    let a = patterns::lay_patterns(form, room, ch);
    read_and_apply(form, room, a.patterns, a.ch, rule)
}

// ---- its line

fn print_same(w: Work, text: &mut [u8], at: usize) -> usize
    ensures { Printed (line_of (same w.ch.units w.mark)) text.old text.new at result }
{
    let a = lines::print_word(text, at, b"same");
    lines::print_numbers(text, a, &[w.ch.units, w.mark as usize])
}

fn print_tree(tree: &[u8], w: Work, text: &mut [u8], at: usize) -> usize
    ensures { Printed (line_of (changed tree.now w.ch.units w.mark)) text.old text.new at result }
{
    let a = lines::print_word(text, at, b"changed ");
    let b = lines::print_hex(text, a, tree);
    lines::print_numbers(text, b, &[w.ch.units, w.mark as usize])
}

// Prints the new tree, which stands at m, where the output has room for it.
fn print_changed(
    form: &[u8],
    room: &[u8],
    m: usize,
    w: Work,
    out: &mut [u8],
    text: &mut [u8],
    at: usize,
) -> usize
    requires { Writable form.now room.now m }
    ensures { Printed (line_of (written (length out.old) (tree_in form.now room.now m) (spent_of w))) text.old text.new at result }
{
    match form::deliver_node(form, room, m, out) {
        None => lines::print_no(text, at, refusals::number_of(Refusal::OutputShort)),
        Some(k) => print_tree(&out[..k], w, text, at),
    }
}

// Prints what the rule of this number makes of a form.
fn print_rule(
    form: &[u8],
    rule: usize,
    room: &mut [u8],
    out: &mut [u8],
    text: &mut [u8],
    at: usize,
) -> usize
    requires { (room_least ≤ length room.old) × (0 < rule) × (rule ≤ 8) }
    ensures { Printed (line_of (said rule form.now (length out.old))) text.old text.new at result }
{
    let w = worked(form, room, rule);
    match w.last {
        Outcome::Same => print_same(w, text, at),
        Outcome::Changed(m) => print_changed(form, room, m, w, out, text, at),
        Outcome::Stopped(e) => lines::print_no(text, at, refusals::number_of(e)),
    }
}

// ---- two lines

// The rule that the first line names, and 0 where it names none: both[..first] are its bytes.
fn rule_of(both: &[u8], first: usize) -> usize
    ensures { result ≡ rule_of both.now first }
{
    if first != 1 {
        return 0;
    }
    match both {
        [x, ..] if *x <= 8 => *x as usize,
        _ => 0,
    }
}

// Prints what the rule that the first line names makes of the second after text[..at]; `no line` where it names none.
pub fn print_ruled(
    both: &[u8],
    first: usize,
    room: &mut [u8],
    out: &mut [u8],
    text: &mut [u8],
    at: usize,
) -> usize
    requires { room_least ≤ length room.old }
    ensures { Printed (rule_line both.now first (length out.old)) text.old text.new at result }
{
    let rule = rule_of(both, first);
    if rule == 0 {
        return lines::print_no_line(text, at);
    }
    print_rule(&both[1..], rule, room, out, text, at)
}
