// optimize.rs, `seems_constant` and `seems_constant_tail`. What was found at a pair is remembered in its kind byte.
#![tactic(auto)]

ghost use Rattle.meaning.specs.Constant.{seems_constant, seems_constant_tail};
ghost use Rattle.store.specs.Nodes.{tree_in};
ghost use Rattle.store.specs.Store.{Ready};
ghost use Rattle.store.specs.Makers.{Answered};

use store::{Cell, Charges};

#[cycle(seeming)]
pub fn seems_constant(form: &[u8], room: &mut [u8], ch: Charges, n: usize) -> bool
    requires { Ready form.now room.old ch n }
    ensures { Answered form.now room.old room.new ch result (seems_constant (tree_in form.now room.old n)) }
{
    match store::look_node(room, n) {
        Cell::Pair(op, rest) => {
            let k = store::noted(room, n);
            if k >= 2 {
                return k == 3;
            }
            match store::look_node(room, op) {
                Cell::Pair(_, _) => {
                    if seems_constant(form, room, ch, op) {
                        let b = seems_constant_tail(form, room, ch, rest);
                        store::remember(form, room, ch, n, b)
                    } else {
                        store::remember(form, room, ch, n, false)
                    }
                }
                Cell::Atom => {
                    if sexp::is_byte_node(form, room, op, 1) {
                        true
                    } else if sexp::is_byte_node(form, room, op, 8) {
                        false
                    } else {
                        let b = seems_constant_tail(form, room, ch, rest);
                        store::remember(form, room, ch, n, b)
                    }
                }
            }
        }
        Cell::Atom => sexp::is_nil_node(form, room, n),
    }
}

#[cycle(seeming)]
pub fn seems_constant_tail(form: &[u8], room: &mut [u8], ch: Charges, n: usize) -> bool
    requires { Ready form.now room.old ch n }
    ensures { Answered form.now room.old room.new ch result (seems_constant_tail (tree_in form.now room.old n)) }
{
    match store::look_node(room, n) {
        Cell::Pair(first, rest) => {
            let k = store::noted_tail(room, n);
            if k >= 2 {
                return k == 3;
            }
            if seems_constant(form, room, ch, first) {
                let b = seems_constant_tail(form, room, ch, rest);
                store::remember_tail(form, room, ch, n, b)
            } else {
                store::remember_tail(form, room, ch, n, false)
            }
        }
        Cell::Atom => sexp::is_nil_node(form, room, n),
    }
}
