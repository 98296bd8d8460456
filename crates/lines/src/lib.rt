// What a program needs that reads lines, of lower-case hex or as they stand, and prints outcomes. It lends every byte: what reads fill,
// what a line spells, and the text that waits to be written. No contract can say what is read or written: so the contracts say what
// waits.
#![tactic(auto)]

mod print;
mod read;

pub use print::{
    flush, print_hex, print_no, print_no_line, print_numbers, print_ok, print_word, room_for_line,
};
pub use read::{Got, Lines, Spelling, left, next_line, next_two, start};
