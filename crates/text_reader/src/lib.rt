// From text to the serialised form: tokens, words, and a machine over tokens that needs no recursion.
#![tactic(auto)]

mod convert;
mod emit;
mod machine;
mod scan;
mod words;

pub use convert::{fault_of_text, form_of_text};
