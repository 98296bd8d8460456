// The public functions, on byte slices, and the types of their answers: nothing else is exported.
#![tactic(auto)]

pub use evaluation::{Evaluated, evaluate};
pub use form::{Written, read, write};
pub use matcher::{Matching, Parts, Verdict, matches};
pub use optimiser::{Report, optimise};
pub use refusals::Refusal;
pub use texts::{evaluate_text, optimise_text, read_text, text_fault, write_text};
pub use totals::{Added, Column, Savings, add_form, none_yet};
