// casts.rs and node_path.rs: an atom's bytes as a number, paths, and their turns.
#![tactic(auto)]

mod casts;
mod node_path;
mod path_rule;
mod turns;

pub use casts::{Number, bigint_to_bytes_unsigned, is_zero, unsigned};
pub use node_path::{compose_paths, node_path_index};
pub use path_rule::{Lengthened, lengthen};
pub use turns::{is_low, sub_turn_count, turn, turn_count};
