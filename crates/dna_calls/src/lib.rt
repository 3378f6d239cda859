// The energies of sequences: one strand with its perfect fit, or two strands written letter over letter.
#![tactic(auto)]

mod hundredths;
mod single;

pub use dna_pairs::sequence_pair_str_dg_ds;
pub use hundredths::string_dna_hundredths;
pub use single::{string_dna_delta_g, string_dna_dg_ds};
