// What the rules take over of the Rust's utils.rs, under its names: the calls on sequences and the tables that they read.
#![tactic(auto)]

pub use dna_calls::{string_dna_delta_g, string_dna_dg_ds, string_dna_hundredths};
pub use dna_letters::{DnaNucleotideBase, good_match};
pub use dna_loops::{LENGTHS, LOOP_TABLE, loop_penalty};
pub use dna_mismatches::{PENALTY_TABLE, calc_penalty, calculate_single_mismatch_penalty};
pub use dna_pairs::sequence_pair_str_dg_ds;
pub use dna_steps::{INITIATION_DG, INITIATION_DS, dg_ds};
