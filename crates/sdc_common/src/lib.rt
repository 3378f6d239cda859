// What the rules take over of sdc_common.rs, under the Rust's names. Each call here asks nothing of its caller.
// The Rust's triple of `self_and_inverse` is here the base, a leading part of the lent name, and `is_from` with the count of stars; an inverse has no text of its own.
// `RefOrPair` and `GsOrSeq` hold places in a lent text where the Rust holds the names and the sequence. `get_or_generate` asks what a registering keeps true between
// its steps, so it stays below, in `name_new_bases`; who registers names calls `name_registering::register`.
#![tactic(auto)]

pub use name_key_values::{GsOrSeq, gsorseq_to_gs};
pub use name_keys::RefOrPair;
pub use name_stars::{is_from, self_and_inverse, star_count};
