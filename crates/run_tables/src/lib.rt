// The tables that a run works out once: the bonds of all pairs of strands, and the energies of each bay's strands in scan order.
#![tactic(auto)]

mod bonds_of;
mod sites;

pub use bonds_of::fill_bonds;
pub use sites::{MOST_SITES, fill_sites};
