// What the rules take over of the Rust's sdc2d_thermo.rs, under its names: the legal strands of every bay, the energies of bays, of pairs and of a
// layout, and the layout of least energy. Each call is total, and its contract fits one answer.
#![tactic(auto)]

pub use bay_legal::allowed_tiles;
pub use bay_lists::Constraints;
pub use energy_bays::{edge_beta_between, site_beta_energy};
pub use energy_listing_sum::state_beta_energy;
pub use energy_state::state_g;
pub use run_mfe::mfe_configuration;
