// What a reader of sdc2d.rs looks for, under its names: the parts of `from_params` as calls (glue names, energy keys, seeds, tile names), the tests of a
// system, and the bonds of its glues. Every call is total. Nothing stands here but the names; the crates below have the code and the contracts.
#![tactic(auto)]

pub use bay_binding::friends_btm;
pub use bay_bonds::{bond_ns, bond_we, bond_with_scaffold, glue_glue_dg};
pub use bay_glues::{
    BOTTOM_GLUE_INDEX, EAST_GLUE_INDEX, NORTH_GLUE_INDEX, SOUTH_GLUE_INDEX, WEST_GLUE_INDEX,
    scaffold_glue_at, strand_glues_of,
};
pub use bay_system::{Sizes, System, check_system};
pub use name_energy_keys::energy_keys;
pub use name_key_values::KeyValues;
pub use name_keys::KeyNames;
pub use name_registering::register;
pub use name_seed_checks::SeedList;
pub use name_seeds::seeds_by_name;
pub use name_strands::StrandNames;
pub use name_tiles::{tile_name, tile_name_refusal};
pub use text_entries::{Entries, Names};
