// The three tables of a registering, written from the list of bases.
#![tactic(auto)]

ghost use Rattle.std.specs.Prelude.{◌≡◌, length};
ghost use Rattle.units.specs.Limits.{base_numbers};
ghost use Rattle.name_glues.specs.Names.{names_of};
ghost use Rattle.name_glue_tables.specs.Tables.{strand_table, scaffold_table};
ghost use Rattle.name_register_input.specs.Input.{first_bay, Fitting};

use name_glue_tables::{fill_scaffold, fill_strands};
use name_glues::Registry;

// Writes the three lent tables.
pub fn write_tables(
    registry: &Registry<'_>,
    strands: usize,
    glues: &mut [u32],
    scaffold: &mut [u32],
    bases: &mut [usize],
)
    requires fact { let n = names_of registry.now.names.names in
        Fitting n strands (length glues.old) (length scaffold.old) (length bases.old) }
    requires list_len { length registry.now.bases.now ≡ base_numbers }
    ensures glues { let n = names_of registry.now.names.names in
        glues.new ≡ strand_table n registry.now.bases.now registry.now.count strands }
    ensures scaffold { let n = names_of registry.now.names.names in
        scaffold.new ≡ scaffold_table n registry.now.bases.now registry.now.count (first_bay strands) (length scaffold.old) }
    ensures bases { bases.new ≡ registry.now.bases.now }
{
    fill_strands(registry, strands, glues);
    fill_scaffold(registry, (strands - 1) * 5, scaffold);
    bases.copy_from_slice(registry.bases);
}
