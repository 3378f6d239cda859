// The glues of strands and bays, by a list of bases, written into tables.
#![tactic(auto)]

ghost use Rattle.std.specs.Prelude.{◌≡◌, ◌++◌, ◌+◌, ◌*◌, ◌≤◌, ◌<◌, length, take, drop};
ghost use Rattle.units.specs.Glues.{five_of};
ghost use Rattle.name_glues.specs.Names.{names_of};
ghost use Rattle.name_glue_tables.specs.Tables.{five_from, glues_of_strand, strand_table, scaffold_table};

use name_glues::Registry;
use units::StrandGlues;

// The record of the strand whose five entries begin at i.
fn five_from(registry: &Registry<'_>, i: usize) -> StrandGlues
    requires { i + 5 ≤ length registry.now.names.names.present.now }
    ensures { let n = names_of registry.now.names.names in
        result ≡ five_from n registry.now.bases.now registry.now.count i }
{
    let north = registry.glue_at(i);
    let east = registry.glue_at(i + 1);
    let south = registry.glue_at(i + 2);
    let west = registry.glue_at(i + 3);
    let bottom = registry.glue_at(i + 4);
    StrandGlues {
        glues: [north, east, south, west, bottom],
    }
}

// The record of strand s, which for strand 0 has no glue.
fn glues_of_strand(registry: &Registry<'_>, s: usize) -> StrandGlues
    requires { s * 5 ≤ length registry.now.names.names.present.now }
    ensures { let n = names_of registry.now.names.names in
        result ≡ glues_of_strand n registry.now.bases.now registry.now.count s }
{
    if s == 0 {
        return StrandGlues { glues: [0; 5] };
    }
    five_from(registry, (s - 1) * 5)
}

// Writes a strand's glues into the table, from place `at` on.
fn put_strand(table: &mut [u32], at: usize, strand: StrandGlues)
    requires { at + 5 ≤ length table.old }
    ensures { table.new ≡ take at table.old ++ (five_of strand ++ drop (at + 5) table.old) }
{
    table[at..at + 5].copy_from_slice(&strand.glues);
}

// Writes the glues of all strands.
pub fn fill_strands(registry: &Registry<'_>, strands: usize, table: &mut [u32])
    requires strands_in_bounds { strands * 5 ≤ length registry.now.names.names.present.now + 5 }
    requires table_len { length table.old ≡ strands * 5 }
    ensures { let n = names_of registry.now.names.names in
        table.new ≡ strand_table n registry.now.bases.now registry.now.count strands }
{
    for s in 0..strands {
        put_strand(table, s * 5, glues_of_strand(registry, s));
    }
}

// Writes the glues of all bays, whose entries begin at `from`.
pub fn fill_scaffold(registry: &Registry<'_>, from: usize, table: &mut [u32])
    requires { from + length table.old ≤ length registry.now.names.names.present.now }
    ensures { let n = names_of registry.now.names.names in
        table.new ≡ scaffold_table n registry.now.bases.now registry.now.count from (length table.old) }
{
    for (bay, glue) in table.iter_mut().enumerate() {
        *glue = registry.glue_at(from + bay);
    }
}
