// Registering: from the names of glues to their numbers, and to the list of bases.
#![tactic(auto)]

ghost use Rattle.std.specs.Prelude.{◌≡◌, length};
ghost use Rattle.name_glues.specs.Names.{names_of};
ghost use Rattle.name_register_input.specs.Input.{request, Fitting};
ghost use Rattle.name_registering.specs.Register.{register_answer, glues_after, scaffold_after, bases_after};
ghost use Rattle.name_registering.specs.Steps.{Registered};

use name_glues::{GlueNames, Registry};
use name_new_bases::collect;
use name_register_input::check_input;
use name_registered_tables::write_tables;
use text_entries::Names;
use units::Refusal;

// Registers names that can be read. The bases are collected aside, so that a refusal writes nothing.
fn register_names(
    strands: usize,
    names: &GlueNames<'_>,
    glues: &mut [u32],
    scaffold: &mut [u32],
    bases: &mut [usize],
) -> Result<usize, Refusal>
    requires { let n = names_of names.now.names in
        Fitting n strands (length glues.old) (length scaffold.old) (length bases.old) }
    ensures { let n = names_of names.now.names in
        Registered n strands result glues.old scaffold.old bases.old glues.new scaffold.new bases.new }
{
    let list = collect(names)?;
    names.check_stars((strands - 1) * 5)?;
    let registry = Registry {
        names: *names,
        bases: &list.numbers,
        count: list.count,
    };
    write_tables(&registry, strands, glues, scaffold, bases);
    Ok(list.count)
}

// Registers the glue names of a system: strand by strand, then the scaffold row by row. The answer is the count of bases.
pub fn register(
    rows: usize,
    cols: usize,
    strands: usize,
    names: &Names<'_>,
    strand_glues: &mut [u32],
    scaffold: &mut [u32],
    bases: &mut [usize],
) -> Result<usize, Refusal>
    ensures answer { let q = request rows cols strands (names_of names.now) (length strand_glues.old) (length scaffold.old) (length bases.old) in
        result ≡ register_answer q }
    ensures glues { let q = request rows cols strands (names_of names.now) (length strand_glues.old) (length scaffold.old) (length bases.old) in
        strand_glues.new ≡ glues_after q strand_glues.old }
    ensures scaffold { let q = request rows cols strands (names_of names.now) (length strand_glues.old) (length scaffold.old) (length bases.old) in
        scaffold.new ≡ scaffold_after q scaffold.old }
    ensures bases { let q = request rows cols strands (names_of names.now) (length strand_glues.old) (length scaffold.old) (length bases.old) in
        bases.new ≡ bases_after q bases.old }
{
    check_input(
        rows,
        cols,
        strands,
        names,
        strand_glues.len(),
        scaffold.len(),
        bases.len(),
    )?;
    register_names(
        strands,
        &GlueNames { names: *names },
        strand_glues,
        scaffold,
        bases,
    )
}
