// The fields of a system in a case line (docs/CASES.md, "Calls on systems"), read to the fronts of lent tables.
#![tactic(auto)]

ghost use Rattle.std.specs.Prelude.{IfSome};
ghost use Rattle.case_systems.specs.Within.{Within};

mod lists;
mod sizes;

use bay_system::Sizes;
pub use case_constraints::{ConstraintsRead, read_constraints};
pub use case_field_reads::list_field;
use case_matrices::matrices_into;
use lists::lists_into;
use sizes::read_sizes;

// What was read of a system: its sizes, and how far each table is filled.
#[derive(Clone, Copy)]
pub struct SystemRead {
    pub sizes: Sizes,
    pub strand_glues: usize,
    pub scaffold: usize,
    pub delta_g: usize,
    pub entropy: usize,
    pub logs: usize,
    pub seeds: usize,
}

// Reads a system into the tables that are lent for it, if all of it can be read. The six tables stay parameters of their own: a
// struct of them would be built for this one call and taken apart by it again, so it is no plainer.
pub fn read_system(
    line: &[u8],
    strand_glues: &mut [u32],
    scaffold: &mut [u32],
    delta_g: &mut [f64],
    entropy: &mut [f64],
    logs: &mut [f64],
    seeds: &mut [u32],
) -> Option<SystemRead>
    ensures { IfSome result (λ read. Within read strand_glues.old scaffold.old delta_g.old entropy.old logs.old seeds.old) }
{
    let sizes = read_sizes(line)?;
    let lists = lists_into(line, strand_glues, scaffold, logs, seeds)?;
    let matrices = matrices_into(line, sizes.glues, delta_g, entropy)?;
    Some(SystemRead {
        sizes,
        strand_glues: lists.strand_glues,
        scaffold: lists.scaffold,
        delta_g: matrices.delta_g,
        entropy: matrices.entropy,
        logs: lists.logs,
        seeds: lists.seeds,
    })
}
