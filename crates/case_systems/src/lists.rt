// The lists of a system: glues, logarithms and seeds.
ghost use Rattle.std.specs.Prelude.{IfSome};
ghost use Rattle.case_systems.specs.Within.{ListsWithin};

use case_field_reads::list_field;

// How many items each of the four has.
#[derive(Clone, Copy)]
pub(crate) struct Lists {
    pub strand_glues: usize,
    pub scaffold: usize,
    pub logs: usize,
    pub seeds: usize,
}

// Reads the four lists, if all can be.
pub(crate) fn lists_into(
    line: &[u8],
    strand_glues: &mut [u32],
    scaffold: &mut [u32],
    logs: &mut [f64],
    seeds: &mut [u32],
) -> Option<Lists>
    ensures { IfSome result (λ read. ListsWithin read strand_glues.old scaffold.old logs.old seeds.old) }
{
    Some(Lists {
        strand_glues: list_field(line, b"strand_glues", strand_glues)?,
        scaffold: list_field(line, b"scaffold", scaffold)?,
        logs: list_field(line, b"logs", logs)?,
        seeds: list_field(line, b"seeds", seeds)?,
    })
}
