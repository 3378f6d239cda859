// The constraints of a system: where each bay's list ends, and the strands of all lists.
#![tactic(auto)]

ghost use Rattle.std.specs.Prelude.{◌≡◌, length, IfSome};
ghost use Rattle.bay_lists.specs.Lists.{constraints_of};
ghost use Rattle.case_constraints.specs.Within.{ConstraintsWithin, constraints_in};

use bay_lists::Constraints;
use case_field_reads::list_field;
use case_text::{front, has_field};

// How many items each of the two lists has.
#[derive(Clone, Copy)]
pub struct ListCounts {
    pub offsets: usize,
    pub tiles: usize,
}

// How far the tables of the lists are filled, where there are lists.
#[derive(Clone, Copy)]
pub struct ConstraintsRead {
    pub lists: Option<ListCounts>,
}

impl ConstraintsRead {
    // The constraints whose lists stand at the fronts of these tables.
    pub fn lent<'a>(&self, offsets: &'a [usize], tiles: &'a [u32]) -> Constraints<'a>
        ensures { constraints_of result ≡ constraints_in self.now offsets.now tiles.now }
    {
        match self.lists {
            Some(counts) => Constraints::Lists {
                offsets: front(offsets, counts.offsets),
                tiles: front(tiles, counts.tiles),
            },
            None => Constraints::Absent,
        }
    }
}

// Reads the constraints of a case, if they can be read; it has some exactly where it has the field `offsets`.
pub fn read_constraints(
    line: &[u8],
    offsets: &mut [usize],
    tiles: &mut [u32],
) -> Option<ConstraintsRead>
    ensures { IfSome result (λ read. ConstraintsWithin read line.now (length offsets.old) (length tiles.old)) }
{
    if !has_field(line, b"offsets") {
        return Some(ConstraintsRead { lists: None });
    }
    let offsets = list_field(line, b"offsets", offsets)?;
    let tiles = list_field(line, b"tiles", tiles)?;
    let lists = Some(ListCounts { offsets, tiles });
    Some(ConstraintsRead { lists })
}
