// The lists that constrain bays: their shape, the list of a bay, and what it keeps of a set of strands.
#![tactic(auto)]

ghost use Rattle.std.specs.Prelude.{◌≡◌, true, ◌&&◌, ◌≤◌, ◌<◌, ◌*◌};
ghost use Rattle.units.specs.Limits.{most_side};
ghost use Rattle.sets.specs.Set.{has, word};
ghost use Rattle.text_entries.specs.Entries.{entry_of};
ghost use Rattle.bay_lists.specs.Lists.{lists, names, offsets_shaped, constraints_of, list_of, list_allows};

use text_entries::offsets_fit;

// Absent, or a list of strands for each bay: the list of bay i is what stands in `tiles` from offset i up to offset i + 1.
#[derive(Clone, Copy)]
pub enum Constraints<'a> {
    Absent,
    Lists {
        offsets: &'a [usize],
        tiles: &'a [u32],
    },
}

impl<'a> Constraints<'a> {
    // Whether constraint offsets, where there are any, have the right shape.
    pub fn offsets_shaped(&self, bays: usize) -> bool
        requires { bays ≤ most_side * most_side }
        ensures { result ≡ offsets_shaped bays (constraints_of self.now) }
    {
        match *self {
            Constraints::Absent => true,
            Constraints::Lists { offsets, tiles } => {
                offsets.len() == bays + 1
                    && offsets[0] == 0
                    && offsets_fit(offsets, tiles.len())
                    && offsets[bays] == tiles.len()
            }
        }
    }

    // The list of a bay, which is empty where constraints are absent.
    pub fn bay_list(&self, bays: usize, bay: usize) -> &'a [u32]
        requires shaped { offsets_shaped bays (constraints_of self.now) ≡ true }
        requires bay_lt_bays { bay < bays }
        ensures { result.now ≡ list_of (constraints_of self.now) bay }
    {
        match *self {
            Constraints::Absent => &[],
            Constraints::Lists { offsets, tiles } => listed(bays, offsets, tiles, bay),
        }
    }

    // The strands of a set that a bay's list keeps: all where it is empty.
    pub fn restricted(&self, set: u64, bays: usize, bay: usize) -> u64
        requires shaped { offsets_shaped bays (constraints_of self.now) ≡ true }
        requires bay_lt_bays { bay < bays }
        ensures { let list = list_of (constraints_of self.now) bay in result ≡ word (λ t. has set t && list_allows list t) 64 }
    {
        let list = self.bay_list(bays, bay);
        if list.is_empty() {
            set
        } else {
            sets::both(set, list_set(list))
        }
    }
}

// What stands between the two offsets of a bay.
fn listed<'a>(bays: usize, offsets: &[usize], tiles: &'a [u32], bay: usize) -> &'a [u32]
    requires shaped { offsets_shaped bays (lists offsets.now tiles.now) ≡ true }
    requires bay_lt_bays { bay < bays }
    ensures { result.now ≡ entry_of tiles.now offsets.now bay }
{
    &tiles[offsets[bay]..offsets[bay + 1]]
}

// The set of the strands below 64 that a list names.
fn list_set(tiles: &[u32]) -> u64
    ensures { result ≡ word (names tiles.now) 64 }
{
    let mut set = sets::empty();
    for &tile in tiles {
        set = sets::with(set, tile);
    }
    set
}
