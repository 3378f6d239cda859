// Seeds that are given by name: their sizes and counts, the tile that a name means, and what is refused of each.
#![tactic(auto)]

ghost use Rattle.std.specs.Prelude.{◌≡◌, true, ◌+◌, ◌<◌, length};
ghost use Rattle.text_entries.specs.Entries.{offsets_fit};
ghost use Rattle.text_entries.specs.InOrder.{found};
ghost use Rattle.name_strands.specs.Names.{strand_names_of, StrandsReadable};
ghost use Rattle.name_seed_checks.specs.Sizes.{seed_list_of, seed_count, seeds_sized, SeedsReadable};
ghost use Rattle.name_seed_checks.specs.Strands.{tile_count, seed_strand};
ghost use Rattle.name_seed_checks.specs.Each.{seed_name, seed_verdict, each_seed};

use name_shown::shown;
use name_strands::StrandNames;
use text_entries::Entries;
use units::{MOST_NAME_BYTES, Refusal};

// Seeds as they are given: the row and the column of each, and its name.
#[derive(Clone, Copy)]
pub struct SeedList<'a> {
    pub places: &'a [usize],
    pub names: Entries<'a>,
}

impl SeedList<'_> {
    // How many they are, by their rows and columns.
    pub fn count(&self) -> usize
        ensures { result ≡ seed_count (seed_list_of self.now) }
    {
        self.places.len() / 2
    }

    // Whether the sizes and counts are right for a table of this length.
    pub fn sized(&self, table: usize) -> bool
        ensures { result ≡ seeds_sized (seed_list_of self.now) table }
    {
        self.places.len() % 2 == 0
            && self.names.text.len() <= MOST_NAME_BYTES
            && self.names.offsets.len() == self.count() + 1
            && table == 3 * self.count()
    }
}

// The first tile with this shown name.
#[tactic(auto, using(text_entries::proofs::InOrder::here, text_entries::proofs::InOrder::later, text_entries::proofs::InOrder::nowhere))]
fn first_shown(names: &StrandNames<'_>, name: &[u8]) -> Option<usize>
    requires { StrandsReadable (strand_names_of names.now) }
    ensures { let n = strand_names_of names.now in
        result ≡ found (tile_count n) (seed_strand n name.now) }
{
    for tile in 0..names.names.present.len() {
        if shown(names, tile) == name {
            return Some(tile);
        }
    }
    None
}

// The same for the name of seed k.
pub fn seed_strand(names: &StrandNames<'_>, seeds: &SeedList<'_>, k: usize) -> Option<usize>
    requires strands_readable { StrandsReadable (strand_names_of names.now) }
    requires k_in_bounds { k + 1 < length seeds.now.names.offsets.now }
    requires fit { offsets_fit (length seeds.now.names.text.now) seeds.now.names.offsets.now ≡ true }
    ensures { let n = strand_names_of names.now in
        result ≡ found (tile_count n) (seed_strand n (seed_name (seed_list_of seeds.now) k)) }
{
    first_shown(names, seeds.names.entry(k))
}

// Whether seed k lies on the grid and is named as a tile is.
#[tactic(auto, unfolding(crate::specs::Each::seed_verdict))]
fn check_seed(
    rows: usize,
    cols: usize,
    names: &StrandNames<'_>,
    seeds: &SeedList<'_>,
    k: usize,
) -> Result<(), Refusal>
    requires strands_readable { StrandsReadable (strand_names_of names.now) }
    requires seeds_readable { SeedsReadable (seed_list_of seeds.now) }
    requires k_in_bounds { k < seed_count (seed_list_of seeds.now) }
    ensures { result ≡ seed_verdict rows cols (strand_names_of names.now) (seed_list_of seeds.now) k }
{
    if !(seeds.places[2 * k] < rows && seeds.places[2 * k + 1] < cols) {
        return Err(Refusal::Seed(k));
    }
    match seed_strand(names, seeds, k) {
        Some(_) => Ok(()),
        None => Err(Refusal::UnknownSeed(k)),
    }
}

// The same of all seeds, in list order: the first that is refused counts.
#[tactic(auto, using(text_entries::proofs::InOrder::each_more, text_entries::proofs::InOrder::each_refused, text_entries::proofs::InOrder::each_done))]
pub fn check_seeds(
    rows: usize,
    cols: usize,
    names: &StrandNames<'_>,
    seeds: &SeedList<'_>,
) -> Result<(), Refusal>
    requires strands_readable { StrandsReadable (strand_names_of names.now) }
    requires seeds_readable { SeedsReadable (seed_list_of seeds.now) }
    ensures { result ≡ each_seed rows cols (strand_names_of names.now) (seed_list_of seeds.now) }
{
    for k in 0..seeds.count() {
        check_seed(rows, cols, names, seeds, k)?;
    }
    Ok(())
}
