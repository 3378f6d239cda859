// Seeds that are given by name.
#![tactic(auto)]

ghost use Rattle.std.specs.Prelude.{◌≡◌, length, take, drop, ◌∷◌, ◌++◌, ◌<◌, ℕ, ◌+◌, ◌*◌, ◌≤◌};
ghost use Rattle.units.specs.Limits.{most_side};
ghost use Rattle.name_strands.specs.Names.{strand_names_of, StrandsReadable};
ghost use Rattle.name_seed_checks.specs.Sizes.{seed_list_of, seed_count, seeds_sizes, seeds_reading, SeedsReadable};
ghost use Rattle.name_seed_checks.specs.Strands.{tile_count, seed_strand};
ghost use Rattle.name_seed_checks.specs.Each.{seed_row, seed_col, seed_name};
ghost use Rattle.name_seeds.specs.Seeds.{seeds_verdict, seeds_after, seed_triples};

use name_seed_checks::{SeedList, check_seeds, seed_strand};
use name_strands::StrandNames;
use units::{MOST_SIDE, Refusal, from_one_to};

// Triple k of the table.
fn put_seed(table: &mut [u32], k: usize, row: u32, col: u32, strand: u32)
    requires { 3 * k + 3 ≤ length table.old }
    ensures { table.new ≡ take (3 * k) table.old ++ row ∷ col ∷ strand ∷ drop (3 * k + 3) table.old }
{
    table[3 * k..3 * k + 3].copy_from_slice(&[row, col, strand]);
}

// The triples of all seeds. Where the tests passed each seed lies on the grid and is named as a tile is.
#[tactic(auto, using(crate::proofs::Triples::fill_turn, crate::proofs::Triples::filled), unfolding(crate::specs::Seeds::seed_triples))]
fn fill_seeds(names: &StrandNames<'_>, seeds: &SeedList<'_>, table: &mut [u32])
    requires strands_readable { StrandsReadable (strand_names_of names.now) }
    requires seeds_readable { SeedsReadable (seed_list_of seeds.now) }
    requires placed { let s = seed_list_of seeds.now in
        ((k : ℕ) → k < seed_count s → (seed_row s k < most_side) × (seed_col s k < most_side)) }
    requires named { let n = strand_names_of names.now in let s = seed_list_of seeds.now in
        ((k : ℕ) → k < seed_count s → seed_strand n (seed_name s k) < tile_count n) }
    requires table_len { length table.old ≡ 3 * seed_count (seed_list_of seeds.now) }
    ensures { let s = seed_list_of seeds.now in
        table.new ≡ seed_triples (strand_names_of names.now) s (seed_count s) }
{
    for k in 0..seeds.count() {
        let row = seeds.places[2 * k] as u32;
        let col = seeds.places[2 * k + 1] as u32;
        let strand = seed_strand(names, seeds, k).unwrap() as u32;
        put_seed(table, k, row, col, strand);
    }
}

// That every size and count is right, for a table of this length.
fn check_sizes(
    rows: usize,
    cols: usize,
    strands: usize,
    names: &StrandNames<'_>,
    seeds: &SeedList<'_>,
    table: usize,
) -> Result<(), Refusal>
    ensures { result ≡ seeds_sizes rows cols strands (strand_names_of names.now) (seed_list_of seeds.now) table }
{
    let on_grid = from_one_to(MOST_SIDE, rows) && from_one_to(MOST_SIDE, cols);
    if on_grid && names.sized(strands) && seeds.sized(table) {
        Ok(())
    } else {
        Err(Refusal::Size)
    }
}

// That every text can be read.
fn check_texts(names: &StrandNames<'_>, seeds: &SeedList<'_>) -> Result<(), Refusal>
    requires { (1 < length names.now.names.offsets.now) × (0 < length names.now.names.present.now) }
    ensures { result ≡ seeds_reading (strand_names_of names.now) (seed_list_of seeds.now) }
{
    if names.readable() && seeds.names.fit() {
        Ok(())
    } else {
        Err(Refusal::Unreadable)
    }
}

// All of 1, then all of 17, then seed by seed; where nothing is refused, triples row, column, strand, each strand being the first tile whose shown name is the seed's.
#[tactic(auto, unfolding(crate::specs::Seeds::seeds_verdict))]
pub fn seeds_by_name(
    rows: usize,
    cols: usize,
    strands: usize,
    names: &StrandNames<'_>,
    seeds: &SeedList<'_>,
    table: &mut [u32],
) -> Result<(), Refusal>
    ensures answer { result ≡ seeds_verdict rows cols strands (strand_names_of names.now) (seed_list_of seeds.now) (length table.old) }
    ensures table { table.new ≡ seeds_after rows cols strands (strand_names_of names.now) (seed_list_of seeds.now) table.old }
{
    check_sizes(rows, cols, strands, names, seeds, table.len())?;
    check_texts(names, seeds)?;
    check_seeds(rows, cols, names, seeds)?;
    fill_seeds(names, seeds, table);
    Ok(())
}
