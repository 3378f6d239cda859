// The seeds, which are given by name.
ghost use Rattle.std.specs.Prelude.{◌≤◌};

use crate::messages::{Told, say_field};
use crate::refusals::say_seeds;
use crate::shapes::{Form, records_of};
use crate::task::Extent;
use name_seed_checks::SeedList;
use name_seeds::seeds_by_name;
use name_strands::StrandNames;
use sheet_names::put_content;
use sheet_records::check_table;
use sheet_seeds::{put_places, put_seed_names};
use text_entries::Entries;
use text_fronts::front;
use units::Refusal;

// Whether a sheet is the one word `none`.
fn is_none(sheet: &[u8]) -> bool {
    if check_table(sheet, 1, 1) != Ok(1) {
        return false;
    }
    let mut word = [0u8; 8];
    let n = put_content(sheet, 0, &mut word, 0);
    front(&word, n) == b"none".as_slice()
}

// Reads the seeds into triples, and answers how many numbers these are.
pub(crate) fn read_seeds(
    folder: &[u8],
    sheet: &[u8],
    extent: &Extent,
    names: &StrandNames<'_>,
    seeds: &mut [u32; 3072],
) -> Result<usize, Told> {
    if is_none(sheet) {
        return Ok(0);
    }
    let count = records_of(
        folder,
        sheet,
        3,
        1024,
        &Form {
            sheet: b"seeds.csv",
            refusal: b"",
            many: b"there are more than 1024 seeds; a later seed replaces an earlier one of its bay, so 1024 are enough",
            record: b"a seed has 3 fields: its row, its column and a strand's name; where no bay is seeded the sheet is the word none",
        },
    )?;
    let mut places = [0usize; 2048];
    if let Err(place) = put_places(sheet, count, &mut places) {
        return Err(say_field(
            folder,
            b"seeds.csv",
            place,
            b"rows and columns are plain numbers from 1",
        ));
    }
    match triples_of(
        sheet,
        count,
        extent,
        names,
        front(&places, 2 * count),
        seeds,
    ) {
        Ok(()) => Ok(3 * count),
        Err(refusal) => Err(say_seeds(folder, refusal, extent, sheet)),
    }
}

// Seeds by their places and the entries of their names.
fn seed_list<'a>(places: &'a [usize], text: &'a [u8], offsets: &'a [usize]) -> SeedList<'a> {
    let names = Entries { text, offsets };
    SeedList { places, names }
}

// Reads the names of so many seeds, and puts three numbers for each.
fn triples_of(
    sheet: &[u8],
    count: usize,
    extent: &Extent,
    names: &StrandNames<'_>,
    places: &[usize],
    seeds: &mut [u32; 3072],
) -> Result<(), Refusal>
    requires { count ≤ 1024 }
{
    let mut text = [0u8; 16385];
    let mut offsets = [0usize; 1025];
    let mut present = [0u8; 1024];
    let end = put_seed_names(sheet, count, &mut text, &mut offsets, &mut present);
    seeds_by_name(
        extent.rows,
        extent.cols,
        extent.records + 1,
        names,
        &seed_list(places, front(&text, end), front(&offsets, count + 1)),
        &mut seeds[..3 * count],
    )
}
