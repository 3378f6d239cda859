// The listing sum of a layout, in units of R·T: from 0.0, row by row, bay, west bond, north bond, one after another.
#![tactic(auto)]

ghost use Rattle.std.specs.Prelude.{◌≡◌, ◌%◌, eqb, length};
ghost use Rattle.bay_system.specs.System.{system_of};
ghost use Rattle.energy_listing_sum.specs.Listing.{strand_at, with_edge, with_west, with_north, listing};

use bay_system::System;
use energy_bays::{edge_beta_between, site_beta_energy};

// The strand on a bay, 0 behind the layout's end.
fn strand_at(layout: &[u32], bay: usize) -> usize
    ensures { result ≡ strand_at layout.now bay }
{
    layout.get(bay).copied().unwrap_or(0) as usize
}

// Whether a bay lies in the first column; of a grid without columns bay 0 alone does.
fn in_first_column(cols: usize, bay: usize) -> bool
    ensures { result ≡ eqb (bay % cols) 0 }
{
    if cols == 0 {
        return bay == 0;
    }
    bay % cols == 0
}

// A sum and then the bond of a bay and another, which lies north of it or west of it.
fn with_edge(
    system: &System<'_>,
    layout: &[u32],
    north_south: bool,
    other: usize,
    bay: usize,
    sum: f64,
) -> f64
    ensures { result ≡ with_edge (system_of system.now) layout.now north_south other bay sum }
{
    let first = strand_at(layout, other);
    let second = strand_at(layout, bay);
    sum + edge_beta_between(system, north_south, first, second)
}

// A sum and then the bay's west bond; the first column has none.
#[tactic(auto, using(crate::proofs::Sums::past_first), unfolding(crate::specs::Listing::with_west))]
fn with_west(system: &System<'_>, layout: &[u32], bay: usize, sum: f64) -> f64
    ensures { result ≡ with_west (system_of system.now) layout.now bay sum }
{
    if in_first_column(system.sizes.cols, bay) {
        return sum;
    }
    with_edge(system, layout, false, bay - 1, bay, sum)
}

// A sum and then the bay's north bond; the first row has none.
#[tactic(auto, unfolding(crate::specs::Listing::with_north))]
fn with_north(system: &System<'_>, layout: &[u32], bay: usize, sum: f64) -> f64
    ensures { result ≡ with_north (system_of system.now) layout.now bay sum }
{
    let cols = system.sizes.cols;
    if bay < cols {
        return sum;
    }
    with_edge(system, layout, true, bay - cols, bay, sum)
}

// The listing sum.
pub fn state_beta_energy(system: &System<'_>, layout: &[u32]) -> f64
    ensures { result ≡ listing (system_of system.now) layout.now (length layout.now) }
{
    let mut sum = 0.0;
    for bay in 0..layout.len() {
        let site = site_beta_energy(system, bay, strand_at(layout, bay));
        let west = with_west(system, layout, bay, sum + site);
        sum = with_north(system, layout, bay, west);
    }
    sum
}
