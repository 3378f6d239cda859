// Sizes and temperature of a system, and their limits.
ghost use Rattle.std.specs.Prelude.{◌≡◌};
ghost use Rattle.bay_system.specs.System.{sizes_fit};

use units::{MOST_GLUES, MOST_SIDE, MOST_STRANDS, from_one_to, in_kelvin_range};

#[derive(Clone, Copy)]
pub struct Sizes {
    pub rows: usize,
    pub cols: usize,
    pub strands: usize,
    pub glues: usize,
    pub kelvin: f64,
}

// Whether the sizes and the temperature are within the limits.
pub(crate) fn sizes_fit(z: Sizes) -> bool
    ensures { result ≡ sizes_fit z }
{
    from_one_to(MOST_SIDE, z.rows)
        && from_one_to(MOST_SIDE, z.cols)
        && from_one_to(MOST_STRANDS, z.strands)
        && from_one_to(MOST_GLUES, z.glues)
        && in_kelvin_range(z.kelvin)
}
