// The order of the scan: which lines are the major ones, sets from rows into scan order, and strands from scan order back into rows.
#![tactic(auto)]

ghost use Rattle.std.specs.Prelude.{◌≡◌, ◌*◌, ◌≤◌, length, get_or, take};
ghost use Rattle.units.specs.Limits.{most_side};
ghost use Rattle.bay_scan_order.specs.Scan.{by_rows, window, number_at};
ghost use Rattle.ledger_rows.specs.Blocks.{tab};
ghost use Rattle.run_scan_tables.specs.Order.{scan_sets};

use bay_scan_order::{bay_at, number_at};
use units::MOST_SIDE;

// The most bays that a grid has.
pub const MOST_BAYS: usize = MOST_SIDE * MOST_SIDE;

// Writes sets that stand row by row to the front of a table, in scan order.
pub fn fill_scan(rows: usize, cols: usize, sets: &[u64], scan: &mut [u64])
    requires rows_le_most_side { (rows ≤ most_side) × (cols ≤ most_side) }
    requires cols_in_bounds { (rows * cols ≤ length sets.now) × (rows * cols ≤ length scan.old) }
    ensures { take (rows * cols) scan.new ≡ scan_sets rows cols sets.now }
{
    for (k, set) in scan[..rows * cols].iter_mut().enumerate() {
        *set = sets[bay_at(rows, cols, k)];
    }
}

// Whether major lines are rows.
pub fn by_rows(rows: usize, cols: usize) -> bool
    ensures { result ≡ by_rows rows cols }
{
    cols <= rows
}

// The shorter side: how long a major line is.
pub fn window(rows: usize, cols: usize) -> usize
    ensures { result ≡ window rows cols }
{
    if by_rows(rows, cols) { cols } else { rows }
}

// Writes strands that stand in scan order into a layout, row by row.
pub fn lay_out(rows: usize, cols: usize, order: &[u32], layout: &mut [u32])
    requires rows_le_most_side { (rows ≤ most_side) × (cols ≤ most_side) }
    requires order_len { (length order.now ≡ rows * cols) × (length layout.old ≡ rows * cols) }
    ensures { layout.new ≡ tab (λ bay. get_or order.now (number_at rows cols bay) 0) (rows * cols) }
{
    for (bay, strand) in layout.iter_mut().enumerate() {
        *strand = order[number_at(rows, cols, bay)];
    }
}
