// The order in which bays are scanned.
#![tactic(auto)]

ghost use Rattle.std.specs.Prelude.{◌≡◌, ◌*◌, ◌≤◌, ◌<◌};
ghost use Rattle.units.specs.Limits.{most_side};
ghost use Rattle.bay_scan_order.specs.Scan.{bay_at, number_at};

// The bay, by its row-by-row number, that is scanned as number k.
pub fn bay_at(rows: usize, cols: usize, k: usize) -> usize
    requires { (rows ≤ most_side) × (cols ≤ most_side) × (k < rows * cols) }
    ensures { result ≡ bay_at rows cols k }
{
    if cols <= rows {
        return k;
    }
    (k % rows) * cols + k / rows
}

// The number in the scan of a bay.
pub fn number_at(rows: usize, cols: usize, bay: usize) -> usize
    requires { (rows ≤ most_side) × (cols ≤ most_side) × (bay < rows * cols) }
    ensures { result ≡ number_at rows cols bay }
{
    if cols <= rows {
        return bay;
    }
    (bay % cols) * rows + bay / cols
}
