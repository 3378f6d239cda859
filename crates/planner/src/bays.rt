// A bay by its row and column, as people count it.

// The row and the column of a bay, from 1.
#[derive(Clone, Copy, PartialEq, Eq)]
pub(crate) struct Bay {
    pub(crate) row: usize,
    pub(crate) column: usize,
}

impl Bay {
    // The bay with a number, which the rules count from 0.
    pub(crate) fn numbered(number: usize, cols: usize) -> Bay {
        if cols == 0 {
            return Bay { row: 1, column: 1 };
        }
        Bay {
            row: from_one(number / cols),
            column: from_one(number % cols),
        }
    }

    // Its number, which the rules count from 0. Past the numbers it is the greatest.
    pub(crate) fn number(self, cols: usize) -> usize {
        self.row
            .saturating_sub(1)
            .saturating_mul(cols)
            .saturating_add(self.column.saturating_sub(1))
    }
}

// A number that counts from 0 as one that counts from 1.
pub(crate) fn from_one(n: usize) -> usize {
    n.saturating_add(1)
}
