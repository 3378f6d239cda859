// Numbers of a sheet: columns of decimals and of logarithms, a field read as a decimal, and one read as a row or a column of a grid.
//
// What reads a column puts a number for every record and answers the first line, from 1, whose field is none.
#![tactic(auto)]

mod count_field;
mod float_column;

pub use count_field::count_at;
pub use float_column::{Kind, decimal_at, put_floats};
