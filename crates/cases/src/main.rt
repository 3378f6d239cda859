// Runs the rules' cases that are not starred, which are too large to be computed in a proof, and prints how many come out otherwise.
#![tactic(auto)]

mod bases;
mod grids;

use case_answer_lines::{put_text, put_value};

// Standard output's number.
const STDOUT: i32 = 1;

fn main() {
    let right = [
        grids::fifty_three_fit(),
        grids::fifty_four_are_too_many(),
        bases::the_127th_fits(),
        bases::the_128th_is_refused(),
    ];
    let differ = right.iter().filter(|right| !**right).count();
    let mut out = [0u8; 32];
    let at = put_value(&mut out, 0, b"differ ", differ);
    let end = put_text(&mut out, at, b"\n");
    io::write_all(STDOUT, case_text::front(&out, end));
}
