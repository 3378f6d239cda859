// What a closed internal loop adds, by its length.
#![tactic(auto)]

ghost use Rattle.std.specs.Prelude.{◌≡◌, ◌<◌, IfSome};
ghost use Rattle.dna_loops.specs.Loops.{place_of, loop_penalty};

// The loop lengths that have a value, and the values of internal loops in kcal/mol.
pub const LENGTHS: [usize; 15] = [3, 4, 5, 6, 7, 8, 9, 10, 12, 14, 16, 18, 20, 25, 30];

pub const LOOP_TABLE: [f64; 15] = [
    3.2, 3.6, 4.0, 4.4, 4.6, 4.8, 4.9, 4.9, 5.2, 5.4, 5.6, 5.8, 5.9, 6.3, 6.6,
];

// The place of a tabled length.
#[tactic(auto, unfolding(crate::specs::Loops::lengths))]
fn place_of(length: usize) -> Option<usize>
    ensures place { result ≡ place_of length }
    ensures in_table { IfSome result (λ place. place < 15) }
{
    LENGTHS.iter().position(|&tabled| tabled == length)
}

// The internal entry for a tabled length.
pub fn loop_penalty(length: usize) -> Option<f64>
    ensures { result ≡ loop_penalty length }
{
    let place = place_of(length)?;
    Some(LOOP_TABLE[place])
}
