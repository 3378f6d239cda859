// The penalty of a window with a single mismatch.
#![tactic(auto)]

ghost use Rattle.std.specs.Prelude.{◌≡◌};
ghost use Rattle.dna_mismatches.specs.Mismatches.{calc_penalty, single_mismatch_penalty};

use dna_letters::{DnaNucleotideBase, good_match};

// For PX over (P*)Y, in kcal/mol: the block of P, the row of X, the place of Y, each in the order A, T, G, C, as in the Rust.
pub const PENALTY_TABLE: [[[f64; 4]; 4]; 4] = [
    [
        [0.61, 0.0, 0.14, 0.88], // AA over TA, TT, TG, TC
        [0.0, 0.69, 0.07, 0.73], // AT over TA, TT, TG, TC
        [0.02, 0.71, -0.13, 0.0], // AG over TA, TT, TG, TC
        [0.77, 0.64, 0.0, 1.33], // AC over TA, TT, TG, TC
    ],
    [
        [0.69, 0.0, 0.42, 0.92], // TA over AA, AT, AG, AC
        [0.0, 0.68, 0.34, 0.75], // TT over AA, AT, AG, AC
        [0.74, 0.43, 0.44, 0.0], // TG over AA, AT, AG, AC
        [1.33, 0.97, 0.0, 1.05], // TC over AA, AT, AG, AC
    ],
    [
        [0.17, 0.0, -0.25, 0.81], // GA over CA, CT, CG, CC
        [0.0, 0.45, -0.59, 0.98], // GT over CA, CT, CG, CC
        [-0.52, 0.08, -1.11, 0.0], // GG over CA, CT, CG, CC
        [0.47, 0.62, 0.0, 0.79], // GC over CA, CT, CG, CC
    ],
    [
        [0.43, 0.0, 0.03, 0.75], // CA over GA, GT, GG, GC
        [0.0, -0.12, -0.32, 0.40], // CT over GA, GT, GG, GC
        [0.11, -0.47, -0.11, 0.0], // CG over GA, GT, GG, GC
        [0.79, 0.62, 0.0, 0.70], // CC over GA, GT, GG, GC
    ],
];

// The penalty of PX over (P*)Y.
pub fn calc_penalty(prior: DnaNucleotideBase, x: DnaNucleotideBase, y: DnaNucleotideBase) -> f64
    ensures { result ≡ calc_penalty prior x y }
{
    PENALTY_TABLE[prior.index()][x.index()][y.index()]
}

// The penalty of a window a1 a2 over b1 b2 that does not match.
pub fn calculate_single_mismatch_penalty(
    a1: DnaNucleotideBase,
    a2: DnaNucleotideBase,
    b1: DnaNucleotideBase,
    b2: DnaNucleotideBase,
) -> f64
    ensures { result ≡ single_mismatch_penalty a1 a2 b1 b2 }
{
    if good_match(a1, b1) {
        // PX over (P*)Y
        calc_penalty(a1, a2, b2)
    } else if good_match(a2, b2) {
        // XP over Y(P*), read from the other strand
        calc_penalty(b2, b1, a1)
    } else {
        0.0
    }
}
