// The values of a step and of the start.
#![tactic(auto)]

ghost use Rattle.std.specs.Prelude.{◌≡◌, ◌≤◌};
ghost use Rattle.dna_steps.specs.Steps.{step_place, step_of, dg_ds, start, add_energy, no_energy};

use dna_letters::DnaNucleotideBase;
use units::BaseEnergy;

// ΔG in kcal/mol, ΔS in kcal/(mol·K), and −ΔG in hundredths, by first and second letter in the order A, T, G, C. Each is a column of its own, one
// number a line, as it is compared with what is printed.
const STEP_DG: [f64; 16] = [
    -1.0, // AA
    -0.88, // AT
    -1.28, // AG
    -1.44, // AC
    -0.58, // TA
    -1.0, // TT
    -1.45, // TG
    -1.30, // TC
    -1.30, // GA
    -1.44, // GT
    -1.84, // GG
    -2.24, // GC
    -1.45, // CA
    -1.28, // CT
    -2.17, // CG
    -1.84, // CC
];

const STEP_DS: [f64; 16] = [
    -0.0213, // AA
    -0.0204, // AT
    -0.0210, // AG
    -0.0224, // AC
    -0.0213, // TA
    -0.0213, // TT
    -0.0227, // TG
    -0.0222, // TC
    -0.0222, // GA
    -0.0224, // GT
    -0.0199, // GG
    -0.0244, // GC
    -0.0227, // CA
    -0.0210, // CT
    -0.0272, // CG
    -0.0199, // CC
];

const STEP_HUNDREDTHS: [u32; 16] = [
    100, // AA
    88, // AT
    128, // AG
    144, // AC
    58, // TA
    100, // TT
    145, // TG
    130, // TC
    130, // GA
    144, // GT
    184, // GG
    224, // GC
    145, // CA
    128, // CT
    217, // CG
    184, // CC
];

// ΔG and ΔS of the start. The paper has its ΔS with a minus.
pub const INITIATION_DG: f64 = 1.96;

pub const INITIATION_DS: f64 = 0.0057;

// 0.0 and 0.0, where every sum begins.
pub fn no_energy() -> BaseEnergy
    ensures { result ≡ no_energy }
{
    BaseEnergy { dg: 0.0, ds: 0.0 }
}

// The start term.
pub fn start() -> BaseEnergy
    ensures { result ≡ start }
{
    BaseEnergy {
        dg: INITIATION_DG,
        ds: INITIATION_DS,
    }
}

// The sum of two base energies, term by term.
pub fn add_energy(x: BaseEnergy, y: BaseEnergy) -> BaseEnergy
    ensures { result ≡ add_energy x y }
{
    BaseEnergy {
        dg: x.dg + y.dg,
        ds: x.ds + y.ds,
    }
}

// The place of a step in the tables: the row of its first letter, the place of its second, each in the order A, T, G, C.
fn step_place(a: DnaNucleotideBase, b: DnaNucleotideBase) -> usize
    ensures { result ≡ step_place a b }
{
    a.index() * 4 + b.index()
}

// For a pair 5' - a, b - 3', ΔG at 37 °C and ΔS (the Rust's `dG_dS`).
pub fn dg_ds(a: DnaNucleotideBase, b: DnaNucleotideBase) -> BaseEnergy
    ensures { result ≡ dg_ds a b }
{
    let place = step_place(a, b);
    BaseEnergy {
        dg: STEP_DG[place],
        ds: STEP_DS[place],
    }
}

// −ΔG of a step in hundredths of a kcal/mol.
pub fn step_hundredths(a: DnaNucleotideBase, b: DnaNucleotideBase) -> u32
    ensures { (result ≡ (step_of a b).dg) × (result ≤ 224) }
{
    STEP_HUNDREDTHS[step_place(a, b)]
}
