// What every part passes along: a base energy, a refusal, the answers; and the temperature.
#![tactic(auto)]

mod refusal;

ghost use Rattle.std.specs.Prelude.{◌≡◌};
ghost use Rattle.units.specs.Limits.{from_one_to, all_limits};
ghost use Rattle.units.specs.Kelvin.{in_kelvin_range, kelvin_verdict, energy_at, rtval as kelvin_rtval, times_beta};
ghost use Rattle.units.specs.Finite.{finite};

pub use refusal::Refusal;

// Rows of a grid, and its columns.
pub const MOST_SIDE: usize = 32;

// Strands of a system, strand 0 included.
pub const MOST_STRANDS: usize = 64;

// Glues of a system, glue 0 included.
pub const MOST_GLUES: usize = 256;

// Bases of glue names: base j has the glues 2j + 1 and 2j + 2.
pub const MOST_BASES: usize = 127;

// Numbers of a list of bases, a begin and an end for each.
pub const BASE_NUMBERS: usize = 254;

// Bytes of a text of names.
pub const MOST_NAME_BYTES: usize = 16384;

// Rows of a ledger.
pub const MOST_ROWS: usize = 1048576;

// Letters of a sequence.
pub const MOST_LETTERS: usize = 256;

// Kelvin, both ends included.
pub const LEAST_KELVIN: f64 = 200.0;

pub const MOST_KELVIN: f64 = 500.0;

// R in kcal/(mol·K).
pub const R: f64 = 1.98720425864083 / 1000.0;

// 37 °C in kelvin, the temperature of the printed ΔG.
pub const T37C: f64 = 310.15;

// The limits as the code has them, one by one those of the definitions.
#[derive(Clone, Copy)]
pub struct Limits {
    pub side: usize,
    pub strands: usize,
    pub glues: usize,
    pub bases: usize,
    pub base_numbers: usize,
    pub name_bytes: usize,
    pub rows: usize,
    pub letters: usize,
    pub least_kelvin: f64,
    pub most_kelvin: f64,
}

// ΔG at 37 °C in kcal/mol, and ΔS in kcal/(mol·K).
#[derive(Clone, Copy)]
pub struct BaseEnergy {
    pub dg: f64,
    pub ds: f64,
}

// The glues of one strand: north, east, south, west, bottom.
#[derive(Clone, Copy)]
pub struct StrandGlues {
    pub glues: [u32; 5],
}

// All limits at once, so that constants and definitions are held equal.
pub fn all_limits() -> Limits
    ensures { result ≡ all_limits }
{
    Limits {
        side: MOST_SIDE,
        strands: MOST_STRANDS,
        glues: MOST_GLUES,
        bases: MOST_BASES,
        base_numbers: BASE_NUMBERS,
        name_bytes: MOST_NAME_BYTES,
        rows: MOST_ROWS,
        letters: MOST_LETTERS,
        least_kelvin: LEAST_KELVIN,
        most_kelvin: MOST_KELVIN,
    }
}

// A temperature is taken from 200 to 500 kelvin, the ends included; a NaN is outside.
pub fn in_kelvin_range(kelvin: f64) -> bool
    ensures { result ≡ in_kelvin_range kelvin }
{
    LEAST_KELVIN <= kelvin && kelvin <= MOST_KELVIN
}

// Refusal 1 where the temperature is outside its range.
pub fn check_kelvin(kelvin: f64) -> Result<(), Refusal>
    ensures { result ≡ kelvin_verdict kelvin }
{
    if in_kelvin_range(kelvin) {
        Ok(())
    } else {
        Err(Refusal::Size)
    }
}

// Whether a number is from 1 to a limit.
pub fn from_one_to(most: usize, n: usize) -> bool
    ensures { result ≡ from_one_to most n }
{
    (1..=most).contains(&n)
}

// ΔG at a temperature: ΔG − (T − 310.15)·ΔS, each operation rounded once.
pub fn energy_at(energy: BaseEnergy, kelvin: f64) -> f64
    ensures { result ≡ energy_at energy kelvin }
{
    energy.dg - (kelvin - T37C) * energy.ds
}

// R·T in kcal/mol.
pub fn rtval(kelvin: f64) -> f64
    ensures { result ≡ kelvin_rtval kelvin }
{
    R * kelvin
}

// An energy in units of R·T.
pub fn times_beta(energy: f64, kelvin: f64) -> f64
    ensures { result ≡ times_beta energy kelvin }
{
    energy / rtval(kelvin)
}

// Whether a float is finite: neither a NaN nor an infinity.
pub fn is_finite(x: f64) -> bool
    ensures { result ≡ finite x }
{
    x.is_finite()
}
