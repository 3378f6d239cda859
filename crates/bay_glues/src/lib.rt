// The flat tables of a system, read: the five glues of a strand, the glue of a bay, a cell of the two matrices, a strand's log concentration.
// Every reader is total: what a table does not hold is glue 0, or a NaN.
#![tactic(auto)]

ghost use Rattle.std.specs.Prelude.{◌≡◌, ◌+◌, ◌*◌, ◌<◌, leb, get_or};
ghost use Rattle.std.specs.Float.{nan};
ghost use Rattle.bay_system.specs.System.{system_of};
ghost use Rattle.bay_glues.specs.Tables.{glue_on, glues_of, scaffold_glue, cell_of, log_of};

use bay_system::System;
use units::{BaseEnergy, StrandGlues};

// Where a strand's glues stand among its five: clockwise from the north, then the bottom.
pub const NORTH_GLUE_INDEX: usize = 0;

pub const EAST_GLUE_INDEX: usize = 1;

pub const SOUTH_GLUE_INDEX: usize = 2;

pub const WEST_GLUE_INDEX: usize = 3;

pub const BOTTOM_GLUE_INDEX: usize = 4;

// What stands at a place of a table, another value behind its end.
fn at_or<T: Copy>(table: &[T], at: usize, behind: T) -> T
    ensures { result ≡ get_or table.now at behind }
{
    table.get(at).copied().unwrap_or(behind)
}

// The glue of a bay: the one reader of the scaffold.
pub fn scaffold_glue_at(system: &System<'_>, bay: usize) -> u32
    ensures { let s = system_of system.now in result ≡ scaffold_glue s.scaffold bay }
{
    at_or(system.scaffold, bay, 0)
}

// A strand's glue on one of its sides.
fn glue_on(strand_glues: &[u32], strand: usize, side: usize) -> u32
    requires { side < 5 }
    ensures { result ≡ glue_on strand_glues.now strand side }
{
    if strand_glues.len() <= strand {
        return 0;
    }
    at_or(strand_glues, strand * 5 + side, 0)
}

// The five glues of a strand, read from the flat table.
pub fn strand_glues_of(system: &System<'_>, strand: usize) -> StrandGlues
    ensures { let s = system_of system.now in result ≡ glues_of s.strand_glues strand }
{
    let table = system.strand_glues;
    StrandGlues {
        glues: [
            glue_on(table, strand, NORTH_GLUE_INDEX),
            glue_on(table, strand, EAST_GLUE_INDEX),
            glue_on(table, strand, SOUTH_GLUE_INDEX),
            glue_on(table, strand, WEST_GLUE_INDEX),
            glue_on(table, strand, BOTTOM_GLUE_INDEX),
        ],
    }
}

// The log concentration of a strand.
pub fn log_of(system: &System<'_>, strand: usize) -> f64
    ensures { result ≡ log_of (system_of system.now) strand }
{
    at_or(system.logs, strand, f64::NAN)
}

// Whether a row of a matrix, each `glues` long, begins within a length; the product may be too large for a usize.
fn begins_within(length: usize, glues: usize, row: usize) -> bool
    ensures { result ≡ leb (row * glues) length }
{
    row == 0 || glues <= length / row
}

// Cell (a, b) of a matrix, a NaN behind its end.
fn matrix_cell(matrix: &[f64], glues: usize, a: u32, b: u32) -> f64
    ensures { result ≡ get_or matrix.now (a * glues + b) nan }
{
    let row = a as usize;
    if begins_within(matrix.len(), glues, row) {
        at_or(matrix, row * glues + b as usize, f64::NAN)
    } else {
        f64::NAN
    }
}

// A cell of the two matrices: row a, place b.
pub fn cell(system: &System<'_>, a: u32, b: u32) -> BaseEnergy
    ensures { result ≡ cell_of (system_of system.now) a b }
{
    BaseEnergy {
        dg: matrix_cell(system.delta_g, system.sizes.glues, a, b),
        ds: matrix_cell(system.entropy, system.sizes.glues, a, b),
    }
}
