// The two energy matrices, each with a row and a column for each glue, row by row.
#![tactic(auto)]

ghost use Rattle.std.specs.Prelude.{◌≡◌, ◌*◌, ◌<◌, length, replicate};
ghost use Rattle.units.specs.Decimals.{plus};
ghost use Rattle.name_key_values.specs.Values.{values_of};
ghost use Rattle.name_keys.specs.Names.{key_names_of};
ghost use Rattle.name_key_matrices.specs.Matrices.{set_both, set_joined, InSide, delta_g as delta_g_matrix, delta_s as delta_s_matrix};
ghost use Rattle.name_keys_lent.specs.Lent.{Lent};

use name_key_values::KeyValues;
use name_keys::{Joined, KeyNames};
use units::BaseEnergy;

// 0.0 everywhere.
fn clear(matrix: &mut [f64])
    ensures { matrix.new ≡ replicate (length matrix.old) (plus 0 1) }
{
    matrix.fill(0.0);
}

// Sets cells (i, j) and (j, i) to a number.
fn set_both(matrix: &mut [f64], side: usize, i: usize, j: usize, number: f64)
    requires i_lt_side { (i < side) × (j < side) }
    requires matrix_len { length matrix.old ≡ side * side }
    ensures { matrix.new ≡ set_both side i j number matrix.old }
{
    matrix[i * side + j] = number;
    matrix[j * side + i] = number;
}

// Sets the cells that a key joins, in both matrices, to its energy.
fn set_key(
    joined: Joined,
    energy: BaseEnergy,
    side: usize,
    delta_g: &mut [f64],
    entropy: &mut [f64],
)
    requires in_side { InSide side joined }
    requires delta_g_len { (length delta_g.old ≡ side * side) × (length entropy.old ≡ side * side) }
    ensures delta_g_after { delta_g.new ≡ set_joined side joined energy.dg delta_g.old }
    ensures entropy_after { entropy.new ≡ set_joined side joined energy.ds entropy.old }
{
    match joined {
        Joined::Glues(i, j) => {
            set_both(delta_g, side, i, j, energy.dg);
            set_both(entropy, side, i, j, energy.ds);
        }
        Joined::Nothing => (),
    }
}

// Both matrices as the keys leave them: 0.0 everywhere, then key by key.
pub fn set_keys(
    names: &KeyNames<'_>,
    values: &KeyValues<'_>,
    delta_g: &mut [f64],
    entropy: &mut [f64],
)
    requires { Lent (key_names_of names.now) (values_of values.now) (length delta_g.old) (length entropy.old) }
    ensures delta_g_after { delta_g.new ≡ delta_g_matrix (key_names_of names.now) (values_of values.now) }
    ensures entropy_after { entropy.new ≡ delta_s_matrix (key_names_of names.now) (values_of values.now) }
{
    clear(delta_g);
    clear(entropy);
    let side = names.count + names.count + 1;
    for k in 0..values.kinds.len() {
        set_key(names.joined(k), values.energy(k), side, delta_g, entropy);
    }
}
