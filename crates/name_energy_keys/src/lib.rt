// The call: energy keys fill the two energy matrices.
#![tactic(auto)]

ghost use Rattle.std.specs.Prelude.{◌≡◌, length};
ghost use Rattle.units.specs.Refusals.{if_passes};
ghost use Rattle.name_key_values.specs.Values.{values_of};
ghost use Rattle.name_keys.specs.Names.{key_names_of};
ghost use Rattle.name_key_matrices.specs.Matrices.{delta_g as delta_g_matrix, delta_s as delta_s_matrix};
ghost use Rattle.name_energy_keys.specs.Keys.{keys_verdict};

use name_key_matrices::set_keys;
use name_key_values::KeyValues;
use name_keys::KeyNames;
use name_keys_lent::check_lent;
use units::Refusal;

// Sets both matrices to 0.0 and then, key by key, the cells of the two glues that a key joins to its energy.
pub fn energy_keys(
    names: &KeyNames<'_>,
    values: &KeyValues<'_>,
    delta_g: &mut [f64],
    entropy: &mut [f64],
) -> Result<(), Refusal>
    ensures answer { result ≡ keys_verdict (key_names_of names.now) (values_of values.now) (length delta_g.old) (length entropy.old) }
    ensures energies { let n = key_names_of names.now in let v = values_of values.now in
        delta_g.new ≡ if_passes (keys_verdict n v (length delta_g.old) (length entropy.old)) (delta_g_matrix n v) delta_g.old }
    ensures entropies { let n = key_names_of names.now in let v = values_of values.now in
        entropy.new ≡ if_passes (keys_verdict n v (length delta_g.old) (length entropy.old)) (delta_s_matrix n v) entropy.old }
{
    check_lent(names, values, delta_g.len(), entropy.len())?;
    values.check()?;
    set_keys(names, values, delta_g, entropy);
    Ok(())
}
