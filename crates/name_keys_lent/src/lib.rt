// What is lent to a list of keys: the lengths of its slices, its flags and its offsets.
#![tactic(auto)]

ghost use Rattle.std.specs.Prelude.{◌≡◌, ◌+◌, ◌≤◌, length};
ghost use Rattle.name_key_values.specs.Values.{values_of};
ghost use Rattle.name_keys.specs.Names.{key_names_of};
ghost use Rattle.name_keys_lent.specs.Lent.{lists_fit, matrices_fit, keys_read, lent_verdict};

use name_base_list::bases_fit;
use name_key_values::KeyValues;
use name_keys::KeyNames;
use text_entries::are_flags;
use units::{BASE_NUMBERS, MOST_BASES, MOST_NAME_BYTES, Refusal};

// Whether the text is within its limit and each list has the length that the number of keys asks.
fn lists_fit(names: &KeyNames<'_>, values: &KeyValues<'_>) -> bool
    ensures { result ≡ lists_fit (length values.now.kinds.now) (length names.now.names.text.now) (length names.now.names.offsets.now)
        (length names.now.paired.now) (length values.now.numbers.now) (length values.now.sequences.offsets.now) }
{
    let keys = values.kinds.len();
    names.names.text.len() <= MOST_NAME_BYTES
        && names.names.offsets.len() == keys + keys + 1
        && names.paired.len() == keys
        && values.numbers.len() == keys + keys
        && values.sequences.offsets.len() == keys + 1
}

// Whether the bases and the matrices have their lengths.
#[tactic(auto, using(crate::proofs::LentLaws::square_small))]
fn matrices_fit(bases: usize, count: usize, delta_g: usize, entropy: usize) -> bool
    ensures { result ≡ matrices_fit bases count delta_g entropy }
{
    if MOST_BASES < count {
        return false;
    }
    let side = count + count + 1;
    let square = side * side;
    bases == BASE_NUMBERS && delta_g == square && entropy == square
}

// Whether each flag is 0 or 1, and offsets and bases lie within their texts.
fn keys_read(names: &KeyNames<'_>, values: &KeyValues<'_>) -> bool
    requires { names.now.count + names.now.count ≤ length names.now.bases.now }
    ensures { let v = values_of values.now in
        result ≡ keys_read (key_names_of names.now) v.kinds v.sequences v.sequence_offsets }
{
    are_flags(names.paired)
        && are_flags(values.kinds)
        && names.names.fit()
        && bases_fit(names.names.text.len(), names.bases, names.count)
        && values.sequences.fit()
}

// Refusal 1 for a size or a length, then 17 for a flag, an offset or a base; the matrices by their lengths.
#[tactic(auto, using(crate::proofs::LentLaws::bases_enough))]
pub fn check_lent(
    names: &KeyNames<'_>,
    values: &KeyValues<'_>,
    delta_g: usize,
    entropy: usize,
) -> Result<(), Refusal>
    ensures { result ≡ lent_verdict (key_names_of names.now) (values_of values.now) delta_g entropy }
{
    if !lists_fit(names, values)
        || !matrices_fit(names.bases.len(), names.count, delta_g, entropy)
    {
        return Err(Refusal::Size);
    }
    if !keys_read(names, values) {
        return Err(Refusal::Unreadable);
    }
    Ok(())
}
