// The step of the ledger's running choice. The ledger itself, over any strands and any numbers, and its theorem are in specs/.
#![tactic(auto)]

ghost use Rattle.std.specs.Prelude.{◌≡◌};
ghost use Rattle.ledger_rows.specs.Blocks.{lower};

use floats::Choice;

// The new choice where its energy is smaller, or NaN or minus infinity; else the old one.
pub fn lower(old: Choice, new: Choice) -> Choice
    ensures { result ≡ lower old new }
{
    if floats::is_bad(new.energy) {
        return new;
    }
    floats::better_choice(old, new)
}
