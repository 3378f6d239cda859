// The first least row of a block.
ghost use Rattle.std.specs.Prelude.{◌≡◌, ◌<◌, length};
ghost use Rattle.ledger_rows.specs.Blocks.{held_at, lowest};

use floats::Choice;

// The first least row of a block, with its energy.
pub(crate) fn least_row(block: &[f64]) -> Choice
    requires { 0 < length block.now }
    ensures { result ≡ lowest (λ i. record { energy = held_at block.now i; who = i }) (length block.now) }
{
    let mut choice = Choice {
        energy: block[0],
        who: 0,
    };
    for i in 1..block.len() {
        choice = ledger_rows::lower(
            choice,
            Choice {
                energy: block[i],
                who: i,
            },
        );
    }
    choice
}
