// Whether a ledger of this need may be made, and fits what is lent.
#![tactic(auto)]

ghost use Rattle.std.specs.Prelude.{◌≡◌};
ghost use Rattle.run_room.specs.Room.{room_verdict};

use units::Refusal;

// Refusals 8 and 9.
pub fn check_room(need: usize, energies: usize, notes: usize) -> Result<(), Refusal>
    ensures { result ≡ room_verdict need energies notes }
{
    if units::MOST_ROWS < need {
        return Err(Refusal::TooManyRows);
    }
    if energies < need || notes < need {
        return Err(Refusal::NoRoom(need));
    }
    Ok(())
}
