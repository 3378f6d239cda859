// Calls over a system, each with as much of a longer table lent as the grid or the strands ask for. Where a table is shorter than that, which no
// tested system has, the call is refused as one of the wrong size.
use crate::task::{Ledger, Tables};
use bay_legal::allowed_tiles;
use plan_marks::{mark_bays, rule_strands};
use run_choice_price::mfe_with_choice;
use sdc2d_thermo::mfe_configuration;
use units::Refusal;

// The front of a table.
fn lent<T>(table: &mut [T], count: usize) -> Result<&mut [T], Refusal> {
    if table.len() < count {
        return Err(Refusal::Size);
    }
    Ok(&mut table[..count])
}

impl Tables<'_> {
    // How many bays the scaffold has.
    fn bays(&self) -> usize {
        self.system.scaffold.len()
    }

    // The least energy and its layout.
    pub(crate) fn run(&self, layout: &mut [u32], ledger: &mut Ledger<'_>) -> Result<f64, Refusal> {
        mfe_configuration(
            &self.system,
            &self.constraints,
            lent(layout, self.bays())?,
            ledger.energies,
            ledger.notes,
        )
    }

    // The least energy with one strand at one bay.
    pub(crate) fn price(
        &self,
        bay: usize,
        strand: u32,
        layout: &mut [u32],
        ledger: &mut Ledger<'_>,
    ) -> Result<f64, Refusal> {
        mfe_with_choice(
            &self.system,
            &self.constraints,
            bay,
            strand,
            lent(layout, self.bays())?,
            ledger.energies,
            ledger.notes,
        )
    }

    // A mark for each bay.
    pub(crate) fn mark(&self, marks: &mut [u8]) -> Result<(), Refusal> {
        mark_bays(&self.system, &self.constraints, lent(marks, self.bays())?)
    }

    // The set of legal strands of each bay.
    pub(crate) fn allow(&self, sets: &mut [u64]) -> Result<(), Refusal> {
        allowed_tiles(&self.system, &self.constraints, lent(sets, self.bays())?)
    }

    // The rule of each strand at a bay.
    pub(crate) fn rule(&self, bay: usize, rules: &mut [u8]) -> Result<(), Refusal> {
        rule_strands(
            &self.system,
            &self.constraints,
            bay,
            lent(rules, self.system.sizes.strands)?,
        )
    }
}
