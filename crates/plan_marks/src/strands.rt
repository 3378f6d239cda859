// The rule for every strand at one bay.
ghost use Rattle.std.specs.Prelude.{◌≡◌, ◌<◌, length};
ghost use Rattle.bay_system.specs.System.{system_of};
ghost use Rattle.bay_lists.specs.Lists.{constraints_of};
ghost use Rattle.bay_given.specs.Given.{Given};
ghost use Rattle.plan_marks.specs.Marks.{code_of, codes_of, place_verdict, codes_verdict, codes_after};

use bay_given::check_given;
use bay_lists::Constraints;
use bay_system::System;
use plan_reasons::{StrandRule, strand_rule};
use units::Refusal;

// The code of a rule.
fn code_of(rule: StrandRule) -> u8
    ensures { result ≡ code_of rule }
{
    match rule {
        StrandRule::Legal => 0,
        StrandRule::OtherSeed => 1,
        StrandRule::NoBond => 2,
        StrandRule::NotNamed => 3,
        StrandRule::Unknown => 4,
    }
}

// Writes the codes of all strands at a bay, for a system that passed its tests.
fn fill_codes(system: &System<'_>, constraints: &Constraints<'_>, bay: usize, rules: &mut [u8])
    requires given { Given (system_of system.now) (constraints_of constraints.now) }
    requires bay_in_bounds { bay < length (system_of system.now).scaffold }
    requires rules_len { length rules.old ≡ (system_of system.now).sizes.strands }
    ensures { rules.new ≡ codes_of (system_of system.now) (constraints_of constraints.now) bay }
{
    for (strand, rule) in rules.iter_mut().enumerate() {
        *rule = code_of(strand_rule(system, constraints, bay, strand as u32));
    }
}

// Refusal 5 of the lent slice and of the bay.
fn check_place(strands: usize, bays: usize, lent: usize, bay: usize) -> Result<(), Refusal>
    ensures { result ≡ place_verdict strands bays lent bay }
{
    if lent == strands && bay < bays {
        Ok(())
    } else {
        Err(Refusal::Shape)
    }
}

// The rule for each strand at one bay: 0 legal, 1 another strand is seeded there, 2 no bond with the bay's glue, 3 the bay's list leaves
// it out.
pub fn rule_strands(
    system: &System<'_>,
    constraints: &Constraints<'_>,
    bay: usize,
    rules: &mut [u8],
) -> Result<(), Refusal>
    ensures answer { let s = system_of system.now in
        result ≡ codes_verdict s (length rules.old) (constraints_of constraints.now) bay }
    ensures rules { rules.new ≡ codes_after (system_of system.now) (constraints_of constraints.now) bay rules.old }
{
    check_given(system, constraints, system.scaffold.len())?;
    check_place(
        system.sizes.strands,
        system.scaffold.len(),
        rules.len(),
        bay,
    )?;
    fill_codes(system, constraints, bay, rules);
    Ok(())
}
