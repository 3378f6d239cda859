// What a run refused, as sentences.
use crate::line::Line;
use crate::messages::{Told, begin, finish, put_bay};
use crate::task::Tables;
use bay_lists::Constraints;
use text_fronts::front;
use units::Refusal;

// Says what the run refused.
pub(crate) fn say_run(folder: &[u8], refusal: Refusal, tables: &Tables<'_>) -> Told {
    let mut room = [0u8; 8192];
    let mut line = begin(&mut room, folder);
    match refusal {
        Refusal::NoLegalStrand(bay) => say_no_strand(&mut line, bay, tables),
        Refusal::TooManyRows => finish(
            &mut line,
            b"refusal 8: the run needs more than 1048576 rows of ledger; restrict more bays or plan a smaller grid",
        ),
        Refusal::NoRoom(need) => {
            line.put_with(b"refusal 9: the run needs ", need);
            finish(
                &mut line,
                b" rows of ledger, and the planner has 400000; restrict more bays, or lend the library's sdc2d_thermo::mfe_configuration a longer ledger",
            )
        }
        Refusal::BadSum => finish(
            &mut line,
            b"refusal 10: some legal layout has an energy that is no number or minus infinity; look for an energy key far out of range",
        ),
        _ => {
            line.put_with(b"refusal ", refusal.number() as usize);
            line.put_with(b" at place ", refusal.first());
            finish(&mut line, b" counted from 0 of the system's tables")
        }
    }
}

// Says why a bay has no legal strand.
fn say_no_strand(line: &mut Line<'_>, bay: usize, tables: &Tables<'_>) -> Told {
    let sizes = tables.system.sizes;
    let mut rules = [4u8; 64];
    let _ = tables.rule(bay, &mut rules);
    line.put(b"refusal 7: bay ");
    put_bay(line, bay, sizes.cols);
    line.put(b" has no legal strand: its list names");
    put_list(
        line,
        list_of(&tables.constraints, bay),
        front(&rules, sizes.strands),
    );
    finish(
        line,
        b"; name a strand that may lie there, 0 to keep an unseeded bay empty, or nothing to leave it free",
    )
}

// The list of a bay, empty where the offsets name none.
fn list_of<'a>(constraints: &Constraints<'a>, bay: usize) -> &'a [u32] {
    let Constraints::Lists { offsets, tiles } = constraints else {
        return &[];
    };
    match (offsets.get(bay), offsets.get(bay.saturating_add(1))) {
        (Some(from), Some(to)) => tiles.get(*from..*to).unwrap_or(&[]),
        _ => &[],
    }
}

// The numbers of a list, no more than the first eight, then the rule that forbids each, and the seed that the list leaves out.
fn put_list(line: &mut Line<'_>, list: &[u32], rules: &[u8]) {
    let shown = front(list, 8);
    for tile in shown {
        line.put_with(b" ", *tile as usize);
    }
    if 8 < list.len() {
        line.put_with(b" and so on, ", list.len());
        line.put(b" numbers");
    }
    for tile in shown {
        put_reason(line, *tile as usize, rules);
    }
    put_left_out(line, rules);
}

// Why a number does not help.
fn put_reason(line: &mut Line<'_>, strand: usize, rules: &[u8]) {
    match rules.get(strand) {
        None => line.put_with(b", and there is no strand ", strand),
        Some(rule) => {
            line.put_with(b", and strand ", strand);
            if *rule == 1 {
                line.put(b" is not the one that is seeded there");
            } else {
                line.put(b" does not bind there");
            }
        }
    }
}

// Says which seed the list leaves out, where another strand is forbidden because of it.
fn put_left_out(line: &mut Line<'_>, rules: &[u8]) {
    if rules.contains(&1) {
        let seeded = rules.iter().position(|rule| *rule == 3);
        line.put_with(b", while strand ", seeded.unwrap_or(rules.len()));
        line.put(b", which is seeded there, is not in the list");
    }
}
