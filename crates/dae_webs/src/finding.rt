// A plan of webs: which definitions start one. What it says is nowhere relied on.

ghost use Rattle.std.specs.Prelude.{◌≡◌, IfOk};

use crate::extents::{Extent, Extents, note_statement, over_both};
use crate::forgetting::variable_set;
use crate::liveness::{
    LiveBehind, TwoLists, bit_of, bits_in_test, empty_lists, item_transfer, list_transfer,
    live_at_start, live_at_step, loop_transfer,
};
use crate::plan::WebPlan;
use dae_ir::{Function, Item, Statement};
use std::alloc::{AllocError, Global};

/// The variables in question, by their bits; what goes backward through the lists of Ifs and Loops, and how many of these the walk
/// from the end has met; which definitions start a web, by their numbers, and how many stand before the place in question.
#[derive(Drop)]
struct WebFinder {
    bits: Vec<u64>,
    lists: Vec<TwoLists>,
    met: usize,
    starts: Vec<bool>,
    number: usize,
}

/// Of a function: the variable of each definition, how many definitions there are up to the end of each statement of its own list,
/// and where its variables occur in that list.
#[derive(Drop)]
struct Survey {
    definitions: Vec<u32>,
    ends: Vec<usize>,
    extents: Vec<Option<Extent>>,
}

/// Variables from a number on: at most 64 have bits, and the next ones are those from `rest` on.
#[derive(Drop)]
struct Batch {
    bits: Vec<u64>,
    rest: usize,
}

// The variable of each definition.
#[cycle(collect)]
fn add_definitions(out: &mut Vec<u32>, statements: &[Statement]) -> Result<(), AllocError> {
    for statement in statements {
        add_definitions_in(out, statement)?;
    }
    Ok(())
}

#[cycle(collect)]
fn add_definitions_in(out: &mut Vec<u32>, statement: &Statement) -> Result<(), AllocError> {
    match statement {
        Statement::Simple(_, item) => {
            if let Some(variable) = variable_set(item) {
                out.push(variable)?;
            }
            Ok(())
        }
        Statement::If(_, _, first, second) | Statement::Loop(_, first, second) => {
            add_definitions(out, first)?;
            add_definitions(out, second)
        }
    }
}

fn no_extents(alloc: Global, variables: u32) -> Result<Vec<Option<Extent>>, AllocError> {
    let mut extents = Vec::new(alloc);
    for _ in 0..variables {
        extents.push(None)?;
    }
    Ok(extents)
}

fn survey_function(alloc: Global, function: &Function) -> Result<Survey, AllocError> {
    let mut definitions = Vec::new(alloc);
    let mut ends = Vec::new(alloc);
    let mut extents = Extents {
        extents: no_extents(alloc, function.variables)?,
        place: 0,
    };
    for statement in function.body.as_slice() {
        add_definitions_in(&mut definitions, statement)?;
        ends.push(definitions.len())?;
        note_statement(&mut extents, statement);
        extents.place = extents.place.wrapping_add(1);
    }
    Ok(Survey {
        definitions,
        ends,
        extents: extents.extents,
    })
}

// A flag for each variable: parameters are set.
fn parameters_set(alloc: Global, parameters: u32, variables: u32) -> Result<Vec<bool>, AllocError> {
    let mut flags = Vec::new(alloc);
    for variable in 0..variables {
        flags.push(0 < variable && variable <= parameters)?;
    }
    Ok(flags)
}

fn has_flag(flags: &[bool], number: usize) -> bool {
    match flags.get(number) {
        Some(flag) => *flag,
        None => false,
    }
}

fn set_flag(flags: &mut Vec<bool>, number: usize) {
    if number < flags.len() {
        flags[number] = true;
    }
}

// The variables that are set more than once, where parameters are set at the function's entry.
fn set_again(
    alloc: Global,
    function: &Function,
    definitions: &[u32],
) -> Result<Vec<bool>, AllocError> {
    let mut once = parameters_set(alloc, function.parameters, function.variables)?;
    let mut again = parameters_set(alloc, 0, function.variables)?;
    for variable in definitions {
        if has_flag(&once, *variable as usize) {
            set_flag(&mut again, *variable as usize);
        }
        set_flag(&mut once, *variable as usize);
    }
    Ok(again)
}

// The next variables in question.
fn next_batch(alloc: Global, again: &[bool], first: usize) -> Result<Batch, AllocError> {
    let mut bits = Vec::new(alloc);
    let mut bit: u64 = 1;
    let mut rest = again.len();
    for number in 0..again.len() {
        if number >= first && bit != 0 && again[number] {
            bits.push(bit)?;
            bit = bit.wrapping_add(bit);
            if bit == 0 {
                rest = number + 1;
            }
        } else {
            bits.push(0)?;
        }
    }
    Ok(Batch { bits, rest })
}

// The next variable with a flag, from a number on, or how many there are.
fn next_flag(flags: &[bool], first: usize) -> usize {
    for number in first..flags.len() {
        if flags[number] {
            return number;
        }
    }
    flags.len()
}

// What goes backward through the lists of the If or Loop that is met next.
fn next_lists(finding: &mut WebFinder) -> TwoLists {
    let met = finding.met;
    finding.met = met.wrapping_add(1);
    match finding.lists.get(met) {
        Some(both) => *both,
        None => empty_lists(),
    }
}

// A definition starts a web where its variable isn't live at the beginnings of the lists that it stands in, nor behind them.
fn find_in_item(finding: &mut WebFinder, item: &Item, outside: u64) {
    if let Some(variable) = variable_set(item) {
        finding.number = finding.number.wrapping_sub(1);
        let bit = bit_of(&finding.bits, variable);
        if bit != 0 && bit & outside == 0 {
            set_flag(&mut finding.starts, finding.number);
        }
    }
}

// The last statement of a list comes first.
#[cycle(find)]
fn find_in_list(
    finding: &mut WebFinder,
    statements: &[Statement],
    behind: LiveBehind,
    outside: u64,
) {
    let mut live = behind.next;
    for index in (0..statements.len()).rev() {
        let here = LiveBehind {
            next: live,
            leaves: behind.leaves,
            skips: behind.skips,
        };
        live = find_in_statement(finding, &statements[index], here, outside);
    }
}

// The answer is what is live before the statement.
#[cycle(find)]
fn find_in_statement(
    finding: &mut WebFinder,
    statement: &Statement,
    behind: LiveBehind,
    outside: u64,
) -> u64 {
    match statement {
        Statement::Simple(_, item) => {
            find_in_item(finding, item, outside);
            live_at_start(item_transfer(&finding.bits, item), behind)
        }
        Statement::If(_, test, yes, no) => {
            let both = next_lists(finding);
            let first = live_at_start(both.first, behind);
            let second = live_at_start(both.second, behind);
            let inside = outside | behind.next | first | second;
            find_in_list(finding, no, behind, inside);
            find_in_list(finding, yes, behind, inside);
            bits_in_test(&finding.bits, *test) | first | second
        }
        Statement::Loop(_, body, step) => {
            let both = next_lists(finding);
            let head = live_at_start(loop_transfer(both), behind);
            let again = live_at_step(both.second, head, behind.next);
            let inside = outside | behind.next | head | again;
            let back = LiveBehind {
                next: head,
                leaves: behind.next,
                skips: head,
            };
            find_in_list(finding, step, back, inside);
            let turn = LiveBehind {
                next: again,
                leaves: behind.next,
                skips: again,
            };
            find_in_list(finding, body, turn, inside);
            head
        }
    }
}

fn extent_at(extents: &[Option<Extent>], number: usize) -> Option<Extent> {
    match extents.get(number) {
        Some(extent) => *extent,
        None => None,
    }
}

// Where variables with bits occur.
fn extent_of(bits: &[u64], extents: &[Option<Extent>]) -> Option<Extent> {
    let mut all = None;
    for number in 0..bits.len() {
        if bits[number] != 0 {
            if let Some(extent) = extent_at(extents, number) {
                all = Some(over_both(all, extent));
            }
        }
    }
    all
}

fn part_of(statements: &[Statement], extent: Extent) -> &[Statement] {
    if extent.first <= extent.end && extent.end <= statements.len() {
        &statements[extent.first..extent.end]
    } else {
        statements
    }
}

// How many definitions there are up to the end of a part.
fn count_up_to(ends: &[usize], extent: Extent) -> usize {
    match ends.get(extent.end.wrapping_sub(1)) {
        Some(count) => *count,
        None => 0,
    }
}

// Which definitions of the variables with bits start a web. The part of the function where they occur is gone through from its end:
// first for what goes backward through the lists in it, and then for the definitions.
fn mark_in_part(
    alloc: Global,
    bits: Vec<u64>,
    starts: Vec<bool>,
    survey: &Survey,
    statements: &[Statement],
) -> Result<Vec<bool>, AllocError> {
    let Some(extent) = extent_of(&bits, &survey.extents) else {
        return Ok(starts);
    };
    let part = part_of(statements, extent);
    let mut lists = Vec::new(alloc);
    list_transfer(&bits, &mut lists, part)?;
    let mut finding = WebFinder {
        bits,
        lists,
        met: 0,
        starts,
        number: count_up_to(&survey.ends, extent),
    };
    let nowhere = LiveBehind {
        next: 0,
        leaves: 0,
        skips: 0,
    };
    find_in_list(&mut finding, part, nowhere, 0);
    Ok(finding.starts)
}

// Which definitions start a web. They are sought for 64 variables at once that are set again.
fn mark_starts(
    alloc: Global,
    again: &[bool],
    survey: &Survey,
    statements: &[Statement],
) -> Result<Vec<bool>, AllocError> {
    let mut starts = Vec::new(alloc);
    for _ in 0..survey.definitions.len() {
        starts.push(false)?;
    }
    let mut first = next_flag(again, 0);
    for _ in 0..again.len() / 64 + 1 {
        if again.len() <= first {
            return Ok(starts);
        }
        let batch = next_batch(alloc, again, first)?;
        first = next_flag(again, batch.rest);
        starts = mark_in_part(alloc, batch.bits, starts, survey, statements)?;
    }
    Ok(starts)
}

/// The webs of a function's variables. The first one of a variable is the variable itself, and each further one a new variable,
/// as long as there are not too many.
pub fn find_webs(alloc: Global, function: &Function) -> Result<WebPlan, AllocError>
    ensures { IfOk result (λ plan. plan.variables ≡ function.now.variables) }
{
    let variables = function.variables;
    let statements = function.body.as_slice();
    let survey = survey_function(alloc, function)?;
    let again = set_again(alloc, function, &survey.definitions)?;
    let marks = mark_starts(alloc, &again, &survey, statements)?;
    let mut met = parameters_set(alloc, function.parameters, variables)?;
    let limit = variables.saturating_add(variables.saturating_sub(9) / 2);
    let mut next = variables;
    let mut starts = Vec::new(alloc);
    let mut owners = Vec::new(alloc);
    for number in 0..survey.definitions.len() {
        let variable = survey.definitions[number];
        if !has_flag(&marks, number) {
            starts.push(None)?;
        } else if has_flag(&met, variable as usize) && next < limit {
            starts.push(Some(next))?;
            owners.push(variable)?;
            next += 1;
        } else {
            starts.push(Some(variable))?;
        }
        set_flag(&mut met, variable as usize);
    }
    Ok(WebPlan {
        variables,
        starts,
        owners,
    })
}
