// Whether statements fit their file.

ghost use Rattle.std.specs.Prelude.{◌≡◌, ◌&&◌};
ghost use Rattle.std.specs.List.{list_all};
ghost use Rattle.dae_program.specs.Lawful.{is_byte, is_label_word, is_word};
ghost use Rattle.dae_program.specs.Switches.{count_arms};
ghost use Rattle.dae_program.specs.Trees.{Done};
ghost use Rattle.dae_program.specs.Views.{statement_then, view_settings, view_statements, arms_of};
ghost use Rattle.dae_types_sound.specs.Fit.{are_fit_arms, are_fit_statements, is_fit_aggregate, is_fit_item, loop_jumps, switch_jumps};

use crate::expressions::{are_fit, fits_frame, is_fit, is_fit_some, is_word};
use crate::extents::{FileNames, FunctionExtent, Jumps};
use dae_program::{Arm, FormatPiece, Setting, Statement};

fn loop_jumps(jumps: Jumps) -> Jumps
    ensures { result ≡ loop_jumps jumps }
{
    Jumps {
        breaks: true,
        continues: true,
        returns: jumps.returns,
    }
}

fn switch_jumps(jumps: Jumps) -> Jumps
    ensures { result ≡ switch_jumps jumps }
{
    Jumps {
        breaks: true,
        continues: jumps.continues,
        returns: jumps.returns,
    }
}

fn is_fit_aggregate(extent: FunctionExtent, offset: u32, bytes: u32) -> bool
    ensures { result ≡ is_fit_aggregate extent offset bytes }
{
    is_word(offset) && is_word(bytes) && u64::from(offset) + u64::from(bytes) <= extent.frame
}

fn are_fit_items(names: &FileNames, extent: FunctionExtent, items: &[Setting]) -> bool
    ensures { result ≡ list_all (is_fit_item names.now extent) (view_settings items.now) }
{
    for item in items {
        let placed = is_word(item.offset) && fits_frame(item.width, item.offset, extent.frame);
        if !(placed && is_fit(names, extent, &item.value)) {
            return false;
        }
    }
    true
}

fn is_byte(piece: FormatPiece) -> bool
    ensures { result ≡ is_byte piece }
{
    match piece {
        FormatPiece::Byte(byte) => byte <= u8::MAX,
        FormatPiece::Word(_, _) => true,
        FormatPiece::String(_) => true,
    }
}

fn are_bytes(pieces: &[FormatPiece]) -> bool
    ensures { result ≡ list_all is_byte pieces.now }
{
    for piece in pieces {
        if !is_byte(*piece) {
            return false;
        }
    }
    true
}

fn is_label_word(label: Option<u32>) -> bool
    ensures { result ≡ is_label_word label }
{
    match label {
        Some(k) => is_word(k),
        None => true,
    }
}

fn are_label_words(labels: &[Option<u32>]) -> bool
    ensures { result ≡ list_all is_label_word labels.now }
{
    for label in labels {
        if !is_label_word(*label) {
            return false;
        }
    }
    true
}

/// Whether the number of some arms is a word.
#[tactic(auto, using(dae_program::proofs::LawsOfTrees::arms_counted))]
fn is_count_word(arms: &[Arm]) -> bool
    ensures { result ≡ is_word (count_arms (arms_of arms.now)) }
{
    u32::try_from(arms.len()).is_ok()
}

fn all_three(one: bool, two: bool, three: bool) -> bool
    ensures { result ≡ (one && (two && three)) }
{
    one && (two && three)
}

/// Whether all of some statements fit their file and function, where these jumps may stand.
#[cycle(fit_statements)]
pub fn are_fit_statements(
    names: &FileNames,
    extent: FunctionExtent,
    jumps: Jumps,
    statements: &[Statement],
) -> bool
    ensures { result ≡ are_fit_statements names.now extent jumps (view_statements statements.now) }
{
    for s in statements {
        if !is_fit_statement(names, extent, jumps, s) {
            return false;
        }
    }
    true
}

#[cycle(fit_statements)]
#[tactic(auto, using(dae_base::proofs::Laws::and_nothing))]
fn is_fit_statement(names: &FileNames, extent: FunctionExtent, jumps: Jumps, s: &Statement) -> bool
    ensures { result ≡ are_fit_statements names.now extent jumps (statement_then s.now Done) }
{
    match s {
        Statement::Evaluate(_, a) => is_fit(names, extent, a),
        Statement::Initialise(_, offset, bytes, items) => {
            is_fit_aggregate(extent, *offset, *bytes) && are_fit_items(names, extent, items)
        }
        Statement::Print(_, xs, pieces) => are_fit(names, extent, xs) && are_bytes(pieces),
        Statement::If(_, a, yes, no) => {
            let test = is_fit(names, extent, a);
            let holds = are_fit_statements(names, extent, jumps, yes);
            let fails = are_fit_statements(names, extent, jumps, no);
            all_three(test, holds, fails)
        }
        Statement::Loop(_, test, body, step) => {
            let test = is_fit_some(names, extent, test);
            let turn = are_fit_statements(names, extent, loop_jumps(jumps), body);
            let after = is_fit_some(names, extent, step);
            all_three(test, turn, after)
        }
        Statement::Do(_, body, test) => {
            let turn = are_fit_statements(names, extent, loop_jumps(jumps), body);
            let after = is_fit(names, extent, test);
            all_three(turn, after, true)
        }
        Statement::Switch(_, a, arms) => {
            let value = is_fit(names, extent, a);
            let count = is_count_word(arms);
            let inside = are_fit_arms(names, extent, switch_jumps(jumps), arms);
            all_three(value, count, inside)
        }
        Statement::Break(_) => jumps.breaks,
        Statement::Continue(_) => jumps.continues,
        Statement::Return(_, a) => jumps.returns && is_fit_some(names, extent, a),
    }
}

#[cycle(fit_statements)]
fn are_fit_arms(names: &FileNames, extent: FunctionExtent, jumps: Jumps, arms: &[Arm]) -> bool
    ensures { result ≡ are_fit_arms names.now extent jumps (arms_of arms.now) }
{
    for arm in arms {
        let labels = are_label_words(&arm.labels);
        let body = are_fit_statements(names, extent, jumps, &arm.statements);
        if !all_three(labels, body, true) {
            return false;
        }
    }
    true
}
