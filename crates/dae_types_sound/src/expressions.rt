// Whether expressions fit their file.

ghost use Rattle.std.specs.Prelude.{◌≡◌, ◌&&◌, Some};
ghost use Rattle.dae_program.specs.Lawful.{is_word, fits_frame, adds, count, number_of, takes};
ghost use Rattle.dae_program.specs.Views.{view, view_expressions, view_target, view_some};
ghost use Rattle.dae_types_sound.specs.Fit.{has_bytes, is_in_object, names_bytes, is_checked_or_fit, parameters_at, is_fit, is_fit_call, is_fit_target, are_fit, is_fit_some};

use crate::extents::{FileNames, FunctionExtent};
use dae_base::Width;
use dae_meaning::Operator;
use dae_program::{Expression, Target};
use dae_types_kinds::Layout;

/// Each number in memory is a word.
pub fn is_word(k: u32) -> bool
    ensures { result ≡ is_word k }
{
    k <= u32::MAX
}

/// Whether an access of the frame is within its bytes, at a multiple of its width.
pub fn fits_frame(width: Width, offset: u32, frame: u64) -> bool
    ensures { result ≡ fits_frame width offset frame }
{
    let bytes = u64::from(width.bytes());
    let offset = u64::from(offset);
    offset % bytes == 0 && offset + bytes <= frame
}

/// Whether an access of an object is within its bytes, at a multiple of its width.
fn has_bytes(width: Width, k: u32, layout: Option<Layout>) -> bool
    ensures { result ≡ has_bytes width k (Some layout) }
{
    let bytes = u64::from(width.bytes());
    let k = u64::from(k);
    match layout {
        Some(l) => {
            u64::from(l.align) % bytes == 0 && k % bytes == 0 && k + bytes <= u64::from(l.size)
        }
        None => false,
    }
}

fn is_in_object(names: &FileNames, width: Width, object: u32, k: u32) -> bool
    ensures { result ≡ is_in_object names.now width object k }
{
    let object = object as usize;
    if object < names.literals {
        return false;
    }
    match names.objects.as_slice().get(object - names.literals) {
        Some(layout) => has_bytes(width, k, *layout),
        None => false,
    }
}

fn adds(operator: Operator) -> bool
    ensures { result ≡ adds operator }
{
    match operator {
        Operator::Add => true,
        _ => false,
    }
}

fn number_of(e: &Expression) -> Option<u32>
    ensures { result ≡ number_of (view e.now) }
{
    match e {
        Expression::Number(k) => Some(*k),
        _ => None,
    }
}

/// Whether an expression names an object, and an access k bytes further is within it.
fn names_bytes(
    names: &FileNames,
    extent: FunctionExtent,
    width: Width,
    k: u32,
    e: &Expression,
) -> bool
    ensures { result ≡ names_bytes names.now extent width k (view e.now) }
{
    match e {
        Expression::Address(object, offset) => {
            is_in_object(names, width, *object, offset.wrapping_add(k))
        }
        Expression::Frame(_, offset) => fits_frame(width, offset.wrapping_add(k), extent.frame),
        Expression::Binary(_, operator, a, b) => {
            adds(*operator)
                && match number_of(b) {
                    Some(j) => names_bytes(names, extent, width, j.wrapping_add(k), a),
                    None => false,
                }
        }
        Expression::Conditional(_, _, a, b) => {
            names_bytes(names, extent, width, k, a) && names_bytes(names, extent, width, k, b)
        }
        Expression::Comma(_, b) => names_bytes(names, extent, width, k, b),
        _ => false,
    }
}

fn is_checked_or_fit(
    names: &FileNames,
    extent: FunctionExtent,
    checked: bool,
    width: Width,
    e: &Expression,
) -> bool
    ensures { result ≡ is_checked_or_fit names.now extent checked width (view e.now) }
{
    checked || names_bytes(names, extent, width, 0, e)
}

/// Whether a function that the file uses has so many parameters.
fn takes(names: &FileNames, function: u32, arguments: usize) -> bool
    ensures { result ≡ takes (parameters_at names.now function) arguments }
{
    match names.functions.as_slice().get(function as usize) {
        Some(Some(parameters)) => arguments == *parameters,
        _ => false,
    }
}

/// Whether an expression fits its file and its function.
#[cycle(fit)]
pub fn is_fit(names: &FileNames, extent: FunctionExtent, e: &Expression) -> bool
    ensures { result ≡ is_fit names.now extent (view e.now) }
{
    match e {
        Expression::Number(k) => is_word(*k),
        Expression::Address(_, offset) => is_word(*offset),
        Expression::Frame(_, offset) => is_word(*offset),
        Expression::Variable(_, v) => *v < extent.variables,
        Expression::Read(_, kind, checked, a) => {
            is_checked_or_fit(names, extent, *checked, kind.width(), a) && is_fit(names, extent, a)
        }
        Expression::Convert(_, _, a) => is_fit(names, extent, a),
        Expression::Not(_, a) => is_fit(names, extent, a),
        Expression::Binary(_, _, a, b) => is_fit(names, extent, a) && is_fit(names, extent, b),
        Expression::Compare(_, _, _, a, b) => is_fit(names, extent, a) && is_fit(names, extent, b),
        Expression::And(_, a, b) => is_fit(names, extent, a) && is_fit(names, extent, b),
        Expression::Or(_, a, b) => is_fit(names, extent, a) && is_fit(names, extent, b),
        Expression::Conditional(_, a, b, c) => {
            is_fit(names, extent, a) && (is_fit(names, extent, b) && is_fit(names, extent, c))
        }
        Expression::Comma(a, b) => is_fit(names, extent, a) && is_fit(names, extent, b),
        Expression::Assign(_, kind, t, a) => {
            is_fit_target(names, extent, kind.width(), t) && is_fit(names, extent, a)
        }
        Expression::Update(_, kind, t, _, a) => {
            is_fit_target(names, extent, kind.width(), t) && is_fit(names, extent, a)
        }
        Expression::Step(_, kind, t, change, _) => {
            is_fit_target(names, extent, kind.width(), t) && is_word(*change)
        }
        Expression::Call(_, f, xs) => is_fit_call(names, extent, *f, xs),
        Expression::Putchar(_, a) => is_fit(names, extent, a),
        Expression::Exit(_, a) => is_fit(names, extent, a),
        Expression::Abort(_) => true,
    }
}

#[cycle(fit)]
fn is_fit_target(names: &FileNames, extent: FunctionExtent, width: Width, t: &Target) -> bool
    ensures { result ≡ is_fit_target names.now extent width (view_target t.now) }
{
    match t {
        Target::Variable(v) => 0 < *v && *v < extent.variables,
        Target::Object(checked, a) => {
            is_checked_or_fit(names, extent, *checked, width, a) && is_fit(names, extent, a)
        }
    }
}

/// Whether a call fits, of a function that the file uses.
#[cycle(fit)]
#[tactic(auto, using(dae_program::proofs::LawsOfTrees::count_expressions))]
fn is_fit_call(names: &FileNames, extent: FunctionExtent, function: u32, xs: &[Expression]) -> bool
    ensures { result ≡ is_fit_call names.now extent function (view_expressions xs.now) }
{
    takes(names, function, xs.len()) && are_fit(names, extent, xs)
}

/// Whether all of several expressions fit.
#[cycle(fit)]
pub fn are_fit(names: &FileNames, extent: FunctionExtent, xs: &[Expression]) -> bool
    ensures { result ≡ are_fit names.now extent (view_expressions xs.now) }
{
    for e in xs {
        if !is_fit(names, extent, e) {
            return false;
        }
    }
    true
}

/// Whether an expression fits, if there is one.
pub fn is_fit_some(names: &FileNames, extent: FunctionExtent, e: &Option<Box<Expression>>) -> bool
    ensures { result ≡ is_fit_some names.now extent (view_some e.now) }
{
    match e {
        Some(e) => is_fit(names, extent, e),
        None => true,
    }
}
