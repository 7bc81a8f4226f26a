// Whether an expression names a variable, to read or to set it.

ghost use Rattle.std.specs.Prelude.{◌≡◌};
ghost use Rattle.dae_program.specs.Views.{view, view_expressions, view_target};
ghost use Rattle.dae_types_file_plans.specs.Naming.{names_variable, some_names, target_names};

use dae_program::{Expression, Target};

/// Whether an expression names a variable.
#[cycle(naming)]
pub fn names_variable(variable: u32, e: &Expression) -> bool
    ensures { result ≡ names_variable variable (view e.now) }
{
    match e {
        Expression::Number(_) => false,
        Expression::Address(_, _) => false,
        Expression::Frame(_, _) => false,
        Expression::Variable(_, v) => *v == variable,
        Expression::Read(_, _, _, a) => names_variable(variable, a),
        Expression::Convert(_, _, a) => names_variable(variable, a),
        Expression::Not(_, a) => names_variable(variable, a),
        Expression::Binary(_, _, a, b) => {
            names_variable(variable, a) || names_variable(variable, b)
        }
        Expression::Compare(_, _, _, a, b) => {
            names_variable(variable, a) || names_variable(variable, b)
        }
        Expression::And(_, a, b) => names_variable(variable, a) || names_variable(variable, b),
        Expression::Or(_, a, b) => names_variable(variable, a) || names_variable(variable, b),
        Expression::Conditional(_, a, b, c) => {
            names_variable(variable, a)
                || (names_variable(variable, b) || names_variable(variable, c))
        }
        Expression::Comma(a, b) => names_variable(variable, a) || names_variable(variable, b),
        Expression::Assign(_, _, t, a) => target_names(variable, t) || names_variable(variable, a),
        Expression::Update(_, _, t, _, a) => {
            target_names(variable, t) || names_variable(variable, a)
        }
        Expression::Step(_, _, t, _, _) => target_names(variable, t),
        Expression::Call(_, _, xs) => some_names(variable, xs),
        Expression::Putchar(_, a) => names_variable(variable, a),
        Expression::Exit(_, a) => names_variable(variable, a),
        Expression::Abort(_) => false,
    }
}

/// Whether a target names a variable.
#[cycle(naming)]
fn target_names(variable: u32, t: &Target) -> bool
    ensures { result ≡ target_names variable (view_target t.now) }
{
    match t {
        Target::Variable(v) => *v == variable,
        Target::Object(_, a) => names_variable(variable, a),
    }
}

/// Whether one of several expressions names a variable.
#[cycle(naming)]
fn some_names(variable: u32, xs: &[Expression]) -> bool
    ensures { result ≡ some_names variable (view_expressions xs.now) }
{
    for e in xs {
        if names_variable(variable, e) {
            return true;
        }
    }
    false
}
