// The place of each node, and what a declarator declares.

ghost use Rattle.std.specs.Prelude.{◌≡◌};
ghost use Rattle.std.specs.Option.{option_copied, option_map};
ghost use Rattle.dae_tree.specs.Depth.{place_of, place_before, place_of_specifier, place_of_specifiers, place_of_statement, place_of_external};
ghost use Rattle.dae_tree.specs.FileViews.{view_declaration, view_statement, view_external};
ghost use Rattle.dae_tree.specs.Names.{declared_name, function_part, is_bare};
ghost use Rattle.dae_tree.specs.Views.{view, view_specifier, views_specifiers, view_declarator};

use crate::expressions::{Declarator, Expression, Name, Specifier};
use crate::statements::{Declaration, External, Statement};
use dae_base::Place;

impl Expression {
    /// The operand at whose first token an expression begins.
    #[tactic(auto, using(crate::proofs::Laws::view_call))]
    fn leftmost(&self) -> &Expression
        ensures { place_of (view result.now) ≡ place_of (view self.now) }
    {
        match self {
            Expression::Identifier(_) => self,
            Expression::Constant(_, _) => self,
            Expression::Literal(_, _) => self,
            Expression::Parenthesised(_, _) => self,
            Expression::Index(base, _, _) => base.leftmost(),
            Expression::Call(callee, _, _) => callee.leftmost(),
            Expression::Member(base, _, _, _) => base.leftmost(),
            Expression::Postfix(base, _, _) => base.leftmost(),
            Expression::Prefix(_, _, _) => self,
            Expression::SizeofExpression(_, _) => self,
            Expression::SizeofType(_, _, _) => self,
            Expression::Cast(_, _, _) => self,
            Expression::Binary(left, _, _, _) => left.leftmost(),
            Expression::Conditional(test, _, _, _) => test.leftmost(),
            Expression::Assignment(left, _, _, _) => left.leftmost(),
            Expression::Comma(left, _) => left.leftmost(),
        }
    }

    /// The place of the first token, which is handed up from operand to operand.
    #[tactic(auto, using(crate::proofs::Laws::view_call, crate::proofs::Laws::view_sizeof_type, crate::proofs::Laws::view_cast))]
    fn place_from_operands(&self) -> Place
        ensures { result ≡ place_of (view self.now) }
    {
        match self {
            Expression::Identifier(name) => name.place,
            Expression::Constant(place, _) => *place,
            Expression::Literal(place, _) => *place,
            Expression::Parenthesised(place, _) => *place,
            Expression::Index(base, _, _) => base.place_from_operands(),
            Expression::Call(callee, _, _) => callee.place_from_operands(),
            Expression::Member(base, _, _, _) => base.place_from_operands(),
            Expression::Postfix(base, _, _) => base.place_from_operands(),
            Expression::Prefix(place, _, _) => *place,
            Expression::SizeofExpression(place, _) => *place,
            Expression::SizeofType(place, _, _) => *place,
            Expression::Cast(place, _, _) => *place,
            Expression::Binary(left, _, _, _) => left.place_from_operands(),
            Expression::Conditional(test, _, _, _) => test.place_from_operands(),
            Expression::Assignment(left, _, _, _) => left.place_from_operands(),
            Expression::Comma(left, _) => left.place_from_operands(),
        }
    }

    /// The place of the first token.
    pub fn place(&self) -> Place
        ensures { result ≡ place_of (view self.now) }
    {
        self.leftmost().place_from_operands()
    }
}

impl Specifier {
    /// The place of the first token.
    #[tactic(auto, using(crate::proofs::Laws::view_structure_body, crate::proofs::Laws::view_enumeration_body))]
    pub fn place(&self) -> Place
        ensures { result ≡ place_of_specifier (view_specifier self.now) }
    {
        match self {
            Specifier::Word(place, _) => *place,
            Specifier::TypeName(name) => name.place,
            Specifier::Structure(place, _) => *place,
            Specifier::StructureBody(place, _, _, _) => *place,
            Specifier::Enumeration(place, _) => *place,
            Specifier::EnumerationBody(place, _, _, _, _) => *place,
        }
    }
}

/// The place of specifiers before a token at a place.
fn place_of_first(specifiers: &[Specifier], next: Place) -> Place
    ensures { result ≡ place_of_specifiers (views_specifiers specifiers.now) next }
{
    match specifiers {
        [first, ..] => first.place(),
        [] => next,
    }
}

impl Declarator {
    /// The place of the first token, before a token at this place.
    #[tactic(auto, using(crate::proofs::Laws::view_function))]
    pub fn place_before(&self, next: Place) -> Place
        ensures { result ≡ place_before (view_declarator self.now) next }
    {
        match self {
            Declarator::Absent => next,
            Declarator::Named(name) => name.place,
            Declarator::Pointer(place, _, _) => *place,
            Declarator::Grouped(place, _) => *place,
            Declarator::Unsized(base, place) => base.place_before(*place),
            Declarator::Sized(base, place, _) => base.place_before(*place),
            Declarator::Empty(base, place) => base.place_before(*place),
            Declarator::Void(base, place, _) => base.place_before(*place),
            Declarator::Function(base, place, _) => base.place_before(*place),
        }
    }

    /// The name that is declared, with its place.
    #[tactic(auto, using(crate::proofs::Laws::view_function))]
    pub fn name(&self) -> Option<Name>
        ensures { result ≡ declared_name (view_declarator self.now) }
    {
        match self {
            Declarator::Absent => None,
            Declarator::Named(name) => Some(*name),
            Declarator::Pointer(_, _, base) => base.name(),
            Declarator::Grouped(_, base) => base.name(),
            Declarator::Unsized(base, _) => base.name(),
            Declarator::Sized(base, _, _) => base.name(),
            Declarator::Empty(base, _) => base.name(),
            Declarator::Void(base, _, _) => base.name(),
            Declarator::Function(base, _, _) => base.name(),
        }
    }

    /// Whether this is a name with nothing but parentheses round it.
    #[tactic(auto, using(crate::proofs::Laws::view_function))]
    pub fn is_bare(&self) -> bool
        ensures { result ≡ is_bare (view_declarator self.now) }
    {
        match self {
            Declarator::Named(_) => true,
            Declarator::Grouped(_, base) => base.is_bare(),
            Declarator::Absent => false,
            Declarator::Pointer(_, _, _) => false,
            Declarator::Unsized(_, _) => false,
            Declarator::Sized(_, _, _) => false,
            Declarator::Empty(_, _) => false,
            Declarator::Void(_, _, _) => false,
            Declarator::Function(_, _, _) => false,
        }
    }

    /// The part that makes the declared name a function (C90 6.5.4.3 and 6.7.1).
    #[tactic(auto, using(crate::proofs::Laws::view_function))]
    pub fn function_part(&self) -> Option<&Declarator>
        ensures { option_map view_declarator (option_copied result)
            ≡ function_part (view_declarator self.now) }
    {
        match self {
            Declarator::Absent => None,
            Declarator::Named(_) => None,
            Declarator::Pointer(_, _, base) => base.function_part(),
            Declarator::Grouped(_, base) => base.function_part(),
            Declarator::Unsized(base, _) => base.function_part(),
            Declarator::Sized(base, _, _) => base.function_part(),
            Declarator::Empty(base, _) => {
                if base.is_bare() {
                    Some(self)
                } else {
                    base.function_part()
                }
            }
            Declarator::Void(base, _, _) => {
                if base.is_bare() {
                    Some(self)
                } else {
                    base.function_part()
                }
            }
            Declarator::Function(base, _, _) => {
                if base.is_bare() {
                    Some(self)
                } else {
                    base.function_part()
                }
            }
        }
    }
}

impl Declaration {
    /// The place of the first token.
    pub fn place(&self) -> Place
        ensures { result
            ≡ place_of_specifiers (view_declaration self.now).specifiers
            (view_declaration self.now).end }
    {
        place_of_first(self.specifiers.as_slice(), self.end)
    }
}

impl Statement {
    /// The place of the first token.
    #[tactic(auto, using(crate::proofs::Laws::view_block))]
    pub fn place(&self) -> Place
        ensures { result ≡ place_of_statement (view_statement self.now) }
    {
        match self {
            Statement::Block(block) => block.place,
            Statement::Empty(place) => *place,
            Statement::Evaluate(expression, _) => expression.place(),
            Statement::If(place, _, _) => *place,
            Statement::IfElse(place, _, _, _) => *place,
            Statement::While(place, _, _) => *place,
            Statement::Do(place, _, _, _, _) => *place,
            Statement::For(place, _, _, _) => *place,
            Statement::Break(place, _) => *place,
            Statement::Continue(place, _) => *place,
            Statement::Return(place, _, _) => *place,
            Statement::Switch(place, _, _) => *place,
            Statement::Case(place, _, _) => *place,
            Statement::Default(place, _) => *place,
        }
    }
}

impl External {
    /// The place of the first token.
    pub fn place(&self) -> Place
        ensures { result ≡ place_of_external (view_external self.now) }
    {
        match self {
            External::Declaration(declaration) => declaration.place(),
            External::Definition(specifiers, _, block) => place_of_first(
                specifiers.as_slice(),
                block.place,
            ),
        }
    }
}
