// Expressions, node by node: their value, their effects, or a condition.

ghost use Rattle.std.specs.Prelude.{IfOk};
ghost use Rattle.dae_lower.specs.Lowering.{operands, spot, ways};
ghost use Rattle.dae_lower_expressions.specs.Assignments.{all_assignments, assignments};
ghost use Rattle.dae_lower_expressions.specs.Assignments.{target_assignments};
ghost use Rattle.dae_lower_expressions.specs.Lowered.{LowersTo, PartsTo, links_in, step_of, used};
ghost use Rattle.dae_lower_maker.specs.Making.{condition_of, spot_of};
ghost use Rattle.dae_program.specs.Views.{view, view_expressions, view_target};

use crate::assignments::count;
use crate::leaves::{BranchPurpose, address, callee, constant, nonzero, turn};
use crate::lowerer::Lowerer;
use dae_base::{Items, LoadKind};
use dae_ir::{Check, Item, Operand, Statement, Test, Value};
use dae_lower_maker::{Assignee, Change, Condition, Increment, Location, Lvalue, test_of};
use dae_meaning::{Comparison, Spelling};
use dae_program::{Expression, Fixity, Links, Target};
use std::alloc::AllocError;

impl Lowerer {
    /// The operand that holds an expression's value. `none` is the number of no function.
    #[cycle(lower)]
    pub fn value(&mut self, links: &Links, none: u32, e: &Expression) -> Result<Operand, AllocError>
        ensures { IfOk result
            (LowersTo (ways (links_in none links.now) (view e.now)).value
            (assignments (view e.now)) self.old self.new) }
    {
        match e {
            Expression::Number(number) => Ok(Operand::Number(*number)),
            Expression::Address(object, offset) => {
                Ok(Operand::Number(address(links, *object, *offset)))
            }
            Expression::Frame(place, offset) => {
                let x = self.maker.set(*place, Value::FrameAddress(*offset))?;
                Ok(x)
            }
            Expression::Variable(place, v) => {
                let x = self.maker.variable(&self.later, *place, *v)?;
                Ok(x)
            }
            Expression::Read(place, kind, checked, a) => {
                let x = self.value(links, none, a)?;
                let location = Location {
                    address: x,
                    checked: *checked,
                };
                let z = self.maker.fetch(*place, *kind, location)?;
                Ok(z)
            }
            Expression::Convert(place, kind, a) => {
                let x = self.value(links, none, a)?;
                let z = self.maker.narrow(*place, *kind, x)?;
                Ok(z)
            }
            Expression::Not(place, a) => {
                let x = self.value(links, none, a)?;
                let is_zero = Test {
                    comparison: Comparison::Equal,
                    left: x,
                    right: Operand::Number(0),
                };
                let z = self.maker.truth_of(*place, is_zero)?;
                Ok(z)
            }
            Expression::Binary(place, operator, a, b) => {
                let x = self.value(links, none, a)?;
                let y = self.value(links, none, b)?;
                let z = self.maker.operate(*place, *operator, x, y)?;
                Ok(z)
            }
            Expression::Compare(place, comparison, turned, a, b) => {
                let x = self.value(links, none, a)?;
                let y = self.value(links, none, b)?;
                let test = test_of(*comparison, *turned, x, y);
                let z = self.maker.truth_of(*place, test)?;
                Ok(z)
            }
            Expression::And(place, a, b) => {
                let v = self.maker.reserve();
                let condition = self.condition(links, none, a)?;
                let holds = self.block(links, none, BranchPurpose::Truth(*place, v), b)?;
                let fails = constant(self.alloc, *place, v, 0)?;
                self.maker.branch(*place, condition, holds, fails)?;
                Ok(Operand::Variable(v))
            }
            Expression::Or(place, a, b) => {
                let v = self.maker.reserve();
                let condition = self.condition(links, none, a)?;
                let holds = constant(self.alloc, *place, v, 1)?;
                let fails = self.block(links, none, BranchPurpose::Truth(*place, v), b)?;
                self.maker.branch(*place, condition, holds, fails)?;
                Ok(Operand::Variable(v))
            }
            Expression::Conditional(place, a, b, c) => {
                let v = self.maker.reserve();
                let part = BranchPurpose::Value(*place, v);
                let condition = self.condition(links, none, a)?;
                count(&mut self.later, Change::Remove, c)?;
                let holds = self.block(links, none, part, b)?;
                count(&mut self.later, Change::Add, c)?;
                let fails = self.block(links, none, part, c)?;
                self.maker.branch(*place, condition, holds, fails)?;
                Ok(Operand::Variable(v))
            }
            Expression::Comma(a, b) => {
                self.effect(links, none, a)?;
                let y = self.value(links, none, b)?;
                Ok(y)
            }
            Expression::Assign(place, kind, t, a) => {
                let spot = self.spot(links, none, t)?;
                let y = self.value(links, none, a)?;
                let lvalue = Lvalue {
                    place: *place,
                    kind: *kind,
                    spot,
                };
                let z = self.maker.put_in(lvalue, y)?;
                Ok(z)
            }
            Expression::Update(place, kind, t, operator, a) => {
                let spot = self.spot(links, none, t)?;
                let lvalue = Lvalue {
                    place: *place,
                    kind: *kind,
                    spot,
                };
                let x = self.maker.value_of(&self.later, lvalue)?;
                let y = self.value(links, none, a)?;
                let z = self.maker.update(lvalue, *operator, x, y)?;
                Ok(z)
            }
            Expression::Step(place, kind, t, change, fixity) => {
                let increment = Increment {
                    place: *place,
                    kind: *kind,
                    change: *change,
                    fixity: *fixity,
                };
                let z = self.step(links, none, increment, t)?;
                Ok(z)
            }
            Expression::Call(place, function, xs) => {
                let arguments = self.operands(links, none, xs)?;
                let z = self.maker.call(
                    *place,
                    callee(none, links, *function),
                    Items::from_vec(arguments),
                )?;
                Ok(z)
            }
            Expression::Putchar(place, a) => {
                let x = self.value(links, none, a)?;
                self.maker.item(*place, Item::Print(Spelling::Byte, x))?;
                let z = self.maker.set(*place, Value::Extended(LoadKind::U8, x))?;
                Ok(z)
            }
            Expression::Exit(place, a) => {
                let x = self.value(links, none, a)?;
                self.maker.item(*place, Item::Halt(x))?;
                Ok(Operand::Number(0))
            }
            Expression::Abort(place) => {
                self.maker.item(*place, Item::Expect(Check::Abort))?;
                Ok(Operand::Number(0))
            }
        }
    }

    /// An expression for its effects.
    #[cycle(lower)]
    pub fn effect(&mut self, links: &Links, none: u32, e: &Expression) -> Result<(), AllocError>
        ensures { IfOk result
            (LowersTo (ways (links_in none links.now) (view e.now)).effect
            (assignments (view e.now)) self.old self.new) }
    {
        match e {
            Expression::Variable(_, _) => Ok(()),
            Expression::Convert(_, _, a) => {
                self.effect(links, none, a)?;
                Ok(())
            }
            Expression::Not(_, a) => {
                self.effect(links, none, a)?;
                Ok(())
            }
            Expression::Compare(_, _, _, a, b) => {
                self.effect(links, none, a)?;
                self.effect(links, none, b)?;
                Ok(())
            }
            Expression::Conditional(place, a, b, c) => {
                let condition = self.condition(links, none, a)?;
                count(&mut self.later, Change::Remove, c)?;
                let holds = self.block(links, none, BranchPurpose::Effect, b)?;
                count(&mut self.later, Change::Add, c)?;
                let fails = self.block(links, none, BranchPurpose::Effect, c)?;
                self.maker.branch(*place, condition, holds, fails)?;
                Ok(())
            }
            Expression::Comma(a, b) => {
                self.effect(links, none, a)?;
                self.effect(links, none, b)?;
                Ok(())
            }
            Expression::Step(place, kind, t, change, _) => {
                let increment = Increment {
                    place: *place,
                    kind: *kind,
                    change: *change,
                    fixity: Fixity::Prefix,
                };
                self.step(links, none, increment, t)?;
                Ok(())
            }
            Expression::Putchar(place, a) => {
                let x = self.value(links, none, a)?;
                self.maker.item(*place, Item::Print(Spelling::Byte, x))?;
                Ok(())
            }
            _ => {
                self.value(links, none, e)?;
                Ok(())
            }
        }
    }

    /// An expression as a condition.
    #[cycle(lower)]
    pub fn condition(
        &mut self,
        links: &Links,
        none: u32,
        e: &Expression,
    ) -> Result<Condition, AllocError>
        ensures { IfOk result
            (λ c. LowersTo (ways (links_in none links.now) (view e.now)).condition
            (assignments (view e.now)) self.old self.new (condition_of c)) }
    {
        match e {
            Expression::Not(_, a) => {
                let condition = self.condition(links, none, a)?;
                Ok(turn(condition))
            }
            Expression::Compare(_, comparison, turned, a, b) => {
                let x = self.value(links, none, a)?;
                let y = self.value(links, none, b)?;
                Ok(Condition {
                    test: test_of(*comparison, *turned, x, y),
                    turned: false,
                })
            }
            Expression::Comma(a, b) => {
                self.effect(links, none, a)?;
                let condition = self.condition(links, none, b)?;
                Ok(condition)
            }
            _ => {
                let x = self.value(links, none, e)?;
                Ok(nonzero(x))
            }
        }
    }

    /// What is assigned, once its address is known.
    #[cycle(lower)]
    fn spot(&mut self, links: &Links, none: u32, t: &Target) -> Result<Assignee, AllocError>
        ensures { IfOk result
            (λ o. LowersTo (spot (links_in none links.now) (view_target t.now))
            (target_assignments (view_target t.now)) self.old self.new (spot_of o)) }
    {
        match t {
            Target::Variable(v) => {
                self.later.change(*v, Change::Remove)?;
                Ok(Assignee::Variable(*v))
            }
            Target::Object(checked, a) => {
                let x = self.value(links, none, a)?;
                Ok(Assignee::Object(Location {
                    address: x,
                    checked: *checked,
                }))
            }
        }
    }

    /// The operands that hold the values of all arguments.
    #[cycle(lower)]
    pub fn operands(
        &mut self,
        links: &Links,
        none: u32,
        xs: &[Expression],
    ) -> Result<Vec<Operand>, AllocError>
        ensures { IfOk result
            (λ ys. LowersTo (operands (links_in none links.now) (view_expressions xs.now))
            (all_assignments (view_expressions xs.now)) self.old self.new ys.items) }
    {
        let mut operands = Vec::new(self.alloc);
        for e in xs {
            let x = self.value(links, none, e)?;
            operands.push(x)?;
        }
        Ok(operands)
    }

    /// `++` or `--`, of which the new value is given, or the old one.
    #[cycle(lower)]
    fn step(
        &mut self,
        links: &Links,
        none: u32,
        increment: Increment,
        t: &Target,
    ) -> Result<Operand, AllocError>
        ensures { IfOk result
            (LowersTo
            (ways (links_in none links.now) (step_of increment (view_target t.now))).value
            (target_assignments (view_target t.now)) self.old self.new) }
    {
        let spot = self.spot(links, none, t)?;
        let z = self.maker.step(&self.later, increment, spot)?;
        Ok(z)
    }

    /// An expression in a branch, as statements of their own.
    #[cycle(lower)]
    fn block(
        &mut self,
        links: &Links,
        none: u32,
        part: BranchPurpose,
        e: &Expression,
    ) -> Result<Vec<Statement>, AllocError>
        ensures { IfOk result
            (λ inner.
            PartsTo (used part (ways (links_in none links.now) (view e.now)))
            (assignments (view e.now)) self.old self.new inner.items) }
    {
        let outer = self.maker.begin_block(self.alloc);
        self.part(links, none, part, e)?;
        Ok(self.maker.end_block(outer))
    }

    /// An expression in a branch.
    #[cycle(lower)]
    fn part(
        &mut self,
        links: &Links,
        none: u32,
        part: BranchPurpose,
        e: &Expression,
    ) -> Result<(), AllocError>
        ensures { IfOk result
            (LowersTo (used part (ways (links_in none links.now) (view e.now)))
            (assignments (view e.now)) self.old self.new) }
    {
        match part {
            BranchPurpose::Value(place, v) => {
                let x = self.value(links, none, e)?;
                self.maker.item(place, Item::Assign(v, Value::Same(x)))?;
                Ok(())
            }
            BranchPurpose::Truth(place, v) => {
                let condition = self.condition(links, none, e)?;
                let holds = constant(self.alloc, place, v, 1)?;
                let fails = constant(self.alloc, place, v, 0)?;
                self.maker.branch(place, condition, holds, fails)?;
                Ok(())
            }
            BranchPurpose::Effect => {
                self.effect(links, none, e)?;
                Ok(())
            }
        }
    }
}
