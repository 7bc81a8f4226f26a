// Full expressions: nothing is still to come before them and behind them.

ghost use Rattle.std.specs.Prelude.{IfOk};
ghost use Rattle.dae_lower.specs.Lowering.{nowhere, operands, ways};
ghost use Rattle.dae_lower_expressions.specs.Lowered.{MakesWhole, links_in};
ghost use Rattle.dae_lower_maker.specs.Making.{condition_of};
ghost use Rattle.dae_program.specs.Views.{view, view_expressions};

use crate::assignments::{count, count_all};
use crate::lowerer::Lowerer;
use dae_ir::Operand;
use dae_lower_maker::{Change, Condition};
use dae_program::{Expression, Links};
use std::alloc::AllocError;

impl Lowerer {
    /// The operand that holds a full expression's value. `none` is the number of no function.
    pub fn whole_value(
        &mut self,
        links: &Links,
        none: u32,
        e: &Expression,
    ) -> Result<Operand, AllocError>
        ensures { IfOk result
            (MakesWhole
            ((ways (links_in none links.now) (view e.now)).value nowhere) self.old self.new) }
    {
        count(&mut self.later, Change::Add, e)?;
        let x = self.value(links, none, e)?;
        Ok(x)
    }

    /// A full expression for its effects.
    pub fn whole_effect(
        &mut self,
        links: &Links,
        none: u32,
        e: &Expression,
    ) -> Result<(), AllocError>
        ensures { IfOk result
            (MakesWhole
            ((ways (links_in none links.now) (view e.now)).effect nowhere) self.old self.new) }
    {
        count(&mut self.later, Change::Add, e)?;
        self.effect(links, none, e)?;
        Ok(())
    }

    /// A full expression as a condition.
    pub fn whole_condition(
        &mut self,
        links: &Links,
        none: u32,
        e: &Expression,
    ) -> Result<Condition, AllocError>
        ensures { IfOk result
            (λ c. MakesWhole
            ((ways (links_in none links.now) (view e.now)).condition nowhere) self.old self.new
            (condition_of c)) }
    {
        count(&mut self.later, Change::Add, e)?;
        let condition = self.condition(links, none, e)?;
        Ok(condition)
    }

    /// The operands that hold the values of a whole list.
    pub fn whole_operands(
        &mut self,
        links: &Links,
        none: u32,
        xs: &[Expression],
    ) -> Result<Vec<Operand>, AllocError>
        ensures { IfOk result
            (λ ys. MakesWhole
            (operands (links_in none links.now)
            (view_expressions xs.now) nowhere) self.old self.new ys.items) }
    {
        count_all(&mut self.later, Change::Add, xs)?;
        let operands = self.operands(links, none, xs)?;
        Ok(operands)
    }
}
