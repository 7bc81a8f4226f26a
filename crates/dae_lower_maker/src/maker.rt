// Statements so far, and single items behind them.

use crate::later::Later;
use dae_base::{Items, LoadKind, Place};
use dae_ir::{Check, Item, Operand, Statement, Test, Value};
use dae_meaning::{Comparison, Operator};
use dae_program::Fixity;
use std::alloc::{AllocError, Global};

/// The statements so far, and the next variable that isn't used yet. Numbers of variables stop at the last that a word holds: where the
/// number of the next comes to that, the statements may be wrong.
#[derive(Drop)]
pub struct Maker {
    statements: Vec<Statement>,
    next: u32,
}

/// Where an object lies in memory: its address, and whether that has to be checked.
#[derive(Clone, Copy)]
pub struct Location {
    pub address: Operand,
    pub checked: bool,
}

/// What is assigned: a variable, or an object in memory.
#[derive(Clone, Copy)]
pub enum Assignee {
    Variable(u32),
    Object(Location),
}

/// What an operator assigns, once its address is known: the place of the operator, the type, and where it is.
#[derive(Clone, Copy)]
pub struct Lvalue {
    pub place: Place,
    pub kind: LoadKind,
    pub spot: Assignee,
}

/// An operator `++` or `--`: its place, the type of its operand, the number that it adds, and where it stands.
#[derive(Clone, Copy)]
pub struct Increment {
    pub place: Place,
    pub kind: LoadKind,
    pub change: u32,
    pub fixity: Fixity,
}

/// A test that decides by holding, or by not holding.
#[derive(Clone, Copy)]
pub struct Condition {
    pub test: Test,
    pub turned: bool,
}

fn divides(operator: Operator) -> bool
    ensures { result ≡ divides operator }
{
    matches!(
        operator,
        Operator::DivideSigned
            | Operator::DivideUnsigned
            | Operator::RemainderSigned
            | Operator::RemainderUnsigned
    )
}

ghost use Rattle.std.specs.Prelude.{◌≡◌, ◌&&◌, IfOk};
ghost use Rattle.dae_program.specs.Expressions.{divides};
ghost use Rattle.dae_lower.specs.Lowering.{may_be_zero, related};
ghost use Rattle.dae_lower_maker.specs.Numbers.{number_after};

fn may_be_zero(x: Operand) -> bool
    ensures { result ≡ may_be_zero x }
{
    match x {
        Operand::Variable(_) => true,
        Operand::Number(number) => number == 0,
    }
}

/// A comparison of two operands, or of the second with the first.
pub fn test_of(comparison: Comparison, turned: bool, x: Operand, y: Operand) -> Test
    ensures { result ≡ related comparison turned x y }
{
    if turned {
        Test {
            comparison,
            left: y,
            right: x,
        }
    } else {
        Test {
            comparison,
            left: x,
            right: y,
        }
    }
}

fn is_checked(operator: Operator, y: Operand) -> bool
    ensures { result ≡ (divides operator && may_be_zero y) }
{
    divides(operator) && may_be_zero(y)
}

/// The number behind one, where numbers stop at the last that a word holds.
#[tactic(auto, unfolding(crate::specs::Numbers::number_after))]
fn after(number: u32) -> u32
    ensures { result ≡ number_after number }
{
    if number < u32::MAX {
        number + 1
    } else {
        number
    }
}

impl Maker {
    ghost use Rattle.std.specs.Prelude.{◌+◌, ◌++◌, true};
    ghost use Rattle.dae_base.specs.Words.{width_of};
    ghost use Rattle.dae_ir.specs.Code.{Done, If, Loop};
    ghost use Rattle.dae_ir.specs.Form.{form_of};
    ghost use Rattle.dae_ir.specs.declared.form.Value.TheVariants.{Holds};
    ghost use Rattle.dae_ir.specs.declared.form.Check.TheVariants.{Place as Good};
    ghost use Rattle.dae_ir.specs.declared.form.Item.TheVariants.{Expect};
    ghost use Rattle.dae_lower.specs.Lowering.{checks, emit, fetched, narrowed, one, only, operated};
    ghost use Rattle.dae_lower.specs.Lowering.{put_in, set, variable, Placed};
    ghost use Rattle.dae_lower_maker.specs.Counting.{counts_of, is_counted};
    ghost use Rattle.dae_lower_maker.specs.Making.{Appends, AppendsItem, advanced_in, called_with, condition_of};
    ghost use Rattle.dae_lower_maker.specs.Making.{copied_by, forked, held_in, loaded_next, so_far};
    ghost use Rattle.dae_lower_maker.specs.Making.{spot_of, stepped_in, updated_in};

    /// No statements yet, of a function with so many variables.
    pub fn new(alloc: Global, variables: u32) -> Maker
        ensures { so_far result ≡ record { code = Done; next = variables } }
    {
        Maker {
            statements: Vec::new(alloc),
            next: variables,
        }
    }

    /// The next variable that isn't used yet.
    pub fn next(&self) -> u32
        ensures { result ≡ self.now.next }
    {
        self.next
    }

    fn put(&mut self, place: Place, item: Item) -> Result<(), AllocError>
        ensures { IfOk result (AppendsItem place item self.old self.new) }
    {
        self.statements.push(Statement::Simple(place, item))?;
        Ok(())
    }

    /// Appends an item.
    pub fn item(&mut self, place: Place, item: Item) -> Result<(), AllocError>
        ensures { IfOk result (Appends (only (one place item) tt) self.old self.new) }
    {
        self.put(place, item)?;
        Ok(())
    }

    /// Appends an item where the flag says so.
    fn item_if(&mut self, flag: bool, place: Place, item: Item) -> Result<(), AllocError>
        ensures { IfOk result (Appends (only (checks flag place item Done) tt) self.old self.new) }
    {
        if flag {
            self.item(place, item)?;
        }
        Ok(())
    }

    /// Sets the next variable.
    pub fn set(&mut self, place: Place, value: Value) -> Result<Operand, AllocError>
        ensures { IfOk result (Appends (set place value) self.old self.new) }
    {
        let variable = self.next;
        self.put(place, Item::Assign(variable, value))?;
        self.next = after(variable);
        Ok(Operand::Variable(variable))
    }

    /// Loads the next variable.
    fn load(&mut self, place: Place, kind: LoadKind, x: Operand) -> Result<Operand, AllocError>
        ensures { IfOk result (Appends (loaded_next place kind x) self.old self.new) }
    {
        let variable = self.next;
        self.put(place, Item::Load(variable, kind, x))?;
        self.next = after(variable);
        Ok(Operand::Variable(variable))
    }

    /// An operation, behind a check where the second operand may be a zero that it divides by.
    pub fn operate(
        &mut self,
        place: Place,
        operator: Operator,
        x: Operand,
        y: Operand,
    ) -> Result<Operand, AllocError>
        ensures { IfOk result (Appends (operated place operator x y) self.old self.new) }
    {
        let flag = is_checked(operator, y);
        self.item_if(flag, place, Item::Expect(Check::Zero(y)))?;
        let z = self.set(place, Value::Binary(operator, x, y))?;
        Ok(z)
    }

    /// The check of an address, where one is due.
    fn check(&mut self, place: Place, kind: LoadKind, location: Location) -> Result<(), AllocError>
        ensures { IfOk result
            (Appends
            (only (checks location.checked place
            (Expect (Good (width_of kind) location.address)) Done) tt) self.old self.new) }
    {
        let check = Check::Place(kind.width(), location.address);
        self.item_if(location.checked, place, Item::Expect(check))?;
        Ok(())
    }

    /// The value of an object in memory, behind a check of its address where one is due.
    pub fn fetch(
        &mut self,
        place: Place,
        kind: LoadKind,
        location: Location,
    ) -> Result<Operand, AllocError>
        ensures { IfOk result
            (Appends (fetched place kind location.checked location.address) self.old self.new) }
    {
        self.check(place, kind, location)?;
        let z = self.load(place, kind, location.address)?;
        Ok(z)
    }

    /// A word of a narrower type.
    pub fn narrow(
        &mut self,
        place: Place,
        kind: LoadKind,
        x: Operand,
    ) -> Result<Operand, AllocError>
        ensures { IfOk result (Appends (narrowed place kind x) self.old self.new) }
    {
        match kind {
            LoadKind::I32 => Ok(x),
            LoadKind::I8 | LoadKind::U8 | LoadKind::I16 | LoadKind::U16 => {
                let z = self.set(place, Value::Extended(kind, x))?;
                Ok(z)
            }
        }
    }

    /// A copy of a variable's value.
    fn copy(&mut self, place: Place, v: u32) -> Result<Operand, AllocError>
        ensures { IfOk result (Appends (variable true place v) self.old self.new) }
    {
        let x = self.set(place, Value::Same(Operand::Variable(v)))?;
        Ok(x)
    }

    /// A variable's value, in a copy where what is still to come assigns it.
    pub fn variable(&mut self, later: &Later, place: Place, v: u32) -> Result<Operand, AllocError>
        ensures { IfOk result
            (Appends (variable (is_counted (counts_of later.now) v) place v) self.old self.new) }
    {
        if later.has(v) {
            let x = self.copy(place, v)?;
            Ok(x)
        } else {
            Ok(Operand::Variable(v))
        }
    }

    /// Stores a word in memory, behind a check of its address where one is due.
    fn store(
        &mut self,
        place: Place,
        kind: LoadKind,
        location: Location,
        y: Operand,
    ) -> Result<Operand, AllocError>
        ensures { IfOk result
            (Appends
            (put_in place kind (Placed location.checked location.address) y) self.old self.new) }
    {
        self.check(place, kind, location)?;
        self.item(place, Item::Store(kind.width(), location.address, y))?;
        Ok(y)
    }

    /// What is assigned gets a value, which is given.
    pub fn put_in(&mut self, lvalue: Lvalue, y: Operand) -> Result<Operand, AllocError>
        ensures { IfOk result
            (Appends (put_in lvalue.place lvalue.kind (spot_of lvalue.spot) y) self.old self.new) }
    {
        match lvalue.spot {
            Assignee::Variable(v) => {
                self.item(lvalue.place, Item::Assign(v, Value::Same(y)))?;
                Ok(y)
            }
            Assignee::Object(location) => {
                let z = self.store(lvalue.place, lvalue.kind, location, y)?;
                Ok(z)
            }
        }
    }

    /// What is assigned holds this so far: a variable's value is a copy where what is still to come assigns it.
    pub fn value_of(&mut self, later: &Later, lvalue: Lvalue) -> Result<Operand, AllocError>
        ensures { IfOk result
            (Appends (held_in (is_counted (counts_of later.now)) lvalue) self.old self.new) }
    {
        match lvalue.spot {
            Assignee::Variable(v) => {
                let x = self.variable(later, lvalue.place, v)?;
                Ok(x)
            }
            Assignee::Object(location) => {
                let z = self.fetch(lvalue.place, lvalue.kind, location)?;
                Ok(z)
            }
        }
    }

    /// What is assigned holds this so far: a variable's value is a copy.
    fn copy_of(&mut self, lvalue: Lvalue) -> Result<Operand, AllocError>
        ensures { IfOk result (Appends (held_in (λ v. true) lvalue) self.old self.new) }
    {
        match lvalue.spot {
            Assignee::Variable(v) => {
                let x = self.copy(lvalue.place, v)?;
                Ok(x)
            }
            Assignee::Object(location) => {
                let z = self.fetch(lvalue.place, lvalue.kind, location)?;
                Ok(z)
            }
        }
    }

    /// What is assigned gets an operand and a number, narrowed to its type.
    fn advance(&mut self, lvalue: Lvalue, change: u32, x: Operand) -> Result<Operand, AllocError>
        ensures { IfOk result (Appends (advanced_in lvalue change x) self.old self.new) }
    {
        let z = self.set(
            lvalue.place,
            Value::Binary(Operator::Add, x, Operand::Number(change)),
        )?;
        let w = self.narrow(lvalue.place, lvalue.kind, z)?;
        let y = self.put_in(lvalue, w)?;
        Ok(y)
    }

    /// What is assigned gets the result of an operation on what it held and an operand, narrowed to its type.
    pub fn update(
        &mut self,
        lvalue: Lvalue,
        operator: Operator,
        x: Operand,
        y: Operand,
    ) -> Result<Operand, AllocError>
        ensures { IfOk result (Appends (updated_in lvalue operator x y) self.old self.new) }
    {
        let z = self.operate(lvalue.place, operator, x, y)?;
        let w = self.narrow(lvalue.place, lvalue.kind, z)?;
        let result = self.put_in(lvalue, w)?;
        Ok(result)
    }

    /// What `++` or `--` finds: of a variable a copy where it is given, or where what is still to come assigns it.
    fn old_value(
        &mut self,
        later: &Later,
        fixity: Fixity,
        lvalue: Lvalue,
    ) -> Result<Operand, AllocError>
        ensures { IfOk result
            (Appends
            (held_in (copied_by fixity (is_counted (counts_of later.now))) lvalue) self.old
            self.new) }
    {
        match fixity {
            Fixity::Prefix => {
                let x = self.value_of(later, lvalue)?;
                Ok(x)
            }
            Fixity::Postfix => {
                let x = self.copy_of(lvalue)?;
                Ok(x)
            }
        }
    }

    /// What is assigned gets a number more, and the new value is given or the old one.
    pub fn step(
        &mut self,
        later: &Later,
        increment: Increment,
        spot: Assignee,
    ) -> Result<Operand, AllocError>
        ensures { IfOk result
            (Appends
            (stepped_in (is_counted (counts_of later.now)) increment spot) self.old self.new) }
    {
        let lvalue = Lvalue {
            place: increment.place,
            kind: increment.kind,
            spot,
        };
        let x = self.old_value(later, increment.fixity, lvalue)?;
        let y = self.advance(lvalue, increment.change, x)?;
        match increment.fixity {
            Fixity::Prefix => Ok(y),
            Fixity::Postfix => Ok(x),
        }
    }

    /// 1 where a test holds, and else 0.
    pub fn truth_of(&mut self, place: Place, test: Test) -> Result<Operand, AllocError>
        ensures { IfOk result (Appends (set place (Holds test)) self.old self.new) }
    {
        let z = self.set(place, Value::Holds(test))?;
        Ok(z)
    }

    /// A call of a function, behind the check that there is room for it.
    pub fn call(
        &mut self,
        place: Place,
        function: u32,
        arguments: Items<Operand>,
    ) -> Result<Operand, AllocError>
        ensures { IfOk result (Appends (called_with place function arguments) self.old self.new) }
    {
        let variable = self.next;
        self.put(place, Item::Expect(Check::Room(function)))?;
        self.put(place, Item::Call(variable, function, arguments))?;
        self.next = after(variable);
        Ok(Operand::Variable(variable))
    }

    /// Leaves the next variable to what comes.
    pub fn reserve(&mut self) -> u32
        ensures given { result ≡ self.old.next }
        ensures after { so_far self.new
            ≡ record { code = form_of self.old.statements.items; next = number_after result } }
    {
        let variable = self.next;
        self.next = after(variable);
        variable
    }

    /// Begins a block, and gives the statements before it.
    pub fn begin_block(&mut self, alloc: Global) -> Vec<Statement>
        ensures outer { form_of result.items ≡ form_of self.old.statements.items }
        ensures after { so_far self.new ≡ record { code = Done; next = self.old.next } }
    {
        std::mem::replace(&mut self.statements, Vec::new(alloc))
    }

    /// Ends a block, which is given, and goes on behind the statements before it.
    pub fn end_block(&mut self, outer: Vec<Statement>) -> Vec<Statement>
        ensures block { form_of result.items ≡ form_of self.old.statements.items }
        ensures after { so_far self.new
            ≡ record { code = form_of outer.items; next = self.old.next } }
    {
        std::mem::replace(&mut self.statements, outer)
    }

    fn choice(
        &mut self,
        place: Place,
        test: Test,
        yes: Vec<Statement>,
        no: Vec<Statement>,
    ) -> Result<(), AllocError>
        ensures { IfOk result
            (Appends
            (emit (If place test (form_of yes.items) (form_of no.items) Done)) self.old self.new) }
    {
        self.statements.push(Statement::If(place, test, yes, no))?;
        Ok(())
    }

    /// The branches of a condition.
    pub fn branch(
        &mut self,
        place: Place,
        condition: Condition,
        yes: Vec<Statement>,
        no: Vec<Statement>,
    ) -> Result<(), AllocError>
        ensures { IfOk result
            (Appends
            (emit (forked place (condition_of condition) (form_of yes.items)
            (form_of no.items))) self.old self.new) }
    {
        if condition.turned {
            self.choice(place, condition.test, no, yes)?;
            Ok(())
        } else {
            self.choice(place, condition.test, yes, no)?;
            Ok(())
        }
    }

    /// A loop of a body and a step.
    pub fn repeat(
        &mut self,
        place: Place,
        body: Vec<Statement>,
        step: Vec<Statement>,
    ) -> Result<(), AllocError>
        ensures { IfOk result
            (Appends
            (emit (Loop place (form_of body.items) (form_of step.items) Done)) self.old self.new) }
    {
        self.statements.push(Statement::Loop(place, body, step))?;
        Ok(())
    }

    /// All statements, of a maker that is done.
    pub fn into_statements(self) -> Vec<Statement>
        ensures { form_of result.items ≡ form_of self.statements.items }
    {
        let Maker {
            statements,
            next: _,
        } = self;
        statements
    }
}
