// What `printf` prints, piece by piece (C90 7.9.6.1).

ghost use Rattle.std.specs.Prelude.{◌≡◌, [], ◌∷◌, IfOk};
ghost use Rattle.dae_ir.specs.Form.{form_of};
ghost use Rattle.dae_ir.specs.declared.form.Operand.TheVariants.{Number};
ghost use Rattle.dae_lower.specs.Lowering.{prints, text_loop};
ghost use Rattle.dae_lower_expressions.specs.Lowered.{MakesWhole};
ghost use Rattle.dae_lower_programs.specs.Parts.{text_turn};
ghost use Rattle.dae_program.specs.Printing.{argument};

use crate::blocks::{go_up, leave_if_not};
use dae_base::{LoadKind, Place, Width};
use dae_ir::{Check, Item, Operand, Statement, Test, Value};
use dae_lower_expressions::Lowerer;
use dae_meaning::{Comparison, Spelling};
use dae_program::FormatPiece;
use std::alloc::{AllocError, Global};

/// A turn of printing a text: the byte at an address is printed, but a 0 leaves the loop.
fn text_turn(
    alloc: Global,
    place: Place,
    address: u32,
    byte: u32,
) -> Result<Vec<Statement>, AllocError>
    ensures { IfOk result (λ block. form_of block.items ≡ text_turn place address byte) }
{
    let at = Operand::Variable(address);
    let value = Operand::Variable(byte);
    let test = Test {
        comparison: Comparison::NotEqual,
        left: value,
        right: Operand::Number(0),
    };
    let leave = leave_if_not(alloc, place, test)?;
    let mut block = Vec::new(alloc);
    block.push(Statement::Simple(place, Item::Expect(Check::Place(Width::B1, at))))?;
    block.push(Statement::Simple(place, Item::Load(byte, LoadKind::U8, at)))?;
    block.push(leave)?;
    block.push(Statement::Simple(place, Item::Print(Spelling::Byte, value)))?;
    Ok(block)
}

/// The bytes from an address on, up to a 0.
fn print_text(lowerer: &mut Lowerer, place: Place, x: Operand) -> Result<(), AllocError>
    ensures { IfOk result (MakesWhole (text_loop place x) lowerer.old lowerer.new) }
{
    let address = lowerer.maker.reserve();
    let byte = lowerer.maker.reserve();
    let body = text_turn(lowerer.alloc, place, address, byte)?;
    let step = go_up(lowerer.alloc, place, address)?;
    lowerer
        .maker
        .item(place, Item::Assign(address, Value::Same(x)))?;
    lowerer.maker.repeat(place, body, step)?;
    Ok(())
}

/// The argument of a number, and 0 where there is none.
fn argument(xs: &[Operand], number: u32) -> Operand
    ensures { result ≡ argument (Number 0) xs.now number }
{
    match xs.get(number as usize) {
        Some(x) => *x,
        None => Operand::Number(0),
    }
}

/// A piece of a format.
fn print_piece(
    lowerer: &mut Lowerer,
    place: Place,
    xs: &[Operand],
    piece: &FormatPiece,
) -> Result<(), AllocError>
    ensures { IfOk result
        (MakesWhole (prints place (piece.now ∷ []) xs.now) lowerer.old lowerer.new) }
{
    match piece {
        FormatPiece::Byte(byte) => {
            let x = Operand::Number(u32::from(*byte));
            lowerer.maker.item(place, Item::Print(Spelling::Byte, x))?;
            Ok(())
        }
        FormatPiece::Word(spelling, number) => {
            let x = argument(xs, *number);
            lowerer.maker.item(place, Item::Print(*spelling, x))?;
            Ok(())
        }
        FormatPiece::String(number) => {
            let x = argument(xs, *number);
            print_text(lowerer, place, x)?;
            Ok(())
        }
    }
}

/// The pieces of a format in order, with the values of the arguments.
pub fn print(
    lowerer: &mut Lowerer,
    place: Place,
    xs: &[Operand],
    pieces: &[FormatPiece],
) -> Result<(), AllocError>
    ensures { IfOk result (MakesWhole (prints place pieces.now xs.now) lowerer.old lowerer.new) }
{
    for piece in pieces {
        print_piece(lowerer, place, xs, piece)?;
    }
    Ok(())
}
