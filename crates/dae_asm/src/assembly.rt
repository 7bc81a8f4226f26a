//! The image that a text says.

ghost use Rattle.std.specs.Prelude.{◌≤◌, length, IfOk, IfErr};
ghost use Rattle.dae_asm.specs.Assembly.{Asm, IsCauseOf};

use crate::errors::AsmError;
use crate::image::image_of;
use dae_asm_data::ValueFault;
use dae_asm_labels::{label_fault, labels_of};
use dae_asm_order::order_of;
use dae_asm_sheet::{rows_of, sheet_of};
use dae_image::Image;
use std::alloc::Global;

/// The image that a text says.
///
/// # Errors
///
/// The first line that is out of order; else the first whose labels are not as they should be; else
/// the first with a number that its field does not hold; or memory is wanting.
pub fn assemble(alloc: Global, text: &[u8]) -> Result<Image, AsmError>
    requires { length text.now ≤ 134217728 }
    ensures ok { IfOk result (Asm text.now) }
    ensures err { IfErr result (IsCauseOf text.now) }
{
    if let Err(line) = order_of(text) {
        return Err(AsmError::BadLine(line));
    }
    let rows = rows_of(alloc, text)?;
    let Some(sheet) = sheet_of(rows.as_slice()) else {
        unreachable!()
    };
    let labels = labels_of(alloc, &sheet)?;
    if let Some(line) = label_fault(&labels, &sheet) {
        return Err(AsmError::Label(line));
    }
    match image_of(alloc, &labels, &sheet) {
        Ok(image) => Ok(image),
        Err(ValueFault::Line(line)) => Err(AsmError::BadValue(line)),
        Err(ValueFault::Memory) => Err(AsmError::Memory),
    }
}
