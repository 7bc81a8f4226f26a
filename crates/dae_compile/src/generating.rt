// The image of a form, and its report.

ghost use Rattle.std.specs.Prelude.{◌≡◌, ◌≤◌, ◌<◌, ◌^◌, IfOk, IfErr};
ghost use Rattle.dae_ir_pair.specs.Budget.{IsWithinCap};
ghost use Rattle.dae_link_faithful.specs.Made.{IsReady};
ghost use Rattle.dae_machine_rounds.specs.Promises.{DoesForm};
ghost use Rattle.dae_link.specs.Linked.{IsCompiledOf};
ghost use Rattle.dae_report.specs.Reports.{IsReportOf};
ghost use Rattle.dae_link.specs.declared.error.CodeError.TheVariants as errors;
ghost use Rattle.dae_compile.specs.Generated.{FitsMachine, HasFramesWithin, IsShort, NeedsTooMuch, words_of_form};

use dae_base::{Items, Text};
use dae_image::Image;
use dae_ir::Ir;
use dae_link::{CodeError, link};
use dae_report::{Report, can_count, count};
use dae_split_pair::decouple;
use std::alloc::Global;

/// The image of a form, and what is counted of the form.
#[derive(Drop)]
pub struct Compiled {
    pub image: Image,
    pub report: Report,
}

/// The image of a form with these data and file names, and the form's report, where a group holds at most `cap` loads for E and as many copies, from
/// 1 to 64. A code is too long only where what bounds it by the form's size and calls is, as where 32 bits can't count what the
/// report counts, and a private memory too large only where frames for all variables of the functions are.
pub fn generate(
    alloc: Global,
    ir: &Ir,
    cap: u8,
    content: Items<u8>,
    names: Items<Text>,
) -> Result<Compiled, CodeError>
    requires ready { IsReady ir.now }
    requires some { 1 ≤ cap }
    requires few { cap ≤ 64 }
    requires fits { FitsMachine ir.now content names }
    ensures does { IfOk result (λ c. DoesForm ir.now c.image 14) }
    ensures compiled { IfOk result (λ c. IsCompiledOf ir.now cap c.image) }
    ensures report { IfOk result (λ c. IsReportOf ir.now c.report) }
    ensures budget { IfOk result (λ c. IsWithinCap cap c.image.budget) }
    ensures content { IfOk result (λ c. c.image.content ≡ content) }
    ensures names { IfOk result (λ c. c.image.names ≡ names) }
    ensures short { IfOk result (λ c. IsShort ir.now c.image) }
    ensures private { IfOk result (λ c. HasFramesWithin ir.now c.image) }
    ensures err { IfErr result (λ e. e ≡ errors.Code → 2 ^ 25 < words_of_form ir.now) }
    ensures deep { IfErr result (λ e. e ≡ errors.Private → NeedsTooMuch ir.now) }
{
    if !can_count(ir) {
        return Err(CodeError::Code);
    }
    let decoupled = decouple(alloc, ir, cap)?;
    let report = count(alloc, ir, decoupled.classes.as_slice())?;
    let image = link(alloc, &decoupled.pair, decoupled.budget, content, names)?;
    Ok(Compiled { image, report })
}
