// What a renaming goes by: its plan, and the webs that are current.

ghost use Rattle.std.specs.Prelude.{◌≡◌, true, Some, IfOk, OnOk, slice_set};
ghost use Rattle.dae_webs.specs.Current.{has_web, web_of, written_as};
ghost use Rattle.dae_webs.specs.Planned.{owns_in};

use dae_ir::NotChanged;

/// By the number of a definition, the variable for the web that starts there, if one does. The function has so many variables,
/// and each further one has an owner: the variable of whose webs it is.
#[derive(Drop)]
pub struct WebPlan {
    pub variables: u32,
    pub starts: Vec<Option<u32>>,
    pub owners: Vec<u32>,
}

/// The current web of each variable, and the number of definitions so far.
#[derive(Drop)]
pub struct Renaming {
    pub webs: Vec<Option<u32>>,
    pub definitions: usize,
}

/// What is kept for this number.
pub fn web_of(webs: &[Option<u32>], number: usize) -> Option<u32>
    ensures { result ≡ web_of webs.now number }
{
    match webs.get(number) {
        Some(web) => *web,
        None => None,
    }
}

/// The current web of a variable.
pub fn written_as(webs: &[Option<u32>], variable: u32) -> Result<u32, NotChanged>
    ensures written { IfOk result (λ u. u ≡ written_as webs.now variable) }
    ensures there { IfOk result (λ _. has_web webs.now variable ≡ true) }
{
    match web_of(webs, variable as usize) {
        Some(web) => Ok(web),
        None => Err(NotChanged::Kept),
    }
}

fn owns(plan: &WebPlan, web: u32, variable: u32) -> bool
    ensures { result ≡ owns_in plan.now web variable }
{
    if web < plan.variables {
        return web == variable;
    }
    match plan.owners.get((web - plan.variables) as usize) {
        Some(owner) => *owner == variable,
        None => false,
    }
}

/// A web of the variable starts, where the plan has it for one.
pub fn start_web(
    plan: &WebPlan,
    webs: &mut Vec<Option<u32>>,
    variable: u32,
    web: u32,
) -> Result<(), NotChanged>
    ensures webs { OnOk result (webs.new.items ≡ slice_set webs.old.items variable (Some web)) }
    ensures owns { OnOk result (owns_in plan.now web variable ≡ true) }
{
    if variable as usize >= webs.len() || !owns(plan, web, variable) {
        return Err(NotChanged::Kept);
    }
    webs[variable as usize] = Some(web);
    Ok(())
}
