// Whether 32 bits number the places of a function.

ghost use Rattle.std.specs.Prelude.{◌≡◌, ◌-◌, ◌^◌, min};
ghost use Rattle.dae_ir.specs.Code.{Done};
ghost use Rattle.dae_ir.specs.Streams.{actions_of, step_onto};
ghost use Rattle.dae_regalloc.specs.Seen.{can_number, count_places};

use dae_ir::Step;

#[cycle(counting)]
fn places_in_step(step: &Step) -> u64
    ensures { result ≡ min (count_places (step_onto step.now Done)) (2 ^ 64 - 1) }
{
    match step {
        Step::Act(_, _) => 1,
        Step::If(_, _, p, q) => {
            let branches = places_in_list(p).saturating_add(places_in_list(q));
            branches.saturating_add(1)
        }
        Step::Loop(_, body, step) => {
            let inside = places_in_list(body).saturating_add(places_in_list(step));
            inside.saturating_add(1)
        }
    }
}

/// How many places a list of actions has: 2^64 - 1 where there are more.
#[cycle(counting)]
fn places_in_list(steps: &[Step]) -> u64
    ensures { result ≡ min (count_places (actions_of steps.now)) (2 ^ 64 - 1) }
{
    let mut places: u64 = 0;
    for index in (0..steps.len()).rev() {
        places = places.saturating_add(places_in_step(&steps[index]));
    }
    places
}

/// Whether 32 bits number the places of a function with this body, and its entry.
pub fn can_number(body: &[Step]) -> bool
    ensures { result ≡ can_number (actions_of body.now) }
{
    places_in_list(body) < u64::from(u32::MAX)
}
