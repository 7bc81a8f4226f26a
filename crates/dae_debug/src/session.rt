// A session on the machine of an image.
ghost use Rattle.std.specs.Prelude.{◌≡◌, ◌≢◌, IfErr, IfOk};
ghost use Rattle.dae_base.specs.Budgets.{Reaches};
ghost use Rattle.dae_core.specs.Held.{CanHold};
ghost use Rattle.dae_machine.specs.Answers.{Refuses};
ghost use Rattle.dae_debug_commands.specs.declared.DebugCommand.TheVariants as commands;
ghost use Rattle.dae_debug.specs.Sessions.{Answers, GoesTo, StepsTo, opened_session};

use crate::breaks::Breaks;
use crate::going::{MOST_STEPS, go_on};
use crate::reply::Reply;
use crate::texts;
use dae_base::Depths;
use dae_debug_commands::DebugCommand;
use dae_image::Image;
use dae_machine::{Machine, OpenError, Pick};
use dae_trace::line;
use std::alloc::Global;
use std::marker::Model;

/// A debugger's session: the machine of an image, and the breakpoints that were set.
#[derive(Drop)]
pub struct Session {
    machine: Machine,
    breaks: Breaks,
}

impl Model for Session {
    ghost use Rattle.dae_debug.specs.Sessions.{HeldSession, session};

    ghost Value = { HeldSession };

    ghost view = { λ s. session s.machine s.breaks };
}

impl Session {
    /// A session before its first command, with queues of these depths. A depth below the image's budget is refused, the first such
    /// queue by name, before any memory is taken.
    pub fn open(alloc: Global, image: Image, depths: Depths) -> Result<Session, OpenError>
        requires { CanHold depths }
        ensures session { IfOk result (λ s. s ≡ opened_session image depths) }
        ensures reaches { IfOk result (λ s. Reaches depths image.budget) }
        ensures err { IfErr result (λ e. Refuses e image.budget depths) }
    {
        let machine = Machine::open(alloc, &image, depths)?;
        match Breaks::none(alloc, image) {
            Ok(breaks) => Ok(Session { machine, breaks }),
            Err(_) => Err(OpenError::Memory),
        }
    }

    /// The machine.
    pub fn machine(&self) -> &Machine
        ensures { result.now ≡ self.now.machine }
    {
        &self.machine
    }

    /// Does what a command says, and makes the reply to it. It takes no memory.
    pub fn answer(&mut self, command: DebugCommand, reply: &mut Reply)
        requires { command ≢ commands.Quit }
        ensures { Answers command self.old reply.new self.new }
    {
        match command {
            DebugCommand::Step(pick) => self.step(pick, reply),
            DebugCommand::Go(turns) => self.go(turns, reply),
            DebugCommand::Break(place) => {
                self.breaks.set(place);
                reply.begin(b"ok\n");
            }
            DebugCommand::Registers(side) => texts::registers_text(reply, &self.machine, side),
            DebugCommand::Queues => texts::queues_text(reply, &self.machine),
            DebugCommand::Stores => texts::stores_text(reply, &self.machine),
            DebugCommand::Memory(shown) => texts::shown_line(reply, shown, self.machine.memory()),
            DebugCommand::Quit => unreachable!(),
        }
    }

    // Takes the step of a pick, where it is enabled.
    fn step(&mut self, pick: Pick, reply: &mut Reply)
        ensures { StepsTo self.old pick reply.new self.new }
    {
        if self.machine.taken() >= MOST_STEPS {
            reply.begin(b"spent\n");
        } else if self.machine.enabled(pick) {
            reply.begin(line(&self.machine, pick).as_bytes());
            let _ = self.machine.step(pick);
        } else {
            reply.begin(b"not enabled\n");
        }
    }

    // Takes turns by the round.
    fn go(&mut self, turns: u32, reply: &mut Reply)
        ensures { GoesTo self.old turns reply.new self.new }
    {
        if self.machine.taken() >= MOST_STEPS {
            reply.begin(b"spent\n");
        } else {
            go_on(&mut self.machine, &self.breaks, turns);
            texts::taken_text(reply, self.machine.taken());
        }
    }
}
