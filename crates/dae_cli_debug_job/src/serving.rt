// The loop of a session: command by command, with a put for each reply.
ghost use Rattle.std.specs.Prelude.{◌≡◌, ◌≢◌, IfOk, MatchBool, OnErr, Some};
ghost use Rattle.dae_debug_commands.specs.declared.DebugCommand.TheVariants as commands;
ghost use Rattle.dae_cli_drive.specs.Turns.{Rested};
ghost use Rattle.dae_cli_debug_job.specs.Debugging.{IsOpened, RepliesTo, ServesAll, ServesInPart};

use dae_cli_drive::Driven;
use dae_debug::{Reply, Session};
use dae_debug_commands::DebugCommand;
use dae_io::{Sink, SinkFailed};
use dae_machine::{Machine, Rest};

/// Does what the commands say, up to the one that ends the session or to all, puts the reply to each, and tells how the machine
/// stands then. Where a put fails, no further command is done.
pub fn serve<O: Sink>(
    session: &mut Session,
    reply: &mut Reply,
    commands: &[Option<DebugCommand>],
    out: &mut O,
) -> Result<Driven, SinkFailed>
    requires { IsOpened session.old }
    ensures whole { IfOk result (λ how. ServesAll how commands.now session.old session.new
        (O.seen out.old) (O.seen out.new)) }
    ensures part { OnErr result (ServesInPart commands.now session.old
        (O.seen out.old) (O.seen out.new)) }
{
    for command in commands {
        if is_quit(command) {
            return Ok(rested(session.machine()));
        }
        reply_to(session, reply, *command);
        out.put(reply.as_slice())?;
    }
    Ok(rested(session.machine()))
}

// Whether a command ends the session.
fn is_quit(command: &Option<DebugCommand>) -> bool
    ensures { MatchBool result
        (command.now ≡ Some commands.Quit) (command.now ≢ Some commands.Quit) }
{
    matches!(command, Some(DebugCommand::Quit))
}

// Does what a line says, and makes the reply to it.
fn reply_to(session: &mut Session, reply: &mut Reply, command: Option<DebugCommand>)
    requires { command ≢ Some commands.Quit }
    ensures { RepliesTo command session.old reply.new session.new }
{
    match command {
        Some(command) => session.answer(command, reply),
        None => reply.begin(b"bad command\n"),
    }
}

// How a machine rests, or that it can go on.
fn rested(machine: &Machine) -> Driven
    ensures { Rested result machine.now.state.steps machine.now.setup machine.now.state }
{
    match machine.rest() {
        Some(Rest::Final(end)) => Driven::Final(end),
        Some(Rest::Stuck) => Driven::Stuck,
        None => Driven::Spent,
    }
}
