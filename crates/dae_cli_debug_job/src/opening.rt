// What a session takes before its first command.
ghost use Rattle.std.specs.Prelude.{◌≡◌, IfErr, IfOk};
ghost use Rattle.dae_base.specs.Budgets.{Reaches};
ghost use Rattle.dae_core.specs.Held.{CanHold};
ghost use Rattle.dae_machine.specs.Answers.{Refuses};
ghost use Rattle.dae_debug_commands.specs.Scripts.{AreRead, lines_of};
ghost use Rattle.dae_debug.specs.Sessions.{opened_session};

use dae_base::Depths;
use dae_debug::{Reply, Session};
use dae_debug_commands::{DebugCommand, read_script};
use dae_image::Image;
use dae_machine::OpenError;
use std::alloc::{AllocError, Global};

/// A session, room for its replies, and its commands.
#[derive(Drop)]
pub struct Opened {
    pub session: Session,
    pub reply: Reply,
    pub commands: Vec<Option<DebugCommand>>,
}

/// A session on an image, with queues of these depths, and the commands of a script.
pub fn open_session(
    alloc: Global,
    image: Image,
    script: &[u8],
    depths: Depths,
) -> Result<Opened, OpenError>
    requires { CanHold depths }
    ensures session { IfOk result (λ o. o.session ≡ opened_session image depths) }
    ensures commands { IfOk result (λ o. AreRead (lines_of script.now) o.commands.items) }
    ensures reaches { IfOk result (λ o. Reaches depths image.budget) }
    ensures err { IfErr result (λ e. Refuses e image.budget depths) }
{
    let session = Session::open(alloc, image, depths)?;
    match reply_and_commands(alloc, script) {
        Ok((reply, commands)) => Ok(Opened {
            session,
            reply,
            commands,
        }),
        Err(_) => Err(OpenError::Memory),
    }
}

// Room for the replies, and the commands of a script.
fn reply_and_commands(
    alloc: Global,
    script: &[u8],
) -> Result<(Reply, Vec<Option<DebugCommand>>), AllocError>
    ensures { IfOk result (λ both. AreRead (lines_of script.now) both.1.items) }
{
    let reply = Reply::with_room(alloc)?;
    let commands = read_script(alloc, script)?;
    Ok((reply, commands))
}
