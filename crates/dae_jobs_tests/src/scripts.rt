//! Scripts with the replies to their lines.

use crate::images::{depths_of, image_read};
use dae_debug::{Reply, Session};
use dae_debug_commands::{DebugCommand, read_script};
use dae_rows::{part, text_of, told};
use std::alloc::{AllocError, Global};
use std::process::Abort;
use std::test::Fail;

/// The session of an image before its first command.
fn session_on(rt: &impl Abort, alloc: Global, name: &str) -> Result<Box<Session>, Fail> {
    let image = image_read(rt, alloc, name)?;
    let session = Session::open(alloc, image, depths_of(8))?;
    Ok(Box::new(alloc, session)?)
}

/// Makes the reply to a line's command, or to a line that spells none; or the command ends the session.
fn reply_to(session: &mut Session, reply: &mut Reply, command: Option<DebugCommand>) -> bool {
    match command {
        Some(DebugCommand::Quit) => return false,
        Some(command) => session.answer(command, reply),
        None => reply.begin(b"bad command\n"),
    }
    true
}

/// Adds the replies to commands, one behind the other.
fn add_replies(
    session: &mut Session,
    reply: &mut Reply,
    commands: &[Option<DebugCommand>],
    text: &mut Vec<u8>,
) -> Result<(), AllocError> {
    for command in commands {
        if !reply_to(session, reply, *command) {
            return Ok(());
        }
        text.extend_from_slice(reply.as_slice())?;
    }
    Ok(())
}

/// The replies to commands, one behind the other.
fn replies(
    alloc: Global,
    session: &mut Session,
    commands: &[Option<DebugCommand>],
) -> Result<String, AllocError> {
    let mut reply = Reply::with_room(alloc)?;
    let mut text = Vec::new(alloc);
    add_replies(session, &mut reply, commands, &mut text)?;
    text_of(alloc, text.as_slice())
}

/// The replies to a row's script on its image.
pub fn replies_told(rt: &impl Abort, alloc: Global, row: &str) -> Result<String, Fail> {
    let script = told(alloc, part(row, 3))?;
    let commands = read_script(alloc, script.as_slice())?;
    let mut session = session_on(rt, alloc, part(row, 2))?;
    Ok(replies(alloc, &mut session, commands.as_slice())?)
}
