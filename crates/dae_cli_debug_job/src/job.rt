// The job: the image of a file and the script of another.
ghost use Rattle.std.specs.Prelude.{◌≡◌, ◌≢◌};
ghost use Rattle.dae_cli_drive.specs.Puts.{GivesDue, sinks};
ghost use Rattle.dae_cli_drive.specs.Shelves.{KeepsNothing, shelf_seen};
ghost use Rattle.dae_cli_drive.specs.TextFiles.{DueOfImageAndText};
ghost use Rattle.dae_cli_debug_job.specs.Debugging.{DueOfCommands, DueOfDebugging, IsOpened, long_line, most_script};

use crate::opening::{Opened, open_session};
use crate::serving::serve;
use dae_cli_drive::{NoteLine, image_and_text, put_budget, tell_end, tell_refusal};
use dae_cli_options::DepthOptions;
use dae_image::Image;
use dae_io::{Shelf, Sink};
use std::alloc::Global;

/// How many bytes a script has at most.
const MOST_SCRIPT: u32 = 1_048_576;

/// The names of the files of a session: that of the image, and that of the script.
#[derive(Clone, Copy)]
pub struct DebugFiles<'w> {
    pub image: &'w str,
    pub script: &'w str,
}

/// Does what a script says on the machine of an image, with queues of these depths, puts the reply to each command, notes how the
/// machine stands then, and answers with the status.
pub fn debug<F: Shelf, O: Sink, N: Sink>(
    alloc: Global,
    files: DebugFiles<'_>,
    depths: &DepthOptions,
    shelf: &mut F,
    out: &mut O,
    note: &mut N,
) -> u8
    ensures gives { GivesDue (DueOfImageAndText files.entry.image.now files.entry.script.now
        most_script long_line
        (shelf_seen F.told F.count F.last F.given shelf.old shelf.new)
        (λ image script. DueOfDebugging image depths.now script)) result
        (sinks (O.seen out.old) (N.seen note.old)) (sinks (O.seen out.new) (N.seen note.new)) }
    ensures kept { KeepsNothing (shelf_seen F.told F.count F.last F.given shelf.old shelf.new) }
    // Memory is wanting only before the session is opened.
    ensures unopened { result ≡ 7 → O.seen out.new ≡ O.seen out.old }
{
    match image_and_text(
        alloc,
        files.image,
        files.script,
        MOST_SCRIPT,
        "refused script-too-long\n",
        shelf,
    ) {
        Ok((image, script)) => debug_image(alloc, image, script.as_slice(), depths, out, note),
        Err(stop) => stop.tell(note),
    }
}

// Notes the budget of an image, does what a script says on it, and notes how its machine stands then.
fn debug_image<O: Sink, N: Sink>(
    alloc: Global,
    image: Image,
    script: &[u8],
    depths: &DepthOptions,
    out: &mut O,
    note: &mut N,
) -> u8
    ensures gives { GivesDue (DueOfDebugging image depths.now script.now) result
        (sinks (O.seen out.old) (N.seen note.old)) (sinks (O.seen out.new) (N.seen note.new)) }
    ensures unopened { result ≡ 7 → O.seen out.new ≡ O.seen out.old }
{
    let mut line = match put_budget(alloc, &image, note) {
        Ok(line) => line,
        Err(status) => return status,
    };
    match open_session(alloc, image, script, depths.depths()) {
        Ok(mut opened) => serve_opened(&mut opened, &mut line, out, note),
        Err(error) => tell_refusal(error, &mut line, note),
    }
}

// Does what the commands say, and notes how the machine stands then. It takes no memory.
fn serve_opened<O: Sink, N: Sink>(
    opened: &mut Opened,
    line: &mut NoteLine,
    out: &mut O,
    note: &mut N,
) -> u8
    requires opened { IsOpened opened.old.session }
    ensures gives { GivesDue (DueOfCommands opened.old.session opened.old.commands.items) result
        (sinks (O.seen out.old) (N.seen note.old)) (sinks (O.seen out.new) (N.seen note.new)) }
    ensures has_memory { result ≢ 7 }
{
    match serve(
        &mut opened.session,
        &mut opened.reply,
        opened.commands.as_slice(),
        out,
    ) {
        Ok(driven) => tell_end(opened.session.machine(), driven, None, line, note),
        Err(_) => 6,
    }
}
