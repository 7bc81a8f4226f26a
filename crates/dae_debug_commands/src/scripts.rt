// The commands of a script.
ghost use Rattle.std.specs.Prelude.{◌≡◌, ◌≢◌, ◌<◌, [], ◌∷◌, length, IfOk};
ghost use Rattle.dae_debug_commands.specs.Scripts.{AreRead, lines_of};

use crate::DebugCommand;
use crate::reading::read_command;
use std::alloc::{AllocError, Global};

/// For each line of a script the command that it spells, or None where it spells none. The last line may lack its line feed.
pub fn read_script(alloc: Global, script: &[u8]) -> Result<Vec<Option<DebugCommand>>, AllocError>
    ensures { IfOk result (λ commands. AreRead (lines_of script.now) commands.items) }
{
    let mut commands = Vec::new(alloc);
    let mut rest = script;
    while !rest.is_empty() {
        let (line, behind) = first_line(rest);
        commands.push(read_command(line))?;
        rest = behind;
    }
    Ok(commands)
}

// The first line without its line feed, and what stands behind that.
fn first_line(script: &[u8]) -> (&[u8], &[u8])
    requires { script.now ≢ [] }
    ensures lines { lines_of script.now ≡ result.0.now ∷ lines_of result.1.now }
    ensures shorter { length result.1.now < length script.now }
{
    for (at, byte) in script.iter().enumerate() {
        if *byte == b'\n' {
            return (&script[..at], &script[at + 1..]);
        }
    }
    (script, &[])
}
