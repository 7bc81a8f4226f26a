// The lines that a job notes.
ghost use Rattle.std.specs.Prelude.{◌≡◌, ◌+◌, ◌<◌, ◌≤◌, ◌≢◌, ◌++◌, false, length, take, drop, IfOk, string_bytes};
ghost use Rattle.std.specs.Fmt.{digit_glyph};
ghost use Rattle.std.specs.List.{flat_map};
ghost use Rattle.dae_cli_drive.specs.declared.driving.Driven.TheVariants as Driven;
ghost use Rattle.dae_image.specs.declared.fault.ImageError.TheVariants as errors;
ghost use Rattle.dae_cli_drive.specs.Lines.{read_line};
ghost use Rattle.dae_cli_drive.specs.Notes.{budget_line, depth_line, ended_line, fault_name, image_line, outcome_line, queue_name, shown_byte, shown_line, steps_line, stuck_line, trapped_line, why_text};

use crate::driving::Driven;
use crate::line::NoteLine;
use dae_base::{Depths, Queue, Side, Signedness, decimal_piece};
use dae_cli_options::Shown;
use dae_core::{CoreAnswer, Fault};
use dae_image::ImageError;
use dae_machine::{End, Machine};
use itoa::Buffer;
use std::alloc::{AllocError, Global};

/// The line that names the file that wasn't fetched.
pub fn read_line(alloc: Global, name: &str) -> Result<String, AllocError>
    ensures { IfOk result (λ line. string_bytes line ≡ read_line name.now) }
{
    format!(in alloc; "read {name}\n")
}

/// The line with a program's budget.
pub fn budget_line(alloc: Global, budget: &Depths) -> Result<String, AllocError>
    ensures { IfOk result (λ line. string_bytes line ≡ budget_line budget.now) }
{
    let loads = format!(in alloc; "budget ld {} al {}", budget.ld, budget.al)?;
    let stores = format!(in alloc; " sa {} sd {}", budget.sa, budget.sd)?;
    let messages = format!(in alloc; " ab {} eb {} cq {}\n", budget.ab, budget.eb, budget.cq)?;
    format!(in alloc; "{loads}{stores}{messages}")
}

/// The line that tells why bytes are no image.
pub fn image_line(alloc: Global, error: ImageError) -> Result<String, AllocError>
    ensures { IfOk result (λ line. string_bytes line ≡ image_line error) }
{
    match error {
        ImageError::Short(length) => format!(in alloc; "image short {length}\n"),
        ImageError::BadField(field, offset) => {
            let name = field.name();
            format!(in alloc; "image field {name} {offset}\n")
        }
        ImageError::Trailing(offset) => format!(in alloc; "image trailing {offset}\n"),
        ImageError::Memory => String::from_str(alloc, "memory\n"),
    }
}

/// The line that tells which queue is less deep than the program needs, with both numbers.
pub fn depth_line(line: &mut NoteLine, queue: Queue, needs: u16, has: u16)
    ensures { line.new ≡ depth_line queue needs has }
{
    line.begin(b"depth ");
    line.push(queue_name(queue).as_bytes());
    line.push(b" needs ");
    line.push(Buffer::new().format(needs).as_bytes());
    line.push(b" has ");
    line.push(Buffer::new().format(has).as_bytes());
    line.push(b"\n");
}

fn queue_name(queue: Queue) -> &'static str
    ensures name { result.now ≡ queue_name queue }
    ensures short { length result.now ≤ 2 }
{
    match queue {
        Queue::Ld => "ld",
        Queue::Al => "al",
        Queue::Sa => "sa",
        Queue::Sd => "sd",
        Queue::Ab => "ab",
        Queue::Eb => "eb",
        Queue::Cq => "cq",
    }
}

/// The line that tells how a machine came out.
pub fn outcome_line(line: &mut NoteLine, driven: Driven, machine: &Machine)
    requires { driven ≢ Driven.SinkFailed }
    ensures { line.new ≡ outcome_line driven machine.now.setup machine.now.state }
{
    match driven {
        Driven::Final(End::Ended(status)) => ended_line(line, status),
        Driven::Final(End::Trapped(code)) => trapped_line(line, code),
        Driven::Stuck => {
            let (a, e) = (machine.answer(Side::A), machine.answer(Side::E));
            stuck_line(line, &a, &e);
        }
        Driven::Spent => line.begin(b"running\n"),
        Driven::SinkFailed => unreachable!(),
    }
}

/// The line that tells with which status a program ended.
pub fn ended_line(line: &mut NoteLine, status: u32)
    ensures { line.new ≡ ended_line status }
{
    line.begin(b"ended ");
    line.push(decimal_piece(status, Signedness::Signed).text().as_bytes());
    line.push(b"\n");
}

/// The line that tells with which code a program trapped.
pub fn trapped_line(line: &mut NoteLine, code: u32)
    ensures { line.new ≡ trapped_line code }
{
    line.begin(b"trapped ");
    line.push(decimal_piece(code, Signedness::Unsigned).text().as_bytes());
    line.push(b"\n");
}

fn stuck_line(line: &mut NoteLine, a: &CoreAnswer, e: &CoreAnswer)
    ensures { line.new ≡ stuck_line a.now e.now }
{
    line.begin(b"stuck A ");
    push_why(line, a);
    line.push(b", E ");
    push_why(line, e);
    line.push(b"\n");
}

// Appends what keeps a processor from a step.
fn push_why(line: &mut NoteLine, answer: &CoreAnswer)
    requires { length line.old ≤ 64 }
    ensures text { line.new ≡ line.old ++ why_text answer.now }
    ensures short { length line.new ≤ length line.old + 13 }
{
    match answer {
        CoreAnswer::Did(_) => (),
        CoreAnswer::Waits(queue) => {
            line.push(b"waits ");
            line.push(queue_name(*queue).as_bytes());
        }
        CoreAnswer::Halted => line.push(b"halted"),
        CoreAnswer::Faulted(fault) => {
            line.push(b"fault ");
            line.push(fault_name(*fault).as_bytes());
        }
    }
}

fn fault_name(fault: Fault) -> &'static str
    ensures name { result.now ≡ fault_name fault }
    ensures short { length result.now ≤ 7 }
{
    match fault {
        Fault::BadPc => "badpc",
        Fault::Illegal => "illegal",
        Fault::Private => "private",
        Fault::Shared => "shared",
        Fault::Call => "call",
    }
}

/// The line with the number of steps.
pub fn steps_line(line: &mut NoteLine, steps: u64)
    ensures { line.new ≡ steps_line steps }
{
    line.begin(b"steps ");
    line.push(Buffer::new().format(steps).as_bytes());
    line.push(b"\n");
}

/// The line that shows bytes of memory. Those past its end are left out.
pub fn shown_line(line: &mut NoteLine, shown: Shown, memory: &[u8])
    ensures { line.new ≡ shown_line shown memory.now }
{
    line.begin(b"memory ");
    line.push(Buffer::new().format(shown.address()).as_bytes());
    line.push(b":");
    push_bytes(line, shown.bytes(memory));
    line.push(b"\n");
}

// Appends a blank and two hexadecimal digits for each byte.
fn push_bytes(line: &mut NoteLine, bytes: &[u8])
    requires few { length bytes.now ≤ 64 }
    requires short { length line.old ≤ 48 }
    ensures text { line.new ≡ line.old ++ flat_map shown_byte bytes.now }
    ensures short { length line.new ≤ length line.old + 192 }
{
    for byte in bytes {
        line.push(&[b' ', hex_digit(byte / 16), hex_digit(byte % 16)]);
    }
}

fn hex_digit(digit: u8) -> u8
    requires { digit < 16 }
    ensures { result ≡ digit_glyph false digit }
{
    if digit < 10 {
        b'0' + digit
    } else {
        b'a' + (digit - 10)
    }
}
