// The job `guard`: whether the text of a file is a certificate that no run of an image is stuck.
ghost use Rattle.std.specs.Prelude.{◌≡◌, ◌≤◌, ◌++◌, codes, decimal, length};
ghost use Rattle.dae_cli_drive.specs.Puts.{GivesNotes, GivesNotesDue, told};
ghost use Rattle.dae_cli_drive.specs.Shelves.{KeepsNothing, shelf_seen};
ghost use Rattle.dae_cli_drive.specs.TextFiles.{DueOfImageAndText};
ghost use Rattle.dae_cli_guard_job.specs.Guarding.{DueOfGuard, answer_of, long_line, most_certificate, refused_line};

use dae_cli_drive::{NoteLine, Stop, depth_line, image_and_text, noted};
use dae_cli_options::DepthOptions;
use dae_guard_walk::GuardAnswer;
use dae_image::Image;
use dae_io::{Shelf, Sink};
use itoa::Buffer;
use std::alloc::Global;

/// How many bytes a certificate has at most.
const MOST_CERTIFICATE: u32 = 1_048_576;

/// Notes whether the text of a file is a certificate that no run of the image of another, with queues of these depths, is
/// stuck, and answers with the status.
pub fn guard<F: Shelf, N: Sink>(
    alloc: Global,
    name: &str,
    certificate: &str,
    depths: &DepthOptions,
    shelf: &mut F,
    note: &mut N,
) -> u8
    ensures gives { GivesNotesDue (DueOfImageAndText name.now certificate.now most_certificate
        long_line (shelf_seen F.told F.count F.last F.given shelf.old shelf.new)
        (λ image text. DueOfGuard image depths.now text)) result
        (N.seen note.old) (N.seen note.new) }
    ensures kept { KeepsNothing (shelf_seen F.told F.count F.last F.given shelf.old shelf.new) }
{
    match image_and_text(
        alloc,
        name,
        certificate,
        MOST_CERTIFICATE,
        "refused certificate-too-long\n",
        shelf,
    ) {
        Ok((image, text)) => guard_text(alloc, &image, depths, text.as_slice(), note),
        Err(stop) => stop.tell(note),
    }
}

// Notes what the guard says of an image and the text of a certificate.
fn guard_text<N: Sink>(
    alloc: Global,
    image: &Image,
    depths: &DepthOptions,
    text: &[u8],
    note: &mut N,
) -> u8
    requires { length text.now ≤ 1048576 }
    ensures { GivesNotesDue (DueOfGuard image.now depths.now text.now) result
        (N.seen note.old) (N.seen note.new) }
{
    let Ok(mut line) = NoteLine::with_room(alloc) else {
        return Stop::Memory.tell(note);
    };
    let answer = dae_guard_walk::guard(alloc, image, depths.depths(), text);
    tell_answer(answer, &mut line, note)
}

// Notes what the guard says.
fn tell_answer<N: Sink>(answer: GuardAnswer, line: &mut NoteLine, note: &mut N) -> u8
    ensures { GivesNotes (answer_of answer) result (N.seen note.old) (N.seen note.new) }
{
    let status = answer_line(answer, line);
    noted(note, line.as_slice(), status)
}

// Writes the line for what the guard says, and gives the status.
fn answer_line(answer: GuardAnswer, line: &mut NoteLine) -> u8
    ensures { told result line.new ≡ answer_of answer }
{
    match answer {
        GuardAnswer::Yes => {
            line.begin(b"guarded\n");
            0
        }
        GuardAnswer::Depth(queue, needs, has) => {
            depth_line(line, queue, needs, has);
            4
        }
        GuardAnswer::BadLine(number) => {
            refused_line(line, b"line ", number);
            2
        }
        GuardAnswer::NoStep(start, _, _) => {
            refused_line(line, b"step ", start);
            2
        }
        GuardAnswer::TooLong(start) => {
            refused_line(line, b"long ", start);
            2
        }
        GuardAnswer::Memory => {
            line.begin(b"memory\n");
            7
        }
    }
}

// A rule of certificates that is broken, at a line or a start of this number.
fn refused_line(line: &mut NoteLine, rule: &[u8], number: u32)
    requires { length rule.now ≤ 5 }
    ensures { line.new ≡ refused_line rule.now number }
{
    line.begin(b"refused guard-");
    line.push(rule);
    line.push(Buffer::new().format(number).as_bytes());
    line.push(b"\n");
}
