// The job `check`: whether the text of a file is a trace of an image.
ghost use Rattle.std.specs.Prelude.{◌≡◌, ◌≤◌, ◌++◌, codes, decimal, length};
ghost use Rattle.dae_cli_drive.specs.Puts.{GivesNotes, GivesNotesDue, told};
ghost use Rattle.dae_cli_drive.specs.Shelves.{KeepsNothing, shelf_seen};
ghost use Rattle.dae_cli_drive.specs.TextFiles.{DueOfImageAndText};
ghost use Rattle.dae_cli_trace_jobs.specs.Checking.{DueOfChecking, answer_of, long_line, most_trace, not_a_run_line};

use dae_cli_drive::{
    NoteLine, depth_line, ended_line, image_and_text, noted, put_budget, trapped_line,
};
use dae_cli_options::DepthOptions;
use dae_image::Image;
use dae_io::{Shelf, Sink};
use dae_machine::End;
use dae_trace::TraceAnswer;
use itoa::Buffer;
use std::alloc::Global;

/// How many bytes a trace has at most.
const MOST_TRACE: u32 = 268_435_456;

/// Notes whether the text of a file is a trace of the image of another, with queues of these depths, and answers with the status.
pub fn check<F: Shelf, N: Sink>(
    alloc: Global,
    name: &str,
    trace: &str,
    depths: &DepthOptions,
    shelf: &mut F,
    note: &mut N,
) -> u8
    ensures gives { GivesNotesDue (DueOfImageAndText name.now trace.now most_trace long_line
        (shelf_seen F.told F.count F.last F.given shelf.old shelf.new)
        (λ image text. DueOfChecking image depths.now text)) result
        (N.seen note.old) (N.seen note.new) }
    ensures kept { KeepsNothing (shelf_seen F.told F.count F.last F.given shelf.old shelf.new) }
{
    match image_and_text(
        alloc,
        name,
        trace,
        MOST_TRACE,
        "refused trace-too-long\n",
        shelf,
    ) {
        Ok((image, text)) => check_text(alloc, &image, depths, text.as_slice(), note),
        Err(stop) => stop.tell(note),
    }
}

// Notes the budget of an image and whether a text is a trace of it.
fn check_text<N: Sink>(
    alloc: Global,
    image: &Image,
    depths: &DepthOptions,
    text: &[u8],
    note: &mut N,
) -> u8
    requires { length text.now ≤ 268435456 }
    ensures { GivesNotesDue (DueOfChecking image.now depths.now text.now) result
        (N.seen note.old) (N.seen note.new) }
{
    let mut line = match put_budget(alloc, image, note) {
        Ok(line) => line,
        Err(status) => return status,
    };
    let answer = dae_trace::check(alloc, image, depths.depths(), text);
    tell_answer(answer, &mut line, note)
}

// Notes what a text is as a trace.
fn tell_answer<N: Sink>(answer: TraceAnswer, line: &mut NoteLine, note: &mut N) -> u8
    ensures { GivesNotes (answer_of answer) result (N.seen note.old) (N.seen note.new) }
{
    let status = answer_line(answer, line);
    noted(note, line.as_slice(), status)
}

// Writes the line for what a text is as a trace, and gives the status.
fn answer_line(answer: TraceAnswer, line: &mut NoteLine) -> u8
    ensures { told result line.new ≡ answer_of answer }
{
    match answer {
        TraceAnswer::Run(Some(End::Ended(status))) => {
            ended_line(line, status);
            0
        }
        TraceAnswer::Run(Some(End::Trapped(code))) => {
            trapped_line(line, code);
            1
        }
        TraceAnswer::Run(None) => {
            line.begin(b"running\n");
            3
        }
        TraceAnswer::NotARun(number) => {
            not_a_run_line(line, number);
            10
        }
        TraceAnswer::BadLine(number) => {
            not_a_run_line(line, number);
            10
        }
        TraceAnswer::Depth(queue, needs, has) => {
            depth_line(line, queue, needs, has);
            4
        }
        TraceAnswer::Memory => {
            line.begin(b"memory\n");
            7
        }
    }
}

// The number of the first line that isn't that of an enabled pick.
fn not_a_run_line(line: &mut NoteLine, number: u32)
    ensures { line.new ≡ not_a_run_line number }
{
    line.begin(b"not-a-run ");
    line.push(Buffer::new().format(number).as_bytes());
    line.push(b"\n");
}
