// The lines of a timed run beside those of every run.
ghost use Rattle.std.specs.Prelude.{◌≡◌, ◌+◌, ◌≤◌, ◌++◌, length};
ghost use Rattle.dae_timing.specs.Clocks.{waits_for, waits_of};
ghost use Rattle.dae_cli_time_job.specs.Lines.{awaited, ticks_line, wait_front, wait_text, waits_front, waits_line};

use dae_base::{Queue, Side};
use dae_cli_drive::NoteLine;
use dae_timing::Timed;
use itoa::Buffer;

/// The line with the number of ticks.
pub fn ticks_line(line: &mut NoteLine, ticks: u64)
    ensures { line.new ≡ ticks_line ticks }
{
    line.begin(b"ticks ");
    line.push(Buffer::new().format(ticks).as_bytes());
    line.push(b"\n");
}

/// The line that tells in how many ticks a processor waited for each queue.
pub fn waits_line(line: &mut NoteLine, timed: &Timed, side: Side)
    ensures { line.new ≡ waits_line side (waits_of side timed.now.clock) }
{
    line.begin(waits_front(side).as_bytes());
    for queue in awaited(side) {
        push_wait(line, timed, side, *queue);
    }
    line.push(b"\n");
}

// Appends a queue, and in how many ticks it was waited for.
fn push_wait(line: &mut NoteLine, timed: &Timed, side: Side, queue: Queue)
    requires { length line.old ≤ 200 }
    ensures text { line.new ≡ line.old ++ wait_text (waits_of side timed.now.clock) queue }
    ensures short { length line.new ≤ length line.old + 24 }
{
    line.push(wait_front(queue).as_bytes());
    line.push(Buffer::new().format(timed.waits(side, queue)).as_bytes());
}

fn wait_front(queue: Queue) -> &'static str
    ensures front { result.now ≡ wait_front queue }
    ensures short { length result.now ≤ 4 }
{
    match queue {
        Queue::Ld => " ld ",
        Queue::Al => " al ",
        Queue::Sa => " sa ",
        Queue::Sd => " sd ",
        Queue::Ab => " ab ",
        Queue::Eb => " eb ",
        Queue::Cq => " cq ",
    }
}

fn waits_front(side: Side) -> &'static str
    ensures front { result.now ≡ waits_front side }
    ensures short { length result.now ≤ 7 }
{
    match side {
        Side::A => "waits A",
        Side::E => "waits E",
    }
}

// The queues that a processor may wait for.
fn awaited(side: Side) -> &'static [Queue]
    ensures queues { result.now ≡ awaited side }
    ensures few { length result.now ≤ 6 }
{
    match side {
        Side::A => &[
            Queue::Ld,
            Queue::Al,
            Queue::Sa,
            Queue::Ab,
            Queue::Eb,
            Queue::Cq,
        ],
        Side::E => &[Queue::Ld, Queue::Sd, Queue::Ab, Queue::Eb, Queue::Cq],
    }
}
