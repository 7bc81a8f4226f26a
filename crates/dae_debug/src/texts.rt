// The replies that show the state of a machine.
ghost use Rattle.std.specs.Prelude.{◌≡◌, ◌+◌, ◌≤◌, ◌<◌, ◌++◌, decimal, false, length};
ghost use Rattle.std.specs.Fmt.{digit_glyph};
ghost use Rattle.std.specs.List.{flat_map};
ghost use Rattle.dae_base.specs.Words.{size};
ghost use Rattle.dae_core.specs.Queues.{count};
ghost use Rattle.dae_machine.specs.Answers.{processor};
ghost use Rattle.dae_cli_drive.specs.Notes.{queue_name, shown_byte, shown_line};
ghost use Rattle.dae_debug.specs.Texts.{all_queues, counter_line, queue_line, queues_text, register_line, registers_text, store_line, stores_text, taken_text};

use crate::reply::Reply;
use dae_base::{Queue, Side, Width};
use dae_cli_options::Shown;
use dae_machine::Machine;
use dae_trace::TraceLine;
use itoa::Buffer;

/// The queues, in the order in which they are shown.
const QUEUES: [Queue; 7] = [
    Queue::Ld,
    Queue::Al,
    Queue::Sa,
    Queue::Sd,
    Queue::Ab,
    Queue::Eb,
    Queue::Cq,
];

/// How many steps were taken.
pub fn taken_text(reply: &mut Reply, taken: u64)
    ensures { reply.new ≡ taken_text taken }
{
    reply.begin(b"taken ");
    reply.push(Buffer::new().format(taken).as_bytes());
    reply.push(b"\n");
}

/// The counter and the registers of a processor, one line each.
pub fn registers_text(reply: &mut Reply, machine: &Machine, side: Side)
    ensures { reply.new ≡ registers_text (processor side machine.now.state) }
{
    reply.begin(counter_line(machine.counter(side)).as_bytes());
    for before in 0..31 {
        let number = before + 1;
        let line = register_line(number, machine.register(side, number));
        reply.push(line.as_bytes());
    }
}

fn counter_line(counter: u32) -> TraceLine
    ensures { result ≡ counter_line counter }
{
    let mut line = TraceLine::empty();
    line.push(b"pc ");
    line.push_word(counter);
    line.push(b"\n");
    line
}

fn register_line(number: u8, value: u32) -> TraceLine
    ensures { result ≡ register_line number value }
{
    let mut line = TraceLine::empty();
    line.push(b"x");
    line.push(Buffer::new().format(number).as_bytes());
    line.push(b" ");
    line.push_word(value);
    line.push(b"\n");
    line
}

/// How many items each queue holds, one line each.
pub fn queues_text(reply: &mut Reply, machine: &Machine)
    ensures { reply.new ≡ queues_text machine.now.state.queues }
{
    reply.begin(b"");
    for queue in queues() {
        reply.push(queue_line(machine, *queue).as_bytes());
    }
}

fn queues() -> &'static [Queue]
    ensures { result.now ≡ all_queues }
{
    &QUEUES
}

fn queue_line(machine: &Machine, queue: Queue) -> TraceLine
    ensures { result ≡ queue_line machine.now.state.queues queue }
{
    let mut line = TraceLine::empty();
    line.push(queue_name(queue).as_bytes());
    line.push(b" ");
    line.push(Buffer::new().format(machine.len(queue)).as_bytes());
    line.push(b"\n");
    line
}

fn queue_name(queue: Queue) -> &'static str
    ensures name { result.now ≡ queue_name queue }
    ensures short { length result.now ≤ 2 }
{
    match queue {
        Queue::Ld => "ld",
        Queue::Al => "al",
        Queue::Sa => "sa",
        Queue::Sd => "sd",
        Queue::Ab => "ab",
        Queue::Eb => "eb",
        Queue::Cq => "cq",
    }
}

/// The address and the width of each store that waits, one line each.
pub fn stores_text(reply: &mut Reply, machine: &Machine)
    ensures { reply.new ≡ stores_text machine.now.state.queues }
{
    reply.begin(b"");
    for at in 0..machine.len(Queue::Sa) {
        let Some(store) = machine.entry(Queue::Sa, at) else {
            unreachable!();
        };
        reply.push(store_line(store.addr, store.width).as_bytes());
    }
}

fn store_line(addr: u32, width: Width) -> TraceLine
    ensures line { result ≡ store_line addr width }
    ensures short { length result ≤ 11 }
{
    let mut line = TraceLine::empty();
    line.push_word(addr);
    line.push(b" ");
    line.push(width_text(width).as_bytes());
    line.push(b"\n");
    line
}

fn width_text(width: Width) -> &'static str
    ensures text { result.now ≡ decimal (size width) }
    ensures short { length result.now ≤ 1 }
{
    match width {
        Width::B1 => "1",
        Width::B2 => "2",
        Width::B4 => "4",
    }
}

/// Bytes of the common memory, as the notes of a run show them.
pub fn shown_line(reply: &mut Reply, shown: Shown, memory: &[u8])
    ensures { reply.new ≡ shown_line shown memory.now }
{
    reply.begin(b"memory ");
    reply.push(Buffer::new().format(shown.address()).as_bytes());
    reply.push(b":");
    push_bytes(reply, shown.bytes(memory));
    reply.push(b"\n");
}

// Appends a blank and two hexadecimal digits for each byte.
fn push_bytes(reply: &mut Reply, bytes: &[u8])
    requires few { length bytes.now ≤ 64 }
    requires short { length reply.old ≤ 48 }
    ensures text { reply.new ≡ reply.old ++ flat_map shown_byte bytes.now }
    ensures short { length reply.new ≤ length reply.old + 192 }
{
    for byte in bytes {
        reply.push(&[b' ', hex_digit(byte / 16), hex_digit(byte % 16)]);
    }
}

fn hex_digit(digit: u8) -> u8
    requires { digit < 16 }
    ensures { result ≡ digit_glyph false digit }
{
    if digit < 10 {
        b'0' + digit
    } else {
        b'a' + (digit - 10)
    }
}
