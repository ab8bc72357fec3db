// Reads pairs of an address and a value from standard input as writes, from power-up with zero memory, ROM and picture; then draws,
// and prints the last write's number, the draw's number and the rows redrawn, and the first eight bytes of line 10 in hex. The picture is
// that of 40 columns: in 80 columns the draw is refused with 6.
#![tactic(auto)]

ghost use Rattle.std.specs.Prelude.{◌≡◌, ◌/◌, ◌≤◌, length, IfOk};
ghost use Rattle.panel.specs.Feeds.{feeding, fed_pairs};

use board::MEMORY_BYTES;
use command::answer::Numbered;
use processor::state::Processor;
use shown::length::{PICTURE_BYTES, ROM_BYTES, ROW_BYTES};
use std::io;
use std::io::Read;

// The state after some writes, and the number of the last one's answer.
#[derive(Clone, Copy)]
struct Fed {
    processor: Processor,
    last: u8,
}

// The pairs of a chunk, one after the other. An odd last byte is ignored.
fn feed(start: Fed, memory: &mut [u8], chunk: &[u8]) -> Fed
    ensures { feeding result memory.new ≡ fed_pairs chunk.now (feeding start memory.old) (length chunk.now / 2) }
{
    let mut state = start;
    for pair in chunk.chunks_exact(2) {
        let answered = state.processor.write(memory, pair[0], pair[1]);
        let next = answered.processor;
        let answer = answered.answer;
        state = Fed {
            processor: next,
            last: answer.number(),
        };
    }
    state
}

// How many bytes were read into the chunk: as many as it holds, or all that were left. A read that is not at the end gives one at least.
fn read_full<R: Read>(input: &mut R, chunk: &mut [u8; 4096]) -> io::Result<usize>
    ensures { IfOk result (λ n. n ≤ 4096) }
{
    let mut n = 0;
    for _ in 0..4096 {
        let got = input.read(&mut chunk[n..])?;
        if got == 0 {
            return Ok(n);
        }
        n += got;
    }
    Ok(n)
}

// Whole standard input, by chunks of an even length. A proved loop has to end, so it counts its turns up to a number that no run uses up.
fn feed_all<R: Read>(start: Fed, memory: &mut [u8], input: &mut R) -> io::Result<Fed> {
    let mut now = start;
    for _ in 0..u64::MAX {
        let mut chunk = [0u8; 4096];
        let n = read_full(input, &mut chunk)?;
        let next = feed(now, memory, &chunk[..n]);
        now = next;
        if n < 4096 {
            return Ok(now);
        }
    }
    Ok(now)
}

// Bytes in hex, one space between.
fn print_bytes(rt: &HostRuntime, bytes: &[u8]) -> io::Result<()> {
    for (i, byte) in bytes.iter().enumerate() {
        if i != 0 {
            print!(rt; " ")?;
        }
        print!(rt; "{byte:02X}")?;
    }
    println!(rt;)
}

fn print_numbers(rt: &HostRuntime, last: u8, number: u8, rows: usize) -> io::Result<()> {
    println!(rt; "{last} {number} {rows}")
}

fn main(rt: HostRuntime) -> io::Result<()> {
    let mut memory = [0u8; MEMORY_BYTES];
    let rom = [0u8; ROM_BYTES];
    let mut picture = [0u8; PICTURE_BYTES];
    let start = Fed {
        processor: Processor::power_up(),
        last: 0,
    };
    let end = feed_all(start, &mut memory, &mut rt.reader())?;
    let drawn = end.processor.draw(&memory, &rom, &mut picture);
    let answer = drawn.answer;
    print_numbers(&rt, end.last, answer.number(), answer.value())?;
    print_bytes(&rt, &picture[ROW_BYTES..ROW_BYTES + 8])
}
