// The desk program: a sheet from standard input, its answer to standard output.
#![tactic(auto)]

ghost use Rattle.desk.specs.Input.{Within};

use std::io;
use std::io::{Read, Write};
use std::process::ExitCode;

// Reads up to the end of an input, or until the buffer is full; gives how many bytes were read.
fn read_input(input: &mut impl Read, buffer: &mut [u8]) -> io::Result<usize>
    ensures { Within result buffer.new }
{
    let mut done: usize = 0;
    while done < buffer.len() {
        let more = input.read(&mut buffer[done..])?;
        if more == 0 {
            break;
        }
        done += more;
    }
    Ok(done)
}

// A text of more than 4,096 bytes is refused however it goes on, so one byte more than that is enough. A failure is told on standard error,
// and by the status.
fn main(rt: HostRuntime) -> ExitCode {
    let mut text = [0u8; 4097];
    let Ok(count) = read_input(&mut rt.stdin(), &mut text) else {
        let _ = eprintln!(rt; "desk: standard input cannot be read");
        return ExitCode::FAILURE;
    };
    let mut output = [0u8; 4096];
    let length = answer::answer(&text[..count], &mut output);
    let written = rt.stdout().write_all(&output[..length]);
    if written.is_err() {
        let _ = eprintln!(rt; "desk: the answer cannot be written");
        return ExitCode::FAILURE;
    }
    ExitCode::SUCCESS
}
