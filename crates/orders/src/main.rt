// The program "orders": a ticket's words from standard input, the answer of the call `listing` as lines on
// standard output.
// `write_output` promises that the bytes are those of the definition `program_of`. No contract can speak of what the
// system gives or takes.
#![tactic(auto)]

ghost use Rattle.std.specs.Prelude.{◌≤◌, length, take};
ghost use Rattle.std.specs.Io.KnownBytes.{Consumes};

use out_program::write_output;
use out_text::Text;
use std::io::Read;

// Reads until the bytes are full or the input ends, and returns how many there are. A read that fails is taken
// for the end.
fn read_full<R: Read>(input: &mut R, bytes: &mut [u8]) -> usize
    ensures within { result ≤ length bytes.new }
    ensures read { Consumes (R.remaining input.old) (R.remaining input.new) (take result bytes.new) }
{
    let mut done = 0;
    while done < bytes.len() {
        match input.read(&mut bytes[done..]) {
            Ok(0) | Err(_) => return done,
            Ok(n) => done += n,
        }
    }
    done
}

fn main(rt: HostRuntime) {
    let mut bytes = [0u8; 280];
    let count = read_full(&mut rt.reader(), &mut bytes);
    let mut text = Text::new();
    write_output(&bytes[..count], &mut text);
    // What standard output does not take is lost, and the status stays 0.
    let _ = rt.write_all(text.as_bytes());
}
