// Reads plan.bin and turns.bin, plays the turns, or rounds where there is no turns.bin, and prints the report and the lists.
// What fails beside that, a file or the output, gets a line on standard error.
#![tactic(auto)]

ghost use Rattle.std.specs.Prelude.{◌≤◌, length, IfOk, IfSome};

use disac4::MAX_TURN_BYTES;
use display::TEXT_ROOM;
use std::fmt::InlineText;
use std::fs::{File, OpenFile};
use std::io::{Error, ErrorKind};
use std::rt::Files;
use std::{fs, io};

// The bytes of a plan that are read.
const MAX_PLAN_BYTES: usize = 65536;

// The bytes that every error's words fit.
const REASON_ROOM: usize = 256;

// Standard output as a file of the system.
const STANDARD_OUTPUT: &str = "/dev/stdout";

// Writes a line to standard error: what failed, and the system's words for it, without their number.
fn fail(rt: &impl Eprint, what: &str, error: &Error) {
    let text = InlineText::<REASON_ROOM>::of(error);
    let reason = text.as_str();
    let words = match reason.split_once(" (os error ") {
        Some((words, _)) => words,
        None => reason,
    };
    let _ = eprintln!(rt; "{what}: {words}");
}

// As many of the file's first bytes as the buffer holds, or None where it cannot be opened. One open answers both, so that what
// was found is what is played, and a pipe loses no byte. Each failure gets its line, but that a file is not there is none.
fn read_file<'b>(
    rt: &(impl Files + Eprint),
    path: &str,
    buf: &'b mut [u8],
) -> io::Result<Option<&'b [u8]>>
    ensures within { IfOk result (λ found. IfSome found (λ bytes. length bytes.now ≤ length buf.old)) }
{
    let mut file = match fs::open(rt, path) {
        Ok(file) => file,
        Err(error) => {
            if error.kind() != ErrorKind::NotFound {
                fail(rt, path, &error);
            }
            return Ok(None);
        }
    };
    match input::fill(&mut file, buf) {
        (bytes, Ok(())) => Ok(Some(bytes)),
        (_, Err(error)) => {
            fail(rt, path, &error);
            Err(error)
        }
    }
}

// Where standard output is a file, waits until what was written is stored: some file systems say only then that a write was
// lost. One that cannot be opened again is left as it is.
fn store(rt: &impl Files) -> io::Result<()> {
    match fs::metadata(rt, STANDARD_OUTPUT) {
        Ok(found) if found.is_file() => match File::options()
            .append(true)
            .open(rt, STANDARD_OUTPUT)
        {
            Ok(file) => file.sync_all(),
            Err(_) => Ok(()),
        },
        _ => Ok(()),
    }
}

// Writes a text to standard output, and has it stored.
fn write(rt: &(impl Files + Print), text: &[u8]) -> io::Result<()> {
    rt.write_all(text)?;
    store(rt)
}

// Writes a text to standard output; a failure gets its line.
fn print(rt: &(impl Files + Print + Eprint), text: &[u8]) {
    if let Err(error) = write(rt, text) {
        fail(rt, "standard output", &error);
    }
}

// Prints what is shown of a plan and its turns, of rounds where there is no turn list.
fn play(rt: &(impl Files + Print + Eprint), plan: &[u8], turns: Option<&[u8]>) {
    let mut out = [0u8; TEXT_ROOM];
    let n = display::show(plan, turns, &mut out);
    print(rt, &out[..n]);
}

fn main(rt: HostRuntime) {
    let mut plan = [0u8; MAX_PLAN_BYTES];
    let plan_file = read_file(&rt, "plan.bin", &mut plan);
    // One byte more than a list may have: a longer file is a list that is too long.
    let mut turns = [0u8; MAX_TURN_BYTES + 1];
    let turn_file = read_file(&rt, "turns.bin", &mut turns);
    // Of a file that broke off nothing is played: its beginning may look whole.
    if let (Ok(plan), Ok(turns)) = (plan_file, turn_file) {
        play(&rt, plan.unwrap_or(&[]), turns);
    }
}
