// Answers the plans of standard input, one to a line in hexadecimal, with spaces between bytes where they help. An empty
// line is the empty plan, and a line that starts with '#' says why the answer below is right. The answers that the
// program has to give were worked out by hand from documents 01 and 02.
#![tactic(auto)]

ghost use Rattle.std.specs.Prelude.{◌≤◌, ◌<◌, length};

// The bytes of the input that are read.
const TEXT_ROOM: usize = 65536;

// The value of a hexadecimal digit; 0 for any other byte.
fn value(c: u8) -> u8
    ensures { result < 16 }
{
    match c {
        b'0'..=b'9' => c - b'0',
        b'A'..=b'F' => c - b'A' + 10,
        _ => 0,
    }
}

// The bytes that a line spells, put into `plan` as far as it holds them.
fn parse<'b>(line: &[u8], plan: &'b mut [u8]) -> &'b [u8]
    ensures { length result.now ≤ length plan.old }
{
    let mut used = 0;
    let mut rest = line;
    while let [high, low, ..] = rest {
        if *high == b' ' {
            rest = &rest[1..];
            continue;
        }
        if used == plan.len() {
            break;
        }
        plan[used] = value(*high) * 16 + value(*low);
        used += 1;
        rest = &rest[2..];
    }
    &plan[..used]
}

fn accepted(rt: &impl Print, f: plan::Counts) {
    let _ = println!(rt;
        "accepted {} {} {} {}",
        f.workers, f.variables, f.constraints, f.labels
    );
}

fn declined(rt: &impl Print, d: faults::Decline) {
    let _ = println!(rt; "declined {} {}", usize::from(d.fault), d.place);
}

fn answer(rt: &impl Print, bytes: &[u8]) {
    match parser::check_plan(bytes) {
        Ok(f) => accepted(rt, f),
        Err(d) => declined(rt, d),
    }
}

fn answer_line(rt: &impl Print, line: &[u8]) {
    if !line.starts_with(b"#") {
        let mut bytes = [0u8; 8192];
        answer(rt, parse(line, &mut bytes));
    }
}

fn answer_lines(rt: &impl Print, text: &[u8]) {
    for line in text.split_inclusive(|byte| *byte == b'\n') {
        answer_line(rt, line.strip_suffix(b"\n").unwrap_or(line));
    }
}

fn main(rt: HostRuntime) {
    let mut text = [0u8; TEXT_ROOM];
    // Where a read fails, what came before it is answered.
    let (text, _) = input::fill(&mut rt.reader(), &mut text);
    answer_lines(&rt, text);
}
