// The text that the program prints, as a definition and assembled in a lent buffer.
#![tactic(auto)]

ghost use Rattle.buffer.specs.Buffer.{Holds};
ghost use Rattle.buffer.specs.Taken.{Takes};
ghost use Rattle.text.specs.Printed.{printed};

use buffer::Text;
use disac4::Report;
use faults::Decline;

mod lines;

// The text of an answer.
fn push_answer(text: &mut Text<'_>, answer: Result<Report, Decline>, plan: &[u8], lists: &[u16])
    ensures { Takes (printed answer plan.now lists.now) text.old text.new }
{
    match answer {
        Ok(report) => {
            lines::push_report(text, report);
            domains::push_domains(text, plan, lists);
        }
        Err(decline) => lines::push_decline(text, decline),
    }
}

// Puts the text of an answer at the buffer's start, as much of it as fits, and returns how many bytes that is.
pub fn print_answer(
    answer: Result<Report, Decline>,
    plan: &[u8],
    lists: &[u16],
    out: &mut [u8],
) -> usize
    ensures { Holds (printed answer plan.now lists.now) out.old out.new result }
{
    let mut text = Text::new(out);
    push_answer(&mut text, answer, plan, lists);
    text.len()
}
