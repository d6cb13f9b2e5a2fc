// The first line of a report, and the line of a decline.
ghost use Rattle.std.specs.Prelude.{◌≡◌};
ghost use Rattle.buffer.specs.Taken.{Takes};
ghost use Rattle.text.specs.Printed.{status_word, report_line, decline_line};

use buffer::Text;
use disac4::{Report, Status};
use faults::Decline;

// A status as its word.
#[tactic(auto, unfolding(crate::specs::Printed::status_word))]
fn word(status: Status) -> &'static [u8]
    ensures { result.now ≡ status_word status }
{
    match status {
        Status::Open => b"open",
        Status::Closed => b"closed",
        Status::Bare => b"bare",
    }
}

// The report in its order.
pub fn push_report(text: &mut Text<'_>, report: Report)
    ensures { Takes (report_line report) text.old text.new }
{
    text.push_word(word(report.status));
    text.push_spaced(report.changes);
    text.push_spaced(report.sends);
    text.push_spaced(report.polls);
    text.push_spaced(report.empty);
    text.push(b'\n');
}

// `declined`, number, place.
pub fn push_decline(text: &mut Text<'_>, decline: Decline)
    ensures { Takes (decline_line decline) text.old text.new }
{
    text.push_word(b"declined");
    text.push_spaced(usize::from(decline.fault));
    text.push_spaced(decline.place);
    text.push(b'\n');
}
