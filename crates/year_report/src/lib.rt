// The year report of a book in a setting, as text in the caller's buffer: premium after cap and
// outgo of each product group and year. And how much buffer it wants, to the byte.
#![tactic(auto)]

ghost use Rattle.std.specs.Prelude.{◌≡◌};
ghost use Rattle.report_text.specs.Report.{report_check, ReportContract, ReportLengthContract};

use report_years::measured_years;
use text_reply::TextReply;
use verdict::{Verdict, need};

// The refusals of both calls, in their order.
#[tactic(auto, unfolding(report_text::specs::Report::report_check, verdict::specs::Verdicts::first_refusal))]
fn check_report(book: &[u8], setting: usize) -> Verdict
    ensures { result ≡ report_check book.now setting }
{
    need(setting < 8, 14, 0)?;
    book_check::check(book)
}

// Writes the report where the caller's buffer has the space that `report_length` says; else, and
// where the book is refused, nothing. The book is checked and computed once: length and text are
// those of the same tables.
pub fn write_report(book: &[u8], setting: usize, out: &mut [u8]) -> TextReply
    ensures { ReportContract book.now setting out.old out.new
        result }
{
    check_report(book, setting)?;
    let years = measured_years(book, setting);
    need(years.bytes <= out.len(), 20, 0)?;
    Ok(report_text::put_report(years, out))
}

// Replies with the buffer that `write_report` wants: the report's length, to the byte.
pub fn report_length(book: &[u8], setting: usize) -> TextReply
    ensures { ReportLengthContract book.now setting result }
{
    check_report(book, setting)?;
    Ok(measured_years(book, setting).bytes)
}
