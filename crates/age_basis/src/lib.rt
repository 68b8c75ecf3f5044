// The converter: a book on age basis 2 turned into one on basis 1, in the caller's buffer.
#![tactic(auto)]

ghost use Rattle.std.specs.Prelude.{◌≡◌, ◌++◌, ◌≤◌, length, drop};
ghost use Rattle.book.specs.Rules.{Rules};
ghost use Rattle.age_basis_definitions.specs.Conversion.{converted, convert_check, ConvertContract};

use age_basis_classes::lower_chains;
use verdict::{Verdict, need};

// 16, then the book's refusals on basis 2.
#[tactic(auto, unfolding(age_basis_definitions::specs::Conversion::convert_check, verdict::specs::Verdicts::need, verdict::specs::Verdicts::first_refusal))]
fn check_convert(book: &[u8], capacity: usize) -> Verdict
    ensures { result ≡ convert_check book.now capacity }
{
    need(book.len() <= capacity, 16, 0)?;
    book_check::check_on(book, 2)
}

// The converted book, in the first bytes of the buffer. Byte 1 is written last: no class stands
// there.
fn write_converted(book: &[u8], out: &mut [u8])
    requires { Rules 2 book.now
        × (length book.now ≤ length out.old) }
    ensures { let b = book.now in
        out.new ≡ converted b ++ drop (length b) out.old }
{
    let size = book.len();
    out[..size].copy_from_slice(book);
    lower_chains(book, out);
    out[1] = 1;
}

// A buffer that is longer than the book keeps its other bytes; where the answer is a refusal, it
// keeps all.
pub fn convert(book: &[u8], out: &mut [u8]) -> Verdict
    ensures { ConvertContract book.now out.old out.new result }
{
    let n = check_convert(book, out.len())?;
    write_converted(book, out);
    Ok(n)
}
