// The cell that is asked for on the screen: the refusals that the caller alone decides, and the
// linked record of a subgroup code, sex and class.
#![tactic(auto)]

ghost use Rattle.std.specs.Prelude.{◌≡◌, ◌<◌, ◌≤◌};
ghost use Rattle.book.specs.Reading.{ValidBook};
ghost use Rattle.valuation.specs.Portfolio.{chain_links};
ghost use Rattle.in_force_request.specs.Request.{chain_of, of_class, if_any, asked_check};

use verdict::{Verdict, need};

// The refusals that the caller alone decides, in their order.
#[tactic(auto, unfolding(crate::specs::Request::asked_check, verdict::specs::Verdicts::first_refusal))]
pub fn check_asked(setting: usize, code: usize, sex: usize, numbers: usize) -> Verdict
    ensures { result ≡ asked_check setting code sex numbers }
{
    need(setting < 8, 14, 0)?;
    need(le_bytes::within(1, 7, code), 25, 0)?;
    need(sex <= 1, 25, 0)?;
    need(50 <= numbers, 25, 0)
}

// The chain of a subgroup code and a sex.
pub fn chain_of(code: usize, sex: usize) -> usize
    requires { (1 ≤ code)
        × (code ≤ 7)
        × (sex ≤ 1) }
    ensures { (result ≡ chain_of code sex)
        × (result < 14) }
{
    2 * (code - 1) + sex
}

// The linked record of a class in chain k.
pub fn record_of(book: &[u8], k: usize, class: usize) -> Option<usize>
    requires { ValidBook 1 book.now
        × (k < 14) }
    ensures { result ≡ if_any (of_class book.now class (chain_links book.now k)) }
{
    let head = book::head_of(book, k);
    if head == 0 {
        return None;
    }
    // It follows links to the last class: an iterator of them would be no plainer.
    let mut i = head;
    let mut above = book::LAST_CLASS - book::class_of(book, head);
    loop {
        let here = book::class_of(book, i);
        if here == class {
            return Some(i);
        }
        if above == 0 {
            return None;
        }
        i = book::next_of(book, i);
        above -= 1;
    }
}
