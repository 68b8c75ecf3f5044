// One linked record: refusals 10, 21, 11, 12 and 13, then 9 for its next.
// The functions ask for the record's bytes: they are for the check, which has shown that they are
// there.
#![tactic(auto)]

ghost use Rattle.std.specs.Prelude.{◌≡◌, ◌+◌, ◌≤◌, ◌<◌, length};
ghost use Rattle.book.specs.Check.{check_owner, check_class, ends_right, check_link};
ghost use Rattle.book.specs.Reading.{Inside};

use verdict::{Verdict, need};

// Refusal 10 of the record that starts at a place, in chain k.
#[tactic(auto, unfolding(book::specs::Check::check_owner, verdict::specs::Verdicts::first_refusal))]
fn check_owner(b: &[u8], k: usize, at: usize) -> Verdict
    requires { (k < 14)
        × (at + 24 ≤ length b.now) }
    ensures { result ≡ check_owner b.now k at }
{
    let code = le_bytes::read_u8(b, at);
    let sex = le_bytes::read_u8(b, at + 1);
    let spare = le_bytes::read_u8(b, at + 3);
    let spare_two = le_bytes::read_u16(b, at + 6);
    need(code == k / 2 + 1, 10, at)?;
    need(sex == k % 2, 10, at)?;
    need(spare == 0, 10, at)?;
    need(spare_two == 0, 10, at)
}

// Refusal 21, then 11.
#[tactic(auto, unfolding(book::specs::Check::check_class, verdict::specs::Verdicts::first_refusal))]
fn check_class(b: &[u8], lowest: usize, class: usize, at: usize) -> Verdict
    requires { at + 24 ≤ length b.now }
    ensures { result ≡ check_class b.now lowest class at }
{
    let found = le_bytes::read_u8(b, at + 2);
    need(lowest <= found, 21, at + 2)?;
    need(found == class, 11, at + 2)
}

// A chain ends where no class is left, and nowhere else.
#[tactic(auto, unfolding(book::specs::Check::ends_right))]
fn ends_right(left: usize, next: usize) -> bool
    ensures { result ≡ ends_right left next }
{
    if left == 0 { next == 0 } else { next != 0 }
}

// Record i in chain k, with left classes above its own: its refusals, then 9 of its next.
#[tactic(auto, unfolding(book::specs::Check::check_link, verdict::specs::Verdicts::first_refusal))]
pub fn check_link(b: &[u8], last: usize, k: usize, left: usize, i: usize) -> Verdict
    requires { (k < 14)
        × (left ≤ last)
        × (120 ≤ last)
        × Inside b.now i }
    ensures { result ≡ check_link b.now last k left i }
{
    let count = book::records(b);
    let next = book::next_of(b, i);
    let at = book::record_at(i);
    check_owner(b, k, at)?;
    check_class(b, book::lowest_class(last), last - left, at)?;
    book_check_amounts::check_amounts(b, at)?;
    need(ends_right(left, next), 13, at + 4)?;
    need(next <= count, 9, at + 4)
}
