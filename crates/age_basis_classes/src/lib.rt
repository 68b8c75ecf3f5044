// The classes of a converted book: that of every linked record is one lower, in a copy of the book.
// The functions ask for a book that the check has accepted.
#![tactic(auto)]

ghost use Rattle.std.specs.Prelude.{◌≤◌, ◌<◌, length};
ghost use Rattle.book.specs.Layout.{class_of};
ghost use Rattle.book.specs.Rules.{Rules};
ghost use Rattle.book.specs.Reading.{Inside};
ghost use Rattle.age_basis_definitions.specs.Conversion.{class_at, chain_class_at, linked_class_at};
ghost use Rattle.age_basis_classes.specs.Steps.{Lowered};

use book::CHAINS;

// The class of record i, one less, at its place in the buffer.
fn lower_class(book: &[u8], out: &mut [u8], i: usize)
    requires { Inside book.now i
        × (1 ≤ class_of book.now i)
        × (length book.now ≤ length out.old) }
    ensures { Lowered book.now (λ p. class_at p i) out.old
        out.new }
{
    let at = book::record_at(i) + 2;
    out[at] = book[at] - 1;
}

// The same for each linked record of chain k.
fn lower_chain(book: &[u8], out: &mut [u8], k: usize)
    requires { Rules 2 book.now
        × (k < 14)
        × (length book.now ≤ length out.old) }
    ensures { let b = book.now in
        Lowered b (λ p. chain_class_at b p k) out.old out.new }
{
    // It follows links and counts no index: an iterator of them would be no plainer.
    let mut i = book::head_of(book, k);
    while i != 0 {
        lower_class(book, out, i);
        i = book::next_of(book, i);
    }
}

// The same for each linked record of the book.
pub fn lower_chains(book: &[u8], out: &mut [u8])
    requires { Rules 2 book.now
        × (length book.now ≤ length out.old) }
    ensures { let b = book.now in
        Lowered b (linked_class_at b) out.old out.new }
{
    for k in 0..CHAINS {
        lower_chain(book, out, k);
    }
}
