// What stands before the cost rates of a book, written: fixed fields, and the heads of the chains.
#![tactic(auto)]

ghost use Rattle.std.specs.Prelude.{[], ◌∷◌, ◌++◌, ◌≡◌, ◌+◌, ◌<◌, ◌^◌};
ghost use Rattle.le_bytes.specs.Bytes.{two_bytes};
ghost use Rattle.buffer.specs.Text.{Wrote};
ghost use Rattle.book_contents.specs.Written.{head_for, head_bytes};

use book::CHAINS;
use book_contents::Values;
use book_encoding::put_two;
use book_sizes::Chain;
use buffer::put_byte;

// What stands before the heads, with n, the number of records.
pub fn put_front(out: &mut [u8], values: &Values, n: usize) -> usize
    requires { (values.now.edition < 256)
        × (values.now.men < 256)
        × (values.now.women < 256) }
    ensures { Wrote out.old 0
        (values.now.edition ∷ 1 ∷ [] ++ two_bytes values.now.year ++ two_bytes n
        ++ values.now.men ∷ values.now.women ∷ []) out.new result
        × (result ≡ 8) }
{
    let basis_at = put_byte(out, 0, values.edition as u8);
    let year_at = put_byte(out, basis_at, 1);
    let records_at = put_two(out, year_at, values.year);
    let men_at = put_two(out, records_at, n as u64);
    let women_at = put_byte(out, men_at, values.men as u8);
    put_byte(out, women_at, values.women as u8)
}

// The head of a chain.
fn head_for(chain: Chain) -> u64
    ensures { result ≡ head_for chain.entry.values.now.first chain.entry.number }
{
    if chain.size() == 0 {
        return 0;
    }
    (chain.before + 1) as u64
}

pub fn put_heads(out: &mut [u8], at: usize, values: &Values) -> usize
    requires { at + 64 < 2 ^ 64 }
    ensures { Wrote out.old at (head_bytes values.now.first) out.new
        result
        × (result ≡ at + 28) }
{
    let mut next = at;
    for number in 0..CHAINS {
        next = put_two(out, next, head_for(Chain::new(values, number)));
    }
    next
}
