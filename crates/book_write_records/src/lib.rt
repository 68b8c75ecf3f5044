// A record of a book, written: its chain, class and next record, and four numbers.
#![tactic(auto)]

ghost use Rattle.std.specs.Prelude.{[], ◌∷◌, ◌++◌, ◌≡◌, ◌+◌, ◌<◌, ◌^◌};
ghost use Rattle.le_bytes.specs.Bytes.{two_bytes};
ghost use Rattle.book.specs.Layout.{chain_code, chain_sex};
ghost use Rattle.buffer.specs.Text.{Wrote};
ghost use Rattle.book_contents.specs.Written.{next_for, encoded_record};

use book_encoding::{put_four, put_two};
use book_sizes::Chain;
use buffer::put_byte;

// The first eight bytes of a record of chain k.
fn put_link(out: &mut [u8], at: usize, k: usize, class: u64, next: u64) -> usize
    requires { (at + 9 < 2 ^ 64)
        × (k < 14)
        × (class < 256) }
    ensures { Wrote out.old at
        (chain_code k ∷ chain_sex k ∷ class ∷ 0 ∷ [] ++ two_bytes next ++ two_bytes 0)
        out.new result
        × (result ≡ at + 8) }
{
    let sex_at = put_byte(out, at, (k / 2 + 1) as u8);
    let class_at = put_byte(out, sex_at, (k % 2) as u8);
    let spare_at = put_byte(out, class_at, class as u8);
    let next_at = put_byte(out, spare_at, 0);
    let last_at = put_two(out, next_at, next);
    put_two(out, last_at, 0)
}

// What a record holds: its chain, its class, the record that follows in the chain (0 after the
// last), and four numbers.
#[derive(Clone, Copy)]
pub struct Record {
    pub chain: usize,
    pub class: u64,
    pub next: u64,
    pub count: u64,
    pub lapse: u64,
    pub premium: u64,
    pub claims: u64,
}

pub fn put_record(out: &mut [u8], at: usize, fields: Record) -> usize
    requires { (at + 25 < 2 ^ 64)
        × (fields.chain < 14)
        × (fields.class < 256) }
    ensures { Wrote out.old at
        (encoded_record fields.chain fields.class fields.next fields.count
        fields.lapse fields.premium fields.claims) out.new result
        × (result ≡ at + 24) }
{
    let count_at = put_link(out, at, fields.chain, fields.class, fields.next);
    let lapse_at = put_four(out, count_at, fields.count);
    let premium_at = put_four(out, lapse_at, fields.lapse);
    let claims_at = put_four(out, premium_at, fields.premium);
    put_four(out, claims_at, fields.claims)
}

// The next of entry j of a chain.
pub fn next_for(chain: Chain, j: usize) -> u64
    requires { j < 121 }
    ensures { result ≡ next_for chain.entry.values.now.first chain.entry.number j }
{
    if j + 1 == chain.size() {
        return 0;
    }
    (chain.before + (j + 1) + 1) as u64
}
