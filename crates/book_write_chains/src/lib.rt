// The records of a book, written chain by chain, each of the contents' entries in its record.
#![tactic(auto)]

ghost use Rattle.std.specs.Prelude.{◌≡◌, ◌+◌, ◌*◌, ◌<◌, ◌^◌};
ghost use Rattle.book.specs.Layout.{header_size, record_size};
ghost use Rattle.buffer.specs.Text.{Wrote, joined};
ghost use Rattle.book_contents.specs.Contents.{given_lists, size_of};
ghost use Rattle.book_contents.specs.Written.{chain_bytes};
ghost use Rattle.book_contents.specs.Limits.{Fit};

use book::{CHAINS, HEADER_SIZE};
use book_contents::{ByKind, Values};
use book_sizes::Chain;
use book_write_records::{Record, next_for, put_record};

// The records of a chain.
fn put_chain(out: &mut [u8], at: usize, chain: Chain, lists: ByKind<&[u64]>) -> usize
    requires { (at < 2 ^ 32)
        × Fit (given_lists chain.values.now lists) }
    ensures { Wrote out.old at
        (chain_bytes (given_lists chain.entry.values.now lists.entry) chain.entry.number)
        out.new result
        × (result ≡ at + record_size * size_of chain.entry.values.now.first chain.entry.number) }
{
    let class = chain.values.first[chain.number];
    let mut next = at;
    for j in 0..chain.size() {
        let link = next_for(chain, j);
        let i = chain.before + j;
        let fields = Record {
            chain: chain.number,
            class: class + j as u64,
            next: link,
            count: lists.counts[i],
            lapse: lists.lapses[i],
            premium: lists.premiums[i],
            claims: lists.claims[i],
        };
        next = put_record(out, next, fields);
    }
    next
}

// All records, chain by chain, after the header.
pub fn put_chains(out: &mut [u8], values: &Values, lists: ByKind<&[u64]>) -> usize
    requires { Fit (given_lists values.now lists) }
    ensures { Wrote out.old header_size
        (joined (chain_bytes (given_lists values.now lists.entry)) 14) out.new result }
{
    let mut next = HEADER_SIZE;
    for number in 0..CHAINS {
        next = put_chain(out, next, Chain::new(values, number), lists);
    }
    next
}
