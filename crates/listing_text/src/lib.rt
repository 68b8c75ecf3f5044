// The text of a listing, from the totals of the eight settings and n: eight lines, one a setting.
#![tactic(auto)]

ghost use Rattle.std.specs.Prelude.{◌+◌, ◌<◌, ◌≤◌, ◌^◌};
ghost use Rattle.buffer.specs.Text.{Wrote};
ghost use Rattle.listing_text.specs.Lines.{listing_line, listing_text};

use buffer::put_ended;

fn put_line(out: &mut [u8], at: usize, setting: u64, total: i64, n: u64) -> usize
    requires { at + 65 < 2 ^ 64 }
    ensures { Wrote out.old at (listing_line setting total n) out.new result
        × (result ≤ at + 64) }
{
    let total_at = put_ended(out, at, setting, b' ');
    let n_at = put_ended(out, total_at, total, b' ');
    put_ended(out, n_at, n, b'\n')
}

// A listing has at most 512 bytes, whatever totals and n are.
pub fn put_listing(out: &mut [u8], totals: [i64; 8], n: u64) -> usize
    ensures { Wrote out.old 0 (listing_text totals n) out.new result
        × (result ≤ 512) }
{
    let mut at = 0;
    for (setting, total) in totals.iter().enumerate() {
        at = put_line(out, at, setting as u64, *total, n);
    }
    at
}
