// The lines of the year report as text in the caller's buffer, from a product group's fifty years.
// And how long they are.
#![tactic(auto)]

ghost use Rattle.std.specs.Prelude.{◌≡◌, ◌+◌, ◌<◌, ◌≤◌, ◌^◌, length};
ghost use Rattle.buffer.specs.Text.{decimal, Wrote};
ghost use Rattle.report_lines.specs.Sheet.{sheet_line, table_lines};

use buffer::put_ended;

// What the report shows of a year: the premium after cap, and the outgo.
#[derive(Clone, Copy)]
pub struct ShownYear {
    pub premium: u64,
    pub outgo: u64,
}

fn put_line(out: &mut [u8], at: usize, group: u64, year: u64, shown: ShownYear) -> usize
    requires { at + 85 < 2 ^ 64 }
    ensures { Wrote out.old at (sheet_line group year shown.premium shown.outgo)
        out.new result
        × (result ≤ at + 84) }
{
    let year_at = put_ended(out, at, group, b',');
    let premium_at = put_ended(out, year_at, year, b',');
    let outgo_at = put_ended(out, premium_at, shown.premium, b',');
    put_ended(out, outgo_at, shown.outgo, b'\n')
}

// A product group's fifty lines.
pub fn put_lines(out: &mut [u8], at: usize, group: u64, years: [ShownYear; 50]) -> usize
    requires { at + 4201 < 2 ^ 64 }
    ensures { Wrote out.old at (table_lines group years) out.new result
        × (result ≤ at + 4200) }
{
    let mut next = at;
    for (year, shown) in years.iter().enumerate() {
        next = put_line(out, next, group, year as u64, *shown);
    }
    next
}

// How many digits a number has: by tenths, as `decimal` spells it, and not by the library's
// logarithm, of which each law would need a proof first.
fn digits(n: u64) -> usize
    ensures { (result ≡ length (decimal n))
        × (result ≤ 20) }
{
    if n < 10 {
        return 1;
    }
    digits(n / 10) + 1
}

// A byte ends each of the four numbers.
fn line_length(group: u64, year: u64, shown: ShownYear) -> usize
    ensures { (result ≡ length (sheet_line group year shown.premium shown.outgo))
        × (result ≤ 84) }
{
    digits(group) + digits(year) + digits(shown.premium) + digits(shown.outgo) + 4
}

// The length of what `put_lines` writes.
pub fn lines_length(group: u64, years: [ShownYear; 50]) -> usize
    ensures { (result ≡ length (table_lines group years))
        × (result ≤ 4200) }
{
    let mut bytes = 0;
    for (year, shown) in years.iter().enumerate() {
        bytes += line_length(group, year as u64, *shown);
    }
    bytes
}
