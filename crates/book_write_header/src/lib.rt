// What stands before the records of a book, written: fixed fields, heads, cost rates, curve and
// mortality.
#![tactic(auto)]

ghost use Rattle.std.specs.Prelude.{true, ◌≡◌, ℕ, ◌<◌, pos, get_or};
ghost use Rattle.buffer.specs.Text.{Wrote};
ghost use Rattle.book_contents.specs.Written.{header_bytes};
ghost use Rattle.book_contents.specs.Limits.{curve_rate};

use book_contents::Values;
use book_encoding::{put_curve, put_fields};
use book_sizes::total;
use book_write_heads::{put_front, put_heads};

// What stands before the records.
pub fn put_header(out: &mut [u8], values: &Values) -> usize
    requires { (values.now.edition < 256)
        × (values.now.men < 256)
        × (values.now.women < 256)
        × ((j : ℕ) → curve_rate (get_or values.now.curve j (pos 0)) ≡ true) }
    ensures { Wrote out.old 0 (header_bytes values.now) out.new result
        × (result ≡ 1220) }
{
    let n = total(&values.first);
    let heads_at = put_front(out, values, n);
    let cost_at = put_heads(out, heads_at, values);
    let curve_at = put_fields(out, cost_at, &values.cost);
    let mortality_at = put_curve(out, curve_at, &values.curve);
    put_fields(out, mortality_at, &values.mortality)
}
