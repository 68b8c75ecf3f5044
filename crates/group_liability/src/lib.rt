// The call Group: a product group's liability in a setting, its n, and its year table.
#![tactic(auto)]

ghost use Rattle.std.specs.Prelude.{◌≡◌};
ghost use Rattle.valuation.specs.Replies.{group_check, GroupContract};

use cell_projection::{A_YEAR, YEARS};
use rate_table::{COLUMNS, ROWS};
use settings_outgo::Setting;
use valuation::{GroupReply, Valued};
use verdict::{Verdict, need};

// The refusals of Group, in their order.
#[tactic(auto, unfolding(valuation::specs::Replies::group_check, verdict::specs::Verdicts::first_refusal))]
fn check_group(book: &[u8], setting: usize, group: usize, numbers: usize) -> Verdict
    ensures { result ≡ group_check book.now setting group numbers }
{
    need(setting < 8, 14, 0)?;
    need(le_bytes::within(1, 5, group), 15, 0)?;
    need(200 <= numbers, 16, 0)?;
    book_check::check(book)
}

pub fn group(book: &[u8], setting: usize, group: usize, table: &mut [u64]) -> GroupReply
    ensures { GroupContract book.now setting group table.old
        table.new result }
{
    check_group(book, setting, group, table.len())?;
    let mut rows = [0u64; ROWS * COLUMNS];
    let mut numbers = [0u64; YEARS * A_YEAR];
    let s = Setting::new(setting);
    let w = settings_decrements::shifts_of(book);
    let n = group_projection::group_sums(
        book,
        w,
        group,
        Some(s.projection),
        &mut rows,
        &mut numbers,
    );
    let liability = present_value::value_group(book, s, group, &numbers, table);
    Ok(Valued { liability, n })
}
