// The call Totals: the eight totals of a book, n over all groups, and four differences.
#![tactic(auto)]

ghost use Rattle.std.specs.Prelude.{◌≡◌, [], Ok, Err};
ghost use Rattle.book.specs.Reading.{ValidBook};
ghost use Rattle.valuation.specs.Totals.{totals_of, differences_of, totals_for};
ghost use Rattle.valuation.specs.Totals.{TotalsContract};
ghost use Rattle.totals_group.specs.Sums.{EightSettings};
ghost use Rattle.totals.specs.Sizes.{Sizes};

use cell_projection::{A_YEAR, YEARS};
use rate_table::{COLUMNS, ROWS};
use settings_outgo::Setting;
use std::array;
use totals_group::Group;
use valuation::TotalsReply;
use verdict::Refusal;

// The eight settings. Each is made from a number, so that the compiler works them out.
fn eight_settings() -> [Setting; 8]
    ensures { EightSettings result }
{
    array::from_fn(Setting::new)
}

// The eight totals, group by group. The curve and the weights are read once for all groups, which
// work in the same rows and in the same table of sums.
fn all_totals(book: &[u8]) -> [i64; 8]
    requires { ValidBook 1 book.now }
    ensures { (result ≡ totals_of book.now)
        × Sizes result }
{
    let curve = discount_curve::curve_of(book);
    let w = settings_decrements::shifts_of(book);
    let settings = eight_settings();
    let mut rows = [0u64; ROWS * COLUMNS];
    let mut totals = [0i64; 8];
    for group in 1usize..6 {
        let mut numbers = [0u64; YEARS * A_YEAR];
        group_projection::group_sums(book, w, group, None, &mut rows, &mut numbers);
        let valued = Group {
            book,
            curve: &curve,
            number: group,
            sums: &numbers,
        };
        valued.add_to(settings, &mut totals);
    }
    totals
}

// The reply of an accepted book.
fn computed(book: &[u8], n: u64) -> TotalsReply
    requires { ValidBook 1 book.now }
    ensures { result ≡ totals_for (Ok n) n (totals_of book.now)
        (differences_of book.now) }
{
    let totals = all_totals(book);
    TotalsReply {
        refusal: 0,
        place: 0,
        n,
        totals,
        differences: [
            signed::minus(totals[1], totals[2]),
            signed::minus(totals[3], totals[4]),
            signed::minus(totals[5], totals[6]),
            signed::minus(totals[7], totals[0]),
        ],
    }
}

// The reply of a refused book, in the struct that C has.
fn refused(refusal: Refusal) -> TotalsReply
    ensures { result ≡ totals_for (Err refusal) 0 [] [] }
{
    TotalsReply {
        refusal: refusal.number,
        place: refusal.place,
        n: 0,
        totals: [0; 8],
        differences: [0; 4],
    }
}

// The call Totals: the book is checked once, and then computed in all eight settings.
pub fn totals(book: &[u8]) -> TotalsReply
    ensures { TotalsContract book.now result }
{
    match book_check::check(book) {
        Ok(n) => computed(book, n),
        Err(refusal) => refused(refusal),
    }
}
