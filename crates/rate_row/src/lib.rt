// The row of a record in the table of rates: what lives on at three weights of mortality, what
// stays at three of the lapse, premium and claims.
// Internal: the functions ask for an accepted book's rules, which the calls above have from the
// check.
#![tactic(auto)]

ghost use Rattle.std.specs.Prelude.{◌≡◌, ◌<◌, ◌≤◌};
ghost use Rattle.book.specs.Layout.{chain_sex, class_of};
ghost use Rattle.book.specs.Reading.{ValidBook};
ghost use Rattle.book.specs.Rules.{RecordRules};
ghost use Rattle.settings_decrements.specs.Decrements.{ShiftsOf};
ghost use Rattle.valuation.specs.Portfolio.{mortality_of};
ghost use Rattle.rate_table.specs.Rows.{row_count};
ghost use Rattle.rate_table.specs.Puts.{RowPut};

use rate_table::{
    CLAIMS, COLUMNS, PERSISTENCY, PREMIUM, RateTable, SURVIVAL, Weights, put, put_three,
};
use settings_decrements::Shifts;

// The mortality of a sex and class, in millionths.
fn mortality_of(book: &[u8], sex: usize, class: usize) -> u64
    requires { ValidBook 1 book.now
        × (sex ≤ 1)
        × (class ≤ 120) }
    ensures { (result ≡ mortality_of book.now sex class)
        × (result ≤ 1000000) }
{
    le_bytes::read_u32(
        book,
        book::MORTALITY_PLACE + book::MORTALITY_SIZE * sex + 4 * class,
    )
}

// A record of a chain: the chain, the record's number and its class.
#[derive(Clone, Copy)]
pub struct Link {
    pub chain: usize,
    pub number: usize,
    pub class: usize,
}

// Stores row r: what a record of a chain holds.
pub fn put_row(book: &[u8], w: Shifts, link: Link, r: usize, rows: &mut RateTable)
    requires { ShiftsOf book.now w
        × ValidBook 1 book.now
        × RecordRules book.now 120 link.chain link.number
        × (link.class ≡ class_of book.now link.number)
        × (r < row_count) }
    ensures { RowPut book.now (chain_sex link.chain) link.number
        rows.old rows.new r }
{
    let sex = link.chain % 2;
    let i = link.number;
    let mortality = mortality_of(book, sex, link.class);
    let deaths = Weights {
        base: w.base.of_sex(sex),
        up: w.mortality_up.of_sex(sex),
        down: w.mortality_down.of_sex(sex),
    };
    put_three(rows, r, SURVIVAL, mortality, deaths);
    let lapse = book::field_of(book, i, book::LAPSE_OFFSET);
    let lapses = Weights {
        base: w.base.lapse,
        up: w.lapse_up.lapse,
        down: w.lapse_down.lapse,
    };
    put_three(rows, r, PERSISTENCY, lapse, lapses);
    put(
        rows,
        COLUMNS * r + PREMIUM,
        book::field_of(book, i, book::PREMIUM_OFFSET),
    );
    put(
        rows,
        COLUMNS * r + CLAIMS,
        book::field_of(book, i, book::CLAIMS_OFFSET),
    );
}
