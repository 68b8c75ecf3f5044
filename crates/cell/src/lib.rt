// A cell of a chain whose rows are read: its state by value, from year to year of a setting, and
// what it adds to a year.
// Internal: the functions ask for rows as `chain_rows` reads them from an accepted book.
#![tactic(auto)]

ghost use Rattle.std.specs.Prelude.{◌≡◌, ◌+◌, ◌*◌, ◌<◌, ◌≤◌};
ghost use Rattle.settings_columns.specs.Columns.{survives_in, persists_in};
ghost use Rattle.rate_table.specs.Rows.{row_count, a_row};
ghost use Rattle.cell.specs.States.{Ready, ShareAt, share_of, next_by, premium_in, claims_in};

use rate_table::{CLAIMS, COLUMNS, PREMIUM, RATES, RateTable};
use settings::ByPeriod;
use settings_columns::Columns;

// What 100,000 contracts have in force, in billionths: no cell has more.
const MOST_IN_FORCE: u64 = 100_000_000_000_000;

// The share of x at a place of the rows, whose rate is eight further, rounded down. The upper half
// of a product is the share, or, where it may be one too few, corrected by the rate.
fn part(x: u64, rows: &RateTable, at: usize) -> u64
    requires { (x ≤ 100000000000000)
        × (at + 8 < a_row * row_count)
        × ShareAt rows.now at }
    ensures { result ≡ share_of rows.now at x }
{
    let half = arith::mul_high(x, rows[at]);
    if arith::may_be_low(x, rows[at], MOST_IN_FORCE) {
        return arith::corrected(x, rows[at + RATES], 1_000_000_000, half);
    }
    half
}

// A cell in one year: the row of its chain that holds for it, and what is in force, in billionths
// of a contract.
#[derive(Clone, Copy)]
pub struct Cell {
    pub row: usize,
    pub inforce: u64,
}

impl Cell {
    // The state at k = 0 of a cell with so many contracts.
    pub fn new(row: usize, count: u64) -> Cell
        requires { count ≤ 100000 }
        ensures { result ≡ record { row = row; inforce = count * 1000000000 } }
    {
        Cell {
            row,
            inforce: count * 1_000_000_000,
        }
    }

    // The state a year later: of what is in force, what lives on by one column, and of that what
    // stays by another.
    pub fn next_by(self, rows: &RateTable, survives: usize, persists: usize) -> Cell
        requires { Ready rows.now self
            × (survives ≤ 5)
            × (persists ≤ 5) }
        ensures { result ≡ next_by rows.now survives persists self }
    {
        let alive = part(self.inforce, rows, COLUMNS * self.row + survives);
        Cell {
            row: self.row + 1,
            inforce: part(alive, rows, COLUMNS * self.row + persists),
        }
    }

    // The state a year after year k of the setting that has these columns.
    pub fn next_year(self, rows: &RateTable, columns: ByPeriod<Columns>, k: usize) -> Cell
        requires { Ready rows.now self
            × (survives_in columns k ≤ 5)
            × (persists_in columns k ≤ 5) }
        ensures { result ≡ next_by rows.now (survives_in columns k)
            (persists_in columns k) self }
    {
        let held = columns.at(k);
        self.next_by(rows, held.survival, held.persistency)
    }

    // The premium of the state's year.
    pub fn premium(self, rows: &RateTable) -> u64
        requires { Ready rows.now self }
        ensures { result ≡ premium_in rows.now self }
    {
        part(self.inforce, rows, COLUMNS * self.row + PREMIUM)
    }

    // Its claims.
    pub fn claims(self, rows: &RateTable) -> u64
        requires { Ready rows.now self }
        ensures { result ≡ claims_in rows.now self }
    {
        part(self.inforce, rows, COLUMNS * self.row + CLAIMS)
    }
}
