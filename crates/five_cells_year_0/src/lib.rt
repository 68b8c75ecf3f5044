// Year 0 of a cell in the five projections that serve all settings: it has a rule of its own.
// Internal: it asks for rows as `chain_rows` reads them from an accepted book.
#![tactic(auto)]

ghost use Rattle.std.specs.Prelude.{◌≡◌, ◌+◌, ◌<◌, ◌≤◌};
ghost use Rattle.lists.specs.AtMost.{AtMost};
ghost use Rattle.cell.specs.States.{Projectable};
ghost use Rattle.cell_projection.specs.Tables.{table_numbers, two_more};
ghost use Rattle.five_cells.specs.Five.{start_of, next_five, ten_more, five_times_more};

use cell::Cell;
use cell_projection::{ModelPoint, YearSums, add_at};
use rate_table::{CLAIMS, COLUMNS, PREMIUM, RATES, RateTable};
use settings::Five;

// Adds x to number j of the table, and y to the next.
fn add_two(sums: &mut YearSums, j: usize, x: u64, y: u64)
    requires { (j + 1 < table_numbers)
        × (x ≤ 1000000000000)
        × (y ≤ 1000000000000)
        × AtMost 4000000000000000 table_numbers sums.old }
    ensures { sums.new ≡ two_more sums.old j x y }
{
    add_at(sums, j, x);
    add_at(sums, j + 1, y);
}

// Adds premium and claims to year 0 of each of the five.
fn add_year_0(sums: &mut YearSums, premium: u64, claims: u64)
    requires { (premium ≤ 1000000000000)
        × (claims ≤ 1000000000000)
        × AtMost 2000000000000000 table_numbers sums.old }
    ensures { sums.new ≡ five_times_more sums.old premium claims }
{
    add_two(sums, 0, premium, claims);
    add_two(sums, 2, premium, claims);
    add_two(sums, 4, premium, claims);
    add_two(sums, 6, premium, claims);
    add_two(sums, 8, premium, claims);
}

// Year 0 of all five. A whole number of contracts is in force, so premium and claims are so many
// times those of one: no share of them is taken.
pub fn year_0(rows: &RateTable, point: ModelPoint, sums: &mut YearSums) -> Five<Cell>
    requires { Projectable rows.now point.row point.count
        × AtMost 2000000000000000 table_numbers sums.old }
    ensures { (result ≡ next_five rows.now 0 (start_of point.row point.count))
        × (sums.new ≡ ten_more rows.now 0 (start_of point.row point.count)
        sums.old) }
{
    let premium = point.count * rows[COLUMNS * point.row + PREMIUM + RATES];
    let claims = point.count * rows[COLUMNS * point.row + CLAIMS + RATES];
    add_year_0(sums, premium, claims);
    let columns = settings_columns::five_columns();
    let cell = Cell::new(point.row, point.count);
    let base = cell.next_year(rows, columns.base, 0);
    let mortality_up = cell.next_year(rows, columns.mortality_up, 0);
    let mortality_down = cell.next_year(rows, columns.mortality_down, 0);
    let lapse_up = cell.next_year(rows, columns.lapse_up, 0);
    let lapse_down = cell.next_year(rows, columns.lapse_down, 0);
    Five {
        base,
        mortality_up,
        mortality_down,
        lapse_up,
        lapse_down,
    }
}
