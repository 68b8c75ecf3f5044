// A cell in one projection through the fifty years, which ends at its own first year with nothing
// in force and returns how many years it computed (W-203).
// Internal: the functions ask for rows as `chain_rows` reads them from an accepted book.
#![tactic(auto)]

ghost use Rattle.std.specs.Prelude.{◌≡◌, ◌+◌, ◌*◌, ◌<◌, ◌≤◌, ◌^◌, get_or, set};
ghost use Rattle.lists.specs.AtMost.{AtMost};
ghost use Rattle.settings_columns.specs.Columns.{columns_of};
ghost use Rattle.cell.specs.States.{premium_in, claims_in, next_year, Ready, Projectable};
ghost use Rattle.cell_projection.specs.Tables.{year_count, table_numbers, two_more};
ghost use Rattle.cell_projection.specs.Projected.{ReachedIn, StoppedIn, ProjectedIn};

use cell::Cell;
use rate_table::RateTable;
use settings::ByPeriod;
use settings_columns::Columns;

// For each of the fifty years premium and claims of the five projections.
pub const YEARS: usize = 50;

pub const A_YEAR: usize = 10;

// In these the weights of the first years hold, and in all later ones the others.
pub const FIRST_YEARS: usize = 5;

pub type YearSums = [u64; YEARS * A_YEAR];

// What a projection starts from: a model point, in document 01 a cell. The row of its chain that
// holds in year 0, and the number of its contracts.
#[derive(Clone, Copy)]
pub struct ModelPoint {
    pub row: usize,
    pub count: u64,
}

// A year of a projection, and the state in it.
#[derive(Clone, Copy)]
pub struct CellInYear {
    pub k: usize,
    pub cell: Cell,
}

// Years of a projection: from one to before another, and the state in the first.
#[derive(Clone, Copy)]
struct Stretch {
    from: usize,
    to: usize,
    cell: Cell,
}

// Adds x to number j of the table.
pub fn add_at(sums: &mut YearSums, j: usize, x: u64)
    requires { (j < table_numbers)
        × (get_or sums.old j 0 + x < 2 ^ 64) }
    ensures { sums.new ≡ set sums.old j (get_or sums.old j 0 + x) }
{
    sums[j] = sums[j] + x;
}

// Adds premium and claims of a cell in year k of a projection, and returns its state a year
// later. It is inlined: as a call, with columns that are no constants there, Totals takes over
// twice the time.
#[inline(always)]
pub fn one_year(
    rows: &RateTable,
    cell: Cell,
    columns: ByPeriod<Columns>,
    setting: usize,
    k: usize,
    sums: &mut YearSums,
) -> Cell
    requires { Ready rows.now cell
        × (setting < 5)
        × (k < year_count)
        × AtMost 4000000000000000 table_numbers sums.old
        × (columns ≡ columns_of setting) }
    ensures { (result ≡ next_year rows.now setting k cell)
        × (sums.new ≡ two_more sums.old (10 * k + 2 * setting)
        (premium_in rows.now cell) (claims_in rows.now cell)) }
{
    let j = A_YEAR * k + 2 * setting;
    add_at(sums, j, cell.premium(rows));
    add_at(sums, j + 1, cell.claims(rows));
    cell.next_year(rows, columns, k)
}

// The years of a stretch of one projection of a model point, until nothing is in force. Returns
// where it stops.
fn project_stretch(
    rows: &RateTable,
    point: ModelPoint,
    columns: ByPeriod<Columns>,
    setting: usize,
    stretch: Stretch,
    sums: &mut YearSums,
) -> CellInYear
    requires { Projectable rows.now point.row point.count
        × (setting < 5)
        × (stretch.from ≤ stretch.to)
        × (stretch.to ≤ year_count)
        × ReachedIn rows.now point.row point.count setting stretch.from stretch.cell
        × AtMost 3000000000000000 table_numbers sums.old
        × (columns ≡ columns_of setting) }
    ensures { StoppedIn rows.now point.row point.count setting
        stretch.from stretch.to result.k result.cell sums.old sums.new }
{
    let to = stretch.to;
    let mut cell = stretch.cell;
    let mut k = stretch.from;
    // It may end before `to`: a `for` with a `break` would be no plainer.
    while k < to && 0 < cell.inforce {
        cell = one_year(rows, cell, columns, setting, k, sums);
        k += 1;
    }
    CellInYear { k, cell }
}

// The years of one projection of a model point, from the start on until nothing is in force.
// Returns how many years the projection has in all.
pub fn alone(
    rows: &RateTable,
    point: ModelPoint,
    columns: ByPeriod<Columns>,
    setting: usize,
    start: CellInYear,
    sums: &mut YearSums,
) -> usize
    requires { Projectable rows.now point.row point.count
        × (setting < 5)
        × (start.k ≤ year_count)
        × ReachedIn rows.now point.row point.count setting start.k start.cell
        × AtMost 3000000000000000 table_numbers sums.old
        × (columns ≡ columns_of setting) }
    ensures { ProjectedIn rows.now point.row point.count setting start.k result
        sums.old sums.new }
{
    let cell = start.cell;
    let stretch = Stretch {
        from: start.k,
        to: YEARS,
        cell,
    };
    project_stretch(rows, point, columns, setting, stretch, sums).k
}

// A model point in one projection. The first years have a loop of their own: in the later ones one
// set of weights holds.
pub fn project_in(
    rows: &RateTable,
    point: ModelPoint,
    columns: ByPeriod<Columns>,
    setting: usize,
    sums: &mut YearSums,
) -> usize
    requires { Projectable rows.now point.row point.count
        × (setting < 5)
        × AtMost 2000000000000000 table_numbers sums.old
        × (columns ≡ columns_of setting) }
    ensures { ProjectedIn rows.now point.row point.count setting 0 result
        sums.old sums.new }
{
    let cell = Cell::new(point.row, point.count);
    let first = Stretch {
        from: 0,
        to: FIRST_YEARS,
        cell,
    };
    let stop = project_stretch(rows, point, columns, setting, first, sums);
    if stop.k < FIRST_YEARS {
        return stop.k;
    }
    let cell = stop.cell;
    let later = CellInYear {
        k: FIRST_YEARS,
        cell,
    };
    alone(rows, point, columns, setting, later, sums)
}
