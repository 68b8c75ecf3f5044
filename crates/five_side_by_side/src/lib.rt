// A cell in the five projections that serve all settings, side by side while all have something in
// force.
// Internal: it asks for rows as `chain_rows` reads them from an accepted book.
#![tactic(auto)]

ghost use Rattle.std.specs.Prelude.{true, ◌≡◌, ◌≤◌};
ghost use Rattle.lists.specs.AtMost.{AtMost};
ghost use Rattle.cell.specs.States.{Projectable};
ghost use Rattle.cell_projection.specs.Tables.{year_count, table_numbers};
ghost use Rattle.five_cells.specs.Five.{LeastInForce};
ghost use Rattle.five_side_by_side.specs.SideBySide.{Reached, ProjectedTo};

use cell::Cell;
use cell_projection::{FIRST_YEARS, ModelPoint, YEARS, YearSums};
use five_cells::year;
use five_cells_year_0::year_0;
use rate_table::RateTable;
use settings::Five;

// Whether something is in force in the two that leave the least, with more deaths and with more
// lapses: then it is in all.
fn all(cells: Five<Cell>) -> bool
    ensures { result ≡ true → LeastInForce cells }
{
    0 < cells.mortality_up.inforce && 0 < cells.lapse_up.inforce
}

// Where the years of all five stop: a year, and the states in it.
#[derive(Clone, Copy)]
pub struct Stop {
    pub k: usize,
    pub cells: Five<Cell>,
}

// The years of all five side by side, from one to before another, while all have something in
// force. The columns are constants, made before the loop at no cost. Inlined as `one_year`: of the
// first years and of the later ones one loop each is made.
#[inline(always)]
fn together(
    rows: &RateTable,
    point: ModelPoint,
    start: Five<Cell>,
    from: usize,
    to: usize,
    sums: &mut YearSums,
) -> Stop
    requires { Projectable rows.now point.row point.count
        × (from ≤ to)
        × (to ≤ year_count)
        × Reached rows.now point.row point.count from start
        × AtMost 2500000000000000 table_numbers sums.old }
    ensures { ProjectedTo rows.now point.row point.count from to result
        sums.old sums.new }
{
    let columns = settings_columns::five_columns();
    let mut cells = start;
    let mut k = from;
    // It may end before `to`: a `for` with a `break` would be no plainer.
    while k < to && all(cells) {
        cells = year(rows, cells, columns, k, sums);
        k += 1;
    }
    Stop { k, cells }
}

// The same from year 0 on, which has a rule of its own. The first five years have a loop of their
// own: in the later ones one set of weights holds.
pub fn side_by_side(rows: &RateTable, point: ModelPoint, sums: &mut YearSums) -> Stop
    requires { Projectable rows.now point.row point.count
        × AtMost 2000000000000000 table_numbers sums.old }
    ensures { ProjectedTo rows.now point.row point.count 0 year_count result
        sums.old sums.new }
{
    let cell = Cell::new(point.row, point.count);
    let start = Five {
        base: cell,
        mortality_up: cell,
        mortality_down: cell,
        lapse_up: cell,
        lapse_down: cell,
    };
    if point.count == 0 {
        return Stop { k: 0, cells: start };
    }
    let next = year_0(rows, point, sums);
    let mut stop = together(rows, point, next, 1, FIRST_YEARS, sums);
    if stop.k == FIRST_YEARS {
        stop = together(rows, point, stop.cells, FIRST_YEARS, YEARS, sums);
    }
    stop
}
