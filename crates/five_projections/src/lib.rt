// A cell in the five projections that serve all settings, those of settings 0 to 4: side by side
// while all have something in force, then each alone to its own end.
// Internal: the functions ask for rows as `chain_rows` reads them from an accepted book.
#![tactic(auto)]

ghost use Rattle.std.specs.Prelude.{IfSome, ◌≡◌, ◌<◌, ◌≤◌};
ghost use Rattle.lists.specs.AtMost.{AtMost};
ghost use Rattle.settings_columns.specs.Columns.{columns_of};
ghost use Rattle.cell.specs.States.{cell_in, Projectable};
ghost use Rattle.cell_projection.specs.Tables.{table_numbers, amount_by, added, chosen};
ghost use Rattle.five_projections.specs.Projected.{Projected};

use cell_projection::{CellInYear, ModelPoint, YearSums, alone, project_in};
use five_side_by_side::side_by_side;
use rate_table::RateTable;
use settings::{ByPeriod, Five};
use settings_columns::Columns;

// The projection of a model point: all five side by side, and then each alone.
// Returns how many years each has something in force.
pub fn project(rows: &RateTable, point: ModelPoint, sums: &mut YearSums) -> Five<usize>
    requires { Projectable rows.now point.row point.count
        × AtMost 2000000000000000 table_numbers sums.old }
    ensures { Projected rows.now point.row point.count result sums.old
        sums.new }
{
    let columns = settings_columns::five_columns();
    let stop = side_by_side(rows, point, sums);
    let k = stop.k;
    let cells = stop.cells;
    let cell = cells.base;
    let base = alone(rows, point, columns.base, 0, CellInYear { k, cell }, sums);
    let cell = cells.mortality_up;
    let mortality_up = alone(
        rows,
        point,
        columns.mortality_up,
        1,
        CellInYear { k, cell },
        sums,
    );
    let cell = cells.mortality_down;
    let mortality_down = alone(
        rows,
        point,
        columns.mortality_down,
        2,
        CellInYear { k, cell },
        sums,
    );
    let cell = cells.lapse_up;
    let lapse_up = alone(
        rows,
        point,
        columns.lapse_up,
        3,
        CellInYear { k, cell },
        sums,
    );
    let cell = cells.lapse_down;
    let lapse_down = alone(
        rows,
        point,
        columns.lapse_down,
        4,
        CellInYear { k, cell },
        sums,
    );
    Five {
        base,
        mortality_up,
        mortality_down,
        lapse_up,
        lapse_down,
    }
}

// A model point in one projection, which has these columns, or, where none is named, in all five.
pub fn project_by(
    rows: &RateTable,
    point: ModelPoint,
    one: ByPeriod<Columns>,
    which: Option<usize>,
    sums: &mut YearSums,
)
    requires { Projectable rows.now point.row point.count
        × IfSome which (λ s. s < 5)
        × AtMost 2000000000000000 table_numbers sums.old
        × IfSome which (λ s. one ≡ columns_of s) }
    ensures { sums.new ≡ added
        (chosen which (amount_by (cell_in rows.now point.row point.count)))
        table_numbers
        sums.old }
{
    let Some(projection) = which else {
        project(rows, point, sums);
        return;
    };
    project_in(rows, point, one, projection, sums);
}
