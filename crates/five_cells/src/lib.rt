// A cell in the five projections that serve all settings, those of settings 0 to 4: its five
// states, and one year of all five.
// Internal: it asks for rows as `chain_rows` reads them from an accepted book.
#![tactic(auto)]

ghost use Rattle.std.specs.Prelude.{◌≡◌, ◌<◌};
ghost use Rattle.lists.specs.AtMost.{AtMost};
ghost use Rattle.settings_columns.specs.Columns.{five_columns};
ghost use Rattle.cell_projection.specs.Tables.{year_count, table_numbers};
ghost use Rattle.five_cells.specs.Five.{FiveReady, next_five, ten_more};

use cell::Cell;
use cell_projection::{YearSums, one_year};
use rate_table::RateTable;
use settings::{ByPeriod, Five};
use settings_columns::Columns;

// One year of all five. None waits for another. Inlined as `one_year`, for which the columns are
// constants then.
#[inline(always)]
pub fn year(
    rows: &RateTable,
    cells: Five<Cell>,
    columns: Five<ByPeriod<Columns>>,
    k: usize,
    sums: &mut YearSums,
) -> Five<Cell>
    requires { FiveReady rows.now cells
        × (k < year_count)
        × AtMost 3000000000000000 table_numbers sums.old
        × (columns ≡ five_columns) }
    ensures { (result ≡ next_five rows.now k cells)
        × (sums.new ≡ ten_more rows.now k cells sums.old) }
{
    let base = one_year(rows, cells.base, columns.base, 0, k, sums);
    let mortality_up = one_year(rows, cells.mortality_up, columns.mortality_up, 1, k, sums);
    let mortality_down = one_year(
        rows,
        cells.mortality_down,
        columns.mortality_down,
        2,
        k,
        sums,
    );
    let lapse_up = one_year(rows, cells.lapse_up, columns.lapse_up, 3, k, sums);
    let lapse_down = one_year(rows, cells.lapse_down, columns.lapse_down, 4, k, sums);
    Five {
        base,
        mortality_up,
        mortality_down,
        lapse_up,
        lapse_down,
    }
}
