// The year sums of a product group: the projections of the cells of its chains, added up, in the
// five projections that serve all settings.
// Internal: the functions ask for an accepted book's rules, which the calls above have from the
// check.
#![tactic(auto)]

ghost use Rattle.std.specs.Prelude.{IfSome, ◌≡◌, ◌+◌, ◌*◌, ◌<◌, ◌≤◌, replicate};
ghost use Rattle.lists.specs.AtMost.{AtMost};
ghost use Rattle.book.specs.Cells.{first_chain, chains_of};
ghost use Rattle.book.specs.Reading.{Standing, ValidBook};
ghost use Rattle.settings_decrements.specs.Decrements.{ShiftsOf};
ghost use Rattle.settings_columns.specs.Columns.{columns_of};
ghost use Rattle.rate_table.specs.Rows.{RowsOf};
ghost use Rattle.cell_projection.specs.Tables.{table_numbers};
ghost use Rattle.group_projection.specs.Added.{CellsAdded, ChainAdded, SumsOf};

use cell_projection::{ModelPoint, YearSums};
use rate_table::RateTable;
use settings::ByPeriod;
use settings_columns::Columns;
use settings_decrements::Shifts;

// The first chain of a product group.
fn first_chain(group: usize) -> usize
    requires { (1 ≤ group)
        × (group ≤ 5) }
    ensures { (result ≡ first_chain group)
        × (result + chains_of group ≡ 4 + 2 * group)
        × (4 + 2 * group ≤ result + 6) }
{
    if group == 1 { 0 } else { 2 * group + 2 }
}

// The columns of a projection. Where none is named, all five are asked for: then, and for the base,
// the compiler works these out.
fn columns_in(which: Option<usize>) -> ByPeriod<Columns>
    requires { IfSome which (λ s. s < 5) }
    ensures { IfSome which (λ s. result ≡ columns_of s) }
{
    match which {
        None | Some(0) => settings_columns::columns_of(0),
        Some(projection) => settings_columns::columns_of(projection),
    }
}

// Adds the cells of a chain, whose rows are read from its head on, to the table, and returns how
// many of them hold contracts.
fn add_cells(
    book: &[u8],
    chain: usize,
    head: usize,
    which: Option<usize>,
    rows: &RateTable,
    sums: &mut YearSums,
) -> u64
    requires { ValidBook 1 book.now
        × Standing book.now 120 chain head
        × RowsOf book.now chain head rows.now
        × IfSome which (λ s. s < 5)
        × AtMost 1000000000000000 table_numbers sums.old }
    ensures { CellsAdded book.now which head result sums.old
        sums.new }
{
    let one = columns_in(which);
    // It follows links to the last class: an iterator of them would be no plainer.
    let mut i = head;
    let mut row = 0usize;
    let mut above = book::LAST_CLASS - book::class_of(book, head);
    let mut n: u64 = 0;
    loop {
        let count = book::field_of(book, i, book::COUNT_OFFSET);
        five_projections::project_by(rows, ModelPoint { row, count }, one, which, sums);
        n += book::holds(book, i);
        if above == 0 {
            return n;
        }
        i = book::next_of(book, i);
        row += 1;
        above -= 1;
    }
}

// Adds the cells of chain k to the table, and returns how many of them hold contracts. The rows
// are working space.
fn add_chain(
    book: &[u8],
    w: Shifts,
    k: usize,
    which: Option<usize>,
    rows: &mut RateTable,
    sums: &mut YearSums,
) -> u64
    requires { ShiftsOf book.now w
        × ValidBook 1 book.now
        × (k < 14)
        × IfSome which (λ s. s < 5)
        × AtMost 1000000000000000 table_numbers sums.old }
    ensures { ChainAdded book.now which k result sums.old sums.new }
{
    let head = book::head_of(book, k);
    if head == 0 {
        return 0;
    }
    chain_rows::read_rows(book, w, k, head, rows);
    add_cells(book, k, head, which, rows, sums)
}

// The year sums of a product group, over both sexes and, for PG1, its three subgroups: k = 0 to 49,
// before weights, costs and the cap. They are added to a table of zeros: for each year ten numbers,
// for each of the settings 0 to 4 premium and claims; those of one of them, or, where none
// is named, of all. Returns the group's n. The rows are working space.
pub fn group_sums(
    book: &[u8],
    w: Shifts,
    group: usize,
    which: Option<usize>,
    rows: &mut RateTable,
    numbers: &mut YearSums,
) -> u64
    requires { ShiftsOf book.now w
        × ValidBook 1 book.now
        × (1 ≤ group)
        × (group ≤ 5)
        × IfSome which (λ s. s < 5)
        × (numbers.old ≡ replicate table_numbers 0) }
    ensures { SumsOf book.now which group result numbers.new }
{
    let mut n: u64 = 0;
    let from = first_chain(group);
    let to = 4 + 2 * group;
    for k in from..to {
        n += add_chain(book, w, k, which, rows, numbers);
    }
    n
}
