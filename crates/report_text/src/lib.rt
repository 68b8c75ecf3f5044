// The text of the year report, from the year tables of the five product groups.
#![tactic(auto)]

ghost use Rattle.buffer.specs.Text.{Wrote};
ghost use Rattle.report_text.specs.Tables.{Placed, report_from};

use report_lines::ShownYear;

// Premium after cap and outgo of each of a product group's fifty years.
#[derive(Clone, Copy)]
pub struct YearTable {
    pub years: [ShownYear; 50],
}

impl YearTable {
    pub const EMPTY: YearTable = YearTable {
        years: [ShownYear {
            premium: 0,
            outgo: 0,
        }; 50],
    };
}

pub fn placed(premium: &[u64; 50], outgo: &[u64; 50]) -> YearTable
    ensures { Placed premium.now outgo.now 50 result.years }
{
    let mut years = YearTable::EMPTY.years;
    for (k, year) in years.iter_mut().enumerate() {
        *year = ShownYear {
            premium: premium[k],
            outgo: outgo[k],
        };
    }
    YearTable { years }
}

// The five product groups' tables, and how many bytes their report has: 25 of heading, and the
// lines.
#[derive(Clone, Copy)]
pub struct Measured {
    pub tables: [YearTable; 5],
    pub bytes: usize,
}

// The heading, and the lines of the five product groups.
pub fn put_report(years: Measured, out: &mut [u8]) -> usize
    ensures { Wrote out.old 0 (report_from years.tables) out.new result }
{
    let mut at = buffer::put_bytes(out, 0, b"group,year,premium,outgo\n");
    for (j, table) in years.tables.iter().enumerate() {
        at = report_lines::put_lines(out, at, j as u64 + 1, table.years);
    }
    at
}
