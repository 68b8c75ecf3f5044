// The calls under their C names; include/xaropinto.h declares them. Each forwards to the call of a
// crate below and puts the reply into fields. A slice is a pointer and a length in C. No call
// relies on an earlier one, and a refusal changes no buffer that was passed; of two funds, nothing
// of the refused one's half.
#![tactic(auto)]

ghost use Rattle.std.specs.Prelude.{◌≡◌};
ghost use Rattle.record_view.specs.RecordView.{located_in};
ghost use Rattle.valuation.specs.Totals.{TotalsContract};
ghost use Rattle.cost_rates.specs.Replies.{RatesContract};
ghost use Rattle.standard_deviation.specs.Deviation.{DeviationContract};
ghost use Rattle.book_contents.specs.Contents.{given};
ghost use Rattle.book_contents.specs.CallContracts.{ReadContract};
ghost use Rattle.c_api.specs.Exported.{CheckExported, GroupExported, ConvertExported};
ghost use Rattle.c_api.specs.Exported.{FundsExported};
ghost use Rattle.c_api.specs.Exported.{ListingExported, ReportExported, ReportLengthExported};
ghost use Rattle.c_api.specs.Exported.{WriteExported, PracticeExported, InForceExported};
ghost use Rattle.c_api.specs.Exported.{SpreadExported};
ghost use Rattle.c_api.specs.Version.{version_number};

use book_contents::{ReadReply, Values};
use c_api_fields::{
    FundsFields, GroupFields, InForceFields, ReportFields, SpreadFields, VerdictFields, WriteFields,
};
use claims_estimates::{SampleFactors, Summary};
use cost_rate_shares::Accounts;
use cost_rates::CostRates;
use record_view::Located;
use risk_factors::DeviationReply;
use risk_model::RiskModel;
use valuation::TotalsReply;

// Of this library, as the file VERSION has it.
#[unsafe(no_mangle)]
pub extern "C" fn xaropinto_version() -> u64
    ensures { result ≡ version_number 2 2 0 }
{
    20_200
}

#[unsafe(no_mangle)]
pub extern "C" fn xaropinto_check(book: &[u8]) -> VerdictFields
    ensures { CheckExported book.now result }
{
    VerdictFields::from(book_check::check(book))
}

#[unsafe(no_mangle)]
pub extern "C" fn xaropinto_group(
    book: &[u8],
    setting: usize,
    group: usize,
    table: &mut [u64],
) -> GroupFields
    ensures { GroupExported book.now setting group table.old
        table.new result }
{
    GroupFields::from(group_liability::group(book, setting, group, table))
}

#[unsafe(no_mangle)]
pub extern "C" fn xaropinto_totals(book: &[u8]) -> TotalsReply
    ensures { TotalsContract book.now result }
{
    totals::totals(book)
}

#[unsafe(no_mangle)]
pub extern "C" fn xaropinto_record(book: &[u8], number: usize) -> Located
    ensures { result ≡ located_in book.now number }
{
    record_view::locate(book, number)
}

#[unsafe(no_mangle)]
pub extern "C" fn xaropinto_cost_rates(accounts: Accounts) -> CostRates
    ensures { RatesContract accounts result }
{
    cost_rates::cost_rates(accounts)
}

#[unsafe(no_mangle)]
pub extern "C" fn xaropinto_listing(book: &[u8], out: &mut [u8]) -> ReportFields
    ensures { ListingExported book.now out.old out.new result }
{
    ReportFields::from(listing::write_listing(book, out))
}

#[unsafe(no_mangle)]
pub extern "C" fn xaropinto_report(book: &[u8], setting: usize, out: &mut [u8]) -> ReportFields
    ensures { ReportExported book.now setting out.old out.new
        result }
{
    ReportFields::from(year_report::write_report(book, setting, out))
}

#[unsafe(no_mangle)]
pub extern "C" fn xaropinto_report_room(book: &[u8], setting: usize) -> ReportFields
    ensures { ReportLengthExported book.now setting result }
{
    ReportFields::from(year_report::report_length(book, setting))
}

#[unsafe(no_mangle)]
pub extern "C" fn xaropinto_convert(book: &[u8], out: &mut [u8]) -> VerdictFields
    ensures { ConvertExported book.now out.old out.new result }
{
    VerdictFields::from(age_basis::convert(book, out))
}

// The values by value: a C programmer fills one struct, and passes what Read returns as it is.
#[unsafe(no_mangle)]
pub extern "C" fn xaropinto_write(
    values: Values,
    counts: &[u64],
    lapses: &[u64],
    premiums: &[u64],
    claims: &[u64],
    out: &mut [u8],
) -> WriteFields
    ensures { WriteExported
        (given values counts.now lapses.now premiums.now
        claims.now) out.old out.new result }
{
    WriteFields::from(book_write::write(values, counts, lapses, premiums, claims, out))
}

#[unsafe(no_mangle)]
pub extern "C" fn xaropinto_read(
    book: &[u8],
    counts: &mut [u64],
    lapses: &mut [u64],
    premiums: &mut [u64],
    claims: &mut [u64],
) -> ReadReply
    ensures { ReadContract book.now counts.old lapses.old
        premiums.old claims.old counts.new lapses.new
        premiums.new claims.new result }
{
    book_read::read(book, counts, lapses, premiums, claims)
}

#[unsafe(no_mangle)]
pub extern "C" fn xaropinto_funds(
    table: &[u8],
    first: &[u8],
    second: &[u8],
    numbers: &mut [i64],
) -> FundsFields
    ensures { FundsExported table.now first.now second.now
        numbers.old numbers.new result }
{
    FundsFields::from(funds::funds(table, first, second, numbers))
}

#[unsafe(no_mangle)]
pub extern "C" fn xaropinto_in_force(
    book: &[u8],
    setting: usize,
    code: usize,
    sex: usize,
    class: usize,
    out: &mut [u64],
) -> InForceFields
    ensures { InForceExported book.now setting code sex class out.old
        out.new result }
{
    InForceFields::from(in_force::in_force(book, setting, code, sex, class, out))
}

#[unsafe(no_mangle)]
pub extern "C" fn xaropinto_spread(claims: Summary, xi: f64, eta: f64) -> SpreadFields
    ensures { SpreadExported claims xi eta result }
{
    let factors = SampleFactors { xi, eta };
    SpreadFields::from(claims_variation::spread(claims, factors))
}

// The model by value, as the accounts: a matrix passed by pointer would have a length of its own to
// refuse.
#[unsafe(no_mangle)]
pub extern "C" fn xaropinto_deviation(book: &[u8], model: RiskModel) -> DeviationReply
    ensures { DeviationContract book.now model result }
{
    standard_deviation::deviation(book, model)
}

#[unsafe(no_mangle)]
pub extern "C" fn xaropinto_practice(start: u64, out: &mut [u8]) -> WriteFields
    ensures { PracticeExported start out.old out.new result }
{
    WriteFields::from(practice_book::practice(start, out))
}
