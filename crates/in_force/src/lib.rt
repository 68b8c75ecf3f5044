// One cell on the screen: what is in force of the linked record of a subgroup code, sex and class,
// year by year.
#![tactic(auto)]

ghost use Rattle.in_force.specs.InForceRun.{InForceContract};

use in_force_request::{chain_of, check_asked, record_of};
use verdict::{Refusal, Verdict};

// Refusal and place. Where accepted, the first fifty of the caller's numbers become what is in
// force, in billionths of a contract; else nothing is written.
pub fn in_force(
    book: &[u8],
    setting: usize,
    code: usize,
    sex: usize,
    class: usize,
    out: &mut [u64],
) -> Verdict
    ensures { InForceContract book.now setting code sex class out.old
        out.new result }
{
    check_asked(setting, code, sex, out.len())?;
    book_check::check(book)?;
    let chain = chain_of(code, sex);
    let i = record_of(book, chain, class).ok_or(Refusal {
        number: 26,
        place: 0,
    })?;
    in_force_run::run(book, setting, chain, i, out);
    Ok(0)
}
