// The weights of mortality and lapse of a book: structs by value, read outside the loops.
// Internal: what reads the book's mortality percentages asks for an accepted book's rules, which
// the calls above have from the check.
#![tactic(auto)]

ghost use Rattle.std.specs.Prelude.{◌≡◌, ◌<◌, ◌≤◌};
ghost use Rattle.book.specs.Reading.{ValidBook};
ghost use Rattle.settings.specs.Settings.{number_of};
ghost use Rattle.settings_decrements.specs.Decrements.{percent_of, mortality_weight};
ghost use Rattle.settings_decrements.specs.Decrements.{decrements_at, of_sex, ShiftsOf};

use settings::{Five, Kind};

// The mortality percentage of a sex: 0 men, 1 women. Edition 2 of the book carries its own.
fn percent_of(book: &[u8], sex: usize) -> u64
    requires { (sex ≤ 1)
        × ValidBook 1 book.now }
    ensures { (result ≡ percent_of book.now sex)
        × (result ≤ 100) }
{
    if book::edition(book) == 2 {
        return book::percent_at(book, sex) as u64;
    }
    if sex == 0 { 87 } else { 86 }
}

// The kind of weight of the mortality of a sex. A sex has its number in the book's lists.
fn mortality_kind(sex: usize) -> Kind
    ensures { sex ≤ 1 → number_of result ≡ sex }
{
    if sex == 0 { Kind::Men } else { Kind::Women }
}

// The weight of the mortality of a sex: 0 men, 1 women.
fn mortality_weight(book: &[u8], setting: usize, sex: usize, k: usize) -> u64
    requires { (setting < 8)
        × (sex ≤ 1)
        × ValidBook 1 book.now }
    ensures { (result ≡ mortality_weight book.now setting sex k)
        × (result ≤ 1300) }
{
    percent_of(book, sex) * settings::weight(setting, mortality_kind(sex), k)
}

// The weights of mortality and lapse in one year.
#[derive(Clone, Copy)]
pub struct DecrementWeights {
    pub men: u64,
    pub women: u64,
    pub lapse: u64,
}

impl DecrementWeights {
    fn new(book: &[u8], setting: usize, k: usize) -> DecrementWeights
        requires { (setting < 8)
            × ValidBook 1 book.now }
        ensures { (result ≡ decrements_at book.now setting k)
            × (result.men ≤ 1300)
            × (result.women ≤ 1300)
            × (result.lapse ≤ 1300) }
    {
        DecrementWeights {
            men: mortality_weight(book, setting, 0, k),
            women: mortality_weight(book, setting, 1, k),
            lapse: settings::weight(setting, Kind::Lapse, k),
        }
    }

    // The mortality of a sex: 0 men, else women.
    pub fn of_sex(self, sex: usize) -> u64
        ensures { result ≡ of_sex sex self }
    {
        if sex == 0 { self.men } else { self.women }
    }
}

// The weights of mortality and lapse in year 0, of the base and of the four settings that shift
// them: no other weights hold in any year of any setting.
pub type Shifts = Five<DecrementWeights>;

pub fn shifts_of(book: &[u8]) -> Shifts
    requires { ValidBook 1 book.now }
    ensures { ShiftsOf book.now result }
{
    Five {
        base: DecrementWeights::new(book, 0, 0),
        mortality_up: DecrementWeights::new(book, 1, 0),
        mortality_down: DecrementWeights::new(book, 2, 0),
        lapse_up: DecrementWeights::new(book, 3, 0),
        lapse_down: DecrementWeights::new(book, 4, 0),
    }
}
