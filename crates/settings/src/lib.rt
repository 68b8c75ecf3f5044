// The weights of the eight settings, in thousandths: one table.
#![tactic(auto)]

ghost use Rattle.std.specs.Prelude.{◌≡◌, ◌<◌, ◌≤◌};
ghost use Rattle.settings.specs.Settings.{in_period, number_of, of_five, weight_of};

// The kinds of weight, in the order of the table. That of a mortality is so much for each percent.
#[derive(Clone, Copy)]
pub enum Kind {
    Men,
    Women,
    Lapse,
    Costs,
    Claims,
}

impl Kind {
    // Its place among the five.
    fn number(self) -> usize
        ensures { (result ≡ number_of self)
            × (result < 5) }
    {
        self as usize
    }
}

// For each setting the five kinds for the years k = 0 to 4, then the five for the later years.
const WEIGHTS: [u64; 80] = [
    // 0: base
    10, 10, 1000, 1000, 1000,
    // 0, later years
    10, 10, 1000, 1000, 1000,
    // 1: mortality up
    12, 12, 1000, 1000, 1000,
    // 1, later years
    10, // a shift of mortality ends
    10, 1000, 1000, 1000,
    // 2: mortality down
    8, 8, // of women as of men
    1000, 1000, 1000,
    // 2, later years
    10, 10, // here too, for women
    1000, 1000, 1000,
    // 3: lapse up
    10, 10, 1300, 1000, 1000,
    // 3, later years
    10, 10, 1300, // a shift of the lapse stays
    1000, 1000,
    // 4: lapse down
    10, 10, 700, 1000, 1000,
    // 4, later years
    10, 10, 700, // here too
    1000, 1000,
    // 5: costs up
    10, 10, // women of setting 5 as of the base
    1000, 1200, 1000,
    // 5, later years
    10, 10, 1000, 1000, 1000,
    // 6: costs down
    10, 10, 1000, 800, 1000,
    // 6, later years
    10, 10, 1000, 1000, // the shift of the costs ends
    1000,
    // 7: claims up
    10, 10, 1000, 1000, 1050,
    // 7, later years
    10, 10, 1000, // the lapse of setting 7 is the base's in all years
    1000, 1000,
];

// The weight of a kind in the year k. A setting is its number, 0 to 7, and no enum: C passes it,
// and refusal 14 is of any other.
pub fn weight(setting: usize, kind: Kind, k: usize) -> u64
    requires { setting < 8 }
    ensures { (result ≡ weight_of setting (number_of kind) k)
        × (result ≤ 1300) }
{
    let kind = kind.number();
    if k < 5 {
        WEIGHTS[10 * setting + kind]
    } else {
        WEIGHTS[10 * setting + 5 + kind]
    }
}

// What holds of a setting in the years k = 0 to 4, and in the later ones.
#[derive(Clone, Copy, PartialEq, Eq)]
pub struct ByPeriod<T> {
    pub first: T,
    pub later: T,
}

impl<T: Copy> ByPeriod<T> {
    // What holds in the year k.
    pub fn at(self, k: usize) -> T
        ensures { result ≡ in_period self k }
    {
        if k < 5 { self.first } else { self.later }
    }
}

// One of each of the five settings whose projections serve all: the base, 0, and the four that
// shift mortality or lapse, 1 to 4.
#[derive(Clone, Copy)]
pub struct Five<T> {
    pub base: T,
    pub mortality_up: T,
    pub mortality_down: T,
    pub lapse_up: T,
    pub lapse_down: T,
}

impl<T: Copy> Five<T> {
    // The one of a setting.
    pub fn of(self, setting: usize) -> T
        ensures { result ≡ of_five self setting }
    {
        match setting {
            1 => self.mortality_up,
            2 => self.mortality_down,
            3 => self.lapse_up,
            4 => self.lapse_down,
            _ => self.base,
        }
    }
}
