// Which columns of a chain's rows a setting takes, and which projection serves it: the table of
// weights decides.
#![tactic(auto)]

ghost use Rattle.std.specs.Prelude.{◌≡◌, ◌<◌};
ghost use Rattle.settings_columns.specs.Columns.{same_mortality, survival_column};
ghost use Rattle.settings_columns.specs.Columns.{persistency_column, columns_at};
ghost use Rattle.settings_columns.specs.Columns.{columns_of, five_columns};
ghost use Rattle.settings_columns.specs.Columns.{projection_of};

use settings::{ByPeriod, Five, Kind};

// Whether in year k of a setting the weights of mortality, of men and of women, are those of year 0
// of another.
#[tactic(auto, unfolding(crate::specs::Columns::same_mortality))]
fn same_mortality(setting: usize, k: usize, other: usize) -> bool
    requires { (setting < 8)
        × (other < 8) }
    ensures { result ≡ same_mortality setting k other }
{
    (settings::weight(setting, Kind::Men, k) == settings::weight(other, Kind::Men, 0))
        & (settings::weight(setting, Kind::Women, k) == settings::weight(other, Kind::Women, 0))
}

// Of the columns of a chain's rows, the one of what lives on in year k of a setting: that of the
// weights which hold, 0 the base's, 1 of more deaths, 2 of fewer.
#[tactic(auto, unfolding(crate::specs::Columns::survival_column))]
fn survival_column(setting: usize, k: usize) -> usize
    requires { setting < 8 }
    ensures { result ≡ survival_column setting k }
{
    if same_mortality(setting, k, 0) {
        return 0;
    }
    if same_mortality(setting, k, 1) { 1 } else { 2 }
}

// The one of what stays: 3 the base's, 4 of more lapses, 5 of fewer.
#[tactic(auto, unfolding(crate::specs::Columns::persistency_column))]
fn persistency_column(setting: usize, k: usize) -> usize
    requires { setting < 8 }
    ensures { result ≡ persistency_column setting k }
{
    let held = settings::weight(setting, Kind::Lapse, k);
    let base = settings::weight(0, Kind::Lapse, 0);
    let more = settings::weight(3, Kind::Lapse, 0);
    if held == base {
        return 3;
    }
    if held == more { 4 } else { 5 }
}

// The columns of what lives on and of what stays.
#[derive(Clone, Copy, PartialEq, Eq)]
pub struct Columns {
    pub survival: usize,
    pub persistency: usize,
}

impl Columns {
    // Those of a setting in year k.
    fn new(setting: usize, k: usize) -> Columns
        requires { setting < 8 }
        ensures { result ≡ columns_at setting k }
    {
        Columns {
            survival: survival_column(setting, k),
            persistency: persistency_column(setting, k),
        }
    }
}

// The columns of a setting.
#[tactic(auto, unfolding(crate::specs::Columns::columns_of))]
pub fn columns_of(setting: usize) -> ByPeriod<Columns>
    requires { setting < 8 }
    ensures { result ≡ columns_of setting }
{
    ByPeriod {
        first: Columns::new(setting, 0),
        later: Columns::new(setting, 5),
    }
}

// Those of the five settings whose projections serve all.
#[tactic(auto, unfolding(crate::specs::Columns::five_columns))]
pub fn five_columns() -> Five<ByPeriod<Columns>>
    ensures { result ≡ five_columns }
{
    Five {
        base: columns_of(0),
        mortality_up: columns_of(1),
        mortality_down: columns_of(2),
        lapse_up: columns_of(3),
        lapse_down: columns_of(4),
    }
}

// Of the five projections, those of the settings 0 to 4, the one that serves a setting: it has the
// setting's columns. Those of the five are constants, made at no cost.
#[tactic(auto, unfolding(crate::specs::Columns::projection_of))]
pub fn projection_of(setting: usize) -> usize
    requires { setting < 8 }
    ensures { (result ≡ projection_of setting)
        × (result < 5) }
{
    let own = columns_of(setting);
    if own == columns_of(0) {
        return 0;
    }
    if own == columns_of(1) {
        return 1;
    }
    if own == columns_of(2) {
        return 2;
    }
    if own == columns_of(3) { 3 } else { 4 }
}
