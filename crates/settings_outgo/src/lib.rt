// The weights of costs and claims of a setting, and a setting as the years of a group are valued in
// it: structs by value, read outside the loops.
#![tactic(auto)]

ghost use Rattle.std.specs.Prelude.{◌≡◌, ◌<◌, ◌≤◌};
ghost use Rattle.settings_columns.specs.Columns.{projection_of};
ghost use Rattle.settings_outgo.specs.Outgoings.{outgo_at, outgoings_of, OutgoWeighed};

use settings::{ByPeriod, Kind};

// The weights of costs and claims in one year.
#[derive(Clone, Copy, PartialEq, Eq)]
pub struct OutgoWeights {
    pub costs: u64,
    pub claims: u64,
}

impl OutgoWeights {
    fn new(setting: usize, k: usize) -> OutgoWeights
        requires { setting < 8 }
        ensures { (result ≡ outgo_at setting k)
            × (result.costs ≤ 1200)
            × (result.claims ≤ 1050) }
    {
        OutgoWeights {
            costs: settings::weight(setting, Kind::Costs, k),
            claims: settings::weight(setting, Kind::Claims, k),
        }
    }
}

// The weights of costs and claims of a setting.
pub type Outgoings = ByPeriod<OutgoWeights>;

#[tactic(auto, unfolding(crate::specs::Outgoings::outgoings_of))]
pub fn outgoings_of(setting: usize) -> Outgoings
    requires { setting < 8 }
    ensures { (result ≡ outgoings_of setting)
        × OutgoWeighed result }
{
    ByPeriod {
        first: OutgoWeights::new(setting, 0),
        later: OutgoWeights::new(setting, 5),
    }
}

// What the years of a setting from k = 5 on are valued by: the projection that serves it, and its
// weights of costs and claims in those years.
#[derive(Clone, Copy)]
pub struct LaterYears {
    pub projection: usize,
    pub outgo: OutgoWeights,
}

impl LaterYears {
    ghost use Rattle.settings_outgo.specs.Later.{same_later};

    // Whether they are those of another setting.
    pub fn same_as(self, other: LaterYears) -> bool
        ensures { result ≡ same_later self other }
    {
        (self.projection == other.projection) & (self.outgo == other.outgo)
    }
}

// A setting as the years of a group are valued in it: its number, the projection that serves it,
// its weights of costs and claims.
#[derive(Clone, Copy)]
pub struct Setting {
    pub number: usize,
    pub projection: usize,
    pub outgo: Outgoings,
    pub ghost known: { number < 8 },
    pub ghost projection_is: { projection ≡ projection_of number },
    pub ghost outgo_is: { outgo ≡ outgoings_of number },
    pub ghost weighed: { OutgoWeighed outgo },
}

impl Setting {
    ghost use Rattle.settings_outgo.specs.Later.{later_of, later_as};

    pub fn new(number: usize) -> Setting
        requires { number < 8 }
        ensures { result.number ≡ number }
    {
        let projection = settings_columns::projection_of(number);
        let outgo = outgoings_of(number);
        Setting {
            number,
            projection,
            outgo,
        }
    }

    fn later(self) -> LaterYears
        ensures { result ≡ later_of self }
    {
        LaterYears {
            projection: self.projection,
            outgo: self.outgo.later,
        }
    }

    // Whether its years from k = 5 on are those of another setting: the same projection, and the
    // same weights of costs and claims.
    pub fn later_as(self, other: Setting) -> bool
        ensures { result ≡ later_as self other }
    {
        self.later().same_as(other.later())
    }
}
