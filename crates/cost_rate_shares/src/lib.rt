// Three years of expenses over the five product groups (FINMA 4.4.8): each year's are split once by
// stock and once by claims, and divided by the premium.
#![tactic(auto)]

ghost use Rattle.std.specs.Prelude.{◌≡◌, ◌≤◌, ◌<◌};
ghost use Rattle.lists.specs.AtMost.{AtMost};
ghost use Rattle.cost_rate_shares.specs.Rates.{figure, year_sum, lowered, share, year_rate};
ghost use Rattle.cost_rate_shares.specs.Rates.{none_in, is_empty, accounts_rate, rates_of};
ghost use Rattle.cost_rate_shares.specs.Usable.{Bounded, Usable};

// Three years, in the order in which they are given. The figure of year y, 0 to 2, and group g, 0
// for PG1 to 4 for PG5, stands at 5 y + g. Stock is in contracts, all else in francs.
#[repr(C)]
#[derive(Clone, Copy)]
pub struct Accounts {
    pub expenses: [u64; 3],
    pub stock: [u64; 15],
    pub claims: [u64; 15],
    pub premium: [u64; 15],
}

// Fifteen figures of accounts that pass 17, in the order in which Accounts has them.
#[derive(Clone, Copy)]
pub struct Figures {
    pub figures: [u64; 15],
    pub ghost limit: { AtMost 1000000000 15 figures },
}

impl Figures {
    pub fn at(self, year: usize, group: usize) -> u64
        requires { (year < 3)
            × (group < 5) }
        ensures { (result ≡ figure self.figures year group)
            × (result ≤ 1000000000) }
    {
        self.figures[5 * year + group]
    }

    pub fn year_sum(self, year: usize) -> u64
        requires { year < 3 }
        ensures { (result ≡ year_sum self.figures year)
            × (result ≤ 5000000000) }
    {
        let start = 5 * year;
        self.figures[start..start + 5].iter().sum()
    }

    fn none_in(self, group: usize) -> bool
        requires { group < 5 }
        ensures { result ≡ none_in self.figures group }
    {
        (0usize..3).all(|year| self.at(year, group) == 0)
    }
}

// Accounts that pass 17.
#[derive(Clone, Copy)]
pub struct BoundedAccounts {
    pub accounts: Accounts,
    pub ghost bounded: { Bounded accounts },
}

impl BoundedAccounts {
    pub fn stock(self) -> Figures
        ensures { result.figures ≡ self.accounts.stock }
    {
        let figures = self.accounts.stock;
        Figures { figures }
    }

    pub fn claims(self) -> Figures
        ensures { result.figures ≡ self.accounts.claims }
    {
        let figures = self.accounts.claims;
        Figures { figures }
    }

    pub fn premium(self) -> Figures
        ensures { result.figures ≡ self.accounts.premium }
    {
        let figures = self.accounts.premium;
        Figures { figures }
    }

    pub fn is_empty(self, group: usize) -> bool
        requires { group < 5 }
        ensures { result ≡ is_empty self.accounts group }
    {
        self.stock().none_in(group) & self.claims().none_in(group) & self.premium().none_in(group)
    }

    fn lowered(self, year: usize) -> u64
        requires { year < 3 }
        ensures { (result ≡ lowered self.accounts.expenses year)
            × (result ≤ 950000000) }
    {
        self.accounts.expenses[year] * 95 / 100
    }

    // A group's share of the year's lowered expenses, split by stock or by claims.
    fn share(self, split: Figures, year: usize, group: usize) -> u64
        requires { (year < 3)
            × (group < 5)
            × (0 < year_sum split.figures year) }
        ensures { (result ≡ share self.accounts.expenses split.figures year group)
            × (result ≤ 950000000) }
    {
        self.lowered(year) * split.at(year, group) / split.year_sum(year)
    }
}

// Accounts that pass 17 and 18.
#[derive(Clone, Copy)]
pub struct UsableAccounts {
    pub accounts: Accounts,
    pub ghost usable: { Usable accounts },
}

impl UsableAccounts {
    fn bounded(self) -> BoundedAccounts
        ensures { result.accounts ≡ self.accounts }
    {
        BoundedAccounts {
            accounts: self.accounts,
        }
    }

    // Both shares over twice the premium: one division, so that nothing is rounded between the
    // average and the rate.
    fn year_rate(self, year: usize, group: usize) -> u64
        requires { (year < 3)
            × (group < 5)
            × (0 < figure self.accounts.premium year group) }
        ensures { (result ≡ year_rate self.accounts year group)
            × (result ≤ 1900000000000000) }
    {
        let bounded = self.bounded();
        let by_stock = bounded.share(bounded.stock(), year, group);
        let by_claims = bounded.share(bounded.claims(), year, group);
        (by_stock + by_claims) * 1_000_000 / (2 * bounded.premium().at(year, group))
    }

    fn rate(self, group: usize) -> u64
        requires { group < 5 }
        ensures { result ≡ accounts_rate self.accounts group }
    {
        if self.bounded().is_empty(group) {
            return 0;
        }
        (self.year_rate(0, group) + self.year_rate(1, group) + self.year_rate(2, group)) / 3
    }

    pub fn rates(self) -> [u64; 5]
        ensures { result ≡ rates_of self.accounts }
    {
        std::array::from_fn(|group| self.rate(group))
    }
}
