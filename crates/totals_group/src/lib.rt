// A product group's liabilities in the eight settings, added to the totals.
// Internal: a group is one of an accepted book, which the call above has from the check.
#![tactic(auto)]

ghost use Rattle.std.specs.Prelude.{◌≡◌, ◌-◌, ◌≤◌};
ghost use Rattle.std.specs.Int.Signed.{mag};
ghost use Rattle.valuation.specs.Replies.{group_liability};
ghost use Rattle.discount_curve.specs.Curve.{CurveOf};
ghost use Rattle.present_value_span.specs.Spans.{AmountsIn};
ghost use Rattle.totals_group.specs.Sums.{EightSettings, GroupTable, Sums};
ghost use Rattle.totals_group.specs.Once.{table_prop};

use cash_flow::{Amounts, Span};
use cell_projection::YearSums;
use discount::Curve;
use settings_outgo::Setting;

// The base, and what its years from k = 5 on give to a product group.
#[derive(Clone, Copy)]
struct Base {
    setting: Setting,
    later: Amounts,
}

// A product group of an accepted book, as its years are valued in every setting: the book's curve,
// and the group's year sums.
#[derive(Clone, Copy)]
pub struct Group<'a> {
    pub book: &'a [u8],
    pub curve: &'a Curve,
    pub number: usize,
    pub sums: &'a YearSums,
    pub ghost table: { GroupTable book.now number sums.now } by { table_prop _ _ _ },
    pub ghost curve_is: { CurveOf book.now curve.now },
}

impl<'a> Group<'a> {
    // What the years of a span give in a setting.
    fn amounts_in(self, s: Setting, span: Span) -> Amounts
        requires { (span.from ≤ span.to)
            × (span.to ≤ 50) }
        ensures { AmountsIn self.entry.book.now s.number self.entry.number span.from span.to
            result }
    {
        present_value_span::amounts_in(self.book, self.curve, s, self.number, self.sums, span)
    }

    // What the years from k = 5 on give in a setting: those of the base serve every setting whose
    // later years are the base's.
    fn later_years(self, s: Setting, base: Base) -> Amounts
        requires { AmountsIn self.book.now base.setting.number self.number 5 50 base.later }
        ensures { AmountsIn self.entry.book.now s.number self.entry.number 5 50 result }
    {
        if s.later_as(base.setting) {
            return base.later;
        }
        self.amounts_in(s, Span { from: 5, to: 50 })
    }

    // The liability in a setting: the first five years, and the later ones.
    fn liability(self, s: Setting, base: Base) -> i64
        requires { AmountsIn self.book.now base.setting.number self.number 5 50 base.later }
        ensures { (result ≡ group_liability self.entry.book.now s.number self.entry.number)
            × (mag result ≤ 495000000000000000) }
    {
        let first = self.amounts_in(s, Span { from: 0, to: 5 });
        let later = self.later_years(s, base);
        signed::less(first.outgo + later.outgo, first.premium + later.premium)
    }

    // Adds the group's liabilities to the eight totals. The later years of the base are valued
    // once.
    pub fn add_to(self, settings: [Setting; 8], totals: &mut [i64; 8])
        requires { EightSettings settings
            × Sums self.book.now (self.number - 1) totals.old }
        ensures { Sums self.entry.book.now self.entry.number totals.new }
    {
        let setting = settings[0];
        let later = self.amounts_in(setting, Span { from: 5, to: 50 });
        let base = Base { setting, later };
        // By number: of what `iter_mut` lends beside another iterator a proof knows no element.
        for j in 0usize..8 {
            let s = settings[j];
            totals[j] = signed::plus(totals[j], self.liability(s, base));
        }
    }
}
