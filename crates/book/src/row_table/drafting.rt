ghost use Rattle.std.specs.List.{list_all};
ghost use Rattle.std.specs.NonZero.{non_zero_u64_get};
ghost use Rattle.std.specs.Prelude.{is_some, ◌≡◌};
ghost use Rattle.settlement.specs.Books.{total_of};
ghost use Rattle.settlement.specs.Drafting.{filed, all_filed, is_forecast, is_usage_rate, posted};
ghost use Rattle.settlement.specs.Rules.{rate_scale, unsigned, usage_rate};
ghost use Rattle.settlement.specs.declared.refusal.Refusal.TheVariants.{ForecastOutOfRange, UsageRateOutOfRange};
ghost use Rattle.book.specs.Asking.{Asks};
ghost use Rattle.book.specs.Remaining.{filed_row};
ghost use Rattle.book.specs.Tables.{TableGives};

use crate::row_table::RowTable;
use crate::row_table::places::project_number;
use crate::rules;
use settlement::{Refusal, State};
use std::num::NonZeroU64;

/// A forecast in megawatt-hours, or question 6.
fn forecast_in_range(forecast: i64) -> Result<NonZeroU64, Refusal>
    ensures { Asks (is_forecast forecast) ForecastOutOfRange (λ megawatt_hours. non_zero_u64_get megawatt_hours ≡ unsigned forecast) result }
{
    if !(1..=1_000_000_000).contains(&forecast) {
        return Err(Refusal::ForecastOutOfRange);
    }
    NonZeroU64::new(forecast.unsigned_abs()).ok_or(Refusal::ForecastOutOfRange)
}

impl RowTable {
    /// Files a project's requirement.
    pub(crate) fn file(&mut self, project: i64, requirement: i64) -> Result<(), Refusal>
        ensures { TableGives (λ b. filed b project requirement) self.old result self.new }
    {
        let project = project_number(project)?;
        self.draft()?;
        self.file_row(project, requirement)
    }

    /// Questions 3 and 4, and the filing.
    fn file_row(&mut self, project: u32, requirement: i64) -> Result<(), Refusal>
        ensures { TableGives (λ b. filed_row b project requirement) self.old result self.new }
    {
        let (place, mut row) = self.row_or_room(project)?;
        row.set_requirement(requirement)?;
        self.write(place, row);
        Ok(())
    }

    fn each_is_filed(&self) -> bool
        ensures { result ≡ list_all (λ r. is_some r.filed.requirement) self.now.rows }
    {
        self.in_use().iter().all(|row| row.is_filed())
    }

    /// Whether there are rows, and each is filed this year.
    fn all_filed(&self) -> bool
        ensures { result ≡ all_filed self.now.rows }
    {
        self.count >= 1 && self.each_is_filed()
    }

    /// The usage rate for a forecast, or question 7.
    fn rate_for(&self, forecast: NonZeroU64) -> Result<i64, Refusal>
        ensures { Asks (is_usage_rate (usage_rate rate_scale (total_of self.now.rows) (non_zero_u64_get forecast))) UsageRateOutOfRange (λ rate. rate ≡ usage_rate rate_scale (total_of self.now.rows) (non_zero_u64_get forecast)) result }
    {
        let rate = rules::usage_rate(self.total(), forecast);
        if !(1..=1_000_000).contains(&rate) {
            return Err(Refusal::UsageRateOutOfRange);
        }
        Ok(rate)
    }

    /// Sets the usage rate, and posts the year.
    pub(crate) fn post(&mut self, forecast: i64) -> Result<i64, Refusal>
        ensures { TableGives (λ b. posted b forecast) self.old result self.new }
    {
        self.draft()?;
        if !self.all_filed() {
            return Err(Refusal::NotFiled);
        }
        let rate = self.rate_for(forecast_in_range(forecast)?)?;
        self.state = State::Posted(rate);
        Ok(rate)
    }
}
