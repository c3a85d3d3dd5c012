ghost use Rattle.std.specs.Prelude.{◌≡◌, ◌≤◌, true, false, IfErr, IfOk};
ghost use Rattle.settlement.specs.Billing.{pair_in_range, reading_in_range};
ghost use Rattle.settlement.specs.Rules.{unsigned};
ghost use Rattle.settlement.specs.declared.refusal.Refusal.TheVariants.{ReadingOutOfRange};

use settlement::Refusal;

/// Kilowatt-hours of a participant in a month, within their ranges.
#[derive(Clone, Copy)]
pub(crate) struct Reading {
    pub(crate) participant: u32,
    pub(crate) month: u32,
    pub(crate) kwh: u64,
}

fn pair_in_range(participant: i64, month: i64) -> bool
    ensures { result ≡ pair_in_range participant month }
{
    (1..=65_535).contains(&participant) && (1..=12).contains(&month)
}

fn in_range(participant: i64, month: i64, kwh: i64) -> bool
    ensures { result ≡ reading_in_range participant month kwh }
{
    pair_in_range(participant, month) && (0..=10_000_000_000).contains(&kwh)
}

impl Reading {
    /// A reading, or question 8.
    pub(crate) fn new(participant: i64, month: i64, kwh: i64) -> Result<Reading, Refusal>
        ensures in_range { IfOk result (λ _. reading_in_range participant month kwh ≡ true) }
        ensures reading { IfOk result (λ r. (r.participant ≡ unsigned participant) × (r.month ≡ unsigned month) × (r.kwh ≡ unsigned kwh)) }
        ensures bound { IfOk result (λ r. r.kwh ≤ 10000000000) }
        ensures refused { IfErr result (λ why. (reading_in_range participant month kwh ≡ false) × (why ≡ ReadingOutOfRange)) }
    {
        if !in_range(participant, month, kwh) {
            return Err(Refusal::ReadingOutOfRange);
        }
        Ok(Reading {
            participant: participant as u32,
            month: month as u32,
            kwh: kwh as u64,
        })
    }
}
