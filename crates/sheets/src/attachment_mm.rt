ghost use Rattle.std.specs.Prelude.{◌≡◌, ◌^◌, ◌≤◌, unsigned_abs, refl};
ghost use Rattle.sheets.specs.Attachments.{mm_adjusted_om, mm_net_plant, mm_other_om, mm_rules, mm_transmission_om};
ghost use Rattle.sheets.specs.Printed.{MmFactorsDivide, MmLinesAddUp};
ghost use Rattle.std.proofs.Common.{arith, rules};
ghost use Rattle.std.proofs.lemmas.Int.{ints};
ghost use Rattle.sheets.specs.declared.figures.Figure.TheVariants.{GrossPlant, AccumulatedDepreciation, TotalOm, TransmissionOm, LseExpenses, Account565, GeneralDepreciation, OtherTaxes, IncomeTaxes, ReturnOnRateBase};

use crate::elements::{Elements, ExpenseElements, ReturnElements, TransmissionOm};
use crate::figures::{Figure, Figures};
use crate::pricing::Project;
use crate::template::Template;

/// Attachment MM: Multi-Value Projects.
#[derive(Clone, Copy)]
pub struct AttachmentMm;

/// The lines of Attachment MM that take a figure.
#[derive(Clone, Copy)]
pub enum MmLine {
    GrossPlant,
    AccumulatedDepreciation,
    TotalOm,
    TransmissionOm,
    LseExpenses,
    Account565,
    GeneralDepreciation,
    OtherTaxes,
    IncomeTaxes,
    ReturnOnRateBase,
}

/// Line 2: line 1 less line 1a.
fn net_plant(figures: &Figures) -> i128
    ensures { result ≡ mm_net_plant figures.now }
{
    figures.amount(Figure::GrossPlant) - figures.amount(Figure::AccumulatedDepreciation)
}

/// Line 3d: line 3a less lines 3b and 3c.
fn adjusted_om(figures: &Figures) -> i128
    ensures value { result ≡ mm_adjusted_om figures.now }
    ensures bound { unsigned_abs result ≤ 2 ^ 65 }
{
    let deductions = figures.amount(Figure::LseExpenses) + figures.amount(Figure::Account565);
    figures.amount(Figure::TransmissionOm) - deductions
}

/// Line 4a: line 3 less line 3d.
fn other_om(figures: &Figures) -> i128
    ensures { result ≡ mm_other_om figures.now }
{
    figures.amount(Figure::TotalOm) - adjusted_om(figures)
}

/// Lines 3d and 1a, which line 4 is made of.
fn transmission_om(figures: &Figures) -> TransmissionOm
    ensures { result ≡ mm_transmission_om figures.now }
{
    TransmissionOm {
        adjusted_om: adjusted_om(figures),
        accumulated_depreciation: figures.amount(Figure::AccumulatedDepreciation),
    }
}

impl Template for AttachmentMm {
    type Line = MmLine;

    const LINE_COUNT: usize = 10;

    ghost LINE_COUNT = { 10 };

    ghost rules = { mm_rules };

    ghost lines_add_up = { MmLinesAddUp };

    ghost factors_divide = { MmFactorsDivide };

    ghost line_count_is_the_number_of_lines = { refl };

    ghost elements_are_small = { λ f r.
        let gross = r GrossPlant in
        let accumulated = r AccumulatedDepreciation in
        let om = r TotalOm in
        let transmission = r TransmissionOm in
        let lse = r LseExpenses in
        let account = r Account565 in
        let depreciation = r GeneralDepreciation in
        let taxes = r OtherTaxes in
        let income = r IncomeTaxes in
        let on_base = r ReturnOnRateBase in
        record {
          om = record { adjusted = omega (arith, ints); base = omega arith };
          expense = record { om = omega (arith, ints); depreciation = omega arith; taxes = omega arith; base = omega arith };
          return = record { taxes = omega arith; return = omega arith; base = omega (arith, ints) };
        } };

    ghost printed_lines_add_up = { λ f.
        record {
          lines_in_the_order_of_the_page = refl;
          line_3d = mm_adjusted_om f;
          line_4_divides_3d_by_1a = refl;
          net_plant_and_1a_are_line_1 = omega (arith, ints);
          lines_3d_3b_and_3c_are_line_3a = omega (arith, ints);
          other_om_and_3d_are_line_3 = omega (arith, ints);
        } };

    ghost factors_divide_printed_lines = { λ scale f p h.
        let expense = h.line_9_and_its_parts_are_nearest in
        let return = h.line_14_and_its_parts_are_nearest in
        record {
          line_4_divides_line_3d_by_line_1a = h.line_4_is_nearest_to_its_quotient;
          line_4b_divides_line_4a_by_line_1 = expense.other_om_is_nearest_to_its_quotient;
          line_6_divides_line_5_by_line_1 = expense.general_depreciation_is_nearest_to_its_quotient;
          line_8_divides_line_7_by_line_1 = expense.other_taxes_are_nearest_to_their_quotient;
          line_9_divides_lines_4a_5_and_7_by_line_1 = expense.line_9_is_nearest_to_the_exact_sum;
          line_11_divides_line_10_by_line_2 = return.income_taxes_are_nearest_to_their_quotient;
          line_13_divides_line_12_by_line_2 = return.return_on_rate_base_is_nearest_to_its_quotient;
          line_14_divides_lines_10_and_12_by_line_2 = return.line_14_is_nearest_to_the_exact_sum;
        } };

    ghost om_base_is_within_the_largest_amount = { Prim.search rules };

    fn lines() -> &'static [MmLine] {
        &[
            MmLine::GrossPlant,
            MmLine::AccumulatedDepreciation,
            MmLine::TotalOm,
            MmLine::TransmissionOm,
            MmLine::LseExpenses,
            MmLine::Account565,
            MmLine::GeneralDepreciation,
            MmLine::OtherTaxes,
            MmLine::IncomeTaxes,
            MmLine::ReturnOnRateBase,
        ]
    }

    fn label(line: MmLine) -> &'static [u8] {
        match line {
            MmLine::GrossPlant => b"1",
            MmLine::AccumulatedDepreciation => b"1a",
            MmLine::TotalOm => b"3",
            MmLine::TransmissionOm => b"3a",
            MmLine::LseExpenses => b"3b",
            MmLine::Account565 => b"3c",
            MmLine::GeneralDepreciation => b"5",
            MmLine::OtherTaxes => b"7",
            MmLine::IncomeTaxes => b"10",
            MmLine::ReturnOnRateBase => b"12",
        }
    }

    // No `From`: the clause of the trait ties it to the template's rules.
    fn figure(line: MmLine) -> Figure {
        match line {
            MmLine::GrossPlant => Figure::GrossPlant,
            MmLine::AccumulatedDepreciation => Figure::AccumulatedDepreciation,
            MmLine::TotalOm => Figure::TotalOm,
            MmLine::TransmissionOm => Figure::TransmissionOm,
            MmLine::LseExpenses => Figure::LseExpenses,
            MmLine::Account565 => Figure::Account565,
            MmLine::GeneralDepreciation => Figure::GeneralDepreciation,
            MmLine::OtherTaxes => Figure::OtherTaxes,
            MmLine::IncomeTaxes => Figure::IncomeTaxes,
            MmLine::ReturnOnRateBase => Figure::ReturnOnRateBase,
        }
    }

    fn elements(figures: &Figures) -> Elements {
        Elements {
            transmission_om: Some(transmission_om(figures)),
            expense: ExpenseElements::of(other_om(figures), figures),
            returns: ReturnElements::of(net_plant(figures), figures),
        }
    }

    fn adjusted_om_fits(figures: &Figures) -> bool {
        (0..=figures.amount(Figure::TotalOm)).contains(&adjusted_om(figures))
    }

    fn om_base(project: &Project) -> i64 {
        project.accumulated_depreciation
    }
}
