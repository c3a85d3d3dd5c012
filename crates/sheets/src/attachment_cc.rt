ghost use Rattle.sheets.specs.Attachments.{cc_rules};
ghost use Rattle.sheets.specs.Printed.{CcFactorsDivide, CcLinesAddUp};
ghost use Rattle.std.proofs.Common.{refl, rules};

use crate::elements::{Elements, ExpenseElements, ReturnElements};
use crate::figures::{Figure, Figures};
use crate::pricing::Project;
use crate::template::Template;

/// Attachment CC: cross-border projects.
#[derive(Clone, Copy)]
pub struct AttachmentCc;

/// The lines of Attachment CC that take a figure.
#[derive(Clone, Copy)]
pub enum CcLine {
    GrossPlant,
    NetPlant,
    TotalOm,
    GeneralDepreciation,
    OtherTaxes,
    IncomeTaxes,
    ReturnOnRateBase,
}

impl Template for AttachmentCc {
    type Line = CcLine;

    const LINE_COUNT: usize = 7;

    ghost LINE_COUNT = { 7 };

    ghost rules = { cc_rules };

    ghost lines_add_up = { CcLinesAddUp };

    ghost factors_divide = { CcFactorsDivide };

    ghost line_count_is_the_number_of_lines = { refl };

    ghost elements_are_small = { Prim.search rules };

    ghost printed_lines_add_up = { λ f.
        record {
          lines_in_the_order_of_the_page = refl;
          there_is_no_line_3d = refl;
          net_plant_is_line_2 = refl;
          other_om_is_line_3 = refl;
        } };

    ghost factors_divide_printed_lines = { λ scale f p h.
        let expense = h.line_9_and_its_parts_are_nearest in
        let return = h.line_14_and_its_parts_are_nearest in
        record {
          nothing_is_divided_by_accumulated_depreciation = h.line_4_is_nearest_to_its_quotient;
          line_4_divides_line_3_by_line_1 = expense.other_om_is_nearest_to_its_quotient;
          line_6_divides_line_5_by_line_1 = expense.general_depreciation_is_nearest_to_its_quotient;
          line_8_divides_line_7_by_line_1 = expense.other_taxes_are_nearest_to_their_quotient;
          line_9_divides_lines_3_5_and_7_by_line_1 = expense.line_9_is_nearest_to_the_exact_sum;
          line_11_divides_line_10_by_line_2 = return.income_taxes_are_nearest_to_their_quotient;
          line_13_divides_line_12_by_line_2 = return.return_on_rate_base_is_nearest_to_its_quotient;
          line_14_divides_lines_10_and_12_by_line_2 = return.line_14_is_nearest_to_the_exact_sum;
        } };

    ghost om_base_is_within_the_largest_amount = { Prim.search rules };

    fn lines() -> &'static [CcLine] {
        &[
            CcLine::GrossPlant,
            CcLine::NetPlant,
            CcLine::TotalOm,
            CcLine::GeneralDepreciation,
            CcLine::OtherTaxes,
            CcLine::IncomeTaxes,
            CcLine::ReturnOnRateBase,
        ]
    }

    fn label(line: CcLine) -> &'static [u8] {
        match line {
            CcLine::GrossPlant => b"1",
            CcLine::NetPlant => b"2",
            CcLine::TotalOm => b"3",
            CcLine::GeneralDepreciation => b"5",
            CcLine::OtherTaxes => b"7",
            CcLine::IncomeTaxes => b"10",
            CcLine::ReturnOnRateBase => b"12",
        }
    }

    // No `From`: the clause of the trait ties it to the template's rules.
    fn figure(line: CcLine) -> Figure {
        match line {
            CcLine::GrossPlant => Figure::GrossPlant,
            CcLine::NetPlant => Figure::NetPlant,
            CcLine::TotalOm => Figure::TotalOm,
            CcLine::GeneralDepreciation => Figure::GeneralDepreciation,
            CcLine::OtherTaxes => Figure::OtherTaxes,
            CcLine::IncomeTaxes => Figure::IncomeTaxes,
            CcLine::ReturnOnRateBase => Figure::ReturnOnRateBase,
        }
    }

    fn elements(figures: &Figures) -> Elements {
        Elements {
            transmission_om: None,
            expense: ExpenseElements::of(figures.amount(Figure::TotalOm), figures),
            returns: ReturnElements::of(figures.amount(Figure::NetPlant), figures),
        }
    }

    fn adjusted_om_fits(_figures: &Figures) -> bool {
        true
    }

    fn om_base(_project: &Project) -> i64 {
        0
    }
}
