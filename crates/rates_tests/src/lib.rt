//! Tests of the rate lists, against rates worked out by hand.
#![tactic(auto)]

#[cfg(test)]
mod tests {
    use rates::{FlatList, HoldingList, NamedList, QuarterList, RateList, factor};
    use std::ops::Range;
    use std::process::Abort;
    use std::test::Fail;

    // Each of these months has this rate.
    fn check_months(rt: &impl Abort, list: &impl RateList, months: Range<u32>, rate: Option<u32>) {
        for month in months {
            assert_eq!(rt; list.rate(month), rate);
        }
    }

    #[test]
    fn flat_list_at_its_limit(rt: HostRuntime) {
        check_months(&rt, &FlatList::new(0), 0..31, Some(0));
        check_months(&rt, &FlatList::new(100_000), 0..31, Some(100_000));
        check_months(&rt, &FlatList::new(100_001), 0..31, None);
        assert_eq!(rt; FlatList::new(7).rate(4_294_967_295), Some(7));
    }

    #[test]
    fn quarter_list_from_quarter_0(rt: HostRuntime) -> Result<(), Fail> {
        let list = QuarterList::new(0, vec![in rt.alloc(); 100, 100_001, 100_000]?);
        check_months(&rt, &list, 0..3, Some(100));
        check_months(&rt, &list, 3..6, None);
        check_months(&rt, &list, 6..9, Some(100_000));
        check_months(&rt, &list, 9..31, None);
        Ok(())
    }

    #[test]
    fn quarter_list_of_the_last_quarter(rt: HostRuntime) -> Result<(), Fail> {
        let list = QuarterList::new(1_431_655_765, vec![in rt.alloc(); 7]?);
        assert_eq!(rt; list.rate(4_294_967_294), None);
        assert_eq!(rt; list.rate(4_294_967_295), Some(7));
        Ok(())
    }

    #[test]
    fn empty_run_has_nothing_to_hold(rt: HostRuntime) -> Result<(), Fail> {
        let list = HoldingList::new(QuarterList::new(0, vec![in rt.alloc()]?));
        check_months(&rt, &list, 0..31, None);
        assert_eq!(rt; factor(&list, 0), None);
        Ok(())
    }

    #[test]
    fn pile_of_three_holds_twice_24_months(rt: HostRuntime) -> Result<(), Fail> {
        let once = HoldingList::new(QuarterList::new(1, vec![in rt.alloc(); 40, 50]?));
        check_months(&rt, &once, 0..3, None);
        check_months(&rt, &once, 3..6, Some(40));
        check_months(&rt, &once, 6..33, Some(50));
        check_months(&rt, &once, 33..36, None);
        let twice = HoldingList::new(once);
        check_months(&rt, &twice, 0..3, None);
        check_months(&rt, &twice, 3..6, Some(40));
        check_months(&rt, &twice, 6..57, Some(50));
        check_months(&rt, &twice, 57..60, None);
        Ok(())
    }

    #[test]
    fn rate_of_december_2012_is_held_through_2014(rt: HostRuntime) -> Result<(), Fail> {
        let quarters = QuarterList::new(4 * 2012 + 3, vec![in rt.alloc(); 25_000]?);
        let list = NamedList::HoldingQuarter(HoldingList::new(quarters));
        assert_eq!(rt; list.rate(12 * 2014 + 11), Some(25_000));
        assert_eq!(rt; list.rate(12 * 2015), None);
        assert_eq!(rt; factor(&list, 2012), None);
        assert_eq!(rt; factor(&list, 2013), Some(600_000));
        assert_eq!(rt; factor(&list, 2014), None);
        Ok(())
    }

    #[test]
    fn factor_adds_24_rates(rt: HostRuntime) -> Result<(), Fail> {
        let whole = vec![in rt.alloc(); 1, 2, 3, 4, 5, 6, 7, 8]?;
        assert_eq!(rt;
            factor(&NamedList::Quarter(QuarterList::new(4 * 2012, whole)), 2012),
            Some(108)
        );
        let short = vec![in rt.alloc(); 1, 2, 3, 4, 5, 6, 7]?;
        assert_eq!(rt;
            factor(&NamedList::Quarter(QuarterList::new(4 * 2012, short)), 2012),
            None
        );
        assert_eq!(rt;
            factor(&NamedList::Flat(FlatList::new(100_000)), 65_535),
            Some(2_400_000)
        );
        assert_eq!(rt;
            factor(
                &NamedList::HoldingFlat(HoldingList::new(FlatList::new(100_001))),
                0,
            ),
            None
        );
        Ok(())
    }
}
