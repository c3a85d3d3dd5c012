//! Tests of the journals, against numbers worked out by hand.
#![tactic(auto)]

#[cfg(test)]
mod tests {
    use journals::{Entry, EntryJournal, Journal, MOST_KWH, Refusal, TableJournal};
    use std::test::Fail;

    const NONE: u64 = u64::MAX;

    // Every length has the places of its whole twelves, whatever the run holds.
    #[test]
    fn table_has_a_place_for_each_whole_twelve(rt: HostRuntime) -> Result<(), Fail> {
        for (length, last) in [
            (0, 0),
            (11, 0),
            (12, 1),
            (23, 1),
            (786_419, 65_534),
            (786_420, 65_535),
            (786_500, 65_535),
        ] {
            let mut table = TableJournal::new(vec![in rt.alloc(); 5; length]?);
            for (participant, month) in [(0, 1), (last, 0), (last, 13), (last + 1, 1)] {
                assert_eq!(rt; table.look(participant, month), None, "at {length}");
                assert_eq!(rt; table.put(participant, month, 1), Err(Refusal::NoPlace));
            }
            if last > 0 {
                assert_eq!(rt; table.look(last, 12), Some(5), "at {length}");
                table.wipe();
                assert_eq!(rt; table.look(last, 12), None, "at {length}");
                assert_eq!(rt; table.put(last, 12, 0), Ok(()));
                assert_eq!(rt; table.look(last, 12), Some(0), "at {length}");
                assert_eq!(rt; table.look(last, 11), None, "at {length}");
            }
        }
        Ok(())
    }

    #[test]
    fn table_counts_a_number_above_the_limit_as_none(rt: HostRuntime) -> Result<(), Fail> {
        let mut table = TableJournal::new(vec![in rt.alloc();
            0,
            MOST_KWH,
            MOST_KWH + 1,
            NONE,
            4,
            5,
            6,
            7,
            8,
            9,
            10,
            11,
        ]?);
        for (month, kwh) in [
            (1, Some(0)),
            (2, Some(MOST_KWH)),
            (3, None),
            (4, None),
            (12, Some(11)),
        ] {
            assert_eq!(rt; table.look(1, month), kwh, "in month {month}");
        }
        assert_eq!(rt; table.put(1, 2, MOST_KWH + 1), Err(Refusal::NoPlace));
        assert_eq!(rt; table.look(1, 2), Some(MOST_KWH));
        assert_eq!(rt; table.put(1, 3, 1), Ok(()));
        assert_eq!(rt; table.put(1, 3, 2), Ok(()));
        assert_eq!(rt; table.look(1, 3), Some(2));
        assert_eq!(rt; table.look(1, 5), Some(4));
        assert_eq!(rt; Refusal::NoPlace.number(), 12);
        Ok(())
    }

    fn entry(participant: u32, month: u8, kwh: u64) -> Entry {
        Entry {
            participant,
            month,
            kwh,
        }
    }

    #[test]
    fn entries_take_the_last_place_and_refuse_the_next(rt: HostRuntime) -> Result<(), Fail> {
        let mut none = EntryJournal::new(vec![in rt.alloc()]?);
        assert_eq!(rt; none.put(1, 1, 1), Err(Refusal::NoPlace));
        let mut two = EntryJournal::new(vec![in rt.alloc(); Entry::UNUSED; 2]?);
        assert_eq!(rt; two.put(65_535, 12, 0), Ok(()));
        assert_eq!(rt; two.put(1, 1, MOST_KWH + 1), Err(Refusal::NoPlace));
        assert_eq!(rt; two.put(65_536, 1, 1), Err(Refusal::NoPlace));
        assert_eq!(rt; two.put(1, 13, 1), Err(Refusal::NoPlace));
        assert_eq!(rt; two.put(1, 257, 1), Err(Refusal::NoPlace));
        assert_eq!(rt; two.put(1, 1, MOST_KWH), Ok(()));
        assert_eq!(rt; two.put(1, 2, 1), Err(Refusal::NoPlace));
        assert_eq!(rt; two.put(1, 1, 3), Ok(()));
        for (participant, month, kwh) in [(65_535, 12, Some(0)), (1, 1, Some(3)), (1, 2, None)] {
            assert_eq!(rt; two.look(participant, month), kwh);
        }
        Ok(())
    }

    #[test]
    fn first_entry_of_a_pair_counts(rt: HostRuntime) -> Result<(), Fail> {
        let mut journal = EntryJournal::new(vec![in rt.alloc();
            entry(0, 1, 1),
            entry(1, 1, 5),
            entry(1, 1, 6),
            entry(2, 13, 7),
            entry(2, 1, MOST_KWH + 1),
        ]?);
        for (participant, month, kwh) in [
            (0, 1, None),
            (1, 1, Some(5)),
            (2, 13, None),
            (2, 1, None),
        ] {
            assert_eq!(rt; journal.look(participant, month), kwh);
        }
        assert_eq!(rt; journal.put(1, 1, 9), Ok(()));
        assert_eq!(rt; journal.look(1, 1), Some(9));
        for (participant, answer) in [
            (3, Ok(())),
            (4, Ok(())),
            (5, Ok(())),
            (6, Err(Refusal::NoPlace)),
        ] {
            assert_eq!(rt; journal.put(participant, 1, 2), answer);
        }
        journal.wipe();
        for participant in 1..6 {
            assert_eq!(rt; journal.look(participant, 1), None);
            assert_eq!(rt; journal.put(participant, 1, 4), Ok(()));
        }
        assert_eq!(rt; journal.put(6, 1, 4), Err(Refusal::NoPlace));
        Ok(())
    }
}
