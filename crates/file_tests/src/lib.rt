#![tactic(auto)]
// Tests of opening table files, in a crate of their own so that the reader is not proved twice.

#[cfg(test)]
mod tests {
    use model::lag::Lag;
    use model::project::Project;
    use std::test::Fail;
    use table_file::held::Table;
    use table_file::open::inspect;

    // The number and the place of a file's first fault, as people and C see them; `None` if it opens.
    fn fault_of(file: &[u8]) -> Option<(u16, u16)> {
        let refusal = inspect(file).err()?;
        Some((refusal.fault.number(), refusal.place))
    }

    // Horizon 4, two activities of durations 2 and 1, and one relation: 0 finishes before 1 starts; and a
    // byte more, which belongs to no file.
    const TWO_IN_TURN: [u8; 49] = [
        0x54, 4, 2, 2, 1, 8, 0, 5, 0, 0, 0, 3, 0, 0, 0, 4, 0, 0, 0, 6, 0, 0, 0, 9, 0, 0, 0, 7, 0,
        0, 0, 2, 0, 0, 0, 6, 0, 0, 0, 1, 0, 0x46, 0x53, 0x4C, 0, 1, 0, 0, 0,
    ];

    #[test]
    fn the_worked_file_opens(rt: HostRuntime) -> Result<(), Fail> {
        match inspect(&TWO_IN_TURN[0..48]) {
            Err(_) => Err(Fail::new("refused")),
            Ok(shape) => {
                assert_eq!(rt; shape.horizon, 4);
                assert_eq!(rt; shape.activities, 2);
                assert_eq!(rt; shape.relations, 1);
                Ok(())
            }
        }
    }

    #[test]
    fn the_worked_file_is_a_table(rt: HostRuntime) -> Result<(), Fail> {
        match Table::open(&TWO_IN_TURN[0..48]) {
            Err(_) => Err(Fail::new("refused")),
            Ok(table) => {
                assert_eq!(rt; table.shape().relations, 1);
                let second_after_first = Lag {
                    from: 0,
                    to: 1,
                    gap: 2,
                };
                assert_eq!(rt; table.lag(0), Some(second_after_first));
                Ok(())
            }
        }
    }

    #[test]
    fn a_file_that_ends_too_soon(rt: HostRuntime) {
        assert_eq!(rt; fault_of(&TWO_IN_TURN[0..47]), Some((3, 47)));
        assert_eq!(rt; fault_of(&[]), Some((3, 0)));
        assert_eq!(rt; fault_of(&[0x54]), Some((3, 1)));
        assert_eq!(rt; fault_of(&[0x55]), Some((1, 0)));
        assert_eq!(rt; fault_of(&[0x54, 0]), Some((2, 1)));
        assert_eq!(rt; fault_of(&[0x54, 4, 0]), Some((4, 2)));
        assert_eq!(rt; fault_of(&[0x54, 4, 1, 129]), Some((5, 3)));
    }

    #[test]
    fn a_byte_too_many(rt: HostRuntime) {
        assert_eq!(rt; fault_of(&TWO_IN_TURN), Some((6, 48)));
    }

    #[test]
    fn a_letter_that_is_none(rt: HostRuntime) {
        let mut file = TWO_IN_TURN;
        file[43] = b'l';
        assert_eq!(rt; fault_of(&file[0..48]), Some((5, 43)));
    }

    #[test]
    fn gaps_at_their_bound(rt: HostRuntime) {
        let mut file = TWO_IN_TURN;
        file[46] = 254;
        assert_eq!(rt; fault_of(&file[0..48]), None);
        file[46] = 255;
        assert_eq!(rt; fault_of(&file[0..48]), Some((5, 46)));
    }

    #[test]
    fn horizons_at_their_bound(rt: HostRuntime) {
        let mut file = [0u8; 520];
        file[0] = b'T';
        file[1] = 128;
        file[2] = 1;
        file[4] = 128;
        assert_eq!(rt; fault_of(&file), None);
        file[1] = 129;
        assert_eq!(rt; fault_of(&file), Some((2, 1)));
    }
}
