//! Bare lists read at the edges of their limits, and every refusal that a list gets.
#![tactic(auto)]

#[cfg(test)]
mod tests {
    use facts::Mark;
    use listing::read_list;
    use std::alloc::{AllocError, Global};
    use std::process::Abort;
    use std::test::Fail;
    use table::Table;

    // The number, line and field of a refusal; or 0, the number of jobs and 0. One tuple for both: the cases are a line each.
    type Outcome = (u8, u32, u32);

    // The table of one hut.
    const HUT: &str =
        "N\tfree\nN\tclean\nN\tgas\nD\tsweep\t+free -gas\t+clean\nD\topen_gas\t+clean\t+gas\n";

    fn read(table: &Table, list: &[u8]) -> Outcome {
        match read_list(table, list) {
            Ok(draft) => (0, u32::try_from(draft.numbers.len()).unwrap_or(u32::MAX), 0),
            Err(fault) => {
                let refusal = fault.refusal();
                (refusal.number, refusal.line, refusal.field)
            }
        }
    }

    fn check_all(rt: &impl Abort, cases: &[(&str, Outcome)]) -> Result<(), Fail> {
        let table = Table::read(HUT.as_bytes())?;
        for (list, outcome) in cases {
            assert_eq!(rt; read(&table, list.as_bytes()), *outcome, "{}", *list);
        }
        Ok(())
    }

    // A list of as many jobs, and then a last line.
    fn jobs(heap: Global, count: usize, last: &str) -> Result<String, AllocError> {
        let mut text = String::from_str(heap, "B\t.\nG\t.\n")?;
        let lines = "E\tsweep\n".repeat(heap, count)?;
        text.push_str(lines.as_str())?;
        text.push_str(last)?;
        Ok(text)
    }

    #[test]
    fn good_lists(rt: HostRuntime) -> Result<(), Fail> {
        check_all(
            &rt,
            &[
                ("B\t.\nG\t.\n", (0, 0, 0)),
                (
                    "B\t+free -gas\nG\t+clean +gas\nE\tsweep\nE\topen_gas\n",
                    (0, 2, 0),
                ),
                ("B\t-gas +free\nG\t.\nE\topen_gas\nE\topen_gas\n", (0, 2, 0)),
            ],
        )?;
        let table = Table::read(HUT.as_bytes())?;
        let draft = read_list(&table, b"B\t-gas +free\nG\t+clean\nE\topen_gas\nE\tsweep\n")?;
        assert_eq!(rt; draft.opening.mark(0), Mark::Holds);
        assert_eq!(rt; draft.opening.mark(2), Mark::Fails);
        assert_eq!(rt; draft.goal.mark(1), Mark::Holds);
        assert_eq!(rt; draft.numbers.as_slice(), [1u8, 0].as_slice());
        Ok(())
    }

    #[test]
    fn faults_of_the_whole_and_of_lines(rt: HostRuntime) -> Result<(), Fail> {
        check_all(
            &rt,
            &[
                ("\0", (2, 1, 1)),
                ("B\t.\nG\t.\nX\r\n", (2, 3, 1)),
                ("X\nE", (3, 2, 0)),
                ("\n", (4, 1, 1)),
                ("A\tsweep\n", (4, 1, 1)),
                ("B\t.\nG\t.\nH\n", (4, 3, 1)),
                ("B\t.\nG\t.\nEE\tsweep\n", (4, 3, 1)),
                ("G\t.\n", (12, 1, 1)),
                ("E\tsweep\n", (12, 1, 1)),
                ("B\t.\nB\n", (12, 2, 1)),
                ("B\t.\nG\t.\nG\t.\n", (12, 3, 1)),
                ("", (12, 1, 0)),
                ("B\t.\n", (12, 2, 0)),
                ("B\n", (5, 1, 1)),
                ("B\t.\nG\t.\t\n", (5, 2, 1)),
                ("B\t.\nG\t.\nE\n", (5, 3, 1)),
            ],
        )
    }

    #[test]
    fn faults_of_fields(rt: HostRuntime) -> Result<(), Fail> {
        check_all(
            &rt,
            &[
                ("B\t\nG\n", (6, 1, 2)),
                ("B\tfree\n", (7, 1, 2)),
                ("B\t.\nG\t+wet\n", (8, 2, 2)),
                ("B\t.\nG\t+gas -gas\n", (9, 2, 2)),
                ("B\t.\nG\t.\nE\t\n", (6, 3, 2)),
                ("B\t.\nG\t.\nE\tsweep\nE\tfree\n", (8, 4, 2)),
            ],
        )
    }

    #[test]
    fn the_most_jobs(rt: HostRuntime) -> Result<(), Fail> {
        let table = Table::read(HUT.as_bytes())?;
        let full = jobs(rt.alloc(), 64, "")?;
        assert_eq!(rt; read(&table, full.as_bytes()), (0, 64, 0));
        let more = jobs(rt.alloc(), 64, "E\t?\n")?;
        assert_eq!(rt; read(&table, more.as_bytes()), (28, 67, 1));
        let bare = jobs(rt.alloc(), 64, "E\n")?;
        assert_eq!(rt; read(&table, bare.as_bytes()), (5, 67, 1));
        Ok(())
    }
}
