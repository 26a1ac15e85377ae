//! Tables read at the edges of their limits, and every refusal that a table gets.
#![tactic(auto)]

#[cfg(test)]
mod tests {
    use std::alloc::{AllocError, Global};
    use std::process::Abort;
    use std::test::Fail;
    use table::Table;
    use text::Refusal;

    // The number, line and field of a refusal; or 0, the number of facts and the number of jobs.
    // Numbers in place of a Result: each of the many cases is one short line, to be read beside docs/REFUSALS.md.
    type Outcome = (u8, u32, u32);

    fn read(text: &[u8]) -> Outcome {
        match Table::read(text) {
            Ok(table) => (0, small(table.fact_count()), small(table.job_count())),
            Err(fault) => {
                let Refusal {
                    number,
                    line,
                    field,
                } = fault.refusal();
                (number, line, field)
            }
        }
    }

    fn small(n: usize) -> u32 {
        u32::try_from(n).unwrap_or(u32::MAX)
    }

    fn check_all(rt: &impl Abort, cases: &[(&str, Outcome)]) {
        for (text, outcome) in cases {
            assert_eq!(rt; read(text.as_bytes()), *outcome, "{}", *text);
        }
    }

    // As many lines of this tag, each with a name of its own and then the same fields.
    fn many(heap: Global, tag: &str, count: u32, fields: &str) -> Result<String, AllocError> {
        let mut text = String::new(heap);
        // Each number is part of a name, and indexes nothing.
        for i in 0..count {
            writeln!(text, "{tag}\tn{i}{fields}")?;
        }
        Ok(text)
    }

    // As many lines of this tag, and then one more.
    fn after(
        rt: &HostRuntime,
        tag: &str,
        count: u32,
        fields: &str,
        last: &str,
    ) -> Result<Outcome, AllocError> {
        let mut text = many(rt.alloc(), tag, count, fields)?;
        text.push_str(last)?;
        Ok(read(text.as_bytes()))
    }

    // A byte again and again, and then a last one.
    fn row_of(rt: &HostRuntime, b: u8, count: usize, last: u8) -> Result<Outcome, AllocError> {
        let mut text = vec![in rt.alloc(); b; count]?;
        text.push(last)?;
        Ok(read(text.as_slice()))
    }

    #[test]
    fn good_tables(rt: HostRuntime) {
        check_all(
            &rt,
            &[
                ("", (0, 0, 0)),
                ("N\ta\n", (0, 1, 0)),
                ("D\ta\t.\t.\n", (0, 0, 1)),
                ("N\ta\nN\tA\nD\ta\t+a -A\t-A +a\nD\tA\t.\t+A\n", (0, 2, 2)),
                ("N\tZz_09\nN\tabcdefghijklmnopqrstuvwx\n", (0, 2, 0)),
            ],
        );
    }

    #[test]
    fn faults_of_the_whole(rt: HostRuntime) {
        assert_eq!(rt; read(b"N\ta\nN\tb\x80\n"), (2, 2, 2));
        check_all(
            &rt,
            &[
                ("\0", (2, 1, 1)),
                ("N\ta\r\n", (2, 1, 2)),
                ("X\nN\ta\nD\ta\t.\t\u{7f}", (2, 3, 4)),
                ("\u{ff}", (2, 1, 1)),
                ("N", (3, 1, 0)),
                ("\t", (3, 1, 0)),
                ("X\nN\ta", (3, 2, 0)),
            ],
        );
    }

    #[test]
    fn faults_of_lines(rt: HostRuntime) {
        check_all(
            &rt,
            &[
                ("\n", (4, 1, 1)),
                ("N\ta\n\n", (4, 2, 1)),
                ("n\ta\n", (4, 1, 1)),
                ("NN\ta\n", (4, 1, 1)),
                (" N\ta\n", (4, 1, 1)),
                ("\tN\ta\n", (4, 1, 1)),
                ("B\t.\n", (4, 1, 1)),
                ("D\ta\t.\t.\nE\ta\n", (4, 2, 1)),
                ("D\ta\t.\t.\nN\ta\n", (12, 2, 1)),
                ("D\ta\t.\t.\nN\n", (12, 2, 1)),
                ("N\n", (5, 1, 1)),
                ("N\ta\t\n", (5, 1, 1)),
                ("D\ta\t.\n", (5, 1, 1)),
                ("N\ta\nD\ta\t.\t.\t.\n", (5, 2, 1)),
            ],
        );
    }

    #[test]
    fn faults_of_names(rt: HostRuntime) {
        check_all(
            &rt,
            &[
                ("N\t\n", (6, 1, 2)),
                ("N\t1a\n", (6, 1, 2)),
                ("N\t_a\n", (6, 1, 2)),
                ("N\ta-b\n", (6, 1, 2)),
                ("N\ta \n", (6, 1, 2)),
                ("N\t+a\n", (6, 1, 2)),
                ("N\tabcdefghijklmnopqrstuvwxy\n", (6, 1, 2)),
                ("D\t.\tx\t.\n", (6, 1, 2)),
                ("N\ta\nN\ta\n", (10, 2, 2)),
                ("N\ta\nN\tb\nN\ta\n", (10, 3, 2)),
                ("D\ta\t.\t.\nD\ta\tx\t.\n", (10, 2, 2)),
            ],
        );
    }

    #[test]
    fn faults_of_states(rt: HostRuntime) {
        check_all(
            &rt,
            &[
                ("N\ta\nD\tj\t\t.\n", (6, 2, 3)),
                ("N\ta\nD\tj\t.\t\n", (6, 2, 4)),
                ("N\ta\nD\tj\t+\t.\n", (6, 2, 3)),
                ("N\ta\nD\tj\t+.\t.\n", (6, 2, 3)),
                ("N\ta\nD\tj\t+-a\t.\n", (6, 2, 3)),
                ("N\ta\nD\tj\t..\t.\n", (6, 2, 3)),
                ("N\ta\nN\tb\nD\tj\t.\t+a  +b\n", (6, 3, 4)),
                ("N\ta\nD\tj\t.\t+a \n", (6, 2, 4)),
                ("N\ta\nD\tj\t .\t.\n", (6, 2, 3)),
                ("N\ta\nD\tj\ta\t.\n", (7, 2, 3)),
                ("N\ta\nD\tj\t.\t+a a\n", (7, 2, 4)),
                ("N\ta\nD\tj\t.\tb\n", (7, 2, 4)),
                ("N\ta\nD\tj\t+A\t.\n", (8, 2, 3)),
                ("N\ta\nD\tj\t.\t+a -j\n", (8, 2, 4)),
                ("N\ta\nD\tj\t+a +a\t.\n", (9, 2, 3)),
                ("N\ta\nN\tb\nD\tj\t.\t+a +b -a\n", (9, 3, 4)),
                ("N\ta\nD\tj\t+a +a +b\tb\n", (9, 2, 3)),
            ],
        );
    }

    #[test]
    fn the_most_lines(rt: HostRuntime) -> Result<(), Fail> {
        assert_eq!(rt;
            after(&rt, "N", 256, "", "D\tj\t-n0 +n255\t.\n")?,
            (0, 256, 1)
        );
        assert_eq!(rt; after(&rt, "N", 256, "", "N\tn256\n")?, (11, 257, 1));
        assert_eq!(rt; after(&rt, "N", 256, "", "N\t?\n")?, (11, 257, 1));
        assert_eq!(rt; after(&rt, "N", 256, "", "N\n")?, (5, 257, 1));
        assert_eq!(rt; after(&rt, "N", 255, "", "N\tn254\n")?, (10, 256, 2));
        assert_eq!(rt;
            after(&rt, "D", 127, "\t.\t.", "D\tn127\t.\t.\n")?,
            (0, 0, 128)
        );
        assert_eq!(rt;
            after(&rt, "D", 128, "\t.\t.", "D\tn0\t.\t.\n")?,
            (11, 129, 1)
        );
        assert_eq!(rt;
            after(&rt, "D", 128, "\t.\t.", "D\tn128\t.\n")?,
            (5, 129, 1)
        );
        assert_eq!(rt; after(&rt, "D", 128, "\t.\t.", "N\ta\n")?, (12, 129, 1));
        assert_eq!(rt;
            after(&rt, "D", 127, "\t.\t.", "D\tn0\t.\t.\n")?,
            (10, 128, 2)
        );
        Ok(())
    }

    #[test]
    fn the_most_bytes(rt: HostRuntime) -> Result<(), Fail> {
        assert_eq!(rt; row_of(&rt, b'a', 1048575, b'a')?, (3, 1, 0));
        assert_eq!(rt; row_of(&rt, b'a', 1048576, b'a')?, (1, 0, 0));
        assert_eq!(rt; row_of(&rt, b'a', 1048576, 0)?, (1, 0, 0));
        assert_eq!(rt; row_of(&rt, b'a', 1048575, b'\n')?, (4, 1, 1));
        assert_eq!(rt; row_of(&rt, b'\n', 1048575, b'a')?, (3, 1048576, 0));
        assert_eq!(rt; row_of(&rt, b'\n', 1048575, 0)?, (2, 1048576, 1));
        assert_eq!(rt; row_of(&rt, b'\t', 1048575, 0)?, (2, 1, 1048576));
        Ok(())
    }
}
