//! Slips checked at the edges of every rule and limit, and every refusal that a slip gets.
#![tactic(auto)]

#[cfg(test)]
mod tests {
    use facts::{Mark, State};
    use slip::{Plan, Work};
    use std::alloc::{AllocError, Global};
    use std::process::Abort;
    use std::test::Fail;
    use table::Table;

    // The number, line and field of a refusal; or 0, the number of jobs and 0.
    // Numbers in place of a Result: each of the many cases is one short line, to be read beside docs/REFUSALS.md.
    type Outcome = (u8, u32, u32);

    // The table of one hut.
    const HUT: &str =
        "N\tfree\nN\tclean\nN\tgas\nD\tsweep\t+free -gas\t+clean\nD\topen_gas\t+clean\t+gas\n";

    // Three facts, and jobs that need nothing.
    const TRIO: &str =
        "N\ta\nN\tb\nN\tc\nD\tset_a\t.\t+a\nD\tset_b\t.\t+b\nD\tset_c\t.\t+c\nD\tclear_a\t.\t-a\nD\tidle\t.\t.\n";

    fn judge(table: &Table, slip: &[u8], work: &mut Work) -> Outcome {
        match slip::check(table, slip, work) {
            Ok(plan) => (0, small(plan.jobs().len()), 0),
            Err(fault) => {
                let refusal = fault.refusal();
                (refusal.number, refusal.line, refusal.field)
            }
        }
    }

    fn small(n: usize) -> u32 {
        u32::try_from(n).unwrap_or(u32::MAX)
    }

    // All in one work area.
    fn check_all(rt: &impl Abort, table: &str, cases: &[(&str, Outcome)]) -> Result<(), Fail> {
        let table = Table::read(table.as_bytes())?;
        let mut work = Work::new();
        for (slip, outcome) in cases {
            assert_eq!(rt;
                judge(&table, slip.as_bytes(), &mut work),
                *outcome,
                "{}",
                *slip
            );
        }
        Ok(())
    }

    // The first lines, some lines again and again, and the last lines.
    fn tall(
        heap: Global,
        first: &str,
        lines: &str,
        count: usize,
        last: &str,
    ) -> Result<String, AllocError> {
        let repeated = lines.repeat(heap, count)?;
        format!(in heap; "{first}{repeated}{last}")
    }

    // Slips of no opening and no goal, each with some lines again and again, and then the last lines.
    fn check_tall(
        rt: &(impl Abort + AllocGlobal),
        table: &str,
        cases: &[(&str, usize, &str, Outcome)],
    ) -> Result<(), Fail> {
        let table = Table::read(table.as_bytes())?;
        let mut work = Work::new();
        for (lines, count, last, outcome) in cases {
            let slip = tall(rt.alloc(), "B\t.\nG\t.\n", *lines, *count, *last)?;
            assert_eq!(rt;
                judge(&table, slip.as_bytes(), &mut work),
                *outcome,
                "{}; {}",
                *lines,
                *last
            );
        }
        Ok(())
    }

    #[test]
    fn good_slips(rt: HostRuntime) -> Result<(), Fail> {
        check_all(
            &rt,
            HUT,
            &[
                ("B\t.\nG\t.\nH\n", (0, 0, 0)),
                ("B\t-gas +free\nG\t-gas +clean +free\nA\tsweep\n", (0, 1, 0)),
                (
                    "B\t+free -gas\nG\t+clean +gas\nC\nA\tsweep\nA\topen_gas\n",
                    (0, 2, 0),
                ),
                (
                    "B\t+free -gas\nG\t+gas +clean +free\nC\nA\tsweep\nF\t+free\nA\topen_gas\n",
                    (0, 2, 0),
                ),
                ("B\t+clean\nG\t.\nC\nA\topen_gas\nH\n", (0, 1, 0)),
                (
                    "B\t+clean\nG\t+clean +gas\nC\nF\t+clean\nH\nA\topen_gas\n",
                    (0, 1, 0),
                ),
                ("B\t.\nG\t.\nC\nH\nC\nC\nH\nH\nH\n", (0, 0, 0)),
                (
                    "B\t+clean\nG\t+clean +gas\nW\t+clean\nA\topen_gas\n",
                    (0, 1, 0),
                ),
                (
                    "B\t-gas +clean\nG\t+clean +gas\nW\t+clean -gas\nA\topen_gas\n",
                    (0, 1, 0),
                ),
                ("B\t+gas\nG\t.\nW\t+gas\nH\n", (0, 0, 0)),
                (
                    "B\t+clean\nG\t+gas +clean\nS\t+gas +clean\nA\topen_gas\n",
                    (0, 1, 0),
                ),
                ("B\t+clean\nG\t.\nS\t.\nA\topen_gas\n", (0, 1, 0)),
                (
                    "B\t-free +gas\nG\t+gas -free\nF\t+gas -free\nH\n",
                    (0, 0, 0),
                ),
                ("B\t.\nG\t.\nF\t.\nS\t.\nW\t.\nH\n", (0, 0, 0)),
            ],
        )
    }

    #[test]
    fn small_tables(rt: HostRuntime) -> Result<(), Fail> {
        check_all(
            &rt,
            "",
            &[
                ("B\t.\nG\t.\nH\n", (0, 0, 0)),
                ("B\t.\nG\t.\nA\ta\n", (8, 3, 2)),
            ],
        )?;
        check_all(
            &rt,
            "N\ta\nD\ta\t-a\t+a\n",
            &[
                ("B\t-a\nG\t+a\nA\ta\n", (0, 1, 0)),
                ("B\t-a\nG\t-a\nS\t-a\nA\ta\n", (25, 3, 2)),
                ("B\t-a\nG\t+a\nC\nA\ta\nA\ta\n", (24, 3, 1)),
            ],
        )
    }

    #[test]
    fn faults_of_the_whole(rt: HostRuntime) -> Result<(), Fail> {
        check_all(
            &rt,
            HUT,
            &[
                ("\0", (2, 1, 1)),
                ("\u{1f}", (2, 1, 1)),
                ("B\u{b}", (2, 1, 1)),
                ("~ \n", (4, 1, 1)),
                ("B\t.\r\n", (2, 1, 2)),
                ("B\t.\nG\t\u{ff}\n", (2, 2, 2)),
                ("X\nG\t.\nW\t.\nA\tsweep\u{7f}", (2, 4, 2)),
                ("B\t.\nG\t.\nH\nH\t\t\0", (2, 4, 3)),
                ("B", (3, 1, 0)),
                ("\t", (3, 1, 0)),
                ("B\t.\nG\t.\nH", (3, 3, 0)),
                ("B\t.\nG\t.\nH\n ", (3, 4, 0)),
                ("X\nH", (3, 2, 0)),
            ],
        )
    }

    #[test]
    fn wrong_tags(rt: HostRuntime) -> Result<(), Fail> {
        check_all(
            &rt,
            HUT,
            &[
                ("\n", (4, 1, 1)),
                ("N\tfree\n", (4, 1, 1)),
                ("D\n", (4, 1, 1)),
                ("E\t.\n", (4, 1, 1)),
                ("b\t.\n", (4, 1, 1)),
                ("BB\t.\n", (4, 1, 1)),
                (" B\t.\n", (4, 1, 1)),
                ("\tB\t.\n", (4, 1, 1)),
                ("B\t.\n\n", (4, 2, 1)),
                ("B\t.\nE\t.\n", (4, 2, 1)),
                ("B\t.\nG\t.\n\n", (4, 3, 1)),
                ("B\t.\nG\t.\nH \n", (4, 3, 1)),
                ("B\t.\nG\t.\nD\tsweep\t.\t.\n", (4, 3, 1)),
                ("B\t.\nG\t.\nC\nH\nN\tfree\n", (4, 5, 1)),
                ("B\t.\nG\t.\nF\t+gas\nE\t.\n", (4, 4, 1)),
            ],
        )
    }

    #[test]
    fn lines_out_of_order(rt: HostRuntime) -> Result<(), Fail> {
        check_all(
            &rt,
            HUT,
            &[
                ("", (12, 1, 0)),
                ("B\t.\n", (12, 2, 0)),
                ("G\t.\nB\t.\nH\n", (12, 1, 1)),
                ("G\n", (12, 1, 1)),
                ("H\n", (12, 1, 1)),
                ("A\tsweep\t\n", (12, 1, 1)),
                ("B\t.\nB\t.\n", (12, 2, 1)),
                ("B\t.\nB\n", (12, 2, 1)),
                ("B\t.\nH\nG\t.\n", (12, 2, 1)),
                ("B\t.\nW\n", (12, 2, 1)),
                ("B\t.\nG\t.\nB\t.\nH\n", (12, 3, 1)),
                ("B\t.\nG\t.\nG\t.\nH\n", (12, 3, 1)),
                ("B\t.\nG\t.\nC\nH\nB\n", (12, 5, 1)),
                ("B\t.\nG\t.\nS\t.\nG\t+x\n", (12, 4, 1)),
            ],
        )
    }

    #[test]
    fn wrong_numbers_of_fields(rt: HostRuntime) -> Result<(), Fail> {
        check_all(
            &rt,
            HUT,
            &[
                ("B\nX\n", (5, 1, 1)),
                ("B\t.\t\n", (5, 1, 1)),
                ("B\t.\nG\n", (5, 2, 1)),
                ("B\t.\nG\t?\t.\n", (5, 2, 1)),
                ("B\t.\nG\t.\nH\t\n", (5, 3, 1)),
                ("B\t.\nG\t.\nA\n", (5, 3, 1)),
                ("B\t.\nG\t.\nA\tsweep\t\n", (5, 3, 1)),
                ("B\t.\nG\t.\nC\t.\n", (5, 3, 1)),
                ("B\t.\nG\t.\nW\n", (5, 3, 1)),
                ("B\t.\nG\t.\nW\t.\t.\n", (5, 3, 1)),
                ("B\t.\nG\t.\nS\n", (5, 3, 1)),
                ("B\t.\nG\t.\nS\t?\t\t\n", (5, 3, 1)),
                ("B\t.\nG\t.\nF\n", (5, 3, 1)),
                ("B\t.\nG\t.\nF\t.\t\n", (5, 3, 1)),
            ],
        )
    }

    #[test]
    fn faults_of_the_two_states(rt: HostRuntime) -> Result<(), Fail> {
        check_all(
            &rt,
            HUT,
            &[
                ("B\t\n", (6, 1, 2)),
                ("B\t+\nG\n", (6, 1, 2)),
                ("B\t..\n", (6, 1, 2)),
                ("B\t+free  -gas\n", (6, 1, 2)),
                ("B\t.\nG\t+free \n", (6, 2, 2)),
                ("B\t.\nG\t .\n", (6, 2, 2)),
                ("B\tfree\n", (7, 1, 2)),
                ("B\t.\nG\tx\n", (7, 2, 2)),
                ("B\t+gas x +gas\n", (7, 1, 2)),
                ("B\t+Free\n", (8, 1, 2)),
                ("B\t.\nG\t-free +sweep\n", (8, 2, 2)),
                ("B\t+gas -gas\n", (9, 1, 2)),
                ("B\t.\nG\t+gas -free +gas x\n", (9, 2, 2)),
            ],
        )
    }

    #[test]
    fn faults_of_rule_fields(rt: HostRuntime) -> Result<(), Fail> {
        check_all(
            &rt,
            HUT,
            &[
                ("B\t.\nG\t.\nA\t\n", (6, 3, 2)),
                ("B\t.\nG\t.\nA\t+sweep\n", (6, 3, 2)),
                ("B\t.\nG\t.\nA\tabcdefghijklmnopqrstuvwxy\n", (6, 3, 2)),
                ("B\t.\nG\t.\nA\tabcdefghijklmnopqrstuvwx\n", (8, 3, 2)),
                ("B\t.\nG\t.\nA\tSweep\n", (8, 3, 2)),
                ("B\t.\nG\t.\nA\tswee\nX\n", (8, 3, 2)),
                ("B\t.\nG\t.\nA\tfree\n", (8, 3, 2)),
                ("B\t.\nG\t.\nW\t\n", (6, 3, 2)),
                ("B\t.\nG\t.\nW\tgas\nX\n", (7, 3, 2)),
                ("B\t.\nG\t.\nW\t+open_gas\n", (8, 3, 2)),
                ("B\t.\nG\t.\nW\t+free -free\n", (9, 3, 2)),
                ("B\t.\nG\t.\nS\t+.\n", (6, 3, 2)),
                ("B\t.\nG\t.\nS\t+gas gas\n", (7, 3, 2)),
                ("B\t.\nG\t.\nS\t-x\n", (8, 3, 2)),
                ("B\t.\nG\t.\nS\t+gas +gas\nH\n", (9, 3, 2)),
                ("B\t.\nG\t.\nF\t-\n", (6, 3, 2)),
                ("B\t.\nG\t.\nF\tgas -x\n", (7, 3, 2)),
                ("B\t.\nG\t.\nF\t+x\nX\n", (8, 3, 2)),
                ("B\t.\nG\t.\nC\nH\nF\t-gas +free +gas\n", (9, 5, 2)),
            ],
        )
    }

    #[test]
    fn ends_of_the_text(rt: HostRuntime) -> Result<(), Fail> {
        check_all(
            &rt,
            HUT,
            &[
                ("B\t.\nG\t.\n", (21, 3, 0)),
                ("B\t.\nG\t.\nC\n", (21, 4, 0)),
                ("B\t.\nG\t.\nC\nH\n", (21, 5, 0)),
                ("B\t.\nG\t.\nC\nC\nH\nH\n", (21, 7, 0)),
                ("B\t+gas\nG\t.\nW\t.\n", (21, 4, 0)),
                ("B\t.\nG\t.\nS\t+gas\n", (21, 4, 0)),
                ("B\t.\nG\t.\nF\t+gas\n", (21, 4, 0)),
                ("B\t.\nG\t.\nH\nH\n", (22, 4, 1)),
                ("B\t.\nG\t.\nH\n\n", (22, 4, 1)),
                ("B\t.\nG\t.\nH\nB\t.\n", (22, 4, 1)),
                ("B\t.\nG\t.\nH\nA\nH\n", (22, 4, 1)),
                ("B\t+gas\nG\t.\nC\nH\nH\nC\n", (22, 6, 1)),
                ("B\t+clean\nG\t+clean +gas\nA\topen_gas\nA\t?\n", (22, 4, 1)),
            ],
        )
    }

    #[test]
    fn states_not_covered(rt: HostRuntime) -> Result<(), Fail> {
        check_all(
            &rt,
            HUT,
            &[
                ("B\t.\nG\t.\nW\t.\nA\topen_gas\n", (23, 3, 2)),
                ("B\t.\nG\t.\nW\t-clean\nA\topen_gas\n", (23, 3, 2)),
                ("B\t.\nG\t.\nW\t+free\nA\tsweep\n", (23, 3, 2)),
                ("B\t.\nG\t.\nW\t+clean +gas +free\nA\tsweep\n", (23, 3, 2)),
                ("B\t.\nG\t.\nC\nH\nA\topen_gas\n", (24, 3, 1)),
                (
                    "B\t.\nG\t.\nC\nF\t+free\nA\topen_gas\nA\tsweep\n",
                    (24, 3, 1),
                ),
                ("B\t.\nG\t.\nC\nH\nC\nA\topen_gas\nA\tsweep\n", (24, 5, 1)),
                ("B\t.\nG\t.\nC\nH\nC\nA\tsweep\nA\topen_gas\n", (24, 3, 1)),
                (
                    "B\t.\nG\t.\nC\nS\t+free\nA\tsweep\nA\topen_gas\n",
                    (24, 3, 1),
                ),
                ("B\t.\nG\t.\nS\t+gas\nH\n", (25, 3, 2)),
                ("B\t.\nG\t.\nS\t-gas\nA\topen_gas\n", (25, 3, 2)),
                (
                    "B\t.\nG\t.\nS\t+clean +gas +free\nA\topen_gas\n",
                    (25, 3, 2),
                ),
                ("B\t.\nG\t.\nS\t-gas\nS\t+clean\nA\tsweep\n", (25, 3, 2)),
            ],
        )
    }

    #[test]
    fn frames_of_named_facts(rt: HostRuntime) -> Result<(), Fail> {
        check_all(
            &rt,
            HUT,
            &[
                ("B\t.\nG\t.\nF\t+clean\nA\topen_gas\n", (27, 3, 2)),
                ("B\t.\nG\t.\nF\t-clean +free\nA\topen_gas\n", (27, 3, 2)),
                ("B\t.\nG\t.\nF\t-gas\nA\tsweep\n", (27, 3, 2)),
                ("B\t.\nG\t.\nF\t+clean\nS\t+gas\nA\topen_gas\n", (27, 3, 2)),
                (
                    "B\t.\nG\t.\nF\t+free\nW\t+free +clean\nA\topen_gas\n",
                    (27, 3, 2),
                ),
                ("B\t.\nG\t.\nF\t+gas\nF\t+gas\nH\n", (27, 3, 2)),
                ("B\t.\nG\t.\nF\t+free\nF\t+gas\nF\t-gas\nH\n", (27, 4, 2)),
                ("B\t.\nG\t.\nF\t+gas\nC\nF\t-gas\nH\nH\n", (27, 3, 2)),
                ("B\t.\nG\t.\nF\t+gas\nA\topen_gas\n", (26, 4, 2)),
                ("B\t.\nG\t.\nF\t-gas\nA\topen_gas\n", (26, 4, 2)),
                ("B\t.\nG\t.\nF\t+free +clean\nA\tsweep\n", (26, 4, 2)),
                (
                    "B\t+clean -free\nG\t+clean -free +gas\nF\t-free\nA\topen_gas\n",
                    (0, 1, 0),
                ),
            ],
        )
    }

    // A job changes a framed fact, and neither end of the premise names that fact.
    #[test]
    fn changes_between_the_ends(rt: HostRuntime) -> Result<(), Fail> {
        check_all(
            &rt,
            HUT,
            &[
                (
                    "B\t+clean -gas\nG\t+clean -gas\nF\t-gas\nS\t+clean\nA\topen_gas\n",
                    (26, 5, 2),
                ),
                ("B\t+clean\nG\t+clean\nS\t+clean\nA\topen_gas\n", (0, 1, 0)),
                (
                    "B\t+clean -gas\nG\t-gas\nF\t-gas\nC\nA\topen_gas\nH\n",
                    (26, 5, 2),
                ),
                (
                    "B\t+clean -gas\nG\t+clean -gas\nF\t-gas\nC\nA\topen_gas\nF\t+clean\nH\n",
                    (26, 5, 2),
                ),
                (
                    "B\t+clean\nG\t+clean\nC\nA\topen_gas\nF\t+clean\nH\n",
                    (0, 1, 0),
                ),
            ],
        )?;
        check_all(
            &rt,
            TRIO,
            &[
                (
                    "B\t-a\nG\t-a +b\nF\t-a\nC\nA\tset_a\nA\tset_b\n",
                    (26, 5, 2),
                ),
                ("B\t.\nG\t+b\nC\nA\tset_a\nA\tset_b\n", (0, 2, 0)),
                (
                    "B\t-b\nG\t-b\nF\t-b\nC\nA\tset_a\nS\t.\nA\tset_b\n",
                    (26, 7, 2),
                ),
                (
                    "B\t-a\nG\t-a\nF\t-a\nS\t.\nC\nA\tset_a\nA\tclear_a\n",
                    (26, 6, 2),
                ),
                (
                    "B\t-c\nG\t-c\nF\t-c\nS\t.\nC\nA\tset_a\nA\tclear_a\n",
                    (0, 2, 0),
                ),
            ],
        )
    }

    #[test]
    fn frames_in_frames(rt: HostRuntime) -> Result<(), Fail> {
        check_all(
            &rt,
            TRIO,
            &[
                ("B\t+c +b\nG\t+a +b +c\nF\t+b\nF\t+c\nA\tset_a\n", (0, 1, 0)),
                ("B\t.\nG\t.\nF\t+a\nF\t+b\nA\tset_a\n", (26, 5, 2)),
                ("B\t.\nG\t.\nF\t+b\nF\t+a\nA\tset_a\n", (26, 5, 2)),
                (
                    "B\t.\nG\t.\nF\t-b\nF\t-a\nC\nA\tset_c\nA\tset_b\n",
                    (26, 7, 2),
                ),
                ("B\t.\nG\t.\nF\t+a\nA\tclear_a\n", (26, 4, 2)),
                ("B\t.\nG\t.\nF\t-a\nA\tclear_a\n", (26, 4, 2)),
                ("B\t.\nG\t.\nF\t+a\nC\nF\t+b\nH\nA\tset_a\n", (26, 7, 2)),
                ("B\t.\nG\t.\nF\t+a\nC\nF\t-a\nH\nA\tset_a\n", (26, 7, 2)),
                (
                    "B\t.\nG\t.\nF\t+c\nC\nF\t+b\nA\tset_a\nA\tset_c\n",
                    (26, 7, 2),
                ),
                (
                    "B\t+c +b\nG\t+b +c\nF\t+c\nC\nF\t+b\nA\tset_a\nA\tset_b\n",
                    (0, 2, 0),
                ),
                ("B\t-a\nG\t+a\nC\nF\t-a\nH\nA\tset_a\n", (0, 1, 0)),
                ("B\t-a\nG\t+a\nC\nF\t-a\nA\tset_b\nA\tset_a\n", (0, 2, 0)),
                ("B\t.\nG\t+b +a\nC\nA\tset_a\nF\t+a\nA\tset_b\n", (0, 2, 0)),
                (
                    "B\t-b +a +c\nG\t+c +a -b\nF\t+a -b +c\nA\tidle\n",
                    (0, 1, 0),
                ),
            ],
        )
    }

    #[test]
    fn conditions_before_later_faults(rt: HostRuntime) -> Result<(), Fail> {
        check_all(
            &rt,
            HUT,
            &[
                ("B\t.\nG\t.\nW\t.\nA\topen_gas\nX\n", (23, 3, 2)),
                ("B\t.\nG\t.\nC\nW\t.\nA\topen_gas\nX\n", (23, 4, 2)),
                ("B\t.\nG\t.\nC\nW\t+clean\nA\topen_gas\nX\n", (4, 6, 1)),
                ("B\t.\nG\t.\nC\nW\t.\nA\topen_gas\n", (23, 4, 2)),
                ("B\t.\nG\t.\nC\nS\t+gas\nH\nB\t.\n", (25, 4, 2)),
                ("B\t.\nG\t.\nC\nH\nA\topen_gas\nH\n", (24, 3, 1)),
                ("B\t+gas\nG\t.\nC\nH\nA\topen_gas\n", (24, 3, 1)),
                ("B\t.\nG\t.\nC\nH\nA\tsweeps\n", (8, 5, 2)),
                ("B\t.\nG\t.\nF\t+gas\nF\t+gas\nH\nH\n", (27, 3, 2)),
                ("B\t.\nG\t.\nC\nF\t+clean\nA\topen_gas\nA\n", (27, 4, 2)),
                ("B\t.\nG\t.\nF\t+gas\nA\topen_gass\n", (8, 4, 2)),
                (
                    "B\t.\nG\t.\nF\t+gas\nC\nW\t.\nA\tsweep\nA\topen_gas\n",
                    (23, 5, 2),
                ),
            ],
        )
    }

    #[test]
    fn inner_conditions_first(rt: HostRuntime) -> Result<(), Fail> {
        check_all(
            &rt,
            HUT,
            &[
                ("B\t.\nG\t.\nW\t.\nS\t+free\nA\topen_gas\n", (25, 4, 2)),
                ("B\t.\nG\t.\nW\t.\nS\t+gas\nA\topen_gas\n", (23, 3, 2)),
                ("B\t.\nG\t.\nS\t+free\nW\t.\nA\topen_gas\n", (23, 4, 2)),
                ("B\t.\nG\t.\nC\nH\nF\t-clean\nA\topen_gas\n", (27, 5, 2)),
                ("B\t.\nG\t.\nF\t+clean\nC\nH\nA\topen_gas\n", (24, 4, 1)),
                ("B\t.\nG\t.\nF\t+gas\nW\t.\nA\topen_gas\n", (26, 5, 2)),
                ("B\t.\nG\t.\nC\nW\t.\nA\tsweep\nS\t+gas\nH\n", (23, 4, 2)),
            ],
        )
    }

    #[test]
    fn other_ends_than_wanted(rt: HostRuntime) -> Result<(), Fail> {
        check_all(
            &rt,
            HUT,
            &[
                ("B\t+gas\nG\t.\nH\n", (29, 1, 2)),
                ("B\t.\nG\t+gas\nH\n", (29, 2, 2)),
                ("B\t+gas\nG\t+gas\nH\n", (29, 1, 2)),
                ("B\t+clean +free\nG\t+clean +gas\nA\topen_gas\n", (29, 1, 2)),
                ("B\t.\nG\t+clean +gas\nA\topen_gas\n", (29, 1, 2)),
                ("B\t-clean\nG\t+clean +gas\nA\topen_gas\n", (29, 1, 2)),
                ("B\t+clean\nG\t+gas\nA\topen_gas\n", (29, 2, 2)),
                ("B\t+clean\nG\t+free +clean +gas\nA\topen_gas\n", (29, 2, 2)),
                ("B\t+clean\nG\t+clean -gas\nA\topen_gas\n", (29, 2, 2)),
                ("B\t+clean\nG\t.\nA\topen_gas\n", (29, 2, 2)),
            ],
        )
    }

    #[test]
    fn the_deepest(rt: HostRuntime) -> Result<(), Fail> {
        check_tall(
            &rt,
            HUT,
            &[
                ("F\t.\n", 79, "H\n", (0, 0, 0)),
                ("W\t.\n", 79, "H\n", (0, 0, 0)),
                ("S\t.\n", 79, "A\topen_gas\n", (29, 1, 2)),
                ("F\t.\n", 79, "", (21, 82, 0)),
                ("F\t.\n", 80, "", (21, 83, 0)),
                ("F\t.\n", 80, "H\n", (20, 83, 1)),
                ("W\t.\n", 80, "A\t?\n", (20, 83, 1)),
                ("S\t.\n", 80, "F\t+x\n", (20, 83, 1)),
                ("S\t.\n", 80, "C\nX\n", (20, 83, 1)),
                ("F\t.\n", 80, "H\t\n", (5, 83, 1)),
                ("F\t.\n", 80, "G\t.\n", (12, 83, 1)),
                ("F\t.\n", 80, "\n", (4, 83, 1)),
                ("F\t+gas\n", 80, "A\topen_gas\n", (20, 83, 1)),
            ],
        )
    }

    #[test]
    fn the_deepest_of_two_premises(rt: HostRuntime) -> Result<(), Fail> {
        check_tall(
            &rt,
            HUT,
            &[
                ("C\nH\n", 79, "H\n", (0, 0, 0)),
                ("C\nH\n", 79, "", (21, 161, 0)),
                ("C\nH\n", 79, "C\nH\n", (20, 162, 1)),
                ("C\n", 80, "H\n", (20, 83, 1)),
            ],
        )?;
        let table = Table::read(HUT.as_bytes())?;
        let mut work = Work::new();
        let left = tall(rt.alloc(), "B\t.\nG\t.\n", "C\n", 79, "")?;
        let slip = tall(rt.alloc(), left.as_str(), "H\n", 80, "")?;
        assert_eq!(rt; judge(&table, slip.as_bytes(), &mut work), (0, 0, 0));
        let first = tall(rt.alloc(), "B\t.\nG\t.\nC\n", "F\t.\n", 78, "H\n")?;
        let slip = tall(rt.alloc(), first.as_str(), "F\t.\n", 78, "H\n")?;
        assert_eq!(rt; judge(&table, slip.as_bytes(), &mut work), (0, 0, 0));
        let slip = tall(rt.alloc(), first.as_str(), "F\t.\n", 79, "H\n")?;
        assert_eq!(rt; judge(&table, slip.as_bytes(), &mut work), (20, 162, 1));
        Ok(())
    }

    #[test]
    fn the_most_jobs(rt: HostRuntime) -> Result<(), Fail> {
        check_tall(
            &rt,
            TRIO,
            &[
                ("C\nA\tidle\n", 63, "A\tidle\n", (0, 64, 0)),
                ("C\nA\tidle\n", 63, "A\tidle\nA\tidle\n", (22, 130, 1)),
                ("C\nA\tidle\n", 63, "A\tnone\n", (8, 129, 2)),
                ("C\nA\tidle\n", 64, "H\n", (0, 64, 0)),
                ("C\nA\tidle\n", 64, "A\tidle\n", (28, 131, 1)),
                ("C\nA\tidle\n", 64, "A\t?\n", (28, 131, 1)),
                ("C\nA\tidle\n", 64, "F\t+a\nA\tset_a\n", (28, 132, 1)),
                ("C\nA\tidle\n", 63, "F\t+a\nA\tset_a\n", (26, 130, 2)),
                ("C\nA\tidle\n", 64, "A\n", (5, 131, 1)),
                ("C\nA\tidle\n", 64, "W\t+x\n", (8, 131, 2)),
                ("C\nA\tidle\n", 64, "", (21, 131, 0)),
            ],
        )?;
        let table = Table::read(TRIO.as_bytes())?;
        let mut work = Work::new();
        let jobs = tall(rt.alloc(), "B\t.\nG\t.\n", "C\nA\tidle\n", 64, "")?;
        let slip = tall(rt.alloc(), jobs.as_str(), "F\t.\n", 15, "A\tidle\n")?;
        assert_eq!(rt; judge(&table, slip.as_bytes(), &mut work), (28, 146, 1));
        let slip = tall(rt.alloc(), jobs.as_str(), "F\t.\n", 16, "A\tidle\n")?;
        assert_eq!(rt; judge(&table, slip.as_bytes(), &mut work), (20, 147, 1));
        Ok(())
    }

    // A slip of 1,048,576 bytes without its last line: 262,139 times C, and as many times H.
    fn widest(heap: Global) -> Result<String, AllocError> {
        let mut text = format!(in heap; "B\t+ab\nG\t+ab\nF\t+ab\n")?;
        let mut full = format!(in heap; "H\n")?;
        for i in 0..18 {
            if i != 2 {
                text.push_str("C\n")?;
                text.push_str(full.as_str())?;
            }
            full = format!(in heap; "C\n{full}{full}")?;
        }
        Ok(text)
    }

    #[test]
    fn the_most_bytes(rt: HostRuntime) -> Result<(), Fail> {
        let table = Table::read(b"N\tab\n")?;
        let mut work = Work::new();
        let mut slip = widest(rt.alloc())?;
        assert_eq!(rt; slip.len(), 1048574);
        assert_eq!(rt; judge(&table, slip.as_bytes(), &mut work), (21, 524282, 0));
        slip.push_str("H")?;
        assert_eq!(rt; judge(&table, slip.as_bytes(), &mut work), (3, 524282, 0));
        slip.push_str("\n")?;
        assert_eq!(rt; judge(&table, slip.as_bytes(), &mut work), (0, 0, 0));
        slip.push_str("\0")?;
        assert_eq!(rt; judge(&table, slip.as_bytes(), &mut work), (1, 0, 0));
        Ok(())
    }

    #[test]
    fn the_last_fact_and_job(rt: HostRuntime) -> Result<(), Fail> {
        let mut text = String::new(rt.alloc());
        for i in 0..256u32 {
            writeln!(text, "N\tn{i}")?;
        }
        for i in 0..127u32 {
            writeln!(text, "D\tn{i}\t+n0\t-n0")?;
        }
        text.push_str("D\tlast\t+n254\t-n255\n")?;
        check_all(
            &rt,
            text.as_str(),
            &[
                (
                    "B\t+n254 +n0\nG\t-n255 +n0 +n254\nF\t+n0\nA\tlast\n",
                    (0, 1, 0),
                ),
                ("B\t.\nG\t.\nF\t+n255\nA\tlast\n", (26, 4, 2)),
                ("B\t.\nG\t.\nF\t+n254\nA\tlast\n", (27, 3, 2)),
                ("B\t.\nG\t.\nF\t-n0\nA\tn126\n", (26, 4, 2)),
                ("B\t.\nG\t.\nS\t+n255\nA\tlast\n", (25, 3, 2)),
                ("B\t.\nG\t.\nF\t+n256\nH\n", (8, 3, 2)),
                ("B\t.\nG\t.\nA\tn127\n", (8, 3, 2)),
                ("B\t+n254\nG\t-n255\nA\tlast\n", (29, 2, 2)),
            ],
        )?;
        let table = Table::read(text.as_bytes())?;
        let slip =
            b"B\t+n254 +n0\nG\t-n255\nW\t+n0 +n254\nC\nS\t+n254\nA\tlast\nS\t-n255\nA\tlast\n";
        let plan = slip::check(&table, slip, &mut Work::new())?;
        assert_eq!(rt; plan.count(), 256);
        assert!(rt; plan.numbers() == [127, 127].as_slice());
        assert!(rt; plan.names(0) && !plan.names(1) && plan.names(255) && !plan.names(256));
        Ok(())
    }

    // What is refused while facts are barred leaves none barred in the work area.
    #[test]
    fn free_after_a_refusal(rt: HostRuntime) -> Result<(), Fail> {
        let table = Table::read(HUT.as_bytes())?;
        let mut work = Work::new();
        let free = b"B\t+clean\nG\t+clean +gas\nA\topen_gas\n";
        let refused: &[(&str, Outcome)] = &[
            ("B\t.\nG\t.\nF\t+gas\nX\n", (4, 4, 1)),
            ("B\t.\nG\t.\nF\t-gas\n", (21, 4, 0)),
            ("B\t.\nG\t.\nF\t+gas\nA\tnone\n", (8, 4, 2)),
            ("B\t.\nG\t.\nF\t+gas\nA\topen_gas\n", (26, 4, 2)),
            ("B\t.\nG\t.\nF\t+gas\nF\t+free\nA\topen_gas\n", (26, 5, 2)),
            ("B\t.\nG\t.\nF\t-gas\nW\t.\nA\tsweep\n", (23, 4, 2)),
            ("B\t.\nG\t.\nF\t+gas\nA\tsweep\n", (27, 3, 2)),
        ];
        for (slip, outcome) in refused {
            assert_eq!(rt;
                judge(&table, slip.as_bytes(), &mut work),
                *outcome,
                "{}",
                *slip
            );
            assert_eq!(rt; judge(&table, free, &mut work), (0, 1, 0), "{}", *slip);
        }
        Ok(())
    }

    fn marks(state: &State) -> (Mark, Mark, Mark) {
        (state.mark(0), state.mark(1), state.mark(2))
    }

    #[test]
    fn parts_of_a_plan(rt: HostRuntime) -> Result<(), Fail> {
        let table = Table::read(HUT.as_bytes())?;
        let slip = b"B\t+free -gas\nG\t+gas +clean\nC\nA\tsweep\nA\topen_gas\n";
        let plan = slip::check(&table, slip, &mut Work::new())?;
        assert_eq!(rt; plan.count(), 3);
        assert_eq!(rt;
            marks(plan.opening()),
            (Mark::Holds, Mark::Unnamed, Mark::Fails)
        );
        assert_eq!(rt;
            marks(plan.goal()),
            (Mark::Unnamed, Mark::Holds, Mark::Holds)
        );
        assert_eq!(rt; plan.jobs().len(), 2);
        assert!(rt; plan.numbers() == [0, 1].as_slice());
        assert!(rt; plan.names(0) && plan.names(1) && plan.names(2) && !plan.names(3));
        Ok(())
    }

    #[test]
    fn numbers_of_the_most_jobs(rt: HostRuntime) -> Result<(), Fail> {
        let table = Table::read(TRIO.as_bytes())?;
        let slip = tall(rt.alloc(), "B\t.\nG\t.\n", "C\nA\tidle\n", 64, "H\n")?;
        let plan = slip::check(&table, slip.as_bytes(), &mut Work::new())?;
        assert!(rt; plan.numbers() == [4; 64].as_slice());
        Ok(())
    }

    #[test]
    fn footprints(rt: HostRuntime) -> Result<(), Fail> {
        let table = Table::read(TRIO.as_bytes())?;
        let slip = b"B\t-c\nG\t.\nW\t-c\nS\t.\nA\tset_a\n";
        let plan = slip::check(&table, slip, &mut Work::new())?;
        assert!(rt; plan.names(0) && !plan.names(1) && plan.names(2));
        assert!(rt; !plan.names(3) && !plan.names(256));
        let none = Plan::empty();
        assert_eq!(rt; none.count(), 0);
        assert!(rt; none.opening().same(&State::empty()) && none.goal().same(&State::empty()));
        assert_eq!(rt; none.jobs().len(), 0);
        assert_eq!(rt; none.numbers().len(), 0);
        assert!(rt; !none.names(0));
        Ok(())
    }
}
