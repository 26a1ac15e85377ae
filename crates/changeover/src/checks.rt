//! The command `check`: the jobs of a slip that is accepted, or its refusal.
use crate::input;
use crate::quit::Quit;
use crate::refused::accepted;
use crate::show::name_text;
use slip::{Plan, Work, check};
use std::fmt;
use table::Table;

pub(crate) fn run(rt: &HostRuntime, table_path: &str, slip_path: &str) -> Result<(), Quit> {
    if table_path == "-" && slip_path == "-" {
        return Err("only one of TABLE and SLIP can be standard input".into());
    }
    let text = input::read(rt, table_path)?;
    let table = Table::read(&text);
    let table = accepted(rt, "table refused", &text, &table)?;
    drop(text);
    let text = input::read(rt, slip_path)?;
    let mut work = Work::new();
    let plan = check(table, &text, &mut work);
    print_plan(rt, table, accepted(rt, "refused", &text, &plan)?)
}

/// What is said of an accepted plan, as "accepted: 2 jobs".
#[derive(Clone, Copy)]
pub(crate) struct Accepted<'a>(pub(crate) &'a Plan);

impl fmt::Display for Accepted<'_> {
    fn fmt<W: fmt::Write>(&self, f: &mut fmt::Formatter<W>) -> fmt::Result {
        let count = self.0.numbers().len();
        let noun = if count == 1 { "job" } else { "jobs" };
        write!(f, "accepted: {count} {noun}")
    }
}

/// Prints how many jobs there are, and then each with its place, from 1.
fn print_plan(rt: &HostRuntime, table: &Table, plan: &Plan) -> Result<(), Quit> {
    println!(rt; "{}", Accepted(plan))?;
    for (place, number) in (1..).zip(plan.numbers()) {
        println!(rt; "  {place} {}", job_name(table, *number))?;
    }
    Ok(())
}

/// The name of the job of this number. A plan has only jobs of its table.
fn job_name(table: &Table, number: u8) -> &str {
    let row = table.jobs().get(usize::from(number));
    row.map_or("?", |row| name_text(&row.name))
}
