//! The command `table`: the facts and jobs of a table, or its refusal.
use crate::input;
use crate::quit::Quit;
use crate::refused::accepted;
use crate::show::{Literals, name_text};
use table::Table;

pub(crate) fn run(rt: &HostRuntime, path: &str) -> Result<(), Quit> {
    let text = input::read(rt, path)?;
    let table = Table::read(&text);
    print_table(rt, accepted(rt, "table refused", &text, &table)?)
}

/// Prints each fact with its number, and each job with what it needs and what it sets.
pub(crate) fn print_table(rt: &HostRuntime, table: &Table) -> Result<(), Quit> {
    println!(rt; "facts")?;
    for (fact, row) in table.facts().iter().enumerate() {
        println!(rt; "  {fact} {}", name_text(&row.name))?;
    }
    println!(rt; "jobs")?;
    for row in table.jobs() {
        let name = name_text(&row.name);
        let needs = Literals::of(table, &row.job.precondition);
        let sets = Literals::of(table, &row.job.effect);
        println!(rt; "  {name} needs {needs} sets {sets}")?;
    }
    Ok(())
}
