//! The program `changeover`: what its arguments ask for.
#![tactic(auto)]

mod checks;
mod demo;
mod input;
mod quit;
mod refused;
mod sentences;
mod show;
mod tables;

use quit::Quit;
use std::env;
use std::process::ExitCode;

const USAGE: &str = "\
usage: changeover COMMAND

  table TABLE        the facts and jobs of a table, or its refusal
  check TABLE SLIP   the jobs of a slip that is accepted, or its refusal
  demo               the changeover of one hut, told step by step
  help               this text

TABLE and SLIP are files; - in place of one of them is standard input.
";

fn main(rt: HostRuntime) -> ExitCode {
    match run(&rt) {
        Ok(()) => ExitCode::SUCCESS,
        Err(Quit::Told) => ExitCode::FAILURE,
        Err(Quit::Failed(fault)) => {
            // Where even this cannot be printed, the status alone tells of it.
            let _told = eprintln!(rt; "changeover: {fault}");
            ExitCode::FAILURE
        }
    }
}

/// What the program is asked for.
#[derive(Drop)]
enum Command {
    Table(String),
    Check { table: String, slip: String },
    Demo,
    Help,
}

impl Command {
    /// The command that the arguments give; without any, help.
    fn from_args(rt: &HostRuntime) -> Result<Command, Quit> {
        let mut args = env::args(rt)?;
        let Some(name) = args.nth(1) else {
            return Ok(Command::Help);
        };
        match name.as_str() {
            "table" => match (args.next(), args.next()) {
                (Some(table), None) => Ok(Command::Table(table)),
                _ => Err("table takes one file; see: changeover help".into()),
            },
            "check" => match (args.next(), args.next(), args.next()) {
                (Some(table), Some(slip), None) => Ok(Command::Check { table, slip }),
                _ => Err("check takes two files; see: changeover help".into()),
            },
            "demo" => Ok(Command::Demo),
            "help" => Ok(Command::Help),
            other => {
                eprintln!(rt; "changeover: no command {other}; see: changeover help")?;
                Err(Quit::Told)
            }
        }
    }
}

fn run(rt: &HostRuntime) -> Result<(), Quit> {
    // The commands are closed: an enum and a match, and no table of functions.
    match Command::from_args(rt)? {
        Command::Table(table) => tables::run(rt, &table),
        Command::Check { table, slip } => checks::run(rt, &table, &slip),
        Command::Demo => demo::run(rt),
        Command::Help => Ok(print!(rt; "{USAGE}")?),
    }
}
