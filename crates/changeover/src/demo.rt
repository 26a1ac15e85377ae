//! The changeover of one hut: its table, a list that is good, slips of that list, its jobs carried out, and a list that
//! is not good.
use crate::checks::Accepted;
use crate::quit::Quit;
use crate::refused::tell;
use crate::show::{Literals, Signs};
use crate::tables::print_table;
use facts::{Job, State, World, meets};
use lists::{Failure, JobList, first_failure};
use names::read_state;
use slip::{Work, check};
use table::Table;
use text::Place;

const TABLE: &[u8] =
    b"N\tfree\nN\tclean\nN\tgas\nD\tsweep\t+free -gas\t+clean\nD\topen_gas\t+clean\t+gas\n";

const OPENING: &[u8] = b"+free -gas";

const GOAL: &[u8] = b"+clean +gas";

/// A slip of the good list.
const SLIP: &[u8] = b"B\t+free -gas\nG\t+clean +gas\n\
    W\t+free -gas\nS\t+clean +gas\nC\nF\t.\nA\tsweep\nF\t+free\nA\topen_gas\n";

/// The same, but its W line does not say that the gas is shut, which `sweep` needs.
const GAS_OMITTED: &[u8] = b"B\t+free -gas\nG\t+clean +gas\n\
    W\t+free\nS\t+clean +gas\nC\nF\t.\nA\tsweep\nF\t+free\nA\topen_gas\n";

/// The hut's table, and the opening and goal of its changeover.
#[derive(Clone, Copy)]
struct Hut {
    table: Table,
    opening: State,
    goal: State,
}

impl Hut {
    fn built_in() -> Option<Hut> {
        let table = Table::read(TABLE).ok()?;
        let at = Place { line: 1, field: 1 };
        let opening = read_state(OPENING, table.facts(), at).ok()?;
        let goal = read_state(GOAL, table.facts(), at).ok()?;
        Some(Hut {
            table,
            opening,
            goal,
        })
    }

    /// The job of this name.
    fn job(&self, name: &str) -> Option<Job> {
        let place = self.table.find_job(name.as_bytes())?;
        let row = self.table.jobs().get(place)?;
        Some(row.job)
    }

    fn list(&self, names: [&str; 2]) -> Option<JobList> {
        let count = self.table.fact_count();
        let mut list = JobList::new(count, self.opening, self.goal).ok()?;
        for name in names {
            list.push(self.job(name)?).ok()?;
        }
        Some(list)
    }

    /// The literals of a state or a world of the hut.
    fn literals<'a, S: Signs>(&'a self, signs: &'a S) -> Literals<'a, S> {
        Literals::of(&self.table, signs)
    }
}

pub(crate) fn run(rt: &HostRuntime) -> Result<(), Quit> {
    // `let else` and no `ok_or`: a hut holds a table, which each step by value copies whole.
    let Some(hut) = Hut::built_in() else {
        return Err("the built-in table is refused".into());
    };
    print_table(rt, &hut.table)?;
    println!(rt; "opening {}", hut.literals(&hut.opening))?;
    println!(rt; "goal {}", hut.literals(&hut.goal))?;
    let names = ["sweep", "open_gas"];
    if judge(rt, &hut, names)? {
        check_slip(rt, &hut, SLIP)?;
        check_slip(rt, &hut, GAS_OMITTED)?;
        carry_out(rt, &hut, names)?;
    }
    judge(rt, &hut, ["open_gas", "sweep"])?;
    Ok(())
}

/// Tells whether the list of these jobs is good, and else what fails first and in which world.
fn judge(rt: &HostRuntime, hut: &Hut, names: [&str; 2]) -> Result<bool, Quit> {
    let list = hut.list(names).ok_or("the built-in list is refused")?;
    let mut example = World::new(&[]).map_err(|_| "the empty world is refused")?;
    let [first, second] = names;
    println!(rt)?;
    println!(rt; "list {first}, {second}")?;
    match first_failure(&list, &mut example) {
        None => {
            println!(rt; "good: it reaches the goal from every world that meets the opening")?;
            return Ok(true);
        }
        Some(Failure::Job(place)) => {
            let at = place.checked_sub(1).ok_or("there is no job 0")?;
            let name = names.get(at).ok_or("the built-in list lacks a job")?;
            println!(rt; "not good: job {place}, {name}, fails in this world")?;
        }
        Some(Failure::Goal) => println!(rt; "not good: the goal fails in this world")?,
    }
    println!(rt; "world {}", hut.literals(&example))?;
    Ok(false)
}

/// Tells whether the slip is accepted, and else its refusal.
fn check_slip(rt: &HostRuntime, hut: &Hut, slip: &[u8]) -> Result<(), Quit> {
    let mut work = Work::new();
    match check(&hut.table, slip, &mut work) {
        Ok(plan) => Ok(println!(rt; "slip {}", Accepted(&plan))?),
        Err(fault) => tell(rt, "refused", slip, fault),
    }
}

/// Carries the jobs out in turn on a world in which only `free` holds.
fn carry_out(rt: &HostRuntime, hut: &Hut, names: [&str; 2]) -> Result<(), Quit> {
    let mut world = World::new(&[true, false, false]).map_err(|_| "the built-in world is refused")?;
    println!(rt; "world {}", hut.literals(&world))?;
    for name in names {
        let job = hut.job(name).ok_or("the built-in table lacks a job")?;
        world.carry(&job).map_err(|_| "a built-in job is refused")?;
        println!(rt; "carried {name}")?;
        println!(rt; "world {}", hut.literals(&world))?;
    }
    let met = if meets(&world, &hut.goal) {
        "met"
    } else {
        "not met"
    };
    println!(rt; "the goal is {met}")?;
    Ok(())
}
