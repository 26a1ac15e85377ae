//! Facts and lists run at the edges of their limits: fact 255, no facts and 256, no jobs and 64.
#![tactic(auto)]

#[cfg(test)]
mod tests {
    use facts::{FactReader, Job, LiteralFault, Mark, PastFault, State, World, meets, unmet};
    use lists::{Failure, JobList, ListFault, first_failure};
    use std::test::Fail;

    // The state of one literal.
    fn only(fact: usize, holds: bool) -> State {
        let mut state = State::empty();
        let _ = state.add(fact, holds);
        state
    }

    // By value, as a caller may pass on what it uses again.
    fn facts_of(world: World) -> usize {
        world.count()
    }

    fn jobs_of(list: JobList) -> usize {
        list.jobs().len()
    }

    #[test]
    fn fact_255(rt: HostRuntime) {
        let mut state = State::empty();
        assert_eq!(rt; state.add(255, false), Ok(()));
        assert_eq!(rt; state.add(255, true), Err(LiteralFault::FactNamed));
        assert_eq!(rt; state.add(256, true), Err(LiteralFault::FactPast));
        assert_eq!(rt; state.mark(255), Mark::Fails);
        assert_eq!(rt; state.mark(256), Mark::Unnamed);
        assert_eq!(rt; state.lowest(), Some(255));
        assert!(rt; state.within(256) && !state.within(255));
        assert!(rt; state.covers(&only(255, false)) && !state.covers(&only(255, true)));
        assert!(rt; state.shares(&only(255, true)) && !state.shares(&only(254, true)));
        assert!(rt; state.overridden(&only(255, true)).same(&only(255, true)));
        assert!(rt; state.without(&only(255, true)).same(&State::empty()));
        assert!(rt; only(255, true).missing(&state).same(&state));
    }

    #[test]
    fn copied_and_used_again(rt: HostRuntime) -> Result<(), Fail> {
        let world = World::new(&[true; 3])?;
        assert_eq!(rt; facts_of(world), 3);
        assert_eq!(rt; facts_of(world), world.count());
        let list = JobList::new(3, State::empty(), State::empty())?;
        assert_eq!(rt; jobs_of(list), 0);
        assert_eq!(rt; jobs_of(list), list.jobs().len());
        Ok(())
    }

    #[test]
    fn worlds_of_0_and_256_facts(rt: HostRuntime) -> Result<(), Fail> {
        let mut none = World::new(&[])?;
        assert_eq!(rt; none.count(), 0);
        assert_eq!(rt; none.set(&only(0, false)), Err(PastFault::FactPast));
        let mut all = World::new(&[true; 256])?;
        assert_eq!(rt; all.count(), 256);
        assert!(rt; all.holds(255) && !all.holds(256));
        assert_eq!(rt; all.set(&only(255, false)), Ok(()));
        assert!(rt; all.holds(254) && !all.holds(255));
        assert!(rt; meets(&all, &only(255, false)) && !meets(&all, &only(255, true)));
        assert!(rt; unmet(&all, &only(255, true)).same(&only(255, true)));
        let refused = World::new(&[false; 257]).err();
        assert_eq!(rt; refused.map(|fault| fault.number()), Some(65));
        Ok(())
    }

    #[test]
    fn lists_of_0_and_64_jobs(rt: HostRuntime) -> Result<(), Fail> {
        let mut example = World::new(&[])?;
        let empty = State::empty();
        let none = JobList::new(0, empty, empty)?;
        assert_eq!(rt; first_failure(&none, &mut example), None);

        let mut list = JobList::new(256, only(255, true), only(255, true))?;
        let keep = Job {
            precondition: only(255, true),
            effect: empty,
        };
        for _ in 0..63 {
            list.push(keep)?;
        }
        let last = Job {
            precondition: only(255, false),
            effect: empty,
        };
        assert_eq!(rt; list.push(last), Ok(()));
        assert_eq!(rt; list.push(keep), Err(ListFault::TooManyJobs));
        assert_eq!(rt; list.jobs().len(), 64);
        assert_eq!(rt; first_failure(&list, &mut example), Some(Failure::Job(64)));
        assert_eq!(rt; example.count(), 256);
        assert!(rt; example.holds(255) && !example.holds(254));
        Ok(())
    }
}
