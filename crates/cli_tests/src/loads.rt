//! A fake for loads: it keeps the plan, and returns a fixed answer.

use commands::LoadPlan;
use driver::DriverFault;
use load_run::{LoadError, LoadFailure, LoadFault, LoadOutcome};
use std::alloc::Global;

/// A fake for loads, with the report or fault that it returns, the number of calls, and the numbers
/// and the plan of the last call.
#[derive(Drop)]
pub struct FakeLoader<'a> {
    answer: Result<&'a str, LoadFault>,
    pub asked: u32,
    pub numbers: [u32; 6],
    pub plan: Option<LoadPlan>,
}

impl<'a> FakeLoader<'a> {
    pub fn new(answer: Result<&'a str, LoadFault>) -> FakeLoader<'a> {
        FakeLoader {
            answer,
            asked: 0,
            numbers: [0; 6],
            plan: None,
        }
    }

    /// Keeps the plan, and returns the answer.
    pub fn load(&mut self, alloc: Global, plan: LoadPlan) -> Result<LoadOutcome, LoadFailure> {
        let options = plan.options;
        self.plan = Some(plan);
        self.asked = self.asked.saturating_add(1);
        self.numbers = [
            options.sites,
            options.jobs,
            options.workers,
            options.host_limit,
            options.total,
            options.connects,
        ];
        let report = self.answer?;
        let Ok(report) = String::from_str(alloc, report) else {
            return Err(LoadFault::Load(LoadError::Run(DriverFault::Memory)).into());
        };
        Ok(LoadOutcome {
            report,
            note: String::new(alloc),
            status: 0,
        })
    }
}
