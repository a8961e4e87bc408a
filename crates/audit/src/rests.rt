//! What is broken while the pool is at rest. A rule that the last rest found broken is not told
//! again.

ghost use Rattle.std.specs.Prelude.{◌≡◌};

use crate::finding::Broken;
use crate::hosts::TracedHosts;
use crate::rule::{Name, Rule};
use log_judge::Unrest;
use std::alloc::AllocError;

/// Notes whether a rule is broken, and tells whether it has become so.
fn has_become(told: &mut bool, is_broken: bool) -> bool {
    let was_broken = *told;
    *told = is_broken;
    is_broken && !was_broken
}

impl TracedHosts {
    /// The rule that is broken by what is unsettled, with the earlier line that matters.
    fn broken_at_rest(&self, unrest: Unrest) -> Option<Broken> {
        match unrest {
            Unrest::PastTotal { count, limit } => Some(Broken {
                rule: Rule::PastTotal { count, limit },
                earlier: None,
            }),
            Unrest::PastKept { count, limit } => Some(Broken {
                rule: Rule::PastKept { count, limit },
                earlier: None,
            }),
            Unrest::WaiterBesideIdle { site, first } => {
                let tables = self.tables.get(site as usize)?;
                let connection = tables.first_idle()?;
                let connection = Name {
                    host: site,
                    connection,
                };
                Some(Broken {
                    rule: Rule::WaiterBesideIdle { first, connection },
                    earlier: tables.wait_of(first),
                })
            }
            Unrest::WaiterBesideRoom {
                site,
                first,
                count,
                limit,
            } => Some(Broken {
                rule: Rule::WaiterBesideRoom {
                    first,
                    count,
                    limit,
                    host: site,
                },
                earlier: self.tables.get(site as usize)?.wait_of(first),
            }),
        }
    }

    /// Tells what is unsettled, if that is new.
    fn tell(
        &self,
        is_new: bool,
        unrest: Option<Unrest>,
        found: &mut Vec<Broken>,
    ) -> Result<(), AllocError> {
        if !is_new {
            return Ok(());
        }
        let Some(unrest) = unrest else {
            return Ok(());
        };
        if let Some(broken) = self.broken_at_rest(unrest) {
            found.push(broken)?;
        }
        Ok(())
    }

    /// Tells whether a transfer waits beside an idle connection at that host.
    pub(crate) fn rest_at(&mut self, site: u32, found: &mut Vec<Broken>) -> Result<(), AllocError>
        ensures { self.new ≡ self.old }
    {
        if site >= self.monitor.len() {
            return Ok(());
        }
        let unrest = self.monitor.waiter_beside_idle(site);
        let Some(tables) = self.tables.get_mut(site as usize) else {
            return Ok(());
        };
        let is_new = has_become(&mut tables.told_idle, unrest.is_some());
        self.tell(is_new, unrest, found)
    }

    /// Tells whether a transfer waits beside room at that host.
    fn room_at(&mut self, site: u32, found: &mut Vec<Broken>) -> Result<(), AllocError>
        ensures { self.new ≡ self.old }
    {
        if site >= self.monitor.len() {
            return Ok(());
        }
        let unrest = self.monitor.waiter_beside_room(site);
        let Some(tables) = self.tables.get_mut(site as usize) else {
            return Ok(());
        };
        let is_new = has_become(&mut tables.told_room, unrest.is_some());
        self.tell(is_new, unrest, found)
    }

    /// Tells whether a transfer waits beside an idle connection at any host.
    pub(crate) fn rest_of_each(&mut self, found: &mut Vec<Broken>) -> Result<(), AllocError>
        ensures { self.new ≡ self.old }
    {
        for site in 0..self.monitor.len() {
            self.rest_at(site, found)?;
        }
        Ok(())
    }

    /// Tells what is unsettled at all hosts. It takes constant time if nothing is, and nothing was
    /// at the last rest.
    pub(crate) fn rest(&mut self, found: &mut Vec<Broken>) -> Result<(), AllocError>
        ensures { self.new ≡ self.old }
    {
        let is_unsettled = self.monitor.first_unrest().is_some();
        if !is_unsettled && !self.was_unsettled {
            return Ok(());
        }
        self.was_unsettled = is_unsettled;
        let total = self.monitor.past_total();
        let is_new = has_become(&mut self.told_total, total.is_some());
        self.tell(is_new, total, found)?;
        let kept = self.monitor.past_kept();
        let is_new = has_become(&mut self.told_kept, kept.is_some());
        self.tell(is_new, kept, found)?;
        for site in 0..self.monitor.len() {
            self.rest_at(site, found)?;
            self.room_at(site, found)?;
        }
        Ok(())
    }
}
