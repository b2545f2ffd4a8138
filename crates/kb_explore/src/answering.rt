//! One exploration for machines that differ in nothing but which states accept.

ghost use Rattle.std.specs.Prelude.{◌≡◌, IfOk};
ghost use Rattle.kb_explore.specs.Machine.{Machine as Model, AreAlike};
ghost use Rattle.kb_explore.specs.Exploration.{IsExploration};

use crate::exploration::{Exploration, answers};
use crate::machine::Machine;
use kb_fsa::Table;
use kb_word::Memory;
use std::alloc::Global;
use std::hash::Hash;

impl<S: Eq + Hash + Drop> Exploration<S> {
    /// The same states and moves, with the answers of a machine that moves as the explored one does.
    pub fn answered_by<M: Machine<State = S>>(
        &self,
        alloc: Global,
        machine: &M,
    ) -> Result<Table, Memory>
        requires explored { (other : Model S) × AreAlike (M.machine machine.now) other
            × IsExploration other self.now.table self.now.states.keys self.now.origins.items }
        ensures explored { IfOk result (λ table. IsExploration (M.machine machine.now)
            table self.now.states.keys self.now.origins.items) }
        ensures initial { IfOk result (λ table. table.initial ≡ self.now.table.initial) }
        ensures rows { IfOk result (λ table. table.rows ≡ self.now.table.rows) }
    {
        let accepting = answers(alloc, machine, &self.states)?;
        let rows = self.table.rows().copy(alloc)?;
        Ok(Table::new(self.table.initial(), rows, accepting))
    }
}
