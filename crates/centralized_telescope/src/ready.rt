// A try that is ready to be searched.
ghost use Rattle.std.specs.Prelude.{◌≡◌};
ghost use Rattle.centralized_telescope.specs.inner.SourceHeld.{source_held};
ghost use Rattle.centralized_telescope.specs.inner.TryTables.{HasTable};

use crate::lawful::Lawful;
use crate::numbers::wide;
use crate::round::RetryCounter;
use crate::source::Source;

// Lawful settings, a retry counter, the elements, and the bin table that these make.
#[derive(Clone, Copy)]
pub struct ReadyTry<'a> {
    pub settings: Lawful,
    pub retry: RetryCounter,
    pub source: Source<'a, 'a>,
    pub table: &'a [u32],
    ghost has_table: { HasTable settings.params (source_held source) retry.0 table.now },
}

impl<'a> ReadyTry<'a> {
    ghost use Rattle.std.specs.Prelude.{◌≡◌, ◌<◌};
    ghost use Rattle.centralized_telescope.specs.core.Search.{places_in};
    ghost use Rattle.centralized_telescope.specs.inner.Visit.{try_held};

    // The kept places of a bin, ascending: what a chain that is at this bin may go on with.
    #[tactic(auto, using(crate::proofs::TableFacts::table_told))]
    pub fn places_in(&self, bin: usize) -> &'a [u32]
        requires { bin < self.now.settings.params.set_size }
        ensures { result.now ≡ places_in (try_held self.now) bin }
    {
        let base = self.settings.params.set_size as usize + 1;
        let from = base + wide(self.table[bin]);
        let to = base + wide(self.table[bin + 1]);
        &self.table[from..to]
    }
}
