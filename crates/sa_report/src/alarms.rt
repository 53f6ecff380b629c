//! The alarms of a report in their order, each once.

ghost use Rattle.std.specs.Prelude.{◌≡◌, IfOk};
ghost use Rattle.sa_report.specs.Alarms.{rising};

use sa_base::{Alarm, OutOfMemory};
use std::alloc::Global;
use std::collections::BTreeSet;

fn ordered(alloc: Global, alarms: &[Alarm]) -> Result<BTreeSet<Alarm>, OutOfMemory>
    ensures { IfOk result (λ set. set.keys ≡ rising alarms.now) }
{
    let mut set = BTreeSet::new(alloc);
    for alarm in alarms {
        set.insert(*alarm)?;
    }
    Ok(set)
}

/// The alarms by line, column and kind, each once.
pub fn rising(alloc: Global, alarms: &[Alarm]) -> Result<Vec<Alarm>, OutOfMemory>
    ensures { IfOk result (λ sorted. sorted.items ≡ rising alarms.now) }
{
    let set = ordered(alloc, alarms)?;
    set.into_iter().collect(alloc)
}
