//! The inputs of a program by their names.

ghost use Rattle.std.specs.Prelude.{◌≡◌, List, ℕ, IfOk};
ghost use Rattle.sa_ranges.specs.Inputs.{type_range, common, range_in_map, range_named};

use sa_base::{Num, OutOfMemory};
use sa_typed::Input;
use std::alloc::Global;
use std::collections::BTreeMap;

/// The numbers that an input can be, from the least to the greatest.
#[derive(Clone, Copy, Debug, PartialEq, Eq)]
pub(crate) struct Allowed {
    pub(crate) lo: i128,
    pub(crate) hi: i128,
}

/// What of the numbers found so far is of the type as well.
fn common(found: Option<Allowed>, num: Num) -> Allowed
    ensures { result ≡ common found (type_range num) }
{
    match found {
        None => Allowed {
            lo: num.lo(),
            hi: num.hi(),
        },
        Some(found) => Allowed {
            lo: found.lo.max(num.lo()),
            hi: found.hi.min(num.hi()),
        },
    }
}

/// What the map has of a name.
pub(crate) fn allowed_in(map: &BTreeMap<&[u8], Allowed>, name: &[u8]) -> Option<Allowed>
    ensures { result ≡ range_in_map map.now name.now }
{
    map.get(name).copied()
}

/// The numbers that the inputs of each name can be.
pub(crate) fn by_names<'a>(
    alloc: Global,
    inputs: &'a [Input],
) -> Result<BTreeMap<&'a [u8], Allowed>, OutOfMemory>
    ensures { IfOk result (λ m. (n : List ℕ) → range_in_map m n ≡ range_named inputs.now n) }
{
    let mut map = BTreeMap::new(alloc);
    for input in inputs {
        let name = input.name.bytes();
        let allowed = common(allowed_in(&map, name), input.num);
        map.insert(name, allowed)?;
    }
    Ok(map)
}
