//! What a file tells beside its inputs.

ghost use Rattle.std.specs.Prelude.{◌≡◌, option_map, option_and_then};
ghost use Rattle.serde_json.specs.View.{view, members_view};
ghost use Rattle.sa_ranges.specs.Keys.{members_in};
ghost use Rattle.sa_ranges.specs.Table.{is_known, knows_all, version_of, version, tick_of, clock_of, last_clock, inputs_of, named};
ghost use Rattle.sa_ranges.specs.Told.{whole};
ghost use Rattle.serde_json.specs.Find.{get};

use crate::names::GREATEST_CLOCK;
use crate::told::{Version, whole};
use serde_json::{Map, Value};

/// The last clock where none is told.
const CLOCK_UNLESS_TOLD: u64 = 3_600_000;

fn is_known(key: &str) -> bool
    ensures { result ≡ is_known key.now }
{
    key == "version" || key == "max_clock" || key == "inputs"
}

/// Whether no key is there but those of a ranges file.
pub(crate) fn knows_all(members: &Map<String, Value>) -> bool
    ensures { result ≡ knows_all (members_view members.now.entries) }
{
    for (key, _) in members.iter() {
        if !is_known(key.as_str()) {
            return false;
        }
    }
    true
}

/// The whole number that a key has.
fn whole_at(file: &Value, key: &str) -> Option<i128>
    ensures { result ≡ option_and_then whole (get key.now (view file.now)) }
{
    whole(file.get(key)?)
}

fn version_of(told: Option<i128>) -> Option<Version>
    ensures { result ≡ version_of told }
{
    match told? {
        1 => Some(Version::One),
        2 => Some(Version::Two),
        _ => None,
    }
}

#[tactic(auto, unfolding(crate::specs::Table::version))]
pub(crate) fn version(file: &Value) -> Option<Version>
    ensures { result ≡ version (view file.now) }
{
    version_of(whole_at(file, "version"))
}

/// A number of ticks that a clock can have.
#[tactic(auto, unfolding(crate::specs::Table::tick_of))]
pub(crate) fn tick_of(value: i128) -> Option<u64>
    ensures { result ≡ tick_of value }
{
    if 0 <= value && value <= GREATEST_CLOCK {
        Some(value as u64)
    } else {
        None
    }
}

#[tactic(auto, unfolding(sa_typed::specs::Ranges::clock_unless_told))]
fn clock_of(told: Option<&Value>) -> Option<u64>
    ensures { result ≡ clock_of (option_map (λ v. view v.now) told.entry) }
{
    match told {
        None => Some(CLOCK_UNLESS_TOLD),
        Some(told) => tick_of(whole(told)?),
    }
}

/// The last clock, where it isn't told wrong.
#[tactic(auto, unfolding(crate::specs::Table::last_clock))]
pub(crate) fn last_clock(file: &Value) -> Option<u64>
    ensures { result ≡ last_clock (view file.now) }
{
    clock_of(file.get("max_clock"))
}

fn inputs_of(told: Option<&Value>) -> Option<Option<&Map<String, Value>>>
    ensures { option_map members_in result ≡ inputs_of (option_map (λ v. view v.now) told.entry) }
{
    match told {
        None => Some(None),
        Some(told) => Some(Some(told.as_object()?)),
    }
}

/// The object with the inputs, which need not be there, where it isn't something else.
#[tactic(auto, unfolding(crate::specs::Table::named))]
pub(crate) fn named(file: &Value) -> Option<Option<&Map<String, Value>>>
    ensures { option_map members_in result ≡ named (view file.now) }
{
    inputs_of(file.get("inputs"))
}
