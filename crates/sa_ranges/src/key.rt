//! Bytes that are looked up among the keys of an object.

ghost use Rattle.std.specs.Prelude.{◌≡◌, option_map};
ghost use Rattle.serde_json.specs.Find.{get_member};
ghost use Rattle.serde_json.specs.View.{view};
ghost use Rattle.sa_ranges.specs.Keys.{members_in};

use serde_json::{Map, Value};
use std::cmp::Ordering;
use std::collections::btree_map::Comparable;

/// A name by its bytes.
#[derive(Clone, Copy)]
struct Key<'a>(&'a [u8]);

impl Comparable<String> for Key<'_> {
    ghost use Rattle.std.specs.Prelude.{string_bytes};
    ghost use Rattle.std.specs.Ordering.{nat_cmp};
    ghost use Rattle.std.specs.Cmp.Lexicographic.{slice_cmp};
    ghost use Rattle.std.proofs.lemmas.Cmp.{nat_list_cmp_total};
    ghost use Rattle.std.specs.BTreeMap.Comparable.{le_lt_trans};

    ghost compare = { λ q k. slice_cmp nat_cmp q.0.now (string_bytes k) };

    ghost respects_cmp = { λ q x y. nat_list_cmp_total.congr q.0.now (string_bytes x) (string_bytes y) };

    ghost below_greater = { λ q x y. le_lt_trans nat_list_cmp_total q.0.now (string_bytes x) (string_bytes y) };

    fn compare(&self, key: &String) -> Ordering {
        self.0.cmp(key.as_bytes())
    }
}

/// The value of a key, where there is an object and it has the key.
pub(crate) fn member<'v>(object: Option<&'v Map<String, Value>>, name: &[u8]) -> Option<&'v Value>
    ensures { option_map (λ v. view v.now) result ≡ get_member name.now (members_in object.entry) }
{
    object?.get(Key(name))
}
