// A map that had room for all that it may hold.

ghost use Rattle.std.specs.Prelude.{◌≡◌, ◌+◌, ◌<◌, ◌≤◌, ◌++◌, [], ◌∷◌, None};
ghost use Rattle.indexmap.specs.IndexMap.{get, spare};

use indexmap::IndexMap;
use std::hash::Hash;

// Writes a new key after the others.
pub(crate) fn note<K: Eq + Hash + Drop, V: Drop>(map: &mut IndexMap<K, V>, key: K, value: V)
    requires absent { get K.eq map.old key ≡ None }
    requires room { 0 < spare map.old }
    ensures entries { map.new.entries ≡ map.old.entries ++ (key, value) ∷ [] }
    ensures spare { spare map.old ≤ spare map.new + 1 }
{
    map.insert(key, value).unwrap();
}
