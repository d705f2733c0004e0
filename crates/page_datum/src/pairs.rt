ghost use Rattle.std.specs.Prelude.{◌≡◌, ℕ, List, IfOk, OnOk};
ghost use Rattle.std.specs.BTreeMap.{insert_entry};
ghost use Rattle.std.specs.Cmp.Lexicographic.{slice_cmp};
ghost use Rattle.std.specs.Ordering.{nat_cmp};
ghost use Rattle.page_datum.specs.Data.{no_entries, value_at};
ghost use Rattle.page_datum.specs.Putting.{put_all, last_at};
ghost use Rattle.page_datum.specs.View.{entries_view};

use crate::datum::{Datum, Entries};
use page_io::{Memory, Text};
use std::alloc::Global;
use std::collections::BTreeMap;

impl Entries {
    /// The entries with these keys and values, put in one after another: of the values of a key the
    /// last stands. The time, like the number of pairs times its logarithm, is in no clause. Fails only if allocation fails.
    pub fn from_pairs(alloc: Global, pairs: Vec<(Text, Datum)>) -> Result<Entries, Memory>
        ensures made { IfOk result (λ made.
            made ≡ put_all (entries_view pairs.items) no_entries) }
        ensures last { IfOk result (λ made. (key : List ℕ)
            → value_at key made ≡ last_at key (entries_view pairs.items)) }
    {
        let sorted = sort(alloc, pairs)?;
        let entries: Vec<(Text, Datum)> = sorted.into_iter().collect(alloc)?;
        Ok(Entries::from_ascending(entries))
    }
}

// The pairs in order of their keys, each key with its last value.
fn sort(alloc: Global, pairs: Vec<(Text, Datum)>) -> Result<BTreeMap<Text, Datum>, Memory>
    ensures { IfOk result (λ sorted.
        entries_view sorted.entries ≡ put_all (entries_view pairs.items) no_entries) }
{
    let mut sorted = BTreeMap::new(alloc);
    for (key, value) in pairs {
        put(&mut sorted, key, value)?;
    }
    Ok(sorted)
}

// Puts a value at a key, in the place of the one that stands there.
fn put(sorted: &mut BTreeMap<Text, Datum>, key: Text, value: Datum) -> Result<(), Memory>
    ensures { OnOk result (sorted.new.entries
        ≡ insert_entry (slice_cmp nat_cmp) sorted.old.entries key value) }
{
    sorted.insert(key, value)?;
    Ok(())
}
