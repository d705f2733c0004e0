use page_io::{Text, number_of_key};
use std::marker::Model;

/// A value that a page is made with. Its meaning for contracts is `view` of `specs/View.antt`.
#[cycle(datum)]
#[derive(Debug, Drop)]
pub enum Datum {
    Null,
    Bool(bool),
    Int(i64),
    Text(Text),
    List(Items),
    Dict(Entries),
}

/// The values of a list, in order. Contracts see them as a `DataList` of `specs/Data.antt`.
#[cycle(datum)]
#[derive(Debug, Drop)]
pub struct Items {
    items: Vec<Datum>,
}

/// The entries of a dictionary: keys with their values, in byte order of distinct keys. Contracts
/// see them as a `DataDict` of `specs/Data.antt`.
#[cycle(datum)]
#[derive(Debug, Drop)]
pub struct Entries {
    entries: Vec<(Text, Datum)>,
}

impl Model for Items {
    ghost use Rattle.std.proofs.Common.{arith};
    ghost use Rattle.page_datum.specs.Code.{list_code};
    ghost use Rattle.page_datum.specs.Data.{DataList};
    ghost use Rattle.page_datum.specs.Sizes.{list_size};

    ghost Value = { DataList };

    ghost coded = { list_code };

    ghost use Rattle.page_datum.specs.View.{items_view};

    ghost view = { λ a. items_view a.items.items };

    ghost size = { list_size };

    ghost use Rattle.page_datum.specs.Falls.{most_le-list_size};

    ghost size_decreases = { λ a h. omega (arith, most_le-list_size a.items.items) };
}

impl Model for Entries {
    ghost use Rattle.std.proofs.Common.{arith};
    ghost use Rattle.page_datum.specs.Code.{dict_code};
    ghost use Rattle.page_datum.specs.Data.{DataDict, HasAscendingKeys};
    ghost use Rattle.page_datum.specs.Sizes.{dict_size};

    ghost Value = { DataDict };

    ghost coded = { dict_code };

    ghost use Rattle.page_datum.specs.View.{entries_view};

    ghost view = { λ a. entries_view a.entries.items };

    ghost invariant = { λ a. HasAscendingKeys (entries_view a.entries.items) };

    ghost size = { dict_size };

    ghost use Rattle.page_datum.specs.Falls.{most_le-dict_size};

    ghost size_decreases = { λ a h. omega (arith, most_le-dict_size a.entries.items) };
}

impl Items {
    ghost use Rattle.std.specs.Prelude.{◌≡◌, ◌<◌, ◌^◌};
    ghost use Rattle.std.specs.List.{All};
    ghost use Rattle.page_datum.specs.Data.{item_count};
    ghost use Rattle.page_datum.specs.Sizes.{data_size, list_size};
    ghost use Rattle.page_datum.specs.View.{view, items_view};

    /// The values in order.
    pub fn as_slice(&self) -> &[Datum]
        ensures all { items_view result.now ≡ self.now }
        ensures smaller { All (λ d. data_size (view d) < list_size self.now) result.now }
    {
        self.items.as_slice()
    }

    /// The number of values.
    pub fn len(&self) -> usize
        ensures count { result ≡ item_count self.now }
        ensures bound { result < 2 ^ 63 }
    {
        self.items.len()
    }
}

impl Entries {
    ghost use Rattle.std.specs.Prelude.{◌≡◌, ◌<◌, ◌^◌, option_map};
    ghost use Rattle.std.specs.List.{All};
    ghost use Rattle.page_datum.specs.Sizes.{data_size, dict_size};
    ghost use Rattle.page_datum.specs.Data.{HasAscendingKeys, value_at, entry_count};
    ghost use Rattle.page_datum.specs.View.{view, entries_view};

    // Entries whose keys ascend.
    pub(crate) fn from_ascending(entries: Vec<(Text, Datum)>) -> Entries
        requires { HasAscendingKeys (entries_view entries.items) }
        ensures { result ≡ entries_view entries.items }
    {
        Entries { entries }
    }

    /// The entries in order of their keys.
    pub fn as_slice(&self) -> &[(Text, Datum)]
        ensures all { entries_view result.now ≡ self.now }
        ensures ascend { HasAscendingKeys self.now }
        ensures smaller { All (λ e. data_size (view e.1) < dict_size self.now) result.now }
    {
        self.entries.as_slice()
    }

    /// The number of entries.
    pub fn len(&self) -> usize
        ensures count { result ≡ entry_count self.now }
        ensures bound { result < 2 ^ 63 }
    {
        self.entries.len()
    }

    /// The value at a key. It does not allocate, and time like the logarithm of the number of
    /// entries, which no clause says.
    pub fn get(&self, key: &str) -> Option<&Datum>
        ensures { option_map (λ d. view d.now) result ≡ value_at key.now self.now }
    {
        let entries = self.entries.as_slice();
        match number_of_key(entries, key) {
            Some(at) => Some(&entries[at].1),
            None => None,
        }
    }
}

impl From<Vec<Datum>> for Items {
    ghost use Rattle.std.specs.Prelude.{◌≡◌};
    ghost use Rattle.page_datum.specs.View.{items_view};

    ghost from_gives = { λ items made. made ≡ items_view items.items };

    fn from(items: Vec<Datum>) -> Items {
        Items { items }
    }
}
