use crate::case_row::{count_of, list_of, text_of};
use crate::case_stop::CaseStop;
use page_datum::{Datum, Entries};

/// How many parts the rows of a group have before what is wanted: as many as there are names, or, where the last name ends
/// in `...`, as many as there are names before it, and any number more.
#[derive(Clone, Copy)]
pub struct Given {
    named: usize,
    is_open: bool,
}

impl Given {
    /// Whether a row of so many parts, with what is wanted, has those that are named.
    pub fn fits(&self, parts: usize) -> bool {
        if self.is_open {
            parts > self.named
        } else {
            parts > 0 && parts - 1 == self.named
        }
    }
}

/// The call of a group.
pub fn call_of(group: &Entries) -> Result<&str, CaseStop> {
    text_of(entry_of(group, "call")?)
}

/// The rows of a group.
pub fn rows_of(group: &Entries) -> Result<&[Datum], CaseStop> {
    list_of(entry_of(group, "rows")?)
}

/// How many cases a group says that it has.
pub fn count_in(group: &Entries) -> Result<u64, CaseStop> {
    count_of(entry_of(group, "count")?)
}

/// What the rows of a group are given, by the names of their parts.
pub fn given_of(group: &Entries) -> Result<Given, CaseStop> {
    let names = list_of(entry_of(group, "given")?)?;
    let mut given = Given {
        named: 0,
        is_open: false,
    };
    for name in names {
        if given.is_open {
            return Err(CaseStop::Form);
        }
        given.is_open = text_of(name)?.ends_with("...");
        if !given.is_open {
            given.named = given.named.saturating_add(1);
        }
    }
    Ok(given)
}

/// Whether a group says where its values come from, and what it is about.
pub fn has_source(group: &Entries) -> Result<bool, CaseStop> {
    let source = text_of(entry_of(group, "source")?)?;
    let about = text_of(entry_of(group, "about")?)?;
    Ok(!about.is_empty() && matches!(source, "hand" | "standard" | "Go" | "model"))
}

fn entry_of<'g>(group: &'g Entries, key: &str) -> Result<&'g Datum, CaseStop> {
    match group.get(key) {
        Some(entry) => Ok(entry),
        None => Err(CaseStop::Form),
    }
}
