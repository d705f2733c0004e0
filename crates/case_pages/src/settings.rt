use case_table::{CaseStop, count_of, counts_of, list_of, pair_of, text_of};
use page_datum::Datum;
use page_io::List;
use std::alloc::Global;

/// The settings of a row, each a list of a name and a value, where all of the names are known.
pub fn settings_of(settings: &[Datum]) -> Result<&[Datum], CaseStop> {
    for setting in settings {
        let (name, _) = pair_of(setting)?;
        match text_of(name)? {
            "folder fails" | "input fails" | "output fails" | "input step" | "output step" => {}
            _ => return Err(CaseStop::Form),
        }
    }
    Ok(settings)
}

/// The settings of a row of `serve`, where all of the names are known.
pub fn serve_settings_of(settings: &[Datum]) -> Result<&[Datum], CaseStop> {
    for setting in settings {
        let (name, _) = pair_of(setting)?;
        match text_of(name)? {
            "folder fails" | "files later" | "files last" | "output fails" | "output step" => {}
            "doors" | "net fails" | "seats fail" | "spawner fails" => {}
            "door fails" | "link fails" => {}
            _ => return Err(CaseStop::Form),
        }
    }
    Ok(settings)
}

// The value of the first setting with a name, if there is one.
fn setting<'a>(settings: &'a [Datum], name: &str) -> Result<Option<&'a Datum>, CaseStop> {
    for setting in settings {
        let (of, value) = pair_of(setting)?;
        if text_of(of)? == name {
            return Ok(Some(value));
        }
    }
    Ok(None)
}

/// The doors of a net, each a list of what its links give: none where no setting says it.
pub fn doors_of(settings: &[Datum]) -> Result<&[Datum], CaseStop> {
    match setting(settings, "doors")? {
        Some(value) => list_of(value),
        None => Ok(&[]),
    }
}

/// The files that a setting of this name says the folder has later, if there is one.
pub fn other_files_of<'d>(
    settings: &'d [Datum],
    name: &str,
) -> Result<Option<&'d [Datum]>, CaseStop> {
    match setting(settings, name)? {
        Some(value) => Ok(Some(list_of(value)?)),
        None => Ok(None),
    }
}

/// The calls on a device that are to fail.
pub fn fails_of(alloc: Global, settings: &[Datum], name: &str) -> Result<List<u64>, CaseStop> {
    match setting(settings, name)? {
        Some(value) => counts_of(alloc, list_of(value)?),
        None => Ok(List::new(alloc)),
    }
}

/// How many bytes a device gives or takes at a time, of which 0 counts as 1.
pub fn step_of(settings: &[Datum], name: &str, usual: u64) -> Result<u64, CaseStop> {
    match setting(settings, name)? {
        Some(value) => count_of(value),
        None => Ok(usual),
    }
}
