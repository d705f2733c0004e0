use crate::splitter::Splitter;
use case_table::CaseStop;
use place_core::{Parts, Prefix};

/// The parts of a URL that are printed so.
pub fn parts_named(set: &str) -> Result<Parts, CaseStop> {
    let mut members = Splitter::new(set, '+');
    let parts = Parts {
        start: members.takes("start"),
        opened: opened(&mut members)?,
        openhole: members.takes("openhole"),
        prequery: members.takes("prequery"),
        query: members.takes("query"),
        bad: members.takes("bad"),
    };
    members.finish()?;
    Ok(parts)
}

// What the beginning of a URL spells, where the next member is that one.
fn opened(members: &mut Splitter) -> Result<Option<Prefix>, CaseStop> {
    if members.takes("open") {
        return Ok(Some(Prefix::Off));
    }
    if members.takes("open(?)") {
        return Ok(Some(Prefix::Differs));
    }
    match members.peek() {
        Some(member) => match spelled(member) {
            Some(letters) => {
                members.next()?;
                Ok(Some(prefix_named(letters)?))
            }
            None => Ok(None),
        },
        None => Ok(None),
    }
}

fn spelled(member: &str) -> Option<&str> {
    member.strip_prefix("open(")?.strip_suffix(')')
}

fn prefix_named(letters: &str) -> Result<Prefix, CaseStop> {
    let Ok(count) = u8::try_from(letters.len()) else {
        return Err(CaseStop::Form);
    };
    if count == 0 {
        Err(CaseStop::Form)
    } else if "javascript".starts_with(letters) {
        Ok(Prefix::Javascript(count))
    } else if "vbscript".starts_with(letters) {
        Ok(Prefix::Vbscript(count))
    } else if "data".starts_with(letters) {
        Ok(Prefix::DataScheme(count))
    } else {
        Err(CaseStop::Form)
    }
}
