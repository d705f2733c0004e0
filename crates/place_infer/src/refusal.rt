ghost use Rattle.std.specs.Prelude.{◌≡◌, IsTrue, Contains, false, true};
ghost use Rattle.place_infer.specs.Inferring.{IsRefusal, is_end_code};
ghost use Rattle.place_show.specs.Answers.{IfFound};
ghost use Rattle.place_show.specs.Showings.{Shows};
ghost use Rattle.tpl_tree.specs.Forests.{ForestData};

use crate::set_refused::SetRefused;
use page_io::{Memory, Names, Text};
use place_core::Code;
use place_derive::{Derivation, FirstConflict};
use place_flow::Flows;
use place_show::{Showing, shown_conflict, shown_end};
use std::alloc::Global;
use tpl_tree::Forest;

// Whether one of some names is this one.
fn is_among(names: &[Text], name: &str) -> bool
    ensures { IsTrue result → Contains names.now name.now }
{
    for other in names {
        if other.as_str() == name {
            return true;
        }
    }
    false
}

// Whether an error is that of a root's end.
fn is_end(code: Code) -> bool
    ensures { result ≡ is_end_code code }
{
    match code {
        Code::EndContext => true,
        _ => false,
    }
}

// An error that was shown as a refusal, where it is of a root, and of a root's end exactly where that is wanted.
fn refusal(names: &Names, ends: bool, shown: Result<Option<Showing>, Memory>) -> SetRefused
    ensures { (forest : ForestData) → IfFound (Shows forest) shown
        → IsRefusal forest names.now ends result }
{
    match shown {
        Ok(Some(showing)) => of_root(names, ends, showing),
        _ => SetRefused::Memory,
    }
}

fn of_root(names: &Names, ends: bool, showing: Showing) -> SetRefused
    ensures { (forest : ForestData) → Shows forest showing
        → IsRefusal forest names.now ends result }
{
    if is_among(names.as_slice(), showing.root.as_str()) && is_end(showing.code) == ends {
        return SetRefused::Shows(showing);
    }
    SetRefused::Memory
}

/// Why a chart that is in conflict is refused.
pub fn refusal_by_conflict(
    alloc: Global,
    forest: &Forest,
    flows: &Flows,
    names: &Names,
    log: &[Derivation],
    conflict: &Option<FirstConflict>,
) -> SetRefused
    ensures { flows.now ≡ forest.now → IsRefusal forest.now names.now false result }
{
    match conflict {
        Some(conflict) => refusal(
            names,
            false,
            shown_conflict(alloc, forest, flows, log, conflict),
        ),
        None => SetRefused::Memory,
    }
}

/// Why a chart is refused in which a root can end in another place than text.
pub fn refusal_by_end(
    alloc: Global,
    forest: &Forest,
    flows: &Flows,
    names: &Names,
    log: &[Derivation],
    root: u32,
) -> SetRefused
    ensures { flows.now ≡ forest.now → IsRefusal forest.now names.now true result }
{
    refusal(names, true, shown_end(alloc, forest, flows, log, root))
}
