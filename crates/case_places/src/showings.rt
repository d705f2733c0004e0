use crate::steps::put_place;
use case_table::CaseOutput;
use place_infer::SetRefused;
use place_show::{Seen, Showing, path_text};

/// Writes why a set is refused: the error, the template and its line, and each path with its place.
pub fn put_shown(out: &mut CaseOutput, why: SetRefused) {
    match why {
        SetRefused::Shows(showing) => put_showing(out, &showing),
        SetRefused::TooManyDerived => out.put("TooManyDerived"),
        SetRefused::Memory => out.lose(),
    }
}

fn put_showing(out: &mut CaseOutput, showing: &Showing) {
    let (code, line) = (showing.code, showing.line);
    out.put_made(format!(in out.alloc(); "{code:?} "));
    out.put(showing.template.as_str());
    out.put_made(format!(in out.alloc(); ":{line}"));
    for seen in showing.paths.as_slice() {
        put_seen(out, seen);
    }
}

fn put_seen(out: &mut CaseOutput, seen: &Seen) {
    out.put(" | path ");
    out.put_text(path_text(out.alloc(), &seen.path));
    out.put(" at ");
    put_place(out, seen.at);
}
