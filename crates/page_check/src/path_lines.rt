ghost use Rattle.std.specs.Prelude.{◌≡◌, ◌++◌, OnOk};
ghost use Rattle.page_check.specs.PathLines.{seen_line, seen_lines};

use html_step::print_place;
use page_io::{Memory, Text};
use place_show::{Seen, path_text};

/// Appends a line for each path that has the error, with the place there. Fails only if allocation fails.
pub fn push_seen_lines(out: &mut Text, paths: &[Seen]) -> Result<(), Memory>
    ensures { OnOk result (out.new ≡ out.old ++ seen_lines paths.now) }
{
    for seen in paths {
        push_seen_line(out, seen)?;
    }
    Ok(())
}

fn push_seen_line(out: &mut Text, seen: &Seen) -> Result<(), Memory>
    ensures { OnOk result (out.new ≡ out.old ++ seen_line seen.now) }
{
    let path = path_text(out.allocator(), &seen.path)?;
    let place = print_place(out.allocator(), seen.at)?;
    out.push_str("  path ")?;
    out.push_str(path.as_str())?;
    out.push_str(" at ")?;
    out.push_str(place.as_str())?;
    out.push_str("\n")
}
