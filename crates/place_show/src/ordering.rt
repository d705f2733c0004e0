ghost use Rattle.std.specs.Prelude.{◌≡◌, IfOk, true, false};
ghost use Rattle.place_show.specs.Made.{InOrder};
ghost use Rattle.place_show.specs.PathTexts.{ComesFirst};

use crate::printing::path_text;
use crate::showing::{Choice, Seen};
use page_io::{List, Memory};
use std::alloc::Global;

/// Two paths, the one first that comes first as they are printed. Fails only if allocation fails.
pub(crate) fn in_order(alloc: Global, one: Seen, other: Seen) -> Result<List<Seen>, Memory>
    ensures { IfOk result (InOrder one other) }
{
    let is_behind = comes_behind(alloc, &one.path, &other.path)?;
    let mut paths = List::new(alloc);
    if is_behind {
        paths.push(other)?;
        paths.push(one)?;
    } else {
        paths.push(one)?;
        paths.push(other)?;
    }
    Ok(paths)
}

// Whether a path comes after another one as they are printed. Fails only if allocation fails.
fn comes_behind(alloc: Global, path: &List<Choice>, other: &List<Choice>) -> Result<bool, Memory>
    ensures behind { IfOk result (λ behind. behind ≡ true → ComesFirst other.now path.now) }
    ensures first { IfOk result (λ behind. behind ≡ false → ComesFirst path.now other.now) }
{
    let text = path_text(alloc, path)?;
    let other_text = path_text(alloc, other)?;
    Ok(text > other_text)
}
