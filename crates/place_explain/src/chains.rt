ghost use Rattle.std.specs.Prelude.{◌≡◌, ◌++◌, OnOk, take, true};
ghost use Rattle.place_core.specs.Names.{sanitizer_name};
ghost use Rattle.place_explain.specs.ChainText.{bar_text, chain_text, sans_text};

use page_io::{Memory, Text};
use place_core::{Chain, San};

/// Appends the sanitizers of a chain by their names, the first one first, with bars between: `html | attr`. Fails only if allocation fails.
pub fn push_chain(out: &mut Text, chain: Chain) -> Result<(), Memory>
    ensures { OnOk result (out.new ≡ out.old ++ chain_text chain) }
{
    push_sans(out, counted(&chain))
}

// The sanitizers of a chain that count.
fn counted(chain: &Chain) -> &[San]
    ensures { result.now ≡ take chain.now.count chain.now.sans }
{
    let count = usize::from(chain.count);
    if count >= chain.sans.len() {
        return &chain.sans;
    }
    &chain.sans[..count]
}

fn push_sans(out: &mut Text, sans: &[San]) -> Result<(), Memory>
    ensures { OnOk result (out.new ≡ out.old ++ sans_text true sans.now) }
{
    let mut first = true;
    for san in sans {
        push_san(out, first, *san)?;
        first = false;
    }
    Ok(())
}

fn push_san(out: &mut Text, first: bool, san: San) -> Result<(), Memory>
    ensures { OnOk result (out.new ≡ out.old ++ (bar_text first ++ sanitizer_name san)) }
{
    out.push_str(bar(first))?;
    out.push_str(san.name())
}

// What comes before a sanitizer: a bar, unless it is the first.
fn bar(first: bool) -> &'static str
    ensures { result.now ≡ bar_text first }
{
    if first { "" } else { " | " }
}
