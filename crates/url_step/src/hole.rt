ghost use Rattle.std.specs.Prelude.{◌≡◌, ◌≤◌, ◌∷◌, []};
ghost use Rattle.url_step.specs.Chains.{chain_of};
ghost use Rattle.url_step.specs.PartSets.{hole_answer, hole_with_chain, part_count};
ghost use Rattle.url_step.specs.PartSets as spec;

use place_core::{Chain, Code, Parts, San};

// One where it holds, and else none.
fn one_if(holds: bool) -> u8
    ensures is { result ≡ spec.one_if holds }
    ensures bound { result ≤ 1 }
{
    if holds { 1 } else { 0 }
}

// How many parts there are, whatever the beginning spells.
fn count(parts: Parts) -> u8
    ensures { result ≡ part_count parts }
{
    one_if(parts.start)
        + (one_if(parts.opened.is_some())
            + (one_if(parts.openhole)
                + (one_if(parts.prequery) + (one_if(parts.query) + one_if(parts.bad)))))
}

/// The parts behind a hole, or why it is refused: no one chain of sanitizers fits all paths, or data would stand in code.
pub fn at_hole(parts: Parts) -> Result<Parts, Code>
    ensures { result ≡ hole_answer parts }
{
    if count(parts) > 1 {
        return Err(Code::AmbigContext);
    }
    if parts.bad {
        return Err(Code::BadHTML);
    }
    Ok(Parts {
        start: false,
        opened: None,
        openhole: parts.start || (parts.opened.is_some() || parts.openhole),
        ..parts
    })
}

/// The parts behind a hole, and what is done to a value there; or why it is refused. Where the value is the first of the URL it may choose
/// the scheme, of those that `url_filter` lets through; in the beginning it may end none; in the query it is one value. The chain is that
/// of the URL alone: HTML adds the sanitizer of the value's quotes. Takes no memory. The causes:
///
/// - `AmbigContext`: paths are in several parts, also if some are behind a scheme that is code, so that no one chain fits all.
/// - `BadHTML`: all paths are behind a scheme that is code.
pub fn after_hole(place: Parts) -> Result<(Parts, Chain), Code>
    ensures { result ≡ hole_with_chain place (hole_answer place) }
{
    let after = at_hole(place)?;
    Ok((after, chain_in(place)))
}

// The sanitizers in the one part of a URL.
fn chain_in(parts: Parts) -> Chain
    ensures { result ≡ chain_of (spec.part_sans parts) }
{
    if parts.start {
        return Chain {
            count: 2,
            sans: [San::UrlFilter, San::UrlNorm, San::UrlNorm],
        };
    }
    if parts.prequery {
        return only(San::UrlNorm);
    }
    if parts.query {
        return only(San::UrlQuery);
    }
    only(San::UrlOpen)
}

fn only(san: San) -> Chain
    ensures { result ≡ chain_of (san ∷ []) }
{
    Chain {
        count: 1,
        sans: [san; 3],
    }
}
