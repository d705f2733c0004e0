ghost use Rattle.std.specs.Prelude.{◌≡◌, ◌∷◌, []};
ghost use Rattle.css_step.specs.StyleChains.{style_hole_with_chain};
ghost use Rattle.css_step.specs.StyleScanViews.{style_hole_answer};
ghost use Rattle.url_step.specs.Chains.{chain_of};

use crate::scan::URL_START;
use place_core::{Chain, Code, Css, CssTails, Parts, San};

/// The place behind a hole, or why it is refused: it stands behind a URL, or its URL refuses it.
pub fn at_hole(place: Css) -> Result<Css, Code>
    ensures { result ≡ style_hole_answer place }
{
    match place {
        Css::Code(tails) => Ok(Css::Code(CssTails {
            word: true,
            slash: tails.slash,
            lt: tails.lt,
        })),
        Css::Dq => Ok(Css::Dq),
        Css::Sq => Ok(Css::Sq),
        Css::UrlFresh => Ok(Css::Url(Parts {
            start: false,
            opened: None,
            openhole: true,
            prequery: false,
            query: false,
            bad: false,
        })),
        Css::Url(parts) => url_step::at_hole(parts).map(Css::Url),
        Css::UrlDq(parts) => url_step::at_hole(parts).map(Css::UrlDq),
        Css::UrlSq(parts) => url_step::at_hole(parts).map(Css::UrlSq),
        Css::UrlEnd => Err(Code::BadString),
        Css::Comment(star) => Ok(Css::Comment(star)),
    }
}

/// The place behind a hole, and what is done to a value there; or why it is refused. In code it is written as a value, in a string as a
/// part of the string; in a comment it is left out. In a URL it is written as `url_step` says: where it begins the URL it may choose the
/// scheme. The chain is that of the style alone: HTML adds the sanitizer of the value's quotes. Takes no memory. The causes:
///
/// - `BadString`: it stands behind a URL.
/// - `AmbigContext`: paths are in several parts of a URL, so that no one chain fits all.
/// - `BadHTML`: all paths are behind a scheme that is code.
pub fn after_hole(place: Css) -> Result<(Css, Chain), Code>
    ensures { result ≡ style_hole_with_chain place (style_hole_answer place) }
{
    match place {
        Css::Code(_) => Ok((at_hole(place)?, only(San::CssValue))),
        Css::Dq | Css::Sq => Ok((at_hole(place)?, only(San::CssString))),
        Css::UrlFresh => {
            let (after, chain) = url_step::after_hole(URL_START)?;
            Ok((Css::Url(after), chain))
        }
        Css::Url(parts) => {
            let (after, chain) = url_step::after_hole(parts)?;
            Ok((Css::Url(after), chain))
        }
        Css::UrlDq(parts) => {
            let (after, chain) = url_step::after_hole(parts)?;
            Ok((Css::UrlDq(after), chain))
        }
        Css::UrlSq(parts) => {
            let (after, chain) = url_step::after_hole(parts)?;
            Ok((Css::UrlSq(after), chain))
        }
        Css::UrlEnd => Err(Code::BadString),
        Css::Comment(_) => Ok((at_hole(place)?, only(San::Drop))),
    }
}

// One sanitizer.
fn only(san: San) -> Chain
    ensures { result ≡ chain_of (san ∷ []) }
{
    Chain {
        count: 1,
        sans: [san; 3],
    }
}
