use crate::read_url::parts_named;
use crate::splitter::Splitter;
use case_table::CaseStop;
use place_core::{Css, CssTails, Js, JsTails, Senses};

/// The place in a script that the next words print.
pub fn js_named(words: &mut Splitter) -> Result<Js, CaseStop> {
    match words.next()? {
        "code" => {
            let senses = senses_named(words.next()?)?;
            Ok(Js::Code(senses, js_tails(words)?))
        }
        "dq" => Ok(Js::Dq),
        "sq" => Ok(Js::Sq),
        "regexp" => Ok(Js::Regexp(words.takes("slash"))),
        "line" => Ok(Js::Line(senses_named(words.next()?)?)),
        "block" => {
            let senses = senses_named(words.next()?)?;
            Ok(Js::Block(senses, words.takes("star")))
        }
        _ => Err(CaseStop::Form),
    }
}

/// The place in a style that the next words print.
pub fn css_named(words: &mut Splitter) -> Result<Css, CaseStop> {
    match words.next()? {
        "code" => Ok(Css::Code(css_tails(words)?)),
        "dq" => Ok(Css::Dq),
        "sq" => Ok(Css::Sq),
        "urlfresh" => Ok(Css::UrlFresh),
        "url" => Ok(Css::Url(parts_named(words.next()?)?)),
        "urldq" => Ok(Css::UrlDq(parts_named(words.next()?)?)),
        "urlsq" => Ok(Css::UrlSq(parts_named(words.next()?)?)),
        "urlend" => Ok(Css::UrlEnd),
        "comment" => Ok(Css::Comment(words.takes("star"))),
        _ => Err(CaseStop::Form),
    }
}

fn senses_named(set: &str) -> Result<Senses, CaseStop> {
    let mut members = Splitter::new(set, '+');
    let senses = Senses {
        re: members.takes("re"),
        div: members.takes("div"),
        brace: members.takes("brace"),
    };
    members.finish()?;
    Ok(senses)
}

// The members of a set of tails, which is left out where it is empty; after it may stand `typed`.
fn tails<'t>(words: &mut Splitter<'t>) -> Result<Splitter<'t>, CaseStop> {
    match words.peek() {
        None | Some("typed") => Ok(Splitter::none()),
        Some(_) => Ok(Splitter::new(words.next()?, '+')),
    }
}

fn js_tails(words: &mut Splitter) -> Result<JsTails, CaseStop> {
    let mut members = tails(words)?;
    let tails = JsTails {
        word: members.takes("word"),
        num: members.takes("num"),
        lt: members.takes("lt"),
        slash: members.takes("slash"),
        plus: members.takes("plus"),
        minus: members.takes("minus"),
        hash: members.takes("hash"),
    };
    members.finish()?;
    Ok(tails)
}

fn css_tails(words: &mut Splitter) -> Result<CssTails, CaseStop> {
    let mut members = tails(words)?;
    let tails = CssTails {
        word: members.takes("word"),
        slash: members.takes("slash"),
        lt: members.takes("lt"),
    };
    members.finish()?;
    Ok(tails)
}
