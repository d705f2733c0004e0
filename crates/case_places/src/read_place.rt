use crate::read_code::{css_named, js_named};
use crate::read_url::parts_named;
use crate::splitter::Splitter;
use case_table::CaseStop;
use place_core::{Bare, Body, Element, Kind, Place, Quotes, Spots, TagOf, TagPlace, ValuePlace};

/// The place that is printed so.
pub fn place_named(text: &str) -> Result<Place, CaseStop> {
    let mut words = Splitter::new(text, ' ');
    let place = place_of(&mut words)?;
    words.finish()?;
    Ok(place)
}

fn place_of(words: &mut Splitter) -> Result<Place, CaseStop> {
    match words.next()? {
        "text" => Ok(Place::Text),
        "doctype" => Ok(Place::Doctype),
        "comment" => Ok(Place::Comment(words.takes("dash"))),
        "title" => Ok(Place::Rcdata(Element::Title)),
        "textarea" => Ok(Place::Rcdata(Element::Textarea)),
        "tag" => Ok(Place::Tag(tag_place(words)?)),
        "value" => Ok(Place::Value(value_place(words)?)),
        "script" if words.takes("js") => Ok(Place::Script(js_named(words)?)),
        "style" if words.takes("css") => Ok(Place::Style(css_named(words)?)),
        "block" => Ok(Place::Block(words.takes("lt"))),
        _ => Err(CaseStop::Form),
    }
}

fn tag_place(words: &mut Splitter) -> Result<TagPlace, CaseStop> {
    let tag = tag_named(words.next()?)?;
    let spots = spots_named(words.next()?)?;
    let kind = if spots.inside || spots.after {
        Some(kind_named(words.next()?)?)
    } else {
        None
    };
    Ok(TagPlace {
        tag,
        typed: words.takes("typed"),
        spots,
        kind,
    })
}

fn value_place(words: &mut Splitter) -> Result<ValuePlace, CaseStop> {
    let tag = tag_named(words.next()?)?;
    let quotes = quotes_named(words.next()?)?;
    let body = body_named(words)?;
    Ok(ValuePlace {
        tag,
        typed: words.takes("typed"),
        quotes,
        body,
    })
}

fn tag_named(word: &str) -> Result<TagOf, CaseStop> {
    match word {
        "end" => Ok(TagOf::End),
        "other" => Ok(TagOf::Start(Element::Other)),
        "title" => Ok(TagOf::Start(Element::Title)),
        "textarea" => Ok(TagOf::Start(Element::Textarea)),
        "style" => Ok(TagOf::Start(Element::Style)),
        "script" => Ok(TagOf::Start(Element::Script)),
        "data" => Ok(TagOf::Start(Element::DataBlock)),
        _ => Err(CaseStop::Form),
    }
}

fn spots_named(set: &str) -> Result<Spots, CaseStop> {
    let mut members = Splitter::new(set, '+');
    let spots = Spots {
        name: members.takes("name"),
        before: members.takes("before"),
        inside: members.takes("in"),
        after: members.takes("after"),
    };
    members.finish()?;
    Ok(spots)
}

fn kind_named(word: &str) -> Result<Kind, CaseStop> {
    match word {
        "plain" => Ok(Kind::Plain),
        "url" => Ok(Kind::Url),
        "script" => Ok(Kind::Script),
        "style" => Ok(Kind::Style),
        "type" => Ok(Kind::ScriptType),
        "nohole" => Ok(Kind::NoHole),
        _ => Err(CaseStop::Form),
    }
}

fn quotes_named(word: &str) -> Result<Quotes, CaseStop> {
    match word {
        "dq" => Ok(Quotes::Dq),
        "sq" => Ok(Quotes::Sq),
        set => Ok(Quotes::Bare(bare_named(set)?)),
    }
}

fn bare_named(set: &str) -> Result<Bare, CaseStop> {
    let mut members = Splitter::new(set, '+');
    let bare = Bare {
        uq: members.takes("uq"),
        unbegun: members.takes("unbegun"),
    };
    members.finish()?;
    Ok(bare)
}

fn body_named(words: &mut Splitter) -> Result<Body, CaseStop> {
    match words.next()? {
        "plain" => Ok(Body::Plain),
        "nohole" => Ok(Body::NoHole),
        "url" => Ok(Body::Url(parts_named(words.next()?)?)),
        "js" => Ok(Body::Js(js_named(words)?)),
        "css" => Ok(Body::Css(css_named(words)?)),
        _ => Err(CaseStop::Form),
    }
}
