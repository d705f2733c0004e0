ghost use Rattle.std.specs.Prelude.{◌≡◌, ◌+◌, ◌<◌, ◌≤◌, ℕ, List, get_or, length, Some, None, false};
ghost use Rattle.std.specs.Str.{str_to_ascii_lowercase as lower};
ghost use Rattle.place_core.specs.place.StatePlaces.{only_after, only_before, only_name};
ghost use Rattle.place_core.specs.page.Words.{kind_of};
ghost use Rattle.html_scan.specs.ClassViews.{class_at};
ghost use Rattle.html_scan.specs.ScanViews.{scan_at, pending_from};
ghost use Rattle.html_scan.specs.Scans.{At, attribute_name_next, body_scan, content_scan, tag_name_next, tag_next, value_scan};
ghost use Rattle.html_scan.specs.Slices.{pending};
ghost use Rattle.html_scan.specs.Scans as spec;
ghost use Rattle.place_core.specs.page.Tags as tags;

use crate::class::Class;
use crate::names::{kind_on, tag_named};
use crate::scan::Scan;
use place_core::{
    Bare, Body, Css, CssTails, Element, Js, JsTails, Kind, Parts, Place, Quotes, Senses, Spots,
    TagOf, TagPlace, ValuePlace,
};

// Where in a tag a path stands alone.
const NAME: Spots = Spots {
    name: true,
    before: false,
    inside: false,
    after: false,
};

const BEFORE: Spots = Spots {
    name: false,
    before: true,
    inside: false,
    after: false,
};

/// In the name of an attribute.
pub const INSIDE: Spots = Spots {
    name: false,
    before: false,
    inside: true,
    after: false,
};

const AFTER: Spots = Spots {
    name: false,
    before: false,
    inside: false,
    after: true,
};

// Where a URL begins.
const URL_START: Parts = Parts {
    start: true,
    opened: None,
    openhole: false,
    prequery: false,
    query: false,
    bad: false,
};

// Where the declarations of a style begin.
const STYLE_START: Css = Css::Code(CssTails {
    word: false,
    slash: false,
    lt: false,
});

/// Where a script begins, and where an empty one is.
pub const SCRIPT_START: Js = Js::Code(
    Senses {
        re: true,
        div: false,
        brace: false,
    },
    JsTails {
        word: false,
        num: false,
        lt: false,
        slash: false,
        plus: false,
        minus: false,
        hash: false,
    },
);

/// Where a value has not begun.
pub const UNBEGUN: Quotes = Quotes::Bare(Bare {
    uq: false,
    unbegun: true,
});

/// Before an attribute.
pub fn before_name(tag: TagOf, typed: bool) -> Place
    ensures { At result ≡ spec.in_tag tag typed only_before None }
{
    Place::Tag(TagPlace {
        tag,
        typed,
        spots: BEFORE,
        kind: None,
    })
}

/// After the end of a tag.
pub fn content(tag: TagOf) -> Place
    ensures { At result ≡ content_scan tag }
{
    match tag {
        TagOf::Start(Element::Title) => Place::Rcdata(Element::Title),
        TagOf::Start(Element::Textarea) => Place::Rcdata(Element::Textarea),
        TagOf::Start(Element::DataBlock) => Place::Block(false),
        TagOf::Start(Element::Style) => Place::Style(STYLE_START),
        TagOf::Start(Element::Script) => Place::Script(SCRIPT_START),
        TagOf::Start(Element::Other) | TagOf::End => Place::Text,
    }
}

/// In a tag, where a text begins or after a blank or a value.
#[inline(always)]
pub fn in_tag(place: TagPlace, class: Class, index: usize) -> Scan
    ensures scan { (text : List ℕ) → index < length text → scan_at text (index + 1) result
        ≡ tag_next place (class_at class) (get_or text index 0) }
    ensures pending { pending_from result ≤ index }
{
    match class {
        Class::White => Scan::At(Place::Tag(TagPlace {
            tag: place.tag,
            typed: place.typed,
            spots: after_white(place.spots),
            kind: place.kind,
        })),
        Class::Solidus => Scan::At(before_name(place.tag, place.typed)),
        Class::GreaterThan => Scan::At(content(place.tag)),
        Class::EqualsSign => value_begins(place.tag, place.typed, place.kind),
        _ => Scan::InAttributeName {
            tag: place.tag,
            typed: place.typed,
            from: index,
        },
    }
}

/// In the name of an attribute, of which this has been read.
#[inline(always)]
pub fn in_attribute_name(class: Class, tag: TagOf, typed: bool, name: &[u8], from: usize) -> Scan
    ensures scan { (text : List ℕ) (k : ℕ) → from ≤ k → k < length text
        → name.now ≡ pending text from k → scan_at text (k + 1) result
        ≡ attribute_name_next (class_at class) (get_or text k 0) tag typed
        (kind_of (tags.element_on tag) (lower name.now)) (lower name.now) }
    ensures pending { pending_from result ≤ from }
{
    match class {
        Class::White => Scan::At(after_name(tag, typed, kind_on(tag, name))),
        Class::Solidus => Scan::At(before_name(tag, typed_with(tag, typed, kind_on(tag, name)))),
        Class::GreaterThan => Scan::At(content(tag)),
        Class::EqualsSign => {
            let kind = kind_on(tag, name);
            value_begins(tag, typed, Some(kind))
        }
        _ => Scan::InAttributeName { tag, typed, from },
    }
}

// After the name of an attribute, and a blank.
fn after_name(tag: TagOf, typed: bool, kind: Kind) -> Place
    ensures { At result
        ≡ spec.in_tag tag (spec.typed_with tag typed kind) only_after (Some kind) }
{
    Place::Tag(TagPlace {
        tag,
        typed: typed_with(tag, typed, kind),
        spots: AFTER,
        kind: Some(kind),
    })
}

/// Whether a `type` may have been seen after the name of an attribute.
pub fn typed_with(tag: TagOf, typed: bool, kind: Kind) -> bool
    ensures { result ≡ spec.typed_with tag typed kind }
{
    match (tag, kind) {
        (TagOf::Start(_), Kind::ScriptType) => true,
        _ => typed,
    }
}

fn after_white(spots: Spots) -> Spots
    ensures { result ≡ spec.after_white spots }
{
    Spots {
        name: false,
        before: spots.name || spots.before,
        inside: false,
        after: spots.inside || spots.after,
    }
}

// Where a value of this kind begins; of a tag without one, it is refused.
fn value_begins(tag: TagOf, typed: bool, kind: Option<Kind>) -> Scan
    ensures scan { (text : List ℕ) (k : ℕ)
        → scan_at text k result ≡ value_scan tag typed kind }
    ensures pending { pending_from result ≡ 0 }
{
    match kind {
        Some(Kind::Plain) => Scan::At(body_begins(tag, typed, Body::Plain)),
        Some(Kind::NoHole) => Scan::At(body_begins(tag, typed, Body::NoHole)),
        Some(Kind::Url) => Scan::At(body_begins(tag, typed, Body::Url(URL_START))),
        Some(Kind::Style) => Scan::At(body_begins(tag, typed, Body::Css(STYLE_START))),
        Some(Kind::Script) => Scan::At(body_begins(tag, typed, Body::Js(SCRIPT_START))),
        Some(Kind::ScriptType) => Scan::BeforeType(tag),
        None => Scan::At(Place::Text),
    }
}

fn body_begins(tag: TagOf, typed: bool, body: Body) -> Place
    ensures { At result ≡ body_scan tag typed (Some body) }
{
    Place::Value(ValuePlace {
        tag,
        typed,
        quotes: UNBEGUN,
        body,
    })
}

/// In the name of a tag, of which this has been read.
pub fn in_tag_name(class: Class, ends: bool, name: &[u8], from: usize) -> Scan
    ensures scan { (text : List ℕ) (k : ℕ) → from ≤ k → k < length text
        → name.now ≡ pending text from k → scan_at text (k + 1) result
        ≡ tag_name_next (class_at class) (get_or text k 0) ends (lower name.now) }
    ensures pending { pending_from result ≤ from }
{
    match class {
        Class::White | Class::Solidus => Scan::At(before_name(tag_named(ends, name), false)),
        Class::GreaterThan => Scan::At(content(tag_named(ends, name))),
        _ => Scan::InTagName { ends, from },
    }
}

/// Where a text ends in the name of a tag.
pub fn whole_tag_name(tag: TagOf) -> Place
    ensures { At result ≡ spec.in_tag tag false only_name None }
{
    Place::Tag(TagPlace {
        tag,
        typed: false,
        spots: NAME,
        kind: None,
    })
}

/// Where a text ends in the name of an attribute.
pub fn whole_attribute_name(tag: TagOf, typed: bool, kind: Kind) -> Place
    ensures { result ≡ spec.whole_name_place tag typed kind }
{
    Place::Tag(TagPlace {
        tag,
        typed: typed_with(tag, typed, kind),
        spots: INSIDE,
        kind: Some(kind),
    })
}
