ghost use Rattle.std.specs.Prelude.{◌≡◌, ◌<◌, ◌≤◌, ℕ, List, Some, get_or, length};
ghost use Rattle.css_step.specs.StyleScanViews.{style_scan_at};
ghost use Rattle.js_step.specs.ScriptScanViews.{script_scan_at};
ghost use Rattle.html_scan.specs.ClassViews.{class_at};
ghost use Rattle.html_scan.specs.ScanViews.{pending_from, scan_at};
ghost use Rattle.html_step.specs.Origins.{byte_origin};
ghost use Rattle.html_step.specs.OriginViews.{all_members, apart_through, evidence_at, evidence_through, member_number, origin_at};
ghost use Rattle.html_step.specs.Origins as spec;
ghost use Rattle.url_lexer.specs.Classes as urls;

use crate::element_origins;
use crate::evidence::Evidence;
use crate::fed_origins::{behind_byte, behind_end};
use crate::script_origins::{script_origin, step_origin};
use crate::style_fed_origins::at_style_end;
use crate::style_origins::{style_end_origin, style_is_apart, style_origin};
use css_step::StyleScan;
use html_scan::{Class, Scan, behind_less, behind_name, is_name_of, pending, style_at_cut};
use js_step::ScriptScan;
use place_core::{Body, Element, Member, Parts, Place, Prefix, Spots};
use url_lexer::{UrlClass, url_class_of};

/// Which member before some bytes each member after them comes from, by the numbers of the 32 members.
#[derive(Clone, Copy)]
pub struct Origins {
    before: [Member; 32],
}

impl Origins {
    /// Before any byte each member comes from itself.
    pub fn same() -> Origins
        ensures { (y : Member) → origin_at result y ≡ y }
    {
        Origins { before: members() }
    }

    /// The member that this one comes from.
    pub fn of(self, member: Member) -> Member
        ensures { result ≡ origin_at self member }
    {
        self.before[number(member)]
    }

    /// What shows the same before the bytes, where this shows there that two paths met apart.
    pub fn of_evidence(self, evidence: Evidence, apart: Evidence) -> Evidence
        ensures { evidence_at result
            ≡ evidence_through (origin_at self) (evidence_at apart) (evidence_at evidence) }
    {
        match evidence {
            Evidence::One(member) => Evidence::One(self.of(member)),
            Evidence::Two(one, other) => Evidence::Two(self.of(one), self.of(other)),
            Evidence::Apart => apart,
        }
    }

    /// What shows before the bytes that two paths met apart behind one byte more, which is read at this scan state.
    pub fn of_apart(self, scan: Scan, apart: Evidence) -> Evidence
        ensures { (text : List ℕ) (k : ℕ) → evidence_at result ≡ apart_through (origin_at self)
            (evidence_at apart) (spec.is_apart (spec.scan_parts (scan_at text k scan))) }
    {
        if scan_is_apart(scan) {
            apart
        } else {
            Evidence::Two(self.of(Member::PartStart), self.of(Member::PartOpen))
        }
    }

    /// The same with one byte more of the text, which is read at a scan state.
    pub fn then(self, text: &[u8], index: usize, class: Class, scan: Scan) -> Origins
        requires inside { index < length text.now }
        requires pending { pending_from scan ≤ index }
        ensures { (y : Member) → origin_at result y ≡ origin_at self (byte_origin
            (scan_at text.now index scan) (class_at class) (get_or text.now index 0) y) }
    {
        let fed = behind_byte(self, text, index, class, scan);
        let members = members();
        let mut before = members;
        for number in 0..32 {
            before[number] = fed.of(behind_origin(text, index, class, scan, members[number]));
        }
        Origins { before }
    }

    /// The same with one byte more that a URL is fed.
    pub fn then_part(self, parts: Parts, byte: u8) -> Origins
        ensures { (y : Member) → origin_at result y
            ≡ origin_at self (spec.part_origin parts (urls.url_class_of byte) y) }
    {
        let members = members();
        let mut before = members;
        for number in 0..32 {
            before[number] = self.of(part_origin(parts, byte, members[number]));
        }
        Origins { before }
    }

    /// The same with one byte more that a style is fed.
    pub fn then_style(self, style: StyleScan, byte: u8) -> Origins
        ensures { (y : Member) → origin_at result y
            ≡ origin_at self (spec.style_byte_origin (style_scan_at style) byte y) }
    {
        let members = members();
        let mut before = members;
        for number in 0..32 {
            before[number] = self.of(style_origin(style, byte, members[number]));
        }
        Origins { before }
    }

    /// The same with the bytes more that a script is fed.
    pub fn then_script(self, script: ScriptScan) -> Origins
        ensures { (y : Member) → origin_at result y
            ≡ origin_at self (spec.script_origin (script_scan_at script) y) }
    {
        let members = members();
        let mut before = members;
        for number in 0..32 {
            before[number] = self.of(script_origin(script, members[number]));
        }
        Origins { before }
    }

    /// The member before some bytes and the end of the text that a member after it comes from.
    pub fn of_end(self, text: &[u8], scan: Scan, member: Member) -> Member
        requires pending { pending_from scan ≤ length text.now }
        ensures { result ≡ origin_at self
            (spec.end_origin (scan_at text.now (length text.now) scan) member) }
    {
        match scan {
            Scan::At(_) => self.of(member),
            Scan::InAttributeName { typed, .. } => self.of(name_origin(typed)),
            Scan::InUrl {
                place,
                reference,
                ..
            } => { behind_end(self, text, place.body, reference).of(member) }
            Scan::InStyle {
                style,
                reference,
                ..
            } => {
                let end = style_end_origin(style_at_cut(text, style, reference), member);
                at_style_end(self, text, style, reference).of(end)
            }
            Scan::InScript { script, .. } | Scan::InScriptElement { script, .. } => {
                self.of(script_origin(script, member))
            }
            Scan::InStyleElement(style) => self.of(style_end_origin(style, member)),
            Scan::AfterStyleLess(style) => {
                let end = style_end_origin(behind_less(style), member);
                self.then_style(style, b'<').of(end)
            }
            Scan::InStyleName { style, from } => {
                let letters = pending(text, from + 2, text.len());
                let end = style_end_origin(behind_name(style, letters), member);
                element_origins::behind_name(self, style, letters).of(end)
            }
            _ => self.of(Member::Whole),
        }
    }
}

// Whether paths in the beginning of a URL have spelled different things at a scan state.
fn scan_is_apart(scan: Scan) -> bool
    ensures { (text : List ℕ) (k : ℕ) → result
        ≡ spec.is_apart (spec.scan_parts (scan_at text k scan)) }
{
    match scan {
        Scan::At(Place::Value(value)) => is_apart(value.body),
        Scan::At(Place::Style(css)) => style_is_apart(css_step::start(css)),
        Scan::InUrl { place, .. } => is_apart(place.body),
        Scan::InStyle { style, .. }
        | Scan::InStyleElement(style)
        | Scan::AfterStyleLess(style)
        | Scan::InStyleName { style, .. } => style_is_apart(style),
        _ => false,
    }
}

fn is_apart(body: Body) -> bool
    ensures { result ≡ spec.is_apart (spec.body_parts body) }
{
    match body {
        Body::Url(parts) => spells_apart(parts),
        Body::Css(css) => style_is_apart(css_step::start(css)),
        Body::Plain | Body::NoHole | Body::Js(_) => false,
    }
}

/// Whether paths in the beginning of a URL have spelled different things.
pub fn spells_apart(parts: Parts) -> bool
    ensures { result ≡ spec.is_apart (Some parts) }
{
    match parts.opened {
        Some(Prefix::Differs) => true,
        Some(_) | None => false,
    }
}

// All members, each at its number.
fn members() -> [Member; 32]
    ensures { result ≡ all_members }
{
    [
        Member::Whole,
        Member::Typed,
        Member::CommentDash,
        Member::BlockLt,
        Member::NameSpot,
        Member::BeforeSpot,
        Member::InsideSpot,
        Member::AfterSpot,
        Member::UnquotedValue,
        Member::UnbegunValue,
        Member::PartStart,
        Member::PartOpen,
        Member::PartOpenhole,
        Member::PartPrequery,
        Member::PartQuery,
        Member::PartBad,
        Member::SenseRe,
        Member::SenseDiv,
        Member::SenseBrace,
        Member::JsWord,
        Member::JsNum,
        Member::JsLt,
        Member::JsSlash,
        Member::JsPlus,
        Member::JsMinus,
        Member::JsHash,
        Member::RegexpSlash,
        Member::JsStar,
        Member::CssWord,
        Member::CssSlash,
        Member::CssLt,
        Member::CssStar,
    ]
}

// The number of a member.
fn number(member: Member) -> usize
    ensures number { result ≡ member_number member }
    ensures bound { result < 32 }
{
    match member {
        Member::Whole => 0,
        Member::Typed => 1,
        Member::CommentDash => 2,
        Member::BlockLt => 3,
        Member::NameSpot => 4,
        Member::BeforeSpot => 5,
        Member::InsideSpot => 6,
        Member::AfterSpot => 7,
        Member::UnquotedValue => 8,
        Member::UnbegunValue => 9,
        Member::PartStart => 10,
        Member::PartOpen => 11,
        Member::PartOpenhole => 12,
        Member::PartPrequery => 13,
        Member::PartQuery => 14,
        Member::PartBad => 15,
        Member::SenseRe => 16,
        Member::SenseDiv => 17,
        Member::SenseBrace => 18,
        Member::JsWord => 19,
        Member::JsNum => 20,
        Member::JsLt => 21,
        Member::JsSlash => 22,
        Member::JsPlus => 23,
        Member::JsMinus => 24,
        Member::JsHash => 25,
        Member::RegexpSlash => 26,
        Member::JsStar => 27,
        Member::CssWord => 28,
        Member::CssSlash => 29,
        Member::CssLt => 30,
        Member::CssStar => 31,
    }
}

// The member that a member after a byte comes from, behind the bytes that a URL, a style or a script is fed.
fn behind_origin(text: &[u8], index: usize, class: Class, scan: Scan, member: Member) -> Member
    requires inside { index < length text.now }
    requires pending { pending_from scan ≤ index }
    ensures { result ≡ spec.behind_origin (scan_at text.now index scan) (class_at class)
        (get_or text.now index 0) member }
{
    match scan {
        Scan::At(place) => place_origin(place, class, member),
        Scan::InAttributeName { typed, .. } => name_origin(typed),
        Scan::InUrl { place, .. } => in_body_origin(place.body, member),
        Scan::InStyle { .. } => unsensed(in_value_origin(member)),
        Scan::InScript { .. } => in_value_origin(member),
        Scan::InStyleElement(_) | Scan::AfterStyleLess(_) => member,
        Scan::InStyleName { from, .. } => {
            let whole = is_name_of(Element::Style, pending(text, from + 2, index));
            end_name_origin(whole, class, member)
        }
        Scan::InScriptElement { script, pending } => {
            step_origin(text, index, class, script, pending, member)
        }
        _ => Member::Whole,
    }
}

// Behind the end tag of the element `style` all is so on each path.
fn end_name_origin(whole: bool, class: Class, member: Member) -> Member
    ensures { result ≡ spec.end_name_origin whole (class_at class) member }
{
    match class {
        Class::White | Class::Solidus | Class::GreaterThan if whole => Member::Whole,
        _ => member,
    }
}

fn place_origin(place: Place, class: Class, member: Member) -> Member
    ensures { result ≡ spec.place_origin place (class_at class) member }
{
    match place {
        Place::Tag(tag) => tag_origin(class, tag.spots, member),
        Place::Value(value) => in_body_origin(value.body, member),
        Place::Style(_) | Place::Script(_) => member,
        _ => Member::Whole,
    }
}

// In a value with this body: the same, where the byte may end the value and its tag.
fn in_body_origin(body: Body, member: Member) -> Member
    ensures { result ≡ spec.in_body_origin body member }
{
    match body {
        Body::Js(_) => in_value_origin(member),
        _ => unsensed(in_value_origin(member)),
    }
}

// In a value that is no script nothing is said of a slash.
fn unsensed(member: Member) -> Member
    ensures { result ≡ spec.unsensed member }
{
    match member {
        Member::SenseRe => Member::Whole,
        _ => member,
    }
}

/// In a value: the member before a byte, or a hole, from which one behind the bytes that it is fed comes.
pub fn in_value_origin(member: Member) -> Member
    ensures { result ≡ spec.in_value_origin member }
{
    match member {
        Member::PartStart
        | Member::PartOpen
        | Member::PartOpenhole
        | Member::PartPrequery
        | Member::PartQuery
        | Member::PartBad
        | Member::CssWord
        | Member::CssSlash
        | Member::CssLt
        | Member::CssStar
        | Member::SenseRe
        | Member::SenseDiv
        | Member::SenseBrace
        | Member::JsWord
        | Member::JsNum
        | Member::JsLt
        | Member::JsSlash
        | Member::JsPlus
        | Member::JsMinus
        | Member::JsHash
        | Member::RegexpSlash
        | Member::JsStar => member,
        _ => typed_origin(member),
    }
}

/// In a URL, the part before a byte that a part behind it comes from.
pub fn part_origin(parts: Parts, byte: u8, member: Member) -> Member
    ensures { result ≡ spec.part_origin parts (urls.url_class_of byte) member }
{
    match url_class_of(byte) {
        UrlClass::TabOrNewline | UrlClass::ControlOrSpace => member,
        UrlClass::Colon => colon_origin(parts, member),
        UrlClass::Slash => slash_origin(parts, member),
        UrlClass::QueryMark => mark_origin(parts, member),
        UrlClass::Percent | UrlClass::Hexadecimal | UrlClass::Other => {
            character_origin(parts, member)
        }
    }
}

fn colon_origin(parts: Parts, member: Member) -> Member
    ensures { result ≡ spec.colon_origin parts member }
{
    match member {
        Member::PartPrequery if parts.start => Member::PartStart,
        Member::PartPrequery if parts.prequery => Member::PartPrequery,
        Member::PartPrequery => Member::PartOpen,
        Member::PartBad if parts.bad => Member::PartBad,
        Member::PartBad => Member::PartOpen,
        _ => member,
    }
}

fn slash_origin(parts: Parts, member: Member) -> Member
    ensures { result ≡ spec.slash_origin parts member }
{
    match member {
        Member::PartPrequery if parts.start => Member::PartStart,
        Member::PartPrequery if parts.opened.is_some() => Member::PartOpen,
        Member::PartPrequery if parts.openhole => Member::PartOpenhole,
        _ => member,
    }
}

fn mark_origin(parts: Parts, member: Member) -> Member
    ensures { result ≡ spec.mark_origin parts member }
{
    match member {
        Member::PartQuery if parts.start => Member::PartStart,
        Member::PartQuery if parts.opened.is_some() => Member::PartOpen,
        Member::PartQuery if parts.openhole => Member::PartOpenhole,
        Member::PartQuery if parts.prequery => Member::PartPrequery,
        _ => member,
    }
}

fn character_origin(parts: Parts, member: Member) -> Member
    ensures { result ≡ spec.character_origin parts member }
{
    match member {
        Member::PartOpen if parts.start => Member::PartStart,
        _ => member,
    }
}

fn tag_origin(class: Class, spots: Spots, member: Member) -> Member
    ensures { result ≡ spec.tag_origin (class_at class) spots member }
{
    match class {
        Class::White => white_origin(spots, member),
        _ => typed_origin(member),
    }
}

// White space leads from a name to before one, and from in a name to after one.
fn white_origin(spots: Spots, member: Member) -> Member
    ensures { result ≡ spec.white_origin spots member }
{
    match member {
        Member::Typed => Member::Typed,
        Member::BeforeSpot if spots.name => Member::NameSpot,
        Member::BeforeSpot => Member::BeforeSpot,
        Member::AfterSpot if spots.inside => Member::InsideSpot,
        Member::AfterSpot => Member::AfterSpot,
        _ => Member::Whole,
    }
}

/// Where nothing but that a `type` may have been seen stays as it is: the member that this one comes from.
pub fn typed_origin(member: Member) -> Member
    ensures { result ≡ spec.typed_origin member }
{
    match member {
        Member::Typed => Member::Typed,
        _ => Member::Whole,
    }
}

/// The member of paths in a name of an attribute that shows how it is read.
pub fn name_origin(typed: bool) -> Member
    ensures { result ≡ spec.name_origin typed }
{
    if typed { Member::Typed } else { Member::Whole }
}
