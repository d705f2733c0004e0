ghost use Rattle.std.specs.Prelude.{◌≡◌, ◌<◌, ◌≤◌, ◌-◌, ◌^◌, IfErr, IfSome, get_or, length};
ghost use Rattle.html_scan.specs.ClassViews.{class_at};
ghost use Rattle.html_scan.specs.ScanViews.{cause_at, scan_at, pending_from};
ghost use Rattle.html_scan.specs.Scans.{At, scan_cut_error, scan_deep_behind, scan_error, scan_lexeme_error, scan_place, scan_reference, scan_script_cut_refusal, scan_script_refusal};
ghost use Rattle.html_scan.specs.ScriptPlaces.{begins_behind, places_from, cause_stands_at};
ghost use Rattle.place_core.specs.place.Errors.{nothing_read, or_deep};
ghost use Rattle.place_core.specs.place.LastLexeme.{last_lexeme_start};
ghost use Rattle.html_step.specs.StepViews.{StandsFirst, stepped_at};
ghost use Rattle.html_step.specs.Steps as spec;

use crate::refusal::Refusal;
use html_scan::{
    Cause, Class, Scan, at_byte, at_end, class_of, end_place, is_shown, last_lexeme_start,
    lexeme_at_end, next, script_at_byte, script_at_end, script_begins, script_too_deep,
    shown_place,
};
use place_core::{Code, Place, StepErr};

/// The place after a text of a template, from the place before it; or why the text is refused and at which of its bytes, with the place
/// before that byte, or before the lexeme in which it stands. Of several bytes that are refused it is the first. (HTML Standard, section
/// 13.2.5.) The causes:
///
/// - `BadHTML`: in a tag, a quote or a `<` in or before a name, and a `=` before one; in a value without quotes a quote; there and before
///   such a value a `<`, a `=` or a grave accent; a second `type` of a script, at the first byte of its name; a text that ends in the value
///   of a script's `type`; in a URL a reference by a name that stands for no character, at its `&`.
/// - `SplitToken`: the first byte of a text that would go on with a name, or with what may be the end of a comment, in which the text
///   before it ended, or with a name that is a value of data, or with the `<` in which it ended in a data block; a text that ends in a data
///   block in a beginning of `</script` after its `</`, or in `<!` or `<!-`.
/// - `HtmlInScript`: a `<!--` in a data block.
/// - `AmbigContext`: a blank that on some paths ends a value without quotes, and on others stands before one; in the beginning of a URL a
///   `:`, also as a reference, behind a value of data, or where paths have spelled different things.
/// - `PartialEscape`: a text that ends in a percent triple of a URL.
/// - In a script, of a value or of the element: `SplitToken`, `SlashAmbig`, `BadString`, `HtmlInScript` and `PartialEscape` as `js_lexer`
///   says of scripts; `PartialCharset`: a text that ends in a `[ ]` of a regular expression; `JSTemplate`: one that ends in a template
///   literal, or where literals nest too deep.
///
/// Takes no memory, and time in proportion to the length of the text.
pub fn after_text(place: Place, text: &str) -> Result<Place, StepErr<Place>>
    requires { length text.now < 2 ^ 32 }
    ensures place { result ≡ spec.after_text text.now place }
    ensures bound { IfErr result (λ refused. refused.at ≤ length text.now) }
{
    match stepped(text.as_bytes(), place) {
        Ok(after) => Ok(after),
        Err(refusal) => {
            let before = place_before(place, text, refusal.shown as u32);
            Err(StepErr {
                code: refusal.code,
                at: refusal.at as u32,
                before,
            })
        }
    }
}

/// The place that is shown before a byte of a text, from the place before the text, whatever is refused there: where the text would
/// end there, or the last place before, in the value of a script's `type`, where there is none. The byte is given by its place in
/// the text, in bytes; from the text's end on it is the place after the text. (HTML Standard, section 13.2.5.) Takes no memory, and
/// time in proportion to the length of the text.
pub fn place_before(place: Place, text: &str, at: u32) -> Place
    ensures { result ≡ spec.place_before text.now at place }
{
    let text = text.as_bytes();
    shown(text, (at as usize).min(text.len()), place)
}

// The place that is shown before a byte of a text, or at its end.
fn shown(text: &[u8], at: usize, place: Place) -> Place
    requires inside { at ≤ length text.now }
    ensures { result ≡ spec.place_before text.now at place }
{
    let mut scan = Scan::At(place);
    let mut last = scan;
    let mut end = 0;
    for index in 0..at {
        if is_shown(text, index, scan) {
            last = scan;
            end = index;
        }
        scan = next(text, index, class_of(text[index]), scan);
    }
    if is_shown(text, at, scan) {
        last = scan;
        end = at;
    }
    match shown_place(text, end, last) {
        Some(shown) => shown,
        None => place,
    }
}

// What is known of the bytes of a text that have been read, since it says where what is refused later stands: the place of the last
// `%` or `\`, where the bytes begin that the script of the open value is fed, and where a value has ended in literals that nest too
// deep, the place before the outermost one.
#[derive(Clone, Copy)]
struct ReadSoFar {
    since: usize,
    begins: usize,
    deep: Option<usize>,
}

// The place after a text, or what is refused there first.
fn stepped(text: &[u8], place: Place) -> Result<Place, Refusal>
    ensures place { stepped_at result ≡ spec.stepped 0 nothing_read text.now (At place) }
    ensures bound { IfErr result (λ refusal.
        (refusal.at ≤ length text.now) × (refusal.shown ≤ length text.now)) }
{
    let mut scan = Scan::At(place);
    let mut known = ReadSoFar {
        since: 0,
        begins: 0,
        deep: None,
    };
    for index in 0..text.len() {
        let class = class_of(text[index]);
        match refused_at(text, index, class, scan, known.begins) {
            Some(cause) => return Err(refused(cause, index)),
            None => {
                known = behind(text, index, class, scan, known);
                scan = next(text, index, class, scan);
            }
        }
    }
    match refused_at_end(text, scan, known.begins) {
        Some(cause) => Err(refused(cause, text.len())),
        None => ended(text, known, scan),
    }
}

// What is refused at a byte: of a script, which may be a byte before it, and by what else it is read as, the one that stands first.
fn refused_at(text: &[u8], index: usize, class: Class, scan: Scan, begins: usize) -> Option<Cause>
    requires inside { index < length text.now }
    requires pending { pending_from scan ≤ index }
    requires begun { begins ≤ index }
    ensures refusal { let f = scan_at text.now index scan in let c = class_at class
        in let b = get_or text.now index 0 in StandsFirst index (cause_at result)
        (scan_script_refusal index (places_from text.now begins index) f c b) (scan_error f c b) }
    ensures bound { IfSome result (λ cause. (cause.back ≤ index) × (cause.shown ≤ index)) }
{
    first(
        index,
        script_at_byte(text, index, class, scan, begins),
        at_byte(text, index, class, scan),
    )
}

// Likewise where the text ends.
fn refused_at_end(text: &[u8], scan: Scan, begins: usize) -> Option<Cause>
    requires pending { pending_from scan ≤ length text.now }
    requires begun { begins ≤ length text.now }
    ensures refusal { let k = length text.now in let f = scan_at text.now k scan
        in StandsFirst k (cause_at result)
        (scan_script_cut_refusal k (places_from text.now begins k) f) (scan_cut_error f) }
    ensures bound { IfSome result (λ cause.
        (cause.back ≤ length text.now) × (cause.shown ≤ length text.now)) }
{
    first(
        text.len(),
        script_at_end(text, scan, begins),
        at_end(text, scan),
    )
}

// Of what a script refuses and what else is refused the one that stands first.
fn first(index: usize, script: Option<Cause>, other: Option<Cause>) -> Option<Cause>
    requires script { IfSome script (λ cause. (cause.back ≤ index) × (cause.shown ≤ index)) }
    requires other { IfSome other (λ cause. (cause.back ≤ index) × (cause.shown ≤ index)) }
    ensures refusal { StandsFirst index (cause_at result) (cause_stands_at index (cause_at script))
        (cause_at other) }
    ensures bound { IfSome result (λ cause. (cause.back ≤ index) × (cause.shown ≤ index)) }
{
    match (script, other) {
        (None, other) => other,
        (Some(script), None) => Some(script),
        (Some(script), Some(other)) => {
            if other.back < script.back {
                Some(script)
            } else {
                Some(other)
            }
        }
    }
}

// What is known behind a byte.
fn behind(text: &[u8], index: usize, class: Class, scan: Scan, known: ReadSoFar) -> ReadSoFar
    requires inside { index < length text.now }
    requires pending { pending_from scan ≤ index }
    requires begun { known.begins ≤ index }
    requires since { known.since ≤ index }
    requires deep { IfSome known.deep (λ shown. shown ≤ index) }
    ensures since { result.since ≡ last_lexeme_start index known.since
        (scan_reference (scan_at text.now index scan)) (class_at class) (get_or text.now index 0) }
    ensures begins { result.begins
        ≡ begins_behind index (scan_at text.now index scan) known.begins }
    ensures deep { result.deep ≡ or_deep known.deep (scan_deep_behind index
        (places_from text.now known.begins index)
        (scan_at text.now index scan) (class_at class) (get_or text.now index 0)) }
    ensures bound { (result.since ≤ index) × (result.begins ≤ index) }
    ensures within { IfSome result.deep (λ shown. shown ≤ index) }
{
    ReadSoFar {
        since: last_lexeme_start(text, index, known.since, class, scan),
        begins: script_begins(index, scan, known.begins),
        deep: match known.deep {
            Some(shown) => Some(shown),
            None => script_too_deep(text, index, class, scan, known.begins),
        },
    }
}

// Where a text ends: it is refused if a value in it has ended in literals that nest too deep, or else in a lexeme that has begun.
fn ended(text: &[u8], known: ReadSoFar, scan: Scan) -> Result<Place, Refusal>
    requires pending { pending_from scan ≤ length text.now }
    requires since { known.since ≤ length text.now }
    requires deep { IfSome known.deep (λ shown. shown ≤ length text.now) }
    ensures place { let after = scan_at text.now (length text.now) scan
        in stepped_at result ≡ spec.unless_too_deep (length text.now) known.deep
        (spec.unless_broken_off (length text.now) known.since
        (scan_lexeme_error after) (scan_place after)) }
    ensures bound { IfErr result (λ refusal.
        (refusal.at ≤ length text.now) × (refusal.shown ≤ length text.now)) }
{
    if let Some(shown) = known.deep {
        return Err(Refusal {
            code: Code::JSTemplate,
            at: text.len(),
            shown,
        });
    }
    match lexeme_at_end(text, scan) {
        Some(code) => Err(Refusal {
            code,
            at: text.len(),
            shown: known.since,
        }),
        None => Ok(end_place(text, scan)),
    }
}

// A cause at a byte, or before it.
fn refused(cause: Cause, index: usize) -> Refusal
    requires back { cause.back ≤ index }
    requires shown { cause.shown ≤ index }
    ensures code { result.code ≡ cause.code }
    ensures at { result.at ≡ index - cause.back }
    ensures shown { result.shown ≡ index - cause.shown }
    ensures bound { (result.at ≤ index) × (result.shown ≤ index) }
{
    Refusal {
        code: cause.code,
        at: index - cause.back,
        shown: index - cause.shown,
    }
}
