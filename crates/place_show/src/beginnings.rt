ghost use Rattle.std.specs.Prelude.{◌≡◌, ◌<◌, ◌≤◌, ◌^◌, IfSome, IsTrue, Some, length};
ghost use Rattle.place_core.specs.page.States.{LexState};
ghost use Rattle.place_core.specs.page.Tags.{ValueState};
ghost use Rattle.place_core.specs.place.PathPairs.{ClashesApart, Keeps, PartWithin};
ghost use Rattle.place_core.specs.place.StatePlaces.{placed};
ghost use Rattle.place_show.specs.LastApart.{AreShownBy, IsFoundIn};
ghost use Rattle.html_step.specs.ApartInText.{TakesByte};
ghost use Rattle.place_show.specs.Unknown.{IsOwn, LeadsApart, PassText};
ghost use Rattle.html_step.specs.Steps as spec;

use crate::unknown::unknown;
use html_step::{after_text, last_apart, place_before};
use place_core::{Place, StepErr, has_apart, join};

/// Whether a text is refused from a place after this byte, or nowhere. It takes time in proportion to the length of the text.
pub(crate) fn takes(place: Place, text: &str, byte: u32) -> bool
    requires { length text.now < 2 ^ 32 }
    ensures { IsTrue result → TakesByte byte (spec.after_text text.now place) }
{
    match after_text(place, text) {
        Ok(_) => true,
        Err(refused) => byte < refused.at,
    }
}

/// The places of two paths at the last point of a text, up to one of its points, at which they are apart in the beginning of a URL, by
/// their places before the text. It takes time in proportion to the length of the text.
pub(crate) fn last_places(one: Place, other: Place, text: &str, upto: u32) -> Option<(Place, Place)>
    requires { length text.now < 2 ^ 32 }
    ensures { (s r : LexState ValueState) → placed s ≡ Some one → placed r ≡ Some other
        → TakesByte upto (spec.after_text text.now one)
        → TakesByte upto (spec.after_text text.now other) → IsFoundIn upto text.now s r result }
{
    match last_apart(one, other, text, upto) {
        Some(after) => Some((
            place_before(one, text, after),
            place_before(other, text, after),
        )),
        None => None,
    }
}

/// Where two paths are shown which a text refuses together at a byte that it takes on each of them: at the last point before it at which
/// they were apart, or at the byte. None where there is no such point, but the place that stands for both says that they met apart. It takes time in
/// proportion to the length of the text.
pub(crate) fn shown_places(
    one: Place,
    other: Place,
    both: Place,
    text: &str,
    at: u32,
) -> Option<(Place, Place)>
    requires { length text.now < 2 ^ 32 }
    ensures { IfSome result (λ shown. (s r : LexState ValueState)
        → placed s ≡ Some one → placed r ≡ Some other
        → TakesByte at (spec.after_text text.now one)
        → TakesByte at (spec.after_text text.now other)
        → AreShownBy both at text.now s r shown.0 shown.1) }
{
    match last_places(one, other, text, at) {
        Some(shown) => Some(shown),
        None => {
            if has_apart(both) {
                return None;
            }
            Some((place_before(one, text, at), place_before(other, text, at)))
        }
    }
}

// Whether a text keeps a path in the beginning of a URL, at each of its bytes and at its end.
fn keeps(place: Place, text: &str) -> bool
    requires { length text.now < 2 ^ 32 }
    ensures { IsTrue result → (s : LexState ValueState) → IsOwn place s → Keeps text.now s }
{
    match unknown(place) {
        Some(open) => leads_apart(open, text),
        None => false,
    }
}

// Whether two paths come apart in a text, and stay in the beginning of the URL to its end.
fn part(one: Place, other: Place, text: &str) -> bool
    requires { length text.now < 2 ^ 32 }
    ensures { IsTrue result → (s r : LexState ValueState) → IsOwn one s → IsOwn other r
        → PartWithin text.now s r }
{
    let Some(both) = join(one, other) else {
        return false;
    };
    if has_apart(both) {
        return false;
    }
    leads_apart(both, text)
}

fn leads_apart(both: Place, text: &str) -> bool
    requires { length text.now < 2 ^ 32 }
    ensures { IsTrue result → LeadsApart text.now both }
{
    match after_text(both, text) {
        Ok(after) => has_apart(after),
        Err(_) => false,
    }
}

// Whether two paths go on in a text as ones that met apart; if they have not come apart before it, they do in it.
fn pass(one: Place, other: Place, text: &str, apart: bool) -> bool
    requires { length text.now < 2 ^ 32 }
    ensures { IsTrue result → (s r : LexState ValueState) → IsOwn one s → IsOwn other r
        → PassText apart text.now s r }
{
    if !apart {
        return part(one, other, text);
    }
    if !keeps(one, text) {
        return false;
    }
    keeps(other, text)
}

fn length_of(text: &str) -> u32
    requires { length text.now < 2 ^ 32 }
    ensures { result ≡ length text.now }
{
    text.len() as u32
}

/// Their places at the last point of the text at which they are apart, where two paths go on in it as ones that met apart; if they have
/// not come apart before it, they do in it. It takes time in proportion to the length of the text.
pub(crate) fn passed(
    one: Place,
    other: Place,
    text: &str,
    apart: bool,
) -> Option<Option<(Place, Place)>>
    requires { length text.now < 2 ^ 32 }
    ensures { IfSome result (λ found. (s r : LexState ValueState) → IsOwn one s → IsOwn other r
        → PassText apart text.now s r × IsFoundIn (length text.now) text.now s r found) }
{
    let end = length_of(text);
    if !takes(one, text, end) {
        return None;
    }
    if !takes(other, text, end) {
        return None;
    }
    if !pass(one, other, text, apart) {
        return None;
    }
    Some(last_places(one, other, text, end))
}

// A `:` at which a text is refused on a path that is in the beginning of a URL, if it is not known what that spells.
fn colon(place: Place, text: &str) -> Option<StepErr<Place>>
    requires { length text.now < 2 ^ 32 }
    ensures within { IfSome result (λ e. e.at ≤ length text.now) }
    ensures takes { IfSome result (λ e. TakesByte e.at (spec.after_text text.now place)) }
    ensures clash { IfSome result (λ e. (s : LexState ValueState) → IsOwn place s
        → ClashesApart text.now s s e.code e.at) }
{
    let Some(open) = unknown(place) else {
        return None;
    };
    match after_text(open, text) {
        Ok(_) => None,
        Err(refused) => {
            if !takes(place, text, refused.at) {
                return None;
            }
            Some(refused)
        }
    }
}

/// A `:` at which a text is refused on two paths that met apart before it. It takes time in proportion to the length of the text.
pub(crate) fn common_colon(one: Place, other: Place, text: &str) -> Option<StepErr<Place>>
    requires { length text.now < 2 ^ 32 }
    ensures within { IfSome result (λ e. e.at ≤ length text.now) }
    ensures one { IfSome result (λ e. TakesByte e.at (spec.after_text text.now one)) }
    ensures other { IfSome result (λ e. TakesByte e.at (spec.after_text text.now other)) }
    ensures clash { IfSome result (λ e. (s r : LexState ValueState) → IsOwn one s → IsOwn other r
        → ClashesApart text.now s r e.code e.at) }
{
    let Some(refused) = colon(one, text) else {
        return None;
    };
    let Some(other_refused) = colon(other, text) else {
        return None;
    };
    if refused.at != other_refused.at {
        return None;
    }
    Some(refused)
}
