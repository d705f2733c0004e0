// What a byte does in the element `script`: the script reads it, with what was pending back; or it is pending too; or the end tag ends
// the element.
ghost use Rattle.std.specs.Prelude.{◌≡◌, ◌||◌, ◌+◌, ◌-◌, ◌^◌, ◌<◌, ◌≤◌, ◌∷◌, ◌++◌, ℕ, List, [], false, get_or, length};
ghost use Rattle.js_lexer.specs.Written.{begins_hidden, is_hidden_in_script};
ghost use Rattle.place_core.specs.declared.element.Element.TheVariants as element;
ghost use Rattle.place_core.specs.page.Contents.{in_word, pending_bytes, step_end_name, step_in_script, step_in_token, step_less, step_loose, word_goes_on};
ghost use Rattle.place_core.specs.page.Contents as spec;
ghost use Rattle.place_core.specs.page.States.{Pending, PendingLess, PendingBang, PendingName};
ghost use Rattle.html_scan.specs.ClassViews.{class_at};
ghost use Rattle.html_scan.specs.ScanViews.{pending_length, script_pending_at};
ghost use Rattle.html_scan.specs.ScriptStepViews.{in_word_at, judged_word, script_step_at, step_length};
ghost use Rattle.html_scan.specs.Slices as slices;

use crate::class::Class;
use crate::names::{is_name_of, may_be_name_of};
use crate::script_pending::ScriptPending;
use crate::slices::pending;
use html_words::{begins, same};
use place_core::Element;

/// Whether bytes are one of the words that are text in a token of a script, or begin one.
#[derive(Clone, Copy)]
pub enum InWord {
    IsWord,
    BeginsWord,
    NoWord,
}

/// What a byte does.
#[derive(Clone, Copy)]
pub enum ScriptStep {
    /// This is pending behind it, and the script reads nothing.
    Holds(ScriptPending),
    /// The script reads what was pending, and the byte is pending: it is a `<`.
    Releases,
    /// The script reads what was pending, and the byte.
    Reads,
    /// The end tag with so many letters ends the element.
    Ends { letters: usize },
}

/// What a byte does: by whether an end tag may end the script, and by what is pending back.
#[inline(always)]
pub fn script_step(
    text: &[u8],
    index: usize,
    class: Class,
    may_end: bool,
    back: ScriptPending,
) -> ScriptStep
    requires inside { index < length text.now }
    requires pending { pending_length back ≤ index }
    ensures step { script_step_at text.now index (script_pending_at text.now index back)
        (get_or text.now index 0) result
        ≡ spec.script_step may_end element.Script (script_pending_at text.now index back)
        (class_at class) (get_or text.now index 0) }
    ensures length { step_length result ≤ pending_length back + 1 }
{
    if may_end {
        in_code(text, index, class, back)
    } else {
        in_token(text, index, class, back)
    }
}

// Where the end tag ends the script.
#[tactic(auto, using(crate::proofs::ScriptWords::letters_grow))]
fn in_code(text: &[u8], index: usize, class: Class, back: ScriptPending) -> ScriptStep
    requires inside { index < length text.now }
    requires pending { pending_length back ≤ index }
    ensures step { script_step_at text.now index (script_pending_at text.now index back)
        (get_or text.now index 0) result
        ≡ step_in_script element.Script (script_pending_at text.now index back)
        (class_at class) (get_or text.now index 0) }
    ensures length { step_length result ≤ pending_length back + 1 }
{
    match back {
        ScriptPending::Less => after_less(class),
        ScriptPending::Name { letters } => {
            let name = pending(text, index - letters, index);
            let grows = may_be_name_of(Element::Script, pending(text, index - letters, index + 1));
            after_letters(class, grows, is_name_of(Element::Script, name), letters)
        }
        ScriptPending::Bang => after_bang(class),
        ScriptPending::Nothing | ScriptPending::BangDash | ScriptPending::Opening { .. } => {
            loose(class)
        }
    }
}

// Behind bytes that come to nothing.
fn loose(class: Class) -> ScriptStep
    ensures step { (text : List ℕ) (k : ℕ) (h : Pending) (b : ℕ) → script_step_at text k h b result
        ≡ step_loose (pending_bytes h) (class_at class) b }
    ensures length { step_length result ≤ 1 }
{
    match class {
        Class::LessThan => ScriptStep::Releases,
        _ => ScriptStep::Reads,
    }
}

// After `<`.
fn after_less(class: Class) -> ScriptStep
    ensures step { (text : List ℕ) (k : ℕ) (b : ℕ) → script_step_at text k PendingLess b result
        ≡ step_less (class_at class) b }
    ensures length { step_length result ≤ 2 }
{
    match class {
        Class::Solidus => ScriptStep::Holds(ScriptPending::Name { letters: 0 }),
        Class::ExclamationMark => ScriptStep::Holds(ScriptPending::Bang),
        _ => loose(class),
    }
}

// After `<!`.
fn after_bang(class: Class) -> ScriptStep
    ensures step { (text : List ℕ) (k : ℕ) (b : ℕ) → script_step_at text k PendingBang b result
        ≡ spec.step_bang (class_at class) b }
    ensures length { step_length result ≤ 3 }
{
    match class {
        Class::HyphenMinus => ScriptStep::Holds(ScriptPending::BangDash),
        _ => loose(class),
    }
}

// After `</` and so many letters: whether the byte goes on with the name of the element, and whether they are all of it.
#[tactic(auto, using(crate::proofs::ScriptWords::letters_longer))]
fn after_letters(class: Class, grows: bool, whole: bool, letters: usize) -> ScriptStep
    requires room { letters + 1 < 2 ^ 64 }
    ensures step { (text : List ℕ) (k : ℕ) → letters ≤ k → k < length text
        → script_step_at text k (PendingName (slices.pending text (k - letters) k))
        (get_or text k 0) result ≡ step_end_name grows whole (class_at class) (get_or text k 0)
        (slices.pending text (k - letters) k) }
    ensures length { step_length result ≤ letters + 3 }
{
    match class {
        Class::Letter(_) if grows => ScriptStep::Holds(ScriptPending::Name {
            letters: letters + 1,
        }),
        Class::White | Class::Solidus | Class::GreaterThan if whole => ScriptStep::Ends { letters },
        _ => loose(class),
    }
}

// In a token of the script, where the end tag is text.
fn in_token(text: &[u8], index: usize, class: Class, back: ScriptPending) -> ScriptStep
    requires inside { index < length text.now }
    requires pending { pending_length back ≤ index }
    ensures step { let h = script_pending_at text.now index back in let b = get_or text.now index 0
        in script_step_at text.now index h b result
        ≡ step_in_token (in_word (pending_bytes h ++ b ∷ [])) h (class_at class) b }
    ensures length { step_length result ≤ pending_length back + 1 }
{
    match word_behind(text, index, back) {
        InWord::IsWord => ScriptStep::Reads,
        InWord::BeginsWord => ScriptStep::Holds(longer(class, back)),
        InWord::NoWord => loose(class),
    }
}

// What is pending behind a byte with which a word goes on.
#[tactic(auto, using(crate::proofs::ScriptWords::letters_longer, crate::proofs::PendingNames::pending_begins))]
fn longer(class: Class, back: ScriptPending) -> ScriptPending
    requires room { pending_length back < 2 ^ 64 }
    ensures pending { (text : List ℕ) (k : ℕ) → pending_length back ≤ k → k < length text
        → script_pending_at text (k + 1) result
        ≡ word_goes_on (script_pending_at text k back) (class_at class) (get_or text k 0) }
    ensures length { pending_length result ≤ pending_length back + 1 }
{
    match back {
        ScriptPending::Less => match class {
            Class::Solidus => ScriptPending::Name { letters: 0 },
            Class::ExclamationMark => ScriptPending::Bang,
            _ => ScriptPending::Opening { letters: 1 },
        },
        ScriptPending::Name { letters } => ScriptPending::Name {
            letters: letters + 1,
        },
        ScriptPending::Opening { letters } => ScriptPending::Opening {
            letters: letters + 1,
        },
        ScriptPending::Bang => ScriptPending::BangDash,
        ScriptPending::Nothing | ScriptPending::BangDash => ScriptPending::Less,
    }
}

// What the bytes that are pending are with the one at hand.
fn word_behind(text: &[u8], index: usize, back: ScriptPending) -> InWord
    requires inside { index < length text.now }
    requires pending { pending_length back ≤ index }
    ensures { in_word_at result ≡ in_word (pending_bytes (script_pending_at text.now index back)
        ++ get_or text.now index 0 ∷ []) }
{
    match back {
        ScriptPending::Nothing => judged(false, text[index] == b'<'),
        ScriptPending::Less => word_after_less(pending(text, index, index + 1)),
        ScriptPending::Name { letters } => {
            word_after_solidus(pending(text, index - letters, index + 1))
        }
        ScriptPending::Bang => judged(false, text[index] == b'-'),
        ScriptPending::BangDash => judged(text[index] == b'-', false),
        ScriptPending::Opening { letters } => {
            word_after_less(pending(text, index - letters, index + 1))
        }
    }
}

// By whether bytes are a word, and whether they begin one.
fn judged(is: bool, begins: bool) -> InWord
    ensures { in_word_at result ≡ judged_word is begins }
{
    if is {
        InWord::IsWord
    } else if begins {
        InWord::BeginsWord
    } else {
        InWord::NoWord
    }
}

// Bytes after a `<`.
#[tactic(auto, using(crate::proofs::ScriptWords::judged_in))]
fn word_after_less(bytes: &[u8]) -> InWord
    ensures { in_word_at result ≡ in_word (60 ∷ bytes.now) }
{
    judged(is_after_less(bytes), begins_after_less(bytes))
}

#[tactic(auto, using(crate::proofs::ScriptWords::word_after_less))]
fn is_after_less(bytes: &[u8]) -> bool
    ensures { result ≡ is_hidden_in_script (60 ∷ bytes.now) }
{
    any(
        same(bytes, b"script"),
        same(bytes, b"/script"),
        same(bytes, b"!--"),
    )
}

#[tactic(auto, using(crate::proofs::ScriptWords::begun_after_less))]
fn begins_after_less(bytes: &[u8]) -> bool
    ensures { result ≡ begins_hidden (60 ∷ bytes.now) }
{
    any(
        begins(b"script", bytes),
        begins(b"/script", bytes),
        begins(b"!--", bytes),
    )
}

fn any(one: bool, two: bool, three: bool) -> bool
    ensures { result ≡ (one || (two || (three || false))) }
{
    one || two || three
}

// Bytes after `</`.
fn word_after_solidus(bytes: &[u8]) -> InWord
    ensures { in_word_at result ≡ in_word (60 ∷ 47 ∷ bytes.now) }
{
    judged(same(bytes, b"script"), begins(b"script", bytes))
}
