// What the bytes of a text feed a script, with references undone, as to where it stands in the text.
ghost use Rattle.std.specs.Prelude.{◌≡◌, ◌+◌, ◌*◌, ◌^◌, ◌<◌, ◌≤◌, ◌++◌, ℕ, List, true, false, encode_utf8, get_or};
ghost use Rattle.std.specs.Prelude as prelude;
ghost use Rattle.place_core.specs.page.References as references;
ghost use Rattle.place_core.specs.place.Errors.{cut_places, fed_places, placed_bytes};
ghost use Rattle.html_scan.specs.ClassViews.{class_at};
ghost use Rattle.html_scan.specs.ScanViews.{open_form_at, open_reference_at, reference_from};
ghost use Rattle.html_scan.specs.ScriptPlaces.{fed_at, fed_last, fed_room, flushed_run, itself_places, places_fed, run_places};

use crate::class::{Class, class_of};
use crate::references::{
    OpenReference, Outcome, ReferenceForm, broken_char, is_equals, meaning, turn,
};
use crate::slices::pending;

/// The bytes that one byte of a text feeds a script, by the places at which they stand: so many from one place on, each at its own or
/// all at that one, which are those of a reference; and the byte itself, or not.
#[derive(Clone, Copy)]
pub struct FedRun {
    pub from: usize,
    pub count: usize,
    pub written: bool,
    pub itself: bool,
}

/// What a byte that goes on with the value feeds, and the reference that is open behind it.
#[derive(Clone, Copy)]
pub struct FedStep {
    pub run: FedRun,
    pub reference: Option<OpenReference>,
}

/// How many bytes they are.
#[tactic(auto, using(crate::proofs::FedRuns::length_fed))]
pub fn fed_count(run: FedRun) -> u128
    ensures count { (k : ℕ) → result ≡ prelude.length (fed_at run k) }
    ensures most { result ≤ 2 ^ 64 }
{
    let count = run.count as u128;
    if run.itself { count + 1 } else { count }
}

/// Where the byte of that number stands, of those that the byte at an index feeds; where they are fewer, it is the one at the index.
pub fn fed_place(run: FedRun, index: usize, number: u128) -> usize
    requires { fed_last run ≤ index }
    ensures place { result ≡ get_or (fed_at run index) number index }
    ensures bound { result ≤ index }
{
    if number >= run.count as u128 {
        return index;
    }
    if run.written {
        run.from + number as usize
    } else {
        run.from
    }
}

/// What the byte at an index feeds, by whether it ends the value.
pub fn fed_by(
    text: &[u8],
    index: usize,
    class: Class,
    ended: bool,
    reference: Option<OpenReference>,
) -> FedRun
    requires inside { index < prelude.length text.now }
    requires pending { reference_from reference ≤ index }
    ensures fed { fed_at result index ≡ places_fed (fed_places ended index
        (open_reference_at text.now index reference) (class_at class) (get_or text.now index 0)) }
    ensures last { fed_last result ≤ index }
{
    if !ended {
        return fed_step(text, index, class, reference).run;
    }
    match reference {
        None => nothing(index),
        Some(open) => {
            let read = pending(text, open.from + 1, index);
            of_broken(open.from, false, open.form, read, false)
        }
    }
}

/// What the byte at an index feeds, where it goes on with the value.
pub fn fed_step(
    text: &[u8],
    index: usize,
    class: Class,
    reference: Option<OpenReference>,
) -> FedStep
    requires inside { index < prelude.length text.now }
    requires pending { reference_from reference ≤ index }
    ensures fed { fed_at result.run index ≡ places_fed (fed_places false index
        (open_reference_at text.now index reference) (class_at class) (get_or text.now index 0)) }
    ensures last { fed_last result.run ≤ index }
    ensures behind { open_reference_at text.now (index + 1) result.reference
        ≡ references.next_reference (open_reference_at text.now index reference)
        (class_at class) (get_or text.now index 0) }
    ensures pending { reference_from result.reference ≤ index + 1 }
    ensures room { fed_room index reference + prelude.length (fed_at result.run index)
        ≤ fed_room (index + 1) result.reference }
{
    match reference {
        None => FedStep {
            run: FedRun {
                itself: is_plain(class),
                ..nothing(index)
            },
            reference: begun(class, index),
        },
        Some(open) => {
            let read = pending(text, open.from + 1, index);
            match turn(class, open.form) {
                Outcome::Grows(form) => FedStep {
                    run: nothing(index),
                    reference: Some(OpenReference { form, ..open }),
                },
                Outcome::Closes => FedStep {
                    run: of_char(open.from, meaning(open.form, read), false),
                    reference: None,
                },
                Outcome::Breaks => {
                    let plain = is_plain(class);
                    FedStep {
                        run: of_broken(open.from, is_equals(class), open.form, read, plain),
                        reference: begun(class, index),
                    }
                }
            }
        }
    }
}

// A reference that the byte opens.
fn begun(class: Class, index: usize) -> Option<OpenReference>
    ensures behind { (text : List ℕ) → open_reference_at text (index + 1) result
        ≡ references.begin_reference (class_at class) }
    ensures pending { reference_from result ≤ index + 1 }
    ensures room { 5 * index + 1 ≤ fed_room (index + 1) result }
{
    match class {
        Class::Ampersand => Some(OpenReference {
            form: ReferenceForm::Begun,
            from: index,
        }),
        _ => None,
    }
}

fn nothing(index: usize) -> FedRun
    ensures { result ≡ record { from = index; count = 0; written = false; itself = false } }
{
    FedRun {
        from: index,
        count: 0,
        written: false,
        itself: false,
    }
}

// Whether a byte is fed itself: one that opens a reference is not.
#[tactic(auto, using(crate::proofs::FedRuns::plain_itself))]
fn is_plain(class: Class) -> bool
    ensures { (k b : ℕ) → itself_places result k
        ≡ places_fed (placed_bytes false k (references.plain_bytes (class_at class) b)) }
{
    match class {
        Class::Ampersand => false,
        _ => true,
    }
}

// The bytes of a character, which all stand where its reference begins.
fn of_char(from: usize, found: char, itself: bool) -> FedRun
    ensures fed { (k : ℕ) → fed_at result k
        ≡ run_places false from (prelude.length (encode_utf8 found)) ++ itself_places itself k }
    ensures last { fed_last result ≡ from }
    ensures few { result.count ≤ 4 }
{
    FedRun {
        from,
        count: char_count(found),
        written: false,
        itself,
    }
}

// How many bytes a character has.
fn char_count(found: char) -> usize
    ensures count { result ≡ prelude.length (encode_utf8 found) }
    ensures few { result ≤ 4 }
{
    let mut buffer = [0; 4];
    found.encode_utf8(&mut buffer).len()
}

/// How many bytes a reference feeds that no semicolon ends.
pub fn broken_count(equals: bool, form: ReferenceForm, read: &[u8]) -> usize
    ensures count { result
        ≡ prelude.length (references.flushed true equals (open_form_at form) read.now) }
    ensures few { result ≤ prelude.length read.now + 4 }
{
    match broken_char(equals, form, read) {
        Some(found) => char_count(found),
        None => read.len() + 1,
    }
}

/// The bytes of a reference with which a text ends, each of which is text as it stands.
pub fn cut_run(text: &[u8], reference: Option<OpenReference>) -> FedRun
    requires pending { reference_from reference ≤ prelude.length text.now }
    ensures fed { let k = prelude.length text.now in fed_at result k
        ≡ places_fed (cut_places k (open_reference_at text.now k reference)) }
    ensures last { fed_last result ≤ prelude.length text.now }
{
    match reference {
        None => nothing(text.len()),
        Some(open) => FedRun {
            from: open.from,
            count: text.len() - open.from,
            written: true,
            itself: false,
        },
    }
}

// A reference that no semicolon ends: those of its character, or each of its own.
fn of_broken(from: usize, equals: bool, form: ReferenceForm, read: &[u8], itself: bool) -> FedRun
    ensures fed { (k : ℕ) → fed_at result k
        ≡ flushed_run from equals (open_form_at form) read.now ++ itself_places itself k }
    ensures last { fed_last result ≤ from + prelude.length read.now + 1 }
    ensures few { result.count ≤ prelude.length read.now + 4 }
{
    match broken_char(equals, form, read) {
        Some(found) => of_char(from, found, itself),
        None => FedRun {
            from,
            count: read.len() + 1,
            written: true,
            itself,
        },
    }
}
