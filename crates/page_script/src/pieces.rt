ghost use Rattle.std.specs.Prelude.{List, ◌≡◌, ◌+◌, ◌-◌, ◌++◌, ◌∷◌, [], ℕ, IfOk, IsUtf8, OnOk};
ghost use Rattle.js_lexer.specs.Classes as classes;
ghost use Rattle.js_lexer.specs.Feeding as feeding;
ghost use Rattle.js_lexer.specs.Feeding.{read_at};
ghost use Rattle.js_lexer.specs.WhiteSpace as spaces;
ghost use Rattle.js_lexer.specs.WhiteSpace.{classed, classed_as};
ghost use Rattle.page_script.specs.FoundViews.{piece_at, script_pieces_at, reading_at, script_state_at};
ghost use Rattle.page_script.specs.PieceTexts.{AreText};
ghost use Rattle.page_script.specs.ReadViews as views;
ghost use Rattle.page_script.specs.ReadViews.{BracesFit, most_script_bytes};
ghost use Rattle.page_script.specs.ScriptPieces as spec;
ghost use Rattle.page_script.specs.ScriptPieces.{script_pieces_of};

use crate::found::{FoundPieces, RawPiece};
use crate::point::{ReadAt, ReadLiterals, ReadPoint};
use crate::steps::{is_word, next_point};
use crate::white::{Held, Past, begins_white, next_held, past_ascii};
use js_lexer::{ScriptClass, Sense, class_of};
use page_io::{List, Memory, Text};
use page_piece::Piece;
use std::alloc::Global;

/// The pieces of a script, in order: its tokens and comments, each with its characters as they stand (ECMA-262, section 12). White space
/// is in none, but within others. A template literal is one piece, with all code in it. What the end of the script cuts has the kind of
/// what is open there. Fails only if allocation fails, and takes time in proportion to the script.
pub fn script_pieces(alloc: Global, text: &str) -> Result<List<Piece>, Memory>
    ensures { IfOk result (λ pieces. pieces ≡ script_pieces_of text.now) }
{
    let mut scan = started(alloc);
    for byte in text.as_bytes() {
        scan.feed(*byte)?;
    }
    let raws = scan.finish()?;
    with_texts(alloc, raws.as_slice())
}

// Pieces with their texts.
fn with_texts(alloc: Global, raws: &[RawPiece]) -> Result<List<Piece>, Memory>
    requires { AreText (script_pieces_at raws.now) }
    ensures { IfOk result (λ pieces. pieces ≡ script_pieces_at raws.now) }
{
    let mut pieces = List::new(alloc);
    for raw in raws {
        pieces.push(with_text(alloc, raw)?)?;
    }
    Ok(pieces)
}

// A piece with its text.
fn with_text(alloc: Global, raw: &RawPiece) -> Result<Piece, Memory>
    requires { IsUtf8 raw.now.bytes }
    ensures { IfOk result (λ piece. piece ≡ piece_at raw.now) }
{
    let text = String::from_utf8_lossy(alloc, raw.bytes.as_slice())?;
    Ok(Piece {
        kind: raw.kind,
        text: Text::from(text),
    })
}

// How far a script has been read: the word that may be open, and what is held back of white space past ASCII.
#[derive(Drop)]
struct PiecesScan {
    point: ReadPoint,
    word: Vec<u8>,
    held: Held,
    found: FoundPieces,
}

// Where a script begins.
fn started(alloc: Global) -> PiecesScan
    ensures fits { BracesFit 0 result.point.literals }
    ensures state { script_state_at result ≡ spec.pieces_start }
{
    PiecesScan {
        point: ReadPoint {
            literals: ReadLiterals {
                braces: [0; 16],
                free: 16,
            },
            at: ReadAt::Code(Sense::Re),
        },
        word: Vec::new(alloc),
        held: Held::None,
        found: FoundPieces::new(alloc),
    }
}

impl PiecesScan {
    // A byte of a class.
    #[tactic(auto, using(crate::proofs::OneByte::byte_rules))]
    fn step(&mut self, class: ScriptClass, byte: u8) -> Result<(), Memory>
        requires { BracesFit most_script_bytes self.old.point.literals }
        ensures fits { OnOk result ((k : ℕ) → BracesFit k self.old.point.literals
            → BracesFit (k + 1) self.new.point.literals) }
        ensures held { self.new.held ≡ self.old.held }
        ensures reading { OnOk result (reading_at self.new
            ≡ spec.pieces_next (reading_at self.old) class byte) }
    {
        let next = next_point(self.point, self.word.as_slice(), class, byte);
        self.found.place(self.point, next, class, byte)?;
        grow(&mut self.word, goes_on(self.point.at, class), byte)?;
        self.point = next;
        Ok(())
    }

    // The bytes that are held back, as bytes of a class.
    #[tactic(auto, using(crate::proofs::OneByte::fits_rules))]
    fn step_held(&mut self, class: ScriptClass) -> Result<(), Memory>
        requires { BracesFit (most_script_bytes - 2) self.old.point.literals }
        ensures fits { OnOk result ((k : ℕ) → BracesFit k self.old.point.literals
            → BracesFit (k + 2) self.new.point.literals) }
        ensures held { self.new.held ≡ self.old.held }
        ensures reading { OnOk result (reading_at self.new ≡ spec.pieces_after
            (classed_as class (views.held_bytes self.old.held)) (reading_at self.old)) }
    {
        match self.held {
            Held::None => {}
            Held::One(a) => self.step(class, a)?,
            Held::Two(a, b) => {
                self.step(class, a)?;
                self.step(class, b)?;
            }
        }
        Ok(())
    }

    // Those and a byte more, of classes of their own.
    #[tactic(auto, using(crate::proofs::OneByte::run_rules))]
    fn step_all(&mut self, held: ScriptClass, class: ScriptClass, byte: u8) -> Result<(), Memory>
        requires { BracesFit (most_script_bytes - 2) self.old.point.literals }
        ensures fits { OnOk result ((k : ℕ) → BracesFit k self.old.point.literals
            → BracesFit (k + 3) self.new.point.literals) }
        ensures held { self.new.held ≡ self.old.held }
        ensures reading { OnOk result (reading_at self.new ≡ spec.pieces_after
            (classed_as held (views.held_bytes self.old.held) ++ classed class byte ∷ [])
            (reading_at self.old)) }
    {
        self.step_held(held)?;
        self.step(class, byte)
    }
}

impl PiecesScan {
    // A byte past ASCII, where white space is told apart.
    #[tactic(auto, using(crate::proofs::OneByte::run_rules))]
    fn release_past_ascii(&mut self, byte: u8) -> Result<(), Memory>
        requires { BracesFit (most_script_bytes - 2) self.old.point.literals }
        ensures fits { OnOk result ((k : ℕ) → BracesFit k self.old.point.literals
            → BracesFit (k + 3) self.new.point.literals) }
        ensures reading { OnOk result (reading_at self.new ≡ spec.pieces_after
            (spaces.released_past_ascii
            (spaces.past_ascii (views.held_bytes self.old.held ++ byte ∷ []))
            (views.held_bytes self.old.held) byte) (reading_at self.old)) }
    {
        match past_ascii(self.held, byte) {
            Past::Space => self.step_all(ScriptClass::Space, ScriptClass::Space, byte),
            Past::Separator => self.step_all(ScriptClass::LineEnd, ScriptClass::LineEnd, byte),
            Past::BeginsWhite => Ok(()),
            Past::Other => self.release_letters(byte),
        }
    }

    // The bytes that are held back, as letters, and a byte past ASCII that does not go on with them.
    #[tactic(auto, using(crate::proofs::OneByte::run_rules))]
    fn release_letters(&mut self, byte: u8) -> Result<(), Memory>
        requires { BracesFit (most_script_bytes - 2) self.old.point.literals }
        ensures fits { OnOk result ((k : ℕ) → BracesFit k self.old.point.literals
            → BracesFit (k + 3) self.new.point.literals) }
        ensures reading { OnOk result (reading_at self.new ≡ spec.pieces_after
            (spaces.released_past_ascii spaces.IsOther (views.held_bytes self.old.held) byte)
            (reading_at self.old)) }
    {
        if begins_white(byte) {
            return self.step_held(ScriptClass::Letter);
        }
        self.step_all(ScriptClass::Letter, class_of(byte), byte)
    }

    // What a byte releases.
    #[tactic(auto, using(crate::proofs::OneByte::run_rules), unfolding(js_lexer::specs::WhiteSpace::released))]
    fn release(&mut self, apart: bool, byte: u8) -> Result<(), Memory>
        requires { BracesFit (most_script_bytes - 2) self.old.point.literals }
        ensures fits { OnOk result ((k : ℕ) → BracesFit k self.old.point.literals
            → BracesFit (k + 3) self.new.point.literals) }
        ensures reading { OnOk result (reading_at self.new ≡ spec.pieces_after
            (read_at apart (views.held_bytes self.old.held) (classes.class_of byte) byte)
            (reading_at self.old)) }
    {
        if !apart {
            return self.step(class_of(byte), byte);
        }
        if byte < 128 {
            return self.step_all(ScriptClass::Letter, class_of(byte), byte);
        }
        self.release_past_ascii(byte)
    }

    // A byte of the script.
    #[tactic(auto, using(crate::proofs::OneByte::run_rules))]
    fn feed(&mut self, byte: u8) -> Result<(), Memory>
        requires { BracesFit (most_script_bytes - 2) self.old.point.literals }
        ensures fits { OnOk result ((k : ℕ) → BracesFit k self.old.point.literals
            → BracesFit (k + 3) self.new.point.literals) }
        ensures state { OnOk result (script_state_at self.new ≡ spec.pieces_fed (script_state_at self.old) byte) }
    {
        let apart = tells_white_apart(self.point.at);
        let held = next_held(apart, self.held, byte);
        self.release(apart, byte)?;
        self.held = held;
        Ok(())
    }

    // The end of the script.
    fn finish(self) -> Result<List<RawPiece>, Memory>
        requires { BracesFit (most_script_bytes - 2) self.point.literals }
        ensures { IfOk result (λ raws. script_pieces_at raws ≡ spec.pieces_end (script_state_at self)) }
    {
        let mut scan = self;
        scan.step_held(ScriptClass::Letter)?;
        scan.found.finish(scan.point)
    }
}

// Whether a word goes on with a byte of a class.
fn goes_on(at: ReadAt, class: ScriptClass) -> bool
    ensures { (w : List ℕ) (b : ℕ) → views.word_behind_in result w b
        ≡ views.word_behind at class w b }
{
    match at {
        ReadAt::Word => is_word(class),
        _ => false,
    }
}

// A byte of a word that goes on, or that may begin.
fn grow(word: &mut Vec<u8>, goes_on: bool, byte: u8) -> Result<(), Memory>
    ensures { OnOk result (word.new.items
        ≡ views.word_behind_in goes_on word.old.items byte) }
{
    if !goes_on {
        word.clear();
    }
    word.push(byte)?;
    Ok(())
}

// Whether it matters there whether a character past ASCII is white space.
fn tells_white_apart(at: ReadAt) -> bool
    ensures { (w : List ℕ) → result ≡ feeding.tells_white_apart (views.token_at w at) }
{
    match at {
        ReadAt::Slash(Sense::Re) => false,
        ReadAt::Code(_)
        | ReadAt::Word
        | ReadAt::Number
        | ReadAt::Pluses(_)
        | ReadAt::Minuses(_)
        | ReadAt::Slash(_)
        | ReadAt::Line(_) => true,
        _ => false,
    }
}
