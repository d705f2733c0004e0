ghost use Rattle.std.specs.Prelude.{◌≡◌, ◌≤◌, ℕ, List, [], None, option_map, OnOk, IfOk, length};
ghost use Rattle.std.specs.Str.{IsCharBoundary};
ghost use Rattle.page_piece.specs.declared.piece.PieceKind.TheVariants as kind;
ghost use Rattle.page_style.specs.Pieces as spec;
ghost use Rattle.page_style.specs.Views.{IsNext, IsWithin, LeadsPieces, style_slice, open_piece_at, style_pieces_at};

use crate::change::PieceChange;
use crate::part::Part;
use page_io::{List, Memory, Text};
use page_piece::{Piece, PieceKind};
use std::alloc::Global;

/// The pieces of a text as far as it has been read: those that are complete, and the kind of the open one, which goes from one place to
/// another.
#[derive(Drop)]
pub struct Pieces {
    pub done: List<Piece>,
    pub growing: Option<PieceKind>,
    pub from: usize,
    pub to: usize,
}

impl Pieces {
    /// No pieces, before a text. Does not allocate.
    pub fn new(alloc: Global) -> Pieces
        ensures done { result.done ≡ [] }
        ensures growing { result.growing ≡ None }
        ensures from { result.from ≡ 0 }
        ensures to { result.to ≡ 0 }
    {
        Pieces {
            done: List::new(alloc),
            growing: None,
            from: 0,
            to: 0,
        }
    }

    /// The part of the text is read.
    pub fn change(
        &mut self,
        alloc: Global,
        text: &str,
        part: Part,
        change: PieceChange,
    ) -> Result<(), Memory>
        requires next { IsNext text.now part self.old }
        ensures { OnOk result (LeadsPieces text.now part.to self.new
            (spec.changed change (style_slice text.now part.from part.to)
            (style_pieces_at text.now part.from self.old))) }
    {
        match change {
            PieceChange::Hold => Ok(()),
            PieceChange::Run(kind) => self.run(alloc, text, part, kind),
            PieceChange::Begin(kind) => self.begin(alloc, text, part, kind),
            PieceChange::Alone(kind) => self.alone(alloc, text, part, kind),
            PieceChange::Grow => {
                self.grow(part);
                Ok(())
            }
            PieceChange::GrowAs(kind) => {
                self.grow_as(part, kind);
                Ok(())
            }
            PieceChange::Close => self.close(alloc, text, part),
            PieceChange::Break => self.break_string(alloc, text, part),
        }
    }

    /// What is held back before a place is plain text, where it is so.
    pub fn release_where(
        &mut self,
        alloc: Global,
        text: &str,
        at: usize,
        releases: bool,
    ) -> Result<(), Memory>
        requires within { IsWithin text.now self.old }
        requires held { self.old.to ≤ at }
        requires cut { IsCharBoundary text.now at }
        ensures { OnOk result (LeadsPieces text.now at self.new
            (spec.release_where releases (style_pieces_at text.now at self.old))) }
    {
        if releases {
            self.run(alloc, text, Part { from: at, to: at }, PieceKind::Plain)
        } else {
            Ok(())
        }
    }

    // A run goes on with the part, or begins with it.
    fn run(&mut self, alloc: Global, text: &str, part: Part, kind: PieceKind) -> Result<(), Memory>
        requires next { IsNext text.now part self.old }
        ensures { OnOk result (LeadsPieces text.now part.to self.new
            (spec.run kind (style_slice text.now part.from part.to)
            (style_pieces_at text.now part.from self.old))) }
    {
        if self.goes_on(kind) {
            self.grow(part);
            Ok(())
        } else {
            self.begin(alloc, text, part, kind)
        }
    }

    // Whether a run of this kind is open.
    fn goes_on(&self, kind: PieceKind) -> bool
        ensures { (text : List ℕ) → result
            ≡ spec.is_open_piece kind (open_piece_at text self.now.from self.now.to self.now.growing) }
    {
        match self.growing {
            Some(growing) => same_run(kind, growing),
            None => false,
        }
    }

    // A piece begins with the part.
    fn begin(
        &mut self,
        alloc: Global,
        text: &str,
        part: Part,
        kind: PieceKind,
    ) -> Result<(), Memory>
        requires next { IsNext text.now part self.old }
        ensures { OnOk result (LeadsPieces text.now part.to self.new
            (spec.begin kind (style_slice text.now part.from part.to)
            (style_pieces_at text.now part.from self.old))) }
    {
        self.complete(alloc, text)?;
        self.growing = Some(kind);
        self.to = part.to;
        Ok(())
    }

    // The part is a piece by itself.
    fn alone(
        &mut self,
        alloc: Global,
        text: &str,
        part: Part,
        kind: PieceKind,
    ) -> Result<(), Memory>
        requires next { IsNext text.now part self.old }
        ensures { OnOk result (LeadsPieces text.now part.to self.new
            (spec.complete (spec.begin kind (style_slice text.now part.from part.to)
            (style_pieces_at text.now part.from self.old)))) }
    {
        self.begin(alloc, text, part, kind)?;
        self.complete(alloc, text)
    }

    // The open piece ends with the part.
    fn close(&mut self, alloc: Global, text: &str, part: Part) -> Result<(), Memory>
        requires next { IsNext text.now part self.old }
        ensures { OnOk result (LeadsPieces text.now part.to self.new
            (spec.complete (spec.grow (style_slice text.now part.from part.to)
            (style_pieces_at text.now part.from self.old)))) }
    {
        self.grow(part);
        self.complete(alloc, text)
    }

    // The end of a line cuts the open string.
    fn break_string(&mut self, alloc: Global, text: &str, part: Part) -> Result<(), Memory>
        requires next { IsNext text.now part self.old }
        ensures { OnOk result (LeadsPieces text.now part.to self.new
            (spec.begin kind.Plain (style_slice text.now part.from part.to)
            (spec.turned_as kind.BadString (style_pieces_at text.now part.from self.old)))) }
    {
        self.turn(PieceKind::BadString);
        self.begin(alloc, text, part, PieceKind::Plain)
    }

    // The open piece goes on with the part.
    fn grow(&mut self, part: Part)
        ensures { (text : List ℕ) → IsNext text part self.old → LeadsPieces text part.to self.new
            (spec.grow (style_slice text part.from part.to) (style_pieces_at text part.from self.old)) }
    {
        self.to = part.to;
    }

    // The same, and is of this kind.
    fn grow_as(&mut self, part: Part, kind: PieceKind)
        ensures { (text : List ℕ) → IsNext text part self.old → LeadsPieces text part.to self.new
            (spec.grow (style_slice text part.from part.to)
            (spec.turned_as kind (style_pieces_at text part.from self.old))) }
    {
        self.turn(kind);
        self.grow(part);
    }

    // The open piece is found to be of this kind.
    fn turn(&mut self, kind: PieceKind)
        ensures places { self.new ≡ (record {
          done = self.old.done;
          growing = option_map (λ _. kind) self.old.growing;
          from = self.old.from;
          to = self.old.to;
        }) }
    {
        if self.growing.is_some() {
            self.growing = Some(kind);
        }
    }

    // The open piece is complete.
    fn complete(&mut self, alloc: Global, text: &str) -> Result<(), Memory>
        requires within { IsWithin text.now self.old }
        ensures done { OnOk result (self.new.done ≡ spec.with_open self.old.done
            (open_piece_at text.now self.old.from self.old.to self.old.growing)) }
        ensures growing { OnOk result (self.new.growing ≡ None) }
        ensures from { OnOk result (self.new.from ≡ self.old.to) }
        ensures to { OnOk result (self.new.to ≡ self.old.to) }
    {
        if let Some(kind) = self.growing {
            let text = Text::copy_of(alloc, between(text, self.from, self.to))?;
            self.done.push(Piece { kind, text })?;
        }
        self.growing = None;
        self.from = self.to;
        Ok(())
    }

    /// The pieces of the whole text: what is open is one, and a byte that is held back is plain.
    pub fn all(self, alloc: Global, text: &str) -> Result<List<Piece>, Memory>
        requires within { IsWithin text.now self }
        ensures { IfOk result (λ all. all
            ≡ spec.all_pieces (style_pieces_at text.now (length text.now) self)) }
    {
        let mut pieces = self;
        let held = pieces.to < text.len();
        pieces.release_where(alloc, text, text.len(), held)?;
        pieces.complete(alloc, text)?;
        Ok(pieces.done)
    }
}

// The text from one place up to another.
fn between(text: &str, from: usize, to: usize) -> &str
    requires order { from ≤ to }
    requires begins { IsCharBoundary text.now from }
    requires ends { IsCharBoundary text.now to }
    ensures { result.now ≡ style_slice text.now from to }
{
    let (read, _) = text.split_at(to);
    let (_, part) = read.split_at(from);
    part
}

// Whether a byte of a run goes on with a piece.
fn same_run(run: PieceKind, other: PieceKind) -> bool
    ensures { result ≡ spec.same_run run other }
{
    match run {
        PieceKind::Word => matches!(other, PieceKind::Word),
        PieceKind::Plain => matches!(other, PieceKind::Plain),
        _ => false,
    }
}
