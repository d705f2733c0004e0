ghost use Rattle.std.specs.Prelude.{List, ◌≡◌, [], ℕ, Some, IfOk, OnOk};
ghost use Rattle.page_script.specs.FoundViews.{found_at, script_pieces_at};
ghost use Rattle.page_script.specs.ReadViews.{read_point_at};
ghost use Rattle.page_script.specs.ScriptPieces as spec;

use crate::ends::{ends_before, is_between, is_white_class, kind_closed, kind_cut};
use crate::point::ReadPoint;
use js_lexer::ScriptClass;
use page_io::{Bytes, List, Memory};
use page_piece::PieceKind;
use std::alloc::Global;
use std::mem;

/// A piece with the bytes of its characters.
#[derive(Debug, Drop)]
pub struct RawPiece {
    pub kind: PieceKind,
    pub bytes: Bytes,
}

/// The bytes of the piece that is open, and the pieces before it.
#[derive(Drop)]
pub struct FoundPieces {
    alloc: Global,
    begun: Vec<u8>,
    pieces: List<RawPiece>,
}

impl FoundPieces {
    /// Nothing.
    pub fn new(alloc: Global) -> FoundPieces
        ensures { found_at result ≡ spec.pieces_found [] [] }
    {
        FoundPieces {
            alloc,
            begun: Vec::new(alloc),
            pieces: List::new(alloc),
        }
    }

    // The open piece ends, as one of a kind.
    fn close(&mut self, kind: PieceKind) -> Result<(), Memory>
        ensures { OnOk result (found_at self.new
            ≡ spec.piece_ended (Some kind) (found_at self.old)) }
    {
        let bytes = Bytes::from(mem::replace(&mut self.begun, Vec::new(self.alloc)));
        self.pieces.push(RawPiece { kind, bytes })
    }

    // The piece that ends before a byte, where one does.
    fn end(&mut self, ends: Option<PieceKind>) -> Result<(), Memory>
        ensures { OnOk result (found_at self.new ≡ spec.piece_ended ends (found_at self.old)) }
    {
        match ends {
            Some(kind) => self.close(kind),
            None => Ok(()),
        }
    }

    // A byte, behind which a piece is open or none is.
    fn push(&mut self, between: bool, white: bool, kind: PieceKind, byte: u8) -> Result<(), Memory>
        ensures { OnOk result (found_at self.new
            ≡ spec.byte_joined between white kind byte (found_at self.old)) }
    {
        if !between {
            self.begun.push(byte)?;
            return Ok(());
        }
        if white {
            return Ok(());
        }
        self.begun.push(byte)?;
        self.close(kind)
    }

    /// A byte that leads from one point to another.
    pub fn place(
        &mut self,
        from: ReadPoint,
        to: ReadPoint,
        class: ScriptClass,
        byte: u8,
    ) -> Result<(), Memory>
        ensures { OnOk result ((w v : List ℕ) → found_at self.new
            ≡ spec.byte_placed (read_point_at w from) (read_point_at v to) class byte (found_at self.old)) }
    {
        self.end(ends_before(from, class, byte))?;
        self.push(
            is_between(to),
            is_white_class(class),
            kind_closed(from),
            byte,
        )
    }

    /// The pieces, with one that the end of the script cuts.
    pub fn finish(self, point: ReadPoint) -> Result<List<RawPiece>, Memory>
        ensures { IfOk result (λ raws. (w : List ℕ) → script_pieces_at raws
            ≡ spec.pieces_cut (spec.reading (read_point_at w point) (found_at self))) }
    {
        let mut found = self;
        found.end(kind_cut(point))?;
        Ok(found.pieces)
    }
}
