// A piece of printed text.
ghost use Rattle.std.specs.Prelude.{◌≡◌, ◌<◌, ◌≤◌, ◌↔◌, length, drop, IsSome, IfSome, take};
ghost use Rattle.ap_base.specs.Pieces.{IsPiece};

use std::marker::Model;

const MOST: usize = 24;

/// 1 to 24 bytes that one print asks for, held in place, zeros behind them.
#[derive(Clone, Copy, Debug, PartialEq, Eq)]
pub struct Piece {
    bytes: [u8; 24],
    length: u8,
}

impl Model for Piece {
    ghost use Rattle.std.specs.Prelude.{ℕ, List, take};
    ghost use Rattle.ap_base.specs.Pieces.{IsHeld};

    ghost Value = { List ℕ };

    ghost use Rattle.ap_base.specs.HeldPieces.{piece_of, piece_of-take};

    ghost view = { λ piece. take piece.length piece.bytes };

    ghost invariant = { λ piece. IsHeld piece.length piece.bytes };

    ghost inverse = { piece_of };

    ghost inverse_ok = { piece_of-take };
}

impl Piece {
    /// The piece of these bytes. `None` exactly where they are none or more than 24.
    pub fn new(bytes: &[u8]) -> Option<Piece>
        ensures some { IsSome result ↔ IsPiece bytes.now }
        ensures same { IfSome result (λ piece. piece ≡ bytes.now) }
    {
        if bytes.is_empty() || bytes.len() > MOST {
            return None;
        }
        let mut held = [0; 24];
        held[..bytes.len()].copy_from_slice(bytes);
        Some(Piece {
            bytes: held,
            length: bytes.len() as u8,
        })
    }

    /// The bytes.
    pub fn as_slice(&self) -> &[u8]
        ensures same { result.now ≡ self.now }
        ensures some { IsPiece result.now }
    {
        &self.bytes[..self.length as usize]
    }

    /// What is left of the piece after its first `taken` bytes. `None` exactly where nothing is.
    pub fn rest(&self, taken: usize) -> Option<Piece>
        ensures some { IsSome result ↔ (taken < length self.now) }
        ensures same { IfSome result (λ piece. piece ≡ drop taken self.now) }
    {
        Piece::new(self.as_slice().get(taken..)?)
    }
}
