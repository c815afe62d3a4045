// A reader of a frame that comes in pieces. It keeps counts, and no byte of the file.

use crate::frame::{HEADER_LEN, length_with};
use std::marker::Model;

/// What was fed begins no frame: it doesn't begin with `UDTF`, or a byte follows the length.
#[derive(Clone, Copy, Debug, PartialEq, Eq)]
pub struct BadFrame;

/// A reader of one frame. The caller feeds it what comes, in any pieces, and gets the file's bytes.
#[derive(Drop)]
pub struct FrameReader {
    // the length as far as it was read, the bytes not yet read being 0
    len: u64,
    // the number of bytes of the header that were read
    seen: usize,
    got: u64,
    bad: bool,
}

impl Model for FrameReader {
    ghost use Rattle.std.specs.Prelude.{◌^◌, ◌≤◌, ◌<◌, take};
    ghost use Rattle.udt_framing.specs.Framing.{header_of};
    ghost use Rattle.udt_framing.specs.Readers.{Reading};

    ghost Value = { Reading };

    ghost view = { λ r. record { head = take r.seen (header_of r.len); got = r.got; bad = r.bad } };

    ghost invariant = { λ r. (r.seen ≤ 12) × (r.len < 2 ^ 64) };
}

impl FrameReader {
    ghost use Rattle.std.specs.Prelude.{◌≡◌, ℕ, ◌^◌, ◌<◌, ◌↔◌, [], ◌++◌, List, IsTrue, IsErr, IfOk, OnErr, OnOk, IfSome, IfNone};
    ghost use Rattle.udt_model.specs.Emissions.{IsPrefix};
    ghost use Rattle.udt_framing.specs.Framing.{header_of, BeginsFrame, IsFrame, file_of};
    ghost use Rattle.udt_framing.specs.Readers.{WasFed};

    /// A reader that was fed nothing.
    pub fn new() -> FrameReader
        ensures { WasFed result [] }
    {
        FrameReader {
            len: 0,
            seen: 0,
            got: 0,
            bad: false,
        }
    }

    /// The file's bytes in a piece, as a part of it. BadFrame where what was fed, this piece
    /// included, begins no frame, and from then on at each piece.
    pub fn feed<'a>(&mut self, piece: &'a [u8]) -> Result<&'a [u8], BadFrame>
        ensures next { (fed : List ℕ) → WasFed self.old fed → WasFed self.new (fed ++ piece.now) }
        ensures begins { (fed : List ℕ) → WasFed self.old fed → OnOk result (BeginsFrame (fed ++ piece.now)) }
        ensures value { (fed : List ℕ) → WasFed self.old fed
            → IfOk result (λ bytes. file_of (fed ++ piece.now) ≡ file_of fed ++ bytes.now) }
        ensures refused { (fed : List ℕ) → WasFed self.old fed
            → OnErr result (¬ BeginsFrame (fed ++ piece.now)) }
        ensures err { OnErr result (IsTrue self.new.bad) }
        ensures for_good { IsTrue self.old.bad → IsErr result }
    {
        if self.bad {
            return Err(BadFrame);
        }
        let (first, bytes) = piece.split_at(piece.len().min(HEADER_LEN - self.seen));
        let Some(len) = length_with(self.len, self.seen, first) else {
            self.bad = true;
            return Err(BadFrame);
        };
        self.len = len;
        self.seen += first.len();
        let count = bytes.len() as u64;
        if u128::from(self.got) + u128::from(count) > u128::from(len) {
            self.bad = true;
            return Err(BadFrame);
        }
        self.got += count;
        Ok(bytes)
    }

    /// The length that the header tells. None before the header was fed, and where none begins it.
    pub fn length(&self) -> Option<u64>
        ensures some { (fed : List ℕ) → WasFed self.now fed
            → IfSome result (λ len. IsPrefix (header_of len) fed) }
        ensures none { (fed : List ℕ) (len : ℕ) → WasFed self.now fed → len < 2 ^ 64
            → IfNone result (¬ IsPrefix (header_of len) fed) }
    {
        if self.seen < HEADER_LEN {
            return None;
        }
        Some(self.len)
    }

    /// Whether what was fed is the whole frame of a file.
    pub fn whole(&self) -> bool
        ensures { (fed : List ℕ) → WasFed self.now fed → (IsTrue result ↔ IsFrame fed) }
    {
        !self.bad && self.seen == HEADER_LEN && self.got == self.len
    }
}
