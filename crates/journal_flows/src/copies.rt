// Copies of pieces, since a block may land again.
ghost use Rattle.std.specs.Prelude.{◌≡◌, ◌+◌, ◌<◌, ◌++◌, IfOk, OnOk, drop, length};

use journal_um::{Piece, Pieces};
use l2_bits::{Bytes, Items, NoMemory};
use std::alloc::Global;

#[tactic(auto, using(crate::proofs::CopiedItems::copies))]
fn piece(alloc: Global, pieces: &Pieces, at: usize, copy: &mut Pieces) -> Result<(), NoMemory>
    requires { at < length pieces.now }
    ensures { OnOk result (copy.new ++ drop (at + 1) pieces.now ≡ copy.old ++ drop at pieces.now) }
{
    match pieces.get(at) {
        Some(piece) => copy.push(Piece {
            octets: Bytes::from_slice(alloc, piece.octets.as_slice())?,
            begins: piece.begins,
            ends: piece.ends,
            place: piece.place,
        }),
        None => unreachable!(),
    }
}

#[tactic(auto, using(crate::proofs::CopiedItems::copies))]
pub(crate) fn pieces(alloc: Global, pieces: &Pieces) -> Result<Pieces, NoMemory>
    ensures { IfOk result (λ copy. copy ≡ pieces.now) }
{
    let mut copy = Items::new(alloc);
    let mut at = 0;
    while at < pieces.len() {
        piece(alloc, pieces, at, &mut copy)?;
        at += 1;
    }
    Ok(copy)
}
