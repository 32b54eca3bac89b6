//! What a subtable holds, cut by runs of its classes: pieces, what they keep, and the sizes of runs.
#![tactic(auto)]

ghost use Rattle.pieces.specs.Keeping.{PiecesKeep, PiecesCompose, WholePiece, HitsFromAnchors};
ghost use Rattle.pieces.specs.Sizes.{RunSizes, SizesStay};

/// Pieces in place of a subtable keep the hits of every pair, and every link to an anchor.
pub fn pieces_keep_hits()
    ensures keep { PiecesKeep }
    ensures compose { PiecesCompose }
    ensures whole { WholePiece }
    ensures from { HitsFromAnchors }
{}

/// A run within another is not larger, and sizes stay while what the anchors reach does.
pub fn run_sizes_grow()
    ensures grow { RunSizes }
    ensures stay { SizesStay }
{}
