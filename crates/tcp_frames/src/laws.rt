//! Laws about the frames of a stream.

ghost use Rattle.tcp_frames.specs.Laws.{AllFramesAreTaken, CutDoesNotMatter, FramesAreFound, FramesAreUnique};
ghost use Rattle.tcp_frames.specs.Laws.{NothingIsLost, PiecesContinue, UnfinishedHasNoFrame};

/// Over any run of feeds and takes, refused calls too: the taken messages with their lengths,
/// followed by the octets left, are the octets before, followed by all fed octets.
pub fn nothing_is_lost()
    ensures { NothingIsLost }
{}

/// However a stream was cut into pieces, with takes at any point: the taken messages, followed by
/// the frames left, are the frames of all fed octets.
pub fn cut_does_not_matter()
    ensures { CutDoesNotMatter }
{}

/// Once a new reader has no whole frame left, the taken messages are the frames of all fed octets,
/// in order, and the octets left follow them.
pub fn all_frames_are_taken()
    ensures { AllFramesAreTaken }
{}

/// A stream is the frames of some messages and an unfinished rest in at most one way.
pub fn frames_are_unique()
    ensures { FramesAreUnique }
{}

/// A stream of octets is the frames of some messages and an unfinished rest in at least one way:
/// the way of `frames_of` and `unfinished_of`.
pub fn frames_are_found()
    ensures { FramesAreFound }
{}

/// An unfinished stream begins with no whole frame.
pub fn unfinished_has_no_frame()
    ensures { UnfinishedHasNoFrame }
{}

/// With a further piece the frames of a stream go on after the frames before: the new frames are
/// those of the unfinished rest and the piece.
pub fn pieces_continue()
    ensures { PiecesContinue }
{}
