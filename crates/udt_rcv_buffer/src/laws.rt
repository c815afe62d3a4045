// What the definitions promise of every message.

ghost use Rattle.udt_model.specs.ReceiveBlocks.{after_place, after_bytes, after_read_message, after_skip};
ghost use Rattle.udt_rcv_buffer.specs.Whole.{ShownIsWhole};
ghost use Rattle.udt_rcv_buffer.specs.Moves.{BaseMoves, none, range_of};

/// A message that is read next is whole: its blocks stand among the placed ones, follow one
/// another from a first one to a last one, and where it must come in order, no offset before it is
/// missing.
pub fn shown_is_whole()
    ensures { ShownIsWhole }
{}

/// The base never falls, and passes no offset that wasn't taken: a block was placed there, or it was
/// consumed. A skip passes the offsets of its range besides.
pub fn base_moves()
    ensures place { (r : _) (offset : _) (flags : _) (bytes : _)
        → BaseMoves none r (after_place r offset flags bytes) }
    ensures read { (r : _) (count : _) → BaseMoves none r (after_bytes r count) }
    ensures message { (r : _) (room : _) → BaseMoves none r (after_read_message r room) }
    ensures skip { (r : _) (first : _) (last : _)
        → BaseMoves (range_of first last) r (after_skip r first last) }
{}
