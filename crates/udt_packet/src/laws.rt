// What writing and reading are to one another.

ghost use Rattle.std.specs.Prelude.{◌≡◌, Ok};
ghost use Rattle.udt_model.specs.Wire.{Packet, spelling, read, IsInRange};
ghost use Rattle.udt_packet.specs.Packets.{IsBlock, IsReadInRange, HasOneSpelling};

/// What is written of a packet is read as that packet.
pub fn written_is_read()
    ensures { (packet : Packet) → IsInRange packet → read (spelling packet) ≡ Ok packet }
{}

/// The numbers of what was read fit their places, so it can be written.
pub fn read_is_in_range()
    ensures { (packet : Packet) → IsReadInRange packet }
{}

/// Bytes that are read as a block are the one spelling of this block.
pub fn block_has_one_spelling()
    ensures { (packet : Packet) → IsBlock packet → HasOneSpelling packet }
{}
