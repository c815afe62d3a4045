// The flags of a block as a word, and back.

ghost use Rattle.std.specs.Prelude.{◌≡◌, ◌<◌, ◌^◌};
ghost use Rattle.udt_model.specs.Wire as wire;

use udt_model::Flags;

/// The bit of a message's first block.
const FIRST: u32 = 1 << 31;

/// The bit of a message's last block.
const LAST: u32 = 1 << 30;

/// The bit of a message that must be delivered in order. The message's number lies below it.
const ORDER: u32 = 1 << 29;

fn bit(set: bool) -> u32
    ensures { result ≡ wire.bit set }
{
    if set { 1 } else { 0 }
}

/// The word of these flags.
pub fn flags_word(flags: Flags) -> u32
    requires { flags.message < 2 ^ 29 }
    ensures { result ≡ wire.flags_word flags }
{
    FIRST * bit(flags.first) + LAST * bit(flags.last) + ORDER * bit(flags.order) + flags.message
}

/// The flags of a word.
pub fn flags_of(word: u32) -> Flags
    ensures { result ≡ wire.flags_of word }
{
    Flags {
        first: word >= FIRST,
        last: word / LAST % 2 == 1,
        order: word / ORDER % 2 == 1,
        message: word % ORDER,
    }
}
