// Packet numbers: which number a packet carries, and which offset a number means.

ghost use Rattle.std.specs.Prelude.{◌≡◌, ℕ, ◌<◌, ◌^◌, IfSome, IfNone};
ghost use Rattle.udt_model.specs.Numbers as numbers;
ghost use Rattle.udt_model.specs.Numbers.{sequence_number, IsNear};

/// How many sequence numbers there are, before they begin again.
const SEQUENCE_NUMBERS: u64 = 1 << 31;

/// How far an offset may lie from the base near which it is found.
const NEAR: u64 = 1 << 30;

/// The sequence number of the packet at this offset, in a direction that begins with this initial
/// number.
pub fn seq_of(isn: u32, offset: u64) -> u32
    ensures { result ≡ sequence_number isn offset }
{
    ((isn as u64 + offset % SEQUENCE_NUMBERS) % SEQUENCE_NUMBERS) as u32
}

/// The offset less than 2^30 from `base` that has this sequence number, in a direction that begins
/// with this initial sequence number.
#[tactic(auto, unfolding(udt_model::specs::Numbers::near))]
pub fn near(isn: u32, base: u64, seq: u32) -> Option<u64>
    requires { base < 2 ^ 63 }
    ensures value { result ≡ numbers.near isn base seq }
    ensures found { IfSome result (IsNear isn base seq) }
    ensures none { IfNone result ((n : ℕ) → IsNear isn base seq n → ⊥) }
{
    let number = seq as u64;
    if number >= SEQUENCE_NUMBERS {
        return None;
    }
    let ahead = (number + SEQUENCE_NUMBERS - seq_of(isn, base) as u64) % SEQUENCE_NUMBERS;
    if ahead < NEAR {
        return Some(base + ahead);
    }
    if NEAR < ahead && SEQUENCE_NUMBERS <= base + ahead {
        return Some(base + ahead - SEQUENCE_NUMBERS);
    }
    None
}
