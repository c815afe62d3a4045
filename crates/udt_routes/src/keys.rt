// Addresses in an order, and in a form that can be hashed.

ghost use Rattle.std.specs.Prelude.{◌≡◌};
ghost use Rattle.udt_routes.specs.Keys.{key_of, pair_key_of};

use udt_model::{Addr, Ip};

// Which kind of IP address, its bits, and the port.
pub(crate) type AddrKey = (u8, u128, u16);

// An address, and the ID of a socket there.
pub(crate) type PairKey = (AddrKey, u32);

pub(crate) fn addr_key(addr: Addr) -> AddrKey
    ensures { result ≡ key_of addr }
{
    match addr.ip {
        Ip::V4(bits) => (4, bits as u128, addr.port),
        Ip::V6(bits) => (6, bits, addr.port),
    }
}

pub(crate) fn pair_key(addr: Addr, peer: u32) -> PairKey
    ensures { result ≡ pair_key_of (addr, peer) }
{
    (addr_key(addr), peer)
}
