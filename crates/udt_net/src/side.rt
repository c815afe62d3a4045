// The two ends of a network.

use udt_model::{Addr, Ip};

/// An end of a network.
#[derive(Clone, Copy, Debug, PartialEq, Eq)]
pub enum Side {
    First,
    Second,
}

impl Side {
    ghost use Rattle.std.specs.Prelude.{◌≡◌};
    ghost use Rattle.udt_net.specs.Networks.{address_of, side_at};

    /// The address of the end.
    pub fn address(self) -> Addr
        ensures { result ≡ address_of self }
    {
        let bits = match self {
            Side::First => 0x0a00_0001,
            Side::Second => 0x0a00_0002,
        };
        Addr {
            ip: Ip::V4(bits),
            port: 9000,
        }
    }

    // The end with this address.
    pub(crate) fn with_address(addr: Addr) -> Option<Side>
        ensures { result ≡ side_at addr }
    {
        if addr.port != 9000 {
            return None;
        }
        match addr.ip {
            Ip::V4(0x0a00_0001) => Some(Side::First),
            Ip::V4(0x0a00_0002) => Some(Side::Second),
            _ => None,
        }
    }
}
