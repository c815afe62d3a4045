// Where a datagram comes from and goes to.

ghost use Rattle.std.specs.Prelude.{◌≡◌};

/// An IP address. A V6 address that maps a V4 one equals no V4 address.
#[derive(Clone, Copy, Debug, PartialEq, Eq)]
pub enum Ip {
    V4(u32),
    V6(u128),
}

/// Which of the two kinds of IP address.
#[derive(Clone, Copy, Debug, PartialEq, Eq)]
pub enum Family {
    Four,
    Six,
}

/// An IP address and a UDP port.
#[derive(Clone, Copy, Debug, PartialEq, Eq)]
pub struct Addr {
    pub ip: Ip,
    pub port: u16,
}

impl Ip {
    ghost use Rattle.udt_model.specs.Addresses.{family_of};

    /// The kind of the address.
    pub fn family(&self) -> Family
        ensures { result ≡ family_of self.now }
    {
        match self {
            Ip::V4(_) => Family::Four,
            Ip::V6(_) => Family::Six,
        }
    }
}

impl Addr {
    ghost use Rattle.udt_model.specs.Addresses.{same_addr};

    /// Whether the two are the same address.
    pub fn is_same(self, other: Addr) -> bool
        ensures { result ≡ same_addr self other }
    {
        self == other
    }
}
