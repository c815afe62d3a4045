// A datagram in memory.

use std::marker::Model;
use udt_model::Addr;

/// A datagram of at most 65,536 bytes, with the address of its sender or its receiver.
#[derive(Drop)]
pub struct ListDatagram {
    addr: Addr,
    bytes: Vec<u8>,
}

impl Model for ListDatagram {
    ghost use Rattle.std.specs.Prelude.{◌≤◌, vec_len};
    ghost use Rattle.udt_model.specs.State.{Datagram};

    ghost Value = { Datagram };

    ghost view = { λ d. record { addr = d.addr; bytes = d.bytes.items } };

    ghost invariant = { λ d. vec_len d.bytes ≤ 65536 };
}

impl ListDatagram {
    ghost use Rattle.std.specs.Prelude.{◌≡◌, ◌≤◌, length, vec_len};

    /// A datagram of these bytes.
    pub fn new(addr: Addr, bytes: Vec<u8>) -> ListDatagram
        requires { vec_len bytes ≤ 65536 }
        ensures addr { result.addr ≡ addr }
        ensures bytes { result.bytes ≡ bytes.items }
    {
        ListDatagram { addr, bytes }
    }

    /// The address of its sender or its receiver.
    pub fn addr(&self) -> Addr
        ensures { result ≡ self.now.addr }
    {
        self.addr
    }

    /// Its bytes.
    pub fn bytes(&self) -> &[u8]
        ensures bytes { result.now ≡ self.now.bytes }
        ensures within { length result.now ≤ 65536 }
    {
        self.bytes.as_slice()
    }
}
