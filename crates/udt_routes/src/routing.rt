// Where a datagram goes, by one look-up in a table.

ghost use Rattle.std.specs.Prelude.{◌≡◌};
ghost use Rattle.udt_model.specs.Wire as wire;
ghost use Rattle.udt_model.specs.Handshakes.{asked};
ghost use Rattle.udt_routes.specs.Pairs.{adopter_of};
ghost use Rattle.udt_model.specs.Routes.{handshake_in};
ghost use Rattle.udt_routes.specs.Routing.{adopter_in};
ghost use Rattle.udt_routes.specs.Lookups.{routed_by, named_lookup, type_lookup, unnamed_lookup, Decides};

use crate::adoptions::Adoptions;
use udt_model::{Addr, Routed, Shake};
use udt_packet::{Packet, read, target};

/// What is looked up in a table: a socket by its ID, the listener, or the socket that meets an address.
#[derive(Clone, Copy, Debug, PartialEq, Eq)]
pub enum Want {
    Id(u32),
    Listener,
    Meeting(Addr),
}

/// The one look-up on which it depends where a datagram goes: what is wanted, whether the datagram is stale
/// where that is found, and where it goes where it isn't.
#[derive(Clone, Copy, Debug, PartialEq, Eq)]
pub struct Lookup {
    pub want: Want,
    pub stale: bool,
    pub absent: Routed,
}

impl Lookup {
    /// Where the datagram goes, once this ID was found, or none.
    pub fn routed(&self, found: Option<u32>) -> Routed
        ensures { result ≡ routed_by self.now found }
    {
        match (found, self.want) {
            (None, _) => self.absent,
            (Some(_), _) if self.stale => Routed::Stale,
            (Some(_), Want::Id(id)) => Routed::ToSocket(id),
            (Some(id), _) => Routed::ToSocket(id),
        }
    }
}

impl Adoptions {
    /// The look-up on which it depends where a datagram goes that came from this address, with these bytes.
    /// Err where it depends on none.
    pub fn lookup(&self, from: Addr, bytes: &[u8]) -> Result<Lookup, Routed>
        ensures { Decides (adopter_of self.now.adopted) from bytes.now result }
    {
        let Some(dest) = target(bytes) else {
            return Err(Routed::Short);
        };
        let shake = handshake(bytes);
        if dest == 0 {
            return self.unnamed(from, shake);
        }
        Ok(self.named(from, dest, shake))
    }

    // The ID that has adopted the sender of a handshake.
    fn adopter(&self, from: Addr, shake: Option<Shake>) -> Option<u32>
        ensures { result ≡ adopter_in (adopter_of self.now.adopted) from shake }
    {
        match shake {
            Some(shake) => self.adopted(from, shake.id),
            None => None,
        }
    }

    // The look-up for a datagram that names a socket.
    fn named(&self, from: Addr, dest: u32, shake: Option<Shake>) -> Lookup
        ensures { result ≡ named_lookup (adopter_of self.now.adopted) from dest shake }
    {
        let stale = match self.adopter(from, shake) {
            Some(own) => own != dest,
            None => false,
        };
        Lookup {
            want: Want::Id(dest),
            stale,
            absent: Routed::Id,
        }
    }

    // The look-up for a datagram that names none.
    fn unnamed(&self, from: Addr, shake: Option<Shake>) -> Result<Lookup, Routed>
        ensures { result ≡ unnamed_lookup (adopter_of self.now.adopted) from shake }
    {
        let Some(shake) = shake else {
            return Err(Routed::Shake);
        };
        match self.adopted(from, shake.id) {
            Some(own) => Ok(Lookup {
                want: Want::Id(own),
                stale: false,
                absent: Routed::Stale,
            }),
            None => by_type(from, shake.ask),
        }
    }
}

// The look-up for a handshake of a sender that none has adopted, by its connection type.
fn by_type(from: Addr, ask: i32) -> Result<Lookup, Routed>
    ensures { result ≡ type_lookup from (asked ask) }
{
    let want = match ask {
        0 => Want::Meeting(from),
        1 => Want::Listener,
        _ => return Err(Routed::Shake),
    };
    Ok(Lookup {
        want,
        stale: false,
        absent: Routed::Shake,
    })
}

/// The handshake that the bytes spell, where they spell one.
pub fn handshake(bytes: &[u8]) -> Option<Shake>
    ensures { result ≡ handshake_in (wire.read bytes.now) }
{
    match read(bytes) {
        Ok(Packet::Handshake { shake, .. }) => Some(shake),
        Ok(_) => None,
        Err(_) => None,
    }
}
