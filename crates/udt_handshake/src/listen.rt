// A listener's cookie and judgement.

ghost use Rattle.std.specs.Prelude.{◌≡◌, ◌++◌, take};
ghost use Rattle.std.specs.Int.{w16, w32, w64, to_be_bytes, from_be_bytes};
ghost use Rattle.md5.specs.Md5.{md5};
ghost use Rattle.udt_model.specs.Handshakes.{cookie_of, nonzero as or_one, sent_back as sent_to, type_of as type_that};
ghost use Rattle.udt_model.specs.declared.handshakes.Asked.TheVariants.{Refuses};

use crate::fields::{address_field, suits, type_of};
use md5::{Digest, Md5};
use std::marker::Model;
use udt_model::{Addr, Asked, COOKIE_LIFE, Config, Ip, Shake, Verdict};

/// The cookie of an address in a minute, which is counted as microseconds divided by 60,000,000.
#[tactic(auto, unfolding(udt_model::specs::Handshakes::cookie_of))]
pub fn cookie(from: Addr, secret: &[u8; 16], minute: u64) -> u32
    ensures { result ≡ cookie_of from secret.now minute }
{
    let digest = match from.ip {
        Ip::V4(bits) => digest_of(&bits.to_be_bytes(), from.port, secret, minute),
        Ip::V6(bits) => digest_of(&bits.to_be_bytes(), from.port, secret, minute),
    };
    nonzero(first_word(&digest))
}

// The digest of an address, a secret and a minute.
fn digest_of(ip: &[u8], port: u16, secret: &[u8; 16], minute: u64) -> [u8; 16]
    ensures { result ≡ md5 (ip.now ++ to_be_bytes w16 port ++ secret.now ++ to_be_bytes w64 minute) }
{
    let mut hasher = Md5::new();
    hasher.update(ip);
    hasher.update(port.to_be_bytes());
    hasher.update(*secret);
    hasher.update(minute.to_be_bytes());
    hasher.finalize()
}

// The first four bytes as a number.
fn first_word(digest: &[u8; 16]) -> u32
    ensures { result ≡ from_be_bytes w32 (take 4 digest.now) }
{
    u32::from_be_bytes([digest[0], digest[1], digest[2], digest[3]])
}

// A cookie is never 0.
fn nonzero(number: u32) -> u32
    ensures { result ≡ or_one number }
{
    if number == 0 { 1 } else { number }
}

/// A listener's part in handshakes: its secret, and what its sockets are opened with.
#[derive(Debug, Drop)]
pub struct ListenShake {
    secret: [u8; 16],
    config: Config,
}

impl Model for ListenShake {
    ghost use Rattle.udt_model.specs.Handshakes.{Listening};

    ghost Value = { Listening };

    ghost view = { λ l. record { secret = l.secret; config = l.config } };
}

impl ListenShake {
    ghost use Rattle.udt_model.specs.Handshakes.{judged, has_cookie as knows_cookie};

    pub fn new(secret: [u8; 16], config: Config) -> ListenShake
        ensures { result ≡ record { secret = secret; config = config } }
    {
        ListenShake { secret, config }
    }

    /// Judges a request that came from this address at this moment, in microseconds. `room` says that
    /// the backlog isn't full. The cookie is tested first: a request without that of this minute or
    /// the last is answered with the right one.
    #[tactic(auto, unfolding(udt_model::specs::Handshakes::judged))]
    pub fn judge(&self, shake: &Shake, from: Addr, now: u64, room: bool) -> Verdict
        ensures { result ≡ judged self.now shake.now from now room }
    {
        let minute = now / COOKIE_LIFE;
        if !self.has_cookie(shake, from, minute) {
            return Verdict::Cookie(with_cookie(shake, from, cookie(from, &self.secret, minute)));
        }
        if suits(&self.config, shake) && room {
            return Verdict::Request;
        }
        Verdict::Reject(refused(shake, from))
    }

    // The cookie is that of this minute or of the last one.
    fn has_cookie(&self, shake: &Shake, from: Addr, minute: u64) -> bool
        ensures { result ≡ knows_cookie self.now shake.now from minute }
    {
        shake.cookie == cookie(from, &self.secret, minute)
            || minute > 0 && shake.cookie == cookie(from, &self.secret, minute - 1)
    }
}

// The request sent back with this cookie.
fn with_cookie(shake: &Shake, from: Addr, cookie: u32) -> Shake
    ensures { result ≡ record (sent_to shake.now from) { cookie = cookie } }
{
    let mut answer = sent_back(shake, from);
    answer.cookie = cookie;
    answer
}

// The request sent back as a refusal.
fn refused(shake: &Shake, from: Addr) -> Shake
    ensures { result ≡ record (sent_to shake.now from) { ask = type_that Refuses } }
{
    let mut answer = sent_back(shake, from);
    answer.ask = type_of(Asked::Refuses);
    answer
}

// The request sent back to the address that it came from.
fn sent_back(shake: &Shake, from: Addr) -> Shake
    ensures { result ≡ sent_to shake.now from }
{
    let mut answer = *shake;
    answer.address = address_field(from.ip);
    answer
}
