// The sockets of a script, and the datagrams that they emitted.

ghost use Rattle.std.specs.Prelude.{◌≡◌, ◌<◌, ◌++◌, ◌||◌, [], map, take, vec_len, IfOk, OnOk, OnErr};
ghost use Rattle.udt_model.specs.Events.{Listen, Recv, RecvMessage, event, outs_of};
ghost use Rattle.udt_model.specs.Lines.{no_secret};
ghost use Rattle.udt_model.specs.Network.{first_met, is_listening, meets_by};
ghost use Rattle.udt_model.specs.Script.{from_host};
ghost use Rattle.udt_model.specs.Step.{step};
ghost use Rattle.udt_model.specs.Texts.{datagrams_text, reply_text, told};
ghost use Rattle.udt_script.specs.CodeAnswers.{reply_of, text_of};
ghost use Rattle.udt_script.specs.CodeLines.{act_of, datagram_of};
ghost use Rattle.udt_world.specs.Views.{act_in, view_of, event_of, HasEvent, RepliesTo};
ghost use Rattle.udt_world.specs.Wiring.{sights_of, IsWired, KeepsAddresses, KeepsPlaces, MayHappen};

use crate::hosts::Endpoint;
use std::alloc::{AllocError, Global};
use std::collections::BTreeMap;
use udt_core::{Outs, Socket};
use udt_model::{Addr, Refusal};
use udt_rate::Control;
use udt_script::{Call, Reply, ScriptDatagram, print_datagram, print_reply};

/// A host of a script: its name and its address.
#[derive(Drop)]
pub struct ScriptHost {
    pub name: Vec<u8>,
    pub addr: Addr,
}

/// A socket of a script: its name, the address of its host, the place of the endpoint there, whether it
/// began to listen, the address that it began to meet, and the machine. The ID of the first is 1, of
/// the next 2, and so on.
#[derive(Drop)]
pub struct ScriptSocket<C> {
    pub name: Vec<u8>,
    pub host: Addr,
    pub endpoint: usize,
    pub listened: bool,
    pub met: Option<Addr>,
    pub socket: Socket<C>,
}

/// What happens to a socket: a call of it, one of what a listener does besides, or bytes that arrive
/// from an address.
#[derive(Clone, Copy)]
pub enum Act<'a> {
    Call(&'a Call),
    Accept,
    Offer(u32),
    Withdraw,
    Arrive(Addr, &'a [u8]),
}

/// All hosts and sockets of a script, and all datagrams that the sockets emitted; the places of the
/// sockets by their names, and what the endpoints know. Room for the datagrams of one event is taken
/// once.
#[derive(Drop)]
pub struct Network<C> {
    pub alloc: Global,
    pub hosts: Vec<ScriptHost>,
    pub endpoints: Vec<Endpoint>,
    pub sockets: Vec<ScriptSocket<C>>,
    pub names: BTreeMap<Vec<u8>, usize>,
    pub datagrams: Vec<ScriptDatagram>,
    pub outs: Option<Outs>,
}

/// The secret of a script's listeners.
const NO_SECRET: [u8; 16] = [0; 16];

/// The room for what an event emits.
pub fn room(alloc: Global, outs: &mut Option<Outs>) -> Result<Outs, AllocError> {
    match outs.take() {
        Some(outs) => Ok(outs),
        None => Outs::new(alloc).map_err(|_| AllocError),
    }
}

// A receive with room for this many bytes.
fn receive<C: Control>(
    alloc: Global,
    socket: &mut Socket<C>,
    now: u64,
    room: u32,
) -> Result<Reply, AllocError>
    ensures value { IfOk result (λ reply. reply_of reply
        ≡ (step C.ways socket.old (event now (Recv room))).reply) }
    ensures next { OnOk result (socket.new
        ≡ (step C.ways socket.old (event now (Recv room))).after) }
    ensures text { IfOk result (λ reply. text_of reply ≡ reply_text (reply_of reply)) }
{
    let mut into = vec![in alloc; 0; room as usize]?;
    match socket.recv(now, &mut into) {
        Ok(count) => {
            into.truncate(count);
            Ok(Reply::Received(Ok(into)))
        }
        Err(why) => Ok(Reply::Received(Err(why))),
    }
}

// A receive of a message with room for this many bytes.
fn receive_message<C: Control>(
    alloc: Global,
    socket: &mut Socket<C>,
    now: u64,
    room: u32,
) -> Result<Reply, AllocError>
    ensures value { IfOk result (λ reply. reply_of reply
        ≡ (step C.ways socket.old (event now (RecvMessage room))).reply) }
    ensures next { OnOk result (socket.new
        ≡ (step C.ways socket.old (event now (RecvMessage room))).after) }
    ensures text { IfOk result (λ reply. text_of reply ≡ reply_text (reply_of reply)) }
{
    let mut into = vec![in alloc; 0; room as usize]?;
    match socket.recv_message(now, &mut into) {
        Ok(count) => {
            into.truncate(count);
            Ok(Reply::ReceivedMessage(Ok(into)))
        }
        Err(why) => Ok(Reply::ReceivedMessage(Err(why))),
    }
}

// A listen, whose memory is the only one that a call takes.
fn listen<C: Control>(socket: &mut Socket<C>, now: u64, most: u32) -> Result<Reply, AllocError>
    ensures value { IfOk result (λ reply. reply_of reply
        ≡ (step C.ways socket.old (event now (Listen most no_secret))).reply) }
    ensures next { OnOk result (socket.new
        ≡ (step C.ways socket.old (event now (Listen most no_secret))).after) }
    ensures text { IfOk result (λ reply. text_of reply ≡ reply_text (reply_of reply)) }
{
    match socket.listen(now, most, NO_SECRET) {
        Err(Refusal::OutOfMemory) => Err(AllocError),
        answer => Ok(Reply::Listened(answer)),
    }
}

// What a call of a socket answers. What it emits is left in `outs`.
#[tactic(auto, using(crate::proofs::EventLemmas::listen_outs, crate::proofs::EventLemmas::connect_outs, crate::proofs::EventLemmas::meet_outs, crate::proofs::EventLemmas::shake_outs, crate::proofs::EventLemmas::send_outs, crate::proofs::EventLemmas::recv_outs, crate::proofs::EventLemmas::send_message_outs, crate::proofs::EventLemmas::recv_message_outs, crate::proofs::EventLemmas::close_outs, crate::proofs::EventLemmas::close_reply, crate::proofs::EventLemmas::tick_reply, crate::proofs::EventLemmas::measure_outs))]
fn answer<C: Control>(
    alloc: Global,
    socket: &mut Socket<C>,
    now: u64,
    call: &Call,
    outs: &mut Outs,
) -> Result<Reply, AllocError>
    ensures value { IfOk result (λ reply. reply_of reply
        ≡ (step C.ways socket.old (event now (act_of call.now))).reply) }
    ensures next { OnOk result (socket.new
        ≡ (step C.ways socket.old (event now (act_of call.now))).after) }
    ensures outs { OnOk result (outs.new
        ≡ outs_of (step C.ways socket.old (event now (act_of call.now)))) }
    ensures text { IfOk result (λ reply. text_of reply ≡ told (act_of call.now) (reply_of reply)) }
{
    outs.clear();
    match call {
        Call::Listen(most) => listen(socket, now, *most),
        Call::Connect(to) => Ok(Reply::Connected(socket.connect(now, *to))),
        Call::Meet(to) => Ok(Reply::Met(socket.meet(now, *to))),
        Call::Shake => Ok(Reply::Shaken(socket.shake(now))),
        Call::Send(bytes) => Ok(Reply::Sent(socket.send(now, bytes))),
        Call::Recv(room) => receive(alloc, socket, now, *room),
        Call::SendMessage { ttl, order, bytes } => Ok(Reply::SentMessage(socket.send_message(
            now, *ttl, *order, bytes,
        ))),
        Call::RecvMessage(room) => receive_message(alloc, socket, now, *room),
        Call::Pack => Ok(Reply::Packed(socket.pack(now, outs))),
        Call::Tick => {
            socket.tick(now, outs);
            Ok(Reply::Ticked)
        }
        Call::Close => {
            socket.close(now);
            Ok(Reply::Closed)
        }
        Call::Perf => Ok(Reply::Measured(socket.perf(now))),
    }
}

/// What an event of a socket answers. What it emits is left in `outs`.
#[tactic(auto, using(crate::proofs::EventLemmas::accept_outs, crate::proofs::EventLemmas::offer_outs, crate::proofs::EventLemmas::withdraw_outs, crate::proofs::EventLemmas::withdraw_reply))]
pub fn happen<C: Control>(
    alloc: Global,
    socket: &mut Socket<C>,
    now: u64,
    act: &Act,
    outs: &mut Outs,
) -> Result<Reply, AllocError>
    ensures value { IfOk result (λ reply. reply_of reply
        ≡ (step C.ways socket.old (event_of now act.now)).reply) }
    ensures next { OnOk result (socket.new ≡ (step C.ways socket.old (event_of now act.now)).after) }
    ensures outs { OnOk result (outs.new ≡ outs_of (step C.ways socket.old (event_of now act.now))) }
    ensures text { IfOk result (λ reply. text_of reply ≡ told (act_in act.now) (reply_of reply)) }
{
    match act {
        Act::Call(call) => answer(alloc, socket, now, call, outs),
        Act::Accept => {
            outs.clear();
            Ok(Reply::Accepted(socket.accept(now)))
        }
        Act::Offer(id) => {
            outs.clear();
            let taken = socket.offer(now, *id);
            Ok(Reply::Offered { id: *id, taken })
        }
        Act::Withdraw => {
            outs.clear();
            socket.withdraw(now);
            Ok(Reply::Withdrawn)
        }
        Act::Arrive(from, bytes) => Ok(Reply::Heard(socket.arrive(now, *from, bytes, outs))),
    }
}

// Prints the datagrams that an event emitted, and keeps them.
fn keep_emitted(
    alloc: Global,
    datagrams: &mut Vec<ScriptDatagram>,
    from: Addr,
    outs: &Outs,
    out: &mut Vec<u8>,
) -> Result<(), AllocError>
    ensures datagrams { OnOk result (map datagram_of datagrams.new.items
        ≡ map datagram_of datagrams.old.items ++ map (from_host from) outs.now) }
    ensures text { OnOk result (out.new.items ≡ out.old.items
        ++ datagrams_text (vec_len datagrams.old) (map (from_host from) outs.now)) }
    ensures err { OnErr result (take (vec_len out.old) out.new.items ≡ out.old.items) }
{
    for i in 0..outs.len() {
        let (to, bytes) = outs.get(i);
        let bytes = Vec::from_slice(alloc, bytes)?;
        let datagram = ScriptDatagram { from, to, bytes };
        print_datagram(out, datagrams.len() as u64, &datagram)?;
        datagrams.push(datagram)?;
    }
    Ok(())
}

// The answer says that the socket began to listen.
fn listens(reply: &Reply) -> bool
    ensures { result ≡ is_listening (reply_of reply.now) }
{
    match reply {
        Reply::Listened(answer) => answer.is_ok(),
        _ => false,
    }
}

// The address that the socket began to meet, by what it was asked and what it answered.
fn meets(act: &Act, reply: &Reply) -> Option<Addr>
    ensures { result ≡ meets_by (act_in act.now) (reply_of reply.now) }
{
    match (act, reply) {
        (Act::Call(Call::Meet(to)), Reply::Met(Ok(()))) => Some(*to),
        _ => None,
    }
}

impl<C> ScriptSocket<C> {
    /// Notes that the socket began to listen, or to meet an address, where it answers so.
    pub fn note(&mut self, act: &Act, reply: &Reply)
        ensures { self.new ≡ record self.old {
          listened = self.old.listened || is_listening (reply_of reply.now);
          met = first_met self.old.met (meets_by (act_in act.now) (reply_of reply.now));
        } }
    {
        if listens(reply) {
            self.listened = true;
        }
        if self.met.is_none() {
            self.met = meets(act, reply);
        }
    }
}

impl<C: Control> Network<C> {
    /// A network without hosts and sockets.
    pub fn new(alloc: Global) -> Network<C>
        ensures view { view_of result ≡ record { hosts = []; sockets = []; datagrams = [] } }
        ensures wired { IsWired result }
    {
        Network {
            alloc,
            hosts: Vec::new(alloc),
            endpoints: Vec::new(alloc),
            sockets: Vec::new(alloc),
            names: BTreeMap::new(alloc),
            datagrams: Vec::new(alloc),
            outs: None,
        }
    }

    /// The socket at this place has an event, which is printed; and then what it emitted is printed and
    /// kept. The answer comes back.
    fn react(
        &mut self,
        place: usize,
        now: u64,
        act: &Act,
        out: &mut Vec<u8>,
    ) -> Result<Reply, AllocError>
        requires { place < vec_len self.old.sockets }
        ensures ok { OnOk result (HasEvent C.ways place (event_of now act.now)
            (view_of self.old) (view_of self.new) out.old.items out.new.items) }
        ensures reply { IfOk result (λ reply. RepliesTo C.ways place (event_of now act.now) (reply_of reply)
            (view_of self.old)) }
        ensures kept { OnOk result (KeepsPlaces self.old self.new) }
        ensures err { OnErr result (take (vec_len out.old) out.new.items ≡ out.old.items) }
    {
        let mut outs = room(self.alloc, &mut self.outs)?;
        let socket = &mut self.sockets[place];
        let host = socket.host;
        let reply = happen(self.alloc, &mut socket.socket, now, act, &mut outs)?;
        socket.note(act, &reply);
        print_reply(out, &socket.name, &reply)?;
        keep_emitted(self.alloc, &mut self.datagrams, host, &outs, out)?;
        self.outs = Some(outs);
        Ok(reply)
    }

    /// The same, and the endpoint at its host is told of the socket.
    pub fn event(
        &mut self,
        place: usize,
        now: u64,
        act: &Act,
        out: &mut Vec<u8>,
    ) -> Result<Reply, AllocError>
        requires place { place < vec_len self.old.sockets }
        requires wired { IsWired self.old }
        requires may { MayHappen (sights_of self.old) place (act_in act.now) }
        ensures ok { OnOk result (HasEvent C.ways place (event_of now act.now)
            (view_of self.old) (view_of self.new) out.old.items out.new.items) }
        ensures reply { IfOk result (λ reply. RepliesTo C.ways place (event_of now act.now) (reply_of reply)
            (view_of self.old)) }
        ensures wired { OnOk result (IsWired self.new) }
        ensures stands { OnOk result (KeepsAddresses self.old self.new) }
        ensures err { OnErr result (take (vec_len out.old) out.new.items ≡ out.old.items) }
    {
        let reply = self.react(place, now, act, out)?;
        self.enter(place);
        Ok(reply)
    }
}
