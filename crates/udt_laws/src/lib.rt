//! The main theorems of the protocol, each the contract of an empty function.
#![tactic(auto)]

ghost use Rattle.udt_laws.specs.Laws.{OneHistory, EmittedBlocks, AllNamed, Addressed, Named};
ghost use Rattle.udt_laws.specs.Laws.{MutualAdoption, Prefix, PairPrefix, PairArrived, PairHonest};
ghost use Rattle.udt_laws.specs.Laws.{Messages};
ghost use Rattle.udt_laws.specs.Scripts.{ScriptLawful, ScriptAdoption, ScriptPrefix, ScriptMessages};

use udt_rate::Control;

/// Whatever arrives, a stream socket delivers a front of the payloads that came from its peer's
/// address, each under the sequence number of its place.
pub fn one_history<C: Control>()
    ensures { OneHistory C.ways }
{}

/// What a stream socket sends are the blocks of the bytes that it accepted, each under the wire
/// number of its offset.
pub fn emitted_blocks<C: Control>()
    ensures { EmittedBlocks C.ways }
{}

/// Each datagram that a history sent stands among the emitted ones, in order.
pub fn all_named<C: Control>()
    ensures { AllNamed C.ways }
{}

/// What a socket emits for its peer, answers and all that isn't a handshake, goes to its own peer.
pub fn addressed<C: Control>()
    ensures { Addressed C.ways }
{}

/// A handshake that tells whose it is carries the ID and the initial sequence number of the socket
/// that emits it.
pub fn named<C: Control>()
    ensures { Named C.ways }
{}

/// Where records are lawful, no datagram is forged and none outlives 2^30 packets, a socket that has placed
/// a block, taken a message drop request, accepted an ACK or has a block acknowledged is the own peer of
/// its own peer. Both carry the same, begin at one offset, and have each other's initial sequence number.
pub fn mutual_adoption<C: Control>()
    ensures { MutualAdoption C.ways }
{}

/// Where records are lawful, no datagram is forged and none outlives 2^30 packets, what a stream socket
/// delivers is a prefix of what its own peer accepted, and no more of its blocks are acknowledged than
/// have arrived there.
pub fn prefix<C: Control>()
    ensures { Prefix C.ways }
{}

/// The first for two sockets that were made as a pair, of which the sender emitted fewer than 2^30
/// datagrams.
pub fn pair_prefix<C: Control>()
    ensures { PairPrefix C.ways }
{}

/// The second for two such sockets, of which the one whose blocks are acknowledged emitted fewer
/// than 2^30 datagrams.
pub fn pair_arrived<C: Control>()
    ensures { PairArrived C.ways }
{}

/// The records of two stream sockets that were made as a pair are lawful and honest, where each got from
/// the other alone and both emitted fewer than 2^30 datagrams.
pub fn pair_honest<C: Control>()
    ensures { PairHonest C.ways }
{}

/// Where records are lawful, no datagram is forged and none outlives 2^30 packets, a message socket shows
/// messages that its own peer accepted, each whole and at most once, and those that must be delivered in
/// order in their order. What is acknowledged of the peer has arrived, or was dropped.
pub fn messages<C: Control>()
    ensures { Messages C.ways }
{}

/// Whatever the lines of a script say, and whatever bytes they give, the records of its sockets are
/// lawful.
pub fn script_lawful<C: Control>()
    ensures { ScriptLawful C.ways }
{}

/// Mutual adoption for each socket of a script, where no line gives bytes of its own.
pub fn script_adoption<C: Control>()
    ensures { ScriptAdoption C.ways }
{}

/// Prefix for each stream socket of a script and its own peer, where no line gives bytes of its own.
pub fn script_prefix<C: Control>()
    ensures { ScriptPrefix C.ways }
{}

/// Messages for each message socket of a script and its own peer, where no line gives bytes of its own.
pub fn script_messages<C: Control>()
    ensures { ScriptMessages C.ways }
{}
