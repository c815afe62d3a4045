// Bytes worked by hand from the layout of packets.

use super::*;
use std::test::*;
use udt_model::{Config, Ip, Kind};
use udt_rate::Steady;
use udt_rcv_loss::RcvLoss;

const PEER: Peer = Peer {
    addr: Addr {
        ip: Ip::V4(0x0a00_0002),
        port: 9000,
    },
    id: 7,
    isn: 0,
    payload: 4,
    flow: 8,
};

const OTHER: Addr = Addr {
    ip: Ip::V4(0x0a00_0003),
    port: 9001,
};

#[test]
#[tactic(auto, unfolding(udt_model::specs::Wire::spelling))]
fn datagrams_stand_in_the_order_in_which_they_were_emitted(rt: HostRuntime) -> Result<(), Fail> {
    let config = Config {
        kind: Kind::Stream,
        payload: 4,
        snd_blocks: 2,
        rcv_blocks: 2,
    };
    let mut sender: Sender<Steady> = Sender::new(rt.alloc(), &config, 0)?;
    sender.link(0x7fff_ffff, 4, 8);
    let _ = sender.send(0, b"abc");
    let mut outs = Outs::new(rt.alloc())?;
    assert_eq!(rt; outs.len(), 0);
    let packed = outs.emit_block(&mut sender, 0, 9, &PEER);
    assert_eq!(rt; packed, Packed::Block(19));
    outs.emit_gap(OTHER, 9, 7, 0x7fff_ffff, (1, 1));
    outs.emit(PEER.addr, &Packet::KeepAlive { stamp: 9, dest: 7 });
    let wanted: [(Addr, &[u8]); 3] = [
        (
            PEER.addr,
            b"\x7f\xff\xff\xff\xc0\x00\x00\x01\x00\x00\x00\x09\x00\x00\x00\x07abc",
        ),
        (
            OTHER,
            b"\x80\x03\x00\x00\x00\x00\x00\x00\x00\x00\x00\x09\x00\x00\x00\x07\x00\x00\x00\x00",
        ),
        (
            PEER.addr,
            b"\x80\x01\x00\x00\x00\x00\x00\x00\x00\x00\x00\x09\x00\x00\x00\x07",
        ),
    ];
    assert_eq!(rt; outs.len(), 3);
    for i in 0..outs.len().min(3) {
        assert_eq!(rt; outs.get(i), wanted[i]);
    }
    Ok(())
}

#[test]
#[tactic(auto, unfolding(udt_rcv_loss::specs::Reports::words_of, udt_rcv_loss::specs::Absent::AllBelow))]
fn a_nak_has_both_ends_of_each_range(rt: HostRuntime) -> Result<(), Fail> {
    let mut lost = RcvLoss::new(rt.alloc(), 8)?;
    let mut ranges = Ranges::new(rt.alloc(), 4)?;
    let mut outs = Outs::new(rt.alloc())?;
    outs.emit_nak(OTHER, 9, 7, 0x7fff_fffe, &ranges);
    assert_eq!(rt; outs.len(), 0);
    lost.add(1, 3, 0);
    lost.due(10, 1, 4, &mut ranges);
    outs.emit_nak(OTHER, 9, 7, 0x7fff_fffe, &ranges);
    assert_eq!(rt; outs.len(), 1);
    let wanted: &[u8] =
        b"\x80\x03\x00\x00\x00\x00\x00\x00\x00\x00\x00\x09\x00\x00\x00\x07\xff\xff\xff\xff\x00\x00\x00\x01";
    if outs.len() > 0 {
        let (to, bytes) = outs.get(0);
        assert_eq!(rt; to, OTHER);
        assert_eq!(rt; bytes, wanted);
    }
    outs.clear();
    assert_eq!(rt; outs.len(), 0);
    Ok(())
}
