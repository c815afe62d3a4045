// Polls worked by hand, over members that count how often they are asked.

ghost use Rattle.std.specs.Prelude.{◌≡◌, ◌+◌, ◌-◌, ◌^◌, min};

use crate::{Looks, Poll};
use std::test::Fail;

// answers the same bits each time, and counts the questions
#[derive(Drop)]
struct Steady {
    bits: u8,
    last: u8,
    questions: u32,
}

impl Looks for Steady {
    ghost asked = { λ before after. after.questions ≡ min (before.questions + 1) (2 ^ 32 - 1) };

    ghost answer = { λ steady. steady.last };

    fn bits(&mut self) -> u8 {
        self.questions = self.questions.saturating_add(1);
        self.last = self.bits;
        self.bits
    }
}

fn made(bits: u8) -> Steady {
    Steady {
        bits,
        last: 0,
        questions: 0,
    }
}

// the bits of a member and how often it was asked
fn told(member: Option<Steady>) -> Option<(u8, u32)> {
    match member {
        Some(member) => Some((member.bits, member.questions)),
        None => None,
    }
}

#[test]
fn tells_the_ready_members_in_order_of_id(rt: HostRuntime) -> Result<(), Fail> {
    let mut poll = Poll::new(rt.alloc());
    let mut into = Vec::new(rt.alloc());
    into.push((77, 1))?;
    for (id, interest, bits) in [
        (9, 0b11, 0b110),
        (2, 0b1, 0b110),
        (5, 0b100, 0b100),
        (4, 0, 255),
    ] {
        assert!(rt;
            poll.add(id, interest, made(bits))
                .is_ok_and(|old| old.is_none())
        );
    }
    assert_eq!(rt; poll.ready(&mut into), Ok(2));
    assert_eq!(rt;
        into.as_slice(),
        [(77, 1), (5, 0b100), (9, 0b110)].as_slice()
    );
    let replaced = poll.add(9, 0b1000, made(0b1000)).ok();
    assert_eq!(rt; told(replaced.flatten()), Some((0b110, 1)));
    assert_eq!(rt; told(poll.remove(5)), Some((0b100, 1)));
    assert_eq!(rt; told(poll.remove(5)), None);
    into.clear();
    assert_eq!(rt; poll.ready(&mut into), Ok(1));
    assert_eq!(rt; into.as_slice(), [(9, 0b1000)].as_slice());
    for (id, questions) in [(2, 2), (4, 2), (9, 1)] {
        let (first, member) = poll.take_first().expect(&rt, "a member");
        assert_eq!(rt; (first, member.questions), (id, questions));
    }
    assert!(rt; poll.take_first().is_none());
    Ok(())
}

#[test]
fn watches_1024_members(rt: HostRuntime) -> Result<(), Fail> {
    let mut poll = Poll::new(rt.alloc());
    let mut into = Vec::new(rt.alloc());
    for i in 0u32..1024 {
        assert!(rt; poll.add(i * 389 % 1024, 1, made(1)).is_ok());
    }
    assert_eq!(rt; poll.ready(&mut into), Ok(1024));
    for (i, (id, answer)) in into.iter().enumerate() {
        assert_eq!(rt; (*id as usize, *answer), (i, 1));
    }
    Ok(())
}
