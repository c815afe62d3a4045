ghost use Rattle.std.specs.Prelude.{◌≡◌, ◌+◌, ◌^◌, ◌<◌, [], ◌∷◌, ◌++◌, length, Some, None, IfSome, MatchBool};
ghost use Rattle.udt_turn.specs.Words.{IsPassOf};

use crate::{Held, Naming, Pass, Story, Turn};
use std::alloc::Global;
use std::marker::{Brand, Model};
use std::sync::Wait;
use std::test::Fail;
use std::thread;
use std::thread::Threads;

// A list of numbers, whose items append one number each.
#[derive(Drop)]
struct Numbers {
    list: Vec<u64>,
}

impl Model for Numbers {
    ghost use Rattle.std.specs.Prelude.{List, ℕ};

    ghost Value = { List ℕ };

    ghost view = { λ n. n.list.items };
}

impl Story for Numbers {
    type Entry = u64;

    ghost tale = { record { after = λ xs n. xs ++ n ∷ []; legal = λ xs n. Unit {0}; count = length; bits = λ xs. 1 } };

    ghost any = { [] };

    fn count(&self) -> u64 {
        self.list.len() as u64
    }

    fn bits(&self) -> u8 {
        1
    }
}

impl Numbers {
    fn add(&mut self, n: u64) -> bool
        ensures { MatchBool result
            ((self.new ≡ self.old ++ n ∷ []) × (length self.new < 2 ^ 55)) (self.new ≡ self.old) }
    {
        self.list.len() < 1 << 40 && self.list.push(n).is_ok()
    }
}

impl Turn<Numbers> {
    ghost use Rattle.udt_turn.specs.History.{value_of};
    ghost use Rattle.udt_turn.specs.Words.{IsPassOf, names_of, seen_of, mine_of, found_by, number_of, IsHeld};

    // Publishes the number n, which was added.
    fn tell<N: Naming<u64>>(held: Held<'_, Numbers>, n: u64)
        requires held { IsHeld ⟦<Numbers as Story>⟧.tale held }
        requires item { N.item ≡ Some n }
        requires added { held.value ≡ value_of ⟦<Numbers as Story>⟧.tale (found_by held) ++ n ∷ [] }
        requires most { length held.value < 2 ^ 55 }
        ensures own { IsPassOf held.entry.turn.now held.exit.1.0.now }
    {
        held.publish::<N>();
    }

    // Adds a number, and says whether there was room.
    fn append<R: Wait>(&self, rt: &R, pass: &mut Pass<Numbers>, n: u64) -> bool
        requires { IsPassOf self.now pass.old }
        ensures { IsPassOf self.now pass.new }
    {
        let mut held = self.enter(rt, pass);
        if held.value().add(n) {
            Turn::tell::<Brand>(held, n);
            true
        } else {
            held.leave();
            false
        }
    }
}

// Splits a pass off this many times, and says how often it went.
fn split_off(turn: &Turn<Numbers>, pass: &mut Pass<Numbers>, times: u32) -> u32
    requires { IsPassOf turn.now pass.old }
    ensures { IsPassOf turn.now pass.new }
{
    let mut went = 0u32;
    for _ in 0..times {
        if turn.split(pass).is_ok() {
            went = went.wrapping_add(1);
        }
    }
    went
}

#[test]
fn pass_numbers_run_out(rt: HostRuntime) -> Result<(), Fail> {
    let numbers = Numbers {
        list: Vec::new(rt.alloc()),
    };
    let made = Turn::make(rt.alloc(), numbers);
    let Ok((turn, mut pass)) = made else {
        panic!(rt; "no memory")
    };
    assert_eq!(rt; split_off(&turn, &mut pass, 65_534), 65_534);
    assert_eq!(rt; split_off(&turn, &mut pass, 3), 0);
    Ok(())
}

#[test]
fn a_look_shows_what_another_pass_published(rt: HostRuntime) -> Result<(), Fail> {
    let numbers = Numbers {
        list: Vec::new(rt.alloc()),
    };
    let Ok((turn, mut first)) = Turn::make(rt.alloc(), numbers) else {
        panic!(rt; "no memory")
    };
    let Ok(mut second) = turn.split(&mut first) else {
        panic!(rt; "no number")
    };
    assert_eq!(rt; turn.look(&mut first).count, 0);
    assert!(rt; turn.append(&rt, &mut second, 7));
    let look = turn.look(&mut first);
    assert!(rt; look.count == 1 && look.bits == 1);
    assert!(rt; first.last() == 0 && second.last() == 1);
    let Err((turn, mut first)) = turn.close(first) else {
        panic!(rt; "closed while another pass is out")
    };
    turn.join(second, &mut first);
    assert_eq!(rt; first.last(), 1);
    let Ok(numbers) = turn.close(first) else {
        panic!(rt; "all passes were joined")
    };
    assert!(rt; numbers.list.as_slice() == [7].as_slice());
    Ok(())
}

// Adds a thousand numbers, from `from` on.
fn add_thousand<R: Wait>(
    rt: &R,
    turn: &Turn<Numbers>,
    mut pass: Pass<Numbers>,
    from: u64,
) -> Option<Pass<Numbers>>
    requires { IsPassOf turn.now pass }
    ensures { IfSome result (λ p. IsPassOf turn.now p) }
{
    for n in 0..1000u64 {
        if !turn.append(rt, &mut pass, from.wrapping_add(n)) {
            return None;
        }
    }
    Some(pass)
}

// Two threads add a thousand numbers each, and the second pass is joined into the first.
fn add_by_two<R: Threads + Wait + Sync>(
    rt: &R,
    turn: &Turn<Numbers>,
    first: Pass<Numbers>,
    second: Pass<Numbers>,
) -> Option<Pass<Numbers>>
    requires first { IsPassOf turn.now first }
    requires second { IsPassOf turn.now second }
    ensures { IfSome result (λ p. IsPassOf turn.now p) }
{
    let (first, second) = thread::join(
        rt,
        move ||
            requires { IsPassOf turn.now first }
            ensures { IfSome result (λ p. IsPassOf turn.entry.now p) }
        { add_thousand(rt, turn, first, 0) },
        move ||
            requires { IsPassOf turn.now second }
            ensures { IfSome result (λ p. IsPassOf turn.entry.now p) }
        { add_thousand(rt, turn, second, 1000) },
    );
    let (Some(mut first), Some(second)) = (first, second) else {
        return None;
    };
    turn.join(second, &mut first);
    Some(first)
}

#[test]
fn two_threads_make_one_history(rt: HostRuntime) -> Result<(), Fail> {
    let numbers = Numbers {
        list: Vec::with_capacity(rt.alloc(), 2000)?,
    };
    let Ok((turn, mut first)) = Turn::make(rt.alloc(), numbers) else {
        panic!(rt; "no memory")
    };
    let Ok(second) = turn.split(&mut first) else {
        panic!(rt; "no number")
    };
    let Some(mut pass) = add_by_two(&rt, &turn, first, second) else {
        panic!(rt; "no room")
    };
    assert_eq!(rt; turn.look(&mut pass).count, 2000);
    assert_eq!(rt; pass.last(), 2000);
    let Ok(mut numbers) = turn.close(pass) else {
        panic!(rt; "both passes were joined")
    };
    numbers.list.sort()?;
    assert!(rt; numbers.list.iter().copied().eq(0..2000u64));
    Ok(())
}
