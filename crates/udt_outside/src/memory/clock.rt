// A clock and dice that read from a list.

use crate::clock::{Clock, Dice};
use std::marker::Model;
use std::sync::atomic::{AtomicUsize, Ordering};

/// A clock that shows the moments of a list, one after the other, and the last one again and again.
/// A clock got by `another` goes on by itself from where this one stands.
#[derive(Drop)]
pub struct ListClock {
    moments: &'static [u64],
    at: AtomicUsize,
}

impl Model for ListClock {
    ghost use Rattle.std.specs.Prelude.{ℕ, ◌<◌, List, length};

    ghost Value = { List ℕ };

    ghost view = { λ c. c.moments.now };

    ghost invariant = { λ c. 0 < length c.moments.now };
}

impl ListClock {
    ghost use Rattle.std.specs.Prelude.{◌≡◌, ◌<◌, length};

    /// A clock that shows these moments, in microseconds.
    pub fn new(moments: &'static [u64]) -> ListClock
        requires { 0 < length moments.now }
        ensures { result ≡ moments.now }
    {
        ListClock {
            moments,
            at: AtomicUsize::new(0),
        }
    }
}

impl Clock for ListClock {
    ghost use Rattle.std.specs.Prelude.{Some};

    ghost readings = { λ c. Some c };

    fn now(&self) -> u64 {
        let last = self.moments.len() - 1;
        let at = self.at.load(Ordering::SeqCst).min(last);
        if at < last {
            self.at.store(at + 1, Ordering::SeqCst);
        }
        self.moments[at]
    }

    fn another(&self) -> ListClock {
        ListClock {
            moments: self.moments,
            at: AtomicUsize::new(self.at.load(Ordering::SeqCst)),
        }
    }
}

/// Dice that give the words of a list, one after the other. Once these are used up they give 0, and
/// tell their words no more.
#[derive(Drop)]
pub struct ListDice {
    words: Vec<u64>,
    at: usize,
    spent: bool,
}

impl Model for ListDice {
    ghost use Rattle.std.specs.Prelude.{◌≤◌, vec_len};
    ghost use Rattle.udt_outside.specs.Lists.{Words};

    ghost Value = { Words };

    ghost view = { λ d. record { stated = d.words.items; at = d.at; spent = d.spent } };

    ghost invariant = { λ d. d.at ≤ vec_len d.words };
}

impl ListDice {
    ghost use Rattle.std.specs.Prelude.{◌≡◌, false};

    /// Dice that give these words.
    pub fn new(words: Vec<u64>) -> ListDice
        ensures { result ≡ record { stated = words.items; at = 0; spent = false } }
    {
        ListDice {
            words,
            at: 0,
            spent: false,
        }
    }
}

impl Dice for ListDice {
    ghost use Rattle.std.specs.Prelude.{◌≡◌};
    ghost use Rattle.udt_outside.specs.Options.{Adds};
    ghost use Rattle.udt_outside.specs.Lists.{words_told, word_of, after_word};

    ghost words = { words_told };

    fn word(&mut self) -> u64
        ensures words { Adds (words_told self.old) (words_told self.new) result }
        ensures value { result ≡ word_of self.old }
        ensures next { self.new ≡ after_word self.old }
    {
        if self.at == self.words.len() {
            self.spent = true;
            return 0;
        }
        let word = self.words[self.at];
        self.at += 1;
        word
    }
}
