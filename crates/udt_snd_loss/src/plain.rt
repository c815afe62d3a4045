// The list as a rising vector: the program of the definitions, beside which the linked ranges are
// tested.

use std::alloc::{AllocError, Global};
use std::marker::Model;

/// The offsets one by one.
#[derive(Drop)]
pub struct PlainSndLoss {
    alloc: Global,
    window: u32,
    floor: u64,
    lost: Vec<u64>,
}

impl Model for PlainSndLoss {
    ghost use Rattle.udt_snd_loss.specs.Lost.{LossList};

    ghost Value = { LossList };

    ghost view = { λ l. record { window = l.window; floor = l.floor; lost = l.lost.items } };
}

#[tactic(auto, unfolding(udt_model::specs::Losses::from_offset, udt_model::specs::Losses::without_range, udt_model::specs::Losses::with_range))]
impl PlainSndLoss {
    ghost use Rattle.std.specs.Prelude.{◌≡◌, ◌+◌, ◌<◌, ◌≤◌, [], length, drop, OnOk, OnErr};
    ghost use Rattle.udt_model.specs.Losses.{with_range, from_offset, without_range, ranges_of};
    ghost use Rattle.udt_ranges.specs.Offsets.{least};
    ghost use Rattle.udt_snd_loss.specs.Lost.{LossList};

    pub fn new(alloc: Global, window: u32) -> PlainSndLoss
        ensures { result ≡ record { window = window; floor = 0; lost = [] } }
    {
        PlainSndLoss {
            alloc,
            window,
            floor: 0,
            lost: Vec::new(alloc),
        }
    }

    pub fn add(&mut self, from: u64, to: u64) -> Result<(), AllocError>
        requires order { from ≤ to }
        requires floor { self.old.floor ≤ from }
        requires room { to < self.old.floor + self.old.window }
        ensures ok { OnOk result (self.new ≡ record self.old { lost = with_range from to self.old.lost }) }
        ensures err { OnErr result (self.new ≡ self.old) }
    {
        let mut lost = below(self.alloc, &self.lost, from)?;
        let above = above(self.alloc, &self.lost, to)?;
        push_all(&mut lost, from, to)?;
        lost.extend_from_slice(&above)?;
        self.lost = lost;
        Ok(())
    }

    pub fn drop_below(&mut self, n: u64) -> Result<(), AllocError>
        ensures ok { OnOk result (self.new
            ≡ record self.old { floor = n; lost = from_offset n self.old.lost }) }
        ensures err { OnErr result (self.new ≡ self.old) }
    {
        let kept = self
            .lost
            .iter()
            .copied()
            .filter(|k| n <= *k)
            .collect(self.alloc)?;
        self.lost = kept;
        self.floor = n;
        Ok(())
    }

    pub fn remove(&mut self, from: u64, to: u64) -> Result<(), AllocError>
        ensures ok { OnOk result (self.new ≡ record self.old { lost = without_range from to self.old.lost }) }
        ensures err { OnErr result (self.new ≡ self.old) }
    {
        let kept = self
            .lost
            .iter()
            .copied()
            .filter(|k| *k < from || to < *k)
            .collect(self.alloc)?;
        self.lost = kept;
        Ok(())
    }

    pub fn len(&self) -> u64
        ensures { result ≡ length self.now.lost }
    {
        self.lost.len() as u64
    }

    pub fn take_first(&mut self) -> Option<u64>
        ensures value { result ≡ least self.old.lost }
        ensures next { self.new ≡ record self.old { lost = drop 1 self.old.lost } }
    {
        if self.lost.is_empty() {
            return None;
        }
        Some(self.lost.remove(0))
    }

    pub fn ranges(&self) -> u64
        ensures { result ≡ length (ranges_of self.now.lost) }
    {
        let mut count = 0;
        let mut i = self.lost.len();
        while i > 0 {
            i -= 1;
            if !goes_on(&self.lost[i..]) {
                count += 1;
            }
        }
        count
    }
}

ghost use Rattle.std.specs.Prelude.{◌≡◌, ◌≤◌, ◌++◌, nat_lt, IfOk, OnOk};
ghost use Rattle.udt_model.specs.Losses.{offsets_between};
ghost use Rattle.std.specs.List.{filter};
ghost use Rattle.udt_snd_loss.specs.Plain.{goes_on as goes_on_of};

// the offsets below one
fn below(alloc: Global, lost: &[u64], from: u64) -> Result<Vec<u64>, AllocError>
    ensures { IfOk result (λ v. v.items ≡ filter (λ n. nat_lt n from) lost.now) }
{
    lost.iter().copied().filter(|n| *n < from).collect(alloc)
}

// puts the offsets of a range after others
fn push_all(lost: &mut Vec<u64>, from: u64, to: u64) -> Result<(), AllocError>
    requires { from ≤ to }
    ensures { OnOk result (lost.new.items ≡ lost.old.items ++ offsets_between from to) }
{
    for k in 0..to - from {
        lost.push(from + k)?;
    }
    lost.push(to)?;
    Ok(())
}

// the offsets above one
fn above(alloc: Global, lost: &[u64], to: u64) -> Result<Vec<u64>, AllocError>
    ensures { IfOk result (λ v. v.items ≡ filter (λ n. nat_lt to n) lost.now) }
{
    lost.iter().copied().filter(|n| to < *n).collect(alloc)
}

// whether the first offset is followed by the next one
fn goes_on(lost: &[u64]) -> bool
    ensures { result ≡ goes_on_of lost.now }
{
    match lost {
        [n, m, ..] => *m > *n && *m - *n == 1,
        _ => false,
    }
}
