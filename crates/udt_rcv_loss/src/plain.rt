// The list as a rising vector: the program of the definitions, beside which the linked ranges are
// tested.

ghost use Rattle.std.specs.Prelude.{◌≡◌, OnOk, IfOk, if◌then◌else◌};
ghost use Rattle.udt_model.specs.Losses.{before_ranges, words_of_range, fitting_ranges, is_within, is_due as due_then, reported_at};
ghost use Rattle.udt_rcv_loss.specs.Plain.{goes_on as goes_on_of};

use std::alloc::{AllocError, Global};
use std::collections::VecDeque;
use std::marker::Model;

// A packet that has not arrived.
#[derive(Clone, Copy)]
struct Item {
    offset: u64,
    reported: u64,
    wait: u32,
}

impl Model for Item {
    ghost use Rattle.udt_model.specs.Losses.{Missing};

    ghost Value = { Missing };

    ghost view = { λ i. record { offset = i.offset; reported = i.reported; wait = i.wait } };

    ghost inverse = { λ m. record { offset = m.offset; reported = m.reported; wait = m.wait } };
}

/// A run of consecutive offsets, by its ends.
#[derive(Clone, Copy, Debug, PartialEq, Eq)]
pub struct Ends {
    pub first: u64,
    pub last: u64,
}

impl Model for Ends {
    ghost use Rattle.udt_model.specs.Losses.{LostRange};

    ghost Value = { LostRange };

    ghost view = { λ e. record { first = e.first; last = e.last } };

    ghost inverse = { λ r. record { first = r.first; last = r.last } };
}

/// The packets one by one.
#[derive(Drop)]
pub struct PlainRcvLoss {
    alloc: Global,
    window: u32,
    missing: Vec<Item>,
}

impl Model for PlainRcvLoss {
    ghost use Rattle.udt_rcv_loss.specs.Absent.{MissingList};

    ghost Value = { MissingList };

    ghost view = { λ l. record { window = l.window; missing = l.missing.items } };
}

#[tactic(auto, unfolding(udt_model::specs::Losses::without_missing, udt_model::specs::Losses::report, udt_model::specs::Losses::after_report))]
impl PlainRcvLoss {
    ghost use Rattle.std.specs.Prelude.{◌≡◌, ◌≤◌, [], length, OnOk, OnErr, IfOk};
    ghost use Rattle.udt_model.specs.Losses.{with_missing, without_missing, is_missing, missing_ranges, due_ranges, report, after_report};
    ghost use Rattle.udt_ranges.specs.Offsets.{least};
    ghost use Rattle.udt_rcv_loss.specs.Absent.{MissingList, offsets_in};

    pub fn new(alloc: Global, window: u32) -> PlainRcvLoss
        ensures { result ≡ record { window = window; missing = [] } }
    {
        PlainRcvLoss {
            alloc,
            window,
            missing: Vec::new(alloc),
        }
    }

    pub fn add(&mut self, from: u64, to: u64, now: u64) -> Result<(), AllocError>
        requires { from ≤ to }
        ensures { OnOk result (self.new
            ≡ record self.old { missing = with_missing from to now self.old.missing }) }
    {
        for k in 0..to - from {
            self.missing.push(Item {
                offset: from + k,
                reported: now,
                wait: 2,
            })?;
        }
        self.missing.push(Item {
            offset: to,
            reported: now,
            wait: 2,
        })?;
        Ok(())
    }

    pub fn remove_range(&mut self, from: u64, to: u64) -> Result<(), AllocError>
        ensures ok { OnOk result (self.new
            ≡ record self.old { missing = without_missing from to self.old.missing }) }
        ensures err { OnErr result (self.new ≡ self.old) }
    {
        let missing = self.missing.iter().copied();
        let kept = missing
            .filter(|lost| lost.offset < from || to < lost.offset)
            .collect(self.alloc)?;
        self.missing = kept;
        Ok(())
    }

    pub fn remove(&mut self, n: u64) -> Result<bool, AllocError>
        ensures ok { OnOk result (self.new
            ≡ record self.old { missing = without_missing n n self.old.missing }) }
        ensures value { IfOk result (λ listed. listed ≡ is_missing n self.old.missing) }
    {
        let listed = self.missing.iter().any(|lost| lost.offset == n);
        self.remove_range(n, n)?;
        Ok(listed)
    }

    pub fn first(&self) -> Option<u64>
        ensures { result ≡ least (offsets_in self.now.missing) }
    {
        if self.missing.is_empty() {
            return None;
        }
        Some(self.missing[0].offset)
    }

    pub fn ranges(&self) -> u64
        ensures { result ≡ length (missing_ranges self.now.missing) }
    {
        let mut count = 0;
        let mut i = self.missing.len();
        while i > 0 {
            i -= 1;
            if !goes_on(&self.missing[i..]) {
                count += 1;
            }
        }
        count
    }

    // the first of the longest runs of due offsets, as many as fit into this many words
    pub fn due(&mut self, now: u64, rtt: u64, words: u32) -> Result<Vec<Ends>, AllocError>
        ensures value { IfOk result (λ taken. taken.items ≡ report now rtt words self.old.missing) }
        ensures next { IfOk result (λ taken. self.new
            ≡ record self.old { missing = after_report now taken.items self.old.missing }) }
    {
        let taken = fitting(self.alloc, self.runs(now, rtt)?, words)?;
        let missing = self.missing.iter().copied();
        let told = missing
            .map(|lost| told(&taken, lost, now))
            .collect(self.alloc)?;
        self.missing = told;
        Ok(taken)
    }

    // the longest runs of due offsets, found from the last one to the first
    fn runs(&self, now: u64, rtt: u64) -> Result<VecDeque<Ends>, AllocError>
        ensures { IfOk result (λ runs. runs.items ≡ due_ranges now rtt self.now.missing) }
    {
        let mut runs = VecDeque::new(self.alloc);
        let mut i = self.missing.len();
        while i > 0 {
            i -= 1;
            put_due(&mut runs, self.missing[i], now, rtt)?;
        }
        Ok(runs)
    }
}

// the first runs that fit into this many words
fn fitting(alloc: Global, runs: VecDeque<Ends>, words: u32) -> Result<Vec<Ends>, AllocError>
    ensures { IfOk result (λ taken. taken.items ≡ fitting_ranges words runs.items) }
{
    let mut runs = runs;
    let mut taken = Vec::new(alloc);
    let mut left = words;
    while let Some(run) = runs.pop_front() {
        let cost = words_of(run);
        if left < cost {
            break;
        }
        left -= cost;
        taken.push(run)?;
    }
    Ok(taken)
}

// how many words a run takes
fn words_of(run: Ends) -> u32
    ensures { result ≡ words_of_range run }
{
    if run.first == run.last { 1 } else { 2 }
}

// whether a packet is to be reported at a moment
fn is_due(lost: Item, now: u64, rtt: u64) -> bool
    ensures { result ≡ due_then now rtt lost }
{
    let since = now.saturating_sub(lost.reported);
    u128::from(lost.wait) * u128::from(rtt) <= u128::from(since)
}

// puts an offset before runs, of which the first may go on from it
fn put_before(runs: &mut VecDeque<Ends>, offset: u64) -> Result<(), AllocError>
    ensures { OnOk result (runs.new.items ≡ before_ranges offset runs.old.items) }
{
    let run = Ends {
        first: offset,
        last: offset,
    };
    let first = match runs.pop_front() {
        Some(next) if next.first > offset && next.first - offset == 1 => Ends {
            first: offset,
            last: next.last,
        },
        Some(next) => {
            runs.push_front(next)?;
            run
        }
        None => run,
    };
    runs.push_front(first)?;
    Ok(())
}

// puts a packet that is due before the runs after it
fn put_due(runs: &mut VecDeque<Ends>, lost: Item, now: u64, rtt: u64) -> Result<(), AllocError>
    ensures { OnOk result (runs.new.items
        ≡ (if due_then now rtt lost then before_ranges lost.offset runs.old.items else runs.old.items)) }
{
    if is_due(lost, now, rtt) {
        put_before(runs, lost.offset)?;
    }
    Ok(())
}

// whether an offset lies in one of the runs
fn lies_in(runs: &[Ends], offset: u64) -> bool
    ensures { result ≡ is_within runs.now offset }
{
    runs.iter()
        .any(|run| run.first <= offset && offset <= run.last)
}

// a packet once these runs were reported
fn told(taken: &[Ends], lost: Item, now: u64) -> Item
    ensures { result ≡ (if is_within taken.now lost.offset then reported_at now lost else lost) }
{
    if lies_in(taken, lost.offset) {
        return Item {
            offset: lost.offset,
            reported: now,
            wait: lost.wait.saturating_add(1),
        };
    }
    lost
}

// whether the first packet is followed by the next offset with the same report
fn goes_on(missing: &[Item]) -> bool
    ensures { result ≡ goes_on_of missing.now }
{
    match missing {
        [m, n, ..] => {
            n.offset > m.offset
                && n.offset - m.offset == 1
                && n.reported == m.reported
                && n.wait == m.wait
        }
        _ => false,
    }
}
