// The newest times between arrivals, and the rates that they tell.

use crate::OutOfMemory;
use circular_buffer::HeapCircularBuffer;
use std::alloc::Global;
use std::marker::Model;
use udt_model::SAMPLE_WINDOW;

// the microseconds of a second
const SECOND: u128 = 1_000_000;

/// The newest samples of the time between two arrivals, in microseconds. `push` takes no memory.
#[derive(Drop)]
pub struct Samples {
    ring: HeapCircularBuffer<u64>,
}

impl Model for Samples {
    ghost use Rattle.std.specs.Prelude.{◌≡◌, ◌≤◌, ℕ, List, length as len};

    ghost Value = { List ℕ };

    ghost view = { λ s. s.ring.items };

    ghost use Rattle.udt_model.specs.declared.limits.TheConstants.{SAMPLE_WINDOW};

    ghost invariant = { λ s. (s.ring.capacity ≡ SAMPLE_WINDOW) × (len s.ring.items ≤ SAMPLE_WINDOW) };
}

impl Samples {
    ghost use Rattle.std.specs.Prelude.{◌≡◌, ◌≤◌, ◌<◌, ℕ, [], length, IfOk, IfSome, IfNone};
    ghost use Rattle.udt_model.specs.Timing.{with_sample, speed_of, capacity_of};
    ghost use Rattle.udt_model.specs.declared.limits.TheConstants.{SAMPLE_WINDOW};
    ghost use Rattle.udt_timing.specs.Windows.{KeepsNewest, TellsSpeed, IsBetweenRates, IsOneInNinth};

    /// An empty window, with the memory that it will ever have.
    pub fn new(alloc: Global) -> Result<Samples, OutOfMemory>
        ensures { IfOk result (λ s. s ≡ []) }
    {
        let ring = HeapCircularBuffer::with_capacity(alloc, SAMPLE_WINDOW)?;
        Ok(Samples { ring })
    }

    /// Takes in a sample, in microseconds.
    pub fn push(&mut self, v: u64)
        ensures next { self.new ≡ with_sample self.old v }
        ensures newest { KeepsNewest SAMPLE_WINDOW self.old v self.new }
        ensures within { length self.new ≤ SAMPLE_WINDOW }
    {
        self.ring.push_back(v);
    }

    /// The arrival speed in packets a second, or 0 where the samples tell none.
    pub fn speed(&self) -> u32
        ensures value { result ≡ speed_of self.now }
        ensures between { TellsSpeed self.now → IsBetweenRates self.now result }
        ensures short { length self.now < SAMPLE_WINDOW → result ≡ 0 }
    {
        let Some(samples) = self.full() else {
            return 0;
        };
        let middle = ninth_smallest(samples);
        let (kept, micros) = sum_near(&samples, middle);
        if kept <= 8 {
            return 0;
        }
        in_a_second(kept, micros)
    }

    /// The capacity of the link in packets a second, or 0 where the samples tell none.
    pub fn capacity(&self) -> u32
        ensures value { result ≡ capacity_of self.now }
        ensures ninth { length self.now ≡ SAMPLE_WINDOW → IsOneInNinth self.now result }
        ensures short { length self.now < SAMPLE_WINDOW → result ≡ 0 }
    {
        let Some(samples) = self.full() else {
            return 0;
        };
        in_a_second(1, u128::from(ninth_smallest(samples)))
    }

    // the samples in order of arrival, once the window is full
    fn full(&self) -> Option<[u64; SAMPLE_WINDOW]>
        ensures some { IfSome result (λ xs. (xs ≡ self.now) × (length self.now ≡ SAMPLE_WINDOW)) }
        ensures none { IfNone result (length self.now < SAMPLE_WINDOW) }
    {
        if self.ring.len() < SAMPLE_WINDOW {
            return None;
        }
        let (older, newer) = self.ring.as_slices();
        let mut samples = [0; SAMPLE_WINDOW];
        samples[..older.len()].copy_from_slice(older);
        samples[older.len()..].copy_from_slice(newer);
        Some(samples)
    }
}

ghost use Rattle.std.specs.Prelude.{◌≡◌, ◌≤◌, length, sum, filter};
ghost use Rattle.udt_model.specs.Timing.{median, is_near, in_a_second as rate_of};
ghost use Rattle.udt_timing.specs.Windows.{IsNinthSmallest};

// sorts a copy
fn ninth_smallest(samples: [u64; SAMPLE_WINDOW]) -> u64
    ensures value { result ≡ median samples }
    ensures ninth { IsNinthSmallest samples result }
{
    let mut sorted = samples;
    sorted.sort_unstable();
    sorted[8]
}

// whether a sample is within a factor of eight of the middle one
fn lies_near(middle: u64, sample: u64) -> bool
    ensures { result ≡ is_near middle sample }
{
    let (middle, sample) = (u128::from(middle), u128::from(sample));
    middle <= 8 * sample && sample <= 8 * middle
}

// how many samples lie near the middle one, and the microseconds that they take together
fn sum_near(samples: &[u64; SAMPLE_WINDOW], middle: u64) -> (u32, u128)
    ensures count { result.0 ≡ length (filter (is_near middle) samples.now) }
    ensures micros { result.1 ≡ sum (filter (is_near middle) samples.now) }
    ensures within { result.0 ≤ 16 }
{
    let mut count = 0;
    let mut micros = 0;
    for sample in samples {
        if lies_near(middle, *sample) {
            count += 1;
            micros += u128::from(*sample);
        }
    }
    (count, micros)
}

// how many come in a second, where count of them take the microseconds
fn in_a_second(count: u32, micros: u128) -> u32
    requires { count ≤ 16 }
    ensures { result ≡ rate_of count micros }
{
    if micros == 0 {
        return 0;
    }
    (u128::from(count) * SECOND / micros) as u32
}
