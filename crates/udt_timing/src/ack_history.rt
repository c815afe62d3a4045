// The ACKs that were sent and that no ACK2 has answered yet.
// An ACK2 mostly answers one of the newest, so the search goes from the end, and the queue closes
// the gap by moving the entries after it, or those before it where they are fewer.

use crate::OutOfMemory;
use std::alloc::Global;
use std::collections::VecDeque;
use std::marker::Model;
use udt_model::{ACK_HISTORY, SentAck};

/// The newest ACKs that were sent, in order. `note` and `take` take no memory.
#[derive(Drop)]
pub struct AckWindow {
    entries: VecDeque<SentAck>,
}

impl Model for AckWindow {
    ghost use Rattle.std.specs.Prelude.{◌≡◌, ◌≤◌, List, length as len};
    ghost use Rattle.std.specs.VecDeque.{deque_capacity};
    ghost use Rattle.udt_model.specs.declared.sockets.SentAck.{SentAck};

    ghost Value = { List SentAck };

    ghost view = { λ w. w.entries.items };

    ghost use Rattle.udt_model.specs.declared.limits.TheConstants.{ACK_HISTORY};

    ghost invariant = { λ w. (deque_capacity w.entries ≡ ACK_HISTORY) × (len w.entries.items ≤ ACK_HISTORY) };
}

impl AckWindow {
    ghost use Rattle.std.specs.Prelude.{◌≡◌, ◌≢◌, ◌+◌, ◌≤◌, ◌<◌, ◌↔◌, [], length, drop, option_map, IsNone, IfOk, IfSome, IfNone};
    ghost use Rattle.std.specs.List.{All, HoldsAt};
    ghost use Rattle.udt_model.specs.Timing.{with_note, last_under, without_last_under};
    ghost use Rattle.udt_model.specs.declared.limits.TheConstants.{ACK_HISTORY};
    ghost use Rattle.udt_timing.specs.Windows.{KeepsNewest};
    ghost use Rattle.udt_timing.specs.AckHistories.{TakesLast, KeepsOthers, noted, answer_of};

    /// An empty history, with the memory that it will ever have.
    pub fn new(alloc: Global) -> Result<AckWindow, OutOfMemory>
        ensures { IfOk result (λ w. w ≡ []) }
    {
        let entries = VecDeque::with_capacity(alloc, ACK_HISTORY)?;
        Ok(AckWindow { entries })
    }

    /// Remembers that the ACK with this number named the offset `ack` at the moment `now`.
    pub fn note(&mut self, number: u32, ack: u64, now: u64)
        ensures next { self.new ≡ with_note self.old (noted number ack now) }
        ensures newest { KeepsNewest ACK_HISTORY self.old (noted number ack now) self.new }
        ensures found { last_under number self.new ≡ Some (noted number ack now) }
        ensures within { length self.new ≤ ACK_HISTORY }
    {
        if self.entries.len() == ACK_HISTORY {
            self.entries.pop_front();
        }
        self.entries.push_back_reserved(SentAck {
            number,
            offset: ack,
            moment: now,
        });
    }

    /// Takes out the last ACK with this number: the offset that it named, and its moment.
    pub fn take(&mut self, number: u32) -> Option<(u64, u64)>
        ensures value { result ≡ option_map answer_of (last_under number self.old) }
        ensures next { self.new ≡ without_last_under number self.old }
        ensures none { IsNone result ↔ All (λ e. e.number ≢ number) self.old }
        ensures some { IfSome result (λ r. TakesLast number r.0 r.1 self.old self.new) }
        ensures others { KeepsOthers number self.old self.new }
    {
        let at = self.last_place(number)?;
        let entry = self.entries.remove(at)?;
        Some((entry.offset, entry.moment))
    }

    // where the last ACK with this number stands. Inlined into `take`, the search would cost nearly
    // four times as much an entry
    #[inline(never)]
    fn last_place(&self, number: u32) -> Option<usize>
        ensures within { IfSome result (λ i. i < length self.now) }
        ensures found { IfSome result (HoldsAt (λ e. e.number ≡ number) self.now) }
        ensures last { IfSome result (λ i. All (λ e. e.number ≢ number) (drop (i + 1) self.now)) }
        ensures none { IfNone result (All (λ e. e.number ≢ number) self.now) }
    {
        self.entries
            .iter()
            .rposition(|entry| entry.number == number)
    }
}
