// One list of messages, as one pass uses it. The struct stands alone here, since the definitions that
// clauses cite name it.

ghost use Rattle.std.specs.Prelude.{◌≡◌, true};
ghost use Rattle.std.specs.Arc.{arc_value};
ghost use Rattle.crossbeam_queue.specs.Passes.{view, IsPassOf};
ghost use Rattle.udt_queues.specs.Lines.{IsLive, Works};

use crate::line::{Line, LinePass};
use std::sync::Arc;

/// A list of messages, the right to it, and whether that right is to take.
#[derive(Drop)]
pub struct Lane<M> {
    pub(crate) line: Arc<Line<M>>,
    pub(crate) pass: LinePass<M>,
    pub(crate) takes: bool,
    ghost own: { IsPassOf (arc_value line) pass },
    ghost live: { IsLive (view pass) },
    ghost works: { takes ≡ true → Works (view pass) },
}
