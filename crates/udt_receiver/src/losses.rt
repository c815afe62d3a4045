// What a block changes of the packets that are missing, and which of them is the first.

ghost use Rattle.std.specs.Prelude.{◌≡◌, ◌+◌, ◌<◌, ◌≤◌, max};
ghost use Rattle.udt_model.specs.declared.limits.TheConstants.{PACKET_LIMIT};
ghost use Rattle.udt_model.specs.ReceiveHalf.{gap_before};
ghost use Rattle.udt_model.specs.ReceiveReports.{least_missing};
ghost use Rattle.udt_rcv_loss.specs.Absent.{AllBelow, IsInWindow, first_or};
ghost use Rattle.udt_model.specs.ReceiveOrder.{missing_then, missing_past};

use udt_rcv_loss::RcvLoss;

/// Takes the offset of a block that was placed out of the missing ones, or adds those that it shows to
/// be missing, and moves the top past it. Gives the first and the last offset that were added.
pub(crate) fn note_placed(
    lost: &mut RcvLoss,
    top: &mut u64,
    offset: u64,
    now: u64,
) -> Option<(u64, u64)>
    requires above { AllBelow top.old lost.old.missing }
    requires room { offset < first_or top.old lost.old.missing + lost.old.window }
    requires limit { offset < PACKET_LIMIT }
    ensures value { result ≡ gap_before top.old offset }
    ensures next { lost.new ≡ record lost.old { missing = missing_then top.old now offset lost.old.missing } }
    ensures top { top.new ≡ max top.old (offset + 1) }
{
    let from = *top;
    if offset < from {
        lost.remove(offset);
        return None;
    }
    *top = offset + 1;
    // it came in order, as most do
    if offset == from {
        return None;
    }
    lost.add(from, offset - 1, now);
    Some((from, offset - 1))
}

/// Takes the offsets of a range out of the missing ones, or adds those before it that it shows to be
/// missing, and moves the top past it. Gives the first and the last offset that were added.
pub(crate) fn note_taken(
    lost: &mut RcvLoss,
    top: &mut u64,
    first: u64,
    last: u64,
    now: u64,
) -> Option<(u64, u64)>
    requires above { AllBelow top.old lost.old.missing }
    requires order { first ≤ last }
    requires room { first < first_or top.old lost.old.missing + lost.old.window }
    requires limit { last < PACKET_LIMIT }
    ensures value { result ≡ gap_before top.old first }
    ensures next { lost.new
        ≡ record lost.old { missing = missing_past top.old now first last lost.old.missing } }
    ensures top { top.new ≡ max top.old (last + 1) }
{
    let from = *top;
    *top = from.max(last + 1);
    if from < first {
        lost.add(from, first - 1, now);
        return Some((from, first - 1));
    }
    lost.remove_range(first, last);
    None
}

/// The least offset that is missing, or the top.
pub(crate) fn least(lost: &RcvLoss, top: u64) -> u64
    ensures value { result ≡ least_missing top lost.now.missing }
    ensures within { IsInWindow lost.now }
{
    lost.first().unwrap_or(top)
}
