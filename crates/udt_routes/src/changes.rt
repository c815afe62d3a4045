// What happens to a table that one writer changes.

ghost use Rattle.std.specs.Prelude.{◌≡◌};
ghost use Rattle.udt_routes.specs.Changes.{after};

use crate::routes::Routes;
use udt_model::Addr;

/// One change of a table. What can't be made changes nothing.
#[derive(Clone, Copy, Debug, PartialEq, Eq)]
pub enum Change {
    /// An ID is enrolled.
    Enrol(u32),
    /// An ID leaves, with the places that it holds.
    Leave(u32),
    /// A socket listens.
    SetListener(u32),
    /// A socket listens no more.
    ClearListener(u32),
    /// A socket meets an address.
    SetMeeting(Addr, u32),
    /// A socket meets an address no more.
    ClearMeeting(Addr, u32),
}

// Makes a change.
pub(crate) fn make(routes: &mut Routes<()>, change: Change)
    ensures { routes.new ≡ after routes.old change }
{
    match change {
        Change::Enrol(id) => drop(routes.enrol(id, ())),
        Change::Leave(id) => drop(routes.leave(id)),
        Change::SetListener(id) => drop(routes.set_listener(id)),
        Change::ClearListener(id) => routes.clear_listener(id),
        Change::SetMeeting(to, id) => drop(routes.set_meeting(to, id)),
        Change::ClearMeeting(to, id) => routes.clear_meeting(to, id),
    }
}
