// The end that publishes.

ghost use Rattle.std.specs.Prelude.{◌≡◌, ◌<◌, ◌≤◌, ◌++◌, [], ◌∷◌, drop, fold, true, Some, IfOk, OnOk, OnErr};
ghost use Rattle.left_right.specs.Sides.{view};
ghost use Rattle.udt_routes.specs.Copies.{applied, changes_in};
ghost use Rattle.udt_routes.specs.Publishing.{CanPublish, IsPublishing, Publishes};

use crate::changes::Change;
use crate::errors::OutOfMemory;
use crate::published::{Copies, Naming, Publish, Tell};
use crate::route_reader::RouteReader;
use crate::table_copy::{Operation, TableCopy};
use core::mem::replace_with;
use left_right::writer::Writer;
use std::alloc::Global;
use std::marker::{Brand, Model};
use std::sync::Wait;

// The two copies of a table, and the changes that readers don't see yet. It is ended by `close`.
pub(crate) struct Publisher {
    copies: Copies,
}

impl Model for Publisher {
    ghost use Rattle.udt_routes.specs.Publications.{Publication};

    ghost Value = { Publication };

    ghost use Rattle.udt_routes.specs.Publishers.{publication_of, IsPublisher};

    ghost view = { publication_of };

    ghost invariant = { IsPublisher };
}

// Shows readers the copy that has all that is pending.
fn show<N: Naming, R: Wait>(copies: Copies, rt: &R) -> Copies
    requires named { N.changes ≡ changes_in (drop copies.behind copies.log.items) }
    requires ready { CanPublish copies.desk.shown.value (view copies.desk.place) }
    requires opens { (fold applied copies.desk.shown.value (drop copies.behind copies.log.items)).opened
        ≡ true }
    ensures copy { result.desk.shown.value
        ≡ fold applied copies.desk.shown.value (drop copies.behind copies.log.items) }
    ensures pending { drop result.behind result.log.items ≡ [] }
    ensures view { Publishes N.changes (view copies.desk.place)
        copies.desk.shown.value result.desk.shown.value (view result.desk.place) }
{
    match copies.publish_as::<Publish<N>, R>(rt) {
        (copies, Ok(())) => copies,
        (copies, Err(_)) => unreachable!(),
    }
}

// The same, once the copies are opened.
fn show_pending<R: Wait>(copies: Copies, rt: &R) -> (Copies, ())
    requires { IsPublishing copies.desk.shown.value (view copies.desk.place) }
    ensures copy { result.0.desk.shown.value
        ≡ fold applied copies.desk.shown.value (drop copies.behind copies.log.items) }
    ensures pending { drop result.0.behind result.0.log.items ≡ [] }
    ensures view { Publishes (changes_in (drop copies.behind copies.log.items)) (view copies.desk.place)
        copies.desk.shown.value result.0.desk.shown.value (view result.0.desk.place) }
{
    (show::<Brand, R>(copies, rt), ())
}

impl Publisher {
    ghost use Rattle.std.specs.Prelude.{◌≡◌, ◌++◌, [], ◌∷◌, IfOk, OnOk, OnErr};

    // Two copies of a table of no sockets, of which readers take the one already.
    pub(crate) fn new<R: Wait>(
        rt: &R,
        alloc: Global,
        live: u32,
        readers: u32,
    ) -> Result<Publisher, OutOfMemory>
        requires { 0 < readers }
        ensures { IfOk result (λ p. p ≡ record { live = live; published = []; pending = [] }) }
    {
        let first = TableCopy::new(alloc, live)?;
        let second = TableCopy::new(alloc, live)?;
        let mut copies: Copies = Writer::new(alloc, first, second, readers as usize)?;
        let Ok(()) = copies.append(Operation::Open) else {
            drop(copies.take(rt));
            return Err(OutOfMemory);
        };
        let copies = show::<Brand, R>(copies, rt);
        Ok(Publisher { copies })
    }

    // A reader, which has seen what is published.
    pub(crate) fn reader(&mut self) -> Result<RouteReader, OutOfMemory>
        ensures ok { IfOk result (λ r. r ≡ record { live = self.old.live; seen = self.old.published }) }
        ensures kept { self.new ≡ self.old }
    {
        let mut reader = self.copies.factory().reader()?;
        reader.learn::<Tell>(self.copies.tell::<Tell>());
        Ok(RouteReader::over(reader))
    }

    // Adds a change to those that are pending.
    pub(crate) fn append(&mut self, change: Change) -> Result<(), OutOfMemory>
        ensures ok { OnOk result (self.new ≡ record self.old { pending = self.old.pending ++ change ∷ [] }) }
        ensures err { OnErr result (self.new ≡ self.old) }
    {
        let Ok(()) = self.copies.append(Operation::Make(change)) else {
            return Err(OutOfMemory);
        };
        Ok(())
    }

    // Publishes all changes that are pending, at once. It waits for readers that still read what was published before
    // the last publish.
    pub(crate) fn publish<R: Wait>(&mut self, rt: &R)
        ensures { self.new
            ≡ record self.old { published = self.old.published ++ self.old.pending; pending = [] } }
    {
        replace_with(&mut self.copies, rt, show_pending);
    }

    // Ends both copies, once no reader reads.
    pub(crate) fn close<R: Wait>(self, rt: &R) {
        let Publisher { copies } = self;
        drop(copies.take(rt));
    }
}
