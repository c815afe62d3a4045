// One of the two copies of a table: readers take the one, while the writer changes the other.

ghost use Rattle.std.specs.Prelude.{◌≡◌, false, IfOk};
ghost use Rattle.udt_routes.specs.Routing.{found_in};
ghost use Rattle.udt_routes.specs.Tables.{empty_table};

use crate::changes::{Change, make};
use crate::errors::OutOfMemory;
use crate::routes::Routes;
use crate::routing::Want;
use left_right::Absorb;
use std::alloc::{AllocError, Global};
use std::marker::Model;

/// What a copy takes in.
#[derive(Clone, Copy, Debug, PartialEq, Eq)]
pub enum Operation {
    /// The writer opens it, before all changes.
    Open,
    Make(Change),
}

/// A table of IDs, and whether the writer has opened it.
#[derive(Drop)]
pub struct TableCopy {
    opened: bool,
    routes: Routes<()>,
}

impl Model for TableCopy {
    ghost use Rattle.udt_routes.specs.Copies.{CopyState};

    ghost Value = { CopyState };

    ghost view = { λ c. record { opened = c.opened; table = c.routes } };
}

impl Absorb<Operation> for TableCopy {
    type State = TableCopy;

    ghost use Rattle.udt_routes.specs.Copies.{applied};

    ghost state = { λ c. c };

    ghost applied = { applied };

    ghost never_fails = { Unit {0} };

    fn absorb_first(
        &mut self,
        operation: &Operation,
        _other: &TableCopy,
    ) -> Result<(), AllocError> {
        match *operation {
            Operation::Open => self.opened = true,
            Operation::Make(change) => make(&mut self.routes, change),
        }
        Ok(())
    }
}

impl TableCopy {
    // A copy of a table of no sockets, with room for this number, that isn't opened.
    pub(crate) fn new(alloc: Global, live: u32) -> Result<TableCopy, OutOfMemory>
        ensures { IfOk result (λ c. c ≡ record { opened = false; table = empty_table 0 live }) }
    {
        let routes = Routes::new(alloc, 0, live)?;
        Ok(TableCopy {
            opened: false,
            routes,
        })
    }

    // What is found of a want.
    pub(crate) fn found(&self, want: Want) -> Option<u32>
        ensures { result ≡ found_in self.now.table want }
    {
        self.routes.found(want)
    }
}
