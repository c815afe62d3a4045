// What readers and the writer know of the changes that are published, and the rule that keeps it true.

ghost use Rattle.std.specs.Prelude.{List, []};
ghost use Rattle.udt_routes.specs.declared.changes.Change.{Change};
ghost use Rattle.udt_routes.specs.Publishing.{Keeps, newcomer, Reads, Publishes, told, informed};

use crate::changes::Change;
use crate::table_copy::{Operation, TableCopy};
use atomic_table::{Join, Split};
use crossbeam_utils::rule::{Outcome, Protocol};
use left_right::reader::Reader;
use left_right::writer::Writer;
use std::collections::LinkedList;
use std::marker::{Brand, PhantomData};

/// What one end knows: how many sockets may be enrolled, the changes of which it knows that they are published, and
/// whether it is the end that publishes. No value of it is made.
pub struct View {
    pub live: Option<u32>,
    pub seen: LinkedList<Change>,
    pub writes: bool,
}

/// The rule: the table is what the published changes make, which begin with what each end has seen.
pub struct Published;

impl Protocol<TableCopy, View> for Published {
    ghost holds = { Keeps };

    ghost first = { newcomer };
}

// A reading.
pub(crate) struct Read;

impl Outcome<TableCopy, View> for Read {
    ghost then = { Reads };
}

/// Names the changes that a publish adds. The caller passes `Brand`, and its proof picks them.
pub trait Naming {
    ghost changes: { List Change };
}

impl Naming for Brand {
    ghost changes = { [] };
}

// A publish of the changes that N names.
pub(crate) struct Publish<N>(PhantomData<N>);

impl<N: Naming> Outcome<TableCopy, View> for Publish<N> {
    ghost then = { Publishes N.changes };
}

// What the writer tells a new reader.
pub(crate) struct Tell;

impl Split<View> for Tell {
    ghost left = { λ v. v };

    ghost right = { told };
}

impl Join<View> for Tell {
    ghost both = { informed };

    ghost spent = { newcomer };
}

pub(crate) type Copies = Writer<TableCopy, Operation, View, Published>;

pub(crate) type CopyReader = Reader<TableCopy, View, Published>;
