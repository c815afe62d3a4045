//! The rule of a turn's table, and what each kind of step tells.
ghost use Rattle.udt_turn.specs.Rule.{Kept};
ghost use Rattle.udt_turn.specs.Kinds.{newcomer, spent, Draws, DrawsFirst, Reads, Says, Leaves, Calls, Looks, Counts, Numbers, parent_of, child_of, joined, Settles, Ends};

use crate::story::{Naming, Story};
use crate::view::View;
use atomic_table::{Join, Play, Seat, Split, TableRule};
use std::marker::PhantomData;
use std::snapshot::Snapshot;

/// The rule that every step on a turn keeps.
pub struct Ordered;

impl<V: Story> TableRule<Option<V>, View<V, V::Entry>, Snapshot<V>> for Ordered {
    ghost holds = { λ k. Kept V.tale k.value };

    ghost first = { λ k. newcomer k.value };
}

pub(crate) type Sat<V> = Seat<Option<V>, View<V, <V as Story>::Entry>>;

pub(crate) struct Draw;

impl<V, E> Play<Option<V>, View<V, E>> for Draw {
    ghost then = { Draws };
}

pub(crate) struct DrawFirst;

impl<V, E> Play<Option<V>, View<V, E>> for DrawFirst {
    ghost then = { DrawsFirst };
}

pub(crate) struct Read;

impl<V: Story> Play<Option<V>, View<V, V::Entry>> for Read {
    ghost then = { Reads V.tale };
}

// It publishes the item that N names.
pub(crate) struct Say<N>(PhantomData<N>);

impl<V: Story, N: Naming<V::Entry>> Play<Option<V>, View<V, V::Entry>> for Say<N> {
    ghost then = { Says V.tale N.item };
}

pub(crate) struct Leave;

impl<V, E> Play<Option<V>, View<V, E>> for Leave {
    ghost then = { Leaves };
}

pub(crate) struct Call;

impl<V, E> Play<Option<V>, View<V, E>> for Call {
    ghost then = { Calls };
}

pub(crate) struct Glance;

impl<V: Story> Play<Option<V>, View<V, V::Entry>> for Glance {
    ghost then = { Looks V.tale };
}

pub(crate) struct Count;

impl<V: Story> Play<Option<V>, View<V, V::Entry>> for Count {
    ghost then = { Counts V.tale };
}

pub(crate) struct Number;

impl<V, E> Play<Option<V>, View<V, E>> for Number {
    ghost then = { Numbers };
}

pub(crate) struct Branch;

impl<V, E> Split<View<V, E>> for Branch {
    ghost left = { parent_of };

    ghost right = { child_of };
}

pub(crate) struct Merge;

impl<V: Story> Join<View<V, V::Entry>> for Merge {
    ghost both = { joined };

    ghost spent = { spent V.any };
}

pub(crate) struct Settle;

impl<V: Story> Play<Option<V>, View<V, V::Entry>> for Settle {
    ghost then = { Settles V.tale };
}

pub(crate) struct End;

impl<V, E> Play<Option<V>, View<V, E>> for End {
    ghost then = { Ends };
}
