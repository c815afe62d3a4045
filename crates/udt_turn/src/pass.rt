//! A pass: the right to take turns, and what its holder has seen and made.
ghost use Rattle.std.specs.Prelude.{◌≡◌, ◌≤◌, length};
ghost use Rattle.udt_turn.specs.History.{last_of};

use crate::story::Story;
use crate::view::View;
use atomic_table::Seat;

/// A pass of a turn. `Turn::make` gives the first one, and `Turn::split` each further one.
#[derive(Drop)]
pub struct Pass<V: Story> {
    pub(crate) seat: Seat<Option<V>, View<V, V::Entry>>,
    // The count after the last item of its own.
    pub(crate) last: u64,
    // How many passes it stands for: itself, and those that were joined into it.
    pub(crate) joined: u64,
    ghost counted: { last ≡ seat.me.0.last },
    ghost last_item: { last ≡ last_of V.tale seat.me.0.names seat.me.0.seen },
    ghost named: { joined ≡ length seat.me.0.names },
    ghost few: { joined ≤ 65535 },
}

impl<V: Story> Pass<V> {
    /// The count after the last item that was made by it or by a pass that was joined into it, and 0 where there is none.
    pub fn last(&self) -> u64
        ensures { result ≡ last_of V.tale self.now.seat.me.0.names self.now.seat.me.0.seen }
    {
        self.last
    }
}
