// The end that reads.

ghost use Rattle.std.specs.Prelude.{◌≡◌, is_some, true, IfOk, IfErr, IfSome};
ghost use Rattle.left_right.specs.Sides.{view};
ghost use Rattle.udt_routes.specs.Publishing.{ReadsFound, seen_by};

use crate::published::{CopyReader, Read};
use crate::routing::Want;
use core::mem::replace_with;
use std::marker::Model;
use std::sync::Wait;

/// A reader of the routes, which takes no lock and holds no writer up for longer than one look-up.
#[derive(Drop)]
pub struct RouteReader {
    reader: CopyReader,
}

impl Model for RouteReader {
    ghost use Rattle.udt_routes.specs.Publications.{Seen};

    ghost Value = { Seen };

    ghost use Rattle.udt_routes.specs.Readings.{seen_in, IsReader};

    ghost view = { seen_in };

    ghost invariant = { IsReader };
}

impl RouteReader {
    ghost use Rattle.std.specs.List.{Contains};
    ghost use Rattle.udt_routes.specs.Changes.{table_after, change_for};
    ghost use Rattle.udt_routes.specs.Publishing.{StartsWith};
    ghost use Rattle.udt_routes.specs.Routing.{found_in};

    // Over a reader that knows how many sockets may be enrolled.
    pub(crate) fn over(reader: CopyReader) -> RouteReader
        requires { is_some (view reader.place).live ≡ true }
        ensures { result ≡ seen_by (view reader.place) }
    {
        RouteReader { reader }
    }

    /// Looks up one want in the table that is published. It tries until a reading has begun, and takes no memory. The
    /// changes that made the table are those that this reader has then seen, which begin with those that it had seen.
    pub fn route<R: Wait>(&mut self, rt: &R, want: Want) -> Option<u32>
        ensures later { StartsWith self.new.seen self.old.seen }
        ensures live { self.new.live ≡ self.old.live }
        ensures value { result ≡ found_in (table_after self.new.live self.new.seen) want }
        ensures some { IfSome result (λ id. Contains self.new.seen (change_for want id)) }
    {
        replace_with(&mut self.reader, (rt, want), read)
    }
}

// Reads once a reading has begun.
fn read<R: Wait>(reader: CopyReader, asked: (&R, Want)) -> (CopyReader, Option<u32>)
    ensures { ReadsFound (view reader.place) asked.entry.1 result.1 (view result.0.place) }
{
    let (rt, want) = asked;
    let mut reader = reader;
    for _ in rt.forever() {
        match read_once(reader, want) {
            Ok(read) => return read,
            Err(back) => reader = back,
        }
    }
    unreachable!()
}

// Reads, where the writer isn't gone.
fn read_once(reader: CopyReader, want: Want) -> Result<(CopyReader, Option<u32>), CopyReader>
    ensures ok { IfOk result (λ r. ReadsFound (view reader.place) want r.1 (view r.0.place)) }
    ensures err { IfErr result (λ r. view r.place ≡ view reader.place) }
{
    match reader.enter_as::<Read>() {
        Ok(reading) => {
            let found = reading.get().found(want);
            Ok((reading.leave(), found))
        }
        Err(back) => Err(back),
    }
}
