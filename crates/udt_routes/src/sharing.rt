// Routes that one writer changes and readers read with no lock.

ghost use Rattle.std.specs.Prelude.{◌≡◌, ◌+◌, ◌≤◌, ◌++◌, [], replicate, vec_len, vec_capacity, IfOk, OnOk};
ghost use Rattle.udt_routes.specs.Tables.{empty_table};

use crate::errors::OutOfMemory;
use crate::publisher::Publisher;
use crate::route_reader::RouteReader;
use crate::route_writer::RouteWriter;
use crate::routes::Routes;
use std::alloc::Global;
use std::collections::VecDeque;
use std::sync::Wait;

/// The writer and the readers of routes on which nothing is enrolled. All memory of the tables is taken here: for
/// `live` sockets, as many meetings, and the removals that wait.
pub fn share<R: Wait>(
    rt: &R,
    alloc: Global,
    live: u32,
    readers: u32,
) -> Result<(RouteWriter, Vec<RouteReader>), OutOfMemory>
    requires readers { (1 ≤ readers) × (readers ≤ 16) }
    ensures writer { IfOk result
        (λ r. r.0 ≡ record { table = empty_table 0 live; published = []; waiting = [] }) }
    ensures readers { IfOk result (λ r. r.1.items ≡ replicate readers (record { live = live; seen = [] })) }
{
    let own = Routes::new(alloc, 0, live)?;
    let noted = VecDeque::with_capacity(alloc, live as usize + 2)?;
    let mut list = Vec::with_capacity(alloc, readers as usize)?;
    let mut publisher = Publisher::new(rt, alloc, live, readers)?;
    match add_readers(&mut publisher, &mut list, readers) {
        Ok(()) => Ok((RouteWriter::new(own, noted, publisher), list)),
        Err(error) => {
            publisher.close(rt);
            Err(error)
        }
    }
}

// Adds this number of readers to a list that has room for them.
fn add_readers(
    publisher: &mut Publisher,
    list: &mut Vec<RouteReader>,
    readers: u32,
) -> Result<(), OutOfMemory>
    requires { vec_len list.old + readers ≤ vec_capacity list.old }
    ensures kept { publisher.new ≡ publisher.old }
    ensures ok { OnOk result (list.new.items ≡ list.old.items ++ replicate readers
        (record { live = publisher.old.live; seen = publisher.old.published })) }
{
    for _made in 0..readers {
        let reader = publisher.reader()?;
        list.push_reserved(reader);
    }
    Ok(())
}
