//! The sockets of one endpoint: which are enrolled, which pair each has adopted, who listens and who meets whom.
#![tactic(auto)]

mod adoptions;
mod changes;
mod drawer;
mod errors;
mod keys;
mod meetings;
mod published;
mod publisher;
mod room;
mod route_reader;
mod route_writer;
mod routes;
mod routing;
mod sharing;
mod sorted;
mod table_copy;
#[cfg(test)]
mod tests;

pub use adoptions::Adoptions;
pub use changes::Change;
pub use drawer::{Drawer, draws_once};
pub use errors::{EnrolNo, ListenNo, ListenTwice, MeetNo, MeetTaken, OutOfMemory, Taken};
pub use route_reader::RouteReader;
pub use route_writer::RouteWriter;
pub use routes::Routes;
pub use routing::{Lookup, Want, handshake};
pub use sharing::share;
pub use udt_model::Routed;
