// The objects in memory, through their traits, and the texts of addresses.

mod addresses;
mod folders;
mod ports;
mod streams;
mod threads;
