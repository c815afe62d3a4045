// The adapters over the real system.

mod clock;
mod files;
mod ports;
mod spawner;
