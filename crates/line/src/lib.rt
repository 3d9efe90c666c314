// A line: sessions that hold shares of it, and the calls on it.
#![tactic(auto)]

pub mod book;
mod bookings;
mod checks;
mod heads;
pub mod lined;
pub mod memory;
pub mod session;
mod traffic;
pub mod wire;
