//! What a client on a disk answers to an operation, a read or a listing, with what it fetches on the way, in the words of a
//! cell: what it adds to its history and what it says are those of a client of a cell with this history.
#![tactic(auto)]

mod asking;
mod fetching;
mod law;
mod operating;
mod showing;
mod spelling;

pub use asking::Showing;
pub use law::fetches_bring_what_is_offered;
pub use operating::operate;
pub use showing::show;
pub use spelling::can_be_spelled;
