//! Accesses to the rows of the shared table: the events behind a row's Infos are loaded, each of them once, an access is judged by them,
//! and a private word is written back.
#![tactic(auto)]

mod accessing;
mod advancing;
mod checking;
mod moving;
mod storing;
mod sweeping;
mod walking;
mod window;

pub use accessing::{Seen, access};
pub use advancing::advance_row;
pub use checking::check;
pub use storing::write_back;
pub use sweeping::sweep;
pub use window::Window;
