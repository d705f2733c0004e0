// The back office of a server: the one place where sets of pages are made of files and published,
// the lock round it, and the clerks by which workers have it answer reloads.
#![tactic(auto)]

mod back;
mod clerk;
mod office;
mod office_clerk;
mod reload_stop;
mod replies;
#[cfg(test)]
mod tests;

pub use back::{Back, Verdict};
pub use clerk::Clerk;
pub use office::Office;
pub use office_clerk::OfficeClerk;
pub use reload_stop::ReloadStop;
