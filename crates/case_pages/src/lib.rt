// The calls of tables of cases on sets of pages and of whole commands.
#![tactic(auto)]

mod changing_folder;
mod commands;
mod net;
mod pages;
mod serve_rows;
mod settings;

pub use commands::put_commands;
pub use pages::put_pages;
pub use serve_rows::{is_of_serve, serve_report_of};
