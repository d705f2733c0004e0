// The calls of tables of cases on data, values, formats, texts, devices, characters, words, sanitizers and published sets.
#![tactic(auto)]

mod acts;
mod characters;
mod data;
mod device_calls;
mod formats;
mod memory_devices;
mod sanitizers;
mod system_devices;
mod texts;
mod values;
mod words;

pub use acts::put_acts;
pub use characters::put_text;
pub use data::put_data;
pub use formats::put_formats;
pub use memory_devices::{mem_file, put_devices};
pub use sanitizers::{put_in_script, put_in_style, put_in_url, put_replaced, put_sanitized};
pub use system_devices::{is_of_system, put_system};
pub use values::put_values;
pub use words::put_words;
