//! The files of a database: where a table's rows stand, what is needed of them read into memory, and a table's rows saved.
#![tactic(auto)]

mod errors;
mod file_names;
mod filling;
mod laws;
mod loading;
mod now_files;
mod opening;
mod reading;
mod saving;
mod slots;

pub use errors::{OpenError, SaveTableError};
pub use file_names::{column_file_name, dictionary_file_name, now_file_name};
pub use laws::{
    now_files_are_read, one_opening, one_saved, opened_stands, saved_stands, spare_files_are_unread,
};
pub use now_files::{Now, Slot, read_now};
pub use opening::open_for;
pub use saving::save_table;
pub use table_core::StoredColumn;
