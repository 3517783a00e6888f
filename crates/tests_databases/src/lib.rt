//! Schemas, dictionaries and the opening of a database, call by call.
//!
//! The contracts of `catalog_core` and `database_core` say what each call gives. The tests here say that
//! the definitions mean what was meant, with bytes worked by hand, and that the calls succeed with ample memory.
#![tactic(auto)]

#[cfg(test)]
mod dictionaries;
#[cfg(test)]
mod dictionary_faults;
#[cfg(test)]
mod openings;
#[cfg(test)]
mod schemas;
#[cfg(test)]
mod stores;
#[cfg(test)]
mod table_files;
