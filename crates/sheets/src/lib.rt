// The run sheet: a row of fields, read one by one.
#![tactic(auto)]

pub mod awaited;
pub mod contents;
pub mod fault;
pub mod field;
pub mod preference;
pub mod reader;
pub mod tag;

pub use fault::{Fault, Layer};
pub use field::{Entry, Field};
pub use preference::PreferenceKind;
pub use reader::Reader;
