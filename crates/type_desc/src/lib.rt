//! Descriptions of types, and their records as text.
#![tactic(auto)]

mod desc;
mod fault;
pub mod fields;
mod limits;
mod lists;
mod reading;
mod text;
mod writing;

pub use desc::{Kind, Member, NameKind, TypeDesc};
pub use fault::{DescFault, NoMemory, ReadFault};
pub use limits::{FIRST_RECORD_ID, LAST_RECORD_ID, MAX_MEMBERS};
pub use lists::{Bytes8, Members};
pub use reading::read_desc;
pub use text::Text;
pub use writing::{one_spelling, write_desc};
