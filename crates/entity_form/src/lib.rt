//! Objects of a type, the entities that hold them, and the bytes that spell those.
#![tactic(auto)]

mod defaults;
mod fault;
mod places;
mod reading;
mod spelling;
mod value;
mod writing;

pub use defaults::{default_object, default_value};
pub use fault::{DecodeFault, EncodeFault, FormFault};
pub use places::{HEADER_BYTES, Header, REF_BYTES, header_at, ref_at};
pub use reading::decode;
pub use spelling::{no_proper_prefix, read_entity, write_entity};
pub use value::{Object, Value, Values};
pub use writing::encode;
