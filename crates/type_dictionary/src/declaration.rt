use graph_model::Bytes;

/// What declaring a type gives.
#[derive(Debug, Drop)]
pub enum Declared {
    /// The latest type of the name is this one, and has this id.
    Known(u64),
    /// The type is new: the id that it would have, and the text of its record.
    New { id: u64, text: Bytes },
}
