//! What can be told of the entities of a channel's table.
ghost use Rattle.std.specs.Prelude.{◌≡◌, ◌+◌, ◌-◌, ◌≤◌, ◌++◌, [], ◌∷◌, true, ℕ, List, Some, length, take, drop};
ghost use Rattle.transactions_file.specs.Files.{is_live, length_in};
ghost use Rattle.transactions_file.specs.Transactions.{Transactions};
ghost use Rattle.data_file.specs.Chunks.{IsChunk, IsEntity};
ghost use Rattle.data_file.specs.Headers.{IsHeaderAt};
ghost use Rattle.channel_files.specs.declared.place.Place.{Place};
ghost use Rattle.channel_files.specs.Chunks.{content_of};
ghost use Rattle.channel_files.specs.Table.{Occurrence, table_of};
ghost use Rattle.channel_files.specs.Channel.{IsOfDisk};
ghost use Rattle.channel_files.specs.Heads.{chunk_of};
ghost use Rattle.channel_files.specs.Whole.{HasWholeChunks, header_of};

/// Each entity of a table lies in a live file, where the table says.
pub fn entities_stand_in_their_files()
    ensures live { (t : Transactions) (reads : ℕ → List ℕ) (number id : ℕ) (o : Occurrence) → IsOfDisk t reads → table_of reads number id ≡ Some o → is_live t.inventory.state.files o.file ≡ true }
    ensures within { (t : Transactions) (reads : ℕ → List ℕ) (number id : ℕ) (o : Occurrence) → IsOfDisk t reads → table_of reads number id ≡ Some o → o.at + length o.bytes ≤ length_in t.inventory.state.files o.file }
    ensures read { (t : Transactions) (reads : ℕ → List ℕ) (number id : ℕ) (o : Occurrence) → IsOfDisk t reads → table_of reads number id ≡ Some o → o.at + length o.bytes ≤ length (reads o.file) }
    // A length of 0 in a chunk that is no list of whole entities would set the places behind it wrong.
    ensures bytes { (reads : ℕ → List ℕ) (number id : ℕ) (o : Occurrence) → HasWholeChunks reads → table_of reads number id ≡ Some o → take (length o.bytes) (drop o.at (reads o.file)) ≡ o.bytes }
    ensures id { (reads : ℕ → List ℕ) (number id : ℕ) (o : Occurrence) → table_of reads number id ≡ Some o → o.id ≡ id }
{}

/// In chunks of whole entities each entity of a table begins with a header of its own length and id, which stands at its place.
pub fn entities_begin_with_their_headers()
    ensures whole { (reads : ℕ → List ℕ) (number id : ℕ) (o : Occurrence) → HasWholeChunks reads → table_of reads number id ≡ Some o → IsEntity o.bytes }
    ensures header { (reads : ℕ → List ℕ) (number id : ℕ) (o : Occurrence) → HasWholeChunks reads → table_of reads number id ≡ Some o → IsHeaderAt (reads o.file) o.at (header_of o.bytes) }
    ensures id { (reads : ℕ → List ℕ) (number id : ℕ) (o : Occurrence) → table_of reads number id ≡ Some o → (header_of o.bytes).id ≡ id }
    ensures length { (reads : ℕ → List ℕ) (number id : ℕ) (o : Occurrence) → HasWholeChunks reads → table_of reads number id ≡ Some o → (header_of o.bytes).length ≡ length o.bytes }
{}

/// Chunks of whole entities are left where the chunks stay, where one is stored and where the last one is dropped.
pub fn chunks_stay_whole()
    ensures same { (old new : ℕ → List ℕ) → HasWholeChunks old → content_of new ≡ content_of old → HasWholeChunks new }
    ensures stored { (old new : ℕ → List ℕ) (number : ℕ) (place : Place) (chunk : List ℕ) → HasWholeChunks old → IsChunk chunk → content_of new ≡ content_of old ++ chunk_of number place chunk ∷ [] → HasWholeChunks new }
    ensures dropped { (old new : ℕ → List ℕ) → HasWholeChunks old → content_of new ≡ take (length (content_of old) - 1) (content_of old) → HasWholeChunks new }
{}
