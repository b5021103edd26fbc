//! What the disks of all channels hold together.
#![tactic(auto)]

mod laws;

pub use laws::{
    disks_stand_for_cores, faults_hold_nothing, good_cores_are_stored, graphs_have_a_rooted_part,
    images_hold_one, searches_find_the_graph, storages_hold_their_graph, stored_graphs_start,
    walks_tell_right_chunks,
};
