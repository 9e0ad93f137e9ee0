// Names and paths of a Zarr hierarchy.
#![tactic(auto)]

mod fault;
mod inline;
mod laws;
mod node_name;
mod node_path;
mod path_row;
mod slashes;

pub use fault::PathFault;
pub use inline::Inline;
pub use laws::{
    join_reads_one_text, join_undoes_relative, parent_undoes_join, path_order_is_total,
    reads_what_is_spelled, same_names_same_memory, splitting_undoes_writing,
    texts_compare_as_paths,
};
pub use node_name::{NodeName, is_reserved};
pub use node_path::NodePath;
pub use path_row::PathRow;
