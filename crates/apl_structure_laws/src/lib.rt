//! Laws of the definitions of functions that move elements: what one does another undoes.
#![tactic(auto)]

mod laws;

pub use laws::{
    catenation_keeps_both, compression_undoes_expansion, decoding_undoes_encoding,
    indexing_reads_what_was_assigned, rotations_undo_each_other, take_and_drop_rejoin,
    worked_lines,
};
