//! Laws of the definitions of arrays: an array is a finite map from index lists, which stand in lexicographic
//! order; a grade is the one list of places sorted by item and then by place.
#![tactic(auto)]

mod laws;

pub use laws::{arrays_are_finite_maps, grades_sort_places, index_lists};
