//! How the results of a command that went to several nodes become one.
#![tactic(auto)]

mod arrays;
mod by_part;
mod came;
mod laws;
mod numbers;
mod parts;
mod policies;
mod shape;
mod tallies;

pub use cluster_retries::RoundEnd;
pub use laws::{
    a_sum_is_the_sum, counts_are_added_by_names, elements_stand_at_their_keys,
    parts_that_end_decide, the_first_error_is_told,
};
pub use parts::{FoldResult, PartEnd, PartResult, PartResults};
pub use policies::fold_parts;
