//! Claims about a history of steps: the accepted replies, their pieces, the answers that the pieces
//! justify, the causes of failures, the owners of replies. The definitions look backward over the
//! bare list of steps, and know no state of a forwarder.
#![tactic(auto)]

mod laws;

pub use laws::{
    first_version_stands_alone, moments_never_fall, pairs_are_drawn_by_few_words,
    tries_are_the_last_of_the_era, what_was_carried_stays_so,
};
