//! Keys in the order of arrival, with rising numbers, so that a binary search finds a key.
#![tactic(auto)]

mod arrival_order;

pub use arrival_order::ArrivalOrder;
