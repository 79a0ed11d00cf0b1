//! Writes clients' answers as messages: RFC 1035 4.1, RFC 2308 2 and 3.
#![tactic(auto)]

mod asked;
mod building;
mod fault;
mod piece_with_ttl;
mod records;
mod sections;
mod text;

pub use asked::{Asked, AskedRef, Transport};
pub use building::{build, build_local, build_stale, failure, put_failure};
pub use fault::Fault;
pub use piece_with_ttl::PieceWithTtl;
pub use record_cache::Held;
pub use sections::Sections;
pub use text::UDP_LIMIT;
