//! TCP connections, from clients and to asked servers: the octets still to send on each, the client
//! to close for a new one, and the ends to report.
#![tactic(auto)]

mod answers;
mod client_stream;
mod clients;
mod connections;
mod dropped;
mod lost;
mod servers;
mod streams;

pub use answers::{Heard, Refusal};
pub use connections::{Closed, Connections, ServerHeard};
pub use dropped::Dropped;
pub use lost::Lost;
pub use servers::{ServerStream, unsent_query};
