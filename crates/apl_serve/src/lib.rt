//! A session that is served: requests are read, one JSON value a line, and each is answered by a line of JSON before the next is read.
#![tactic(auto)]

mod answer;
mod changes;
mod error;
mod lines;
mod requests;
mod serving;
mod shown;
mod sights;
mod telling;

pub use error::ServeError;
pub use serving::serve;
