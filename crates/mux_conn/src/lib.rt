//! One multiplexed connection: a link's life, the requests that it carries, and the credentials that come of sources. It knows neither the number of its link nor
//! whose requests they are: whoever made it names each request, and it speaks of them by these names.
#![tactic(auto)]

mod act;
mod advance;
mod again;
mod apply;
mod connection;
mod errors;
mod flush;
mod greeting;
mod internal;
mod life;
mod opening;
mod reading;
mod renewal;
mod request;
mod rounds;
mod step;

pub use act::LinkAct;
pub use again::Again;
pub use connection::MultiplexedConnection;
pub use errors::ConnectionError;
pub use life::{Greeting, Life};
pub use link_core::{Rest, Spare};
pub use renewal::Renewal;
pub use request::{Pending, Progress, Request, Waiting};
