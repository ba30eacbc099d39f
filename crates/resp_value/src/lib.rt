//! Values of RESP, with the equal copies that contracts speak of.
#![tactic(auto)]

mod error_kind;
mod first_error;
mod push_kind;
mod redirect;
mod retry_method;
mod same;
mod server_code;
mod server_error;
mod shown;
mod shown_value;
mod value;

pub use error_kind::ServerErrorKind;
pub use push_kind::PushKind;
pub use redirect::Redirection;
pub use retry_method::RetryMethod;
pub use server_error::{Aborts, ServerError};
pub use value::{Inner, Pairs, Value, Values};
