ghost use Rattle.std.specs.Prelude.{◌≡◌, IfOk, MatchOption};
ghost use Rattle.resp_value.specs.ErrorTable.{kind_of, method_of};
ghost use Rattle.resp_value.specs.Redirect.{IsRedirect, LeadsNowhere};

use crate::error_kind::ServerErrorKind;
use crate::redirect::{Redirection, read_redirection};
use crate::retry_method::RetryMethod;
use crate::server_code;
use containers::{Bytes, Seq, TryClone};
use std::alloc::{AllocError, Global};
use std::fmt;
use thiserror::Error;

/// An error that a server answered: its code, and what stands after the first space, if there is one.
#[derive(Drop, Error)]
#[error("{}{}", .code.as_slice().escape_ascii(), Detail(.detail))]
pub struct ServerError {
    pub code: Bytes,
    pub detail: Option<Bytes>,
}

/// The errors of an aborted transaction, each with the position of its command, counted from 0.
pub type Aborts = Seq<(u32, ServerError)>;

/// The detail of an error as people see it, behind a space.
#[derive(Clone, Copy)]
struct Detail<'a>(&'a Option<Bytes>);

impl fmt::Display for Detail<'_> {
    fn fmt<W: fmt::Write>(&self, f: &mut fmt::Formatter<W>) -> fmt::Result {
        match self.0 {
            Some(detail) => write!(f, " {}", detail.as_slice().escape_ascii()),
            None => Ok(()),
        }
    }
}

impl ServerError {
    /// An equal value of its own.
    pub fn clone(&self, alloc: Global) -> Result<ServerError, AllocError>
        ensures { IfOk result (λ e. e ≡ self.now) }
    {
        let code = self.code.clone(alloc)?;
        match &self.detail {
            Some(detail) => {
                let detail = Some(detail.clone(alloc)?);
                Ok(ServerError { code, detail })
            }
            None => Ok(ServerError { code, detail: None }),
        }
    }

    /// What it is about.
    pub fn kind(&self) -> ServerErrorKind
        ensures { result ≡ kind_of self.now.code }
    {
        server_code::kind(self.code.as_slice())
    }

    /// How the command is tried again.
    pub fn retry_method(&self) -> RetryMethod
        ensures { result ≡ method_of self.now.code }
    {
        server_code::method(self.code.as_slice())
    }

    /// Where it leads, if it is a redirect.
    pub fn redirect_node(&self) -> Option<Redirection<'_>>
        ensures { MatchOption result
            (LeadsNowhere self.now)
            (λ r. IsRedirect self.now r.slot r.address.now r.ask) }
    {
        read_redirection(self)
    }
}

impl TryClone for ServerError {
    fn try_clone(&self, alloc: Global) -> Result<ServerError, AllocError> {
        self.clone(alloc)
    }
}
