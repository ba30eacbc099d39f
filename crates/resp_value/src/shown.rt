use crate::push_kind::PushKind;
use crate::server_error::ServerError;
use std::fmt;

impl fmt::Debug for PushKind {
    fn fmt<W: fmt::Write>(&self, f: &mut fmt::Formatter<W>) -> fmt::Result {
        match self {
            PushKind::Other(text) => write!(f, "other({text:?})"),
            _ => write!(f, "{}", self.name().escape_ascii()),
        }
    }
}

impl fmt::Debug for ServerError {
    fn fmt<W: fmt::Write>(&self, f: &mut fmt::Formatter<W>) -> fmt::Result {
        match &self.detail {
            Some(detail) => write!(f, "server-error({:?}, {detail:?})", self.code),
            None => write!(f, "server-error({:?})", self.code),
        }
    }
}
