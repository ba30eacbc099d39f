ghost use Rattle.std.specs.Prelude.{◌≡◌, IfOk, IsErrOf, Some, None};
ghost use Rattle.slot_hash.specs.Address.{address_of, address_text};

use crate::reading::{bare, end_of_last, is_text, port};
use containers::{Bytes, TryClone};
use itoa::Buffer;
use std::alloc::{AllocError, Global};
use std::fmt;
use thiserror::Error;

/// Where a node is reached.
#[derive(Drop)]
pub struct NodeAddress {
    pub host: Bytes,
    pub port: u16,
}

/// Why a text gives no address.
#[derive(Clone, Copy, Debug, PartialEq, Eq, Error)]
pub enum AddressError {
    /// The text isn't UTF-8, or it has no colon, no host before the last colon, or no port after it.
    #[error("the text is no address of a node")]
    Invalid,
    #[error("out of memory")]
    NoMemory,
}

impl From<AllocError> for AddressError {
    ghost use Rattle.std.specs.Prelude.{◌≡◌};
    ghost use Rattle.slot_hash.specs.declared.address.AddressError.TheVariants.{NoMemory};

    ghost from_gives = { λ _ e. e ≡ NoMemory };

    fn from(_error: AllocError) -> Self {
        AddressError::NoMemory
    }
}

impl NodeAddress {
    /// The address that a text is: a host, in brackets or not, and after the last colon a port.
    pub fn try_from(alloc: Global, text: &[u8]) -> Result<NodeAddress, AddressError>
        ensures ok { IfOk result (λ a. address_of text.now ≡ Some a) }
        ensures invalid { IsErrOf result AddressError.Invalid → address_of text.now ≡ None }
    {
        let end = end_of_last(text, b':');
        if end == 0 || !is_text(text) {
            return Err(AddressError::Invalid);
        }
        let host = bare(&text[..end - 1]);
        if host.is_empty() {
            return Err(AddressError::Invalid);
        }
        let Some(port) = port(&text[end..]) else {
            return Err(AddressError::Invalid);
        };
        let host = Bytes::from_slice(alloc, host)?;
        Ok(NodeAddress { host, port })
    }

    /// An equal value of its own.
    pub fn clone(&self, alloc: Global) -> Result<NodeAddress, AllocError>
        ensures { IfOk result (λ a. a ≡ self.now) }
    {
        let host = self.host.clone(alloc)?;
        Ok(NodeAddress {
            host,
            port: self.port,
        })
    }

    /// The text of this address: the host, a colon, and the port in decimal digits.
    pub fn text(&self, alloc: Global) -> Result<Bytes, AllocError>
        ensures { IfOk result (λ text. text ≡ address_text self.now) }
    {
        let mut text = self.host.clone(alloc)?;
        text.push(b':')?;
        let mut digits = Buffer::new();
        text.extend_from_slice(digits.format(self.port).as_bytes())?;
        Ok(text)
    }
}

/// The same text, with the bytes of the host that aren't printable escaped.
impl fmt::Display for NodeAddress {
    fn fmt<W: fmt::Write>(&self, f: &mut fmt::Formatter<W>) -> fmt::Result {
        write!(f, "{}:{}", self.host.as_slice().escape_ascii(), self.port)
    }
}

impl fmt::Debug for NodeAddress {
    fn fmt<W: fmt::Write>(&self, f: &mut fmt::Formatter<W>) -> fmt::Result {
        fmt::Display::fmt(self, f)
    }
}

impl TryClone for NodeAddress {
    fn try_clone(&self, alloc: Global) -> Result<NodeAddress, AllocError> {
        self.clone(alloc)
    }
}
