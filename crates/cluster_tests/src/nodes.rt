use containers::Bytes;
use slot_hash::NodeAddress;
use std::alloc::{AllocError, Global};

/// The address of that host and that port.
pub fn address(alloc: Global, host: &[u8], port: u16) -> Result<NodeAddress, AllocError> {
    let host = Bytes::from_slice(alloc, host)?;
    Ok(NodeAddress { host, port })
}

/// Whether an address is of that host and that port.
pub fn is_at(address: &NodeAddress, host: &[u8], port: u16) -> bool {
    address.host.as_slice() == host && address.port == port
}
