ghost use Rattle.std.specs.Prelude.{◌≡◌};
ghost use Rattle.std.specs.Option.{option_copied};
ghost use Rattle.cluster_client.specs.Dialled.{dialled, is_same_address, last_for};

use crate::params::ClusterParams;
use mux_routing::NodeAddress;

/// Whether two addresses are one.
fn is_same_address(a: &NodeAddress, b: &NodeAddress) -> bool
    ensures { result ≡ is_same_address a.now b.now }
{
    a.host.as_slice() == b.host.as_slice() && a.port == b.port
}

/// What the last pair of an address has in its place.
fn last_for<'a>(
    pairs: &'a [(NodeAddress, NodeAddress)],
    address: &NodeAddress,
) -> Option<&'a NodeAddress>
    ensures { option_copied result ≡ last_for pairs.now address.now }
{
    let mut last = None;
    for pair in pairs {
        if is_same_address(&pair.0, address) {
            last = Some(&pair.1);
        }
    }
    last
}

impl ClusterParams {
    /// The address that is dialled for a node: what the last pair of its address has in its place, and without one its own.
    /// Nothing else goes by it.
    pub fn dialled_address<'a>(&'a self, address: &'a NodeAddress) -> &'a NodeAddress
        ensures { result.now ≡ dialled self.now.node_address_map address.now }
    {
        match last_for(self.node_address_map.as_slice(), address) {
            Some(dialled) => dialled,
            None => address,
        }
    }
}
