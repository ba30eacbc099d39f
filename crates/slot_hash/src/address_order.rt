ghost use Rattle.std.specs.Prelude.{◌≡◌, ◌↔◌, IsTrue};
ghost use Rattle.std.specs.Cmp.{partial_equiv_from_equiv};
ghost use Rattle.std.specs.Ordering.{as_partial_cmp};
ghost use Rattle.slot_hash.specs.Order.{address_cmp, address_eq};
ghost use Rattle.slot_hash.specs.OrderLaws.{cmp_total, eq_equiv, eq_ties, partial_laws};

use crate::address::NodeAddress;
use std::cmp::Ordering;

impl PartialEq for NodeAddress {
    ghost eq = { address_eq };

    ghost laws = { partial_equiv_from_equiv eq_equiv };

    /// Whether they are one address: the same bytes of the host, and the same port.
    #[tactic(auto, using(crate::proofs::Order::same_exactly))]
    fn eq(&self, other: &NodeAddress) -> bool
        ensures test { result ≡ address_eq self.now other.now }
        ensures exact { IsTrue result ↔ (self.now ≡ other.now) }
    {
        self.host == other.host && self.port == other.port
    }
}

impl Eq for NodeAddress {
    ghost laws = { eq_equiv };
}

impl PartialOrd for NodeAddress {
    ghost partial_cmp = { as_partial_cmp address_cmp };

    ghost laws = { partial_laws };

    fn partial_cmp(&self, other: &NodeAddress) -> Option<Ordering> {
        Some(self.cmp(other))
    }
}

impl Ord for NodeAddress {
    ghost use Rattle.std.proofs.Common.{refl};

    ghost cmp = { address_cmp };

    ghost total = { cmp_total };

    ghost matches_partial_cmp = { λ a b. refl };

    ghost matches_eq = { eq_ties };

    /// By the bytes of the host, and then by the port.
    fn cmp(&self, other: &NodeAddress) -> Ordering {
        self.host
            .as_slice()
            .cmp(other.host.as_slice())
            .then(self.port.cmp(&other.port))
    }
}
