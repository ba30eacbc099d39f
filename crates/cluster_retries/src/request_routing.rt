ghost use Rattle.std.specs.Prelude.{◌≡◌, IfOk};
ghost use Rattle.cluster_retries.specs.Routing.{info_redirected, info_reset, redirect_of, redirect_to, routing_redirected, routing_reset, without_link};

use command_table::{MultipleNodeRoutingInfo, ResponsePolicy, Route};
use slot_hash::{AddressError, NodeAddress};
use std::alloc::{AllocError, Global};
use std::mem;

/// Where a server said that a request goes.
#[derive(Drop)]
pub enum Redirect {
    /// All requests of the slot go to this node.
    Moved(NodeAddress),
    /// This request alone goes to this node, behind ASKING.
    Ask(NodeAddress),
}

/// Which one node a request goes to, where no server redirected it.
#[derive(Drop)]
pub enum SingleNodeRoute {
    /// Any node.
    Random,
    /// A node of a slot.
    SpecificNode(Route),
    /// The node at this address.
    ByAddress(NodeAddress),
    /// The link of this number, which was made to this address.
    Connection { address: NodeAddress, link: u32 },
}

/// How a request goes to one node: by its route, or by the last redirect, if there was one.
#[derive(Drop)]
pub struct InternalSingleNodeRouting {
    pub route: SingleNodeRoute,
    pub redirect: Option<Redirect>,
}

/// How a request goes to one node, or to several.
#[derive(Drop)]
pub enum InternalRoutingInfo {
    SingleNode(InternalSingleNodeRouting),
    /// The nodes, and the policy by which their results become one.
    MultiNode(MultipleNodeRoutingInfo, Option<ResponsePolicy>),
}

impl Redirect {
    /// The redirect to the address that a text is, for one request alone or for all; none where the text is no address.
    pub fn new(alloc: Global, text: &[u8], ask: bool) -> Result<Option<Redirect>, AllocError>
        ensures { IfOk result (λ redirect. redirect ≡ redirect_of text.now ask) }
    {
        match NodeAddress::try_from(alloc, text) {
            Ok(address) => Ok(Some(Redirect::to(address, ask))),
            Err(AddressError::Invalid) => Ok(None),
            Err(AddressError::NoMemory) => Err(AllocError),
        }
    }

    /// The redirect to this address.
    fn to(address: NodeAddress, ask: bool) -> Redirect
        ensures { result ≡ redirect_to ask address }
    {
        if ask {
            Redirect::Ask(address)
        } else {
            Redirect::Moved(address)
        }
    }
}

impl SingleNodeRoute {
    /// The address in the place of a link.
    fn without_link(self) -> SingleNodeRoute
        ensures { result ≡ without_link self }
    {
        match self {
            SingleNodeRoute::Random => SingleNodeRoute::Random,
            SingleNodeRoute::SpecificNode(route) => SingleNodeRoute::SpecificNode(route),
            SingleNodeRoute::ByAddress(address) => SingleNodeRoute::ByAddress(address),
            SingleNodeRoute::Connection { address, link: _ } => SingleNodeRoute::ByAddress(address),
        }
    }
}

impl InternalSingleNodeRouting {
    /// Puts a redirect in the place of the one before.
    pub(crate) fn set_redirect(&mut self, redirect: Redirect)
        ensures { self.new ≡ routing_redirected redirect self.old }
    {
        self.redirect = Some(redirect);
    }

    /// Takes the redirect off, and puts the address in the place of a link.
    pub(crate) fn reset(&mut self)
        ensures { self.new ≡ routing_reset self.old }
    {
        let route = mem::replace(&mut self.route, SingleNodeRoute::Random);
        self.route = route.without_link();
        self.redirect = None;
    }
}

impl InternalRoutingInfo {
    /// Redirects what goes to one node; what goes to several isn't redirected.
    pub(crate) fn set_redirect(&mut self, redirect: Redirect)
        ensures { self.new ≡ info_redirected redirect self.old }
    {
        match self {
            InternalRoutingInfo::SingleNode(routing) => routing.set_redirect(redirect),
            InternalRoutingInfo::MultiNode(_, _) => {}
        }
    }

    /// Resets what goes to one node.
    pub(crate) fn reset(&mut self)
        ensures { self.new ≡ info_reset self.old }
    {
        match self {
            InternalRoutingInfo::SingleNode(routing) => routing.reset(),
            InternalRoutingInfo::MultiNode(_, _) => {}
        }
    }
}
