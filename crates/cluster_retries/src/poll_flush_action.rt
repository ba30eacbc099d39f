ghost use Rattle.std.specs.Prelude.{◌≡◌, IfOk};
ghost use Rattle.cluster_retries.specs.Actions.{joined};

use crate::address_set::AddressSet;
use std::alloc::AllocError;

/// What is done to a cluster's links.
#[derive(Drop)]
pub enum PollFlushAction {
    /// Nothing.
    None,
    /// The map of its slots is asked for anew.
    RebuildSlots,
    /// The links of these nodes are repaired.
    Reconnect(AddressSet),
    /// All is connected anew from the initial nodes.
    ReconnectFromInitialConnections,
}

impl PollFlushAction {
    /// This action and the next one as one: a reconnect to the initial nodes if one of them is that, else a rebuild of the slots if
    /// one is that, else the repair of each node of both. Only want of memory is refused.
    #[tactic(auto, unfolding(crate::specs::Actions::joined))]
    pub fn change_state(self, next: PollFlushAction) -> Result<PollFlushAction, AllocError>
        ensures { IfOk result (λ action. action ≡ joined self next) }
    {
        match self {
            PollFlushAction::None => Ok(next),
            PollFlushAction::RebuildSlots => Ok(next.after_slots()),
            PollFlushAction::Reconnect(addresses) => next.after_addresses(addresses),
            PollFlushAction::ReconnectFromInitialConnections => {
                Ok(PollFlushAction::ReconnectFromInitialConnections)
            }
        }
    }

    /// A rebuild of the slots and this action as one.
    #[tactic(auto, unfolding(crate::specs::Actions::joined))]
    fn after_slots(self) -> PollFlushAction
        ensures { result ≡ joined PollFlushAction.RebuildSlots self }
    {
        match self {
            PollFlushAction::ReconnectFromInitialConnections => {
                PollFlushAction::ReconnectFromInitialConnections
            }
            _ => PollFlushAction::RebuildSlots,
        }
    }

    /// The repair of these nodes and this action as one.
    #[tactic(auto, unfolding(crate::specs::Actions::joined))]
    fn after_addresses(self, mut addresses: AddressSet) -> Result<PollFlushAction, AllocError>
        ensures { IfOk result (λ action. action ≡ joined (PollFlushAction.Reconnect addresses) self) }
    {
        match self {
            PollFlushAction::None => Ok(PollFlushAction::Reconnect(addresses)),
            PollFlushAction::RebuildSlots => Ok(PollFlushAction::RebuildSlots),
            PollFlushAction::Reconnect(more) => {
                addresses.join(more)?;
                Ok(PollFlushAction::Reconnect(addresses))
            }
            PollFlushAction::ReconnectFromInitialConnections => {
                Ok(PollFlushAction::ReconnectFromInitialConnections)
            }
        }
    }
}
