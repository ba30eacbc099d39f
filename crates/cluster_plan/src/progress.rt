ghost use Rattle.std.specs.Prelude.{◌≡◌, map, IfOk};
ghost use Rattle.cluster_plan.specs.Asks.{same_address};
ghost use Rattle.cluster_plan.specs.Progress.{begun, progress_by, settled, settled_by};

use slot_hash::NodeAddress;
use std::alloc::{AllocError, Global};

/// How far the connecting of a node has come.
#[derive(Clone, Copy)]
pub enum Progress {
    Connecting,
    /// It is connected, by the link of this number.
    Arrived(u32),
    Lost,
}

/// A node that is being connected, or was tried.
#[derive(Drop)]
pub struct Tried {
    pub address: NodeAddress,
    pub progress: Progress,
}

/// Whether two addresses are one.
pub fn same_address(a: &NodeAddress, b: &NodeAddress) -> bool
    ensures { result ≡ same_address a.now b.now }
{
    a.host.as_slice() == b.host.as_slice() && a.port == b.port
}

impl Progress {
    /// What an answer to a connect makes of it.
    fn settled(self, is_answered: bool, link: Option<u32>) -> Progress
        ensures { result ≡ settled_by is_answered link self }
    {
        match self {
            Progress::Connecting => {
                if !is_answered {
                    return self;
                }
                match link {
                    Some(link) => Progress::Arrived(link),
                    None => Progress::Lost,
                }
            }
            Progress::Arrived(link) => Progress::Arrived(link),
            Progress::Lost => Progress::Lost,
        }
    }
}

impl Tried {
    /// The connect of an address was answered.
    fn settle(&mut self, address: &NodeAddress, link: Option<u32>)
        ensures { self.new ≡ settled address.now link self.old }
    {
        let is_answered = same_address(&self.address, address);
        self.progress = self.progress.settled(is_answered, link);
    }
}

/// The connect of an address was answered, with a link or without one.
fn settle_all(nodes: &mut [Tried], address: &NodeAddress, link: Option<u32>)
    ensures { nodes.new ≡ map (settled address.now link) nodes.old }
{
    if let Some((first, others)) = nodes.split_first_mut() {
        first.settle(address, link);
        settle_all(others, address, link);
    }
}

/// The same of all nodes of a vector.
pub fn settle_nodes(nodes: &mut Vec<Tried>, address: &NodeAddress, link: Option<u32>)
    ensures { nodes.new.items ≡ map (settled address.now link) nodes.old.items }
{
    settle_all(nodes.as_mut_slice(), address, link);
}

/// These nodes, none of which has an answer.
pub fn begun(alloc: Global, nodes: &[NodeAddress]) -> Result<Vec<Tried>, AllocError>
    ensures { IfOk result (λ tries. tries.items ≡ map begun nodes.now) }
{
    let mut tries = Vec::new(alloc);
    for node in nodes {
        let address = node.clone(alloc)?;
        tries.push(Tried {
            address,
            progress: Progress::Connecting,
        })?;
    }
    Ok(tries)
}
