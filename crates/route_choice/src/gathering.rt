ghost use Rattle.std.specs.Prelude.{◌≡◌, ◌+◌, ◌∷◌, ◌++◌, List, Option, IfOk, OnOk};
ghost use Rattle.route_choice.specs.declared.targets.NodeLink.{NodeLink};
ghost use Rattle.route_choice.specs.Parts.{for_nodes, for_routes, missing_from, those_there};

use crate::targets::{NodeLink, PartTargets};
use containers::{Queue, Seq};
use redis_error::RouteNumbers;
use std::alloc::{AllocError, Global};

/// The nodes that were found, in order, and the numbers of those that were not.
#[derive(Drop)]
pub struct Gathered {
    pub nodes: Seq<NodeLink>,
    pub missing: RouteNumbers,
}

impl Gathered {
    /// One more, of this number.
    fn put(&mut self, node: Option<NodeLink>, number: u32) -> Result<(), AllocError>
        ensures nodes { OnOk result ((more : List (Option NodeLink))
            → self.new.nodes ++ those_there more ≡ self.old.nodes ++ those_there (node ∷ more)) }
        ensures missing { OnOk result ((more : List (Option NodeLink))
            → self.new.missing ++ missing_from (number + 1) more
            ≡ self.old.missing ++ missing_from number (node ∷ more)) }
    {
        match node {
            Some(node) => self.nodes.push(node),
            None => self.missing.push(number),
        }
    }

    /// All of these.
    pub fn of(alloc: Global, found: Vec<Option<NodeLink>>) -> Result<Gathered, AllocError>
        ensures nodes { IfOk result (λ g. g.nodes ≡ those_there found.items) }
        ensures missing { IfOk result (λ g. g.missing ≡ missing_from 0 found.items) }
    {
        let mut gathered = Gathered {
            nodes: Seq::new(alloc),
            missing: RouteNumbers::new(alloc),
        };
        let mut number = 0;
        let mut rest = Queue::from_vec(found);
        while let Some(node) = rest.pop_front() {
            gathered.put(node, number)?;
            let Some(next) = number.checked_add(1) else {
                return Err(AllocError);
            };
            number = next;
        }
        Ok(gathered)
    }

    /// One part for each node that was found.
    pub fn for_nodes(self) -> PartTargets
        ensures { result ≡ for_nodes self.nodes }
    {
        if self.nodes.is_empty() {
            PartTargets::NotFound
        } else {
            PartTargets::Parts(self.nodes)
        }
    }

    /// One part for each route, if each has a link.
    pub fn for_routes(self) -> PartTargets
        ensures { result ≡ for_routes self.nodes self.missing }
    {
        if self.missing.is_empty() {
            return self.for_nodes();
        }
        if self.nodes.is_empty() {
            PartTargets::NotFound
        } else {
            PartTargets::RouteWithoutLink(self.missing)
        }
    }
}
