ghost use Rattle.std.specs.Prelude.{◌≡◌, OnOk, OnErr, option_and_then};
ghost use Rattle.cluster_retries.specs.Routing.{after_redirect, after_reset, redirect_of, redirected};

use crate::request_routing::{InternalRoutingInfo, InternalSingleNodeRouting, Redirect};
use resp_value::Redirection;
use resp_write::{Cmd, Pipeline};
use std::alloc::{AllocError, Global};

/// What is sent, and where it goes.
#[derive(Drop)]
pub enum CmdArg {
    /// A command.
    Cmd {
        cmd: Cmd,
        routing: InternalRoutingInfo,
    },
    /// A pipeline, of whose replies `count` are kept from place `offset` on.
    Pipeline {
        pipeline: Pipeline,
        offset: u32,
        count: u32,
        routing: InternalSingleNodeRouting,
    },
}

impl CmdArg {
    /// Redirects what goes to one node to where a server's redirect leads; the redirect before it is forgotten. All stays as it was
    /// without a redirect, where its text is no address, where the request goes to several nodes, and after an error.
    pub fn set_redirect(
        &mut self,
        alloc: Global,
        to: Option<Redirection<'_>>,
    ) -> Result<(), AllocError>
        ensures ok { OnOk result
            (self.new ≡ after_redirect
            (option_and_then (λ r. redirect_of r.address.now r.ask) to.entry) self.old) }
        ensures err { OnErr result (self.new ≡ self.old) }
    {
        let Some(to) = to else {
            return Ok(());
        };
        if let Some(redirect) = Redirect::new(alloc, to.address, to.ask)? {
            self.follow(redirect);
        }
        Ok(())
    }

    /// Redirects what goes to one node.
    fn follow(&mut self, redirect: Redirect)
        ensures { self.new ≡ redirected redirect self.old }
    {
        match self {
            CmdArg::Cmd { cmd: _, routing } => routing.set_redirect(redirect),
            CmdArg::Pipeline {
                pipeline: _,
                offset: _,
                count: _,
                routing,
            } => routing.set_redirect(redirect),
        }
    }

    /// Takes every redirect off, and puts the address in the place of a part's link. Takes no memory.
    pub fn reset_routing(&mut self)
        ensures { self.new ≡ after_reset self.old }
    {
        match self {
            CmdArg::Cmd { cmd: _, routing } => routing.reset(),
            CmdArg::Pipeline {
                pipeline: _,
                offset: _,
                count: _,
                routing,
            } => routing.reset(),
        }
    }
}
