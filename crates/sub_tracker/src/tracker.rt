ghost use Rattle.std.specs.Prelude.{◌≡◌, List, [], ◌∷◌, ◌++◌, true, false, OnOk, OnErr, IfOk, IsOk, IsErr};
ghost use Rattle.sub_tracker.specs.Subscribed.{Request, subscribes};
ghost use Rattle.sub_tracker.specs.Held.{nothing, holding, held_with, held_after};
ghost use Rattle.sub_tracker.specs.Pipeline.{request_of, resubscription, Resubscribes};

use crate::name_set::NameSet;
use containers::{Bytes, Names};
use resp_write::{Cmd, Pipeline, SubscriptionAction};
use std::alloc::{AllocError, Global};
use std::marker::Model;

/// What is subscribed, by the commands that were tracked.
#[derive(Drop)]
pub struct SubscriptionTracker {
    plain: NameSet,
    sharded: NameSet,
    pattern: NameSet,
    failed: bool,
}

impl Model for SubscriptionTracker {
    ghost use Rattle.sub_tracker.specs.Held.{TrackerState};

    ghost Value = { TrackerState };

    ghost view = { λ t. record {
      held = record { plain = t.plain; sharded = t.sharded; pattern = t.pattern };
      failed = t.failed;
    } };
}

impl SubscriptionTracker {
    /// A tracker of no commands. Takes no memory.
    #[tactic(auto, unfolding(crate::specs::Held::held_after))]
    pub fn new(alloc: Global) -> SubscriptionTracker
        ensures { result ≡ holding (held_after []) }
    {
        SubscriptionTracker {
            plain: NameSet::new(alloc),
            sharded: NameSet::new(alloc),
            pattern: NameSet::new(alloc),
            failed: false,
        }
    }

    /// What a tracker is told of a command, if it is one of the six subscription commands.
    pub fn to_request(
        alloc: Global,
        command: &Cmd,
    ) -> Result<Option<(SubscriptionAction, Names)>, AllocError>
        ensures { IfOk result (λ r. r ≡ request_of command.now.args) }
    {
        let mut args = command.args_iter();
        let Some(name) = args.next() else {
            return Ok(None);
        };
        let Some(action) = SubscriptionAction::from_name(name) else {
            return Ok(None);
        };
        let mut names = Names::new(alloc);
        for arg in args {
            names.push(Bytes::from_slice(alloc, arg)?)?;
        }
        Ok(Some((action, names)))
    }

    fn apply(
        &mut self,
        alloc: Global,
        action: SubscriptionAction,
        names: &Names,
    ) -> Result<(), AllocError>
        ensures ok { OnOk result
            (self.new ≡ record self.old { held = held_with self.old.held action names.now }) }
        ensures spared { subscribes action ≡ false → IsOk result }
    {
        match action {
            SubscriptionAction::Subscribe => self.plain.add_all(alloc, names),
            SubscriptionAction::Unsubscribe => {
                self.plain.remove_all(names);
                Ok(())
            }
            SubscriptionAction::SSubscribe => self.sharded.add_all(alloc, names),
            SubscriptionAction::Sunsubscribe => {
                self.sharded.remove_all(names);
                Ok(())
            }
            SubscriptionAction::PSubscribe => self.pattern.add_all(alloc, names),
            SubscriptionAction::PUnsubscribe => {
                self.pattern.remove_all(names);
                Ok(())
            }
        }
    }

    /// One more command. A tracker that was refused memory has failed.
    pub fn update_with_request(
        &mut self,
        alloc: Global,
        action: SubscriptionAction,
        names: &Names,
    ) -> Result<(), AllocError>
        ensures ok { OnOk result (self.new ≡ holding (held_with self.old.held action names.now)) }
        ensures tracked { (history : List Request) → self.old.held ≡ held_after history
            → OnOk result (self.new.held ≡ held_after (history ++ (action, names.now) ∷ [])) }
        ensures err { OnErr result (self.new.failed ≡ true) }
        ensures failed { self.old.failed ≡ true → IsErr result }
        ensures spared { subscribes action ≡ false → self.old.failed ≡ false → IsOk result }
    {
        if self.failed {
            return Err(AllocError);
        }
        match self.apply(alloc, action, names) {
            Ok(()) => Ok(()),
            Err(error) => {
                self.failed = true;
                Err(error)
            }
        }
    }

    #[tactic(auto, unfolding(crate::specs::Pipeline::resubscription))]
    fn resubscribe(&self, alloc: Global) -> Result<Pipeline, AllocError>
        ensures { IfOk result (λ p. p ≡ resubscription self.now.held) }
    {
        let mut pipeline = Pipeline::new(alloc);
        self.plain.append_to(alloc, b"SUBSCRIBE", &mut pipeline)?;
        self.sharded.append_to(alloc, b"SSUBSCRIBE", &mut pipeline)?;
        self.pattern.append_to(alloc, b"PSUBSCRIBE", &mut pipeline)?;
        Ok(pipeline)
    }

    /// The commands that subscribe again what is subscribed.
    pub fn get_subscription_pipeline(&self, alloc: Global) -> Result<Pipeline, AllocError>
        ensures value { IfOk result (λ p. p ≡ resubscription self.now.held) }
        ensures subscribed { (history : List Request) → self.now.held ≡ held_after history
            → IfOk result (Resubscribes history) }
        ensures failed { self.now.failed ≡ true → IsErr result }
    {
        if self.failed {
            return Err(AllocError);
        }
        let pipeline = self.resubscribe(alloc)?;
        Ok(pipeline)
    }
}
