ghost use Rattle.std.specs.Prelude.{◌≡◌, ◌<◌, ◌^◌, length, slice_get, OnOk, IfOk};
ghost use Rattle.driver_model.specs.Shape.{shape_inside};
ghost use Rattle.sub_tracker.specs.Pipeline.{resubscription};
ghost use Rattle.single_session.specs.Subscriptions.{call_of, repeat_of};

use containers::{Names, Seq};
use driver_model::{EventKind, Outcome, Shape, Submission};
use mux_conn::{Again, LinkAct};
use resp_write::{Pipeline, SubscriptionAction};
use std::alloc::{AllocError, Global};
use sub_tracker::SubscriptionTracker;

/// What a subscription call does with which names.
#[derive(Drop)]
pub struct Call {
    pub action: SubscriptionAction,
    pub names: Names,
}

/// What is subscribed, by the subscription calls that were confirmed.
#[derive(Drop)]
pub struct Subscriptions {
    /// Which call each submission is, if it is one.
    pub calls: Seq<Option<Call>>,
    pub tracker: SubscriptionTracker,
}

impl Subscriptions {
    ghost use Rattle.single_session.specs.Subscriptions.{no_subscriptions, asked_by, tracked_call};
    ghost use Rattle.single_session.specs.Subscriptions.{tracked_behind, tracked_by, tracked_each, informed, repeat_after};

    /// Nothing was handed in, and nothing is subscribed. Takes no memory.
    pub(crate) fn new(alloc: Global) -> Subscriptions
        ensures { result ≡ no_subscriptions }
    {
        Subscriptions {
            calls: Seq::new(alloc),
            tracker: SubscriptionTracker::new(alloc),
        }
    }

    /// An event came: where it hands in a submission, that is a call or isn't.
    fn enter(&mut self, alloc: Global, event: &EventKind) -> Result<(), AllocError>
        ensures { OnOk result (
            self.new ≡ record self.old { calls = asked_by self.old.calls event.now }
            ) }
    {
        match event {
            EventKind::Submit { submission } => {
                let call = call_of(alloc, submission)?;
                self.calls.push(call)?;
                Ok(())
            }
            _ => Ok(()),
        }
    }

    /// A submission is confirmed: where it is a call, that counts from now on.
    fn confirm(&mut self, alloc: Global, submission: u32) -> Result<(), AllocError>
        ensures { OnOk result (
            self.new
            ≡ record self.old { tracker = tracked_call self.old.tracker (slice_get self.old.calls submission) }
            ) }
    {
        if submission as usize >= self.calls.len() {
            return Ok(());
        }
        match self.calls.at(submission as usize) {
            Some(call) => {
                self.tracker
                    .update_with_request(alloc, call.action, &call.names)
            }
            None => Ok(()),
        }
    }

    /// What this outcome of a submission says of what is subscribed: it may confirm that.
    fn track_outcome(
        &mut self,
        alloc: Global,
        submission: u32,
        outcome: &Outcome,
    ) -> Result<(), AllocError>
        ensures { OnOk result (self.new ≡ tracked_behind self.old submission outcome.now) }
    {
        match outcome {
            Outcome::Done => self.confirm(alloc, submission),
            Outcome::One(_) => Ok(()),
            Outcome::Many(_) => Ok(()),
            Outcome::Fault(_) => Ok(()),
        }
    }

    /// What an act says of it.
    fn track(&mut self, alloc: Global, act: &LinkAct) -> Result<(), AllocError>
        ensures { OnOk result (self.new ≡ tracked_by self.old act.now) }
    {
        match act {
            LinkAct::Outcome { request, outcome } => {
                self.track_outcome(alloc, *request, outcome)
            }
            _ => Ok(()),
        }
    }

    /// So it is of these acts, in order.
    fn track_each(&mut self, alloc: Global, acts: &[LinkAct]) -> Result<(), AllocError>
        ensures { OnOk result (self.new ≡ tracked_each self.old acts.now) }
    {
        for act in acts {
            self.track(alloc, act)?;
        }
        Ok(())
    }

    /// An event came, which showed these acts.
    pub(crate) fn inform(
        &mut self,
        alloc: Global,
        event: &EventKind,
        acts: &[LinkAct],
    ) -> Result<(), AllocError>
        ensures { OnOk result (self.new ≡ informed self.old event.now acts.now) }
    {
        self.enter(alloc, event)?;
        self.track_each(alloc, acts)
    }

    /// The commands that subscribe again all that is subscribed.
    #[tactic(auto, using(sub_tracker::proofs::Short::few_commands))]
    fn resubscription(&self, alloc: Global) -> Result<Pipeline, AllocError>
        ensures value { IfOk result (λ p. p ≡ resubscription self.now.tracker.held) }
        ensures few { IfOk result (λ p. length p.commands < 2 ^ 32) }
    {
        self.tracker.get_subscription_pipeline(alloc)
    }

    /// What is subscribed again on the next link, by one message, if anything is subscribed.
    pub(crate) fn again(&self, alloc: Global) -> Result<Again, AllocError>
        ensures { IfOk result (λ again. again ≡ repeat_after self.now) }
    {
        let pipeline = self.resubscription(alloc)?;
        repeat_of(alloc, &pipeline)
    }
}

/// Which call a submission is, if it is one.
fn call_of(alloc: Global, submission: &Submission) -> Result<Option<Call>, AllocError>
    ensures { IfOk result (λ call. call ≡ call_of submission.now) }
{
    match submission {
        Submission::Subscription { action, names } => {
            let names = names.clone(alloc)?;
            Ok(Some(Call {
                action: *action,
                names,
            }))
        }
        _ => Ok(None),
    }
}

/// These commands are to be sent on the next link, if there are any.
fn repeat_of(alloc: Global, pipeline: &Pipeline) -> Result<Again, AllocError>
    requires { length pipeline.now.commands < 2 ^ 32 }
    ensures { IfOk result (λ again. again ≡ repeat_of pipeline.now) }
{
    let count = pipeline.len();
    if count == 0 {
        return Ok(Again::Nothing);
    }
    let packed = pipeline.get_packed_pipeline(alloc)?;
    Ok(Again::Due {
        packed,
        shape: shape_inside(count),
        timed: false,
    })
}

/// How so many commands that subscribe again take their items: one as a single command, any other number as a pipeline that keeps
/// all.
fn shape_inside(count: usize) -> Shape
    requires { count < 2 ^ 32 }
    ensures { result ≡ shape_inside count }
{
    if count == 1 {
        return Shape::Single;
    }
    Shape::Pipeline {
        offset: 0,
        count: count as u32,
        transaction: false,
    }
}
