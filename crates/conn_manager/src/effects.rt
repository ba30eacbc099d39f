ghost use Rattle.std.specs.Prelude.{◌≡◌, ◌<◌, ◌^◌, ◌⊎◌, length, true, Some, slice_get, OnOk, IfOk, IsErrOf};
ghost use Rattle.driver_model.specs.Shape.{shape_inside};
ghost use Rattle.driver_model.specs.News.{told};
ghost use Rattle.mux_client.specs.Events.{happened};
ghost use Rattle.conn_manager.specs.Hearing.{is_shutting};

use crate::hearing::RESUBSCRIPTION;
use crate::manager::ConnectionManager;
use crate::request::Stage;
use driver_model::{LinkNews, Shape};
use manager_generations::{ManagerAct, ManagerTimer};
use mux_client::ConnectionNews;
use mux_conn::ConnectionError;
use resp_write::Pipeline;
use std::alloc::{AllocError, Global};

/// How a list of commands that subscribe again takes its items: one as a single command, any other number as a pipeline that
/// keeps all.
fn shape_inside(count: usize) -> Shape
    requires { count < 2 ^ 32 }
    ensures { result ≡ shape_inside count }
{
    if count == 1 {
        return Shape::Single;
    }
    Shape::Pipeline {
        offset: 0,
        count: count as u32,
        transaction: false,
    }
}

/// Whether a link is told that everything is closed.
fn is_shutting(news: &LinkNews<'_>) -> bool
    ensures { result ≡ is_shutting (told news.now) }
{
    matches!(news, LinkNews::Shut)
}

impl ConnectionManager {
    ghost use Rattle.sub_tracker.specs.Pipeline.{resubscription};
    ghost use Rattle.conn_manager.specs.Fitting.{IsFitting, IsFittingOn};
    ghost use Rattle.manager_generations.specs.Generations.{runs_out};
    ghost use Rattle.conn_manager.specs.Manager.{loss_answered, standing};
    ghost use Rattle.conn_manager.specs.Turn.{link_shut, all_shut, heard, late_at, resubscription_late};
    ghost use Rattle.conn_manager.specs.Turn.{rest_ended, applied, succeeded, resubscription_timed};
    ghost use Rattle.conn_manager.specs.Turn.{resubscribes, resubscription_begun, settled};

    /// The link that was asked for last is told that everything is closed, where one was.
    fn shut_link(&mut self, alloc: Global, draw: u64) -> Result<(), ConnectionError>
        ensures done { OnOk result (self.new ≡ link_shut self.old draw) }
        ensures spent { IsErrOf result ConnectionError.Spent
            → self.old.conn.failure ≡ Some ConnectionError.Spent }
        ensures stands { standing self.new ≡ standing self.old }
    {
        if self.generations.links == 0 {
            return Ok(());
        }
        self.affect(alloc, draw, LinkNews::Shut)
    }

    /// Everything is shut down.
    fn shut_all(&mut self, alloc: Global, draw: u64) -> Result<(), ConnectionError>
        ensures done { OnOk result (self.new ≡ all_shut self.old draw) }
        ensures spent { IsErrOf result ConnectionError.Spent
            → self.old.conn.failure ≡ Some ConnectionError.Spent }
        ensures stands { standing self.new ≡ standing self.old }
    {
        self.generations.shut_down();
        match self.shut_link(alloc, draw) {
            Ok(()) => {}
            Err(error) => return Err(error),
        }
        self.answer_failure(alloc)?;
        Ok(())
    }

    /// News of the link of this number.
    fn hear(
        &mut self,
        alloc: Global,
        draw: u64,
        link: u32,
        news: LinkNews<'_>,
    ) -> Result<(), ConnectionError>
        requires { IsFittingOn self.old link (told news) }
        ensures done { OnOk result (self.new ≡ heard self.old draw link (told news.entry)) }
        ensures spent { IsErrOf result ConnectionError.Spent
            → self.old.conn.failure ≡ Some ConnectionError.Spent }
        ensures stands { standing self.new ≡ standing self.old }
    {
        if !self.is_current(link) {
            return Ok(());
        }
        if is_shutting(&news) {
            return self.shut_all(alloc, draw);
        }
        self.affect(alloc, draw, news)
    }

    /// The timer of a request has fired.
    fn be_late(&mut self, alloc: Global, draw: u64, request: u32) -> Result<(), AllocError>
        ensures done { OnOk result (self.new ≡ late_at self.old draw (slice_get self.old.stages request)) }
        ensures stands { standing self.new ≡ standing self.old }
    {
        if request as usize >= self.stages.len() {
            return Ok(());
        }
        match *self.stages.at(request as usize) {
            Stage::Held => Ok(()),
            Stage::Sent { link, number } => {
                if !self.is_current(link) {
                    return Ok(());
                }
                self.time_out(alloc, draw, number)
            }
            Stage::Closed => Ok(()),
        }
    }

    /// The timer of what subscribes again on the link of this number has fired.
    fn resubscribe_late(&mut self, alloc: Global, draw: u64, link: u32) -> Result<(), AllocError>
        ensures done { OnOk result (self.new ≡ resubscription_late self.old draw link) }
        ensures stands { standing self.new ≡ standing self.old }
    {
        if !(self.is_current(link) && self.generations.phase.is_resubscribing()) {
            return Ok(());
        }
        self.time_out(alloc, draw, 0)
    }

    /// The wait behind this attempt of a generation is over.
    fn end_rest(
        &mut self,
        alloc: Global,
        generation: u32,
        attempt: u32,
    ) -> Result<(), ConnectionError>
        ensures done { OnOk result (self.new ≡ rest_ended self.old generation attempt) }
        ensures spent { IsErrOf result ConnectionError.Spent
            → runs_out (rest_ended self.old generation attempt).generations ≡ true }
        ensures stands { standing self.new ≡ standing self.old }
    {
        if !self.generations.rests_behind(generation, attempt) {
            return Ok(());
        }
        match self.generations.rested(generation, attempt) {
            Ok(()) => {}
            Err(error) => return Err(error),
        }
        self.reconnect(alloc)?;
        Ok(())
    }

    /// The effect of what happened.
    pub(crate) fn apply(
        &mut self,
        alloc: Global,
        draw: u64,
        news: ConnectionNews<'_>,
    ) -> Result<(), ConnectionError>
        requires { IsFitting self.old (happened news) }
        ensures done { OnOk result (self.new ≡ applied self.old draw (happened news.entry)) }
        ensures spent { IsErrOf result ConnectionError.Spent
            → (self.old.conn.failure ≡ Some ConnectionError.Spent)
            ⊎ (runs_out (applied self.old draw (happened news.entry)).generations ≡ true) }
        ensures stands { standing self.new ≡ standing self.old }
    {
        match news {
            ConnectionNews::Silence => Ok(()),
            ConnectionNews::Link { link, news } => self.hear(alloc, draw, link, news),
            ConnectionNews::Late { request } => {
                self.be_late(alloc, draw, request.number)?;
                Ok(())
            }
            ConnectionNews::ResubscriptionLate { link } => {
                self.resubscribe_late(alloc, draw, link)?;
                Ok(())
            }
            ConnectionNews::Rested {
                generation,
                attempt,
            } => self.end_rest(alloc, generation, attempt),
            ConnectionNews::Shut => self.shut_all(alloc, draw),
        }
    }

    /// The next generation begins, where a cause came.
    pub(crate) fn succeed(&mut self, alloc: Global) -> Result<(), ConnectionError>
        ensures done { OnOk result (self.new ≡ succeeded self.old) }
        ensures outcomes { self.new.outcomes ≡ self.old.outcomes }
        ensures spent { IsErrOf result ConnectionError.Spent
            → runs_out (succeeded self.old).generations ≡ true }
        ensures stands { standing self.new ≡ standing self.old }
    {
        if !self.generations.begins_next() {
            return Ok(());
        }
        match self.generations.begin() {
            Ok(()) => {}
            Err(error) => return Err(error),
        }
        self.reconnect(alloc)?;
        Ok(())
    }

    /// The timer of what subscribes again is asked for, where it is to be answered within a time.
    fn time_resubscription(&mut self) -> Result<(), AllocError>
        ensures done { OnOk result (
            self.new
            ≡ resubscription_timed self.old self.old.generations.settings.config.connection.response_timeout
            ) }
        ensures stands { standing self.new ≡ standing self.old }
    {
        let link = self.link();
        match self.generations.settings.config.response_timeout() {
            None => Ok(()),
            Some(ms) => self.say(ManagerAct::Timer {
                timer: ManagerTimer::Resubscription { link },
                ms,
            }),
        }
    }

    /// The commands that subscribe again all names that are subscribed now.
    #[tactic(auto, using(sub_tracker::proofs::Short::few_commands))]
    fn resubscription(&self, alloc: Global) -> Result<Pipeline, AllocError>
        ensures value { IfOk result (λ p. p ≡ resubscription self.now.tracker.held) }
        ensures few { IfOk result (λ p. length p.commands < 2 ^ 32) }
    {
        self.tracker.get_subscription_pipeline(alloc)
    }

    /// All names that are subscribed now are subscribed again, by one message.
    fn resubscribe(&mut self, alloc: Global) -> Result<(), AllocError>
        requires { length self.old.conn.requests < 2 ^ 32 }
        ensures done { OnOk result (self.new ≡ resubscribes self.old) }
        ensures stands { standing self.new ≡ standing self.old }
    {
        let pipeline = self.resubscription(alloc)?;
        let packed = pipeline.get_packed_pipeline(alloc)?;
        let shape = shape_inside(pipeline.len());
        self.conn.ask_inside(RESUBSCRIPTION, packed, shape)?;
        self.time_resubscription()
    }

    /// So it is once the link is set up, where the generation subscribes again.
    fn begin_resubscription(&mut self, alloc: Global) -> Result<(), AllocError>
        ensures done { OnOk result (self.new ≡ resubscription_begun self.old) }
        ensures stands { standing self.new ≡ standing self.old }
    {
        if !(self.generations.phase.is_resubscribing() && self.conn.requests.is_empty()) {
            return Ok(());
        }
        self.resubscribe(alloc)
    }

    /// What follows of the effect: those are answered that waited for a link that has ended, the next generation begins where a
    /// cause came, and what was subscribed is subscribed again.
    pub(crate) fn settle(&mut self, alloc: Global) -> Result<(), ConnectionError>
        ensures done { OnOk result (self.new ≡ settled self.old) }
        ensures spent { IsErrOf result ConnectionError.Spent
            → runs_out (succeeded (loss_answered self.old)).generations ≡ true }
        ensures stands { standing self.new ≡ standing self.old }
    {
        self.answer_loss(alloc)?;
        match self.succeed(alloc) {
            Ok(()) => {}
            Err(error) => return Err(error),
        }
        self.begin_resubscription(alloc)?;
        Ok(())
    }
}
