ghost use Rattle.std.specs.Prelude.{◌≡◌, ◌∷◌, ◌++◌, ◌||◌, [], List, length, true, false, OnOk, IfOk};
ghost use Rattle.connection_setup.specs.Setup.{setup};
ghost use Rattle.connection_setup.specs.Judgement.{Tells};
ghost use Rattle.link_core.specs.Link.{piece_read};
ghost use Rattle.mux_conn.specs.Effects.{judged_by, has_user, notice_act};

use crate::act::{LinkAct, show};
use crate::connection::MultiplexedConnection;
use crate::life::{Greeting, Life};
use connection_info::RedisConnectionInfo;
use connection_setup::{SetupResult, check_setup};
use containers::Queue;
use driver_model::{Hearing, LinkFault, Notice, Verdict};
use link_core::{LinkCore, NoticeAt, Rest, Settled};
use std::alloc::{AllocError, Global};

impl MultiplexedConnection {
    ghost use Rattle.mux_conn.specs.Connection.{work_with, awaits_credentials, is_setting_up};
    ghost use Rattle.mux_conn.specs.Effects.{set_up_by, steps_of, answered_setup, read_setup, read_at};
    ghost use Rattle.mux_conn.specs.Effects.{noticed_each, told_each, behind_first, heard_on, broken_at};

    /// This is told, in order.
    fn tell_each(
        &self,
        notices: &mut Rest<NoticeAt>,
        out: &mut Vec<LinkAct>,
    ) -> Result<(), AllocError>
        ensures { OnOk result (
            work_with self.now out.new.items
            ≡ noticed_each (work_with self.now out.old.items) notices.old
            ) }
    {
        while let Some(told) = notices.pop_front() {
            show_notice(told.notice, out)?;
        }
        Ok(())
    }

    /// Of this, what came behind the first settled message is told, where the link is set up: it reaches nobody before.
    fn tell_behind_first(
        &self,
        notices: Vec<NoticeAt>,
        out: &mut Vec<LinkAct>,
    ) -> Result<(), AllocError>
        ensures { OnOk result (
            work_with self.now out.new.items
            ≡ heard_on (work_with self.now out.old.items) (behind_first notices.items)
            ) }
    {
        if !self.life.is_ready() {
            return Ok(());
        }
        let mut rest = Rest::of(notices);
        while let Some(told) = rest.pop_front() {
            if told.settled > 0 {
                show_notice(told.notice, out)?;
                self.tell_each(&mut rest, out)?;
                return Ok(());
            }
            drop(told);
        }
        Ok(())
    }

    /// Something is told, behind the messages that were settled before it: those of them that aren't answered so far are
    /// answered first.
    fn tell_notice(
        &mut self,
        alloc: Global,
        told: NoticeAt,
        answered: &mut u64,
        settled: &mut Rest<Settled>,
        out: &mut Vec<LinkAct>,
    ) -> Result<(), AllocError>
        ensures work { OnOk result (
            (later : List NoticeAt)
            → told_each (work_with self.new out.new.items) answered.new later settled.new
            ≡ told_each (work_with self.old out.old.items) answered.old (told ∷ later) settled.old
            ) }
        ensures count { length self.new.requests ≡ length self.old.requests }
        ensures failure { self.new.failure ≡ self.old.failure }
    {
        'behind: while *answered < told.settled {
            let Some(message) = settled.pop_front() else {
                show_notice(told.notice, out)?;
                return Ok(());
            };
            match self.settle_one(alloc, message, out) {
                Ok(()) => {}
                Err(error) => {
                    drop(told);
                    return Err(error);
                }
            }
            *answered += 1;
        }
        show_notice(told.notice, out)?;
        Ok(())
    }

    /// What the link has settled is answered, and what came is told, each behind the messages that were settled before it.
    /// The room of the lists is kept.
    fn tell(
        &mut self,
        alloc: Global,
        settled: Vec<Settled>,
        notices: Vec<NoticeAt>,
        out: &mut Vec<LinkAct>,
    ) -> Result<(), AllocError>
        ensures work { OnOk result (
            work_with self.new out.new.items
            ≡ told_each (work_with self.old out.old.items) 0 notices.items settled.items
            ) }
        ensures count { length self.new.requests ≡ length self.old.requests }
        ensures failure { self.new.failure ≡ self.old.failure }
    {
        let mut settled = Rest::of(settled);
        let mut notices = Rest::of(notices);
        let mut answered = 0;
        while let Some(told) = notices.pop_front() {
            self.tell_notice(alloc, told, &mut answered, &mut settled, out)?;
        }
        self.settle_rest(alloc, &mut settled, out)?;
        self.settled.give(settled.into_list());
        self.notices.give(notices.into_list());
        Ok(())
    }

    /// What was read is answered and told, and what can't be read on ends the link.
    fn tell_read(
        &mut self,
        alloc: Global,
        settled: Vec<Settled>,
        notices: Vec<NoticeAt>,
        ended: bool,
        out: &mut Vec<LinkAct>,
    ) -> Result<(), AllocError>
        ensures work { OnOk result (
            work_with self.new out.new.items
            ≡ broken_at ended
            (told_each (work_with self.old out.old.items) 0 notices.items settled.items)
            ) }
        ensures count { length self.new.requests ≡ length self.old.requests }
        ensures failure { self.new.failure ≡ self.old.failure }
    {
        self.tell(alloc, settled, notices, out)?;
        if ended {
            self.fail(alloc, LinkFault::Parse, out)?;
        }
        Ok(())
    }

    /// A greeting came to this verdict: it is answered well, the setup is sent once more without the user name, or the opening
    /// failed.
    #[tactic(auto, using(crate::proofs::Judged::ready_by, crate::proofs::Judged::repeated_by, crate::proofs::Judged::failed_by))]
    fn judge(
        &mut self,
        alloc: Global,
        link: LinkCore,
        greeting: Greeting,
        verdict: Verdict,
        out: &mut Vec<LinkAct>,
    ) -> Result<(), AllocError>
        ensures work { OnOk result (
            work_with self.new out.new.items
            ≡ set_up_by (work_with self.old out.old.items) link greeting
            (judged_by (steps_of self.old greeting) verdict)
            ) }
        ensures count { length self.new.requests ≡ length self.old.requests }
        ensures failure { self.new.failure ≡ self.old.failure }
    {
        match judged(alloc, &self.info, greeting.has_user(), verdict) {
            SetupResult::Ready => {
                self.greet_behind(alloc, link, greeting, out)?;
                Ok(())
            }
            SetupResult::RepeatWithoutUser => {
                self.set_up(alloc, link, Greeting::WithoutUser)?;
                Ok(())
            }
            SetupResult::Failed(error) => {
                self.close_opening(alloc, error, out)?;
                Ok(())
            }
            SetupResult::NoMemory => Err(AllocError),
        }
    }

    /// A greeting is answered, if it is, and what came behind it is told.
    fn answer_setup(
        &mut self,
        alloc: Global,
        link: LinkCore,
        greeting: Greeting,
        settled: Vec<Settled>,
        notices: Vec<NoticeAt>,
        out: &mut Vec<LinkAct>,
    ) -> Result<(), AllocError>
        ensures work { OnOk result (
            work_with self.new out.new.items
            ≡ answered_setup (work_with self.old out.old.items) link greeting notices.items
            settled.items
            ) }
        ensures count { length self.new.requests ≡ length self.old.requests }
        ensures failure { self.new.failure ≡ self.old.failure }
    {
        let mut rest = Queue::from_vec(settled);
        match rest.pop_front() {
            Some(message) => {
                self.judge(alloc, link, greeting, message.verdict, out)?;
                self.tell_behind_first(notices, out)?;
                Ok(())
            }
            None => {
                self.come_to(Life::SettingUp { link, greeting });
                Ok(())
            }
        }
    }

    /// Bytes came on this link, which is set up: the greeting is answered, if it is, what came behind it is told, and what
    /// can't be read on ends the link.
    fn read_setup(
        &mut self,
        alloc: Global,
        link: LinkCore,
        greeting: Greeting,
        piece: &[u8],
        out: &mut Vec<LinkAct>,
    ) -> Result<(), AllocError>
        ensures work { OnOk result (
            work_with self.new out.new.items
            ≡ read_setup (work_with self.old out.old.items) greeting
            (piece_read self.old.hears false link piece.now)
            ) }
        ensures count { length self.new.requests ≡ length self.old.requests }
        ensures failure { self.new.failure ≡ self.old.failure }
    {
        let mut link = link;
        let mut settled = Vec::new(alloc);
        let mut notices = Vec::new(alloc);
        let strange = link.read(alloc, piece, self.hears, false, &mut settled, &mut notices)?;
        let broken = link.is_broken();
        self.answer_setup(alloc, link, greeting, settled, notices, out)?;
        if broken || (strange && self.life.is_ready()) {
            self.fail(alloc, LinkFault::Parse, out)?;
        }
        Ok(())
    }

    /// Bytes came on a link whose setup waits for credentials: they answer nothing, nothing in them is told, and bytes that
    /// begin no value end the link.
    fn read_wanting(
        &mut self,
        alloc: Global,
        piece: &[u8],
        out: &mut Vec<LinkAct>,
    ) -> Result<(), AllocError>
        requires { awaits_credentials self.old.life ≡ true }
        ensures work { OnOk result (
            work_with self.new out.new.items
            ≡ read_at (work_with self.old out.old.items) piece.now self.old.life
            ) }
        ensures count { length self.new.requests ≡ length self.old.requests }
        ensures failure { self.new.failure ≡ self.old.failure }
    {
        let broken = match &mut self.life {
            Life::Wanting { link } => read_unheard(alloc, link, piece)?,
            Life::SettingUp {
                link: _,
                greeting: _,
            } => unreachable!(),
            Life::Ready { link: _ } => unreachable!(),
            Life::Resting => unreachable!(),
            Life::Dialing => unreachable!(),
            Life::Ended { error: _ } => unreachable!(),
        };
        if broken {
            self.fail(alloc, LinkFault::Parse, out)?;
        }
        Ok(())
    }

    /// Bytes came on a link that isn't set up any more.
    fn read_ready(
        &mut self,
        alloc: Global,
        piece: &[u8],
        out: &mut Vec<LinkAct>,
    ) -> Result<(), AllocError>
        requires setup { is_setting_up self.old.life ≡ false }
        requires credentials { awaits_credentials self.old.life ≡ false }
        ensures work { OnOk result (
            work_with self.new out.new.items
            ≡ read_at (work_with self.old out.old.items) piece.now self.old.life
            ) }
        ensures count { length self.new.requests ≡ length self.old.requests }
        ensures failure { self.new.failure ≡ self.old.failure }
    {
        let heard = self.hears;
        let link = match &mut self.life {
            Life::Ready { link } => link,
            Life::SettingUp {
                link: _,
                greeting: _,
            } => unreachable!(),
            Life::Wanting { link: _ } => unreachable!(),
            Life::Resting => return Ok(()),
            Life::Dialing => return Ok(()),
            Life::Ended { error: _ } => return Ok(()),
        };
        let mut settled = self.settled.take(alloc);
        let mut notices = self.notices.take(alloc);
        let ended = read_heard(alloc, link, piece, heard, &mut settled, &mut notices)?;
        self.tell_read(alloc, settled, notices, ended, out)
    }

    /// Bytes came: the messages that they fill are answered, what came is told, and what can't be read on ends the link.
    pub(crate) fn read(
        &mut self,
        alloc: Global,
        piece: &[u8],
        out: &mut Vec<LinkAct>,
    ) -> Result<(), AllocError>
        ensures work { OnOk result (
            work_with self.new out.new.items
            ≡ read_at (work_with self.old out.old.items) piece.now self.old.life
            ) }
        ensures count { length self.new.requests ≡ length self.old.requests }
        ensures failure { self.new.failure ≡ self.old.failure }
    {
        if self.life.is_wanting() {
            return self.read_wanting(alloc, piece, out);
        }
        if !self.life.is_setting_up() {
            return self.read_ready(alloc, piece, out);
        }
        let life = std::mem::replace(&mut self.life, Life::Dialing);
        match life {
            Life::SettingUp { link, greeting } => {
                self.read_setup(alloc, link, greeting, piece, out)?;
                Ok(())
            }
            Life::Resting => unreachable!(),
            Life::Dialing => unreachable!(),
            Life::Wanting { link: _ } => unreachable!(),
            Life::Ready { link: _ } => unreachable!(),
            Life::Ended { error: _ } => unreachable!(),
        }
    }
}

/// Bytes came on a link that is set up, where this is heard: the lists gain what they settle and what is told, and the answer is
/// whether they end the link.
fn read_heard(
    alloc: Global,
    link: &mut LinkCore,
    piece: &[u8],
    heard: Hearing,
    settled: &mut Vec<Settled>,
    notices: &mut Vec<NoticeAt>,
) -> Result<bool, AllocError>
    ensures link { OnOk result (link.new ≡ (piece_read heard true link.old piece.now).link) }
    ensures settled { OnOk result (
        settled.new.items ≡ settled.old.items ++ (piece_read heard true link.old piece.now).out
        ) }
    ensures told { OnOk result (
        notices.new.items
        ≡ notices.old.items ++ (piece_read heard true link.old piece.now).notices
        ) }
    ensures ended { IfOk result (λ ended.
        ended
        ≡ ((piece_read heard true link.old piece.now).link.broken
        || (piece_read heard true link.old piece.now).strange)
        ) }
{
    let strange = link.read(alloc, piece, heard, true, settled, notices)?;
    let broken = link.is_broken();
    Ok(broken || strange)
}

/// Bytes came on a link that isn't set up, where nothing is heard: the answer is whether they can't be read on.
fn read_unheard(alloc: Global, link: &mut LinkCore, piece: &[u8]) -> Result<bool, AllocError>
    ensures link { OnOk result (
        link.new ≡ (piece_read Hearing.Nothing false link.old piece.now).link
        ) }
    ensures broken { IfOk result (λ broken.
        broken ≡ (piece_read Hearing.Nothing false link.old piece.now).link.broken
        ) }
{
    let mut settled = Vec::new(alloc);
    let mut notices = Vec::new(alloc);
    link.read(
        alloc,
        piece,
        Hearing::Nothing,
        false,
        &mut settled,
        &mut notices,
    )?;
    Ok(link.is_broken())
}

/// What shows a notice.
fn act_of(notice: Notice) -> LinkAct
    ensures { result ≡ notice_act notice }
{
    match notice {
        Notice::Push(info) => LinkAct::Push { info },
        Notice::Message(msg) => LinkAct::Message { msg },
        Notice::Monitor(value) => LinkAct::Monitor { value },
    }
}

/// Something is told.
fn show_notice(notice: Notice, out: &mut Vec<LinkAct>) -> Result<(), AllocError>
    ensures { OnOk result (out.new.items ≡ out.old.items ++ notice_act notice ∷ []) }
{
    show(out, act_of(notice))?;
    Ok(())
}

/// What the verdict on a setup makes of the connection.
fn judged(
    alloc: Global,
    info: &RedisConnectionInfo,
    with_user: bool,
    verdict: Verdict,
) -> SetupResult
    ensures { Tells (judged_by (setup info.now with_user) verdict) result }
{
    match verdict {
        Verdict::Many(replies) => check_setup(alloc, info, with_user, &replies),
        Verdict::One(reply) => {
            drop(reply);
            SetupResult::Ready
        }
        Verdict::Done => SetupResult::Ready,
        Verdict::Fault(error) => SetupResult::Failed(error),
    }
}
