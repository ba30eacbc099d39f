ghost use Rattle.std.specs.Prelude.{◌≡◌, ◌==◌, ◌+◌, ℕ, Bool, List, IfSome};
ghost use Rattle.connection_info.specs.declared.address.RedisConnectionInfo.{RedisConnectionInfo};
ghost use Rattle.driver_model.specs.declared.action.Purpose.{Purpose};
ghost use Rattle.driver_model.specs.declared.action.SourceUse.{SourceUse};
ghost use Rattle.driver_model.specs.declared.hearing.Hearing.{Hearing};
ghost use Rattle.driver_model.specs.News.{news_of, told};
ghost use Rattle.legal_trace.specs.Book.{Book, blank_book, book, entered, entered_each, if_mine};
ghost use Rattle.legal_trace.specs.Ledger.{Ledger, asks, dials, noted_each, with_news};
ghost use Rattle.session_program.specs.Notes.{bad_reason, wrote_reason};
ghost use Rattle.session_program.specs.Offers.{IsOfferIn, IsOfferOf};

use crate::bad::BadReason;
use driver_model::{Action, Cause, EventKind, LinkNews};

/// The number of the first link.
const FIRST_LINK: u32 = 0;

/// What actions tell of links: how many were asked for, up to two, and of the first whether it was asked for, whether it is
/// up, whether it has ended, and how many bytes are offered to it.
#[derive(Clone, Copy)]
pub struct Offer {
    links: u8,
    asked: bool,
    up: bool,
    over: bool,
    count: u64,
}

impl Offer {
    /// Before any action.
    pub fn new() -> Offer
        ensures { IsOfferOf result blank_book }
    {
        Offer {
            links: 0,
            asked: false,
            up: false,
            over: false,
            count: 0,
        }
    }

    /// Whether the connect of the first link was asked for and isn't answered.
    fn dials(self) -> bool
        ensures { (l : Ledger) → IsOfferIn self l → result ≡ dials l }
    {
        self.asked && !self.up && !self.over
    }

    /// After news of the first link.
    fn after_news(self, news: LinkNews<'_>) -> Offer
        ensures links { result.links ≡ self.links }
        ensures first { (l : Ledger) (turn : ℕ) → IsOfferIn self l
            → IsOfferIn result (with_news l turn (told news.entry)) }
    {
        match news {
            LinkNews::Connected => {
                if self.over {
                    self
                } else {
                    Offer { up: true, ..self }
                }
            }
            LinkNews::Refused { fault: _ } => {
                if self.dials() {
                    Offer { over: true, ..self }
                } else {
                    self
                }
            }
            LinkNews::Took { count: _ } => {
                if self.up {
                    Offer { count: 0, ..self }
                } else {
                    self
                }
            }
            LinkNews::Silence => self,
            LinkNews::Overdue => self,
            LinkNews::Came { piece: _ } => self,
            LinkNews::Failed { fault: _ } => self,
            LinkNews::Authorized { auth: _ } => self,
            LinkNews::Denied { text: _ } => self,
            LinkNews::Deserted => self,
            LinkNews::Renewed { auth: _ } => self,
            LinkNews::Unrenewed => self,
            LinkNews::Late { number: _ } => self,
            LinkNews::Unrepeated => self,
            LinkNews::Dropped => self,
            LinkNews::Shut => self,
        }
    }

    /// After one more link was asked for.
    fn with_link(self) -> Offer
        ensures { (b : Book) → IsOfferOf self b
            → IsOfferOf result (record b { links = b.links + 1 }) }
    {
        if self.links < 2 {
            Offer {
                links: self.links + 1,
                ..self
            }
        } else {
            self
        }
    }

    /// After the connect of this link was asked for, whatever is said to its server then.
    fn asking(self, link: u32) -> Offer
        ensures links { result.links ≡ self.links }
        ensures first { (l : Ledger) (info : RedisConnectionInfo) (wanted : Bool) (hearing : Hearing) (last again : Bool)
            → IsOfferIn self l
            → IsOfferIn result (noted_each l (if_mine (link == 0) (asks info wanted hearing last again))) }
    {
        if link == FIRST_LINK {
            Offer {
                asked: true,
                ..self
            }
        } else {
            self
        }
    }

    /// After an event: whatever timers and sources of credentials there are, what comes of one changes nothing here.
    fn after_event(self, kind: &EventKind) -> Offer
        ensures links { result.links ≡ self.links }
        ensures first { (l : Ledger) (turn : ℕ) (timers : List Purpose) (uses : List SourceUse)
            → IsOfferIn self l
            → IsOfferIn result (with_news l turn (news_of timers uses 0 kind.now)) }
    {
        self.after_news(kind.news(&[], &[], FIRST_LINK))
    }

    /// After one more action.
    #[tactic(auto, using(crate::proofs::Offers::push_offer, crate::proofs::Offers::timed_offer, crate::proofs::Offers::sourced_offer, crate::proofs::Offers::message_offer, crate::proofs::Offers::monitor_offer))]
    fn after(self, action: &Action) -> Offer
        ensures { (b : Book) → IsOfferOf self b → IsOfferOf result (entered b action.now) }
    {
        match action {
            Action::Turn { number: _, cause } => match cause {
                Cause::Opening { config: _, word: _ } => self,
                Cause::Event { event } => self.after_event(&event.kind),
            },
            Action::Connect {
                link,
                host: _,
                port: _,
            } => self.with_link().asking(*link),
            Action::Write { link, bytes } => {
                if *link == FIRST_LINK {
                    Offer {
                        count: bytes.len() as u64,
                        ..self
                    }
                } else {
                    self
                }
            }
            Action::Push { link: _, info: _ } => self,
            Action::Message { msg: _ } => self,
            Action::Monitor { value: _ } => self,
            Action::Timer {
                timer: _,
                ms: _,
                purpose: _,
            } => self,
            Action::NeedCreds { source: _, link: _ } => self,
            Action::Close { link } => {
                if *link == FIRST_LINK {
                    Offer {
                        up: false,
                        over: true,
                        ..self
                    }
                } else {
                    self
                }
            }
            _ => self,
        }
    }

    /// After more actions.
    pub fn after_each(self, actions: &[Action]) -> Offer
        ensures { (b : Book) → IsOfferOf self b → IsOfferOf result (entered_each b actions.now) }
    {
        let mut offer = self;
        for action in actions {
            offer = offer.after(action);
        }
        offer
    }

    /// Behind the actions of a whole trace.
    pub fn behind(actions: &[Action]) -> Offer
        ensures { IsOfferOf result (book actions.now) }
    {
        Offer::new().after_each(actions)
    }

    /// Why an event that is bad now is bad. None: it speaks of bytes that a further link took.
    pub fn reason(self, kind: &EventKind) -> Option<BadReason>
        ensures { IfSome result (λ reason.
            (b : Book) → IsOfferOf self b → reason ≡ bad_reason b kind.now) }
    {
        match kind {
            EventKind::Submit { submission: _ } => Some(BadReason::NoName),
            EventKind::Cancel { submission: _ } => Some(BadReason::NoSubmission),
            EventKind::Wrote { link, count: _ } => self.reason_of_wrote(*link),
            EventKind::Fired { timer: _ } => Some(BadReason::NoTimer),
            EventKind::Creds { source: _, auth: _ } => Some(BadReason::NoSource),
            EventKind::CredsError { source: _, text: _ } => Some(BadReason::NoSource),
            EventKind::CredsEnd { source: _ } => Some(BadReason::NoSource),
            _ => Some(BadReason::NoLink),
        }
    }

    /// Why bytes that a link took are too many. None: it is a further link.
    fn reason_of_wrote(self, link: u32) -> Option<BadReason>
        ensures { IfSome result (λ reason.
            (b : Book) → IsOfferOf self b → reason ≡ wrote_reason b link) }
    {
        if link == FIRST_LINK && self.links > 0 {
            return Some(BadReason::OnlyOffered { count: self.count });
        }
        if self.links < 2 {
            Some(BadReason::NoLink)
        } else {
            None
        }
    }
}
