ghost use Rattle.std.specs.Prelude.{◌≡◌, ◌==◌, slice_get};
ghost use Rattle.driver_model.specs.News.{news_of, of_timer, is_source_of, renews, told, for_link, of_source, failed};

use crate::action::{Purpose, SourceUse};
use crate::event::EventKind;
use credentials::BasicAuth;
use redis_error::FaultKind;

/// How a link ended, where it wasn't closed by a shutdown.
#[derive(Clone, Copy, PartialEq, Eq)]
pub enum LinkFault {
    /// The peer closed it.
    Ended,
    /// A read or a write failed.
    Io { fault: FaultKind },
    /// Bytes came that begin no value.
    Parse,
}

/// What one link sees of an event.
#[derive(Clone, Copy)]
pub enum LinkNews<'a> {
    /// Nothing: the event is another link's, or no link's.
    Silence,
    /// Its connect succeeded.
    Connected,
    /// Its connect failed.
    Refused { fault: FaultKind },
    /// The time in which it was to be connected is over.
    Overdue,
    /// So many of the offered bytes were taken.
    Took { count: u64 },
    /// Bytes came from the peer.
    Came { piece: &'a [u8] },
    /// The peer closed it, or a read or a write failed.
    Failed { fault: LinkFault },
    /// Credentials came for its setup.
    Authorized { auth: &'a BasicAuth },
    /// There are none for its setup: the source says why.
    Denied { text: &'a [u8] },
    /// There are none for its setup: the source has ended.
    Deserted,
    /// New credentials came, to be told to its server.
    Renewed { auth: &'a BasicAuth },
    /// No more of them come.
    Unrenewed,
    /// The time in which its credentials of this number were to be answered is over.
    Late { number: u32 },
    /// The time in which what was subscribed was to be subscribed again is over.
    Unrepeated,
    /// The stream of messages is dropped.
    Dropped,
    /// Everything is closed.
    Shut,
}

/// News of a link, with the word that random draws come from.
#[derive(Clone, Copy)]
pub struct LinkEvent<'a> {
    pub word: u64,
    pub news: LinkNews<'a>,
}

/// What the link of this number sees of a timer that fires, where these are the purposes of the timers by their numbers.
fn fired(timers: &[Purpose], timer: u32, link: u32) -> LinkNews<'static>
    ensures { told result ≡ of_timer link (slice_get timers.now timer) }
{
    let place = timer as usize;
    if place >= timers.len() {
        return LinkNews::Silence;
    }
    match timers[place] {
        Purpose::Connect { link: named } if named == link => LinkNews::Overdue,
        Purpose::Renewal {
            link: named,
            number,
        } if named == link => LinkNews::Late { number },
        Purpose::Resubscription { link: named } if named == link => LinkNews::Unrepeated,
        _ => LinkNews::Silence,
    }
}

/// Whether the source of this number was asked for, for the setup of that link, where these are the uses of the sources by
/// their numbers.
fn is_source_of(sources: &[SourceUse], source: u32, link: u32) -> bool
    ensures { result ≡ is_source_of link (slice_get sources.now source) }
{
    let place = source as usize;
    if place >= sources.len() {
        return false;
    }
    match sources[place] {
        SourceUse::Setup { link: named } => named == link,
        SourceUse::Renewal { link: _ } => false,
    }
}

/// Or for its renewals.
fn renews(sources: &[SourceUse], source: u32, link: u32) -> bool
    ensures { result ≡ renews link (slice_get sources.now source) }
{
    let place = source as usize;
    if place >= sources.len() {
        return false;
    }
    match sources[place] {
        SourceUse::Setup { link: _ } => false,
        SourceUse::Renewal { link: named } => named == link,
    }
}

/// News for the link that is named: another link sees nothing of it.
fn for_link(named: u32, link: u32, news: LinkNews<'_>) -> LinkNews<'_>
    ensures { told result ≡ for_link (named == link) (told news.entry) }
{
    if named == link {
        news
    } else {
        LinkNews::Silence
    }
}

/// What the link of that number sees of a source: the first news where its setup waits for the source, the later news where the
/// source renews its credentials, and nothing of a source that is another link's.
fn of_source<'a>(
    sources: &[SourceUse],
    source: u32,
    link: u32,
    first: LinkNews<'a>,
    later: LinkNews<'a>,
) -> LinkNews<'a>
    ensures { told result ≡ of_source link (slice_get sources.now source) (told first.entry) (told later.entry) }
{
    if is_source_of(sources, source, link) {
        first
    } else if renews(sources, source, link) {
        later
    } else {
        LinkNews::Silence
    }
}

/// How the named link failed, to the link of that number.
fn failed(named: u32, link: u32, fault: LinkFault) -> LinkNews<'static>
    ensures { told result ≡ for_link (named == link) (failed fault) }
{
    if named == link {
        LinkNews::Failed { fault }
    } else {
        LinkNews::Silence
    }
}

impl EventKind {
    /// What the link of this number sees of the event, where these are the purposes of the timers, and the uses of the sources of
    /// credentials, by their numbers.
    pub fn news(&self, timers: &[Purpose], sources: &[SourceUse], link: u32) -> LinkNews<'_>
        ensures { told result ≡ news_of timers.now sources.now link self.now }
    {
        match self {
            EventKind::Connected { link: named } => for_link(*named, link, LinkNews::Connected),
            EventKind::Refused { link: named, fault } => {
                for_link(*named, link, LinkNews::Refused { fault: *fault })
            }
            EventKind::Wrote { link: named, count } => {
                for_link(*named, link, LinkNews::Took { count: *count })
            }
            EventKind::Bytes { link: named, piece } => {
                let piece = piece.as_slice();
                for_link(*named, link, LinkNews::Came { piece })
            }
            EventKind::Ended { link: named } => failed(*named, link, LinkFault::Ended),
            EventKind::ReadFault { link: named, fault } => {
                failed(*named, link, LinkFault::Io { fault: *fault })
            }
            EventKind::WriteFault { link: named, fault } => {
                failed(*named, link, LinkFault::Io { fault: *fault })
            }
            EventKind::Fired { timer } => fired(timers, *timer, link),
            EventKind::Creds { source, auth } => {
                let first = LinkNews::Authorized { auth };
                of_source(sources, *source, link, first, LinkNews::Renewed { auth })
            }
            EventKind::CredsError { source, text } => {
                let text = text.as_slice();
                of_source(
                    sources,
                    *source,
                    link,
                    LinkNews::Denied { text },
                    LinkNews::Silence,
                )
            }
            EventKind::CredsEnd { source } => {
                of_source(
                    sources,
                    *source,
                    link,
                    LinkNews::Deserted,
                    LinkNews::Unrenewed,
                )
            }
            EventKind::DropStream => LinkNews::Dropped,
            EventKind::Shutdown => LinkNews::Shut,
            _ => LinkNews::Silence,
        }
    }
}
