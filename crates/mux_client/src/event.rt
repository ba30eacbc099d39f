ghost use Rattle.std.specs.Prelude.{◌≡◌};
ghost use Rattle.driver_model.specs.News.{told};
ghost use Rattle.mux_client.specs.Events.{happened, seen_on};

use driver_model::LinkNews;
use mux_conn::Pending;

/// What is told to a connection, or to a manager of connections, by whoever owns its links.
#[derive(Clone, Copy)]
pub enum ConnectionNews<'a> {
    /// Nothing has happened: what was sent before is shown.
    Silence,
    /// This has happened to the link of that number.
    Link { link: u32, news: LinkNews<'a> },
    /// The timer of a request has fired.
    Late { request: Pending },
    /// The timer of what subscribes again on the link of this number has fired. Only a manager asks for one.
    ResubscriptionLate { link: u32 },
    /// The timer of the wait behind this attempt of a generation has fired. Only a manager asks for one.
    Rested { generation: u32, attempt: u32 },
    /// Everything is closed.
    Shut,
}

/// What is told, with the word that random draws come from.
#[derive(Clone, Copy)]
pub struct ConnectionEvent<'a> {
    pub word: u64,
    pub news: ConnectionNews<'a>,
}

impl<'a> ConnectionNews<'a> {
    /// What the link of this number sees of it.
    pub(crate) fn seen_on(self, link: u32) -> LinkNews<'a>
        ensures { told result ≡ seen_on link (happened self.entry) }
    {
        match self {
            ConnectionNews::Link { link: named, news } if named == link => news,
            ConnectionNews::Shut => LinkNews::Shut,
            _ => LinkNews::Silence,
        }
    }
}
