use connection_tests::acts::name;
use driver_model::{LinkFault, LinkNews};
use push_links::ConnectionAct;

/// The peer closes the link.
pub(crate) const ENDED: LinkNews<'static> = LinkNews::Failed {
    fault: LinkFault::Ended,
};

/// The bytes of a write, and the name of any other act.
fn word(act: &ConnectionAct) -> &[u8] {
    match act {
        ConnectionAct::Write { bytes } => bytes.as_slice(),
        _ => name(act).as_bytes(),
    }
}

/// Whether acts have these names; the name of a write is its bytes.
pub(crate) fn are(acts: &[ConnectionAct], names: &[&[u8]]) -> bool {
    if acts.len() != names.len() {
        return false;
    }
    for (act, wanted) in acts.iter().zip(names) {
        if word(act) != *wanted {
            return false;
        }
    }
    true
}
