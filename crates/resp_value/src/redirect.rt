ghost use Rattle.std.specs.Prelude.{◌≡◌, MatchOption, None, Some};
ghost use Rattle.resp_value.specs.Redirect.{IsPlace, IsRedirect, LacksPlace, LeadsNowhere, is_for_one_command, slot_and_address};

use crate::server_error::ServerError;

/// How many slots there are.
const SLOTS: u32 = 16_384;

/// Where a redirect leads: the slot, the address of its node, and whether the one command alone goes there.
#[derive(Drop)]
pub struct Redirection<'a> {
    pub slot: u16,
    pub address: &'a [u8],
    pub ask: bool,
}

/// Whether a redirect is for one command alone, if the code is one of a redirect.
#[tactic(auto, unfolding(crate::specs::Redirect::is_for_one_command))]
fn is_for_one_command(code: &[u8]) -> Option<bool>
    ensures { result ≡ is_for_one_command code.now }
{
    if code == b"MOVED".as_slice() {
        return Some(false);
    }
    if code == b"ASK".as_slice() {
        return Some(true);
    }
    None
}

/// The slot and the address of a detail, if it is of this form.
fn slot_and_address(detail: &[u8]) -> Option<(u16, &[u8])>
    ensures { MatchOption result
        (slot_and_address detail.now ≡ None)
        (λ p. slot_and_address detail.now ≡ Some (p.0, p.1.now)) }
{
    if detail.is_empty() || detail[0] == b' ' {
        return None;
    }
    let mut slot = 0u32;
    for (index, byte) in detail.iter().enumerate() {
        let byte = *byte;
        if byte == b' ' {
            return Some((slot as u16, &detail[index + 1..]));
        }
        if byte < b'0' || byte > b'9' {
            return None;
        }
        slot = 10 * slot + u32::from(byte - b'0');
        if slot >= SLOTS {
            return None;
        }
    }
    None
}

/// The same, by what stands in the detail.
fn place(detail: &[u8]) -> Option<(u16, &[u8])>
    ensures { MatchOption result (LacksPlace detail.now) (λ p. IsPlace detail.now p.0 p.1.now) }
{
    slot_and_address(detail)
}

/// Where an error leads, if it is a redirect.
pub fn read_redirection(error: &ServerError) -> Option<Redirection<'_>>
    ensures { MatchOption result
        (LeadsNowhere error.now)
        (λ r. IsRedirect error.now r.slot r.address.now r.ask) }
{
    let ask = is_for_one_command(error.code.as_slice())?;
    let Some(detail) = &error.detail else {
        return None;
    };
    let (slot, address) = place(detail.as_slice())?;
    Some(Redirection { slot, address, ask })
}
