ghost use Rattle.std.specs.Prelude.{◌≡◌, IfOk};
ghost use Rattle.driver_model.specs.Config.{kind_of};

use driver_model::{Action, SessionKind};
use session_callers::{Caller, SharedSession};
use session_tests::given::{single, unbounded};
use std::alloc::{AllocError, Global};

/// A session, and its first caller.
pub fn start(alloc: Global, out: &mut Vec<Action>) -> Result<(SharedSession, Caller), AllocError>
    ensures table { IfOk result (λ made. made.1.table ≡ made.0.table.shared.table_id) }
    ensures single { IfOk result (λ made. kind_of made.1.view.config ≡ SessionKind.Single) }
{
    let config = single(alloc, b"redis://h", unbounded())?;
    match SharedSession::new(alloc, config, 0, out) {
        Ok(made) => Ok(made),
        Err(_) => Err(AllocError),
    }
}
