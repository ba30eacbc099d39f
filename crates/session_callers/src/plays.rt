//! What each step tells.
use crate::board::{Home, View};
use atomic_table::{Join, Play, Split};

pub struct Draw;

impl Play<Option<Home>, View> for Draw {
    ghost use Rattle.session_callers.specs.Rule.{drew};

    ghost then = { drew };
}

pub struct Look;

impl Play<Option<Home>, View> for Look {
    ghost use Rattle.session_callers.specs.Rule.{looked};

    ghost then = { looked };
}

pub struct Take;

impl Play<Option<Home>, View> for Take {
    ghost use Rattle.session_callers.specs.Rule.{took};

    ghost then = { took };
}

pub struct Give;

impl Play<Option<Home>, View> for Give {
    ghost use Rattle.session_callers.specs.Rule.{gave};

    ghost then = { gave };
}

pub struct Raise;

impl Play<Option<Home>, View> for Raise {
    ghost use Rattle.session_callers.specs.Rule.{raised};

    ghost then = { raised };
}

pub struct Dialled;

impl Play<Option<Home>, View> for Dialled {
    ghost use Rattle.session_callers.specs.Rule.{dialled};

    ghost then = { dialled };
}

pub struct Made;

impl Split<View> for Made {
    ghost use Rattle.session_callers.specs.Rule.{left_of, right_of};

    ghost left = { left_of };

    ghost right = { right_of };
}

pub struct Dealt;

impl Split<View> for Dealt {
    ghost use Rattle.session_callers.specs.Rule.{one_of, rest_of};

    ghost left = { rest_of };

    ghost right = { one_of };
}

pub struct Ends;

impl Join<View> for Ends {
    ghost use Rattle.session_callers.specs.Rule.{joined, nobody};

    ghost both = { joined };

    ghost spent = { nobody };
}
