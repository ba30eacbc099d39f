//! The laws of routes: how a command with keys in several slots is split.
#![tactic(auto)]

ghost use Rattle.route_laws.specs.Split.{EachKeyIsCounted, RoutesHaveParts, RoutesSplitTheKeys};

/// Does nothing. Its contract: a route to several slots has a part, and each of the command's keys at one place of one
/// part, whose slot is the key's; no part is empty, and no slot has two parts. The places of all parts are the numbers below
/// the count of the keys, each once.
pub fn routes_split_the_keys()
    ensures split { RoutesSplitTheKeys }
    ensures some { RoutesHaveParts }
    ensures counted { EachKeyIsCounted }
{}
