//! Tests of what follows the end of a try: retries and waits, redirects, and actions.

mod actions;
mod ends;
mod redirects;
