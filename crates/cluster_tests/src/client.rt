//! Tests of clients of clusters: each call, and each check that fails, once. What else is refused, said and asked is shown by the
//! proved examples of `cluster_examples`.

mod asking;
mod building;
mod dialling;
mod setting;
