//! Checked deployments.

use dds_check::Checked;
use std::alloc::Global;
use std::process::Abort;
use test_files::plans::checked;
use test_files::texts::{PING, PING_CERT, SMALL, SMALL_CERT};

/// Two applications that answer each other's samples, of which at most three are on the way.
pub(crate) fn ping(rt: &impl Abort, alloc: Global) -> Checked {
    checked(alloc, PING, PING_CERT).expect(rt, "the deployment isn't accepted")
}

/// An application that may write three samples, and one that reads them.
pub(crate) fn small(rt: &impl Abort, alloc: Global) -> Checked {
    checked(alloc, SMALL, SMALL_CERT).expect(rt, "the deployment isn't accepted")
}
