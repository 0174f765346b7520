//! Where the server listens.

ghost use Rattle.std.specs.Prelude.{◌≡◌, codes};

use crate::closing_call::ClosingCall;
use std::alloc::Global;
use std::net::TcpListener;
use std::sync::Arc;
use std::time::Duration;
use web_doors::Front;

/// Where a server listens, by which it is asked to end, if it can be, and when it ends by itself.
#[derive(Drop)]
pub struct Address {
    /// Where connections of frames come; none where only browsers do.
    pub listener: Option<TcpListener>,
    /// Where browsers come; none where only connections of frames do.
    pub web: Option<WebAddress>,
    pub closing: Option<Arc<ClosingCall, Global>>,
    /// After how long without anybody at a seat the server ends, if it does.
    pub until_idle: Option<Duration>,
}

/// Where browsers come, and what they find.
#[derive(Drop)]
pub struct WebAddress {
    pub listener: TcpListener,
    /// Links begin with its house's origin.
    pub front: Front,
}

/// A port of this machine's loopback, which nobody reaches from outside: the server listens there, and nowhere
/// else but where browsers are to come.
pub(crate) fn loopback(port: u16) -> (&'static str, u16)
    ensures host { result.0.now ≡ codes "127.0.0.1" }
    ensures port { result.1 ≡ port }
{
    ("127.0.0.1", port)
}
