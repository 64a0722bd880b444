//! A loop over a socket of 127.0.0.1, and its clients.

use live_server::{Acceptor, EventServer, News, Places, ServerLimits};
use mio::net::TcpListener;
use std::alloc::Global;
use std::io::Write;
use std::net::{Net, SocketAddr, TcpStream};
use std::process::Abort;
use std::sync::Arc;
use std::time::Clock;

/// A loop, what it is told, and where its socket is.
pub(crate) fn serving<R: Net + Clock + Abort>(
    rt: &R,
    alloc: Global,
    limits: ServerLimits,
) -> (EventServer, News, SocketAddr) {
    let any = SocketAddr::from(([127, 0, 0, 1], 0));
    let listener = TcpListener::bind(rt, any).expect(rt, "a socket");
    let addr = listener.local_addr().expect(rt, "an address");
    let places = Arc::new(alloc, Places::new(limits)).expect(rt, "memory");
    let made = EventServer::new(rt, alloc, Acceptor::new(listener), places);
    let server = made.expect(rt, "a loop");
    let wakers = [server.waker().expect(rt, "a waker")];
    let news = News::new(Vec::from_array(alloc, wakers).expect(rt, "memory"));
    (server, news, addr)
}

/// A client that has sent this.
pub(crate) fn client<R: Net<Stream = TcpStream> + Abort>(
    rt: &R,
    addr: SocketAddr,
    bytes: &[u8],
) -> TcpStream {
    let mut stream = TcpStream::connect(rt, addr).expect(rt, "a connection");
    stream.write_all(bytes).expect(rt, "a request sent");
    stream
}
