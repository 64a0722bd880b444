use crate::health::health_request;
use crate::http::http_request;
use crate::kind::Kind;
use crate::target_fault::TargetFault;
use crate::url::{Url, is_word, read_url};
use std::alloc::{AllocError, Global};

/// The longest name of a service that a client asks for, in bytes.
const MAX_SERVICE_LEN: usize = 1_048_576;

/// What is looked at, and the name of the service that is reported by it.
#[derive(Drop)]
pub struct Target {
    name: String,
    kind: Kind,
    /// The host and the port as they are written.
    authority: String,
    host: String,
    port: u16,
    /// As it is written, from its slash on; empty without one.
    path: String,
}

impl Target {
    ghost use Rattle.std.specs.Prelude.{◌≡◌, [], IfOk};
    ghost use Rattle.observing.specs.Target.{IsTargetOf, host_of, kind_of, name_of, path_of, port_of, target_text};

    /// Reads `NAME=tcp://HOST:PORT`, `NAME=http://HOST:PORT/PATH` or `NAME=grpc-web://HOST:PORT/SERVICE`. The name ends at the first
    /// equals sign. With `http` the port may be left out: then it is 80.
    pub fn read(alloc: Global, text: &str) -> Result<Target, TargetFault>
        ensures written { IfOk result (λ target. target_text target ≡ text.now) }
        ensures no_path { IfOk result (λ target. kind_of target ≡ Kind.Tcp → path_of target ≡ []) }
    {
        let Some((name, url)) = text.split_once('=') else {
            return Err(TargetFault::NoUrl);
        };
        if name.is_empty() {
            return Err(TargetFault::NoName);
        }
        if !is_word(name) {
            return Err(TargetFault::BadName);
        }
        match read_url(url) {
            Ok(url) => match Target::of(alloc, name, &url) {
                Ok(target) => Ok(target),
                Err(_) => Err(TargetFault::OutOfMemory),
            },
            Err(fault) => Err(fault),
        }
    }

    fn of(alloc: Global, name: &str, url: &Url<'_>) -> Result<Target, AllocError>
        ensures name { IfOk result (λ target. name_of target ≡ name.now) }
        ensures url { IfOk result (λ target. IsTargetOf url.now target) }
    {
        Ok(Target {
            name: String::from_str(alloc, name)?,
            kind: url.kind,
            authority: String::from_str(alloc, url.authority)?,
            host: String::from_str(alloc, url.host)?,
            port: url.port,
            path: String::from_str(alloc, url.path)?,
        })
    }

    /// The word that a line of a session has for the service.
    pub fn name(&self) -> &str
        ensures { result.now ≡ name_of self.now }
    {
        &self.name
    }

    /// How it is asked.
    pub fn kind(&self) -> Kind
        ensures { result ≡ kind_of self.now }
    {
        self.kind
    }

    /// The name or the address of its host, without brackets.
    pub fn host(&self) -> &str
        ensures { result.now ≡ host_of self.now }
    {
        &self.host
    }

    /// Its port.
    pub fn port(&self) -> u16
        ensures { result ≡ port_of self.now }
    {
        self.port
    }

    /// What is sent over a connection to it, unless memory runs out.
    pub fn request(&self, alloc: Global) -> Option<Vec<u8>> {
        match self.kind {
            Kind::Tcp => Some(Vec::new(alloc)),
            Kind::Http => http_request(alloc, &self.authority, path_or_root(&self.path)).ok(),
            Kind::GrpcWeb => check_of(alloc, service_of(&self.path)),
        }
    }
}

/// No name that a command line can have is longer than the limit.
fn check_of(alloc: Global, service: &str) -> Option<Vec<u8>> {
    if service.len() > MAX_SERVICE_LEN {
        return None;
    }
    health_request(alloc, service)
}

fn path_or_root(path: &str) -> &str {
    if path.is_empty() { "/" } else { path }
}

/// What stands behind the slash. Without a name the server as a whole is asked for.
fn service_of(path: &str) -> &str {
    match path.strip_prefix('/') {
        Some(service) => service,
        None => path,
    }
}
