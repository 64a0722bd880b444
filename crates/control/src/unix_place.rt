ghost use Rattle.std.specs.Prelude.{◌≡◌, IfOk, string_bytes, is_err, int_lt, pos};

use mio::net::{UnixListener, UnixStream};
use std::alloc::Global;
use std::fs::{Files, Permissions, symlink_metadata};
use std::io::ErrorKind;
use std::net::Net;
use std::os::fd::{AsFd, AsRawFd, OwnedFd};
use std::os::unix::fs::{FileTypeExt, MetadataExt, PermissionsExt};
use std::os::unix::net;
use std::os::unix::net::SocketAddr;
use std::{fs, io};

/// Who may connect to a Unix socket, which asks for the right to write.
#[derive(Clone, Copy)]
pub enum Access {
    /// Its owner alone: its file has the mode 0600.
    Owner,
    /// Its owner and its group: 0660, whatever the process's umask.
    Group,
}

impl Access {
    fn mode(self) -> u32 {
        match self {
            Access::Owner => 0o600,
            Access::Group => 0o660,
        }
    }
}

/// As many connections may wait as the system allows.
const BACKLOG: i32 = -1;

/// Which file stands at a path.
#[derive(Clone, Copy, PartialEq, Eq)]
struct Identity {
    device: u64,
    number: u64,
}

/// A listening Unix socket with its file, which is made with its mode and never has a wider one.
///
/// The file stays when this is dropped: `remove` takes it away. A file that is left is taken over by the next server.
#[derive(Drop)]
pub struct UnixPlace {
    listener: UnixListener,
    path: String,
    identity: Identity,
}

impl UnixPlace {
    /// Listens at the path. Where a file stands it is `AddrInUse`, and the file is left alone, unless it is a socket that refuses
    /// connections: that file is taken away first. A symbolic link is not followed.
    ///
    /// Two servers that find the same left file at the same moment are not kept apart: the first may lose its file to the second.
    pub fn bind<R: Files + Net>(
        rt: &R,
        alloc: Global,
        path: &str,
        access: Access,
    ) -> io::Result<UnixPlace>
        ensures path { IfOk result (λ place. string_bytes place.path ≡ path.now) }
    {
        let addr = SocketAddr::from_pathname(path)?;
        let path = String::from_str(alloc, path)?;
        let listener = listen_anew(rt, &path, &addr, access)?;
        let identity = identity_of(rt, &path)?;
        Ok(UnixPlace {
            listener,
            path,
            identity,
        })
    }

    /// The path, as it was given.
    pub fn path(&self) -> &str
        ensures { result.now ≡ string_bytes self.now.path }
    {
        &self.path
    }

    /// What accepts its connections.
    pub fn listener(&self) -> &UnixListener {
        &self.listener
    }

    pub(crate) fn listener_mut(&mut self) -> &mut UnixListener {
        &mut self.listener
    }

    /// Takes its file away. A file that another has put in its place since is left alone.
    pub fn remove<R: Files>(&self, rt: &R) -> io::Result<()> {
        if identity_of(rt, &self.path)? == self.identity {
            fs::remove_file(rt, self.path.as_str())
        } else {
            Ok(())
        }
    }
}

/// Listens as `listen` does. Where the file of a socket at which nobody listens any more is in the way, it is taken away first.
fn listen_anew<R: Files + Net>(
    rt: &R,
    path: &str,
    addr: &SocketAddr,
    access: Access,
) -> io::Result<UnixListener> {
    match listen(rt, path, addr, access) {
        Err(error) if error.kind() == ErrorKind::AddrInUse => {
            if !is_left(rt, path, addr) {
                return Err(error);
            }
            fs::remove_file(rt, path)?;
            listen(rt, path, addr, access)
        }
        listened => listened,
    }
}

/// A socket that listens at this path and does not wait.
fn listen<R: Files + Net>(
    rt: &R,
    path: &str,
    addr: &SocketAddr,
    access: Access,
) -> io::Result<UnixListener> {
    let socket = rt.unix_socket()?;
    listen_at(rt, &socket, path, addr, access)?;
    let listener = net::UnixListener::from(socket);
    listener.set_nonblocking(true)?;
    Ok(UnixListener::from_std(listener))
}

/// Has a socket listen at this path. Its mode is set before it has a file, so that the file is made with it; what the process's umask
/// takes from a group is given back before anyone can connect.
fn listen_at<R: Files>(
    rt: &R,
    socket: &OwnedFd,
    path: &str,
    addr: &SocketAddr,
    access: Access,
) -> io::Result<()> {
    check(libc::fchmod(socket.as_raw_fd(), access.mode()))?;
    rt.bind_unix(socket.as_fd(), addr)?;
    if access == Access::Group {
        fs::set_permissions(rt, path, Permissions::from_mode(access.mode()))?;
    }
    check(libc::net::listen(socket.as_raw_fd(), BACKLOG))
}

/// The error of a call of the system that answered -1.
fn check(status: i32) -> io::Result<()>
    ensures { is_err result ≡ int_lt status (pos 0) }
{
    if status < 0 {
        Err(io::Error::from_raw_os_error(os::errno()))
    } else {
        Ok(())
    }
}

/// Whether the file there is a socket at which nobody listens any more.
fn is_left<R: Files + Net>(rt: &R, path: &str, addr: &SocketAddr) -> bool {
    let Ok(found) = symlink_metadata(rt, path) else {
        return false;
    };
    if !found.file_type().is_socket() {
        return false;
    }
    match UnixStream::connect_addr(rt, addr) {
        Ok(_) => false,
        Err(error) => error.kind() == ErrorKind::ConnectionRefused,
    }
}

fn identity_of<R: Files>(rt: &R, path: &str) -> io::Result<Identity> {
    let found = symlink_metadata(rt, path)?;
    Ok(Identity {
        device: found.dev(),
        number: found.ino(),
    })
}
