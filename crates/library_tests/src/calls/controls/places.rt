use crate::same::same;
use control::{Access, ControlListener, Place};
use std::io::ErrorKind;
use std::net::{Net, SocketAddr};
use std::process;
use std::process::Abort;
use std::rt::Files;

fn listener_at<R: Files + Net + AllocGlobal + Abort>(rt: &R, place: Place<'_>) -> ControlListener {
    ControlListener::bind(rt, rt.alloc(), place, Access::Owner).expect(rt, "a listener")
}

/// The program never looks at what `remove` answers.
#[test]
fn a_file_that_is_gone_is_told(rt: HostRuntime) {
    let anywhere = Place::Address(SocketAddr::from(([127, 0, 0, 1], 0)));
    let listener = listener_at(&rt, anywhere);
    listener.remove(&rt).expect(&rt, "nothing to remove");
    let number = process::id(rt.process());
    let path = format!(in rt.alloc(); "/tmp/control-place-{number}").expect(&rt, "memory");
    let listener = listener_at(&rt, Place::Path(&path));
    listener.remove(&rt).expect(&rt, "removed");
    let found = match listener.remove(&rt) {
        Ok(()) => None,
        Err(error) => Some(error.kind()),
    };
    same(&rt, &found, &Some(ErrorKind::NotFound), &path);
}
