use std::alloc::Global;
use std::process::Abort;
use web_call::staged::Staged;

/// A registry of which the empty name is serving.
pub(crate) fn staged_of(rt: &impl Abort, alloc: Global) -> Staged {
    match Staged::new(alloc) {
        Ok(staged) => staged,
        Err(_) => panic!(rt; "a registry"),
    }
}
