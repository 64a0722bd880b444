//! Catalogues of tests.

use desk_core::Catalogue;
use std::alloc::Global;
use std::process::Abort;

/// A catalogue of these names.
pub(crate) fn catalogue(rt: &impl Abort, alloc: Global, names: &[&str]) -> Catalogue {
    let mut listed = Vec::new(alloc);
    for name in names {
        let name = String::from_str(alloc, name).expect(rt, "memory");
        listed.push(name).expect(rt, "memory");
    }
    Catalogue::new(alloc, listed).expect(rt, "a catalogue")
}
