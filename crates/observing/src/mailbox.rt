use std::alloc::{AllocError, Global};
use std::collections::VecDeque;
use std::sync::{Condvar, Mutex, Wait};

#[derive(Drop)]
struct Held<T: Drop> {
    items: VecDeque<T>,
    closed: bool,
}

/// Hands items from one thread to another, in order, as many at once as there is room for.
pub(crate) struct Mailbox<T: Drop> {
    held: Mutex<Held<T>>,
    changed: Condvar,
    room: usize,
}

impl<T: Drop> Drop for Mailbox<T> {
    fn drop(self) {
        let Mailbox {
            held: _,
            changed: _,
            room: _,
        } = self;
    }
}

impl<T: Drop> Mailbox<T> {
    /// One with room for so many items.
    pub(crate) fn new(alloc: Global, room: usize) -> Result<Mailbox<T>, AllocError> {
        let items = VecDeque::with_capacity(alloc, room)?;
        Ok(Mailbox {
            held: Mutex::new(Held {
                items,
                closed: false,
            }),
            changed: Condvar::new(),
            room,
        })
    }

    /// Whether the item was put in. Without room it is dropped.
    pub(crate) fn put<R: Wait>(&self, rt: &R, item: T) -> bool {
        let is_put = self.held.lock(rt).put(self.room, item);
        self.changed.notify_all();
        is_put
    }

    /// The next item, as soon as there is one; none once the box is closed and empty.
    pub(crate) fn wait<R: Wait>(&self, rt: &R) -> Option<T> {
        let mut held = self.changed.wait_while(rt, self.held.lock(rt), |held| {
            held.items.is_empty() && !held.closed
        });
        held.items.pop_front()
    }

    /// The next item, if there is one.
    pub(crate) fn take<R: Wait>(&self, rt: &R) -> Option<T> {
        self.held.lock(rt).items.pop_front()
    }

    /// No item comes any more.
    pub(crate) fn close<R: Wait>(&self, rt: &R) {
        self.held.lock(rt).closed = true;
        self.changed.notify_all();
    }

    /// Throws away what is in it.
    pub(crate) fn clear<R: Wait>(&self, rt: &R) {
        self.held.lock(rt).items.clear();
    }
}

impl<T: Drop> Held<T> {
    fn put(&mut self, room: usize, item: T) -> bool {
        if self.closed || self.items.len() >= room {
            return false;
        }
        self.items.push_back(item).is_ok()
    }
}
