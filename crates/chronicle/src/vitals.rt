use crate::store_fault::{STORED, StoreFault, fault_in, word_of};
use std::alloc::{AllocError, Global};
use std::sync::atomic::{AtomicU64, Ordering};

/// How many services there can be.
const SERVICES: usize = 16;

/// How many reasons of a refusal are counted apart, from 0 on.
const REASONS: usize = 8;

/// What is to be watched in a server besides its loops, which threads share: whether its journal takes changes, how often a change was
/// refused, and when each service was reported last.
///
/// Contracts see nothing of it.
#[derive(Drop)]
pub struct Vitals {
    store: AtomicU64,
    refusals: Vec<AtomicU64>,
    reports: Vec<AtomicU64>,
}

impl Vitals {
    /// Nothing was refused or reported yet. It takes all memory that it needs.
    pub(crate) fn new(alloc: Global) -> Result<Vitals, AllocError> {
        Ok(Vitals {
            store: AtomicU64::new(STORED),
            refusals: zeros(alloc, REASONS)?,
            reports: zeros(alloc, SERVICES)?,
        })
    }

    /// The newest change is on the disk.
    pub fn stored(&self) {
        self.store.store(STORED, Ordering::SeqCst);
    }

    /// The newest change was not stored, for this reason.
    pub fn not_stored(&self, fault: StoreFault) {
        self.store.store(word_of(fault), Ordering::SeqCst);
    }

    /// Why the newest change was not stored, unless it was, or there was none.
    pub fn store_fault(&self) -> Option<StoreFault> {
        fault_in(self.store.load(Ordering::SeqCst))
    }

    /// A change was refused for the reason of this number.
    pub(crate) fn count_refusal(&self, reason: u8) {
        if let Some(count) = self.refusals.get(usize::from(reason)) {
            count.fetch_add(1, Ordering::SeqCst);
        }
    }

    /// How many changes were refused for the reason of this number.
    pub fn refusals(&self, reason: u8) -> u64 {
        match self.refusals.get(usize::from(reason)) {
            Some(count) => count.load(Ordering::SeqCst),
            None => 0,
        }
    }

    /// The service at the slot of this number was reported at this time, in microseconds since 1970.
    pub(crate) fn report(&self, service: u8, micros: u64) {
        if let Some(time) = self.reports.get(usize::from(service)) {
            time.store(micros, Ordering::SeqCst);
        }
    }

    /// When it was reported last in this run, if it was.
    pub fn reported(&self, service: u8) -> Option<u64> {
        let micros = self
            .reports
            .get(usize::from(service))?
            .load(Ordering::SeqCst);
        if micros == 0 { None } else { Some(micros) }
    }
}

fn zeros(alloc: Global, count: usize) -> Result<Vec<AtomicU64>, AllocError> {
    let mut words = Vec::with_capacity(alloc, count)?;
    for _ in 0..count {
        words.push(AtomicU64::new(0))?;
    }
    Ok(words)
}
