use crate::probe::Probe;
use crate::rule::Rule;
use std::alloc::AllocError;
use std::marker::Model;

/// Makes probes where they are asked for.
pub trait Maker<P: Probe> {
    ghost use Rattle.probe_core.specs.Made.{IsAsked};

    /// A probe of this rule that heard no event.
    fn make(&self, rule: Rule) -> Result<P, AllocError>
        ensures { IsAsked P.rule P.memory rule result };
}

/// A closure from a rule to a probe, as a `FnMaker` holds one.
pub trait ProbeFn {
    ghost use Rattle.probe_core.specs.Made.{IsAsked};

    type Made: Probe;

    // It may always be called, and makes what it is asked for.
    ghost makes_asked: { Self → Type 0 };

    fn call(&self, rule: Rule) -> Result<Self::Made, AllocError>
        requires { makes_asked self.now }
        ensures { IsAsked Self.Made.rule Self.Made.memory rule result };
}

impl<P: Probe, F: Fn(Rule) -> Result<P, AllocError>> ProbeFn for F {
    ghost use Rattle.probe_core.specs.Made.{MakesAsked};

    type Made = P;

    ghost makes_asked = { λ f. F.IsAlwaysCallable f × MakesAsked P.rule P.memory (F.post f) };

    fn call(&self, rule: Rule) -> Result<P, AllocError> {
        self(rule)
    }
}

/// A maker by a closure. The program makes its boxes in a closure, since no function may make a boxed value and hand it out.
#[derive(Drop)]
pub struct FnMaker<F: ProbeFn> {
    make: F,
}

impl<F: ProbeFn> Model for FnMaker<F> {
    ghost Value = { F };

    ghost view = { λ maker. maker.make };

    ghost invariant = { λ maker. F.makes_asked maker.make };
}

impl<F: ProbeFn> FnMaker<F> {
    pub fn new(make: F) -> FnMaker<F>
        requires { F.makes_asked make }
    {
        FnMaker { make }
    }
}

impl<F: ProbeFn> Maker<F::Made> for FnMaker<F> {
    fn make(&self, rule: Rule) -> Result<F::Made, AllocError> {
        self.make.call(rule)
    }
}
