use crate::expectation::ScriptExpectation;
use crate::line::Line;
use desk_core::{Catalogue, Order};
use std::marker::Model;

/// What a script is read for: to be run line by line, with an answer to each; to set a server up and give it orders; or to set one up
/// alone, in a text that may have comments and lines that end in CR LF.
#[derive(Clone, Copy)]
pub enum Mode {
    Replay,
    Serve,
    Run,
}

/// The names of the services, and what is done with them.
pub struct Script {
    catalogue: Catalogue,
    max: u32,
    lines: Vec<Line>,
    numbers: Vec<u32>,
    expectations: Vec<ScriptExpectation>,
    orders: Vec<Order>,
}

impl Drop for Script {
    fn drop(self) {
        let Script {
            catalogue: _,
            max: _,
            lines: _,
            numbers: _,
            expectations: _,
            orders: _,
        } = self;
    }
}

impl Model for Script {
    ghost use Rattle.std.specs.Prelude.{◌≡◌, length};
    ghost use Rattle.script.specs.Script.{ScriptParts, StepsFollow};

    ghost Value = { ScriptParts };

    ghost view = { λ script. record {
      names = script.catalogue;
      max = script.max;
      lines = script.lines.items;
      numbers = script.numbers.items;
      expectations = script.expectations.items;
      orders = script.orders.items;
    } };

    ghost invariant = { λ script. StepsFollow 0 script.lines.items
        × (length script.numbers.items ≡ length script.lines.items) };
}

impl Script {
    ghost use Rattle.std.specs.Prelude.{◌≡◌, length};
    ghost use Rattle.script.specs.Script.{StepsFollow};

    /// A script of these parts.
    pub(crate) fn new(
        catalogue: Catalogue,
        max: u32,
        lines: Vec<Line>,
        numbers: Vec<u32>,
        expectations: Vec<ScriptExpectation>,
        orders: Vec<Order>,
    ) -> Script
        requires steps { StepsFollow 0 lines.items }
        requires each { length numbers.items ≡ length lines.items }
        ensures { result ≡ record {
          names = catalogue;
          max = max;
          lines = lines.items;
          numbers = numbers.items;
          expectations = expectations.items;
          orders = orders.items;
        } }
    {
        Script {
            catalogue,
            max,
            lines,
            numbers,
            expectations,
            orders,
        }
    }

    /// The catalogue, how many entries the journal may have, the lines and the orders.
    pub fn into_parts(self) -> (Catalogue, u32, Vec<Line>, Vec<Order>)
        ensures catalogue { result.0 ≡ self.names }
        ensures max { result.1 ≡ self.max }
        ensures lines { result.2.items ≡ self.lines }
        ensures orders { result.3.items ≡ self.orders }
        ensures steps { StepsFollow 0 self.lines }
    {
        let Script {
            catalogue,
            max,
            lines,
            orders,
            numbers: _,
            expectations: _,
        } = self;
        (catalogue, max, lines, orders)
    }

    /// How many entries the journal may have.
    pub fn max(&self) -> u32
        ensures { result ≡ self.now.max }
    {
        self.max
    }

    pub fn catalogue(&self) -> &Catalogue
        ensures { result.now ≡ self.now.names }
    {
        &self.catalogue
    }

    /// The lines behind the line `max`, up to the line `go`.
    pub fn lines(&self) -> &[Line]
        ensures lines { result.now ≡ self.now.lines }
        ensures steps { StepsFollow 0 self.now.lines }
    {
        self.lines.as_slice()
    }

    /// The number of each of these lines in the text, where the first line has 1.
    pub fn numbers(&self) -> &[u32]
        ensures numbers { result.now ≡ self.now.numbers }
        ensures each { length self.now.numbers ≡ length self.now.lines }
    {
        self.numbers.as_slice()
    }

    /// What a script to run expects; its lines have none of it.
    pub fn expectations(&self) -> &[ScriptExpectation]
        ensures { result.now ≡ self.now.expectations }
    {
        self.expectations.as_slice()
    }

    /// The changes behind the line `go`.
    pub fn orders(&self) -> &[Order]
        ensures { result.now ≡ self.now.orders }
    {
        self.orders.as_slice()
    }
}
