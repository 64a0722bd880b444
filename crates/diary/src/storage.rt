use crate::moment::Moment;
use crate::pen::Pen;
use chronicle::StoreFault;
use control::Cause;
use log_lines::{Event, Minutely};
use std::{fmt, io};

/// Whether the journal takes changes. While it takes none that is told, once a minute at most.
#[derive(Drop)]
pub(crate) struct Storage {
    told: Minutely,
    /// Whether it was told last that it takes none.
    is_told: bool,
}

impl Storage {
    /// Nothing was told yet.
    pub(crate) fn new() -> Storage {
        Storage {
            told: Minutely::new(),
            is_told: false,
        }
    }

    /// Tells why the newest change was not stored, if it was not, and once that is over.
    pub(crate) fn tell(&mut self, pen: &mut Pen, moment: Moment, fault: Option<StoreFault>) {
        let Some(fault) = fault else {
            if self.is_told {
                self.is_told = false;
                pen.write(moment, Event::WrittenAgain);
            }
            return;
        };
        if self.told.may_tell(moment.millis) {
            self.is_told = true;
            tell_fault(pen, moment, fault);
        }
    }
}

fn tell_fault(pen: &mut Pen, moment: Moment, fault: StoreFault) {
    let why = Why(fault);
    match format!(in pen.alloc(); "{why}") {
        Ok(why) => pen.write(moment, Event::NotWritten(&why)),
        Err(_) => pen.lose(),
    }
}

/// What a fault is called.
#[derive(Clone, Copy)]
struct Why(StoreFault);

impl fmt::Display for Why {
    fn fmt<W: fmt::Write>(&self, f: &mut fmt::Formatter<W>) -> fmt::Result {
        match self.0 {
            StoreFault::Unknown => f.write_str("for no known reason"),
            StoreFault::Moved => f.write_str("its file was moved"),
            StoreFault::System(number) => {
                let number = i32::try_from(number).unwrap_or(i32::MAX);
                fmt::Display::fmt(&Cause::from(io::Error::from_raw_os_error(number)), f)
            }
        }
    }
}
