//! A hall that is set up by the entries of an earlier run.

ghost use Rattle.std.specs.Prelude.{◌≡◌, ◌≤◌, Some, Ok, true, IfOk};
ghost use Rattle.desk_core.specs.Order.{IsListed};
ghost use Rattle.hall.specs.Seats.{IsCarriedOut, IsOf, new_seats};
ghost use Rattle.hall.specs.CarriedOut.{HasCarriedOut};
ghost use Rattle.server.specs.Again.{changes_of, replies_of};
ghost use Rattle.server.specs.Setup.{AreSetUp};

use crate::again_fault::AgainFault;
use crate::setup::SetUpHall;
use desk_core::{Call, Catalogue, Entry, Keep, Refusal, Reply};
use hall::{Hall, Seat};
use probe_core::{Maker, Probe};
use std::alloc::Global;
use std::sync::Wait;

/// A hall of this catalogue that takes at most so many entries, and so many seats, of which the first has made the changes of these
/// entries again, the oldest first: each has the reply that it had.
pub fn hall_again<R: Wait, P: Probe, K: Keep, M: Maker<P>>(
    rt: &R,
    alloc: Global,
    catalogue: Catalogue,
    most: u32,
    entries: &[Entry],
    maker: &M,
    seats: u16,
) -> Result<SetUpHall<P, K>, AgainFault>
    requires some { 1 ≤ seats }
    requires not_too_many { seats ≤ 1024 }
    ensures hall { IfOk result (λ made. (made.hall.names ≡ catalogue)
        × (made.hall.most ≡ most) × (made.hall.seats ≡ seats)) }
    ensures seats { IfOk result (λ made. AreSetUp (changes_of entries.now)
        made.results (new_seats made.hall.table most seats) made.seats) }
    ensures replies { IfOk result (λ made. made.results ≡ replies_of entries.now) }
{
    let Ok((hall, mut dealt)) = Hall::new(alloc, catalogue, most, seats) else {
        return Err(AgainFault::Memory);
    };
    let results = make_all_again(rt, alloc, &hall, &mut dealt[0], entries, maker)?;
    Ok(SetUpHall {
        hall,
        seats: dealt,
        results,
        orders: Vec::new(alloc),
        most,
    })
}

/// Makes the changes of entries again, the oldest first, and tells their replies.
fn make_all_again<R: Wait, P: Probe, K: Keep, M: Maker<P>>(
    rt: &R,
    alloc: Global,
    hall: &Hall<P, K>,
    seat: &mut Seat<P, K>,
    entries: &[Entry],
    maker: &M,
) -> Result<Vec<Result<Reply, Refusal>>, AgainFault>
    requires ours { IsOf hall.now seat.old }
    ensures met { IfOk result (λ results.
        HasCarriedOut seat.old seat.new (changes_of entries.now) results.items) }
    ensures replies { IfOk result (λ results. results.items ≡ replies_of entries.now) }
{
    let mut results = Vec::with_capacity(alloc, entries.len())?;
    for number in 0..entries.len() {
        let entry = entries[number];
        if !make_again(rt, hall, seat, entry, maker)? {
            return Err(AgainFault::Illegal(number));
        }
        results.push(Ok(entry.reply))?;
    }
    Ok(results)
}

/// Makes the change of an entry again. Says whether its reply is the one that it had.
fn make_again<R: Wait, P: Probe, K: Keep, M: Maker<P>>(
    rt: &R,
    hall: &Hall<P, K>,
    seat: &mut Seat<P, K>,
    entry: Entry,
    maker: &M,
) -> Result<bool, AgainFault>
    requires ours { IsOf hall.now seat.old }
    ensures ours { IsOf hall.now seat.new }
    ensures made { result ≡ Ok true
        → IsCarriedOut seat.old seat.new (Some entry.call) (Ok entry.reply) }
{
    if !is_listed(hall.catalogue(), entry.call) {
        return Ok(false);
    }
    let probe = match entry.call {
        Call::Register(_, rule) => Some(maker.make(rule)?),
        Call::Retire(_) | Call::Observe(..) | Call::Set(..) | Call::Shutdown | Call::Resume => None,
    };
    match hall.change(rt, seat, Some(entry.call), probe) {
        Ok(made) => Ok(made.reply == entry.reply),
        Err((Refusal::NoMemory, _)) => Err(AgainFault::Memory),
        Err(_) => Ok(false),
    }
}

/// Whether a change is of a service of the catalogue, or of all of them.
fn is_listed(catalogue: &Catalogue, call: Call) -> bool
    ensures { result ≡ true → IsListed catalogue.now call }
{
    let count = catalogue.len();
    match call {
        Call::Register(slot, _) => usize::from(slot.number()) < count,
        Call::Retire(slot) => usize::from(slot.number()) < count,
        Call::Observe(slot, _) => usize::from(slot.number()) < count,
        Call::Set(slot, _) => usize::from(slot.number()) < count,
        Call::Shutdown | Call::Resume => true,
    }
}
