ghost use Rattle.std.specs.Prelude.{◌≡◌, ◌<◌, ◌==◌, ◌⊎◌, ℕ, None, Some, map, length, replicate, slice_get, slice_set, IfOk, IfErr, IfSome, IsOk, OnOk, MatchBool, Contains};
ghost use Rattle.std.specs.List.{filter_map, list_any};
ghost use Rattle.crew.specs.Gather.{AreSound, IsGathered, Fails, numbers_of};
ghost use Rattle.crew.specs.Noting.{AreNoted};

use crate::call_end::CallEnd;
use crate::crew_why::CrewWhy;
use std::alloc::{AllocError, Global};

/// The ends of so many calls in the order of their numbers, from a report of each.
///
/// It takes time for each call and each report once. Only where it finds no memory does it compare each report with those before
/// it, so that running out of memory hides no other fault.
pub fn gather(
    alloc: Global,
    expected: u32,
    found: Vec<(u32, CallEnd)>,
) -> Result<Vec<CallEnd>, CrewWhy>
    ensures ok { IfOk result (λ ends. IsGathered expected found.items ends.items) }

    // `Fails` has `NoMemory` only for reports with no other fault.
    ensures err { IfErr result (λ why. Fails expected (numbers_of found.items) why) }
{
    let Ok(mut places) = vec![in alloc; None; expected as usize] else {
        return Err(fault_of(expected, &found));
    };
    note(&mut places, &found)?;
    ends_at(alloc, &places)
}

// Puts each end at its number, up to the first report that is wrong.
fn note(places: &mut [Option<CallEnd>], found: &[(u32, CallEnd)]) -> Result<(), CrewWhy>
    requires { places.old ≡ replicate (length places.old) None }
    ensures ok { OnOk result (AreNoted (length places.old) found.now places.new) }
    ensures err { IfErr result (λ why. Fails (length places.old) (numbers_of found.now) why) }
{
    for &(number, end) in found {
        put(places, number, end)?;
    }
    Ok(())
}

// Puts an end at its number, where there is a free place.
fn put(places: &mut [Option<CallEnd>], number: u32, end: CallEnd) -> Result<(), CrewWhy>
    ensures free { slice_get places.old number ≡ Some None
        → IsOk result × (places.new ≡ slice_set places.old number (Some end)) }
    ensures taken { (other : CallEnd) → slice_get places.old number ≡ Some (Some other)
        → result ≡ Err CrewWhy.Doubled }
    ensures none { slice_get places.old number ≡ None → result ≡ Err CrewWhy.Stranger }
{
    let place = number as usize;
    if place >= places.len() {
        return Err(CrewWhy::Stranger);
    }
    if places[place].is_some() {
        return Err(CrewWhy::Doubled);
    }
    places[place] = Some(end);
    Ok(())
}

// The ends at all places, if none is missing.
fn ends_at(alloc: Global, places: &[Option<CallEnd>]) -> Result<Vec<CallEnd>, CrewWhy>
    ensures ok { IfOk result (λ ends. places.now ≡ map Some ends.items) }
    ensures err { IfErr result (λ why. ((why ≡ CrewWhy.Lost) × Contains places.now None)
        ⊎ ((why ≡ CrewWhy.NoMemory) × ¬ Contains places.now None)) }
{
    if places.contains(&None) {
        return Err(CrewWhy::Lost);
    }
    match filled(alloc, places) {
        Ok(ends) => Ok(ends),
        Err(_) => Err(CrewWhy::NoMemory),
    }
}

// The ends at those places that have one.
fn filled(alloc: Global, places: &[Option<CallEnd>]) -> Result<Vec<CallEnd>, AllocError>
    ensures { IfOk result (λ ends. ends.items ≡ filter_map (λ place. place) places.now) }
{
    let mut ends = Vec::with_capacity(alloc, places.len())?;
    for place in places {
        if let Some(end) = place {
            ends.push(*end)?;
        }
    }
    Ok(ends)
}

// What is wrong with reports where there is no memory to note them in, so that each is compared with those before it.
pub(crate) fn fault_of(expected: u32, found: &[(u32, CallEnd)]) -> CrewWhy
    ensures { Fails expected (numbers_of found.now) result }
{
    match first_wrong(expected, found) {
        Some(why) => why,
        None if has_all_below(expected, found) => CrewWhy::NoMemory,
        None => CrewWhy::Lost,
    }
}

// What is wrong with the leftmost report that is a stranger's or doubled.
fn first_wrong(expected: u32, found: &[(u32, CallEnd)]) -> Option<CrewWhy>
    ensures some { IfSome result (λ why. Fails expected (numbers_of found.now) why) }
    ensures none { result ≡ None → AreSound expected (numbers_of found.now) }
{
    for (place, &(number, _)) in found.iter().enumerate() {
        if number >= expected {
            return Some(CrewWhy::Stranger);
        }
        if has_number(&found[..place], number) {
            return Some(CrewWhy::Doubled);
        }
    }
    None
}

fn has_all_below(expected: u32, found: &[(u32, CallEnd)]) -> bool
    ensures { MatchBool result
        ((number : ℕ) → number < expected → Contains (numbers_of found.now) number)
        ((number : ℕ) × (number < expected) × ¬ Contains (numbers_of found.now) number) }
{
    for number in 0..expected {
        if !has_number(found, number) {
            return false;
        }
    }
    true
}

fn has_number(found: &[(u32, CallEnd)], number: u32) -> bool
    ensures { result ≡ list_any (λ report. report.0 == number) found.now }
{
    found.iter().any(|report| report.0 == number)
}
