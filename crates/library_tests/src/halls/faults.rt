use crate::names::catalogue;
use crate::same::same;
use desk_core::{Catalogue, CatalogueFault};
use hall::{Hall, HallFault, Seat};
use probe_core::Manual;

/// A hall and its seats, or its fault.
type Made = Result<(Hall<Manual>, Vec<Seat<Manual>>), HallFault>;

/// How many seats are asked for, and how many are made, or the fault.
static SEATS: [(u16, Result<usize, HallFault>); 5] = [
    (0, Err(HallFault::NoSeats)),
    (1, Ok(1)),
    (1_024, Ok(1_024)),
    (1_025, Err(HallFault::TooManySeats)),
    (65_535, Err(HallFault::TooManySeats)),
];

/// The seats have numbers in their order, from 0.
#[test]
fn a_hall_has_one_seat_to_1024(rt: HostRuntime) {
    for (count, expected) in &SEATS {
        let names = catalogue(&rt, rt.alloc(), &["a", ""]);
        let made: Made = Hall::new(rt.alloc(), names, 100, *count);
        let found = match &made {
            Ok((_, seats)) => {
                for (place, seat) in seats.iter().enumerate() {
                    same(&rt, &usize::from(seat.number()), &place, &"a seat");
                }
                Ok(seats.len())
            }
            Err(fault) => Err(*fault),
        };
        same(&rt, &found, expected, &"seats");
    }
}

/// Names that make no catalogue.
static NAMES: [(&[&str], CatalogueFault); 4] = [
    (&[], CatalogueFault::NoNames),
    (
        &[
            "a", "b", "c", "d", "e", "f", "g", "h", "i", "j", "k", "l", "m", "n", "o", "p", "",
        ],
        CatalogueFault::TooMany,
    ),
    (&["a", "a"], CatalogueFault::TwiceListed),
    (&["a"], CatalogueFault::NoEmptyName),
];

#[test]
fn some_names_make_no_catalogue(rt: HostRuntime) {
    for &(names, fault) in &NAMES {
        let mut listed = Vec::new(rt.alloc());
        for name in names {
            let name = String::from_str(rt.alloc(), *name).expect(&rt, "memory");
            listed.push(name).expect(&rt, "memory");
        }
        let made = Catalogue::new(rt.alloc(), listed).err();
        same(&rt, &made, &Some(fault), &names);
    }
}
