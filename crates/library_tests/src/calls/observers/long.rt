use crate::same::same;
use control::Place;
use observing::{Note, Sink, Target, Terms, Verdict, observe};
use std::io::{Read, Write};
use std::net::{SocketAddr, TcpListener};
use std::process::Abort;
use std::thread;

/// What lines are answered.
static ANSWERS: [&[u8]; 5] = [
    b"done\n",
    b"missing\n",
    b"missing\n",
    b"done\n",
    b"missing\n",
];

/// Holds one session, in which lines of seven bytes have these answers, and leaves.
fn hold(rt: &impl Abort, listener: TcpListener) {
    let (stream, _) = listener.accept().expect(rt, "a session");
    drop(listener);
    let mut socket = &stream;
    for answer in &ANSWERS {
        let mut line = [0u8; 7];
        socket.read_exact(&mut line).expect(rt, "a line");
        socket.write_all(*answer).expect(rt, "an answer");
    }
}

/// How many looks are still wanted.
#[derive(Drop)]
struct Wanted {
    looks: u64,
}

impl Sink for Wanted {
    fn looked(&mut self, _target: &Target, _verdict: Verdict) {
        self.looks = self.looks.saturating_sub(1);
    }

    fn noted(&mut self, _targets: &[Target], _note: &Note) {}

    fn goes_on(&self) -> bool {
        self.looks > 0
    }
}

/// Two of twelve reports are told: three are refused, and the place is lost for the others. What is noted of that, and what lines are told,
/// tests/test_observe.py says.
#[test]
fn counts_all_reports(rt: HostRuntime) {
    let alloc = rt.alloc();
    let targets = [Target::read(alloc, "a=tcp://127.0.0.1:1").expect(&rt, "a target")];
    let terms = Terms::new(100, 90).expect(&rt, "terms");
    let anywhere = SocketAddr::from(([127, 0, 0, 1], 0));
    let listener = TcpListener::bind(&rt, anywhere).expect(&rt, "a listener");
    let place = listener.local_addr().expect(&rt, "its address");
    let mut wanted = Wanted { looks: 12 };
    let (_, telling) = thread::join(
        &rt,
        || hold(&rt, listener),
        || observe(&rt, Place::Address(place), &targets, terms, &mut wanted),
    );
    let telling = telling.ok().expect(&rt, "what was told");
    same(&rt, &(telling.told, telling.untold), &(2, 10), &"told");
}
