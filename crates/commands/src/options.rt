//! The options of the commands, as tables.

use crate::expect::STATUS_NAMES;
use clap::{Arg, ArgAction, Command, value_parser};
use std::alloc::{AllocError, Global};

/// Where servers listen, and clients ask where they are told no other host.
pub const HOST: &str = "127.0.0.1";

/// The most workers of a server.
pub const MAX_WORKERS: u16 = 64;

/// The most statuses of a Watch that is given no number: more than any server sends.
const NO_LIMIT: &str = "4294967295";

/// The most connections of a server.
const MAX_CONNECTIONS: i64 = 1_000_000;

/// The most event loops of a run, which would start no more.
const MAX_LOOPS: i64 = 64;

/// An option of a command, or a word that is none.
#[derive(Clone, Copy)]
pub(crate) struct CommandOption {
    name: &'static str,
    takes: Takes,
    otherwise: Otherwise,
    help: &'static str,
}

/// What an option takes, with the name that help has for its value.
#[derive(Clone, Copy)]
enum Takes {
    /// Nothing.
    Flag,
    /// Nothing; a letter stands for it too.
    Letter(char),
    Text(&'static str),
    /// A text that may begin with `-`.
    Name(&'static str),
    /// The name of a status, in capitals or in small letters.
    Status(&'static str),
    /// A number of 16 bits, at least and at most so great.
    Small(&'static str, i64, i64),
    /// One of 32 bits.
    Large(&'static str, i64, i64),
    /// A number from 1 on, or nothing, which stands for the greatest.
    Count(&'static str),
    /// It is no option, but a word.
    Word,
    /// It is no option, but one word or more.
    Words,
    /// It is no option, but any words, which may begin with `-`.
    AnyWords,
}

/// What an option comes to that is not given.
#[derive(Clone, Copy)]
enum Otherwise {
    Nothing,
    Refused,
    Value(&'static str),
}

pub(crate) static BODY: [CommandOption; 2] = [
    CommandOption {
        name: "HEX",
        takes: Takes::Word,
        otherwise: Otherwise::Refused,
        help: "The body of a Check's request, in hexadecimal, e.g. 0000000000",
    },
    CommandOption {
        name: "SERVICE",
        takes: Takes::AnyWords,
        otherwise: Otherwise::Nothing,
        help: "A service and its status, e.g. api=serving, api=not_serving or api=unknown; of two with one name the first counts",
    },
];

/// The port of a server that is asked, or serves.
const PORT: CommandOption = CommandOption {
    name: "port",
    takes: Takes::Small("P", 1, 65_535),
    otherwise: Otherwise::Refused,
    help: "The port of the server, 1 to 65535, e.g. 8080",
};

pub(crate) static SERVE: [CommandOption; 3] = [
    PORT,
    CommandOption {
        name: "workers",
        takes: Takes::Small("W", 1, MAX_WORKERS as i64),
        otherwise: Otherwise::Refused,
        help: "How many calls are served at once, 1 to 64, e.g. 4; an open Watch counts",
    },
    CommandOption {
        name: "calls",
        takes: Takes::Small("N", 1, 1_000),
        otherwise: Otherwise::Refused,
        help: "How many connections are served before the server ends, 1 to 1000, e.g. 10",
    },
];

pub(crate) static RUN: [CommandOption; 11] = [
    CommandOption {
        name: "listen",
        takes: Takes::Text("ADDR"),
        otherwise: Otherwise::Value("127.0.0.1:8080"),
        help: "Where calls are answered: an address and a port, e.g. 0.0.0.0:8080 or [::1]:8080",
    },
    CommandOption {
        name: "plain",
        takes: Takes::Text("ADDR"),
        otherwise: Otherwise::Nothing,
        help: "Where plain HTTP is answered, for balancers, Prometheus, curl and browsers: an address and a port, e.g. 0.0.0.0:8081; without it nowhere",
    },
    CommandOption {
        name: "control",
        takes: Takes::Text("PLACE"),
        otherwise: Otherwise::Nothing,
        help: "Where changes are asked for, and tell, status and history ask: a loopback address and a port, e.g. 127.0.0.1:8082, or a path of a Unix socket that only its owner may open, e.g. /run/healthd/control; without it nothing changes after the script",
    },
    CommandOption {
        name: "report",
        takes: Takes::Text("PLACE"),
        otherwise: Otherwise::Nothing,
        help: "Where checkers report, pass and fail and questions only: a loopback address and a port, or a path of a Unix socket that its owner's group may open too, e.g. /run/healthd/report; without it they report at the control place",
    },
    CommandOption {
        name: "script",
        takes: Takes::Text("FILE"),
        otherwise: Otherwise::Nothing,
        help: "The script of the setup, e.g. /etc/healthd/services; without it standard input to its end",
    },
    CommandOption {
        name: "journal",
        takes: Takes::Text("PATH"),
        otherwise: Otherwise::Nothing,
        help: "Keep the history in this file, e.g. /var/lib/healthd/journal; a restart resumes from it, and without it begins with the script again",
    },
    CommandOption {
        name: "threads",
        takes: Takes::Small("T", 1, MAX_LOOPS),
        otherwise: Otherwise::Nothing,
        help: "Event loops, 1 to 64, e.g. 4; without it one a processor; there are no more than connections",
    },
    CommandOption {
        name: "connections",
        takes: Takes::Large("C", 1, MAX_CONNECTIONS),
        otherwise: Otherwise::Value("10000"),
        help: "How many connections are open at once, 1 to 1000000, e.g. 500; later ones wait",
    },
    CommandOption {
        name: "watches",
        takes: Takes::Large("W", 0, MAX_CONNECTIONS),
        otherwise: Otherwise::Nothing,
        help: "How many of them may be open Watches, 0 to C, e.g. 400; without it nine tenths of C. One that is opened beyond them is told its status and ended",
    },
    CommandOption {
        name: "quiet",
        takes: Takes::Flag,
        otherwise: Otherwise::Nothing,
        help: "Write no log to standard error; without it there is a line for each status change",
    },
    CommandOption {
        name: "check",
        takes: Takes::Flag,
        otherwise: Otherwise::Nothing,
        help: "Read the script and the journal, print what would be served, and end with exit status 0, or 1 if a run would fail; nothing is bound, locked or written, also beside a server",
    },
];

pub(crate) static ASK: [CommandOption; 6] = [
    PORT,
    CommandOption {
        name: "host",
        takes: Takes::Text("ADDR"),
        otherwise: Otherwise::Value(HOST),
        help: "The IP address of the server, e.g. 192.0.2.7 or ::1",
    },
    CommandOption {
        name: "name",
        takes: Takes::Name("NAME"),
        otherwise: Otherwise::Nothing,
        help: "The service to ask for, e.g. my.package.Service; without it the empty name, which is the whole server",
    },
    CommandOption {
        name: "watch",
        takes: Takes::Count("N"),
        otherwise: Otherwise::Nothing,
        help: "Watch the service and print each status as it comes: so many, 1 to 4294967295, e.g. 3, or without a number all until the server ends the Watch; without it one Check",
    },
    CommandOption {
        name: "timeout",
        takes: Takes::Small("S", 1, 3_600),
        otherwise: Otherwise::Nothing,
        help: "How many seconds the whole call may take, 1 to 3600, e.g. 5; without it there is no limit",
    },
    CommandOption {
        name: "expect",
        takes: Takes::Status("STATUS"),
        otherwise: Otherwise::Nothing,
        help: "End with exit status 3 unless the last status is this one, e.g. SERVING, and a Check ended with grpc-status 0",
    },
];

/// How long an answer of a running server may take.
const ANSWER_TIMEOUT: CommandOption = CommandOption {
    name: "timeout",
    takes: Takes::Small("S", 1, 3_600),
    otherwise: Otherwise::Value("10"),
    help: "How many seconds connecting, and each answer, may take, 1 to 3600, e.g. 2",
};

/// Whether entries are printed as JSON.
const JSON_OF_ENTRIES: CommandOption = CommandOption {
    name: "json",
    takes: Takes::Flag,
    otherwise: Otherwise::Nothing,
    help: "Print an object of JSON for each entry, one a line",
};

pub(crate) static TELL: [CommandOption; 2] = [
    ANSWER_TIMEOUT,
    CommandOption {
        name: "WORD",
        takes: Takes::AnyWords,
        otherwise: Otherwise::Nothing,
        help: "The words of one line, e.g. fail db; without them the lines of standard input",
    },
];

/// How long a server may take to stop.
const STOP_TIMEOUT: CommandOption = CommandOption {
    name: "timeout",
    takes: Takes::Small("S", 1, 3_600),
    otherwise: Otherwise::Value("30"),
    help: "How many seconds the server may take to stop, 1 to 3600, e.g. 5",
};

pub(crate) static STOP: [CommandOption; 1] = [STOP_TIMEOUT];

pub(crate) static STATUS: [CommandOption; 2] = [
    ANSWER_TIMEOUT,
    CommandOption {
        name: "json",
        takes: Takes::Flag,
        otherwise: Otherwise::Nothing,
        help: "Print an array of JSON, an object for each service",
    },
];

pub(crate) static HISTORY: [CommandOption; 4] = [
    ANSWER_TIMEOUT,
    CommandOption {
        name: "last",
        takes: Takes::Large("N", 0, 4_294_967_295),
        otherwise: Otherwise::Nothing,
        help: "How many of the newest entries are printed, 0 to 4294967295, e.g. 20; without it all that are kept",
    },
    CommandOption {
        name: "follow",
        takes: Takes::Flag,
        otherwise: Otherwise::Nothing,
        help: "Go on with the entries that come, until the server ends",
    },
    JSON_OF_ENTRIES,
];

pub(crate) static JOURNAL: [CommandOption; 2] = [
    CommandOption {
        name: "PATH",
        takes: Takes::Word,
        otherwise: Otherwise::Refused,
        help: "The file of the journal, e.g. /var/lib/healthd/journal",
    },
    JSON_OF_ENTRIES,
];

pub(crate) static OBSERVE: [CommandOption; 5] = [
    CommandOption {
        name: "every",
        takes: Takes::Text("S"),
        otherwise: Otherwise::Value("5"),
        help: "Seconds from a look at a target to the next, 0.001 to 86400, e.g. 1",
    },
    CommandOption {
        name: "timeout",
        takes: Takes::Text("S"),
        otherwise: Otherwise::Value("2"),
        help: "Seconds that a look may take, fewer than those of --every, e.g. 0.5",
    },
    CommandOption {
        name: "once",
        takes: Takes::Flag,
        otherwise: Otherwise::Nothing,
        help: "Look once at each target, print what each was, and end",
    },
    CommandOption {
        name: "verbose",
        takes: Takes::Letter('v'),
        otherwise: Otherwise::Nothing,
        help: "Print what each look came to",
    },
    CommandOption {
        name: "TARGET",
        takes: Takes::Words,
        otherwise: Otherwise::Refused,
        help: "A service and what is looked at for it, e.g. db=tcp://10.0.0.5:5432",
    },
];

/// The command with these options.
pub(crate) fn with_options<'a>(
    alloc: Global,
    mut command: Command<'a>,
    options: &[CommandOption],
) -> Result<Command<'a>, AllocError> {
    for option in options {
        command = command.arg(option.arg(alloc))?;
    }
    Ok(command)
}

impl CommandOption {
    fn arg<'a>(&self, alloc: Global) -> Arg<'a> {
        let arg = Arg::new(alloc, self.name).help(self.help);
        let arg = match self.otherwise {
            Otherwise::Nothing => arg,
            Otherwise::Refused => arg.required(true),
            Otherwise::Value(value) => arg.default_value(value),
        };
        match self.takes {
            Takes::Word => arg,
            Takes::Words => arg.action(ArgAction::Append).num_args(1..),
            Takes::AnyWords => arg
                .action(ArgAction::Append)
                .num_args(0..)
                .allow_hyphen_values(true),
            takes => takes.given_to(arg, self.name),
        }
    }
}

impl Takes {
    /// An option of this name that takes this.
    fn given_to<'a>(self, arg: Arg<'a>, name: &'static str) -> Arg<'a> {
        let arg = arg.long(name);
        match self {
            Takes::Flag => arg.action(ArgAction::SetTrue),
            Takes::Letter(letter) => arg.short(letter).action(ArgAction::SetTrue),
            Takes::Text(value) => arg.value_name(value),
            Takes::Name(value) => arg.value_name(value).allow_hyphen_values(true),
            Takes::Status(value) => arg
                .value_name(value)
                .value_parser(STATUS_NAMES.as_slice())
                .ignore_case(true),
            Takes::Small(value, least, most) => arg
                .value_name(value)
                .value_parser(value_parser!(u16).range(least..=most)),
            Takes::Large(value, least, most) => arg
                .value_name(value)
                .value_parser(value_parser!(u32).range(least..=most)),
            Takes::Count(value) => arg
                .value_name(value)
                .num_args(0..=1)
                .default_missing_value(NO_LIMIT)
                .value_parser(value_parser!(u32).range(1..)),
            Takes::Word | Takes::Words | Takes::AnyWords => arg,
        }
    }
}

/// Where a running server is asked: at this place, if there is one and a command is told no other.
pub(crate) fn asked_place<'a>(alloc: Global, control: Option<&'a str>) -> Arg<'a> {
    let place = Arg::new(alloc, "control")
        .long("control")
        .value_name("PLACE")
        .help(
            "Where the server takes changes or reports: a loopback address and a port, e.g. 127.0.0.1:8082, or the path of a Unix socket, e.g. /run/healthd/control; without it what the environment variable HEALTHD_CONTROL says",
        );
    match control {
        Some(control) => place.default_value(control),
        None => place.required(true),
    }
}
