//! What the help of a command says behind its options.

/// What a script may say.
pub(crate) const SCRIPT_HELP: &str = "\
A script names the services, and registers them:

  # The whole server, -, is up where the database and the interface are.
  catalogue db api -
  register db threshold 2
  register api manual
  register - depends db api

The word - is the empty name, which is the whole server's. A line that begins with # is a comment. \
Right after the catalogue there may be

  max N
      at most N changes are made while the server runs, and each later one is answered
      refused full; without it 4294967295. It is for a test, or to stop a client that
      makes changes without end

and after these, in any order:

  register NAME threshold F [R [unknown]]
      down from F failures in a row until R passes in a row (R is 1 if omitted);
      with unknown, its status is UNKNOWN until its first pass or fail
  register NAME manual
  register NAME depends NAME..
      up where all of these services are, each of which stands further left in the
      catalogue than NAME
  retire NAME
  pass NAME, fail NAME
      for a service with a threshold
  up NAME, down NAME
      for a manual service
  expect NAME S
      down if it is not reported for S seconds, 1 to 86400; 0 ends it
  shutdown
      every service is NOT_SERVING, and pass, fail, up and down are ignored,
      until resume
  resume
      each service begins anew

A change that is not answered done or replaced ends the run before anything listens.";

/// Which script may be replayed.
pub(crate) const REPLAY_HELP: &str = "\
The script has a line max right after the catalogue, and no comments. To look at a script for run, \
which may have comments and needs no max, use healthd run --check.";

/// What may be told and asked.
pub(crate) const TELL_HELP: &str = "\
Each line has one answer, which is printed before the next line is sent; an empty line has none. \
A line is one of

  pass, fail, up, down, register, retire, shutdown, resume, expect
      a change, as in a script
  check NAME, list, why NAME, status NAME, entry N, board, stats
      a question
  stop
      the server is to end

The exit status is 3 if an answer is one of

  refused .., missing, wrong kind, ignored
      no service was changed
  bad line, line too long
      the line was not understood
  not allowed, not a session
      the place does not take such a line

and 0 if there is no such answer. Standard error says what is wrong with a line that is answered \
bad line, wrong kind or refused bad rule.

Where an answer takes longer than --timeout, tell ends with \
timed out, the change may still be made, and exit status 1.";

/// How `stop` ends.
pub(crate) const STOP_HELP: &str = "\
It sends the line stop, prints the answer, and waits until nobody listens at the control place any \
more. Open Watches end with their trailers, and requests that are being read are answered. The exit \
status is 0 then, 3 if the server has not stopped in time or does not take the line there, and 1 if \
nobody listens there at the start.";

/// What `status` prints.
pub(crate) const STATUS_HELP: &str = "\
The table tells since when each service has its status and why, how often it has to be reported, \
and when it was reported last. Times are in UTC. On a terminal statuses have colours, unless the \
environment variable NO_COLOR is set and not empty. For example

  healthd status --control /run/healthd/control
  healthd status --control 127.0.0.1:8082 --json";

/// What `history` prints.
pub(crate) const HISTORY_HELP: &str = "\
Each entry is a line: its place, when it was made and by whom, the change, and what it came to. \
For example

  healthd history --control /run/healthd/control --last 20
  healthd history --control /run/healthd/control --last 0 --follow --json

With --follow it ends with exit status 0 when the server stops.";

/// What `journal` prints.
pub(crate) const JOURNAL_HELP: &str = "\
Each entry is a line as healthd history has it: its place in the history, when it was made and by \
whom, the change, and what it came to. The first entries of a file that was written anew stand for \
older ones, and have - for their place. The file is only read, also while a server writes \
it. For example

  healthd journal /var/lib/healthd/journal
  healthd journal /var/lib/healthd/journal --json";

/// What may be looked at.
pub(crate) const OBSERVE_HELP: &str = "\
Each target is the name of a service and what is looked at for it:

  NAME=tcp://HOST:PORT
      a connection is taken
  NAME=http://HOST:PORT/PATH
      a GET is answered with a status from 200 to 399
  NAME=grpc-web://HOST:PORT/SERVICE
      a Check of SERVICE, at another healthd, is answered SERVING

A look that passes is told as pass NAME, and one that fails, or takes longer than --timeout, as \
fail NAME. Looks are spread over the time between them, and names of hosts are looked up for each. \
Where the server cannot be told, observe tries again, once a second at most; what could not be told is not kept. \
With --once it looks once at each target, prints what each was, and ends with exit status 0, or 3 if \
one failed, or 1 if one could not be told. For example

  healthd observe --control /run/healthd/report db=tcp://10.0.0.5:5432
  healthd observe --control 127.0.0.1:8082 --every 1 --timeout 0.5 web=http://10.0.0.6:80/live";
