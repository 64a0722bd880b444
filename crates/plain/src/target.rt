ghost use Rattle.std.specs.Prelude.{◌≡◌, ◌≤◌, length, position, true};
ghost use Rattle.std.specs.List.{list_any};
ghost use Rattle.plain.specs.Target.{is_call, is_question, is_slash, is_status, path_of, resource_at, resource_of};

const PAGE: &[u8] = b"/";

const HEALTHZ: &[u8] = b"/healthz";

const SERVICES: &[u8] = b"/services";

const METRICS: &[u8] = b"/metrics";

/// What stands before the name of a service.
const STATUS: &[u8] = b"/status/";

const CHECK: &[u8] = b"/grpc.health.v1.Health/Check";

const WATCH: &[u8] = b"/grpc.health.v1.Health/Watch";

/// What the path of a request names.
#[derive(Clone, Copy)]
pub(crate) enum Target<'a> {
    /// The status of the service whose name stands escaped there.
    Status(&'a [u8]),
    Services,
    Metrics,
    Page,
    /// A method of gRPC's health service.
    Call,
    Nothing,
}

/// What the target of a request names, whatever its query.
pub(crate) fn target_of(target: &[u8]) -> Target<'_>
    ensures { resource_of result ≡ resource_at (path_of target.now) }
{
    target_at(path_of(target))
}

fn path_of(target: &[u8]) -> &[u8]
    ensures { result.now ≡ path_of target.now }
{
    match question_at(target) {
        Some(at) => &target[..at],
        None => target,
    }
}

fn question_at(target: &[u8]) -> Option<usize>
    ensures { result ≡ position is_question target.now }
{
    target.iter().position(|c| *c == b'?')
}

fn target_at(path: &[u8]) -> Target<'_>
    ensures { resource_of result ≡ resource_at path.now }
{
    if path == PAGE {
        Target::Page
    } else if path == HEALTHZ {
        Target::Status(b"")
    } else if path == SERVICES {
        Target::Services
    } else if path == METRICS {
        Target::Metrics
    } else if is_call(path) {
        Target::Call
    } else if is_status(path) {
        Target::Status(&path[STATUS.len()..])
    } else {
        Target::Nothing
    }
}

fn is_call(path: &[u8]) -> bool
    ensures { result ≡ is_call path.now }
{
    path == CHECK || path == WATCH
}

fn is_status(path: &[u8]) -> bool
    ensures value { result ≡ is_status path.now }
    ensures room { result ≡ true → 8 ≤ length path.now }
{
    path.starts_with(STATUS) && !has_slash(&path[STATUS.len()..])
}

fn has_slash(segment: &[u8]) -> bool
    ensures { result ≡ list_any is_slash segment.now }
{
    segment.iter().any(|c| *c == b'/')
}
