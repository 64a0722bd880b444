ghost use Rattle.std.specs.Prelude.{◌≡◌};
ghost use Rattle.web_call.specs.Method.{method_of};

const CHECK: &[u8] = b"/grpc.health.v1.Health/Check";

const WATCH: &[u8] = b"/grpc.health.v1.Health/Watch";

/// A method of gRPC's health service.
#[derive(Clone, Copy, Debug, PartialEq, Eq)]
pub enum Method {
    Check,
    Watch,
}

/// The method whose path the request target is.
pub(crate) fn method_of(target: &[u8]) -> Option<Method>
    ensures { result ≡ method_of target.now }
{
    if target == CHECK {
        Some(Method::Check)
    } else if target == WATCH {
        Some(Method::Watch)
    } else {
        None
    }
}
