ghost use Rattle.std.specs.Prelude.{◌≡◌, ◌⊎◌, ℕ, List, Any, IfOk, IfErr, IsErrOf};
ghost use Rattle.std.specs.String.{string_bytes};
ghost use Rattle.commands.specs.Service.{IsServiceWord, IsNoServiceWord, AreServiceWords};

use crate::fault::Fault;
use health_wire::Serving;
use std::alloc::Global;

const SERVING: &str = "=serving";

const NOT_SERVING: &str = "=not_serving";

const UNKNOWN: &str = "=unknown";

/// Reads a word that gives a service its status, as `NAME=serving`. The name may have a `=` of its own.
pub fn parse_service(alloc: Global, word: &str) -> Result<(String, Serving), Fault>
    ensures ok { IfOk result (λ pair. IsServiceWord word.now (string_bytes pair.0) pair.1) }
    ensures bad { IsErrOf result Fault.BadService → IsNoServiceWord word.now }
    ensures only { IfErr result (λ fault. (fault ≡ Fault.BadService) ⊎ (fault ≡ Fault.OutOfMemory)) }
{
    if let Some(name) = word.strip_suffix(SERVING) {
        return Ok((String::from_str(alloc, name)?, Serving::Serving));
    }
    if let Some(name) = word.strip_suffix(NOT_SERVING) {
        return Ok((String::from_str(alloc, name)?, Serving::NotServing));
    }
    if let Some(name) = word.strip_suffix(UNKNOWN) {
        return Ok((String::from_str(alloc, name)?, Serving::Unknown));
    }
    Err(Fault::BadService)
}

/// Reads the words in their order, up to the first that gives no status.
pub fn parse_services(alloc: Global, words: &[&str]) -> Result<Vec<(String, Serving)>, Fault>
    ensures ok { IfOk result (λ list. AreServiceWords words.now list.items) }
    ensures bad { IsErrOf result Fault.BadService → Any (λ word. IsNoServiceWord word.now) words.now }
    ensures only { IfErr result (λ fault. (fault ≡ Fault.BadService) ⊎ (fault ≡ Fault.OutOfMemory)) }
{
    let mut list = Vec::new(alloc);
    for word in words {
        list.push(parse_service(alloc, word)?)?;
    }
    Ok(list)
}
