ghost use Rattle.std.specs.Prelude.{◌≡◌, ◌≢◌, ◌⊎◌, ℕ, List, Ok, IfOk, IfErr, IsErrOf};
ghost use Rattle.hex.specs.Hex.{decode_of};

use crate::answer::answer_body;
use crate::fault::Fault;
use crate::service::parse_services;
use clap::ArgMatches;
use hex::FromHexError;
use std::alloc::Global;

/// The command `body HEX [SERVICE..]`.
pub fn run(rt: &(impl Print + AllocGlobal), matches: &ArgMatches<'_>) -> Result<(), Fault> {
    let text = answer_in(rt.alloc(), matches)?;
    match println!(rt; "{text}") {
        Ok(()) => Ok(()),
        Err(_) => Err(Fault::Write),
    }
}

/// The digits of the answer to what the command line has.
fn answer_in(alloc: Global, matches: &ArgMatches<'_>) -> Result<String, Fault> {
    let body = decode(alloc, matches.get_str("HEX").unwrap_or(""))?;
    let list = parse_services(alloc, matches.get_strs("SERVICE").unwrap_or(&[]))?;
    let answer = answer_body(alloc, &list, &body)?;
    Ok(hex::encode(alloc, answer.as_slice())?)
}

/// Digits in both cases.
fn decode(alloc: Global, text: &str) -> Result<Vec<u8>, Fault>
    ensures ok { IfOk result (λ bytes. decode_of text.now ≡ Ok bytes.items) }
    ensures bad { IsErrOf result Fault.BadHex → (bytes : List ℕ) → decode_of text.now ≢ Ok bytes }
    ensures only { IfErr result (λ fault. (fault ≡ Fault.BadHex) ⊎ (fault ≡ Fault.OutOfMemory)) }
{
    match hex::decode(alloc, text) {
        Ok(bytes) => Ok(bytes),
        Err(FromHexError::OutOfMemory) => Err(Fault::OutOfMemory),
        Err(_) => Err(Fault::BadHex),
    }
}
