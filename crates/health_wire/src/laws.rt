//! What holds of the wire format itself, whatever reads or writes it.

ghost use Rattle.std.specs.Prelude.{◌≡◌, ◌<◌, ◌^◌, ℕ, List, length};
ghost use Rattle.std.specs.Str.{IsUtf8};
ghost use Rattle.health_wire.specs.declared.fault.WireFault.{WireFault};
ghost use Rattle.health_wire.specs.declared.serving.Serving.{Serving};
ghost use Rattle.health_wire.specs.Field.{WireField};
ghost use Rattle.health_wire.specs.Message.{IsMessage, IsFault};
ghost use Rattle.health_wire.specs.Request.{IsRequest, IsRequestBytes, IsRequestFault, service_of, written_service};
ghost use Rattle.health_wire.specs.Response.{IsResponse, response_bytes};
ghost use Rattle.health_wire.specs.Serving.{serving_number};
ghost use Rattle.health_wire.specs.Varint.{AreBytes, IsShortestVarint};

/// Bytes have one reading at most: one list of fields, or one first fault, and never both.
pub fn one_reading()
    ensures fields { (bytes : List ℕ) (a b : List WireField)
        → IsMessage bytes a → IsMessage bytes b → a ≡ b }
    ensures fault { (bytes : List ℕ) (a b : WireFault)
        → IsFault bytes a → IsFault bytes b → a ≡ b }
    ensures either { (bytes : List ℕ) (a : List WireField) (b : WireFault)
        → IsMessage bytes a → IsFault bytes b → ⊥ }
{}

/// Bytes are one request at most: they have one name, or one fault, and never a fault where the name is text.
pub fn one_request()
    ensures name { (bytes a b : List ℕ) → IsRequest bytes a → IsRequest bytes b → a ≡ b }
    ensures fault { (bytes : List ℕ) (a b : WireFault)
        → IsRequestFault bytes a → IsRequestFault bytes b → a ≡ b }
    ensures either { (bytes name : List ℕ) (fault : WireFault)
        → IsRequest bytes name → IsUtf8 name → IsRequestFault bytes fault → ⊥ }
{}

/// What is written is read back. A name in memory is shorter than 2^64 bytes.
pub fn round_trip()
    ensures request { (bytes name : List ℕ) → length name < 2 ^ 64
        → IsRequestBytes bytes name → IsRequest bytes name }
    ensures service { (bytes name : List ℕ) (fields : List WireField) → length name < 2 ^ 64
        → IsRequestBytes bytes name → IsMessage bytes fields
        → service_of fields ≡ written_service name }
    ensures response { (status : Serving)
        → IsResponse (response_bytes status) (serving_number status) }
{}

/// A value has one shortest spelling, so a name is written in one way.
pub fn one_spelling()
    ensures varint { (a b : List ℕ) (value : ℕ) → AreBytes a → AreBytes b
        → IsShortestVarint a value → IsShortestVarint b value → a ≡ b }
    ensures request { (a b name : List ℕ) → AreBytes a → AreBytes b
        → IsRequestBytes a name → IsRequestBytes b name → a ≡ b }
{}
