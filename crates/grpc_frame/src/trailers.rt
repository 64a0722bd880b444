ghost use Rattle.std.specs.Prelude.{◌≡◌, ◌+◌, ◌^◌, ◌<◌, ◌≤◌, ◌++◌, if◌then◌else◌, length, vec_len, vec_capacity, IsTrue, Some, None, Ok, Err, IfOk, IfErr, OnOk, OnErr};
ghost use Rattle.std.specs.Char.{is_ascii_digit};
ghost use Rattle.std.specs.List.{list_all};
ghost use Rattle.std.specs.Str.Parse.{digits_value};
ghost use Rattle.grpc_frame.specs.Frame.{frame};
ghost use Rattle.grpc_frame.specs.Trailers.{header_line, text_line, block, IsStatusText, is_number, trailers_in};
ghost use Rattle.grpc_frame.specs.Lines.{lines};

use crate::frame::open_frame;
use crate::lines::{have_colons, value_of};
use crate::{Code, NoMemory, TrailerFault};

const TRAILERS: u8 = 0x80;

const STATUS: &[u8] = b"grpc-status:";

const TEXT: &[u8] = b"grpc-message:";

const LINE_END: &[u8] = b"\r\n";

/// What the trailers of a response tell: the number of a status, and its text.
#[derive(Clone, Copy)]
pub struct Trailers<'a> {
    pub code: u32,
    pub text: &'a [u8],
}

/// Appends the frame of a response's trailers, which PROTOCOL-WEB.md of grpc puts last in the body. The text of `Ok` is left out.
pub fn put_trailers(out: &mut Vec<u8>, code: Code, text: &str) -> Result<(), NoMemory>
    requires status_text { IsStatusText text.now }
    ensures ok { OnOk result (out.new.items ≡ out.old.items ++ frame 128 (block code text.now)) }
    ensures err { OnErr result (out.new.items ≡ out.old.items) }
    ensures capacity { vec_capacity out.old ≤ vec_capacity out.new }
    ensures full { OnErr result
        (vec_capacity out.old < vec_len out.old + length (frame 128 (block code text.now))) }
{
    open_frame(out, TRAILERS, block_len(code, text))?;
    put_block(out, code, text);
    Ok(())
}

fn block_len(code: Code, text: &str) -> usize
    requires { length text.now ≤ 128 }
    ensures value { result ≡ length (block code text.now) }
    ensures small { result < 2 ^ 32 }
{
    let status = STATUS.len() + code.digits().len() + LINE_END.len();
    if code.number() == 0 {
        return status;
    }
    status + TEXT.len() + text.len() + LINE_END.len()
}

fn put_block(out: &mut Vec<u8>, code: Code, text: &str)
    requires { vec_len out.old + length (block code text.now) ≤ vec_capacity out.old }
    ensures items { out.new.items ≡ out.old.items ++ block code text.now }
    ensures capacity { vec_capacity out.old ≤ vec_capacity out.new }
{
    put_line(out, STATUS, code.digits());
    put_text(out, code, text);
}

fn put_text(out: &mut Vec<u8>, code: Code, text: &str)
    requires { vec_len out.old + length (text_line code text.now) ≤ vec_capacity out.old }
    ensures items { out.new.items ≡ out.old.items ++ text_line code text.now }
    ensures capacity { vec_capacity out.old ≤ vec_capacity out.new }
{
    if code.number() != 0 {
        put_line(out, TEXT, text.as_bytes());
    }
}

fn put_line(out: &mut Vec<u8>, name: &[u8], value: &[u8])
    requires { vec_len out.old + length (header_line name.now value.now) ≤ vec_capacity out.old }
    ensures items { out.new.items ≡ out.old.items ++ header_line name.now value.now }
    ensures capacity { vec_capacity out.old ≤ vec_capacity out.new }
{
    out.extend_from_slice(name).unwrap();
    out.extend_from_slice(value).unwrap();
    out.extend_from_slice(LINE_END).unwrap();
}

/// Reads the block of lines in the last frame of a response. Lines of other names are skipped, and the first of a name counts.
pub fn read_trailers(block: &[u8]) -> Result<Trailers<'_>, TrailerFault>
    ensures value { IfOk result (λ read.
        trailers_in (lines block.now) ≡ Ok (read.code, read.text.now)) }
    ensures fault { IfErr result (λ fault. trailers_in (lines block.now) ≡ Err fault) }
{
    if !have_colons(block) {
        return Err(TrailerFault::NoColon);
    }
    let Some(digits) = value_of(block, b"grpc-status") else {
        return Err(TrailerFault::NoStatus);
    };
    let Some(code) = number(digits) else {
        return Err(TrailerFault::BadStatus);
    };
    let text = value_of(block, b"grpc-message").unwrap_or(&[]);
    Ok(Trailers { code, text })
}

fn number(digits: &[u8]) -> Option<u32>
    ensures { result ≡ (if is_number digits.now then Some (digits_value 10 digits.now) else None) }
{
    if is_number(digits) {
        Some(value_of_digits(digits))
    } else {
        None
    }
}

fn is_number(digits: &[u8]) -> bool
    ensures { result ≡ is_number digits.now }
{
    !digits.is_empty() && digits.len() <= 9 && all_digits(digits)
}

fn all_digits(text: &[u8]) -> bool
    ensures { result ≡ list_all is_ascii_digit text.now }
{
    text.iter().all(|c| c.is_ascii_digit())
}

fn value_of_digits(digits: &[u8]) -> u32
    requires digits { IsTrue (list_all is_ascii_digit digits.now) }
    requires short { length digits.now ≤ 9 }
    ensures { result ≡ digits_value 10 digits.now }
{
    let mut number = 0;
    for digit in digits {
        number = number * 10 + u32::from(*digit - b'0');
    }
    number
}
