use crate::asking_place::{AskingPlace, asking_over, connect_to, print_text};
use crate::show_failure::ShowFailure;
use crate::timed_control::AnswerTime;
use clap::ArgMatches;
use control::Place;
use readout::{Row, names_in, read_standing, rows_json, table};
use std::alloc::{AllocError, Global};
use std::env::FillError;
use std::io;
use std::io::{Read, Write};
use std::net::{Net, TcpStream};
use std::rt::Env;
use std::time::{Clock, Duration};

/// How an answer to `stats` ends where the journal can't be written.
const NOT_WRITABLE: &str = " writable 0";

/// What stands over the services then.
const NOT_STORED: &str = "journal not writable: no change takes effect";

/// How services are printed.
#[derive(Clone, Copy)]
pub enum Form {
    Table,
    /// A table whose statuses have colours.
    ColouredTable,
    Json,
}

/// The form that a command line asks for. A table has colours on a terminal, unless the environment forbids them.
pub fn form_in<R: Env>(rt: &R, matches: &ArgMatches<'_>) -> Form {
    if matches.get_flag("json") {
        Form::Json
    } else if is_output_terminal() && !forbids_colours(rt) {
        Form::ColouredTable
    } else {
        Form::Table
    }
}

fn is_output_terminal() -> bool {
    libc::isatty(libc::STDOUT_FILENO) == 1
}

/// Whether `NO_COLOR` has a byte.
fn forbids_colours<R: Env>(rt: &R) -> bool {
    let mut value = [0u8; 1];
    !matches!(
        rt.var("NO_COLOR", &mut value),
        Ok(0) | Err(FillError::NotPresent)
    )
}

/// The command `status`.
pub fn run_status<'a, R>(
    rt: &R,
    place: Place<'a>,
    timeout: Duration,
    form: Form,
) -> Result<(), ShowFailure<'a>>
where
    R: Print + Clock + AllocGlobal + Net<Stream = TcpStream>,
{
    let alloc = rt.alloc();
    let client = connect_to(rt, place, timeout)?;
    let time = AnswerTime::new(timeout);
    let mut asked = asking_over(rt, alloc, place, &client, &time)?;
    show_status(&mut asked, &mut io::writer(rt), form)
}

/// Asks how each service stands, and prints all of them in this form.
pub fn show_status<'a, R: Read + Drop, W: Write + Drop, O: Write>(
    asked: &mut AskingPlace<'a, R, W>,
    output: &mut O,
    form: Form,
) -> Result<(), ShowFailure<'a>> {
    let rows = ask_rows(asked)?;
    let text = text_of(asked, &rows, form)?;
    print_text(output, &text)
}

fn text_of<'a, R: Read + Drop, W: Write + Drop>(
    asked: &mut AskingPlace<'a, R, W>,
    rows: &[Row],
    form: Form,
) -> Result<String, ShowFailure<'a>> {
    let alloc = asked.alloc();
    let is_coloured = match form {
        Form::Json => return Ok(rows_json(alloc, rows)?),
        Form::Table => false,
        Form::ColouredTable => true,
    };
    let is_writable = !asked.ask("stats")?.ends_with(NOT_WRITABLE);
    let table = table(alloc, rows, is_coloured)?;
    if is_writable {
        return Ok(table);
    }
    Ok(format!(in alloc; "{NOT_STORED}\n{table}")?)
}

/// How each service of the server's list stands.
fn ask_rows<'a, R: Read + Drop, W: Write + Drop>(
    asked: &mut AskingPlace<'a, R, W>,
) -> Result<Vec<Row>, ShowFailure<'a>> {
    let list = asked.ask("list")?;
    let rows = rows_of(asked, &list)?;
    if rows.is_empty() {
        return Err(asked.unexpected(list));
    }
    Ok(rows)
}

/// How each service of this list stands.
fn rows_of<'a, R: Read + Drop, W: Write + Drop>(
    asked: &mut AskingPlace<'a, R, W>,
    list: &str,
) -> Result<Vec<Row>, ShowFailure<'a>> {
    let alloc = asked.alloc();
    let names = names_in(alloc, list)?;
    let mut rows = Vec::new(alloc);
    for name in &names {
        rows.push(ask_row(asked, name)?)?;
    }
    Ok(rows)
}

/// How the service of this name stands, which is `-` for the whole server.
fn ask_row<'a, R: Read + Drop, W: Write + Drop>(
    asked: &mut AskingPlace<'a, R, W>,
    name: &str,
) -> Result<Row, ShowFailure<'a>> {
    let alloc = asked.alloc();
    let mut line = String::from_str(alloc, "status ")?;
    line.push_str(name)?;
    let answer = asked.ask(&line)?;
    match read_standing(alloc, name, &answer)? {
        Some(row) => Ok(row),
        None => Err(asked.unexpected(answer)),
    }
}
