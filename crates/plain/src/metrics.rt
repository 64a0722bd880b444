ghost use Rattle.std.specs.Prelude.{◌≡◌, ◌≤◌, ◌++◌, flat_map, length, map, IfOk, OnOk};
ghost use Rattle.desk_core.specs.Board.{entries_in, status_in};
ghost use Rattle.plain.specs.Metrics.{build_text, ended_metrics, escaped_byte, expected_metrics, figures_text, history_metrics, label_of, label_text, level, metric_of, metric_text, metrics_text, number_sample, open_metrics, refused_metrics, reported_metrics, server_metrics, status_metrics, status_sample, writable};
ghost use Rattle.plain.specs.Slots.{texts_from};

use crate::figures::{Figures, Refused};
use crate::version::VERSION;
use desk_core::{Catalogue, Slot, board_entries, board_status};
use health_wire::Serving;
use std::alloc::{AllocError, Global};

const STATUS_FAMILY: &[u8] =
    b"# HELP healthd_service_status 1 if the service is serving, 0 if not, -1 if unknown or absent.\n# TYPE healthd_service_status gauge\n";

const REPORTED_FAMILY: &[u8] =
    b"# HELP healthd_last_report_timestamp_seconds When the service was reported last, 0 if not since the start.\n# TYPE healthd_last_report_timestamp_seconds gauge\n";

const EXPECTED_FAMILY: &[u8] =
    b"# HELP healthd_expected_seconds Every how many seconds a report is expected, 0 if none is.\n# TYPE healthd_expected_seconds gauge\n";

const BUILD: &[u8] =
    b"# HELP healthd_build_info The version of the program.\n# TYPE healthd_build_info gauge\nhealthd_build_info{version=\"";

/// A metric of one sample: all of its text before the value, and the value.
#[derive(Clone, Copy)]
pub(crate) struct Sample {
    before: &'static [u8],
    value: u64,
}

/// The statuses of all services on a board, how long its history is, and what the server counts.
pub(crate) fn metrics_text(
    alloc: Global,
    catalogue: &Catalogue,
    board: u64,
    figures: &Figures,
) -> Result<Vec<u8>, AllocError>
    ensures text { IfOk result (λ text. text.items
        ≡ metrics_text (entries_in board) (status_in board) catalogue.now figures.now) }
    ensures few { OnOk result (length catalogue.now ≤ 16) }
{
    let mut text = status_metrics(alloc, catalogue, board)?;
    push_samples(
        alloc,
        &mut text,
        &history_samples(board_entries(board), figures),
    )?;
    push_figures(alloc, &mut text, catalogue, figures)?;
    Ok(text)
}

fn status_metrics(alloc: Global, catalogue: &Catalogue, board: u64) -> Result<Vec<u8>, AllocError>
    ensures text { IfOk result (λ text. text.items
        ≡ status_metrics (status_in board) catalogue.now) }
    ensures few { OnOk result (length catalogue.now ≤ 16) }
{
    let mut text = STATUS_FAMILY.to_vec(alloc)?;
    push_statuses(&mut text, catalogue, board)?;
    Ok(text)
}

fn push_statuses(text: &mut Vec<u8>, catalogue: &Catalogue, board: u64) -> Result<(), AllocError>
    ensures pushed { OnOk result (text.new.items
        ≡ text.old.items ++ texts_from (status_sample (status_in board)) 0 catalogue.now) }
    ensures few { OnOk result (length catalogue.now ≤ 16) }
{
    for number in 0..catalogue.len() as u8 {
        let slot = Slot::new(number).unwrap();
        let name = catalogue.name(slot).unwrap();
        push_status(text, board, slot, name)?;
    }
    Ok(())
}

fn push_status(text: &mut Vec<u8>, board: u64, slot: Slot, name: &str) -> Result<(), AllocError>
    ensures { OnOk result (text.new.items
        ≡ text.old.items ++ status_sample (status_in board) slot name.now) }
{
    text.extend_from_slice(b"healthd_service_status{service=\"")?;
    push_label(text, name.as_bytes())?;
    text.extend_from_slice(b"\"} ")?;
    text.extend_from_slice(level(board_status(board, slot)))?;
    text.extend_from_slice(b"\n")?;
    Ok(())
}

/// A name; that of the whole server is empty, and a hyphen stands for it.
fn push_label(text: &mut Vec<u8>, name: &[u8]) -> Result<(), AllocError>
    ensures { OnOk result (text.new.items ≡ text.old.items ++ label_of name.now) }
{
    if name.is_empty() {
        text.extend_from_slice(b"-")
    } else {
        push_text(text, name)
    }
}

fn push_text(text: &mut Vec<u8>, name: &[u8]) -> Result<(), AllocError>
    ensures { OnOk result (text.new.items ≡ text.old.items ++ label_text name.now) }
{
    for c in name {
        push_escaped(text, *c)?;
    }
    Ok(())
}

fn push_escaped(text: &mut Vec<u8>, c: u8) -> Result<(), AllocError>
    ensures { OnOk result (text.new.items ≡ text.old.items ++ escaped_byte c) }
{
    if c == b'\\' {
        text.extend_from_slice(b"\\\\")
    } else if c == b'"' {
        text.extend_from_slice(b"\\\"")
    } else if c == b'\n' {
        text.extend_from_slice(b"\\n")
    } else {
        text.extend_from_slice(&[c])
    }
}

/// A status as a number.
fn level(status: Option<Serving>) -> &'static [u8]
    ensures { result.now ≡ level status }
{
    match status {
        Some(Serving::Serving) => b"1",
        Some(Serving::NotServing) => b"0",
        Some(Serving::Unknown | Serving::ServiceUnknown) | None => b"-1",
    }
}

/// What does not depend on the history.
fn push_figures(
    alloc: Global,
    text: &mut Vec<u8>,
    catalogue: &Catalogue,
    figures: &Figures,
) -> Result<(), AllocError>
    ensures { OnOk result (text.new.items
        ≡ text.old.items ++ figures_text catalogue.now figures.now) }
{
    push_reported(alloc, text, catalogue, figures)?;
    push_expected(alloc, text, catalogue, figures)?;
    push_build(text)?;
    push_samples(alloc, text, &server_samples(figures))?;
    push_samples(alloc, text, &open_samples(figures))?;
    push_samples(alloc, text, &ended_samples(figures))?;
    push_samples(alloc, text, &refused_samples(&figures.refused))?;
    Ok(())
}

fn push_reported(
    alloc: Global,
    text: &mut Vec<u8>,
    catalogue: &Catalogue,
    figures: &Figures,
) -> Result<(), AllocError>
    ensures { OnOk result (text.new.items
        ≡ text.old.items ++ reported_metrics figures.now catalogue.now) }
{
    text.extend_from_slice(REPORTED_FAMILY)?;
    let before = b"healthd_last_report_timestamp_seconds{service=\"";
    push_numbers(alloc, text, catalogue, before, &figures.reported)?;
    Ok(())
}

fn push_expected(
    alloc: Global,
    text: &mut Vec<u8>,
    catalogue: &Catalogue,
    figures: &Figures,
) -> Result<(), AllocError>
    ensures { OnOk result (text.new.items
        ≡ text.old.items ++ expected_metrics figures.now catalogue.now) }
{
    text.extend_from_slice(EXPECTED_FAMILY)?;
    let before = b"healthd_expected_seconds{service=\"";
    push_numbers(alloc, text, catalogue, before, &figures.expected)?;
    Ok(())
}

/// The number of each service, by its slot.
fn push_numbers(
    alloc: Global,
    text: &mut Vec<u8>,
    catalogue: &Catalogue,
    before: &[u8],
    numbers: &[u64; 16],
) -> Result<(), AllocError>
    ensures { OnOk result (text.new.items
        ≡ text.old.items ++ texts_from (number_sample before.now numbers.now) 0 catalogue.now) }
{
    for number in 0..catalogue.len() as u8 {
        let slot = Slot::new(number).unwrap();
        let name = catalogue.name(slot).unwrap();
        push_number(alloc, text, before, numbers, slot, name)?;
    }
    Ok(())
}

fn push_number(
    alloc: Global,
    text: &mut Vec<u8>,
    before: &[u8],
    numbers: &[u64; 16],
    slot: Slot,
    name: &str,
) -> Result<(), AllocError>
    ensures { OnOk result (text.new.items
        ≡ text.old.items ++ number_sample before.now numbers.now slot name.now) }
{
    let number = numbers[usize::from(slot.number())];
    text.extend_from_slice(before)?;
    push_label(text, name.as_bytes())?;
    text.extend_from_slice(b"\"} ")?;
    text.extend_from_slice(number.to_string(alloc)?.as_bytes())?;
    text.extend_from_slice(b"\n")?;
    Ok(())
}

fn push_build(text: &mut Vec<u8>) -> Result<(), AllocError>
    ensures { OnOk result (text.new.items ≡ text.old.items ++ build_text) }
{
    text.extend_from_slice(BUILD)?;
    text.extend_from_slice(VERSION.as_bytes())?;
    text.extend_from_slice(b"\"} 1\n")?;
    Ok(())
}

fn push_samples(alloc: Global, text: &mut Vec<u8>, samples: &[Sample]) -> Result<(), AllocError>
    ensures { OnOk result (text.new.items
        ≡ text.old.items ++ flat_map metric_text (map metric_of samples.now)) }
{
    for sample in samples {
        push_sample(alloc, text, sample)?;
    }
    Ok(())
}

fn push_sample(alloc: Global, text: &mut Vec<u8>, sample: &Sample) -> Result<(), AllocError>
    ensures { OnOk result (text.new.items
        ≡ text.old.items ++ metric_text (metric_of sample.now)) }
{
    text.extend_from_slice(sample.before)?;
    text.extend_from_slice(sample.value.to_string(alloc)?.as_bytes())?;
    text.extend_from_slice(b"\n")
}

fn history_samples(entries: u32, figures: &Figures) -> [Sample; 2]
    ensures { map metric_of result ≡ history_metrics entries figures.now }
{
    [
        Sample {
            before: b"# HELP healthd_entries_total Entries in the history of the registry.\n# TYPE healthd_entries_total counter\nhealthd_entries_total ",
            value: u64::from(entries),
        },
        Sample {
            before: b"# HELP healthd_entries_left Entries that may still be made.\n# TYPE healthd_entries_left gauge\nhealthd_entries_left ",
            value: u64::from(figures.most.saturating_sub(entries)),
        },
    ]
}

fn server_samples(figures: &Figures) -> [Sample; 2]
    ensures { map metric_of result ≡ server_metrics figures.now }
{
    [
        Sample {
            before: b"# HELP healthd_start_time_seconds When the server was started.\n# TYPE healthd_start_time_seconds gauge\nhealthd_start_time_seconds ",
            value: figures.started,
        },
        Sample {
            before: b"# HELP healthd_journal_writable 1 if the newest change could be stored, 0 if not.\n# TYPE healthd_journal_writable gauge\nhealthd_journal_writable ",
            value: writable(figures.is_writable),
        },
    ]
}

fn writable(is_writable: bool) -> u64
    ensures { result ≡ writable is_writable }
{
    if is_writable { 1 } else { 0 }
}

fn open_samples(figures: &Figures) -> [Sample; 3]
    ensures { map metric_of result ≡ open_metrics figures.now }
{
    [
        Sample {
            before: b"# HELP healthd_connections Connections that are open.\n# TYPE healthd_connections gauge\nhealthd_connections ",
            value: figures.connections,
        },
        Sample {
            before: b"# HELP healthd_watches Watches that are open.\n# TYPE healthd_watches gauge\nhealthd_watches ",
            value: figures.watches,
        },
        Sample {
            before: b"# HELP healthd_sessions Control sessions that are open.\n# TYPE healthd_sessions gauge\nhealthd_sessions ",
            value: figures.sessions,
        },
    ]
}

fn ended_samples(figures: &Figures) -> [Sample; 6]
    ensures { map metric_of result ≡ ended_metrics figures.now }
{
    [
        Sample {
            before: b"# HELP healthd_calls_total Connections that have ended.\n# TYPE healthd_calls_total counter\nhealthd_calls_total ",
            value: figures.calls,
        },
        Sample {
            before: b"# HELP healthd_given_up_total Connections whose time was up.\n# TYPE healthd_given_up_total counter\nhealthd_given_up_total ",
            value: figures.given_up,
        },
        Sample {
            before: b"# HELP healthd_gone_total Connections whose client went away before its answer.\n# TYPE healthd_gone_total counter\nhealthd_gone_total ",
            value: figures.gone,
        },
        Sample {
            before: b"# HELP healthd_behind_total Watches that ended since they were behind.\n# TYPE healthd_behind_total counter\nhealthd_behind_total ",
            value: figures.behind,
        },
        Sample {
            before: b"# HELP healthd_watches_refused_total Watches that ended because no place was free.\n# TYPE healthd_watches_refused_total counter\nhealthd_watches_refused_total ",
            value: figures.refused_watches,
        },
        Sample {
            before: b"# HELP healthd_expired_total Times that a service was not heard from in time.\n# TYPE healthd_expired_total counter\nhealthd_expired_total ",
            value: figures.expired,
        },
    ]
}

fn refused_samples(refused: &Refused) -> [Sample; 5]
    ensures { map metric_of result ≡ refused_metrics refused.now }
{
    [
        Sample {
            before: b"# HELP healthd_refused_total Changes that were refused, by cause.\n# TYPE healthd_refused_total counter\nhealthd_refused_total{cause=\"bad rule\"} ",
            value: refused.bad_rule,
        },
        Sample {
            before: b"healthd_refused_total{cause=\"full\"} ",
            value: refused.full,
        },
        Sample {
            before: b"healthd_refused_total{cause=\"no memory\"} ",
            value: refused.no_memory,
        },
        Sample {
            before: b"healthd_refused_total{cause=\"not listed\"} ",
            value: refused.not_listed,
        },
        Sample {
            before: b"healthd_refused_total{cause=\"not stored\"} ",
            value: refused.not_stored,
        },
    ]
}
