//! The status as metrics, in the text format of Prometheus, version 0.0.4.

ghost use Rattle.std.specs.Prelude.{◌≡◌, ◌++◌, map, flat_map, IfOk, OnOk, string_bytes};
ghost use Rattle.mud_status.specs.Metrics.{about_text, counter, gauge, metric_text, server_metrics_of};
ghost use Rattle.mud_status.specs.Metrics.{session_metrics_of, volume_metrics_of, refused_text, metrics_text};
ghost use Rattle.mud_status.specs.inner.Rows.{metric_of};

use crate::status::Status;
use std::alloc::{AllocError, Global};
use std::fmt::Write;

// A metric: its name, type, help text and value.
#[derive(Clone, Copy)]
struct Metric {
    name: &'static str,
    kind: &'static str,
    help: &'static str,
    value: u64,
}

// Returns a metric whose value may fall.
fn gauge(name: &'static str, help: &'static str, value: u64) -> Metric
    ensures { metric_of result ≡ gauge name.now help.now value }
{
    Metric {
        name,
        kind: "gauge",
        help,
        value,
    }
}

// Returns a metric whose value only grows while the server runs.
fn counter(name: &'static str, help: &'static str, value: u64) -> Metric
    ensures { metric_of result ≡ counter name.now help.now value }
{
    Metric {
        name,
        kind: "counter",
        help,
        value,
    }
}

// Returns the metrics of the server and its world.
fn server_metrics_of(status: &Status<'_>) -> [Metric; 7]
    ensures { map metric_of result ≡ server_metrics_of status.now }
{
    let well = status.health.as_number();
    [
        gauge(
            "mud_start_time_seconds",
            "Time of the server's start, in seconds since 1970.",
            status.since_seconds,
        ),
        gauge(
            "mud_well",
            "1 if the server accepts connections and changes.",
            well,
        ),
        gauge("mud_changes", "Changes in the history.", status.changes),
        gauge(
            "mud_changes_most",
            "Greatest number of changes in the history.",
            status.most_changes,
        ),
        gauge(
            "mud_synced_changes",
            "Changes that the journal has synced.",
            status.synced,
        ),
        gauge("mud_objects", "Objects in the world.", status.objects),
        gauge(
            "mud_objects_most",
            "Greatest number of objects in the world.",
            status.most_objects,
        ),
    ]
}

// Returns the metrics of the sessions and their lines.
fn session_metrics_of(status: &Status<'_>) -> [Metric; 7]
    ensures { map metric_of result ≡ session_metrics_of status.now }
{
    [
        gauge("mud_sessions", "Sessions.", status.sessions),
        gauge(
            "mud_sessions_most",
            "Greatest number of sessions.",
            status.most_sessions,
        ),
        gauge("mud_players", "Sessions with a player.", status.players),
        counter(
            "mud_sessions_begun_total",
            "Sessions that have begun.",
            status.begun,
        ),
        counter("mud_lines_total", "Answered lines.", status.lines),
        counter(
            "mud_changes_made_total",
            "Changes made since the start.",
            status.made,
        ),
        counter(
            "mud_lines_waited_total",
            "Lines that had to wait for a limit.",
            status.waited,
        ),
    ]
}

// Returns the metrics of the volumes of a journal.
fn volume_metrics_of(status: &Status<'_>) -> [Metric; 4]
    ensures { map metric_of result ≡ volume_metrics_of status.now }
{
    [
        gauge(
            "mud_volume",
            "Number of the journal's volume.",
            status.volume,
        ),
        gauge(
            "mud_changes_taken",
            "Changes that the world takes by itself, if most of a volume.",
            status.taken,
        ),
        counter("mud_turns_total", "Turns to a next volume.", status.turns),
        counter(
            "mud_turns_called_off_total",
            "Turns that were called off.",
            status.calls_off,
        ),
    ]
}

// Appends the help text and the type of a metric.
fn write_about(text: &mut String, name: &str, kind: &str, help: &str) -> Result<(), AllocError>
    ensures { OnOk result (string_bytes text.new ≡ string_bytes text.old ++ about_text name.now kind.now help.now) }
{
    write!(text, "# HELP {name} {help}\n# TYPE {name} {kind}\n")
}

// Appends a metric: help text, type, name and value.
fn write_metric(text: &mut String, metric: Metric) -> Result<(), AllocError>
    ensures { OnOk result (string_bytes text.new ≡ string_bytes text.old ++ metric_text (metric_of metric)) }
{
    let (name, value) = (metric.name, metric.value);
    write_about(text, name, metric.kind, metric.help)?;
    writeln!(text, "{name} {value}")
}

// Appends these metrics.
fn write_metrics(text: &mut String, metrics: &[Metric]) -> Result<(), AllocError>
    ensures { OnOk result (string_bytes text.new
        ≡ string_bytes text.old ++ flat_map metric_text (map metric_of metrics.now)) }
{
    for metric in metrics {
        write_metric(text, *metric)?;
    }
    Ok(())
}

// Appends the number of connections that were refused for a reason.
fn write_refused(text: &mut String, why: &str, value: u64) -> Result<(), AllocError>
    ensures { OnOk result (string_bytes text.new ≡ string_bytes text.old ++ refused_text why.now value) }
{
    text.push_str("mud_refused_total{why=\"")?;
    text.push_str(why)?;
    text.push_str("\"} ")?;
    writeln!(text, "{value}")
}

/// Returns the metrics of a status. The only error is out of memory.
pub fn metrics_text(alloc: Global, status: &Status<'_>) -> Result<String, AllocError>
    ensures { IfOk result (λ text. string_bytes text ≡ metrics_text status.now) }
{
    let mut text = String::new(alloc);
    write_about(
        &mut text,
        "mud_build_info",
        "gauge",
        "The program's version.",
    )?;
    text.push_str("mud_build_info{version=\"")?;
    text.push_str(status.version)?;
    text.push_str("\"} 1\n")?;
    write_metrics(&mut text, &server_metrics_of(status))?;
    write_metrics(&mut text, &session_metrics_of(status))?;
    write_metrics(&mut text, &volume_metrics_of(status))?;
    write_about(
        &mut text,
        "mud_refused_total",
        "counter",
        "Refused connections, by reason.",
    )?;
    write_refused(&mut text, "full", status.refused_full)?;
    write_refused(&mut text, "address", status.refused_address)?;
    write_refused(&mut text, "banned", status.refused_banned)?;
    write_refused(&mut text, "often", status.refused_often)?;
    write_refused(&mut text, "request", status.refused_request)?;
    Ok(text)
}
