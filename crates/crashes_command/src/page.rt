// The table of crashes as an HTML page.
use crate::printed::Printed;
use crate::text::{Touched, word_of};
use crash_states::{Call, MOST_MIXTURES, Row, VolumePlaces};
use machine::{Outcome, Reply};
use std::alloc::Allocator;
use std::{fmt, io};

const HEAD: &str = "<!DOCTYPE html>
<html lang=\"en\">
<head>
<meta charset=\"utf-8\">
<title>famsync: what a crash leaves</title>
<style>
body { font: 16px/1.45 system-ui, sans-serif; color: #1b1f24; background: #fff; max-width: 62rem; margin: 2rem auto;
  padding: 0 1rem; }
h1 { font-size: 1.5rem; }
table { border-collapse: collapse; width: 100%; }
th, td { text-align: left; padding: .25rem .6rem; vertical-align: baseline; }
thead th { border-bottom: 2px solid #57606a; }
tbody tr { border-top: 1px solid #d8dee4; }
.n { text-align: right; font-variant-numeric: tabular-nums; }
.reply td { color: #57606a; font: 13px/1.3 ui-monospace, monospace; padding-top: 0; padding-bottom: 0; border: 0; }
tr.reply { border: 0; }
tr.durable td { color: #116329; font-weight: 600; }
.m { display: inline-block; padding: 0 .5rem; margin: .1rem .4rem .1rem 0; border-radius: .3rem; border: 1px solid; }
.m0 { background: #f6f8fa; border-color: #8c959f; color: #1b1f24; }
.m1 { background: #dafbe1; border-color: #2da44e; color: #0b4a1c; }
.m2 { background: #ddf4ff; border-color: #218bff; color: #0a3069; }
.m3 { background: #fff3d6; border-color: #bf8700; color: #4d2d00; }
.m4 { background: #fbefff; border-color: #a475f9; color: #3e1f79; }
.m5 { background: #ffeff7; border-color: #e85aad; color: #611347; }
</style>
</head>
<body>
<h1>What a crash leaves</h1>
<p>Each row is a device call of the run. The run was made again on copies of the volume, up to this call and into it, and
cut off there by a crash. Whatever was written since the last sync is then old, new, spoilt, or some of each; each such
state was opened, and its files compared with those before the run (mark 0) and at each mark.</p>
<p>That a crash leaves the files at a mark, whole, and never older than the last mark that was acknowledged, is proved of
the engine that made these runs, whatever the steps are and wherever the crash comes. The premise is that a disk keeps
what it has synced, and changes nothing that isn't written.</p>
<table>
<thead><tr><th class=\"n\">Call</th><th>Does</th><th>Part</th><th class=\"n\">Bytes</th><th>Files found after a crash
within it</th></tr></thead>
<tbody>
";

/// Writes the part of the page before the rows.
pub fn begin_page<W: io::Write>(out: &mut W) -> io::Result<()> {
    out.write_all(HEAD.as_bytes())
}

/// Writes a row for a reply.
pub fn reply_on_page<W: io::Write>(reply: &Reply, out: &mut W) -> io::Result<()> {
    let class = match reply.outcome() {
        Outcome::Marked(_) | Outcome::Committed(_) => "reply durable",
        Outcome::Unmarked | Outcome::Other | Outcome::Nothing | Outcome::Refused(_) => "reply",
    };
    writeln!(
        out,
        "<tr class=\"{class}\"><td></td><td colspan=\"4\">{reply}</td></tr>"
    )
}

// A text between tags, with its markup characters escaped.
#[derive(Clone, Copy)]
struct Shown<'a>(&'a str);

impl fmt::Display for Shown<'_> {
    fn fmt<W: fmt::Write>(&self, f: &mut fmt::Formatter<W>) -> fmt::Result {
        for letter in self.0.chars() {
            match letter {
                '<' => f.write_str("&lt;")?,
                '>' => f.write_str("&gt;")?,
                '&' => f.write_str("&amp;")?,
                _ => write!(f, "{letter}")?,
            }
        }
        Ok(())
    }
}

/// Writes a row for a call, or for the end of the run if `call` is `None`.
pub fn row_on_page<A: Allocator + Copy, W: io::Write>(
    alloc: A,
    places: &VolumePlaces<A>,
    call: Option<&Call<A>>,
    row: &Row<A>,
    out: &mut W,
) -> io::Result<()> {
    match call {
        Some(call) => {
            let number = row.number;
            let word = word_of(call.kind);
            let touched = format!(in alloc; "{}", Touched { places, call })?;
            let touched = Shown(touched.as_str());
            let bytes = call.len;
            write!(
                out,
                "<tr><td class=\"n\">{number}</td><td>{word}</td><td>{touched}</td><td class=\"n\">{bytes}</td><td>"
            )?;
        }
        None => write!(
            out,
            "<tr><td class=\"n\">end</td><td colspan=\"3\">after the last call</td><td>"
        )?,
    }
    for mark in 0..=row.newest() {
        let states = row.count(mark);
        if states > 0 {
            let class = color_of(mark);
            write!(
                out,
                "<span class=\"m m{class}\">mark {mark} &times;{states}</span>"
            )?;
        }
    }
    writeln!(out, "</td></tr>")
}

// Mark 0 has its own colour, and the other marks use five colours in turn.
fn color_of(mark: u32) -> u32 {
    if mark == 0 { 0 } else { 1 + (mark - 1) % 5 }
}

/// Writes the part of the page after the rows, with the totals.
pub fn end_page<W: io::Write>(printed: Printed, out: &mut W) -> io::Result<()> {
    let Printed { calls, states } = printed;
    writeln!(
        out,
        "</tbody>
</table>
<p>{calls} calls, {states} crash states opened. Of blocks that are written and not synced, at most {MOST_MIXTURES}
mixtures of old and new ones were tried for each call.</p>
</body>
</html>"
    )
}
