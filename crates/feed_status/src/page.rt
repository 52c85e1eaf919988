//! The page.

use crate::escape::put_element;
use crate::health::Headline;
use crate::rows::{Row, rows_of};
use crate::screens::{HEADERS, WatchedScreen, put_screens};
use crate::servers::{SERVER_HEADERS, WatchedServer, put_servers};
use crate::status::Status;
use std::alloc::{AllocError, Global};

/// The page up to its title.
const HEAD: &str = r#"<!doctype html>
<html lang="en">
<head>
<meta charset="utf-8">
<meta name="viewport" content="width=device-width, initial-scale=1">
<noscript><meta http-equiv="refresh" content="5"></noscript>
<title>"#;

/// The page from behind its title up to the class of its headline.
const STYLE: &str = r#" - tunygarop</title>
<style>
:root { color-scheme: light dark; }
body { font: 1.1rem/1.4 system-ui, sans-serif; margin: 0; }
h1 { margin: 0; padding: 1.2rem; font-size: clamp(1.5rem, 4vw, 4.5rem); line-height: 1.2;
  color: #fff; overflow-wrap: anywhere; }
h2 { font-size: 1.2rem; margin: 0 0 0.4rem; }
.good { background: #16692c; }
.doubtful { background: #8a5300; }
.bad { background: #a31616; }
main { display: grid; grid-template-columns: minmax(0, 1fr); gap: 1.2rem 3rem; padding: 1.2rem; }
@media (min-width: 64rem) { main { grid-template-columns: minmax(0, 34rem) minmax(0, 1fr); } }
table { border-collapse: collapse; }
th { font-weight: normal; text-align: left; opacity: 0.75; }
th, td { padding: 0.1rem 1.2rem 0.1rem 0; vertical-align: top; overflow-wrap: anywhere; }
td { font-variant-numeric: tabular-nums; }
#rows th, #servers th, #servers td:first-child { white-space: nowrap; }
#servers td { overflow-wrap: normal; }
.wide { overflow-x: auto; margin: 0 0 1rem; }
#screens td:last-child, #screens th:last-child { text-align: right; padding-right: 0; }
figure { margin: 0 0 1rem; }
svg { width: 100%; height: 7rem; background: #8881; display: block; }
polyline { fill: none; stroke: #2a78d6; stroke-width: 2; vector-effect: non-scaling-stroke; }
.ages { display: flex; justify-content: space-between; opacity: 0.75; font-size: 0.9rem; }
@media (max-width: 30rem) {
  #rows th { white-space: normal; }
  th, td { padding-right: 0.6rem; }
  #screens, #servers { font-size: 0.9rem; }
}
</style>
</head>
<body>
<h1 id="headline" class=""#;

/// The page from the end of its headline up to its table.
const ROWS: &str = "</h1>\n<main>\n<section><table id=\"rows\"><tbody>\n";

/// The page between its table and that of the servers.
const SERVERS: &str = r##"</tbody></table></section>
<div id="side">
<section class="wide">
<h2>Servers</h2>
<table id="servers"><thead><tr>"##;

/// The page between the table of the servers and that of the screens.
const PLOTS: &str = r##"</tbody></table>
</section>
<section id="plots"></section>
<section class="wide">
<h2>Screens, the slowest first (at most 200)</h2>
<table id="screens"><thead><tr>"##;

/// The page from the end of the screens' table on.
const END: &str = r##"</tbody></table>
</section>
</div>
</main>
<script>
"use strict";
// The relay keeps a point for each of the last 600 seconds: its commits, its screens, and the time
// of its slowest commit, in microseconds.
const most = 600;
let second = -1;
let points = [];
const plots = [
  ["Commits a second", (point) => point[0]],
  ["Screens", (point) => point[1]],
  ["Slowest commit, in ms", (point) => point[2] / 1000],
];

async function told(path) {
  return (await fetch(path, { cache: "no-store" })).json();
}

function element(name, attributes) {
  const made = document.createElementNS("http://www.w3.org/2000/svg", name);
  for (const key in attributes) made.setAttribute(key, attributes[key]);
  return made;
}

function ages() {
  const line = document.createElement("div");
  line.className = "ages";
  for (const text of ["10 min ago", "5 min", "now"]) {
    const age = document.createElement("span");
    age.textContent = text;
    line.append(age);
  }
  return line;
}

function draw() {
  const place = document.getElementById("plots");
  place.replaceChildren();
  for (const [title, value] of plots) {
    const values = points.map(value);
    const top = Math.max(1, ...values);
    const left = most - values.length;
    const line = values.map((y, x) => `${left + x},${100 - 95 * y / top}`).join(" ");
    const figure = document.createElement("figure");
    const caption = document.createElement("figcaption");
    caption.textContent = `${title}: ${values.at(-1) ?? 0}, at most ${Math.max(0, ...values)}`;
    const plot = element("svg", { viewBox: `0 0 ${most} 100`, preserveAspectRatio: "none" });
    plot.append(element("polyline", { points: line }));
    figure.append(caption, plot, ages());
    place.append(figure);
  }
}

// One point more, or all of them where this page has missed some.
async function follow(latest) {
  if (latest.second === second + 1 && latest.point) {
    points.push([latest.point.commits, latest.point.screens, latest.point.slowest_us]);
    if (points.length > most) points.shift();
    second = latest.second;
  } else if (latest.second !== second) {
    ({ second, points } = await told("plots.json"));
  }
  draw();
}

// The rows of a table.
function list(table, all) {
  const rows = all.map((one) => {
    const row = document.createElement("tr");
    for (const text of one.cells) {
      const cell = document.createElement("td");
      cell.textContent = text;
      row.append(cell);
    }
    return row;
  });
  document.querySelector(`${table} tbody`).replaceChildren(...rows);
}

function lose() {
  const headline = document.getElementById("headline");
  headline.className = "bad";
  headline.textContent = "the relay does not answer";
}

async function look() {
  try {
    const now = await told("status.json");
    const headline = document.getElementById("headline");
    headline.className = now.level;
    headline.textContent = now.headline;
    const cells = document.querySelectorAll("#rows td");
    now.rows.forEach((row, at) => { cells[at].textContent = row.text; });
    await follow(now.status.plot);
    list("#servers", now.servers);
    list("#screens", (await told("screens.json")).screens);
  } catch (error) {
    lose();
  }
}

look();
setInterval(look, 1000);
</script>
</body>
</html>
"##;

fn put(text: &str, out: &mut Vec<u8>) -> Result<(), AllocError> {
    out.extend_from_slice(text.as_bytes())
}

/// One row of the table.
fn put_row(row: &Row, out: &mut Vec<u8>) -> Result<(), AllocError> {
    put_element("<tr><th>", row.label, "</th>", out)?;
    put_element("<td>", row.text.as_str(), "</td></tr>\n", out)
}

/// What stands above a table.
fn put_headers(headers: &[&str], out: &mut Vec<u8>) -> Result<(), AllocError> {
    for header in headers {
        put_element("<th>", header, "</th>", out)?;
    }
    put("</tr></thead><tbody>\n", out)
}

/// The page up to its table.
fn put_head(alloc: Global, status: &Status<'_>, out: &mut Vec<u8>) -> Result<(), AllocError> {
    let headline = format!(in alloc; "{}", Headline(status))?;
    put_element(HEAD, status.contest, STYLE, out)?;
    put(status.level().word(), out)?;
    put_element("\">", headline.as_str(), ROWS, out)
}

/// The rows of the table.
fn put_rows(alloc: Global, status: &Status<'_>, out: &mut Vec<u8>) -> Result<(), AllocError> {
    for row in &rows_of(alloc, status)? {
        put_row(row, out)?;
    }
    Ok(())
}

/// Appends the page: a headline, a table, the servers, plots of the last ten minutes, and the
/// screens. Its script renews all of it each second. Without scripts it is loaded again each five
/// seconds, and has no plots.
pub(crate) fn put_page(
    alloc: Global,
    status: &Status<'_>,
    servers: &[WatchedServer],
    screens: &[WatchedScreen],
    out: &mut Vec<u8>,
) -> Result<(), AllocError> {
    put_head(alloc, status, out)?;
    put_rows(alloc, status, out)?;
    put(SERVERS, out)?;
    put_headers(&SERVER_HEADERS, out)?;
    put_servers(alloc, servers, out)?;
    put(PLOTS, out)?;
    put_headers(&HEADERS, out)?;
    put_screens(alloc, screens, status.token, out)?;
    put(END, out)
}
