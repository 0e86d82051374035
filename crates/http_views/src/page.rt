//! The page as it stands in page/index.html, from which `tools/take_page` writes this file.

/// Draws the network.
pub const PAGE: &str = r#"<!doctype html>
<html lang="en">
<head>
<meta charset="utf-8">
<meta name="viewport" content="width=device-width, initial-scale=1">
<title>pced: the network</title>
<style>
:root {
  color-scheme: light dark;
  --ground: rgb(244 246 248); --panel: rgb(255 255 255); --ink: rgb(24 33 43); --faint: rgb(88 100 113); --line: rgb(214 221 228);
  --mark: rgb(0 90 200); --warn: rgb(160 20 40); --row: rgb(232 240 252);
  --load0: rgb(164 174 184); --load1: rgb(46 125 190); --load2: rgb(0 150 118); --load3: rgb(222 150 0); --load4: rgb(206 84 0); --load5: rgb(160 24 112);
}
@media (prefers-color-scheme: dark) {
  :root {
    --ground: rgb(18 23 29); --panel: rgb(27 34 42); --ink: rgb(226 232 238); --faint: rgb(150 163 176); --line: rgb(54 65 77);
    --mark: rgb(120 180 255); --warn: rgb(255 130 140); --row: rgb(36 50 70);
    --load0: rgb(94 106 118); --load1: rgb(84 166 232); --load2: rgb(40 190 150); --load3: rgb(240 180 50); --load4: rgb(246 124 52); --load5: rgb(236 108 196);
  }
}
* { box-sizing: border-box; }
body { margin: 0; font: 14px/1.45 system-ui, sans-serif; color: var(--ink); background: var(--ground); }
h1, h2, h3, p, ul, dl { margin: 0; padding: 0; }
h1 { font-size: 20px; }
h2 { font-size: 16px; }
h3 { font-size: 14px; margin: 12px 0 4px; }
header { display: flex; flex-wrap: wrap; gap: 2px 20px; align-items: baseline; padding: 10px 16px; background: var(--panel); border-bottom: 1px solid var(--line); }
main { display: grid; grid-template-columns: minmax(0, 1fr) minmax(340px, 420px); gap: 12px; padding: 12px 16px; }
section { min-width: 0; background: var(--panel); border: 1px solid var(--line); border-radius: 6px; padding: 10px 12px; }
.tools { display: flex; flex-wrap: wrap; gap: 6px 12px; align-items: center; margin-bottom: 8px; }
.tools h2 { margin-right: auto; }
.faint { color: var(--faint); }
.warn { color: var(--warn); font-weight: 600; }
button, input, select { font: inherit; color: inherit; background: var(--ground); border: 1px solid var(--line); border-radius: 4px; padding: 3px 8px; }
button { cursor: pointer; }
button:disabled { cursor: default; color: var(--faint); }
:focus-visible { outline: 2px solid var(--mark); outline-offset: 1px; }
button.plain { border: 0; padding: 0; background: none; color: var(--mark); text-align: left; }
#map { display: block; width: 100%; height: max(360px, 56vh); touch-action: none; cursor: grab; }
#frame { position: relative; }
#hint { position: absolute; pointer-events: none; max-width: 300px; padding: 3px 8px; border-radius: 4px; background: var(--ink); color: var(--panel); }
#legend { display: flex; flex-wrap: wrap; gap: 2px 13px; list-style: none; margin-top: 6px; }
#legend i { display: inline-block; width: 22px; margin-right: 6px; vertical-align: middle; }
#side { display: flex; flex-direction: column; gap: 12px; }
#chosen { flex: 1 1 0; min-height: 260px; overflow: auto; }
#ask { display: grid; grid-template-columns: auto minmax(0, 1fr) auto; gap: 6px 8px; align-items: center; }
#ask .wide { grid-column: 2 / 4; }
#ask input { width: 100%; min-width: 0; }
#spoken { position: absolute; width: 1px; height: 1px; overflow: hidden; clip-path: inset(50%); }
#lists { grid-column: 1 / -1; }
[role=tablist] { display: flex; gap: 4px; }
[role=tab][aria-selected=true] { background: var(--ink); color: var(--panel); border-color: var(--ink); }
.scroll { overflow-x: auto; }
table { border-collapse: collapse; width: 100%; }
th, td { padding: 3px 14px 3px 0; text-align: left; border-bottom: 1px solid var(--line); white-space: nowrap; font-variant-numeric: tabular-nums; }
th { font-weight: 600; }
th button { border: 0; padding: 0; background: none; font-weight: 600; }
.number { text-align: right; }
th.number, td.number { padding-right: 22px; }
#chosen th, #chosen td { padding-right: 9px; }
tbody tr[data-row] { cursor: pointer; }
tbody tr[aria-current=true] { background: var(--row); }
.bar { display: inline-block; width: 72px; height: 8px; margin-left: 8px; background: var(--line); border-radius: 2px; overflow: hidden; }
.bar i { display: block; height: 100%; }
dl { display: grid; grid-template-columns: auto 1fr; gap: 1px 12px; }
dt { color: var(--faint); }
dd { margin: 0; overflow-wrap: anywhere; }
@media (max-width: 860px) { main { grid-template-columns: minmax(0, 1fr); } }
</style>
</head>
<body>
<header>
  <h1>pced</h1>
  <p id="status">Reading what stands ...</p>
  <p id="fault" class="warn" role="alert"></p>
</header>
<main>
  <section aria-labelledby="network-title">
    <div class="tools">
      <h2 id="network-title">Network</h2>
      <label>Reserved at priority <select id="priority"></select></label>
      <span>
        <button id="closer" aria-label="Larger">+</button>
        <button id="farther" aria-label="Smaller">-</button>
        <button id="whole">All</button>
        <button id="near">What is chosen</button>
      </span>
    </div>
    <div id="frame">
      <canvas id="map" tabindex="0" role="img" aria-label="The network is being read" aria-describedby="map-keys"></canvas>
      <div id="hint" hidden></div>
    </div>
    <ul id="legend" aria-label="Colours of links: share of the bandwidth that is reserved"></ul>
    <p id="map-keys" class="faint">A click chooses a link or a router. Arrow keys move the map, + and - scale it, 0 shows all. The table of links says the same.</p>
  </section>
  <div id="side">
    <section aria-labelledby="ask-title">
      <div class="tools"><h2 id="ask-title">What if</h2></div>
      <form id="ask">
        <label for="ask-from">From</label><input id="ask-from" class="wide" list="routers" required autocomplete="off" placeholder="router or address">
        <label for="ask-to">To</label><input id="ask-to" class="wide" list="routers" required autocomplete="off" placeholder="router or address">
        <label for="ask-rate">Bandwidth</label><input id="ask-rate" class="wide" value="100Mbit" required autocomplete="off" placeholder="750000, 750kB, 6Mbit or 1.5Gbit" title="Bytes per second, or a number and one of B, kB, MB, GB, TB, bit, kbit, Mbit, Gbit, Tbit">
        <label for="ask-limits">Limits</label><input id="ask-limits" class="wide" autocomplete="off" placeholder="metric=igp max-hops=3" title="metric=te, igp or hops; max-cost=N, max-hops=N; exclude=0xN, include-any=0xN, include-all=0xN">
        <label for="ask-setup">Priority</label>
        <span class="wide"><select id="ask-setup" aria-label="Setup priority"></select> setup, <select id="ask-hold" aria-label="Holding priority"></select> holding <button>Search</button></span>
      </form>
      <datalist id="routers"></datalist>
    </section>
    <section id="chosen" aria-label="What is chosen"></section>
    <p id="spoken" role="status"></p>
  </div>
  <section id="lists" aria-label="Tables">
    <div class="tools">
      <div role="tablist" aria-label="Tables" id="tabs"></div>
      <label>Find <input id="find" type="search" autocomplete="off"></label>
      <label id="of-router">Router <select id="router"></select></label>
      <span id="pager"><button id="back">Back</button> <span id="place"></span> <button id="on">On</button></span>
      <span id="age" class="faint"></span>
    </div>
    <div class="scroll" role="tabpanel" id="panel" tabindex="0"><table id="table"></table></div>
  </section>
</main>
<script>
"use strict";

// ---- elements ----

const $ = id => document.getElementById(id);

/** An element as it is to be. Children that are no elements are texts. */
function h(kind, attributes, ...children) {
  return { kind, attributes, children: children.flat().filter(child => child !== null && child !== undefined) };
}

/** Changes what stands in an element to what is wanted, and touches nothing that is so already. Names come in as text alone. */
function show(parent, wanted) {
  wanted.forEach((want, place) => {
    const have = parent.childNodes[place];
    if (typeof want !== "object") {
      const text = String(want);
      if (!have) parent.append(text);
      else if (have.nodeType !== Node.TEXT_NODE) have.replaceWith(text);
      else if (have.nodeValue !== text) have.nodeValue = text;
      return;
    }
    let element = have;
    if (!have || have.localName !== want.kind) {
      element = document.createElement(want.kind);
      if (have) have.replaceWith(element);
      else parent.append(element);
    }
    for (const name of element.getAttributeNames()) if (!(name in want.attributes)) element.removeAttribute(name);
    for (const name of element.handlers || []) if (!(name in want.attributes)) element[name] = null;
    element.handlers = Object.keys(want.attributes).filter(name => name.startsWith("on"));
    for (const [name, value] of Object.entries(want.attributes)) {
      if (name.startsWith("on")) element[name] = value;
      else if (name === "disabled") element.disabled = value;
      else if (value === null) element.removeAttribute(name);
      else if (element.getAttribute(name) !== String(value)) element.setAttribute(name, value);
    }
    show(element, want.children);
  });
  while (parent.childNodes.length > wanted.length) parent.lastChild.remove();
}

// ---- what was read ----

const RENEWED_MS = 2000;
const PAGES_A_TURN = 4;

let status = null;
let nodes = [];
let links = [];
let peers = [];
let tickets = [];
let lsps = { list: [], at: null };
let grants = [];
let places = new Map();   // by the node's name
let named = new Map();    // nodes' names by their IDs
let chosen = { kind: "nothing" };

let last = Promise.resolve();

/** Asks the server, after all that was asked before: so the page takes one connection. */
function read(path) {
  const asked = last.then(async () => {
    const response = await fetch(path, { cache: "no-store", signal: AbortSignal.timeout(20000) });
    if (!response.ok) throw new Error((await response.text()).trim() || path + ": " + response.status);
    return response.json();
  });
  last = asked.catch(() => null);
  return asked;
}

/** Reads what is shown again each two seconds. */
async function renew() {
  try {
    if (!document.hidden) await readAll();
    $("fault").textContent = "";
  } catch (error) {
    showFault(error);
  }
  setTimeout(renew, RENEWED_MS);
}

function showFault(error) {
  $("fault").textContent = "Not renewed: " + error.message;
}

/** Reads counts and sessions, whose times go on, and all else if any step was taken since. */
async function readAll() {
  const seen = await read("/api/status");
  const isNew = !status || seen.steps !== status.steps || seen.uptime_ms < status.uptime_ms;
  peers = (await read("/api/peers")).peers;
  if (isNew) {
    await takeBook(await read("/api/links"));
    tickets = (await read("/api/tickets")).tickets;
    await renewChosen();
  }
  status = seen;
  showStatus();
  if (isNew) showLoads();
  else showTable();
  if (tab.id === "lsps" && (isNew || sweep)) await readLsps();
  if (tab.id === "grants" && isNew) await readGrants();
}

async function takeBook(book) {
  const isSame = book.nodes.length === nodes.length && book.links.length === links.length
    && book.nodes.every((node, n) => node.name === nodes[n].name)
    && book.links.every((link, n) => link.from === links[n].from && link.to === links[n].to);
  nodes = book.nodes;
  links = book.links;
  if (isSame) return;
  named = new Map(nodes.map(node => [node.router_id, node.name]));
  show($("routers"), nodes.map(node => h("option", { value: node.name }, node.router_id)));
  const known = await read("/api/places").catch(() => ({ places: [] }));
  places = new Map(known.places.map(place => [place.name, [place.x, -place.y]]));
  arrange();
}

/** Shows what depends on links and on the priority. */
function showLoads() {
  describe();
  drawSoon();
  showTable();
  showChosen();
}

// LSPs come in pages of 256. A turn reads a few of them, and the list is shown once all are there.
let sweep = null;

async function readLsps() {
  const router = $("router").value;
  if (!sweep || sweep.router !== router) sweep = { router, list: [], next: 0, isUnderWay: false };
  const mine = sweep;
  if (mine.isUnderWay) return;
  mine.isUnderWay = true;
  try {
    const pages = lsps.router === router ? PAGES_A_TURN : Infinity;
    for (let count = 0; count < pages && mine.next !== null && sweep === mine; count++) {
      const page = await read("/api/lsps?" + (router ? "peer=" + router + "&" : "") + "from=" + mine.next);
      mine.list.push(...page.lsps);
      mine.next = page.next;
    }
  } finally {
    mine.isUnderWay = false;
  }
  if (sweep !== mine || mine.next !== null) return;
  sweep = null;
  lsps = { router, list: mine.list, at: new Date() };
  if (tab.id === "lsps") showTable();
}

/** Grants that no report has settled, and deletions that are awaited. */
async function readGrants() {
  const rows = [];
  for (let next = 0; next !== null;) {
    const page = await read("/api/grants?from=" + next);
    rows.push(...page.grants.map(grant => ({ ...grant, asked: "path" })));
    rows.push(...page.deletions.map(deletion => ({ ...deletion, asked: "deletion", name: null, hold_priority: null, bandwidth_bytes_per_second: null, links: [] })));
    next = page.next;
  }
  grants = rows;
  if (tab.id === "grants") showTable();
}

/** One LSP of a router, found on the router's pages. */
async function readLsp(peer, plsp) {
  for (let next = 0; next !== null;) {
    const page = await read("/api/lsps?peer=" + peer + "&from=" + next);
    const found = page.lsps.find(lsp => lsp.plsp_id === plsp);
    if (found) return found;
    next = page.next;
  }
  return null;
}

// ---- words ----

/** Bytes per second as bits per second. */
function rate(bytes) {
  const bits = Math.abs(bytes) * 8;
  const [unit, size] = bits >= 1e9 ? ["Gbit/s", 1e9] : bits >= 1e6 ? ["Mbit/s", 1e6] : bits >= 1e3 ? ["kbit/s", 1e3] : ["bit/s", 1];
  const digits = size === 1 ? 0 : bits / size >= 100 ? 0 : bits / size >= 10 ? 1 : 2;
  return (bytes < 0 ? "-" : "") + (bits / size).toFixed(digits) + " " + unit;
}

function exactly(bytes) {
  return rate(bytes) + " (" + bytes + " bytes/s)";
}

function share(link, priority) {
  const total = link.reservable_bytes_per_second;
  const left = link.unreserved_bytes_per_second[priority];
  return total > 0 ? (total - left) / total : left < 0 ? Infinity : 0;
}

function percent(part) {
  if (part === Infinity) return "over";
  if (part > 0 && part < 0.01) return "< 1 %";
  return (part < 1 ? Math.min(99, Math.round(part * 100)) : Math.round(part * 100)) + " %";
}

const BANDS = ["nothing", "up to 50 %", "up to 75 %", "up to 90 %", "up to 100 %", "more than there is"];

function band(part) {
  return part <= 0 ? 0 : part <= 0.5 ? 1 : part <= 0.75 ? 2 : part <= 0.9 ? 3 : part <= 1 ? 4 : 5;
}

function priority() {
  return Number($("priority").value);
}

function ends(link) {
  return link.from + " \u2192 " + link.to;
}

function clock(time) {
  return time.toLocaleTimeString([], { hour12: false });
}

function span(ms) {
  if (ms === null) return "-";
  const seconds = Math.floor(ms / 1000);
  const two = number => String(number).padStart(2, "0");
  return Math.floor(seconds / 86400) + " d " + two(Math.floor(seconds / 3600) % 24) + ":" + two(Math.floor(seconds / 60) % 60) + ":" + two(seconds % 60);
}

function count(number, what) {
  return number + " " + what + (number === 1 ? "" : "s");
}

/** The name of the router of an ID, or the ID. */
function called(id) {
  return named.get(id) || id;
}

function nameOf(lsp) {
  return lsp.name === null || lsp.name === undefined ? (lsp.name_hex ? "0x" + lsp.name_hex : "") : lsp.name;
}

function stateOf(lsp) {
  return [lsp.state, lsp.is_partly_placed && "partly placed", lsp.is_delegated && "delegated", lsp.is_created && "created", lsp.is_removing && "removing"]
    .filter(Boolean).join(", ");
}

/** What the router says of a path, and where the path has a gap; nothing of a grant. */
function saidOf(path) {
  const reasons = [
    path.error_code !== null && path.error + " (LSP-ERROR-CODE " + path.error_code + ")",
    path.rsvp_error_node !== null && "RSVP error at " + called(path.rsvp_error_node) + ": code " + path.rsvp_error_code + ", value " + path.rsvp_error_value,
  ].filter(Boolean);
  const gap = path.gap_before_link !== null ? "before link " + path.gap_before_link : path.gap_after_link !== null ? "after link " + path.gap_after_link : "";
  return [
    path.state !== null && "Reported as " + path.state + (reasons.length ? ": " + reasons.join(", ") : "") + ".",
    gap && "Partly placed: no link " + gap + ".",
  ].filter(Boolean).join(" ");
}

function refusalOf(lsp) {
  return lsp.refusal_type === null ? "" : "PCErr " + lsp.refusal_type + "/" + lsp.refusal_value + ", " + lsp.refusal;
}

/** How many paths of these LSPs have a gap. */
function partlyPlaced(list) {
  return list.reduce((sum, lsp) => sum + lsp.paths.filter(path => path.gap_before_link !== null || path.gap_after_link !== null).length, 0);
}

function pathName(path) {
  return path.lsp_id !== null ? "LSP ID " + path.lsp_id : "granted, SRP-ID " + path.srp_id;
}

function showStatus() {
  $("status").textContent = "Version " + status.version + ", up " + span(status.uptime_ms) + ": "
    + [count(status.sessions_up, "session") + " up", count(status.lsps, "LSP"), count(status.paths, "path"), count(status.tickets, "ticket"),
      count(status.grants, "grant"), count(status.steps, "step")].join(", ") + ". Read at " + clock(new Date()) + ".";
  const known = [h("option", { value: "" }, "all"), ...peers.map(peer => h("option", { value: peer.peer }, peer.peer))];
  show($("router"), known);
}

// ---- places of nodes ----

let spots = [];   // of each node
let starts = [], stops = [];   // the nodes of each link
let lanes = [];   // of each link: its place among those from the same node to the same node

/** Gives each node its place: that of the link text, or one beside its neighbours; and each link its lane. */
function arrange() {
  const number = new Map(nodes.map((node, n) => [node.name, n]));
  starts = links.map(link => number.get(link.from));
  stops = links.map(link => number.get(link.to));
  const met = new Map();
  lanes = starts.map((from, n) => {
    const pair = from * nodes.length + stops[n], lane = met.get(pair) || 0;
    met.set(pair, lane + 1);
    return lane;
  });
  const near = nodes.map(() => new Set());
  starts.forEach((from, n) => near[from].add(stops[n]) && near[stops[n]].add(from));
  const given = nodes.map(node => places.get(node.name) || null);
  spots = given.some(Boolean) ? besideNeighbours(given, near) : unfolded(near);
  fit();
  if (!given.some(Boolean)) loosen(spots, near);
}

const least = list => list.reduce((a, b) => Math.min(a, b), Infinity);
const most = list => list.reduce((a, b) => Math.max(a, b), -Infinity);

/** Where the spots are: west, north, east, south. */
function box(list) {
  const xs = list.map(spot => spot[0]), ys = list.map(spot => spot[1]);
  return list.length ? [least(xs), least(ys), most(xs), most(ys)] : [0, 0, 0, 0];
}

/** Puts nodes that have no place at the middle of their neighbours; those that have none of these, below all. */
function besideNeighbours(found, near) {
  const [west, north, east, south] = box(found.filter(Boolean));
  const step = Math.max(east - west, south - north, 1) / 24;
  for (let isAny = true; isAny;) {
    isAny = false;
    near.forEach((others, n) => {
      const known = found[n] ? [] : [...others].filter(other => found[other]);
      if (known.length === 0) return;
      const middle = axis => known.reduce((sum, other) => sum + found[other][axis], 0) / known.length;
      found[n] = [middle(0) + step * Math.cos(n), middle(1) + step * Math.sin(n)];
      isAny = true;
    });
  }
  let alone = 0;
  return found.map(spot => spot || [west + step * (alone++ % 24), south + step * (2 + Math.floor(alone / 24))]);
}

/** How many links it is to each node; those that no way leads to are farther than all others. */
function distances(near, start) {
  const far = near.map(() => -1), reached = [start];
  far[start] = 0;
  for (const n of reached) for (const other of near[n]) if (far[other] < 0) { far[other] = far[n] + 1; reached.push(other); }
  const end = far[reached[reached.length - 1]] + 2;
  return far.map(steps => steps < 0 ? end : steps);
}

/** Spreads nodes between two that are far apart, and across between two others that are far from both. */
function unfolded(near) {
  if (near.length === 0) return [];
  const farthest = list => list.indexOf(most(list));
  const west = distances(near, farthest(distances(near, 0))), east = distances(near, farthest(west));
  const north = distances(near, farthest(west.map((steps, n) => Math.min(steps, east[n]))));
  const south = distances(near, farthest(north.map((steps, n) => steps - Math.abs(west[n] - east[n]))));
  return near.map((_, n) => [west[n] - east[n] + Math.sin(n) / 3, north[n] - south[n] + Math.cos(n) / 3]);
}

/** Lets near nodes push one another away and neighbours draw together, some rounds a frame. */
async function loosen(start, near) {
  const x = Float64Array.from(start, spot => spot[0]), y = Float64Array.from(start, spot => spot[1]);
  const rounds = 160, size = x.length, reach = 9, roundsAFrame = Math.ceil(2e7 / (size * size + 1));
  for (let round = 0; round < rounds; round++) {
    const right = new Float64Array(size), down = new Float64Array(size);
    for (let a = 0; a < size; a++) {
      for (let b = a + 1; b < size; b++) {
        const dx = x[a] - x[b], dy = y[a] - y[b], square = dx * dx + dy * dy + 1e-3;
        if (square > reach) continue;
        const push = 1 / square - 1 / reach;
        right[a] += dx * push; down[a] += dy * push;
        right[b] -= dx * push; down[b] -= dy * push;
      }
      for (const b of near[a]) {
        const dx = x[a] - x[b], dy = y[a] - y[b], pull = 0.5 * Math.sqrt(dx * dx + dy * dy);
        right[a] -= dx * pull; down[a] -= dy * pull;
      }
    }
    const longest = 1 - round / rounds;
    for (let a = 0; a < size; a++) {
      const part = Math.min(1, longest / (Math.hypot(right[a], down[a]) || 1));
      x[a] += right[a] * part; y[a] += down[a] * part;
    }
    if (round + 1 < rounds && (round + 1) % roundsAFrame) continue;
    spots = start.map((_, n) => [x[n], y[n]]);
    fit();
    await new Promise(requestAnimationFrame);
    if (spots.length !== nodes.length) return;
  }
}

// ---- the map ----

const map = $("map");
const pen = map.getContext("2d");
const view = { scale: 1, x: 0, y: 0, whole: 1 };

let isAsked = false;   // a drawing is
let drawnMs = 0;

function drawSoon() {
  if (!isAsked) requestAnimationFrame(() => { isAsked = false; draw(); });
  isAsked = true;
}

/** Scales the map so that it has these spots. */
function showSpots(list) {
  const [west, north, east, south] = box(list), width = map.clientWidth, height = map.clientHeight, margin = nodes.length > 60 ? 24 : 48;
  view.scale = list.length < 2 ? 1 : Math.min((width - 2 * margin) / (east - west || 1e-9), (height - 2 * margin) / (south - north || 1e-9), 1e9);
  view.x = (width - (west + east) * view.scale) / 2;
  view.y = (height - (north + south) * view.scale) / 2;
  drawSoon();
}

function fit() {
  showSpots(spots);
  view.whole = view.scale;
}

/** Shows the marked links with what is around them. */
function showMarked() {
  const ends = marked().flat().flatMap(n => [spots[starts[n]], spots[stops[n]]]);
  if (ends.length === 0) return;
  showSpots(ends);
  scale(0.6);
}

/** Scales the map around a point that stays. */
function scale(factor, x = map.clientWidth / 2, y = map.clientHeight / 2) {
  const to = Math.min(Math.max(view.scale * factor, view.whole / 4), view.whole * 200);
  view.x = x - (x - view.x) * to / view.scale;
  view.y = y - (y - view.y) * to / view.scale;
  view.scale = to;
  drawSoon();
}

const onMap = spot => [spot[0] * view.scale + view.x, spot[1] * view.scale + view.y];

/** Where all is drawn: nodes, and links on the right of their direction, each lane farther out. Widths go by the room. */
function layout() {
  const room = Math.sqrt(view.scale / view.whole) * (links.length <= 100 ? 1 : links.length <= 1000 ? 0.6 : 0.3);
  const wide = Math.min(4, Math.max(0.8, 4 * room)), radius = Math.min(9, Math.max(1.8, 8 * room));
  const at = spots.map(onMap);
  const lines = starts.map((from, n) => {
    const [ax, ay] = at[from], [bx, by] = at[stops[n]];
    const length = Math.sqrt((bx - ax) * (bx - ax) + (by - ay) * (by - ay)) || 1, dx = (bx - ax) / length, dy = (by - ay) / length;
    const out = (lanes[n] + 0.5) * (wide + 1.6), cut = Math.min(radius, length / 3);
    return { x1: ax - dy * out + dx * cut, y1: ay + dx * out + dy * cut, x2: bx - dy * out - dx * cut, y2: by + dx * out - dy * cut, dx, dy, length: length - 2 * cut };
  });
  return { wide, radius, at, lines };
}

/** The links to be marked: those of what is chosen, and dashed those of a path that isn't reported, or that is no path. */
function marked() {
  const ofPaths = (lsp, isGranted) => lsp ? lsp.paths.filter(path => isGranted === (path.lsp_id === null)).flatMap(path => path.links) : [];
  const { kind, answer, lsp } = chosen;
  if (kind === "lsp") return [ofPaths(lsp, false), ofPaths(lsp, true)];
  if (kind === "path" && answer) return answer.is_found ? [answer.links, []] : [[], answer.links];
  return [kind === "link" ? [chosen.number] : [], []];
}

function draw() {
  const began = performance.now(), width = map.clientWidth, height = map.clientHeight, dots = devicePixelRatio;
  if (map.width !== Math.round(width * dots) || map.height !== Math.round(height * dots)) {
    map.width = Math.round(width * dots);
    map.height = Math.round(height * dots);
  }
  pen.setTransform(dots, 0, 0, dots, 0, 0);
  pen.clearRect(0, 0, width, height);
  pen.lineJoin = "round";
  const style = getComputedStyle(document.documentElement), colour = name => style.getPropertyValue(name);
  const all = layout(), parts = loads(), [firm, dashed] = marked(), marks = new Set([...firm, ...dashed]);
  const isSeen = l => Math.max(l.x1, l.x2) > 0 && Math.min(l.x1, l.x2) < width && Math.max(l.y1, l.y2) > 0 && Math.min(l.y1, l.y2) < height;
  const drawBands = isWanted => BANDS.forEach((_, b) => {
    const lines = all.lines.filter((line, n) => band(parts[n]) === b && isWanted(n) && isSeen(line));
    drawLines(lines, all.wide * (b === 0 ? 0.7 : 1), colour("--load" + b), b === 5 && all.wide > 2 ? [8, 3] : []);
    drawHeads(lines, all.wide);
  });
  const at = numbers => numbers.filter(n => all.lines[n]).map(n => all.lines[n]);
  pen.globalAlpha = marks.size && links.length > 100 ? 0.3 : 1;
  drawBands(n => !marks.has(n));
  drawNodes(all, colour);
  pen.globalAlpha = 0.5;
  drawLines(at(firm), all.wide + 9, colour("--mark"), []);
  drawLines(at(dashed), all.wide + 9, colour("--mark"), [10, 6]);
  pen.globalAlpha = 1;
  drawBands(n => marks.has(n));
  drawWords(all, parts, marks, colour);
  drawnMs = performance.now() - began;
}

/** Draws lines, some at a time: a stroke of all of a thousand takes twice as long. */
function drawLines(lines, wide, colour, dash) {
  pen.strokeStyle = colour;
  pen.fillStyle = colour;
  pen.lineWidth = wide;
  pen.setLineDash(dash);
  pen.beginPath();
  lines.forEach((l, n) => {
    if (n % 16 === 15) { pen.stroke(); pen.beginPath(); }
    pen.moveTo(l.x1, l.y1);
    pen.lineTo(l.x2, l.y2);
  });
  pen.stroke();
}

/** Half an arrow's head at the end of each line that has room for it. */
function drawHeads(lines, wide) {
  pen.beginPath();
  for (const l of lines) {
    if (l.length < 10 * wide) continue;
    const x = l.x2 - l.dx * wide * 3.5, y = l.y2 - l.dy * wide * 3.5;
    pen.moveTo(l.x2, l.y2);
    pen.lineTo(x - l.dy * wide * 1.8, y + l.dx * wide * 1.8);
    pen.lineTo(x, y);
  }
  pen.fill();
}

function drawNodes({ at, radius }, colour) {
  pen.beginPath();
  for (const [x, y] of at) { pen.moveTo(x + radius, y); pen.arc(x, y, radius, 0, 7); }
  pen.fillStyle = colour("--ink");
  pen.fill();
  if (chosen.kind !== "node") return;
  const [x, y] = at[chosen.number];
  pen.beginPath();
  pen.arc(x, y, radius + 4, 0, 7);
  pen.strokeStyle = colour("--mark");
  pen.lineWidth = 3;
  pen.setLineDash([]);
  pen.stroke();
}

const CELL = 10;

/** Writes names, those of marked links' ends and of nodes with most links first, and what is reserved beside links, each where there is room. */
function drawWords({ at, radius, lines }, parts, marks, colour) {
  const columns = Math.ceil(map.clientWidth / CELL), rows = Math.ceil(map.clientHeight / CELL);
  const taken = new Uint8Array(columns * rows);
  const isFree = (x, y, half, tall, isTaking) => {
    const west = Math.floor((x - half) / CELL), east = Math.floor((x + half) / CELL), north = Math.floor((y - tall) / CELL), south = Math.floor((y + tall) / CELL);
    if (west < 0 || north < 0 || east >= columns || south >= rows) return false;
    for (let row = north; row <= south; row++) for (let cell = west; cell <= east; cell++) {
      if (isTaking) taken[row * columns + cell] = 1;
      else if (taken[row * columns + cell]) return false;
    }
    return true;
  };
  const put = (text, x, y, half, tall) => {
    if (!isFree(x, y, half, tall, false)) return false;
    isFree(x, y, half, tall, true);
    pen.strokeText(text, x, y);
    pen.fillText(text, x, y);
    return true;
  };
  pen.textAlign = "center";
  pen.textBaseline = "middle";
  pen.setLineDash([]);
  pen.strokeStyle = colour("--panel");
  pen.fillStyle = colour("--ink");
  pen.lineWidth = 3;
  const isSmall = nodes.length <= 60, high = isSmall ? 13 : 11;
  pen.font = high + "px system-ui, sans-serif";
  if (isSmall) for (const [x, y] of at) isFree(x, y, 4, 4, true);
  const rank = nodes.map(() => 0);
  starts.forEach((from, n) => { rank[from] += marks.has(n) ? 1e4 : 1; rank[stops[n]] += marks.has(n) ? 1e4 : 0; });
  for (const n of nodes.map((_, n) => n).sort((a, b) => rank[b] - rank[a] || a - b)) {
    const [x, y] = at[n], name = nodes[n].name.length > 24 ? nodes[n].name.slice(0, 23) + "\u2026" : nodes[n].name;
    const half = name.length * high * 0.3 + 2, off = radius + high * 0.7;
    if (put(name, x, y + off, half, 5) || !isSmall) continue;
    if (!put(name, x, y - off, half, 5) && !put(name, x + off + half, y, half, 5)) put(name, x - off - half, y, half, 5);
  }
  if (links.length > 100) return;
  pen.font = "11px system-ui, sans-serif";
  lines.forEach((l, n) => {
    if (l.length > 50 && parts[n] !== 0) put(percent(parts[n]), (l.x1 + l.x2) / 2 - l.dy * 17, (l.y1 + l.y2) / 2 + l.dx * 11, 12, 4);
  });
}

/** What is reserved of each link at the priority that is chosen. */
function loads() {
  const at = priority();
  return links.map(link => share(link, at));
}

/** Says in words what the map shows. */
function describe() {
  const parts = loads(), at = BANDS.map((_, b) => parts.filter(part => band(part) === b).length);
  const said = BANDS.map((words, b) => count(at[b], "link") + " " + words).filter((_, b) => at[b]).join(", ");
  map.setAttribute("aria-label", "Network of " + count(nodes.length, "node") + " and " + count(links.length, "link") + ". Reserved at priority " + priority() + ": " + said + ".");
  show($("legend"), BANDS.map((words, b) => h("li", {}, h("i", { style: "border-top: 4px " + (b === 5 ? "dashed" : "solid") + " var(--load" + b + ")" }), words + ": " + at[b])));
}

/** What is drawn at a point: a node, else the nearest link. */
function under(x, y) {
  const { at, radius, lines } = layout();
  const near = at.map(spot => Math.hypot(spot[0] - x, spot[1] - y)), nearest = near.indexOf(least(near));
  if (near[nearest] < Math.max(radius + 2, 6)) return { kind: "node", number: nearest };
  const far = lines.map(l => {
    const along = Math.max(0, Math.min(l.length, (x - l.x1) * l.dx + (y - l.y1) * l.dy));
    return Math.hypot(x - l.x1 - l.dx * along, y - l.y1 - l.dy * along);
  });
  const number = far.indexOf(least(far));
  return far[number] < 7 ? { kind: "link", number } : { kind: "nothing" };
}

let grip = null;

map.onpointerdown = event => {
  map.setPointerCapture(event.pointerId);
  grip = { x: event.offsetX, y: event.offsetY, moved: 0 };
};
map.onpointermove = event => {
  if (grip && event.buttons) {
    const dx = event.offsetX - grip.x, dy = event.offsetY - grip.y;
    grip.moved += Math.abs(dx) + Math.abs(dy);
    if (grip.moved > 4) { view.x += dx; view.y += dy; drawSoon(); }
    grip.x = event.offsetX; grip.y = event.offsetY;
    return;
  }
  const at = under(event.offsetX, event.offsetY), hint = $("hint");
  hint.hidden = at.kind === "nothing";
  if (at.kind === "nothing") return;
  hint.textContent = at.kind === "node" ? nodes[at.number].name + ", " + nodes[at.number].router_id
    : "Link " + at.number + ", " + ends(links[at.number]) + ": " + percent(share(links[at.number], priority())) + " reserved at priority " + priority();
  hint.style.left = Math.min(event.offsetX + 14, map.clientWidth - hint.offsetWidth) + "px";
  hint.style.top = event.offsetY + 16 + "px";
};
map.onpointerup = event => {
  const isClick = grip && grip.moved <= 4;
  grip = null;
  if (isClick) choose(under(event.offsetX, event.offsetY));
};
map.onpointerleave = () => { $("hint").hidden = true; };
map.addEventListener("wheel", event => {
  event.preventDefault();
  scale(Math.exp(-event.deltaY / 500), event.offsetX, event.offsetY);
}, { passive: false });
map.onkeydown = event => {
  const moves = { ArrowLeft: [40, 0], ArrowRight: [-40, 0], ArrowUp: [0, 40], ArrowDown: [0, -40] };
  if (event.key in moves) { view.x += moves[event.key][0]; view.y += moves[event.key][1]; drawSoon(); }
  else if (event.key === "+" || event.key === "=") scale(1.25);
  else if (event.key === "-") scale(0.8);
  else if (event.key === "0") fit();
  else return;
  event.preventDefault();
};

// ---- what is chosen ----

/** Chooses a link, a node, an LSP, a path that is asked for, or nothing; and shows it. */
function choose(what) {
  chosen = what;
  showChosen();
  drawSoon();
  showTable();
  renewChosen().then(() => { $("spoken").textContent = $("chosen").querySelector("h2").innerText; }, showFault);
}

/** Reads again what is known of what is chosen. */
async function renewChosen() {
  const what = chosen;
  if (what.kind === "link") what.use = await read("/api/link?number=" + what.number);
  if (what.kind === "lsp") what.lsp = await readLsp(what.peer, what.plsp);
  if (what.kind === "path") {
    try {
      what.answer = await read("/api/path?" + new URLSearchParams([["from", what.from], ["to", what.to], ["bandwidth", what.bandwidth], ["setup", what.setup], ["hold", what.hold], ...what.limits]));
      what.fault = null;
    } catch (error) {
      what.answer = null;
      what.fault = error.message;
    }
  }
  if (chosen !== what) return;
  showChosen();
  drawSoon();
}

function showChosen() {
  const parts = { nothing: nothingParts, link: linkParts, node: nodeParts, lsp: lspParts, path: pathParts };
  show($("chosen"), parts[chosen.kind](chosen));
}

function nothingParts() {
  return [h("h2", {}, "Nothing is chosen"), h("p", { class: "faint" }, "Choose a link or a router on the map, or a row of a table.")];
}

function facts(list) {
  return h("dl", {}, list.filter(Boolean).flatMap(([name, value]) => [h("dt", {}, name), h("dd", {}, value)]));
}

function bar(part) {
  const wide = Math.round(100 * Math.min(1, Math.max(0, part)));
  return h("span", { class: "bar", "aria-hidden": "true" }, h("i", { style: "width: " + wide + "%; background: var(--load" + band(part) + ")" }));
}

function plain(text, act) {
  return h("button", { class: "plain", onclick: event => { event.stopPropagation(); act(); } }, text);
}

function linkButton(number) {
  return plain(String(number), () => choose({ kind: "link", number }));
}

function lspButton({ peer, plsp_id }) {
  return plain("PLSP-ID " + plsp_id, () => choose({ kind: "lsp", peer, plsp: plsp_id }));
}

function table(titles, rows) {
  return h("div", { class: "scroll" }, h("table", {}, h("thead", {}, h("tr", {}, titles.map(title => h("th", { scope: "col" }, title)))),
    h("tbody", {}, rows.map(cells => h("tr", {}, cells.map(cell => h("td", {}, cell)))))));
}

function linkParts({ number, use }) {
  const link = use || links[number];
  if (!link) return [h("h2", {}, "Link " + number), h("p", {}, "There is no such link.")];
  const tunnels = use ? use.tunnels : [];
  return [
    h("h2", {}, "Link " + number + ": " + ends(link)),
    facts([
      ["Addresses", link.local_address + " \u2192 " + link.remote_address],
      ["Metrics", "TE " + link.te_metric + ", IGP " + link.igp_metric],
      ["Colours", "0x" + link.colour.toString(16).padStart(8, "0")],
      ["Reservable", exactly(link.reservable_bytes_per_second)],
    ]),
    h("h3", {}, "At each priority"),
    table(["Priority", "Reserved", "Left", "Left, bytes/s"], link.unreserved_bytes_per_second.map((left, p) => [p, [percent(share(link, p)), bar(share(link, p))], rate(left), left])),
    h("h3", {}, use ? count(tunnels.length, "tunnel") + " on it" : "Reading what is on it ..."),
    tunnels.length ? table(["Router", "LSP", "Path", "Holding", "Bandwidth"], tunnels.map(one => [one.peer, lspButton(one), pathName(one), one.hold_priority, rate(one.bandwidth_bytes_per_second)])) : null,
  ].filter(Boolean);
}

function nodeParts({ number }) {
  const node = nodes[number];
  if (!node) return nothingParts();
  const out = links.map((link, n) => [link, n]).filter(([link]) => link.from === node.name || link.to === node.name);
  const peer = peers.find(peer => peer.peer === node.router_id);
  return [
    h("h2", {}, node.name),
    facts([["Router ID", node.router_id], ["Session", peer ? sessionOf(peer) : "none from this address"]]),
    h("p", {}, plain("Path from here", () => { $("ask-from").value = node.name; }), ", ", plain("path to here", () => { $("ask-to").value = node.name; })),
    h("h3", {}, count(out.length, "link")),
    table(["Link", "From", "To", "Reserved"], out.map(([link, n]) => [linkButton(n), link.from, link.to, [percent(share(link, priority())), bar(share(link, priority()))]])),
  ];
}

function pathTable(numbers, full = []) {
  const tight = new Map(full.map(one => [one.link, one.priority]));
  return table(["Link", "From", "To", "TE", "Left", "at"], numbers.filter(number => links[number]).map(number => {
    const link = links[number], isTight = tight.has(number), at = isTight ? tight.get(number) : priority();
    return [linkButton(number), link.from, link.to, link.te_metric, h("span", { class: isTight ? "warn" : null }, rate(link.unreserved_bytes_per_second[at])), at];
  }));
}

function lspParts({ peer, plsp, lsp }) {
  const title = h("h2", {}, "LSP " + (lsp && nameOf(lsp) ? nameOf(lsp) : plsp) + " of " + peer);
  if (lsp === undefined) return [title, h("p", {}, "Reading it ...")];
  if (lsp === null) return [title, h("p", {}, "There is no such LSP any more.")];
  return [
    title,
    facts([
      ["PLSP-ID", lsp.plsp_id],
      ["State", stateOf(lsp) || "reported"],
      ["Ends", called(lsp.source) + " \u2192 " + called(lsp.destination)],
      ["Bandwidth", exactly(lsp.bandwidth_bytes_per_second)],
      ["Priorities", lsp.setup_priority + " setup, " + lsp.hold_priority + " holding"],
      ...(refusalOf(lsp) ? [["Last refused by", refusalOf(lsp)]] : []),
    ]),
    ...(lsp.paths.length ? lsp.paths.flatMap(path => [
      h("h3", {}, "Path " + pathName(path) + ": " + rate(path.bandwidth_bytes_per_second) + ", holding " + path.hold_priority + (path.is_fresh ? "" : ", of an earlier session")),
      ...(saidOf(path) ? [h("p", {}, saidOf(path))] : []),
      path.links.length ? pathTable(path.links) : h("p", {}, "No link is booked."),
    ]) : [h("p", {}, "It has no path.")]),
  ];
}

const OBSTACLES = {
  bandwidth: "No path has enough bandwidth left.",
  colours: "Colours of links shut every path out.",
  bounds: "Each path costs more than the bound.",
  several: "Several things stand in the way together.",
};

function pathParts({ from, to, bandwidth, setup, hold, limits, answer, fault }) {
  const wanted = [/^\d+$/.test(bandwidth) ? exactly(Number(bandwidth)) : bandwidth, "priorities " + setup + " and " + hold, ...limits.map(limit => limit.join("="))];
  const head = [h("h2", {}, "What if: " + called(from) + " \u2192 " + called(to)), h("p", { class: "faint" }, wanted.join(", ") + ". Nothing is booked.")];
  if (fault) return [...head, h("p", { class: "warn" }, "The server answers: " + fault)];
  if (!answer) return [...head, h("p", {}, "Searching ...")];
  const tightest = links[answer.tightest_link];
  const least = tightest ? [h("p", {}, "Least is left on link " + answer.tightest_link + ", " + ends(tightest) + ": " + rate(answer.tightest_left_bytes_per_second) + ".")] : [];
  if (answer.is_found) return [...head, h("h3", {}, "A path of cost " + answer.cost), pathTable(answer.links), ...least];
  const why = answer.obstacle ? OBSTACLES[answer.obstacle] || answer.obstacle : "No path joins the two.";
  const other = answer.links.length ? [h("h3", {}, "Without that, a path of cost " + answer.cost), pathTable(answer.links, answer.full_links)] : [];
  return [...head, h("p", { class: "warn" }, "There is no path. " + why), ...other];
}

$("ask").onsubmit = event => {
  event.preventDefault();
  const address = word => { const node = nodes.find(node => node.name === word.trim()); return node ? node.router_id : word.trim(); };
  const words = $("ask-limits").value.trim();
  const limits = words ? words.split(/\s+/).map(word => { const [key, ...value] = word.split("="); return [key, value.join("=")]; }) : [];
  choose({ kind: "path", from: address($("ask-from").value), to: address($("ask-to").value), bandwidth: $("ask-rate").value.trim(),
    setup: $("ask-setup").value, hold: $("ask-hold").value, limits });
};

// ---- tables ----

const ROWS = 50;

function sessionOf(peer) {
  return peer.is_up ? peer.is_synchronizing ? "synchronizing" : "up" : "down";
}

function lastEnd({ last_end_ms_ago: ms, last_end_reason: reason, last_end_number: number }) {
  return ms === null ? "-" : span(ms) + " ago: " + [reason, number].filter(part => part !== null).join(" ");
}

function yes(flag) {
  return flag ? "yes" : "-";
}

/** A column: its title, what it is sorted by, and what it shows where that is something else. */
const column = (title, by, shown, isNumber) => ({ title, by, shown: shown || by, isNumber });
const amount = (title, of) => column(title, of, row => rate(of(row)), true);
const figure = (title, of) => column(title, of, null, true);
const from = column("From", row => called(row.source));
const to = column("To", row => called(row.destination));
const bandwidth = amount("Bandwidth", row => row.bandwidth_bytes_per_second);
const levels = column("Setup/hold", row => row.setup_priority + "/" + row.hold_priority);

const TABS = [
  {
    id: "links", title: "Links", rows: () => links, choice: link => ({ kind: "link", number: link.link }),
    isChosen: link => chosen.kind === "link" && chosen.number === link.link,
    columns: [
      figure("Link", link => link.link), column("From", link => link.from), column("To", link => link.to),
      column("Reserved", link => share(link, priority()), link => [percent(share(link, priority())), bar(share(link, priority()))], true),
      amount("Left", link => link.unreserved_bytes_per_second[priority()]), amount("Reservable", link => link.reservable_bytes_per_second),
      figure("TE", link => link.te_metric), figure("IGP", link => link.igp_metric), column("Address", link => link.local_address), column("Remote", link => link.remote_address),
    ],
  },
  {
    id: "lsps", title: "LSPs", rows: () => lsps.list, choice: lsp => ({ kind: "lsp", peer: lsp.peer, plsp: lsp.plsp_id, lsp }),
    isChosen: lsp => chosen.kind === "lsp" && chosen.peer === lsp.peer && chosen.plsp === lsp.plsp_id,
    columns: [
      figure("PLSP-ID", lsp => lsp.plsp_id), column("Router", lsp => lsp.peer), column("Name", nameOf), column("State", stateOf),
      from, to, bandwidth, levels,
      column("Links", lsp => lsp.paths.reduce((sum, path) => sum + path.links.length, 0), lsp => lsp.paths.map(path => path.links.join(",") || "-").join("; ").slice(0, 60) || "-"),
    ],
  },
  {
    id: "peers", title: "Sessions", rows: () => peers, choice: null, isChosen: () => false,
    columns: [
      column("Router", peer => peer.peer), column("State", sessionOf), figure("Session", peer => peer.session), column("Updates", peer => yes(peer.may_update)),
      column("Initiations", peer => yes(peer.may_create)), figure("Messages wait", peer => peer.waiting_messages),
      figure("LSPs", peer => peer.lsps), figure("Delegated", peer => peer.delegated_lsps),
      column("State for", peer => Number(peer.since_ms_ago), peer => span(peer.since_ms_ago)), column("Last end", peer => Number(peer.last_end_ms_ago), lastEnd),
    ],
  },
  {
    id: "tickets", title: "Tickets", rows: () => tickets, choice: null, isChosen: () => false,
    columns: [
      figure("Ticket", ticket => ticket.ticket), column("Router", ticket => ticket.peer), column("For", ticket => ticket.purpose),
      column("Of", ticket => ticket.plsp_id !== null ? "PLSP-ID " + ticket.plsp_id : ticket.name !== null ? ticket.name : "request " + ticket.request_id),
      from, to, bandwidth, levels, figure("Tries", ticket => ticket.tries), column("State", ticket => ticket.is_taken ? "searched for" : "waits"),
    ],
  },
  {
    id: "grants", title: "Grants", rows: () => grants, choice: null, isChosen: () => false,
    columns: [
      figure("SRP-ID", grant => grant.srp_id), column("Router", grant => grant.peer), column("For", grant => grant.asked),
      column("Of", grant => grant.name !== null ? grant.name : "PLSP-ID " + grant.plsp_id),
      column("Unanswered", grant => Number(grant.unanswered_ms), grant => grant.unanswered_ms === null ? "-" : span(grant.unanswered_ms)),
      column("Bandwidth", grant => Number(grant.bandwidth_bytes_per_second), grant => grant.bandwidth_bytes_per_second === null ? "-" : rate(grant.bandwidth_bytes_per_second), true),
      column("Hold", grant => Number(grant.hold_priority), grant => grant.hold_priority === null ? "-" : grant.hold_priority, true),
      column("Links", grant => grant.links.length, grant => grant.links.join(",").slice(0, 60) || "-"),
    ],
  },
];

let tab = TABS[0];
for (const one of TABS) Object.assign(one, { words: "", first: 0, by: null, isFalling: false });

const textOf = (one, row) => one.columns.map(({ by, shown }) => { const text = shown(row); return typeof text === "object" ? by(row) : text; }).join(" ").toLowerCase();

const inOrder = new Intl.Collator("en", { numeric: true }).compare;

/** The rows that have all words, in the order that was chosen. */
function soughtRows() {
  const words = tab.words.toLowerCase().split(" ").filter(Boolean);
  const rows = words.length ? tab.rows().filter(row => { const text = textOf(tab, row); return words.every(word => text.includes(word)); }) : tab.rows().slice();
  if (tab.by === null) return rows;
  const by = tab.columns[tab.by].by, sign = tab.isFalling ? -1 : 1;
  const keyed = rows.map(row => [by(row), row]);
  keyed.sort(([a], [b]) => sign * (typeof a === "number" ? a - b : inOrder(String(a), String(b))));
  return keyed.map(([, row]) => row);
}

function sortBy(number) {
  tab.isFalling = tab.by === number ? !tab.isFalling : tab.columns[number].title === "Reserved";
  tab.by = number;
  tab.first = 0;
  showTable();
}

function showTable() {
  const rows = soughtRows();
  tab.first = Math.max(0, Math.min(tab.first, Math.floor((rows.length - 1) / ROWS) * ROWS));
  const here = rows.slice(tab.first, tab.first + ROWS);
  const heads = tab.columns.map(({ title, isNumber }, number) => h("th", { scope: "col", class: isNumber ? "number" : null, "aria-sort": number === tab.by ? (tab.isFalling ? "descending" : "ascending") : null },
    h("button", { onclick: () => sortBy(number) }, title + (number === tab.by ? (tab.isFalling ? " \u25bc" : " \u25b2") : ""))));
  const body = here.map(row => {
    const act = tab.choice && (() => choose(tab.choice(row)));
    const cells = tab.columns.map(({ shown, isNumber }, number) => h("td", { class: isNumber ? "number" : null }, number === 0 && act ? plain(String(shown(row)), act) : shown(row)));
    return h("tr", act ? { "data-row": "", "aria-current": tab.isChosen(row) ? "true" : null, onclick: act } : {}, cells);
  });
  const empty = h("tr", {}, h("td", { colspan: tab.columns.length, class: "faint" }, tab.rows().length ? "No row has these words." : tab.id === "lsps" && !lsps.at ? "Reading LSPs ..." : "There are none."));
  show($("table"), [h("thead", {}, h("tr", {}, heads)), h("tbody", {}, body.length ? body : [empty])]);
  show($("tabs"), TABS.map(one => h("button", { role: "tab", id: "tab-" + one.id, "aria-controls": "panel", "aria-selected": String(one === tab), tabindex: one === tab ? 0 : -1, onclick: () => open(one), onkeydown: event => stepTab(event, one) }, one.title)));
  $("panel").setAttribute("aria-labelledby", "tab-" + tab.id);
  $("place").textContent = rows.length ? (tab.first + 1) + " to " + (tab.first + here.length) + " of " + rows.length : "0 of 0";
  $("back").disabled = tab.first === 0;
  $("on").disabled = tab.first + ROWS >= rows.length;
  $("of-router").hidden = tab.id !== "lsps";
  $("age").textContent = tab.id === "lsps" && lsps.at ? "All read at " + clock(lsps.at) + (partlyPlaced(lsps.list) ? "; " + count(partlyPlaced(lsps.list), "path") + " partly placed." : ".") : "";
}

function open(one) {
  tab = one;
  $("find").value = tab.words;
  showTable();
  if (tab.id === "lsps") readLsps().catch(showFault);
  if (tab.id === "grants") readGrants().catch(showFault);
}

function stepTab(event, one) {
  const step = { ArrowRight: 1, ArrowLeft: TABS.length - 1 }[event.key];
  if (!step) return;
  const next = TABS[(TABS.indexOf(one) + step) % TABS.length];
  open(next);
  $("tab-" + next.id).focus();
}

$("find").oninput = () => { tab.words = $("find").value; tab.first = 0; showTable(); };
$("router").onchange = () => { TABS[1].first = 0; readLsps().catch(showFault); };
$("back").onclick = () => { tab.first -= ROWS; showTable(); };
$("on").onclick = () => { tab.first += ROWS; showTable(); };

// ---- the start ----

const choices = (list, first) => list.map(one => h("option", one === first ? { value: one, selected: "" } : { value: one }, one));
for (const id of ["priority", "ask-setup", "ask-hold"]) show($(id), choices([0, 1, 2, 3, 4, 5, 6, 7], 7));
$("priority").onchange = showLoads;
$("closer").onclick = () => scale(1.25);
$("farther").onclick = () => scale(0.8);
$("whole").onclick = fit;
$("near").onclick = showMarked;
new ResizeObserver(fit).observe(map);
matchMedia("(prefers-color-scheme: dark)").addEventListener("change", drawSoon);
showChosen();
showTable();
renew();
</script>
</body>
</html>
"#;
