//! The page and its policy: written by `web/embed` from the modules of `web/`, which are to be changed in its place.

/// The page, whole: ASCII, of one script and one style. It asks for nothing else but the board's socket.
pub const PAGE: &str = r##"<!doctype html>
<html lang="en">
<head>
<meta charset="utf-8">
<meta http-equiv="Content-Security-Policy" content="default-src 'none'; script-src 'sha256-Due0kwEl9DEo5s8DESywLGKDTd+08z3J38eSlI50C8I='; style-src 'sha256-OD7CMqJMWYIEoTBWnFqMeew433N5P6FEkvusmzTZjcE='; img-src data: blob:; connect-src 'self'; base-uri 'none'; form-action 'none'">
<meta name="viewport" content="width=device-width,initial-scale=1">
<title>Pazgrot</title>
<link rel="icon" href="data:,">
<style>
:root{--ground:#303030;--bar:#1e1e1e;--text:#e8e8e8;--edge:#8a8a8a;--on:#7d4c14;--button:#333333;--told:#ffd060}
html.strong{--ground:#000000;--bar:#000000;--text:#ffffff;--edge:#ffffff;--on:#0047b3;--button:#000000;--told:#ffff00}
@media (prefers-contrast:more){:root{--bar:#000000;--text:#ffffff;--edge:#ffffff;--button:#000000}}
*{box-sizing:border-box}
html,body{margin:0;height:100%;overflow:hidden;background:var(--ground);color:var(--text);font:14px/1.3 system-ui,sans-serif}
body{display:flex;flex-direction:column}
#bar{display:flex;flex-wrap:wrap;gap:4px;align-items:center;padding:4px;background:var(--bar);border-bottom:1px solid var(--edge);position:relative;z-index:2}
.group{display:flex;gap:2px;align-items:center}
button,select,input,summary{font:inherit;color:var(--text);background:var(--button);border:1px solid var(--edge);border-radius:4px;min-height:40px;min-width:40px;padding:2px 8px}
summary{list-style:none;display:flex;align-items:center;cursor:pointer}
summary::-webkit-details-marker{display:none}
summary::after{content:"\25be";padding-left:4px}
input[type=range]{width:110px;padding:0}
input[type=number]{width:7.5em}
button[aria-pressed=true],details[open]>summary{background:var(--on)}
button:disabled{opacity:.6}
:focus-visible{outline:3px solid #ffffff;outline-offset:-1px;box-shadow:0 0 0 5px #000000}
#swatches{display:flex;gap:2px;max-width:290px;overflow-x:auto}
#swatches button{flex:none;padding:0;border-width:2px}
#swatches button[aria-pressed=true]{border-color:#ffffff;box-shadow:inset 0 0 0 3px #000000,inset 0 0 0 5px #ffffff}
details{position:relative}
.panel{position:absolute;right:0;top:44px;display:flex;flex-wrap:wrap;gap:4px;align-items:center;width:320px;padding:8px;background:var(--bar);border:1px solid var(--edge);border-radius:4px}
.panel label{display:flex;align-items:center;gap:6px}
.panel .wide{flex-basis:100%}
.panel select.wide{width:100%}
#rulename{width:11em}
#named{width:5em}
#name{width:9em}
#mid{flex:1;position:relative;min-height:0}
canvas{position:absolute;inset:0;width:100%;height:100%;touch-action:none;cursor:crosshair}
canvas:focus-visible{outline-offset:-4px}
#foot{background:var(--bar);border-top:1px solid var(--edge);padding:3px 8px;display:flex;gap:2px 14px;flex-wrap:wrap;font-size:13px}
#seat,#facts{white-space:pre-wrap}
#say{color:var(--told);flex-basis:100%;min-height:1.3em}
#who span{display:inline-block;padding:0 6px;margin-right:3px;border-radius:8px;color:#000000}
dialog{background:var(--bar);color:var(--text);border:1px solid var(--edge);max-width:min(700px,96vw);max-height:86vh}
dialog pre{white-space:pre-wrap;font:13px/1.5 ui-monospace,monospace}
#drop{position:absolute;inset:8px;border:4px dashed #ffffff;display:none;align-items:center;justify-content:center;font-size:24px;pointer-events:none}
#drop.shown{display:flex}
[hidden]{display:none!important}
@media (max-width:720px){details{position:static}.panel{left:0;right:0;top:100%;width:auto}#swatches{max-width:134px}#facts{font-size:12px}}
</style>
</head>
<body>
<div id="bar" role="toolbar" aria-label="tools">
<span class="group" role="group" aria-label="what the pointer does"><button data-tool="draw" title="d">draw</button><button data-tool="erase" title="e">erase</button><button data-tool="pick" title="i">pick</button><button data-tool="select" title="s">select</button><button data-tool="pan" title="v">move</button></span>
<span id="swatches" role="group" aria-label="states"></span>
<span class="group"><button data-do="undo" title="Ctrl-Z">undo</button><button data-do="redo" title="Ctrl-Y">redo</button></span>
<span class="group" role="group" aria-label="generations"><button data-do="back" title="b" aria-label="one look back">&lt;</button><button data-do="play" id="play" title="Enter">play</button><button data-do="step" title="space">step</button><button data-do="edit" title="Escape" aria-label="back to the board">board</button></span>
<details name="menu"><summary>edit</summary><div class="panel">
<button data-do="cut" title="Ctrl-X">cut</button><button data-do="copy" title="Ctrl-C">copy</button><button data-do="paste" title="Ctrl-V">paste</button><select id="mode" aria-label="how a pattern is put down"><option value="or">Or</option><option value="copy">Copy</option></select>
<button data-do="rotate" title="&gt;">rotate</button><button data-do="flipx" title="x">flip x</button><button data-do="flipy" title="y">flip y</button>
<button data-do="all" title="Ctrl-A">select all</button><button data-do="none" title="k">select none</button><button data-do="clear" title="Delete">clear</button>
</div></details>
<details name="menu"><summary>time</summary><div class="panel">
<label class="wide">speed <input id="rate" type="range" min="1" max="60" value="30"><output id="ratetold">30 looks a second</output></label>
<label class="wide">generations a step <select id="stride"></select></label>
<label>generation <input id="gen" type="number" min="0" max="536870912" value="100"></label><button data-do="show">show</button><button data-do="count">count</button>
</div></details>
<details name="menu"><summary>file</summary><div class="panel">
<select id="library" class="wide" aria-label="library of patterns"></select>
<button data-do="open" title="o">open</button><button data-do="save" title="r">save RLE</button><button data-do="png">PNG</button><button data-do="svg">SVG</button><button data-do="share">link</button>
<label class="wide">film of <input id="from" type="number" min="0" value="0" aria-label="its first generation">to <input id="to" type="number" min="0" value="30" aria-label="its last generation"></label><button data-do="film">save the film</button>
<span class="group" id="ruler"><label>rule <input id="rulename" list="rules" spellcheck="false"></label><button data-do="rule">take</button></span><datalist id="rules"></datalist>
<input id="file" type="file" hidden>
</div></details>
<details name="menu"><summary>look</summary><div class="panel">
<button data-do="fit" title="f">fit</button><button data-do="nearer" title="]" aria-label="zoom in">+</button><button data-do="further" title="[" aria-label="zoom out">-</button><button data-do="middle" title="m">middle</button><button data-do="who" title="w" id="authors" aria-pressed="false">who drew</button>
<label class="wide">colours <select id="theme"></select></label>
<label>seat <input id="named" type="number" min="1" max="65535" value="1"></label><input id="name" maxlength="40" spellcheck="false" autocomplete="off" aria-label="the name of whoever has it"><button data-do="name">name</button>
</div></details>
<button data-do="help" title="h">keys</button>
</div>
<div id="mid"><canvas id="c" tabindex="0" role="application" aria-label="the board: arrow keys move the cursor, d draws, e erases, h tells all keys"></canvas><div id="drop">drop an RLE file</div></div>
<div id="foot"><span id="seat">connecting</span><span id="facts"></span><span id="who"></span><span id="say" role="status" aria-live="polite"></span></div>
<dialog id="keys" aria-label="keys"><pre id="keytext"></pre><button data-do="shut">close</button></dialog>
<script type="module">"use strict";
const m_formats = (() => {
const HALF = 2 ** 30;
const MOST_CELLS = 2 ** 20;
const AWAY = 0;
const NAMES = ({
0: "Away",
4: "Header", 5: "Tag", 6: "Count", 7: "State", 8: "TooMany", 9: "Nothing", 10: "OutOfPlane", 11: "StateRange",
13: "StoreFull", 14: "Magic", 15: "Version", 16: "OtherRule", 17: "Short", 18: "StampRange", 19: "NotCanonical",
20: "Trailing", 21: "FrameTooLong", 22: "GenRange", 23: "TooManyCells", 24: "ClockFull", 28: "NotYours", 29: "Full",
30: "Closed", 33: "Request", 40: "OldStamp", 45: "NoSeat", 255: "Memory",
});
class Fault extends Error {
constructor(number, place) {
const name = NAMES[number] || `refusal ${number}`;
super(place === undefined ? name : `${name} at byte ${place}`);
this.number = number;
this.place = place;
}
}
class Out {
constructor(size) {
this.bytes = new Uint8Array(size);
this.view = new DataView(this.bytes.buffer);
this.at = 0;
}
u8(n) { this.view.setUint8(this.at, n); this.at += 1; return this; }
u16(n) { this.view.setUint16(this.at, n); this.at += 2; return this; }
u32(n) { this.view.setUint32(this.at, n); this.at += 4; return this; }
stamp(counter, replica) { return this.u16(Math.floor(counter / 2 ** 32)).u32(counter % 2 ** 32).u16(replica); }
text(ascii) { for (let k = 0; k < ascii.length; k++) this.u8(ascii.charCodeAt(k)); return this; }
}
class In {
constructor(bytes) {
this.bytes = bytes;
this.view = new DataView(bytes.buffer, bytes.byteOffset, bytes.byteLength);
this.at = 0;
}
take(n) {
if (n > this.bytes.length - this.at) throw new Fault(17);
this.at += n;
return this.at - n;
}
u8() { return this.view.getUint8(this.take(1)); }
u16() { return this.view.getUint16(this.take(2)); }
u32() { return this.view.getUint32(this.take(4)); }
text(n) {
const from = this.take(n);
return String.fromCharCode(...this.bytes.subarray(from, from + n));
}
}
const counterAt = (view, at) => view.getUint16(at) * 2 ** 32 + view.getUint32(at + 2);
function readHead(from, rule) {
const magic = from.text(4);
if (magic !== "GLWD" && magic !== "GLWS") throw new Fault(14);
const version = from.u8();
if (version !== 1 && !(magic === "GLWS" && version === 2)) throw new Fault(15);
const text = from.text(from.u8());
if (rule !== null && text !== rule) throw new Fault(16);
return { magic, version, rule: text };
}
const writeHead = (out, magic, version, rule) => out.text(magic).u8(version).u8(rule.length).text(rule);
function writeDelta(rule, edits) {
const size = edits.reduce((n, e) => n + 13 + (e.area ? 16 : 0) + 3 * e.cells.length, 10 + rule.length);
const out = writeHead(new Out(size), "GLWD", 1, rule).u32(edits.length);
for (const { c, r, area, cells } of edits) {
out.stamp(c, r).u8(area ? 1 : 0);
if (area) out.u32(area.x + HALF).u32(area.y + HALF).u32(area.w).u32(area.h);
out.u32(cells.length / 3);
for (let k = 0; k < cells.length; k += 3) out.u32(cells[k] + HALF).u32(cells[k + 1] + HALF).u8(cells[k + 2]);
}
return out.bytes;
}
function readDelta(bytes, rule) {
const from = new In(bytes);
if (readHead(from, rule.text).magic !== "GLWD") throw new Fault(14);
const edits = [];
for (let n = from.u32(); n > 0; n--) edits.push(readEdit(from, rule.states));
if (from.at < bytes.length) throw new Fault(20);
return edits;
}
function readEdit(from, states) {
const at = from.take(8), c = counterAt(from.view, at), r = from.view.getUint16(at + 6);
if (c === 0 || r === 0) throw new Fault(18);
const flag = from.u8();
if (flag > 1) throw new Fault(19);
const area = flag ? readArea(from) : null;
const n = from.u32();
if (n > MOST_CELLS) throw new Fault(8);
if (n === 0 && !area) throw new Fault(9);
return { c, r, area, cells: readCells(from, n, states, area) };
}
function readArea(from) {
const at = from.take(16), word = (k) => from.view.getUint32(at + 4 * k);
if (word(0) + word(2) > 2 * HALF || word(1) + word(3) > 2 * HALF) throw new Fault(10);
if (word(0) >= 2 * HALF || word(1) >= 2 * HALF) throw new Fault(10);
if (word(2) === 0 || word(3) === 0) throw new Fault(9);
return { x: word(0) - HALF, y: word(1) - HALF, w: word(2), h: word(3) };
}
function readCells(from, n, states, area) {
const cells = [];
for (; n > 0; n--) {
const at = from.take(9), px = from.view.getUint32(at), py = from.view.getUint32(at + 4), s = from.view.getUint8(at + 8);
if (s >= states) throw new Fault(11);
if (px >= 2 * HALF || py >= 2 * HALF) throw new Fault(10);
const k = cells.length, x = px - HALF, y = py - HALF;
if (k > 0 && (y < cells[k - 2] || y === cells[k - 2] && x <= cells[k - 3])) throw new Fault(19);
if (area && (s === 0 || !within(area, x, y))) throw new Fault(19);
cells.push(x, y, s);
}
return cells;
}
const within = (box, x, y) => x >= box.x && y >= box.y && x < box.x + box.w && y < box.y + box.h;
const inPlane = (x, y) => x >= -HALF && y >= -HALF && x < HALF && y < HALF;
function clipped(box) {
const x = Math.max(box.x, -HALF), y = Math.max(box.y, -HALF);
return { x, y, w: Math.max(Math.min(box.x + box.w, HALF) - x, 0), h: Math.max(Math.min(box.y + box.h, HALF) - y, 0) };
}
const alone = (kind) => Uint8Array.of(kind);
const hello = () => alone(1);
function push(rule, edit) {
const delta = writeDelta(rule, [edit]), body = new Uint8Array(1 + delta.length);
body[0] = 2;
body.set(delta, 1);
return body;
}
const poll = () => alone(3);
const whole = () => alone(4);
const exportOf = generation => new Out(5).u8(5).u32(generation).bytes;
const bye = () => alone(6);
function many(generations) {
const out = new Out(3 + 4 * generations.length).u8(7).u16(generations.length);
for (const g of generations) out.u32(g);
return out.bytes;
}
const awaitNews = milliseconds => new Out(5).u8(8).u32(milliseconds).bytes;
const cutOf = ({ x, y, w, h }, generation) => new Out(21).u8(10).u32(x).u32(y).u32(w).u32(h).u32(generation).bytes;
const pieces = () => alone(11);
const PLANE = 0xffffffff;
function bodiesOf(kind, first) {
if (first[0] !== 0) return 1;
const from = new In(first.subarray(1));
if (kind === 3 || kind === 8) {
const n = from.u32();
return 1 + (n === PLANE ? 1 : n);
}
if (kind === 7) return 1 + from.u16();
if (kind === 11) { from.take(8); return 1 + from.u32(); }
return 1;
}
function readHello(first) {
const from = new In(first.subarray(1)), seat = from.u16();
return { seat, rule: from.text(from.u8()) };
}
const handsPlane = first => new In(first.subarray(1)).u32() === PLANE;
const textIn = body => new TextDecoder().decode(body.subarray(1));
function joined(bodies) {
const all = new Uint8Array(bodies.reduce((n, b) => n + b.length, 0));
let at = 0;
for (const b of bodies) { all.set(b, at); at += b.length; }
return all;
}
return { HALF, MOST_CELLS, AWAY, NAMES, Fault, Out, In, counterAt, readHead, writeHead, writeDelta, readDelta, within, inPlane, clipped, hello, push, poll, whole, exportOf, bye, many, awaitNews, cutOf, pieces, bodiesOf, readHello, handsPlane, textIn, joined };
})();
const m_drawings = (() => {
const { MOST_CELLS } = m_formats;
const stampWord = (c, r) => `${c}.${r}`;
function missing(edit, plane) {
const { c, r, area, cells } = edit, box = area || { x: 0, y: 0, w: 0, h: 0 };
if (box.w * box.h > MOST_CELLS) return edit;
const list = [];
const look = (x, y, s) => {
const w = plane.at(x, y);
if (w.c < c || w.c === c && (w.r < r || w.r === r && w.s !== s)) list.push(x, y, s);
};
if (!area) for (let k = 0; k < cells.length; k += 3) look(cells[k], cells[k + 1], cells[k + 2]);
for (let y = box.y, k = 0; y < box.y + box.h; y++) for (let x = box.x; x < box.x + box.w; x++) {
const isListed = cells[k] === x && cells[k + 1] === y;
look(x, y, isListed ? cells[k + 2] : 0);
if (isListed) k += 3;
}
if (area && list.length === 3 * box.w * box.h) return edit;
return list.length ? { ...edit, area: null, cells: list } : null;
}
return { stampWord, missing };
})();
const m_line = (() => {
const { bodiesOf } = m_formats;
class Line {
constructor() {
this.socket = null;
this.waiting = [];
this.isPushing = false;
this.isListening = false;
}
request(body, done, lost = () => {}) {
this.waiting.push({ kind: body[0], got: [], need: 1, done, lost });
if (this.socket) this.socket.send(body);
}
came(body) {
const first = this.waiting[0];
if (!first) return;
first.got.push(body);
if (first.got.length === 1) first.need = bodiesOf(first.kind, body);
if (first.got.length < first.need) return;
this.waiting.shift();
first.done(first.got);
}
close() {
if (this.socket) this.socket.close();
for (const { lost } of this.waiting.splice(0)) lost();
}
}
return { Line };
})();
const m_tiles = (() => {
const SIDE = 32;
const CELLS = SIDE * SIDE;
const SHIFT = 2 ** 25 + 2 ** 20, SPAN = 2 * SHIFT;
const tileKey = (tx, ty) => (ty + SHIFT) * SPAN + tx + SHIFT;
const tileOf = n => Math.floor(n / SIDE);
const placeIn = (x, y) => (y & SIDE - 1) * SIDE + (x & SIDE - 1);
class Tiled {
constructor() {
this.tiles = new Map();
this.population = 0;
}
state(x, y) {
const t = this.tiles.get(tileKey(tileOf(x), tileOf(y)));
return t ? t.s[placeIn(x, y)] : 0;
}
*meeting({ x, y, w, h }) {
const [a, b, c, d] = [tileOf(x), tileOf(y), tileOf(x + w - 1), tileOf(y + h - 1)];
if ((c - a + 1) * (d - b + 1) > this.tiles.size) {
for (const t of this.tiles.values()) if (t.tx >= a && t.tx <= c && t.ty >= b && t.ty <= d) yield t;
return;
}
for (let ty = b; ty <= d; ty++) for (let tx = a; tx <= c; tx++) {
const t = this.tiles.get(tileKey(tx, ty));
if (t) yield t;
}
}
cells(box) {
const rows = new Map();
for (const t of box ? this.meeting(box) : this.tiles.values()) {
if (t.n === 0) continue;
for (let i = 0; i < CELLS; i++) {
if (t.s[i] === 0) continue;
const x = t.tx * SIDE + i % SIDE, y = t.ty * SIDE + (i >> 5);
if (box && (x < box.x || y < box.y || x >= box.x + box.w || y >= box.y + box.h)) continue;
const row = rows.get(y);
if (row) row.push([x, t.s[i]]);
else rows.set(y, [[x, t.s[i]]]);
}
}
const list = [];
for (const y of [...rows.keys()].sort((p, q) => p - q)) {
for (const [x, s] of rows.get(y).sort((p, q) => p[0] - q[0])) list.push(x, y, s);
}
return list;
}
box() {
let x0 = Infinity, y0 = Infinity, x1 = -Infinity, y1 = -Infinity;
for (const t of this.tiles.values()) {
if (t.n === 0) continue;
const x = t.tx * SIDE, y = t.ty * SIDE;
if (x >= x0 && x + SIDE - 1 <= x1 && y >= y0 && y + SIDE - 1 <= y1) continue;
for (let i = 0; i < CELLS; i++) {
if (t.s[i] === 0) continue;
const cx = x + i % SIDE, cy = y + (i >> 5);
if (cx < x0) x0 = cx;
if (cx > x1) x1 = cx;
if (cy < y0) y0 = cy;
if (cy > y1) y1 = cy;
}
}
return x0 > x1 ? null : { x: x0, y: y0, w: x1 - x0 + 1, h: y1 - y0 + 1 };
}
}
return { SIDE, CELLS, tileKey, tileOf, placeIn, Tiled };
})();
const m_plane = (() => {
const { Fault, within } = m_formats;
const { CELLS, SIDE, Tiled, placeIn, tileKey, tileOf } = m_tiles;
const MOST_TILES = 2 ** 16;
const NOTHING = { c: 0, r: 0, s: 0 };
const isAbove = (a, b) => a.c > b.c || a.c === b.c && (a.r > b.r || a.r === b.r && a.s > b.s);
class Plane extends Tiled {
constructor() {
super();
this.areas = [];
this.tree = null;
this.top = 0;
}
at(x, y) {
const t = this.tiles.get(tileKey(tileOf(x), tileOf(y)));
if (t) {
const i = placeIn(x, y);
return { c: t.c[i], r: t.r[i], s: t.s[i] };
}
let greatest = this.tree ? this.tree.at(x, y) : NOTHING;
for (const { box, write } of this.areas) if (within(box, x, y) && isAbove(write, greatest)) greatest = write;
return greatest;
}
load(tree) {
this.tree = tree;
this.top = Math.max(this.top, tree.top);
tree.eachLive((_, x, y) => {
this.tile(x, y);
if (this.tiles.size > MOST_TILES) throw new Fault(13);
});
}
apply({ c, r, area, cells }) {
if (c > this.top) this.top = c;
if (area) this.clear(area, { c, r, s: 0 });
for (let k = 0; k < cells.length; k += 3) this.put(this.tile(cells[k], cells[k + 1]), placeIn(cells[k], cells[k + 1]), c, r, cells[k + 2]);
}
clear(box, write) {
for (const t of this.meeting(box)) this.fill(t, box, write);
const isCovered = (old) => isAbove(write, old.write) && within(box, old.box.x, old.box.y) &&
within(box, old.box.x + old.box.w - 1, old.box.y + old.box.h - 1);
this.areas = this.areas.filter(old => !isCovered(old));
this.areas.push({ box, write });
}
tile(x, y) {
const tx = tileOf(x), ty = tileOf(y), key = tileKey(tx, ty), there = this.tiles.get(key);
if (there) return there;
const t = { tx, ty, n: 0, s: new Uint8Array(CELLS), c: new Float64Array(CELLS), r: new Uint16Array(CELLS) };
this.tiles.set(key, t);
if (this.tree) this.copySquares(t, this.tree);
for (const { box, write } of this.areas) this.fill(t, box, write);
return t;
}
copySquares(t, tree) {
for (let v = 0; v < SIDE; v += 8) for (let u = 0; u < SIDE; u += 8) {
const square = tree.squareAt(t.tx * SIDE + u, t.ty * SIDE + v);
if (square.blank && square.c === 0) continue;
for (let j = 0; j < 64; j++) {
const i = (v + (j >> 3)) * SIDE + u + (j & 7);
if (square.blank) this.put(t, i, square.c, square.r, 0);
else this.put(t, i, square.c[j], square.r[j], square.s[j]);
}
}
}
fill(t, box, write) {
const left = Math.max(box.x - t.tx * SIDE, 0), right = Math.min(box.x + box.w - t.tx * SIDE, SIDE);
const top = Math.max(box.y - t.ty * SIDE, 0), bottom = Math.min(box.y + box.h - t.ty * SIDE, SIDE);
for (let v = top; v < bottom; v++) for (let u = left; u < right; u++) this.put(t, v * SIDE + u, write.c, write.r, 0);
}
put(t, i, c, r, s) {
const there = t.c[i];
if (c < there || c === there && (r < t.r[i] || r === t.r[i] && s <= t.s[i])) return;
const change = (s ? 1 : 0) - (t.s[i] ? 1 : 0);
t.n += change;
this.population += change;
t.c[i] = c;
t.r[i] = r;
t.s[i] = s;
}
}
return { isAbove, Plane };
})();
const m_rules = (() => {
const NAMED = [
["Life", "23/3/2"], ["HighLife", "23/36/2"], ["Day & Night", "34678/3678/2"], ["3-4 Life", "34/34/2"], ["Morley", "245/368/2"],
["Diamoeba", "5678/35678/2"], ["Life without Death", "012345678/3/2"], ["LongLife", "5/345/2"], ["Coral", "45678/3/2"],
["Seeds", "/2/2"], ["Serviettes", "/234/2"], ["Replicator", "1357/1357/2"], ["Fredkin", "02468/1357/2"],
["Brian's Brain", "/2/3"], ["Star Wars", "345/2/4"], ["Frogs", "12/34/3"], ["LivingOnTheEdge", "345/3/6"], ["Sticks", "3456/2/6"],
["Transers", "345/26/5"], ["Spirals", "2/234/5"], ["Lines", "012345/458/3"], ["SediMental", "45678/25678/4"],
["Caterpillars", "124567/378/4"], ["Banners", "2367/3457/5"], ["Cooties", "23/2/8"], ["Lava", "12345/45678/8"],
["MeteorGuns", "01245678/3/8"], ["Burst", "0235678/3468/9"], ["Xtasy", "1456/2356/16"], ["Ebb&Flow", "012478/36/18"],
["Fireworks", "2/13/21"], ["Bloomerang", "234/34678/24"], ["Nova", "45678/2478/25"],
];
const SPELLINGS = [
{ form: /^B([1-8]*)\/?S([0-8]*)(?:\/[CG]?(\d{1,3}))?$/i, born: 1, survives: 2 },
{ form: /^([0-8]*)\/([1-8]*)(?:\/(\d{1,3}))?$/, born: 2, survives: 1 },
];
const sorted = digits => [...new Set(digits)].sort().join("");
const bits = digits => [...digits].reduce((all, d) => all | 1 << Number(d), 0);
function readRule(spelled) {
const plain = spelled.trim();
const named = NAMED.find(([name]) => name.toLowerCase() === plain.toLowerCase());
const text = named ? named[1] : plain;
for (const { form, born, survives } of SPELLINGS) {
const found = form.exec(text);
if (!found) continue;
const [s, b, states] = [sorted(found[survives]), sorted(found[born]), Number(found[3] || "2")];
if (states < 2 || states > 256) return null;
return { text: `${s}/${b}/${states}`, survives: bits(s), born: bits(b), states };
}
return null;
}
function fileRule(rule) {
const [survives, born] = rule.text.split("/");
return rule.states === 2 ? `B${born}/S${survives}` : rule.text;
}
function ruleName(rule) {
const named = NAMED.find(([, text]) => text === rule.text);
return named ? `${named[0]} ${rule.text}` : rule.text;
}
return { NAMED, readRule, fileRule, ruleName };
})();
const m_rle = (() => {
const { Fault, MOST_CELLS, textIn } = m_formats;
const { fileRule } = m_rules;
const LINE = 70, SIDE = 2 ** 32, POSITION = 2 ** 31;
const DOLLAR = 36, ZERO = 48, NINE = 57;
function readOrigin(line) {
let x = 0, y = 0, gen = 0;
const met = new Set();
for (const word of line.slice(6).split(/[ \t]+/).filter(w => w)) {
const pos = /^Pos=(-?\d+),(-?\d+)$/.exec(word), at = /^Gen=(\d+)$/.exec(word), kind = word.slice(0, 3);
if (!pos && !at || met.has(kind)) return null;
met.add(kind);
if (pos) [x, y] = [Number(pos[1]) + 0, Number(pos[2]) + 0];
if (at) gen = Number(at[1]);
}
if (!/^#CXRLE([ \t]|$)/.test(line) || [x, y].some(n => n < -POSITION || n >= POSITION)) return null;
return { x, y, gen };
}
function readHeader(line) {
const found = /^[ \t]*x[ \t]*=[ \t]*(\d+)[ \t]*,[ \t]*y[ \t]*=[ \t]*(\d+)[ \t]*(?:,(.*))?$/.exec(line);
if (!found || Number(found[1]) >= SIDE || Number(found[2]) >= SIDE) throw new Fault(4);
const rule = /rule[ \t]*=[ \t]*([^,:]*[^,: \t])/.exec(found[3] || "");
return { w: Number(found[1]), h: Number(found[2]), rule: rule ? rule[1] : null };
}
function readLines(text) {
let header = null, origin = null, end = text.length;
const body = [];
for (let at = 0; at < text.length;) {
let stop = at;
while (stop < text.length && text[stop] !== "\n" && text[stop] !== "\r") stop++;
const line = text.slice(at, stop);
if (line[0] === "#") {
if (!header && !origin && line.startsWith("#CXRLE")) origin = readOrigin(line);
} else if (!header) {
if (/[^ \t]/.test(line)) header = readHeader(line);
} else {
const mark = text.indexOf("!", at), last = mark >= 0 && mark < stop ? mark : stop;
for (let k = at; k < last; k++) if (text[k] !== " " && text[k] !== "\t") body.push(k);
if (last < stop) { end = last; break; }
}
at = stop + 1;
}
if (!header) throw new Fault(4);
return { header, origin: origin || { x: 0, y: 0, gen: 0 }, body, end: Math.min(end, text.length) };
}
class Tokens {
constructor(text, body, end) {
this.text = text;
this.body = body;
this.end = end;
this.at = 0;
}
code(k) { return k < this.body.length ? this.text.charCodeAt(this.body[k]) : -1; }
place(k) { return k < this.body.length ? this.body[k] : this.end; }
next() {
const begin = this.at, isDigit = (c) => c >= ZERO && c <= NINE;
let count = 1;
if (isDigit(this.code(this.at))) {
for (count = 0; isDigit(this.code(this.at)); this.at++) count = Math.min(10 * count + this.code(this.at) - ZERO, 2 ** 40);
}
if (this.at >= this.body.length) return null;
const state = this.state(begin);
if (count === 0 || count > SIDE) throw new Fault(6, this.place(begin));
return { begin: this.place(begin), count, state };
}
state(begin) {
const c = this.code(this.at++);
if (c === DOLLAR) return -1;
if (c === 98 || c === 46) return 0;
if (c === 111) return 1;
if (c >= 65 && c <= 88) return c - 64;
if (c < 112 || c > 121) throw new Fault(5, this.place(this.at - 1));
const letter = this.code(this.at++);
if (letter < 65 || letter > 88) throw new Fault(5, this.at <= this.body.length ? this.place(this.at - 1) : this.end);
const state = 24 * (c - 111) + letter - 64;
if (state > 255) throw new Fault(7, this.place(begin));
return state;
}
}
function readRLE(text) {
const { header, origin, body, end } = readLines(text), tokens = new Tokens(text, body, end);
const cells = [];
let { w, h } = header, x = 0, y = 0;
for (let token = tokens.next(); token; token = tokens.next()) {
const { begin, count, state } = token;
if (state < 0 ? y + count >= SIDE : x + count > SIDE) throw new Fault(6, begin);
if (state < 0) { y += count; x = 0; continue; }
if (state > 0) {
if (cells.length / 3 + count > MOST_CELLS) throw new Fault(8);
for (let j = 0; j < count; j++) cells.push(x + j, y, state);
w = Math.max(w, x + count);
h = Math.max(h, y + 1);
}
x += count;
}
return { w, h, x: origin.x, y: origin.y, gen: origin.gen, rule: header.rule, cells };
}
function patternIn(body) {
try {
return readRLE(textIn(body));
} catch (fault) {
if (fault instanceof Fault && fault.number === 8) return null;
throw fault;
}
}
const placed = ({ x, y, cells }) => cells.map((n, k) => k % 3 === 0 ? n + x : k % 3 === 1 ? n + y : n);
function lettersOf(s, states) {
if (states === 2) return "bo"[s];
if (s === 0) return ".";
const prefix = s > 24 ? String.fromCharCode(111 + Math.floor((s - 1) / 24)) : "";
return prefix + String.fromCharCode(65 + (s - 1) % 24);
}
function boxOf(cells) {
if (!cells.length) return null;
let least = Infinity, most = -Infinity;
for (let k = 0; k < cells.length; k += 3) { least = Math.min(least, cells[k]); most = Math.max(most, cells[k]); }
const y = cells[1];
return { x: least, y, w: most - least + 1, h: cells[cells.length - 2] - y + 1 };
}
function writeRLE(cells, rule, gen, given) {
const box = given || boxOf(cells) || { x: 0, y: 0, w: 0, h: 0 };
const lines = [];
let line = "";
const put = (count, letters) => {
const token = (count > 1 ? count : "") + letters;
if (line.length + token.length > LINE) { lines.push(line); line = ""; }
line += token;
};
let x = box.x, y = box.y;
for (let k = 0; k < cells.length;) {
const cx = cells[k], cy = cells[k + 1], s = cells[k + 2];
if (cy > y) { put(cy - y, "$"); y = cy; x = box.x; }
if (cx > x) put(cx - x, lettersOf(0, rule.states));
let n = 0;
while (k < cells.length && cells[k] === cx + n && cells[k + 1] === cy && cells[k + 2] === s) { n++; k += 3; }
put(n, lettersOf(s, rule.states));
x = cx + n;
}
put(1, "!");
lines.push(line);
return `#CXRLE Pos=${box.x},${box.y} Gen=${gen}\nx = ${box.w}, y = ${box.h}, rule = ${rule.text}\n${lines.join("\n")}\n`;
}
const forFile = (text, rule) => text.replace(`, rule = ${rule.text}\n`, `, rule = ${fileRule(rule)}\n`);
return { readRLE, patternIn, placed, boxOf, writeRLE, forFile };
})();
const m_states = (() => {
const { Fault, HALF, In, counterAt, readHead } = m_formats;
const TOP = 31, LEAF_BYTES = 576;
class Tree {
constructor(root, top, rule) {
this.root = root;
this.top = top;
this.rule = rule;
}
squareAt(x, y) {
let square = this.root, size = 2 * HALF, px = x + HALF, py = y + HALF;
while ("quarters" in square) {
size /= 2;
const east = px >= size ? 1 : 0, south = py >= size ? 1 : 0;
px -= east * size;
py -= south * size;
square = square.quarters[east + 2 * south];
}
return square;
}
at(x, y) {
const square = this.squareAt(x, y);
if (square.blank) return { c: square.c, r: square.r, s: 0 };
const i = (x & 7) + 8 * (y & 7);
return { c: square.c[i], r: square.r[i], s: square.s[i] };
}
eachLive(visit) {
const go = (square, x, y) => {
if (square.live === 0) return;
if (!("quarters" in square)) return visit((square), x, y);
const half = 2 ** (square.level - 1);
square.quarters.forEach((q, k) => go(q, x + (k & 1) * half, y + (k >> 1) * half));
};
go(this.root, -HALF, -HALF);
}
}
function readBlank(from, level, seen) {
const at = from.take(8), c = counterAt(from.view, at), r = from.view.getUint16(at + 6);
if ((c === 0) !== (r === 0)) throw new Fault(18);
if (c > seen.top) seen.top = c;
return { level, blank: true, live: 0, c, r };
}
function readLeaf(from, states, seen) {
const c = new Float64Array(64), r = new Uint16Array(64), s = new Uint8Array(64);
let live = 0;
for (let k = 0; k < 64; k++) {
const at = from.take(9);
c[k] = counterAt(from.view, at);
r[k] = from.view.getUint16(at + 6);
s[k] = from.view.getUint8(at + 8);
if ((c[k] === 0) !== (r[k] === 0) || c[k] === 0 && s[k] !== 0) throw new Fault(18);
if (s[k] >= states) throw new Fault(11);
if (s[k]) live = 1;
if (c[k] > seen.top) seen.top = c[k];
}
if (!live && c.every(n => n === c[0]) && r.every(n => n === r[0])) throw new Fault(19);
return { level: 3, blank: false, live, c, r, s };
}
function nodeOf(level, quarters) {
const [a] = quarters;
if (a.blank && quarters.every(q => q.blank && q.c === a.c && q.r === a.r)) throw new Fault(19);
return { level, blank: false, live: quarters.reduce((n, q) => n + q.live, 0), quarters };
}
function readSquare(from, level, states, seen) {
const tag = from.u8();
if (tag === 0) return readBlank(from, level, seen);
if (tag === 1 && level === 3) return readLeaf(from, states, seen);
if (tag !== 2 || level === 3) throw new Fault(19);
const quarters = [];
for (let k = 0; k < 4; k++) quarters.push(readSquare(from, level - 1, states, seen));
return nodeOf(level, quarters);
}
function readQuarter(from, level, list, seen) {
const flag = from.u8();
if (flag > 1) throw new Fault(19);
if (flag === 0) return readBlank(from, level, seen);
const square = list[from.u32()];
if (!square || square.level !== level) throw new Fault(19);
return square;
}
function readEntries(from, n, states, seen) {
const list = [];
const known = new Set(), numbers = new Map();
for (let k = 0; k < n; k++) {
const level = from.u8();
if (level < 3 || level > TOP) throw new Fault(19);
let square, key;
if (level === 3) {
const at = from.at;
square = readLeaf(from, states, seen);
key = String.fromCharCode(...from.bytes.subarray(at, at + LEAF_BYTES));
} else {
const quarters = [];
for (let q = 0; q < 4; q++) quarters.push(readQuarter(from, level - 1, list, seen));
square = nodeOf(level, quarters);
key = quarters.map(q => q.blank ? `${q.c}.${q.r}` : numbers.get(q)).join() + "/" + level;
}
if (known.has(key)) throw new Fault(19);
known.add(key);
numbers.set(square, k);
list.push(square);
}
return list;
}
function isWalk(list) {
const met = new Set();
const go = (square) => {
if (square.blank || met.has(square)) return true;
if ("quarters" in square && !square.quarters.every(go)) return false;
met.add(square);
return list[met.size - 1] === square;
};
return go(list[list.length - 1]) && met.size === list.length;
}
function readState(bytes, rule, ruleOf) {
const from = new In(bytes), head = readHead(from, rule && rule.text), own = rule || (ruleOf && ruleOf(head.rule));
if (head.magic !== "GLWS") throw new Fault(14);
if (!own) throw new Fault(16);
const seen = { top: 0 };
let root;
if (head.version === 1) root = readSquare(from, TOP, own.states, seen);
else {
const n = from.u32(), list = n ? readEntries(from, n, own.states, seen) : [];
root = n ? list[n - 1] : readBlank(from, TOP, seen);
if (root.level !== TOP || n && !isWalk(list)) throw new Fault(19);
}
if (from.at < bytes.length) throw new Fault(20);
return new Tree(root, seen.top, head.rule);
}
return { Tree, readState };
})();
const m_board = (() => {
const { missing, stampWord } = m_drawings;
const { AWAY, Fault, MOST_CELLS, awaitNews, clipped, cutOf, handsPlane, hello, joined, pieces, poll, push, readDelta, readHello } = m_formats;
const { Line } = m_line;
const { Plane } = m_plane;
const { patternIn, placed } = m_rle;
const { readRule } = m_rules;
const { readState } = m_states;
const AWAIT = 20000, PATIENCE = 35000;
const SLOW = [5, 7, 10];
const FULL_INBOX = 20, POLLS = 50, LOST = 100, HIDDEN = 1000, NO_MEMORY = 1000, CLOSED = 5000, LONGEST = 5000, NO_SEAT = 10000;
const LAST_COUNTER = 2 ** 48 - 1;
const NO_EDIT = [8, 9, 10, 11, 14, 15, 16, 17, 18, 19, 20, 33];
class Board {
constructor(world, told, rule) {
this.world = world;
this.told = told;
this.rule = (readRule(rule));
this.seat = 1;
this.plane = new Plane();
this.pending = [];
this.state = "alone";
this.line = new Line();
this.published = 0;
this.tries = 0;
this.hasRead = false;
this.hasAwait = true;
this.hasCut = true;
}
draw(cells, area, stamps) {
if (cells.length === 0 && !area) return;
if (cells.length / 3 > MOST_CELLS) return this.told.refused(8);
if (this.plane.top >= LAST_COUNTER) return this.told.refused(24);
const edit = this.stamped({ c: 0, r: 0, area, cells, stamps, isBlind: !this.hasRead });
if (this.world) this.pending.push(edit);
this.told.map();
this.flush();
}
stamped(edit) {
if (edit.stamps) edit.stamps.delete(stampWord(edit.c, edit.r));
edit.c = this.plane.top + 1;
edit.r = this.seat;
if (edit.stamps) edit.stamps.add(stampWord(edit.c, edit.r));
this.plane.apply(edit);
return edit;
}
start(left = []) {
this.pending = left;
for (const { c } of left) this.plane.top = Math.max(this.plane.top, c);
this.open();
}
open() {
const line = this.line = new Line(), world = (this.world);
this.to("opening");
line.socket = world.connect({
opened: () => { if (this.line === line) this.greet(); },
came: body => { if (this.line === line) this.came(body); },
closed: () => { if (this.line === line) this.leave("away", Math.min(LONGEST, LOST * 2 ** ++this.tries)); },
});
this.watch();
}
watch(oldest) {
const [first] = this.line.waiting;
if (first && first === oldest && !SLOW.includes(first.kind)) return this.leave("away", LOST);
this.later(PATIENCE, () => this.watch(first));
}
leave(state, ms) {
const { line } = this;
this.line = new Line();
line.close();
this.to(state);
this.later(ms, () => this.open());
}
to(state) {
this.state = state;
this.told.state(state);
}
later(ms, call) {
const line = this.line;
(this.world).later(ms, () => { if (this.line === line) call(); });
}
came(body) {
try {
this.line.came(body);
} catch (fault) {
if (!(fault instanceof Fault)) throw fault;
this.told.refused(fault.number);
this.leave("away", LONGEST);
}
}
ask(body) {
return new Promise((done, refused) => {
if (this.state !== "open") return refused(new Fault(AWAY));
this.line.request(body, bodies => bodies[0][0] ? refused(new Fault(bodies[0][0])) : done(bodies), () => refused(new Fault(AWAY)));
});
}
greet() {
this.to("reading");
this.line.request(hello(), ([first]) => {
if (first[0] === 45) return this.leave("full", NO_SEAT);
if (first[0]) return this.refused(first[0], () => this.greet());
const { seat, rule } = readHello(first), own = readRule(rule);
if (!own) throw new Fault(16);
this.seat = seat;
this.rule = own;
this.read();
});
}
read() {
const window = this.hasCut && !this.hasRead ? (this.world).window() : null;
if (window) this.line.request(cutOf(clipped(window), 0), bodies => this.show(bodies));
this.line.request(poll(), bodies => this.begin(bodies));
}
show([first]) {
if (first[0] === 33) this.hasCut = false;
if (first[0]) return;
const plane = new Plane(), seen = patternIn(first);
if (!seen) return;
plane.apply({ c: 0, r: 0, area: null, cells: placed(seen) });
for (const edit of this.pending) plane.apply(edit);
this.replace(plane);
}
begin(bodies) {
if (bodies[0][0] === 21) return this.line.request(pieces(), rest => this.begin(rest));
if (bodies[0][0]) return this.refused(bodies[0][0], () => this.read());
const plane = this.planeOf(bodies);
const isAnew = plane.top < this.published, before = this.plane;
const left = this.pending.map(edit => edit.isBlind ? { ...edit, isBlind: false } : missing(edit, plane));
this.hasRead = true;
this.published = plane.top;
this.pending = [];
this.replace(plane);
for (const edit of left) if (edit) this.pending.push(this.stamped(edit));
this.tries = 0;
this.to("open");
if (isAnew) this.told.begunAnew(before);
this.flush();
}
planeOf(bodies) {
const plane = new Plane(), isPieces = bodies[0].length > 5;
if (isPieces) plane.load(readState(joined(bodies.slice(1)), this.rule));
else if (handsPlane(bodies[0])) plane.load(readState(bodies[1], this.rule));
else for (const body of bodies.slice(1)) for (const edit of readDelta(body, this.rule)) plane.apply(edit);
return plane;
}
replace(plane) {
plane.top = Math.max(plane.top, this.plane.top);
this.plane = plane;
this.told.map();
}
flush() {
if (this.state !== "open" || this.line.isPushing) return;
const edit = this.pending[0];
if (!edit) return this.listen();
this.line.isPushing = true;
this.line.request(push(this.rule.text, edit), ([reply]) => this.pushed(edit, reply[0]));
}
pushed(edit, number) {
const again = () => { this.line.isPushing = false; this.flush(); };
if (number === 29) return this.later(FULL_INBOX, again);
if (number !== 0) return this.unpublished(number, again);
this.pending.shift();
this.published = Math.max(this.published, edit.c);
this.told.map();
again();
}
unpublished(number, again) {
if (number === 30 || number === 255) return this.refused(number, again);
this.told.refused(number);
if (NO_EDIT.includes(number)) this.pending.shift();
this.to("reading");
this.line.isPushing = false;
this.line.request(pieces(), bodies => this.begin(bodies));
}
refused(number, again) {
this.told.refused(number);
if (number === 255) return this.later(NO_MEMORY, again);
this.leave(number === 30 ? "closed" : "away", CLOSED);
}
listen() {
const { line } = this;
if (line.isListening) return;
line.isListening = true;
this.line.request(this.hasAwait ? awaitNews(AWAIT) : poll(), bodies => this.heard(bodies));
}
heard(bodies) {
const [first] = bodies, again = () => { this.line.isListening = false; this.flush(); };
if (first[0] === 33 && this.hasAwait) { this.hasAwait = false; return again(); }
if (first[0] === 21) return this.line.request(pieces(), rest => this.heard(rest));
if (first[0]) return this.refused(first[0], again);
if (first.length === 5 && !handsPlane(first)) this.hear(bodies.slice(1));
else this.hearPlane(bodies);
const pause = (this.world).isHidden() ? HIDDEN : this.hasAwait ? 0 : POLLS;
if (pause) this.later(pause, again);
else again();
}
hear(deltas) {
for (const delta of deltas) for (const edit of readDelta(delta, this.rule)) {
this.plane.apply(edit);
this.published = Math.max(this.published, edit.c);
}
if (deltas.length) this.told.map();
}
hearPlane(bodies) {
const plane = this.planeOf(bodies);
this.published = Math.max(this.published, plane.top);
for (const edit of this.pending) plane.apply(edit);
this.replace(plane);
}
}
return { Board };
})();
const m_colours = (() => {
const mixed = (from, to, part) => (from.map((n, k) => Math.round(n + (to[k] - n) * part)));
function golly(s, states) {
if (s === 0) return [48, 48, 48];
return [255, states === 2 ? 0 : Math.floor((510 * (s - 1) + states - 2) / (2 * (states - 2))), 0];
}
const ways = (dead, live, from, to) => (s, states) =>
s === 0 ? dead : s === 1 ? live : mixed(from, to, (s - 2) / Math.max(1, states - 3));
const THEMES = [
{ name: "Golly", grid: "#484848", of: golly },
{ name: "Paper", grid: "#dddddd", of: ways([255, 255, 255], [20, 20, 20], [40, 90, 200], [200, 215, 245]) },
{ name: "Ocean", grid: "#0d2b45", of: ways([5, 20, 40], [235, 250, 255], [0, 190, 220], [20, 60, 130]) },
{ name: "Fire", grid: "#2a1a12", of: ways([15, 8, 5], [255, 245, 200], [255, 170, 40], [110, 20, 10]) },
{ name: "High contrast", grid: "#666666", of: ways([0, 0, 0], [255, 255, 255], [0, 200, 255], [255, 120, 255]) },
];
function seatColour(seat) {
const turn = seat * 137.508 % 360 / 60;
const part = (n) => Math.round(255 * (1 - 0.55 * Math.max(0, Math.min((n + turn) % 6, 4 - (n + turn) % 6, 1))));
return [part(5), part(3), part(1)];
}
const hex = colour => "#" + colour.map(n => n.toString(16).padStart(2, "0")).join("");
const pixel = ([r, g, b]) => (255 << 24 | b << 16 | g << 8 | r) >>> 0;
return { golly, THEMES, seatColour, hex, pixel };
})();
const m_patterns = (() => {
function triples(cells) {
const list = [];
for (let k = 0; k < cells.length; k += 3) list.push([cells[k], cells[k + 1], cells[k + 2]]);
return list;
}
const sorted = list => list.sort((p, q) => p[1] - q[1] || p[0] - q[0]).flat();
function tidy(list) {
const last = new Map();
for (const cell of list) last.set(`${cell[0]},${cell[1]}`, cell);
return sorted([...last.values()]);
}
const moved = (p, move) => sorted(triples(p.cells).map(([x, y, s]) => ([...move(x, y), s])));
const rotate = p => ({ w: p.h, h: p.w, cells: moved(p, (x, y) => [p.h - 1 - y, x]) });
const flipX = p => ({ w: p.w, h: p.h, cells: moved(p, (x, y) => [p.w - 1 - x, y]) });
const flipY = p => ({ w: p.w, h: p.h, cells: moved(p, (x, y) => [x, p.h - 1 - y]) });
return { triples, sorted, tidy, rotate, flipX, flipY };
})();
const m_undo = (() => {
const { stampWord } = m_drawings;
const { tidy } = m_patterns;
const MOST = 500;
class Strokes {
constructor() {
this.done = [];
this.undone = [];
}
begin() {
const stroke = { changes: new Map(), stamps: new Set() };
this.done.push(stroke);
this.undone = [];
if (this.done.length > MOST) this.done.shift();
return stroke;
}
drop(stroke) {
if (this.done[this.done.length - 1] === stroke) this.done.pop();
}
static note(stroke, x, y, before, after) {
const key = `${x},${y}`, old = stroke.changes.get(key);
stroke.changes.set(key, { x, y, before: old ? old.before : before, after });
}
undo(plane) { return take(plane, this.done, this.undone, "before"); }
redo(plane) { return take(plane, this.undone, this.done, "after"); }
}
function take(plane, from, to, which) {
const stroke = from.pop();
if (!stroke) return null;
const list = [];
for (const change of stroke.changes.values()) {
const w = plane.at(change.x, change.y);
if (stroke.stamps.has(stampWord(w.c, w.r))) list.push([change.x, change.y, change[which]]);
}
const again = { changes: stroke.changes, stamps: new Set() };
to.push(again);
return { cells: tidy(list), stroke: again };
}
return { Strokes };
})();
const m_editor = (() => {
const { HALF, clipped, inPlane } = m_formats;
const { sorted, tidy, triples } = m_patterns;
const { writeRLE } = m_rle;
const { Strokes } = m_undo;
const OUTSIDE = "It leaves the plane.";
const NO_STATE = "The rule has no such state.";
const PIECE = 30;
class Editor {
constructor(board) {
this.board = board;
this.strokes = new Strokes();
this.open = null;
this.clip = null;
}
begin(due) { this.open = { stroke: this.strokes.begin(), cells: [], due, isSent: false }; }
line(from, to, s) {
const n = Math.max(Math.abs(to[0] - from[0]), Math.abs(to[1] - from[1]), 1);
for (let i = 0; i <= n; i++) {
this.dab(Math.round(from[0] + (to[0] - from[0]) * i / n), Math.round(from[1] + (to[1] - from[1]) * i / n), s);
}
}
dab(x, y, s) {
if (!this.open || !inPlane(x, y)) return;
const { stroke, cells } = this.open, old = this.board.plane.state(x, y);
if (old === s && !cells.some(c => c[0] === x && c[1] === y)) return;
Strokes.note(stroke, x, y, old, s);
cells.push([x, y, s]);
}
send(now) {
const { open } = this;
if (!open || open.cells.length === 0 || now < open.due) return;
const cells = tidy(open.cells);
open.cells = [];
open.isSent = true;
open.due = now + PIECE;
this.board.draw(cells, null, open.stroke.stamps);
}
end() {
const { open } = this;
if (!open) return;
this.send(Infinity);
if (!open.isSent) this.strokes.drop(open.stroke);
this.open = null;
}
giveUp() {
if (this.open) this.open.cells = [];
this.end();
}
put(list, area = null) {
if (list.length === 0 && !area) return;
const { plane } = this.board, stroke = this.strokes.begin();
if (area) for (const [x, y, s] of triples(plane.cells(area))) Strokes.note(stroke, x, y, s, 0);
for (const [x, y, s] of list) Strokes.note(stroke, x, y, plane.state(x, y), s);
this.board.draw(tidy(list), area, stroke.stamps);
}
land(held, x, y, mode) {
const list = triples(held.cells).map(([u, v, s]) => ([u + x, v + y, s]));
if (list.some(([, , s]) => s >= this.board.rule.states)) return NO_STATE;
const box = mode === "copy" && held.w > 0 && held.h > 0 ? { x, y, w: held.w, h: held.h } : null;
if (!list.every(([u, v]) => inPlane(u, v)) || box && !this.isInside(box)) return OUTSIDE;
this.put(list, box);
return null;
}
isInside(box) { return inPlane(box.x, box.y) && box.x + box.w <= HALF && box.y + box.h <= HALF; }
clear(box) {
const inside = clipped(box);
if (inside.w > 0 && inside.h > 0) this.put([], inside);
}
taken(box, from) {
const cells = from.cells(box);
const held = { w: box.w, h: box.h, cells: cells.map((n, k) => k % 3 === 0 ? n - box.x : k % 3 === 1 ? n - box.y : n) };
return { held, text: writeRLE(cells, this.board.rule, 0, box) };
}
turn(box, how) {
const { held } = this.taken(box, this.board.plane), after = how(held);
const cells = new Map(triples(held.cells).map(([u, v]) => [`${u},${v}`, ([box.x + u, box.y + v, 0])]));
for (const [u, v, s] of triples(after.cells)) cells.set(`${u},${v}`, [box.x + u, box.y + v, s]);
const now = { x: box.x, y: box.y, w: after.w, h: after.h };
if (!this.isInside(now)) return OUTSIDE;
this.put([...cells.values()]);
return now;
}
again(which) {
const taken = this.strokes[which](this.board.plane);
if (!taken) return null;
this.board.draw(taken.cells, null, taken.stroke.stamps);
return taken.cells.length / 3;
}
}
const textOf = (from, rule, gen, box) => writeRLE(from.cells(box || undefined), rule, gen);
function heldOf(cells) {
const list = triples(cells);
const x = list.reduce((n, c) => Math.min(n, c[0]), Infinity), y = list.reduce((n, c) => Math.min(n, c[1]), Infinity);
const moved = list.map(([u, v, s]) => ([u - x, v - y, s]));
const side = (k) => moved.reduce((n, c) => Math.max(n, c[k] + 1), 0);
return { w: side(0), h: side(1), cells: sorted(moved) };
}
return { OUTSIDE, NO_STATE, Editor, textOf, heldOf };
})();
const m_generations = (() => {
const { CELLS, SIDE, Tiled, placeIn, tileKey, tileOf } = m_tiles;
const PAD = SIDE + 2, framed = new Uint8Array(PAD * PAD), threes = new Uint8Array(PAD * PAD);
class Grid extends Tiled {
static of(board) {
const grid = new Grid();
for (const [key, t] of board.tiles) if (t.n) grid.tiles.set(key, { tx: t.tx, ty: t.ty, n: t.n, s: t.s.slice() });
grid.population = board.population;
return grid;
}
static from(cells, dx = 0, dy = 0) {
const grid = new Grid();
for (let k = 0; k < cells.length; k += 3) grid.set(cells[k] + dx, cells[k + 1] + dy, cells[k + 2]);
return grid;
}
set(x, y, s) {
const tx = tileOf(x), ty = tileOf(y), key = tileKey(tx, ty);
let t = this.tiles.get(key);
if (!t) this.tiles.set(key, t = { tx, ty, n: 0, s: new Uint8Array(CELLS) });
const i = placeIn(x, y), change = (s ? 1 : 0) - (t.s[i] ? 1 : 0);
t.s[i] = s;
t.n += change;
this.population += change;
}
next(rule) {
const after = new Grid(), table = tableOf(rule);
for (const [key, [tx, ty]] of this.reached()) {
const t = this.step(tx, ty, table);
if (t.n === 0) continue;
after.tiles.set(key, t);
after.population += t.n;
}
return after;
}
reached() {
const list = new Map();
for (const { tx, ty, n, s } of this.tiles.values()) {
if (n === 0) continue;
list.set(tileKey(tx, ty), [tx, ty]);
let west = 0, east = 0, north = 0, south = 0;
for (let i = 0; i < SIDE; i++) {
if (s[i * SIDE] === 1) west = -1;
if (s[i * SIDE + SIDE - 1] === 1) east = 1;
if (s[i] === 1) north = -1;
if (s[CELLS - SIDE + i] === 1) south = 1;
}
for (let j = north; j <= south; j++) for (let i = west; i <= east; i++) {
if (i || j) list.set(tileKey(tx + i, ty + j), [tx + i, ty + j]);
}
}
return list;
}
frame(tx, ty) {
framed.fill(0);
for (let j = -1; j <= 1; j++) for (let i = -1; i <= 1; i++) {
const t = this.tiles.get(tileKey(tx + i, ty + j));
if (t === undefined || t.n === 0) continue;
const s = t.s, x0 = i < 0 ? SIDE - 1 : 0, x1 = i > 0 ? 1 : SIDE, y0 = j < 0 ? SIDE - 1 : 0, y1 = j > 0 ? 1 : SIDE;
for (let y = y0; y < y1; y++) {
const row = (y + j * SIDE + 1) * PAD + i * SIDE + 1;
for (let x = x0; x < x1; x++) framed[row + x] = s[y * SIDE + x];
}
}
}
step(tx, ty, table) {
this.frame(tx, ty);
let west = 0, here = framed[0] === 1 ? 1 : 0;
for (let p = 0; p < PAD * PAD - 1; p++) {
const east = framed[p + 1] === 1 ? 1 : 0;
threes[p] = west + here + east;
west = here;
here = east;
}
const s = new Uint8Array(CELLS);
let n = 0;
for (let y = 0, i = 0; y < SIDE; y++) {
for (let x = 0, p = (y + 1) * PAD + 1; x < SIDE; x++, p++, i++) {
const is = table[10 * framed[p] + threes[p - PAD] + threes[p] + threes[p + PAD]];
s[i] = is;
if (is !== 0) n++;
}
}
return { tx, ty, n, s };
}
}
function tableOf({ survives, born, states }) {
const table = new Uint8Array(10 * states);
for (let n = 0; n <= 9; n++) {
table[n] = born >> n & 1;
table[10 + n] = n > 0 && survives >> n - 1 & 1 ? 1 : 2 % states;
for (let s = 2; s < states; s++) table[10 * s + n] = (s + 1) % states;
}
return table;
}
return { Grid };
})();
const m_names = (() => {
const LAST_SEAT = 65535, LONGEST = 40;
const cleaned = text => text.replace(/[\u0000-\u001f\u007f-\u009f,:]+/g, " ").trim().slice(0, LONGEST);
function nameSeat(names, seat, text) {
if (!Number.isInteger(seat) || seat < 1 || seat > LAST_SEAT) return null;
const name = cleaned(text);
if (name) names.set(seat, name);
else names.delete(seat);
return name;
}
function readNames(text) {
const names = new Map();
for (const [, seat, name] of text.matchAll(/(?:^|,)(\d{1,5}):([^,]*)/g)) nameSeat(names, Number(seat), name);
return names;
}
const namesText = names => [...names].map(([seat, name]) => `${seat}:${name}`).join();
function whoIs(names, seat) {
const name = names.get(seat);
return name ? `${name}, seat ${seat}` : `seat ${seat}`;
}
return { nameSeat, readNames, namesText, whoIs };
})();
const m_pictures = (() => {
const { golly, hex } = m_colours;
function runs(cells, state) {
let path = "";
for (let k = 0; k < cells.length;) {
const x = cells[k], y = cells[k + 1];
if (cells[k + 2] !== state) { k += 3; continue; }
let n = 0;
while (k < cells.length && cells[k] === x + n && cells[k + 1] === y && cells[k + 2] === state) { n++; k += 3; }
path += rectangle(x, y, n, 1);
}
return path;
}
const rectangle = (x, y, w, h) => `M${x} ${y}h${w}v${h}h-${w}z`;
function paths(cells, states) {
let text = "";
for (let s = 1; s < states; s++) {
const path = runs(cells, s);
if (path) text += `<path class="s${s}" fill="${hex(golly(s, states))}" d="${path}"/>\n`;
}
return text;
}
const opening = ({ x, y, w, h }, states) => `<svg xmlns="http://www.w3.org/2000/svg" viewBox="${x} ${y} ${w} ${h}" shape-rendering="crispEdges">\n` +
`<path class="s0" fill="${hex(golly(0, states))}" d="${rectangle(x, y, w, h)}"/>\n`;
const svgOf = (cells, box, states) => opening(box, states) + paths(cells, states) + "</svg>\n";
function filmOf(looks, box, states, rate) {
const seconds = (looks.length / rate).toFixed(3), part = (k) => (k / looks.length).toFixed(6);
const turns = looks.map(({ cells }, k) => {
const [values, times] = k === 0 ? ["visible;hidden", `0;${part(1)}`] : ["hidden;visible;hidden", `0;${part(k)};${part(k + 1)}`];
const turn = looks.length === 1 ? "" :
`<animate attributeName="visibility" calcMode="discrete" dur="${seconds}s" repeatCount="indefinite" values="${values}" keyTimes="${times}"/>\n`;
return `<g visibility="${k === 0 ? "visible" : "hidden"}">\n${turn}${paths(cells, states)}</g>\n`;
});
return opening(box, states) + turns.join("") + "</svg>\n";
}
function around(boxes) {
const all = (boxes.filter(b => b));
if (all.length === 0) return null;
const x = Math.min(...all.map(b => b.x)), y = Math.min(...all.map(b => b.y));
return { x, y, w: Math.max(...all.map(b => b.x + b.w)) - x, h: Math.max(...all.map(b => b.y + b.h)) - y };
}
return { svgOf, filmOf, around };
})();
const m_library = (() => {
const under = (rule, list) => list.map(([name, by, rle, does]) => ({ name, rule, by, rle, does }));
const LIBRARY = [
...under("23/3/2", [
["glider", "Richard Guy", "bo$2bo$3o!", { period: 4, x: 1, y: 1 }],
["lightweight spaceship", "John Conway", "bo2bo$o$o3bo$4o!", { period: 4, x: -2 }],
["middleweight spaceship", "John Conway", "3bo$bo3bo$o$o4bo$5o!", { period: 4, x: -2 }],
["heavyweight spaceship", "John Conway", "3b2o$bo4bo$o$o5bo$6o!", { period: 4, x: -2 }],
["copperhead", "zdr", "b2o2b2o$3b2o$3b2o$obo2bobo$o6bo2$o6bo$b2o2b2o$2b4o2$3b2o$3b2o!", { period: 10, y: -1 }],
["loafer", "Josh Ball", "b2o2bob2o$o2bo2b2o$bobo$2bo$8bo$6b3o$5bo$6bo$7b2o!", { period: 7, x: -1 }],
["weekender", "David Eppstein", "bo12bo$bo12bo$obo10bobo$bo12bo$bo12bo$2bo3b4o3bo$6b4o$2b4o4b4o2$4bo6bo$5b2o2b2o!", { period: 7, y: -2 }],
["turtle", "Dean Hickerson", "b3o7bo$b2o2bob2ob2o$3b3o4bo$bo2bobo3bo$o4bo4bo$o4bo4bo$bo2bobo3bo$3b3o4bo$b2o2bob2ob2o$b3o7bo!", { period: 3, x: -1 }],
["dart", "David Bell", "7bo$6bobo$5bo3bo$6b3o2$4b2o3b2o$2bo3bobo3bo$b2o3bobo3b2o$o5bobo5bo$bob2obobob2obo!", { period: 3, y: -1 }],
["crab", "Jason Summers", "8b2o$7b2o$9bo$11b2o$10bo2$9bo2bo$b2o5b2o$2o5bo$2bo4bobo$4b2o2bo$4b2o!", { period: 4, x: -1, y: -1 }],
["Canada goose", "Jason Summers", "3o$o9b2o$bo6b3obo$3b2o2b2o$4bo$8bo$4b2o3bo$3bobob2o$3bobo2bob2o$2bo4b2o$2b2o$2b2o!", { period: 4, x: -1, y: -1 }],
["Gosper glider gun", "Bill Gosper", "24bo$22bobo$12b2o6b2o12b2o$11bo3bo4b2o12b2o$2o8bo5bo3b2o$2o8bo3bob2o4bobo$10bo5bo7bo$11bo3bo$12b2o!", { every: 30, grows: 5, from: 0 }],
["Simkin glider gun", "Michael Simkin", "2o5b2o$2o5b2o2$4b2o$4b2o5$22b2ob2o$21bo5bo$21bo6bo2b2o$21b3o3bo3b2o$26bo4$20b2o$20bo$21b3o$23bo!", { every: 120, grows: 5, from: 240 }],
["pulsar", "John Conway", "2b3o3b3o2$o4bobo4bo$o4bobo4bo$o4bobo4bo$2b3o3b3o2$2b3o3b3o$o4bobo4bo$o4bobo4bo$o4bobo4bo2$2b3o3b3o!", { period: 3 }],
["pentadecathlon", "John Conway", "2bo4bo$2ob4ob2o$2bo4bo!", { period: 15 }],
["toad", "Simon Norton", "b3o$3o!", { period: 2 }],
["figure eight", "Simon Norton", "3o$3o$3o$3b3o$3b3o$3b3o!", { period: 8 }],
["Kok's galaxy", "Jan Kok", "6ob2o$6ob2o$7b2o$2o5b2o$2o5b2o$2o5b2o$2o$2ob6o$2ob6o!", { period: 8 }],
["tumbler", "George Collins", "b2ob2o$b2ob2o$2bobo$obobobo$obobobo$2o3b2o!", { period: 14 }],
["queen bee shuttle", "Bill Gosper", "9bo$7bobo$6bobo$2o3bo2bo11b2o$2o4bobo11b2o$7bobo$9bo!", { period: 30 }],
["twin bees shuttle", "Bill Gosper", "17b2o$2o15bobo7b2o$2o17bo7b2o$17b3o4$17b3o$2o17bo7b2o$2o15bobo7b2o$17b2o!", { period: 46 }],
["caterer", "Dean Hickerson", "2bo$o3b4o$o3bo$o$3bo$b2o!", { period: 3 }],
["eater 1", "Bill Gosper", "2o$obo$2bo$2b2o!", { period: 1 }],
["R-pentomino", "John Conway", "b2o$2o$bo!", { at: 1103, cells: 116 }],
["acorn", "Charles Corderman", "bo$3bo$2o2b3o!", { at: 5206, cells: 633 }],
["diehard", "", "6bo$2o$bo3b3o!", { at: 130, cells: 0 }],
]),
...under("23/36/2", [["replicator", "Nathan Thompson", "2b3o$bo2bo$o3bo$o2bo$3o!", { every: 12, grows: 12, from: 0 }]]),
...under("34678/3678/2", [["oscillator of period 16", "", "3o$2o!", { period: 16 }]]),
...under("/2/2", [["spaceship", "", "b2o$o2bo!", { period: 1, y: -1 }]]),
...under("/2/3", [
["spaceship", "", "AB$AB!", { period: 1, x: -1 }],
["diagonal spaceship", "", "A$2B$A.A$2.B!", { period: 4, x: -1, y: 1 }],
]),
...under("345/2/4", [
["spaceship", "", "2C$2B$2A!", { period: 1, y: 1 }],
["oscillator of period 4", "", "2.B$.CACA$B2.2B$.CACA$2.B!", { period: 4 }],
["oscillator of period 12", "", "A.A$B3A$C.A!", { period: 12 }],
]),
...under("12/34/3", [
["spaceship", "", ".2A$A2.A$A2.A!", { period: 5, y: 1 }],
["oscillator of period 18", "", "3.A$B.3A.B3$.2A.2A!", { period: 18 }],
]),
...under("3456/2/6", [
["spaceship", "", "EDCBA$EDCBA!", { period: 1, x: 1 }],
["oscillator of period 42", "", "3.A$.AB.BA$BCECECB$.2A.2A$.2A.2A$.2A.2A$.2A.2A$D5AD$.A3.A!", { period: 42 }],
]),
...under("345/26/5", [["spaceship of period 4", "", ".2A$.3A$A2B$.3A$CDA$2BC$.A2.D$DCD$2.DC!", { period: 4, y: -4 }]]),
...under("2/234/5", [["spaceship", "", "DCBA$DCBA!", { period: 1, x: 1 }]]),
];
return { LIBRARY };
})();
const m_words = (() => {
const { NAMES } = m_formats;
const REFUSALS = {
0: "The server is away. Try again when it is back.",
8: "That is too many cells for one drawing: 1,048,576 are the most. Draw it in parts.",
9: "Nothing would be drawn.",
10: "It leaves the plane, which goes from -1,073,741,824 to 1,073,741,823.",
11: "The board's rule has no such state. The board is shown as the server has it.",
13: "That wants more room than there is. Of a generation, try an earlier one; a board that wide is for `genedit join`.",
21: "That is too great for one message of 16 MB.",
22: "Generation 536,870,912 is the last.",
23: "That generation has more than 16,777,216 cells.",
24: "The clock of this board is full: nothing can be drawn any more.",
28: "The seat was given to another page. What you drew is drawn again.",
30: "The board is closed. What you drew is kept in this page; save it as RLE.",
33: "The server does not know this request.",
40: "The drawing came too late. It is drawn again.",
45: "All seats of the board are taken. Whoever serves it can begin one with more seats.",
255: "The server has no memory left. The page tries again.",
};
const refusalWords = number => REFUSALS[number] || `The server refused it: ${number} ${NAMES[number] || ""}. The board is shown as the server has it.`;
function stateWords(state, seat) {
switch (state) {
case "alone": return "on your own";
case "opening": return "connecting";
case "reading": return "reading the board";
case "open": return `seat ${seat}`;
case "away": return "no server";
case "full": return "no seat left";
case "closed": return "closed";
}
}
function lineWords(state, tries) {
if (state === "away" && tries === 4) return "No connection. Is the server running, and is the link whole? What you draw is kept here, and drawn on the board when it is back.";
if (state === "full") return refusalWords(45) + " The page asks again every ten seconds; until then you see nothing of it.";
if (state === "closed") return refusalWords(30);
return "";
}
const ALONE = "This is a board of your own. To draw with others, open the link that their server printed, whole.";
const NOT_PROVED = "written by the page, and not proved";
const HELD = "Click or press Enter where it is to go. > and < turn it, x and y flip it, Escape lets go of it.";
const KEYS = `Enter       play, stop            space   step
b           one look back         Escape  back to the board
[ ]         zoom                  1 2 4 8 6  pixels for a cell, 6 for 16
f F         fit the pattern, fit the selection      m  the middle
d e i s v   draw, erase, pick a state, select, move the view
, .         the state before, the state after
arrows      move the cursor; with Shift they select, with Alt they draw,
            with Ctrl they move the view
d e         draw or erase at the cursor
Enter       puts down what is held        > < x y  turn and flip it
Ctrl-Z Ctrl-Y       undo, redo            Ctrl-X C V  cut, copy, paste
Ctrl-A      select all            Delete  clear the selection     k  no selection
+ -         faster, slower        w  who drew        c  colours
o           open a file           r  save RLE        h  this page

An RLE text is dropped or pasted anywhere. Two fingers move and zoom the view.`;
return { refusalWords, stateWords, lineWords, ALONE, NOT_PROVED, HELD, KEYS };
})();
const m_panel = (() => {
const { THEMES, hex, seatColour } = m_colours;
const { LIBRARY } = m_library;
const { whoIs } = m_names;
const { NAMED, readRule, ruleName } = m_rules;
const { CELLS } = m_tiles;
const { stateWords } = m_words;
const part = id => (document.getElementById(id));
const field = id => (document.getElementById(id));
const say = text => { part("say").textContent = text; };
const STRIDES = 11;
function addTo(id, text, value) {
const option = document.createElement("option");
option.textContent = text;
option.value = value;
part(id).append(option);
}
function fillLists() {
for (let k = 0; k < STRIDES; k++) addTo("stride", String(2 ** k), String(2 ** k));
THEMES.forEach(({ name }, k) => addTo("theme", name, String(k)));
for (const [name, text] of NAMED) addTo("rules", text, name);
}
function fillByRule(app) {
const { rule } = app.board;
part("library").textContent = "";
addTo("library", "library of patterns", "");
LIBRARY.forEach((entry, k) => {
const fits = entry.rule === rule.text, of = (readRule(entry.rule));
if (!fits && app.board.state !== "alone") return;
addTo("library", `${entry.name}${fits ? "" : ` (${ruleName(of)})`}${entry.by ? ", " + entry.by : ""}`, String(k));
});
field("rulename").value = ruleName(rule).replace(` ${rule.text}`, "");
part("ruler").hidden = app.board.state !== "alone";
showSwatches(app);
}
function showSwatches(app) {
const list = part("swatches"), { states } = app.board.rule;
if (list.children.length !== states) {
list.textContent = "";
for (let s = 0; s < states; s++) {
const button = document.createElement("button");
button.addEventListener("click", () => app.choose(s));
list.append(button);
}
}
[...list.children].forEach((child, s) => {
const button = (child);
button.style.background = hex(app.view.colourOf(s));
button.setAttribute("aria-label", s === 0 ? "state 0, dead" : s === 1 ? "state 1, live" : `state ${s}`);
button.setAttribute("aria-pressed", String(s === app.state));
if (s === app.state && list.scrollWidth > list.clientWidth) list.scrollLeft = button.offsetLeft - list.offsetLeft - list.clientWidth / 2;
});
}
function showTools(app) {
for (const button of document.querySelectorAll("[data-tool]")) {
button.setAttribute("aria-pressed", String((button).dataset.tool === app.tool));
}
part("play").textContent = app.player.isPlaying ? "stop" : "play";
part("authors").setAttribute("aria-pressed", String(app.view.showsSeats));
field("rate").value = String(app.player.rate);
part("ratetold").textContent = `${app.player.rate} looks a second`;
field("stride").value = String(app.player.stride);
field("theme").value = String(THEMES.indexOf(app.view.theme));
}
function showFacts(app) {
const { board, player, view } = app, [x, y] = view.place, shown = player.shown, write = board.plane.at(x, y);
if (app.boxOf !== shown || app.boxAt !== `${shown.population} ${board.plane.top}`) {
app.boxOf = shown;
app.boxAt = `${shown.population} ${board.plane.top}`;
app.box = shown.box();
}
const { box } = app, words = [
player.look ? `generation ${player.gen}, a look` : "the board", `population ${shown.population}`,
box ? `box ${box.w} x ${box.h} at ${box.x} ${box.y}` : "empty",
`x ${x} y ${y}: state ${shown.state(x, y)}${write.r && !player.look && board.state !== "alone" ? ` by ${whoIs(app.names, write.r)}` : ""}`,
`zoom ${view.zoom >= 1 ? view.zoom : "1/" + 1 / view.zoom}`,
];
if (board.pending.length) words.push(`not confirmed ${board.pending.length}`);
part("facts").textContent = words.join("   ");
part("seat").textContent = `${stateWords(board.state, board.seat)}   ${ruleName(board.rule)}`;
}
function showWho(app) {
const list = part("who"), counts = new Map();
list.textContent = "";
if (!app.view.showsSeats) return;
for (const t of app.board.plane.tiles.values()) if (t.n) for (let i = 0; i < CELLS; i++) if (t.s[i]) counts.set(t.r[i], (counts.get(t.r[i]) || 0) + 1);
for (const [seat, n] of [...counts].sort((a, b) => a[0] - b[0])) {
const mark = document.createElement("span");
mark.style.background = hex(seatColour(seat));
mark.textContent = `${whoIs(app.names, seat)}${seat === app.board.seat ? ", you" : ""}: ${n}`;
list.append(mark);
}
}
return { part, field, say, fillLists, fillByRule, showSwatches, showTools, showFacts, showWho };
})();
const m_files = (() => {
const { Fault, clipped, cutOf, exportOf, many, textIn } = m_formats;
const { heldOf, textOf } = m_editor;
const { Grid } = m_generations;
const { namesText } = m_names;
const { around, filmOf, svgOf } = m_pictures;
const { field, say } = m_panel;
const { boxOf, forFile, placed, readRLE } = m_rle;
const { readRule } = m_rules;
const { readState } = m_states;
const { NOT_PROVED, refusalWords } = m_words;
const LAST = 2 ** 29, MOST_PICTURES = 300, MOST_FILMED = 10 ** 6, MOST_LINK = 8000;
function wordsOf(fault) {
if (fault instanceof Fault) return refusalWords(fault.number);
throw fault;
}
function give(name, blob) {
const link = document.createElement("a"), url = URL.createObjectURL(blob);
link.href = url;
link.download = name;
link.click();
setTimeout(() => URL.revokeObjectURL(url), 10000);
}
async function exported(app, gen, box) {
if (app.board.state === "open") {
const [body] = await app.board.ask(box ? cutOf(clipped(box), gen) : exportOf(gen));
return textIn(body);
}
const grid = app.player.look && app.player.gen === gen ? app.player.look.grid : await reached(app, gen);
return grid && textOf(grid, app.board.rule, gen, box);
}
const reached = (app, gen) => app.player.reach(gen, at => say(`Generation ${at} of ${gen}. Escape gives it up.`));
async function withGeneration(app, box, call) {
const gen = Number(field("gen").value);
if (!Number.isInteger(gen) || gen < 0 || gen > LAST) return say("A generation is a number from 0 to 536,870,912.");
try {
app.player.isPlaying = false;
const text = await exported(app, gen, box);
if (text !== null) call(readRLE(text), gen);
} catch (fault) { say(wordsOf(fault)); }
}
const showGeneration = app => withGeneration(app, null, (p, gen) => {
app.player.show({ grid: Grid.from(p.cells, p.x, p.y), gen });
app.view.fit();
say(`Generation ${gen}, population ${p.cells.length / 3}.`);
});
const count = app => withGeneration(app, app.view.selection, (p, gen) => {
const box = p.cells.length ? `, box ${p.w} x ${p.h} at ${p.x} ${p.y}` : "";
say(`Generation ${gen}${app.view.selection ? ", in the selection" : ""}: ${p.cells.length / 3} cells${box}.`);
});
async function save(app) {
const { gen } = app.player, { selection } = app.view, isOwn = app.board.state !== "open";
try {
const shown = await exported(app, gen, selection);
if (shown === null) return;
const text = forFile(shown, app.board.rule);
give(`pazgrot-${gen}.rle`, new Blob([text]));
say(`Saved ${selection ? "the selection of " : ""}generation ${gen}, ${text.length} bytes${isOwn ? ", " + NOT_PROVED : ", written by the server"}.`);
} catch (fault) { say(wordsOf(fault)); }
}
function seen(app) {
const { selection } = app.view, cells = app.player.shown.cells(selection || undefined);
return { cells, box: selection || boxOf(cells) || { x: 0, y: 0, w: 0, h: 0 } };
}
function saveSeen(app) {
const { cells, box } = seen(app);
give(`pazgrot-${app.player.gen}.svg`, new Blob([svgOf(cells, box, app.board.rule.states)]));
say(`Saved a picture of ${cells.length / 3} cells.`);
}
function savePicture(app) {
app.view.isDirty = true;
app.view.paint();
app.view.canvas.toBlob((blob) => {
if (!blob) return;
give(`pazgrot-${app.player.gen}.png`, blob);
say(`Saved what is seen, ${app.view.canvas.width} by ${app.view.canvas.height}.`);
});
}
async function looks(app, from, to) {
const list = [];
if (app.board.state === "open") {
const bodies = await app.board.ask(many(Array.from({ length: to - from + 1 }, (_, k) => from + k)));
for (const body of bodies.slice(1)) {
if (body[0]) throw new Fault(body[0]);
list.push({ cells: placed(readRLE(textIn(body))) });
}
return list;
}
let grid = await reached(app, from);
for (let gen = from; grid && gen <= to; gen++, grid = grid.next(app.board.rule)) list.push({ cells: grid.cells() });
return grid && list;
}
async function saveFilm(app) {
const from = Number(field("from").value), to = Number(field("to").value);
if (!(Number.isInteger(from) && Number.isInteger(to) && from >= 0 && from <= to && to <= LAST)) return say("A film goes from one generation to a later one.");
if (to - from >= MOST_PICTURES) return say(`A film has at most ${MOST_PICTURES} generations.`);
try {
const list = await looks(app, from, to);
if (!list) return;
if (list.reduce((n, { cells }) => n + cells.length / 3, 0) > MOST_FILMED) return say("That film has more than a million cells.");
const box = around(list.map(({ cells }) => boxOf(cells))) || { x: 0, y: 0, w: 1, h: 1 };
give(`pazgrot-${from}-${to}.svg`, new Blob([filmOf(list, box, app.board.rule.states, Math.min(app.player.rate, 30))]));
say(`Saved a film of ${list.length} generations.`);
} catch (fault) { say(wordsOf(fault)); }
}
async function share(app) {
const { view, board } = app, { x, y, w, h } = view.window(), at = `at=${x + (w >> 1)},${y + (h >> 1)},${view.zoom}`;
const base = location.href.split("#")[0];
let link = `${base}#${app.token}&${at}${app.names.size ? "&names=" + encodeURIComponent(namesText(app.names)) : ""}`;
if (board.state === "alone") {
link = `${base}#rule=${encodeURIComponent(board.rule.text)}&rle=${encodeURIComponent(textOf(board.plane, board.rule, 0))}&${at}`;
if (link.length > MOST_LINK) return say("The pattern is too long for a link: save it as RLE.");
}
const isCopied = navigator.clipboard && await navigator.clipboard.writeText(link).then(() => true, () => false);
say(isCopied ? "The link is copied." : link);
}
async function openFile(app, file) {
const bytes = new Uint8Array(await file.arrayBuffer());
if (String.fromCharCode(...bytes.subarray(0, 4)) !== "GLWS") return app.hold(new TextDecoder().decode(bytes), file.name);
try {
const cells = [], tree = readState(bytes, null, readRule);
tree.eachLive((leaf, x, y) => leaf.s.forEach((s, k) => { if (s) cells.push(x + (k & 7), y + (k >> 3), s); }));
return app.holdCells(heldOf(cells), tree.rule, file.name);
} catch (fault) {
say(`${file.name}: ${wordsOf(fault)}`);
return false;
}
}
return { showGeneration, count, save, saveSeen, savePicture, saveFilm, share, openFile };
})();
const m_start = (() => {
const { namesText, readNames } = m_names;
const { readRule } = m_rules;
const TOKEN = /^[0-9a-f]{32}$/i, KEY_BYTES = 16, PROBE = 80;
function decoded(word) {
try { return decodeURIComponent(word.replace(/\+/g, "%20")); } catch { return ""; }
}
function readLink() {
const words = location.hash.slice(1).split("&"), isWeb = /^https?:$/.test(location.protocol);
const said = (name) => decoded((words.find(w => w.startsWith(name + "=")) || "").slice(name.length + 1));
const token = isWeb ? words.find(w => TOKEN.test(w)) || "" : "", rle = said("rle");
const hasHeader = /^\s*(#|x\s*=)/.test(rle);
return { token, rule: readRule(said("rule")), rle: rle && !hasHeader ? "x = 0, y = 0\n" + rle : rle, at: said("at"), names: said("names") };
}
function placeOf(text) {
const numbers = text.split(",").map(Number);
return text && numbers.length === 3 && numbers.every(Number.isFinite) && numbers[2] > 0 ? numbers : null;
}
function kept(name) {
try { return sessionStorage.getItem(name); } catch { return null; }
}
function keep(name, text) {
try { sessionStorage.setItem(name, text); } catch { /* a page whose storage is off begins anew at a reload */ }
}
const keepNames = (token, names) => keep("names " + token, namesText(names));
const namesOf = ({ token, names }) => new Map([...readNames(kept("names " + token) || ""), ...readNames(names)]);
function isTaken(key) {
if (!key || typeof BroadcastChannel === "undefined") return Promise.resolve(false);
const channel = new BroadcastChannel("pazgrot");
return new Promise(done => {
channel.onmessage = ({ data }) => { if (data === "taken " + key) done(true); };
channel.postMessage("whose " + key);
setTimeout(() => { channel.close(); done(false); }, PROBE);
});
}
function hold(key) {
if (typeof BroadcastChannel === "undefined") return;
const channel = new BroadcastChannel("pazgrot");
channel.onmessage = ({ data }) => { if (data === "whose " + key) channel.postMessage("taken " + key); };
}
function drawingsOf(text) {
try { return JSON.parse(text); } catch { return []; }
}
async function takeKey(token) {
const old = token ? kept("key " + token) || "" : "", isMine = old !== "" && !await isTaken(old);
const left = isMine ? drawingsOf(kept("left " + token) || "[]") : [];
const key = isMine ? old : [...crypto.getRandomValues(new Uint8Array(KEY_BYTES))].map(b => b.toString(16).padStart(2, "0")).join("");
if (token) {
keep("key " + token, key);
hold(key);
}
return { key, left };
}
function keepPending(token, pending) {
keep("left " + token, JSON.stringify(pending.map(({ c, r, area, cells, isBlind }) => ({ c, r, area, cells, isBlind }))));
}
function worldOf(token, key, window) {
const url = `${location.protocol === "https:" ? "wss" : "ws"}://${location.host}/board?${token}.${key}`;
return {
connect(ear) {
const socket = new WebSocket(url);
socket.binaryType = "arraybuffer";
socket.onopen = () => ear.opened();
socket.onmessage = ({ data }) => { if (typeof data !== "string") ear.came(new Uint8Array(data)); };
socket.onclose = () => ear.closed();
return { send: body => { if (socket.readyState === WebSocket.OPEN) socket.send(body); }, close: () => socket.close() };
},
later: (ms, call) => { setTimeout(call, ms); },
isHidden: () => document.hidden,
window,
};
}
return { readLink, placeOf, keepNames, namesOf, takeKey, keepPending, worldOf };
})();
const m_commands = (() => {
const { THEMES } = m_colours;
const { count, save, saveFilm, savePicture, saveSeen, share, showGeneration } = m_files;
const { nameSeat } = m_names;
const { flipX, flipY, rotate } = m_patterns;
const { field, part, say, showWho } = m_panel;
const { readRule, ruleName } = m_rules;
const { keepNames } = m_start;
const { HELD } = m_words;
function chosen(app) {
const box = app.view.selection || app.player.shown.box();
if (!box) say("Nothing is there.");
return box;
}
function copy(app, isCut) {
const box = chosen(app);
if (!box) return;
const { held, text } = app.editor.taken(box, app.player.shown);
app.editor.clip = held;
app.copied = text;
if (navigator.clipboard) navigator.clipboard.writeText(text).catch(() => {});
const isDone = isCut && !app.player.look;
if (isDone) app.editor.clear(box);
say(`${isDone ? "Cut" : "Copied"} ${held.cells.length / 3} cells.`);
}
async function paste(app) {
const text = navigator.clipboard && navigator.clipboard.readText ? await navigator.clipboard.readText().catch(() => "") : "";
if (text && text !== app.copied && app.hold(text)) return;
pasteClip(app);
}
function pasteClip(app) {
if (!app.editor.clip) return say("Nothing was copied.");
app.view.held = app.editor.clip;
app.view.isDirty = true;
say(HELD);
}
function turn(app, how) {
const { view } = app;
view.isDirty = true;
if (view.held) { view.held = how(view.held); return; }
if (!view.selection) return say("Select cells, or hold a pattern.");
app.player.edit();
const now = app.editor.turn(view.selection, how);
if (typeof now === "string") return say(now);
view.selection = now;
say("Turned.");
}
function again(app, which) {
const n = app.editor.again(which);
if (n === null) return say(`Nothing to ${which}.`);
if (app.player.look) app.player.edit();
say(`${which}: ${n} cells`);
}
function takeRule(app) {
const rule = readRule(field("rulename").value);
if (!rule) return say("That is no rule. A rule is survival/birth/states, as 23/3/2, or as Golly has it, B3/S23, or a name.");
const cells = app.board.plane.cells();
if (cells.some((s, k) => k % 3 === 2 && s >= rule.states)) return say("The board has states that this rule has not. Clear them first.");
app.setRule(rule);
say(`The rule is ${ruleName(rule)}.`);
}
function takeName(app) {
const seat = Number(field("named").value), name = nameSeat(app.names, seat, field("name").value);
if (name === null) return say("A seat is a number from 1 to 65,535.");
keepNames(app.token, app.names);
app.changed();
showWho(app);
say(name ? `Seat ${seat} is ${name}, in this page and in the links that it gives.` : `Seat ${seat} has no name.`);
}
function commandsOf(app) {
const { view, player } = app, edited = () => { view.isDirty = true; };
return {
undo: () => again(app, "undo"), redo: () => again(app, "redo"),
cut: () => copy(app, true), copy: () => copy(app, false), paste: () => paste(app),
rotate: () => turn(app, rotate), flipx: () => turn(app, flipX), flipy: () => turn(app, flipY),
all: () => { view.selection = player.shown.box(); edited(); say(view.selection ? "All is selected." : "Nothing is there."); },
none: () => { view.selection = null; edited(); say("Nothing is selected."); },
clear: () => {
if (!view.selection) return say("Select what is to be cleared.");
player.edit();
app.editor.clear(view.selection);
say("Cleared.");
},
play: () => { player.toggle(); say(player.isPlaying ? "Playing." : `Stopped at generation ${player.gen}.`); },
step: () => { player.isPlaying = false; player.step(); say(`Generation ${player.gen}, population ${player.shown.population}.`); },
back: () => say(!player.back() ? "This is the board." : player.look ? `Generation ${player.gen}.` : "The board."),
edit: () => { view.held = null; view.selection = null; player.edit(); say("The board."); },
show: () => showGeneration(app), count: () => count(app),
open: () => field("file").click(), save: () => save(app), png: () => savePicture(app), svg: () => saveSeen(app), film: () => saveFilm(app), share: () => share(app),
rule: () => takeRule(app),
fit: () => view.fit(), nearer: () => view.zoomBy(true), further: () => view.zoomBy(false), middle: () => view.centre(0, 0),
who: () => { view.showsSeats = !view.showsSeats; edited(); app.changed(); showWho(app); },
name: () => takeName(app),
theme: () => app.setTheme(THEMES[(THEMES.indexOf(view.theme) + 1) % THEMES.length]),
help: () => (part("keys")).showModal(),
shut: () => (part("keys")).close(),
};
}
return { chosen, pasteClip, turn, commandsOf };
})();
const m_hands = (() => {
const { openFile } = m_files;
const { pasteClip } = m_commands;
const { part, say } = m_panel;
const TOUCH = 120;
const boxBetween = (a, b) => ({ x: Math.min(a[0], b[0]), y: Math.min(a[1], b[1]), w: Math.abs(a[0] - b[0]) + 1, h: Math.abs(a[1] - b[1]) + 1 });
class Hands {
constructor(app) {
this.app = app;
this.fingers = new Map();
this.grip = { kind: "none" };
const canvas = app.view.canvas;
canvas.addEventListener("pointerdown", e => this.down(e));
canvas.addEventListener("pointermove", e => this.moved(e));
for (const end of ["pointerup", "pointercancel"]) canvas.addEventListener(end, e => this.up((e)));
canvas.addEventListener("contextmenu", e => e.preventDefault());
canvas.addEventListener("wheel", e => this.wheel(e), { passive: false });
this.listenToDrops();
}
down(e) {
const { app } = this, { view } = app;
view.canvas.focus({ preventScroll: true });
if (e.isTrusted) view.canvas.setPointerCapture(e.pointerId);
this.fingers.set(e.pointerId, { x: e.clientX, y: e.clientY });
view.isKeyed = false;
view.pointer = view.cellAt(e);
view.isDirty = true;
if (this.fingers.size === 2) return this.pinch();
if (this.fingers.size > 2) return;
if (view.held && e.button === 0) return app.land();
if (app.tool === "pan" || e.button === 1 || e.altKey) this.grip = { kind: "move", x: e.clientX, y: e.clientY };
else if (app.tool === "pick") app.choose(app.player.shown.state(view.pointer[0], view.pointer[1]));
else if (app.tool === "select") this.select(view.pointer);
else this.draw(e, view.pointer);
}
select(at) {
this.grip = { kind: "select", from: at };
this.app.view.selection = boxBetween(at, at);
}
draw(e, at) {
const { app } = this, isThere = app.board.plane.state(at[0], at[1]) === app.state;
app.player.edit();
const state = app.tool === "erase" || e.button === 2 || isThere ? 0 : app.state, now = performance.now();
app.editor.begin(now + (e.pointerType === "touch" ? TOUCH : 0));
app.editor.line(at, at, state);
app.editor.send(now);
this.grip = { kind: "stroke", last: at, state };
}
pinch() {
const { app } = this;
if (this.grip.kind === "stroke") app.editor.giveUp();
if (this.grip.kind === "select") app.view.selection = null;
const { spread, x, y } = this.between();
this.grip = { kind: "pinch", spread, zoom: app.view.zoom, x, y };
}
between() {
const [a, b] = [...this.fingers.values()], { left, top } = this.app.view.canvas.getBoundingClientRect();
return { spread: Math.hypot(a.x - b.x, a.y - b.y), x: (a.x + b.x) / 2 - left, y: (a.y + b.y) / 2 - top };
}
moved(e) {
const { app, grip } = this, { view } = app, at = view.cellAt(e);
if (at[0] !== view.pointer[0] || at[1] !== view.pointer[1]) {
view.pointer = at;
if (e.buttons === 0 || !view.isKeyed) view.isDirty = true;
}
const finger = this.fingers.get(e.pointerId);
if (!finger) return;
finger.x = e.clientX;
finger.y = e.clientY;
if (grip.kind === "pinch" && this.fingers.size === 2) {
const { spread, x, y } = this.between();
view.move(grip.x - x, grip.y - y);
view.pinch(grip.zoom * spread / grip.spread, x, y);
grip.x = x;
grip.y = y;
} else if (grip.kind === "move") {
view.move(grip.x - e.clientX, grip.y - e.clientY);
grip.x = e.clientX;
grip.y = e.clientY;
} else if (grip.kind === "select") {
view.selection = boxBetween(grip.from, at);
view.isDirty = true;
} else if (grip.kind === "stroke") {
app.editor.line(grip.last, at, grip.state);
grip.last = at;
app.editor.send(performance.now());
}
}
up(e) {
const { app } = this;
this.fingers.delete(e.pointerId);
if (this.grip.kind === "stroke") app.editor.end();
if (this.grip.kind === "select" && app.view.selection) say(`Selected ${app.view.selection.w} by ${app.view.selection.h}.`);
if (this.fingers.size === 0 || this.grip.kind !== "pinch") this.grip = { kind: "none" };
}
wheel(e) {
e.preventDefault();
const { left, top } = this.app.view.canvas.getBoundingClientRect();
this.app.view.zoomBy(e.deltaY < 0, e.clientX - left, e.clientY - top);
}
listenToDrops() {
const { app } = this, drop = part("drop");
document.addEventListener("dragover", e => { e.preventDefault(); drop.classList.add("shown"); });
document.addEventListener("dragleave", e => { if (!e.relatedTarget) drop.classList.remove("shown"); });
document.addEventListener("drop", async e => {
e.preventDefault();
drop.classList.remove("shown");
if (!e.dataTransfer) return;
const [file] = e.dataTransfer.files;
app.view.pointer = app.view.cellAt(e);
if (file) await openFile(app, file);
else app.hold(e.dataTransfer.getData("text"));
});
document.addEventListener("paste", e => {
if ((e.target).tagName === "INPUT" || !e.clipboardData) return;
e.preventDefault();
const text = e.clipboardData.getData("text");
if (text && text !== app.copied) app.hold(text);
else pasteClip(app);
});
}
}
return { boxBetween, Hands };
})();
const m_keys = (() => {
const { chosen, turn } = m_commands;
const { inPlane } = m_formats;
const { boxBetween } = m_hands;
const { part, say } = m_panel;
const { rotate } = m_patterns;
const ARROWS = { ArrowLeft: [-1, 0], ArrowRight: [1, 0], ArrowUp: [0, -1], ArrowDown: [0, 1] };
const COMMANDS = {
" ": "step", b: "back", Escape: "edit", f: "fit", m: "middle", ">": "rotate", x: "flipx", y: "flipy", Delete: "clear", Backspace: "clear",
k: "none", w: "who", c: "theme", h: "help", o: "open", r: "save", "[": "further", "]": "nearer",
};
const WITH_CONTROL = { z: "undo", Z: "redo", y: "redo", x: "cut", c: "copy", a: "all" };
const TOOLS = { d: "draw", e: "erase", i: "pick", s: "select", v: "pan" };
const SCALES = { 1: 1, 2: 2, 4: 4, 8: 8, 6: 16 };
function closeMenu() {
const menu = (document.querySelector("details[open]"));
if (!menu) return false;
menu.open = false;
(menu.firstElementChild).focus();
return true;
}
class Keys {
constructor(app) {
this.app = app;
this.anchor = null;
document.addEventListener("keydown", e => this.pressed(e));
}
pressed(e) {
const target = (e.target), dialog = (part("keys"));
if (e.key === "Escape" && closeMenu()) return;
if (["INPUT", "SELECT"].includes(target.tagName) || dialog.open) return;
const onButton = ["BUTTON", "SUMMARY"].includes(target.tagName);
if (onButton && ["Enter", " "].includes(e.key)) return;
const act = this.actOf(e);
if (!act) return;
e.preventDefault();
act();
}
actOf(e) {
const { app } = this, { key } = e, hasControl = e.ctrlKey || e.metaKey, arrow = ARROWS[key];
if (arrow) return () => (hasControl ? app.view.move(arrow[0] * app.view.canvas.width / 8, arrow[1] * app.view.canvas.height / 8) : this.move(arrow, e));
if (hasControl) {
const name = WITH_CONTROL[e.shiftKey ? key.toUpperCase() : key];
return name ? app.commands[name] : null;
}
if (e.altKey) return null;
if (key === "Enter") return () => (app.view.held ? app.land() : app.commands.play());
if (TOOLS[key]) return () => this.take(key);
if (SCALES[key]) return () => app.view.zoomTo(SCALES[key]);
if (COMMANDS[key]) return app.commands[COMMANDS[key]];
return this.others(key);
}
others(key) {
const { app } = this, { states } = app.board.rule;
switch (key) {
case ",": return () => app.choose((app.state + states - 1) % states);
case ".": return () => app.choose((app.state + 1) % states);
case "<": return () => turn(app, p => rotate(rotate(rotate(p))));
case "F": return () => { const box = chosen(app); if (box) app.view.fit(box); };
case "+": return () => app.setRate(Math.min(60, app.player.rate * 2));
case "-": return () => app.setRate(Math.max(1, app.player.rate >> 1));
default: return null;
}
}
take(key) {
const { app } = this;
app.takeTool(TOOLS[key]);
if (!app.view.isKeyed || !"dei".includes(key)) return;
if (key === "i") return app.choose(app.player.shown.state(app.view.cursor[0], app.view.cursor[1]));
this.dot();
}
dot() {
const { app } = this, [x, y] = app.view.cursor;
if (!inPlane(x, y)) return;
const state = app.tool === "erase" ? 0 : app.state;
app.player.edit();
app.editor.put([[x, y, state]]);
say(`${x}, ${y}: state ${state}`);
}
move(by, e) {
const { app } = this, { view } = app, from = view.cursor;
view.isKeyed = true;
view.cursor = [from[0] + by[0], from[1] + by[1]];
view.follow();
if (e.shiftKey) {
const anchor = this.anchor = this.anchor || from;
view.selection = boxBetween(anchor, view.cursor);
return say(`Selected ${view.selection.w} by ${view.selection.h}.`);
}
this.anchor = null;
if (e.altKey) return this.dot();
say(`${view.cursor[0]}, ${view.cursor[1]}: state ${app.player.shown.state(view.cursor[0], view.cursor[1])}`);
}
}
return { Keys };
})();
const m_player = (() => {
const { Grid } = m_generations;
const MOST_LOOKS = 200, MOST_TILES = 2 ** 17;
const SLICE = 25;
class Player {
constructor(board, changed) {
this.board = board;
this.changed = changed;
this.look = null;
this.past = [];
this.isPlaying = false;
this.rate = 30;
this.stride = 1;
this.last = 0;
this.work = 0;
}
get shown() { return this.look ? this.look.grid : this.board.plane; }
get gen() { return this.look ? this.look.gen : 0; }
show(look) {
if (this.look) this.past.push(this.look);
if (this.past.length > MOST_LOOKS) this.past.shift();
for (let n = this.past.reduce((sum, p) => sum + p.grid.tiles.size, 0); n > MOST_TILES && this.past.length > 1;) {
n -= (this.past.shift()).grid.tiles.size;
}
this.look = look;
this.changed();
}
step() {
let { grid, gen } = this.look || { grid: Grid.of(this.board.plane), gen: 0 };
if (!this.look) this.look = { grid, gen };
for (let k = 0; k < this.stride; k++) grid = grid.next(this.board.rule);
this.show({ grid, gen: gen + this.stride });
}
back() {
if (!this.look) return false;
this.isPlaying = false;
this.look = this.past.pop() || null;
this.changed();
return true;
}
edit() {
this.look = null;
this.past = [];
this.isPlaying = false;
this.work++;
this.changed();
}
toggle() {
this.isPlaying = !this.isPlaying;
this.changed();
}
tick(now) {
if (!this.isPlaying || now - this.last < 1000 / this.rate - 2) return;
this.last = now;
this.step();
}
async reach(gen, told) {
const work = ++this.work, rule = this.board.rule;
let grid = Grid.of(this.board.plane), until = performance.now() + SLICE;
for (let k = 0; k < gen; k++) {
grid = grid.next(rule);
if (performance.now() < until) continue;
told(k + 1);
await new Promise(done => setTimeout(done, 0));
if (work !== this.work) return null;
until = performance.now() + SLICE;
}
return grid;
}
}
return { Player };
})();
const m_view = (() => {
const { THEMES, hex, pixel, seatColour } = m_colours;
const { CELLS, SIDE } = m_tiles;
const LEAST = 2 ** -22, MOST = 64, GRID_FROM = 6, MOST_HELD = 60000;
const even = (scale, round) => scale >= 1 ? round(scale) : 2 ** round(Math.log2(scale));
class View {
constructor(canvas, board, player) {
this.canvas = canvas;
this.board = board;
this.player = player;
this.context = (canvas.getContext("2d", { alpha: false }));
this.small = document.createElement("canvas");
this.smallContext = (this.small.getContext("2d", { alpha: false }));
this.zoom = 16;
this.x = -20;
this.y = -12;
this.theme = THEMES[0];
this.showsSeats = false;
this.selection = null;
this.held = null;
this.pointer = [0, 0];
this.cursor = [0, 0];
this.isKeyed = false;
this.isDirty = true;
this.colours = new Uint32Array(256);
this.seats = new Map();
this.recolour();
}
colourOf(state) { return this.theme.of(state, this.board.rule.states); }
recolour() {
for (let s = 0; s < this.board.rule.states; s++) this.colours[s] = pixel(this.colourOf(s));
this.isDirty = true;
}
seatPixel(r) {
let p = this.seats.get(r);
if (p === undefined) this.seats.set(r, p = pixel(seatColour(r)));
return p;
}
get place() { return this.isKeyed ? this.cursor : this.pointer; }
size() {
const { width, height } = this.canvas.getBoundingClientRect();
this.canvas.width = Math.max(1, Math.round(width));
this.canvas.height = Math.max(1, Math.round(height));
this.isDirty = true;
}
cellAt({ clientX, clientY }) {
const { left, top } = this.canvas.getBoundingClientRect();
return [Math.floor((clientX - left) / this.zoom + this.x), Math.floor((clientY - top) / this.zoom + this.y)];
}
window() {
const x = Math.floor(this.x), y = Math.floor(this.y);
return { x, y, w: Math.ceil(this.x + this.canvas.width / this.zoom) - x, h: Math.ceil(this.y + this.canvas.height / this.zoom) - y };
}
zoomTo(zoom, px = this.canvas.width / 2, py = this.canvas.height / 2) {
const now = Math.max(LEAST, Math.min(MOST, zoom));
this.x += px / this.zoom - px / now;
this.y += py / this.zoom - py / now;
this.zoom = now;
this.isDirty = true;
}
zoomBy(isIn, px, py) {
this.zoomTo(isIn ? even(this.zoom * 1.25, Math.ceil) : even(this.zoom * .8, Math.floor), px, py);
}
pinch(zoom, px, py) { this.zoomTo(even(Math.max(LEAST, Math.min(MOST, zoom)), Math.round), px, py); }
move(dx, dy) {
this.x += dx / this.zoom;
this.y += dy / this.zoom;
this.isDirty = true;
}
centre(x, y, zoom = this.zoom) {
this.zoom = Math.max(LEAST, Math.min(MOST, zoom));
this.x = x - this.canvas.width / this.zoom / 2;
this.y = y - this.canvas.height / this.zoom / 2;
this.isDirty = true;
}
fit(box = this.player.shown.box()) {
if (!box) return this.centre(0, 0, 16);
const zoom = Math.min(this.canvas.width / (box.w + 4), this.canvas.height / (box.h + 4), 32);
this.centre(box.x + box.w / 2, box.y + box.h / 2, even(zoom, Math.floor));
}
follow() {
const { x, y, w, h } = this.window(), [cx, cy] = this.cursor;
if (cx <= x) this.x -= x - cx + w / 4;
if (cx >= x + w - 2) this.x += cx - x - w + w / 4;
if (cy <= y) this.y -= y - cy + h / 4;
if (cy >= y + h - 2) this.y += cy - y - h + h / 4;
this.isDirty = true;
}
paint() {
if (!this.isDirty) return false;
this.isDirty = false;
const { canvas, context, small } = this, z = Math.max(1, this.zoom), per = this.zoom < 1 ? 1 / this.zoom : 1;
const x0 = Math.floor(this.x / per), y0 = Math.floor(this.y / per), w = Math.ceil(canvas.width / z) + 1, h = Math.ceil(canvas.height / z) + 1;
if (small.width !== w || small.height !== h || !this.image) {
small.width = w;
small.height = h;
this.image = this.smallContext.createImageData(w, h);
this.pixels = new Uint32Array(this.image.data.buffer);
}
this.paintCells(x0, y0, w, h, per);
this.smallContext.putImageData(this.image, 0, 0);
const left = (x0 - this.x / per) * z, top = (y0 - this.y / per) * z;
context.imageSmoothingEnabled = false;
context.drawImage(small, left, top, w * z, h * z);
if (this.zoom >= GRID_FROM) this.paintGrid(left, top, z);
this.paintMarks();
return true;
}
paintCells(x0, y0, w, h, per) {
const px = (this.pixels), { colours, showsSeats } = this;
px.fill(colours[0]);
for (const t of this.player.shown.meeting({ x: x0 * per, y: y0 * per, w: w * per, h: h * per })) {
if (t.n === 0) continue;
const tx = t.tx * SIDE, ty = t.ty * SIDE, seats = showsSeats && "r" in t ? (t).r : null;
for (let i = 0; i < CELLS; i++) {
const s = t.s[i];
if (s === 0) continue;
const u = Math.floor((tx + i % SIDE) / per) - x0, v = Math.floor((ty + (i >> 5)) / per) - y0;
if (u >= 0 && v >= 0 && u < w && v < h) px[v * w + u] = seats ? this.seatPixel(seats[i]) : colours[s];
}
}
}
paintGrid(left, top, z) {
const { context, canvas } = this;
context.strokeStyle = this.theme.grid;
context.lineWidth = 1;
context.beginPath();
for (let x = left; x < canvas.width; x += z) { context.moveTo(Math.round(x) + .5, 0); context.lineTo(Math.round(x) + .5, canvas.height); }
for (let y = top; y < canvas.height; y += z) { context.moveTo(0, Math.round(y) + .5); context.lineTo(canvas.width, Math.round(y) + .5); }
context.stroke();
}
paintMarks() {
const { context } = this;
const outline = ({ x, y, w, h }) => {
for (const [colour, width] of ([["#000", 4], ["#fff", 2]])) {
context.strokeStyle = colour;
context.lineWidth = width;
context.strokeRect((x - this.x) * this.zoom, (y - this.y) * this.zoom, Math.max(1, w * this.zoom), Math.max(1, h * this.zoom));
}
};
if (this.selection) {
const { x, y, w, h } = this.selection;
context.fillStyle = "rgba(75,175,255,.3)";
context.fillRect((x - this.x) * this.zoom, (y - this.y) * this.zoom, w * this.zoom, h * this.zoom);
outline(this.selection);
}
if (this.held) this.paintHeld(this.held, outline);
if (this.isKeyed) outline({ x: this.cursor[0], y: this.cursor[1], w: 1, h: 1 });
}
paintHeld({ w, h, cells }, outline) {
const { context } = this, [x, y] = this.place, size = Math.max(1, this.zoom);
context.globalAlpha = .65;
for (let k = 0; k < Math.min(cells.length, MOST_HELD); k += 3) {
context.fillStyle = hex(this.colourOf(cells[k + 2]));
context.fillRect((x + cells[k] - this.x) * this.zoom, (y + cells[k + 1] - this.y) * this.zoom, size, size);
}
context.globalAlpha = 1;
outline({ x, y, w, h });
}
}
return { View };
})();
const m_page = (() => {
const { Board } = m_board;
const { commandsOf } = m_commands;
const { Editor, NO_STATE, OUTSIDE, heldOf } = m_editor;
const { THEMES } = m_colours;
const { openFile } = m_files;
const { Fault } = m_formats;
const { Hands } = m_hands;
const { Keys } = m_keys;
const { LIBRARY } = m_library;
const { field, fillByRule, fillLists, part, say, showFacts, showSwatches, showTools, showWho } = m_panel;
const { Player } = m_player;
const { readRLE } = m_rle;
const { readRule, ruleName } = m_rules;
const { keepPending, namesOf, placeOf, readLink, takeKey, worldOf } = m_start;
const { Strokes } = m_undo;
const { View } = m_view;
const { ALONE, HELD, KEYS, lineWords, refusalWords } = m_words;
const CALM = 3;
class App {
constructor(link, key) {
this.token = link.token;
this.at = placeOf(link.at);
this.names = namesOf(link);
this.tool = "draw";
this.state = 1;
this.copied = "";
this.box = null;
this.boxAt = "";
this.boxOf = null;
this.isFitted = false;
this.isStale = true;
const world = link.token ? worldOf(link.token, key, () => this.view.window()) : null;
this.board = new Board(world, {
state: state => this.told(state), map: () => { this.view.isDirty = true; }, refused: n => say(refusalWords(n)), begunAnew: before => this.begunAnew(before),
}, link.rule ? link.rule.text : "23/3/2");
this.player = new Player(this.board, () => this.changed());
this.view = new View((part("c")), this.board, this.player);
this.editor = new Editor(this.board);
this.rule = this.board.rule;
this.commands = commandsOf(this);
if (matchMedia("(prefers-reduced-motion: reduce)").matches) this.player.rate = CALM;
if (matchMedia("(prefers-contrast: more)").matches) this.setTheme(THEMES[THEMES.length - 1]);
}
changed() { this.isStale = true; this.view.isDirty = true; }
told(state) {
const words = lineWords(state, this.board.tries);
if (words) say(words);
if (state === "open") this.opened();
this.changed();
}
opened() {
this.takeRule();
if (!this.isFitted) this.lookAtFirst();
else say("The board is there.");
}
lookAtPlace() {
if (this.at) this.view.centre(this.at[0], this.at[1], this.at[2]);
return this.at !== null;
}
lookAtFirst() {
this.isFitted = true;
if (!this.lookAtPlace()) this.view.fit();
}
begunAnew(before) {
this.editor.strokes = new Strokes();
this.editor.clip = heldOf(before.cells());
say("The server began anew, without what stood here. Paste puts it down.");
}
takeRule() {
if (this.rule.text === this.board.rule.text) return;
this.rule = this.board.rule;
this.state = Math.min(this.state, this.rule.states - 1);
this.player.edit();
this.view.recolour();
fillByRule(this);
}
setRule(rule) {
this.board.rule = rule;
this.takeRule();
}
choose(s) {
this.state = s;
if (this.tool !== "erase" || s !== 0) this.tool = "draw";
this.changed();
showSwatches(this);
say(s === 0 ? "State 0, dead." : `State ${s}.`);
}
takeTool(tool) {
this.tool = tool;
this.changed();
say(`Tool: ${tool === "pan" ? "move" : tool}.`);
}
setTheme(theme) {
this.view.theme = theme;
document.documentElement.classList.toggle("strong", theme === THEMES[THEMES.length - 1]);
this.view.recolour();
this.changed();
showSwatches(this);
}
setRate(rate) {
this.player.rate = rate;
this.changed();
say(`${rate} looks a second.`);
}
hold(text, name) {
try {
const p = readRLE(text);
return this.holdCells({ w: p.w, h: p.h, cells: p.cells }, p.rule, name);
} catch (fault) {
if (!(fault instanceof Fault)) throw fault;
say(`That is no RLE text: ${fault.message}.`);
return false;
}
}
holdCells(held, ruleText, name) {
const rule = ruleText ? readRule(ruleText) : null, isOther = rule !== null && rule.text !== this.board.rule.text;
if (isOther && this.board.state === "alone" && this.board.plane.population === 0) this.setRule(rule);
this.view.held = this.editor.clip = held;
this.view.isDirty = true;
const warning = isOther && rule.text !== this.board.rule.text ? `It is of the rule ${ruleName(rule)}, the board's is ${ruleName(this.board.rule)}. ` : "";
say(`${warning}${held.cells.length / 3} cells${name ? " of " + name : ""}. ${HELD}`);
return true;
}
land() {
const { held, place } = this.view;
if (!held) return;
this.player.edit();
const wrong = this.editor.land(held, place[0], place[1], (field("mode").value));
if (wrong === NO_STATE || wrong === OUTSIDE) return say(wrong);
this.view.held = null;
this.view.isDirty = true;
say(`Put down ${held.cells.length / 3} cells at ${place[0]}, ${place[1]}.`);
}
frame(now) {
requestAnimationFrame(later => this.frame(later));
this.player.tick(now);
if (this.editor.open) this.editor.send(now);
if (this.isStale) showTools(this);
this.isStale = false;
if (this.view.paint()) showFacts(this);
}
}
function wire(app) {
for (const button of document.querySelectorAll("[data-do]")) {
button.addEventListener("click", () => app.commands[((button).dataset.do)]());
}
for (const button of document.querySelectorAll("[data-tool]")) {
button.addEventListener("click", () => app.takeTool(((button).dataset.tool)));
}
field("rate").addEventListener("input", () => app.setRate(Number(field("rate").value)));
field("stride").addEventListener("change", () => { app.player.stride = Number(field("stride").value); });
field("theme").addEventListener("change", () => app.setTheme(THEMES[Number(field("theme").value)]));
field("rulename").addEventListener("keydown", e => { if (e.key === "Enter") app.commands.rule(); });
field("file").addEventListener("change", async () => {
const file = (field("file").files || [])[0];
field("file").value = "";
if (file) await openFile(app, file);
});
field("library").addEventListener("change", () => {
const entry = LIBRARY[Number(field("library").value)];
if (field("library").value && entry) app.hold(`x = 0, y = 0, rule = ${entry.rule}\n${entry.rle}`, entry.name);
field("library").value = "";
app.view.canvas.focus();
});
app.view.canvas.addEventListener("pointerdown", () => { for (const menu of document.querySelectorAll("details")) menu.open = false; });
}
function beginAlone(app, link) {
say(location.protocol === "file:" || link.rle ? "" : ALONE);
if (link.rle && app.hold(link.rle)) {
const p = readRLE(link.rle);
app.view.held = null;
say(app.editor.land(p, p.x, p.y, "or") || `${p.cells.length / 3} cells from the link.`);
}
app.lookAtFirst();
}
async function begin() {
const link = readLink(), { key, left } = await takeKey(link.token), app = new App(link, key);
part("keytext").textContent = KEYS;
fillLists();
fillByRule(app);
wire(app);
new Hands(app);
new Keys(app);
new ResizeObserver(() => app.view.size()).observe(app.view.canvas);
app.view.size();
setInterval(() => showWho(app), 500);
addEventListener("hashchange", () => location.reload());
addEventListener("pagehide", () => { if (link.token) keepPending(link.token, app.board.pending); });
app.lookAtPlace();
if (link.token) app.board.start(left);
else beginAlone(app, link);
requestAnimationFrame(now => app.frame(now));
Object.assign(window, { pazgrot: app });
}
begin();
return { App };
})();
</script>
</body>
</html>
"##;

/// What the page may do, as the value of `Content-Security-Policy`, one line: to run the one script and the one style
/// whose SHA-256 hashes it names, and to speak to where the page came from. No other page may show it in a frame.
pub const POLICY: &str =
    "default-src 'none'; script-src 'sha256-Due0kwEl9DEo5s8DESywLGKDTd+08z3J38eSlI50C8I='; style-src 'sha256-OD7CMqJMWYIEoTBWnFqMeew433N5P6FEkvusmzTZjcE='; img-src data: blob:; connect-src 'self'; base-uri 'none'; form-action 'none'; frame-ancestors 'none'";
