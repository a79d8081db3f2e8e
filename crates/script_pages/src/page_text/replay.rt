//! The page's program: the fleet after a command, by the run's data, and what a device of it knows.

/// The program's begin, right behind the run's data.
pub const REPLAY: &str = r###"
</script>
<script>
"use strict";
const byId = id => document.getElementById(id);
const run = JSON.parse(byId("run").textContent);
const COMMANDS = run.commands.length;
// How many rows of a list are shown before it is unfolded, and how many names.
const ROWS = 12;
const NAMES = 24;
// The number of devices from which on a command's devices stand first.
const MANY = 13;

// An element with a class and a text, which is never read as HTML.
function element(tag, name, text) {
  const made = document.createElement(tag);
  if (name) made.className = name;
  if (text !== undefined) made.textContent = text;
  return made;
}

function button(name, text, act) {
  const made = element("button", name, text);
  made.type = "button";
  made.addEventListener("click", act);
  return made;
}

// ---- Names

const EPOCHS = 4294967296;
const authorOf = (device, epoch) => device * EPOCHS + epoch;
function authorName(author) {
  const device = Math.floor(author / EPOCHS), epoch = author % EPOCHS;
  return run.devices[device] + (epoch ? "." + epoch : "");
}
const pictureOf = version => run.versions[version][0];
const authorOfVersion = version => authorOf(run.versions[version][1], run.versions[version][2]);
const versionName = version => authorName(authorOfVersion(version)) + ":" + run.versions[version][3];
const recordOf = version => run.versions[version][4];

// Versions stand in the order of pictures, then of authors, then of numbers.
function inOrder(a, b) {
  return pictureOf(a) - pictureOf(b) || authorOfVersion(a) - authorOfVersion(b) || run.versions[a][3] - run.versions[b][3];
}

// ---- The fleet after a command

// The devices after the first commands. 'undone' has a list for each of these: what it changed, to be undone from the end.
const fleet = run.devices.map((_, place) => ({place, filter: run.filters[place], epoch: 0, store: new Set(), out: new Set(), star: new Map(), of: new Map()}));
const undone = [];
// Of each picture the versions that no other one supersedes.
const current = new Map();

// The sets in which each thing that happens to a version puts it, and from which it takes it.
const EFFECTS = {
  "made in its store": ["store", ""],
  "made in its out": ["out", ""],
  "took": ["store", ""],
  "was handed, into its store": ["store", ""],
  "was handed, into its out": ["out", ""],
  "gave up": ["", "store out"],
  "handed over": ["", "out"],
  "moved to its store": ["store", "out"],
  "moved to its out": ["out", "store"],
};

// Puts a version into a set of a device or takes it out, and notes it where that changed the set.
function put(changes, device, part, version, isIn) {
  if (device[part].has(version) === isIn) return;
  if (isIn) device[part].add(version);
  else device[part].delete(version);
  changes.push({place: device.place, part, version, came: isIn});
}

// Sets a field of a device, or an entry of a map of it (none: undefined), and notes what it was.
function set(changes, device, field, value) {
  changes.push({place: device.place, field, was: device[field]});
  device[field] = value;
}

function setEntry(changes, device, map, key, value) {
  changes.push({place: device.place, map, key, was: device[map].get(key)});
  if (value === undefined) device[map].delete(key);
  else device[map].set(key, value);
}

// Bounds are written as device, epoch, number, and again.
function boundsOf(flat) {
  const bounds = [];
  for (let i = 0; i + 2 < flat.length; i += 3) bounds.push([authorOf(flat[i], flat[i + 1]), flat[i + 2]]);
  return bounds;
}

function learn(changes, device, [, isAnew, star, rows]) {
  if (isAnew) {
    set(changes, device, "star", new Map());
    set(changes, device, "of", new Map());
  }
  for (const [author, number] of boundsOf(star)) setEntry(changes, device, "star", author, number);
  for (const [pictures, flat] of rows) {
    const bounds = flat.length ? boundsOf(flat) : undefined;
    for (const picture of pictures) setEntry(changes, device, "of", picture, bounds);
  }
}

const isMade = what => what.startsWith("made");
function isKnown(device, version) {
  const author = authorOfVersion(version), number = run.versions[version][3];
  if (number <= (device.star.get(author) || 0)) return true;
  return (device.of.get(pictureOf(version)) || []).some(bound => bound[0] === author && number <= bound[1]);
}

// A version that a device makes supersedes those of its picture that the device knows.
function makeCurrent(changes, device, version) {
  const picture = pictureOf(version), was = current.get(picture) || [];
  changes.push({place: device.place, picture, was});
  current.set(picture, [...was.filter(older => !isKnown(device, older)), version]);
}

// Does what the next command did.
function doNext() {
  const command = run.commands[undone.length], changes = [];
  for (const [place, what, versions] of command.did || []) {
    const [into, from] = EFFECTS[what] || ["", ""];
    for (const version of versions) {
      if (isMade(what)) makeCurrent(changes, fleet[place], version);
      if (into) put(changes, fleet[place], into, version, true);
      for (const part of from ? from.split(" ") : []) put(changes, fleet[place], part, version, false);
    }
  }
  for (const [place, filter, epoch] of command.filter || []) {
    set(changes, fleet[place], "filter", filter);
    set(changes, fleet[place], "epoch", epoch);
  }
  for (const change of command.knows || []) learn(changes, fleet[change[0]], change);
  undone.push(changes);
}

// Undoes what the last command did.
function undoLast() {
  for (const change of undone.pop().reverse()) {
    const device = fleet[change.place];
    if (change.part) {
      if (change.came) device[change.part].delete(change.version);
      else device[change.part].add(change.version);
    } else if (change.picture) current.set(change.picture, change.was);
    else if (change.field) device[change.field] = change.was;
    else if (change.was === undefined) device[change.map].delete(change.key);
    else device[change.map].set(change.key, change.was);
  }
}

// Moves the fleet to its state after command `number`, and marks each device that has to be drawn again.
function goTo(number) {
  const touch = () => {
    for (const change of undone[undone.length - 1] || []) {
      if (change.picture) fleet.forEach(device => staleUnknown.add(device.place));
      else stale.add(change.place);
    }
  };
  touch();
  while (undone.length > number) {
    undoLast();
    touch();
  }
  while (undone.length < number) {
    doNext();
    touch();
  }
}

// The pictures of which a device holds two or more versions.
function picturesTorn(device) {
  const seen = new Set(), torn = new Set();
  for (const part of [device.store, device.out]) {
    for (const version of part) {
      const picture = pictureOf(version);
      if (seen.has(picture)) torn.add(picture);
      seen.add(picture);
    }
  }
  return torn;
}

// ---- What a device knows

const boundText = ([author, number]) => authorName(author) + ":" + number;
const boundsText = bounds => bounds.length ? bounds.sort((a, b) => a[0] - b[0]).map(boundText).join(" ") : "-";

// The star with bounds that exceed it.
function joined(star, bounds) {
  const all = new Map(star);
  for (const [author, number] of bounds) all.set(author, Math.max(number, all.get(author) || 0));
  return [...all];
}

// The lines of what a device knows; only the first `most` are made.
function knowledgeLines(device, most) {
  const groups = new Map();
  for (const [picture, bounds] of device.of) {
    const key = bounds.join(" ");
    if (groups.has(key)) groups.get(key).pictures.push(picture);
    else groups.set(key, {pictures: [picture], bounds});
  }
  const rows = [...groups.values()];
  for (const row of rows) row.pictures.sort((a, b) => a - b);
  rows.sort((a, b) => a.pictures[0] - b.pictures[0]);
  const lines = ["* " + boundsText([...device.star])];
  for (const row of rows.slice(0, Math.max(0, most - 1))) lines.push(row.pictures.join(",") + " " + boundsText(joined(device.star, row.bounds)));
  return {lines, all: rows.length + 1};
}

"###;
