//! The page's program: what a command did, in words, and what is shown of each device after it.

/// The program's middle.
pub const DEVICES: &str = r###"// ---- What a command did, in words

const sourceOf = command => command.devices.length > 1 ? run.devices[command.devices[1]] : "";
const targetOf = command => run.devices[command.devices[0]];
const WHYS = {
  "made in its store": () => "made in its store",
  "made in its out": () => "made in its out",
  "took": command => "taken from " + sourceOf(command),
  "was handed, into its store": command => "handed over by " + sourceOf(command) + ", into its store",
  "was handed, into its out": command => "handed over by " + sourceOf(command) + ", into its out",
  "gave up": (command, later) => later < 0 ? "given up" : "given up: " + versionName(later) + " supersedes it",
  "handed over": command => "handed over to " + targetOf(command),
  "moved to its store": () => "moved to its store",
  "moved to its out": () => "moved to its out",
  "was told of": command => "told of without its contents by " + sourceOf(command),
  "learned of": command => "learned of without its contents from " + sourceOf(command),
  "forgot": () => "forgotten in the new epoch",
};

// What happens to a version that the device's filter doesn't select, or that another one supersedes.
const UNSELECTED = new Set(["made in its out", "was handed, into its out", "was told of", "learned of", "moved to its out"]);

const whyUnselected = version => recordOf(version) === "removed" ? "no filter selects a removal" : "its filter doesn't select it";

// Each version that something happened to on a device, and what: with the version that supersedes it, where there is one.
function* eventsOf(command) {
  for (const [place, what, versions, later] of command.did || []) {
    for (let i = 0; i < versions.length; i++) yield {place, what, version: versions[i], later: later ? later[i] : -1};
  }
}
const whyOf = (command, event) => WHYS[event.what](command, event.later);

// Why a device doesn't keep the version, in short.
function reasonOf(event) {
  if (event.later >= 0) return versionName(event.later) + " supersedes it";
  return UNSELECTED.has(event.what) ? whyUnselected(event.version) : "";
}

// What the codes of refused commands say.
const REFUSALS = {C1: "the device holds no version of the picture", C2: "the device's filter doesn't cover that one"};

// The numbers of the commands that did something to a picture.
const touching = new Map();
function touchingOf(picture) {
  if (picture === null) return [];
  if (!touching.has(picture)) {
    const isTouched = ([, , versions]) => versions.some(version => pictureOf(version) === picture);
    const numbers = [];
    run.commands.forEach((command, place) => {
      if (command.did && command.did.some(isTouched)) numbers.push(place + 1);
    });
    touching.set(picture, numbers);
  }
  return touching.get(picture);
}

// ---- What is shown

// After which command, which picture is followed (null: none), and which lists are unfolded.
let at = 0, followed = null;
const unfolded = new Set();
// The devices whose drawing is stale, those where only what they don't know of is, and those in sight, of which alone many are
// drawn.
const stale = new Set(run.devices.keys()), staleUnknown = new Set(), inSight = new Set();
const isMany = run.devices.length >= MANY;

function pictureButton(picture) {
  const made = button("link", String(picture), () => follow(picture));
  made.setAttribute("aria-label", "follow picture " + picture);
  made.title = "follow picture " + picture;
  return made;
}

function row(version, how, why, isTorn) {
  const made = element("tr", how), picture = element("td"), name = element("td"), record = element("td");
  made.dataset.picture = pictureOf(version);
  picture.append(pictureButton(pictureOf(version)));
  name.append(element("code", "what", versionName(version)));
  if (isTorn) {
    const sign = element("span", "torn", " !");
    sign.setAttribute("role", "img");
    sign.setAttribute("aria-label", "in conflict");
    name.append(sign);
  }
  record.append(element("span", "what", recordOf(version)));
  if (why) record.append(element("span", "why", (how === "left" ? " - " : " + ") + why));
  made.append(picture, name, record);
  return made;
}

// A button that unfolds a list.
function unfolder(key, count, draw) {
  return button("more", "all " + count, () => { unfolded.add(key); draw(); });
}

// The first `most` items of a list in the given order.
function firstOf(list, most, order) {
  if (list.length <= most) return list.sort(order);
  const first = [];
  for (const item of list) {
    if (first.length === most && order(item, first[most - 1]) >= 0) continue;
    let place = first.length === most ? most - 1 : first.length;
    while (place > 0 && order(item, first[place - 1]) < 0) {
      first[place] = first[place - 1];
      place--;
    }
    first[place] = item;
  }
  return first;
}

// The rows of the store or the out. Where not all are shown, those of the picture that is followed and those that came or left
// are.
function partOf(part, device, changes, whys, torn, redraw) {
  const box = document.createDocumentFragment(), hows = new Map();
  for (const change of changes) if (change.part === part) hows.set(change.version, change.came ? "came" : "left");
  box.append(element("h3", "", part + " (" + device[part].size + ")"));
  const versions = [...device[part]], key = device.place + part;
  for (const [version, how] of hows) if (how === "left") versions.push(version);
  if (!versions.length) {
    box.append(element("div", "soft", "nothing"));
    return box;
  }
  const rank = version => pictureOf(version) === followed ? 0 : hows.has(version) ? 1 : 2;
  const most = unfolded.has(key) ? Infinity : ROWS;
  const shown = firstOf(versions, most, (a, b) => rank(a) - rank(b) || inOrder(a, b)).sort(inOrder);
  const table = element("table");
  table.setAttribute("aria-label", part + " of " + authorName(authorOf(device.place, device.epoch)));
  for (const version of shown) {
    const how = hows.get(version) || "";
    table.append(row(version, how, how ? whys.get(version) : "", torn.has(pictureOf(version))));
  }
  box.append(table);
  if (shown.length < versions.length) box.append(unfolder(key, versions.length, redraw));
  return box;
}

function knowledgeOf(device, redraw) {
  const box = document.createDocumentFragment(), key = device.place + "knows";
  const {lines, all} = knowledgeLines(device, unfolded.has(key) ? Infinity : ROWS);
  const text = element("pre", "knows", lines.join("\n"));
  text.setAttribute("aria-label", "what " + authorName(authorOf(device.place, device.epoch)) + " knows");
  box.append(element("h3", "", "knows"), text);
  if (lines.length < all) box.append(unfolder(key, all, redraw));
  return box;
}

// Draws the current versions that a device doesn't know of.
function drawUnknown(place) {
  const box = byId("fleet").children[place].querySelector(".never"), key = place + "unknown", unknown = [];
  for (const versions of current.values()) unknown.push(...versions.filter(version => !isKnown(fleet[place], version)));
  box.replaceChildren();
  staleUnknown.delete(place);
  if (!unknown.length) return;
  const names = element("div", "unknown");
  const shown = firstOf(unknown, unfolded.has(key) ? Infinity : NAMES, inOrder);
  shown.forEach((version, at) => names.append(at ? ", " : "", pictureButton(pictureOf(version)), " " + versionName(version)));
  if (shown.length < unknown.length) names.append(" ", unfolder(key, unknown.length, () => drawUnknown(place)));
  box.append(element("h3", "", "doesn't know of (" + unknown.length + ")"), names);
}

// Draws a device, with what the command changed on it.
function drawDevice(place) {
  const box = byId("fleet").children[place], device = fleet[place], command = at ? run.commands[at - 1] : null;
  const redraw = () => drawDevice(place);
  const changes = (undone[at - 1] || []).filter(change => change.place === place);
  const whys = new Map(), torn = picturesTorn(device);
  for (const event of command ? eventsOf(command) : []) if (event.place === place) whys.set(event.version, whyOf(command, event));
  const name = authorName(authorOf(place, device.epoch)), rule = changes.find(change => change.field === "filter");
  box.setAttribute("aria-label", name);
  box.replaceChildren(element("h2", "", name), element("div", "rule", device.filter));
  if (rule && rule.was !== device.filter) box.append(element("div", "soft", "before: " + rule.was));
  if (torn.size) box.append(element("div", "torn", "in conflict: picture " + [...torn].sort((a, b) => a - b).join(", ")));
  for (const part of ["store", "out"]) box.append(partOf(part, device, changes, whys, torn, redraw));
  box.append(knowledgeOf(device, redraw), element("div", "never"));
  drawUnknown(place);
  stale.delete(place);
}

function say(box, key, text) {
  box.append(element("span", "key", key), element("pre", "", text));
}

// The command and its report.
function drawSaid(command) {
  const said = byId("said");
  said.replaceChildren();
  if (!command) {
    say(said, "command", "none yet: the devices as they are declared");
    return;
  }
  say(said, "command", at + " " + command.text);
  const lines = command.report.trimEnd().split("\n"), key = "report" + at;
  const shown = unfolded.has(key) ? lines : lines.slice(0, ROWS);
  say(said, "report", shown.join("\n").replace(/^\d+ /, ""));
  const refused = lines[0].match(/^\d+ refused (C\d)/);
  if (refused) said.append(element("span", "key", refused[1]), element("span", "", REFUSALS[refused[1]]));
  if (shown.length < lines.length) said.append(element("span"), unfolder(key, lines.length + " lines", () => drawSaid(command)));
}

// What the command did to versions, by name: of each kind a line.
function drawMoved(command) {
  const moved = byId("moved");
  moved.replaceChildren();
  const lines = new Map();
  for (const event of command ? eventsOf(command) : []) {
    const key = run.devices[event.place] + " " + event.what;
    if (!lines.has(key)) lines.set(key, []);
    lines.get(key).push(event);
  }
  for (const [key, events] of lines) {
    events.sort((a, b) => inOrder(a.version, b.version));
    const names = element("div"), fold = "moved" + at + key;
    const shown = unfolded.has(fold) ? events : events.slice(0, NAMES);
    shown.forEach((event, place) => {
      names.append(place ? ", " : "", pictureButton(pictureOf(event.version)), " ", element("code", "", versionName(event.version)));
      const reason = reasonOf(event);
      if (reason) names.append(" (" + reason + ")");
    });
    if (shown.length < events.length) names.append(" ", unfolder(fold, events.length, () => drawMoved(command)));
    moved.append(element("span", "key", key), names);
  }
  drawBegun(moved, command);
}

// The conflicts that began with the command: a version came beside others that its device holds.
function drawBegun(moved, command) {
  for (const place of command ? command.devices : []) {
    const device = fleet[place], came = (undone[at - 1] || []).filter(change => change.place === place && change.part && change.came);
    for (const picture of new Set(came.map(change => pictureOf(change.version)))) {
      if (!picturesTorn(device).has(picture)) continue;
      const held = [...device.store, ...device.out].filter(version => pictureOf(version) === picture).sort(inOrder);
      moved.append(element("span", "key torn", run.devices[place] + " is in conflict"), element("span", "", "picture " + picture + ": " + held.map(versionName).join(" ! ")));
    }
  }
}

// Draws the devices that are stale, of many only those in sight.
function drawFleet() {
  for (const place of [...stale]) if (!isMany || inSight.has(place)) drawDevice(place);
  for (const place of [...staleUnknown]) if (!stale.has(place) && (!isMany || inSight.has(place))) drawUnknown(place);
}

function drawActing(command) {
  for (const box of document.querySelectorAll("main section.acts")) box.classList.remove("acts");
  for (const place of command ? command.devices : []) byId("fleet").children[place].classList.add("acts");
}

// Draws a device when it comes in sight.
function watch() {
  const places = new Map([...byId("fleet").children].map((box, place) => [box, place]));
  const watcher = new IntersectionObserver(seen => {
    for (const {target, isIntersecting} of seen) {
      if (isIntersecting) inSight.add(places.get(target));
      else inSight.delete(places.get(target));
    }
    drawFleet();
  }, {rootMargin: "600px"});
  for (const box of places.keys()) watcher.observe(box);
}

"###;
