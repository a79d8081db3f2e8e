//! The page's program: the picture that is followed, the chart, and how one moves through the run.

/// The program's end, and the page's.
pub const FOLLOWING: &str = r###"// ---- The picture that is followed

// How a device can stand to a version, and which devices stand so.
const STANDINGS = [
  [() => "in the store", (device, version) => device.store.has(version)],
  [() => "in the out", (device, version) => device.out.has(version)],
  [version => "known, not held, since " + whyUnselected(version), (device, version) => isKnown(device, version) && !holds(device, version)],
  [() => "doesn't know of it", (device, version) => !isKnown(device, version)],
];
const holds = (device, version) => device.store.has(version) || device.out.has(version);

// The devices that stand so to a version: a line, or none.
function standingLine(list, standing, version, isSo) {
  const names = fleet.filter(device => isSo(device, version)).map(device => run.devices[device.place]);
  if (!names.length) return;
  const item = element("li"), key = "standing" + version + standing;
  const shown = unfolded.has(key) ? names : names.slice(0, NAMES);
  item.append(element("span", "key", standing + ": "), shown.join(", "));
  if (shown.length < names.length) item.append(" ", unfolder(key, names.length, drawStory));
  list.append(item);
}

// How each device stands to a current version.
function standings(version) {
  const box = element("div"), list = element("ol");
  for (const [standing, isSo] of STANDINGS) standingLine(list, standing(version), version, isSo);
  box.append(element("code", "", versionName(version)), " " + recordOf(version), list);
  return box;
}

// Where the picture's versions are after the command: the current ones, and below them those that are superseded and still held.
function drawWhere() {
  const box = element("div"), versions = current.get(followed) || [], older = element("ol");
  box.append(element("h3", "", (versions.length > 1 ? "in conflict" : "where it is") + " after command " + at));
  for (const version of versions) box.append(standings(version));
  if (!versions.length) box.append(element("div", "soft", "no command has made it yet"));
  for (const version of run.versions.keys()) {
    if (pictureOf(version) !== followed || versions.includes(version)) continue;
    standingLine(older, versionName(version) + ", superseded, is still held by", version, holds);
  }
  if (older.children.length) box.append(older);
  return box;
}

function drawStory() {
  const story = byId("story"), isLost = story.contains(document.activeElement);
  story.replaceChildren();
  const dim = followed === null ? "" : `main tr:not([data-picture="${followed}"]){opacity:.6}`;
  if (byId("follow").textContent !== dim) byId("follow").textContent = dim;
  if (followed === null) return;
  const told = drawTold();
  story.append(element("h2", "", "Picture " + followed), told, drawWhere());
  const here = told.querySelector(".here");
  told.scrollTop = here ? here.offsetTop : 0;
  if (isLost) (here ? here.querySelector("button") : told).focus({preventScroll: true});
}

// What happened to the picture, by command.
function drawTold() {
  const box = element("div"), list = element("ol");
  box.tabIndex = 0;
  for (const number of touchingOf(followed)) {
    const command = run.commands[number - 1];
    for (const event of eventsOf(command)) {
      if (pictureOf(event.version) !== followed) continue;
      const item = element("li", number === at ? "here" : "");
      item.append(button("link", number + " " + command.text, () => go(number)), " ");
      item.append(run.devices[event.place] + ": ", element("code", "", versionName(event.version)), " " + whyOf(command, event));
      if (isMade(event.what)) item.append(": " + recordOf(event.version));
      if (UNSELECTED.has(event.what)) item.append("; " + reasonOf(event));
      list.append(item);
    }
  }
  if (!list.children.length) list.append(element("li", "soft", "no command made it"));
  box.append(list);
  return box;
}

// ---- The chart

const chart = byId("chart"), drawing = chart.querySelector("svg");

// A line at the command, and a mark at each command that did something to the picture that is followed.
function drawLine() {
  const x = at ? run.columns[at - 1] : (run.columns[0] || 20) - 12, room = chart.clientWidth;
  byId("now").style.transform = `translateX(${x - 1}px)`;
  byId("number").firstChild.style.transform = `translateX(calc(${x}px - 50%))`;
  byId("number").firstChild.textContent = at;
  if (x < chart.scrollLeft + 80 || x > chart.scrollLeft + room - 80) chart.scrollLeft = x - room / 2;
  const y = at ? run.lanes[run.commands[at - 1].devices[0]] : 0;
  if (y < chart.scrollTop || y > chart.scrollTop + chart.clientHeight - 40) chart.scrollTop = y - chart.clientHeight / 2;
}

// Where the lanes end.
const lowest = () => (run.lanes[run.lanes.length - 1] || 0) + 30;

// A click on a command's column goes there.
function clicked(event) {
  const box = drawing.getBoundingClientRect(), x = event.clientX - box.left, y = event.clientY - box.top;
  if (COMMANDS && y < lowest() && x > run.columns[0] - 24 && x < run.columns[COMMANDS - 1] + 24) go(commandAt(x));
}

// The names of the lanes, where those of the drawing are scrolled away.
function drawNames() {
  byId("names").hidden = chart.scrollLeft < 160;
}

// The chart's layers: what lies upon the drawing, and what stays in sight when it is scrolled.
function layOut() {
  const sheet = element("div"), names = element("div"), number = element("div");
  sheet.id = "sheet";
  names.id = "names";
  number.id = "number";
  names.setAttribute("aria-hidden", "true");
  run.devices.forEach((name, place) => {
    const label = element("span", "", name);
    label.style.top = run.lanes[place] + "px";
    names.append(label);
  });
  number.append(element("span"));
  sheet.append(number, names, drawing);
  for (const id of ["touched", "now"]) {
    const layer = element("div");
    layer.id = id;
    sheet.append(layer);
  }
  chart.append(sheet);
  byId("now").style.height = lowest() - 30 + "px";
  chart.addEventListener("scroll", drawNames, {passive: true});
  drawNames();
}

function drawTouched() {
  byId("touched").replaceChildren(...touchingOf(followed).map(number => {
    const mark = element("span");
    mark.style.left = run.columns[number - 1] - 2 + "px";
    return mark;
  }));
}

// The command whose column is nearest to a place in the chart.
function commandAt(x) {
  let low = 0, high = COMMANDS - 1;
  while (low < high) {
    const middle = (low + high) >> 1;
    if (run.columns[middle] < x) low = middle + 1;
    else high = middle;
  }
  if (low > 0 && x - run.columns[low - 1] < run.columns[low] - x) low--;
  return low + 1;
}

// ---- Where one is

function address() {
  return "#" + at + (followed === null ? "" : "," + followed);
}

function draw() {
  const command = at ? run.commands[at - 1] : null;
  byId("at").value = at;
  byId("at").setAttribute("aria-valuetext", command ? "after " + at + " " + command.text : "before the first command");
  byId("count").textContent = at + " / " + COMMANDS;
  goTo(at);
  drawSaid(command);
  drawMoved(command);
  drawActing(command);
  drawFleet();
  drawStory();
  drawLine();
}

function go(number) {
  at = Math.max(0, Math.min(COMMANDS, number));
  history.replaceState(null, "", address());
  draw();
}

function follow(picture) {
  followed = picture;
  byId("picture").value = picture === null ? "" : picture;
  for (const place of run.devices.keys()) stale.add(place);
  drawTouched();
  go(at);
}

// To the next or the previous command that did something to the picture that is followed.
function goTouching(isOn) {
  const numbers = touchingOf(followed);
  const found = isOn ? numbers.find(number => number > at) : numbers.filter(number => number < at).pop();
  if (found !== undefined) go(found);
}

// Where the address leads: to the last command where it names none.
function goThere() {
  const [number, picture] = location.hash.slice(1).split(",").map(text => /^\d+$/.test(text) ? Number(text) : null);
  followed = picture === undefined ? null : picture;
  byId("picture").value = followed === null ? "" : followed;
  for (const place of run.devices.keys()) stale.add(place);
  drawTouched();
  go(number === null ? COMMANDS : number);
}

// Shows the devices whose names have one of some texts in them; all where there is none.
function showNamed() {
  const wanted = byId("named").value.split(/[ ,]+/).filter(text => text), boxes = [...byId("fleet").children];
  boxes.forEach((box, place) => { box.hidden = wanted.length > 0 && !wanted.some(text => run.devices[place].includes(text)); });
  byId("none").hidden = boxes.some(box => !box.hidden);
}

function keyed(event) {
  if (event.ctrlKey || event.altKey || event.metaKey) return;
  const isTyping = event.target.type === "search";
  if (event.key === "Escape") {
    event.target.blur();
    follow(null);
    return;
  }
  if (isTyping && event.key === "Enter") event.target.blur();
  if (isTyping || (event.target.id === "at" && event.key.startsWith("Arrow"))) return;
  const acts = {
    ArrowLeft: () => go(at - 1), ArrowRight: () => go(at + 1), Home: () => go(0), End: () => go(COMMANDS),
    "/": () => byId("picture").select(), n: () => goTouching(true), p: () => goTouching(false),
  };
  if (acts[event.key]) {
    event.preventDefault();
    acts[event.key]();
  }
}

function begin() {
  const style = element("style");
  document.title = run.name + ": a run of " + run.devices.length + " devices, " + COMMANDS + " commands";
  style.id = "follow";
  document.head.append(style);
  byId("at").max = COMMANDS;
  byId("fleet").classList.toggle("many", isMany);
  for (const name of run.devices) {
    const box = element("section");
    box.append(element("h2", "", name));
    byId("fleet").append(box);
  }
  layOut();
  if (isMany) watch();
  byId("first").onclick = () => go(0);
  byId("back").onclick = () => go(at - 1);
  byId("on").onclick = () => go(at + 1);
  byId("last").onclick = () => go(COMMANDS);
  byId("at").oninput = event => go(Number(event.target.value));
  byId("picture").oninput = event => follow(/^\d+$/.test(event.target.value) ? Number(event.target.value) : null);
  byId("named").oninput = showNamed;
  chart.onclick = clicked;
  byId("before").onclick = () => goTouching(false);
  byId("behind").onclick = () => goTouching(true);
  addEventListener("keydown", keyed);
  addEventListener("hashchange", goThere);
  goThere();
}
begin();
</script>
</body>
</html>
"###;
