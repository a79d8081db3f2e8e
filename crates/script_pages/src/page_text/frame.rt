//! The words of every page, and its colours in light and dark.

/// From the page's begin to the chart.
pub const HEAD: &str = r###"<!doctype html>
<html lang="en">
<head>
<meta charset="utf-8">
<meta name="viewport" content="width=device-width, initial-scale=1">
<meta http-equiv="Content-Security-Policy" content="default-src 'none'; style-src 'unsafe-inline'; script-src 'unsafe-inline'">
<title>A run of photofleet</title>
<style>
:root{color-scheme:light dark;--paper:#fff;--ink:#1d2329;--soft:#566270;--line:#d5dbe3;--ground:#f1f4f8;--blue:#0b63b0;--green:#2a7a34;--red:#b3202a;--amber:#8f5400;--violet:#6a3fb5;--came-on:#e3f3e6;--left-on:#fbe6e7}
@media (prefers-color-scheme:dark){:root{--paper:#14171c;--ink:#e6e9ee;--soft:#aeb8c5;--line:#333b47;--ground:#1c2129;--blue:#6cb6ff;--green:#7ed487;--red:#ff8a80;--amber:#ffb74d;--violet:#c4a7ff;--came-on:#16301b;--left-on:#3a1a1d}}
*{box-sizing:border-box}
body{margin:0;background:var(--paper);color:var(--ink);font:15px/1.45 system-ui,"Segoe UI","DejaVu Sans",sans-serif}
header{position:sticky;top:0;z-index:2;background:var(--paper);border-bottom:1px solid var(--line);padding:8px 16px;max-height:60vh;overflow:auto}
.controls{display:flex;gap:8px;align-items:center;flex-wrap:wrap}
button,input{font:inherit;color:inherit;background:var(--ground);border:1px solid var(--line);border-radius:6px;padding:2px 10px}
button{cursor:pointer}
button:focus-visible,input:focus-visible,#chart:focus-visible{outline:2px solid var(--blue);outline-offset:1px}
input[type=range]{flex:1;min-width:140px;padding:0;accent-color:var(--blue)}
input[type=search]{width:8em}
code,pre{font:13px/1.5 ui-monospace,"DejaVu Sans Mono",monospace;margin:0;white-space:pre-wrap;overflow-wrap:anywhere}
#moved{min-height:7em;align-content:start}
#said,#moved{margin:6px 0 0;display:grid;grid-template-columns:max-content minmax(0,1fr);gap:2px 12px}
.key{color:var(--soft)}
#chart{overflow:auto;max-height:58vh;resize:vertical;border-bottom:1px solid var(--line);will-change:transform}
#chart svg{display:block}
#sheet{position:relative;width:max-content}
#names{position:sticky;left:0;width:0;height:0;z-index:1}
#names span{position:absolute;left:0;transform:translateY(-50%);background:var(--paper);padding:0 6px;font-size:12px;font-weight:700;white-space:nowrap}
#number{position:sticky;top:0;width:0;height:0;z-index:1}
#number span{position:absolute;background:var(--ink);color:var(--paper);border-radius:0 0 4px 4px;padding:0 5px;font-size:12px}
#now{position:absolute;top:30px;left:0;width:2px;background:var(--ink);opacity:.6;pointer-events:none;will-change:transform}
#touched span{position:absolute;top:0;width:5px;height:12px;background:var(--violet)}
main{display:grid;grid-template-columns:repeat(auto-fill,minmax(min(340px,100%),1fr));gap:12px;padding:12px 16px;align-items:start}
main section{border:1px solid var(--line);border-radius:8px;padding:8px 12px;min-width:0;content-visibility:auto;contain-intrinsic-size:auto 320px}
main section.acts{border-color:var(--green);box-shadow:0 0 0 1px var(--green)}
main.many section.acts{order:-1}
h2{font-size:16px;margin:0}
h3{font-size:13px;margin:8px 0 2px;color:var(--soft)}
.rule{color:var(--violet);font-size:13px;overflow-wrap:anywhere}
table{border-collapse:collapse;width:100%}
td{padding:1px 8px 1px 0;vertical-align:top;font-size:13px}
td:first-child,td:nth-child(2){white-space:nowrap;width:1%}
td code{white-space:nowrap;overflow-wrap:normal}
td:last-child{overflow-wrap:anywhere}
tr.came{background:var(--came-on)}
tr.left{background:var(--left-on);color:var(--soft)}
tr.left .what{text-decoration:line-through}
.why{color:var(--soft)}
.torn{color:var(--amber);font-weight:700}
.link{background:none;border:0;padding:0;color:var(--blue);text-decoration:underline dotted;text-align:left}
.soft{color:var(--soft);font-size:13px}
.unknown{font-size:13px}
.more{font-size:12px;padding:0 8px;margin:2px 0}
#story{display:grid;grid-template-columns:repeat(auto-fit,minmax(min(340px,100%),1fr));gap:4px 24px;padding:8px 16px;border-bottom:1px solid var(--line)}
#story>h2{grid-column:1/-1}
#story>div{position:relative;max-height:32vh;overflow:auto;font-size:13px}
#story:empty{display:none}
#story ol{margin:4px 0;padding:0;list-style:none}
#story li{font-size:13px}
#story li.here{font-weight:700}
footer{padding:0 16px 16px;color:var(--soft);font-size:13px}
@media (max-width:640px){header{position:static;max-height:none;padding:8px}main,#story,footer{padding:8px}#said,#moved{grid-template-columns:minmax(0,1fr);font-size:13px}#moved{min-height:0;max-height:10em;overflow:auto}#chart{max-height:46vh}}
</style>
</head>
<body>
<header>
<div class="controls">
<button id="first" aria-label="before the first command">|&#9664;</button>
<button id="back" aria-label="one command back">&#9664;</button>
<button id="on" aria-label="one command on">&#9654;</button>
<button id="last" aria-label="after the last command">&#9654;|</button>
<input id="at" type="range" min="0" value="0" aria-label="after which command">
<span id="count"></span>
<label>picture <input id="picture" type="search" inputmode="numeric" placeholder="all (press /)"></label>
<button id="before" aria-label="to the previous command that did something to the picture">p</button>
<button id="behind" aria-label="to the next command that did something to the picture">n</button>
<label>devices <input id="named" type="search" placeholder="all"></label>
</div>
<div id="said" role="status" aria-live="polite"></div>
<div id="moved"></div>
</header>
<div id="chart" tabindex="0" role="region" aria-label="the run as a chart">
"###;

/// From the chart's end to the run's data.
pub const MIDDLE: &str = r###"</div>
<section id="story" aria-label="the picture that is followed"></section>
<p id="none" class="soft" hidden>no device has such a name</p>
<main id="fleet" aria-label="the devices after the command"></main>
<footer>
<p>Keys: left and right go one command back and on, Home and End before the first and behind the last; / asks for a picture, n and p go to the next and the previous command that did something to it, Esc stops following. The address leads here again. A click on a command's column goes there. The field 'devices' shows those with one of some texts in their names.</p>
<p>A device keeps in its store what its filter selects. In its out wait the versions that it made or was handed and doesn't select, until another device takes them. It knows of versions that it doesn't hold: * is what it knows of every picture, a row what it knows beyond that of the pictures that the row names. A report counts what the target of a pull took, what it was handed out of the source's out, what it was told of because that supersedes what it held (notices), and what it gave up (dropped). Green rows came with the command, red ones left with it; ! stands at versions in conflict.</p>
</footer>
<noscript>This page steps through a run by a script of its own, which isn't allowed to run here. The chart above shows the whole run.</noscript>
<script id="run" type="application/json">
"###;
