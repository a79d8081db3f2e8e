//! What is the same in every chart: its colours, in light and in dark, its arrowheads and its legend.

/// The style and the arrowheads.
pub const STYLE: &str = r##"<style>
text{font:12px system-ui,"Segoe UI","DejaVu Sans",sans-serif;fill:#1d2329}
.page{fill:#ffffff}.band{fill:#f1f4f8}.lane{stroke:#8b96a5;stroke-width:2}
.name{font-weight:700;font-size:14px}.note{font-size:11px;fill:#4b5766}.mid{text-anchor:middle}.end{text-anchor:end}
.kept{fill:#0b63b0;stroke:#0b63b0;stroke-width:2}.waits{fill:#ffffff;stroke:#0b63b0;stroke-width:2}.gone{text-decoration:line-through}
.pull{stroke:#2a7a34;stroke-width:2;fill:none}.tip{fill:#2a7a34}.preview{stroke:#6b7684;stroke-width:1.5;stroke-dasharray:4 3;fill:none}
.asks{fill:#ffffff;stroke:#8b96a5;stroke-width:1.5}.filter{fill:#6a3fb5}.refused{stroke:#c4262e;stroke-width:3;fill:none}
.strife{stroke:#c77700;stroke-width:7;opacity:.45}.alarm{fill:#c77700}.mark{fill:#ffffff;font-weight:700;font-size:10px}
@media (prefers-color-scheme:dark){
text{fill:#e6e9ee}.page{fill:#14171c}.band{fill:#1c2129}.lane{stroke:#7b8796}.note{fill:#aeb8c5}
.kept{fill:#6cb6ff;stroke:#6cb6ff}.waits{fill:#14171c;stroke:#6cb6ff}.pull{stroke:#7ed487}.tip{fill:#7ed487}.preview{stroke:#9aa5b3}
.asks{fill:#14171c;stroke:#7b8796}.filter{fill:#c4a7ff}.refused{stroke:#ff8a80}.strife{stroke:#ffb74d}.alarm{fill:#ffb74d}.mark{fill:#14171c}}
</style>
<defs><marker id="tip" viewBox="0 0 8 8" refX="7" refY="4" markerWidth="7" markerHeight="7" markerUnits="userSpaceOnUse" orient="auto"><path class="tip" d="M0 0 8 4 0 8z"/></marker></defs>
"##;

/// The legend, whose first line begins at the origin.
pub const LEGEND: &str =
    r##"<circle class="kept" cx="8" cy="0" r="5"/><text x="20" y="4">version made, in the store</text>
<circle class="waits" cx="206" cy="0" r="5"/><text x="218" y="4">in the out</text>
<text class="gone" x="304" y="4">7</text><text x="318" y="4">removal of picture 7</text>
<path class="pull" d="M468 -7V7" marker-end="url(#tip)"/><text x="480" y="4">pull: t taken, h handed over, d dropped; - moved nothing</text>
<path class="refused" d="M3 17 13 27M13 17 3 27"/><text x="20" y="26">refused</text>
<path class="strife" d="M84 22H108"/><path class="alarm" d="M96 13 104 28H88z"/><text class="mark mid" x="96" y="27">!</text><text x="116" y="26">holds versions in conflict</text>
<rect class="filter" x="284" y="17" width="10" height="10"/><text x="302" y="26">another filter, which stands below</text>
<path class="preview" d="M532 15V29"/><text x="542" y="26">preview</text>
<circle class="asks" cx="616" cy="22" r="3"/><text x="628" y="26">question</text>
"##;
