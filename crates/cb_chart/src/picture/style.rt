//! Colours and fonts. The colours are those of Okabe and Ito, which colour-blind people tell apart.

/// What every picture begins with behind its first line.
pub(crate) const STYLE: &str = "\
<style>
svg { --paper: #ffffff; --ink: #1b1b1b; --faint: #6e6e6e; --line: #e4e4e4; --lane: #b4b4b4;
  --hello: #8a8a8a; --ask: #0072b2; --grant: #009e73; --call: #e69f00; --back: #cc79a7;
  --abort: #d55e00; --reads: #cfe9f8; --edge: #56b4e9; --writes: #0072b2; --on: #ffffff;
  --hello-text: #6e6e6e; --grant-text: #00795a; --call-text: #946600; --back-text: #a5487d;
  --abort-text: #b04d00; }
@media (prefers-color-scheme: dark) {
  svg { --paper: #14171a; --ink: #ececec; --faint: #a0a0a0; --line: #2a2f34; --lane: #5c6268;
    --hello: #9a9a9a; --ask: #56b4e9; --grant: #1fbf90; --reads: #1d3f54; --edge: #56b4e9;
    --writes: #56b4e9; --on: #10222e; --hello-text: #9a9a9a; --grant-text: #1fbf90;
    --call-text: #e69f00; --back-text: #cc79a7; --abort-text: #e8752a; }
}
svg { background: var(--paper); }
text { font: 10.5px ui-monospace, Menlo, Consolas, 'DejaVu Sans Mono', monospace;
  fill: var(--ink); }
.paper { fill: var(--paper); }
.title { font-size: 14px; font-weight: 600; }
.head { font-size: 12px; font-weight: 600; text-anchor: middle; }
.no, .refused { fill: var(--faint); }
.no, .left { text-anchor: end; }
.rule { stroke: var(--line); }
.lane { stroke: var(--lane); stroke-width: 1.5; }
.label, .kind { paint-order: stroke; stroke: var(--paper); stroke-width: 3px;
  stroke-linejoin: round; }
.kind { font-size: 9px; }
.arrow { fill: none; stroke-width: 1.4; }
.again { stroke-dasharray: 5 3; }
.stub { stroke-dasharray: 2 2; }
.lost { text-decoration: line-through; }
.hello { --own: var(--hello); --text: var(--hello-text); }
.ask { --own: var(--ask); --text: var(--ask); }
.grant { --own: var(--grant); --text: var(--grant-text); }
.call { --own: var(--call); --text: var(--call-text); }
.back { --own: var(--back); --text: var(--back-text); }
.commit { --own: var(--ink); --text: var(--ink); }
.abort { --own: var(--abort); --text: var(--abort-text); }
.arrow, .cross { stroke: var(--own); }
.point { fill: var(--own); }
.kind, .packet { fill: var(--text); }
.name { font-size: 9px; text-anchor: middle; fill: var(--faint); paint-order: stroke;
  stroke: var(--paper); stroke-width: 3px; }
.reads { fill: var(--reads); stroke: var(--edge); }
.writes { fill: var(--writes); stroke: var(--edge); }
.page { font-size: 9px; text-anchor: middle; }
.on { fill: var(--on); } .off { fill: var(--ink); }
.dot { fill: var(--ink); }
.hollow { fill: var(--paper); stroke: var(--ink); stroke-width: 1.5; }
.cross { fill: none; stroke-width: 2; }
</style>
";

/// The families of packets: the classes of their arrows, and the names of these arrows' heads.
pub(crate) const FAMILIES: [&str; 7] = ["hello", "ask", "grant", "call", "back", "commit", "abort"];

/// What colours and shapes mean.
pub(crate) const LEGEND: &str = "\
<path class=\"arrow hello\" d=\"M14 44H36\" marker-end=\"url(#hello)\"/>\
<text x=\"41\" y=\"48\">Hello Welcome</text>
<path class=\"arrow ask\" d=\"M134 44H156\" marker-end=\"url(#ask)\"/>\
<text x=\"161\" y=\"48\">Ask</text>
<path class=\"arrow grant\" d=\"M194 44H216\" marker-end=\"url(#grant)\"/>\
<text x=\"221\" y=\"48\">Granted MayWrite</text>
<path class=\"arrow call\" d=\"M332 44H354\" marker-end=\"url(#call)\"/>\
<text x=\"359\" y=\"48\">Callback Downgrade</text>
<path class=\"arrow back\" d=\"M482 44H504\" marker-end=\"url(#back)\"/>\
<text x=\"509\" y=\"48\">GiveBack InUse Downgraded</text>
<path class=\"arrow commit\" d=\"M676 44H698\" marker-end=\"url(#commit)\"/>\
<text x=\"703\" y=\"48\">Commit Done</text>
<path class=\"arrow abort\" d=\"M778 44H800\" marker-end=\"url(#abort)\"/>\
<text x=\"805\" y=\"48\">Drop AbortNow</text>
<path class=\"arrow ask again\" d=\"M14 66H36\" marker-end=\"url(#ask)\"/>\
<text x=\"41\" y=\"70\">taken again</text>
<path class=\"arrow stub ask\" d=\"M126 66H146\"/>\
<path class=\"cross ask\" d=\"M143 63l6 6m0 -6l-6 6\"/>\
<text x=\"155\" y=\"70\">never taken</text>
<rect class=\"reads\" x=\"240\" y=\"60\" width=\"12\" height=\"12\"/>\
<text x=\"257\" y=\"70\">can read</text>
<rect class=\"writes\" x=\"322\" y=\"60\" width=\"12\" height=\"12\"/>\
<text x=\"339\" y=\"70\">may write</text>
<circle class=\"hollow\" cx=\"414\" cy=\"66\" r=\"4\"/>\
<text x=\"423\" y=\"70\">read</text>
<rect class=\"dot\" x=\"462\" y=\"62\" width=\"8\" height=\"8\"/>\
<text x=\"475\" y=\"70\">write</text>
<path class=\"dot\" d=\"M526 60l6 6l-6 6l-6 -6z\"/>\
<text x=\"537\" y=\"70\">commit</text>
<path class=\"cross abort\" d=\"M591 61l10 10m0 -10l-10 10\"/>\
<text x=\"607\" y=\"70\">drop, abort</text>
<circle class=\"hollow\" cx=\"694\" cy=\"66\" r=\"2.5\"/>\
<text x=\"702\" y=\"70\">refused</text>
";
