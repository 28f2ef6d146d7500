//! Colours and hatchings, in light and dark.

/// The style sheet, the hatchings of the places and the tips of the arrows.
pub(crate) const STYLE: &str = "<style>
svg { font: 12px ui-sans-serif, system-ui, Helvetica, Arial, sans-serif; }
text { fill: #1f2933; }
.head { font-size: 15px; font-weight: 600; }
.soft, .note, .step { fill: #5d6975; font-size: 11px; }
.act, .what { font-size: 11px; }
.act, .note, .step, .what, .tag { text-anchor: middle; }
.act, .note, .what { stroke: #fff; stroke-width: 3; paint-order: stroke; }
.what, .tag, .wrong { font-weight: 600; }
.tag { font-size: 10px; stroke: #fff; stroke-width: 6; stroke-linejoin: round; paint-order: stroke; }
.wrong { fill: #c53030; }
.far { text-anchor: end; }
.background { fill: #fff; }
.grid { stroke: #e4e8ec; }
.rail { stroke: #b8c1ca; stroke-dasharray: 2 4; }
.active { fill: #2f6fdb; }
.entry { fill: url(#entry); stroke: #5d6975; }
.condition { fill: url(#condition); stroke: #b7791f; }
.waiter { fill: url(#waiter); stroke: #2f855a; }
.signaller { fill: url(#signaller); stroke: #6b46c1; }
.until { fill: url(#until); stroke: #0f766e; }
.mark circle { fill: #fff; stroke: #1f2933; stroke-width: 1.4; }
.refused path { stroke: #1f2933; stroke-width: 1.8; }
.hand, .wish, .frame { fill: none; stroke-width: 1.6; }
.hand { stroke: #1f2933; }
.hand-tip { fill: #1f2933; }
.frame, .wish { stroke: #c53030; }
.wish { stroke-dasharray: 5 3; }
.wish-tip { fill: #c53030; }
@media (prefers-color-scheme: dark) {
text { fill: #e6ebf0; } .soft, .note, .step { fill: #a3afbb; }
.act, .note, .what, .tag { stroke: #12171d; } .wrong, .wish-tip { fill: #fc8181; } .background { fill: #12171d; }
.grid { stroke: #232b34; } .rail { stroke: #4a5663; } .active { fill: #5b93f0; }
.back { fill-opacity: .16; } .hand { stroke: #e6ebf0; } .hand-tip { fill: #e6ebf0; }
.frame, .wish { stroke: #fc8181; }
}
</style>
<defs>
<pattern id=\"entry\" width=\"6\" height=\"6\" patternUnits=\"userSpaceOnUse\" patternTransform=\"rotate(0)\">\
<rect class=\"back\" width=\"6\" height=\"6\" fill=\"#eef1f4\"/>\
<rect width=\"2.4\" height=\"6\" fill=\"#c3ccd5\"/></pattern>
<pattern id=\"condition\" width=\"6\" height=\"6\" patternUnits=\"userSpaceOnUse\" patternTransform=\"rotate(45)\">\
<rect class=\"back\" width=\"6\" height=\"6\" fill=\"#fdf0d5\"/>\
<rect width=\"2.4\" height=\"6\" fill=\"#f6c667\"/></pattern>
<pattern id=\"waiter\" width=\"6\" height=\"6\" patternUnits=\"userSpaceOnUse\" patternTransform=\"rotate(90)\">\
<rect class=\"back\" width=\"6\" height=\"6\" fill=\"#e0f5e8\"/>\
<rect width=\"2.4\" height=\"6\" fill=\"#68c08b\"/></pattern>
<pattern id=\"signaller\" width=\"6\" height=\"6\" patternUnits=\"userSpaceOnUse\" patternTransform=\"rotate(135)\">\
<rect class=\"back\" width=\"6\" height=\"6\" fill=\"#efe8fb\"/>\
<rect width=\"2.4\" height=\"6\" fill=\"#a78bda\"/></pattern>
<pattern id=\"until\" width=\"6\" height=\"6\" patternUnits=\"userSpaceOnUse\" patternTransform=\"rotate(20)\">\
<rect class=\"back\" width=\"6\" height=\"6\" fill=\"#ddf3f1\"/>\
<rect width=\"2.4\" height=\"6\" fill=\"#5bb8b0\"/></pattern>
<marker id=\"hand-tip\" markerWidth=\"8\" markerHeight=\"8\" markerUnits=\"userSpaceOnUse\" \
refX=\"6\" refY=\"4\" orient=\"auto\"><path class=\"hand-tip\" d=\"M0 0L8 4L0 8z\"/></marker>
<marker id=\"wish-tip\" markerWidth=\"8\" markerHeight=\"8\" markerUnits=\"userSpaceOnUse\" \
refX=\"6\" refY=\"4\" orient=\"auto\"><path class=\"wish-tip\" d=\"M0 0L8 4L0 8z\"/></marker>
</defs>
";
