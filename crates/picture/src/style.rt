//! How the parts of a picture look.

/// How each picture begins.
pub(crate) const OPENING: &str = "<svg xmlns='http://www.w3.org/2000/svg'";
/// What its tag has after its size: how much of the plane it shows begins.
pub(crate) const VIEW_BOX: &str = " viewBox='0 0 ";
/// What its tag has after that.
pub(crate) const ROLE: &str =
    "' role='graphics-document' aria-labelledby='title' aria-describedby='desc'>\n";
/// How its title begins.
pub(crate) const TITLE: &str = "<title id='title'>A run of pcommit: ";
/// What stands in each picture after its title: how to read it, how its parts look, and the legend.
pub(crate) const FURNITURE: &str =
    "<desc id='desc'>Time runs downwards. Each line of the trace has a row, which links to it; the trace is on the left, and each node has a lane on the right: resource managers r, leaders l, acceptors a. An arrow is a datagram, from the event that sent it to the event that took it; one that was lost ends in a cross, one that is handed over again, or is not taken, is thin, and one that was never taken is a short dotted stroke. The lane of a resource manager shows where it stands: striped where it is prepared, filled where it committed, ringed where it aborted.</desc>
<style>
text{font:9px Verdana,'DejaVu Sans',sans-serif;fill:#222}
.name{font-size:13px;font-weight:bold;text-anchor:middle}
.number{font:9px 'DejaVu Sans Mono',monospace;fill:#888;text-anchor:end}
.line{font:9px 'DejaVu Sans Mono',monospace}
.right,.left,.view{paint-order:stroke;stroke:#fff;stroke-width:3px}
.left,.view{text-anchor:end}
.view{font-weight:bold}
.note{font-size:11px}
a:hover text{text-decoration:underline}
.lane{stroke:#999}
.work{stroke:#222;stroke-width:3}
.arrow,.again,.lost{stroke:#1c5aa6;stroke-width:1.6;marker-end:url(#head)}
.again{stroke-width:.7}
.lost{marker-end:none;stroke-dasharray:5 3}
.waiting{stroke:#1c5aa6;stroke-width:1.6;stroke-dasharray:1.5 2.5}
.prepared{fill:url(#stripes);stroke:#8a6100}
.committed{fill:#1d7a3a;stroke:#1d7a3a}
.aborted{fill:url(#rings);stroke:#a61b1b}
</style>
<defs>
<pattern id='stripes' width='6' height='6' patternUnits='userSpaceOnUse'><rect width='6' height='6' fill='#ffe08a'/><path d='M-1 1l2-2M0 6l6-6M5 7l2-2' stroke='#8a6100'/></pattern>
<pattern id='rings' width='10' height='7' patternUnits='userSpaceOnUse'><rect width='10' height='7' fill='#fff'/><path d='M0 3.5h10' stroke='#c92a2a' stroke-width='2.5'/></pattern>
<marker id='head' viewBox='0 0 8 8' refX='11' refY='4' markerWidth='8' markerHeight='8' markerUnits='userSpaceOnUse' orient='auto'><path d='M0 0l8 4l-8 4z' fill='#1c5aa6'/></marker>
<circle id='done' r='3.2' fill='#222'/>
<path id='tear' d='M-2-8l5 6l-4 2l4 8l-7-7l4-2z' fill='#e8590c' stroke='#222' stroke-width='.6'/>
<g id='restart'><circle r='6' fill='#fff' stroke='#222' stroke-width='1.4'/><path d='M-2-3l5 3l-5 3z' fill='#222'/></g>
<path id='compaction' d='M-5-6h10l-10 12h10z' fill='#fff' stroke='#222' stroke-width='1.4'/>
<g id='refusal'><path d='M0-7l7 7l-7 7l-7-7z' fill='#fff' stroke='#a61b1b' stroke-width='1.6'/><path d='M-2.2-2.2l4.4 4.4M2.2-2.2l-4.4 4.4' stroke='#a61b1b' stroke-width='1.6'/></g>
<path id='cross' d='M-5-5l10 10M5-5l-10 10' stroke='#a61b1b' stroke-width='2.4'/>
</defs>
<rect width='100%' height='100%' fill='#fff'/>
<g id='legend'>
<text class='name' x='14' y='26' style='text-anchor:start'>A run of pcommit</text>
<text class='note' x='150' y='26'>time runs downwards, a row for each line of the trace</text>
<use href='#done' x='24' y='52'/><text x='36' y='55'>event</text>
<line class='arrow' x1='80' y1='52' x2='122' y2='52'/><text x='126' y='55'>datagram</text>
<line class='again' x1='190' y1='52' x2='232' y2='52'/><text x='236' y='55'>again, or not taken</text>
<line class='lost' x1='360' y1='52' x2='386' y2='52'/><use href='#cross' x='390' y='52'/><text x='402' y='55'>lost</text>
<line class='waiting' x1='444' y1='52' x2='470' y2='52'/><text x='478' y='55'>never taken</text>
<line class='work' x1='556' y1='45' x2='556' y2='59'/><text x='564' y='55'>what one event did</text>
<use href='#tear' x='24' y='80'/><text x='36' y='83'>next write torn</text>
<use href='#restart' x='130' y='80'/><text x='142' y='83'>restart</text>
<use href='#compaction' x='200' y='80'/><text x='212' y='83'>record made shorter</text>
<use href='#refusal' x='330' y='80'/><text x='342' y='83'>refused</text>
<rect class='prepared' x='402' y='70' width='10' height='20'/><text x='418' y='83'>prepared</text>
<rect class='committed' x='478' y='70' width='10' height='20'/><text x='494' y='83'>committed</text>
<rect class='aborted' x='562' y='70' width='10' height='20'/><text x='578' y='83'>aborted</text>
<text class='note' x='640' y='83' style='font-size:9px'>r: resource manager, l: leader, a: acceptor</text>
</g>
";
