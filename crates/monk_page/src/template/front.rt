//! Constant parts of a page, which template/make makes.

/// The text before the first history.
pub(crate) const FRONT: &str = "\
<!DOCTYPE html>\n<html lang=\"en\">\n<head>\n<meta charset=\"utf-8\">\n<meta name=\"viewport\" \
content=\"width=device-width, initial-scale=1\">\n<meta name=\"color-scheme\" content=\"light \
dark\">\n<title>A history of a monitor</title>\n<style>\n:root {\n  --ink: #1f2933;\n  --soft: \
#56626e;\n  --line: #d9dfe5;\n  --ground: #f6f7f9;\n  --card: #fff;\n  --accent: #2f6fdb;\n  -\
-wrong: #b42318;\n  --wrong-ground: #fdf1f0;\n  --now: #2f6fdb;\n  --active-ink: #fff;\n  --en\
try: #5d6975;\n  --entry-ground: #eef1f4;\n  --condition: #b7791f;\n  --condition-ground: #fdf\
0d5;\n  --waiter: #2f855a;\n  --waiter-ground: #e0f5e8;\n  --signaller: #6b46c1;\n  --signalle\
r-ground: #efe8fb;\n  --until: #0f766e;\n  --until-ground: #ddf3f1;\n}\n\n@media (prefers-colo\
r-scheme: dark) {\n  :root {\n    --ink: #e6ebf0;\n    --soft: #a3afbb;\n    --line: #2c3641;\n    \
--ground: #0c1015;\n    --card: #12171d;\n    --accent: #7aa7f5;\n    --wrong: #fc8181;\n    -\
-wrong-ground: #2a1618;\n    --now: #7aa7f5;\n    --active-ink: #0c1015;\n    --entry: #a3afbb\
;\n    --entry-ground: #20262d;\n    --condition: #f6c667;\n    --condition-ground: #322917;\n    \
--waiter: #68c08b;\n    --waiter-ground: #16291f;\n    --signaller: #b9a1e6;\n    --signaller-\
ground: #251f36;\n    --until: #5bb8b0;\n    --until-ground: #122a29;\n  }\n}\n\n* {\n  box-si\
zing: border-box;\n}\n\n/* The scrollbar is always there: a page that is filled mustn't get na\
rrower than its pictures were fitted to. */\nhtml {\n  overflow-y: scroll;\n  font: clamp(16px\
, .5vw + 10.6px, 24px)/1.4 ui-sans-serif, system-ui, Helvetica, Arial, sans-serif;\n}\n\nbody \
{\n  margin: 0 auto;\n  max-width: 90rem;\n  padding: .5rem 1.4rem 1.6rem;\n  color: var(--ink\
);\n  background: var(--ground);\n  font-variant-numeric: tabular-nums;\n}\n\nh1, h2, h3, p, o\
l, ul {\n  margin: 0;\n  padding: 0;\n}\n\nol, ul {\n  list-style: none;\n}\n\nbutton, input {\
\n  font: inherit;\n  color: inherit;\n}\n\nbutton {\n  cursor: pointer;\n  border: 1px solid \
var(--line);\n  border-radius: .4rem;\n  background: var(--card);\n  padding: .25rem .7rem;\n}\
\n\nbutton:hover:not(:disabled) {\n  border-color: var(--soft);\n}\n\nbutton:disabled {\n  opa\
city: .4;\n  cursor: default;\n}\n\n:focus-visible {\n  outline: 3px solid var(--accent);\n  o\
utline-offset: 2px;\n}\n\n.unseen {\n  position: absolute;\n  width: 1px;\n  height: 1px;\n  o\
verflow: hidden;\n  clip-path: inset(50%);\n  white-space: nowrap;\n}\n\n.quiet {\n  color: va\
r(--soft);\n}\n\n.card {\n  background: var(--card);\n  border: 1px solid var(--line);\n  bord\
er-radius: .5rem;\n}\n\n[hidden], body:not(.several) .if-several, body:not(.asking) .if-asking \
{\n  display: none !important;\n}\n\n#top {\n  display: flex;\n  flex-wrap: wrap;\n  align-ite\
ms: baseline;\n  gap: .1rem 1rem;\n  margin-bottom: .1rem;\n}\n\n#top h1 {\n  font-size: 1.25r\
em;\n  line-height: 1.3;\n  overflow-wrap: anywhere;\n}\n\n#parting {\n  color: var(--soft);\n\
}\n\n#keys {\n  margin-left: auto;\n  font-weight: 600;\n}\n\n#keys, #theme {\n  font-size: .9\
rem;\n}\n\n/* The parts of a history and the controls, which stand between its picture and its \
sentence. */\nmain {\n  display: grid;\n  grid-template-columns: minmax(0, 1fr);\n}\n\n.histor\
y {\n  display: contents;\n}\n\n#live {\n  order: 1;\n}\n\n.stage {\n  order: 2;\n}\n\n.kinds \
{\n  order: 3;\n}\n\n.all {\n  order: 4;\n}\n\n.heading {\n  display: flex;\n  flex-wrap: wrap\
;\n  gap: .1rem .8rem;\n  margin-bottom: .25rem;\n  font-size: .95rem;\n  line-height: 1.4;\n  \
font-weight: 400;\n}\n\n.verdict {\n  font-weight: 600;\n  color: var(--ink);\n}\n\n.verdict.b\
ad {\n  color: var(--wrong);\n}\n\n#help {\n  max-width: min(34rem, 92vw);\n  border: 1px soli\
d var(--line);\n  border-radius: .7rem;\n  padding: .9rem 1.2rem 1.1rem;\n  color: var(--ink);\
\n  background: var(--card);\n}\n\n#help::backdrop {\n  background: rgb(0 0 0 / .35);\n}\n\n#h\
elp form {\n  display: flex;\n  justify-content: space-between;\n  align-items: center;\n  mar\
gin-bottom: .6rem;\n}\n\n#help dl {\n  display: grid;\n  grid-template-columns: auto 1fr;\n  g\
ap: .4rem 1rem;\n  margin: 0;\n}\n\n#help dd {\n  margin: 0;\n}\n\nkbd {\n  font: .82em ui-mon\
ospace, Menlo, Consolas, monospace;\n  border: 1px solid var(--line);\n  border-bottom-width: \
2px;\n  border-radius: .3rem;\n  padding: .05rem .35rem;\n  background: var(--ground);\n}\n\n.\
picture {\n  position: relative;\n  overflow: auto;\n  max-height: 43vh;\n}\n\n/* as large on \
the screen whatever the picture is magnified by */\ntext.act, text.note, text.what, text.step, \
text.lane {\n  font-size: var(--label, 11px);\n}\n\n#legend {\n  order: 1;\n  grid-column: 1 / \
-1;\n  display: flex;\n  flex-wrap: wrap;\n  gap: .1rem 1.1rem;\n  margin-top: .35rem;\n  font\
-size: .9rem;\n  color: var(--soft);\n}\n\n#legend li {\n  display: flex;\n  align-items: cent\
er;\n  gap: .4rem;\n}\n\n.fitting .picture {\n  max-height: none;\n}\n\n.picture svg {\n  disp\
lay: block;\n}\n\n.lane:hover {\n  text-decoration: underline;\n}\n\n.scroll {\n  position: re\
lative;\n}\n\n.cropped {\n  cursor: pointer;\n}\n\n.lanes {\n  position: sticky;\n  left: 0;\n  \
float: left;\n  z-index: 1;\n  pointer-events: none;\n}\n\n.numbers {\n  position: sticky;\n  \
top: 0;\n  z-index: 1;\n  pointer-events: none;\n}\n\n.band {\n  fill: var(--now);\n  fill-opa\
city: .1;\n  stroke: var(--now);\n  stroke-width: 1.5;\n  pointer-events: none;\n}\n\n.band.ba\
d {\n  fill: none;\n  stroke: none;\n}\n\n.veil {\n  fill: var(--card);\n  fill-opacity: .62;\n  \
pointer-events: none;\n}\n\n.hiding .veil {\n  fill-opacity: 1;\n}\n\n.hiding .later {\n  visi\
bility: hidden;\n}\n\n#live {\n  display: flex;\n  flex-wrap: wrap;\n  align-items: center;\n  \
gap: .3rem .7rem;\n  margin: .35rem 0 .45rem;\n}\n\n#live button {\n  font-size: 1.05rem;\n  m\
in-width: 2.6rem;\n}\n\n.buttons, .switches {\n  display: flex;\n  flex-wrap: wrap;\n  gap: .3\
rem .4rem;\n}\n\n.switches {\n  column-gap: .9rem;\n}\n\n#slider {\n  flex: 1 1 12rem;\n  acce\
nt-color: var(--accent);\n  height: 1.6rem;\n  min-width: 6rem;\n}\n\n#count {\n  font-weight: \
600;\n  min-width: 7.2em;\n  text-align: right;\n}\n\n#live label {\n  display: flex;\n  gap: \
.4rem;\n  align-items: center;\n  color: var(--soft);\n}\n\n.stage {\n  display: grid;\n  grid\
-template-columns: minmax(20rem, 6fr) 8fr;\n  gap: .8rem;\n  align-items: stretch;\n}\n\n.told \
{\n  padding: .6rem .9rem;\n  min-height: 13rem;\n}\n\n.say {\n  font-size: 1.18rem;\n  line-h\
eight: 1.36;\n  text-wrap: pretty;\n}\n\n.told.bad {\n  border: 2px solid var(--wrong);\n  pad\
ding: calc(.6rem - 1px) calc(.9rem - 1px);\n}\n\n.say .bad {\n  display: block;\n  color: var(\
--wrong);\n  font-weight: 600;\n  margin-top: .4rem;\n}\n\n.choices {\n  margin-top: .55rem;\n  \
border-top: 1px solid var(--line);\n  padding-top: .45rem;\n}\n\nh2, h3 {\n  font-size: .9rem;\
\n  line-height: 1.3;\n  font-weight: 600;\n  color: var(--soft);\n}\n\n.choices li {\n  displ\
ay: grid;\n  grid-template-columns: 1.4em 1fr auto;\n  gap: .2rem;\n  padding: .12rem 0;\n}\n\n\
.choices li.took {\n  font-weight: 600;\n}\n\n.choices li.barred .who {\n  color: var(--soft);\
\n}\n\n.choices li.barred .how {\n  color: var(--soft);\n  font-weight: 400;\n}\n\n.choices li\
.took.barred .who, .choices li.took.barred .how, .choices li.took.barred .sign {\n  color: var\
(--wrong);\n  font-weight: 600;\n}\n\n.line {\n  margin-top: .5rem;\n  font: .85rem ui-monospa\
ce, Menlo, Consolas, monospace;\n  color: var(--soft);\n  overflow-wrap: anywhere;\n}\n\n.choi\
ces .story li {\n  grid-template-columns: 4.4em 1fr;\n}\n\n.choices a {\n  color: inherit;\n}\n\
\n.data, .code {\n  font: .92rem/1.45 ui-monospace, Menlo, Consolas, monospace;\n  overflow-wr\
ap: anywhere;\n}\n\n.data {\n  margin-top: .6rem;\n}\n\n.guesses {\n  display: grid;\n  gap: .\
3rem;\n  margin-top: .4rem;\n}\n\n.guess {\n  display: flex;\n  align-items: center;\n  gap: .\
7rem;\n  padding: .3rem .7rem;\n  border: 1px solid var(--line);\n  border-radius: .4rem;\n  c\
ursor: pointer;\n}\n\n.guess:hover {\n  border-color: var(--accent);\n}\n\n.guess input {\n  a\
ccent-color: var(--accent);\n  width: 1.1rem;\n  height: 1.1rem;\n}\n\n.check {\n  justify-sel\
f: start;\n  display: flex;\n  align-items: center;\n  gap: .7rem;\n}\n\n.answer {\n  margin-t\
op: .5rem;\n  font-weight: 600;\n  color: var(--waiter);\n}\n\n.answer.bad {\n  color: var(--w\
rong);\n}\n\n.answer:empty, .data:empty, #score:empty {\n  display: none;\n}\n\n#score {\n  fo\
nt-weight: 600;\n}\n\n.boxes {\n  display: grid;\n  gap: .45rem;\n  align-content: start;\n}\n\
\n.row {\n  grid-column: 1 / -1;\n  display: flex;\n  flex-wrap: wrap;\n  gap: .5rem;\n  align\
-items: stretch;\n}\n\n/* its name, and beside it, where there is room, what is in it */\n.box \
{\n  flex: 1 1 9.5rem;\n  display: flex;\n  flex-wrap: wrap;\n  align-items: center;\n  align-\
content: center;\n  gap: .15rem .6rem;\n  padding: .3rem .6rem;\n  min-height: 2.8rem;\n  bord\
er-left: 4px solid var(--line);\n}\n\n.box h3 {\n  display: flex;\n  gap: .5rem;\n  white-spac\
e: nowrap;\n}\n\n.box h3 .quiet {\n  font-weight: 400;\n}\n\n.box.active {\n  border-left-colo\
r: var(--accent);\n}\n\n.box.entry {\n  border-left-color: var(--entry);\n}\n\n.box.condition \
{\n  border-left-color: var(--condition);\n}\n\n.box.waiter {\n  border-left-color: var(--wait\
er);\n}\n\n.box.signaller {\n  border-left-color: var(--signaller);\n}\n\n.box.until {\n  bord\
er-left-color: var(--until);\n}\n\n.box.outside {\n  border-style: dashed;\n  border-left-widt\
h: 1px;\n  background: none;\n}\n\n.box.half {\n  flex-basis: 13rem;\n}\n\n.rank {\n  align-se\
lf: center;\n  font-size: 1.3rem;\n  font-weight: 600;\n  color: var(--soft);\n  padding: 0 .1\
rem;\n}\n\n.seats {\n  display: flex;\n  flex-wrap: wrap;\n  gap: .35rem;\n  align-items: cent\
er;\n}\n\n.seat {\n  display: inline-grid;\n  place-items: center;\n  min-width: 1.9rem;\n  he\
ight: 1.9rem;\n  padding: 0 .3rem;\n  border-radius: .4rem;\n  border: 2px solid var(--line);\n  \
font-weight: 700;\n  font-size: 1.05rem;\n}\n\n.seat.outside {\n  border-style: dashed;\n  col\
or: var(--soft);\n}\n\n.seat.active {\n  background: var(--accent);\n  border-color: var(--acc\
ent);\n  color: var(--active-ink);\n}\n\n.seat.entry {\n  background: var(--entry-ground);\n  \
border-color: var(--entry);\n}\n\n.seat.condition {\n  background: var(--condition-ground);\n  \
border-color: var(--condition);\n}\n\n.seat.waiter {\n  background: var(--waiter-ground);\n  b\
order-color: var(--waiter);\n}\n\n.seat.signaller {\n  background: var(--signaller-ground);\n  \
border-color: var(--signaller);\n}\n\n.seat.until {\n  background: var(--until-ground);\n  bor\
der-color: var(--until);\n}\n\n.seat.moved {\n  box-shadow: 0 0 0 2px var(--card), 0 0 0 4px v\
ar(--ink);\n}\n\n.seats > .moved + span {\n  margin-left: .3rem;\n}\n\n.waits {\n  flex: 1;\n  \
display: grid;\n  gap: .3rem;\n}\n\n.waits li {\n  display: flex;\n  align-items: center;\n  g\
ap: .6rem;\n}\n\n.truth {\n  margin-left: auto;\n  font-weight: 600;\n}\n\n.truth.yes {\n  col\
or: var(--until);\n}\n\n.row > h2 {\n  flex-basis: 100%;\n  margin-bottom: -.15rem;\n}\n\n.mon\
itor {\n  border: 2px solid var(--soft);\n  border-radius: .7rem;\n  padding: .5rem .6rem .6re\
m;\n  display: grid;\n  gap: .45rem;\n}\n\n.kinds {\n  margin-top: .8rem;\n}\n\n.chips {\n  di\
splay: grid;\n  grid-template-columns: repeat(10, 1fr);\n  gap: .4rem;\n  margin: .35rem 0;\n}\
\n\n.chip {\n  display: block;\n  width: 100%;\n  text-align: left;\n  padding: .3rem .5rem;\n  \
line-height: 1.25;\n}\n\n.chip b {\n  display: block;\n}\n\n.chip span:not(.unseen) {\n  font-\
size: .88rem;\n  white-space: nowrap;\n}\n\n.chip.own {\n  box-shadow: 0 0 0 2px var(--ground)\
, 0 0 0 4px var(--ink);\n}\n\n/* Another kind that forbids these events isn't wrong: under it \
the threads would go other ways. */\n.chip.no.past {\n  border-color: var(--soft);\n  border-s\
tyle: dashed;\n}\n\n.chip.own.no span {\n  color: var(--wrong);\n}\n\n.chip.own.no.past {\n  b\
ackground: var(--wrong-ground);\n  border: 1px solid var(--wrong);\n}\n\n.notes {\n  min-heigh\
t: 1.5rem;\n}\n\ndetails {\n  margin-top: .8rem;\n}\n\nsummary {\n  cursor: pointer;\n  font-s\
ize: .9rem;\n  font-weight: 600;\n  color: var(--soft);\n}\n\n.table {\n  overflow-x: auto;\n  \
margin-top: .5rem;\n}\n\ntable {\n  border-collapse: collapse;\n  width: 100%;\n  font-size: .\
9rem;\n}\n\nth, td {\n  text-align: left;\n  vertical-align: top;\n  padding: .25rem .6rem;\n  \
border-bottom: 1px solid var(--line);\n}\n\nth {\n  color: var(--soft);\n  white-space: nowrap\
;\n}\n\ntd.short {\n  white-space: nowrap;\n}\n\ntd a {\n  color: inherit;\n}\n\ntr[aria-curre\
nt] td {\n  background: color-mix(in srgb, var(--accent) 14%, transparent);\n}\n\ntr.bad td {\n  \
color: var(--wrong);\n}\n\n.strips {\n  display: none;\n}\n\n/* Several histories: their pictu\
res one above the other, the rest of each in a column. */\n.several main {\n  grid-template-co\
lumns: repeat(var(--histories), minmax(0, 1fr));\n  column-gap: .9rem;\n}\n\n.several .heading\
, .several .picture, .several .strips, .several #live, .several .all {\n  grid-column: 1 / -1;\
\n}\n\n.several .heading {\n  flex-wrap: nowrap;\n  margin-bottom: .1rem;\n}\n\n.several .abou\
t {\n  min-width: 0;\n  overflow: hidden;\n  text-overflow: ellipsis;\n  white-space: nowrap;\n\
}\n\n.several .verdict {\n  flex: none;\n}\n\n.several .picture {\n  max-height: calc(56vh / v\
ar(--histories));\n  margin-bottom: .3rem;\n}\n\n.several .stage {\n  grid-template-columns: 1\
fr;\n  align-content: start;\n}\n\n.several .told {\n  min-height: 9rem;\n}\n\n.several .say {\
\n  font-size: 1.12rem;\n}\n\n.several .chips {\n  grid-template-columns: repeat(auto-fill, mi\
nmax(6.5rem, 1fr));\n}\n\n.alone > .picture, .alone > .stage .told {\n  outline: 2px solid var\
(--accent);\n}\n\n.over > .stage, .over > .picture {\n  opacity: .55;\n}\n\n@media (max-width: \
700px) {\n  .several main {\n    grid-template-columns: minmax(0, 1fr);\n  }\n  .several .head\
ing {\n    flex-wrap: wrap;\n  }\n  .several .about {\n    white-space: normal;\n  }\n}\n\n@me\
dia (max-width: 1000px) {\n  #live {\n    font-size: .85rem;\n    column-gap: .5rem;\n  }\n  #\
live button {\n    font-size: .9rem;\n    min-width: 0;\n    padding: .25rem .5rem;\n  }\n  #s\
lider {\n    flex-basis: 3rem;\n    min-width: 3rem;\n  }\n  .switches {\n    column-gap: .5re\
m;\n  }\n  #live label {\n    gap: .2rem;\n  }\n  .stage {\n    grid-template-columns: 1fr;\n  \
}\n  .told {\n    min-height: 0;\n  }\n  .chips {\n    grid-template-columns: repeat(5, 1fr);\n  \
}\n}\n\n/* A finger needs 44 pixels. */\n@media (max-width: 520px), (pointer: coarse) {\n  #li\
ve button, #keys, #theme, .check {\n    min-width: 44px;\n    min-height: 44px;\n  }\n  #live \
label, .guess, summary {\n    min-height: 44px;\n  }\n  #live input[type=checkbox], .guess inp\
ut {\n    width: 1.3rem;\n    height: 1.3rem;\n  }\n  .chip, .table a {\n    min-height: 44px;\
\n  }\n}\n\n@media (max-width: 520px) {\n  .chips {\n    grid-template-columns: repeat(2, 1fr)\
;\n  }\n  .chip span:not(.unseen) {\n    white-space: normal;\n  }\n  #legend {\n    font-size\
: .78rem;\n    column-gap: .7rem;\n  }\n  .guess kbd, .check kbd {\n    display: none;\n  }\n  \
body {\n    padding: .5rem .6rem;\n  }\n}\n\n@media print {\n  @page {\n    size: A4 landscape\
;\n    margin: 12mm;\n  }\n  html {\n    font-size: 10pt;\n  }\n  body {\n    max-width: none;\
\n    padding: 0;\n    background: none;\n  }\n  #live, #legend, #theme, #keys, .stage, summar\
y {\n    display: none;\n  }\n  .picture {\n    height: 0;\n    max-height: 0;\n    overflow: \
hidden;\n    border: 0;\n  }\n  .strips {\n    display: block;\n  }\n  .strips svg {\n    disp\
lay: block;\n    width: 100%;\n    height: auto;\n    break-inside: avoid;\n    margin-bottom: \
2mm;\n  }\n  .kinds {\n    break-inside: avoid;\n  }\n  .chips {\n    grid-template-columns: r\
epeat(10, 1fr);\n  }\n  tr {\n    break-inside: avoid;\n  }\n  tr[aria-current] td {\n    back\
ground: none;\n  }\n  td a {\n    text-decoration: none;\n  }\n}\n</style>\n</head>\n<body>\n<\
header id=\"top\">\n  <h1 id=\"name\">A history</h1>\n  <p id=\"parting\"></p>\n  <button id=\"\
keys\" type=\"button\" aria-label=\"Keys\" title=\"Keys (?)\">?</button>\n  <button id=\"theme\
\" type=\"button\">Dark</button>\n</header>\n<main>\n<ul id=\"legend\" aria-label=\"Legend of \
the picture\" hidden></ul>\n<div id=\"live\" role=\"group\" aria-label=\"Steps\" hidden>\n  <s\
pan class=\"buttons\">\n    <button id=\"first\" type=\"button\" aria-label=\"First\">|&#9664;\
</button>\n    <button id=\"back\" type=\"button\" aria-label=\"Step back\">&#9664;</button>\n    \
<button id=\"on\" type=\"button\" aria-label=\"Step on\">&#9654;</button>\n    <button id=\"la\
st\" type=\"button\" aria-label=\"Last\">&#9654;|</button>\n    <button id=\"play\" type=\"but\
ton\">Play</button>\n  </span>\n  <input id=\"slider\" type=\"range\" step=\"1\" aria-label=\"\
Step\">\n  <span id=\"count\"></span>\n  <span class=\"switches\">\n    <label class=\"if-aski\
ng\"><input id=\"ask\" type=\"checkbox\" autocomplete=\"off\"> ask first <span id=\"score\" ro\
le=\"status\"></span></label>\n    <label><input id=\"hide\" type=\"checkbox\" autocomplete=\"\
off\"> hide what follows</label>\n    <label><input id=\"fit\" type=\"checkbox\" autocomplete=\
\"off\"> fit</label>\n    <label class=\"if-several\"><input id=\"together\" type=\"checkbox\" \
autocomplete=\"off\" checked> in step</label>\n  </span>\n</div>\n";
