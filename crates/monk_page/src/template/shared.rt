//! Constant parts of a page, which template/make makes.

/// The text after the last history, up to what each kind of page has of its own.
pub(crate) const SHARED: &str = "\
</main>\n<dialog id=\"help\" aria-labelledby=\"help-head\">\n  <form method=\"dialog\"><h2 id=\
\"help-head\">Keys</h2><button aria-label=\"Close\">&#215;</button></form>\n  <dl>\n    <dt><k\
bd>&#8592;</kbd> <kbd>&#8594;</kbd></dt><dd>step back, step on (also Page Up, Page Down)</dd>\n    \
<dt><kbd>Home</kbd> <kbd>End</kbd></dt><dd>first step, last step</dd>\n    <dt class=\"if-aski\
ng\"><kbd>a</kbd></dt><dd class=\"if-asking\">ask first who may go on; <kbd>1</kbd> to <kbd>9<\
/kbd> tick, <kbd>Enter</kbd> checks</dd>\n    <dt><kbd>n</kbd> <kbd>b</kbd></dt><dd>this seat&\
#8217;s next event, and the one before; or click its name</dd>\n    <dt><kbd>r</kbd></dt><dd>n\
ext act that is refused, or step that is wrong</dd>\n    <dt><kbd>p</kbd></dt><dd>play, pause<\
/dd>\n    <dt><kbd>h</kbd></dt><dd>hide what follows</dd>\n    <dt><kbd>f</kbd></dt><dd>fit th\
e picture into the window</dd>\n    <dt class=\"if-several\"><kbd>w</kbd></dt><dd class=\"if-s\
everal\">move one alone, the next alone, or all in step</dd>\n    <dt><kbd>t</kbd></dt><dd>dar\
k, light</dd>\n    <dt><kbd>?</kbd></dt><dd>these keys</dd>\n  </dl>\n</dialog>\n<script>\n(() \
=> {\n'use strict';\n\n// What each part of the script builds with.\n\nconst byId = (id) => do\
cument.getElementById(id);\nconst SVG = 'http://www.w3.org/2000/svg';\n\nfunction make(tag, cl\
s, ...inside) {\n  const element = document.createElement(tag);\n  if (cls) element.className \
= cls;\n  element.append(...inside);\n  return element;\n}\n\nfunction draw(tag, attributes, p\
arent) {\n  const element = document.createElementNS(SVG, tag);\n  for (const name in attribut\
es) element.setAttribute(name, attributes[name]);\n  if (parent) parent.append(element);\n  re\
turn element;\n}\n\nfunction button(cls, does, ...inside) {\n  const element = make('button', \
cls, ...inside);\n  element.type = 'button';\n  element.addEventListener('click', does);\n  re\
turn element;\n}\n\nconst plural = (n, one, many) => `${n} ${n === 1 ? one : many || one + 's'\
}`;\nconst listed = (xs) =>\n  xs.length < 2 ? xs.join('') : `${xs.slice(0, -1).join(', ')} an\
d ${xs[xs.length - 1]}`;\nconst seatsOf = (xs) => (xs.length === 1 ? `seat ${xs[0]}` : `seats \
${listed(xs)}`);\n\nconst isHiding = () => document.body.classList.contains('hiding');\nconst \
isFitting = () => byId('fit').checked;\n\n// Light and dark: as the system has it, until the b\
utton is pressed.\n\nlet dark = matchMedia('(prefers-color-scheme: dark)').matches;\nlet schem\
es = null;\n\n// The rules of a scheme. They are collected when they are first wanted: a pictu\
re that is moved gets new ones.\nfunction rulesOfSchemes() {\n  const rules = [...document.sty\
leSheets].flatMap((sheet) => [...sheet.cssRules]);\n  return rules.filter((rule) => rule.media \
&& rule.media.mediaText.includes('prefers-color-scheme'));\n}\n\nfunction setTheme(isDark) {\n  \
dark = isDark;\n  schemes ??= rulesOfSchemes();\n  schemes.forEach((rule) => (rule.media.media\
Text = dark ? 'all' : 'not all'));\n  document.documentElement.style.colorScheme = dark ? 'dar\
k' : 'light';\n  byId('theme').textContent = dark ? 'Light' : 'Dark';\n}\n\nbyId('theme').text\
Content = dark ? 'Light' : 'Dark';\nbyId('theme').addEventListener('click', () => setTheme(!da\
rk));\n\n// Print is light.\nlet screenDark = null;\naddEventListener('beforeprint', () => {\n  \
screenDark = dark;\n  setTheme(false);\n  histories.forEach((it) => it.showAll());\n});\naddEv\
entListener('afterprint', () => {\n  if (screenDark !== null) setTheme(screenDark);\n  histori\
es.forEach((it) => it.showAgain());\n});\n\n// The histories of the page, and what step they s\
how: all the same, or one moves alone.\n\nconst histories = [];\nlet inStep = 0; // the step t\
hat all show, if they are in step\nlet chosen; // the history that moves if they aren't, and t\
hat the keys of a seat mean\nlet resting;\nlet address; // as it was last read or written\n\nc\
onst isInStep = () => byId('together').checked;\nconst moving = () => (isInStep() ? histories \
: [chosen]);\nconst whereNow = () => (isInStep() ? inStep : chosen.now);\nconst firstStep = () \
=> Math.min(...moving().map((it) => it.first));\nconst lastStep = () => Math.max(...moving().m\
ap((it) => it.last));\nconst openQuestions = () => histories.filter((it) => it.isAsked);\n\nfu\
nction showControls() {\n  const [now, first, last] = [whereNow(), firstStep(), lastStep()];\n  \
const words = `step ${now} of ${last}`;\n  Object.assign(byId('slider'), { min: first, max: la\
st, value: now });\n  byId('slider').setAttribute('aria-valuetext', words);\n  byId('count').t\
extContent = words;\n  byId('back').disabled = byId('first').disabled = now === first;\n  byId\
('on').disabled = byId('last').disabled = now === last && !openQuestions().length;\n  historie\
s.forEach((it) => it.root.classList.toggle('alone', !isInStep() && it === chosen));\n}\n\n// O\
nce each history shows its step.\nfunction settle() {\n  showControls();\n  histories.forEach(\
(it) => it.scroll());\n}\n\n// The address follows where a step is rested on: browsers refuse \
too many changes in a row. One that somebody has\n// just changed isn't overwritten: it is abo\
ut to be read.\nfunction followAddress() {\n  clearTimeout(resting);\n  resting = setTimeout((\
) => {\n    if (location.hash !== address) return;\n    const at = new URLSearchParams(locatio\
n.hash.slice(1));\n    at.set('step', whereNow());\n    try {\n      history.replaceState(null\
, '', `#${at}`);\n    } catch (_) {\n      // a place without addresses\n    }\n    address = \
location.hash;\n  }, 150);\n}\n\n// Each history that moves goes to the step: by `does`, which \
shows it or asks for it.\nfunction moveBy(does, step) {\n  const to = Math.max(firstStep(), Ma\
th.min(lastStep(), step));\n  if (isInStep()) inStep = to;\n  moving().forEach((it) => does(it\
, to));\n  settle();\n  followAddress();\n}\n\n// Shows a step, in the history where it was as\
ked for with the verdict of that kind.\nfunction go(step, from, kind) {\n  if (from) chosen = \
from;\n  moveBy((it, to) => it.show(to, it === from ? kind : null), step);\n}\n\n// With `ask \
first` a step that chooses is a question before it is shown; to step on answers it, or just sh\
ows it.\nfunction stepOn() {\n  const open = openQuestions();\n  if (open.length) {\n    open.\
forEach((it) => it.answer());\n    settle();\n  } else if (byId('ask').checked) {\n    moveBy(\
(it, to) => it.ask(to), whereNow() + 1);\n  } else {\n    go(whereNow() + 1);\n  }\n}\n\nconst \
stepBack = () => go(whereNow() - 1);\nconst goFirst = () => go(firstStep());\nconst goLast = (\
) => go(lastStep());\n\n// Up to where all are the same, if all begin with the first step.\nfu\
nction partingWords() {\n  const [one, ...others] = histories;\n  if (!others.length || histor\
ies.some((it) => it.first > 0)) return '';\n  const ends = Math.min(...histories.map((it) => i\
t.last));\n  for (let step = 1; step <= ends; step++) {\n    if (others.some((it) => it.eventA\
t(step) !== one.eventAt(step))) {\n      const same = step > 1 ? `The same up to step ${step - \
1}; they` : 'They';\n      return `${same} part at step ${step}.`;\n    }\n  }\n  const isSame \
= histories.every((it) => it.last === ends);\n  return isSame ? 'The same, step by step.' : `T\
he same up to step ${ends}, where one ends.`;\n}\n\n// How many of the questions were answered \
rightly.\n\nlet right = 0;\nlet answered = 0;\n\nfunction scored(isRight) {\n  answered += 1;\n  \
right += isRight ? 1 : 0;\n  byId('score').textContent = `${right}/${answered}`;\n  settle();\n\
}\n\n// How far the pictures are magnified, all alike: to the width, and several so that their \
sentences are in view.\n\nconst LARGEST = 1.35;\nconst LEAST = { one: 0.9, several: 0.58, fitt\
ed: 0.3 };\nconst LEGIBLE = 0.9; // where a picture is scrolled rather than smaller\nconst PAR\
T_OF_WINDOW = { one: 0.36, several: 0.48 }; // so that what stands below is in view\n\nfunctio\
n scaleOf({ w, h }, room) {\n  const wide = room / w;\n  const part = histories.length > 1 ? P\
ART_OF_WINDOW.several : PART_OF_WINDOW.one;\n  const high = (innerHeight * part) / histories.l\
ength / h;\n  return Math.min(high, isFitting() ? wide : Math.max(wide, LEGIBLE));\n}\n\nfunct\
ion fitPictures() {\n  const least = isFitting() ? LEAST.fitted : histories.length > 1 ? LEAST\
.several : LEAST.one;\n  document.body.classList.toggle('fitting', isFitting());\n  const want\
ed = histories.map((it) => scaleOf(it.view, it.box.clientWidth));\n  const scale = Math.max(le\
ast, Math.min(LARGEST, ...wanted));\n  histories.forEach((it) => it.fit(scale));\n  // all are \
measured before one is changed: else the page is laid out for each\n  const sizes = histories.\
map(({ box }) => ({ clientWidth: box.clientWidth, clientHeight: box.clientHeight }));\n  histo\
ries.forEach((it, i) => it.showRulers(sizes[i]));\n}\n\n// What the bars and marks of the pict\
ures mean: the legends of all pictures in one line, each sign once.\n\nfunction signOf(item) {\
\n  const sign = draw('svg', { viewBox: '-1 -1 25 14', width: 25, height: 14, 'aria-hidden': '\
true' });\n  sign.append(...[...item.children].filter((it) => it.nodeName !== 'text').map((it) \
=> it.cloneNode(true)));\n  return sign;\n}\n\nfunction showLegend() {\n  const signs = new Ma\
p();\n  document.querySelectorAll('.cropped .legend').forEach((item) => {\n    const words = i\
tem.querySelector('text').textContent;\n    if (!signs.has(words)) signs.set(words, signOf(ite\
m));\n  });\n  byId('legend').replaceChildren(...[...signs].map(([words, sign]) => make('li', \
'', sign, words)));\n}\n\n// What steps the histories: slider, buttons and keys.\n\nconst BETW\
EEN = 1600; // milliseconds between two steps of a play\nlet playing = null;\n\nfunction pause\
() {\n  clearInterval(playing);\n  playing = null;\n  byId('play').textContent = 'Play';\n}\n\n\
// A play waits at a question, and ends with the last step.\nfunction playOn() {\n  if (openQu\
estions().length) return;\n  stepOn();\n  if (whereNow() === lastStep() && !openQuestions().le\
ngth) pause();\n}\n\nfunction play() {\n  if (playing) {\n    pause();\n    return;\n  }\n  if \
(whereNow() === lastStep()) goFirst();\n  playing = setInterval(playOn, BETWEEN);\n  byId('pla\
y').textContent = 'Pause';\n}\n\nfunction toggle(id) {\n  if (byId(id).closest('label').offset\
Parent) byId(id).click();\n}\n\nfunction goTo(step) {\n  if (step !== undefined) go(step, chos\
en);\n}\n\n// One history moves alone, the next alone, and after the last all in step.\nfuncti\
on moveAnother() {\n  const next = isInStep() ? 0 : histories.indexOf(chosen) + 1;\n  if (next \
< histories.length) chosen = histories[next];\n  if (isInStep() || next === histories.length) \
toggle('together');\n  else showControls();\n}\n\nfunction refit() {\n  fitPictures();\n  sett\
le();\n}\n\nconst help = byId('help');\nconst KEYS = {\n  ArrowLeft: stepBack,\n  ArrowRight: \
stepOn,\n  // what a presenter's remote control sends\n  PageUp: stepBack,\n  PageDown: stepOn\
,\n  Home: goFirst,\n  End: goLast,\n  a: () => toggle('ask'),\n  b: () => goTo(chosen.nextOfT\
hisSeat(-1)),\n  f: () => toggle('fit'),\n  h: () => toggle('hide'),\n  n: () => goTo(chosen.n\
extOfThisSeat(1)),\n  p: play,\n  r: () => goTo(chosen.nextRefused()),\n  t: () => byId('theme\
').click(),\n  w: moveAnother,\n  '?': () => (help.open ? help.close() : help.showModal()),\n}\
;\n\nfunction press(event) {\n  if (event.altKey || event.ctrlKey || event.metaKey || event.de\
faultPrevented) return;\n  if (help.open && event.key !== '?') return;\n  const [open] = openQ\
uestions();\n  if (open && /^[1-9]$/.test(event.key)) open.tick(Number(event.key) - 1);\n  els\
e if (open && event.key === 'Enter' && !event.target.closest('button, summary, a')) open.answe\
r();\n  else if (event.key in KEYS) KEYS[event.key]();\n  else return;\n  event.preventDefault\
();\n}\n\nfunction beginKeys() {\n  byId('slider').addEventListener('input', (event) => go(Num\
ber(event.target.value)));\n  const clicks = { first: goFirst, back: stepBack, on: stepOn, las\
t: goLast, play, keys: KEYS['?'] };\n  for (const id in clicks) byId(id).addEventListener('cli\
ck', clicks[id]);\n  for (const id of ['ask', 'hide']) {\n    byId(id).addEventListener('chang\
e', () => {\n      document.body.classList.toggle('hiding', byId('ask').checked || byId('hide'\
).checked);\n      histories.forEach((it) => it.showAgain());\n      settle();\n    });\n  }\n  \
byId('fit').addEventListener('change', refit);\n  byId('together').addEventListener('change', \
() => go(chosen.now));\n  addEventListener('resize', refit);\n  addEventListener('keydown', pr\
ess);\n}\n\n// The head of the page, and the step that the address names.\n\nfunction byAddres\
s() {\n  address = location.hash;\n  const at = new URLSearchParams(address.slice(1));\n  if (\
at.has('theme')) setTheme(at.get('theme') === 'dark');\n  for (const id of ['ask', 'hide', 'fi\
t']) if (at.has(id) && !byId(id).checked) toggle(id);\n  const named = at.get('step');\n  cons\
t isPart = histories.some((it) => it.first > 0);\n  go(/^\\d+$/.test(named || '') ? Number(nam\
ed) : isPart ? lastStep() : firstStep());\n}\n\n// The page is named by its file, if it has on\
e.\nfunction nameOfPage() {\n  const path = decodeURIComponent(location.pathname.split('/').po\
p() || '');\n  return path.replace(/\\.html?$/, '').replace(/[_-]+/g, ' ');\n}\n\nfunction beg\
in() {\n  document.querySelectorAll('.history').forEach((root, i) => histories.push(historyOf(\
root, i)));\n  [chosen] = histories;\n  byId('name').textContent = nameOfPage() || chosen.noun\
;\n  document.title = `${byId('name').textContent}: ${histories.map((it) => it.kind).join(', '\
)}`;\n  byId('parting').textContent = partingWords();\n  document.body.classList.toggle('sever\
al', histories.length > 1);\n  document.body.classList.toggle('asking', histories.some((it) => \
it.ask));\n  document.body.style.setProperty('--histories', histories.length);\n  byId('live')\
.hidden = byId('legend').hidden = false;\n  showLegend();\n  beginKeys();\n  fitPictures();\n  \
addEventListener('hashchange', byAddress);\n  byAddress();\n}\n\n// A history of the page: all \
that follows is of the one in that element.\nfunction historyOf(root, index) {\n// The element\
s of this history and its data; seats and conditions have names if a file beside it has them.\n\
\nconst elements = {};\nconst $ = (cls) => (elements[cls] ??= root.querySelector(`.${cls}`));\n\
const H = JSON.parse($('history-data').textContent);\nconst TOLD = JSON.parse($('told-data').t\
extContent) || {};\nconst SEATS = TOLD.seats || [];\nconst CONDITIONS = TOLD.conditions || [];\
\n\nconst seatName = (s) => SEATS[s] || `seat ${s}`;\nconst conditionName = (c) => (CONDITIONS\
[c] ? `\\u2018${CONDITIONS[c]}\\u2019` : `condition ${c}`);\n\n// A sentence with these names \
in place of the numbers.\nfunction named(words) {\n  return words\n    .replace(/\\bseats ((?:\
\\d+(?:, | and )?)+)/g, (all, list) =>\n      SEATS.length ? list.replace(/\\d+/g, seatName) : \
all,\n    )\n    .replace(/\\b[Ss]eat (\\d+)\\b/g, (all, s) => SEATS[s] || all)\n    .replace(\
/\\bcondition (\\d+)\\b/g, (_, c) => conditionName(c));\n}\n\n// The object in words: its pred\
icates, its acts, its data.\n\nconst FLAGS = Array.from({ length: 32 }, (_, flag) => `flag ${f\
lag} is set`);\nconst PREDICATES = {\n  buffer: ['there is room for an item', 'an item is ther\
e'],\n  book: ['a read may start', 'the write may start'],\n  shop: ['a chair to wait on is fr\
ee', 'a customer may be called', 'the cut is done'],\n  flags: FLAGS,\n}[H.object];\n\n// What \
an act does, and what it tries to do.\nconst ACTS = {\n  book: [\n    ['starts to read', 'to s\
tart a read'],\n    ['ends its read', 'to end a read'],\n    ['starts to write', 'to start the \
write'],\n    ['ends the write', 'to end the write'],\n  ],\n  shop: [\n    ['sits down to wai\
t', 'to sit down'],\n    ['calls the next customer', 'to call a customer'],\n    ['finishes th\
e cut', 'to finish a cut'],\n    ['departs', 'to depart'],\n  ],\n}[H.object];\n\nfunction buf\
ferAct(code, arg, reply) {\n  if (code === '0') {\n    return reply === '0' ? `tries to put ${\
arg} in vain: no room (reply 0)` : `puts item ${arg}`;\n  }\n  return reply === '0'\n    ? 'tr\
ies to take an item in vain: none is there (reply 0)'\n    : `takes item ${BigInt(reply) - 1n} \
(the reply is the item and 1)`;\n}\n\n// The flags that a number has, as bits.\nfunction flags\
In(bits) {\n  const flags = Array.from({ length: H.size }, (_, flag) => flag);\n  return flags\
.filter((flag) => (BigInt(bits) >> BigInt(flag)) & 1n);\n}\n\nfunction flagsAct(arg, reply) {\n  \
const set = flagsIn(arg);\n  const flags = `flag${set.length > 1 ? 's' : ''} ${listed(set)}`;\n  \
const others = set.length < H.size ? ' and no other' : '';\n  if (reply === '0') return `tries \
to set ${set.length ? flags : 'no flag'}${others}, in vain (reply 0)`;\n  return set.length ? \
`sets ${flags}${others}` : 'clears all flags';\n}\n\nfunction actWords(r) {\n  const [, , code\
, arg, reply] = r.words;\n  if (H.object === 'buffer' && (code === '0' || code === '1')) retur\
n bufferAct(code, arg, reply);\n  if (H.object === 'flags' && code === '0') return flagsAct(ar\
g, reply);\n  if (ACTS && ACTS[code]) {\n    return reply === '0' ? `tries ${ACTS[code][1]}, i\
n vain (reply 0)` : ACTS[code][0];\n  }\n  return `does ${code} ${arg} with reply ${reply}`;\n\
}\n\nfunction bufferWords([size, ...items]) {\n  if (items.length === 0) return [`No item (at \
most ${size}).`];\n  const [s, order] = items.length > 1 ? ['s', ', oldest first'] : ['', ''];\
\n  return [`Item${s} ${items.join(', ')}${order} (${items.length} of ${size}).`];\n}\n\nfunct\
ion bookWords([size, readers, writes]) {\n  if (writes) return ['Somebody writes.'];\n  if (!r\
eaders) return ['Nobody reads or writes.'];\n  return [`${readers === 1 ? 'One seat reads' : `\
${readers} seats read`} (at most ${size}).`];\n}\n\nfunction shopWords([size, waiting, cut]) {\
\n  const sit = ['Nobody sits and waits', 'One customer sits and waits'][waiting];\n  return [\
\n    `${sit || `${waiting} customers sit and wait`} (at most ${size}).`,\n    [\n      'The b\
arber\\u2019s chair is empty.',\n      'A cut is going on.',\n      'The cut is done; its cust\
omer is still there.',\n    ][cut],\n  ];\n}\n\nfunction flagsWords([size, bits]) {\n  const s\
et = flagsIn(bits);\n  if (set.length === 0) return [`No flag is set (of ${size}).`];\n  retur\
n [`${set.length === 1 ? 'Flag' : 'Flags'} ${listed(set)} set (of ${size}).`];\n}\n\nconst dat\
aWords = { buffer: bufferWords, book: bookWords, shop: shopWords, flags: flagsWords }[\n  H.ob\
ject\n];\n\n// The data at a step: those of the program, if they are told, else the object's.\n\
const dataLines = (r) => (TOLD.data ? [TOLD.data[r.step] || ''] : dataWords(r.state));\n\nfunc\
tion dataBox(r) {\n  const cls = TOLD.data ? 'code' : '';\n  return box('half', 'Data', '', ..\
.dataLines(r).map((words) => make('p', cls, words)));\n}\n\nfunction objectWords() {\n  return \
{\n    buffer: `a buffer for ${plural(H.size, 'item')}`,\n    book: `a book for ${plural(H.siz\
e, 'reader')}`,\n    shop: `a shop with ${plural(H.size, 'waiting chair')}`,\n    flags: `an o\
bject with ${plural(H.size, 'flag')}`,\n  }[H.object];\n}\n\n// The picture: monk's own, with \
a band over the step, and a veil over what follows.\n\nconst TOP = 44;\nconst NAMES = 72;\ncon\
st LEFT = 84;\nconst svg = root.querySelector('.picture svg');\nconst SCENE = `scene-${index}`\
;\nconst columns = new Map(); // the middle of each column, by its step\nconst view = { y: TOP\
, scale: 1 };\nlet gap = 76;\nlet bandBox;\nlet veil;\n\n// Crops the picture's head and legen\
d, which the page has itself. Its styles and patterns are those of the first.\nfunction cropPi\
cture() {\n  svg.classList.add('cropped');\n  if (index) svg.querySelectorAll('style, defs').f\
orEach((it) => it.remove());\n  svg.querySelectorAll('text.soft').forEach((t) => t.parentNode.\
nodeName === 'g' && t.parentNode.classList.add('legend'));\n  svg.querySelectorAll('.step').fo\
rEach((t) => {\n    columns.set(Number(t.textContent), Number(t.getAttribute('x')));\n  });\n  \
const [, , wide, high] = svg.getAttribute('viewBox').split(' ').map(Number);\n  const grid = s\
vg.querySelector('.grid');\n  const bottom = grid ? Number(grid.getAttribute('y2')) : high;\n  \
const xs = [...columns.values()];\n  if (xs.length > 1) gap = xs[1] - xs[0];\n  const w = xs.l\
ength ? Math.min(wide, xs[xs.length - 1] + gap) : wide;\n  Object.assign(view, { w, h: bottom \
+ 4 - TOP, high });\n  const scene = draw('g', { id: SCENE });\n  const isDrawn = (node) => no\
de.nodeName !== 'style' && node.nodeName !== 'defs';\n  scene.append(...[...svg.childNodes].fi\
lter(isDrawn));\n  svg.append(scene);\n  const ground = svg.querySelector('.background');\n  g\
round.setAttribute('width', wide);\n  ground.setAttribute('height', high);\n  svg.setAttribute\
('viewBox', `0 ${TOP} ${view.w} ${view.h}`);\n}\n\nfunction addBand() {\n  veil = draw('rect', \
{ class: 'veil', y: TOP, height: view.h }, svg);\n  const band = { class: 'band', y: TOP + 2, \
height: view.h - 4, width: gap, rx: 6 };\n  bandBox = draw('rect', band, svg);\n}\n\n// The se\
ats' names and the steps' numbers stay in view while the picture is scrolled.\nfunction addRul\
ers() {\n  const hidden = { 'aria-hidden': 'true' };\n  const lanes = draw('svg', { class: 'la\
nes', viewBox: `0 ${TOP} ${NAMES} ${view.h}`, ...hidden });\n  draw('use', { href: `#${SCENE}` \
}, lanes);\n  const numbers = draw('svg', { class: 'numbers', viewBox: `0 ${TOP} ${view.w} 24`\
, ...hidden });\n  const ground = svg.querySelector('.background').cloneNode();\n  numbers.app\
end(ground, ...[...svg.querySelectorAll('.step')].map((t) => t.cloneNode(true)));\n  const inn\
er = make('div', 'scroll');\n  svg.before(inner);\n  inner.append(numbers, lanes, svg);\n  ret\
urn { inner, lanes, numbers };\n}\n\nconst setSize = (element, width, height) => {\n  element.\
style.width = `${width}px`;\n  element.style.height = `${height}px`;\n};\n\nfunction fitPictur\
e(scale) {\n  const { inner, lanes, numbers } = rulers;\n  setSize(svg, view.w * scale, view.h \
* scale);\n  setSize(lanes, NAMES * scale, view.h * scale);\n  setSize(numbers, view.w * scale\
, 24 * scale);\n  numbers.style.marginBottom = `${-24 * scale}px`;\n  lanes.style.marginRight \
= `${-NAMES * scale}px`;\n  inner.style.width = `${view.w * scale}px`;\n  view.scale = scale;\n  \
fitLabels(scale);\n}\n\n// A ruler is shown if the picture can be scrolled along the other.\nf\
unction showRulers({ clientWidth, clientHeight }) {\n  const isSeen = { lanes: view.w * view.s\
cale > clientWidth + 1, numbers: view.h * view.scale > clientHeight + 1 };\n  for (const name \
in isSeen) rulers[name].style.visibility = isSeen[name] ? '' : 'hidden';\n}\n\n// Scrolls to t\
he step that is shown.\nfunction scroll() {\n  const r = R[now - first];\n  const x = columns.\
get(r.step);\n  const box = $('picture');\n  const middle = (x === undefined ? 0 : x) * view.s\
cale;\n  const right = box.scrollLeft + box.clientWidth;\n  if (middle < box.scrollLeft + 190 \
|| middle > right - 150) {\n    box.scrollLeft = middle - box.clientWidth / 2;\n  }\n  const m\
ark = x !== undefined && marks[r.step - first - 1].dot;\n  const dot = mark && mark.getAttribu\
te('transform').match(/translate\\(\\S+ (\\S+)\\)/);\n  if (!dot) return;\n  const y = (Number\
(dot[1]) - TOP) * view.scale;\n  if (y < box.scrollTop + 60 || y > box.scrollTop + box.clientH\
eight - 60) {\n    box.scrollTop = y - box.clientHeight / 2;\n  }\n}\n\n// While its step is a \
question, the picture ends at the call, whose mark stands above the veil.\nlet asked;\nfunctio\
n showPicture(r, isQuestion) {\n  if (asked) asked.remove();\n  const x = columns.get(r.step);\
\n  const leftmost = columns.size ? columns.values().next().value : gap;\n  const left = x === \
undefined ? leftmost - gap : x - gap / 2;\n  bandBox.setAttribute('x', left);\n  bandBox.style\
.display = x === undefined ? 'none' : '';\n  const behind = isQuestion ? x - 1 : r.step === la\
st ? view.w : x + gap * 0.68;\n  const from = x === undefined ? Math.max(LEFT, left + gap / 2) \
: behind;\n  veil.setAttribute('x', from);\n  veil.setAttribute('width', Math.max(0, view.w - \
from));\n  hideLater(r.step, isQuestion);\n  if (isQuestion) addAsked(marks[r.step - first - 1\
]);\n}\n\n// Without the mark's title, which has the whole event.\nfunction addAsked({ number, \
dot }) {\n  asked = draw('g', {}, svg);\n  asked.append(number.cloneNode(true), dot.cloneNode(\
true));\n  asked.querySelector('title').remove();\n}\n\n// The words in the picture: what an e\
vent is above its mark, and what belongs to it below, with numbers in words.\n\nconst LABEL = \
13.5; // pixels on the screen\nconst LEAST_LABEL = 11; // units of the picture\nconst PART_OF_\
SIZE = 0.56; // of a label's size: how wide a character is, more or less\nlet labels = [];\n\n\
const conditionLabel = (c) => CONDITIONS[c] || `condition ${c}`;\n\n// The predicates in a wor\
d or two.\nconst SHORT_PREDICATES = {\n  buffer: ['room', 'an item'],\n  book: ['may read', 'm\
ay write'],\n  shop: ['a chair', 'a customer', 'cut is done'],\n  flags: Array.from({ length: \
32 }, (_, flag) => `flag ${flag}`),\n}[H.object];\nconst predicateLabel = (p) => SHORT_PREDICA\
TES[p] || `predicate ${p}`;\n\nconst MOST_FLAGS = 3; // that are named, rather than counted\n\n\
function flagsLabel(arg) {\n  const set = flagsIn(arg);\n  if (set.length > MOST_FLAGS) return \
`${set.length} flags`;\n  return set.length ? `flag${set.length > 1 ? 's' : ''} ${set.join(', \
')}` : 'no flag';\n}\n\nfunction actLabels([, , code, arg, reply]) {\n  const isRefused = repl\
y === '0';\n  if (H.object === 'buffer' && code === '0') {\n    return isRefused ? [`put ${arg\
}`, 'no room'] : [`puts ${arg}`, ''];\n  }\n  if (H.object === 'buffer' && code === '1') {\n    \
return isRefused ? ['take', 'no item'] : [`takes ${BigInt(reply) - 1n}`, ''];\n  }\n  if (H.ob\
ject === 'flags' && code === '0') return [isRefused ? 'set' : 'sets', flagsLabel(arg)];\n  ret\
urn ACTS && ACTS[code] ? [null, isRefused ? 'refused' : ''] : [null, null];\n}\n\n// What stan\
ds above and below the mark; null where the picture's own words stay.\nfunction labelsOf(r) {\n  \
const [word, , a, b] = r.words;\n  switch (word) {\n    case 'act':\n      return actLabels(r.\
words);\n    case 'until':\n      return [null, predicateLabel(a)];\n    case 'signal-wait':\n      \
return ['signal,\\nwait', `${conditionLabel(a)},\\n${conditionLabel(b)}`];\n    case 'signal-l\
eave':\n      return ['signal,\\nleave', conditionLabel(a)];\n    case 'signal-all':\n      re\
turn ['signal\\nall', conditionLabel(a)];\n    case 'wait':\n    case 'signal':\n    case 'bro\
adcast':\n      return [null, conditionLabel(a)];\n    default:\n      return [null, null];\n  \
}\n}\n\n// Writes words, in one line or two, which are squeezed where they would be wider than \
that.\nfunction write(text, words, width, isAbove) {\n  const lines = words.split('\\n');\n  c\
onst spans = lines.map((line, i) => {\n    const span = draw('tspan', lines.length > 1 ? { x: \
text.getAttribute('x') || 0 } : {});\n    if (lines.length > 1) span.setAttribute('dy', i ? '1\
.05em' : isAbove ? '-1.05em' : '0');\n    span.textContent = line;\n    labels.push({ span, wi\
dth });\n    return span;\n  });\n  text.replaceChildren(...spans);\n}\n\nfunction writeMarks(\
) {\n  R.slice(1).forEach((r, i) => {\n    const { dot } = marks[i] || {};\n    if (!dot) retu\
rn;\n    const [above, below] = labelsOf(r);\n    for (const [cls, words] of [['.act', above], \
['.note', below]]) {\n      const text = dot.querySelector(cls);\n      if (text) write(text, \
words ?? text.textContent, gap - 6, cls === '.act');\n    }\n  });\n}\n\n// In the bars of who \
waits: the condition or the predicate, or in a short bar its number.\nfunction writeBars() {\n  \
svg.querySelectorAll('.what').forEach((text) => {\n    const [, letter, number] = /^([cp])(\\d\
+)$/.exec(text.textContent) || [];\n    const width = Number(text.previousElementSibling.getAt\
tribute('width'));\n    const isShort = width < gap;\n    const words = letter === 'c' ? condi\
tionLabel(number) : letter && predicateLabel(number);\n    const isNamed = letter === 'p' || C\
ONDITIONS[number];\n    if (letter) write(text, isShort && !isNamed ? number : words, Math.max\
(gap, width) - 22);\n  });\n}\n\n// The labels are as large on the screen whatever the picture \
is magnified by.\nfunction fitLabels(scale) {\n  const size = Math.max(LEAST_LABEL, LABEL / sc\
ale);\n  $('picture').style.setProperty('--label', `${size}px`);\n  labels.forEach(({ span, wi\
dth }) => {\n    const isWide = span.textContent.length * size * PART_OF_SIZE > width;\n    if \
(isWide) {\n      span.setAttribute('textLength', width);\n      span.setAttribute('lengthAdju\
st', 'spacingAndGlyphs');\n    } else {\n      span.removeAttribute('textLength');\n    }\n  }\
);\n}\n\n// Marks and numbers by step, so that those to come can be hidden; and a click, which \
goes to a step.\n\nlet marks = [];\nlet wrong = []; // what shows that the last step is wrong\n\
let markedUpTo = Infinity;\n\n// The mark of a step stands behind its number.\nfunction collec\
tMarks() {\n  const numbers = [...svg.querySelectorAll(`#${SCENE} .step`)];\n  marks = numbers\
.map((number) => {\n    const dot = number.nextElementSibling;\n    return { step: Number(numb\
er.textContent), number, dot };\n  });\n  if (fault) wrong = [...svg.querySelectorAll('.wrong, \
.frame, .wish')];\n}\n\n// Hides the marks of what follows; only those that change are touched\
.\nfunction hideLater(step, isQuestion) {\n  const low = Math.min(step, markedUpTo);\n  const \
high = Math.max(step, markedUpTo);\n  const changed = marks.filter((mark) => mark.step > low &\
& mark.step <= high);\n  changed.forEach((mark) => {\n    [mark.number, mark.dot].forEach((it) \
=> it.classList.toggle('later', mark.step > step));\n  });\n  wrong.forEach((it) => it.classLi\
st.toggle('later', step < last || Boolean(isQuestion)));\n  markedUpTo = step;\n}\n\n// The la\
nes by their seats, which have their names there.\nfunction nameLanes() {\n  const texts = [..\
.svg.querySelectorAll('text[x=\"16\"]')];\n  const names = texts.filter((t) => /^seat \\d+$/.t\
est(t.textContent));\n  return names.map((t) => {\n    const seat = Number(t.textContent.slice\
(5));\n    write(t, seatName(seat), NAMES - 18);\n    t.classList.add('lane');\n    draw('titl\
e', {}, t).textContent = 'this seat\\u2019s next event (with Shift: the one before)';\n    ret\
urn { seat, y: Number(t.getAttribute('y')) };\n  });\n}\n\nconst nearest = (all, distance) => \
all.reduce((a, b) => (distance(b) < distance(a) ? b : a));\n\nfunction nearestStep(x) {\n  if \
(x < columns.values().next().value - gap / 2) return first;\n  return nearest([...columns], ([\
, middle]) => Math.abs(middle - x))[0];\n}\n\n// The nearest event of a seat behind or before \
the step that is shown.\nfunction eventOfSeat(seat, way) {\n  const sought = R.filter((r) => N\
umber(r.words[1]) === seat && (r.step - now) * way > 0);\n  return sought.length ? nearest(sou\
ght, (r) => Math.abs(r.step - now)).step : undefined;\n}\n\n// On a seat's name a click goes t\
o its next event, with Shift to the one before; elsewhere to the step there.\nfunction clickPi\
cture(event) {\n  const { x, y } = new DOMPoint(event.clientX, event.clientY).matrixTransform(\
\n    svg.getScreenCTM().inverse(),\n  );\n  const left = event.clientX - $('picture').getBoun\
dingClientRect().left;\n  const isName = left < NAMES * view.scale && lanesAt.length;\n  const \
lane = isName && nearest(lanesAt, (it) => Math.abs(it.y - y));\n  const step = isName ? eventO\
fSeat(lane.seat, event.shiftKey ? -1 : 1) : nearestStep(x);\n  go(step === undefined ? now : s\
tep, own);\n}\n\n// Seats as tokens, in boxes.\n\nlet shown; // the record that is shown\n\nco\
nst hasMoved = (s) => shown.was && shown.was.at[s] !== shown.at[s] && !shown.bad;\n\nfunction \
token(s, place, tag) {\n  const element = make(tag || 'li', `seat ${place}${hasMoved(s) ? ' mo\
ved' : ''}`);\n  element.append(make('span', 'unseen', SEATS[s] ? '' : 'seat '), SEATS[s] || S\
tring(s));\n  return element;\n}\n\nfunction box(cls, title, note, ...inside) {\n  const head \
= make('h3', '', title);\n  if (note) head.append(make('span', 'quiet', note));\n  return make\
('div', `box card ${cls}`, head, ...inside);\n}\n\nfunction queueOf(seats, place) {\n  if (!se\
ats.length) return make('p', 'quiet', 'nobody');\n  return make('ol', 'seats', ...seats.map((s\
) => token(s, place)));\n}\n\n// All steps as a table: closed on the screen, printed.\n\nfunct\
ion rowOf(r) {\n  const link = make('a', '', String(r.step));\n  link.href = `#step=${r.step}`\
;\n  const happens = named(say(r) + (r.bad ? ` ${wrongWords(r)}` : ''));\n  const cells = [lin\
k, happens, ...placeCells(r), dataLines(r).join(' ')];\n  const isLong = (i) => i === 1 || i =\
== cells.length - 1 || isLongCell(i);\n  const tds = cells.map((cell, i) => make('td', isLong(\
i) ? '' : 'short', cell));\n  const line = make('tr', r.bad ? 'bad' : '', ...tds);\n  line.dat\
aset.step = r.step;\n  return line;\n}\n\nfunction headCell(words) {\n  const cell = make('th'\
, '', words);\n  cell.scope = 'col';\n  return cell;\n}\n\nlet rows = [];\nfunction fillTable(\
) {\n  if (rows.length) return;\n  rows = R.map(rowOf);\n  const head = make('thead', '', make\
('tr', '', ...headOf().map(headCell)));\n  $('table').append(make('table', '', head, make('tbo\
dy', '', ...rows)));\n}\n\nfunction markTable() {\n  rows.forEach((line) => {\n    const step \
= Number(line.dataset.step);\n    if (step === known()) line.setAttribute('aria-current', 'ste\
p');\n    else line.removeAttribute('aria-current');\n    line.hidden = !isKnown(step);\n  });\
\n}\n\n$('all').addEventListener('toggle', () => {\n  fillTable();\n  markTable();\n});\n\n// \
A step of this history is shown, or asked for.\n\nlet now;\nlet picked = null; // the kind who\
se verdict is asked for\nlet question = null; // the record whose step is asked for\nlet own; \
// this history, as the page steps it\nlet rulers;\nlet lanesAt;\n\n// Shows everything but th\
e sentence.\nfunction showAround(r, isQuestion) {\n  shown = isQuestion ? r.was : r;\n  showPi\
cture(r, isQuestion);\n  showBoxes(shown);\n  showKinds(shown);\n  markTable();\n  showVerdict\
();\n  // the boxes of several may be out of view\n  const isTold = TOLD.data && histories.len\
gth > 1;\n  $('data').textContent = isTold ? dataLines(shown).join(' ') : '';\n}\n\nfunction s\
how(step, kind) {\n  now = Math.max(first, Math.min(last, Number.isFinite(step) ? step : first\
));\n  picked = kind || null;\n  question = null;\n  const r = R[now - first];\n  root.classLi\
st.toggle('over', step > last);\n  $('answer').textContent = '';\n  showAround(r);\n  showChoi\
ces(r);\n  showSay(r);\n}\n\n// What is known: while a step is asked for, only those before it\
.\nconst known = () => (question ? now - 1 : now);\nconst isKnown = (step) => !isHiding() || s\
tep <= known();\n\nfunction showAgain() {\n  if (question && byId('ask').checked) own.ask(now)\
;\n  else show(now, picked);\n}\n\nfunction nextRefused() {\n  const isRefused = (r) => r.bad \
|| (r.words[0] === 'act' && r.words[4] === '0');\n  const found = R.find((r) => r.step > now &\
& isRefused(r));\n  return found && found.step;\n}\n\nfunction nextOfThisSeat(way) {\n  const \
{ words } = R[now - first];\n  return words.length ? eventOfSeat(Number(words[1]), way) : unde\
fined;\n}\n\nfunction beginPicture() {\n  lanesAt = nameLanes();\n  cropPicture();\n  addBand(\
);\n  rulers = addRulers();\n  collectMarks();\n  writeMarks();\n  writeBars();\n  svg.addEven\
tListener('click', clickPicture);\n}\n\n// This history, and what it has that only its kind of \
page has.\nfunction beginHistory(more) {\n  $('about').textContent = headWords();\n  for (cons\
t cls of ['stage', 'kinds', 'all']) $(cls).hidden = false;\n  $('stage').addEventListener('cli\
ck', () => isInStep() || go(now, own));\n  now = H.before ? last : first;\n  beginPicture();\n  \
own = {\n    ...{ root, view, first, last, show, showAgain, showAll, nextRefused, nextOfThisSe\
at },\n    ...{ scroll, showRulers, fit: fitPicture, box: $('picture') },\n    eventAt: (step) \
=> (R[step - first] || {}).event,\n    get now() {\n      return now;\n    },\n    get isAsked\
() {\n      return Boolean(question);\n    },\n    ...more,\n  };\n  return own;\n}\n\n// Prin\
t: the picture in strips with its legend, and the table.\n\nconst ACROSS = 12; // steps in a s\
trip\nlet screenDark = null;\n\nfunction addStrip(from) {\n  const width = ACROSS * gap;\n  co\
nst strip = draw('svg', { viewBox: `0 0 ${LEFT + width} ${view.h}` }, $('strips'));\n  const b\
ox = `0 ${view.y} ${LEFT} ${view.h}`;\n  const names = draw('svg', { width: LEFT, height: view\
.h, viewBox: box }, strip);\n  draw('use', { href: `#${SCENE}` }, names);\n  const part = { x: \
LEFT, width, height: view.h, viewBox: `${from} ${view.y} ${width} ${view.h}` };\n  draw('use', \
{ href: `#${SCENE}` }, draw('svg', part, strip));\n}\n\nfunction addStrips() {\n  if ($('strip\
s').firstChild) return;\n  const xs = [...columns.values()];\n  for (let i = 0; i < Math.max(1\
, xs.length); i += ACROSS) {\n    addStrip(i === 0 ? LEFT : xs[i] - gap / 2);\n  }\n  const un\
der = view.y + view.h;\n  const high = Math.max(1, view.high - under);\n  const box = `0 ${und\
er} ${LEFT + ACROSS * gap} ${high}`;\n  draw('use', { href: `#${SCENE}` }, draw('svg', { viewB\
ox: box }, $('strips')));\n}\n\nfunction showAll() {\n  fillTable();\n  $('all').open = true;\n  \
showKinds(R[R.length - 1], true);\n  addStrips();\n}\n\n";
